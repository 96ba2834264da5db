//! Standard MIDI Files, read from pieces, and written.

ghost use Rattle.std.specs.Prelude.{◌≡◌, ◌≤◌, ◌<◌, ◌+◌, ◌^◌, length, false, OnOk};
ghost use Rattle.mb_smf.specs.TrackWriting.{is_full};

use crate::marks::Sample;
use crate::text::{Text, put_bytes, put_line};
use mb_message::suits;
use mb_outside::MemoryOut;
use mb_print::{Line, put_number};
use mb_smf::{SmfFault, SmfFull, SmfPart, SmfReader, SmfWhy, SmfWriter};
use mb_tapes::Playing;
use std::alloc::Global;

/// Appends a number and a blank.
fn put_ahead(number: u64, text: &mut Text) {
    let mut line = Line::new();
    put_number(number, &mut line);
    put_line(line.as_slice(), text);
    put_line(b" ", text);
}

/// Appends the line of a part: its moment, and its bytes as they were lent.
fn put_part(part: SmfPart<'_>, text: &mut Text) {
    match part {
        SmfPart::Byte { moment, byte } => {
            put_ahead(moment, text);
            put_bytes("byte", &[byte], text);
        }
        SmfPart::Run { moment, bytes } => {
            put_ahead(moment, text);
            put_bytes("run", bytes, text);
        }
    }
}

fn word_of(why: SmfWhy) -> &'static str {
    match why {
        SmfWhy::Header => "header\n",
        SmfWhy::Format => "format\n",
        SmfWhy::Division => "division\n",
        SmfWhy::Number => "number\n",
        SmfWhy::Far => "far\n",
        SmfWhy::Event => "event\n",
        SmfWhy::Tempo => "tempo\n",
        SmfWhy::Track => "track\n",
    }
}

/// Appends the line of a fault: the offset of the byte that shows it, and what it is.
fn put_fault(fault: SmfFault, text: &mut Text) {
    put_ahead(fault.at, text);
    put_line(word_of(fault.why).as_bytes(), text);
}

/// Appends what a piece gives, up to its end or to a fault, and answers whether it is one.
fn read_piece(file: &mut SmfReader, piece: &[u8], text: &mut Text) -> bool
    requires early { file.old.file.offset + length piece.now < 2 ^ 63 }
    ensures end { file.new.file.offset ≤ file.old.file.offset + length piece.now }
{
    let mut rest = piece;
    'parts: loop {
        match file.next(&mut rest) {
            Ok(Some(part)) => put_part(part, text),
            Ok(None) => return false,
            Err(fault) => {
                put_fault(fault, text);
                return true;
            }
        }
    }
}

/// The lines of a file that comes in pieces of a size, up to its fault, with `ended` where the track's end was read.
fn given_in_pieces(bytes: &[u8], size: usize) -> Text
    requires some { 0 < size }
    requires early { length bytes.now < 2 ^ 62 }
{
    let mut file = SmfReader::new();
    let mut text = Text::new();
    let mut rest = bytes;
    'pieces: while !rest.is_empty() {
        let (piece, others) = rest.split_at(rest.len().min(size));
        rest = others;
        if read_piece(&mut file, piece, &mut text) {
            return text;
        }
    }
    if file.ended() {
        put_line(b"ended\n", &mut text);
    }
    text
}

/// Files, and what they give when they come in pieces of five bytes.
const GIVEN: &[(&[u8], &str)] = &[
    (
        // running status, a quarter note of half a second
        b"MThd\0\0\0\x06\0\0\0\x01\0\x60MTrk\0\0\0\x0b\0\x90\x3c\x64\x60\x3c\0\0\xff\x2f\0",
        "0 byte 90\n0 byte 3C\n0 byte 64\n500000 byte 90\n500000 byte 3C\n500000 byte 00\nended\n",
    ),
    (
        // a longer header, a foreign chunk, and bytes behind the end
        b"MThd\0\0\0\x07\0\0\0\x01\0\x60\xf8XTrk\0\0\0\x01\x4dMTrk\0\0\0\x08\0\xf7\x01\xf8\0\xff\x2f\0\x90",
        "0 run F8\nended\n",
    ),
    (
        // a dump that pieces cut
        b"MThd\0\0\0\x06\0\0\0\x01\0\x60MTrk\0\0\0\x0e\0\xf0\x07\x01\x02\x03\x04\x05\x06\xf7\0\xff\x2f\0",
        "0 byte F0\n0 run 01 02 03 04 05\n0 run 06 F7\nended\n",
    ),
    (
        // a track that ends before its end event
        b"MThd\0\0\0\x06\0\0\0\x01\0\x60MTrk\0\0\0\x04\0\x90\x3c\x64",
        "0 byte 90\n0 byte 3C\n25 track\n",
    ),
    (b"MThd\0\0\0\x06\0\x01\0\x02\0\x60", "11 format\n"),
    (b"MThe", "3 header\n"),
    (b"MThd\0\0\0\x06\0\0\0\x01\xe7\x28", "13 division\n"),
    (
        // running status behind a meta-event
        b"MThd\0\0\0\x06\0\0\0\x01\0\x60MTrk\0\0\0\x20\0\xc0\x05\0\xff\x01\0\0\x06",
        "0 byte C0\n0 byte 05\n30 event\n",
    ),
    (
        b"MThd\0\0\0\x06\0\0\0\x01\0\x60MTrk\0\0\0\x20\x81\x80\x80\x80\0",
        "25 number\n",
    ),
    (
        b"MThd\0\0\0\x06\0\0\0\x01\0\x60MTrk\0\0\0\x20\0\xff\x51\x02",
        "25 tempo\n",
    ),
];

#[test]
fn files_give_their_bytes(rt: HostRuntime) {
    for (bytes, given) in GIVEN {
        assert!(rt; bytes.len() <= 64);
        let text = given_in_pieces(bytes, 5);
        assert!(rt; text.as_slice() == given.as_bytes(), "{given}");
    }
}

/// A fault is answered again, and nothing more is taken.
#[test]
fn file_fault_again(rt: HostRuntime) {
    let mut file = SmfReader::new();
    let mut rest = b"MU".as_slice();
    let first = file.next(&mut rest);
    let left = rest.len();
    let second = file.next(&mut rest);
    let fault = Err(SmfFault {
        at: 1,
        why: SmfWhy::Header,
    });
    assert!(rt; first == fault && second == fault && rest.len() == left && !file.ended());
}

/// Puts marks at their moments, in turn, up to an answer that takes none.
fn put_all(writer: &mut SmfWriter, marks: &[(u64, Sample)]) -> Result<(), SmfFull>
    requires { is_full writer.old ≡ false }
    ensures { OnOk result (is_full writer.new ≡ false) }
{
    'marks: for (moment, sample) in marks {
        let mark = sample.mark();
        if *moment >= writer.moment() && suits(writer.in_sysex(), mark) {
            writer.put(*moment, mark)?;
        }
    }
    Ok(())
}

/// What stands before the track's length.
pub(crate) const HEADS: &[u8] = b"MThd\0\0\0\x06\0\0\0\x01\x03\xe8MTrk";

/// Whether these marks make the file of this length and track.
fn writes(alloc: Global, marks: &[(u64, Sample)], track: &[u8]) -> bool {
    let Ok(mut out) = MemoryOut::new(alloc, 1024) else {
        return false;
    };
    let mut writer = SmfWriter::new(alloc);
    if put_all(&mut writer, marks).is_err() {
        return false;
    }
    if writer.finish(&mut out).is_err() {
        return false;
    }
    let (heads, rest) = out.bytes().split_at(out.bytes().len().min(18));
    heads == HEADS && rest == track
}

/// Marks with their moments, and the length and track that they make.
const WRITTEN: &[(&[(u64, Sample)], &[u8])] = &[
    (&[], b"\0\0\0\x0b\0\xff\x51\x03\x0f\x42\x40\0\xff\x2f\0"),
    (
        // a message, a clock of the same moment, a dump two milliseconds later
        &[
            (5000, Sample::Note),
            (5000, Sample::Clock),
            (7000, Sample::Open),
            (7000, Sample::Byte(1)),
            (7000, Sample::End),
        ],
        b"\0\0\0\x18\0\xff\x51\x03\x0f\x42\x40\0\x90\x3c\x64\0\xf7\x01\xf8\x02\xf0\x02\x01\xf7\0\xff\x2f\0",
    ),
    (
        // a clock of a dump comes before it; the dump is still open at the end
        &[
            (0, Sample::Tune),
            (0, Sample::Open),
            (130_999, Sample::Clock),
            (140_000, Sample::Byte(5)),
        ],
        b"\0\0\0\x19\0\xff\x51\x03\x0f\x42\x40\0\xf7\x01\xf6\x81\x02\xf7\x01\xf8\x0a\xf7\x02\xf0\x05\0\xff\x2f\0",
    ),
];

#[test]
fn files_of_marks(rt: HostRuntime) {
    for (marks, file) in WRITTEN {
        assert!(rt; writes(rt.alloc(), marks, file));
    }
}

/// The greatest delta, and one millisecond more.
#[test]
fn gap_between_marks(rt: HostRuntime) {
    let mut writer = SmfWriter::new(rt.alloc());
    let marks = [(0, Sample::Clock), (268_435_455_999, Sample::Clock)];
    assert!(rt; put_all(&mut writer, &marks).is_ok());
    let gap = SmfFull::Gap {
        was: 268_435_455_999,
        now: 536_870_911_000,
    };
    assert!(rt; put_all(&mut writer, &[(536_870_911_000, Sample::Clock)]) == Err(gap));
}

/// The tape of a file that comes in pieces of a size, and whether it ended there without a fault.
fn plays(alloc: Global, file: &[u8], size: usize, tape: &[u8]) -> bool
    requires some { 0 < size }
    requires early { length file.now ≤ 1024 }
{
    let Ok(mut out) = MemoryOut::new(alloc, 1024) else {
        return false;
    };
    let mut playing = Playing::new();
    let mut rest = file;
    'pieces: while !rest.is_empty() {
        let (piece, others) = rest.split_at(rest.len().min(size));
        rest = others;
        if playing.feed(piece, &mut out) != Ok(None) {
            return false;
        }
    }
    playing.ended() && playing.finish(&mut out).is_ok() && out.bytes() == tape
}

/// Files, and the tapes that they are played onto.
const PLAYED: &[(&[u8], &[u8])] = &[
    (
        b"MThd\0\0\0\x06\0\0\0\x01\0\x60MTrk\0\0\0\x0b\0\x90\x3c\x64\x60\x3c\0\0\xff\x2f\0",
        b"MBT2\0\0\0\0\0\0\0\0\0\0\x03\x90\x3c\x64\0\0\0\0\0\x07\xa1\x20\0\0\x03\x90\x3c\0",
    ),
    (
        b"MThd\0\0\0\x06\0\0\0\x01\x03\xe8MTrk\0\0\0\x0d\0\xf7\x01\xf8\x02\xf0\x02\x01\xf7\0\xff\x2f\0",
        b"MBT2\0\0\0\0\0\0\0\0\0\0\x01\xf8\0\0\0\0\0\0\x03\xe8\0\0\x03\xf0\x01\xf7",
    ),
];

#[test]
fn files_played_onto_tapes(rt: HostRuntime) {
    for (file, tape) in PLAYED {
        assert!(rt; file.len() <= 1024);
        assert!(rt; plays(rt.alloc(), file, 7, tape));
    }
}
