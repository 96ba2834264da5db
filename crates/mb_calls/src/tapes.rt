//! Tapes, read from pieces, and written.

ghost use Rattle.std.specs.Prelude.{◌<◌};

use crate::text::{Text, put_bytes, put_line};
use mb_frames::{Gather, Tape, TapeFault, TapePart, put_header, tape_magic};
use mb_message::Buf;
use mb_print::{Line, put_number};

/// Appends a word, and numbers each behind a blank.
fn put_numbers(word: &str, numbers: &[u64], text: &mut Text) {
    put_line(word.as_bytes(), text);
    for number in numbers {
        let mut line = Line::new();
        put_number(*number, &mut line);
        put_line(b" ", text);
        put_line(line.as_slice(), text);
    }
    put_line(b"\n", text);
}

/// Appends the line of a part: a record's moment, track and length; bytes as they were lent; its end.
fn put_part(part: TapePart<'_>, text: &mut Text) {
    match part {
        TapePart::Begin { moment, track, len } => {
            put_numbers("begin", &[moment, u64::from(track), u64::from(len)], text);
        }
        TapePart::Bytes(bytes) => put_bytes("bytes", bytes, text),
        TapePart::End => put_line(b"end\n", text),
    }
}

/// Appends the line of a fault, with the moments that it has.
fn put_fault(fault: TapeFault, text: &mut Text) {
    match fault {
        TapeFault::Magic => put_numbers("magic", &[], text),
        TapeFault::Back { was, now } => put_numbers("back", &[was, now], text),
        TapeFault::Far { now } => put_numbers("far", &[now], text),
        TapeFault::Zero => put_numbers("zero", &[], text),
    }
}

/// Reads a piece to its end, or to a fault, which it answers.
fn read_piece(tape: &mut Tape, piece: &[u8], text: &mut Text) -> Option<TapeFault> {
    let mut rest = piece;
    'parts: loop {
        match tape.next(&mut rest) {
            Ok(Some(part)) => put_part(part, text),
            Ok(None) => return None,
            Err(fault) => return Some(fault),
        }
    }
}

/// The lines of a tape that comes in pieces of a size, up to its fault, with `partial` where it isn't whole.
fn told_in_pieces(bytes: &[u8], size: usize) -> Text
    requires { 0 < size }
{
    let mut tape = Tape::new();
    let mut text = Text::new();
    let mut rest = bytes;
    'pieces: while !rest.is_empty() {
        let (piece, others) = rest.split_at(rest.len().min(size));
        if let Some(fault) = read_piece(&mut tape, piece, &mut text) {
            put_fault(fault, &mut text);
            return text;
        }
        rest = others;
    }
    if tape.partial() {
        put_line(b"partial\n", &mut text);
    }
    text
}

/// Tapes, and their lines when they come in pieces of two bytes.
const TAPES: &[(&[u8], &str)] = &[
    (b"", "partial\n"),
    (b"MBT", "partial\n"),
    (b"MBT1", ""),
    (b"MBU1", "magic\n"),
    (b"MBT3", "magic\n"),
    (
        b"MBT1\0\0\0\0\0\0\0\x05\0\x01\xf8",
        "begin 5000 0 1\nbytes F8\nend\n",
    ),
    (
        b"MBT2\0\0\0\0\0\0\x05\xdc\x01\0\x03\x90\x3c\x64",
        "begin 1500 1 3\nbytes 90\nbytes 3C 64\nend\n",
    ),
    (b"MBT2\0\0\0\0\0\0\x05\xdc\x01\0", "partial\n"),
    (
        b"MBT2\0\0\0\0\0\0\0\0\xff\x01\0\xf8",
        "begin 0 255 256\nbytes F8\npartial\n",
    ),
    (
        b"MBT1\0\0\0\0\0\0\0\x05\0\x01\xf8\0\0\0\0\0\0\0\x03\0\0",
        "begin 5000 0 1\nbytes F8\nend\nback 5 3\n",
    ),
    (
        b"MBT1\0\x41\x89\x37\x4b\xc6\xa7\xef\0\x01\xf8",
        "begin 18446744073709551000 0 1\nbytes F8\nend\n",
    ),
    (
        b"MBT1\0\x41\x89\x37\x4b\xc6\xa7\xf0\0\0",
        "far 18446744073709552\n",
    ),
    (b"MBT2\xff\xff\xff\xff\xff\xff\xff\xff\0\0\0", "zero\n"),
];

#[test]
fn parts_of_tapes(rt: HostRuntime) {
    for (bytes, told) in TAPES {
        let text = told_in_pieces(bytes, 2);
        assert!(rt; text.as_slice() == told.as_bytes(), "{told}");
    }
}

/// A fault is answered again, and nothing more is taken.
#[test]
fn fault_again(rt: HostRuntime) {
    let mut tape = Tape::new();
    let mut rest = b"MBU1".as_slice();
    let first = tape.next(&mut rest);
    let left = rest.len();
    let second = tape.next(&mut rest);
    assert!(rt;
        first == Err(TapeFault::Magic) && second == first && rest.len() == left && left == 1
    );
}

#[test]
fn written_tapes(rt: HostRuntime) {
    let mut out = Buf::new();
    tape_magic(&mut out);
    put_header(0x0102_0304_0506_0708, 9, 0x0a0b, &mut out);
    assert!(rt; out.as_slice() == b"MBT2\x01\x02\x03\x04\x05\x06\x07\x08\x09\x0a\x0b".as_slice());
}

/// A record for each stretch of one moment.
#[test]
fn gathered_bytes(rt: HostRuntime) {
    let mut out = Buf::new();
    let mut gather = Gather::new();
    gather.put(0, 0x90, &mut out);
    gather.put(0, 0x3c, &mut out);
    gather.put(2000, 0xf8, &mut out);
    gather.finish(&mut out);
    assert!(rt;
        out.as_slice()
            == b"\0\0\0\0\0\0\0\0\0\0\x02\x90\x3c\0\0\0\0\0\0\x07\xd0\0\0\x01\xf8".as_slice()
    );
}

#[test]
fn a_magic_is_taken_with_its_last_byte(rt: HostRuntime) {
    let mut tape = Tape::new();
    assert!(rt; !tape.has_magic());
    assert!(rt; tape.next(&mut b"MBT".as_slice()).is_ok() && !tape.has_magic());
    assert!(rt; tape.next(&mut b"2".as_slice()).is_ok() && tape.has_magic());
    // of the bytes behind a fault none is taken
    let mut rest = b"\0\0\0\0\0\0\0\0\0\0\0\x01\x02".as_slice();
    assert!(rt; tape.next(&mut rest).is_err() && tape.has_magic());
    assert!(rt; rest == [1, 2].as_slice());
}
