//! Readers and writers of any port, call by call.

ghost use Rattle.std.specs.Prelude.{◌≡◌, ◌+◌, ◌≤◌, ◌^◌, length};
ghost use Rattle.mb_carrier.specs.Port.{reader_offset};

use arrayvec::ArrayVec;
use mb_carrier::{PortReader, PortStep, PortWriter, Spec};
use mb_message::{Buf, Ev, Mark};
use mb_print::{Line, mark_line, note_line};

/// Lines of what a port tells: of a mark its moment and what it is, of a note `note`, its place and its kind.
type Text = ArrayVec<u8, 1024>;

fn put_mark(moment: u64, mark: Mark, text: &mut Text) {
    let mut line = Line::new();
    mark_line(moment, mark, &mut line);
    let _ = text.try_extend_from_slice(line.as_slice());
}

fn put_step(step: PortStep<'_>, text: &mut Text) {
    match step {
        PortStep::Note(note) => {
            let mut line = Line::new();
            note_line(note, true, &mut line);
            let _ = text.try_extend_from_slice(line.as_slice());
        }
        PortStep::Ev { moment, ev } => match ev {
            Ev::Short(short) => put_mark(moment, Mark::Short(short), text),
            Ev::Rt(message) => put_mark(moment, Mark::Rt(message), text),
            Ev::Open => put_mark(moment, Mark::Open, text),
            Ev::Run(bytes) => {
                for byte in bytes {
                    put_mark(moment, Mark::Byte(*byte), text);
                }
            }
            Ev::End => put_mark(moment, Mark::End, text),
            Ev::Abort => put_mark(moment, Mark::Abort, text),
        },
    }
}

/// Appends the lines of an answer: `none` where nothing was told.
fn put_answer(answer: Option<PortStep<'_>>, text: &mut Text) {
    match answer {
        Some(step) => put_step(step, text),
        None => {
            let _ = text.try_extend_from_slice(b"none\n");
        }
    }
}

fn read_piece(reader: &mut PortReader, piece: &[u8], text: &mut Text)
    requires early { reader_offset reader.old + length piece.now ≤ 2 ^ 51 + 2 ^ 14 }
    ensures end { reader_offset reader.new ≡ reader_offset reader.old + length piece.now }
    ensures moment { reader.new.moment ≡ reader.old.moment }
{
    let mut rest = piece;
    'steps: while let Some(step) = reader.next(&mut rest) {
        put_step(step, text);
    }
}

/// The same at a moment that is set.
fn read_at(reader: &mut PortReader, moment: u64, piece: &[u8], text: &mut Text)
    requires early { reader_offset reader.old + length piece.now ≤ 2 ^ 51 + 2 ^ 14 }
    requires later { reader.old.moment ≤ moment }
    ensures end { reader_offset reader.new ≡ reader_offset reader.old + length piece.now }
    ensures moment { reader.new.moment ≡ moment }
{
    reader.set_moment(moment);
    read_piece(reader, piece, text);
}

/// What the row shows, the port, its bytes at moment 1250 and at 1251, what they and two finishes tell, and whether a
/// packet is cut.
type Port = (
    &'static str,
    &'static str,
    &'static [u8],
    &'static [u8],
    &'static str,
    bool,
);

const PORTS: &[Port] = &[
    (
        "a note, a dump with a clock inside and a message that is cut",
        "usb:2",
        &[0x29, 0x90, 0x3c, 0x64, 0x24, 0xf0, 0x01, 0x02],
        &[0x2f, 0xf8, 0, 0, 0x29, 0x90],
        "1250 short 90 3C 64\n1250 open\n1250 data 01\n1250 data 02\n1251 rt F8\n1251 abort\nnote 13 truncated\nnone\n",
        true,
    ),
    (
        "a dump that a quadlet's end cuts, and a clock behind it",
        "fw:5",
        &[0, 0x0c, 0, 1, 0, 5, 0x90, 2, 0xff, 0xff, 0x83, 0xf0, 0x07],
        &[0xf8, 0, 0x0c],
        "1250 open\n1250 data 07\n1251 rt F8\n1251 abort\nnone\n",
        true,
    ),
    (
        "packets have moments of their own",
        "ble",
        &[0, 9, 0x80, 0x85, 0x90, 0x3c, 0x64],
        &[0x86, 0xf0, 0x01],
        "5 short 90 3C 64\n6 open\n6 data 01\n6 abort\nnone\n",
        true,
    ),
    (
        "a line is never partial",
        "din",
        &[0xf0],
        &[0x01],
        "1250 open\n1251 data 01\n1251 abort\nnone\n",
        false,
    ),
];

#[test]
fn a_port_is_read_at_the_moments_that_are_set(rt: HostRuntime) {
    for (shows, word, first, second, told, partial) in PORTS {
        let mut reader = PortReader::new(Spec::read(word).expect(&rt, "a port"));
        let mut text = Text::new();
        assert!(rt; first.len() <= 512, "{shows}: a piece");
        read_at(&mut reader, 1250, first, &mut text);
        assert!(rt; second.len() <= 512, "{shows}: a piece");
        read_at(&mut reader, 1251, second, &mut text);
        assert!(rt; reader.partial() == *partial, "{shows}");
        put_answer(reader.finish(), &mut text);
        put_answer(reader.finish(), &mut text);
        assert!(rt; text.as_slice() == told.as_bytes(), "{shows}");
    }
}

/// Whether a SysEx of one byte becomes this at once, and this with the finish. Each call has a buffer of its own.
fn writes(writer: &mut PortWriter, at_once: &[u8], whole: &[u8]) -> bool {
    if writer.in_sysex() || writer.room() > 1024 {
        return false;
    }
    let mut written = Buf::new();
    let mut start = Buf::new();
    writer.put(0, Ev::Open, &mut start);
    let _ = written.try_extend_from_slice(start.as_slice());
    let mut data = Buf::new();
    writer.put(7, Ev::Run(&[0x01]), &mut data);
    let _ = written.try_extend_from_slice(data.as_slice());
    let mut flushed = Buf::new();
    writer.flush(&mut flushed);
    let _ = written.try_extend_from_slice(flushed.as_slice());
    if !writer.in_sysex() || written.as_slice() != at_once {
        return false;
    }
    let mut rest = Buf::new();
    writer.finish(&mut rest);
    let _ = written.try_extend_from_slice(rest.as_slice());
    !writer.in_sysex() && written.as_slice() == whole
}

/// A start of a SysEx and a byte of it as packets of port 0, and of port 8.
const DUMP_OF_0: &[u8] = &[
    0, 0x28, 0, 1, 0, 0, 0x90, 2, 0xff, 0xff, 0x81, 0xf0, 0, 0, 0x80, 0, 0, 0, 0x80, 0, 0, 0, 0x80,
    0, 0, 0, 0x80, 0, 0, 0, 0x80, 0, 0, 0, 0x80, 0, 0, 0, 0x80, 0, 0, 0, 0, 0x28, 0, 1, 0, 8, 0x90,
    2, 0xff, 0xff, 0x81, 0x01, 0, 0, 0x80, 0, 0, 0, 0x80, 0, 0, 0, 0x80, 0, 0, 0, 0x80, 0, 0, 0,
    0x80, 0, 0, 0, 0x80, 0, 0, 0, 0x80, 0, 0, 0,
];

const DUMP_OF_8: &[u8] = &[
    0, 0x48, 0, 2, 0, 0, 0x90, 2, 0xff, 0xff, 0x80, 0, 0, 0, 0x81, 0xf0, 0, 0, 0x80, 0, 0, 0, 0x80,
    0, 0, 0, 0x80, 0, 0, 0, 0x80, 0, 0, 0, 0x80, 0, 0, 0, 0x80, 0, 0, 0, 0x80, 0, 0, 0, 0x80, 0, 0,
    0, 0x80, 0, 0, 0, 0x80, 0, 0, 0, 0x80, 0, 0, 0, 0x80, 0, 0, 0, 0x80, 0, 0, 0, 0x80, 0, 0, 0, 0,
    0x48, 0, 2, 0, 8, 0x90, 2, 0xff, 0xff, 0x80, 0, 0, 0, 0x81, 0x01, 0, 0, 0x80, 0, 0, 0, 0x80, 0,
    0, 0, 0x80, 0, 0, 0, 0x80, 0, 0, 0, 0x80, 0, 0, 0, 0x80, 0, 0, 0, 0x80, 0, 0, 0, 0x80, 0, 0, 0,
    0x80, 0, 0, 0, 0x80, 0, 0, 0, 0x80, 0, 0, 0, 0x80, 0, 0, 0, 0x80, 0, 0, 0, 0x80, 0, 0, 0,
];

/// The same as a packet, which a flush ends.
const DUMP_IN_A_PACKET: &[u8] = &[0, 4, 0x80, 0x80, 0xf0, 0x01];

/// A port, the room that its writer asks for, the longest run that it takes, and what a SysEx of one byte becomes at
/// once, and with the finish.
const WRITTEN: &[(&str, usize, usize, &[u8], &[u8])] = &[
    ("din", 16, 16, &[0xf0, 0x01], &[0xf0, 0x01]),
    ("usb:2", 24, 16, &[], &[0x2f, 0xf0, 0, 0, 0x2f, 0x01, 0, 0]),
    ("fw:0", 672, 16, DUMP_OF_0, DUMP_OF_0),
    ("fw:8", 798, 3, DUMP_OF_8, DUMP_OF_8),
    ("ble", 108, 16, DUMP_IN_A_PACKET, DUMP_IN_A_PACKET),
    ("ble/512", 600, 16, DUMP_IN_A_PACKET, DUMP_IN_A_PACKET),
];

#[test]
fn a_port_is_written(rt: HostRuntime) {
    for (word, room, longest, at_once, whole) in WRITTEN {
        let spec = Spec::read(word).expect(&rt, "a port");
        let mut writer = PortWriter::new(rt.alloc(), spec).expect(&rt, "memory");
        assert!(rt; writer.room() == *room, "{word}: room");
        assert!(rt; writer.longest() == *longest, "{word}: longest");
        assert!(rt; writes(&mut writer, at_once, whole), "{word}");
    }
}
