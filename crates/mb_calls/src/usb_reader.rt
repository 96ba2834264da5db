//! The readers of all cables and of one.

ghost use Rattle.std.specs.Prelude.{◌≡◌, ◌+◌, ◌<◌, ◌^◌, length};
ghost use Rattle.mb_usb.specs.State.{usb_offset, cable_offset};

use crate::text::{Runs, Text, put_answer, put_mark, put_note, put_seen};
use mb_message::{Buf, Mark, PortSeen, Short};
use mb_usb::{CableReader, UsbReader};

/// Appends what a piece tells, up to the answer of nothing.
fn read_piece(reader: &mut UsbReader, piece: &[u8], runs: Runs, text: &mut Text)
    requires { usb_offset reader.old + length piece.now < 2 ^ 63 }
    ensures { usb_offset reader.new ≡ usb_offset reader.old + length piece.now }
{
    let mut rest = piece;
    'told: while let Some(seen) = reader.next(&mut rest) {
        match seen {
            PortSeen::Port(cable, seen) => put_seen(cable, seen, runs, text),
            PortSeen::Unit(note) => put_note(note, text),
        }
    }
}

fn told_in_pieces(bytes: &[u8], size: usize) -> Text
    requires some { 0 < size }
    requires early { length bytes.now < 2 ^ 63 }
{
    let mut reader = UsbReader::new();
    let mut text = Text::new();
    let mut rest = bytes;
    'pieces: while !rest.is_empty() {
        let (piece, tail) = rest.split_at(rest.len().min(size));
        read_piece(&mut reader, piece, Runs::ByteByByte, &mut text);
        rest = tail;
    }
    text
}

fn told_cut_at(bytes: &[u8], cut: usize) -> Text
    requires { length bytes.now < 2 ^ 63 }
{
    let mut reader = UsbReader::new();
    let mut text = Text::new();
    let (front, back) = bytes.split_at(bytes.len().min(cut));
    read_piece(&mut reader, front, Runs::ByteByByte, &mut text);
    read_piece(&mut reader, back, Runs::ByteByByte, &mut text);
    text
}

/// Packets, and what they tell.
const TOLD: &[(&[u8], &str)] = &[
    (
        // a running status on each cable
        &[
            0x19, 0x90, 0x3c, 0x64, 0x0f, 0xf8, 0, 0, 0x0c, 0xc0, 5, 0xff, 0x1f, 0x40, 0x7f, 0x7f,
            0x1f, 0x64, 0, 0,
        ],
        "1 short 90 3C 64\n0 rt F8\n0 short C0 05\n1 short 90 40 64\n",
    ),
    (
        // a number that doesn't suit
        &[0x08, 0x90, 0x3c, 0x64],
        "0 short 90 3C 64\nnote 0 cin-mismatch\n",
    ),
    (
        // a dump over two packets
        &[0x04, 0xf0, 1, 2, 0x04, 3, 4, 5],
        "0 open\n0 data 01\n0 data 02\n0 data 03\n0 data 04\n0 data 05\n",
    ),
    (
        // a dump that a status in an unfinished packet breaks
        &[0x04, 0xf0, 1, 2, 0x09, 0x90],
        "0 open\n0 data 01\n0 data 02\n0 abort\n",
    ),
];

#[test]
fn packets_are_read_cut_at_each_place(rt: HostRuntime) {
    for (bytes, text) in TOLD {
        for cut in 0..=bytes.len() {
            let told = told_cut_at(bytes, cut);
            assert!(rt; told.as_slice() == text.as_bytes(), "{text} at {cut}");
        }
    }
}

/// Packets of which the bytes suit the code index number, row by row of its table, and near misses.
const SUITING: &[([u8; 4], bool)] = &[
    ([0x02, 0xf1, 0x7f, 0xff], true),
    ([0x02, 0xf3, 0, 0], true),
    ([0x02, 0xf2, 1, 2], false),
    ([0x02, 0xf1, 0x80, 0], false),
    ([0x02, 0xf6, 0, 0], false),
    ([0x03, 0xf2, 0x7f, 0x7f], true),
    ([0x03, 0xf3, 1, 2], false),
    ([0x03, 0xf2, 0x80, 0], false),
    ([0x03, 0xf2, 0, 0x80], false),
    ([0x04, 0x7f, 0, 0x7f], true),
    ([0x04, 0xf0, 1, 0xf7], false),
    ([0x05, 0xf6, 0xff, 0xff], true),
    ([0x05, 0xf7, 0, 0], true),
    ([0x05, 0xf5, 0, 0], false),
    ([0x05, 0x01, 0, 0], false),
    ([0x06, 0xf0, 0xf7, 0xff], true),
    ([0x06, 0x7f, 0xf7, 0], true),
    ([0x06, 0xf0, 1, 0], false),
    ([0x06, 0xf7, 0xf7, 0], false),
    ([0x07, 0xf0, 0x7f, 0xf7], true),
    ([0x07, 0x7f, 0, 0xf7], true),
    ([0x07, 0xf0, 1, 2], false),
    ([0x07, 0xf0, 0xf7, 0xf7], false),
    ([0x08, 0x8f, 0x7f, 0x7f], true),
    ([0x08, 0x90, 1, 2], false),
    ([0x08, 0x80, 0x80, 0], false),
    ([0x08, 0x80, 0, 0x80], false),
    ([0x0c, 0xcf, 0x7f, 0xff], true),
    ([0x0c, 0xd0, 1, 0], false),
    ([0x0d, 0xdf, 0x7f, 0xff], true),
    ([0x0d, 0xc0, 1, 0], false),
    ([0x0d, 0xd0, 0x80, 0], false),
    ([0x0e, 0xef, 0x7f, 0x7f], true),
    ([0x0e, 0xd0, 1, 2], false),
    ([0x0e, 0xe0, 0, 0x80], false),
    ([0x0f, 0x90, 0xff, 0xff], true),
];

#[test]
fn bytes_that_do_not_suit_their_number_have_a_note(rt: HostRuntime) {
    for (packet, suits) in SUITING {
        let told = told_in_pieces(packet, 4);
        let is_noted = told.as_slice().ends_with(b"cin-mismatch\n");
        assert!(rt; is_noted != *suits, "{packet:?}");
    }
}

#[test]
fn runs_are_lent_packet_by_packet(rt: HostRuntime) {
    let mut reader = UsbReader::new();
    let mut text = Text::new();
    let packets = &[0x04, 0xf0, 1, 2, 0x04, 3, 4, 5];
    read_piece(&mut reader, packets, Runs::AsLent, &mut text);
    put_answer(0, None, &mut text);
    assert!(rt; text.as_slice() == b"0 open\nrun 01 02\nrun 03 04 05\nnone\n".as_slice());
}

#[test]
fn an_unfinished_packet_is_finished_on_its_cable(rt: HostRuntime) {
    let mut reader = UsbReader::new();
    let mut text = Text::new();
    let packets = &[0x04, 0xf0, 1, 2, 0x09, 0x90];
    read_piece(&mut reader, packets, Runs::ByteByByte, &mut text);
    assert!(rt; reader.partial() == 2);
    put_answer(1, reader.finish_port(1), &mut text);
    put_answer(0, reader.finish_port(0), &mut text);
    put_answer(0, reader.finish_port(0), &mut text);
    assert!(rt;
        text.as_slice()
            .ends_with(b"0 abort\nnone\nnote 5 truncated\nnone\n")
    );
}

#[test]
fn a_cable_goes_on_behind_its_end(rt: HostRuntime) {
    let mut reader = UsbReader::new();
    let mut text = Text::new();
    let packets = &[0x19, 0x90, 0x3c, 0x64, 0x09, 0x91, 0x3c, 0x64];
    read_piece(&mut reader, packets, Runs::ByteByByte, &mut text);
    put_answer(1, reader.finish_port(1), &mut text);
    // the running status of cable 1 is gone, that of cable 0 isn't
    let more = &[0x1f, 5, 0, 0, 0x0f, 5, 0, 0, 0x0f, 6, 0, 0];
    read_piece(&mut reader, more, Runs::ByteByByte, &mut text);
    assert!(rt; text.as_slice() == BEHIND_AN_END.as_bytes());
}

const BEHIND_AN_END: &str =
    "1 short 90 3C 64\n0 short 91 3C 64\nnone\nnote 9 stray-data\n0 short 91 05 06\n";

fn read_cable(reader: &mut CableReader, piece: &[u8], text: &mut Text)
    requires { cable_offset reader.old + length piece.now < 2 ^ 63 }
{
    let mut rest = piece;
    'told: while let Some(seen) = reader.next(&mut rest) {
        put_seen(0, seen, Runs::ByteByByte, text);
    }
}

#[test]
fn one_cable_and_the_notes_of_all_packets(rt: HostRuntime) {
    let mut reader = CableReader::new(0);
    let mut text = Text::new();
    let packets = &[
        0x30, 1, 2, 3, 0x19, 0x80, 0x3c, 0x64, 0x04, 0x3c, 0x90, 0x3d, 0x0f, 0x64, 9, 9, 0x09,
    ];
    read_cable(&mut reader, packets, &mut text);
    assert!(rt; reader.partial() == 1);
    put_answer(0, reader.finish(), &mut text);
    assert!(rt; text.as_slice() == OF_ONE_CABLE.as_bytes());
}

const OF_ONE_CABLE: &str =
    "note 0 reserved-cin\nnote 4 cin-mismatch\nnote 9 stray-data\nnote 8 cin-mismatch\n0 short 90 3D 64\nnone\n";

#[test]
fn the_end_of_a_cable_is_told_once(rt: HostRuntime) {
    let mut reader = CableReader::new(2);
    let mut text = Text::new();
    read_cable(&mut reader, &[0x24, 0xf0, 1, 2], &mut text);
    put_answer(0, reader.finish(), &mut text);
    put_answer(0, reader.finish(), &mut text);
    assert!(rt; text.as_slice() == b"0 open\n0 data 01\n0 data 02\n0 abort\nnone\n".as_slice());
}

fn put(packet: [u8; 4], bytes: &mut Buf) {
    let _ = bytes.try_extend_from_slice(&packet);
}

fn put_short(cable: u8, status: u8, data1: u8, data2: u8, text: &mut Text) {
    if let Some(short) = Short::new(status, data1, data2) {
        put_mark(u64::from(cable), Mark::Short(short), text);
    }
}

/// Sixteen cables in turn, each with a running status of its own: notes on the even ones, program changes on the odd
/// ones. Four rounds of running data follow, each byte by itself, and the lines of all that.
fn put_sixteen(bytes: &mut Buf, text: &mut Text) {
    for cable in 0..16_u8 {
        if cable % 2 == 0 {
            put([cable * 16 + 9, 0x90 + cable, 0x3c, 0x64], bytes);
            put_short(cable, 0x90 + cable, 0x3c, 0x64, text);
        } else {
            put([cable * 16 + 12, 0xc0 + cable, 5, 0xff], bytes);
            put_short(cable, 0xc0 + cable, 5, 0, text);
        }
    }
    for round in 0..4_u8 {
        for cable in 0..16_u8 {
            put([cable * 16 + 15, 0x40 + round, 0xff, 0xff], bytes);
            if cable % 2 == 1 {
                put_short(cable, 0xc0 + cable, 0x40 + round, 0, text);
            }
        }
        for cable in 0..16_u8 {
            put([cable * 16 + 15, cable, 0xf7, 0xf7], bytes);
            if cable % 2 == 0 {
                put_short(cable, 0x90 + cable, 0x40 + round, cable, text);
            } else {
                put_short(cable, 0xc0 + cable, cable, 0, text);
            }
        }
    }
}

/// A SysEx on cable 3 with a clock of cable 0 between, one of its bytes by itself; a packet that doesn't suit its code
/// index number, and one of a reserved number.
const SYSEX_AND_NOTES: &[u8] = &[
    0x34, 0xf0, 1, 2, 0x0f, 0xf8, 0, 0, 0x3f, 3, 7, 7, 0x34, 4, 5, 6, 0x35, 0xf7, 0, 0, 0x09, 0x80,
    0x3c, 0x64, 0, 1, 2, 3,
];

/// What it tells where it begins at 576.
const SYSEX_AND_NOTES_TOLD: &str =
    "3 open\n3 data 01\n3 data 02\n0 rt F8\n3 data 03\n3 data 04\n3 data 05\n3 data 06\n3 end\n0 short 80 3C 64\nnote 596 cin-mismatch\nnote 600 reserved-cin\n";

#[test]
fn the_same_is_told_however_it_is_cut(rt: HostRuntime) {
    let mut bytes = Buf::new();
    let mut text = Text::new();
    put_sixteen(&mut bytes, &mut text);
    assert!(rt; bytes.len() == 576);
    let _ = bytes.try_extend_from_slice(SYSEX_AND_NOTES);
    let _ = text.try_extend_from_slice(SYSEX_AND_NOTES_TOLD.as_bytes());
    for size in [1, 2, 3, 5, 512] {
        let told = told_in_pieces(bytes.as_slice(), size);
        assert!(rt; told.as_slice() == text.as_slice(), "pieces of {size}");
    }
    for cut in 576..604_usize {
        let told = told_cut_at(bytes.as_slice(), cut);
        assert!(rt; told.as_slice() == text.as_slice(), "cut at {cut}");
    }
}
