//! The readers of all FireWire ports and of one.

ghost use Rattle.std.specs.Prelude.{◌≡◌, ◌+◌, ◌<◌, ◌^◌, length};
ghost use Rattle.mb_fire.specs.State.{fire_offset, port_offset};

use crate::text::{Runs, Text, put_answer, put_note, put_seen};
use mb_fire::{FirePortReader, FireReader};
use mb_message::PortSeen;

/// Appends what a piece tells, up to the answer of nothing.
fn read_piece(reader: &mut FireReader, piece: &[u8], text: &mut Text)
    requires { fire_offset reader.old + length piece.now < 2 ^ 63 }
    ensures { fire_offset reader.new ≡ fire_offset reader.old + length piece.now }
{
    let mut rest = piece;
    'told: while let Some(seen) = reader.next(&mut rest) {
        match seen {
            PortSeen::Port(port, seen) => put_seen(port, seen, Runs::ByteByByte, text),
            PortSeen::Unit(note) => put_note(note, text),
        }
    }
}

/// The same of one port alone.
fn read_port(reader: &mut FirePortReader, piece: &[u8], text: &mut Text)
    requires { port_offset reader.old + length piece.now < 2 ^ 63 }
    ensures { port_offset reader.new ≡ port_offset reader.old + length piece.now }
{
    let mut rest = piece;
    'told: while let Some(seen) = reader.next(&mut rest) {
        put_seen(0, seen, Runs::ByteByByte, text);
    }
}

/// Recordings, and what they tell.
const TOLD: &[(&[u8], &str)] = &[
    (
        // a note on over two packets of port 5; the count goes on at 13, where 6 is next
        &[
            0, 0x0c, 0, 1, 0, 5, 0x90, 2, 0xff, 0xff, 0x82, 0x90, 0x3c, 0, 0, 0x0c, 0, 1, 0, 0x0d,
            0x90, 2, 0xff, 0xff, 0x81, 0x64, 0, 0,
        ],
        "note 14 dbc-gap\n5 short 90 3C 64\n",
    ),
    (
        // two quadlets of a block: the second is of the port eight higher
        &[
            0, 0x10, 0, 2, 0, 5, 0x90, 2, 0xff, 0xff, 0x82, 0x90, 0x3c, 0, 0x81, 0xf8, 0, 0,
        ],
        "13 rt F8\n",
    ),
    (
        // quadlets are numbered among the MIDI conformant ones
        &[
            0, 0x14, 0, 3, 0, 0, 0x90, 2, 0xff, 0xff, 0x40, 0x11, 0x22, 0x33, 0x83, 0x90, 0x3c,
            0x64, 0x81, 0xfa, 0, 0,
        ],
        "0 short 90 3C 64\n8 rt FA\n",
    ),
    (
        // bytes behind the last block, and a block without a MIDI conformant quadlet
        &[0, 0x0d, 0, 1, 0, 0, 0x90, 2, 0xff, 0xff, 0x40, 0, 0, 0, 0],
        "note 0 ragged\nnote 10 no-midi-quadlet\n",
    ),
    (
        // a content shorter than a header, an empty one, and one that is a header
        &[
            0, 7, 0, 1, 0, 0, 0x90, 2, 0xff, 0, 0, 0, 8, 0, 1, 0, 0, 0x90, 2, 0xff, 0xff,
        ],
        "note 0 bad-cip\nnote 9 bad-cip\n",
    ),
    (
        // a first byte whose top bits aren't 0, and another format
        &[
            0, 0x0c, 0x40, 1, 0, 0, 0x90, 2, 0xff, 0xff, 0x81, 0xf8, 0, 0, 0, 0x0c, 0, 1, 0, 0,
            0x91, 2, 0xff, 0xff, 0x81, 0xf8, 0, 0,
        ],
        "note 0 bad-cip\nnote 14 bad-cip\n",
    ),
    (
        // no quadlets a block
        &[0, 8, 0, 0, 0, 7, 0x90, 2, 0xff, 0xff],
        "note 0 zero-dbs\n",
    ),
    (
        // a packet without data between two with data, whose count is no gap
        &[
            0, 0x0c, 0, 1, 0, 0, 0x90, 2, 0xff, 0xff, 0x81, 0x90, 0, 0, 0, 0x0c, 0, 1, 0, 0x33,
            0x90, 0xff, 0xff, 0xff, 0x81, 0xf8, 0, 0, 0, 0x0c, 0, 1, 0, 1, 0x90, 2, 0xff, 0xff,
            0x81, 0xf8, 0, 0,
        ],
        "1 rt F8\n",
    ),
    (
        // ragged and a gap are known at one byte, in this order
        &[
            0, 0x0c, 0, 1, 0, 0, 0x90, 2, 0xff, 0xff, 0x81, 0xf8, 0, 0, 0, 0x0d, 0, 1, 0, 2, 0x90,
            2, 0xff, 0xff, 0x81, 0xfa, 0, 0, 0x11,
        ],
        "0 rt F8\nnote 14 ragged\nnote 14 dbc-gap\n2 rt FA\n",
    ),
    (
        // a packet of fewer bytes than a block counts none, and the next goes on from its count
        &[
            0, 0x0b, 0, 1, 0, 7, 0x90, 2, 0xff, 0xff, 0x81, 0xf8, 0, 0, 0x0c, 0, 1, 0, 7, 0x90, 2,
            0xff, 0xff, 0x81, 0xfa, 0, 0,
        ],
        "note 0 ragged\n7 rt FA\n",
    ),
    (
        // the count goes from 255 to 0
        &[
            0, 0x14, 0, 1, 0, 0xfe, 0x90, 2, 0xff, 0xff, 0x81, 0xf8, 0, 0, 0x81, 0xfa, 0, 0, 0x81,
            0xfb, 0, 0, 0, 0x0c, 0, 1, 0, 1, 0x90, 2, 0xff, 0xff, 0x81, 0xfc, 0, 0,
        ],
        "6 rt F8\n7 rt FA\n0 rt FB\n1 rt FC\n",
    ),
    (
        // the ninth MIDI conformant quadlet is of no port
        &[
            0, 0x2c, 0, 9, 0, 1, 0x90, 2, 0xff, 0xff, 0x80, 0, 0, 0, 0x80, 0, 0, 0, 0x80, 0, 0, 0,
            0x80, 0, 0, 0, 0x80, 0, 0, 0, 0x80, 0, 0, 0, 0x80, 0, 0, 0, 0x81, 0xf8, 0, 0, 0x81,
            0xfa, 0, 0,
        ],
        "57 rt F8\n",
    ),
    (
        // a SysEx of a port goes on over blocks and packets, a clock of another port between
        &[
            0, 0x18, 0, 1, 0, 2, 0x90, 2, 0xff, 0xff, 0x83, 0xf0, 1, 2, 0x81, 0xf8, 0, 0, 0x80, 0,
            0, 0, 0x80, 0, 0, 0, 0, 0x2c, 0, 1, 0, 6, 0x90, 2, 0xff, 0xff, 0x80, 0, 0, 0, 0x80, 0,
            0, 0, 0x80, 0, 0, 0, 0x80, 0, 0, 0, 0x82, 3, 4, 0, 0x80, 0, 0, 0, 0x80, 0, 0, 0, 0x80,
            0, 0, 0, 0x80, 0, 0, 0,
        ],
        "2 open\n2 data 01\n2 data 02\n3 rt F8\n2 data 03\n2 data 04\n",
    ),
    (
        // a recording that ends inside a quadlet: its bytes count as far as they stand
        &[0, 0x10, 0, 2, 0, 5, 0x90, 2, 0xff, 0xff, 0x83, 0x90, 0x3c],
        "",
    ),
];

#[test]
fn recordings_are_read_cut_at_each_place(rt: HostRuntime) {
    for (bytes, told) in TOLD {
        for cut in 0..=bytes.len() {
            let mut reader = FireReader::new();
            let mut text = Text::new();
            let (front, back) = bytes.split_at(cut);
            read_piece(&mut reader, front, &mut text);
            read_piece(&mut reader, back, &mut text);
            assert!(rt; text.as_slice() == told.as_bytes(), "{told} at {cut}");
        }
    }
}

/// A note on of port 5 and a clock of port 13 in one block; the start of a SysEx of port 5 in a packet with a gap of
/// the count, and a block without a MIDI conformant quadlet; another start on port 1, and a frame that ends inside a
/// quadlet of port 9.
const OF_FIVE_PORTS: &[u8] = &[
    0, 0x10, 0, 2, 0, 5, 0x90, 2, 0xff, 0xff, 0x83, 0x90, 0x3c, 0x64, 0x81, 0xf8, 0, 0, 0, 0x18, 0,
    1, 0, 0x0d, 0x90, 2, 0xff, 0xff, 0x82, 0xf0, 7, 0, 0x80, 0, 0, 0, 0x40, 0, 0, 0, 0x80, 0, 0, 0,
    0, 0x10, 0, 2, 0, 0x11, 0x90, 2, 0xff, 0xff, 0x81, 0xf0, 0, 0, 0x83, 0xc0, 5,
];

/// What each port of it tells, with its end and the end behind that.
const OF_ONE_PORT: &[(u8, &str)] = &[
    (
        5,
        "0 short 90 3C 64\nnote 18 dbc-gap\n0 open\n0 data 07\nnote 36 no-midi-quadlet\n0 abort\nnone\n",
    ),
    (
        9,
        "note 18 dbc-gap\nnote 36 no-midi-quadlet\n0 short C0 05\nnone\nnone\n",
    ),
    (
        13,
        "0 rt F8\nnote 18 dbc-gap\nnote 36 no-midi-quadlet\nnone\nnone\n",
    ),
    (
        1,
        "note 18 dbc-gap\nnote 36 no-midi-quadlet\n0 open\n0 abort\nnone\n",
    ),
    (63, "note 18 dbc-gap\nnote 36 no-midi-quadlet\nnone\nnone\n"),
];

#[test]
fn one_port_and_the_notes_of_all_packets(rt: HostRuntime) {
    for (port, told) in OF_ONE_PORT {
        for cut in 0..=OF_FIVE_PORTS.len() {
            let mut reader = FirePortReader::new(*port);
            let mut text = Text::new();
            let (front, back) = OF_FIVE_PORTS.split_at(cut);
            read_port(&mut reader, front, &mut text);
            read_port(&mut reader, back, &mut text);
            assert!(rt; reader.partial());
            put_answer(0, reader.finish(), &mut text);
            put_answer(0, reader.finish(), &mut text);
            assert!(rt; text.as_slice() == told.as_bytes(), "{port} at {cut}");
        }
    }
}

#[test]
fn each_port_is_finished_by_itself(rt: HostRuntime) {
    let mut reader = FireReader::new();
    let mut text = Text::new();
    read_piece(&mut reader, OF_FIVE_PORTS, &mut text);
    assert!(rt; reader.partial());
    text.clear();
    put_answer(1, reader.finish_port(1), &mut text);
    put_answer(5, reader.finish_port(5), &mut text);
    put_answer(5, reader.finish_port(5), &mut text);
    put_answer(63, reader.finish_port(63), &mut text);
    assert!(rt; text.as_slice() == b"1 abort\n5 abort\nnone\nnone\n".as_slice());
}

/// What a block of one quadlet with this label tells, the quadlet holding three clocks.
fn told_by_label(label: u8) -> &'static str {
    match label {
        0x80 => "",
        0x81 => "3 rt F8\n",
        0x82 => "3 rt F8\n3 rt F8\n",
        0x83 => "3 rt F8\n3 rt F8\n3 rt F8\n",
        _ => "note 10 no-midi-quadlet\n",
    }
}

#[test]
fn labels_of_every_value(rt: HostRuntime) {
    for label in 0..=255_u8 {
        let mut reader = FireReader::new();
        let mut text = Text::new();
        let packet = [
            0, 12, 0, 1, 0, 3, 0x90, 2, 0xff, 0xff, label, 0xf8, 0xf8, 0xf8,
        ];
        read_piece(&mut reader, &packet, &mut text);
        assert!(rt;
            text.as_slice() == told_by_label(label).as_bytes(),
            "label {label}"
        );
        assert!(rt; !reader.partial());
    }
}

/// A header and a byte more, and a packet with a clock of port 0.
const HEADER: [u8; 9] = [0, 1, 0, 0, 0x90, 2, 0xff, 0xff, 0x81];

const CLOCK: &[u8] = &[0, 12, 0, 1, 0, 0, 0x90, 2, 0xff, 0xff, 0x81, 0xf8, 0, 0];

#[test]
fn lengths_of_0_to_9(rt: HostRuntime) {
    for len in 0..=9_u8 {
        let mut reader = FireReader::new();
        let mut text = Text::new();
        read_piece(&mut reader, &[0, len], &mut text);
        read_piece(&mut reader, &HEADER[..usize::from(len)], &mut text);
        read_piece(&mut reader, CLOCK, &mut text);
        let told = match len {
            0..=7 => "note 0 bad-cip\n0 rt F8\n",
            8 => "0 rt F8\n",
            _ => "note 0 ragged\n0 rt F8\n",
        };
        assert!(rt; text.as_slice() == told.as_bytes(), "length {len}");
    }
}

/// 65,535 bytes with 255 quadlets a block, all of them MIDI conformant.
#[test]
fn the_longest_frame(rt: HostRuntime) {
    let mut reader = FireReader::new();
    let mut text = Text::new();
    read_piece(
        &mut reader,
        &[0xff, 0xff, 0, 0xff, 0, 0, 0x90, 2, 0xff, 0xff],
        &mut text,
    );
    for count in 0..127_u8 {
        read_piece(&mut reader, &[0x80; 515], &mut text);
    }
    read_piece(&mut reader, &[0x80; 121], &mut text);
    assert!(rt; reader.partial());
    read_piece(&mut reader, &[0x80], &mut text);
    assert!(rt; !reader.partial());
    read_piece(&mut reader, CLOCK, &mut text);
    assert!(rt; text.as_slice() == b"note 0 ragged\nnote 65537 dbc-gap\n0 rt F8\n".as_slice());
}
