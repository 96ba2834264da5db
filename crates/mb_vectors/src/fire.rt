//! Recordings of FireWire packets: what a port becomes, and what is listed of it.

use crate::row::{Row, Told, run_in_pieces, run_table};

/// A note on over two packets of port 5, the second with another count than the next.
const NOTE_OVER_A_GAP: &[u8] = &[
    0, 0x0c, 0, 1, 0, 5, 0x90, 2, 0xff, 0xff, 0x82, 0x90, 0x3c, 0, 0, 0x0c, 0, 1, 0, 0x0d, 0x90, 2,
    0xff, 0xff, 0x81, 0x64, 0, 0,
];

/// A block of two quadlets: two bytes of a message on port 5, a clock on port 13.
const TWO_QUADLETS: &[u8] = &[
    0, 0x10, 0, 2, 0, 5, 0x90, 2, 0xff, 0xff, 0x82, 0x90, 0x3c, 0, 0x81, 0xf8, 0, 0,
];

/// A clock in a packet whose first byte's top bits aren't 0.
const BAD_FIRST_BYTE: &[u8] = &[
    0, 0x0c, 0x40, 1, 0, 0, 0x90, 2, 0xff, 0xff, 0x81, 0xf8, 0, 0,
];

/// A clock of port 0 as it is written.
const CLOCK_OF_0: &[u8] = &[
    0, 0x28, 0, 1, 0, 0, 0x90, 2, 0xff, 0xff, 0x81, 0xf8, 0, 0, 0x80, 0, 0, 0, 0x80, 0, 0, 0, 0x80,
    0, 0, 0, 0x80, 0, 0, 0, 0x80, 0, 0, 0, 0x80, 0, 0, 0, 0x80, 0, 0, 0,
];

/// A clock of port 9: the second quadlet of the second block.
const CLOCK_OF_9: &[u8] = &[
    0, 0x48, 0, 2, 0, 0, 0x90, 2, 0xff, 0xff, 0x80, 0, 0, 0, 0x80, 0, 0, 0, 0x80, 0, 0, 0, 0x81,
    0xf8, 0, 0, 0x80, 0, 0, 0, 0x80, 0, 0, 0, 0x80, 0, 0, 0, 0x80, 0, 0, 0, 0x80, 0, 0, 0, 0x80, 0,
    0, 0, 0x80, 0, 0, 0, 0x80, 0, 0, 0, 0x80, 0, 0, 0, 0x80, 0, 0, 0, 0x80, 0, 0, 0, 0x80, 0, 0, 0,
];

const CONVERTED: &[Told] = &[
    (
        "a byte is a packet of eight blocks",
        &["convert", "din", "fw:0"],
        &[0xf8],
        CLOCK_OF_0,
        0,
    ),
    (
        "a port from 8 on stands in a further quadlet",
        &["convert", "din", "fw:9"],
        &[0xf8],
        CLOCK_OF_9,
        0,
    ),
    (
        "a message goes on over packets and a gap of the count",
        &["convert", "fw:5", "din"],
        NOTE_OVER_A_GAP,
        &[0x90, 0x3c, 0x64],
        0,
    ),
    (
        "another port of the same recording",
        &["convert", "fw:0", "din"],
        NOTE_OVER_A_GAP,
        &[],
        0,
    ),
    (
        "the second quadlet of a block",
        &["convert", "fw:13", "din"],
        TWO_QUADLETS,
        &[0xf8],
        0,
    ),
    (
        "the first quadlet of the same block",
        &["convert", "fw:5", "din"],
        TWO_QUADLETS,
        &[],
        0,
    ),
    (
        "quadlets are numbered among the MIDI conformant ones",
        &["convert", "fw:0", "din"],
        &[
            0, 0x10, 0, 2, 0, 0, 0x90, 2, 0xff, 0xff, 0x40, 0x11, 0x22, 0x33, 0x83, 0x90, 0x3c,
            0x64,
        ],
        &[0x90, 0x3c, 0x64],
        0,
    ),
    (
        "a packet that is no packet carries nothing",
        &["convert", "fw:0", "din"],
        BAD_FIRST_BYTE,
        &[],
        0,
    ),
    (
        "an unfinished quadlet's bytes are read as far as they stand",
        &["convert", "fw:0", "din"],
        &[0, 0x0c, 0, 1, 0, 0, 0x90, 2, 0xff, 0xff, 0x83, 0xc0, 0x05],
        &[0xc0, 0x05],
        5,
    ),
];

const LISTED: &[Told] = &[
    (
        "a count that doesn't go on",
        &["check", "fw:5"],
        NOTE_OVER_A_GAP,
        b"14 dbc-gap\n",
        1,
    ),
    (
        "a message that its quadlet leaves unfinished",
        &["check", "fw:5"],
        TWO_QUADLETS,
        b"11 truncated\n",
        1,
    ),
    (
        "a first byte whose top bits aren't 0",
        &["check", "fw:0"],
        BAD_FIRST_BYTE,
        b"0 bad-cip\n",
        1,
    ),
    (
        "a content shorter than a header",
        &["check", "fw:0"],
        &[0, 4, 0, 1, 0, 0],
        b"0 bad-cip\n",
        1,
    ),
    (
        "no quadlets a block",
        &["check", "fw:0"],
        &[0, 8, 0, 0, 0, 0, 0x90, 2, 0xff, 0xff],
        b"0 zero-dbs\n",
        1,
    ),
    (
        "a packet without data",
        &["check", "fw:0"],
        &[0, 8, 0, 0, 0, 0, 0x90, 0xff, 0xff, 0xff],
        b"",
        0,
    ),
    (
        "bytes behind the last block, and a block without a MIDI conformant quadlet",
        &["check", "fw:0"],
        &[0, 0x0d, 0, 1, 0, 0, 0x90, 2, 0xff, 0xff, 0x40, 0, 0, 0, 0],
        b"0 ragged\n10 no-midi-quadlet\n",
        1,
    ),
    (
        "the longest frame, of which the header alone stands",
        &["check", "fw:0"],
        &[0xff, 0xff, 0, 0xff, 0, 0, 0x90, 2, 0xff, 0xff],
        b"0 ragged\n",
        5,
    ),
    (
        "marks, and the notes of all packets, at their place",
        &["trace", "fw:5"],
        NOTE_OVER_A_GAP,
        b"note 14 dbc-gap\n0 short 90 3C 64\n",
        0,
    ),
];

#[test]
fn a_port_of_firewire_is_read_in_any_cutting(rt: HostRuntime) {
    run_table(&rt, rt.alloc(), CONVERTED);
    run_table(&rt, rt.alloc(), LISTED);
}

/// The chain that has both carriers of packets, each with several ports, over and over.
const THROUGH_ALL: &[&str] = &[
    "convert", "fw:63", "usb:0", "fw:0", "din", "usb:1", "fw:7", "din", "fw:8", "fw:63", "fw:0",
];

/// What is written on a port is read back, and nothing of it on another.
const AGAIN: &[Told] = &[
    (
        "a dump with a clock inside, a broken one and running status through every place",
        &[
            "convert", "din", "fw:63", "usb:3", "fw:8", "fw:0", "fw:7", "usb:0", "fw:9", "din",
        ],
        &[
            0x90, 0x3c, 0x64, 0x3c, 0x00, 0xf0, 0x01, 0x02, 0x03, 0x04, 0x05, 0xf7, 0xf8, 0xf0,
            0x01, 0xc0, 0x05,
        ],
        &[
            0x90, 0x3c, 0x64, 0x3c, 0x00, 0xf0, 0x01, 0x02, 0x03, 0x04, 0x05, 0xf7, 0xf8, 0xf0,
            0x01, 0xc0, 0x05,
        ],
        0,
    ),
    ("a chain of nothing", THROUGH_ALL, &[], &[], 0),
    (
        "a clock of another port",
        &["convert", "fw:1", "fw:9"],
        CLOCK_OF_9,
        &[],
        0,
    ),
    (
        "a clock of the last port goes to the first",
        &["convert", "din", "fw:63", "fw:0"],
        &[0xf8],
        CLOCK_OF_0,
        0,
    ),
    (
        "a cut frame is cut for the first spec alone",
        &["convert", "fw:0", "din", "fw:0"],
        &[0, 0x0c, 0, 1, 0, 0, 0x90, 2, 0xff, 0xff, 0x81, 0xf8],
        CLOCK_OF_0,
        5,
    ),
];

#[test]
fn ports_of_firewire_in_chains(rt: HostRuntime) {
    run_table(&rt, rt.alloc(), AGAIN);
}

/// How many bytes crossed each spec.
#[test]
fn a_tally_of_firewire_packets(rt: HostRuntime) {
    let row = Row {
        shows: "a tally",
        words: &["convert", "tally", "din", "fw:0", "fw:63", "din"],
        input: &[0x90, 0x3c, 0x64],
        output: &[0x90, 0x3c, 0x64],
        status: 0,
        text: "0 din 3\n1 fw:0 126\n2 fw:63 798\n3 din 3\n",
    };
    run_in_pieces(&rt, rt.alloc(), &row);
}
