//! Recordings of USB-MIDI event packets: what a cable becomes, and what is listed of it.

ghost use Rattle.std.specs.Prelude.{◌<◌};

use crate::row::{Row, Told, run_in_pieces, run_table};
use mb_message::Buf;

/// Two cables, and a packet of cable 0 between the bytes of a message on cable 1.
const TWO_CABLES: &[u8] = &[
    0x19, 0x90, 0x3c, 0x64, 0x0f, 0xf8, 0, 0, 0x0c, 0xc0, 0x05, 0, 0x1f, 0x40, 0, 0, 0x1f, 0x64, 0,
    0,
];

const CONVERTED: &[Told] = &[
    (
        "a broken dump stays broken",
        &["convert", "usb:0", "din"],
        &[0x0f, 0xf0, 0, 0, 0x0f, 0x01, 0, 0, 0x09, 0x90, 0x3c, 0x64],
        &[0xf0, 0x01, 0x90, 0x3c, 0x64],
        0,
    ),
    (
        "another cable's status leaves the running status as it is",
        &["convert", "usb:1", "din"],
        TWO_CABLES,
        &[0x90, 0x3c, 0x64, 0x40, 0x64],
        0,
    ),
    (
        "the other cable of the same recording",
        &["convert", "usb:0", "din"],
        TWO_CABLES,
        &[0xf8, 0xc0, 0x05],
        0,
    ),
    (
        "a cable becomes another one",
        &["convert", "usb:1", "usb:0"],
        TWO_CABLES,
        &[0x09, 0x90, 0x3c, 0x64, 0x09, 0x90, 0x40, 0x64],
        0,
    ),
    (
        "a cable that carries nothing",
        &["convert", "usb:7", "usb:0"],
        TWO_CABLES,
        &[],
        0,
    ),
    (
        "a number that doesn't suit is read all the same",
        &["convert", "usb:0", "din"],
        &[0x08, 0x90, 0x3c, 0x64],
        &[0x90, 0x3c, 0x64],
        0,
    ),
    (
        "a reserved number carries nothing",
        &["convert", "usb:0", "din"],
        &[0, 0x90, 0x3c, 0x64],
        &[],
        0,
    ),
    (
        "a packet of zeros carries nothing",
        &["convert", "usb:0", "din"],
        &[0, 0, 0, 0],
        &[],
        0,
    ),
    (
        "a tune request under the number of a dump's last byte",
        &["convert", "usb:0", "din"],
        &[0x05, 0xf6, 0, 0],
        &[0xf6],
        0,
    ),
    (
        "running data under the number of a dump that goes on",
        &["convert", "usb:0", "din"],
        &[
            0x09, 0x90, 0x3c, 0x64, 0x04, 0x3e, 0x40, 0x3c, 0x0f, 0, 0, 0,
        ],
        &[0x90, 0x3c, 0x64, 0x3e, 0x40, 0x3c, 0x00],
        0,
    ),
    (
        "single bytes of a dump, and unused bytes that aren't zero",
        &["convert", "usb:0", "usb:0"],
        &[
            0x0f, 0xf0, 0x90, 0x90, 0x0f, 0x01, 0xf7, 0xf7, 0x0f, 0x02, 9, 9, 0x05, 0xf7, 1, 2,
        ],
        &[0x04, 0xf0, 0x01, 0x02, 0x05, 0xf7, 0, 0],
        0,
    ),
    (
        "an unfinished packet's bytes are read as far as they stand",
        &["convert", "usb:0", "din"],
        &[0x09, 0x90, 0x3c, 0x64, 0x04, 0xf0, 0x01],
        &[0x90, 0x3c, 0x64, 0xf0, 0x01],
        5,
    ),
    (
        "cut behind a packet's first byte",
        &["convert", "usb:0", "din"],
        &[0x09, 0x90, 0x3c, 0x64, 0x09],
        &[0x90, 0x3c, 0x64],
        5,
    ),
    (
        "cut behind a packet's second byte",
        &["convert", "usb:0", "din"],
        &[0x09, 0x90, 0x3c, 0x64, 0x09, 0x90],
        &[0x90, 0x3c, 0x64],
        5,
    ),
    (
        "cut behind a packet's third byte",
        &["convert", "usb:0", "din"],
        &[0x09, 0x90, 0x3c, 0x64, 0x09, 0x90, 0x40],
        &[0x90, 0x3c, 0x64],
        5,
    ),
];

const LISTED: &[Told] = &[
    (
        "a dump over three packets, a clock inside, another cable between",
        &["trace", "usb:3"],
        &[
            0x34, 0xf0, 0x01, 0x02, 0x24, 0xf0, 0x03, 0x04, 0x3f, 0xf8, 0, 0, 0x35, 0xf7, 0, 0,
        ],
        b"0 open\n0 data 01\n0 data 02\n0 rt F8\n0 end\n",
        0,
    ),
    (
        "notes on packets are told whatever the cable",
        &["check", "usb:0"],
        &[0x10, 0xf8, 0, 0, 0xf4, 0x90, 0x3c, 0x64],
        b"0 reserved-cin\n4 cin-mismatch\n",
        1,
    ),
    (
        "a mismatch is noted at its packet",
        &["check", "usb:0"],
        &[0x09, 0x90, 0x3c, 0x64, 0x08, 0x90, 0x3c, 0x64],
        b"4 cin-mismatch\n",
        1,
    ),
    (
        "a number that doesn't suit, in the first packet",
        &["check", "usb:0"],
        &[0x08, 0x90, 0x3c, 0x64],
        b"0 cin-mismatch\n",
        1,
    ),
    (
        "zeros have a reserved number",
        &["check", "usb:0"],
        &[0, 0, 0, 0],
        b"0 reserved-cin\n",
        1,
    ),
    (
        "a tune request suits the number of a dump's last byte",
        &["check", "usb:0"],
        &[0x05, 0xf6, 0, 0],
        b"",
        0,
    ),
    (
        "a packet's note stands behind what its last byte tells",
        &["trace", "usb:0"],
        &[0x08, 0x90, 0x3c, 0x64],
        b"0 short 90 3C 64\nnote 0 cin-mismatch\n",
        0,
    ),
    (
        "a cut recording isn't judged",
        &["check", "usb:0"],
        &[0x09, 0x90, 0x3c, 0x64, 0x09],
        b"",
        5,
    ),
    (
        "that it is cut goes before its notes",
        &["check", "usb:0"],
        &[0, 0, 0, 0, 0x0f, 0x05],
        b"0 reserved-cin\n5 stray-data\n",
        5,
    ),
    (
        "what a cut packet began is truncated",
        &["trace", "usb:0"],
        &[0x09, 0x90, 0x3c],
        b"note 1 truncated\n",
        5,
    ),
];

#[test]
fn a_cable_is_read_in_any_cutting(rt: HostRuntime) {
    run_table(&rt, rt.alloc(), CONVERTED);
    run_table(&rt, rt.alloc(), LISTED);
}

/// A cable's packet: at the first turn a message, then data that runs under its status, as three bytes of a dump.
fn packet_of(cable: u8, turn: u8) -> [u8; 4]
    requires cable { cable < 16 }
    requires turn { turn < 16 }
{
    if turn == 0 {
        [cable * 16 + 9, 0x90 + cable, 0x40, cable]
    } else {
        [cable * 16 + 4, 0x40 + turn, cable, 0]
    }
}

/// Three turns of all cables.
fn all_cables() -> Buf {
    let mut packets = Buf::new();
    for turn in 0..3u8 {
        for cable in 0..16u8 {
            let _ = packets.try_extend_from_slice(&packet_of(cable, turn));
        }
    }
    packets
}

/// What a cable becomes on a byte line.
fn line_of(cable: u8) -> [u8; 9] {
    let status = 0x90 | cable;
    [status, 0x40, cable, 0x41, cable, 0x00, 0x42, cable, 0x00]
}

/// Each cable has a status of its own, which runs while all the others come between.
#[test]
fn sixteen_cables_run_side_by_side(rt: HostRuntime) {
    let input = all_cables();
    for (spec, cable) in SPECS {
        let row = Row {
            shows: spec,
            words: &["convert", spec, "din"],
            input: input.as_slice(),
            output: &line_of(*cable),
            status: 0,
            text: "",
        };
        run_in_pieces(&rt, rt.alloc(), &row);
    }
}

const SPECS: &[(&str, u8)] = &[
    ("usb:0", 0),
    ("usb:1", 1),
    ("usb:2", 2),
    ("usb:3", 3),
    ("usb:4", 4),
    ("usb:5", 5),
    ("usb:6", 6),
    ("usb:7", 7),
    ("usb:8", 8),
    ("usb:9", 9),
    ("usb:10", 10),
    ("usb:11", 11),
    ("usb:12", 12),
    ("usb:13", 13),
    ("usb:14", 14),
    ("usb:15", 15),
];
