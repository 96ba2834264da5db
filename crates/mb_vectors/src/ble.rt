//! Recordings of BLE-MIDI packets: what they become, what is listed of them at which moment, and how packets are cut.

use crate::row::{Row, Told, run_in_pieces, run_table};

/// Two messages under one stamp by running status, and a third behind a stamp of its own.
const RUNNING: &[u8] = &[
    0, 0x0a, 0x80, 0x81, 0x90, 0x3c, 0x64, 0x40, 0x64, 0x82, 0x43, 0x64,
];

/// Two notes, a clock and an active sensing, then a dump of twelve data bytes.
const TWO_PACKETS: &[u8] = &[
    0, 0x0c, 0xa0, 0x85, 0x90, 0x3c, 0x64, 0x85, 0x40, 0x60, 0x87, 0xf8, 0x87, 0xfe, 0, 0x12, 0xa0,
    0x88, 0xf0, 0x7e, 0, 6, 2, 0x41, 0x10, 2, 0, 0, 0, 1, 0, 0, 0x88, 0xf7,
];

/// A dump over an empty packet and one without a header.
const DUMP_OVER_ODD_PACKETS: &[u8] = &[
    0, 5, 0x80, 0x80, 0xf0, 1, 2, 0, 0, 0, 3, 0, 5, 6, 0, 3, 0x80, 0x81, 0xf7,
];

/// Clocks whose stamps fall twice in one packet.
const TWO_FALLS: &[u8] = &[0, 9, 0x80, 0xff, 0xf8, 0x80, 0xf8, 0xff, 0xf8, 0x80, 0xf8];

/// A stamp stands before what isn't its packet's.
const LONE_STAMP: &[u8] = &[0, 4, 0x80, 0x80, 0xf0, 1, 0, 2, 0x80, 0xf7];

const READ: &[Told] = &[
    (
        "one packet",
        &["convert", "ble", "din"],
        &[0, 5, 0x80, 0x80, 0x90, 0x3c, 0x64],
        &[0x90, 0x3c, 0x64],
        0,
    ),
    (
        "a status runs on under one stamp and behind the next",
        &["convert", "ble", "din"],
        RUNNING,
        &[0x90, 0x3c, 0x64, 0x40, 0x64, 0x43, 0x64],
        0,
    ),
    (
        "a dump over two packets",
        &["convert", "ble", "din"],
        &[0, 5, 0x80, 0x80, 0xf0, 1, 2, 0, 5, 0x80, 3, 4, 0x80, 0xf7],
        &[0xf0, 1, 2, 3, 4, 0xf7],
        0,
    ),
    (
        "an F7 right behind a header is a stamp",
        &["convert", "ble", "din"],
        LONE_STAMP,
        &[0xf0, 1],
        0,
    ),
    (
        "notes, real-time messages and a dump become packets of a cable",
        &["convert", "ble", "usb:0"],
        TWO_PACKETS,
        &[
            0x09, 0x90, 0x3c, 0x64, 0x09, 0x90, 0x40, 0x60, 0x0f, 0xf8, 0, 0, 0x0f, 0xfe, 0, 0,
            0x04, 0xf0, 0x7e, 0, 0x04, 6, 2, 0x41, 0x04, 0x10, 2, 0, 0x04, 0, 0, 1, 0x07, 0, 0,
            0xf7,
        ],
        0,
    ),
    (
        "a packet whose first byte is no header is passed over",
        &["convert", "ble", "din"],
        &[0, 5, 0, 0x80, 0x90, 0x3c, 0x64],
        &[],
        0,
    ),
    (
        "a dump goes on over odd packets",
        &["convert", "ble/512", "din"],
        DUMP_OVER_ODD_PACKETS,
        &[0xf0, 1, 2, 0xf7],
        0,
    ),
    (
        "a frame that is cut",
        &["convert", "ble", "din"],
        &[0, 6, 0x80, 0x80, 0x90, 0x3c, 0x64],
        &[0x90, 0x3c, 0x64],
        5,
    ),
];

const LISTED: &[Told] = &[
    (
        "each message has the moment of the stamp before it",
        &["trace", "ble"],
        RUNNING,
        b"1 short 90 3C 64\n1 short 90 40 64\n2 short 90 43 64\n",
        0,
    ),
    (
        "a fall of the lower seven bits is 128 ms on",
        &["trace", "ble"],
        &[0, 5, 0x80, 0xff, 0xf8, 0x80, 0xfa],
        b"127 rt F8\n128 rt FA\n",
        0,
    ),
    (
        "a fall of all 13 bits is 8,192 ms on",
        &["trace", "ble"],
        &[0, 3, 0xbf, 0xff, 0xf8, 0, 3, 0x80, 0x80, 0xf8],
        b"8191 rt F8\n8192 rt F8\n",
        0,
    ),
    (
        "two falls in one packet",
        &["trace", "ble"],
        TWO_FALLS,
        b"127 rt F8\n128 rt F8\n255 rt F8\n256 rt F8\n",
        0,
    ),
    (
        "a status runs on behind a System Common message, and a stamp at the end is alone",
        &["trace", "ble"],
        &[
            0, 0x0a, 0x80, 0x81, 0x90, 0x3c, 0x64, 0x82, 0xf6, 0x40, 0x64, 0x83,
        ],
        b"1 short 90 3C 64\n2 short F6\n2 short 90 40 64\nnote 11 lone-stamp\n",
        0,
    ),
    (
        "a packet's end leaves a message unfinished",
        &["trace", "ble"],
        &[0, 4, 0x80, 0x81, 0x90, 0x3c, 0, 3, 0x80, 0x3c, 0x64],
        b"note 4 truncated\nnote 9 stray-data\nnote 10 stray-data\n",
        0,
    ),
    ("nothing is odd", &["check", "ble"], RUNNING, b"", 0),
    (
        "nothing is odd in two packets",
        &["check", "ble"],
        TWO_PACKETS,
        b"",
        0,
    ),
    (
        "a stamp alone",
        &["check", "ble"],
        LONE_STAMP,
        b"9 lone-stamp\n",
        1,
    ),
    (
        "a stamp alone before a packet's end",
        &["check", "ble"],
        &[0, 2, 0x80, 0x85],
        b"3 lone-stamp\n",
        1,
    ),
    (
        "a packet of no bytes",
        &["check", "ble"],
        &[0, 0],
        b"0 empty-packet\n",
        1,
    ),
    (
        "a first byte that is no header",
        &["check", "ble"],
        &[0, 5, 0, 0x80, 0x90, 0x3c, 0x64],
        b"2 bad-header\n",
        1,
    ),
    (
        "odd packets inside a dump",
        &["check", "ble"],
        DUMP_OVER_ODD_PACKETS,
        b"7 empty-packet\n11 bad-header\n",
        1,
    ),
    ("a header alone", &["check", "ble"], &[0, 1, 0x80], b"", 0),
    (
        "a status breaks a System Common message",
        &["check", "ble"],
        &[0, 6, 0x80, 0x80, 0xf1, 0x81, 0xf1, 5],
        b"4 truncated\n",
        1,
    ),
    (
        "the longest frame, of which one byte stands",
        &["check", "ble"],
        &[0xff, 0xff, 0x80],
        b"",
        5,
    ),
];

#[test]
fn packets_are_read_in_any_cutting(rt: HostRuntime) {
    run_table(&rt, rt.alloc(), READ);
    run_table(&rt, rt.alloc(), LISTED);
}

const WRITTEN: &[Told] = &[
    (
        "a status is left out, a stamp isn't",
        &["convert", "din", "ble"],
        &[0x90, 0x3c, 0x64, 0x3c, 0x00],
        &[0, 8, 0x80, 0x80, 0x90, 0x3c, 0x64, 0x80, 0x3c, 0],
        0,
    ),
    (
        "a dump in packets of five bytes",
        &["convert", "din", "ble/5"],
        &[0xf0, 1, 2, 3, 0xf7],
        &[0, 5, 0x80, 0x80, 0xf0, 1, 2, 0, 4, 0x80, 3, 0x80, 0xf7],
        0,
    ),
    (
        "128 ms on there is a new packet",
        &["convert", "ble", "ble"],
        &[0, 3, 0x80, 0x80, 0xf8, 0, 3, 0x81, 0x80, 0xf8],
        &[0, 3, 0x80, 0x80, 0xf8, 0, 3, 0x81, 0x80, 0xf8],
        0,
    ),
    (
        "127 ms on there isn't",
        &["convert", "ble", "ble"],
        &[0, 3, 0x80, 0x80, 0xf8, 0, 3, 0x80, 0xff, 0xf8],
        &[0, 5, 0x80, 0x80, 0xf8, 0xff, 0xf8],
        0,
    ),
    (
        "one fall stands in a packet",
        &["convert", "ble", "ble"],
        &[0, 5, 0x80, 0xff, 0xf8, 0x80, 0xfa],
        &[0, 5, 0x80, 0xff, 0xf8, 0x80, 0xfa],
        0,
    ),
    (
        "a second fall doesn't",
        &["convert", "ble", "ble"],
        TWO_FALLS,
        &[
            0, 7, 0x80, 0xff, 0xf8, 0x80, 0xf8, 0xff, 0xf8, 0, 3, 0x82, 0x80, 0xf8,
        ],
        0,
    ),
    (
        "packets that stand together go into one",
        &["convert", "ble", "ble/20"],
        &[0, 3, 0xbf, 0xff, 0xf8, 0, 3, 0x80, 0x80, 0xf8],
        &[0, 5, 0xbf, 0xff, 0xf8, 0x80, 0xf8],
        0,
    ),
    (
        "packets of twenty bytes",
        &["convert", "ble", "ble"],
        TWO_PACKETS,
        &[
            0, 0x14, 0xa0, 0x85, 0x90, 0x3c, 0x64, 0x85, 0x40, 0x60, 0x87, 0xf8, 0x87, 0xfe, 0x88,
            0xf0, 0x7e, 0, 6, 2, 0x41, 0x10, 0, 0x0a, 0xa0, 2, 0, 0, 0, 1, 0, 0, 0x88, 0xf7,
        ],
        0,
    ),
    ("nothing", &["convert", "din", "ble"], &[], &[], 0),
];

/// Every carrier of packets, over and over.
const TEN: &[&str] = &[
    "convert", "ble", "usb:0", "ble", "fw:0", "din", "usb:1", "ble/5", "fw:7", "ble/512", "din",
];

const CHAINS: &[Told] = &[
    (
        "ten specs",
        TEN,
        TWO_PACKETS,
        &[
            0x90, 0x3c, 0x64, 0x40, 0x60, 0xf8, 0xfe, 0xf0, 0x7e, 0, 6, 2, 0x41, 0x10, 2, 0, 0, 0,
            1, 0, 0, 0xf7,
        ],
        0,
    ),
    ("ten specs of nothing", TEN, &[], &[], 0),
    (
        "moments are kept over a byte line",
        &["convert", "ble", "din", "ble"],
        TWO_FALLS,
        &[
            0, 7, 0x80, 0xff, 0xf8, 0x80, 0xf8, 0xff, 0xf8, 0, 3, 0x82, 0x80, 0xf8,
        ],
        0,
    ),
    (
        "packets between two byte lines",
        &["convert", "din", "ble", "din"],
        &[0x90, 0x3c, 0x64],
        &[0x90, 0x3c, 0x64],
        0,
    ),
    (
        "a cut frame is cut for the first spec alone",
        &["convert", "ble", "din", "ble"],
        &[0, 9, 0x80, 0x81, 0x90, 0x3c, 0x64],
        &[0, 5, 0x80, 0x81, 0x90, 0x3c, 0x64],
        5,
    ),
];

#[test]
fn packets_are_written_to_the_byte(rt: HostRuntime) {
    run_table(&rt, rt.alloc(), WRITTEN);
    run_table(&rt, rt.alloc(), CHAINS);
}

/// How many bytes crossed each spec; the size of packets is told where it wasn't named.
#[test]
fn a_tally_of_packets(rt: HostRuntime) {
    let row = Row {
        shows: "a tally",
        words: &["convert", "tally", "din", "ble", "ble/512", "din"],
        input: &[0x90, 0x3c, 0x64],
        output: &[0x90, 0x3c, 0x64],
        status: 0,
        text: "0 din 3\n1 ble/20 7\n2 ble/512 7\n3 din 3\n",
    };
    run_in_pieces(&rt, rt.alloc(), &row);
}
