//! Values: lengths of short messages, and that values keep their bytes.

use crate::marks::Sample;
use mb_message::{Rt, Short, data_len, suits};

/// How long the message of a status is: 0 where it begins none.
fn length_of(status: u8) -> u8 {
    match Short::new(status, 0, 0) {
        Some(short) => short.len(),
        None => 0,
    }
}

/// The same by how many data bytes follow.
fn length_by_data(status: u8) -> u8 {
    match data_len(status) {
        Some(count) => count.wrapping_add(1),
        None => 0,
    }
}

/// Bytes, and how long the short message is that each begins: 0 where it begins none.
const LENGTHS: &[(u8, u8)] = &[
    (0x00, 0),
    (0x7f, 0),
    (0x80, 3),
    (0x9f, 3),
    (0xa0, 3),
    (0xbf, 3),
    (0xc0, 2),
    (0xdf, 2),
    (0xe0, 3),
    (0xf0, 0),
    (0xf1, 2),
    (0xf2, 3),
    (0xf3, 2),
    (0xf4, 0),
    (0xf5, 0),
    (0xf6, 1),
    (0xf7, 0),
    (0xf8, 0),
    (0xff, 0),
];

#[test]
fn lengths_of_short_messages(rt: HostRuntime) {
    for (status, length) in LENGTHS {
        assert!(rt; length_of(*status) == *length && length_by_data(*status) == *length);
    }
}

/// Whether these are a short message, which keeps them.
fn short_keeps(status: u8, data1: u8, data2: u8) -> bool {
    match Short::new(status, data1, data2) {
        Some(short) => {
            short.status() == status && short.data1() == data1 && short.data2() == data2
        }
        None => false,
    }
}

/// Whether this is a real-time message, which keeps it.
fn realtime_keeps(byte: u8) -> bool {
    match Rt::new(byte) {
        Some(message) => message.byte() == byte,
        None => false,
    }
}

/// Bytes, and whether they are a real-time message.
const REALTIME: &[(u8, bool)] = &[
    (0xf7, false),
    (0xf8, true),
    (0xf9, false),
    (0xfa, true),
    (0xfb, true),
    (0xfc, true),
    (0xfd, false),
    (0xfe, true),
    (0xff, true),
];

#[test]
fn values_keep_their_bytes(rt: HostRuntime) {
    assert!(rt; short_keeps(0x90, 0x3c, 0x64));
    assert!(rt; Short::new(0x90, 0x3c, 0x64) == Some(Short::of(0x90, 0x3c, 0x64)));
    // a data byte of 128, and an unused one that isn't 0
    assert!(rt; !short_keeps(0x90, 0x80, 0) && !short_keeps(0xc0, 5, 1));
    for (byte, is_message) in REALTIME {
        assert!(rt; realtime_keeps(*byte) == *is_message);
    }
}

/// Marks, and whether these suit outside a SysEx and inside one.
const SUITING: &[(Sample, bool, bool)] = &[
    (Sample::Note, true, false),
    (Sample::Clock, true, true),
    (Sample::Open, true, false),
    (Sample::Byte(1), false, true),
    (Sample::Byte(0x80), false, false),
    (Sample::End, false, true),
    (Sample::Abort, false, true),
];

#[test]
fn marks_suit_inside_sysex_or_outside(rt: HostRuntime) {
    for (sample, outside, inside) in SUITING {
        let mark = sample.mark();
        assert!(rt;
            suits(false, mark) == *outside && suits(true, mark) == *inside,
            "{sample:?}"
        );
    }
}
