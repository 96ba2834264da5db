//! The notes that sound.

use crate::marks::Sample;
use crate::text::{Text, put_mark};
use mb_guard::Guard;
use mb_message::{Mark, Short};

/// Tells a guard of short messages; bytes that are none are left out.
fn hear(messages: &[(u8, u8, u8)], guard: &mut Guard) {
    for (status, data1, data2) in messages {
        if let Some(short) = Short::new(*status, *data1, *data2) {
            guard.put(Mark::Short(short));
        }
    }
}

/// Appends a line a Note Off.
fn put_offs(guard: &mut Guard, text: &mut Text) {
    'offs: while let Some(off) = guard.next_off() {
        put_mark(0, Mark::Short(off), text);
    }
}

/// Short messages, and the Note Offs for what sounds behind them.
const SOUNDING: &[(&[(u8, u8, u8)], &str)] = &[
    (&[], ""),
    (
        &[(0x90, 0x3c, 0x64), (0x90, 0x40, 0x64), (0x90, 0x3c, 0)],
        "0 short 80 40 40\n",
    ),
    (
        &[(0x9f, 0, 1), (0x91, 5, 1), (0x90, 127, 127), (0x91, 5, 9)],
        "0 short 80 7F 40\n0 short 81 05 40\n0 short 8F 00 40\n",
    ),
    (
        &[
            (0x92, 7, 1),
            (0x83, 7, 0),
            (0xa2, 7, 0),
            (0xb2, 123, 0),
            (0xb2, 120, 0),
        ],
        "0 short 82 07 40\n",
    ),
    (&[(0x92, 7, 1), (0x82, 7, 127)], ""),
    (&[(0x80, 7, 1), (0xa0, 7, 1)], ""),
];

#[test]
fn notes_left_sounding_are_ended(rt: HostRuntime) {
    for (messages, told) in SOUNDING {
        let mut guard = Guard::new();
        let mut text = Text::new();
        hear(messages, &mut guard);
        put_offs(&mut guard, &mut text);
        assert!(rt; text.as_slice() == told.as_bytes(), "{told}");
        assert!(rt; guard.next_off().is_none());
    }
}

/// Marks that are no short messages.
const OTHERS: &[Sample] = &[
    Sample::Clock,
    Sample::Stop,
    Sample::Open,
    Sample::Byte(0x3c),
    Sample::End,
    Sample::Open,
    Sample::Abort,
    Sample::Tune,
    Sample::Program,
];

#[test]
fn other_marks_end_nothing(rt: HostRuntime) {
    let mut guard = Guard::new();
    guard.put(Sample::Note.mark());
    for sample in OTHERS {
        guard.put(sample.mark());
    }
    assert!(rt; guard.next_off() == Short::new(0x80, 0x3c, 0x40));
    assert!(rt; guard.next_off().is_none());
}

/// Whether the next Note Offs are those of all keys of all channels.
fn ends_all(guard: &mut Guard) -> bool {
    for channel in 0..16u8 {
        for key in 0..128u8 {
            if guard.next_off() != Short::new(0x80 + channel, key, 0x40) {
                return false;
            }
        }
    }
    true
}

#[test]
fn all_notes_at_once(rt: HostRuntime) {
    let mut guard = Guard::new();
    for key in 0..128u8 {
        for channel in 0..16u8 {
            hear(&[(0x90 + channel, key, 1)], &mut guard);
        }
    }
    assert!(rt; ends_all(&mut guard));
    assert!(rt; guard.next_off().is_none());
}
