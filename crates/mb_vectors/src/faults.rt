//! Calls that fail, limits, and words that are no command.

use crate::row::{Row, Setting, WHOLE, desk, run, said_at, words};
use arrayvec::ArrayVec;
use mb_top::bridge;
use std::alloc::Global;
use std::process::Abort;

const TO_CABLE_0: &[&str] = &["convert", "din", "usb:0"];

const TO_LINE: &[&str] = &["convert", "din", "din"];

/// Room for all that a row writes.
const ROOM: usize = WHOLE.room;

const NOTE_ON: &[u8] = &[0x90, 0x3c, 0x64];

const NOTE_ON_PACKET: &[u8] = &[0x09, 0x90, 0x3c, 0x64];

const USAGE: &str =
    "usage: midibridge convert [tally] SPEC SPEC .. / trace SPEC / check SPEC / run RIGFILE / selftest START COUNT / migrate / record SPEC / play / guard SPEC / filter RULEFILE SPEC\n";

/// What the row shows, which call of the desk is to fail, the room for what is written, the status, and what must stand
/// on standard output and error.
type Fault = (&'static str, u64, usize, u8, &'static [u8], &'static str);

const FAULTS: &[Fault] = &[
    ("no call fails", 9, ROOM, 0, NOTE_ON_PACKET, ""),
    ("the first read fails", 1, ROOM, 3, &[], "read fault\n"),
    ("the first write fails", 2, ROOM, 4, &[], "write fault\n"),
    (
        "the read that finds the end fails",
        3,
        ROOM,
        3,
        NOTE_ON_PACKET,
        "read fault\n",
    ),
    ("there is room for two bytes", 9, 2, 4, &[0x09, 0x90], ""),
];

const CLOCK: &[u8] = &[0x0f, 0xf8, 0, 0];

const CLOCKS: &[u8] = &[0x0f, 0xf8, 0, 0, 0x0f, 0xf8, 0, 0];

const THREE_CLOCKS: &[u8] = &[0x0f, 0xf8, 0, 0, 0x0f, 0xf8, 0, 0, 0x0f, 0xf8, 0, 0];

/// Two clocks, a byte a read. The calls are read, write, read, write, and the read that finds the end.
const BYTE_BY_BYTE: &[Fault] = &[
    ("the first read", 1, ROOM, 3, &[], "read fault\n"),
    ("the first write", 2, ROOM, 4, &[], "write fault\n"),
    ("the second read", 3, ROOM, 3, CLOCK, "read fault\n"),
    ("the second write", 4, ROOM, 4, CLOCK, "write fault\n"),
    ("the last read", 5, ROOM, 3, CLOCKS, "read fault\n"),
];

const TWO_NOTES: &[u8] = &[0x90, 0x3c, 0x64, 0x90, 0x40, 0x64];

const TWO_NOTES_RUNNING: &[u8] = &[0x90, 0x3c, 0x64, 0x40, 0x64];

/// Two notes of one status, a note a read: the status runs on behind a piece's end. The calls are as above.
const NOTE_BY_NOTE: &[Fault] = &[
    ("the first read", 1, ROOM, 3, &[], "read fault\n"),
    ("the first write", 2, ROOM, 4, &[], "write fault\n"),
    ("the second read", 3, ROOM, 3, NOTE_ON, "read fault\n"),
    ("the second write", 4, ROOM, 4, NOTE_ON, "write fault\n"),
    (
        "the last read",
        5,
        ROOM,
        3,
        TWO_NOTES_RUNNING,
        "read fault\n",
    ),
    ("no call", 9, ROOM, 0, TWO_NOTES_RUNNING, ""),
];

/// Words, rows, the input, and how much a read gives.
type Faults = (
    &'static [&'static str],
    &'static [Fault],
    &'static [u8],
    usize,
);

const CALLS: &[Faults] = &[
    (TO_CABLE_0, FAULTS, NOTE_ON, 512),
    (TO_CABLE_0, BYTE_BY_BYTE, &[0xf8, 0xf8], 1),
    (TO_LINE, NOTE_BY_NOTE, TWO_NOTES, 3),
];

/// After a fault stands what was known before, and what a read gives is written before the next one.
#[test]
fn after_a_fault_stands_what_was_known_before(rt: HostRuntime) {
    for (words, rows, input, piece) in CALLS {
        for (shows, fault, room, status, output, text) in *rows {
            let row = Row {
                shows,
                words,
                input,
                output,
                status: *status,
                text,
            };
            let setting = Setting {
                piece: *piece,
                room: *room,
                fault: Some(*fault),
                ..WHOLE
            };
            run(&rt, rt.alloc(), &row, setting);
        }
    }
}

/// Words, how many bytes of three clocks may be read, what is written, and the status.
type Limit = (&'static [&'static str], u64, &'static [u8], u8);

const LIMITS: &[Limit] = &[
    (TO_CABLE_0, 2, CLOCKS, 8),
    (TO_CABLE_0, 4, THREE_CLOCKS, 0),
    (&["trace", "din"], 2, b"0 rt F8\n0 rt F8\n", 8),
    (&["check", "din"], 2, &[], 8),
    (&["convert", "tally", "din", "din"], 2, &[0xf8, 0xf8], 8),
    (TO_LINE, 2, &[0xf8, 0xf8], 8),
    (TO_LINE, 4, &[0xf8, 0xf8, 0xf8], 0),
];

#[test]
fn the_limit_is_looked_at_before_the_next_read(rt: HostRuntime) {
    for (words, limit, output, status) in LIMITS {
        let row = Row {
            shows: "three bytes at a limit",
            words,
            input: &[0xf8, 0xf8, 0xf8],
            output,
            status: *status,
            text: said_at(*status),
        };
        let setting = Setting {
            limit: *limit,
            ..WHOLE
        };
        run(&rt, rt.alloc(), &row, setting);
    }
}

/// As many clocks as one read gives.
const CLOCK_READ: [u8; 512] = [0xf8; 512];

/// The same as packets.
fn clock_packets() -> ArrayVec<u8, 2048> {
    let mut packets = ArrayVec::new();
    'clocks: for _clock in 0..512 {
        let _ = packets.try_extend_from_slice(&[0x0f, 0xf8, 0, 0]);
    }
    packets
}

/// Runs one read of clocks where so many calls are made: the last of them may fail, and one more never comes.
fn takes_calls(rt: &impl Abort, alloc: Global, words: &[&str], output: &[u8], calls: u64) {
    let row = Row {
        shows: "a buffer that is full",
        words,
        input: &CLOCK_READ,
        output,
        status: 0,
        text: "",
    };
    let never = Setting {
        fault: Some(calls.saturating_add(1)),
        ..WHOLE
    };
    run(rt, alloc, &row, never);
    let last = Setting {
        fault: Some(calls),
        ..WHOLE
    };
    let stopped = Row {
        status: 3,
        text: said_at(3),
        ..row
    };
    run(rt, alloc, &stopped, last);
}

/// A buffer of 1,024 is handed on where it has no room for one more event, and not before: one write of 512 bytes, and
/// three of 2,048. Each run has two reads beside them.
#[test]
fn a_buffer_is_handed_on_where_it_is_full(rt: HostRuntime) {
    takes_calls(&rt, rt.alloc(), TO_LINE, &CLOCK_READ, 3);
    takes_calls(&rt, rt.alloc(), TO_CABLE_0, clock_packets().as_slice(), 5);
}

/// Words that are no command.
const NO_COMMANDS: &[&[&str]] = &[
    &[],
    &["convert"],
    &["convert", "din"],
    &["convert", "din", "usb:16"],
    &["convert", "din", "usb:00"],
    &["convert", "din", "usb:"],
    &["convert", "din", "fw:64"],
    &["convert", "fw:07", "din"],
    &["convert", "din", "midi"],
    &["Convert", "din", "usb:0"],
    &["--help"],
    &["trace"],
    &["selftest", "01", "5"],
    &[
        "convert", "din", "din", "din", "din", "din", "din", "din", "din", "din", "din", "din",
    ],
    &["convert", "ble/4", "din"],
    &["check", "ble/4"],
    &["convert", "din", "ble/05"],
    &["convert", "din", "ble/513"],
    &["convert", "ble/", "din"],
    &["trace", "ble:20"],
    &["convert", "din", "usb:0", "midi"],
    &["convert", "din", "usb:16", "din"],
    &["convert", "tally", "din"],
    &["convert", "din", "tally", "din"],
    &["tally", "convert", "din", "din"],
    &["trace", "din", "din"],
    &["selftest", "0", "1000001"],
    &["run"],
    &["run", "r.txt", "o.bin"],
    &["check", "usb:16"],
];

/// Whether these words are answered by the usage alone.
fn are_refused(rt: &impl Abort, alloc: Global, no_command: &[&str]) -> bool {
    let args = words(rt, alloc, no_command);
    let mut desk = desk(rt, alloc, NOTE_ON, WHOLE);
    bridge(alloc, &args, &mut desk) == 2
        && desk.is_written(1, &[])
        && desk.is_written(2, USAGE.as_bytes())
}

#[test]
fn words_that_are_no_command_read_and_write_nothing(rt: HostRuntime) {
    for no_command in NO_COMMANDS {
        assert!(rt; are_refused(&rt, rt.alloc(), no_command), "{no_command:?}");
    }
}
