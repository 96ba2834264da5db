//! Tapes and Standard MIDI Files that are written as one another, and tapes whose notes are ended.

use crate::row::{Row, Setting, WHOLE, run, run_in_pieces};

const RECORD: &[&str] = &["record", "din"];

const PLAY: &[&str] = &["play"];

const GUARD: &[&str] = &["guard", "din"];

/// What the row shows, the words, the input, what is written, the status, and what must stand on standard error.
type Rewrite = (
    &'static str,
    &'static [&'static str],
    &'static [u8],
    &'static [u8],
    u8,
    &'static str,
);

/// A note, a clock and a SysEx on a tape, and as a file.
const TAPE: &[u8] =
    b"MBT1\0\0\0\0\0\0\0\x05\0\x04\x90\x3c\x64\xf8\0\0\0\0\0\0\0\x07\0\x03\xf0\x01\xf7";

const FILE: &[u8] =
    b"MThd\0\0\0\x06\0\0\0\x01\x03\xe8MTrk\0\0\0\x18\0\xff\x51\x03\x0f\x42\x40\0\x90\x3c\x64\0\xf7\x01\xf8\x02\xf0\x02\x01\xf7\0\xff\x2f\0";

const REWRITES: &[Rewrite] = &[
    ("a tape is recorded", RECORD, TAPE, FILE, 0, ""),
    (
        "and played again",
        PLAY,
        FILE,
        b"MBT2\0\0\0\0\0\0\0\0\0\0\x04\x90\x3c\x64\xf8\0\0\0\0\0\0\x07\xd0\0\0\x03\xf0\x01\xf7",
        0,
        "",
    ),
    (
        "running status, half a second later",
        PLAY,
        b"MThd\0\0\0\x06\0\0\0\x01\0\x60MTrk\0\0\0\x0b\0\x90\x3c\x64\x60\x3c\0\0\xff\x2f\0",
        b"MBT2\0\0\0\0\0\0\0\0\0\0\x03\x90\x3c\x64\0\0\0\0\0\x07\xa1\x20\0\0\x03\x90\x3c\0",
        0,
        "",
    ),
    (
        "a file of two tracks",
        PLAY,
        b"MThd\0\0\0\x06\0\x01\0\x02",
        b"MBT2",
        13,
        "smf 11: format\n",
    ),
    ("no file", PLAY, b"", b"MBT2", 5, "input is cut\n"),
    (
        "running status behind a meta event",
        PLAY,
        b"MThd\0\0\0\x06\0\0\0\x01\0\x60MTrk\0\0\0\x0e\0\x90\x3c\x64\0\xff\x01\0\0\x3c\0\0\xff\x2f\0",
        b"MBT2\0\0\0\0\0\0\0\0\0\0\x03\x90\x3c\x64",
        13,
        "smf 31: event\n",
    ),
    (
        "a gap that no file can have",
        RECORD,
        b"MBT1\0\0\0\0\0\0\0\0\0\x01\xf8\0\0\0\0\x10\0\0\0\0\x01\xf8",
        b"",
        12,
        "gap 0 268435456000\n",
    ),
    (
        "the longest gap",
        RECORD,
        b"MBT1\0\0\0\0\0\0\0\0\0\x01\xf8\0\0\0\0\x0f\xff\xff\xff\0\x01\xf8",
        b"MThd\0\0\0\x06\0\0\0\x01\x03\xe8MTrk\0\0\0\x16\0\xff\x51\x03\x0f\x42\x40\0\xf7\x01\xf8\xff\xff\xff\x7f\xf7\x01\xf8\0\xff\x2f\0",
        0,
        "",
    ),
    (
        "no tape is recorded as a file of no events",
        RECORD,
        b"",
        b"MThd\0\0\0\x06\0\0\0\x01\x03\xe8MTrk\0\0\0\x0b\0\xff\x51\x03\x0f\x42\x40\0\xff\x2f\0",
        5,
        "input is cut\n",
    ),
    (
        "nothing is written of a tape with a fault",
        RECORD,
        b"MBT1\0\0\0\0\0\0\0\x05\0\x01\xf8\0\0\0\0\0\0\0\x03\0\x01\xf8",
        b"",
        7,
        "tape -: back 5 3\n",
    ),
    (
        "a note that hangs is ended",
        GUARD,
        b"MBT1\0\0\0\0\0\0\0\x05\0\x07\x90\x3c\x64\x40\x64\x3c\0",
        b"MBT2\0\0\0\0\0\0\x13\x88\0\0\x0a\x90\x3c\x64\x40\x64\x3c\0\x80\x40\x40",
        0,
        "",
    ),
    (
        "behind a SysEx that is open",
        GUARD,
        b"MBT1\0\0\0\0\0\0\0\0\0\x05\x91\x3c\x64\xf0\x01",
        b"MBT2\0\0\0\0\0\0\0\0\0\0\x08\x91\x3c\x64\xf0\x01\x81\x3c\x40",
        0,
        "",
    ),
    (
        "where the recording is cut",
        &["guard", "usb:0"],
        b"MBT1\0\0\0\0\0\0\0\0\0\x05\x09\x90\x3c\x64\x08",
        b"MBT2\0\0\0\0\0\0\0\0\0\0\x06\x90\x3c\x64\x80\x3c\x40",
        5,
        "input is cut\n",
    ),
    (
        "where the tape has a fault, at the moment of its last record",
        GUARD,
        b"MBT1\0\0\0\0\0\0\0\x05\0\x03\x90\x3c\x64\0\0\0\0\0\0\0\x07\0\x01\xf8\0\0\0\0\0\0\0\x03\0\x01\xf8",
        b"MBT2\0\0\0\0\0\0\x13\x88\0\0\x03\x90\x3c\x64\0\0\0\0\0\0\x1b\x58\0\0\x04\xf8\x80\x3c\x40",
        7,
        "tape -: back 7 3\n",
    ),
];

#[test]
fn tapes_and_files_as_one_another(rt: HostRuntime) {
    for (shows, words, input, output, status, text) in REWRITES {
        let row = Row {
            shows,
            words,
            input,
            output,
            status: *status,
            text,
        };
        run_in_pieces(&rt, rt.alloc(), &row);
    }
}

/// What the row shows, the words and the input, which call fails, how much may be read, the status, and what is written.
type Stopped = (
    &'static str,
    &'static [&'static str],
    &'static [u8],
    u64,
    u64,
    u8,
    &'static [u8],
    &'static str,
);

const NONE: u64 = 99;

const LONG: u64 = 1000;

const HANGING: &[u8] = b"MBT1\0\0\0\0\0\0\0\x05\0\x03\x90\x3c\x64";

const ENDED: &[u8] = b"MBT2\0\0\0\0\0\0\x13\x88\0\0\x06\x90\x3c\x64\x80\x3c\x40";

/// The whole input in one read; the calls are read, write, read, write.
const STOPS: &[Stopped] = &[
    (
        "nothing was read, and the tape of nothing is written",
        GUARD,
        HANGING,
        1,
        LONG,
        3,
        b"MBT2",
        "read fault\n",
    ),
    (
        "the first write fails",
        GUARD,
        HANGING,
        2,
        LONG,
        4,
        b"",
        "write fault\n",
    ),
    (
        "notes are ended where the tape can't be read on",
        GUARD,
        HANGING,
        3,
        LONG,
        3,
        ENDED,
        "read fault\n",
    ),
    (
        "what ends them can't be written",
        GUARD,
        HANGING,
        4,
        LONG,
        4,
        b"MBT2",
        "write fault\n",
    ),
    (
        "notes are ended where the tape is too long",
        GUARD,
        HANGING,
        NONE,
        17,
        8,
        ENDED,
        "input is too long\n",
    ),
    (
        "a file that can't be read on is played so far",
        PLAY,
        FILE,
        3,
        LONG,
        3,
        b"MBT2\0\0\0\0\0\0\0\0\0\0\x04\x90\x3c\x64\xf8\0\0\0\0\0\0\x07\xd0\0\0\x03\xf0\x01\xf7",
        "read fault\n",
    ),
    (
        "nothing is recorded of a tape that can't be read on",
        RECORD,
        TAPE,
        2,
        LONG,
        3,
        b"",
        "read fault\n",
    ),
    (
        "the file can't be written",
        RECORD,
        TAPE,
        3,
        LONG,
        4,
        b"",
        "write fault\n",
    ),
];

#[test]
fn calls_that_fail_and_limits_of_tapes_and_files(rt: HostRuntime) {
    for (shows, words, input, fault, limit, status, output, text) in STOPS {
        let row = Row {
            shows,
            words,
            input,
            output,
            status: *status,
            text,
        };
        let setting = Setting {
            fault: Some(*fault),
            limit: *limit,
            ..WHOLE
        };
        run(&rt, rt.alloc(), &row, setting);
    }
}
