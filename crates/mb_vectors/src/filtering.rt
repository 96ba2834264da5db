//! Tapes as rules have them, which are read from a file before.

use crate::row::{Row, Setting, WHOLE, desk, run_at};
use std::alloc::Global;
use std::process::Abort;

const FILTER: &[&str] = &["filter", "rules.txt", "din"];

/// Runs a row at a desk that has the rules in a file.
fn run_with(rt: &impl Abort, alloc: Global, rules: &[u8], row: &Row<'_>, setting: Setting) {
    let mut desk = desk(rt, alloc, row.input, setting);
    desk.put_file("rules.txt", rules).expect(rt, "memory");
    run_at(rt, alloc, row, &mut desk, setting.limit);
}

/// What the row shows, the rules, the tape, what is written, the status, and what must stand on standard error.
type Filter = (
    &'static str,
    &'static [u8],
    &'static [u8],
    &'static [u8],
    u8,
    &'static str,
);

const NOTES: &[u8] = b"MBT1\0\0\0\0\0\0\0\0\0\x07\x90\x3c\x64\xf8\x91\x3c\x64";

const FILTERS: &[Filter] = &[
    (
        "an octave up on one channel, and no clock",
        b"note 1 up 12\nclock * drop\n",
        NOTES,
        b"MBT2\0\0\0\0\0\0\0\0\0\0\x06\x90\x48\x64\x91\x3c\x64",
        0,
        "",
    ),
    (
        "a clock stays where the dump around it is dropped",
        b"sysex * drop\n",
        b"MBT1\0\0\0\0\0\0\0\0\0\x08\xf0\x01\xf8\x02\xf7\x90\x7f\x01",
        b"MBT2\0\0\0\0\0\0\0\0\0\0\x04\xf8\x90\x7f\x01",
        0,
        "",
    ),
    (
        "a key that leaves the keyboard is dropped",
        b"note * up 1\n",
        b"MBT1\0\0\0\0\0\0\0\0\0\x04\x90\x7f\x01\xf8",
        b"MBT2\0\0\0\0\0\0\0\0\0\0\x01\xf8",
        0,
        "",
    ),
    (
        "no rules",
        b"",
        NOTES,
        b"MBT2\0\0\0\0\0\0\0\0\0\0\x07\x90\x3c\x64\xf8\x91\x3c\x64",
        0,
        "",
    ),
    (
        "rules that are refused",
        b"note 17 drop\n",
        NOTES,
        b"",
        14,
        "rules line 1: channels\n",
    ),
    (
        "where the tape is cut",
        b"note * channel 16",
        b"MBT1\0\0\0\0\0\0\0\0\0\x05\x90\x3c\x64",
        b"MBT2\0\0\0\0\0\0\0\0\0\0\x03\x9f\x3c\x64",
        5,
        "input is cut\n",
    ),
    (
        "where the tape has a fault",
        b"clock * drop",
        b"MBT1\0\0\0\0\0\0\0\x05\0\x04\x90\x3c\x64\xf8\0\0\0\0\0\0\0\x03\0\x01\xf8",
        b"MBT2\0\0\0\0\0\0\x13\x88\0\0\x03\x90\x3c\x64",
        7,
        "tape -: back 5 3\n",
    ),
];

#[test]
fn tapes_as_rules_have_them(rt: HostRuntime) {
    for (shows, rules, input, output, status, text) in FILTERS {
        let row = Row {
            shows,
            words: FILTER,
            input,
            output,
            status: *status,
            text,
        };
        for piece in [1, 2, 3, 5, 512] {
            run_with(&rt, rt.alloc(), rules, &row, Setting { piece, ..WHOLE });
        }
    }
}

/// A text of a byte more than a text may have, and one of so many: a remark, or a word that is none of a rule's.
#[test]
fn the_longest_rules(rt: HostRuntime) {
    let row = Row {
        shows: "a text that is too long",
        words: FILTER,
        input: NOTES,
        output: b"",
        status: 14,
        text: "rules line 0: long\n",
    };
    run_with(&rt, rt.alloc(), &[b'#'; 4097], &row, WHOLE);
    let row = Row {
        shows: "the longest text",
        text: "rules line 1: words\n",
        ..row
    };
    run_with(&rt, rt.alloc(), &[b'+'; 4096], &row, WHOLE);
}

/// What the row shows, which call fails, how much of the tape may be read, what is written, the status, and the text.
type Stopped = (&'static str, u64, u64, &'static [u8], u8, &'static str);

const NONE: u64 = 99;

const LONG: u64 = 1000;

const KEPT: &[u8] = b"MBT2\0\0\0\0\0\0\0\0\0\0\x06\x90\x3c\x64\x91\x3c\x64";

/// The calls: the file is opened, read, and read at its end; the tape is read, its magic written, its end read, and the
/// record written.
const STOPS: &[Stopped] = &[
    ("the file can't be opened", 1, LONG, b"", 3, "read fault\n"),
    ("the file can't be read", 2, LONG, b"", 3, "read fault\n"),
    ("the file can't be read on", 3, LONG, b"", 3, "read fault\n"),
    (
        "nothing was read, and the tape of nothing is written",
        4,
        LONG,
        b"MBT2",
        3,
        "read fault\n",
    ),
    ("the first write fails", 5, LONG, b"", 4, "write fault\n"),
    (
        "the tape can't be read on",
        6,
        LONG,
        KEPT,
        3,
        "read fault\n",
    ),
    (
        "the record can't be written",
        7,
        LONG,
        b"MBT2",
        4,
        "write fault\n",
    ),
    (
        "the tape is too long",
        NONE,
        21,
        KEPT,
        8,
        "input is too long\n",
    ),
];

#[test]
fn calls_that_fail_and_a_limit(rt: HostRuntime) {
    for (shows, fault, limit, output, status, text) in STOPS {
        let row = Row {
            shows,
            words: FILTER,
            input: NOTES,
            output,
            status: *status,
            text,
        };
        let setting = Setting {
            fault: Some(*fault),
            limit: *limit,
            ..WHOLE
        };
        run_with(&rt, rt.alloc(), b"clock * drop", &row, setting);
    }
}

#[test]
fn a_file_that_is_not_there(rt: HostRuntime) {
    let row = Row {
        shows: "no such file",
        words: FILTER,
        input: NOTES,
        output: b"",
        status: 3,
        text: "read fault\n",
    };
    let mut desk = desk(&rt, rt.alloc(), NOTES, WHOLE);
    run_at(&rt, rt.alloc(), &row, &mut desk, LONG);
}
