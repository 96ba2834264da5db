//! `check` and `trace` of a byte line: the lines, and the status.

use crate::row::{Row, Told, run_in_pieces, run_table};

const CHECK: &[&str] = &["check", "din"];

const TRACE: &[&str] = &["trace", "din"];

const CHECKED: &[Told] = &[
    ("nothing to tell", CHECK, &[0x90, 0x3c, 0x64], b"", 0),
    ("nothing at all", CHECK, &[], b"", 0),
    (
        "each note at its own byte, a truncated message at its status",
        CHECK,
        &[0x3c, 0x90, 0x3c, 0xf4, 0xf7, 0xf9],
        b"0 stray-data\n1 truncated\n3 undefined\n4 stray-end\n5 undefined\n",
        1,
    ),
    (
        "a message that only running status began is truncated at its first byte",
        CHECK,
        &[0x90, 0x3c, 0x64, 0x40],
        b"3 truncated\n",
        1,
    ),
    (
        "a dump that stands open at the end is no note",
        CHECK,
        &[0xf0, 0x01],
        b"",
        0,
    ),
    (
        "a status is truncated by the next one, and no status runs behind system common",
        CHECK,
        &[0xf1, 0xf1, 0x05, 0x06],
        b"0 truncated\n3 stray-data\n",
        1,
    ),
];

const TRACED: &[Told] = &[
    (
        "a message and a real-time byte inside it",
        TRACE,
        &[0x90, 0xf8, 0x3c, 0x64, 0xc5, 0x0a],
        b"0 rt F8\n0 short 90 3C 64\n0 short C5 0A\n",
        0,
    ),
    (
        "a dump that stands open at the end is broken there",
        TRACE,
        &[0xf0, 0x01],
        b"0 open\n0 data 01\n0 abort\n",
        0,
    ),
    (
        "notes stand among the marks",
        TRACE,
        &[0x3c, 0xf0, 0x01, 0xf7, 0xf7, 0xf6],
        b"note 0 stray-data\n0 open\n0 data 01\n0 end\nnote 4 stray-end\n0 short F6\n",
        0,
    ),
];

#[test]
fn recordings_are_checked_and_traced(rt: HostRuntime) {
    run_table(&rt, rt.alloc(), CHECKED);
    run_table(&rt, rt.alloc(), TRACED);
}

/// More lines than the buffer of one piece holds.
#[test]
fn every_line_of_a_long_piece_is_printed(rt: HostRuntime) {
    let input = [0xf8; 300];
    let mut lines = [0u8; 2400];
    for line in lines.chunks_exact_mut(8) {
        line.copy_from_slice(b"0 rt F8\n");
    }
    let row = Row {
        shows: "three hundred clocks in one piece",
        words: TRACE,
        input: &input,
        output: &lines,
        status: 0,
        text: "",
    };
    run_in_pieces(&rt, rt.alloc(), &row);
}
