//! The self-test of the program: its lines, its taker of sums, and a write that fails.

use crate::row::{Row, Setting, Told, WHOLE, desk, run, run_table};
use mb_denote::Counts;
use mb_outside::Out;
use mb_smoke::{SmokeEnd, SumOut, selftest};

const CHECKS: &[Told] = &[
    (
        "nothing is made",
        &["selftest", "0", "0"],
        &[],
        b"made 0\nwritten 0 0 0 0\nitems 0 0 0 0\nmix 00000000\n",
        0,
    ),
    (
        "one message, and nothing is read",
        &["selftest", "0", "1"],
        &[0x90, 0x3c, 0x64],
        b"made 3\nwritten 4 7 126 3\nitems 1 0 0 0\nmix 00036449\n",
        0,
    ),
    (
        "a real-time message between two others",
        &["selftest", "1", "3"],
        &[],
        b"made 6\nwritten 12 12 252 6\nitems 2 0 0 1\nmix 4fb273d6\n",
        0,
    ),
    (
        "a broken SysEx of 45 bytes",
        &["selftest", "0", "2"],
        &[],
        b"made 49\nwritten 68 60 2058 49\nitems 1 0 1 0\nmix 9b0ad912\n",
        0,
    ),
];

#[test]
fn the_four_lines(rt: HostRuntime) {
    run_table(&rt, rt.alloc(), CHECKS);
}

const UNWRITTEN: Row<'static> = Row {
    shows: "the only write fails",
    words: &["selftest", "0", "1"],
    input: &[],
    output: &[],
    status: 4,
    text: "write fault\n",
};

const WRITTEN_IN_PART: Row<'static> = Row {
    shows: "there is room for six bytes",
    output: b"made 3",
    text: "",
    ..UNWRITTEN
};

#[test]
fn a_front_of_the_lines_is_written(rt: HostRuntime) {
    let failing = Setting {
        fault: Some(1),
        ..WHOLE
    };
    run(&rt, rt.alloc(), &UNWRITTEN, failing);
    let small = Setting { room: 6, ..WHOLE };
    run(&rt, rt.alloc(), &WRITTEN_IN_PART, small);
}

/// The call itself, on a desk.
#[test]
fn the_lines_go_to_standard_output(rt: HostRuntime) {
    let mut desk = desk(&rt, rt.alloc(), &[], WHOLE);
    assert!(rt; selftest(rt.alloc(), 0, 1, &mut desk) == SmokeEnd::Done);
    let lines = b"made 3\nwritten 4 7 126 3\nitems 1 0 0 0\nmix 00036449\n";
    assert!(rt; desk.is_written(1, lines));
}

/// A message, a whole SysEx with a clock in it, and one that stays open.
#[test]
fn sums_of_what_is_taken(rt: HostRuntime) {
    let mut out = SumOut::new();
    out.take(&[0xc0, 0x05, 0xf0, 0x01, 0xf8])
        .expect(&rt, "room");
    out.take(&[0xf7, 0xf0, 0x02]).expect(&rt, "room");
    out.finish();
    let counts = Counts {
        msg: 1,
        syx: 1,
        broken: 1,
        rt: 1,
    };
    assert!(rt; out.counts() == counts);
    assert!(rt; out.mix() == 0x8b6e_7467);
}
