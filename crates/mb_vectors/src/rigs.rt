//! Rigs that are run, over a desk that has their files.

use crate::row::{Row, Setting, WHOLE, desk, run_at};
use mb_outside::MemoryDesk;
use std::alloc::Global;
use std::process::Abort;

const RUN: &[&str] = &["run", "r.txt"];

/// What the row shows, the rig, the tapes a.mbt and b.mbt, the report, what stands at the handle of the first out, the
/// status, and what must stand on standard error.
type Run = (
    &'static str,
    &'static [u8],
    &'static [u8],
    &'static [u8],
    &'static [u8],
    (u32, &'static [u8]),
    u8,
    &'static str,
);

/// A dump that waits for its end, and a key with a clock.
const STAGE: &[u8] =
    b"in keys din a.mbt\nin pad din b.mbt\nout synth din o.bin\nroute keys synth\nroute pad synth\n";

const DUMP: &[u8] = b"MBT1\0\0\0\0\0\0\0\0\0\x02\xf0\x01\0\0\0\0\0\0\0\x02\0\x01\xf7";

const KEY: &[u8] = b"MBT1\0\0\0\0\0\0\0\x01\0\x04\x90\x3c\x64\xf8";

const ONE: &[u8] = b"in a din a.mbt\nout o din o.bin\nroute a o\n";

/// No out was created.
const NONE: (u32, &[u8]) = (4, b"");

const RUNS: &[Run] = &[
    (
        "a key waits for the end of a dump, and a clock doesn't",
        STAGE,
        DUMP,
        KEY,
        b"1 1 1 R\n2 2 0 S\n1 2 1 M\n",
        (6, b"\xf0\x01\xf8\xf7\x90\x3c\x64"),
        0,
        "",
    ),
    (
        "each step ends the packet under way",
        b"in keys din a.mbt\nin pad din b.mbt\nout synth ble o.bin\nroute keys synth\nroute pad synth\n",
        DUMP,
        KEY,
        b"1 1 1 R\n2 2 0 S\n1 2 1 M\n",
        (
            6,
            b"\0\x04\x80\x80\xf0\x01\0\x03\x80\x81\xf8\0\x07\x80\x82\xf7\x82\x90\x3c\x64",
        ),
        0,
        "",
    ),
    (
        "tapes of the second form",
        STAGE,
        b"MBT2\0\0\0\0\0\0\0\0\0\0\x02\xf0\x01\0\0\0\0\0\0\x07\xd0\0\0\x01\xf7",
        b"MBT2\0\0\0\0\0\0\x03\xe8\0\0\x04\x90\x3c\x64\xf8",
        b"1 1 1 R\n2 2 0 S\n1 2 1 M\n",
        (6, b"\xf0\x01\xf8\xf7\x90\x3c\x64"),
        0,
        "",
    ),
    (
        "two tracks of one tape, their moments within a millisecond",
        b"in a din a.mbt\nin b din a.mbt 1\nout o din o.bin\nroute a o\nroute b o\n",
        b"MBT2\0\0\0\0\0\0\x05\xdc\x01\0\x01\xf8\0\0\0\0\0\0\x06\xa4\0\0\x01\xfa",
        b"",
        b"1 1 1 R\n1 1 0 R\n",
        (6, b"\xf8\xfa"),
        0,
        "",
    ),
    (
        "a carrier that there isn't",
        b"in a dni a.mbt",
        b"",
        b"",
        b"",
        NONE,
        6,
        "rig line 1: carrier\n",
    ),
    (
        "no line",
        b"",
        b"",
        b"",
        b"",
        NONE,
        6,
        "rig line 1: count\n",
    ),
    (
        "a name that stands twice",
        b"in a din a.mbt\nin a din b.mbt\n",
        b"",
        b"",
        b"",
        NONE,
        6,
        "rig line 2: name-twice\n",
    ),
    (
        "a moment that falls",
        ONE,
        b"MBT1\0\0\0\0\0\0\0\x05\0\x01\xf8\0\0\0\0\0\0\0\x03\0\x01\xf8",
        b"",
        b"5 5 0 R\n",
        (5, b"\xf8"),
        7,
        "tape a.mbt: back 5 3\n",
    ),
    (
        "another magic",
        ONE,
        b"MBU",
        b"",
        b"",
        (5, b""),
        7,
        "tape a.mbt: magic\n",
    ),
    (
        "an empty record",
        ONE,
        b"MBT1\0\0\0\0\0\0\0\0\0\0",
        b"",
        b"",
        (5, b""),
        7,
        "tape a.mbt: zero\n",
    ),
    (
        "a tape of no bytes",
        ONE,
        b"",
        b"",
        b"",
        (5, b""),
        5,
        "input is cut\n",
    ),
    (
        "a tape that stops in its first header",
        ONE,
        b"MBT1\0",
        b"",
        b"",
        (5, b""),
        5,
        "input is cut\n",
    ),
    (
        "a recording that stops inside a packet",
        b"in a usb:0 a.mbt\nout o din o.bin\nroute a o\n",
        b"MBT1\0\0\0\0\0\0\0\x07\0\x05\x09\x90\x3c\x64\x09",
        b"",
        b"7 7 0 M\n",
        (5, b"\x90\x3c\x64"),
        5,
        "input is cut\n",
    ),
    (
        "a link that goes nowhere",
        b"# one tape\n\nin a din a.mbt\nout o din o.bin\n",
        b"MBT1\0\0\0\0\0\0\0\x05\0\x01\xf8",
        b"",
        b"5 5 0 R\n",
        (5, b""),
        0,
        "",
    ),
    (
        "a tape that isn't there",
        b"in a din c.mbt\nout o din o.bin\nroute a o\n",
        b"",
        b"",
        b"",
        NONE,
        3,
        "read fault\n",
    ),
];

/// A desk with the rig and its tapes.
fn stage(
    rt: &impl Abort,
    alloc: Global,
    rig: &[u8],
    tapes: (&[u8], &[u8]),
    setting: Setting,
) -> MemoryDesk {
    let mut desk = desk(rt, alloc, b"", setting);
    desk.put_file("r.txt", rig).expect(rt, "memory");
    desk.put_file("a.mbt", tapes.0).expect(rt, "memory");
    desk.put_file("b.mbt", tapes.1).expect(rt, "memory");
    desk
}

#[test]
fn rigs_that_are_run(rt: HostRuntime) {
    for (shows, rig, a, b, report, out, status, text) in RUNS {
        for piece in [1, 2, 3, 5, 512] {
            let setting = Setting { piece, ..WHOLE };
            let mut desk = stage(&rt, rt.alloc(), rig, (a, b), setting);
            let row = Row {
                shows,
                words: RUN,
                input: b"",
                output: report,
                status: *status,
                text,
            };
            run_at(&rt, rt.alloc(), &row, &mut desk, setting.limit);
            assert!(rt; desk.is_written(out.0, out.1), "{shows}: out");
        }
    }
}

/// What the row shows, which call fails, how much of each tape may be read, the report, the out, the status, and the
/// text.
type Stopped = (
    &'static str,
    u64,
    u64,
    &'static [u8],
    &'static [u8],
    u8,
    &'static str,
);

/// No call fails.
const NEVER: u64 = 999;

const LONG: u64 = 1000;

const CLOCKS: &[u8] = b"MBT1\0\0\0\0\0\0\0\x05\0\x01\xf8\0\0\0\0\0\0\0\x06\0\x01\xf8";

/// The calls: the rig's file is opened, read, and read at its end; the tape's is opened, the out's created, the tape is
/// read, the clock written and told, the second clock too, and the end of the tape read.
const STOPS: &[Stopped] = &[
    (
        "the rig can't be opened",
        1,
        LONG,
        b"",
        b"",
        3,
        "read fault\n",
    ),
    (
        "the rig can't be read",
        2,
        LONG,
        b"",
        b"",
        3,
        "read fault\n",
    ),
    (
        "the rig can't be read on",
        3,
        LONG,
        b"",
        b"",
        3,
        "read fault\n",
    ),
    (
        "the tape can't be opened",
        4,
        LONG,
        b"",
        b"",
        3,
        "read fault\n",
    ),
    (
        "the out can't be created",
        5,
        LONG,
        b"",
        b"",
        4,
        "write fault\n",
    ),
    (
        "the tape can't be read",
        6,
        LONG,
        b"",
        b"",
        3,
        "read fault\n",
    ),
    (
        "the tape is too long",
        NEVER,
        15,
        b"5 5 0 R\n",
        b"\xf8",
        8,
        "input is too long\n",
    ),
];

#[test]
fn calls_that_fail_and_a_limit(rt: HostRuntime) {
    for (shows, fault, limit, report, out, status, text) in STOPS {
        let setting = Setting {
            fault: Some(*fault),
            limit: *limit,
            ..WHOLE
        };
        let mut desk = stage(&rt, rt.alloc(), ONE, (CLOCKS, b""), setting);
        let row = Row {
            shows,
            words: RUN,
            input: b"",
            output: report,
            status: *status,
            text,
        };
        run_at(&rt, rt.alloc(), &row, &mut desk, *limit);
        assert!(rt; desk.is_written(5, out), "{shows}: out");
    }
}

/// A text of a byte more than a rig may have, and one of so many: a remark alone.
#[test]
fn the_longest_rigs(rt: HostRuntime) {
    let row = Row {
        shows: "a text that is too long",
        words: RUN,
        input: b"",
        output: b"",
        status: 6,
        text: "rig line 0: long\n",
    };
    let mut desk = stage(&rt, rt.alloc(), &[b'#'; 65_537], (b"", b""), WHOLE);
    run_at(&rt, rt.alloc(), &row, &mut desk, WHOLE.limit);
    let row = Row {
        shows: "the longest text",
        text: "rig line 2: count\n",
        ..row
    };
    let mut desk = stage(&rt, rt.alloc(), &[b'#'; 65_536], (b"", b""), WHOLE);
    run_at(&rt, rt.alloc(), &row, &mut desk, WHOLE.limit);
}

/// So many notes wait for the end of a dump.
const MANY: usize = 1100;

/// More notes than a link's ring holds wait for a dump: the link is stalled until that ends, and none is lost.
#[test]
fn more_notes_than_a_ring_holds(rt: HostRuntime) {
    let mut pad = Vec::new(rt.alloc());
    pad.extend_from_slice(b"MBT1\0\0\0\0\0\0\0\x01\x08\x99\x90")
        .expect(&rt, "memory");
    let mut synth = Vec::new(rt.alloc());
    synth
        .extend_from_slice(b"\xf0\x01\xf7\x90")
        .expect(&rt, "memory");
    let mut report = Vec::new(rt.alloc());
    report.extend_from_slice(b"2 2 0 S\n").expect(&rt, "memory");
    for _ in 0..MANY {
        pad.extend_from_slice(b"\x3c\x64").expect(&rt, "memory");
        synth.extend_from_slice(b"\x3c\x64").expect(&rt, "memory");
        report.extend_from_slice(b"1 2 1 M\n").expect(&rt, "memory");
    }
    let setting = Setting {
        room: 16_384,
        ..WHOLE
    };
    let mut desk = stage(&rt, rt.alloc(), STAGE, (DUMP, pad.as_slice()), setting);
    let row = Row {
        shows: "more notes than a ring holds",
        words: RUN,
        input: b"",
        output: report.as_slice(),
        status: 0,
        text: "",
    };
    run_at(&rt, rt.alloc(), &row, &mut desk, setting.limit);
    assert!(rt; desk.is_written(6, synth.as_slice()), "the out");
}
