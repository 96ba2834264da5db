//! Conversions by three to ten specs, the tally, and one failing call at each place.

use crate::row::{Row, Setting, Told, WHOLE, run, run_in_pieces, run_table};

const TO_LINE_AND_BACK: &[&str] = &["convert", "din", "usb:0", "din"];

const TEN: &[&str] = &[
    "convert", "din", "usb:0", "din", "usb:1", "din", "usb:2", "din", "usb:15", "usb:3", "din",
];

const CHAINS: &[Told] = &[
    (
        "a clock passes a dump that waits for its packet",
        TO_LINE_AND_BACK,
        &[0xf0, 0x01, 0xf8, 0x02, 0xf7],
        &[0xf8, 0xf0, 0x01, 0x02, 0xf7],
        0,
    ),
    (
        "a broken dump stays broken",
        TO_LINE_AND_BACK,
        &[0xf0, 0x01, 0x90, 0x3c, 0x64],
        &[0xf0, 0x01, 0x90, 0x3c, 0x64],
        0,
    ),
    (
        "a status runs on behind two cables",
        &["convert", "din", "usb:2", "usb:3", "din"],
        &[0x90, 0xf8, 0x3c, 0x64, 0x3c, 0x00],
        &[0xf8, 0x90, 0x3c, 0x64, 0x3c, 0x00],
        0,
    ),
    (
        "a cut packet is cut for the first spec alone",
        &["convert", "usb:0", "din", "usb:1"],
        &[0x09, 0x90, 0x3c, 0x64, 0x09],
        &[0x19, 0x90, 0x3c, 0x64],
        5,
    ),
    (
        "ten specs",
        TEN,
        &[
            0x90, 0x3c, 0x64, 0xf0, 0x01, 0x02, 0x03, 0x04, 0xf7, 0xf8, 0xc5, 0x0a, 0xf6, 0xf0,
            0x05, 0x90, 0x40, 0x40,
        ],
        &[
            0x90, 0x3c, 0x64, 0xf0, 0x01, 0x02, 0x03, 0x04, 0xf7, 0xf8, 0xc5, 0x0a, 0xf6, 0xf0,
            0x05, 0x90, 0x40, 0x40,
        ],
        0,
    ),
    ("ten specs of nothing", TEN, &[], &[], 0),
];

#[test]
fn chains_of_specs(rt: HostRuntime) {
    run_table(&rt, rt.alloc(), CHAINS);
}

/// Words, an input, its output, the status, and the lines on standard error.
type Tally = (
    &'static [&'static str],
    &'static [u8],
    &'static [u8],
    u8,
    &'static str,
);

const TALLIES: &[Tally] = &[
    (
        &["convert", "tally", "din", "usb:0", "din"],
        &[0xf0, 0x01, 0xf8, 0x02, 0xf7],
        &[0xf8, 0xf0, 0x01, 0x02, 0xf7],
        0,
        "0 din 5\n1 usb:0 12\n2 din 5\n",
    ),
    (
        &["convert", "tally", "usb:0", "din"],
        &[0x09, 0x90, 0x3c, 0x64, 0x09],
        &[0x90, 0x3c, 0x64],
        5,
        "0 usb:0 5\n1 din 3\ninput is cut\n",
    ),
    (
        &["convert", "tally", "din", "din"],
        &[],
        &[],
        0,
        "0 din 0\n1 din 0\n",
    ),
];

#[test]
fn a_tally_tells_how_many_bytes_crossed_each_spec(rt: HostRuntime) {
    for (words, input, output, status, text) in TALLIES {
        let row = Row {
            shows: text,
            words,
            input,
            output,
            status: *status,
            text,
        };
        run_in_pieces(&rt, rt.alloc(), &row);
    }
}

/// The status, the output and the text where a call fails: the first row where the first call does, and so on; where
/// the last row's would, none is made.
type Faulty = (u8, &'static [u8], &'static str);

/// Three bytes a read: a note, the start of a dump with a clock, and its end. The calls are read, write, and so on, and
/// the read that finds the end. Two bytes of the dump wait for their packet where the clock is written.
const BY_THREES: &[Faulty] = &[
    (3, &[], "read fault\n"),
    (4, &[], "write fault\n"),
    (3, &[0x90, 0x3c, 0x64], "read fault\n"),
    (4, &[0x90, 0x3c, 0x64], "write fault\n"),
    (3, &[0x90, 0x3c, 0x64, 0xf8], "read fault\n"),
    (4, &[0x90, 0x3c, 0x64, 0xf8], "write fault\n"),
    (
        3,
        &[0x90, 0x3c, 0x64, 0xf8, 0xf0, 0x01, 0x02, 0xf7],
        "read fault\n",
    ),
    (0, &[0x90, 0x3c, 0x64, 0xf8, 0xf0, 0x01, 0x02, 0xf7], ""),
];

/// The start of a dump that doesn't end: it is written at the end alone.
const AT_THE_END: &[Faulty] = &[
    (3, &[], "read fault\n"),
    (3, &[], "read fault\n"),
    (4, &[], "write fault\n"),
    (0, &[0xf0, 0x01], ""),
];

/// A note with a tally: the lines count as output.
const OF_A_TALLY: &[Faulty] = &[
    (3, &[], "read fault\n"),
    (4, &[], "write fault\n"),
    (3, &[0x90, 0x3c, 0x64], "read fault\n"),
    (4, &[0x90, 0x3c, 0x64], "write fault\n"),
    (4, &[0x90, 0x3c, 0x64], "0 din 3\nwrite fault\n"),
    (4, &[0x90, 0x3c, 0x64], "0 din 3\n1 usb:0 4\nwrite fault\n"),
    (0, &[0x90, 0x3c, 0x64], "0 din 3\n1 usb:0 4\n2 din 3\n"),
];

/// What is listed of two notes, a note a read.
const OF_A_TRACE: &[Faulty] = &[
    (3, &[], "read fault\n"),
    (4, &[], "write fault\n"),
    (3, b"0 short 90 3C 64\n", "read fault\n"),
    (4, b"0 short 90 3C 64\n", "write fault\n"),
    (3, b"0 short 90 3C 64\n0 short 90 40 64\n", "read fault\n"),
    (0, b"0 short 90 3C 64\n0 short 90 40 64\n", ""),
];

/// Words, an input that is read by threes, and what comes where each call fails.
type Sweep = (&'static [&'static str], &'static [u8], &'static [Faulty]);

const SWEEPS: &[Sweep] = &[
    (
        TO_LINE_AND_BACK,
        &[0x90, 0x3c, 0x64, 0xf0, 0x01, 0xf8, 0x02, 0xf7],
        BY_THREES,
    ),
    (TO_LINE_AND_BACK, &[0xf0, 0x01], AT_THE_END),
    (
        &["convert", "tally", "din", "usb:0", "din"],
        &[0x90, 0x3c, 0x64],
        OF_A_TALLY,
    ),
    (
        &["trace", "din"],
        &[0x90, 0x3c, 0x64, 0x90, 0x40, 0x64],
        OF_A_TRACE,
    ),
];

#[test]
fn one_call_fails_at_each_place(rt: HostRuntime) {
    for (words, input, faults) in SWEEPS {
        let mut fault = 0u64;
        for (status, output, text) in *faults {
            fault = fault.saturating_add(1);
            let row = Row {
                shows: text,
                words,
                input,
                output,
                status: *status,
                text,
            };
            let setting = Setting {
                piece: 3,
                fault: Some(fault),
                ..WHOLE
            };
            run(&rt, rt.alloc(), &row, setting);
        }
    }
}
