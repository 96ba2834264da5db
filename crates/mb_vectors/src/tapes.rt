//! Tapes that are written once more in the second form.

use crate::row::{Row, Setting, WHOLE, run, run_in_pieces};

const MIGRATE: &[&str] = &["migrate"];

/// What the row shows, the tape, what is written, the status, and what must stand on standard error.
type Tape = (&'static str, &'static [u8], &'static [u8], u8, &'static str);

const TAPES: &[Tape] = &[
    (
        "milliseconds become microseconds",
        b"MBT1\0\0\0\0\0\0\0\x05\0\x01\xf8",
        b"MBT2\0\0\0\0\0\0\x13\x88\0\0\x01\xf8",
        0,
        "",
    ),
    (
        "a tape of the second form stays as it is",
        b"MBT2\0\0\0\0\0\0\x13\x88\0\0\x01\xf8",
        b"MBT2\0\0\0\0\0\0\x13\x88\0\0\x01\xf8",
        0,
        "",
    ),
    (
        "the first and the last track, at one moment",
        b"MBT2\0\0\0\0\0\0\x05\xdc\xff\0\x01\xf8\0\0\0\0\0\0\x05\xdc\0\0\x02\x90\x3c",
        b"MBT2\0\0\0\0\0\0\x05\xdc\xff\0\x01\xf8\0\0\0\0\0\0\x05\xdc\0\0\x02\x90\x3c",
        0,
        "",
    ),
    ("a magic alone", b"MBT1", b"MBT2", 0, ""),
    ("no bytes", b"", b"", 5, "input is cut\n"),
    ("a magic that is cut", b"MBT", b"", 5, "input is cut\n"),
    (
        "a header that is cut",
        b"MBT1\0",
        b"MBT2",
        5,
        "input is cut\n",
    ),
    (
        "a record that is cut",
        b"MBT1\0\0\0\0\0\0\0\x01\x01\0\x90",
        b"MBT2\0\0\0\0\0\0\x03\xe8\0\x01\0\x90",
        5,
        "input is cut\n",
    ),
    (
        "a byte that is of no magic",
        b"MBU1\0",
        b"",
        7,
        "tape -: magic\n",
    ),
    (
        "a form that there isn't",
        b"MBT3",
        b"",
        7,
        "tape -: magic\n",
    ),
    (
        "a moment below that before, and what follows it",
        b"MBT1\0\0\0\0\0\0\0\x05\0\x01\xf8\0\0\0\0\0\0\0\x03\0\x01\xf8",
        b"MBT2\0\0\0\0\0\0\x13\x88\0\0\x01\xf8",
        7,
        "tape -: back 5 3\n",
    ),
    (
        "moments fall whatever the track",
        b"MBT2\0\0\0\0\0\0\0\x05\0\0\x01\xf8\0\0\0\0\0\0\0\x03\x01\0\x01\xf8",
        b"MBT2\0\0\0\0\0\0\0\x05\0\0\x01\xf8",
        7,
        "tape -: back 5 3\n",
    ),
    (
        "the greatest moment in milliseconds",
        b"MBT1\0\x41\x89\x37\x4b\xc6\xa7\xef\0\x01\xf8",
        b"MBT2\xff\xff\xff\xff\xff\xff\xfd\x98\0\0\x01\xf8",
        0,
        "",
    ),
    (
        "one more",
        b"MBT1\0\x41\x89\x37\x4b\xc6\xa7\xf0\0\x01\xf8",
        b"MBT2",
        7,
        "tape -: far 18446744073709552\n",
    ),
    (
        "the greatest number of eight bytes, and no length",
        b"MBT1\xff\xff\xff\xff\xff\xff\xff\xff\0\0",
        b"MBT2",
        7,
        "tape -: far 18446744073709551615\n",
    ),
    (
        "that is no fault in microseconds",
        b"MBT2\xff\xff\xff\xff\xff\xff\xff\xff\0\0\x01\xf8",
        b"MBT2\xff\xff\xff\xff\xff\xff\xff\xff\0\0\x01\xf8",
        0,
        "",
    ),
    (
        "a record without bytes",
        b"MBT1\0\0\0\0\0\0\0\0\0\0",
        b"MBT2",
        7,
        "tape -: zero\n",
    ),
];

#[test]
fn tapes_in_the_second_form(rt: HostRuntime) {
    for (shows, input, output, status, text) in TAPES {
        let row = Row {
            shows,
            words: MIGRATE,
            input,
            output,
            status: *status,
            text,
        };
        run_in_pieces(&rt, rt.alloc(), &row);
    }
}

/// A call that fails or a limit at seven bytes a read: the call, the room, the limit, the status, and what is written.
type Stopped = (
    &'static str,
    u64,
    usize,
    u64,
    u8,
    &'static [u8],
    &'static str,
);

const ROOM: usize = WHOLE.room;

const LONG: u64 = 1000;

/// A tape of a record of one byte: 15 bytes in three reads, each of which gives something, and the end.
const STOPPED: &[Stopped] = &[
    ("the first read", 1, ROOM, LONG, 3, b"", "read fault\n"),
    ("the first write", 2, ROOM, LONG, 4, b"", "write fault\n"),
    ("the second read", 3, ROOM, LONG, 3, b"MBT2", "read fault\n"),
    (
        "the second write",
        4,
        ROOM,
        LONG,
        4,
        b"MBT2",
        "write fault\n",
    ),
    (
        "the third read",
        5,
        ROOM,
        LONG,
        3,
        b"MBT2\0\0\0\0\0\0\x13\x88\0\0\x01",
        "read fault\n",
    ),
    (
        "the read of the end",
        7,
        ROOM,
        LONG,
        3,
        b"MBT2\0\0\0\0\0\0\x13\x88\0\0\x01\xf8",
        "read fault\n",
    ),
    ("no room", 9, 0, LONG, 4, b"", ""),
    ("a limit", 9, ROOM, 4, 8, b"MBT2", "input is too long\n"),
];

#[test]
fn what_stops_a_tape_leaves_what_was_known(rt: HostRuntime) {
    for (shows, fault, room, limit, status, output, text) in STOPPED {
        let row = Row {
            shows,
            words: MIGRATE,
            input: b"MBT1\0\0\0\0\0\0\0\x05\0\x01\xf8",
            output,
            status: *status,
            text,
        };
        let setting = Setting {
            piece: 7,
            room: *room,
            fault: Some(*fault),
            limit: *limit,
        };
        run(&rt, rt.alloc(), &row, setting);
    }
}
