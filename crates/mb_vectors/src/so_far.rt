//! What stands written while the recording goes on: all that is known of it, but for what cables and packets hold back.

use crate::row::{Row, Setting, WHOLE, run, said_at};

/// What the row shows, the words, the input, what is written of it before its end, and all that is written in the end;
/// and which call of the desk is the read that finds the end.
type SoFar = (
    &'static str,
    &'static [&'static str],
    &'static [u8],
    &'static [u8],
    &'static [u8],
    u64,
);

const ONE_CABLE: &[&str] = &["convert", "din", "usb:0"];

const TWO_CABLES: &[&str] = &["convert", "din", "usb:0", "usb:1"];

const ROWS: &[SoFar] = &[
    (
        "two bytes of a SysEx fill no packet yet",
        ONE_CABLE,
        &[0xf0, 1, 2, 3, 4],
        &[0x04, 0xf0, 1, 2],
        &[0x04, 0xf0, 1, 2, 0x0f, 3, 0, 0, 0x0f, 4, 0, 0],
        3,
    ),
    (
        "a real-time message passes what waits",
        ONE_CABLE,
        &[0xf0, 1, 0xf8],
        &[0x0f, 0xf8, 0, 0],
        &[0x0f, 0xf8, 0, 0, 0x0f, 0xf0, 0, 0, 0x0f, 1, 0, 0],
        3,
    ),
    (
        "a byte line holds nothing back",
        &["convert", "din", "usb:0", "din"],
        &[0xf0, 1, 2],
        &[0xf0, 1, 2],
        &[0xf0, 1, 2],
        3,
    ),
    (
        "two bytes wait at each cable, and one broken SysEx is missing whole",
        TWO_CABLES,
        &[0xf0, 1, 0xf0, 2],
        &[],
        &[
            0x1f, 0xf0, 0, 0, 0x1f, 1, 0, 0, 0x1f, 0xf0, 0, 0, 0x1f, 2, 0, 0,
        ],
        2,
    ),
    (
        "nothing is missing before a message",
        TWO_CABLES,
        &[0xf0, 1, 0x90, 0x3c, 0x64],
        &[0x1f, 0xf0, 0, 0, 0x1f, 1, 0, 0, 0x19, 0x90, 0x3c, 0x64],
        &[0x1f, 0xf0, 0, 0, 0x1f, 1, 0, 0, 0x19, 0x90, 0x3c, 0x64],
        3,
    ),
    (
        "a packet under way waits",
        &["convert", "din", "ble"],
        &[0x90, 0x3c, 0x64, 0x3c, 0x00],
        &[],
        &[0, 8, 0x80, 0x80, 0x90, 0x3c, 0x64, 0x80, 0x3c, 0],
        2,
    ),
    (
        "a packet is written where the next begins",
        &["convert", "din", "ble/5"],
        &[0xf0, 1, 2, 3],
        &[0, 5, 0x80, 0x80, 0xf0, 1, 2],
        &[0, 5, 0x80, 0x80, 0xf0, 1, 2, 0, 2, 0x80, 3],
        3,
    ),
    (
        "a packet waits between byte lines too",
        &["convert", "din", "ble", "din"],
        &[0x90, 0x3c, 0x64],
        &[],
        &[0x90, 0x3c, 0x64],
        2,
    ),
];

/// The same stands where the read that finds the end fails, and where as many bytes as the limit were read. What is
/// written in the end begins with it.
#[test]
fn what_is_known_is_written_before_the_end(rt: HostRuntime) {
    for (shows, words, input, so_far, whole, last_read) in ROWS {
        let row = Row {
            shows,
            words,
            input,
            output: whole,
            status: 0,
            text: "",
        };
        run(&rt, rt.alloc(), &row, WHOLE);
        let failed = Row {
            output: so_far,
            status: 3,
            text: said_at(3),
            ..row
        };
        let at_fault = Setting {
            fault: Some(*last_read),
            ..WHOLE
        };
        run(&rt, rt.alloc(), &failed, at_fault);
        let long = Row {
            status: 8,
            text: said_at(8),
            ..failed
        };
        let at_limit = Setting {
            limit: input.len() as u64,
            ..WHOLE
        };
        run(&rt, rt.alloc(), &long, at_limit);
    }
}
