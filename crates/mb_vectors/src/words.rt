//! Words of a command line, lines of a tally, and a listing, call by call.

use arrayvec::ArrayVec;
use mb_carrier::{Listing, Spec, hop_line};
use mb_outside::{Args, MemoryOut};
use mb_print::Line;
use mb_words::{Command, Words};
use std::alloc::Global;
use std::process::Abort;

/// What words are, as text: the command and its specs by number.
fn command_of(rt: &impl Abort, alloc: Global, words: &[&str]) -> ArrayVec<u8, 64> {
    let mut args = Args::new(alloc);
    for word in words {
        args.push(word).expect(rt, "memory");
    }
    let mut text = ArrayVec::new();
    let _ = text.try_extend_from_slice(match Words::read(&args) {
        Ok(Command::Convert { tally: true, .. }) => b"a tally",
        Ok(Command::Convert { tally: false, .. }) => b"no tally",
        Ok(Command::Trace(Spec::Din)) => b"trace",
        Ok(Command::Check(Spec::Usb(_))) => b"check",
        Ok(Command::Check(Spec::Fire(_))) => b"check of FireWire",
        Ok(Command::Check(Spec::Ble(20))) => b"check of BLE-MIDI",
        Ok(Command::Migrate) => b"migrate",
        Ok(Command::RecordTape(Spec::Din)) => b"record",
        Ok(Command::Play) => b"play",
        Ok(Command::Guard(Spec::Usb(_))) => b"guard",
        Ok(
            Command::Filter {
                file: "rules.txt",
                spec: Spec::Ble(512),
            },
        ) => b"filter",
        Ok(Command::Run("r.txt")) => b"run",
        Ok(
            Command::Selftest {
                start: 2147483647,
                count: 1000000,
            },
        ) => b"the longest self-test",
        Ok(Command::Selftest { .. }) => b"a self-test",
        Ok(_) => b"another",
        Err(_) => b"none",
    });
    text
}

const WORDS: &[(&[&str], &[u8])] = &[
    (&["convert", "din", "usb:3"], b"no tally"),
    (&["convert", "tally", "din", "din", "din"], b"a tally"),
    (&["trace", "din"], b"trace"),
    (&["check", "usb:15"], b"check"),
    (&["check", "fw:63"], b"check of FireWire"),
    (&["check", "fw:64"], b"none"),
    (&["check", "fw:00"], b"none"),
    (&["check", "ble"], b"check of BLE-MIDI"),
    (&["check", "ble/20"], b"check of BLE-MIDI"),
    (&["run", "r.txt"], b"run"),
    (&["run"], b"none"),
    (&["check", "ble/512"], b"another"),
    (&["check", "ble/513"], b"none"),
    (&["convert", "tally"], b"none"),
    (&["migrate"], b"migrate"),
    (&["migrate", "din"], b"none"),
    (&["record", "din"], b"record"),
    (&["record"], b"none"),
    (&["record", "din", "din"], b"none"),
    (&["play"], b"play"),
    (&["play", "din"], b"none"),
    (&["guard", "usb:3"], b"guard"),
    (&["guard", "usb:16"], b"none"),
    (&["filter", "rules.txt", "ble/512"], b"filter"),
    (&["filter", "another.txt", "ble/512"], b"another"),
    (&["filter", "din", "rules.txt"], b"none"),
    (&["filter", "din"], b"none"),
    (&["filter", "rules.txt", "din", "din"], b"none"),
    (&["selftest", "0", "0"], b"a self-test"),
    (
        &["selftest", "2147483647", "1000000"],
        b"the longest self-test",
    ),
    (&["selftest", "2147483648", "1"], b"none"),
    (&["selftest", "1", "1000001"], b"none"),
    (&["selftest", "01", "5"], b"none"),
    (&["selftest", "1", "-5"], b"none"),
    (&["selftest", "1"], b"none"),
    (&["selftest", "1", "2", "3"], b"none"),
];

#[test]
fn words_are_a_command_or_none(rt: HostRuntime) {
    for (words, text) in WORDS {
        assert!(rt;
            command_of(&rt, rt.alloc(), words).as_slice() == *text,
            "{words:?}"
        );
    }
}

const LINES: &[(u8, Spec, u64, &str)] = &[
    (0, Spec::Din, 0, "0 din 0\n"),
    (
        9,
        Spec::Usb(15),
        u64::MAX,
        "9 usb:15 18446744073709551615\n",
    ),
    (1, Spec::Fire(63), 42, "1 fw:63 42\n"),
    (2, Spec::Ble(512), 7, "2 ble/512 7\n"),
];

#[test]
fn lines_of_a_tally(rt: HostRuntime) {
    for (place, spec, count, text) in LINES {
        let mut line = Line::new();
        hop_line(*place, *spec, *count, &mut line);
        assert!(rt; line.as_slice() == text.as_bytes(), "{text}");
    }
}

#[test]
fn a_listing_prints_what_is_known(rt: HostRuntime) {
    let mut out = MemoryOut::new(rt.alloc(), 64).expect(&rt, "memory");
    let mut listing = Listing::new(Spec::Usb(0), false);
    assert!(rt;
        listing
            .feed(&[0x08, 0x90, 0x3c, 0x64, 0x09], &mut out)
            .is_ok()
    );
    assert!(rt; !listing.traced() && listing.noted() && listing.partial());
    assert!(rt; listing.finish(&mut out).is_ok());
    assert!(rt; out.bytes() == b"0 cin-mismatch\n".as_slice());
}
