//! Tapes recorded as Standard MIDI Files.

ghost use Rattle.std.specs.Prelude.{ℕ, ◌≤◌, List, [], length, OnOk};
ghost use Rattle.mb_tapes.specs.Recording.{RecordingStands};

use crate::smf::HEADS;
use mb_carrier::Spec;
use mb_frames::TapeFault;
use mb_outside::{MemoryOut, Refused};
use mb_smf::SmfFull;
use mb_tapes::{Recording, RecordingStop};
use std::alloc::Global;

/// Feeds a tape in pieces of three bytes, up to a fault or a mark that the file can't have.
fn feed_all(recording: &mut Recording, tape: &[u8]) -> Result<Option<TapeFault>, SmfFull>
    requires fresh { RecordingStands recording.old [] }
    requires short { length tape.now ≤ 1024 }
    ensures stands { OnOk result ((bytes : List ℕ) × RecordingStands recording.new bytes) }
{
    let mut rest = tape;
    'pieces: while !rest.is_empty() {
        let (piece, others) = rest.split_at(rest.len().min(3));
        rest = others;
        if let Some(fault) = recording.feed(piece)? {
            return Ok(Some(fault));
        }
    }
    Ok(None)
}

/// The answer of a tape's end, the file in a room of so many bytes.
fn end(alloc: Global, tape: &[u8], room: usize) -> Option<Result<(), RecordingStop>>
    requires { length tape.now ≤ 1024 }
{
    let mut out = MemoryOut::new(alloc, room).ok()?;
    let mut recording = Recording::new(alloc, Spec::Din);
    match feed_all(&mut recording, tape) {
        Ok(None) => Some(recording.finish(&mut out)),
        Ok(Some(_)) => None,
        Err(_) => None,
    }
}

/// Whether a tape, which is cut or isn't, is recorded as a file of this length and track.
fn records(alloc: Global, tape: &[u8], is_cut: bool, track: &[u8]) -> bool
    requires { length tape.now ≤ 1024 }
{
    let Ok(mut out) = MemoryOut::new(alloc, 1024) else {
        return false;
    };
    let mut recording = Recording::new(alloc, Spec::Din);
    let Ok(None) = feed_all(&mut recording, tape) else {
        return false;
    };
    if recording.partial() != is_cut || recording.finish(&mut out).is_err() {
        return false;
    }
    let (heads, rest) = out.bytes().split_at(out.bytes().len().min(18));
    heads == HEADS && rest == track
}

/// Tapes of a byte line, whether they are cut, and the length and track that they are recorded as.
const RECORDED: &[(&[u8], bool, &[u8])] = &[
    (
        // a message and a clock, and a dump two milliseconds later
        b"MBT1\0\0\0\0\0\0\0\x05\0\x04\x90\x3c\x64\xf8\0\0\0\0\0\0\0\x07\0\x03\xf0\x01\xf7",
        false,
        b"\0\0\0\x18\0\xff\x51\x03\x0f\x42\x40\0\x90\x3c\x64\0\xf7\x01\xf8\x02\xf0\x02\x01\xf7\0\xff\x2f\0",
    ),
    (
        // the same without its last byte: the dump is broken off
        b"MBT1\0\0\0\0\0\0\0\x05\0\x04\x90\x3c\x64\xf8\0\0\0\0\0\0\0\x07\0\x03\xf0\x01",
        true,
        b"\0\0\0\x18\0\xff\x51\x03\x0f\x42\x40\0\x90\x3c\x64\0\xf7\x01\xf8\x02\xf7\x02\xf0\x01\0\xff\x2f\0",
    ),
    (
        // a dump that is open at the end has the moment of the last record, here one of another track
        b"MBT2\0\0\0\0\0\0\x13\x88\0\0\x03\xf8\xf0\x01\0\0\0\0\0\0\x1f\x40\x01\0\x01\xfa",
        false,
        b"\0\0\0\x14\0\xff\x51\x03\x0f\x42\x40\0\xf7\x01\xf8\x03\xf7\x02\xf0\x01\0\xff\x2f\0",
    ),
    (
        // nothing at all
        b"",
        true,
        b"\0\0\0\x0b\0\xff\x51\x03\x0f\x42\x40\0\xff\x2f\0",
    ),
];

#[test]
fn tapes_recorded_as_files(rt: HostRuntime) {
    for (tape, is_cut, track) in RECORDED {
        assert!(rt; tape.len() <= 1024);
        assert!(rt; records(rt.alloc(), tape, *is_cut, track));
    }
}

/// A clock, and another a millisecond later than a file can have it; the same where the later one is the end of a dump
/// that a record of another track makes known.
#[test]
fn gap_in_a_tape(rt: HostRuntime) {
    let gap = SmfFull::Gap {
        was: 0,
        now: 268_435_456_000,
    };
    let tape = b"MBT1\0\0\0\0\0\0\0\0\0\x01\xf8\0\0\0\0\x10\0\0\0\0\x01\xf8";
    let mut recording = Recording::new(rt.alloc(), Spec::Din);
    assert!(rt; feed_all(&mut recording, tape) == Err(gap));
    let open = b"MBT2\0\0\0\0\0\0\0\0\0\0\x02\xf8\xf0\0\0\0\x3e\x80\0\0\0\x01\0\x01\xf8";
    assert!(rt; end(rt.alloc(), open, 1024) == Some(Err(RecordingStop::Full(gap))));
}

/// A tape whose second record is earlier than its first, and a file that there is no room for.
#[test]
fn tape_that_is_not_recorded(rt: HostRuntime) {
    let tape = b"MBT1\0\0\0\0\0\0\0\x05\0\x01\xf8\0\0\0\0\0\0\0\x04\0\x01\xf8";
    let mut recording = Recording::new(rt.alloc(), Spec::Din);
    let back = TapeFault::Back { was: 5, now: 4 };
    assert!(rt; feed_all(&mut recording, tape) == Ok(Some(back)));
    assert!(rt; end(rt.alloc(), b"MBT1", 20) == Some(Err(RecordingStop::Refused(Refused))));
}
