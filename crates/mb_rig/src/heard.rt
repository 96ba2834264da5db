//! What a link hears of its tape, byte by byte.

ghost use Rattle.std.specs.Prelude.{◌≡◌, ℕ, ◌+◌, ◌*◌, ◌<◌, ◌≤◌, ◌^◌, List, [], ◌++◌, length, Ok, Some, None};
ghost use Rattle.std.specs.Prelude.{IfOk, OnSome};
ghost use Rattle.mb_stream.specs.Puts.{Put};
ghost use Rattle.mb_frames.specs.Tapes.{tape_fault};
ghost use Rattle.mb_message.specs.Signs.{signs_of_event};
ghost use Rattle.mb_track.specs.Track.{track_marks_so_far};
ghost use Rattle.mb_track.specs.TrackReading.{MomentStays, TrackGoes, TrackStands, TrackTold, signs_told};
ghost use Rattle.mb_track.specs.TrackReading.{track_moment, track_of, track_offset, track_owed, track_spec};
ghost use Rattle.mb_rig.specs.Heard.{BeganAs, HeardAt, IfNothing, MomentKept, byte_in, heard_fault, heard_signs};
ghost use Rattle.mb_rig.specs.Heard.{mark_signs, signs_heard};

use mb_frames::TapeFault;
use mb_message::{Ev, Mark};
use mb_track::{TrackReader, TrackStep};

/// What is heard of a tape.
#[derive(Clone, Copy, Debug, PartialEq, Eq)]
pub(crate) enum Heard {
    /// A record begins, of whatever track, at a moment in microseconds.
    Record { moment: u64 },
    /// A mark of the track's port.
    Mark(Mark),
}

/// What is heard next of a byte or of none, which it takes. `None` comes exactly where all of it is heard.
pub(crate) fn hear(reader: &mut TrackReader, input: &mut &[u8]) -> Result<Option<Heard>, TapeFault>
    requires one { length input.old.now ≤ 1 }
    requires early { track_offset reader.old ≤ 2 ^ 50 }
    requires stands { (taken : List ℕ) × (told : List Put) × TrackStands reader.old taken input.old.now told }
    ensures spec { track_spec reader.new ≡ track_spec reader.old }
    ensures track { track_of reader.new ≡ track_of reader.old }
    ensures end { track_offset reader.new + length input.new.now ≤ track_offset reader.old + length input.old.now }
    ensures begins { IfOk result (λ heard. HeardAt (track_moment reader.new) heard) }
    ensures moment { IfOk result (λ heard. MomentKept (track_moment reader.old) (track_moment reader.new) heard) }
    ensures rises { (taken : List ℕ) (told : List Put) → TrackStands reader.old taken input.old.now told →
        track_moment reader.old ≤ track_moment reader.new }
    ensures goes { TrackGoes reader.old reader.new input.old.now input.new.now (heard_signs result) }
    ensures over { IfNothing result ((taken : List ℕ) (told : List Put) →
        TrackStands reader.old taken input.old.now told →
        TrackTold reader.new (taken ++ input.old.now)
        × (told ≡ track_marks_so_far (track_spec reader.old) (track_of reader.old) (taken ++ input.old.now))
        × (tape_fault (taken ++ input.old.now) ≡ heard_fault result)) }
    ensures none { result ≡ Ok None → input.new.now ≡ [] }
    ensures fewer { length input.new.now ≤ length input.old.now }
    ensures progress { IfOk result (λ heard. OnSome heard (8 * length input.new.now + track_owed reader.new <
        8 * length input.old.now + track_owed reader.old)) }
{
    'steps: loop {
        match reader.next(input) {
            Ok(Some(step)) => {
                if let Some(heard) = heard_of(step) {
                    return Ok(Some(heard));
                }
            }
            Ok(None) => return Ok(None),
            Err(fault) => return Err(fault),
        }
    }
}

/// What a step is to a link: an end of a record is nothing.
fn heard_of(step: TrackStep<'_>) -> Option<Heard>
    requires { length (signs_told (Some step)) ≤ 1 }
    ensures signs { signs_heard result ≡ signs_told (Some step.entry) }
    ensures began { BeganAs step.entry result }
    ensures moment { (was now : ℕ) → MomentStays was now (Ok (Some step.entry)) → MomentKept was now result }
{
    match step {
        TrackStep::Begin { moment } => Some(Heard::Record { moment }),
        TrackStep::Heard(ev) => match mark_of(ev) {
            Some(mark) => Some(Heard::Mark(mark)),
            None => None,
        },
        TrackStep::End => None,
    }
}

/// The mark that an event of one mark at most is.
pub(crate) fn mark_of(ev: Ev<'_>) -> Option<Mark>
    requires { length (signs_of_event ev) ≤ 1 }
    ensures { mark_signs result ≡ signs_of_event ev.entry }
{
    match ev {
        Ev::Short(short) => Some(Mark::Short(short)),
        Ev::Rt(message) => Some(Mark::Rt(message)),
        Ev::Open => Some(Mark::Open),
        Ev::Run(bytes) => match first_of(bytes) {
            Some(byte) => Some(Mark::Byte(byte)),
            None => None,
        },
        Ev::End => Some(Mark::End),
        Ev::Abort => Some(Mark::Abort),
    }
}

/// The byte of a run of one byte at most.
fn first_of(bytes: &[u8]) -> Option<u8>
    requires { length bytes.now ≤ 1 }
    ensures { byte_in result ≡ bytes.now }
{
    if bytes.is_empty() {
        None
    } else {
        Some(bytes[0])
    }
}
