//! Reading one track of a tape from pieces.

ghost use Rattle.std.specs.Prelude.{◌≡◌, ℕ, ◌+◌, ◌*◌, ◌^◌, ◌<◌, ◌≤◌, ◌==◌, not, true, false, List, [], ◌++◌, length};
ghost use Rattle.std.specs.Prelude.{map, take, IfNone, OnSome, Ok, None};
ghost use Rattle.mb_stream.specs.Puts.{Put, puts_at};
ghost use Rattle.mb_stream.specs.Reading.{told_signs};
ghost use Rattle.mb_stream.specs.ReaderLaw.{answer};
ghost use Rattle.mb_frames.specs.Tapes.{RecordByte, tape_fault};
ghost use Rattle.mb_frames.specs.TapeReading.{TapeTakes, tape_owed, to_come};
ghost use Rattle.mb_carrier.specs.Port.{reader_owed};
ghost use Rattle.mb_carrier.specs.Step.{seen_of};
ghost use Rattle.mb_carrier.specs.Word.{IsSpec};
ghost use Rattle.mb_track.specs.Track.{track_end, track_marks_so_far, track_whole};
ghost use Rattle.mb_track.specs.TrackReading.{BeginsAt, IfNoStep, IfStep, IsSameTrack, MomentStays, OwnBehind};
ghost use Rattle.mb_track.specs.TrackReading.{TrackGoes, TrackQuiet, TrackRests, TrackStands, TrackTold, event_signs};
ghost use Rattle.mb_track.specs.TrackReading.{fault_told, step_signs, track_cut, track_moment, track_of, track_offset};
ghost use Rattle.mb_track.specs.TrackReading.{track_owed, track_own, track_spec};

use mb_carrier::{PortReader, PortStep, Spec};
use mb_frames::{Tape, TapeFault, TapePart};
use mb_message::Ev;

/// What is told of a tape.
#[derive(Clone, Copy, Debug, PartialEq, Eq)]
pub enum TrackStep<'a> {
    /// A record begins, of whatever track, at a moment in microseconds.
    Begin { moment: u64 },
    /// An event of the track's port.
    Heard(Ev<'a>),
    /// A record ends.
    End,
}

/// A reader of one track of a tape. It keeps what a tape's reader and a port's reader do, and never grows.
#[derive(Drop)]
pub struct TrackReader {
    tape: Tape,
    reader: PortReader,
    track: u8,
    /// Whether a record of the track is under way.
    own: bool,
    /// Of the last record whose header stands whole.
    moment: u64,
}

impl TrackReader {
    /// A reader of a spec's port on a track. Nothing was taken.
    pub fn new(spec: Spec, track: u8) -> TrackReader
        requires { IsSpec spec }
        ensures spec { track_spec result ≡ spec }
        ensures track { track_of result ≡ track }
        ensures moment { track_moment result ≡ 0 }
        ensures own { track_own result ≡ false }
        ensures offset { track_offset result ≡ 0 }
        ensures stands { (next : List ℕ) → TrackStands result [] next [] }
        ensures told { TrackTold result [] }
    {
        TrackReader {
            tape: Tape::new(),
            reader: PortReader::new(spec),
            track,
            own: false,
            moment: 0,
        }
    }

    /// What is told next of the bytes that were taken and of the input, which it takes from the front of the input:
    /// where records begin and end, and the events of the track's port; notes, and records of other tracks, are passed
    /// over. `None` comes exactly where the input is used up and all of it is told. A fault of the tape comes as
    /// `Tape::next` has it, behind all that was known before it.
    pub fn next<'a>(&mut self, input: &mut &'a [u8]) -> Result<Option<TrackStep<'a>>, TapeFault>
        requires early { track_offset self.old + length input.old.now ≤ 2 ^ 51 + 2 ^ 14 }
        ensures spec { track_spec self.new ≡ track_spec self.old }
        ensures track { track_of self.new ≡ track_of self.old }
        ensures end { track_offset self.new + length input.new.now ≤ track_offset self.old + length input.old.now }
        ensures begins { BeginsAt (track_moment self.new) result }
        ensures moment { MomentStays (track_moment self.old) (track_moment self.new) result }
        ensures rises { (taken : List ℕ) (told : List Put) → TrackStands self.old taken input.old.now told →
            track_moment self.old ≤ track_moment self.new }
        ensures own { OwnBehind (track_own self.old) (track_own self.new) result }

        // What it takes and tells, whatever was taken and told before.
        ensures goes { TrackGoes self.old self.new input.old.now input.new.now (step_signs result) }
        ensures over { IfNoStep result ((taken : List ℕ) (told : List Put) →
            TrackStands self.old taken input.old.now told →
            TrackTold self.new (taken ++ input.old.now)
            × (told ≡ track_marks_so_far (track_spec self.old) (track_of self.old) (taken ++ input.old.now))
            × (tape_fault (taken ++ input.old.now) ≡ fault_told result)) }
        ensures none { result ≡ Ok None → input.new.now ≡ [] }

        // An event has no more marks than the input handed in has bytes: who hands in one byte gets one mark at most.
        ensures few { length (step_signs result) ≤ length input.old.now }

        // A caller's loop ends by this.
        ensures progress { IfStep result (8 * length input.new.now + track_owed self.new <
            8 * length input.old.now + track_owed self.old) }
    {
        'steps: loop {
            if let Some(ev) = self.hear(input) {
                return Ok(Some(TrackStep::Heard(ev)));
            }
            match self.tape.next(input) {
                Ok(
                    Some(
                        TapePart::Begin {
                            moment,
                            track,
                            len: _,
                        },
                    ),
                ) => {
                    self.begin(moment, track);
                    return Ok(Some(TrackStep::Begin { moment }));
                }
                Ok(Some(TapePart::Bytes(_))) => {}
                Ok(Some(TapePart::End)) => {
                    self.own = false;
                    return Ok(Some(TrackStep::End));
                }
                Ok(None) => return Ok(None),
                Err(fault) => return Err(fault),
            }
        }
    }

    /// The next event that the bytes of a record of the track make known, if one is under way.
    fn hear<'a>(&mut self, input: &mut &'a [u8]) -> Option<Ev<'a>>
        requires early { track_offset self.old + length input.old.now ≤ 2 ^ 51 + 2 ^ 14 }
        ensures same { IsSameTrack self.old self.new }
        ensures end { track_offset self.new + length input.new.now ≤ track_offset self.old + length input.old.now }
        ensures goes { TrackGoes self.old self.new input.old.now input.new.now (event_signs result) }
        ensures quiet { IfNone result ((taken : List ℕ) (told : List Put) →
            TrackStands self.old taken input.old.now told → (bytes : List ℕ) × (input.old.now ≡ bytes ++ input.new.now)
            × TrackQuiet self.new (taken ++ bytes) input.new.now told) }
        ensures few { length (event_signs result) ≤ length input.old.now }
        ensures fewer { length input.new.now ≤ length input.old.now }
        ensures owed { tape_owed self.new.tape + length input.new.now ≤ tape_owed self.old.tape + length input.old.now }
        ensures progress { OnSome result ((self.old.own ≡ true) ×
            (2 * length input.new.now + reader_owed self.new.reader <
            2 * length input.old.now + reader_owed self.old.reader)) }
    {
        if !self.own {
            return None;
        }
        'notes: while let Some(step) = self.read(input) {
            if let PortStep::Ev { moment: _, ev } = step {
                return Some(ev);
            }
        }
        None
    }

    /// What the port's reader tells next of the record under way, which is of the track.
    fn read<'a>(&mut self, input: &mut &'a [u8]) -> Option<PortStep<'a>>
        requires own { self.old.own ≡ true }
        requires early { track_offset self.old + length input.old.now ≤ 2 ^ 51 + 2 ^ 14 }
        ensures same { IsSameTrack self.old self.new }
        ensures end { track_offset self.new + length input.new.now ≤ track_offset self.old + length input.old.now }
        ensures goes { TrackGoes self.old self.new input.old.now input.new.now (told_signs (answer (seen_of result))) }
        ensures quiet { IfNone result ((taken : List ℕ) (told : List Put) →
            TrackStands self.old taken input.old.now told → (bytes : List ℕ) × (input.old.now ≡ bytes ++ input.new.now)
            × TrackQuiet self.new (taken ++ bytes) input.new.now told) }
        ensures few { length (told_signs (answer (seen_of result))) ≤ length input.old.now }
        ensures fewer { length input.new.now ≤ length input.old.now }
        ensures owed { tape_owed self.new.tape + length input.new.now ≤ tape_owed self.old.tape + length input.old.now }
        ensures progress { OnSome result (2 * length input.new.now + reader_owed self.new.reader <
            2 * length input.old.now + reader_owed self.old.reader) }
    {
        let near = front_of(input, self.tape.to_come());
        let mut rest = near;
        let step = self.reader.next(&mut rest);
        self.take(near.len().saturating_sub(rest.len()), input);
        step
    }

    /// The tape takes so many bytes of the record under way off the input.
    fn take(&mut self, count: usize, input: &mut &[u8])
        requires near { count ≤ to_come self.old.tape }
        requires there { count ≤ length input.old.now }
        ensures rest { self.new ≡ (record self.old { tape = self.new.tape }) }
        ensures front { input.old.now ≡ take count input.old.now ++ input.new.now }
        ensures tape { TapeTakes self.old.tape self.new.tape (take count input.old.now) []
            (map RecordByte (take count input.old.now)) }
        ensures to_come { to_come self.new.tape + length (take count input.old.now) ≡ to_come self.old.tape }
        ensures owed { tape_owed self.new.tape ≤ tape_owed self.old.tape + count }
    {
        let (bytes, rest) = input.split_at(count);
        self.tape.pass(bytes);
        *input = rest;
    }

    /// A record begins.
    fn begin(&mut self, moment: u64, track: u8)
        ensures { self.new ≡ (record self.old { own = track == self.old.track; moment = moment }) }
    {
        self.own = track == self.track;
        self.moment = moment;
    }

    /// What only the end of the recording makes known: that an open SysEx is broken. It has the moment of the last
    /// record whose header stands whole. Then nothing is begun, running or open on the port; a second end tells
    /// nothing, and `partial` answers as before.
    pub fn finish(&mut self) -> Option<Ev<'static>>
        ensures spec { track_spec self.new ≡ track_spec self.old }
        ensures track { track_of self.new ≡ track_of self.old }
        ensures moment { track_moment self.new ≡ track_moment self.old }
        ensures cut { track_cut self.new ≡ track_cut self.old }
        ensures told { (bytes : List ℕ) → TrackTold self.old bytes →
            puts_at (track_moment self.old) (event_signs result) ≡
            track_end (track_spec self.old) (track_of self.old) bytes }
        ensures rests { TrackRests self.new }
        ensures once { OnSome result (TrackRests self.old → ⊥) }
    {
        match self.reader.finish() {
            Some(PortStep::Ev { moment: _, ev }) => Some(ev),
            Some(PortStep::Note(_)) => None,
            None => None,
        }
    }

    /// The moment of the last record whose header stands whole, in microseconds, and 0 before any.
    pub fn moment(&self) -> u64
        ensures { result ≡ track_moment self.now }
    {
        self.moment
    }

    /// Whether the bytes that were taken stop inside the tape's magic, a record or a packet.
    pub fn partial(&self) -> bool
        ensures state { result ≡ track_cut self.now }
        ensures law { (bytes : List ℕ) → TrackTold self.now bytes →
            result ≡ not (track_whole (track_spec self.now) (track_of self.now) bytes) }
    {
        self.tape.partial() || self.reader.partial()
    }
}

/// The first so many bytes, or all of fewer.
fn front_of<'a>(input: &&'a [u8], most: u16) -> &'a [u8]
    ensures { result.now ≡ take most input.now.now }
{
    &input[..input.len().min(usize::from(most))]
}
