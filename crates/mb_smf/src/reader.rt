//! The reader.

ghost use Rattle.std.specs.Prelude.{◌≡◌, ◌≢◌, ℕ, ◌+◌, ◌*◌, ◌<◌, ◌≤◌, ◌^◌, List, [], ◌∷◌, ◌++◌, length, min, take};
ghost use Rattle.std.specs.Prelude.{true, None, Ok, IfOk, IfSome, OnSome};
ghost use Rattle.mb_frames.specs.Gathered.{TimedByte};
ghost use Rattle.mb_smf.specs.Smf.{file_fault, given_at, is_ended, is_faulted};
ghost use Rattle.mb_smf.specs.SmfReading.{FaultAnswered, LentFrom, SmfStands, SmfTakes, fresh_smf, given_by};
ghost use Rattle.mb_smf.specs.SmfReading.{given_part};
ghost use Rattle.mb_smf.specs.SmfReading.{given_some, run_room, smf_owed};
ghost use Rattle.mb_smf.specs.TrackTime.{track_moment};

use crate::fault::SmfFault;
use crate::file_place::{FilePlace, is_faulted};
use crate::file_state::FileState;
use crate::given_bytes::GivenBytes;
use std::marker::Model;

/// What a file gives: a byte, or bytes of one event that stand side by side in the caller's piece, never none. The
/// moment is in microseconds.
#[derive(Clone, Copy, Debug, PartialEq, Eq)]
pub enum SmfPart<'a> {
    Byte { moment: u64, byte: u8 },
    Run { moment: u64, bytes: &'a [u8] },
}

/// Reads a Standard MIDI File of format 0.
#[derive(Debug, Drop)]
pub struct SmfReader {
    file: FileState,
    /// A byte that is still to be given: the data byte behind a status that was left out.
    owed: Option<u8>,
}

impl Model for SmfReader {
    ghost use Rattle.mb_smf.specs.SmfReading.{SmfState};

    ghost Value = { SmfState };

    ghost view = { λ r. record { file = r.file; owed = r.owed } };
}

impl SmfReader {
    /// Nothing was taken.
    pub fn new() -> SmfReader
        ensures state { result ≡ fresh_smf }
        ensures stands { SmfStands result [] [] }
    {
        SmfReader {
            file: FileState::new(),
            owed: None,
        }
    }

    /// What the file gives next, whose bytes it takes from the front of the input. `Ok(None)` comes where the input is
    /// used up and all that it gives was given. A fault is answered again by each later call, which takes nothing.
    pub fn next<'a>(&mut self, input: &mut &'a [u8]) -> Result<Option<SmfPart<'a>>, SmfFault>
        requires early { self.old.file.offset + length input.old.now < 2 ^ 63 }
        ensures takes { SmfTakes self.old self.new input.old.now input.new.now (given_by result) }
        // Whatever was taken and given before.
        ensures stands { (bytes : List ℕ) (given : List TimedByte) → SmfStands self.old bytes given →
            (taken : List ℕ) × (input.old.now ≡ taken ++ input.new.now) ×
            SmfStands self.new (bytes ++ taken) (given ++ given_by result) }
        ensures answers { FaultAnswered self.new result }
        ensures none { result ≡ Ok None → input.new.now ≡ [] }
        ensures kept { self.old.owed ≡ None → is_faulted self.old.file.place ≡ true → input.new.now ≡ input.old.now }
        ensures some { IfOk result (λ part. OnSome part (given_some part ≢ [])) }
        ensures lent { IfOk result (λ part. IfSome part (λ told. LentFrom input.old.now input.new.now told)) }
        ensures progress { IfOk result (λ part. OnSome part (2 * length input.new.now + smf_owed self.new.owed
            < 2 * length input.old.now + smf_owed self.old.owed)) }
        ensures end { self.new.file.offset + length input.new.now ≤ self.old.file.offset + length input.old.now }
    {
        if let Some(byte) = self.owed {
            self.owed = None;
            return Ok(Some(SmfPart::Byte {
                moment: self.file.clock.moment(),
                byte,
            }));
        }
        match self.advance(input) {
            Some(part) => Ok(Some(part)),
            None => match self.file.place {
                FilePlace::Faulted(why) => Err(SmfFault {
                    at: self.file.offset,
                    why,
                }),
                _ => Ok(None),
            },
        }
    }

    /// Whether the track's end was read.
    pub fn ended(&self) -> bool
        ensures { result ≡ is_ended self.now.file.place }
    {
        match self.file.place {
            FilePlace::Ended => true,
            _ => false,
        }
    }

    fn advance<'a>(&mut self, input: &mut &'a [u8]) -> Option<SmfPart<'a>>
        requires early { self.old.file.offset + length input.old.now < 2 ^ 63 }
        requires nothing { self.old.owed ≡ None }
        ensures takes { SmfTakes self.old self.new input.old.now input.new.now (given_some result) }
        ensures kept { is_faulted self.old.file.place ≡ true → input.new.now ≡ input.old.now }
        ensures none { result ≡ None → (self.new.owed ≡ None) × (file_fault self.new.file ≡ None → input.new.now ≡ []) }
        ensures some { OnSome result (given_some result ≢ []) }
        ensures lent { IfSome result (λ part. LentFrom input.old.now input.new.now part) }
        ensures progress { OnSome result (2 * length input.new.now + smf_owed self.new.owed
            < 2 * length input.old.now) }
        ensures end { self.new.file.offset + length input.new.now ≤ self.old.file.offset + length input.old.now }
    {
        'bytes: while let Some((byte, rest)) = input.split_first() {
            if is_faulted(self.file.place) {
                return None;
            }
            let room = self.file.run_room();
            if room > 0 {
                return Some(self.lend(room, input));
            }
            *input = rest;
            if let Some(part) = self.take(*byte) {
                return Some(part);
            }
        }
        None
    }

    /// Bytes of one event, from the front of the input: as many as stand there.
    #[inline(always)]
    fn lend<'a>(&mut self, room: u32, input: &mut &'a [u8]) -> SmfPart<'a>
        requires early { self.old.file.offset + length input.old.now < 2 ^ 63 }
        requires nothing { self.old.owed ≡ None }
        requires room { room ≡ run_room self.old.file }
        requires some { 0 < room }
        requires there { 0 < length input.old.now }
        ensures takes { SmfTakes self.old self.new input.old.now input.new.now (given_part result) }
        ensures some { given_part result ≢ [] }
        ensures lent { LentFrom input.old.now input.new.now result }
        ensures owed { self.new.owed ≡ None }
        ensures fewer { length input.new.now < length input.old.now }
        ensures end { self.new.file.offset + length input.new.now ≤ self.old.file.offset + length input.old.now }
        ensures longest { (n : ℕ) → n ≡ min room (length input.old.now) →
            given_part result ≡ given_at (track_moment self.old.file.clock) (take n input.old.now) }
    {
        let moment = self.file.clock.moment();
        let count = (room as usize).min(input.len());
        let (bytes, rest) = input.split_at(count);
        *input = rest;
        self.file.pass(count as u32);
        SmfPart::Run { moment, bytes }
    }

    /// What a byte gives.
    fn take(&mut self, byte: u8) -> Option<SmfPart<'static>>
        requires early { self.old.file.offset < 2 ^ 63 }
        requires nothing { self.old.owed ≡ None }
        ensures takes { (left : List ℕ) → SmfTakes self.old self.new (byte ∷ left) left (given_some result) }
        ensures none { result ≡ None → self.new.owed ≡ None }
        ensures some { OnSome result (given_some result ≢ []) }
        ensures lent { IfSome result (λ part. (input left : List ℕ) → LentFrom input left part) }
        ensures owed { smf_owed self.new.owed ≤ 1 }
        ensures end { self.new.file.offset ≤ self.old.file.offset + 1 }
    {
        match self.file.step(byte) {
            GivenBytes::Nothing => None,
            GivenBytes::One(given) => Some(SmfPart::Byte {
                moment: self.file.clock.moment(),
                byte: given,
            }),
            GivenBytes::Two(status, given) => {
                self.owed = Some(given);
                Some(SmfPart::Byte {
                    moment: self.file.clock.moment(),
                    byte: status,
                })
            }
        }
    }
}
