//! Reading a tape from pieces.

ghost use Rattle.std.specs.Prelude.{◌≡◌, ◌≢◌, ℕ, ◌+◌, ◌*◌, ◌<◌, ◌≤◌, not, List, [], ◌∷◌, ◌++◌, length, false};
ghost use Rattle.std.specs.Prelude.{IfOk, OnErr, Err, map};
ghost use Rattle.mb_frames.specs.Tapes.{RecordByte, RecordPart, is_whole, tape_whole};
ghost use Rattle.mb_frames.specs.TapeSteps.{begin_by, tape_behind, behind_head, magic_step, ending_at, fresh, parts_at};
ghost use Rattle.mb_frames.specs.TapeSteps.{magic_taken, parts_from};
ghost use Rattle.mb_frames.specs.TapeReading.{BeginsOnly, InHead, FaultAt, FaultStands, IsOver, TapeLongest};
ghost use Rattle.mb_frames.specs.TapeReading.{TapeStands};
ghost use Rattle.mb_frames.specs.TapeReading.{IfTold, TapeTakes, tape_owed, tape_told, to_come};
ghost use Rattle.mb_frames.specs.declared.tape.TapeFault.{TapeFault};
ghost use Rattle.mb_frames.specs.declared.tape.Place.TheVariants as place;

use crate::front::{take_byte, take_front};
use crate::read_header::{Header, fits_magic, header_fault, header_of, header_size, microseconds};
use arrayvec::ArrayVec;
use std::marker::Model;

/// A part of a tape.
#[derive(Clone, Copy, Debug, PartialEq, Eq)]
pub enum TapePart<'a> {
    /// A record begins: its moment in microseconds, its track, and how many bytes it has.
    Begin { moment: u64, track: u8, len: u16 },
    /// Bytes of it, never none: a part of the caller's piece.
    Bytes(&'a [u8]),
    /// It ends.
    End,
}

/// What is wrong with a tape. Moments are as they stand on it.
#[derive(Clone, Copy, Debug, PartialEq, Eq)]
pub enum TapeFault {
    /// It begins with no magic.
    Magic,
    /// A record's moment is below that of the record before.
    Back { was: u64, now: u64 },
    /// A moment in milliseconds is too great.
    Far { now: u64 },
    /// A record has no bytes.
    Zero,
}

/// Where the reader stands.
#[derive(Clone, Copy, Debug, PartialEq, Eq)]
enum Place {
    /// In the magic.
    Magic,
    /// Between records, or in a header.
    Header,
    /// So many bytes of a record are to come. At 0 its end is to be told.
    Within(u16),
    /// Behind a fault.
    Broken(TapeFault),
}

/// A reader of tapes.
#[derive(Debug, Drop)]
pub struct Tape {
    place: Place,
    /// The bytes of the magic, or of the header under way.
    head: ArrayVec<u8, 11>,
    second: bool,
    last: u64,
    track: u8,
}

impl Model for Tape {
    ghost use Rattle.std.specs.Prelude.{length};
    ghost use Rattle.mb_frames.specs.TapeSteps.{TapeState};
    ghost use Rattle.mb_frames.specs.TapeReading.{HeadFits};

    ghost Value = { TapeState };

    ghost view = { λ t. record {
      place = t.place;
      head = t.head.items;
      second = t.second;
      last = t.last;
      track = t.track;
    } };

    ghost invariant = { λ t. HeadFits t.place t.second (length t.head.items) };
}

impl Tape {
    /// Nothing was taken.
    pub fn new() -> Tape
        ensures fresh { result ≡ fresh }
        ensures stands { TapeStands result [] [] }
    {
        Tape {
            place: Place::Magic,
            head: ArrayVec::new(),
            second: false,
            last: 0,
            track: 0,
        }
    }

    /// The next part, whose bytes it takes from the front of the input. `Begin` comes once a header was taken, `End`
    /// after the last byte of a record; `None` exactly where the input is used up and all parts of it are told. A fault
    /// comes at the first byte that differs from both magics, or at the last byte of a header; every later call answers
    /// the same one, and takes nothing.
    pub fn next<'a>(&mut self, input: &mut &'a [u8]) -> Result<Option<TapePart<'a>>, TapeFault>
        ensures step { TapeTakes self.old self.new input.old.now input.new.now (tape_told result) }

        // Whatever was taken and told before.
        ensures stands { (bytes : List ℕ) (so_far : List RecordPart) → TapeStands self.old bytes so_far →
            (taken : List ℕ) × (input.old.now ≡ taken ++ input.new.now)
            × TapeStands self.new (bytes ++ taken) (so_far ++ tape_told result) }
        ensures fault { FaultStands self.new.place result }
        ensures at_fault { OnErr result (((f : TapeFault) → self.old.place ≢ place.Broken f) →
            FaultAt self.old input.old.now input.new.now) }
        ensures sticky { (f : TapeFault) → self.old.place ≡ place.Broken f →
            (result ≡ Err f) × (self.new ≡ self.old) × (input.new.now ≡ input.old.now) }
        ensures none { IsOver result ((input.new.now ≡ []) × (parts_from self.new [] ≡ [])) }
        ensures longest { IfOk result (TapeLongest self.old input.old.now) }
        ensures some { IfTold result (tape_told result ≢ []) }

        // A caller's loop ends by this.
        ensures progress { IfTold result (2 * length input.new.now + tape_owed self.new <
            2 * length input.old.now + tape_owed self.old) }
    {
        match self.place {
            Place::Within(0) => {
                self.place = Place::Header;
                Ok(Some(TapePart::End))
            }
            Place::Within(left) => match take_front(left, input) {
                Some(bytes) => {
                    self.place = Place::Within(left - bytes.len() as u16);
                    Ok(Some(TapePart::Bytes(bytes)))
                }
                None => Ok(None),
            },
            Place::Broken(fault) => Err(fault),
            Place::Magic | Place::Header => self.take_head(input),
        }
    }

    /// Takes bytes of the magic or of a header until it is whole.
    fn take_head<'a>(&mut self, input: &mut &'a [u8]) -> Result<Option<TapePart<'a>>, TapeFault>
        requires { InHead self.old }
        ensures step { TapeTakes self.old self.new input.old.now input.new.now (tape_told result) }
        ensures fault { FaultStands self.new.place result }
        ensures at_fault { OnErr result (FaultAt self.old input.old.now input.new.now) }
        ensures none { IsOver result ((input.new.now ≡ []) × InHead self.new) }
        ensures some { IfTold result (tape_told result ≢ []) }
        ensures begins { IfOk result (TapeLongest self.old input.old.now) }
        ensures progress { IfTold result (2 * length input.new.now + tape_owed self.new <
            2 * length input.old.now + tape_owed self.old) }
    {
        'bytes: while let Some(byte) = take_byte(input) {
            match self.take(byte) {
                Ok(None) => {}
                Ok(Some(part)) => return Ok(Some(part)),
                Err(fault) => return Err(fault),
            }
        }
        Ok(None)
    }

    /// Takes a byte of the magic or of a header.
    fn take<'a>(&mut self, byte: u8) -> Result<Option<TapePart<'a>>, TapeFault>
        requires { InHead self.old }
        ensures state { self.new ≡ tape_behind self.old byte }
        ensures told { tape_told result ≡ parts_at self.old byte }
        ensures fault { FaultStands self.new.place result }
        ensures none { IsOver result (InHead self.new) }
        ensures begins { BeginsOnly result }
    {
        match self.place {
            Place::Magic => self.take_magic(byte),
            Place::Header | Place::Within(_) | Place::Broken(_) => self.take_header(byte),
        }
    }

    /// Takes a byte of the magic.
    fn take_magic<'a>(&mut self, byte: u8) -> Result<Option<TapePart<'a>>, TapeFault>
        requires { self.old.place ≡ place.Magic }
        ensures state { self.new ≡ magic_step self.old byte }
        ensures told { tape_told result ≡ [] }
        ensures fault { FaultStands self.new.place result }
        ensures none { IsOver result (InHead self.new) }
        ensures begins { BeginsOnly result }
    {
        let at = self.head.len();
        if !fits_magic(at, byte) {
            self.place = Place::Broken(TapeFault::Magic);
            return Err(TapeFault::Magic);
        }
        if at == 3 {
            self.place = Place::Header;
            self.head.clear();
            self.second = byte == 0x32;
        } else {
            self.head.push(byte);
        }
        Ok(None)
    }

    /// Takes a byte of a header.
    fn take_header<'a>(&mut self, byte: u8) -> Result<Option<TapePart<'a>>, TapeFault>
        requires { self.old.place ≡ place.Header }
        ensures state { self.new ≡ behind_head self.old (self.old.head ++ byte ∷ []) }
        ensures told { tape_told result ≡ begin_by self.new.place self.new }
        ensures fault { FaultStands self.new.place result }
        ensures none { IsOver result (InHead self.new) }
        ensures begins { BeginsOnly result }
    {
        self.head.push(byte);
        if self.head.len() != header_size(self.second) {
            return Ok(None);
        }
        let header = header_of(self.second, self.head.as_slice());
        self.head.clear();
        match header_fault(self.second, self.last, header) {
            Some(fault) => {
                self.place = Place::Broken(fault);
                Err(fault)
            }
            None => {
                self.place = Place::Within(header.len);
                self.last = header.moment;
                self.track = header.track;
                Ok(Some(TapePart::Begin {
                    moment: microseconds(self.second, header.moment),
                    track: header.track,
                    len: header.len,
                }))
            }
        }
    }

    /// Whether the magic was taken whole.
    pub fn has_magic(&self) -> bool
        ensures { result ≡ magic_taken self.now.place }
    {
        match self.place {
            Place::Magic | Place::Broken(TapeFault::Magic) => false,
            Place::Header | Place::Within(_) | Place::Broken(_) => true,
        }
    }

    /// Takes bytes of the record under way whose caller reads them by itself, no more than are to come of it. Their end
    /// is told by `next`.
    pub fn pass(&mut self, bytes: &[u8])
        requires few { length bytes.now ≤ to_come self.old }
        ensures step { TapeTakes self.old self.new bytes.now [] (map RecordByte bytes.now) }
        ensures stands { (before : List ℕ) (so_far : List RecordPart) → TapeStands self.old before so_far →
            TapeStands self.new (before ++ bytes.now) (so_far ++ map RecordByte bytes.now) }
        ensures to_come { to_come self.new + length bytes.now ≡ to_come self.old }
        ensures owed { tape_owed self.new ≤ tape_owed self.old + length bytes.now }
    {
        if let Place::Within(left) = self.place {
            self.place = Place::Within(left - bytes.len() as u16);
        }
    }

    /// How many bytes of the record under way are to come; 0 outside of a record.
    pub fn to_come(&self) -> u16
        ensures { result ≡ to_come self.now }
    {
        match self.place {
            Place::Within(left) => left,
            Place::Magic | Place::Header | Place::Broken(_) => 0,
        }
    }

    /// Whether the bytes taken are no whole tape.
    pub fn partial(&self) -> bool
        ensures state { result ≡ not (is_whole (ending_at self.now)) }
        ensures whole { (bytes : List ℕ) (so_far : List RecordPart) → TapeStands self.now bytes so_far →
            result ≡ not (tape_whole bytes) }
    {
        match self.place {
            Place::Magic | Place::Broken(_) => true,
            Place::Header => !self.head.is_empty(),
            Place::Within(left) => left != 0,
        }
    }
}
