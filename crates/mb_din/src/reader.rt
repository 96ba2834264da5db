//! The reader of the byte line.

ghost use Rattle.std.specs.Prelude.{◌≡◌, ◌↔◌, ◌+◌, ◌*◌, ◌<◌, ◌≤◌, ◌^◌, ◌&&◌, true, false, Some, [], ◌∷◌, ◌++◌, ℕ, List};
ghost use Rattle.std.specs.Prelude.{length, OnSome, IsSome, IfSome, IfNone};
ghost use Rattle.mb_message.specs.Bytes.{is_channel, is_data, is_realtime, data_length};
ghost use Rattle.mb_stream.specs.Payload.{Entry, Silent, heard_from};
ghost use Rattle.mb_stream.specs.Groups.{last_of, is_sysex};
ghost use Rattle.mb_stream.specs.Told.{Known, at_end, may_run};
ghost use Rattle.mb_stream.specs.Reading.{so_far, told_signs};
ghost use Rattle.mb_stream.specs.ReaderLaw.{has_short, begins_run, answer, told_by, IsLongest, breaks, StatusNext};
ghost use Rattle.mb_stream.specs.Working.{RisesFrom};
ghost use Rattle.mb_din.specs.State.{owed, open_now, free_now, may_run_now, fresh, is_sound, Rests};
ghost use Rattle.mb_din.specs.Turn.{one, run, turn};
ghost use Rattle.mb_din.specs.Reader.{Stands, NextSays, DinAllTold, IsFrontTaken, TakesWhole, RunNext, is_all_data};
ghost use Rattle.mb_message.specs.Front.{IsFront};

use crate::progress::{
    Progress, at_end, before_status, is_free, is_open, is_running, message, note, realtime, short,
    take_data, take_run, take_status,
};
use mb_message::{Ev, NoteKind, Seen};
use std::marker::Model;

/// Reads a byte line that comes in pieces.
#[derive(Drop)]
pub struct DinReader {
    offset: u64,
    progress: Progress,
}

impl Model for DinReader {
    ghost use Rattle.std.specs.Prelude.{◌≡◌, true};
    ghost use Rattle.mb_din.specs.State.{State, is_sound};

    ghost Value = { State };

    ghost view = { λ r. record { offset = r.offset; progress = r.progress } };

    ghost invariant = { λ r. is_sound r.progress ≡ true };
}

impl DinReader {
    /// The next byte has offset 0.
    pub fn new() -> DinReader
        ensures state { result ≡ fresh }
        ensures stands { Stands result [] [] }
    {
        DinReader {
            offset: 0,
            progress: Progress::Idle,
        }
    }

    /// The next byte has this offset.
    pub fn place(&mut self, offset: u64)
        requires { self.old.offset ≤ offset }
        ensures offset { self.new.offset ≡ offset }
        ensures same { self.new ≡ record self.old { offset = offset } }
        ensures stands { (entries : List Entry) → Stands self.old entries (so_far entries) →
            Stands self.new entries (so_far entries) }
    {
        self.offset = offset;
    }

    /// The next mark or note of the bytes that were taken and of the input, which it takes from the front of the input.
    /// What a byte makes known of earlier ones is told while it still stands in the input, and before anything of it is
    /// kept. `None` comes where the input is used up and all of it is told. A run is lent from the input, and is never
    /// empty.
    #[inline(always)]
    pub fn next<'a>(&mut self, input: &mut &'a [u8]) -> Option<Seen<'a>>
        requires early { self.old.offset + length input.old.now < 2 ^ 63 }

        // What it takes and answers, whatever was taken and told before, and whatever follows the input in the payload.
        ensures stands { NextSays self.old self.new input.old.now input.new.now (answer result) }
        ensures front { IsFrontTaken self.old self.new input.old.now input.new.now }
        ensures end { self.new.offset + length input.new.now ≡ self.old.offset + length input.old.now }
        ensures some { OnSome result (answer result ≡ [] → ⊥) }
        ensures none { IfNone result (input.new.now ≡ []) }
        ensures all_told { IfNone result (DinAllTold self.old input.old.now) }
        ensures longest { IfSome result (IsLongest input.new.now) }

        // What a status breaks is told of before the status is taken: it still stands in the input, and nothing is
        // begun, running or open.
        ensures before { breaks (answer result) ≡ true → StatusNext input.new.now × Rests self.new }

        // Behind a short message nothing is begun and no SysEx is open: a status may run from here on without a byte of
        // its own.
        ensures free { has_short (answer result) ≡ true → free_now self.new ≡ true }

        // A run is told only where a SysEx was open and the run begins the input.
        ensures runs { begins_run (answer result) ≡ true → RunNext self.old input.old.now }

        // No more marks than the input has bytes: where one byte is handed in, one mark at most comes back.
        ensures few { length (told_signs (answer result)) ≤ length input.old.now }

        // A caller's loop ends by this.
        ensures progress { OnSome result (2 * length input.new.now + owed self.new <
            2 * length input.old.now + owed self.old) }
    {
        self.advance(input)
    }

    /// The message of a channel status and its one data byte, of which the status has this offset: what `next` tells of
    /// both. `None`, and nothing is taken, where a message is begun or a SysEx open, or the second is no data byte.
    #[inline(always)]
    pub fn read_two(&mut self, at: u64, status: u8, data1: u8) -> Option<Seen<'static>>
        requires place { self.old.offset ≤ at }
        requires early { at + 2 < 2 ^ 63 }
        requires status { is_channel status ≡ true }
        requires counts { data_length status ≡ Some 1 }
        ensures whole { OnSome result (TakesWhole self.old self.new at (status ∷ data1 ∷ []) (answer result)) }
        ensures when { IsSome result ↔ ((free_now self.old && is_data data1) ≡ true) }
        ensures some { OnSome result (answer result ≡ [] → ⊥) }
        ensures unbroken { breaks (answer result) ≡ false }
        ensures unless { IfNone result (self.new ≡ self.old) }
    {
        if !is_free(self.progress) || data1 >= 0x80 {
            return None;
        }
        self.offset = at + 2;
        self.progress = Progress::Running(status);
        Some(short(status, data1, 0))
    }

    /// The message of a channel status and its two data bytes, of which the status has this offset: what `next` tells
    /// of them. `None`, and nothing is taken, where a message is begun or a SysEx open, or one of the two is no data
    /// byte.
    #[inline(always)]
    pub fn read_three(&mut self, at: u64, status: u8, data1: u8, data2: u8) -> Option<Seen<'static>>
        requires place { self.old.offset ≤ at }
        requires early { at + 3 < 2 ^ 63 }
        requires status { is_channel status ≡ true }
        requires counts { data_length status ≡ Some 2 }
        ensures whole { OnSome result (TakesWhole self.old self.new at (status ∷ data1 ∷ data2 ∷ []) (answer result)) }
        ensures when { IsSome result ↔ ((free_now self.old && is_data data1 && is_data data2) ≡ true) }
        ensures some { OnSome result (answer result ≡ [] → ⊥) }
        ensures unbroken { breaks (answer result) ≡ false }
        ensures unless { IfNone result (self.new ≡ self.old) }
    {
        if !is_free(self.progress) || data1 >= 0x80 || data2 >= 0x80 {
            return None;
        }
        self.offset = at + 3;
        self.progress = Progress::Running(status);
        Some(short(status, data1, data2))
    }

    /// A real-time byte of this offset: what `next` tells of it.
    #[inline(always)]
    pub fn read_realtime(&mut self, at: u64, byte: u8) -> Seen<'static>
        requires place { self.old.offset ≤ at }
        requires early { at + 1 < 2 ^ 63 }
        requires realtime { is_realtime byte ≡ true }
        ensures whole { TakesWhole self.old self.new at (byte ∷ []) (answer (Some result)) }
        ensures some { answer (Some result) ≡ [] → ⊥ }
        ensures unbroken { breaks (answer (Some result)) ≡ false }
    {
        self.offset = at + 1;
        realtime(at, byte)
    }

    /// Three bytes, of which the first has this offset, as a run of an open SysEx: what `next` tells of them. `None`,
    /// and nothing is taken, where none is open, or one of the three is no data byte.
    #[inline(always)]
    pub fn read_run<'a>(&mut self, at: u64, bytes: &'a [u8]) -> Option<Seen<'a>>
        requires place { self.old.offset ≤ at }
        requires early { at + 3 < 2 ^ 63 }
        requires three { length bytes.now ≡ 3 }
        ensures whole { OnSome result (TakesWhole self.old self.new at bytes.now (answer result)) }
        ensures when { IsSome result ↔ ((open_now self.old && is_all_data bytes.now) ≡ true) }
        ensures some { OnSome result (answer result ≡ [] → ⊥) }
        ensures unbroken { breaks (answer result) ≡ false }
        ensures unless { IfNone result (self.new ≡ self.old) }
    {
        if !is_open(self.progress) {
            return None;
        }
        let [first, second, third] = bytes else {
            return None;
        };
        if *first >= 0x80 || *second >= 0x80 || *third >= 0x80 {
            return None;
        }
        self.offset = at + 3;
        Some(Seen::Ev(Ev::Run(bytes)))
    }

    /// What only the end of the line makes known: a message that was begun and not finished, or an open SysEx. The
    /// reader then stands as a fresh one does, for bytes from its present offset on: a second call answers `None`.
    pub fn finish(&mut self) -> Option<Seen<'static>>
        ensures told { (entries : List Entry) → Stands self.old entries (so_far entries) →
            answer result ≡ at_end (last_of entries) }
        ensures some { OnSome result (answer result ≡ [] → ⊥) }
        ensures when { IsSome result ↔ (free_now self.old ≡ false) }
        // A message that was begun is remarked, and tells no mark.
        ensures silent { open_now self.old ≡ false → told_signs (answer result) ≡ [] }
        ensures as_fresh { self.new ≡ record fresh { offset = self.old.offset } }
        ensures falls { OnSome result (owed self.new < owed self.old) }
        ensures stands { Stands self.new [] [] }
    {
        let told = at_end(self.progress);
        self.progress = Progress::Idle;
        told
    }

    /// A channel status, 80 to EF, runs from here on without a byte of its own. No message is begun then and no SysEx
    /// open: it would be given up untold. `finish` ends either, and tells of it.
    pub fn resume(&mut self, status: u8)
        requires channel { is_channel status ≡ true }
        requires free { free_now self.old ≡ true }
        ensures offset { self.new.offset ≡ self.old.offset }
        ensures runs { may_run_now self.new ≡ true }
        ensures stands { (entries : List Entry) → Stands self.old entries (so_far entries) →
            Stands self.new (entries ++ Silent status ∷ []) (so_far entries) }
    {
        let running = Progress::Running(status);
        self.progress = running;
    }

    /// Whether the next data byte would begin a message of a running status. Right after a status byte it would not,
    /// since that message is begun.
    #[inline(always)]
    pub fn may_run(&self) -> bool
        ensures state { result ≡ may_run_now self.now }
        ensures law { (entries : List Entry) → Stands self.now entries (so_far entries) →
            result ≡ may_run (last_of entries) }
    {
        is_running(self.progress)
    }

    /// Whether no message is begun and no SysEx open: `resume` asks for that.
    #[inline(always)]
    pub fn is_free(&self) -> bool
        ensures { result ≡ free_now self.now }
    {
        is_free(self.progress)
    }

    /// The offset of the next byte: `place` asks for one that isn't below it.
    pub fn offset(&self) -> u64
        ensures { result ≡ self.now.offset }
    {
        self.offset
    }

    /// Whether a SysEx is open.
    #[inline(always)]
    pub fn in_sysex(&self) -> bool
        ensures state { result ≡ open_now self.now }
        ensures law { (entries : List Entry) → Stands self.now entries (so_far entries) →
            result ≡ is_sysex (last_of entries) }
    {
        is_open(self.progress)
    }

    /// `next`, exactly.
    #[inline(always)]
    fn advance<'a>(&mut self, input: &mut &'a [u8]) -> Option<Seen<'a>>
        requires early { self.old.offset + length input.old.now < 2 ^ 63 }
        ensures told { answer result ≡ (turn self.old input.old.now).told }
        ensures left { input.new.now ≡ (turn self.old input.old.now).left }
        ensures behind { self.new ≡ (turn self.old input.old.now).behind }
        ensures some { OnSome result (answer result ≡ [] → ⊥) }
        ensures before { breaks (answer result) ≡ true → StatusNext input.new.now × Rests self.new }
    {
        if let Some(seen) = self.take_whole(input) {
            return Some(seen);
        }
        while let Some((byte, rest)) = input.split_first() {
            if let Some(seen) = self.take(*byte, rest, input) {
                return Some(seen);
            }
        }
        None
    }

    /// Takes what stands whole at the front of the input: a channel message, a real-time byte, or a data byte that
    /// belongs to no message. `None`, and nothing is taken, where anything else stands there.
    #[inline(always)]
    fn take_whole<'a>(&mut self, input: &mut &'a [u8]) -> Option<Seen<'a>>
        requires early { self.old.offset + length input.old.now < 2 ^ 63 }
        ensures told { OnSome result (answer result ≡ (turn self.old input.old.now).told) }
        ensures left { OnSome result (input.new.now ≡ (turn self.old input.old.now).left) }
        ensures behind { OnSome result (self.new ≡ (turn self.old input.old.now).behind) }
        ensures some { OnSome result (answer result ≡ [] → ⊥) }
        ensures unbroken { breaks (answer result) ≡ false }
        ensures same { IfNone result (self.new ≡ self.old) }
        ensures kept { IfNone result (input.new.now ≡ input.old.now) }
    {
        let (byte, rest) = input.split_first()?;
        if *byte < 0x80 {
            if let Progress::Idle = self.progress {
                return Some(self.take_stray(*byte, rest, input));
            }
        } else if *byte >= 0xf8 {
            return Some(self.take_realtime(*byte, rest, input));
        }
        self.take_message(input)
    }

    /// Takes a real-time byte.
    #[inline(always)]
    fn take_realtime<'a>(&mut self, byte: u8, rest: &'a [u8], input: &mut &'a [u8]) -> Seen<'static>
        requires first { input.old.now ≡ byte ∷ rest.now }
        requires early { self.old.offset + length input.old.now < 2 ^ 63 }
        requires realtime { is_realtime byte ≡ true }
        ensures told { told_by result ≡ (turn self.old input.old.now).told }
        ensures left { input.new.now ≡ (turn self.old input.old.now).left }
        ensures behind { self.new ≡ (turn self.old input.old.now).behind }
        ensures some { told_by result ≡ [] → ⊥ }
        ensures unbroken { breaks (told_by result) ≡ false }
    {
        *input = rest;
        realtime(self.pass(), byte)
    }

    /// Takes a data byte where nothing is begun or runs.
    #[inline(always)]
    fn take_stray<'a>(&mut self, byte: u8, rest: &'a [u8], input: &mut &'a [u8]) -> Seen<'static>
        requires first { input.old.now ≡ byte ∷ rest.now }
        requires early { self.old.offset + length input.old.now < 2 ^ 63 }
        requires is_data { is_data byte ≡ true }
        requires idle { self.old.progress ≡ Progress.Idle }
        ensures told { told_by result ≡ (turn self.old input.old.now).told }
        ensures left { input.new.now ≡ (turn self.old input.old.now).left }
        ensures behind { self.new ≡ (turn self.old input.old.now).behind }
        ensures some { told_by result ≡ [] → ⊥ }
        ensures unbroken { breaks (told_by result) ≡ false }
    {
        let _ = byte;
        *input = rest;
        note(NoteKind::StrayData, self.pass())
    }

    /// Takes a channel message that stands whole at the front of the input, as nearly all do: of a status there, or of
    /// the one that runs. `None`, and nothing is taken, where anything else stands there.
    #[inline(always)]
    fn take_message<'a>(&mut self, input: &mut &'a [u8]) -> Option<Seen<'a>>
        requires early { self.old.offset + length input.old.now < 2 ^ 63 }
        ensures told { OnSome result (answer result ≡ (turn self.old input.old.now).told) }
        ensures left { OnSome result (input.new.now ≡ (turn self.old input.old.now).left) }
        ensures behind { OnSome result (self.new ≡ (turn self.old input.old.now).behind) }
        ensures some { OnSome result (answer result ≡ [] → ⊥) }
        ensures unbroken { breaks (answer result) ≡ false }
        ensures same { IfNone result (self.new ≡ self.old) }
        ensures kept { IfNone result (input.new.now ≡ input.old.now) }
    {
        let (byte, rest) = input.split_first()?;
        if *byte < 0x80 {
            let Progress::Running(status) = self.progress else {
                return None;
            };
            let (seen, left) = message(status, *input)?;
            self.offset += (input.len() - left.len()) as u64;
            *input = left;
            return Some(seen);
        }
        if *byte >= 0xf0 || !is_free(self.progress) {
            return None;
        }
        let (seen, left) = message(*byte, rest)?;
        self.offset += (input.len() - left.len()) as u64;
        self.progress = Progress::Running(*byte);
        *input = left;
        Some(seen)
    }

    /// What the first byte of the input tells, if it tells anything.
    #[inline(always)]
    fn take<'a>(&mut self, byte: u8, rest: &'a [u8], input: &mut &'a [u8]) -> Option<Seen<'a>>
        requires first { input.old.now ≡ byte ∷ rest.now }
        requires early { self.old.offset + length input.old.now < 2 ^ 63 }
        ensures before { breaks (answer result) ≡ true → StatusNext input.new.now × Rests self.new }
        ensures told { answer result ≡ (one self.old byte rest.now).told }
        ensures left { input.new.now ≡ (one self.old byte rest.now).left }
        ensures behind { self.new ≡ (one self.old byte rest.now).behind }
        ensures some { OnSome result (answer result ≡ [] → ⊥) }
    {
        if byte < 0x80 {
            if let Progress::InSysex = self.progress {
                return Some(self.lend_run(input));
            }
            *input = rest;
            let at = self.pass();
            return take_data(&mut self.progress, at, byte);
        }
        if byte >= 0xf8 {
            *input = rest;
            return Some(realtime(self.pass(), byte));
        }
        if let Some(seen) = before_status(self.progress, byte) {
            self.progress = Progress::Idle;
            return Some(seen);
        }
        *input = rest;
        let at = self.pass();
        take_status(&mut self.progress, at, byte)
    }

    /// The offset of a byte that is taken.
    #[inline(always)]
    fn pass(&mut self) -> u64
        requires { self.old.offset < 2 ^ 63 }
        ensures at { result ≡ self.old.offset }
        ensures passed { self.new ≡ record self.old { offset = self.old.offset + 1 } }
    {
        let at = self.offset;
        self.offset += 1;
        at
    }

    /// In an open SysEx, its data bytes at the front of the input.
    #[inline(always)]
    fn lend_run<'a>(&mut self, input: &mut &'a [u8]) -> Seen<'a>
        requires early { self.old.offset + length input.old.now < 2 ^ 63 }
        ensures told { told_by result ≡ (run self.old input.old.now).told }
        ensures left { input.new.now ≡ (run self.old input.old.now).left }
        ensures behind { self.new ≡ (run self.old input.old.now).behind }
        ensures unbroken { breaks (told_by result) ≡ false }
    {
        let data = take_run(input);
        self.offset += data.len() as u64;
        Seen::Ev(Ev::Run(data))
    }
}
