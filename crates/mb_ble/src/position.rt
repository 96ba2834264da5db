//! Where a recording stands that is read in pieces.

ghost use Rattle.std.specs.Prelude.{◌≡◌, ℕ, List, [], ◌+◌, ◌*◌, ◌^◌, ◌<◌, ◌≤◌, None, false, true, length, take, IfNone};
ghost use Rattle.std.specs.Prelude.{IfSome, OnSome, IsSome, ◌↔◌};
ghost use Rattle.mb_din.specs.State.{fresh, free_now, Rests};
ghost use Rattle.mb_frames.specs.Reading.{Place, Between, Within, room_of, is_at_end};
ghost use Rattle.mb_stream.specs.Reading.{told_signs};
ghost use Rattle.mb_stream.specs.ReaderLaw.{IsLongest, StatusNext, breaks, answer};
ghost use Rattle.mb_stream.specs.Told.{Known};
ghost use Rattle.mb_ble.specs.Reading.{ble_known, ble_end};
ghost use Rattle.mb_ble.specs.State.{Fit, ble_owed, ble_offset};
ghost use Rattle.mb_ble.specs.Stands.{passed, at_moment, BleStands, BleTells, BleAllTold, BrokenNext};

use crate::content::Content;
use mb_frames::Frames;
use mb_message::Seen;

/// Where a recording stands: in its frames, and in the packet under way.
#[derive(Drop)]
pub struct Position {
    pub(crate) frames: Frames,
    pub(crate) content: Content,
}

/// So many bytes of a content were taken.
#[inline(always)]
fn pass(frames: &mut Frames, used: u16)
    requires within { 0 < room_of frames.old }
    requires room { used ≤ room_of frames.old }
    ensures { frames.new ≡ passed frames.old used }
{
    if used > 0 {
        frames.pass(used);
    }
}

impl Position {
    /// What the end of a packet makes known. With nothing more to tell it is taken.
    #[inline(always)]
    fn end<'a>(&mut self) -> Option<Seen<'a>>
        requires fit { Fit self.old }
        requires end { self.old.frames ≡ Within 0 }
        ensures tells { (input : List ℕ) → BleTells self.old self.new input input (at_moment self.new (answer result)) }
        ensures fit { Fit self.new }
        ensures none { IfNone result (is_at_end self.new.frames ≡ false) }
        ensures some { OnSome result (answer result ≡ [] → ⊥) }
        ensures offset { ble_offset self.new ≡ ble_offset self.old }
        ensures falls { OnSome result (ble_owed self.new < ble_owed self.old) }
        ensures kept { ble_owed self.new ≤ ble_owed self.old }
        ensures before { breaks (answer result) ≡ true → (self.new.frames ≡ Between) × Rests self.new.content.din }
        ensures silent { told_signs (answer result) ≡ [] }
        ensures longest { (input : List ℕ) → IfSome result (IsLongest (take (room_of self.new.frames) input)) }
    {
        if let Some(seen) = self.content.end_stamp() {
            return Some(seen);
        }
        self.frames.leave();
        self.content.end_groups()
    }

    /// Takes a byte of a length.
    #[inline(always)]
    fn read_length<'a>(&mut self, input: &mut &'a [u8]) -> Option<Seen<'a>>
        requires fit { Fit self.old }
        requires early { ble_offset self.old + length input.old.now < 2 ^ 63 }
        requires end { is_at_end self.old.frames ≡ false }
        requires between { room_of self.old.frames ≡ 0 }
        requires some { 0 < length input.old.now }
        ensures tells { BleTells self.old self.new input.old.now input.new.now (at_moment self.new (answer result)) }
        ensures fit { Fit self.new }
        ensures some { OnSome result (answer result ≡ [] → ⊥) }
        ensures offset { ble_offset self.new + length input.new.now ≡ ble_offset self.old + length input.old.now }
        ensures falls { 2 * length input.new.now + ble_owed self.new < 2 * length input.old.now + ble_owed self.old }
        ensures none { IfNone result (length input.new.now < length input.old.now) }
        ensures unbroken { breaks (answer result) ≡ false }
        ensures silent { told_signs (answer result) ≡ [] }
        ensures longest { (left : List ℕ) → IfSome result (IsLongest left) }
    {
        let Some((byte, rest)) = input.split_first() else {
            return None;
        };
        *input = rest;
        let Some(len) = self.frames.length(*byte) else {
            return None;
        };
        self.content.enter(len)
    }

    /// Reads bytes of a content.
    #[inline(always)]
    fn read_content<'a>(&mut self, input: &mut &'a [u8]) -> Option<Seen<'a>>
        requires fit { Fit self.old }
        requires early { ble_offset self.old + length input.old.now ≤ 2 ^ 51 + 2 ^ 14 }
        requires within { 0 < room_of self.old.frames }
        requires some { 0 < length input.old.now }
        ensures tells { BleTells self.old self.new input.old.now input.new.now (at_moment self.new (answer result)) }
        ensures fit { Fit self.new }
        ensures some { OnSome result (answer result ≡ [] → ⊥) }
        ensures offset { ble_offset self.new + length input.new.now ≡ ble_offset self.old + length input.old.now }
        ensures falls { 2 * length input.new.now + ble_owed self.new < 2 * length input.old.now + ble_owed self.old }
        ensures none { IfNone result (length input.new.now < length input.old.now) }
        ensures before { breaks (answer result) ≡ true → StatusNext input.new.now × Rests self.new.content.din }
        ensures few { length (told_signs (answer result)) ≤ length input.old.now }
        ensures longest { IfSome result (IsLongest (take (room_of self.new.frames) input.new.now)) }
    {
        let len = input.len().min(self.frames.room() as usize);
        let mut piece = input.split_at(len).0;
        let seen = self.content.read(&mut piece);
        let used = len - piece.len();
        pass(&mut self.frames, used as u16);
        *input = input.split_at(used).1;
        seen
    }

    /// What is to be told before a byte is taken: what the end of a packet makes known.
    #[inline(always)]
    fn settle<'a>(&mut self) -> Option<Seen<'a>>
        requires fit { Fit self.old }
        ensures tells { (input : List ℕ) → BleTells self.old self.new input input (at_moment self.new (answer result)) }
        ensures fit { Fit self.new }
        ensures none { IfNone result (is_at_end self.new.frames ≡ false) }
        ensures some { OnSome result (answer result ≡ [] → ⊥) }
        ensures offset { ble_offset self.new ≡ ble_offset self.old }
        ensures falls { OnSome result (ble_owed self.new < ble_owed self.old) }
        ensures kept { ble_owed self.new ≤ ble_owed self.old }
        ensures before { breaks (answer result) ≡ true → (self.new.frames ≡ Between) × Rests self.new.content.din }
        ensures silent { told_signs (answer result) ≡ [] }
        ensures longest { (input : List ℕ) → IfSome result (IsLongest (take (room_of self.new.frames) input)) }
    {
        if !self.frames.at_end() {
            return None;
        }
        self.end()
    }

    /// Reads bytes.
    #[inline(always)]
    fn take<'a>(&mut self, input: &mut &'a [u8]) -> Option<Seen<'a>>
        requires fit { Fit self.old }
        requires early { ble_offset self.old + length input.old.now ≤ 2 ^ 51 + 2 ^ 14 }
        requires end { is_at_end self.old.frames ≡ false }
        requires some { 0 < length input.old.now }
        ensures tells { BleTells self.old self.new input.old.now input.new.now (at_moment self.new (answer result)) }
        ensures fit { Fit self.new }
        ensures some { OnSome result (answer result ≡ [] → ⊥) }
        ensures offset { ble_offset self.new + length input.new.now ≡ ble_offset self.old + length input.old.now }
        ensures falls { 2 * length input.new.now + ble_owed self.new < 2 * length input.old.now + ble_owed self.old }
        ensures none { IfNone result (length input.new.now < length input.old.now) }
        ensures before { breaks (answer result) ≡ true → StatusNext input.new.now × Rests self.new.content.din }
        ensures few { length (told_signs (answer result)) ≤ length input.old.now }
        ensures longest { IfSome result (IsLongest (take (room_of self.new.frames) input.new.now)) }
    {
        if self.frames.room() == 0 {
            return self.read_length(input);
        }
        self.read_content(input)
    }

    /// The next mark or note. `None` comes where the input is used up and all of it is told.
    #[inline(always)]
    pub(crate) fn next<'a>(&mut self, input: &mut &'a [u8]) -> Option<Seen<'a>>
        requires fit { Fit self.old }
        requires early { ble_offset self.old + length input.old.now ≤ 2 ^ 51 + 2 ^ 14 }
        ensures tells { BleTells self.old self.new input.old.now input.new.now (at_moment self.new (answer result)) }
        ensures fit { Fit self.new }
        ensures some { OnSome result (answer result ≡ [] → ⊥) }
        ensures none { IfNone result (input.new.now ≡ []) }
        ensures all_told { IfNone result (BleAllTold self.old input.old.now) }
        ensures offset { ble_offset self.new + length input.new.now ≡ ble_offset self.old + length input.old.now }
        ensures longest { IfSome result (IsLongest (take (room_of self.new.frames) input.new.now)) }
        ensures before { breaks (answer result) ≡ true →
            BrokenNext self.new input.new.now × Rests self.new.content.din }
        ensures few { length (told_signs (answer result)) ≤ length input.old.now }
        ensures progress { OnSome result (2 * length input.new.now + ble_owed self.new <
            2 * length input.old.now + ble_owed self.old) }
    {
        loop {
            if let Some(seen) = self.settle() {
                return Some(seen);
            }
            if input.is_empty() {
                return None;
            }
            if let Some(seen) = self.take(input) {
                return Some(seen);
            }
        }
    }

    /// What only the end of the recording makes known.
    pub(crate) fn finish(&mut self) -> Option<Seen<'static>>
        requires fit { Fit self.old }
        ensures told { (bytes : List ℕ) → BleStands self.old bytes (ble_known bytes) →
            at_moment self.new (answer result) ≡ ble_end bytes }
        ensures some { OnSome result (answer result ≡ [] → ⊥) }
        ensures when { IsSome result ↔ (free_now self.old.content.din ≡ false) }
        ensures offset { ble_offset self.new ≡ ble_offset self.old }
        ensures frames { self.new.frames ≡ self.old.frames }
        ensures clock { self.new.content.clock ≡ self.old.content.clock }
        ensures as_fresh { self.new.content.din ≡ record fresh { offset = self.old.content.din.offset } }
        ensures fit { Fit self.new }
    {
        self.content.finish()
    }
}
