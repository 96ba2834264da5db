//! The reader of a recording of packets.

ghost use Rattle.std.specs.Prelude.{◌≡◌, ℕ, List, [], ◌+◌, ◌*◌, ◌^◌, ◌<◌, ◌≤◌, false, true, not, length, take, IfNone};
ghost use Rattle.std.specs.Prelude.{IfSome, OnSome, IsSome, ◌↔◌};
ghost use Rattle.mb_din.specs.State.{fresh, free_now, Rests};
ghost use Rattle.mb_frames.specs.Reading.{is_partial};
ghost use Rattle.mb_stream.specs.Reading.{part_of, told_signs};
ghost use Rattle.mb_stream.specs.ReaderLaw.{IsLongest, Tells, breaks, answer};
ghost use Rattle.mb_stream.specs.Told.{Known};
ghost use Rattle.mb_ble.specs.Reading.{ble_known, ble_end, ble_whole};
ghost use Rattle.mb_ble.specs.State.{ble_frames, ble_reader, ble_offset, ble_to_come, ble_moment, ble_owed};
ghost use Rattle.mb_ble.specs.Stands.{BleStands, BleAllTold, BrokenNext, ble_answer, seen_of};

use crate::content::Content;
use crate::position::Position;
use crate::step::{BleStep, step_of};
use mb_frames::Frames;
use std::marker::Model;

/// Reads a recording of BLE-MIDI packets in frames that comes in pieces: its stream, each mark and note with its
/// moment.
#[derive(Drop)]
pub struct BleReader {
    position: Position,
}

impl Model for BleReader {
    ghost use Rattle.mb_ble.specs.State.{Fit};
    ghost use Rattle.mb_ble.specs.declared.position.Position.{Position};

    ghost Value = { Position };

    ghost view = { λ r. r.position };

    ghost invariant = { λ r. Fit r.position };
}

impl BleReader {
    /// The next byte has offset 0, and is the first of a frame's length.
    pub fn new() -> BleReader
        ensures offset { ble_offset result ≡ 0 }
        ensures moment { ble_moment result ≡ 0 }
        ensures stands { BleStands result [] [] }
    {
        BleReader {
            position: Position {
                frames: Frames::new(),
                content: Content::new(),
            },
        }
    }

    /// The next mark or note of the bytes that were taken and of the input, which it takes from the front of the input,
    /// with its moment: that of the last stamp. What a byte makes known of earlier ones is told while it still stands
    /// in the input, and before anything of it is kept; what the end of a packet makes known, before the byte behind
    /// it. `None` comes where the input is used up and all of it is told. A run is lent from the input, and is never
    /// empty.
    ///
    /// A recording has at most half as many stamps as bytes, and a stamp adds at most 8,191 ms. So below 2^51 + 2^14
    /// bytes each moment is below 2^63.
    #[inline(always)]
    pub fn next<'a>(&mut self, input: &mut &'a [u8]) -> Option<BleStep<'a>>
        requires early { ble_offset self.old + length input.old.now ≤ 2 ^ 51 + 2 ^ 14 }

        // What it takes and answers, whatever was taken and told before.
        ensures tells { Tells part_of ble_known (BleStands self.old) (BleStands self.new) input.old.now input.new.now
            (ble_answer result) }
        ensures moment { IfSome result (λ s. s.moment ≡ ble_moment self.new) }
        ensures some { OnSome result (ble_answer result ≡ [] → ⊥) }
        ensures all_told { IfNone result (BleAllTold self.old input.old.now) }
        ensures end { ble_offset self.new + length input.new.now ≡ ble_offset self.old + length input.old.now }
        ensures longest { IfSome (seen_of result) (IsLongest (take (ble_to_come self.new) input.new.now)) }
        ensures none { IfNone result (input.new.now ≡ []) }

        // What a status breaks is told of before the status is taken: it still stands in the input. What the end of a
        // packet breaks is told of behind it. Then nothing is begun, running or open.
        ensures before { breaks (answer (seen_of result)) ≡ true → BrokenNext self.new input.new.now ×
            Rests (ble_reader self.new) }

        // No more marks than the input has bytes: where one byte is handed in, one mark at most comes back.
        ensures few { length (told_signs (answer (seen_of result))) ≤ length input.old.now }

        // A caller's loop ends by this.
        ensures progress { OnSome result (2 * length input.new.now + ble_owed self.new <
            2 * length input.old.now + ble_owed self.old) }
    {
        let seen = self.position.next(input);
        step_of(self.position.content.moment(), seen)
    }

    /// The moment of the last stamp, in milliseconds from the recording's start, 0 before any: that of what was told
    /// last, and of what the end tells.
    #[inline(always)]
    pub fn moment(&self) -> u64
        ensures { result ≡ ble_moment self.now }
    {
        self.position.content.moment()
    }

    /// What only the end of the recording makes known, at the last moment: a message that was begun and not finished,
    /// or an open SysEx. No message is then begun and no SysEx open: a second call answers `None`.
    pub fn finish(&mut self) -> Option<BleStep<'static>>
        ensures told { (bytes : List ℕ) → BleStands self.old bytes (ble_known bytes) →
            ble_answer result ≡ ble_end bytes }
        ensures moment { IfSome result (λ s. s.moment ≡ ble_moment self.old) }
        ensures some { OnSome result (ble_answer result ≡ [] → ⊥) }
        ensures when { IsSome result ↔ (free_now (ble_reader self.old) ≡ false) }
        ensures as_fresh { ble_reader self.new ≡ record fresh { offset = (ble_reader self.old).offset } }
        ensures offset { ble_offset self.new ≡ ble_offset self.old }
        ensures frames { ble_frames self.new ≡ ble_frames self.old }
        ensures last { ble_moment self.new ≡ ble_moment self.old }
    {
        let seen = self.position.finish();
        step_of(self.position.content.moment(), seen)
    }

    /// Whether the bytes that were taken stop inside a frame.
    pub fn partial(&self) -> bool
        ensures state { result ≡ is_partial (ble_frames self.now) }
        ensures law { (bytes : List ℕ) (told : List Known) → BleStands self.now bytes told →
            result ≡ not (ble_whole bytes) }
    {
        self.position.frames.partial()
    }
}
