//! The reader of one cable.

ghost use Rattle.std.specs.Prelude.{◌≡◌, ◌+◌, ◌*◌, ◌%◌, ◌<◌, ◌≤◌, ◌^◌, ◌↔◌, true, false, [], ℕ, List, length, take};
ghost use Rattle.std.specs.Prelude.{OnSome, IsSome, IfSome, IfNone};
ghost use Rattle.mb_stream.specs.Groups.{last_of};
ghost use Rattle.mb_stream.specs.Told.{Known, at_end};
ghost use Rattle.mb_stream.specs.Reading.{told_signs};
ghost use Rattle.mb_stream.specs.ReaderLaw.{answer, IsLongest, breaks, StatusNext, Tells, AllTold, bare_told};
ghost use Rattle.mb_usb.specs.Under.{left_of, taken_of};
ghost use Rattle.mb_din.specs.State.{State, fresh, free_now, Rests};
ghost use Rattle.mb_usb.specs.Reading.{cable_payload};
ghost use Rattle.mb_usb.specs.Cables.{cable_so_far, CableHolds, CableStands, CableTells, CableAllTold, CableAnew};
ghost use Rattle.mb_usb.specs.State.{cable_packets, cable_offset, cable_taken, cable_to_come, cable_owed, owed_alone};
ghost use Rattle.mb_usb.specs.State.{IsBehind};

use crate::carry::carry;
use crate::under::{Packets, is_of, taken};
use crate::whole::{pass_over, take_packet};
use mb_din::DinReader;
use mb_message::Seen;
use std::marker::Model;

/// Reads one cable of USB-MIDI event packets that come in pieces: its stream, and the notes on all packets. What other
/// cables carry is passed over.
#[derive(Drop)]
pub struct CableReader {
    cable: u8,
    packet: Packets,
    din: DinReader,
}

impl Model for CableReader {
    ghost use Rattle.std.specs.Prelude.{◌<◌};
    ghost use Rattle.mb_usb.specs.State.{CableState, IsBehind};

    ghost Value = { CableState };

    ghost view = { λ r. record { cable = r.cable; packet = r.packet; reader = r.din } };

    ghost invariant = { λ r. IsBehind r.packet r.din };
}

impl CableReader {
    /// A reader of a cable, 0 to 15. The next byte has offset 0.
    pub fn new(cable: u8) -> CableReader
        requires { cable < 16 }
        ensures cable { result.cable ≡ cable }
        ensures offset { cable_offset result ≡ 0 }
        ensures stands { CableStands result [] [] }
    {
        CableReader {
            cable,
            packet: Packets::new(),
            din: DinReader::new(),
        }
    }

    /// The next mark or note of the bytes that were taken and of the input, which it takes from the front of the input:
    /// of the cable, or a note of any packet. What a byte makes known of earlier ones is told while it still stands in
    /// the input, and before anything of it is kept. `None` comes where the input is used up and all of it is told. A
    /// run is lent from the input, and is never empty.
    #[inline(always)]
    pub fn next<'a>(&mut self, input: &mut &'a [u8]) -> Option<Seen<'a>>
        requires early { cable_offset self.old + length input.old.now < 2 ^ 63 }
        ensures cable { self.new.cable ≡ self.old.cable }

        // What it takes and answers, whatever was taken and told before.
        ensures tells { CableTells self.old self.new input.old.now input.new.now (answer result) }
        ensures some { OnSome result (answer result ≡ [] → ⊥) }
        ensures all_told { IfNone result (CableAllTold self.old input.old.now) }
        ensures end { cable_offset self.new + length input.new.now ≡ cable_offset self.old + length input.old.now }
        ensures longest { IfSome result (IsLongest (take (cable_to_come self.new) input.new.now)) }
        ensures none { IfNone result (input.new.now ≡ []) }

        // What a status breaks is told of before the status is taken: it still stands in the input, and nothing is
        // begun, running or open on the cable.
        ensures before { breaks (answer result) ≡ true → StatusNext input.new.now × Rests self.new.reader }

        // No more marks than the input has bytes: where one byte is handed in, one mark at most comes back.
        ensures few { length (told_signs (answer result)) ≤ length input.old.now }

        // A caller's loop ends by this.
        ensures progress { OnSome result (2 * length input.new.now + cable_owed self.new <
            2 * length input.old.now + cable_owed self.old) }
    {
        read_cable(self.cable, &mut self.packet, &mut self.din, input)
    }

    /// What only the end of the recording makes known: a message that was begun and not finished, or an open SysEx. The
    /// cable then stands as a fresh one does: a second call answers `None`.
    pub fn finish(&mut self) -> Option<Seen<'static>>
        ensures cable { self.new.cable ≡ self.old.cable }
        ensures told { (bytes : List ℕ) → CableStands self.old bytes (cable_so_far self.old.cable bytes) →
            answer result ≡ at_end (last_of (cable_payload self.old.cable bytes)) }
        ensures some { OnSome result (answer result ≡ [] → ⊥) }
        ensures when { IsSome result ↔ (free_now self.old.reader ≡ false) }
        ensures as_fresh { self.new.reader ≡ record fresh { offset = self.old.reader.offset } }
        ensures packets { cable_packets self.new ≡ cable_packets self.old }

        // Behind whole packets of which all was told, what `next` tells from here on: as where the cable carried
        // nothing yet.
        ensures anew { CableAnew self.old self.new }
    {
        self.din.finish()
    }

    /// How many bytes of an unfinished packet were taken, 0 to 3.
    pub fn partial(&self) -> u8
        ensures state { result ≡ cable_taken self.now }
        ensures law { (bytes : List ℕ) (told : List Known) → CableStands self.now bytes told →
            result ≡ length bytes % 4 }
    {
        taken(self.packet.under)
    }
}

/// The next mark or note.
#[inline(always)]
fn read_cable<'a>(
    own: u8,
    packet: &mut Packets,
    din: &mut DinReader,
    input: &mut &'a [u8],
) -> Option<Seen<'a>>
    requires early { packet.old.offset + length input.old.now < 2 ^ 63 }
    requires behind { IsBehind packet.old din.old }
    ensures tells { Tells bare_told (cable_so_far own) (CableHolds own packet.old din.old)
        (CableHolds own packet.new din.new) input.old.now input.new.now (answer result) }
    ensures some { OnSome result (answer result ≡ [] → ⊥) }
    ensures all_told { IfNone result (AllTold (cable_so_far own) (CableHolds own packet.old din.old) input.old.now) }
    ensures behind { IsBehind packet.new din.new }
    ensures end { packet.new.offset + length input.new.now ≡ packet.old.offset + length input.old.now }
    ensures longest { IfSome result (IsLongest (take (left_of packet.new.under) input.new.now)) }
    ensures before { breaks (answer result) ≡ true → StatusNext input.new.now × Rests din.new }
    ensures few { length (told_signs (answer result)) ≤ length input.old.now }
    ensures none { IfNone result (input.new.now ≡ []) }
    ensures progress { OnSome result (2 * length input.new.now + owed_alone own packet.new din.new <
        2 * length input.old.now + owed_alone own packet.old din.old) }
{
    'bytes: loop {
        if let Some(note) = packet.take_due() {
            return Some(Seen::Note(note));
        }
        if let Some(seen) = take_packet(own, packet, din, input) {
            return Some(seen);
        }
        let Some((byte, rest)) = input.split_first() else {
            return None;
        };
        if is_of(packet.under, own) {
            if let Some(seen) = carry(packet, din, input) {
                return Some(seen);
            }
        } else {
            *input = pass_over(own, packet, *byte, rest);
        }
    }
}
