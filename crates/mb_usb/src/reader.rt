//! The reader of all cables.

ghost use Rattle.std.specs.Prelude.{◌≡◌, ◌≢◌, ◌+◌, ◌*◌, ◌/◌, ◌%◌, ◌<◌, ◌≤◌, ◌^◌, ◌↔◌, true, false, None, [], ℕ, List};
ghost use Rattle.std.specs.Prelude.{length, take, drop, OnSome, IsSome, IfSome, IfNone};
ghost use Rattle.mb_stream.specs.ReaderLaw.{answer, IsLongest, breaks, StatusNext, Tells, AllTold};
ghost use Rattle.mb_din.specs.State.{fresh, free_now, Rests};
ghost use Rattle.mb_usb.specs.Under.{left_of, head_of, taken_of};
ghost use Rattle.mb_usb.specs.Hands.{Hands};
ghost use Rattle.mb_ports.specs.Reader.{IsLongestOf, BreaksBefore, port_answer, port_signs, bare};
ghost use Rattle.mb_stream.specs.Groups.{last_of};
ghost use Rattle.mb_stream.specs.Told.{at_end};
ghost use Rattle.mb_stream.specs.Reading.{told_signs};
ghost use Rattle.mb_ports.specs.Events.{Ported};
ghost use Rattle.mb_usb.specs.Reading.{cable_payload};
ghost use Rattle.mb_usb.specs.Cables.{all_cables_so_far, UsbHolds, UsbStands, UsbTells, UsbAllTold, UsbAnew};
ghost use Rattle.mb_usb.specs.State.{UsbState, usb_packets, usb_offset, usb_taken, usb_to_come, usb_reader, usb_owed};
ghost use Rattle.mb_usb.specs.State.{owed_of, AreBehind, reader_at};

use crate::carry::carry;
use crate::under::{Packets, cable, left, taken};
use mb_din::DinReader;
use mb_message::{PortSeen, Seen};
use std::array;
use std::marker::Model;

/// Reads USB-MIDI event packets that come in pieces: the streams of all sixteen cables, and the notes on packets.
#[derive(Drop)]
pub struct UsbReader {
    packet: Packets,
    dins: [DinReader; 16],
}

impl Model for UsbReader {
    ghost use Rattle.mb_usb.specs.State.{UsbState, AreBehind};

    ghost Value = { UsbState };

    ghost view = { λ r. record { packet = r.packet; readers = r.dins } };

    ghost invariant = { λ r. AreBehind r.packet r.dins };
}

impl UsbReader {
    /// The next byte has offset 0.
    pub fn new() -> UsbReader
        ensures offset { usb_offset result ≡ 0 }
        ensures stands { UsbStands result [] [] }
    {
        UsbReader {
            packet: Packets::new(),
            dins: array::from_fn(
                |_index| -> DinReader
                    ensures { result ≡ fresh }
                { DinReader::new() },
            ),
        }
    }

    /// The next mark or note of the bytes that were taken and of the input, which it takes from the front of the input:
    /// of a cable, or a note of a packet. What a byte makes known of earlier ones is told while it still stands in the
    /// input, and before anything of it is kept. `None` comes where the input is used up and all of it is told. A run
    /// is lent from the input, and is never empty.
    #[inline(always)]
    pub fn next<'a>(&mut self, input: &mut &'a [u8]) -> Option<PortSeen<'a>>
        requires early { usb_offset self.old + length input.old.now < 2 ^ 63 }

        // What it takes and answers, whatever was taken and told before.
        ensures tells { UsbTells self.old self.new input.old.now input.new.now (port_answer result) }
        ensures some { OnSome result (port_answer result ≡ [] → ⊥) }
        ensures all_told { IfNone result (UsbAllTold self.old input.old.now) }
        ensures end { usb_offset self.new + length input.new.now ≡ usb_offset self.old + length input.old.now }
        ensures longest { IfSome result (IsLongestOf (take (usb_to_come self.new) input.new.now)) }
        ensures none { IfNone result (input.new.now ≡ []) }

        // What a status breaks is told of before the status is taken: it still stands in the input, and nothing is
        // begun, running or open on its cable.
        ensures before { IfSome result (BreaksBefore (usb_reader self.new) input.new.now) }

        // No more marks than the input has bytes: where one byte is handed in, one mark at most comes back.
        ensures few { length (port_signs (port_answer result)) ≤ length input.old.now }

        // A caller's loop ends by this.
        ensures progress { OnSome result (2 * length input.new.now + usb_owed self.new <
            2 * length input.old.now + usb_owed self.old) }
    {
        read(&mut self.packet, &mut self.dins, input)
    }

    /// What only the end of the recording makes known on a cable, 0 to 15: a message that was begun and not finished,
    /// or an open SysEx. The cable then stands as a fresh one does: a second call answers `None`.
    pub fn finish_port(&mut self, cable: u8) -> Option<Seen<'static>>
        requires { cable < 16 }
        ensures told { (bytes : List ℕ) → UsbStands self.old bytes (all_cables_so_far bytes) →
            answer result ≡ at_end (last_of (cable_payload cable bytes)) }

        // The same where all was told of the bytes, and other cables were finished since.
        ensures in_turn { (was : UsbState) → usb_reader self.old cable ≡ usb_reader was cable →
            (bytes : List ℕ) → UsbStands was bytes (all_cables_so_far bytes) →
            answer result ≡ at_end (last_of (cable_payload cable bytes)) }

        ensures some { OnSome result (answer result ≡ [] → ⊥) }
        ensures when { IsSome result ↔ (free_now (usb_reader self.old cable) ≡ false) }
        ensures as_fresh { usb_reader self.new cable ≡ record fresh { offset = (usb_reader self.old cable).offset } }
        ensures others { (c : ℕ) → c ≢ cable → usb_reader self.new c ≡ usb_reader self.old c }
        ensures packets { usb_packets self.new ≡ usb_packets self.old }

        // Behind whole packets of which all was told, what `next` tells from here on: of that cable, as where it
        // carried nothing yet.
        ensures anew { UsbAnew cable self.old self.new }
    {
        self.dins[cable as usize].finish()
    }

    /// How many bytes of an unfinished packet were taken, 0 to 3.
    pub fn partial(&self) -> u8
        ensures state { result ≡ usb_taken self.now }
        ensures law { (bytes : List ℕ) (told : List Ported) → UsbStands self.now bytes told →
            result ≡ length bytes % 4 }
    {
        taken(self.packet.under)
    }
}

/// The next mark or note.
#[inline(always)]
fn read<'a>(
    packet: &mut Packets,
    dins: &mut [DinReader; 16],
    input: &mut &'a [u8],
) -> Option<PortSeen<'a>>
    requires early { packet.old.offset + length input.old.now < 2 ^ 63 }
    requires behind { AreBehind packet.old dins.old }
    ensures tells { Tells bare all_cables_so_far (UsbHolds packet.old dins.old)
        (UsbHolds packet.new dins.new) input.old.now input.new.now (port_answer result) }
    ensures some { OnSome result (port_answer result ≡ [] → ⊥) }
    ensures all_told { IfNone result (AllTold all_cables_so_far (UsbHolds packet.old dins.old) input.old.now) }
    ensures behind { AreBehind packet.new dins.new }
    ensures end { packet.new.offset + length input.new.now ≡ packet.old.offset + length input.old.now }
    ensures longest { IfSome result (IsLongestOf (take (left_of packet.new.under) input.new.now)) }
    ensures before { IfSome result (BreaksBefore (reader_at dins.new) input.new.now) }
    ensures few { length (port_signs (port_answer result)) ≤ length input.old.now }
    ensures none { IfNone result (input.new.now ≡ []) }
    ensures progress { OnSome result
        (2 * length input.new.now + owed_of packet.new (reader_at dins.new (head_of packet.new.under / 16)) <
        2 * length input.old.now + owed_of packet.old (reader_at dins.old (head_of packet.old.under / 16))) }
{
    'bytes: loop {
        if let Some(note) = packet.take_due() {
            return Some(PortSeen::Unit(note));
        }
        let Some((byte, rest)) = input.split_first() else {
            return None;
        };
        if left(packet.under) == 0 {
            packet.pass(*byte);
            *input = rest;
        } else {
            let port = cable(packet.under);
            if let Some(seen) = carry_at(packet, dins, port, input) {
                return Some(PortSeen::Port(port, seen));
            }
        }
    }
}

/// Hands the bytes that the packet under way carries, and that stand in the input, to the reader of its cable, which
/// takes a front of them.
#[inline(always)]
fn carry_at<'a>(
    packet: &mut Packets,
    dins: &mut [DinReader; 16],
    port: u8,
    input: &mut &'a [u8],
) -> Option<Seen<'a>>
    requires early { packet.old.offset + length input.old.now < 2 ^ 63 }
    requires behind { AreBehind packet.old dins.old }
    requires cable { port ≡ head_of packet.old.under / 16 }
    requires below { port < 16 }
    requires rested { packet.old.due ≡ None }
    requires carries { left_of packet.old.under ≢ 0 }
    ensures hands { Hands packet.old packet.new (reader_at dins.old port)
        (reader_at dins.new port) input.old.now input.new.now (answer result) }
    ensures others { (c : ℕ) → c ≢ port → reader_at dins.new c ≡ reader_at dins.old c }
    ensures behind { AreBehind packet.new dins.new }
    ensures some { OnSome result (answer result ≡ [] → ⊥) }
    ensures longest { IfSome result (IsLongest (take (left_of packet.new.under) input.new.now)) }
    ensures before { breaks (answer result) ≡ true → StatusNext input.new.now × Rests (reader_at dins.new port) }
    ensures few { length (told_signs (answer result)) ≤ length input.old.now }
    ensures none { IfNone result (input.new.now ≡ drop (left_of packet.old.under) input.old.now) }
    ensures end { packet.new.offset + length input.new.now ≡ packet.old.offset + length input.old.now }
    ensures progress { OnSome result
        (2 * length input.new.now + owed_of packet.new (reader_at dins.new (head_of packet.new.under / 16)) <
        2 * length input.old.now + owed_of packet.old (reader_at dins.old (head_of packet.old.under / 16))) }
{
    carry(packet, &mut dins[port as usize], input)
}
