//! The reader of one port.

ghost use Rattle.std.specs.Prelude.{◌≡◌, ◌+◌, ◌*◌, ◌%◌, ◌<◌, ◌≤◌, ◌^◌, ◌↔◌, not, true, false, [], ℕ, List, length};
ghost use Rattle.std.specs.Prelude.{take, OnSome, IsSome, IfSome, IfNone};
ghost use Rattle.mb_stream.specs.Groups.{last_of};
ghost use Rattle.mb_stream.specs.Told.{Known, at_end};
ghost use Rattle.mb_stream.specs.Reading.{told_signs};
ghost use Rattle.mb_stream.specs.ReaderLaw.{AllTold, IsLongest, StatusNext, Tells, answer, bare_told, breaks};
ghost use Rattle.mb_din.specs.State.{State, fresh, free_now, Rests};
ghost use Rattle.mb_fire.specs.Packets.{fire_whole};
ghost use Rattle.mb_fire.specs.Under.{left_of};
ghost use Rattle.mb_fire.specs.Reading.{fire_payload};
ghost use Rattle.mb_fire.specs.Ports.{port_so_far, PortHolds, PortStands, PortTells, PortAllTold};
ghost use Rattle.mb_fire.specs.State.{port_packets, port_offset, port_partial, port_to_come, port_owed, owed_alone};
ghost use Rattle.mb_fire.specs.State.{IsBehind};

use crate::carry::carry;
use crate::passed::pass_whole;
use crate::under::{Packets, is_of, partial};
use mb_din::DinReader;
use mb_message::Seen;
use std::marker::Model;

/// Reads one port of a FireWire recording that comes in pieces: its stream, and the notes on all packets. What other
/// ports carry is passed over.
#[derive(Drop)]
pub struct FirePortReader {
    port: u8,
    packet: Packets,
    din: DinReader,
}

impl Model for FirePortReader {
    ghost use Rattle.std.specs.Prelude.{◌<◌};
    ghost use Rattle.mb_fire.specs.State.{PortState, IsBehind};

    ghost Value = { PortState };

    ghost view = { λ r. record { port = r.port; packet = r.packet; reader = r.din } };

    ghost invariant = { λ r. IsBehind r.packet r.din };
}

impl FirePortReader {
    /// A reader of a port, 0 to 63. The next byte has offset 0.
    pub fn new(port: u8) -> FirePortReader
        requires { port < 64 }
        ensures port { result.port ≡ port }
        ensures offset { port_offset result ≡ 0 }
        ensures stands { PortStands result [] [] }
    {
        FirePortReader {
            port,
            packet: Packets::new(),
            din: DinReader::new(),
        }
    }

    /// The next mark or note of the bytes that were taken and of the input, which it takes from the front of the
    /// input: of the port, or a note of any packet. What a byte makes known of earlier ones is told while it still
    /// stands in the input, and before anything of it is kept. `None` comes where the input is used up and all of it
    /// is told. A run is lent from the input, and is never empty.
    #[inline(always)]
    pub fn next<'a>(&mut self, input: &mut &'a [u8]) -> Option<Seen<'a>>
        requires early { port_offset self.old + length input.old.now < 2 ^ 63 }
        ensures port { self.new.port ≡ self.old.port }

        // What it takes and answers, whatever was taken and told before.
        ensures tells { PortTells self.old self.new input.old.now input.new.now (answer result) }
        ensures some { OnSome result (answer result ≡ [] → ⊥) }
        ensures all_told { IfNone result (PortAllTold self.old input.old.now) }
        ensures end { port_offset self.new + length input.new.now ≡ port_offset self.old + length input.old.now }
        ensures longest { IfSome result (IsLongest (take (port_to_come self.new) input.new.now)) }
        ensures none { IfNone result (input.new.now ≡ []) }

        // What a status breaks is told of before the status is taken: it still stands in the input, and nothing is
        // begun, running or open on the port.
        ensures before { breaks (answer result) ≡ true → StatusNext input.new.now × Rests self.new.reader }

        // No more marks than the input has bytes: where one byte is handed in, one mark at most comes back.
        ensures few { length (told_signs (answer result)) ≤ length input.old.now }

        // A caller's loop ends by this.
        ensures progress { OnSome result (
            2 * length input.new.now + port_owed self.new < 2 * length input.old.now + port_owed self.old) }
    {
        read_port(self.port, &mut self.packet, &mut self.din, input)
    }

    /// What only the end of the recording makes known: a message that was begun and not finished, or an open SysEx. The
    /// port then stands as a fresh one does: a second call answers `None`.
    pub fn finish(&mut self) -> Option<Seen<'static>>
        ensures port { self.new.port ≡ self.old.port }
        ensures told { (bytes : List ℕ) → PortStands self.old bytes (port_so_far self.old.port bytes) →
            answer result ≡ at_end (last_of (fire_payload self.old.port bytes)) }
        ensures some { OnSome result (answer result ≡ [] → ⊥) }
        ensures when { IsSome result ↔ (free_now self.old.reader ≡ false) }
        ensures as_fresh { self.new.reader ≡ record fresh { offset = self.old.reader.offset } }
        ensures packets { port_packets self.new ≡ port_packets self.old }
    {
        self.din.finish()
    }

    /// Whether the bytes that were taken stop inside a frame.
    pub fn partial(&self) -> bool
        ensures state { result ≡ port_partial self.now }
        ensures law { (bytes : List ℕ) (told : List Known) → PortStands self.now bytes told →
            result ≡ not (fire_whole bytes) }
    {
        partial(self.packet.under)
    }
}

/// The next mark or note.
#[inline(always)]
fn read_port<'a>(
    own: u8,
    packet: &mut Packets,
    din: &mut DinReader,
    input: &mut &'a [u8],
) -> Option<Seen<'a>>
    requires early { packet.old.offset + length input.old.now < 2 ^ 63 }
    requires behind { IsBehind packet.old din.old }
    ensures tells { Tells bare_told (port_so_far own)
        (PortHolds own packet.old din.old) (PortHolds own packet.new din.new)
        input.old.now input.new.now (answer result) }
    ensures some { OnSome result (answer result ≡ [] → ⊥) }
    ensures all_told { IfNone result (AllTold (port_so_far own) (PortHolds own packet.old din.old) input.old.now) }
    ensures behind { IsBehind packet.new din.new }
    ensures end { packet.new.offset + length input.new.now ≡ packet.old.offset + length input.old.now }
    ensures longest { IfSome result (IsLongest (take (left_of packet.new.under) input.new.now)) }
    ensures before { breaks (answer result) ≡ true → StatusNext input.new.now × Rests din.new }
    ensures few { length (told_signs (answer result)) ≤ length input.old.now }
    ensures none { IfNone result (input.new.now ≡ []) }
    ensures progress { OnSome result (
        2 * length input.new.now + owed_alone own packet.new din.new <
        2 * length input.old.now + owed_alone own packet.old din.old) }
{
    'bytes: loop {
        if let Some(note) = packet.take_due() {
            return Some(Seen::Note(note));
        }
        if let Some(left) = pass_whole(own, packet, *input) {
            *input = left;
            continue 'bytes;
        }
        let Some((byte, rest)) = input.split_first() else {
            return None;
        };
        if is_of(packet.under, own) {
            if let Some(seen) = carry(packet, din, input) {
                return Some(seen);
            }
        } else {
            packet.pass(*byte);
            *input = rest;
        }
    }
}
