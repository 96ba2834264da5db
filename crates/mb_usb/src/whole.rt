//! Packets that stand whole in the input, taken or passed over in one go: nearly all do, and byte by byte each costs
//! more than twice the time.

ghost use Rattle.std.specs.Prelude.{◌≡◌, ◌≢◌, ◌↔◌, ◌+◌, ◌/◌, ◌%◌, ◌<◌, ◌≤◌, ◌^◌, not, ◌&&◌, ◌==◌, nat_lt, true, false};
ghost use Rattle.std.specs.Prelude.{None, [], ◌∷◌, ℕ, length, OnSome, IsSome, IfNone};
ghost use Rattle.mb_stream.specs.ReaderLaw.{answer, breaks};
ghost use Rattle.std.specs.Bool.{OnTrue};
ghost use Rattle.mb_usb.specs.Under.{is_of_cable};
ghost use Rattle.mb_usb.specs.Whole.{WholeBytes, WholePacket, PassedOver, is_between, is_at_once, is_packet_at_once};

use crate::under::{Packets, Under};
use mb_din::DinReader;
use mb_message::Seen;

/// Takes a packet of the cable that stands whole at the front of the input, and holds a channel message, a real-time
/// message or three data bytes of an open SysEx: what its bytes tell. `None`, and nothing is taken, where a packet is
/// under way or anything else stands there: such bytes are taken one after the other.
#[inline(always)]
pub fn take_packet<'a>(
    own: u8,
    packet: &mut Packets,
    din: &mut DinReader,
    input: &mut &'a [u8],
) -> Option<Seen<'a>>
    requires rested { packet.old.due ≡ None }
    requires early { packet.old.offset + length input.old.now < 2 ^ 63 }
    requires behind { din.old.offset ≤ packet.old.offset }
    ensures whole { OnSome result
        (WholePacket own packet.old packet.new din.old din.new input.old.now input.new.now (answer result)) }
    ensures when { IsSome result ↔ (is_packet_at_once own packet.old din.old input.old.now ≡ true) }
    ensures some { OnSome result (answer result ≡ [] → ⊥) }
    ensures unbroken { breaks (answer result) ≡ false }
    ensures packet { IfNone result (packet.new ≡ packet.old) }
    ensures reader { IfNone result (din.new ≡ din.old) }
    ensures input { IfNone result (input.new.now ≡ input.old.now) }
{
    let Under::Between = packet.under else {
        return None;
    };
    let (head, after) = input.split_first()?;
    if *head / 16 != own || after.len() < 3 {
        return None;
    }
    let (bytes, rest) = after.split_at(3);
    let seen = take_bytes(*head % 16, packet.offset + 1, bytes, din)?;
    packet.offset += 4;
    *input = rest;
    Some(seen)
}

/// Hands those of a packet's three bytes that its code index number uses to the cable's reader, the first of them at
/// this offset.
#[inline(always)]
fn take_bytes<'a>(number: u8, at: u64, bytes: &'a [u8], din: &mut DinReader) -> Option<Seen<'a>>
    requires three { length bytes.now ≡ 3 }
    requires place { din.old.offset ≤ at }
    requires early { at + 3 < 2 ^ 63 }
    ensures whole { OnSome result (WholeBytes number bytes.now at din.old din.new (answer result)) }
    ensures when { IsSome result ↔ (is_at_once number din.old bytes.now ≡ true) }
    ensures some { OnSome result (answer result ≡ [] → ⊥) }
    ensures unbroken { breaks (answer result) ≡ false }
    ensures reader { IfNone result (din.new ≡ din.old) }
{
    let [first, second, third] = bytes else {
        return None;
    };
    if number == 15 {
        if *first < 0xf8 {
            return None;
        }
        return Some(din.read_realtime(at, *first));
    }
    if number >= 8 {
        if number != *first / 16 {
            return None;
        }
        if number == 12 || number == 13 {
            return din.read_two(at, *first, *second);
        }
        return din.read_three(at, *first, *second, *third);
    }
    if number == 4 {
        return din.read_run(at, bytes);
    }
    None
}

/// Passes over a byte that isn't the cable's, or over all of a packet of another cable where it stands whole in the
/// input. What is left is answered. A packet with a reserved number isn't passed whole, since its note is told before
/// its second byte is taken. Out of line: a reader of one cable alone seldom comes here, and its own packets are read
/// faster so.
#[inline(never)]
pub fn pass_over<'a>(own: u8, packet: &mut Packets, byte: u8, rest: &'a [u8]) -> &'a [u8]
    requires rested { packet.old.due ≡ None }
    requires early { packet.old.offset + length rest.now + 1 < 2 ^ 63 }
    requires other { is_of_cable own packet.old.under ≡ false }
    ensures passed { PassedOver own packet.old packet.new (byte ∷ rest.now) result.now }
    ensures fewer { length result.now ≤ length rest.now }
{
    if is_others(own, packet.under, byte) {
        if let [first, second, third, left @ ..] = rest {
            packet.pass_whole(byte, *first, *second, *third);
            return left;
        }
    }
    packet.pass(byte);
    rest
}

/// Whether a packet of another cable begins with this byte, and nothing is remarked of it there.
#[inline(always)]
fn is_others(own: u8, under: Under, head: u8) -> bool
    ensures when { result ≡ (is_between under && not (head / 16 == own) && nat_lt 1 (head % 16)) }
    ensures between { OnTrue result (under ≡ Under.Between) }
    ensures other { OnTrue result (head / 16 ≢ own) }
    ensures carries { OnTrue result (1 < head % 16) }
{
    match under {
        Under::Between => head / 16 != own && head % 16 > 1,
        _ => false,
    }
}
