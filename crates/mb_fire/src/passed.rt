//! Bytes that stand in the input and carry nothing on the port, passed over many at once: a header, the rest of a
//! quadlet, whole quadlets, and the label of one that carries something. Nearly all bytes of a recording are such
//! ones.

ghost use Rattle.std.specs.Prelude.{◌≡◌, ℕ, ◌+◌, ◌<◌, ◌≤◌, ◌^◌, length, IfSome, IfNone};
ghost use Rattle.mb_fire.specs.Passed.{PassedOver};

use crate::blocks::{behind_label, behind_quiet, is_passed};
use crate::due::Due;
use crate::place::{BegunHeader, Place};
use crate::under::{Packets, is_of};

/// Passes over what stands at the front of the input, up to a byte that is the port's or of which something is
/// remarked. What is left is answered. `None`, and nothing is passed over, where no such bytes stand there: then one
/// byte is taken by itself.
#[inline(always)]
pub fn pass_whole<'a>(own: u8, packet: &mut Packets, input: &'a [u8]) -> Option<&'a [u8]>
    requires early { packet.old.offset + length input.now < 2 ^ 63 }
    ensures passed { IfSome result (λ left. PassedOver own packet.old packet.new input.now left.now) }
    ensures fewer { IfSome result (λ left. length left.now < length input.now) }
    ensures same { IfNone result (packet.new ≡ packet.old) }
{
    if is_of(packet.under, own) {
        return None;
    }
    let blocks = pass_header(packet, input);
    let quadlets = pass_rest(packet, blocks);
    let last = pass_quiet(own, packet, quadlets);
    let label = pass_quadlet(own, packet, last);
    let left = pass_label(packet, label);
    if left.len() < input.len() {
        Some(left)
    } else {
        None
    }
}

/// Passes over a length and the whole header behind it, where no packet is under way.
#[inline(always)]
fn pass_header<'a>(packet: &mut Packets, input: &'a [u8]) -> &'a [u8]
    requires early { packet.old.offset + length input.now < 2 ^ 63 }
    ensures passed { (port : ℕ) → PassedOver port packet.old packet.new input.now result.now }
    ensures end { packet.new.offset + length result.now ≡ packet.old.offset + length input.now }
{
    let (Due::Nothing, Place::Between) = (packet.due, packet.under.place) else {
        return input;
    };
    let [high, low, sid, dbs, _, dbc, fmt, fdf, _, _, left @ ..] = input else {
        return input;
    };
    let len = 256 * u16::from(*high) + u16::from(*low);
    if len < 8 {
        return input;
    }
    packet.pass_header(BegunHeader {
        len,
        taken: 7,
        sid: *sid,
        dbs: *dbs,
        dbc: *dbc,
        fmt: *fmt,
        fdf: *fdf,
    });
    left
}

/// Passes over the rest of a quadlet of which no byte is a port's.
#[inline(always)]
fn pass_rest<'a>(packet: &mut Packets, input: &'a [u8]) -> &'a [u8]
    requires early { packet.old.offset + length input.now < 2 ^ 63 }
    ensures passed { (port : ℕ) → PassedOver port packet.old packet.new input.now result.now }
    ensures end { packet.new.offset + length result.now ≡ packet.old.offset + length input.now }
{
    let (Due::Nothing, Place::Within(place)) = (packet.due, packet.under.place) else {
        return input;
    };
    let rest = usize::from(place.skip);
    if place.left != 0 || rest == 0 || input.len() < rest {
        return input;
    }
    let (_bytes, left) = input.split_at(rest);
    packet.pass_rest(place);
    left
}

/// Passes over quadlets that carry nothing on the port, as long as blocks go on behind them and nothing is remarked
/// of any.
#[inline(always)]
fn pass_quiet<'a>(own: u8, packet: &mut Packets, input: &'a [u8]) -> &'a [u8]
    requires early { packet.old.offset + length input.now < 2 ^ 63 }
    ensures passed { PassedOver own packet.old packet.new input.now result.now }
    ensures end { packet.new.offset + length result.now ≡ packet.old.offset + length input.now }
{
    let (Due::Nothing, Place::Within(first)) = (packet.due, packet.under.place) else {
        return input;
    };
    let mut place = first;
    let mut left = input;
    'quadlets: while let [label, _, _, _, behind @ ..] = left {
        let Some(next) = behind_quiet(own, place, *label) else {
            break 'quadlets;
        };
        place = next;
        left = behind;
    }
    packet.offset += (input.len() - left.len()) as u64;
    packet.under.place = Place::Within(place);
    left
}

/// Passes over a quadlet that carries nothing on the port, whatever comes behind it.
#[inline(always)]
fn pass_quadlet<'a>(own: u8, packet: &mut Packets, input: &'a [u8]) -> &'a [u8]
    requires early { packet.old.offset + length input.now < 2 ^ 63 }
    ensures passed { PassedOver own packet.old packet.new input.now result.now }
    ensures end { packet.new.offset + length result.now ≡ packet.old.offset + length input.now }
{
    let (Due::Nothing, Place::Within(place)) = (packet.due, packet.under.place) else {
        return input;
    };
    let [label, _, _, _, left @ ..] = input else {
        return input;
    };
    if !is_passed(own, place, *label) {
        return input;
    }
    packet.pass_quadlet(place, *label);
    left
}

/// Passes over the label of a quadlet.
#[inline(always)]
fn pass_label<'a>(packet: &mut Packets, input: &'a [u8]) -> &'a [u8]
    requires early { packet.old.offset + length input.now < 2 ^ 63 }
    ensures passed { (port : ℕ) → PassedOver port packet.old packet.new input.now result.now }
    ensures end { packet.new.offset + length result.now ≡ packet.old.offset + length input.now }
{
    let (Due::Nothing, Place::Within(place)) = (packet.due, packet.under.place) else {
        return input;
    };
    let [label, left @ ..] = input else {
        return input;
    };
    if place.left != 0 || place.skip != 0 {
        return input;
    }
    packet.pass_label(place, *label);
    left
}
