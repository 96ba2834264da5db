//! The data blocks of a packet, byte by byte (IEC 61883-6, "AM824 data" and "MIDI conformant data"), and what is
//! remarked of them.

ghost use Rattle.std.specs.Prelude.{◌≡◌, ◌-◌, ◌<◌, ◌≤◌, ◌^◌, IfSome};
ghost use Rattle.mb_fire.specs.Under.{block_after, label_after, one_less, behind_quadlet, behind_block};
ghost use Rattle.mb_fire.specs.Under.{due_by, notes_in_block, notes_behind};
ghost use Rattle.mb_fire.specs.Passed.{carries, is_passed, IsQuiet};

use crate::due::Due;
use crate::header::before_passed;
use crate::place::{BlockPlace, Place};
use mb_message::{Note, NoteKind};

/// The place behind a byte of a block.
pub fn behind_byte(place: BlockPlace, byte: u8) -> Place
    ensures { result ≡ block_after place byte }
{
    match u16::from(place.left) + u16::from(place.skip) {
        0 => Place::Within(behind_label(place, byte)),
        1 => behind_quadlet(place),
        _ => Place::Within(one_less(place)),
    }
}

/// The place behind a label. A MIDI conformant quadlet is labelled 80 to 83, by the number of its bytes.
#[inline(always)]
pub fn behind_label(place: BlockPlace, label: u8) -> BlockPlace
    ensures { result ≡ label_after place label }
{
    let mut next = place;
    if 0x80 <= label && label <= 0x83 && place.midi < 8 {
        next.midi = place.midi + 1;
        next.left = label - 0x80;
        next.skip = 0x83 - label;
    } else {
        next.skip = 3;
    }
    next
}

/// The place behind a byte that is neither a label nor a quadlet's last.
fn one_less(place: BlockPlace) -> BlockPlace
    ensures { result ≡ one_less place }
{
    let mut next = place;
    if place.left == 0 {
        next.skip = place.skip.saturating_sub(1);
    } else {
        next.left = place.left - 1;
    }
    next
}

/// The place behind so many of the bytes to come that a port carries.
#[inline(always)]
pub fn behind_carried(place: BlockPlace, count: usize) -> BlockPlace
    requires { count ≤ place.left }
    ensures { result ≡ record place { left = place.left - count } }
{
    let mut next = place;
    next.left = place.left - count as u8;
    next
}

/// The place behind a quadlet.
#[inline(always)]
pub fn behind_quadlet(place: BlockPlace) -> Place
    ensures { result ≡ behind_quadlet place }
{
    if place.quadlets == 0 {
        return behind_block(place);
    }
    let mut next = place;
    next.quadlets = place.quadlets - 1;
    next.left = 0;
    next.skip = 0;
    Place::Within(next)
}

/// The place behind a block.
#[inline(always)]
fn behind_block(place: BlockPlace) -> Place
    ensures { result ≡ behind_block place }
{
    if place.blocks == 0 {
        return before_passed(place.ragged);
    }
    Place::Within(BlockPlace {
        dbs: place.dbs,
        count: place.count.wrapping_add(1),
        blocks: place.blocks - 1,
        ragged: place.ragged,
        quadlets: place.dbs.saturating_sub(1),
        midi: 0,
        left: 0,
        skip: 0,
    })
}

/// The note on a block, known at its last byte.
pub fn due_in_block(place: BlockPlace, offset: u64) -> Due
    requires early { offset < 2 ^ 63 }
    ensures { result ≡ due_by (notes_in_block place offset) }
{
    if u16::from(place.left) + u16::from(place.skip) == 1 {
        return due_behind(place, offset);
    }
    Due::Nothing
}

/// The same where it is known that the byte is a quadlet's last.
#[inline(always)]
pub fn due_behind(place: BlockPlace, offset: u64) -> Due
    requires early { offset < 2 ^ 63 }
    ensures { result ≡ due_by (notes_behind place offset) }
{
    if place.quadlets == 0 && place.midi == 0 {
        return Due::One(Note {
            kind: NoteKind::NoMidiQuadlet,
            at: (offset + 1).saturating_sub(4 * u64::from(place.dbs)),
        });
    }
    Due::Nothing
}

/// The place behind a quadlet that begins here and with this label carries nothing on a port, where blocks go on
/// behind it and nothing is remarked of it.
#[inline(always)]
pub fn behind_quiet(own: u8, place: BlockPlace, label: u8) -> Option<BlockPlace>
    ensures { IfSome result (IsQuiet own place label) }
{
    if !is_passed(own, place, label) {
        return None;
    }
    let last = behind_label(place, label);
    if last.quadlets == 0 && last.midi == 0 {
        return None;
    }
    match behind_quadlet(last) {
        Place::Within(next) => Some(next),
        _ => None,
    }
}

/// Whether a quadlet begins here, and with this label carries nothing on a port.
#[inline(always)]
pub fn is_passed(own: u8, place: BlockPlace, label: u8) -> bool
    ensures { result ≡ is_passed own place label }
{
    place.left == 0 && place.skip == 0 && !carries(own, place, label)
}

/// Whether a quadlet that begins here carries a byte on a port.
#[inline(always)]
fn carries(own: u8, place: BlockPlace, label: u8) -> bool
    ensures { result ≡ carries own place label }
{
    0x81 <= label && label <= 0x83 && place.midi < 8 && 8 * place.midi + place.count % 8 == own
}
