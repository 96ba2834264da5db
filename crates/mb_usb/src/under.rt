//! The packet under way (USB-MIDI 1.0, section 4 and table 4-1).

ghost use Rattle.std.specs.Prelude.{◌≡◌, ◌+◌, ◌/◌, ◌^◌, ◌<◌, ◌≤◌, length, List, [], ◌∷◌};
ghost use Rattle.mb_usb.specs.Reading.{used, suits_cin};
ghost use Rattle.mb_usb.specs.Under.{packet_after, packet_behind, under_after, left_of, note_at, head_of, is_of_cable};
ghost use Rattle.mb_usb.specs.Under.{taken_of};

use mb_message::{Note, NoteKind};

/// What was taken of the packet under way.
#[derive(Clone, Copy, Debug, PartialEq, Eq)]
pub enum Under {
    /// Nothing: the next byte begins a packet.
    Between,
    /// Its first byte.
    One(u8),
    /// Its first two bytes.
    Two(u8, u8),
    /// All but its last byte.
    Three(u8, u8, u8),
}

/// The offset of the next byte, the packet under way, and a note of a packet that is to be told.
#[derive(Debug, Drop)]
pub struct Packets {
    pub offset: u64,
    pub under: Under,
    pub due: Option<Note>,
}

impl Packets {
    /// Before any byte.
    pub fn new() -> Packets
        ensures { result ≡ record { offset = 0; under = Under.Between; due = None } }
    {
        Packets {
            offset: 0,
            under: Under::Between,
            due: None,
        }
    }

    /// The note that is to be told, if one is.
    #[inline(always)]
    pub fn take_due(&mut self) -> Option<Note>
        ensures due { result ≡ self.old.due }
        ensures told { self.new ≡ record self.old { due = None } }
    {
        let due = self.due;
        self.due = None;
        due
    }

    /// One byte was taken.
    #[inline(always)]
    pub fn pass(&mut self, byte: u8)
        requires early { self.old.offset < 2 ^ 63 }
        ensures { self.new ≡ packet_after self.old byte }
    {
        self.due = note(self.under, byte, self.offset);
        self.under = after(self.under, byte);
        self.offset += 1;
    }

    /// A packet was taken whole, of which nothing was taken before.
    #[inline(always)]
    pub fn pass_whole(&mut self, head: u8, first: u8, second: u8, third: u8)
        requires between { self.old.under ≡ Under.Between }
        requires early { self.old.offset + 4 ≤ 2 ^ 63 }
        ensures { self.new ≡ packet_behind self.old (head ∷ first ∷ second ∷ third ∷ []) }
    {
        self.due = note(Under::Three(head, first, second), third, self.offset + 3);
        self.offset += 4;
    }

    /// These bytes were taken.
    #[inline(always)]
    pub fn pass_all(&mut self, bytes: &[u8])
        requires early { self.old.offset + length bytes.now < 2 ^ 63 }
        ensures { self.new ≡ packet_behind self.old bytes.now }
    {
        let mut rest = bytes;
        'bytes: while let Some((byte, tail)) = rest.split_first() {
            self.pass(*byte);
            rest = tail;
        }
    }
}

/// How many bytes of the packet under way are still to come that its cable carries.
#[inline(always)]
pub fn left(under: Under) -> u8
    ensures left { result ≡ left_of under }
    ensures few { result ≤ 3 }
{
    match under {
        Under::Between => 0,
        Under::One(head) => used(head % 16),
        Under::Two(head, _) => used(head % 16).saturating_sub(1),
        Under::Three(head, _, _) => used(head % 16).saturating_sub(2),
    }
}

/// The cable of the packet under way.
#[inline(always)]
pub fn cable(under: Under) -> u8
    ensures cable { result ≡ head_of under / 16 }
    ensures below { result < 16 }
{
    match under {
        Under::Between => 0,
        Under::One(head) | Under::Two(head, _) | Under::Three(head, _, _) => head / 16,
    }
}

/// Whether the next byte is one that the packet under way carries on a cable.
#[inline(always)]
pub fn is_of(under: Under, own: u8) -> bool
    ensures { result ≡ is_of_cable own under }
{
    cable(under) == own && left(under) != 0
}

/// How many bytes of the packet under way were taken.
pub fn taken(under: Under) -> u8
    ensures { result ≡ taken_of under }
{
    match under {
        Under::Between => 0,
        Under::One(_) => 1,
        Under::Two(_, _) => 2,
        Under::Three(_, _, _) => 3,
    }
}

/// The packet under way with one byte more.
#[inline(always)]
fn after(under: Under, byte: u8) -> Under
    ensures { result ≡ under_after under byte }
{
    match under {
        Under::Between => Under::One(byte),
        Under::One(head) => Under::Two(head, byte),
        Under::Two(head, first) => Under::Three(head, first, byte),
        Under::Three(_, _, _) => Under::Between,
    }
}

/// The note on a packet that a byte of it makes known.
#[inline(always)]
fn note(under: Under, byte: u8, offset: u64) -> Option<Note>
    ensures { result ≡ note_at under byte offset }
{
    match under {
        Under::Between if byte % 16 <= 1 => Some(Note {
            kind: NoteKind::ReservedCin,
            at: offset,
        }),
        Under::Three(head, first, second)
            if head % 16 > 1 && !suits(head % 16, first, second, byte) => {
            Some(Note {
                kind: NoteKind::CinMismatch,
                at: offset.saturating_sub(3),
            })
        }
        _ => None,
    }
}

/// How many of the other three bytes a code index number uses.
#[inline(always)]
fn used(number: u8) -> u8
    ensures used { result ≡ used number }
    ensures few { result ≤ 3 }
{
    match number {
        0 | 1 => 0,
        5 | 15 => 1,
        2 | 6 | 12 | 13 => 2,
        _ => 3,
    }
}

/// Whether the bytes of a packet suit its code index number.
#[inline(always)]
fn suits(number: u8, first: u8, second: u8, third: u8) -> bool
    ensures { result ≡ suits_cin number first second third }
{
    match number {
        2 => (first == 0xf1 || first == 0xf3) && second < 0x80,
        3 => first == 0xf2 && second < 0x80 && third < 0x80,
        4 => (first == 0xf0 || first < 0x80) && second < 0x80 && third < 0x80,
        5 => first == 0xf6 || first == 0xf7,
        6 => (first == 0xf0 || first < 0x80) && second == 0xf7,
        7 => (first == 0xf0 || first < 0x80) && second < 0x80 && third == 0xf7,
        15 => true,
        _ => {
            first / 16 == number && second < 0x80 && (number == 12 || number == 13 || third < 0x80)
        }
    }
}
