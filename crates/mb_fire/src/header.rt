//! A packet's header, byte by byte (IEC 61883-1, "CIP header"), and what is remarked of it.

ghost use Rattle.std.specs.Prelude.{◌≡◌, ◌==◌, ◌<◌, false};
ghost use Rattle.mb_fire.specs.Packets.{has_blocks, block_count};
ghost use Rattle.mb_fire.specs.Under.{header_in, passed, behind_length, header_after, behind_header, expected_behind};
ghost use Rattle.mb_fire.specs.Under.{due_by, notes_at_header};

use crate::due::Due;
use crate::place::{BegunHeader, BlockPlace, Place};
use mb_message::{Note, NoteKind};

/// FDF of a packet without data.
const NO_DATA: u8 = 0xff;

/// The place before so many bytes that are passed over.
pub fn before_passed(count: u16) -> Place
    ensures { result ≡ passed count }
{
    if count == 0 {
        Place::Between
    } else {
        Place::Passing(count - 1)
    }
}

/// The place behind a length: a header has eight bytes.
pub fn behind_length(len: u16) -> Place
    ensures { result ≡ behind_length len }
{
    if len < 8 {
        return before_passed(len);
    }
    Place::Heading(BegunHeader {
        len,
        taken: 0,
        sid: 0,
        dbs: 0,
        dbc: 0,
        fmt: 0,
        fdf: 0,
    })
}

/// A header with one byte more, which isn't its last.
pub fn with_byte(header: BegunHeader, byte: u8) -> BegunHeader
    requires { header.taken < 7 }
    ensures { result ≡ header_after header byte }
{
    let mut next = header;
    match header.taken {
        0 => next.sid = byte,
        1 => next.dbs = byte,
        3 => next.dbc = byte,
        4 => next.fmt = byte,
        5 => next.fdf = byte,
        _ => (),
    }
    next.taken = header.taken + 1;
    next
}

/// Whether the blocks of the packet are read.
fn has_blocks(header: BegunHeader) -> bool
    ensures { result ≡ has_blocks (header_in header) }
{
    header.sid < 0x40 && header.fmt == 0x90 && header.fdf != NO_DATA && header.dbs != 0
}

/// How many whole blocks the packet has.
fn block_count(header: BegunHeader) -> u16
    requires { (header.dbs == 0) ≡ false }
    ensures { result ≡ block_count header.len (header_in header) }
{
    header.len.saturating_sub(8) / (4 * u16::from(header.dbs))
}

/// The place behind a header's last byte.
pub fn behind_header(header: BegunHeader) -> Place
    ensures { result ≡ behind_header header }
{
    let behind = header.len.saturating_sub(8);
    if !has_blocks(header) {
        return before_passed(behind);
    }
    let blocks = block_count(header);
    let ragged = behind % (4 * u16::from(header.dbs));
    if blocks == 0 {
        return before_passed(ragged);
    }
    Place::Within(BlockPlace {
        dbs: header.dbs,
        count: header.dbc,
        blocks: blocks - 1,
        ragged,
        quadlets: header.dbs - 1,
        midi: 0,
        left: 0,
        skip: 0,
    })
}

/// The data block count that the next packet is to have, behind a header's last byte.
pub fn expected_behind(expected: Option<u8>, header: BegunHeader) -> Option<u8>
    ensures { result ≡ expected_behind expected header }
{
    if !has_blocks(header) {
        return expected;
    }
    Some(header.dbc.wrapping_add((block_count(header) % 256) as u8))
}

/// The notes on a packet, known at its header's last byte.
pub fn due_at_header(expected: Option<u8>, header: BegunHeader, offset: u64) -> Due
    ensures { result ≡ due_by (notes_at_header expected header offset) }
{
    let note = |kind| Note {
        kind,
        at: offset.saturating_sub(9),
    };
    if !(header.sid < 0x40 && header.fmt == 0x90) {
        return Due::One(note(NoteKind::BadCip));
    }
    if header.fdf == NO_DATA {
        return Due::Nothing;
    }
    if header.dbs == 0 {
        return Due::One(note(NoteKind::ZeroDbs));
    }
    let is_ragged = header.len.saturating_sub(8) % (4 * u16::from(header.dbs)) != 0;
    let is_gap = expected.is_some_and(|count| count != header.dbc);
    match (is_ragged, is_gap) {
        (false, false) => Due::Nothing,
        (true, false) => Due::One(note(NoteKind::Ragged)),
        (false, true) => Due::One(note(NoteKind::DbcGap)),
        (true, true) => Due::Two(note(NoteKind::Ragged), note(NoteKind::DbcGap)),
    }
}
