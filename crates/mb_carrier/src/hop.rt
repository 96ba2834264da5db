//! A hop between any two ports: the carriers are matched once a buffer.

ghost use Rattle.std.specs.Prelude.{◌≡◌, ℕ, ◌+◌, ◌^◌, ◌<◌, ◌≤◌, List, [], length, Some};
ghost use Rattle.mb_stream.specs.Puts.{Put};
ghost use Rattle.mb_carrier.specs.Fill.{OnItsWay, More, unread, work, HasMoment};
ghost use Rattle.mb_carrier.specs.Port.{reader_spec, reader_offset, reader_owed, reader_moment, ReaderStands};
ghost use Rattle.mb_carrier.specs.Port.{writer_spec, WriterStands};

use crate::fill::{fill_own_buffer, fill_pair};
use crate::reader::{PortReader, ReaderOf};
use crate::writer::{PortWriter, WriterOf};
use crate::{EventReader, Piece};
use mb_message::Buf;

/// Reads a piece on and writes what it gives into an empty buffer, until the piece is used up, or the buffer has no
/// room for one more event: then it answers what is left of the piece. Where moments are kept apart, it stops also
/// before an event of another moment, so that all that it writes has the moment that the reader named before.
#[inline(always)]
pub fn fill_hop<'a>(
    reader: &mut PortReader,
    writer: &mut PortWriter,
    apart: bool,
    piece: Piece<'a>,
    held: &mut Buf,
) -> Option<Piece<'a>>
    requires early { reader_offset reader.old + length piece.rest.now ≤ 2 ^ 51 + 2 ^ 14 }
    requires empty { held.old.items ≡ [] }
    requires flows { (moments : ℕ → ℕ) × (bytes : List ℕ) × (puts : List Put) × (base : List ℕ) ×
        OnItsWay (reader_spec reader.old) (writer_spec writer.old) moments (reader_moment reader.old)
        (ReaderStands reader.old)
        (WriterStands writer.old) bytes (Some piece) puts base held.old.items }
    ensures reads { reader_spec reader.new ≡ reader_spec reader.old }
    ensures writes { writer_spec writer.new ≡ writer_spec writer.old }
    ensures offset { reader_offset reader.new + unread result ≡ reader_offset reader.old + length piece.entry.rest.now }
    ensures goes_on { (moments : ℕ → ℕ) (bytes : List ℕ) (puts : List Put) (base : List ℕ) →
        OnItsWay (reader_spec reader.old) (writer_spec writer.old) moments (reader_moment reader.old)
        (ReaderStands reader.old)
        (WriterStands writer.old) bytes (Some piece.entry) puts base held.old.items →
        More apart (reader_moment reader.old piece.entry.moment) puts (λ ps.
        OnItsWay (reader_spec reader.old) (writer_spec writer.old) moments (reader_moment reader.new)
        (ReaderStands reader.new)
        (WriterStands writer.new) bytes result ps base held.new.items) }
    ensures moment { HasMoment piece.entry.moment result }
    ensures progress { work (reader_owed reader.new) result < work (reader_owed reader.old) (Some piece.entry) }
{
    match &mut reader.carrier {
        ReaderOf::Din(reader) => fill_from(reader, writer, apart, piece, held),
        ReaderOf::Usb(reader) => fill_from(reader, writer, apart, piece, held),
        ReaderOf::Fire(reader) => fill_from(reader, writer, apart, piece, held),
        ReaderOf::Ble(reader) => fill_from(reader, writer, apart, piece, held),
    }
}

/// The same, the reader's carrier being known.
#[inline(always)]
fn fill_from<'a, R: EventReader>(
    reader: &mut R,
    writer: &mut PortWriter,
    apart: bool,
    piece: Piece<'a>,
    held: &mut Buf,
) -> Option<Piece<'a>>
    requires early { R.offset reader.old + length piece.rest.now ≤ 2 ^ 51 + 2 ^ 14 }
    requires empty { held.old.items ≡ [] }
    requires flows { (moments : ℕ → ℕ) × (bytes : List ℕ) × (puts : List Put) × (base : List ℕ) ×
        OnItsWay (R.spec reader.old) (writer_spec writer.old) moments (R.moment reader.old) (R.stands reader.old)
        (WriterStands writer.old) bytes (Some piece) puts base held.old.items }
    ensures reads { R.spec reader.new ≡ R.spec reader.old }
    ensures writes { writer_spec writer.new ≡ writer_spec writer.old }
    ensures offset { R.offset reader.new + unread result ≡ R.offset reader.old + length piece.entry.rest.now }
    ensures goes_on { (moments : ℕ → ℕ) (bytes : List ℕ) (puts : List Put) (base : List ℕ) →
        OnItsWay (R.spec reader.old) (writer_spec writer.old) moments (R.moment reader.old) (R.stands reader.old)
        (WriterStands writer.old) bytes (Some piece.entry) puts base held.old.items →
        More apart (R.moment reader.old piece.entry.moment) puts (λ ps.
        OnItsWay (R.spec reader.old) (writer_spec writer.old) moments (R.moment reader.new) (R.stands reader.new)
        (WriterStands writer.new) bytes result ps base held.new.items) }
    ensures moment { HasMoment piece.entry.moment result }
    ensures progress { work (R.owed reader.new) result < work (R.owed reader.old) (Some piece.entry) }
{
    match &mut writer.carrier {
        WriterOf::Din(writer) => fill_pair(reader, writer, apart, piece, held),
        WriterOf::Usb(writer) => fill_own_buffer(reader, writer, apart, piece, held),
        WriterOf::Fire(writer) => fill_pair(reader, writer, apart, piece, held),
        WriterOf::Ble(writer) => fill_pair(reader, writer, apart, piece, held),
    }
}
