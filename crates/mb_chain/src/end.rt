//! The end of the input on its way through a row of hops.

ghost use Rattle.std.specs.Prelude.{◌≡◌, ℕ, List, [], ◌++◌, map, length, OnOk, OnErr};
ghost use Rattle.mb_outside.specs.Cause.{HasCause};
ghost use Rattle.mb_chain.specs.Row.{link_of, RowStands, EndsEarly, RowDone, RowEnded, RowEndHalted, LastPut};
ghost use Rattle.mb_carrier.specs.Carrier.{last_byte_moment};
ghost use Rattle.mb_carrier.specs.Hop.{HopStands};
ghost use Rattle.mb_carrier.specs.Port.{reader_spec, ReaderStands, writer_spec, WriterStands};

use crate::flow::flow;
use crate::hop::Hop;
use mb_carrier::{EventReader, PortReader, PortWriter};
use mb_message::{Buf, Seen};
use mb_outside::{Out, Refused};

/// Ends each hop in its order, and hands on what that adds.
pub(crate) fn end<K: Out>(hops: &mut [Hop], out: &mut K) -> Result<(), Refused>
    requires ready { K.ready out.old }
    requires stands { (moments : ℕ → ℕ) × (before : List ℕ) × RowStands hops.old moments before ×
        EndsEarly (map link_of hops.old) moments before }
    ensures links { map link_of hops.new ≡ map link_of hops.old }
    ensures ready { K.ready out.new }
    ensures cause { HasCause (K.refusals out.old) (K.refusals out.new) result }
    ensures sound { OnOk result (K.refusals out.new ≡ K.refusals out.old) }
    ensures ended { OnOk result (RowEnded (map link_of hops.old) (RowStands hops.old) (RowDone hops.new)
        (λ given. K.took out.old given out.new)) }
    ensures halted { OnErr result (RowEndHalted (map link_of hops.old) (RowStands hops.old)
        (λ given. K.took out.old given out.new)) }
{
    let Some((hop, behind)) = hops.split_first_mut() else {
        return Ok(());
    };
    let mut last = Buf::new();
    let at = put_last(&mut hop.reader, &mut hop.writer, hop.last, &mut last);
    hop.wrote += last.len() as u64;
    if let Err(refused) = flow(behind, at, last.as_slice(), out) {
        return Err(refused);
    }
    let mut rest = Buf::new();
    let room = hop.writer.room();
    prove!(room <= rest.capacity());
    hop.writer.finish(&mut rest);
    hop.wrote += rest.len() as u64;
    if let Err(refused) = flow(behind, at, rest.as_slice(), out) {
        return Err(refused);
    }
    end(behind, out)
}

/// Writes what only the end of its recording makes known to a reader, whose last byte had this moment, and answers the
/// end's.
fn put_last(reader: &mut PortReader, writer: &mut PortWriter, moment: u64, held: &mut Buf) -> u64
    requires empty { held.old.items ≡ [] }
    requires stands { (moments : ℕ → ℕ) × (bytes : List ℕ) ×
        HopStands (reader_spec reader.old) moments (ReaderStands reader.old) (WriterStands writer.old) bytes ×
        (last_byte_moment moments (length bytes) ≡ moment) }
    ensures reads { reader_spec reader.new ≡ reader_spec reader.old }
    ensures writes { writer_spec writer.new ≡ writer_spec writer.old }
    ensures put { (moments : ℕ → ℕ) (bytes : List ℕ) →
        HopStands (reader_spec reader.old) moments (ReaderStands reader.old) (WriterStands writer.old) bytes →
        last_byte_moment moments (length bytes) ≡ moment →
        LastPut (reader_spec reader.old) (writer_spec writer.old) (ReaderStands reader.old)
        (WriterStands writer.old) (WriterStands writer.new) moment result held.new.items moments bytes }
{
    let room = writer.room();
    prove!(room <= held.capacity());
    match EventReader::finish(reader) {
        Some(Seen::Ev(ev)) => {
            let at = EventReader::moment(reader, moment);
            writer.put(at, ev, held);
            at
        }
        Some(Seen::Note(_)) => EventReader::moment(reader, moment),
        None => EventReader::moment(reader, moment),
    }
}
