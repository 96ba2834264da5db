//! Bytes on their way through a row of hops: what a hop writes is handed to those behind it before it reads on.

ghost use Rattle.std.specs.Prelude.{◌≡◌, ℕ, ◌+◌, ◌^◌, ◌<◌, ◌≤◌, List, [], ◌++◌, map, length, OnOk, OnErr};
ghost use Rattle.mb_outside.specs.Cause.{HasCause};
ghost use Rattle.mb_chain.specs.Row.{link_of, RowStands, IsEarly, HaveOne, RowFed, RowHalted, last_after};

use crate::hop::Hop;
use mb_carrier::{EventReader, Piece, fill_hop};
use mb_message::Buf;
use mb_outside::{Out, Refused};

/// Hands bytes of one moment to the first hop, and what the last one writes of them to the taker. With no hop they are
/// handed to the taker. A buffer between two hops holds bytes of one moment.
pub(crate) fn flow<K: Out>(
    hops: &mut [Hop],
    moment: u64,
    bytes: &[u8],
    out: &mut K,
) -> Result<(), Refused>
    requires ready { K.ready out.old }
    requires stands { (moments : ℕ → ℕ) × (before : List ℕ) × RowStands hops.old moments before ×
        IsEarly (map link_of hops.old) moments (before ++ bytes.now) ×
        HaveOne (map link_of hops.old) moments (length before) (length bytes.now) moment }
    ensures links { map link_of hops.new ≡ map link_of hops.old }
    ensures ready { K.ready out.new }
    ensures cause { HasCause (K.refusals out.old) (K.refusals out.new) result }
    ensures sound { OnOk result (K.refusals out.new ≡ K.refusals out.old) }
    ensures fed { OnOk result (RowFed (map link_of hops.old) (RowStands hops.old)
        (RowStands hops.new) moment bytes.now (λ given. K.took out.old given out.new)) }
    ensures halted { OnErr result (RowHalted (map link_of hops.old) (RowStands hops.old) moment bytes.now
        (λ given. K.took out.old given out.new)) }
{
    let Some((hop, behind)) = hops.split_first_mut() else {
        return out.take(bytes);
    };
    let apart = !behind.is_empty();
    let mut left = Some(Piece::new(moment, bytes));
    'buffers: while let Some(piece) = left {
        let at = hop.reader.moment(piece.moment);
        let mut held = Buf::new();
        left = fill_hop(&mut hop.reader, &mut hop.writer, apart, piece, &mut held);
        hop.wrote += held.len() as u64;
        if let Err(refused) = flow(behind, at, held.as_slice(), out) {
            return Err(refused);
        }
    }
    hop.last = moment_of_last(hop.last, moment, bytes);
    Ok(())
}

/// The moment of the last byte, these bytes of one moment being behind others.
fn moment_of_last(last: u64, moment: u64, bytes: &[u8]) -> u64
    ensures { result ≡ last_after last moment bytes.now }
{
    if bytes.is_empty() { last } else { moment }
}
