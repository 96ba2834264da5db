//! What a reader of packets tells.

ghost use Rattle.std.specs.Prelude.{◌≡◌, [], map, OnSome, IfSome, IsSome, ◌↔◌};
ghost use Rattle.mb_stream.specs.Reading.{part_at};
ghost use Rattle.mb_stream.specs.ReaderLaw.{answer};
ghost use Rattle.mb_ble.specs.Stands.{ble_answer, seen_of};

use mb_message::Seen;

/// A mark or a note with its moment, in milliseconds from the recording's start: that of the last stamp.
#[derive(Clone, Copy, Debug)]
pub struct BleStep<'a> {
    pub moment: u64,
    pub seen: Seen<'a>,
}

/// What was seen, at a moment.
#[inline(always)]
pub(crate) fn step_of<'a>(moment: u64, seen: Option<Seen<'a>>) -> Option<BleStep<'a>>
    ensures told { ble_answer result ≡ map (part_at moment) (answer seen.entry) }
    ensures same { IsSome result ↔ IsSome seen.entry }
    ensures seen { seen_of result ≡ seen.entry }
    ensures at { IfSome result (λ s. s.moment ≡ moment) }
{
    match seen {
        Some(seen) => Some(BleStep { moment, seen }),
        None => None,
    }
}
