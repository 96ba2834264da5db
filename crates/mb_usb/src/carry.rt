//! Bytes that a packet carries, handed to their cable's reader.

ghost use Rattle.std.specs.Prelude.{◌≡◌, ◌+◌, ◌*◌, ◌<◌, ◌≤◌, ◌^◌, ◌≢◌, true, None, [], ℕ, List, length, take, drop};
ghost use Rattle.std.specs.Prelude.{OnSome, IfSome, IfNone};
ghost use Rattle.mb_stream.specs.Reading.{told_signs};
ghost use Rattle.mb_stream.specs.ReaderLaw.{answer, IsLongest, breaks, StatusNext};
ghost use Rattle.mb_din.specs.State.{owed, Rests};
ghost use Rattle.mb_usb.specs.Under.{left_of, is_rested};
ghost use Rattle.mb_usb.specs.Hands.{Hands};

use crate::under::{Packets, left};
use mb_din::DinReader;
use mb_message::Seen;

/// Hands the bytes that the packet under way carries, and that stand in the input, to their cable's reader, which takes
/// a front of them.
#[inline(always)]
pub fn carry<'a>(
    packet: &mut Packets,
    din: &mut DinReader,
    input: &mut &'a [u8],
) -> Option<Seen<'a>>
    requires early { packet.old.offset + length input.old.now < 2 ^ 63 }
    requires behind { din.old.offset ≤ packet.old.offset }
    ensures hands { Hands packet.old packet.new din.old din.new input.old.now input.new.now (answer result) }
    ensures some { OnSome result (answer result ≡ [] → ⊥) }
    ensures longest { IfSome result (IsLongest (take (left_of packet.new.under) input.new.now)) }
    ensures before { breaks (answer result) ≡ true → StatusNext input.new.now × Rests din.new }
    ensures few { length (told_signs (answer result)) ≤ length input.old.now }
    ensures none { IfNone result (input.new.now ≡ drop (left_of packet.old.under) input.old.now) }
    ensures end { packet.new.offset + length input.new.now ≡ packet.old.offset + length input.old.now }
    ensures at { din.new.offset ≡ packet.new.offset }
    ensures progress { OnSome result (2 * length input.new.now + owed din.new <
        2 * length input.old.now + owed din.old) }
{
    let whole = *input;
    let (piece, _after) = whole.split_at(whole.len().min(left(packet.under) as usize));
    let mut rest = piece;
    din.place(packet.offset);
    let seen = din.next(&mut rest);
    let (taken, behind) = whole.split_at(piece.len() - rest.len());
    packet.pass_all(taken);
    *input = behind;
    seen
}
