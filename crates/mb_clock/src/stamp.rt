//! The stamp of a moment.

ghost use Rattle.std.specs.Prelude.{◌≡◌, ◌+◌, ◌*◌, ◌%◌};
ghost use Rattle.mb_clock.specs.Stamps.{upper_six, lower_seven};

/// The 13 bits of a moment in milliseconds: the upper six for a packet's header, the lower seven for a stamp.
#[inline(always)]
pub fn stamp_of(moment: u64) -> (u8, u8)
    ensures upper { result.0 ≡ upper_six moment }
    ensures lower { result.1 ≡ lower_seven moment }
    ensures bits { 128 * result.0 + result.1 ≡ moment % 8192 }
{
    ((moment / 128 % 64) as u8, (moment % 128) as u8)
}
