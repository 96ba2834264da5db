//! Numbers as they become longer.

ghost use Rattle.std.specs.Prelude.{◌≡◌};
ghost use Rattle.mb_smf.specs.FileStep.{with_byte, with_seven};

/// One byte longer, of four bytes at most.
#[inline(always)]
pub fn with_byte(number: u32, byte: u8) -> u32
    ensures { result ≡ with_byte number byte }
{
    number % 0x100_0000 * 256 + u32::from(byte)
}

/// Seven bits longer, of four times seven at most.
#[inline(always)]
pub fn with_seven(number: u32, byte: u8) -> u32
    ensures { result ≡ with_seven number byte }
{
    number % 0x20_0000 * 128 + u32::from(byte % 128)
}
