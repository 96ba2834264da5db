//! Reading a tape's magic and headers.

ghost use Rattle.std.specs.Prelude.{◌≡◌, ◌≤◌, false, length};
ghost use Rattle.mb_frames.specs.Numbers.{number};
ghost use Rattle.mb_frames.specs.Tapes.{fits_magic, header_fault, header_of, header_size, microseconds};
ghost use Rattle.mb_frames.specs.Tapes.{most_milliseconds};

use crate::tape::TapeFault;

/// So many milliseconds are at most as many microseconds as eight bytes hold.
const MOST_MILLISECONDS: u64 = 18_446_744_073_709_551;

/// What a header says.
#[derive(Clone, Copy, Debug, PartialEq, Eq)]
pub(crate) struct Header {
    pub(crate) moment: u64,
    pub(crate) track: u8,
    pub(crate) len: u16,
}

#[inline(always)]
pub(crate) fn fits_magic(at: usize, byte: u8) -> bool
    ensures { result ≡ fits_magic at byte }
{
    match at {
        0 => byte == 0x4d,
        1 => byte == 0x42,
        2 => byte == 0x54,
        _ => byte == 0x31 || byte == 0x32,
    }
}

#[inline(always)]
pub(crate) fn header_size(second: bool) -> usize
    ensures { result ≡ header_size second }
{
    if second { 11 } else { 10 }
}

/// What a whole header says.
pub(crate) fn header_of(second: bool, bytes: &[u8]) -> Header
    requires { length bytes.now ≡ header_size second }
    ensures moment { result.moment ≡ (header_of second bytes.now).moment }
    ensures track { result.track ≡ (header_of second bytes.now).track }
    ensures len { result.len ≡ (header_of second bytes.now).len }
{
    let moment = eight(&bytes[..8]);
    if second {
        Header {
            moment,
            track: bytes[8],
            len: two(&bytes[9..]),
        }
    } else {
        Header {
            moment,
            track: 0,
            len: two(&bytes[8..]),
        }
    }
}

/// A number of eight bytes.
fn eight(bytes: &[u8]) -> u64
    requires { length bytes.now ≡ 8 }
    ensures { result ≡ number bytes.now }
{
    let high = four(&bytes[..4]);
    let low = four(&bytes[4..]);
    0x1_0000_0000 * u64::from(high) + u64::from(low)
}

fn four(bytes: &[u8]) -> u32
    requires { length bytes.now ≡ 4 }
    ensures { result ≡ number bytes.now }
{
    let high = two(&bytes[..2]);
    let low = two(&bytes[2..]);
    0x1_0000 * u32::from(high) + u32::from(low)
}

fn two(bytes: &[u8]) -> u16
    requires { length bytes.now ≡ 2 }
    ensures { result ≡ number bytes.now }
{
    256 * u16::from(bytes[0]) + u16::from(bytes[1])
}

/// What is wrong with a header behind a record of this moment.
pub(crate) fn header_fault(second: bool, last: u64, header: Header) -> Option<TapeFault>
    ensures fault { result ≡
        header_fault second last (record { moment = header.moment; track = header.track; len = header.len }) }
    ensures fits { second ≡ false → result ≡ None → header.moment ≤ most_milliseconds }
{
    if header.moment < last {
        return Some(TapeFault::Back {
            was: last,
            now: header.moment,
        });
    }
    if !second && header.moment > MOST_MILLISECONDS {
        return Some(TapeFault::Far { now: header.moment });
    }
    if header.len == 0 {
        return Some(TapeFault::Zero);
    }
    None
}

/// A moment of a tape in microseconds.
pub(crate) fn microseconds(second: bool, moment: u64) -> u64
    requires { second ≡ false → moment ≤ most_milliseconds }
    ensures { result ≡ microseconds second moment }
{
    if second { moment } else { 1000 * moment }
}
