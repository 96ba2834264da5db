//! What single bytes of a packet mean.

ghost use Rattle.std.specs.Prelude.{◌≡◌, true, false, ℕ, List, [], ◌∷◌, ◌<◌, ◌≤◌, length, nat_lt, take, drop};
ghost use Rattle.mb_din.specs.Reader.{is_all_data};
ghost use Rattle.mb_din.specs.Turn.{data_front};
ghost use Rattle.mb_stream.specs.ReaderLaw.{NoDataNext, answer};
ghost use Rattle.mb_ble.specs.Content.{is_common, running_then};

use mb_message::{Ev, Seen};

/// The channel status that runs in the packet behind a byte.
#[inline(always)]
pub(crate) fn running_then(before: Option<u8>, byte: u8) -> Option<u8>
    ensures { result ≡ running_then byte before }
{
    match byte {
        0x80..=0xef => Some(byte),
        0xf0 | 0xf4 | 0xf5 | 0xf7 => None,
        _ => before,
    }
}

/// Whether a System Common message was seen.
#[tactic(auto, using(crate::proofs::Hands::run_common))]
#[inline(always)]
pub(crate) fn is_common(seen: Option<Seen>) -> bool
    ensures { result ≡ is_common (answer seen.entry) }
{
    match seen {
        None | Some(Seen::Note(_)) => false,
        Some(Seen::Ev(ev)) => match ev {
            Ev::Short(short) => short.status() >= 0xf0,
            Ev::Rt(_) => false,
            Ev::Open => false,
            Ev::Run(_) => false,
            Ev::End => false,
            Ev::Abort => false,
        },
    }
}

/// How many data bytes stand at the front.
#[inline(always)]
pub(crate) fn run_len(bytes: &[u8]) -> usize
    ensures front { take result bytes.now ≡ data_front bytes.now }
    ensures longest { data_front (drop result bytes.now) ≡ [] }
    ensures bound { result ≤ length bytes.now }
{
    let mut len = 0;
    while len < bytes.len() && bytes[len] < 0x80 {
        len += 1;
    }
    len
}

/// Whether a data byte comes first.
#[inline(always)]
pub(crate) fn is_low(piece: &[u8]) -> bool
    requires { 0 < length piece.now }
    ensures { (b : ℕ) (bs : List ℕ) → piece.now ≡ b ∷ bs → nat_lt b 128 ≡ result }
{
    piece[0] < 0x80
}

/// Whether a data byte comes next.
#[inline(always)]
pub(crate) fn is_data_next(left: &[u8]) -> bool
    ensures { result ≡ false → NoDataNext left.now }
{
    match left {
        [next, ..] => *next < 0x80,
        [] => false,
    }
}

/// How many data bytes stand at the front, where one does: two at most.
#[inline(always)]
pub(crate) fn pair_len(bytes: &[u8]) -> usize
    requires some { 0 < length bytes.now }
    requires low { (b : ℕ) (bs : List ℕ) → bytes.now ≡ b ∷ bs → nat_lt b 128 ≡ true }
    ensures some { 0 < result }
    ensures bound { result ≤ length bytes.now }
    ensures data { is_all_data (take result bytes.now) ≡ true }
{
    match bytes {
        [_, second, ..] if *second < 0x80 => 2,
        _ => 1,
    }
}
