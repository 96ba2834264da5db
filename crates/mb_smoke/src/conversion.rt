//! Bytes are made, converted and summed, piece by piece.

ghost use Rattle.std.specs.Prelude.{◌≡◌, ℕ, ◌≤◌, List, [], ◌++◌, length};
ghost use Rattle.mb_make.specs.Generated.{generated};
ghost use Rattle.mb_smoke.specs.Selftest.{selftest_text, ToConvert, Converted};
ghost use Rattle.mb_smoke.specs.SumOut.{SumStands, refusals_of};
ghost use Rattle.mb_smoke.specs.declared.sum_out.SumOut.{SumOut};

use crate::lines::{Lines, put_lines};
use crate::sum_out::SumOut;
use mb_carrier::Spec;
use mb_chain::Chain;
use mb_make::Maker;
use std::alloc::Global;

/// How many bytes are made at once.
const PIECE: usize = 512;

/// Makes so many units of a byte line, the generator's first state given, converts them by `din usb:0 ble fw:0 din` and
/// answers the four lines.
pub(crate) fn lines_of(alloc: Global, start: u32, count: u32) -> Lines
    requires { count ≤ 1000000 }
    ensures { result.items ≡ selftest_text start count }
{
    let mut chain = open(alloc);
    let mut out = SumOut::new();
    convert(start, count, &mut chain, &mut out);
    let written = [
        chain.crossed(1),
        chain.crossed(2),
        chain.crossed(3),
        chain.crossed(4),
    ];
    put_lines(chain.crossed(0), written, out.counts(), out.mix())
}

/// The chain through every carrier.
fn open(alloc: Global) -> Chain
    ensures { (out : SumOut) → SumStands out [] → refusals_of out ≡ 0 → ToConvert result out [] }
{
    let specs = [
        Spec::Din,
        Spec::Usb(0),
        Spec::Ble(20),
        Spec::Fire(0),
        Spec::Din,
    ];
    match Chain::open(alloc, &specs) {
        Ok(chain) => chain,
        Err(_) => unreachable!(),
    }
}

/// Feeds all that is made, and the end.
fn convert(start: u32, count: u32, chain: &mut Chain, out: &mut SumOut)
    requires few { count ≤ 1000000 }
    requires fresh { ToConvert chain.old out.old [] }
    ensures { Converted chain.new out.new (generated start count) }
{
    let mut maker = Maker::new(start, count);
    let mut buffer = [0u8; PIECE];
    let mut filled = maker.fill(&mut buffer);
    'pieces: while filled > 0 {
        feed(&buffer[..filled], chain, out);
        filled = maker.fill(&mut buffer);
    }
    end(chain, out);
}

/// A piece goes through the chain. What comes out is far less than its taker refuses.
fn feed(piece: &[u8], chain: &mut Chain, out: &mut SumOut)
    requires { (bytes : List ℕ) × ToConvert chain.old out.old bytes × (length (bytes ++ piece.now) ≤ 66000000) }
    ensures { (bytes : List ℕ) → ToConvert chain.old out.old bytes → length (bytes ++ piece.now) ≤ 66000000 →
        ToConvert chain.new out.new (bytes ++ piece.now) }
{
    match chain.feed(piece, out) {
        Ok(()) => {}
        Err(_) => unreachable!(),
    }
}

/// The end goes through the chain.
fn end(chain: &mut Chain, out: &mut SumOut)
    requires { (bytes : List ℕ) × ToConvert chain.old out.old bytes × (length bytes ≤ 66000000) }
    ensures { (bytes : List ℕ) → ToConvert chain.old out.old bytes → length bytes ≤ 66000000 →
        Converted chain.new out.new bytes }
{
    match chain.finish(out) {
        Ok(()) => out.finish(),
        Err(_) => unreachable!(),
    }
}
