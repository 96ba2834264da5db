//! Which held mark passes next.

ghost use Rattle.std.specs.Prelude.{◌≡◌, ◌<◌, ◌⊎◌, length, IfSome};
ghost use Rattle.mb_merge.specs.Links.{is_owned, owner_of};
ghost use Rattle.mb_merge.specs.Passing.{better, is_realtime_mark, least, may_pass, ready_head};

use crate::source::Source;
use mb_message::Mark;

/// A first held mark that may pass: when it came, and of which source it is.
#[derive(Clone, Copy, Debug, PartialEq, Eq)]
pub struct Head {
    pub arrival: u64,
    pub source: usize,
}

#[inline(always)]
pub fn is_realtime(mark: Mark) -> bool
    ensures { result ≡ is_realtime_mark mark }
{
    match mark {
        Mark::Rt(_) => true,
        Mark::Short(_) | Mark::Open | Mark::Byte(_) | Mark::End | Mark::Abort => false,
    }
}

/// Whether another source owns an out of this one.
fn is_owned(sources: &[Source], source: usize) -> bool
    requires { source < length sources.now }
    ensures { result ≡ is_owned sources.now source }
{
    let this = &sources[source];
    for at in 0..sources.len() {
        if at != source && sources[at].owns(this) {
            return true;
        }
    }
    false
}

/// Whether a mark of a source may pass, whatever else of it is held.
pub fn may_pass(sources: &[Source], source: usize, mark: Mark) -> bool
    requires { source < length sources.now }
    ensures { result ≡ may_pass sources.now source mark }
{
    match mark {
        Mark::Rt(_) => true,
        Mark::Short(_) | Mark::Open => !is_owned(sources, source),
        Mark::Byte(_) | Mark::End | Mark::Abort => sources[source].is_open(),
    }
}

/// The first held mark of a source, if it may pass.
fn ready_head(sources: &[Source], source: usize) -> Option<Head>
    requires { source < length sources.now }
    ensures head { result ≡ ready_head sources.now source }
    ensures source { IfSome result (λ head. head.source ≡ source) }
{
    let held = sources[source].head()?;
    if may_pass(sources, source, held.mark) {
        Some(Head {
            arrival: held.arrival,
            source,
        })
    } else {
        None
    }
}

/// The one that arrived earlier, and of one arrival the first.
fn better(best: Option<Head>, next: Option<Head>) -> Option<Head>
    ensures better { result ≡ better best next }
    ensures one { (result ≡ best) ⊎ (result ≡ next) }
{
    match (best, next) {
        (None, _) => next,
        (Some(_), None) => best,
        (Some(first), Some(second)) => {
            if second.arrival < first.arrival {
                next
            } else {
                best
            }
        }
    }
}

/// Of the first held marks that may pass, the one that arrived first, and of one arrival that of the lowest source.
pub fn least(sources: &[Source]) -> Option<Head>
    ensures least { result ≡ least sources.now }
    ensures source { IfSome result (λ head. head.source < length sources.now) }
{
    let mut best = None;
    for source in 0..sources.len() {
        best = better(best, ready_head(sources, source));
    }
    best
}

/// The source that owns an out.
pub fn owner_of(sources: &[Source], out: u8) -> Option<usize>
    requires { out < 16 }
    ensures owner { result ≡ owner_of sources.now out }
    ensures source { IfSome result (λ source. source < length sources.now) }
{
    sources.iter().position(|source| source.owns_out(out))
}
