//! The router.

ghost use Rattle.std.specs.Prelude.{◌≡◌, ◌↔◌, ◌<◌, ◌≤◌, List, Bool, true, false, None, length, slice_get};
ghost use Rattle.std.specs.Prelude.{slice_index_or, IsErr, IfErr, IfSome, OnErr, OnOk, OnSome, MatchResult};
ghost use Rattle.mb_message.specs.Signs.{sign_of, suits_sign};
ghost use Rattle.mb_merge.specs.Links.{link_of, owner_of};
ghost use Rattle.mb_merge.specs.Passing.{has_room, head_passes, held_passes, least, next_of, offered_in, offered_mark};
ghost use Rattle.mb_merge.specs.Passing.{passes_now, to_pass};
ghost use Rattle.mb_merge.specs.Opening.{Opens, Refuses};

use crate::opening::{RouterFault, first_fault, sources_of};
use crate::source::{Full, Source};
use crate::waiting::{is_realtime, least, may_pass, owner_of};
use mb_message::{Mark, Memory};
use std::alloc::Global;
use std::marker::Model;

/// A mark that passes to all outs of its source, and when it came.
#[derive(Clone, Copy, Debug, PartialEq, Eq)]
pub struct Passed {
    pub source: u8,
    pub arrival: u64,
    pub mark: Mark,
}

/// Decides which mark passes next.
#[derive(Drop)]
pub struct Router {
    sources: Vec<Source>,
    outs: u8,
    /// The mark just offered, where it is to pass.
    offered: Option<Passed>,
    draining: bool,
}

impl Model for Router {
    ghost use Rattle.std.specs.Prelude.{◌≤◌, length};
    ghost use Rattle.mb_merge.specs.Links.{Merger, HasSource};

    ghost Value = { Merger };

    ghost view = { λ r. record { links = r.sources.items; outs = r.outs; offered = r.offered; draining = r.draining } };

    ghost invariant = { λ r. (length r.sources.items ≤ 16) × (r.outs ≤ 16) × HasSource r.sources.items r.offered };
}

impl Router {
    /// A router over the routes, pairs of a source and an out. `Count` where there are not 1 to 16 sources and outs;
    /// then by the first faulty route `Index` where one of its numbers isn't below its count, or `Twice` where it stood
    /// before; then `Memory`.
    pub fn open(
        alloc: Global,
        sources: u8,
        outs: u8,
        routes: &[(u8, u8)],
    ) -> Result<Router, RouterFault>
        ensures { MatchResult result (Opens sources outs routes.now) (Refuses sources outs routes.now) }
    {
        if let Some(fault) = first_fault(sources, outs, routes) {
            return Err(fault);
        }
        match sources_of(alloc, sources, routes) {
            Ok(sources) => Ok(Router {
                sources,
                outs,
                offered: None,
                draining: false,
            }),
            Err(_) => Err(RouterFault::Memory(Memory)),
        }
    }

    /// Whether a mark may be offered: what `suits` says of it behind the marks taken of that source.
    pub fn suits(&self, source: u8, mark: Mark) -> bool
        requires { source < length self.now.links }
        ensures { result ≡ suits_sign (link_of self.now source).in_sysex (sign_of mark) }
    {
        self.sources[source as usize].suits(mark)
    }

    /// Whether a mark passes at once, if it is offered.
    fn passes_now(&self, source: u8, mark: Mark) -> bool
        requires { source < length self.now.links }
        ensures { result ≡ passes_now self.now source mark }
    {
        is_realtime(mark)
            || (self.sources[source as usize].held() == 0
                && may_pass(&self.sources, source as usize, mark))
    }

    /// Takes a mark, to pass now or to be held. `Full` where the mark isn't real-time, may not pass now, and 1,024
    /// marks of this source are held; then nothing changed. Moments are in milliseconds or microseconds, as the caller
    /// likes.
    pub fn offer(&mut self, source: u8, moment: u64, mark: Mark) -> Result<(), Full>
        requires source { source < length self.old.links }
        requires suits { suits_sign (link_of self.old source).in_sysex (sign_of mark) ≡ true }
        requires order { (link_of self.old source).last ≤ moment }
        requires drained { self.old.draining ≡ false }
        ensures ok { OnOk result (self.new ≡ offered_in self.old source moment mark) }
        ensures full { IsErr result ↔ (has_room self.old source mark ≡ false) }
        ensures err { OnErr result (self.new ≡ self.old) }
        ensures held { IfErr result (λ full. full.held ≡ length (link_of self.old source).held) }
        ensures room { IfErr result (λ full. full.held ≡ 1024) }
    {
        let passes = self.passes_now(source, mark);
        self.sources[source as usize].take(passes, moment, mark)?;
        self.offered = offered_mark(passes, source, moment, mark);
        self.draining = true;
        Ok(())
    }

    /// The mark that passes next: first the one just offered, if it may pass; then of the held first marks that may
    /// pass the one that arrived first, and of one arrival that of the lowest source. `None` exactly where none may
    /// pass.
    pub fn next_passed(&mut self) -> Option<Passed>
        ensures passed { result ≡ (next_of self.old).0 }
        ensures state { self.new ≡ (next_of self.old).1 }
        ensures source { IfSome result (λ passed. passed.source < length self.new.links) }
        // A caller's loop ends.
        ensures fewer { OnSome result (to_pass self.new < to_pass self.old) }
    {
        let _outs = self.outs;
        self.next()
    }

    fn next(&mut self) -> Option<Passed>
        ensures passed { result ≡ (next_of self.old).0 }
        ensures state { self.new ≡ (next_of self.old).1 }
        ensures source { IfSome result (λ passed. passed.source < length self.new.links) }
    {
        if let Some(passed) = self.offered {
            self.offered = None;
            self.sources[passed.source as usize].pass(passed.mark);
            return Some(passed);
        }
        self.next_held()
    }

    /// Of the held first marks.
    fn next_held(&mut self) -> Option<Passed>
        requires { self.old.offered ≡ None }
        ensures passed { result ≡ (held_passes self.old (least self.old.links)).0 }
        ensures state { self.new ≡ (held_passes self.old (least self.old.links)).1 }
        ensures source { IfSome result (λ passed. passed.source < length self.new.links) }
    {
        let Some(head) = least(&self.sources) else {
            self.draining = false;
            return None;
        };
        self.pass_head(head.source)
    }

    /// The first held mark of a source passes.
    fn pass_head(&mut self, source: usize) -> Option<Passed>
        requires source { source < length self.old.links }
        ensures passed { result ≡ (head_passes self.old source (slice_get (link_of self.old source).held 0)).0 }
        ensures state { self.new ≡ (head_passes self.old source (slice_get (link_of self.old source).held 0)).1 }
        ensures source { IfSome result (λ passed. passed.source < length self.new.links) }
    {
        match self.sources[source].pass_head() {
            None => {
                self.draining = false;
                None
            }
            Some(held) => Some(Passed {
                source: source as u8,
                arrival: held.arrival,
                mark: held.mark,
            }),
        }
    }

    /// How many sources there are: 1 to 16.
    pub fn sources(&self) -> u8
        ensures { result ≡ length self.now.links }
    {
        self.sources.len() as u8
    }

    /// How many outs there are: 1 to 16.
    pub fn outs(&self) -> u8
        ensures { result ≡ self.now.outs }
    {
        self.outs
    }

    /// The moment of the last mark that was taken of a source: 0 before any.
    pub fn last(&self, source: u8) -> u64
        requires { source < length self.now.links }
        ensures { result ≡ (link_of self.now source).last }
    {
        self.sources[source as usize].last()
    }

    /// Whether marks are being drained: from an `Ok` of `offer` to a `None` of `next_passed`.
    pub fn draining(&self) -> bool
        ensures { result ≡ self.now.draining }
    {
        self.draining
    }

    /// How many marks of a source are held: 1,024 at most.
    pub fn held(&self, source: u8) -> u16
        requires { source < length self.now.links }
        ensures held { result ≡ length (link_of self.now source).held }
        ensures few { result ≤ 1024 }
    {
        self.sources[source as usize].held()
    }

    /// How many marks of a source there is room for in its ring, which was made at the opening and never grows.
    pub fn room(&self, source: u8) -> usize
        requires { source < length self.now.links }
        ensures { result ≡ 1024 }
    {
        self.sources[source as usize].room()
    }

    /// The source that owns an out.
    pub fn owner(&self, out: u8) -> Option<u8>
        requires { out < self.now.outs }
        ensures { result ≡ owner_of self.now.links out }
    {
        let _outs = self.outs;
        let source = owner_of(&self.sources, out)?;
        Some(source as u8)
    }

    /// Whether a source goes to an out.
    pub fn goes(&self, source: u8, out: u8) -> bool
        requires source { source < length self.now.links }
        requires out { out < self.now.outs }
        ensures { result ≡ slice_index_or (link_of self.now source).outs out false }
    {
        let _outs = self.outs;
        self.sources[source as usize].goes(out)
    }

    /// Of each out whether a source goes there.
    pub fn outs_of(&self, source: u8) -> &[bool]
        requires { source < length self.now.links }
        ensures { result.now ≡ (link_of self.now source).outs }
    {
        self.sources[source as usize].outs()
    }
}

/// What an offer leaves to pass.
fn offered_mark(passes: bool, source: u8, arrival: u64, mark: Mark) -> Option<Passed>
    ensures { result ≡ offered_mark passes source arrival mark }
{
    if passes {
        Some(Passed {
            source,
            arrival,
            mark,
        })
    } else {
        None
    }
}
