//! Where marks pass: the router, and the outs behind it.

ghost use Rattle.std.specs.Prelude.{◌≡◌, ◌≤◌, ◌<◌, ℕ, List, length, Option, OnErr, OnOk, IfOk, IsTrue, true, false};
ghost use Rattle.std.specs.Prelude.{slice_set};
ghost use Rattle.mb_message.specs.Signs.{sign_of};
ghost use Rattle.mb_outside.specs.Cause.{HasCause};
ghost use Rattle.mb_rig.specs.RigText.{Setup};
ghost use Rattle.mb_rig.specs.Merging.Lines.{is_below};
ghost use Rattle.mb_rig.specs.Merging.Playing.{Play};
ghost use Rattle.mb_rig.specs.Merging.Run.{AtMost};
ghost use Rattle.mb_rig.specs.Merging.Course.{Links, gives, greater};
ghost use Rattle.mb_rig.specs.Bay.{BayBroke, BayEnds, BayGoes, BayStands, BayWrote, HandedOn, MayHand, OffersOf};
ghost use Rattle.mb_rig.specs.Bay.{turn_key};
ghost use Rattle.mb_rig.specs.Beginning.{BayBegins};
ghost use Rattle.mb_rig.specs.Right.{IsRig};

use crate::outlet::Outlet;
use crate::outs::{finish_all, flush_all};
use crate::passing::pass;
use crate::rig::Rig;
use crate::turn::Turn;
use arrayvec::ArrayVec;
use mb_merge::{Passed, Router};
use mb_message::{Mark, Memory};
use mb_outside::{Desk, Refused};
use std::alloc::Global;

/// The outs of a rig.
pub(crate) type Outlets = ArrayVec<Outlet, 16>;

/// The router with the outs, which links are stalled, and the greatest key of any step so far.
#[derive(Drop)]
pub(crate) struct Bay {
    pub(crate) router: Router,
    pub(crate) outs: Outlets,
    pub(crate) stalled: [bool; 16],
    pub(crate) greatest: Turn,
}

impl Bay {
    /// The router of a rig, which has no out yet. `Memory` is for want of memory alone, since a rig's routes are right.
    pub(crate) fn new(alloc: Global, rig: &Rig) -> Result<Bay, Memory>
        ensures right { IsRig rig.now }
        ensures begins { IfOk result (BayBegins rig.now) }
    {
        let routes = rig.routes();
        let links = rig.ins().len() as u8;
        let outs = rig.outs().len() as u8;
        match Router::open(alloc, links, outs, routes) {
            Ok(router) => Ok(Bay {
                router,
                outs: Outlets::new(),
                stalled: [false; 16],
                greatest: Turn { link: 0, moment: 0 },
            }),
            Err(_) => Err(Memory),
        }
    }

    /// A step of a link begins, whose key is the least of those that may step.
    pub(crate) fn begin(&mut self, turn: Turn)
        ensures greatest { turn_key self.new.greatest ≡ greater (turn_key self.old.greatest) (turn_key turn) }
        ensures rest { self.new ≡ (record self.old { greatest = self.new.greatest }) }
    {
        if is_below(self.greatest, turn) {
            self.greatest = turn;
        }
    }

    /// A mark of a link is handed on, and all that may pass then is written. `false` where the link's ring is full: it
    /// is stalled then, and nothing else changes.
    pub(crate) fn hand_on<D: Desk>(
        &mut self,
        link: u8,
        moment: u64,
        mark: Mark,
        desk: &mut D,
    ) -> Result<bool, Refused>
        requires stands { (s : Setup) × (before : List ℕ) × (first : ℕ) × (links : Links) × (play : Play) ×
            BayStands D.tells D.contents s before first self.old desk.old links play ×
            MayHand s self.old links link moment mark }
        ensures handed { IfOk result (λ taken. (s : Setup) (before : List ℕ) (first : ℕ) (links : Links)
            (play : Play) → BayStands D.tells D.contents s before first self.old desk.old links play →
            MayHand s self.old links link moment mark →
            HandedOn D.tells D.contents s before first self.old self.new desk.new links link moment mark play taken) }
        ensures broke { OnErr result ((s : Setup) (before : List ℕ) (first : ℕ) (links : Links) (play : Play) →
            BayStands D.tells D.contents s before first self.old desk.old links play →
            MayHand s self.old links link moment mark →
            BayBroke D.tells D.contents s before desk.new (gives links link moment (sign_of mark)).given) }
        ensures greatest { self.new.greatest ≡ self.old.greatest }
        ensures outs { length self.new.outs.items ≡ length self.old.outs.items }
        ensures wrote { (s : Setup) (before : List ℕ) (first : ℕ) (links : Links) (play : Play) →
            BayStands D.tells D.contents s before first self.old desk.old links play →
            MayHand s self.old links link moment mark →
            BayWrote D.tells D.contents first (length self.old.outs.items) desk.old desk.new }
        ensures cause { HasCause (D.write_faults desk.old) (D.write_faults desk.new) result }
        ensures sound { OnOk result (D.write_faults desk.new ≡ D.write_faults desk.old) }
        ensures read_faults { D.read_faults desk.new ≡ D.read_faults desk.old }
    {
        match self.router.offer(link, moment, mark) {
            Ok(()) => match self.drain(desk) {
                Ok(()) => Ok(true),
                Err(refused) => Err(refused),
            },
            Err(_) => {
                self.stalled[usize::from(link)] = true;
                Ok(false)
            }
        }
    }

    /// All marks pass that may.
    fn drain<D: Desk>(&mut self, desk: &mut D) -> Result<(), Refused>
        requires stands { (s : Setup) × (before : List ℕ) × (first : ℕ) × (links : Links) × (play : Play) ×
            BayStands D.tells D.contents s before first self.old desk.old links play }
        ensures goes { OnOk result ((s : Setup) (before : List ℕ) (first : ℕ) (links : Links) (play : Play) (x : ℕ) →
            BayStands D.tells D.contents s before first self.old desk.old links play → OffersOf self.old.router x →
            BayGoes D.tells D.contents s before first self.old self.new desk.new links x links.given) }
        ensures broke { OnErr result ((s : Setup) (before : List ℕ) (first : ℕ) (links : Links) (play : Play) (x : ℕ) →
            BayStands D.tells D.contents s before first self.old desk.old links play → OffersOf self.old.router x →
            BayBroke D.tells D.contents s before desk.new links.given) }
        ensures greatest { self.new.greatest ≡ self.old.greatest }
        ensures outs { length self.new.outs.items ≡ length self.old.outs.items }
        ensures wrote { (s : Setup) (before : List ℕ) (first : ℕ) (links : Links) (play : Play) →
            BayStands D.tells D.contents s before first self.old desk.old links play →
            BayWrote D.tells D.contents first (length self.old.outs.items) desk.old desk.new }
        ensures cause { HasCause (D.write_faults desk.old) (D.write_faults desk.new) result }
        ensures sound { OnOk result (D.write_faults desk.new ≡ D.write_faults desk.old) }
        ensures read_faults { D.read_faults desk.new ≡ D.read_faults desk.old }
    {
        'marks: while let Some(passed) = self.router.next_passed() {
            self.stalled[usize::from(passed.source)] = false;
            let goes = self.router.outs_of(passed.source);
            let moment = self.greatest.moment;
            if let Err(refused) = pass(self.outs.as_mut_slice(), goes, passed, moment, desk) {
                return Err(refused);
            }
        }
        Ok(())
    }

    /// A step ends: each out ends the packet under way.
    pub(crate) fn flush<D: Desk>(&mut self, desk: &mut D) -> Result<(), Refused>
        requires stands { (s : Setup) × (before : List ℕ) × (first : ℕ) × (links : Links) × (play : Play) ×
            BayStands D.tells D.contents s before first self.old desk.old links play }
        ensures stands { OnOk result ((s : Setup) (before : List ℕ) (first : ℕ) (links : Links) (play : Play) →
            BayStands D.tells D.contents s before first self.old desk.old links play →
            BayStands D.tells D.contents s before first self.new desk.new links play) }
        ensures router { self.new.router ≡ self.old.router }
        ensures stalled { self.new.stalled ≡ self.old.stalled }
        ensures greatest { self.new.greatest ≡ self.old.greatest }
        ensures outs { length self.new.outs.items ≡ length self.old.outs.items }
        ensures report { (s : Setup) (before : List ℕ) (first : ℕ) (links : Links) (play : Play) →
            BayStands D.tells D.contents s before first self.old desk.old links play → IsTrue D.tells →
            (D.contents desk.new).written 1 ≡ (D.contents desk.old).written 1 }
        ensures wrote { (s : Setup) (before : List ℕ) (first : ℕ) (links : Links) (play : Play) →
            BayStands D.tells D.contents s before first self.old desk.old links play →
            BayWrote D.tells D.contents first (length self.old.outs.items) desk.old desk.new }
        ensures cause { HasCause (D.write_faults desk.old) (D.write_faults desk.new) result }
        ensures sound { OnOk result (D.write_faults desk.new ≡ D.write_faults desk.old) }
        ensures read_faults { D.read_faults desk.new ≡ D.read_faults desk.old }
    {
        flush_all(self.outs.as_mut_slice(), desk)
    }

    /// All links are over: each out writes what the end of all marks adds.
    pub(crate) fn finish<D: Desk>(&mut self, desk: &mut D) -> Result<(), Refused>
        requires stands { (s : Setup) × (before : List ℕ) × (first : ℕ) × (links : Links) × (play : Play) ×
            BayStands D.tells D.contents s before first self.old desk.old links play }
        ensures ended { OnOk result ((s : Setup) (before : List ℕ) (first : ℕ) (links : Links) (play : Play) →
            BayStands D.tells D.contents s before first self.old desk.old links play →
            BayEnds D.tells D.contents s before first desk.new play) }
        ensures report { (s : Setup) (before : List ℕ) (first : ℕ) (links : Links) (play : Play) →
            BayStands D.tells D.contents s before first self.old desk.old links play → IsTrue D.tells →
            (D.contents desk.new).written 1 ≡ (D.contents desk.old).written 1 }
        ensures wrote { (s : Setup) (before : List ℕ) (first : ℕ) (links : Links) (play : Play) →
            BayStands D.tells D.contents s before first self.old desk.old links play →
            BayWrote D.tells D.contents first (length self.old.outs.items) desk.old desk.new }
        ensures cause { HasCause (D.write_faults desk.old) (D.write_faults desk.new) result }
        ensures sound { OnOk result (D.write_faults desk.new ≡ D.write_faults desk.old) }
        ensures read_faults { D.read_faults desk.new ≡ D.read_faults desk.old }
    {
        finish_all(self.outs.as_mut_slice(), desk)
    }
}

/// Whether a turn's key is below another's.
fn is_below(turn: Turn, other: Turn) -> bool
    ensures { result ≡ is_below (turn_key turn) (turn_key other) }
{
    turn.moment < other.moment || (turn.moment == other.moment && turn.link < other.link)
}
