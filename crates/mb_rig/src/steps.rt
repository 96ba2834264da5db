//! A rig's run: steps of its links, least key first.

ghost use Rattle.std.specs.Prelude.{◌≡◌, ◌≤◌, ℕ, List, Option, Some, length, slice_get, slice_index_or, OnOk, IfErr};
ghost use Rattle.std.specs.Prelude.{IsTrue, false};
ghost use Rattle.mb_rig.specs.RigText.{Setup};
ghost use Rattle.mb_rig.specs.Merging.Course.{Links};
ghost use Rattle.mb_rig.specs.Merging.Playing.{Play};
ghost use Rattle.mb_rig.specs.Beginning.{FeedsHalted, FeedsReady, FeedsStarted};
ghost use Rattle.mb_rig.specs.Causes.{EndCause};
ghost use Rattle.mb_rig.specs.Running.{ByEnd, HaltsBy, RunBroken, RunOver, RunStands, RunStopped, RunTouched, turn_at};
ghost use Rattle.mb_rig.specs.declared.feed.Feed.{Feed};

use crate::bay::Bay;
use crate::ending::{RigEnd, end_of};
use crate::feed::{Feed, RunStop};
use crate::turn::turn_of;
use arrayvec::ArrayVec;
use mb_outside::Desk;

type Turns = ArrayVec<Option<u64>, 16>;

/// Each tape is read to its first record, in the order of the links.
pub(crate) fn start_feeds<D: Desk>(feeds: &mut [Feed], desk: &mut D) -> Result<(), RigEnd>
    requires few { length feeds.old ≤ 16 }
    requires ready { (s : Setup) × (base limit : ℕ) × FeedsReady D.tells D.contents s base limit feeds.old desk.old }
    ensures starts { OnOk result ((s : Setup) (base limit : ℕ) →
        FeedsReady D.tells D.contents s base limit feeds.old desk.old →
        FeedsStarted D.tells D.contents s base limit feeds.new desk.new) }
    ensures stops { IfErr result (λ end. (s : Setup) (base limit : ℕ) →
        FeedsReady D.tells D.contents s base limit feeds.old desk.old →
        FeedsHalted D.tells D.contents s base limit feeds.new desk.new
        × HaltsBy D.tells s base limit (D.contents desk.new) end) }
    ensures cause { IfErr result (EndCause (D.read_faults desk.old) (D.read_faults desk.new) (D.write_faults desk.old)
        (D.write_faults desk.new)) }
    ensures touched { (s : Setup) (base limit first outs : ℕ) →
        FeedsReady D.tells D.contents s base limit feeds.old desk.old →
        RunTouched D.tells D.contents base (length feeds.old) first outs desk.old desk.new }
    ensures many { length feeds.new ≡ length feeds.old }
    ensures report { IsTrue D.tells → (D.contents desk.new).written ≡ (D.contents desk.old).written }
    ensures read_faults { OnOk result (D.read_faults desk.new ≡ D.read_faults desk.old) }
    ensures write_faults { D.write_faults desk.new ≡ D.write_faults desk.old }
{
    'links: for at in 0..feeds.len() {
        if let Err(stop) = feeds[at].start(desk) {
            return Err(end_of(at, RunStop::Link(stop)));
        }
    }
    Ok(())
}

/// Links step, the one of the least key first, until none has a record.
pub(crate) fn run_steps<D: Desk>(
    feeds: &mut [Feed],
    bay: &mut Bay,
    desk: &mut D,
) -> Result<(), RigEnd>
    requires stands { (s : Setup) × (before : List ℕ) × (base first limit : ℕ) × (links : Links) × (play : Play) ×
        RunStands D.tells D.contents s before base first limit feeds.old bay.old desk.old links play }
    ensures over { OnOk result ((s : Setup) (before : List ℕ) (base first limit : ℕ) (links : Links) (play : Play) →
        RunStands D.tells D.contents s before base first limit feeds.old bay.old desk.old links play →
        RunOver D.tells D.contents s before base first limit feeds.new bay.new desk.new) }
    ensures stops { IfErr result (λ end. (s : Setup) (before : List ℕ) (base first limit : ℕ) (links : Links)
        (play : Play) →
        RunStands D.tells D.contents s before base first limit feeds.old bay.old desk.old links play →
        ByEnd end (RunStopped D.tells D.contents s before base first limit feeds.new bay.new desk.new)
        (RunBroken D.tells D.contents s before base limit feeds.new desk.new)
        × HaltsBy D.tells s base limit (D.contents desk.new) end) }
    ensures cause { IfErr result (EndCause (D.read_faults desk.old) (D.read_faults desk.new) (D.write_faults desk.old)
        (D.write_faults desk.new)) }
    ensures touched { (s : Setup) (before : List ℕ) (base first limit : ℕ) (links : Links) (play : Play) →
        RunStands D.tells D.contents s before base first limit feeds.old bay.old desk.old links play →
        RunTouched D.tells D.contents base (length feeds.old) first (length bay.old.outs.items) desk.old desk.new }
    ensures outs { length bay.new.outs.items ≡ length bay.old.outs.items }
    ensures read_faults { OnOk result (D.read_faults desk.new ≡ D.read_faults desk.old) }
    ensures write_faults { OnOk result (D.write_faults desk.new ≡ D.write_faults desk.old) }
{
    'steps: loop {
        let turns = turns_of(feeds, &bay.stalled);
        let Some(turn) = turn_of(turns.as_slice()) else {
            return Ok(());
        };
        if let Err(stop) = feeds[turn.link].step(turn, bay, desk) {
            return Err(end_of(turn.link, stop));
        }
    }
}

/// Of each link the moment of its record, if it may step.
fn turns_of(feeds: &[Feed], stalled: &[bool]) -> Turns
    requires few { length feeds.now ≤ 16 }
    requires flags { length stalled.now ≡ 16 }
    ensures many { length result.items ≡ length feeds.now }
    ensures each { (x : ℕ) (f : Feed) → slice_get feeds.now x ≡ Some f →
        slice_get result.items x ≡ Some (turn_at (slice_index_or stalled.now x false) f.record) }
{
    let mut turns = Turns::new();
    'links: for at in 0..feeds.len() {
        turns.push(turn_at(stalled[at], feeds[at].record));
    }
    turns
}

/// The moment of a link's record, if it may step.
fn turn_at(stalled: bool, moment: Option<u64>) -> Option<u64>
    ensures { result ≡ turn_at stalled moment }
{
    if stalled { None } else { moment }
}
