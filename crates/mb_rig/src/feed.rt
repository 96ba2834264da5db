//! A link in a run: its records, step by step.

ghost use Rattle.std.specs.Prelude.{◌≡◌, ℕ, ◌+◌, ◌<◌, ◌≤◌, List, [], length, Option, Some, None, IsTrue};
ghost use Rattle.std.specs.Prelude.{IfOk, IfErr, OnOk, OnSome};
ghost use Rattle.mb_stream.specs.Puts.{Put};
ghost use Rattle.mb_rig.specs.RigText.{Setup};
ghost use Rattle.mb_rig.specs.Causes.{LinkCause, StopCause};
ghost use Rattle.mb_rig.specs.Link.{LinkStands, StopsAt, TookFrom};
ghost use Rattle.mb_rig.specs.Feed.{FeedFront, FeedGoes, FeedStands, IsSameLink, feed_owed, key_by};
ghost use Rattle.mb_rig.specs.Running.{RunTouched};
ghost use Rattle.mb_rig.specs.Step.{ByStop, StepBroke, StepEnds, StepMay, StepStops, StepUnder, StopsBy};
ghost use Rattle.mb_rig.specs.Merging.Lines.{Key};
ghost use Rattle.mb_rig.specs.Merging.Playing.{Play};
ghost use Rattle.mb_rig.specs.Merging.Course.{Links};

use crate::bay::Bay;
use crate::heard::Heard;
use crate::link::{Link, LinkStop};
use crate::turn::Turn;
use mb_carrier::Spec;
use mb_message::Mark;
use mb_outside::Desk;

/// Why a run stops.
#[derive(Clone, Copy, Debug, PartialEq, Eq)]
pub(crate) enum RunStop {
    WriteFault,
    Link(LinkStop),
}

/// A link with the moment of its record under way or else of its next, in microseconds, and the mark that waits where
/// its ring was full. It has no record behind its tape's last mark.
#[derive(Drop)]
pub(crate) struct Feed {
    pub(crate) link: Link,
    pub(crate) record: Option<u64>,
    pub(crate) waiting: Option<Mark>,
}

impl Default for Feed {
    /// A link that reads nothing, in an unused place of a row.
    fn default() -> Feed {
        Feed::new(Link::new(0, 0, Spec::Din, 0))
    }
}

impl Feed {
    /// A link of which nothing was heard.
    pub(crate) fn new(link: Link) -> Feed
        ensures link { result.link ≡ link }
        ensures unread { result.record ≡ None }
        ensures unwaited { result.waiting ≡ None }
    {
        Feed {
            link,
            record: None,
            waiting: None,
        }
    }

    /// Reads on to the first record. A mark ahead of any record, which no tape has, would wait.
    pub(crate) fn start<D: Desk>(&mut self, desk: &mut D) -> Result<(), LinkStop>
        requires stands { LinkStands D.tells D.contents self.old.link desk.old [] }
        ensures stands { OnOk result ((x : ℕ) →
            FeedStands D.tells D.contents x self.new desk.new (key_by x self.new.record) []) }
        ensures front { FeedFront D.tells D.contents self.new desk.new [] }
        ensures same { IsSameLink self.old.link self.new.link }
        ensures stops { IfErr result (λ stop. IsTrue D.tells →
            StopsAt self.old.link.supply.limit ((D.contents desk.new).taken self.old.link.supply.handle) stop) }
        ensures cause { IfErr result (LinkCause (D.read_faults desk.old) (D.read_faults desk.new)) }
        ensures took { IsTrue D.tells →
            TookFrom self.old.link.supply.handle (D.contents desk.old) (D.contents desk.new) }
        ensures sound { OnOk result (D.read_faults desk.new ≡ D.read_faults desk.old) }
        ensures write_faults { D.write_faults desk.new ≡ D.write_faults desk.old }
    {
        self.record = None;
        self.waiting = None;
        match self.link.next(desk) {
            Ok(Some(heard)) => match heard {
                Heard::Record { moment: first } => {
                    self.record = Some(first);
                    Ok(())
                }
                Heard::Mark(ahead) => {
                    let first = self.link.reader.moment();
                    self.record = Some(first);
                    self.waiting = Some(ahead);
                    Ok(())
                }
            },
            Ok(None) => Ok(()),
            Err(stop) => Err(stop),
        }
    }

    /// The mark that waits, or else the next one of the record under way. `None` comes where that is used up: then
    /// `record` is the next one's moment, or there is none at the tape's end.
    fn next_mark<D: Desk>(&mut self, desk: &mut D) -> Result<Option<Mark>, LinkStop>
        requires stands { (x moment : ℕ) × (present : Option Key) × (given : List Put) ×
            FeedStands D.tells D.contents x self.old desk.old present given × (self.old.record ≡ Some moment) }
        ensures goes { IfOk result (λ mark. (x moment : ℕ) (present : Option Key) (given : List Put) →
            FeedStands D.tells D.contents x self.old desk.old present given → self.old.record ≡ Some moment →
            FeedGoes D.tells D.contents x self.old self.new desk.new present given moment mark) }
        ensures stops { IfErr result (λ stop. (x : ℕ) (present : Option Key) (given : List Put) →
            FeedStands D.tells D.contents x self.old desk.old present given → IsTrue D.tells →
            StopsAt self.old.link.supply.limit ((D.contents desk.new).taken self.old.link.supply.handle) stop) }
        ensures front { (x : ℕ) (present : Option Key) (given : List Put) →
            FeedStands D.tells D.contents x self.old desk.old present given →
            FeedFront D.tells D.contents self.new desk.new given }
        ensures same { IsSameLink self.old.link self.new.link }
        ensures owed { OnOk result (feed_owed self.new < feed_owed self.old) }
        ensures owed_by_mark { IfOk result (λ mark. OnSome mark
            (self.old.waiting ≡ None → feed_owed self.new + 2 ≤ feed_owed self.old)) }
        ensures cause { IfErr result (LinkCause (D.read_faults desk.old) (D.read_faults desk.new)) }
        ensures took { IsTrue D.tells →
            TookFrom self.old.link.supply.handle (D.contents desk.old) (D.contents desk.new) }
        ensures sound { OnOk result (D.read_faults desk.new ≡ D.read_faults desk.old) }
        ensures write_faults { D.write_faults desk.new ≡ D.write_faults desk.old }
    {
        if let Some(mark) = self.waiting {
            self.waiting = None;
            return Ok(Some(mark));
        }
        match self.link.next(desk) {
            Ok(Some(heard)) => match heard {
                Heard::Mark(mark) => Ok(Some(mark)),
                Heard::Record { moment } => {
                    self.record = Some(moment);
                    Ok(None)
                }
            },
            Ok(None) => {
                self.record = None;
                Ok(None)
            }
            Err(stop) => Err(stop),
        }
    }

    /// A step of a link, whose turn it is: its marks are handed on until its record is used up, or until its ring is
    /// full, where the next one waits.
    pub(crate) fn step<D: Desk>(
        &mut self,
        turn: Turn,
        bay: &mut Bay,
        desk: &mut D,
    ) -> Result<(), RunStop>
        requires may { (s : Setup) × (before : List ℕ) × (first : ℕ) × (links : Links) × (play : Play) ×
            StepMay D.tells D.contents s before first turn.link turn.moment self.old bay.old desk.old links play }
        ensures ends { OnOk result ((s : Setup) (before : List ℕ) (first : ℕ) (links : Links) (play : Play) →
            StepMay D.tells D.contents s before first turn.link turn.moment self.old bay.old desk.old links play →
            StepEnds D.tells D.contents s before first turn.link bay.old.router self.new bay.new desk.new links) }
        ensures stops { IfErr result (λ stop. (s : Setup) (before : List ℕ) (first : ℕ) (links : Links)
            (play : Play) →
            StepMay D.tells D.contents s before first turn.link turn.moment self.old bay.old desk.old links play →
            ByStop stop (StepStops D.tells D.contents s before first turn.link bay.old.router self.new bay.new desk.new
            links) (StepBroke D.tells D.contents s before turn.link self.new desk.new links)
            × StopsBy D.tells self.old.link.supply.limit
            ((D.contents desk.new).taken self.old.link.supply.handle) stop) }
        ensures cause { IfErr result (StopCause (D.read_faults desk.old) (D.read_faults desk.new)
            (D.write_faults desk.old) (D.write_faults desk.new)) }
        ensures touched { (s : Setup) (before : List ℕ) (first : ℕ) (links : Links) (play : Play) →
            StepMay D.tells D.contents s before first turn.link turn.moment self.old bay.old desk.old links play →
            RunTouched D.tells D.contents self.old.link.supply.handle 1 first (length bay.old.outs.items)
            desk.old desk.new }
        ensures same { IsSameLink self.old.link self.new.link }
        ensures outs { length bay.new.outs.items ≡ length bay.old.outs.items }
        ensures owed { OnOk result (feed_owed self.new < feed_owed self.old) }
        ensures read_faults { OnOk result (D.read_faults desk.new ≡ D.read_faults desk.old) }
        ensures write_faults { OnOk result (D.write_faults desk.new ≡ D.write_faults desk.old) }
    {
        bay.begin(turn);
        match self.give(turn, bay, desk) {
            Ok(()) => match bay.flush(desk) {
                Ok(()) => Ok(()),
                Err(_) => Err(RunStop::WriteFault),
            },
            Err(stop) => Err(stop),
        }
    }

    /// The marks of the record under way are handed on.
    fn give<D: Desk>(&mut self, turn: Turn, bay: &mut Bay, desk: &mut D) -> Result<(), RunStop>
        requires may { (s : Setup) × (before : List ℕ) × (first : ℕ) × (links : Links) × (play : Play) ×
            StepUnder D.tells D.contents s before first turn.link turn.moment self.old bay.old desk.old links play }
        ensures ends { OnOk result ((s : Setup) (before : List ℕ) (first : ℕ) (links : Links) (play : Play) →
            StepUnder D.tells D.contents s before first turn.link turn.moment self.old bay.old desk.old links play →
            StepEnds D.tells D.contents s before first turn.link bay.old.router self.new bay.new desk.new links) }
        ensures stops { IfErr result (λ stop. (s : Setup) (before : List ℕ) (first : ℕ) (links : Links)
            (play : Play) →
            StepUnder D.tells D.contents s before first turn.link turn.moment self.old bay.old desk.old links play →
            ByStop stop (StepStops D.tells D.contents s before first turn.link bay.old.router self.new bay.new desk.new
            links) (StepBroke D.tells D.contents s before turn.link self.new desk.new links)
            × StopsBy D.tells self.old.link.supply.limit
            ((D.contents desk.new).taken self.old.link.supply.handle) stop) }
        ensures cause { IfErr result (StopCause (D.read_faults desk.old) (D.read_faults desk.new)
            (D.write_faults desk.old) (D.write_faults desk.new)) }
        ensures touched { (s : Setup) (before : List ℕ) (first : ℕ) (links : Links) (play : Play) →
            StepUnder D.tells D.contents s before first turn.link turn.moment self.old bay.old desk.old links play →
            RunTouched D.tells D.contents self.old.link.supply.handle 1 first (length bay.old.outs.items)
            desk.old desk.new }
        ensures same { IsSameLink self.old.link self.new.link }
        ensures outs { length bay.new.outs.items ≡ length bay.old.outs.items }
        ensures owed { OnOk result (feed_owed self.new < feed_owed self.old) }
        ensures read_faults { OnOk result (D.read_faults desk.new ≡ D.read_faults desk.old) }
        ensures write_faults { OnOk result (D.write_faults desk.new ≡ D.write_faults desk.old) }
    {
        'marks: loop {
            match self.next_mark(desk) {
                Ok(next) => match next {
                    Some(mark) => match bay.hand_on(turn.link as u8, turn.moment, mark, desk) {
                        Ok(true) => {}
                        Ok(false) => {
                            self.waiting = Some(mark);
                            return Ok(());
                        }
                        Err(_) => return Err(RunStop::WriteFault),
                    },
                    None => return Ok(()),
                },
                Err(stop) => return Err(RunStop::Link(stop)),
            }
        }
    }
}
