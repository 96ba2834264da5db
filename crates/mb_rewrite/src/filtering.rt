//! A tape as rules have it.

ghost use Rattle.std.specs.Prelude.{◌≡◌, ℕ, ◌≤◌, ◌<◌, ◌^◌, not, List, [], ◌++◌, length, OnOk, OnErr, IfOk};
ghost use Rattle.mb_message.specs.Signs.{Sign, signs_of_event};
ghost use Rattle.mb_stream.specs.Puts.{puts_at};
ghost use Rattle.mb_outside.specs.Cause.{HasCause};
ghost use Rattle.mb_filter.specs.Mapped.{mapped_marks};
ghost use Rattle.mb_track.specs.Track.{track_whole};
ghost use Rattle.mb_track.specs.TrackReading.{track_moment};
ghost use Rattle.mb_carrier.specs.Word.{IsSpec};
ghost use Rattle.mb_rewrite.specs.Filtered.{filtered_so_far, filtered_tape};
ghost use Rattle.mb_rewrite.specs.Line.{LineHalted, LineWrote};
ghost use Rattle.mb_rewrite.specs.Guarding.{RewriteHalted, Rewrote, RewroteEnd};
ghost use Rattle.mb_rewrite.specs.Filtering.{FilterEndHalted, FilterEndHeard, FilterHasTold, FilteringStands, MapsBehind};
ghost use Rattle.mb_rewrite.specs.Filtering.{MaySuit, filtering_cut, filtering_rules, filtering_spec};

use crate::answer::hand_on;
use crate::line::LineTape;
use mb_carrier::Spec;
use mb_filter::{Mapper, Rules};
use mb_frames::TapeFault;
use mb_message::{Buf, Ev};
use mb_outside::{Out, Refused};
use mb_track::{TrackReader, TrackStep};

/// Writes track 0 of a tape as a tape of a byte line, its messages as rules have them. It takes no memory.
#[derive(Drop)]
pub struct Filtering {
    track: TrackReader,
    mapper: Mapper,
    line: LineTape,
}

impl Filtering {
    /// By rules, of a spec's port. Nothing was fed.
    pub fn new(rules: Rules, spec: Spec) -> Filtering
        requires { IsSpec spec }
        ensures spec { filtering_spec result ≡ spec }
        ensures rules { filtering_rules result ≡ rules }
        ensures stands { FilteringStands result [] }
    {
        Filtering {
            track: TrackReader::new(spec, 0),
            mapper: Mapper::new(rules),
            line: LineTape::new(),
        }
    }

    /// Reads a piece of the tape, and hands on each record that is known whole of what is written. A fault is answered
    /// where one comes; what follows isn't looked at.
    pub fn feed<K: Out>(&mut self, piece: &[u8], out: &mut K) -> Result<Option<TapeFault>, Refused>
        requires ready { K.ready out.old }
        requires some { 0 < length piece.now }
        requires stands { (bytes : List ℕ) × FilteringStands self.old bytes × (length (bytes ++ piece.now) ≤ 2 ^ 40) }
        ensures spec { filtering_spec self.new ≡ filtering_spec self.old }
        ensures rules { filtering_rules self.new ≡ filtering_rules self.old }
        ensures ready { K.ready out.new }
        ensures cause { HasCause (K.refusals out.old) (K.refusals out.new) result }
        ensures sound { OnOk result (K.refusals out.new ≡ K.refusals out.old) }
        ensures fed { IfOk result (λ fault. Rewrote (FilteringStands self.old) (FilteringStands self.new)
            (filtered_so_far (filtering_rules self.old) (filtering_spec self.old)) piece.now fault
            (λ given. K.took out.old given out.new)) }
        ensures halted { OnErr result (RewriteHalted (FilteringStands self.old)
            (filtered_so_far (filtering_rules self.old) (filtering_spec self.old))
            (λ bytes. filtered_so_far (filtering_rules self.old) (filtering_spec self.old) (bytes ++ piece.now))
            (λ given. K.took out.old given out.new)) }
    {
        let mut held = Buf::new();
        self.line.begin(&mut held);
        let mut rest = piece;
        'steps: loop {
            match self.track.next(&mut rest) {
                Ok(Some(TrackStep::Heard(ev))) => {
                    if let Err(refused) = self.hear(ev, &mut held, out) {
                        return Err(refused);
                    }
                }
                Ok(Some(TrackStep::Begin { moment: _ })) => {}
                Ok(Some(TrackStep::End)) => {}
                Ok(None) => return hand_on(None, &held, out),
                Err(fault) => return hand_on(Some(fault), &held, out),
            }
        }
    }

    /// At the tape's end, or where it is stopped: what the rules leave of what the end of the recording makes known, and
    /// what is held.
    pub fn finish<K: Out>(&mut self, out: &mut K) -> Result<(), Refused>
        requires ready { K.ready out.old }
        requires stands { (bytes : List ℕ) × FilteringStands self.old bytes }
        ensures spec { filtering_spec self.new ≡ filtering_spec self.old }
        ensures rules { filtering_rules self.new ≡ filtering_rules self.old }
        ensures ready { K.ready out.new }
        ensures cause { HasCause (K.refusals out.old) (K.refusals out.new) result }
        ensures sound { OnOk result (K.refusals out.new ≡ K.refusals out.old) }
        ensures ended { OnOk result (RewroteEnd (FilteringStands self.old)
            (filtered_so_far (filtering_rules self.old) (filtering_spec self.old))
            (filtered_tape (filtering_rules self.old) (filtering_spec self.old))
            (λ given. K.took out.old given out.new)) }
        ensures halted { OnErr result (RewriteHalted (FilteringStands self.old)
            (filtered_so_far (filtering_rules self.old) (filtering_spec self.old))
            (filtered_tape (filtering_rules self.old) (filtering_spec self.old))
            (λ given. K.took out.old given out.new)) }
    {
        let mut held = Buf::new();
        self.line.begin(&mut held);
        if let Err(refused) = self.hear_end(&mut held, out) {
            return Err(refused);
        }
        self.line.end(&mut held, out)
    }

    /// Whether the bytes that were fed stop inside the tape's magic, a record or a packet.
    pub fn partial(&self) -> bool
        ensures state { result ≡ filtering_cut self.now }
        ensures law { (bytes : List ℕ) → FilteringStands self.now bytes →
            result ≡ not (track_whole (filtering_spec self.now) 0 bytes) }
    {
        self.track.partial()
    }

    /// What the rules leave of an event of the track goes to the tape.
    fn hear<K: Out>(&mut self, ev: Ev<'_>, held: &mut Buf, out: &mut K) -> Result<(), Refused>
        requires ready { K.ready out.old }
        requires suits { MaySuit self.old.mapper self.old.line ev }
        ensures ready { K.ready out.new }
        ensures cause { HasCause (K.refusals out.old) (K.refusals out.new) result }
        ensures sound { OnOk result (K.refusals out.new ≡ K.refusals out.old) }
        ensures track { self.new.track ≡ self.old.track }
        ensures rules { filtering_rules self.new ≡ filtering_rules self.old }
        ensures maps { (marks : List Sign) → MapsBehind self.old.mapper marks →
            MapsBehind self.new.mapper (marks ++ signs_of_event ev.entry) }
        ensures ok { OnOk result (LineWrote self.old.line self.new.line (puts_at (track_moment self.old.track)
            (mapped_marks (filtering_rules self.old) (signs_of_event ev.entry))) held.old.items held.new.items
            (λ given. K.took out.old given out.new)) }
        ensures err { OnErr result (LineHalted self.old.line (puts_at (track_moment self.old.track)
            (mapped_marks (filtering_rules self.old) (signs_of_event ev.entry))) held.old.items
            (λ given. K.took out.old given out.new)) }
    {
        match self.mapper.put(ev) {
            Some(left) => self.line.put(self.track.moment(), left, held, out),
            None => Ok(()),
        }
    }

    /// What the rules leave of what the end of the recording makes known.
    fn hear_end<K: Out>(&mut self, held: &mut Buf, out: &mut K) -> Result<(), Refused>
        requires ready { K.ready out.old }
        requires stands { (bytes : List ℕ) × FilterHasTold self.old bytes }
        ensures ready { K.ready out.new }
        ensures cause { HasCause (K.refusals out.old) (K.refusals out.new) result }
        ensures sound { OnOk result (K.refusals out.new ≡ K.refusals out.old) }
        ensures spec { filtering_spec self.new ≡ filtering_spec self.old }
        ensures rules { filtering_rules self.new ≡ filtering_rules self.old }
        ensures ok { OnOk result (FilterEndHeard self.old self.new held.old.items held.new.items
            (λ given. K.took out.old given out.new)) }
        ensures err { OnErr result (FilterEndHalted self.old held.old.items (λ given. K.took out.old given out.new)) }
    {
        match self.track.finish() {
            Some(ev) => self.hear(ev, held, out),
            None => Ok(()),
        }
    }
}
