//! A tape whose notes are ended.

ghost use Rattle.std.specs.Prelude.{◌≡◌, ℕ, ◌≤◌, ◌<◌, ◌^◌, not, true, false, List, [], ◌∷◌, ◌++◌, length, OnOk, OnErr, IfOk};
ghost use Rattle.mb_message.specs.Signs.{Sign, signs_of_event, suits_event};
ghost use Rattle.mb_stream.specs.Puts.{puts_at};
ghost use Rattle.mb_outside.specs.Cause.{HasCause};
ghost use Rattle.mb_guard.specs.Guard.{Stands};
ghost use Rattle.mb_track.specs.Track.{track_whole};
ghost use Rattle.mb_track.specs.TrackReading.{track_moment};
ghost use Rattle.mb_carrier.specs.Word.{IsSpec};
ghost use Rattle.mb_rewrite.specs.Guarded.{guarded_so_far, guarded_tape};
ghost use Rattle.mb_rewrite.specs.Line.{LineHalted, LineWrote};
ghost use Rattle.mb_rewrite.specs.Guarding.{GuardingStands, RewriteHalted, Rewrote, RewroteEnd, guarding_cut};
ghost use Rattle.mb_rewrite.specs.Guarding.{EndHalted, EndHeard, GuardHasTold, guarding_spec, off_puts};

use crate::answer::hand_on;
use crate::line::LineTape;
use mb_carrier::Spec;
use mb_frames::TapeFault;
use mb_guard::Guard;
use mb_message::{Buf, Ev, Mark};
use mb_outside::{Out, Refused};
use mb_track::{TrackReader, TrackStep};

/// Writes track 0 of a tape as a tape of a byte line, and ends its notes. It takes no memory.
#[derive(Drop)]
pub struct Guarding {
    track: TrackReader,
    guard: Guard,
    line: LineTape,
}

impl Guarding {
    /// Of a spec's port. Nothing was fed.
    pub fn new(spec: Spec) -> Guarding
        requires { IsSpec spec }
        ensures spec { guarding_spec result ≡ spec }
        ensures stands { GuardingStands result [] }
    {
        Guarding {
            track: TrackReader::new(spec, 0),
            guard: Guard::new(),
            line: LineTape::new(),
        }
    }

    /// Reads a piece of the tape, and hands on each record that is known whole of what is written. A fault is answered
    /// where one comes; what follows isn't looked at.
    pub fn feed<K: Out>(&mut self, piece: &[u8], out: &mut K) -> Result<Option<TapeFault>, Refused>
        requires ready { K.ready out.old }
        requires some { 0 < length piece.now }
        requires stands { (bytes : List ℕ) × GuardingStands self.old bytes × (length (bytes ++ piece.now) ≤ 2 ^ 40) }
        ensures spec { guarding_spec self.new ≡ guarding_spec self.old }
        ensures ready { K.ready out.new }
        ensures cause { HasCause (K.refusals out.old) (K.refusals out.new) result }
        ensures sound { OnOk result (K.refusals out.new ≡ K.refusals out.old) }
        ensures fed { IfOk result (λ fault. Rewrote (GuardingStands self.old) (GuardingStands self.new)
            (guarded_so_far (guarding_spec self.old)) piece.now fault (λ given. K.took out.old given out.new)) }
        ensures halted { OnErr result (RewriteHalted (GuardingStands self.old) (guarded_so_far (guarding_spec self.old))
            (λ bytes. guarded_so_far (guarding_spec self.old) (bytes ++ piece.now))
            (λ given. K.took out.old given out.new)) }
    {
        let mut held = Buf::new();
        self.line.begin(&mut held);
        let mut rest = piece;
        'steps: loop {
            match self.track.next(&mut rest) {
                Ok(Some(TrackStep::Heard(ev))) => {
                    if let Err(refused) = self.hear(ev, &mut held, out) {
                        return Err(refused);
                    }
                }
                Ok(Some(TrackStep::Begin { moment: _ })) => {}
                Ok(Some(TrackStep::End)) => {}
                Ok(None) => return hand_on(None, &held, out),
                Err(fault) => return hand_on(Some(fault), &held, out),
            }
        }
    }

    /// At the tape's end, or where it is stopped: what the end of the recording makes known, a Note Off for each note that
    /// still sounds, and what is held.
    pub fn finish<K: Out>(&mut self, out: &mut K) -> Result<(), Refused>
        requires ready { K.ready out.old }
        requires stands { (bytes : List ℕ) × GuardingStands self.old bytes }
        ensures spec { guarding_spec self.new ≡ guarding_spec self.old }
        ensures ready { K.ready out.new }
        ensures cause { HasCause (K.refusals out.old) (K.refusals out.new) result }
        ensures sound { OnOk result (K.refusals out.new ≡ K.refusals out.old) }
        ensures ended { OnOk result (RewroteEnd (GuardingStands self.old) (guarded_so_far (guarding_spec self.old))
            (guarded_tape (guarding_spec self.old)) (λ given. K.took out.old given out.new)) }
        ensures halted { OnErr result (RewriteHalted (GuardingStands self.old) (guarded_so_far (guarding_spec self.old))
            (guarded_tape (guarding_spec self.old)) (λ given. K.took out.old given out.new)) }
    {
        let mut held = Buf::new();
        self.line.begin(&mut held);
        if let Err(refused) = self.hear_end(&mut held, out) {
            return Err(refused);
        }
        if let Err(refused) = self.end_notes(&mut held, out) {
            return Err(refused);
        }
        self.line.end(&mut held, out)
    }

    /// Whether the bytes that were fed stop inside the tape's magic, a record or a packet.
    pub fn partial(&self) -> bool
        ensures state { result ≡ guarding_cut self.now }
        ensures law { (bytes : List ℕ) → GuardingStands self.now bytes →
            result ≡ not (track_whole (guarding_spec self.now) 0 bytes) }
    {
        self.track.partial()
    }

    /// An event of the track goes to the guard and to the tape.
    fn hear<K: Out>(&mut self, ev: Ev<'_>, held: &mut Buf, out: &mut K) -> Result<(), Refused>
        requires ready { K.ready out.old }
        requires suits { suits_event self.old.line.writer.in_sysex ev ≡ true }
        ensures ready { K.ready out.new }
        ensures cause { HasCause (K.refusals out.old) (K.refusals out.new) result }
        ensures sound { OnOk result (K.refusals out.new ≡ K.refusals out.old) }
        ensures track { self.new.track ≡ self.old.track }
        ensures sounds { (marks : List Sign) → Stands self.old.guard marks →
            Stands self.new.guard (marks ++ signs_of_event ev.entry) }
        ensures ok { OnOk result (LineWrote self.old.line self.new.line
            (puts_at (track_moment self.old.track) (signs_of_event ev.entry)) held.old.items held.new.items
            (λ given. K.took out.old given out.new)) }
        ensures err { OnErr result (LineHalted self.old.line
            (puts_at (track_moment self.old.track) (signs_of_event ev.entry)) held.old.items
            (λ given. K.took out.old given out.new)) }
    {
        sound(&mut self.guard, ev);
        self.line.put(self.track.moment(), ev, held, out)
    }

    /// What the end of the recording makes known.
    fn hear_end<K: Out>(&mut self, held: &mut Buf, out: &mut K) -> Result<(), Refused>
        requires ready { K.ready out.old }
        requires stands { (bytes : List ℕ) × GuardHasTold self.old bytes }
        ensures ready { K.ready out.new }
        ensures cause { HasCause (K.refusals out.old) (K.refusals out.new) result }
        ensures sound { OnOk result (K.refusals out.new ≡ K.refusals out.old) }
        ensures spec { guarding_spec self.new ≡ guarding_spec self.old }
        ensures moment { track_moment self.new.track ≡ track_moment self.old.track }
        ensures ok { OnOk result (EndHeard self.old self.new held.old.items held.new.items
            (λ given. K.took out.old given out.new)) }
        ensures err { OnErr result (EndHalted self.old held.old.items (λ given. K.took out.old given out.new)) }
    {
        match self.track.finish() {
            Some(ev) => self.hear(ev, held, out),
            None => Ok(()),
        }
    }

    /// A Note Off for each note that sounds, at the moment of the last record whose header stands whole.
    fn end_notes<K: Out>(&mut self, held: &mut Buf, out: &mut K) -> Result<(), Refused>
        requires ready { K.ready out.old }
        requires closed { self.old.line.writer.in_sysex ≡ false }
        ensures ready { K.ready out.new }
        ensures cause { HasCause (K.refusals out.old) (K.refusals out.new) result }
        ensures sound { OnOk result (K.refusals out.new ≡ K.refusals out.old) }
        ensures spec { guarding_spec self.new ≡ guarding_spec self.old }
        ensures ok { OnOk result (LineWrote self.old.line self.new.line (off_puts self.old) held.old.items
            held.new.items (λ given. K.took out.old given out.new)) }
        ensures err { OnErr result (LineHalted self.old.line (off_puts self.old) held.old.items
            (λ given. K.took out.old given out.new)) }
    {
        let moment = self.track.moment();
        'offs: while let Some(off) = self.guard.next_off() {
            if let Err(refused) = self.line.put(moment, Ev::Short(off), held, out) {
                return Err(refused);
            }
        }
        Ok(())
    }
}

/// An event as the guard hears it: short messages alone turn notes on and off.
fn sound(guard: &mut Guard, ev: Ev<'_>)
    ensures { (marks : List Sign) → Stands guard.old marks → Stands guard.new (marks ++ signs_of_event ev.entry) }
{
    match ev {
        Ev::Short(short) => guard.put(Mark::Short(short)),
        Ev::Run(_) => {}
        Ev::Rt(_) => {}
        Ev::Open => {}
        Ev::End => {}
        Ev::Abort => {}
    }
}
