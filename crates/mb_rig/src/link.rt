//! A link of a rig: a tape, and what its port hears on a track of it.

ghost use Rattle.std.specs.Prelude.{◌≡◌, ℕ, ◌+◌, ◌*◌, ◌^◌, ◌<◌, ◌≤◌, true, false, not, List, [], ◌++◌, length};
ghost use Rattle.std.specs.Prelude.{IsTrue, Ok, None, IfOk, IfErr, OnOk, OnSome};
ghost use Rattle.mb_message.specs.Signs.{Sign};
ghost use Rattle.mb_stream.specs.Puts.{Put, puts_at};
ghost use Rattle.mb_outside.specs.Contents.{is_readable};
ghost use Rattle.mb_carrier.specs.Word.{IsSpec};
ghost use Rattle.mb_track.specs.Track.{track_end, track_whole};
ghost use Rattle.mb_track.specs.TrackReading.{TrackTold, track_moment, track_of, track_owed, track_spec};
ghost use Rattle.mb_rig.specs.Heard.{HeardAt, IfNothing, MomentKept, heard_fault, heard_signs, signs_heard};
ghost use Rattle.mb_rig.specs.Supply.{IsCounted, front_of};
ghost use Rattle.mb_rig.specs.Causes.{LinkCause};
ghost use Rattle.mb_rig.specs.Link.{LinkEnds, LinkHeard, LinkReads, LinkRests, LinkStands, StopsAt, TookFrom};
ghost use Rattle.mb_rig.specs.Link.{link_owed};

use crate::heard::{Heard, hear, mark_of};
use crate::supply::{Dry, Supply};
use mb_carrier::Spec;
use mb_frames::TapeFault;
use mb_outside::Desk;
use mb_track::TrackReader;

/// Why a link gives no more.
#[derive(Clone, Copy, Debug, PartialEq, Eq)]
pub(crate) enum LinkStop {
    ReadFault,
    /// As much as may be was taken off its tape, and none of it is wrong.
    TooLong,
    BadTape(TapeFault),
}

/// A tape, and the reader of one track of it.
#[derive(Drop)]
pub(crate) struct Link {
    pub(crate) supply: Supply,
    pub(crate) reader: TrackReader,
    /// Whether the tape is at its end, and told whole.
    pub(crate) over: bool,
    /// Whether it stops inside its magic, a record or a packet, where it is over.
    pub(crate) cut: bool,
}

impl Link {
    /// A link to a tape at a handle to read, of which nothing was taken; of it at most `limit` bytes are taken.
    pub(crate) fn new(handle: u32, limit: u64, spec: Spec, track: u8) -> Link
        requires spec { IsSpec spec }
        requires most { limit ≤ 2 ^ 40 }
        ensures handle { result.supply.handle ≡ handle }
        ensures limit { result.supply.limit ≡ limit }
        ensures spec { track_spec result.reader ≡ spec }
        ensures track { track_of result.reader ≡ track }
        ensures ahead { result.supply.ahead ≡ [] }
        ensures reading { result.over ≡ false }
        ensures reads { LinkReads result [] [] }
    {
        Link {
            supply: Supply::new(handle, limit),
            reader: TrackReader::new(spec, track),
            over: false,
            cut: false,
        }
    }

    /// What is heard next: a record that begins, of whatever track, or a mark of the port, whose moment is that of the
    /// last record. `None` comes at the tape's end, behind what only that makes known, and from then on.
    pub(crate) fn next<D: Desk>(&mut self, desk: &mut D) -> Result<Option<Heard>, LinkStop>
        requires stands { (told : List Put) × LinkStands D.tells D.contents self.old desk.old told }
        ensures handle { self.new.supply.handle ≡ self.old.supply.handle }
        ensures limit { self.new.supply.limit ≡ self.old.supply.limit }
        ensures spec { track_spec self.new.reader ≡ track_spec self.old.reader }
        ensures track { track_of self.new.reader ≡ track_of self.old.reader }
        ensures begins { IfOk result (λ heard. HeardAt (track_moment self.new.reader) heard) }
        ensures moment { IfOk result (λ heard. MomentKept (track_moment self.old.reader)
            (track_moment self.new.reader) heard) }
        ensures rises { (told : List Put) → LinkStands D.tells D.contents self.old desk.old told →
            track_moment self.old.reader ≤ track_moment self.new.reader }
        ensures progress { IfOk result (λ heard. OnSome heard (link_owed self.new < link_owed self.old)) }
        ensures over { result ≡ Ok None → self.new.over ≡ true }
        ensures told { IfOk result (λ heard. (told : List Put) →
            LinkStands D.tells D.contents self.old desk.old told → LinkStands D.tells D.contents self.new desk.new
            (told ++ puts_at (track_moment self.new.reader) (signs_heard heard))) }
        ensures stops { IfErr result (λ stop. (told : List Put) →
            LinkStands D.tells D.contents self.old desk.old told → IsTrue D.tells →
            StopsAt self.old.supply.limit ((D.contents desk.new).taken self.old.supply.handle) stop) }
        ensures cause { IfErr result (LinkCause (D.read_faults desk.old) (D.read_faults desk.new)) }
        ensures took { IsTrue D.tells →
            TookFrom self.old.supply.handle (D.contents desk.old) (D.contents desk.new) }
        ensures counted { (told : List Put) → LinkStands D.tells D.contents self.old desk.old told →
            IsTrue D.tells → IsCounted self.new.supply (D.contents desk.new) }
        ensures sound { OnOk result (D.read_faults desk.new ≡ D.read_faults desk.old) }
        ensures write_faults { D.write_faults desk.new ≡ D.write_faults desk.old }
    {
        if self.over {
            return Ok(None);
        }
        'bytes: loop {
            match self.hear() {
                Ok(Some(heard)) => return Ok(Some(heard)),
                Ok(None) => {}
                Err(fault) => return Err(LinkStop::BadTape(fault)),
            }
            if self.supply.is_used() {
                match self.supply.read_on(desk) {
                    Ok(true) => {}
                    Ok(false) => return Ok(self.end()),
                    Err(Dry::ReadFault) => return Err(LinkStop::ReadFault),
                    Err(Dry::TooLong) => return Err(LinkStop::TooLong),
                }
            }
        }
    }

    /// What is heard of the byte that is at hand.
    fn hear(&mut self) -> Result<Option<Heard>, TapeFault>
        requires { (bytes : List ℕ) × (told : List Put) × LinkReads self.old bytes told }
        ensures handle { self.new.supply.handle ≡ self.old.supply.handle }
        ensures limit { self.new.supply.limit ≡ self.old.supply.limit }
        ensures count { self.new.supply.count ≡ self.old.supply.count }
        ensures still { self.new.over ≡ self.old.over }
        ensures spec { track_spec self.new.reader ≡ track_spec self.old.reader }
        ensures track { track_of self.new.reader ≡ track_of self.old.reader }
        ensures begins { IfOk result (λ heard. HeardAt (track_moment self.new.reader) heard) }
        ensures moment { IfOk result (λ heard. MomentKept (track_moment self.old.reader)
            (track_moment self.new.reader) heard) }
        ensures rises { (bytes : List ℕ) (told : List Put) → LinkReads self.old bytes told →
            track_moment self.old.reader ≤ track_moment self.new.reader }
        ensures progress { IfOk result (λ heard. OnSome heard
            (8 * length self.new.supply.ahead + track_owed self.new.reader <
            8 * length self.old.supply.ahead + track_owed self.old.reader)) }
        ensures goes { (bytes : List ℕ) (told : List Put) → LinkReads self.old bytes told →
            LinkHeard self.old self.new bytes (told ++ puts_at (track_moment self.new.reader) (heard_signs result)) }
        ensures rests { IfNothing result ((bytes : List ℕ) (told : List Put) → LinkReads self.old bytes told →
            LinkRests self.new (bytes ++ front_of self.old.supply) told (heard_fault result)) }
        ensures used { result ≡ Ok None →
            self.old.supply.ahead ≡ front_of self.old.supply ++ self.new.supply.ahead }
    {
        let front = self.supply.front();
        let mut rest = front;
        let heard = hear(&mut self.reader, &mut rest);
        let many = front.len() - rest.len();
        self.supply.pass(many);
        heard
    }

    /// The tape is over: what only its end makes known.
    fn end(&mut self) -> Option<Heard>
        requires { (bytes : List ℕ) × TrackTold self.old.reader bytes }
        ensures supply { self.new.supply ≡ self.old.supply }
        ensures over { self.new.over ≡ true }
        ensures spec { track_spec self.new.reader ≡ track_spec self.old.reader }
        ensures track { track_of self.new.reader ≡ track_of self.old.reader }
        ensures moment { track_moment self.new.reader ≡ track_moment self.old.reader }
        ensures begins { HeardAt (track_moment self.new.reader) result }
        ensures cut { (bytes : List ℕ) → TrackTold self.old.reader bytes →
            self.new.cut ≡ not (track_whole (track_spec self.old.reader) (track_of self.old.reader) bytes) }
        ensures told { (bytes : List ℕ) → TrackTold self.old.reader bytes →
            puts_at (track_moment self.old.reader) (signs_heard result) ≡
            track_end (track_spec self.old.reader) (track_of self.old.reader) bytes }
    {
        self.over = true;
        self.cut = self.reader.partial();
        match self.reader.finish() {
            Some(ev) => match mark_of(ev) {
                Some(mark) => Some(Heard::Mark(mark)),
                None => None,
            },
            None => None,
        }
    }
}
