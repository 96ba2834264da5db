//! Recording a tape as a file.

ghost use Rattle.std.specs.Prelude.{◌≡◌, ℕ, ◌≤◌, ◌^◌, not, true, false, List, [], ◌++◌, length, OnOk, IfOk, IfErr};
ghost use Rattle.mb_message.specs.Signs.{signs_of_event};
ghost use Rattle.mb_stream.specs.Puts.{Put, puts_at};
ghost use Rattle.mb_outside.specs.Cause.{Rose};
ghost use Rattle.mb_outside.specs.Taking.{TookFront};
ghost use Rattle.mb_smf.specs.TrackWriting.{TrackWrites, is_full};
ghost use Rattle.mb_carrier.specs.Word.{IsSpec};
ghost use Rattle.mb_track.specs.Track.{track_marks, track_marks_so_far, track_whole};
ghost use Rattle.mb_track.specs.TrackReading.{track_moment};
ghost use Rattle.mb_tapes.specs.Recorded.{CanBeRecorded, FirstLeftOut, recorded_file};
ghost use Rattle.mb_tapes.specs.Recording.{IfFull, IfRefused, MayFollow, RecordedOn, RecordingStands, recording_cut};
ghost use Rattle.mb_tapes.specs.Recording.{recording_spec};

use crate::put_marks::{put_mark, put_run};
use mb_carrier::Spec;
use mb_frames::TapeFault;
use mb_message::{Ev, Mark};
use mb_outside::{Out, Refused};
use mb_smf::{SmfFull, SmfWriter};
use mb_track::{TrackReader, TrackStep};
use std::alloc::Global;

/// Why a recording's end handed on no file, or not all of it.
#[derive(Clone, Copy, Debug, PartialEq, Eq)]
pub enum RecordingStop {
    /// There is none, or no memory for it. Nothing was handed on.
    Full(SmfFull),
    /// A front of it was handed on.
    Refused(Refused),
}

/// Records track 0 of a tape as a Standard MIDI File. The file's track stands in memory until the end, since a file
/// tells the track's length before it.
#[derive(Drop)]
pub struct Recording {
    track: TrackReader,
    file: SmfWriter,
}

impl Recording {
    /// Of a spec's port. Nothing was fed. Takes no memory.
    pub fn new(alloc: Global, spec: Spec) -> Recording
        requires { IsSpec spec }
        ensures spec { recording_spec result ≡ spec }
        ensures stands { RecordingStands result [] }
    {
        Recording {
            track: TrackReader::new(spec, 0),
            file: SmfWriter::new(alloc),
        }
    }

    /// Reads a piece of the tape: its marks go to the file. A fault of the tape is answered where one comes, behind all
    /// that was known before it; what follows isn't looked at. Where a mark can't be in the file the recording is given
    /// up.
    pub fn feed(&mut self, piece: &[u8]) -> Result<Option<TapeFault>, SmfFull>
        requires stands { (bytes : List ℕ) × RecordingStands self.old bytes × (length (bytes ++ piece.now) ≤ 2 ^ 40) }
        ensures spec { OnOk result (recording_spec self.new ≡ recording_spec self.old) }
        ensures fed { IfOk result (λ fault. RecordedOn (RecordingStands self.old) (RecordingStands self.new)
            piece.now fault) }
        ensures full { IfErr result (λ full. (bytes : List ℕ) → RecordingStands self.old bytes →
            FirstLeftOut (track_marks_so_far (recording_spec self.old) 0 (bytes ++ piece.now)) full) }
    {
        let mut rest = piece;
        'steps: loop {
            match self.track.next(&mut rest) {
                Ok(Some(TrackStep::Heard(ev))) => {
                    if let Err(full) = self.put(ev) {
                        return Err(full);
                    }
                }
                Ok(Some(TrackStep::Begin { moment: _ })) => {}
                Ok(Some(TrackStep::End)) => {}
                Ok(None) => return Ok(None),
                Err(fault) => return Ok(Some(fault)),
            }
        }
    }

    /// At the tape's end: what only that makes known goes to the file, and the file is handed on.
    pub fn finish<K: Out>(self, out: &mut K) -> Result<(), RecordingStop>
        requires ready { K.ready out.old }
        requires stands { (bytes : List ℕ) × RecordingStands self bytes }
        ensures ready { K.ready out.new }
        ensures later { K.refusals out.old ≤ K.refusals out.new }
        ensures cause { IfRefused result (Rose (K.refusals out.old) (K.refusals out.new)) }
        ensures sound { OnOk result (K.refusals out.new ≡ K.refusals out.old) }
        ensures untouched { IfFull result (λ full. out.new ≡ out.old) }

        // What the tape is recorded as was handed on.
        ensures took { (bytes : List ℕ) → RecordingStands self bytes →
            OnOk result (K.took out.old (recorded_file (recording_spec self) bytes) out.new) }
        ensures can { (bytes : List ℕ) → RecordingStands self bytes →
            OnOk result (CanBeRecorded (recording_spec self) bytes) }
        ensures front { (bytes : List ℕ) → RecordingStands self bytes →
            IfRefused result (TookFront K.took out.old out.new (recorded_file (recording_spec self) bytes)) }
        ensures full { (bytes : List ℕ) → RecordingStands self bytes →
            IfFull result (FirstLeftOut (track_marks (recording_spec self) 0 bytes)) }
    {
        let mut recording = self;
        if let Err(full) = recording.put_end() {
            return Err(RecordingStop::Full(full));
        }
        let Recording { track: _, file } = recording;
        match file.finish(out) {
            Ok(()) => Ok(()),
            Err(refused) => Err(RecordingStop::Refused(refused)),
        }
    }

    /// Whether the bytes that were fed stop inside the tape's magic, a record or a packet.
    pub fn partial(&self) -> bool
        ensures state { result ≡ recording_cut self.now }
        ensures law { (bytes : List ℕ) → RecordingStands self.now bytes →
            result ≡ not (track_whole (recording_spec self.now) 0 bytes) }
    {
        self.track.partial()
    }

    /// What only the tape's end makes known.
    fn put_end(&mut self) -> Result<(), SmfFull>
        requires stands { (bytes : List ℕ) × RecordingStands self.old bytes }
        ensures spec { recording_spec self.new ≡ recording_spec self.old }
        ensures writes { OnOk result ((bytes : List ℕ) → RecordingStands self.old bytes →
            TrackWrites self.new.file (track_marks (recording_spec self.old) 0 bytes)) }
        ensures short { OnOk result (is_full self.new.file ≡ false) }
        ensures full { IfErr result (λ full. (bytes : List ℕ) → RecordingStands self.old bytes →
            FirstLeftOut (track_marks (recording_spec self.old) 0 bytes) full) }
    {
        match self.track.finish() {
            Some(ev) => self.put(ev),
            None => Ok(()),
        }
    }

    /// An event goes to the file, at the moment of the last record.
    fn put(&mut self, ev: Ev<'_>) -> Result<(), SmfFull>
        requires follows { MayFollow self.old.file (puts_at (track_moment self.old.track) (signs_of_event ev)) }
        requires order { self.old.file.moment ≤ track_moment self.old.track }
        requires short { is_full self.old.file ≡ false }
        ensures track { self.new.track ≡ self.old.track }
        ensures writes { OnOk result ((puts : List Put) → TrackWrites self.old.file puts →
            TrackWrites self.new.file (puts ++ puts_at (track_moment self.old.track) (signs_of_event ev.entry))) }
        ensures order { OnOk result (self.new.file.moment ≤ track_moment self.old.track) }
        ensures short { OnOk result (is_full self.new.file ≡ false) }
        ensures full { IfErr result (λ full. (puts : List Put) → TrackWrites self.old.file puts →
            FirstLeftOut (puts ++ puts_at (track_moment self.old.track) (signs_of_event ev.entry)) full) }
    {
        let moment = self.track.moment();
        match ev {
            Ev::Short(short) => put_mark(moment, Mark::Short(short), &mut self.file),
            Ev::Rt(message) => put_mark(moment, Mark::Rt(message), &mut self.file),
            Ev::Open => put_mark(moment, Mark::Open, &mut self.file),
            Ev::Run(bytes) => put_run(moment, bytes, &mut self.file),
            Ev::End => put_mark(moment, Mark::End, &mut self.file),
            Ev::Abort => put_mark(moment, Mark::Abort, &mut self.file),
        }
    }
}
