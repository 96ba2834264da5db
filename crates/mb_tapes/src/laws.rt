//! Laws of the definitions. Each function does nothing; what is proved is its contract.

ghost use Rattle.std.specs.Prelude.{◌≡◌, ◌≤◌, ◌<◌, ℕ, List, ◌++◌, None, true, length, map};
ghost use Rattle.mb_stream.specs.Denotation.{denotation};
ghost use Rattle.mb_stream.specs.Puts.{signs_in};
ghost use Rattle.mb_smf.specs.Smf.{is_ended, smf, smf_ended};
ghost use Rattle.mb_smf.specs.SmfWritten.{recorded};
ghost use Rattle.mb_ble.specs.Distances.{message_moments};
ghost use Rattle.mb_carrier.specs.declared.spec.Spec.{Spec};
ghost use Rattle.mb_carrier.specs.declared.spec.Spec.TheVariants.{Din};
ghost use Rattle.mb_track.specs.Track.{track_marks};
ghost use Rattle.mb_tapes.specs.Played.{played, played_so_far};
ghost use Rattle.mb_tapes.specs.Playing.{PlayingStands, playing_behind, playing_end, playing_fault, playing_given};
ghost use Rattle.mb_tapes.specs.Recorded.{CanBeRecorded, first_moment, played_moment, recorded_file};
ghost use Rattle.mb_tapes.specs.declared.playing.Playing.{Playing};

/// What is handed on at pieces and at the end is the tape of what the file gives, however it was cut.
pub fn files_play_on()
    ensures stands { (p : Playing) (bytes piece : List ℕ) → PlayingStands p bytes → 0 < length piece →
        PlayingStands (playing_behind p piece) (bytes ++ piece) }
    ensures given { (p : Playing) (bytes piece : List ℕ) → PlayingStands p bytes → 0 < length piece →
        played_so_far (bytes ++ piece) ≡ played_so_far bytes ++ playing_given p piece }
    ensures whole { (p : Playing) (bytes : List ℕ) → PlayingStands p bytes →
        played bytes ≡ played_so_far bytes ++ playing_end p }
    ensures fault { (p : Playing) (bytes : List ℕ) → PlayingStands p bytes → playing_fault p ≡ (smf bytes).fault }
    ensures ended { (p : Playing) (bytes : List ℕ) → PlayingStands p bytes →
        is_ended p.file.file.place ≡ smf_ended bytes }
    ensures rests { (p : Playing) (bytes : List ℕ) → PlayingStands p bytes → p.file.owed ≡ None }
    ensures offset { (p : Playing) (bytes : List ℕ) → PlayingStands p bytes → p.file.file.offset ≤ length bytes }
{}

/// What is recorded of a tape and played again is a tape of a byte line that means what the tape's track 0 does. Each
/// message and each real-time message comes a thousand microseconds later for each millisecond since the file's first
/// event; the file is read up to its track's end, without a fault.
pub fn recorded_files_play_back()
    ensures means { (s : Spec) (tape : List ℕ) → CanBeRecorded s tape →
        denotation (signs_in (track_marks Din 0 (played (recorded_file s tape)))) ≡
        denotation (signs_in (track_marks s 0 tape)) }
    ensures moments { (s : Spec) (tape : List ℕ) → CanBeRecorded s tape →
        message_moments (track_marks Din 0 (played (recorded_file s tape))) ≡
        map (played_moment (first_moment (recorded (track_marks s 0 tape))))
        (message_moments (track_marks s 0 tape)) }
    ensures fault { (s : Spec) (tape : List ℕ) → CanBeRecorded s tape →
        (smf (recorded_file s tape)).fault ≡ None }
    ensures ended { (s : Spec) (tape : List ℕ) → CanBeRecorded s tape → smf_ended (recorded_file s tape) ≡ true }
{}
