//! Laws of the definitions. Each function does nothing; what is proved is its contract.

ghost use Rattle.std.specs.Prelude.{◌≡◌, ℕ, ◌^◌, ◌<◌, List, [], ◌++◌, None, true};
ghost use Rattle.mb_stream.specs.Denotation.{denotation};
ghost use Rattle.mb_stream.specs.Puts.{Put, signs_in};
ghost use Rattle.mb_stream.specs.Standing.{AreValid, suited};
ghost use Rattle.mb_din.specs.Written.{din_written};
ghost use Rattle.mb_frames.specs.Tapes.{tape_fault};
ghost use Rattle.mb_filter.specs.Mapped.{mapped, mapped_marks};
ghost use Rattle.mb_filter.specs.declared.rule.Rule.{Rule};
ghost use Rattle.mb_guard.specs.Sounding.{off_marks, sounding};
ghost use Rattle.mb_carrier.specs.Carrier.{notes_of};
ghost use Rattle.mb_carrier.specs.declared.spec.Spec.{Spec};
ghost use Rattle.mb_carrier.specs.declared.spec.Spec.TheVariants.{Din};
ghost use Rattle.mb_track.specs.Track.{last_record_moment, recording, track_marks, track_records, track_whole};
ghost use Rattle.mb_rewrite.specs.Filtered.{filtered_marks, filtered_tape};
ghost use Rattle.mb_rewrite.specs.Guarded.{ended, guarded_marks, guarded_tape};
ghost use Rattle.mb_rewrite.specs.LineTape.{line_tape, timed_bytes};
ghost use Rattle.mb_rewrite.specs.Recorded.{AreMoments, recorded, track_den};

/// The tape that marks are written as is read again as their byte line, each byte at its mark's moment. It is whole and
/// without a fault, and as a byte line it has no note and means what the marks mean.
pub fn tapes_carry_the_line()
    ensures bytes { (puts : List Put) → AreMoments puts →
        recorded (track_records (line_tape puts)) ≡ timed_bytes puts }
    ensures line { (puts : List Put) → AreMoments puts →
        recording 0 (track_records (line_tape puts)) ≡ din_written (signs_in puts) }
    ensures whole { (puts : List Put) → AreMoments puts → track_whole Din 0 (line_tape puts) ≡ true }
    ensures fault { (puts : List Put) → AreMoments puts → tape_fault (line_tape puts) ≡ None }
    ensures means { (puts : List Put) → AreMoments puts → suited (signs_in puts) ≡ true → AreValid (signs_in puts) →
        track_den Din 0 (line_tape puts) ≡ denotation (signs_in puts) }
    ensures clean { (puts : List Put) → AreMoments puts → suited (signs_in puts) ≡ true → AreValid (signs_in puts) →
        notes_of Din (recording 0 (track_records (line_tape puts))) ≡ [] }
{}

/// The marks of a tape whose notes are ended are those of its track 0 and then the Note Offs. They mean what the track
/// means and then these Note Offs, each real-time message after as many messages as before, and nothing sounds behind
/// them.
pub fn notes_are_ended()
    ensures marks { (s : Spec) (tape : List ℕ) → signs_in (guarded_marks s tape) ≡
        signs_in (track_marks s 0 tape) ++ off_marks (signs_in (track_marks s 0 tape)) }
    ensures means { (s : Spec) (tape : List ℕ) →
        denotation (signs_in (guarded_marks s tape)) ≡ ended (track_den s 0 tape) }
    ensures silent { (s : Spec) (tape : List ℕ) →
        sounding (denotation (signs_in (guarded_marks s tape))).items ≡ [] }
{}

/// So does the tape that is written, read as a byte line's, where eight bytes hold the moments of the tape that was read.
pub fn written_notes_are_ended()
    ensures moments { (s : Spec) (tape : List ℕ) → last_record_moment (track_records tape) < 2 ^ 64 →
        AreMoments (guarded_marks s tape) }
    ensures means { (s : Spec) (tape : List ℕ) → last_record_moment (track_records tape) < 2 ^ 64 →
        track_den Din 0 (guarded_tape s tape) ≡ ended (track_den s 0 tape) }
    ensures silent { (s : Spec) (tape : List ℕ) → last_record_moment (track_records tape) < 2 ^ 64 →
        sounding (track_den Din 0 (guarded_tape s tape)).items ≡ [] }
{}

/// The marks of a tape that was filtered are those that the rules keep of its track 0, and mean what the rules make of
/// what the track means: each message as they say, in order, and each real-time message after as many of them as are
/// kept before it.
pub fn filtered_marks_mean_mapped()
    ensures marks { (rules : List Rule) (s : Spec) (tape : List ℕ) →
        signs_in (filtered_marks rules s tape) ≡ mapped_marks rules (signs_in (track_marks s 0 tape)) }
    ensures means { (rules : List Rule) (s : Spec) (tape : List ℕ) →
        denotation (signs_in (filtered_marks rules s tape)) ≡ mapped rules (track_den s 0 tape) }
{}

/// So does the tape that is written, read as a byte line's, where eight bytes hold the moments of the tape that was read.
pub fn written_marks_mean_mapped()
    ensures moments { (rules : List Rule) (s : Spec) (tape : List ℕ) →
        last_record_moment (track_records tape) < 2 ^ 64 → AreMoments (filtered_marks rules s tape) }
    ensures means { (rules : List Rule) (s : Spec) (tape : List ℕ) →
        last_record_moment (track_records tape) < 2 ^ 64 →
        track_den Din 0 (filtered_tape rules s tape) ≡ mapped rules (track_den s 0 tape) }
{}
