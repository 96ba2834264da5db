//! Laws of the definitions. Each function does nothing; what is proved is its contract.

ghost use Rattle.std.specs.Prelude.{◌≡◌, ℕ, Bool, List, [], ◌++◌, true, false, map, flat_map};
ghost use Rattle.mb_frames.specs.Frames.{AreBytes, Cut, FramePart, IsUnfinished, frame, frame_parts, parts};
ghost use Rattle.mb_frames.specs.Frames.{unfinished_parts};
ghost use Rattle.mb_frames.specs.Counting.{counted_parts};
ghost use Rattle.mb_frames.specs.Reading.{IsWhole, Place, Stands, from, is_at_end};
ghost use Rattle.mb_frames.specs.Tapes.{AreRecords, Record, RecordPart, Whole, fault_in, record_parts, tape};
ghost use Rattle.mb_frames.specs.Tapes.{tape_fault, tape_parts, tape_read};
ghost use Rattle.mb_frames.specs.TapeSteps.{TapeState, after, behind_records, ending_at, ending_from, fresh};
ghost use Rattle.mb_frames.specs.TapeSteps.{parts_from};
ghost use Rattle.mb_frames.specs.TapeReading.{TapeStands};
ghost use Rattle.mb_frames.specs.Migrated.{migrated_from, record_in_microseconds, tape2};

/// A list of bytes is frames, and a last one that is unfinished. Its parts are theirs.
pub fn lists_are_frames()
    ensures cut { (bytes : List ℕ) → AreBytes bytes → Cut bytes }
    ensures parts { (contents : List (List ℕ)) (rest : List ℕ) → IsUnfinished rest →
        parts (flat_map frame contents ++ rest) ≡ flat_map frame_parts contents ++ unfinished_parts rest }
{}

/// The parts of the frames that a list is cut into are those that counting gives.
pub fn reading_by_counting()
    ensures { (bytes : List ℕ) → parts bytes ≡ counted_parts bytes }
{}

/// What is read of frames that `put_frame` wrote is their contents, and whatever follows is read as if it stood alone.
pub fn written_frames_are_read()
    ensures parts { (contents : List (List ℕ)) → parts (flat_map frame contents) ≡ flat_map frame_parts contents }
    ensures whole { (contents : List (List ℕ)) → IsWhole (flat_map frame contents) }
    ensures only { (bytes : List ℕ) → AreBytes bytes → IsWhole bytes →
        (contents : List (List ℕ)) × (bytes ≡ flat_map frame contents) }
{}

/// However a list of bytes was cut: readers that took it and have no end left to tell have told the same, which is all
/// of its parts, and go on alike.
pub fn any_cutting()
    ensures all { (bytes : List ℕ) (place : Place) (so_far : List FramePart) → Stands place bytes so_far →
        is_at_end place ≡ false → so_far ≡ parts bytes }
    ensures same { (bytes : List ℕ) (one other : Place) (so_far as_well : List FramePart) →
        Stands one bytes so_far → Stands other bytes as_well → is_at_end one ≡ false → is_at_end other ≡ false →
        so_far ≡ as_well }
    ensures alike { (bytes : List ℕ) (one other : Place) (so_far as_well : List FramePart) →
        Stands one bytes so_far → Stands other bytes as_well → is_at_end one ≡ false → is_at_end other ≡ false →
        (more : List ℕ) → from one more ≡ from other more }
{}

/// What is told of a tape byte by byte is what its definition tells, and it ends alike.
pub fn tapes_by_steps()
    ensures parts { (bytes : List ℕ) → tape_parts bytes ≡ parts_from fresh bytes }
    ensures ending { (bytes : List ℕ) → (tape_read bytes).ending ≡ ending_from fresh bytes }
{}

/// A tape of right records has their parts, is whole and has no fault, and whatever follows is read behind them.
pub fn tapes_are_records()
    ensures parts { (second : Bool) (records : List Record) (more : List ℕ) → AreRecords second 0 records →
        tape_parts (tape second records ++ more) ≡
        flat_map (record_parts second) records ++ parts_from (behind_records second records) more }
    ensures ending { (second : Bool) (records : List Record) (more : List ℕ) → AreRecords second 0 records →
        (tape_read (tape second records ++ more)).ending ≡ ending_from (behind_records second records) more }
    ensures whole { (second : Bool) (records : List Record) → AreRecords second 0 records →
        (tape_read (tape second records)).ending ≡ Whole }
{}

/// However a tape was cut: what is read of it is all of its parts where no more is to be told, and how it ends is how
/// the bytes that were taken do.
pub fn any_tape_cutting()
    ensures all { (bytes : List ℕ) (t : TapeState) (so_far : List RecordPart) → TapeStands t bytes so_far →
        parts_from t [] ≡ [] → so_far ≡ tape_parts bytes }
    ensures ending { (bytes : List ℕ) (t : TapeState) (so_far : List RecordPart) → TapeStands t bytes so_far →
        (tape_read bytes).ending ≡ ending_from t [] }
{}

/// A tape in the second form tells what the tape that it was made of tells: the same records, with their moments in
/// microseconds. Made once more it stays as it is.
pub fn tapes_migrate()
    ensures parts { (bytes : List ℕ) → AreBytes bytes → tape_parts (tape2 bytes) ≡ tape_parts bytes }
    ensures twice { (bytes : List ℕ) → AreBytes bytes → tape2 (tape2 bytes) ≡ tape2 bytes }
    ensures records { (second : Bool) (records : List Record) → AreRecords second 0 records →
        tape2 (tape second records) ≡ tape true (map (record_in_microseconds second) records) }
{}

/// A tape in the second form goes on behind each stretch of the tape that it is made of, by where that stands.
pub fn tapes_migrate_on()
    ensures first { (bytes : List ℕ) → tape2 bytes ≡ migrated_from fresh bytes }
    ensures more { (bytes more : List ℕ) →
        tape2 (bytes ++ more) ≡ tape2 bytes ++ migrated_from (after fresh bytes) more }
    ensures fault { (bytes : List ℕ) → tape_fault bytes ≡ fault_in (ending_at (after fresh bytes)) }
{}
