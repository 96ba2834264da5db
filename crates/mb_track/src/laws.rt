//! Laws of the definitions. Each function does nothing; what is proved is its contract.

ghost use Rattle.std.specs.Prelude.{◌≡◌, ℕ, ◌<◌, ◌^◌, List, [], ◌++◌, true, false};
ghost use Rattle.mb_message.specs.Front.{IsFront};
ghost use Rattle.mb_stream.specs.Puts.{Put, signs_in};
ghost use Rattle.mb_stream.specs.Standing.{is_open, suited};
ghost use Rattle.mb_frames.specs.Frames.{AreBytes};
ghost use Rattle.mb_carrier.specs.Carrier.{marks_of, marks_so_far};
ghost use Rattle.mb_carrier.specs.declared.spec.Spec.{Spec};
ghost use Rattle.mb_track.specs.Track.{last_record_moment, recording, track_end, track_marks, track_marks_so_far};
ghost use Rattle.mb_track.specs.Track.{track_records};
ghost use Rattle.mb_track.specs.TrackReading.{TrackStands, track_of, track_spec};
ghost use Rattle.mb_track.specs.declared.track.TrackReader.{TrackReader};

/// However records cut a recording, its marks are those of the recording.
pub fn records_cut_anywhere()
    ensures so_far { (s : Spec) (track : ℕ) (tape : List ℕ) →
        signs_in (track_marks_so_far s track tape) ≡ marks_so_far s (recording track (track_records tape)) }
    ensures all { (s : Spec) (track : ℕ) (tape : List ℕ) →
        signs_in (track_marks s track tape) ≡ marks_of s (recording track (track_records tape)) }
    ensures suit { (s : Spec) (track : ℕ) (tape : List ℕ) → suited (signs_in (track_marks s track tape)) ≡ true }
{}

/// While a tape goes on, its marks so far stay.
pub fn tracks_grow()
    ensures { (s : Spec) (track : ℕ) (tape more : List ℕ) →
        IsFront (track_marks_so_far s track tape) (track_marks_so_far s track (tape ++ more)) }
{}

/// Behind all marks of a tape no SysEx is open, and where no record begins nothing is left for the end.
pub fn tracks_end()
    ensures closed { (s : Spec) (track : ℕ) (tape : List ℕ) →
        is_open (signs_in (track_marks s track tape)) ≡ false }
    ensures no_end { (s : Spec) (track : ℕ) (tape : List ℕ) → track_records tape ≡ [] →
        track_end s track tape ≡ [] }
{}

/// The last moment of a tape that is bytes fits in eight of them, where the tape is cut or has a fault too.
pub fn moments_fit()
    ensures { (tape : List ℕ) → AreBytes tape → last_record_moment (track_records tape) < 2 ^ 64 }
{}

/// What a reader told is a front of the marks of what it took and of what stands next, whatever that is.
pub fn readers_tell_a_front()
    ensures front { (r : TrackReader) (taken next : List ℕ) (told : List Put) → TrackStands r taken next told →
        IsFront told (track_marks_so_far (track_spec r) (track_of r) (taken ++ next)) }
    ensures suit { (r : TrackReader) (taken next : List ℕ) (told : List Put) → TrackStands r taken next told →
        suited (signs_in told) ≡ true }
    ensures more { (r : TrackReader) (taken next : List ℕ) (told : List Put) → TrackStands r taken [] told →
        TrackStands r taken next told }
    ensures none { (r : TrackReader) (taken next : List ℕ) (told : List Put) → TrackStands r taken next told →
        track_records (taken ++ next) ≡ [] → told ≡ [] }
{}
