//! Laws of the definitions. Each function does nothing; what is proved is its contract.

ghost use Rattle.std.specs.Prelude.{◌≡◌, ◌+◌, ◌*◌, ◌≤◌, ℕ, List, [], ◌∷◌, ◌++◌, length, true};
ghost use Rattle.mb_message.specs.Signs.{Sign, AbortSign};
ghost use Rattle.mb_stream.specs.Denotation.{denotation};
ghost use Rattle.mb_stream.specs.Lacking.{Lacks};
ghost use Rattle.mb_stream.specs.Reading.{notes_of, signs_of};
ghost use Rattle.mb_stream.specs.Standing.{AreValid, suited, is_open};
ghost use Rattle.mb_message.specs.Front.{IsFront};
ghost use Rattle.mb_usb.specs.Cables.{cable_so_far};
ghost use Rattle.mb_usb.specs.Reading.{cable_payload, usb_reading, usb_so_far, usb_whole};
ghost use Rattle.mb_usb.specs.Running.{usb_at, usb_from, pending_from};
ghost use Rattle.mb_usb.specs.Written.{usb_live, usb_written};

/// What a list is written as, mark by mark: the live part is what is written at each mark, the rest is what waits at
/// the end, and an abort there would write the same.
pub fn usb_writing()
    ensures live { (cable : ℕ) (marks : List Sign) → suited marks ≡ true →
        usb_live cable marks ≡ usb_from cable [] marks }
    ensures rest { (cable : ℕ) (marks : List Sign) → suited marks ≡ true →
        usb_written cable marks ≡ usb_live cable marks ++ usb_at cable (pending_from [] marks) AbortSign }
    ensures broken { (cable : ℕ) (marks : List Sign) → suited marks ≡ true → is_open marks ≡ true →
        usb_live cable (marks ++ AbortSign ∷ []) ≡ usb_written cable marks }
{}

/// What is read of a cable's written marks means what they mean, is at most one mark more, and has no note. It is whole
/// packets, of at most four bytes a mark. No other cable carries anything of it, whatever the marks.
pub fn usb_carries()
    ensures means { (cable : ℕ) (marks : List Sign) → suited marks ≡ true → AreValid marks →
        denotation (signs_of (usb_reading cable (usb_written cable marks))) ≡ denotation marks }
    ensures one_more { (cable : ℕ) (marks : List Sign) → suited marks ≡ true → AreValid marks →
        length (signs_of (usb_reading cable (usb_written cable marks))) ≤ length marks + 1 }
    ensures size { (cable : ℕ) (marks : List Sign) → suited marks ≡ true →
        length (usb_written cable marks) ≤ 4 * length marks }
    ensures clean { (cable : ℕ) (marks : List Sign) → suited marks ≡ true → AreValid marks →
        notes_of (usb_reading cable (usb_written cable marks)) ≡ [] }
    ensures whole { (cable : ℕ) (marks : List Sign) → suited marks ≡ true → usb_whole (usb_written cable marks) ≡ true }
    ensures alone { (cable other : ℕ) (marks : List Sign) → (other ≡ cable → ⊥) →
        cable_payload other (usb_written cable marks) ≡ [] }
{}

/// What is known of the live part of written marks lacks two bytes of SysEx at most of what they mean: those that fill
/// no packet yet.
pub fn usb_holds_back()
    ensures { (cable : ℕ) (marks : List Sign) → suited marks ≡ true → AreValid marks →
        Lacks 2 (denotation (signs_of (usb_so_far cable (usb_live cable marks)))) (denotation marks) }
{}

/// The marks of the reading of any bytes are valid and stand where a stream can have them. They are at most two a byte.
pub fn usb_reading_suits()
    ensures suits { (cable : ℕ) (bytes : List ℕ) → suited (signs_of (usb_reading cable bytes)) ≡ true }
    ensures valid { (cable : ℕ) (bytes : List ℕ) → AreValid (signs_of (usb_reading cable bytes)) }
    ensures few { (cable : ℕ) (bytes : List ℕ) → length (signs_of (usb_reading cable bytes)) ≤ 2 * length bytes }
{}

/// What is known of a cable at some bytes of a recording stays known, whatever follows.
pub fn usb_reading_grows()
    ensures { (cable : ℕ) (bytes more : List ℕ) →
        IsFront (cable_so_far cable bytes) (cable_so_far cable (bytes ++ more)) }
{}
