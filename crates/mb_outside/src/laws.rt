//! Laws of a desk's handles.

ghost use Rattle.std.specs.Prelude.{◌≡◌, ◌≢◌, ℕ, true, List};
ghost use Rattle.mb_outside.specs.Contents.{Contents, SameAt, after_read, after_write, after_open, after_create};
ghost use Rattle.mb_outside.specs.Contents.{next_handle, is_readable, is_writable};

/// What a call leaves of the handles that it isn't about: all that they hold, and what they are for.
pub fn others_stay()
    ensures read { (handle n : ℕ) (c : Contents) (other : ℕ) → other ≢ handle →
        SameAt c (after_read handle n c) other }
    ensures written { (handle : ℕ) (bytes : List ℕ) (c : Contents) (other : ℕ) → other ≢ handle →
        SameAt c (after_write handle bytes c) other }
    ensures opened { (name content : List ℕ) (c : Contents) (other : ℕ) → other ≢ next_handle c →
        SameAt c (after_open name content c) other }
    ensures created { (name : List ℕ) (c : Contents) (other : ℕ) → other ≢ next_handle c →
        SameAt c (after_create name c) other }
{}

/// A handle that was given is for what it was asked for.
pub fn given_handles()
    ensures opened { (name content : List ℕ) (c : Contents) →
        is_readable (after_open name content c) (next_handle c) ≡ true }
    ensures created { (name : List ℕ) (c : Contents) → is_writable (after_create name c) (next_handle c) ≡ true }
{}
