//! A law of what is made. The function does nothing; what is proved is its contract.

ghost use Rattle.std.specs.Prelude.{ℕ, ◌*◌, ◌≤◌, length};
ghost use Rattle.mb_make.specs.Generated.{generated};

/// A unit has 66 bytes at most.
pub fn generated_is_bounded()
    ensures { (start count : ℕ) → length (generated start count) ≤ 66 * count }
{}
