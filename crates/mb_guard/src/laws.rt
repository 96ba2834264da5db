//! Laws of the definitions. Each function does nothing; what is proved is its contract.

ghost use Rattle.std.specs.Prelude.{◌≡◌, ◌++◌, [], List, false};
ghost use Rattle.mb_message.specs.Signs.{Sign};
ghost use Rattle.mb_stream.specs.Denotation.{Meant, denotation, stays_open};
ghost use Rattle.mb_guard.specs.Sounding.{off_marks, offs, sounding, with_items};

/// Behind a Note Off for each note that sounds nothing does.
pub fn offs_silence()
    ensures { (items : List Meant) → sounding (items ++ offs items) ≡ [] }
{}

/// Marks that leave no SysEx open, with the Note Offs behind them, mean what they mean with these Note Offs behind it;
/// real-time messages stay as they are.
pub fn offs_follow()
    ensures { (marks : List Sign) → stays_open false marks ≡ false →
        denotation (marks ++ off_marks marks) ≡ with_items (denotation marks) (offs (denotation marks).items) }
{}
