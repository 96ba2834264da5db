//! A law of commands. The function does nothing; what is proved is its contract.

ghost use Rattle.std.specs.Prelude.{◌≡◌, ℕ, List};
ghost use Rattle.mb_words.specs.Command.{Command, Means};

/// Words are one command at most.
pub fn one_command()
    ensures { (words : List (List ℕ)) (c d : Command) → Means words c → Means words d → c ≡ d }
{}
