//! Laws of the definitions. Each function does nothing; what is proved is its contract.

ghost use Rattle.std.specs.Prelude.{◌≡◌, ℕ, List, true};
ghost use Rattle.mb_message.specs.Signs.{Sign};
ghost use Rattle.mb_stream.specs.Denotation.{denotation};
ghost use Rattle.mb_stream.specs.Standing.{AreValid, suited};
ghost use Rattle.mb_filter.specs.declared.rule.Rule.{Rule};
ghost use Rattle.mb_filter.specs.InRange.{IfRules};
ghost use Rattle.mb_filter.specs.Mapped.{mapped, mapped_marks};
ghost use Rattle.mb_filter.specs.Read.{rules_of};

/// What the marks that are kept mean is what the rules make of the messages: each as they say, in order, and each
/// real-time message after as many of them as are kept before it.
pub fn kept_marks_mean_mapped()
    ensures { (rules : List Rule) (marks : List Sign) →
        denotation (mapped_marks rules marks) ≡ mapped rules (denotation marks) }
{}

/// Where marks stand as a stream can have them, so do those that are kept; where they are valid, these are.
pub fn kept_marks_suit()
    ensures suits { (rules : List Rule) (marks : List Sign) → suited marks ≡ true →
        suited (mapped_marks rules marks) ≡ true }
    ensures valid { (rules : List Rule) (marks : List Sign) → AreValid marks → AreValid (mapped_marks rules marks) }
{}

/// Rules that are read from a text have channels from 1 to 16, the first not above the last; a channel that is given is
/// 1 to 16, for channel messages alone, and a step 1 to 127, for notes alone.
pub fn read_rules_are_in_range()
    ensures { (text : List ℕ) → IfRules (rules_of text) }
{}
