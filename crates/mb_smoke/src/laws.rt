//! A law of the self-test. The function does nothing; what is proved is its contract.

ghost use Rattle.std.specs.Prelude.{◌≡◌, ℕ, List};
ghost use Rattle.mb_carrier.specs.Carrier.{den};
ghost use Rattle.mb_carrier.specs.declared.spec.Spec.TheVariants.{Din};
ghost use Rattle.mb_smoke.specs.Selftest.{last_written};

/// What is written in the end means what was made.
pub fn selftest_means()
    ensures { (made : List ℕ) → den Din (last_written made) ≡ den Din made }
{}
