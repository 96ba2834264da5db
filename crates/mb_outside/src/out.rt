//! A taker of bytes.

ghost use Rattle.std.specs.Prelude.{◌≡◌, ℕ, List, [], ◌++◌, OnOk, OnErr};
ghost use Rattle.mb_outside.specs.Cause.{HasCause};
ghost use Rattle.mb_outside.specs.Taking.{TookFront};

/// A taker of bytes refused some.
#[derive(Clone, Copy, Debug, PartialEq, Eq)]
pub struct Refused;

/// Where a writer's bytes go.
pub trait Out {
    /// When it may be handed bytes.
    ghost ready: { Self → Type 0 };

    /// What it took between two of its states.
    ghost took: { Self → List ℕ → Self → Type 0 };

    /// How often it has refused; it never falls, and rises at a refusal alone.
    ghost refusals: { Self → ℕ };

    /// Takes the piece. After `Refused` it took a beginning of it, and not all.
    fn take(&mut self, piece: &[u8]) -> Result<(), Refused>
        requires { ready self.old }
        ensures ready { ready self.new }
        ensures took { OnOk result (took self.old piece.now self.new) }
        ensures front { OnErr result (TookFront took self.old self.new piece.now) }
        ensures cause { HasCause (refusals self.old) (refusals self.new) result }
        ensures sound { OnOk result (refusals self.new ≡ refusals self.old) };

    /// Nothing taken leaves all as it is.
    ghost nothing: { (out : Self) → took out [] out };

    /// What was taken in two steps was taken.
    ghost both: { (a b c : Self) (x y : List ℕ) → took a x b → took b y c → took a (x ++ y) c };
}
