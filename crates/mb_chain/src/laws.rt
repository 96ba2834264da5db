//! Laws of chains. The function does nothing; what is proved is its contract.

ghost use Rattle.std.specs.Prelude.{◌≡◌, ℕ, List, [], ◌∷◌, ◌++◌};
ghost use Rattle.mb_carrier.specs.Conversion.{none_set, through, live_through};
ghost use Rattle.mb_carrier.specs.declared.spec.Spec.{Spec};
ghost use Rattle.mb_chain.specs.Row.{live_over, through_over};
ghost use Rattle.mb_chain.specs.Chain.{links_of};

/// A chain's hops do what the conversion by its specs is.
pub fn chain_laws()
    ensures live { (first : Spec) (between : List Spec) (last : Spec) (bytes : List ℕ) →
        live_over (links_of (first ∷ (between ++ last ∷ []))) none_set bytes ≡ live_through first between last bytes }
    ensures whole { (first : Spec) (between : List Spec) (last : Spec) (bytes : List ℕ) →
        through_over (links_of (first ∷ (between ++ last ∷ []))) none_set bytes ≡ through first between last bytes }
{}
