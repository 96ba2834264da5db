//! How many bytes crossed each spec of a chain.

ghost use Rattle.std.specs.Prelude.{◌≡◌, ℕ, List, OnOk, OnErr};
ghost use Rattle.mb_outside.specs.Cause.{HasCause};
ghost use Rattle.mb_chain.specs.Chain.{ChainEnded};
ghost use Rattle.mb_top.specs.Job.{ChainOf, Tallied, TalliedPart};

use mb_carrier::{Spec, hop_line};
use mb_chain::Chain;
use mb_outside::{Out, Refused};
use mb_print::Line;

/// Hands on how many bytes crossed each spec of a chain that has ended, a line each.
pub(crate) fn tell_tally<K: Out>(specs: &[Spec], chain: &Chain, out: &mut K) -> Result<(), Refused>
    requires ready { K.ready out.old }
    requires chain { ChainOf specs.now chain.now }
    requires ended { (bytes : List ℕ) × ChainEnded chain.now bytes }
    ensures ready { K.ready out.new }
    ensures cause { HasCause (K.refusals out.old) (K.refusals out.new) result }
    ensures sound { OnOk result (K.refusals out.new ≡ K.refusals out.old) }
    ensures told { OnOk result (Tallied specs.now (ChainEnded chain.now) (λ given. K.took out.old given out.new)) }
    ensures halted { OnErr result (TalliedPart specs.now (ChainEnded chain.now)
        (λ given. K.took out.old given out.new)) }
{
    'specs: for at in 0..specs.len() {
        let mut line = Line::new();
        hop_line(at as u8, specs[at], chain.crossed(at), &mut line);
        if let Err(refused) = out.take(line.as_slice()) {
            return Err(refused);
        }
    }
    Ok(())
}
