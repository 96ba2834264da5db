//! The passing of a mark.

ghost use Rattle.std.specs.Prelude.{◌≡◌, ◌≤◌, ◌/◌, ◌++◌, ℕ, List, length, map, IsTrue, OnErr, OnOk};
ghost use Rattle.mb_message.specs.Front.{IsFront};
ghost use Rattle.mb_message.specs.Signs.{sign_of};
ghost use Rattle.mb_stream.specs.Puts.{Put, At};
ghost use Rattle.mb_outside.specs.Cause.{HasCause};
ghost use Rattle.mb_rig.specs.Outlet.{outlet_spec};
ghost use Rattle.mb_rig.specs.Outs.{AllSuit, OutsStand, pass_puts};
ghost use Rattle.mb_rig.specs.PassedOn.{PassedOn};
ghost use Rattle.mb_rig.specs.PassingLine.{passing_text};
ghost use Rattle.mb_rig.specs.Bay.{BayWrote};

use crate::outlet::Outlet;
use crate::outs::pass_on;
use crate::report::tell_passing;
use mb_merge::Passed;
use mb_outside::{Desk, Refused};

/// A mark that passes at a moment in microseconds is written to the outs that it goes to, in their order, and then its
/// line to standard output.
pub(crate) fn pass<D: Desk>(
    outs: &mut [Outlet],
    goes: &[bool],
    passed: Passed,
    moment: u64,
    desk: &mut D,
) -> Result<(), Refused>
    requires stand { (first : ℕ) × (putss : List (List Put)) ×
        OutsStand D.tells D.contents first outs.old desk.old putss }
    requires suits { AllSuit goes.now passed.mark outs.old }
    ensures specs { map outlet_spec outs.new ≡ map outlet_spec outs.old }
    ensures stand { OnOk result ((first : ℕ) (putss : List (List Put)) → 3 ≤ first →
        OutsStand D.tells D.contents first outs.old desk.old putss →
        OutsStand D.tells D.contents first outs.new desk.new
        (pass_puts goes.now (At (moment / 1000) (sign_of passed.mark)) putss)) }
    ensures passed { OnOk result ((first : ℕ) (putss : List (List Put)) →
        OutsStand D.tells D.contents first outs.old desk.old putss →
        PassedOn D.tells D.contents D.read_faults first (length outs.old) moment passed desk.old desk.new) }
    ensures part { OnErr result ((first : ℕ) (putss : List (List Put)) → 3 ≤ first →
        OutsStand D.tells D.contents first outs.old desk.old putss → IsTrue D.tells →
        (front : List ℕ) × IsFront front (passing_text moment passed)
        × ((D.contents desk.new).written 1 ≡ (D.contents desk.old).written 1 ++ front)) }
    ensures wrote { (first : ℕ) (putss : List (List Put)) → 3 ≤ first →
        OutsStand D.tells D.contents first outs.old desk.old putss →
        BayWrote D.tells D.contents first (length outs.old) desk.old desk.new }
    ensures cause { HasCause (D.write_faults desk.old) (D.write_faults desk.new) result }
    ensures sound { OnOk result (D.write_faults desk.new ≡ D.write_faults desk.old) }
    ensures read_faults { D.read_faults desk.new ≡ D.read_faults desk.old }
{
    if let Err(refused) = pass_on(outs, goes, moment / 1000, passed.mark, desk) {
        return Err(refused);
    }
    tell_passing(passed, moment, desk)
}
