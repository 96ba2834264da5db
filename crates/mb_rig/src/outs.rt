//! All outs of a rig.

ghost use Rattle.std.specs.Prelude.{◌≡◌, ℕ, ◌+◌, List, [], ◌∷◌, ◌++◌, length, map, IsTrue, OnOk, OnErr};
ghost use Rattle.mb_message.specs.Signs.{sign_of};
ghost use Rattle.mb_stream.specs.Puts.{Put, At, Flush};
ghost use Rattle.mb_outside.specs.Cause.{HasCause};
ghost use Rattle.mb_outside.specs.Contents.{is_writable};
ghost use Rattle.mb_carrier.specs.Carrier.{written};
ghost use Rattle.mb_rig.specs.Outlet.{OutletStands, outlet_spec};
ghost use Rattle.mb_rig.specs.Outs.{AllSuit, OutsEnded, OutsStand, SuitsWhere, WroteAmong, flush_puts};
ghost use Rattle.mb_rig.specs.Outs.{pass_puts};
ghost use Rattle.mb_rig.specs.Merging.Ended.{put_where};

use crate::outlet::Outlet;
use mb_message::Mark;
use mb_outside::{Desk, Refused};

/// A mark passes to each of the outs that it goes to, in their order. Its moment is in milliseconds.
pub(crate) fn pass_on<D: Desk>(
    outs: &mut [Outlet],
    goes: &[bool],
    moment: u64,
    mark: Mark,
    desk: &mut D,
) -> Result<(), Refused>
    requires stand { (first : ℕ) × (putss : List (List Put)) ×
        OutsStand D.tells D.contents first outs.old desk.old putss }
    requires suits { AllSuit goes.now mark outs.old }
    ensures specs { map outlet_spec outs.new ≡ map outlet_spec outs.old }
    ensures stand { OnOk result ((first : ℕ) (putss : List (List Put)) →
        OutsStand D.tells D.contents first outs.old desk.old putss →
        OutsStand D.tells D.contents first outs.new desk.new (pass_puts goes.now (At moment (sign_of mark)) putss)) }
    ensures among { (first : ℕ) (putss : List (List Put)) →
        OutsStand D.tells D.contents first outs.old desk.old putss →
        WroteAmong D.tells D.contents D.read_faults first (length outs.old) desk.old desk.new }
    ensures cause { HasCause (D.write_faults desk.old) (D.write_faults desk.new) result }
    ensures sound { OnOk result (D.write_faults desk.new ≡ D.write_faults desk.old) }
    ensures read_faults { D.read_faults desk.new ≡ D.read_faults desk.old }
{
    let Some((out, outs_behind)) = outs.split_first_mut() else {
        return Ok(());
    };
    let Some((here, goes_behind)) = goes.split_first() else {
        return Ok(());
    };
    if let Err(refused) = pass_to(out, *here, moment, mark, desk) {
        return Err(refused);
    }
    pass_on(outs_behind, goes_behind, moment, mark, desk)
}

/// A mark passes to an out, if it goes there.
fn pass_to<D: Desk>(
    out: &mut Outlet,
    goes: bool,
    moment: u64,
    mark: Mark,
    desk: &mut D,
) -> Result<(), Refused>
    requires writable { IsTrue D.tells → IsTrue (is_writable (D.contents desk.old) out.old.handle) }
    requires suits { SuitsWhere goes mark out.old }
    ensures handle { out.new.handle ≡ out.old.handle }
    ensures spec { outlet_spec out.new ≡ outlet_spec out.old }
    ensures stands { OnOk result ((puts : List Put) → OutletStands D.tells D.contents out.old desk.old puts →
        OutletStands D.tells D.contents out.new desk.new (put_where goes (At moment (sign_of mark)) puts)) }
    ensures among { (puts : List Put) → OutletStands D.tells D.contents out.old desk.old puts →
        WroteAmong D.tells D.contents D.read_faults out.old.handle 1 desk.old desk.new }
    ensures cause { HasCause (D.write_faults desk.old) (D.write_faults desk.new) result }
    ensures sound { OnOk result (D.write_faults desk.new ≡ D.write_faults desk.old) }
    ensures read_faults { D.read_faults desk.new ≡ D.read_faults desk.old }
{
    if goes {
        out.put(moment, mark, desk)
    } else {
        Ok(())
    }
}

/// Each out ends the packet under way, if there is one.
pub(crate) fn flush_all<D: Desk>(outs: &mut [Outlet], desk: &mut D) -> Result<(), Refused>
    requires { (first : ℕ) × (putss : List (List Put)) × OutsStand D.tells D.contents first outs.old desk.old putss }
    ensures specs { map outlet_spec outs.new ≡ map outlet_spec outs.old }
    ensures stand { OnOk result ((first : ℕ) (putss : List (List Put)) →
        OutsStand D.tells D.contents first outs.old desk.old putss →
        OutsStand D.tells D.contents first outs.new desk.new (flush_puts putss)) }
    ensures among { (first : ℕ) (putss : List (List Put)) →
        OutsStand D.tells D.contents first outs.old desk.old putss →
        WroteAmong D.tells D.contents D.read_faults first (length outs.old) desk.old desk.new }
    ensures cause { HasCause (D.write_faults desk.old) (D.write_faults desk.new) result }
    ensures sound { OnOk result (D.write_faults desk.new ≡ D.write_faults desk.old) }
    ensures read_faults { D.read_faults desk.new ≡ D.read_faults desk.old }
{
    let Some((out, outs_behind)) = outs.split_first_mut() else {
        return Ok(());
    };
    if let Err(refused) = flush(out, desk) {
        return Err(refused);
    }
    flush_all(outs_behind, desk)
}

/// An out ends the packet under way.
fn flush<D: Desk>(out: &mut Outlet, desk: &mut D) -> Result<(), Refused>
    requires { IsTrue D.tells → IsTrue (is_writable (D.contents desk.old) out.old.handle) }
    ensures handle { out.new.handle ≡ out.old.handle }
    ensures spec { outlet_spec out.new ≡ outlet_spec out.old }
    ensures stands { OnOk result ((puts : List Put) → OutletStands D.tells D.contents out.old desk.old puts →
        OutletStands D.tells D.contents out.new desk.new (puts ++ Flush ∷ [])) }
    ensures among { (puts : List Put) → OutletStands D.tells D.contents out.old desk.old puts →
        WroteAmong D.tells D.contents D.read_faults out.old.handle 1 desk.old desk.new }
    ensures cause { HasCause (D.write_faults desk.old) (D.write_faults desk.new) result }
    ensures sound { OnOk result (D.write_faults desk.new ≡ D.write_faults desk.old) }
    ensures read_faults { D.read_faults desk.new ≡ D.read_faults desk.old }
{
    out.flush(desk)
}

/// Each out writes what the end of all marks adds.
pub(crate) fn finish_all<D: Desk>(outs: &mut [Outlet], desk: &mut D) -> Result<(), Refused>
    requires { (first : ℕ) × (putss : List (List Put)) × OutsStand D.tells D.contents first outs.old desk.old putss }
    ensures ended { OnOk result ((first : ℕ) (putss : List (List Put)) →
        OutsStand D.tells D.contents first outs.old desk.old putss →
        OutsEnded D.tells D.contents first outs.old desk.new putss) }
    ensures among { (first : ℕ) (putss : List (List Put)) →
        OutsStand D.tells D.contents first outs.old desk.old putss →
        WroteAmong D.tells D.contents D.read_faults first (length outs.old) desk.old desk.new }
    ensures cause { HasCause (D.write_faults desk.old) (D.write_faults desk.new) result }
    ensures sound { OnOk result (D.write_faults desk.new ≡ D.write_faults desk.old) }
    ensures read_faults { D.read_faults desk.new ≡ D.read_faults desk.old }
{
    let Some((out, outs_behind)) = outs.split_first_mut() else {
        return Ok(());
    };
    if let Err(refused) = finish(out, desk) {
        return Err(refused);
    }
    finish_all(outs_behind, desk)
}

/// An out writes what the end of all marks adds.
fn finish<D: Desk>(out: &mut Outlet, desk: &mut D) -> Result<(), Refused>
    requires { IsTrue D.tells → IsTrue (is_writable (D.contents desk.old) out.old.handle) }
    ensures ended { OnOk result ((puts : List Put) → OutletStands D.tells D.contents out.old desk.old puts →
        IsTrue D.tells → (D.contents desk.new).written out.old.handle ≡ written (outlet_spec out.old) puts) }
    ensures among { (puts : List Put) → OutletStands D.tells D.contents out.old desk.old puts →
        WroteAmong D.tells D.contents D.read_faults out.old.handle 1 desk.old desk.new }
    ensures cause { HasCause (D.write_faults desk.old) (D.write_faults desk.new) result }
    ensures sound { OnOk result (D.write_faults desk.new ≡ D.write_faults desk.old) }
    ensures read_faults { D.read_faults desk.new ≡ D.read_faults desk.old }
{
    out.finish(desk)
}
