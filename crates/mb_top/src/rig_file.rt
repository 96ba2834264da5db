//! The rig that `run` reads from a file.

ghost use Rattle.std.specs.Prelude.{◌≡◌, IsTrue, IfErr, IfOk, OnOk};
ghost use Rattle.mb_rig.specs.RigText.{Right, rig_of};
ghost use Rattle.mb_top.specs.Ran.{Faulted};
ghost use Rattle.mb_top.specs.RigFile.{FilesFit, HasRigStop, IsRigStop, RigRead};
ghost use Rattle.mb_top.specs.declared.status.Status.TheVariants.{Stopped};

use crate::fault::Fault;
use crate::status::Stop;
use crate::text_file::read_file;
use arrayvec::ArrayVec;
use mb_outside::{Desk, Failed};
use mb_rig::{Rig, RigFault};
use std::alloc::Global;

/// One byte more than a rig's text may have.
const TOO_MANY: usize = 65_537;

/// The text, up to the byte that is one too many.
type RigText = ArrayVec<u8, TOO_MANY>;

/// Reads the rig of a file, or answers why there is none: reading failed, a line is faulty, or there is no memory.
pub(crate) fn read_rig<D: Desk>(alloc: Global, file: &str, desk: &mut D) -> Result<Rig, Stop>
    ensures read { IsTrue D.tells → RigRead file.now (D.contents desk.old) (D.contents desk.new) result }
    ensures fit { IfOk result FilesFit }
    ensures stops { IfErr result (λ stop. IsRigStop (Stopped stop)) }
    ensures faults { IfErr result (λ stop. Faulted (Unit {0}) (D.read_faults desk.old) (D.read_faults desk.new)
        (D.write_faults desk.old) (D.write_faults desk.new) (Stopped stop)) }
    ensures sound { OnOk result (D.read_faults desk.new ≡ D.read_faults desk.old) }
    ensures write_faults { D.write_faults desk.new ≡ D.write_faults desk.old }
{
    let mut text = RigText::new();
    match read_file(file, &mut text, desk) {
        Ok(()) => judge(alloc, text.as_slice()),
        Err(Failed) => Err(Stop::ReadFault),
    }
}

/// The rig of a text, or why there is none.
fn judge(alloc: Global, text: &[u8]) -> Result<Rig, Stop>
    ensures rig { IfOk result (λ rig. rig_of text.now ≡ Right rig) }
    ensures fit { IfOk result FilesFit }
    ensures stop { IfErr result (HasRigStop text.now) }
{
    match Rig::read(alloc, text) {
        Ok(rig) => Ok(rig),
        Err(RigFault::Line(line, why)) => Err(Stop::Faulty(Fault::Rig { line, why })),
        Err(RigFault::Memory(_)) => Err(Stop::Faulty(Fault::Memory)),
    }
}
