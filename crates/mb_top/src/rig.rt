//! A rig that is run.

ghost use Rattle.std.specs.Prelude.{◌≡◌, ◌≤◌, ◌^◌, IsTrue, length};
ghost use Rattle.mb_rig.specs.RigRun.{EndLink};
ghost use Rattle.mb_words.specs.Command.{RunningRig};
ghost use Rattle.mb_top.specs.Ran.{CommandMay, Faulted};
ghost use Rattle.mb_top.specs.RigFile.{EndsIn, FilesFit, RigDid};

use crate::fault::Fault;
use crate::rig_file::read_rig;
use crate::status::{FileName, Status, Stop};
use mb_outside::Desk;
use mb_rig::{Name, Rig, RigEnd, run_rig};
use std::alloc::Global;

/// Reads the rig of a file, and merges its tapes into its outs. At most `limit` bytes are taken of each tape.
pub(crate) fn merge<D: Desk>(alloc: Global, file: &str, desk: &mut D, limit: u64) -> Status
    requires most { limit ≤ 2 ^ 40 }
    ensures did { IsTrue D.tells → RigDid file.now limit (D.contents desk.old) (D.contents desk.new) result }
    ensures may { CommandMay (RunningRig file.now) result }
    ensures faults { Faulted (Unit {0}) (D.read_faults desk.old) (D.read_faults desk.new) (D.write_faults desk.old)
        (D.write_faults desk.new) result }
{
    match read_rig(alloc, file, desk) {
        Ok(rig) => {
            let end = run_rig(alloc, &rig, desk, limit);
            status_of(&rig, end)
        }
        Err(stop) => Status::Stopped(stop),
    }
}

/// The answer to an end of a run.
fn status_of(rig: &Rig, end: RigEnd) -> Status
    requires fit { FilesFit rig.now }
    requires link { EndLink rig.now end }
    ensures { EndsIn rig.now end result }
{
    match end {
        RigEnd::Done => Status::Done,
        RigEnd::Cut => Status::Cut,
        RigEnd::ReadFault => Status::Stopped(Stop::ReadFault),
        RigEnd::WriteFault => Status::Stopped(Stop::Refused),
        RigEnd::BadTape { link, fault } => {
            let port = &rig.ins()[usize::from(link)];
            Status::BadTape {
                file: name_of(&port.file),
                fault,
            }
        }
        RigEnd::TooLong { .. } => Status::Stopped(Stop::TooLong),
        RigEnd::Memory(_) => Status::Stopped(Stop::Faulty(Fault::Memory)),
    }
}

/// A file's name to keep.
fn name_of(file: &Name) -> FileName
    requires { length file.now ≤ 255 }
    ensures { result.items ≡ file.now }
{
    let mut name = FileName::new();
    // There is room.
    let _fits = name.try_extend_from_slice(file.text().as_bytes());
    name
}
