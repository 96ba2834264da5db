//! The rules that a filter reads from a file.

ghost use Rattle.std.specs.Prelude.{◌≡◌, IsTrue, IfErr, OnOk};
ghost use Rattle.mb_filter.specs.Read.{rules_of};
ghost use Rattle.mb_top.specs.Ran.{Faulted};
ghost use Rattle.mb_top.specs.RulesFile.{HasJudged, IsRulesStop, RulesRead};
ghost use Rattle.mb_top.specs.declared.status.Status.TheVariants.{Stopped};

use crate::fault::Fault;
use crate::status::Stop;
use crate::text_file::read_file;
use arrayvec::ArrayVec;
use mb_filter::Rules;
use mb_outside::{Desk, Failed};

/// One byte more than a text of rules may have.
const TOO_MANY: usize = 4097;

/// The text, up to the byte that is one too many.
type RulesText = ArrayVec<u8, TOO_MANY>;

/// Reads the rules of a file, or answers why there are none: reading failed, or a line is faulty.
pub(crate) fn read_rules<D: Desk>(file: &str, desk: &mut D) -> Result<Rules, Stop>
    ensures read { IsTrue D.tells → RulesRead file.now (D.contents desk.old) (D.contents desk.new) result }
    ensures stops { IfErr result (λ stop. IsRulesStop (Stopped stop)) }
    ensures faults { IfErr result (λ stop. Faulted (Unit {0}) (D.read_faults desk.old) (D.read_faults desk.new)
        (D.write_faults desk.old) (D.write_faults desk.new) (Stopped stop)) }
    ensures sound { OnOk result (D.read_faults desk.new ≡ D.read_faults desk.old) }
    ensures write_faults { D.write_faults desk.new ≡ D.write_faults desk.old }
{
    let mut text = RulesText::new();
    match read_file(file, &mut text, desk) {
        Ok(()) => judge(text.as_slice()),
        Err(Failed) => Err(Stop::ReadFault),
    }
}

/// The rules of a text, or its fault.
fn judge(text: &[u8]) -> Result<Rules, Stop>
    ensures { HasJudged (rules_of text.now) result }
{
    match Rules::read(text) {
        Ok(rules) => Ok(rules),
        Err(fault) => Err(Stop::Faulty(Fault::Rules(fault))),
    }
}
