//! The report of what passes.

ghost use Rattle.std.specs.Prelude.{◌≡◌, ℕ, List, OnOk, OnErr};
ghost use Rattle.mb_message.specs.Front.{IsPart};
ghost use Rattle.mb_outside.specs.Cause.{HasCause};
ghost use Rattle.mb_outside.specs.Taking.{Wrote};
ghost use Rattle.mb_message.specs.Signs.{sign_of};
ghost use Rattle.mb_rig.specs.Merging.Report.{kind_of_sign};
ghost use Rattle.mb_rig.specs.PassingLine.{passing_text};

use mb_merge::Passed;
use mb_message::Mark;
use mb_outside::{Desk, Refused, write_all};
use mb_print::{Kind, Line, report_line};

/// Standard output.
const REPORT: u32 = 1;

/// Writes the line of a mark that passes at a moment in microseconds, where it completes something.
pub(crate) fn tell_passing<D: Desk>(
    passed: Passed,
    moment: u64,
    desk: &mut D,
) -> Result<(), Refused>
    ensures told { OnOk result
        (Wrote D.tells D.contents D.read_faults 1 desk.old (passing_text moment passed) desk.new) }
    ensures part { OnErr result ((front : List ℕ) × IsPart front (passing_text moment passed) ×
        Wrote D.tells D.contents D.read_faults 1 desk.old front desk.new) }
    ensures cause { HasCause (D.write_faults desk.old) (D.write_faults desk.new) result }
    ensures sound { OnOk result (D.write_faults desk.new ≡ D.write_faults desk.old) }
    ensures read_faults { D.read_faults desk.new ≡ D.read_faults desk.old }
{
    let Some(kind) = kind_of(passed.mark) else {
        return Ok(());
    };
    let mut line = Line::new();
    report_line(
        passed.arrival / 1000,
        moment / 1000,
        passed.source,
        kind,
        &mut line,
    );
    write_all(desk, REPORT, line.as_slice())
}

/// What a mark completes.
fn kind_of(mark: Mark) -> Option<Kind>
    ensures { result ≡ kind_of_sign (sign_of mark) }
{
    match mark {
        Mark::Short(_) => Some(Kind::M),
        Mark::Rt(_) => Some(Kind::R),
        Mark::End => Some(Kind::S),
        Mark::Abort => Some(Kind::B),
        Mark::Open | Mark::Byte(_) => None,
    }
}
