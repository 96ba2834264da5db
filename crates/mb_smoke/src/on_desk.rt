//! The self-test on a desk.

ghost use Rattle.std.specs.Prelude.{◌≡◌, ℕ, ◌≤◌, false, List, IsTrue};
ghost use Rattle.mb_message.specs.Front.{IsPart};
ghost use Rattle.mb_outside.specs.Cause.{Rose};
ghost use Rattle.mb_outside.specs.Contents.{is_writable};
ghost use Rattle.mb_outside.specs.Taking.{Wrote};
ghost use Rattle.mb_smoke.specs.Selftest.{selftest_text};
ghost use Rattle.mb_smoke.specs.End.{wants_memory};
ghost use Rattle.mb_smoke.specs.declared.on_desk.SmokeEnd.TheVariants as end;

use crate::conversion::lines_of;
use mb_message::Memory;
use mb_outside::{Desk, Refused, write_all};
use std::alloc::Global;

/// How a self-test ended.
#[derive(Clone, Copy, Debug, PartialEq, Eq)]
pub enum SmokeEnd {
    /// The four lines were written.
    Done,
    /// Writing failed: a front of them is written.
    WriteFault,
    /// There was no memory for the chain. Its carriers want none, so it never comes.
    Memory(Memory),
}

/// Makes so many units of a byte line, the generator's first state given, converts them by `din usb:0 ble fw:0 din` and
/// writes the four lines to standard output. Nothing is read.
pub fn selftest<D: Desk>(alloc: Global, start: u32, count: u32, desk: &mut D) -> SmokeEnd
    requires few { count ≤ 1000000 }
    requires output { IsTrue D.tells → IsTrue (is_writable (D.contents desk.old) 1) }
    ensures done { result ≡ end.Done →
        Wrote D.tells D.contents D.read_faults 1 desk.old (selftest_text start count) desk.new }
    ensures part { result ≡ end.WriteFault → (front : List ℕ) × IsPart front (selftest_text start count) ×
        Wrote D.tells D.contents D.read_faults 1 desk.old front desk.new }
    ensures never { wants_memory result ≡ false }
    ensures later { D.write_faults desk.old ≤ D.write_faults desk.new }
    ensures cause { result ≡ end.WriteFault → Rose (D.write_faults desk.old) (D.write_faults desk.new) }
    ensures sound { result ≡ end.Done → D.write_faults desk.new ≡ D.write_faults desk.old }
    ensures read_faults { D.read_faults desk.new ≡ D.read_faults desk.old }
{
    let lines = lines_of(alloc, start, count);
    match write_all(desk, 1, lines.as_slice()) {
        Ok(()) => SmokeEnd::Done,
        Err(Refused) => SmokeEnd::WriteFault,
    }
}
