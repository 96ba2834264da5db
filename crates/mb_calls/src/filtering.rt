//! Tapes that rules filter, piece by piece.

ghost use Rattle.std.specs.Prelude.{ℕ, ◌≤◌, List, [], length, OnOk};
ghost use Rattle.mb_rewrite.specs.Filtering.{FilteringStands};

use mb_carrier::Spec;
use mb_filter::Rules;
use mb_frames::TapeFault;
use mb_outside::{MemoryOut, Refused};
use mb_rewrite::Filtering;
use std::alloc::Global;

/// Feeds a tape in pieces of three bytes, up to a fault.
fn feed_all(
    filtering: &mut Filtering,
    tape: &[u8],
    out: &mut MemoryOut,
) -> Result<Option<TapeFault>, Refused>
    requires fresh { FilteringStands filtering.old [] }
    requires short { length tape.now ≤ 1024 }
    ensures stands { OnOk result ((bytes : List ℕ) × FilteringStands filtering.new bytes) }
{
    let mut rest = tape;
    'pieces: while !rest.is_empty() {
        let (piece, others) = rest.split_at(rest.len().min(3));
        rest = others;
        if let Some(fault) = filtering.feed(piece, out)? {
            return Ok(Some(fault));
        }
    }
    Ok(None)
}

/// Whether rules leave this of a tape, which is cut or isn't.
fn leaves(alloc: Global, rules: &[u8], tape: &[u8], is_cut: bool, written: &[u8]) -> bool
    requires { length tape.now ≤ 1024 }
{
    let Ok(rules) = Rules::read(rules) else {
        return false;
    };
    let Ok(mut out) = MemoryOut::new(alloc, 1024) else {
        return false;
    };
    let mut filtering = Filtering::new(rules, Spec::Din);
    let Ok(None) = feed_all(&mut filtering, tape, &mut out) else {
        return false;
    };
    if filtering.partial() != is_cut || filtering.finish(&mut out).is_err() {
        return false;
    }
    out.bytes() == written
}

/// Rules, tapes of a byte line, whether they are cut, and what is left.
const LEFT: &[(&[u8], &[u8], bool, &[u8])] = &[
    (
        // a whole step up, without clocks; the third record is of another track
        b"note * up 2\nclock * drop",
        b"MBT2\0\0\0\0\0\0\x13\x88\0\0\x04\x90\x3c\x64\xf8\0\0\0\0\0\0\x1b\x58\0\0\x01\xf8\0\0\0\0\0\0\x1b\x58\x01\0\x01\xfa\0\0\0\0\0\0\x1f\x40\0\0\x03\x80\x3c\0",
        false,
        b"MBT2\0\0\0\0\0\0\x13\x88\0\0\x03\x90\x3e\x64\0\0\0\0\0\0\x1f\x40\0\0\x03\x80\x3e\0",
    ),
    (
        // a dump that is open at the end is dropped with its start
        b"sysex * drop",
        b"MBT1\0\0\0\0\0\0\0\x05\0\x05\xf0\x01\xf8\x02\x03",
        false,
        b"MBT2\0\0\0\0\0\0\x13\x88\0\0\x01\xf8",
    ),
    (
        // a record that is cut
        b"note 1 keep\nnote * drop",
        b"MBT1\0\0\0\0\0\0\0\x05\0\x07\x91\x3c\x64\x90\x3c\x64",
        true,
        b"MBT2\0\0\0\0\0\0\x13\x88\0\0\x03\x90\x3c\x64",
    ),
    // nothing at all
    (b"", b"", true, b"MBT2"),
];

#[test]
fn what_rules_leave_of_tapes(rt: HostRuntime) {
    for (rules, tape, is_cut, written) in LEFT {
        assert!(rt; tape.len() <= 1024);
        assert!(rt; leaves(rt.alloc(), rules, tape, *is_cut, written));
    }
}

/// A tape whose second record is earlier than its first, and one that there is no room for.
#[test]
fn tapes_that_stop(rt: HostRuntime) {
    let tape = b"MBT1\0\0\0\0\0\0\0\x05\0\x01\xf8\0\0\0\0\0\0\0\x04\0\x01\xf8";
    let rules = Rules::read(b"reset * drop").ok().expect(&rt, "rules");
    let mut out = MemoryOut::new(rt.alloc(), 1024).expect(&rt, "memory");
    let mut filtering = Filtering::new(rules, Spec::Din);
    let back = TapeFault::Back { was: 5, now: 4 };
    assert!(rt; feed_all(&mut filtering, tape, &mut out) == Ok(Some(back)));
    let rules = Rules::read(b"").ok().expect(&rt, "rules");
    let mut out = MemoryOut::new(rt.alloc(), 3).expect(&rt, "memory");
    let mut filtering = Filtering::new(rules, Spec::Din);
    assert!(rt; feed_all(&mut filtering, b"MBT1", &mut out) == Err(Refused));
}
