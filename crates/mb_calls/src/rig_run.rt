//! A rig that is run, and each call of the desk that a run makes, failing in turn.

use mb_outside::MemoryDesk;
use mb_rig::{Rig, RigEnd, run_rig};
use std::alloc::Global;
use std::process::Abort;

const STAGE: &[u8] =
    b"in keys din a.mbt\nin pad din b.mbt\nout synth din o.bin\nroute keys synth\nroute pad synth\n";

/// A dump whose last byte stands in a later record.
const DUMP: &[u8] = b"MBT1\0\0\0\0\0\0\0\0\0\x02\xf0\x01\0\0\0\0\0\0\0\x02\0\x01\xf7";

/// A key, which waits for the dump's end, and a clock, which doesn't.
const KEY: &[u8] = b"MBT1\0\0\0\0\0\0\0\x01\0\x04\x90\x3c\x64\xf8";

/// A desk with both tapes, of which these calls fail.
fn desk_of(rt: &impl Abort, alloc: Global, fails: &[u64]) -> MemoryDesk {
    let mut desk = MemoryDesk::new(alloc, 1024).expect(rt, "memory");
    desk.put_file("a.mbt", DUMP).expect(rt, "memory");
    desk.put_file("b.mbt", KEY).expect(rt, "memory");
    desk.plan_faults(fails).expect(rt, "memory");
    desk
}

#[test]
fn a_key_waits_for_the_end_of_a_dump(rt: HostRuntime) {
    let rig = Rig::read(rt.alloc(), STAGE).expect(&rt, "a rig");
    let mut desk = desk_of(&rt, rt.alloc(), &[]);
    assert!(rt; run_rig(rt.alloc(), &rig, &mut desk, 1 << 40) == RigEnd::Done);
    assert!(rt; desk.is_written(1, b"1 1 1 R\n2 2 0 S\n1 2 1 M\n"));
    assert!(rt; desk.is_written(5, b"\xf0\x01\xf8\xf7\x90\x3c\x64"));
}

/// What the run comes to where one call fails, and the report by then: the tapes are opened and the out is created;
/// each tape is read; the dump's start is written, and the clock and its line; the second tape's end is read; the
/// dump's end and the key are written, each with its line behind it; the first tape's end is read. There is no further
/// call.
const FAILING: &[(u64, RigEnd, &[u8])] = &[
    (1, RigEnd::ReadFault, b""),
    (2, RigEnd::ReadFault, b""),
    (3, RigEnd::WriteFault, b""),
    (4, RigEnd::ReadFault, b""),
    (5, RigEnd::ReadFault, b""),
    (6, RigEnd::WriteFault, b""),
    (7, RigEnd::WriteFault, b""),
    (8, RigEnd::WriteFault, b""),
    (9, RigEnd::WriteFault, b""),
    (10, RigEnd::ReadFault, b"1 1 1 R\n"),
    (11, RigEnd::WriteFault, b"1 1 1 R\n"),
    (12, RigEnd::WriteFault, b"1 1 1 R\n"),
    (13, RigEnd::WriteFault, b"1 1 1 R\n2 2 0 S\n"),
    (14, RigEnd::WriteFault, b"1 1 1 R\n2 2 0 S\n"),
    (15, RigEnd::ReadFault, b"1 1 1 R\n2 2 0 S\n1 2 1 M\n"),
    (16, RigEnd::Done, b"1 1 1 R\n2 2 0 S\n1 2 1 M\n"),
];

#[test]
fn each_call_of_a_run_fails_in_turn(rt: HostRuntime) {
    let rig = Rig::read(rt.alloc(), STAGE).expect(&rt, "a rig");
    for (call, end, report) in FAILING {
        let mut desk = desk_of(&rt, rt.alloc(), &[*call]);
        assert!(rt; run_rig(rt.alloc(), &rig, &mut desk, 1 << 40) == *end);
        assert!(rt; desk.is_written(1, report));
    }
}
