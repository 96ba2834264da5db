//! Words, desks and outs.

use mb_outside::{Args, Desk, DeskOut, MemoryDesk, MemoryOut, Out, RealDesk, write_all};
use std::alloc::Global;
use std::fs;
use std::process::Abort;

#[test]
fn words_keep_their_order(rt: HostRuntime) {
    let mut words = Args::new(rt.alloc());
    words.push("convert").expect(&rt, "memory");
    words.push("din").expect(&rt, "memory");
    assert!(rt; words.len() == 2);
    assert!(rt; words.word(0) == "convert" && words.word(1) == "din");
}

/// A desk with three bytes of input, of which a read gives two, room for as many bytes, and a second call that fails.
fn desk_of(rt: &impl Abort, alloc: Global, room: usize) -> MemoryDesk {
    let mut desk = MemoryDesk::new(alloc, room).expect(rt, "memory");
    desk.put_input(&[1, 2, 3]).expect(rt, "memory");
    desk.plan_faults(&[2]).expect(rt, "memory");
    desk.set_piece(2);
    desk
}

/// Whether reads give so many bytes in turn, or fail.
fn reads(desk: &mut MemoryDesk, buffer: &mut [u8], given: &[Option<usize>]) -> bool {
    for count in given {
        if desk.read(0, buffer).ok() != *count {
            return false;
        }
    }
    true
}

/// Whether writes take so many bytes in turn, or fail.
fn writes(desk: &mut MemoryDesk, bytes: &[u8], taken: &[Option<usize>]) -> bool {
    for count in taken {
        if desk.write(1, bytes).ok() != *count {
            return false;
        }
    }
    true
}

#[test]
fn a_memory_desk_reads_writes_and_fails_as_told(rt: HostRuntime) {
    let mut desk = desk_of(&rt, rt.alloc(), 2);
    let mut buffer = [0u8; 8];
    // the last read finds the end
    assert!(rt; reads(&mut desk, &mut buffer, &[Some(2), None, Some(1), Some(0)]));
    assert!(rt; buffer.as_slice() == [3, 2, 0, 0, 0, 0, 0, 0].as_slice());
    // as much as there is room for
    assert!(rt; writes(&mut desk, &[7, 8, 9], &[Some(2), None]));
    assert!(rt;
        desk.is_written(1, &[7, 8]) && desk.is_written(2, &[]) && !desk.is_written(1, &[7])
    );
}

#[test]
fn a_desk_out_hands_on_every_byte(rt: HostRuntime) {
    let mut desk = MemoryDesk::new(rt.alloc(), 4).expect(&rt, "memory");
    assert!(rt; write_all(&mut desk, 1, &[1]).is_ok());
    assert!(rt; DeskOut::new(&mut desk, 1).take(&[2, 3]).is_ok());
    assert!(rt; DeskOut::new(&mut desk, 2).take(&[4, 5]).is_err());
    assert!(rt; desk.is_written(1, &[1, 2, 3]) && desk.is_written(2, &[4]));
}

#[test]
fn a_real_desk_fails_at_handles_that_it_lacks(rt: HostRuntime) {
    let handle = rt.clone().expect(&rt, "a handle");
    let mut desk = RealDesk::new(handle, rt.alloc()).expect(&rt, "memory");
    let mut buffer = [0u8; 1];
    for handle in [1, 2, 3, 5] {
        assert!(rt; desk.read(handle, &mut buffer).is_err());
    }
    for handle in [0, 3, 5] {
        assert!(rt; desk.write(handle, &[1]).is_err());
    }
    // standard error takes text alone
    assert!(rt; desk.write(2, &[0xff]).is_err());
    assert!(rt; desk.write(1, &[]).ok() == Some(0) && desk.write(2, &[]).ok() == Some(0));
}

#[test]
fn each_planned_call_fails(rt: HostRuntime) {
    let mut desk = MemoryDesk::new(rt.alloc(), 4).expect(&rt, "memory");
    desk.put_input(&[1, 2]).expect(&rt, "memory");
    desk.plan_faults(&[1, 3]).expect(&rt, "memory");
    desk.set_piece(1);
    let mut buffer = [0u8; 8];
    assert!(rt;
        reads(
            &mut desk,
            &mut buffer,
            &[None, Some(1), None, Some(1), Some(0)]
        )
    );
}

#[test]
fn an_out_in_memory_takes_what_there_is_room_for(rt: HostRuntime) {
    let mut out = MemoryOut::new(rt.alloc(), 4).expect(&rt, "memory");
    assert!(rt; out.take(&[1, 2, 3]).is_ok() && out.take(&[]).is_ok());
    assert!(rt; out.take(&[4, 5]).is_err() && out.take(&[]).is_ok());
    assert!(rt; out.bytes() == [1, 2, 3, 4].as_slice());
}

/// Opens a file and reads from its start.
fn read_file<D: Desk>(desk: &mut D, name: &str, buffer: &mut [u8]) -> Option<usize> {
    match desk.open(name) {
        Ok(handle) => desk.read(handle, buffer).ok(),
        Err(_) => None,
    }
}

/// Creates a file and writes to it.
fn write_file<D: Desk>(desk: &mut D, name: &str, bytes: &[u8]) -> Option<usize> {
    match desk.create(name) {
        Ok(handle) => desk.write(handle, bytes).ok(),
        Err(_) => None,
    }
}

#[test]
fn files_in_memory_are_read_and_written(rt: HostRuntime) {
    let mut desk = MemoryDesk::new(rt.alloc(), 8).expect(&rt, "memory");
    desk.put_file("a", &[1, 2, 3]).expect(&rt, "memory");
    let mut buffer = [0u8; 4];
    assert!(rt; read_file(&mut desk, "a", &mut buffer) == Some(3));
    // opened once more it is read from its start again, by a handle of its own
    assert!(rt; read_file(&mut desk, "a", &mut buffer[..2]) == Some(2));
    assert!(rt; buffer.as_slice() == [1, 2, 3, 0].as_slice());
    assert!(rt; read_file(&mut desk, "b", &mut buffer).is_none());
    // what was created can't be opened
    assert!(rt; write_file(&mut desk, "b", &[7, 8]) == Some(2));
    assert!(rt; desk.is_written(5, &[7, 8]) && desk.is_written(1, &[]));
    assert!(rt; read_file(&mut desk, "b", &mut buffer).is_none());
}

#[test]
fn sixty_one_handles_are_given(rt: HostRuntime) {
    let mut desk = MemoryDesk::new(rt.alloc(), 8).expect(&rt, "memory");
    desk.put_file("a", &[]).expect(&rt, "memory");
    for _ in 0..61u8 {
        assert!(rt; desk.open("a").is_ok());
    }
    assert!(rt; desk.open("a").is_err() && desk.create("b").is_err());
}

/// A file that the test makes and takes away again.
const MADE: &str = "made_by_a_test.bin";

#[test]
fn a_real_desk_reads_the_file_that_it_wrote(rt: HostRuntime) {
    let handle = rt.clone().expect(&rt, "a handle");
    let mut desk = RealDesk::new(handle, rt.alloc()).expect(&rt, "memory");
    let mut buffer = [0u8; 8];
    assert!(rt; write_file(&mut desk, MADE, &[1, 0xff, 3]) == Some(3));
    assert!(rt; read_file(&mut desk, MADE, &mut buffer) == Some(3));
    assert!(rt; buffer.as_slice() == [1, 0xff, 3, 0, 0, 0, 0, 0].as_slice());
    // the end, at the handle that was opened; handle 3 writes alone
    assert!(rt; desk.read(4, &mut buffer).ok() == Some(0) && desk.read(3, &mut buffer).is_err());
    assert!(rt; desk.write(3, &[4]).ok() == Some(1) && desk.write(4, &[4]).is_err());
    assert!(rt; desk.read(4, &mut buffer).ok() == Some(1));
    assert!(rt; fs::remove_file(&rt, MADE).is_ok());
    assert!(rt; desk.open(MADE).is_err() && desk.create("no such folder/a").is_err());
}

#[test]
fn a_real_desk_gives_sixty_one_handles(rt: HostRuntime) {
    let handle = rt.clone().expect(&rt, "a handle");
    let mut desk = RealDesk::new(handle, rt.alloc()).expect(&rt, "memory");
    for _ in 0..61u8 {
        assert!(rt; desk.open("/dev/null").is_ok());
    }
    assert!(rt; desk.open("/dev/null").is_err() && desk.create(MADE).is_err());
    assert!(rt; fs::open(&rt, MADE).is_err());
}
