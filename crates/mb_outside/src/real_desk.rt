//! The trusted edge: a desk over the process's standard streams and over files. It tells nothing of what they hold.

ghost use Rattle.std.specs.Prelude.{◌≡◌, ◌+◌, ◌-◌, ◌^◌, ◌≤◌, ◌<◌, ◌⊎◌, min, false, length, vec_len};
ghost use Rattle.std.specs.Prelude.{vec_capacity, IfOk, OnOk};
ghost use Rattle.mb_outside.specs.Cause.{Rose};
ghost use Rattle.mb_outside.specs.Contents.{IsNextHandle, TakesSome, nothing_told};

use crate::{Desk, Failed};
use mb_message::Memory;
use std::alloc::Global;
use std::fs;
use std::io::{Read, Write};
use std::rt::Runtime;

/// How many files can be opened and created.
const MOST_FILES: usize = 61;

/// The standard streams, and the files that were opened and created, whose room is taken at the start. Each failure of
/// the system's calls is counted, whatever its cause, and so is a write that takes nothing of a piece, a handle that
/// isn't known, and the opening of a 62nd file.
#[derive(Drop)]
pub struct RealDesk<R: Runtime> {
    rt: R,
    input: R::Reader,
    files: Vec<R::File>,
    read_faults: u64,
    write_faults: u64,
    ghost room: { 61 ≤ vec_capacity files },
}

impl<R: Runtime> RealDesk<R> {
    /// The streams of the runtime, and no file yet.
    pub fn new(rt: R, alloc: Global) -> Result<RealDesk<R>, Memory>
        ensures counts { IfOk result (λ desk. (desk.read_faults ≡ 0) × (desk.write_faults ≡ 0)) }
    {
        let input = rt.reader();
        let Ok(files) = Vec::with_capacity(alloc, MOST_FILES) else {
            return Err(Memory);
        };
        Ok(RealDesk {
            rt,
            input,
            files,
            read_faults: 0,
            write_faults: 0,
        })
    }

    fn read_some(&mut self, h: u32, buf: &mut [u8]) -> Result<usize, Failed>
        ensures bound { IfOk result (λ count. count ≤ length buf.new) }
        ensures known { OnOk result ((h ≡ 0) ⊎ ((3 ≤ h) × (h < 3 + vec_len self.old.files))) }
        ensures read_faults { self.new.read_faults ≡ self.old.read_faults }
        ensures write_faults { self.new.write_faults ≡ self.old.write_faults }
    {
        if h == 0 {
            return match self.input.read(buf) {
                Ok(count) => Ok(count),
                Err(_) => Err(Failed),
            };
        }
        let Some(at) = (h as usize).checked_sub(3) else {
            return Err(Failed);
        };
        match self.files.get_mut(at) {
            Some(file) => match file.read(buf) {
                Ok(count) => Ok(count),
                Err(_) => Err(Failed),
            },
            None => Err(Failed),
        }
    }

    fn write_some(&mut self, h: u32, piece: &[u8]) -> Result<usize, Failed>
        ensures bound { IfOk result (λ count. TakesSome count piece.now) }
        ensures known { OnOk result ((h ≡ 1) ⊎ ((h ≡ 2) ⊎ ((3 ≤ h) × (h < 3 + vec_len self.old.files)))) }
        ensures read_faults { self.new.read_faults ≡ self.old.read_faults }
        ensures write_faults { self.new.write_faults ≡ self.old.write_faults }
    {
        let count = match h {
            0 => return Err(Failed),
            1 => match self.rt.write_some(piece) {
                Ok(count) => count,
                Err(_) => return Err(Failed),
            },
            2 => self.write_text(piece)?,
            _ => self.write_file(h as usize - 3, piece)?,
        };
        if count == 0 && !piece.is_empty() {
            return Err(Failed);
        }
        Ok(count)
    }

    // Standard error takes text, and all of it.
    fn write_text(&self, piece: &[u8]) -> Result<usize, Failed>
        ensures { IfOk result (λ count. count ≡ length piece.now) }
    {
        let Ok(text) = str::from_utf8(piece) else {
            return Err(Failed);
        };
        match self.rt.eprint(text) {
            Ok(()) => Ok(piece.len()),
            Err(_) => Err(Failed),
        }
    }

    fn write_file(&mut self, at: usize, piece: &[u8]) -> Result<usize, Failed>
        ensures bound { IfOk result (λ count. count ≤ length piece.now) }
        ensures known { OnOk result (at < vec_len self.old.files) }
        ensures read_faults { self.new.read_faults ≡ self.old.read_faults }
        ensures write_faults { self.new.write_faults ≡ self.old.write_faults }
    {
        match self.files.get_mut(at) {
            Some(file) => match file.write(piece) {
                Ok(count) => Ok(count),
                Err(_) => Err(Failed),
            },
            None => Err(Failed),
        }
    }

    fn open_some(&mut self, name: &str) -> Result<u32, Failed>
        ensures read_faults { self.new.read_faults ≡ self.old.read_faults }
        ensures write_faults { self.new.write_faults ≡ self.old.write_faults }
        ensures given { IfOk result (IsNextHandle (vec_len self.old.files) (vec_len self.new.files)) }
    {
        if self.files.len() >= MOST_FILES {
            return Err(Failed);
        }
        match fs::open(&self.rt, name) {
            Ok(file) => Ok(self.keep(file)),
            Err(_) => Err(Failed),
        }
    }

    // Where no more are to be kept, none is created either.
    fn create_some(&mut self, name: &str) -> Result<u32, Failed>
        ensures read_faults { self.new.read_faults ≡ self.old.read_faults }
        ensures write_faults { self.new.write_faults ≡ self.old.write_faults }
        ensures given { IfOk result (IsNextHandle (vec_len self.old.files) (vec_len self.new.files)) }
    {
        if self.files.len() >= MOST_FILES {
            return Err(Failed);
        }
        match fs::create(&self.rt, name) {
            Ok(file) => Ok(self.keep(file)),
            Err(_) => Err(Failed),
        }
    }

    // Keeps a file, and gives its handle.
    fn keep(&mut self, file: R::File) -> u32
        requires { vec_len self.old.files < 61 }
        ensures read_faults { self.new.read_faults ≡ self.old.read_faults }
        ensures write_faults { self.new.write_faults ≡ self.old.write_faults }
        ensures given { IsNextHandle (vec_len self.old.files) (vec_len self.new.files) result }
    {
        let at = self.files.len();
        self.files.push_reserved(file);
        3 + at as u32
    }

    fn count_read_fault(&mut self)
        ensures rose { Rose self.old.read_faults self.new.read_faults }
        ensures later { self.old.read_faults ≤ self.new.read_faults }
        ensures write_faults { self.new.write_faults ≡ self.old.write_faults }
    {
        self.read_faults = self.read_faults.saturating_add(1);
    }

    fn count_write_fault(&mut self)
        ensures rose { Rose self.old.write_faults self.new.write_faults }
        ensures later { self.old.write_faults ≤ self.new.write_faults }
        ensures read_faults { self.new.read_faults ≡ self.old.read_faults }
    {
        self.write_faults = self.write_faults.saturating_add(1);
    }
}

impl<R: Runtime> Desk for RealDesk<R> {
    ghost tells = { false };

    ghost contents = { λ _. nothing_told };

    ghost read_faults = { λ desk. desk.read_faults };

    ghost write_faults = { λ desk. desk.write_faults };

    fn open(&mut self, name: &str) -> Result<u32, Failed> {
        let result = self.open_some(name);
        if result.is_err() {
            self.count_read_fault();
        }
        result
    }

    fn create(&mut self, name: &str) -> Result<u32, Failed> {
        let result = self.create_some(name);
        if result.is_err() {
            self.count_write_fault();
        }
        result
    }

    fn read(&mut self, h: u32, buf: &mut [u8]) -> Result<usize, Failed> {
        let result = self.read_some(h, buf);
        if result.is_err() {
            self.count_read_fault();
        }
        result
    }

    fn write(&mut self, h: u32, piece: &[u8]) -> Result<usize, Failed> {
        let result = self.write_some(h, piece);
        if result.is_err() {
            self.count_write_fault();
        }
        result
    }
}
