//! A desk in memory, which tells all that it holds and fails exactly where it is told to.

ghost use Rattle.std.specs.Prelude.{◌≡◌, ℕ, ◌+◌, ◌-◌, ◌^◌, ◌<◌, ◌≤◌, ◌↔◌, ◌⊎◌, Bool, true, false, not, ◌||◌, List, []};
ghost use Rattle.std.specs.Prelude.{◌∷◌, ◌++◌, length, take, vec_len, vec_capacity, IsTrue, is_ok, MatchOption, IfOk};
ghost use Rattle.std.specs.Prelude.{OnOk, OnErr, slice_get};
ghost use Rattle.mb_outside.specs.Cause.{HasCause};
ghost use Rattle.mb_outside.specs.Contents.{Contents, is_readable, is_writable, Opens, Creates, Reads, Writes};
ghost use Rattle.mb_outside.specs.Contents.{TakesSome};
ghost use Rattle.mb_outside.specs.MemoryDesk.{MemoryState, contents_of, is_planned, is_full, count_of_read};
ghost use Rattle.mb_outside.specs.MemoryDesk.{count_of_write, one_more, bytes_to, logged, IsNew, most_given};
ghost use Rattle.mb_outside.specs.MemoryDesk.{IsCalled, GivesOpened, GivesCreated};

use crate::memory_file::{File, Given, find, give, rest};
use crate::{Desk, Failed};
use arrayvec::ArrayString;
use mb_message::Memory;
use std::alloc::Global;
use std::marker::Model;

/// How many handles are given at most.
const MOST_GIVEN: usize = 61;

/// What is written stands in one log. Its room is taken at the start, and so is that for 61 handles with names of 255
/// bytes: no call of the trait allocates.
#[derive(Debug, Drop)]
pub struct MemoryDesk {
    alloc: Global,
    input: Vec<u8>,
    at: usize,
    files: Vec<File>,
    places: Vec<Given>,
    log: Vec<(u32, u8)>,
    room: usize,
    planned: Vec<u64>,
    calls: u64,
    piece: usize,
    read_faults: u64,
    write_faults: u64,
}

impl Model for MemoryDesk {
    ghost use Rattle.std.specs.Prelude.{◌<◌, ◌≤◌, vec_len, vec_capacity};
    ghost use Rattle.mb_outside.specs.MemoryDesk.{MemoryState, GivenFits};

    ghost Value = { MemoryState };

    ghost view = { λ d. record {
      input = d.input.items;
      at = d.at;
      files = d.files.items;
      places = d.places.items;
      log = d.log.items;
      room = d.room;
      planned = d.planned.items;
      calls = d.calls;
      piece = d.piece;
      read_faults = d.read_faults;
      write_faults = d.write_faults;
    } };

    ghost invariant = { λ d. (d.at ≤ vec_len d.input) × (vec_len d.log ≤ d.room) × (d.room ≤ vec_capacity d.log) ×
        (0 < d.piece) × GivenFits (vec_len d.places) (vec_capacity d.places) d.log.items };
}

impl MemoryDesk {
    /// A desk with no input and no files, no planned fault, and room for so many bytes to be written.
    pub fn new(alloc: Global, room: usize) -> Result<MemoryDesk, Memory>
        ensures contents { IfOk result (λ desk. (desk.input ≡ []) × (desk.at ≡ 0) × (desk.log ≡ [])) }
        ensures files { IfOk result (λ desk. (desk.files ≡ []) × (desk.places ≡ [])) }
        ensures room { IfOk result (λ desk. desk.room ≡ room) }
        ensures piece { IfOk result (λ desk. desk.piece ≡ 2 ^ 64 - 1) }
        ensures calls { IfOk result (λ desk. (desk.planned ≡ []) × (desk.calls ≡ 0)) }
        ensures counts { IfOk result (λ desk. (desk.read_faults ≡ 0) × (desk.write_faults ≡ 0)) }
    {
        let Ok(log) = Vec::with_capacity(alloc, room) else {
            return Err(Memory);
        };
        let Ok(places) = Vec::with_capacity(alloc, MOST_GIVEN) else {
            return Err(Memory);
        };
        Ok(MemoryDesk {
            alloc,
            input: Vec::new(alloc),
            at: 0,
            files: Vec::new(alloc),
            places,
            log,
            room,
            planned: Vec::new(alloc),
            calls: 0,
            piece: usize::MAX,
            read_faults: 0,
            write_faults: 0,
        })
    }

    /// What standard input has left, of which nothing is taken. Without memory nothing changes.
    pub fn put_input(&mut self, bytes: &[u8]) -> Result<(), Memory>
        ensures ok { OnOk result (self.new ≡ record self.old { input = bytes.now; at = 0 }) }
        ensures err { OnErr result (self.new ≡ self.old) }
    {
        let Ok(input) = bytes.to_vec(self.alloc) else {
            return Err(Memory);
        };
        self.input = input;
        self.at = 0;
        Ok(())
    }

    /// Adds a file that can be opened, each time from its start. Without memory nothing changes.
    pub fn put_file(&mut self, name: &str, bytes: &[u8]) -> Result<(), Memory>
        requires { IsNew self.old.files name.now }
        ensures ok { OnOk result (self.new ≡ record self.old { files = self.old.files ++ (name.now, bytes.now) ∷ [] }) }
        ensures err { OnErr result (self.new ≡ self.old) }
    {
        let Ok(file) = File::new(self.alloc, name, bytes) else {
            return Err(Memory);
        };
        match self.files.push(file) {
            Ok(()) => Ok(()),
            Err(_) => Err(Memory),
        }
    }

    /// The calls of the trait with these numbers are to fail, counted from 1 over all four. Without memory nothing
    /// changes.
    pub fn plan_faults(&mut self, calls: &[u64]) -> Result<(), Memory>
        ensures ok { OnOk result (self.new ≡ record self.old { planned = calls.now }) }
        ensures err { OnErr result (self.new ≡ self.old) }
    {
        let Ok(planned) = calls.to_vec(self.alloc) else {
            return Err(Memory);
        };
        self.planned = planned;
        Ok(())
    }

    /// No read gives more than this many bytes.
    pub fn set_piece(&mut self, n: usize)
        requires { 0 < n }
        ensures { self.new ≡ record self.old { piece = n } }
    {
        self.piece = n;
    }

    /// Whether exactly these bytes were written to a handle.
    pub fn is_written(&self, h: u32, bytes: &[u8]) -> bool
        ensures { IsTrue result ↔ (bytes_to h self.now.log ≡ bytes.now) }
    {
        are_to(h, &self.log, bytes)
    }

    // Counts a call of the trait, and answers whether it is to fail.
    fn is_to_fail(&mut self) -> bool
        ensures planned { result ≡ is_planned self.old }
        ensures counted { self.new ≡ record self.old { calls = one_more self.old.calls } }
    {
        self.calls = self.calls.saturating_add(1);
        self.planned.contains(&self.calls)
    }
}

// What is left behind a byte.
fn behind_first(bytes: &[u8], byte: u8) -> Option<&[u8]>
    ensures { MatchOption result ((rest : List ℕ) → bytes.now ≡ byte ∷ rest → ⊥) (λ rest. bytes.now ≡ byte ∷ rest.now) }
{
    match bytes {
        [first, rest @ ..] if *first == byte => Some(rest),
        _ => None,
    }
}

// Whether these are the bytes of a handle in a log.
fn are_to(h: u32, log: &[(u32, u8)], bytes: &[u8]) -> bool
    ensures { IsTrue result ↔ (bytes_to h log.now ≡ bytes.now) }
{
    let mut rest = bytes;
    'entries: for entry in log {
        if entry.0 == h {
            let Some(left) = behind_first(rest, entry.1) else {
                return false;
            };
            rest = left;
        }
    }
    rest.is_empty()
}

// Appends bytes of a handle to a log that has room for them.
fn note_down(log: &mut Vec<(u32, u8)>, h: u32, bytes: &[u8])
    requires { vec_len log.old + length bytes.now ≤ vec_capacity log.old }
    ensures log { log.new.items ≡ log.old.items ++ logged h bytes.now }
    ensures capacity { vec_capacity log.new ≡ vec_capacity log.old }
{
    'bytes: for byte in bytes {
        log.push_reserved((h, *byte));
    }
}

impl Desk for MemoryDesk {
    ghost tells = { true };

    ghost contents = { contents_of };

    ghost read_faults = { λ m. m.read_faults };

    ghost write_faults = { λ m. m.write_faults };

    fn open(&mut self, name: &str) -> Result<u32, Failed>
        ensures contents { Opens (contents_of self.old) (contents_of self.new) result name.now }
        ensures cause { HasCause self.old.read_faults self.new.read_faults result }
        ensures sound { OnOk result (self.new.read_faults ≡ self.old.read_faults) }
        ensures write_faults { self.new.write_faults ≡ self.old.write_faults }

        ensures opens { OnOk result (GivesOpened self.old self.new name.now) }
        ensures fails { OnErr result ((is_planned self.old ≡ true) ⊎ IsNew self.old.files name.now ⊎
            (length self.old.places ≡ most_given)) }
        ensures failed { OnErr result (self.new ≡ record self.old {
          calls = one_more self.old.calls;
          read_faults = one_more self.old.read_faults;
        }) }
    {
        let is_planned = self.is_to_fail();
        let given = self.places.len();
        match find(&self.files, name) {
            Some(file) if !is_planned && given < MOST_GIVEN => {
                self.places.push_reserved(Given::opened(file));
                Ok(3 + given as u32)
            }
            _ => {
                self.read_faults = self.read_faults.saturating_add(1);
                Err(Failed)
            }
        }
    }

    fn create(&mut self, name: &str) -> Result<u32, Failed>
        ensures contents { Creates (contents_of self.old) (contents_of self.new) result name.now }
        ensures cause { HasCause self.old.write_faults self.new.write_faults result }
        ensures sound { OnOk result (self.new.write_faults ≡ self.old.write_faults) }
        ensures read_faults { self.new.read_faults ≡ self.old.read_faults }

        ensures creates { OnOk result (GivesCreated self.old self.new name.now) }
        ensures fails { OnErr result ((is_planned self.old ≡ true) ⊎ (255 < length name.now) ⊎
            (length self.old.places ≡ most_given)) }
        ensures failed { OnErr result (self.new ≡ record self.old {
          calls = one_more self.old.calls;
          write_faults = one_more self.old.write_faults;
        }) }
    {
        let is_planned = self.is_to_fail();
        let given = self.places.len();
        match ArrayString::from(name) {
            Ok(name) if !is_planned && given < MOST_GIVEN => {
                self.places.push_reserved(Given::created(name));
                Ok(3 + given as u32)
            }
            _ => {
                self.write_faults = self.write_faults.saturating_add(1);
                Err(Failed)
            }
        }
    }

    fn read(&mut self, h: u32, buf: &mut [u8]) -> Result<usize, Failed>
        requires { IsTrue (is_readable (contents_of self.old) h) }
        ensures bound { IfOk result (λ count. count ≤ length buf.new) }
        ensures contents { Reads (contents_of self.old) (contents_of self.new) h result buf.new }
        ensures cause { HasCause self.old.read_faults self.new.read_faults result }
        ensures sound { OnOk result (self.new.read_faults ≡ self.old.read_faults) }
        ensures write_faults { self.new.write_faults ≡ self.old.write_faults }

        ensures fails { is_ok result ≡ not (is_planned self.old) }
        ensures count { IfOk result (λ count. count ≡ count_of_read self.old h (length buf.old)) }
        ensures called { IsCalled self.old self.new }
    {
        if self.is_to_fail() {
            self.read_faults = self.read_faults.saturating_add(1);
            return Err(Failed);
        }
        if h == 0 {
            let count = give(rest(&self.input, self.at), self.piece, buf);
            self.at += count;
            return Ok(count);
        }
        let given = &mut self.places[h as usize - 3];
        Ok(given.read(&self.files, self.piece, buf))
    }

    fn write(&mut self, h: u32, piece: &[u8]) -> Result<usize, Failed>
        requires { IsTrue (is_writable (contents_of self.old) h) }
        ensures bound { IfOk result (λ count. TakesSome count piece.now) }
        ensures contents { Writes (contents_of self.old) (contents_of self.new) h result piece.now }
        ensures cause { HasCause self.old.write_faults self.new.write_faults result }
        ensures sound { OnOk result (self.new.write_faults ≡ self.old.write_faults) }
        ensures read_faults { self.new.read_faults ≡ self.old.read_faults }

        ensures fails { is_ok result ≡ not (is_planned self.old || is_full self.old) }
        ensures count { IfOk result (λ count. count ≡ count_of_write self.old (length piece.now)) }
        ensures called { IsCalled self.old self.new }
    {
        let is_planned = self.is_to_fail();
        if is_planned || self.log.len() == self.room {
            self.write_faults = self.write_faults.saturating_add(1);
            return Err(Failed);
        }
        let count = piece.len().min(self.room - self.log.len());
        note_down(&mut self.log, h, &piece[..count]);
        Ok(count)
    }
}
