//! A taker of bytes in memory, which refuses where its room is passed.

ghost use Rattle.std.specs.Prelude.{◌≡◌, ℕ, ◌+◌, ◌≤◌, ◌↔◌, List, [], ◌++◌, length, vec_len, vec_capacity, IsOk, IfOk};
ghost use Rattle.std.specs.Prelude.{OnOk, OnErr};
ghost use Rattle.mb_outside.specs.Cause.{HasCause};
ghost use Rattle.mb_outside.specs.Taking.{TookFront};
ghost use Rattle.mb_outside.specs.MemoryOut.{TakenState, Took};

use crate::{Out, Refused};
use mb_message::Memory;
use std::alloc::Global;
use std::marker::Model;

/// Keeps the bytes that it takes. Their room is taken at the start.
#[derive(Debug, Drop)]
pub struct MemoryOut {
    bytes: Vec<u8>,
    room: usize,
    refusals: u64,
}

impl Model for MemoryOut {
    ghost use Rattle.std.specs.Prelude.{◌≤◌, vec_len, vec_capacity};
    ghost use Rattle.mb_outside.specs.MemoryOut.{TakenState};

    ghost Value = { TakenState };

    ghost view = { λ o. record { list = o.bytes.items; room = o.room; refusals = o.refusals } };

    ghost invariant = { λ o. (vec_len o.bytes ≤ o.room) × (o.room ≤ vec_capacity o.bytes) };
}

impl MemoryOut {
    /// Room for so many bytes, of which none was taken.
    pub fn new(alloc: Global, room: usize) -> Result<MemoryOut, Memory>
        ensures { IfOk result (λ out. out ≡ record { list = []; room = room; refusals = 0 }) }
    {
        let Ok(bytes) = Vec::with_capacity(alloc, room) else {
            return Err(Memory);
        };
        Ok(MemoryOut {
            bytes,
            room,
            refusals: 0,
        })
    }

    /// The bytes that were taken.
    pub fn bytes(&self) -> &[u8]
        ensures { result.now ≡ self.now.list }
    {
        self.bytes.as_slice()
    }
}

impl Out for MemoryOut {
    ghost use Rattle.mb_outside.specs.MemoryOutLaws.{took-nothing, took-both};

    ghost ready = { λ out. Unit {0} };

    ghost took = { Took };

    ghost refusals = { λ out. out.refusals };

    ghost nothing = { took-nothing };

    ghost both = { took-both };

    fn take(&mut self, piece: &[u8]) -> Result<(), Refused>
        ensures ready { Unit {0} }
        ensures took { OnOk result (Took self.old piece.now self.new) }
        ensures front { OnErr result (TookFront Took self.old self.new piece.now) }
        ensures cause { HasCause self.old.refusals self.new.refusals result }
        ensures sound { OnOk result (self.new.refusals ≡ self.old.refusals) }

        ensures room { IsOk result ↔ (length self.old.list + length piece.now ≤ self.old.room) }
    {
        let count = piece.len().min(self.room - self.bytes.len());
        append(&mut self.bytes, &piece[..count]);
        if count < piece.len() {
            self.refusals = self.refusals.saturating_add(1);
            return Err(Refused);
        }
        Ok(())
    }
}

// Appends bytes to a vector that has room for them.
fn append(all: &mut Vec<u8>, bytes: &[u8])
    requires { vec_len all.old + length bytes.now ≤ vec_capacity all.old }
    ensures all { all.new.items ≡ all.old.items ++ bytes.now }
    ensures capacity { vec_capacity all.new ≡ vec_capacity all.old }
{
    'bytes: for byte in bytes {
        all.push_reserved(*byte);
    }
}
