//! The bytes of one port that wait for packets.

ghost use Rattle.std.specs.Prelude.{◌≡◌, suc, ◌+◌, ◌-◌, ◌≤◌, ◌==◌, ◌∷◌, ◌++◌, length, IfOk};
ghost use Rattle.mb_message.specs.Signs.{signs_of_event, open_behind, IsShortRun};
ghost use Rattle.mb_stream.specs.Spelling.{full_bytes, data_of};
ghost use Rattle.mb_fire.specs.Rings.{nothing, head, popped};

use circular_buffer::HeapCircularBuffer;
use mb_message::{Ev, Memory, Short, data_len};
use std::alloc::Global;
use std::marker::Model;

/// How many bytes a ring holds.
const RING: usize = 64;

/// The bytes that wait for a port, and whether a SysEx is open there.
#[derive(Drop)]
pub struct PortRing {
    bytes: HeapCircularBuffer<u8>,
    in_sysex: bool,
}

impl Model for PortRing {
    ghost use Rattle.std.specs.Prelude.{◌≡◌, ◌≤◌, length};
    ghost use Rattle.mb_fire.specs.Rings.{Waiting};

    ghost Value = { Waiting };

    ghost view = { λ r. record { ring = r.bytes.items; in_sysex = r.in_sysex } };

    ghost invariant = { λ r. (r.bytes.capacity ≡ 64) × (length r.bytes.items ≤ 64) };
}

impl PortRing {
    pub fn new(alloc: Global) -> Result<PortRing, Memory>
        ensures { IfOk result (λ r. r ≡ nothing) }
    {
        match HeapCircularBuffer::with_capacity(alloc, RING) {
            Ok(bytes) => Ok(PortRing {
                bytes,
                in_sysex: false,
            }),
            Err(_) => Err(Memory),
        }
    }

    pub fn room(&self) -> usize
        ensures { result ≡ 64 - length self.now.ring }
    {
        RING - self.bytes.len()
    }

    pub fn in_sysex(&self) -> bool
        ensures { result ≡ self.now.in_sysex }
    {
        self.in_sysex
    }

    pub fn is_empty(&self) -> bool
        ensures { result ≡ (length self.now.ring == 0) }
    {
        self.bytes.is_empty()
    }

    /// Takes the first byte.
    pub fn pop(&mut self) -> Option<u8>
        ensures first { result ≡ head self.old }
        ensures rest { self.new ≡ popped self.old }
    {
        self.bytes.pop_front()
    }

    /// Appends the bytes of an event.
    #[tactic(auto, using(crate::proofs::RingLemmas::run_bytes))]
    pub fn put(&mut self, ev: Ev<'_>)
        requires room { length self.old.ring + length (full_bytes (signs_of_event ev)) ≤ 64 }
        requires run { IsShortRun ev }
        ensures ring { self.new.ring ≡ self.old.ring ++ full_bytes (signs_of_event ev.entry) }
        ensures in_sysex { self.new.in_sysex ≡ open_behind self.old.in_sysex ev.entry }
    {
        match ev {
            Ev::Short(short) => {
                self.put_short(short);
                self.in_sysex = false;
            }
            Ev::Rt(message) => self.extend(&[message.byte()]),
            Ev::Open => {
                self.extend(&[0xf0]);
                self.in_sysex = true;
            }
            Ev::Run(bytes) => self.extend(bytes),
            Ev::End => {
                self.extend(&[0xf7]);
                self.in_sysex = false;
            }
            Ev::Abort => self.in_sysex = false,
        }
    }

    fn put_short(&mut self, short: Short)
        requires room { length self.old.ring + suc (length (data_of short.status short.data1 short.data2)) ≤ 64 }
        ensures { self.new ≡ record self.old {
          ring = self.old.ring ++ short.status ∷ data_of short.status short.data1 short.data2;
        } }
    {
        match data_len(short.status()).unwrap_or(0) {
            0 => self.extend(&[short.status()]),
            1 => self.extend(&[short.status(), short.data1()]),
            _ => self.extend(&[short.status(), short.data1(), short.data2()]),
        }
    }

    fn extend(&mut self, bytes: &[u8])
        requires room { length self.old.ring + length bytes.now ≤ 64 }
        ensures { self.new ≡ record self.old { ring = self.old.ring ++ bytes.now } }
    {
        self.bytes.fill_from_slice(bytes);
    }
}
