//! A chain: two to ten specs.

ghost use Rattle.std.specs.Prelude.{◌≡◌, ℕ, ◌+◌, ◌^◌, ◌<◌, ◌≤◌, true, false, not, List, [], ◌∷◌, ◌++◌, length, IfOk};
ghost use Rattle.std.specs.Prelude.{IfErr, OnOk, OnErr};
ghost use Rattle.arrayvec.specs.ArrayVec.{array_vec_len};
ghost use Rattle.mb_outside.specs.Cause.{HasCause};
ghost use Rattle.mb_carrier.specs.Carrier.{whole};
ghost use Rattle.mb_carrier.specs.declared.spec.Spec.{Spec};
ghost use Rattle.mb_carrier.specs.Word.{AreSpecs};
ghost use Rattle.mb_chain.specs.Row.{Link};
ghost use Rattle.mb_chain.specs.Chain.{links_of, chain_links, is_broken, ChainStands, ChainEnded, ChainFed};
ghost use Rattle.mb_chain.specs.Chain.{ChainHalted, ChainFinished, ChainEndHalted, crossing, crossing_all, IsFaulty};

use crate::end::end;
use crate::flow::flow;
use crate::hop::Hop;
use arrayvec::ArrayVec;
use mb_carrier::Spec;
use mb_message::Memory;
use mb_outside::{Out, Refused};
use std::alloc::Global;
use thiserror::Error;

/// The most hops of a chain: one fewer than its specs.
const HOPS: usize = 9;

/// Why a chain can't be opened.
#[derive(Debug, Drop, Error)]
pub enum ChainFault {
    /// There are fewer than two specs.
    #[error("fewer than two specs")]
    TooFew,
    /// There are more than ten.
    #[error("more than ten specs")]
    TooMany,
    /// There is no memory for a writer.
    #[error("no memory for a writer")]
    Memory(Memory),
}

/// A chain of specs, in a row of hops of fixed size.
#[derive(Drop)]
pub struct Chain {
    hops: ArrayVec<Hop, HOPS>,
    fed: u64,
    is_broken: bool,
}

impl Chain {
    /// A chain of two to ten specs.
    pub fn open(alloc: Global, specs: &[Spec]) -> Result<Chain, ChainFault>
        requires { AreSpecs specs.now }
        ensures ok { IfOk result (λ chain. (chain_links chain ≡ links_of specs.now) × ChainStands chain []) }
        ensures bounds { IfOk result (λ chain. (2 ≤ length specs.now) × (length specs.now ≤ 10)) }
        ensures err { IfErr result (IsFaulty (length specs.now)) }
    {
        if specs.len() < 2 {
            return Err(ChainFault::TooFew);
        }
        if HOPS + 1 < specs.len() {
            return Err(ChainFault::TooMany);
        }
        let mut hops = ArrayVec::new();
        let mut first = specs[0];
        let mut rest = &specs[1..];
        'specs: while let Some((next, others)) = rest.split_first() {
            match Hop::new(alloc, first, *next) {
                Ok(hop) => hops.push(hop),
                Err(memory) => return Err(ChainFault::Memory(memory)),
            }
            first = *next;
            rest = others;
        }
        Ok(Chain {
            hops,
            fed: 0,
            is_broken: false,
        })
    }

    /// Takes all of the input, and hands on all that it gives. After `Refused` a front of it was handed on.
    pub fn feed<K: Out>(&mut self, input: &[u8], out: &mut K) -> Result<(), Refused>
        requires ready { K.ready out.old }
        requires stands { (bytes : List ℕ) × ChainStands self.old bytes × (length (bytes ++ input.now) ≤ 2 ^ 40) }
        requires specs { (specs : List Spec) × (chain_links self.old ≡ links_of specs) × (length specs ≤ 10) }
        ensures links { chain_links self.new ≡ chain_links self.old }
        ensures ready { K.ready out.new }
        ensures cause { HasCause (K.refusals out.old) (K.refusals out.new) result }
        ensures sound { OnOk result (K.refusals out.new ≡ K.refusals out.old) }
        ensures broken { OnErr result (is_broken self.new ≡ true) }
        ensures fed { OnOk result (ChainFed (chain_links self.old) (ChainStands self.old)
            (ChainStands self.new) input.now (λ given. K.took out.old given out.new)) }
        ensures halted { OnErr result (ChainHalted (chain_links self.old) (ChainStands self.old) input.now
            (λ given. K.took out.old given out.new)) }
    {
        match flow(self.hops.as_mut_slice(), 0, input, out) {
            Ok(()) => {
                self.fed += input.len() as u64;
                Ok(())
            }
            Err(refused) => Err(self.break_off(refused)),
        }
    }

    /// Ends every hop in its order, and hands on the rest. After `Refused` a front of it was handed on.
    pub fn finish<K: Out>(&mut self, out: &mut K) -> Result<(), Refused>
        requires ready { K.ready out.old }
        requires stands { (bytes : List ℕ) × ChainStands self.old bytes × (length bytes ≤ 2 ^ 40) }
        requires specs { (specs : List Spec) × (chain_links self.old ≡ links_of specs) × (length specs ≤ 10) }
        ensures links { chain_links self.new ≡ chain_links self.old }
        ensures ready { K.ready out.new }
        ensures cause { HasCause (K.refusals out.old) (K.refusals out.new) result }
        ensures sound { OnOk result (K.refusals out.new ≡ K.refusals out.old) }
        ensures unbroken { OnOk result (is_broken self.new ≡ is_broken self.old) }
        ensures broken { OnErr result (is_broken self.new ≡ true) }
        ensures ended { OnOk result (ChainFinished (chain_links self.old) (ChainStands self.old) (ChainEnded self.new)
            (λ given. K.took out.old given out.new)) }
        ensures halted { OnErr result (ChainEndHalted (chain_links self.old) (ChainStands self.old)
            (λ given. K.took out.old given out.new)) }
    {
        match end(self.hops.as_mut_slice(), out) {
            Ok(()) => Ok(()),
            Err(refused) => Err(self.break_off(refused)),
        }
    }

    /// How many bytes crossed a place: at 0 the bytes fed, at each further one what the writer of the spec at that
    /// place wrote.
    pub fn crossed(&self, place: usize) -> u64
        requires { place ≤ length (chain_links self.now) }
        ensures so_far { (bytes : List ℕ) → ChainStands self.now bytes →
            result ≡ length (crossing (chain_links self.now) place bytes) }
        ensures in_all { (bytes : List ℕ) → ChainEnded self.now bytes →
            result ≡ length (crossing_all (chain_links self.now) place bytes) }
    {
        if place == 0 {
            return self.fed;
        }
        self.hops.as_slice()[place - 1].wrote
    }

    /// Whether the bytes that were fed stop inside a packet.
    pub fn partial(&self) -> bool
        requires { 0 < length (chain_links self.now) }
        ensures { (bytes : List ℕ) (first : Link) (behind : List Link) → ChainStands self.now bytes →
            chain_links self.now ≡ first ∷ behind → result ≡ not (whole first.reads bytes) }
    {
        self.hops.as_slice()[0].reader.partial()
    }

    /// After a refusal nothing more is fed.
    fn break_off(&mut self, refused: Refused) -> Refused
        ensures broken { is_broken self.new ≡ true }
        ensures links { chain_links self.new ≡ chain_links self.old }
    {
        self.is_broken = true;
        refused
    }

    /// Whether a call was refused.
    pub fn broken(&self) -> bool
        ensures { result ≡ is_broken self.now }
    {
        self.is_broken
    }
}
