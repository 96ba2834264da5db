//! A rig's run.

ghost use Rattle.std.specs.Prelude.{◌≡◌, ◌≤◌, ◌+◌, ◌^◌, ℕ, List, [], length, IsTrue, true};
ghost use Rattle.std.specs.List.{list_any};
ghost use Rattle.mb_outside.specs.Contents.{Contents, next_handle};
ghost use Rattle.mb_rig.specs.RigText.{Setup};
ghost use Rattle.mb_rig.specs.Right.{IsRig};
ghost use Rattle.mb_rig.specs.Running.{RunOver, RunTouched};
ghost use Rattle.mb_rig.specs.Bay.{BayWrote};
ghost use Rattle.mb_rig.specs.Beginning.{BayBegins, RunBegins};
ghost use Rattle.mb_rig.specs.Causes.{EndCause};
ghost use Rattle.mb_rig.specs.RigRun.{EndLink, Merges, RunEnds, RunKeeps};
ghost use Rattle.mb_rig.specs.declared.feed.Feed.{Feed};

use crate::bay::Bay;
use crate::ending::RigEnd;
use crate::feed::Feed;
use crate::files::{Feeds, create_outs, open_feeds};
use crate::rig::Rig;
use crate::steps::{run_steps, start_feeds};
use mb_outside::Desk;
use std::alloc::Global;

/// Runs a rig: its links' files are opened in their order, its outs' created in theirs, each tape's first header is
/// read, and then the tapes' marks are merged in the order of their keys, written to the outs and told on standard
/// output, a line for each message. At most `limit` bytes are taken of each tape. `Memory` comes before any file is
/// given.
pub fn run_rig<D: Desk>(alloc: Global, rig: &Rig, desk: &mut D, limit: u64) -> RigEnd
    requires most { limit ≤ 2 ^ 40 }

    // What each answer says: of the files that were given, of the tapes, the report and the outs.
    ensures ends { IsTrue D.tells → RunEnds rig.now limit (D.contents desk.old) (D.contents desk.new) result }

    // Tapes alone were read, and standard output and the outs alone written.
    ensures keeps { IsTrue D.tells → RunKeeps rig.now (D.contents desk.old) (D.contents desk.new) }

    // For every desk: reading failed exactly at `ReadFault`, writing exactly at `WriteFault`, and a link is one of the
    // rig's.
    ensures cause { EndCause (D.read_faults desk.old) (D.read_faults desk.new) (D.write_faults desk.old)
        (D.write_faults desk.new) result }
    ensures link { EndLink rig.now result }
{
    match Bay::new(alloc, rig) {
        Ok(mut bay) => run_files(alloc, rig, &mut bay, desk, limit),
        Err(memory) => RigEnd::Memory(memory),
    }
}

/// The files are given, and the run goes on.
fn run_files<D: Desk>(alloc: Global, rig: &Rig, bay: &mut Bay, desk: &mut D, limit: u64) -> RigEnd
    requires most { limit ≤ 2 ^ 40 }
    requires right { IsRig rig.now }
    requires begins { BayBegins rig.now bay.old }
    ensures ends { IsTrue D.tells → RunEnds rig.now limit (D.contents desk.old) (D.contents desk.new) result }
    ensures keeps { IsTrue D.tells → RunKeeps rig.now (D.contents desk.old) (D.contents desk.new) }
    ensures cause { EndCause (D.read_faults desk.old) (D.read_faults desk.new) (D.write_faults desk.old)
        (D.write_faults desk.new) result }
    ensures link { EndLink rig.now result }
{
    let mut feeds = Feeds::new();
    match open_feeds(rig.ins(), limit, &mut feeds, desk) {
        Ok(()) => match create_outs(alloc, rig.outs(), &mut bay.outs, desk) {
            Ok(()) => run_feeds(feeds.as_mut_slice(), bay, desk),
            Err(_) => RigEnd::WriteFault,
        },
        Err(_) => RigEnd::ReadFault,
    }
}

/// All files were given: the tapes are read and merged.
fn run_feeds<D: Desk>(feeds: &mut [Feed], bay: &mut Bay, desk: &mut D) -> RigEnd
    requires begins { (s : Setup) × (before : List ℕ) × (base first limit : ℕ) ×
        RunBegins D.tells D.contents s before base first limit feeds.old bay.old desk.old }
    ensures merges { (s : Setup) (start : Contents) (first limit : ℕ) → IsTrue D.tells →
        first ≡ next_handle start + length s.ins → RunBegins D.tells D.contents s (start.written 1)
        (next_handle start) first limit feeds.old bay.old desk.old →
        Merges s limit start (D.contents desk.new) result }
    ensures touched { (s : Setup) (before : List ℕ) (base first limit : ℕ) →
        RunBegins D.tells D.contents s before base first limit feeds.old bay.old desk.old →
        RunTouched D.tells D.contents base (length feeds.old) first (length bay.old.outs.items) desk.old desk.new }
    ensures cause { EndCause (D.read_faults desk.old) (D.read_faults desk.new) (D.write_faults desk.old)
        (D.write_faults desk.new) result }
    ensures link { (s : Setup) (before : List ℕ) (base first limit : ℕ) →
        RunBegins D.tells D.contents s before base first limit feeds.old bay.old desk.old → EndLink s result }
{
    match start_feeds(feeds, desk) {
        Ok(()) => match run_steps(feeds, bay, desk) {
            Ok(()) => close(feeds, bay, desk),
            Err(end) => end,
        },
        Err(end) => end,
    }
}

/// No link has a record: each out is finished.
fn close<D: Desk>(feeds: &[Feed], bay: &mut Bay, desk: &mut D) -> RigEnd
    requires over { (s : Setup) × (before : List ℕ) × (base first limit : ℕ) ×
        RunOver D.tells D.contents s before base first limit feeds.now bay.old desk.old }
    ensures merges { (s : Setup) (start : Contents) (first limit : ℕ) → IsRig s → IsTrue D.tells →
        first ≡ next_handle start + length s.ins →
        RunOver D.tells D.contents s (start.written 1) (next_handle start) first limit feeds.now bay.old desk.old →
        Merges s limit start (D.contents desk.new) result }
    ensures wrote { (s : Setup) (before : List ℕ) (base first limit : ℕ) →
        RunOver D.tells D.contents s before base first limit feeds.now bay.old desk.old →
        BayWrote D.tells D.contents first (length bay.old.outs.items) desk.old desk.new }
    ensures cause { EndCause (D.read_faults desk.old) (D.read_faults desk.new) (D.write_faults desk.old)
        (D.write_faults desk.new) result }
    ensures link { (s : Setup) → EndLink s result }
{
    match bay.finish(desk) {
        Ok(()) => {
            if any_cut(feeds) {
                RigEnd::Cut
            } else {
                RigEnd::Done
            }
        }
        Err(_) => RigEnd::WriteFault,
    }
}

/// Whether a tape stops inside its magic or a record, or its recording inside a packet.
fn any_cut(feeds: &[Feed]) -> bool
    ensures { result ≡ list_any (λ (f : Feed). f.link.cut) feeds.now }
{
    feeds.iter().any(|feed| feed.link.cut)
}
