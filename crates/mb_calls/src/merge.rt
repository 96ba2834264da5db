//! The router of marks.

ghost use Rattle.std.specs.Prelude.{◌<◌};

use crate::marks::Sample;
use crate::text::{Text, put_line, put_mark};
use mb_merge::{Full, Router, RouterFault};
use mb_message::{Mark, Memory};
use std::alloc::Global;
use std::process::Abort;

fn router_over(
    rt: &impl Abort,
    alloc: Global,
    sources: u8,
    outs: u8,
    routes: &[(u8, u8)],
) -> Router {
    Router::open(alloc, sources, outs, routes).expect(rt, "a router")
}

/// Offers a mark. One that may not be offered is refused with nothing held.
fn offer(router: &mut Router, source: u8, moment: u64, mark: Mark) -> Result<(), Full> {
    if source < router.sources()
        && !router.draining()
        && router.suits(source, mark)
        && router.last(source) <= moment
    {
        router.offer(source, moment, mark)
    } else {
        Err(Full { held: 0 })
    }
}

/// Lines of the marks that pass next, each with its source and its arrival, up to the answer of nothing.
fn passed(router: &mut Router) -> Text {
    let mut text = Text::new();
    while let Some(passed) = router.next_passed() {
        put_line(&[b'0'.wrapping_add(passed.source), b' '], &mut text);
        put_mark(passed.arrival, passed.mark, &mut text);
    }
    text
}

fn holds(router: &Router, source: u8, count: u16) -> bool {
    source < router.sources() && router.held(source) == count && router.room(source) == 1024
}

fn is_owned(router: &Router, out: u8, owner: Option<u8>) -> bool {
    out < router.outs() && router.owner(out) == owner
}

fn goes(router: &Router, source: u8, out: u8) -> bool {
    source < router.sources() && out < router.outs() && router.goes(source, out)
}

/// A source offers a mark at a moment. Then what passes, the source that owns out 0, and how many marks of the
/// source are held.
type Step = (u8, u64, Sample, &'static str, Option<u8>, u16);

/// Whether all comes as in these steps.
fn follows(router: &mut Router, steps: &[Step]) -> bool {
    for (source, moment, sample, passing, owner, held) in steps {
        if offer(router, *source, *moment, sample.mark()).is_err()
            || passed(router).as_slice() != passing.as_bytes()
            || router.draining()
            || !is_owned(router, 0, *owner)
            || !holds(router, *source, *held)
        {
            return false;
        }
    }
    true
}

const A_NOTE_WAITS: &[Step] = &[
    (0, 0, Sample::Open, "0 0 open\n", Some(0), 0),
    (1, 1, Sample::Note, "", Some(0), 1),
    (0, 2, Sample::End, "0 2 end\n1 1 short 90 3C 64\n", None, 0),
];

#[test]
fn a_note_waits_for_the_end_of_anothers_sysex(rt: HostRuntime) {
    let mut router = router_over(&rt, rt.alloc(), 2, 1, &[(0, 0), (1, 0)]);
    assert!(rt; goes(&router, 1, 0));
    assert!(rt; follows(&mut router, A_NOTE_WAITS));
    assert!(rt; holds(&router, 1, 0));
}

/// Three sources that go to one out.
const THREE_TO_ONE: &[(u8, u8)] = &[(0, 0), (1, 0), (2, 0)];

const OPEN: Step = (0, 0, Sample::Open, "0 0 open\n", Some(0), 0);

const FIRST: Step = (1, 1, Sample::Note, "", Some(0), 1);

const SECOND: Step = (2, 1, Sample::Softer, "", Some(0), 1);

const END: Step = (
    0,
    2,
    Sample::End,
    "0 2 end\n1 1 short 90 3C 64\n2 1 short 90 3C 63\n",
    None,
    0,
);

const ABORT: Step = (
    0,
    2,
    Sample::Abort,
    "0 2 abort\n1 1 short 90 3C 64\n2 1 short 90 3C 63\n",
    None,
    0,
);

/// Two notes of one arrival are held, offered in either order, and the SysEx ends by an end or by a break.
const ORDERS: &[&[Step]] = &[
    &[OPEN, FIRST, SECOND, END],
    &[OPEN, SECOND, FIRST, END],
    &[OPEN, FIRST, SECOND, ABORT],
    &[OPEN, SECOND, FIRST, ABORT],
];

#[test]
fn of_one_arrival_the_lower_source_passes_first(rt: HostRuntime) {
    for steps in ORDERS {
        let mut router = router_over(&rt, rt.alloc(), 3, 1, THREE_TO_ONE);
        assert!(rt; follows(&mut router, steps));
    }
}

/// Sources, outs, routes, and why these can't be opened.
const FAULTS: &[(u8, u8, &[(u8, u8)], RouterFault)] = &[
    (0, 1, &[], RouterFault::Count),
    (17, 1, &[], RouterFault::Count),
    (1, 0, &[], RouterFault::Count),
    (2, 2, &[(0, 0), (0, 2)], RouterFault::Index),
    (2, 2, &[(0, 0), (2, 0)], RouterFault::Index),
    (2, 2, &[(0, 0), (1, 0), (0, 0)], RouterFault::Twice),
    (2, 2, &[(0, 0), (0, 0), (2, 0)], RouterFault::Twice),
];

fn fault_of(alloc: Global, sources: u8, outs: u8, routes: &[(u8, u8)]) -> Option<RouterFault> {
    Router::open(alloc, sources, outs, routes).err()
}

#[test]
fn faults_of_the_opening(rt: HostRuntime) {
    for (sources, outs, routes, fault) in FAULTS {
        assert!(rt; fault_of(rt.alloc(), *sources, *outs, routes) == Some(*fault));
    }
}

#[test]
fn a_router_over_all_numbers(rt: HostRuntime) {
    let router = router_over(&rt, rt.alloc(), 16, 16, &[(15, 15), (15, 14)]);
    assert!(rt; router.sources() == 16 && router.outs() == 16);
    assert!(rt; goes(&router, 15, 15) && !goes(&router, 14, 15));
}

const TEXTS: &[(RouterFault, &str)] = &[
    (RouterFault::Count, "sources and outs are 1 to 16 each"),
    (
        RouterFault::Index,
        "a route names a source or an out that there isn't",
    ),
    (RouterFault::Twice, "a route stands twice"),
    (RouterFault::Memory(Memory), "there was no memory"),
];

#[test]
fn texts_of_faults(rt: HostRuntime) {
    for (fault, text) in TEXTS {
        let told = format!(in rt.alloc(); "{fault}").expect(&rt, "memory");
        assert!(rt; told.as_str() == *text);
    }
}

/// Whether 1,024 notes of a source are taken, and none of them passes.
fn fills(router: &mut Router, source: u8) -> bool {
    for moment in 1..1025u64 {
        if offer(router, source, moment, Sample::Note.mark()).is_err()
            || router.next_passed().is_some()
        {
            return false;
        }
    }
    true
}

/// A real-time message still passes, and another source isn't full.
const BESIDE_A_FULL_SOURCE: &[Step] = &[
    (1, 1025, Sample::Clock, "1 1025 rt F8\n", Some(0), 1024),
    (2, 1026, Sample::Note, "", Some(0), 1),
];

#[test]
fn a_full_source(rt: HostRuntime) {
    let mut router = router_over(&rt, rt.alloc(), 3, 1, THREE_TO_ONE);
    assert!(rt; follows(&mut router, &[OPEN]) && fills(&mut router, 1));
    let full = offer(&mut router, 1, 1025, Sample::Note.mark());
    assert!(rt; full.err() == Some(Full { held: 1024 }));
    assert!(rt; !router.draining() && follows(&mut router, BESIDE_A_FULL_SOURCE));
}

/// The marks of a source in turn: notes, and for the last third of each turn a SysEx.
fn sample_of(round: u64, third: u64) -> Sample
    requires few { third < 10_000 }
    requires some { 0 < third }
{
    let place = round % (3 * third);
    if place < 2 * third {
        Sample::Note
    } else if place == 2 * third {
        Sample::Open
    } else if place + 1 == 3 * third {
        Sample::End
    } else {
        Sample::Byte(1)
    }
}

/// Offers 9,000 rounds of marks of 16 sources over 16 outs, all routed. How many passed.
fn merges(router: &mut Router, third: u64) -> u64
    requires few { third < 10_000 }
    requires some { 0 < third }
{
    let mut passed = 0u64;
    for round in 0..9_000u64 {
        let mark = sample_of(round, third).mark();
        for source in 0..16u8 {
            if offer(router, source, round, mark).is_err() {
                return passed;
            }
            while let Some(_) = router.next_passed() {
                passed = passed.wrapping_add(1);
            }
        }
    }
    passed
}

/// Whether all marks pass, a dump taking a third of each turn.
fn all_routed(rt: &impl Abort, alloc: Global, third: u64) -> bool
    requires few { third < 10_000 }
    requires some { 0 < third }
{
    let mut routes = Vec::new(alloc);
    for source in 0..16u8 {
        for out in 0..16u8 {
            routes.push((source, out)).expect(rt, "memory");
        }
    }
    let mut router = router_over(rt, alloc, 16, 16, &routes);
    merges(&mut router, third) == 144_000
}

#[test]
fn all_routed_with_short_dumps(rt: HostRuntime) {
    assert!(rt; all_routed(&rt, rt.alloc(), 3));
}

#[test]
fn all_routed_with_long_dumps(rt: HostRuntime) {
    assert!(rt; all_routed(&rt, rt.alloc(), 1000));
}
