//! Opening a router.

ghost use Rattle.std.specs.Prelude.{◌≡◌, ◌≤◌, [], IfOk};
ghost use Rattle.mb_merge.specs.Opening.{first_fault, is_count, links_of, outs_of, route_fault, stands_in};

use crate::source::Source;
use mb_message::Memory;
use std::alloc::{AllocError, Global};
use thiserror::Error;

/// Why a router can't be opened.
#[derive(Clone, Copy, Debug, PartialEq, Eq, Error)]
pub enum RouterFault {
    /// There are no sources, or more than 16, or no outs, or more than 16.
    #[error("sources and outs are 1 to 16 each")]
    Count,
    /// A route names a source or an out that there isn't.
    #[error("a route names a source or an out that there isn't")]
    Index,
    /// A route stands twice.
    #[error("a route stands twice")]
    Twice,
    /// There was no memory.
    #[error("there was no memory")]
    Memory(Memory),
}

#[inline(always)]
fn is_count(number: u8) -> bool
    ensures { result ≡ is_count number }
{
    number >= 1 && number <= 16
}

fn stands_in(route: (u8, u8), routes: &[(u8, u8)]) -> bool
    ensures { result ≡ stands_in route routes.now }
{
    routes
        .iter()
        .any(|other| other.0 == route.0 && other.1 == route.1)
}

/// By the first faulty route.
fn route_fault(sources: u8, outs: u8, routes: &[(u8, u8)]) -> Option<RouterFault>
    ensures { result ≡ route_fault sources outs [] routes.now }
{
    for (place, route) in routes.iter().enumerate() {
        if route.0 >= sources || route.1 >= outs {
            return Some(RouterFault::Index);
        }
        if stands_in(*route, &routes[..place]) {
            return Some(RouterFault::Twice);
        }
    }
    None
}

/// What is wrong with the numbers, or else with the routes.
pub fn first_fault(sources: u8, outs: u8, routes: &[(u8, u8)]) -> Option<RouterFault>
    ensures { result ≡ first_fault sources outs routes.now }
{
    if !is_count(sources) || !is_count(outs) {
        return Some(RouterFault::Count);
    }
    route_fault(sources, outs, routes)
}

/// The outs that a source goes to.
fn outs_of(source: u8, routes: &[(u8, u8)]) -> [bool; 16]
    ensures { result ≡ outs_of source routes.now }
{
    let mut outs = [false; 16];
    for out in 0..16u8 {
        outs[out as usize] = stands_in((source, out), routes);
    }
    outs
}

/// The sources, with nothing taken.
pub fn sources_of(
    alloc: Global,
    sources: u8,
    routes: &[(u8, u8)],
) -> Result<Vec<Source>, AllocError>
    requires { sources ≤ 16 }
    ensures { IfOk result (λ made. made.items ≡ links_of sources routes.now) }
{
    let mut made = Vec::new(alloc);
    for source in 0..sources {
        made.push(Source::new(alloc, outs_of(source, routes))?)?;
    }
    Ok(made)
}
