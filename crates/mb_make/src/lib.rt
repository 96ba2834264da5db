//! The bytes that the self-test is made of: a list of units of a byte line, drawn by a generator of
//! pseudo-random numbers (`specs/Generated.antt`). Among them are running status, real-time bytes inside SysEx, and
//! SysEx that the next unit breaks.
//!
//! `Maker` gives them piece by piece, in fixed memory. It refuses nothing.
#![tactic(auto)]

mod draws;
pub mod laws;
mod maker;
mod unit;
mod units;

pub use maker::Maker;
