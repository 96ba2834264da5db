//! The self-test of the program: bytes that it makes (mb_make) are converted through every carrier and back to a
//! byte line, and what comes is told of in four lines. It keeps no bytes but those of one piece.
#![tactic(auto)]

mod conversion;
pub mod laws;
mod lines;
mod on_desk;
mod sum_out;

pub use lines::Lines;
pub use on_desk::{SmokeEnd, selftest};
pub use sum_out::SumOut;
