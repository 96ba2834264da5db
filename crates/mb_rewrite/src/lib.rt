//! A tape of any port's recording, written again as a tape of a byte line: its messages, and behind them a Note Off for
//! each note that still sounds (`specs/Guarded.antt`); or its messages as rules have them (`specs/Filtered.antt`).
#![tactic(auto)]

mod answer;
mod filtering;
mod guarding;
pub mod laws;
mod line;

pub use filtering::Filtering;
pub use guarding::Guarding;
