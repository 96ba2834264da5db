//! Rules that keep, drop or change messages, and a mapper that applies them to events one by one.
//!
//! `Rules::read` reads a text of at most 64 rules; a `Mapper` answers each event as it is, changed, or not at all. What
//! is left of a list of marks means what the rules make of its messages (`specs/Mapped.antt`). Nothing here grows.
#![tactic(auto)]

mod mapper;
mod parse;
mod rule;
mod rules;

pub use mapper::Mapper;
pub use rule::{Action, Kind, Rule};
pub use rules::{RuleWhy, Rules, RulesFault};

pub mod laws;
