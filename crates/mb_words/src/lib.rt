//! What the words of a command line are: a command, or none.
#![tactic(auto)]

mod command;
pub mod laws;
mod words;

pub use command::{Command, Specs};
pub use words::{Usage, Words};
