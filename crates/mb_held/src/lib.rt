//! What is held in a buffer before it is handed on, so that a taker of bytes gets many at once.
#![tactic(auto)]

mod held;

pub use held::{make_place, put_bytes};
