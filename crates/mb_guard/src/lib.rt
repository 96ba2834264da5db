//! Which notes sound, so that those which hang can be ended.
//!
//! A `Guard` is told of marks one by one, and keeps for each key of each channel whether it sounds: 2,048 truth values,
//! and nothing that grows. At any time it gives a Note Off for each note that still sounds (`specs/Sounding.antt`).
#![tactic(auto)]

mod guard;

pub use guard::Guard;

pub mod laws;
