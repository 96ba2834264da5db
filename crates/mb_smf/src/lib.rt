//! Standard MIDI Files of format 0 (Standard MIDI Files 1.0).
//!
//! `SmfReader` reads a file that comes in pieces, and gives the bytes that its events carry, each with its moment in
//! microseconds. What it gives doesn't depend on how the file was cut: it is what the definition says of the whole
//! (`specs/Smf.antt`). It keeps a few numbers and never grows; a fault is told with the offset of the byte that shows
//! it.
#![tactic(auto)]

mod event_kind;
mod fault;
mod file_place;
mod file_state;
mod given_bytes;
mod hand_on;
mod header;
mod number;
mod reader;
mod spell;
mod track;
mod track_clock;
mod writer;

pub use fault::{SmfFault, SmfWhy};
pub use reader::{SmfPart, SmfReader};
pub use writer::{SmfFull, SmfWriter};

pub mod laws;
