//! Standard MIDI Files as tapes, and tapes as files, piece by piece as they are read.
//!
//! `Playing` reads a file, and hands on a tape of the bytes that it gives, each at its moment (`specs/Played.antt`). It
//! takes no memory: what waits is a record of the tape. `Recording` reads a tape, and hands on at its end a file of
//! what its track 0 carries (`specs/Recorded.antt`), which stands in memory until then.
#![tactic(auto)]

mod part;
mod playing;
mod put_marks;
mod recording;

pub use playing::Playing;
pub use recording::{Recording, RecordingStop};

pub mod laws;
