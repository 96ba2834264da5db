//! BLE-MIDI packets (BLE-MIDI 1.0): a recording is a list of frames, each of one packet.
//!
//! `BleReader` reads a recording that comes in pieces, and tells each mark and note at its moment, in milliseconds.
//! `BleWriter` writes marks with their moments as packets of at most a size; it keeps the packet under way. Neither
//! grows, and they refuse nothing.
#![tactic(auto)]

mod classes;
mod content;
pub mod laws;
mod position;
mod reader;
mod spelling;
mod step;
mod under_way;
mod writer;

pub use reader::BleReader;
pub use step::BleStep;
pub use writer::{BleWriter, MORE_ROOM};
