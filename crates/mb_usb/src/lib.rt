//! USB-MIDI event packets (USB Device Class Definition for MIDI Devices 1.0): a recording is packets of four bytes,
//! each of one of sixteen cables.
//!
//! `UsbReader` reads all cables of a recording that comes in pieces, `CableReader` one of them. What they tell doesn't
//! depend on how the recording was cut: each cable's bytes are a byte stream with a running status of its own, and
//! bytes that don't suit their packet's code index number are read all the same and noted.
//!
//! `UsbWriter` writes one cable. A message is one packet. A SysEx is cut into threes, so up to two of its bytes wait
//! for the next ones; a real-time message doesn't wait for them. Neither readers nor the writer grow, and they refuse
//! nothing.
#![tactic(auto)]

mod cable;
mod carry;
pub mod laws;
mod packet;
mod reader;
mod under;
mod whole;
mod writer;

pub use cable::CableReader;
pub use reader::UsbReader;
pub use writer::{FINISH_ROOM, PUT_ROOM, UsbWriter};
