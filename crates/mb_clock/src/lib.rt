//! The 13-bit clock of BLE-MIDI packets (BLE-MIDI 1.0, "Timestamp"): from stamps to moments, and back.
//!
//! `Unwrap` is told of each packet and each stamp, and gives the stamp's moment. What it gives is what the definition
//! gives for all packets and stamps so far (`specs/Moments.antt`), however often the lower bits fall in one packet. It
//! keeps three numbers, and refuses nothing.
#![tactic(auto)]

mod stamp;
mod unwrap;

pub use stamp::stamp_of;
pub use unwrap::Unwrap;

pub mod laws;
