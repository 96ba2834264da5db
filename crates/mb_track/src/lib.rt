//! One track of a tape: its marks, each at the moment of its record.
//!
//! A `TrackReader` reads a tape from pieces and tells when records begin and end, whatever their track, and the events
//! of one port in the recording that the bytes of its own track's records are (`specs/Track.antt`).
#![tactic(auto)]

pub mod laws;
mod track;

pub use track::{TrackReader, TrackStep};
