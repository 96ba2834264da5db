//! Frames and tapes, the file forms of recordings.
//!
//! A frame is a length of two bytes, most significant first, and a content. `Frames` is where a list of frames stands
//! that comes in pieces. What was told of it doesn't depend on how the list was cut: it is the parts of the list so far
//! (`specs/Frames.antt`). It keeps one number, never grows, and refuses nothing. `put_frame` writes a frame.
//!
//! A tape has its bytes in records, each with a moment (`specs/Tapes.antt`). `Tape` reads one that comes in pieces, and
//! lends a record's bytes as parts of the caller's piece; `tape_magic` and `put_header` write one, and `Gather` makes
//! records of bytes with moments.
#![tactic(auto)]

mod frames;
mod front;
mod gather;
mod put;
mod read_header;
mod tape;
mod write_header;

pub use frames::Frames;
pub use gather::Gather;
pub use put::put_frame;
pub use tape::{Tape, TapeFault, TapePart};
pub use write_header::{put_header, tape_magic};

pub mod laws;
