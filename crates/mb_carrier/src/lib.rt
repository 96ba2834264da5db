//! One face over the carriers. From here up a recording is read and written by its spec, and no packet is named.
#![tactic(auto)]

mod ble;
mod din;
mod events;
mod fill;
mod fire;
mod hop;
pub mod laws;
mod list_steps;
mod listing;
mod piece;
mod reader;
mod spec;
mod step;
mod tally;
mod usb;
mod writer;

pub(crate) use events::LONGEST_RUN;
pub use events::{EventReader, EventWriter};
pub use hop::fill_hop;
pub use listing::Listing;
pub use piece::Piece;
pub use reader::PortReader;
pub use spec::Spec;
pub use step::PortStep;
pub use tally::hop_line;
pub use writer::PortWriter;
