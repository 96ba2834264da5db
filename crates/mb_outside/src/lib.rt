//! All that touches the world: the words of a command line, the desk (what is read and written), and takers of bytes.
//! What decides is elsewhere, and knows of the world only what the traits here say.
#![tactic(auto)]

mod args;
mod desk;
mod desk_out;
pub mod laws;
mod memory_desk;
mod memory_file;
mod memory_out;
mod out;
mod real_desk;

pub use args::Args;
pub use desk::{Desk, Failed};
pub use desk_out::{DeskOut, write_all};
pub use memory_desk::MemoryDesk;
pub use memory_out::MemoryOut;
pub use out::{Out, Refused};
pub use real_desk::RealDesk;
