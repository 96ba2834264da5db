//! What a list of marks means: its messages and System Exclusive (SysEx), and beside them its real-time messages
//! (`mb_stream/specs/Denotation.antt`). A `Collector` is given marks one by one; `Counts` counts them.
#![tactic(auto)]

mod bytes;
mod collector;
mod counts;
mod denotation;
mod item;

pub use bytes::Bytes;
pub use collector::Collector;
pub use counts::Counts;
pub use denotation::{Den, Items, Rts};
pub use item::{Item, RtAt};
