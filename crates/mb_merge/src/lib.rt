//! Which mark passes next where sources share outs, so that no two System Exclusive dumps ever mix.
//!
//! A `Router` takes marks of up to 16 sources and passes each to all outs of its source. A source owns its outs from
//! its SysEx's start to its end; marks of others that share one wait, in their order, and a real-time mark never does.
//! One slow dump defers only those who share its out. It holds 1,024 marks of a source at most, in rings that `open`
//! makes, and allocates nothing after.
#![tactic(auto)]

mod opening;
mod router;
mod source;
mod waiting;

pub use opening::RouterFault;
pub use router::{Passed, Router};
pub use source::Full;

pub mod laws;
