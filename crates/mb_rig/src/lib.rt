//! Rigs: which ports of which tapes are merged into which outs, and how they are run.
#![tactic(auto)]

mod bay;
mod draft;
mod ending;
mod fault;
mod feed;
mod files;
mod heard;
mod line;
mod link;
mod name;
mod outlet;
mod outs;
mod passing;
mod report;
mod rig;
mod run;
mod steps;
mod supply;
mod turn;

pub use ending::RigEnd;
pub use fault::{RigFault, Why};
pub use name::{Name, Port};
pub use rig::Rig;
pub use run::run_rig;

pub mod laws;
