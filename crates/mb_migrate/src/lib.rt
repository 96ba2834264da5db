//! A tape written again in the second form, piece by piece as it is read.
#![tactic(auto)]

mod migrate;

pub use migrate::migrate_piece;
