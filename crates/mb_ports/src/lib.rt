//! Packets of several ports over byte streams: the definitions that a reader of packets of any kind is proved by, in
//! `specs/`, and the laws between them, as contracts of functions that do nothing.
#![tactic(auto)]

pub mod laws;
