//! Tests alone: the calls of the lower crates, each on its happy path, and what no clause says of them. They stand here
//! and not in their crates, since a crate with tests is proved twice.
#![tactic(auto)]

#[cfg(test)]
mod ble_reader;
#[cfg(test)]
mod ble_writer;
#[cfg(test)]
mod clock;
#[cfg(test)]
mod denote;
#[cfg(test)]
mod din;
#[cfg(test)]
mod filter;
#[cfg(test)]
mod filtering;
#[cfg(test)]
mod fire_reader;
#[cfg(test)]
mod fire_writer;
#[cfg(test)]
mod frames;
#[cfg(test)]
mod guard;
#[cfg(test)]
mod lines;
#[cfg(test)]
mod made;
#[cfg(test)]
mod marks;
#[cfg(test)]
mod merge;
#[cfg(test)]
mod message;
#[cfg(test)]
mod outside;
#[cfg(test)]
mod print;
#[cfg(test)]
mod recording;
#[cfg(test)]
mod rig;
#[cfg(test)]
mod rig_run;
#[cfg(test)]
mod smf;
#[cfg(test)]
mod tapes;
#[cfg(test)]
mod text;
#[cfg(test)]
mod usb_reader;
#[cfg(test)]
mod usb_writer;
