//! Tests alone: worked examples of every carrier, as tables, on the top call over a desk in memory.
#![tactic(auto)]

#[cfg(test)]
mod ble;
#[cfg(test)]
mod cables;
#[cfg(test)]
mod chain_calls;
#[cfg(test)]
mod chains;
#[cfg(test)]
mod conversion;
#[cfg(test)]
mod faults;
#[cfg(test)]
mod filtering;
#[cfg(test)]
mod fire;
#[cfg(test)]
mod listing;
#[cfg(test)]
mod ports;
#[cfg(test)]
mod rewriting;
#[cfg(test)]
mod rigs;
#[cfg(test)]
mod row;
#[cfg(test)]
mod selftest;
#[cfg(test)]
mod so_far;
#[cfg(test)]
mod tapes;
#[cfg(test)]
mod words;
