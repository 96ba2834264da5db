//! Lines of text about what a recording carries: of a mark, of a note, and of a message that passed; and numbers in text.
//!
//! A line stands in a buffer of fixed size that holds the longest one. What it says to the byte is in
//! `specs/Lines.antt`.
#![tactic(auto)]

mod lines;
mod numbers;

pub use lines::{Kind, Line, mark_line, note_line, report_line};
pub use numbers::{put_number, put_text, read_number};
