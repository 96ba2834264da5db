//! What readers tell, as lines of text.

ghost use Rattle.std.specs.Prelude.{◌<◌};

use arrayvec::ArrayVec;
use mb_message::{Ev, Mark, Note, Seen};
use mb_print::{Line, mark_line, note_line};

/// Lines of what was told: of a mark the cable, or 0 on a byte line, and what it is; of a note `note`, its place and
/// its kind.
pub type Text = ArrayVec<u8, 4096>;

/// How a run of SysEx data is shown.
#[derive(Clone, Copy)]
pub enum Runs {
    /// A line a byte, so that the lines don't depend on where pieces end.
    ByteByByte,
    /// One line, as long as it was lent.
    AsLent,
}

/// Appends the lines of an answer: `none` where nothing was told.
pub fn put_answer(cable: u8, answer: Option<Seen<'_>>, text: &mut Text) {
    match answer {
        Some(seen) => put_seen(cable, seen, Runs::AsLent, text),
        None => put_line(b"none\n", text),
    }
}

/// Appends the lines of what was told of a cable.
pub fn put_seen(cable: u8, seen: Seen<'_>, runs: Runs, text: &mut Text) {
    put_numbered(u64::from(cable), seen, runs, text);
}

/// The same with a number of any size ahead of each mark.
pub fn put_numbered(number: u64, seen: Seen<'_>, runs: Runs, text: &mut Text) {
    match seen {
        Seen::Note(note) => put_note(note, text),
        Seen::Ev(Ev::Short(short)) => put_mark(number, Mark::Short(short), text),
        Seen::Ev(Ev::Rt(message)) => put_mark(number, Mark::Rt(message), text),
        Seen::Ev(Ev::Open) => put_mark(number, Mark::Open, text),
        Seen::Ev(Ev::Run(bytes)) => match runs {
            Runs::ByteByByte => {
                for byte in bytes {
                    put_mark(number, Mark::Byte(*byte), text);
                }
            }
            Runs::AsLent => put_bytes("run", bytes, text),
        },
        Seen::Ev(Ev::End) => put_mark(number, Mark::End, text),
        Seen::Ev(Ev::Abort) => put_mark(number, Mark::Abort, text),
    }
}

/// Appends a word and bytes on one line.
pub fn put_bytes(word: &str, bytes: &[u8], text: &mut Text) {
    put_line(word.as_bytes(), text);
    for byte in bytes {
        put_line(&[b' ', digit(*byte / 16), digit(*byte % 16)], text);
    }
    put_line(b"\n", text);
}

/// A digit in hexadecimal.
fn digit(value: u8) -> u8
    requires { value < 16 }
{
    b"0123456789ABCDEF"[usize::from(value)]
}

/// Appends a line, or a part of one.
pub fn put_line(line: &[u8], text: &mut Text) {
    let _ = text.try_extend_from_slice(line);
}

/// Appends the line of a note.
pub fn put_note(note: Note, text: &mut Text) {
    let mut line = Line::new();
    note_line(note, true, &mut line);
    put_line(line.as_slice(), text);
}

/// Appends the line of a mark, behind a number.
pub fn put_mark(number: u64, mark: Mark, text: &mut Text) {
    let mut line = Line::new();
    mark_line(number, mark, &mut line);
    put_line(line.as_slice(), text);
}
