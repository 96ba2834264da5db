//! The line of a mark, of a note, and of a message in a report.

ghost use Rattle.std.specs.Prelude.{◌≡◌, ◌+◌, ◌≤◌, [], ◌++◌, length};
ghost use Rattle.arrayvec.specs.ArrayVec.{array_vec_len};
ghost use Rattle.mb_message.specs.Signs.{ShortSign, sign_of};
ghost use Rattle.mb_print.specs.Lines.{kind_letter, kind_text, mark_text, mark_words, note_text, report_text};

use crate::numbers::{put_byte, put_number, put_text};
use arrayvec::ArrayVec;
use mb_message::{Mark, Note, NoteKind, Short};

/// One line of text, in bytes. The longest, of a report, has 65.
pub type Line = ArrayVec<u8, 96>;

/// Writes the line of a mark: `MOMENT short B1 [B2 [B3]]`, `MOMENT rt B`, `MOMENT open`, `MOMENT data B`, `MOMENT end`
/// or `MOMENT abort`, and a line feed. The line is empty at the start.
pub fn mark_line(moment: u64, mark: Mark, out: &mut Line)
    requires { out.old.items ≡ [] }
    ensures line { out.new.items ≡ mark_text moment (sign_of mark) }
    ensures len { array_vec_len out.new ≤ 36 }
{
    put_number(moment, out);
    out.push(b' ');
    put_mark(mark, out);
    out.push(b'\n');
}

/// Writes the line of a note: `AT KIND`, or `note AT KIND` where marks are traced too, and a line feed. The line is
/// empty at the start.
pub fn note_line(note: Note, traced: bool, out: &mut Line)
    requires { out.old.items ≡ [] }
    ensures line { out.new.items ≡ note_text traced note.at note.kind }
    ensures len { array_vec_len out.new ≤ 42 }
{
    if traced {
        put_text("note ", out);
    }
    put_number(note.at, out);
    out.push(b' ');
    put_text(kind_text(note.kind), out);
    out.push(b'\n');
}

/// What passed: a short message, a SysEx that ended, a SysEx that was broken off, a real-time message.
#[derive(Clone, Copy, Debug, PartialEq, Eq)]
pub enum Kind {
    M,
    S,
    B,
    R,
}

/// Writes the line of a report: `ARRIVAL PASSING SOURCE KIND`, the moments in milliseconds, and a line feed. The line is
/// empty at the start.
pub fn report_line(arrival: u64, passing: u64, source: u8, kind: Kind, out: &mut Line)
    requires { out.old.items ≡ [] }
    ensures line { out.new.items ≡ report_text arrival passing source kind }
    ensures len { array_vec_len out.new ≤ 65 }
{
    put_number(arrival, out);
    out.push(b' ');
    put_number(passing, out);
    out.push(b' ');
    put_number(u64::from(source), out);
    out.push(b' ');
    out.push(letter_of(kind));
    out.push(b'\n');
}

/// The letter of a kind.
fn letter_of(kind: Kind) -> u8
    ensures letter { result ≡ kind_letter kind }
{
    match kind {
        Kind::M => b'M',
        Kind::S => b'S',
        Kind::B => b'B',
        Kind::R => b'R',
    }
}

/// Appends what a mark is, and its bytes.
fn put_mark(mark: Mark, out: &mut Line)
    requires { array_vec_len out.old + 14 ≤ 96 }
    ensures words { out.new.items ≡ out.old.items ++ mark_words (sign_of mark) }
    ensures len { array_vec_len out.new ≤ array_vec_len out.old + 14 }
{
    match mark {
        Mark::Short(short) => put_short(short, out),
        Mark::Rt(message) => {
            put_text("rt", out);
            put_byte(message.byte(), out);
        }
        Mark::Open => put_text("open", out),
        Mark::Byte(byte) => {
            put_text("data", out);
            put_byte(byte, out);
        }
        Mark::End => put_text("end", out),
        Mark::Abort => put_text("abort", out),
    }
}

fn put_short(short: Short, out: &mut Line)
    requires { array_vec_len out.old + 14 ≤ 96 }
    ensures words { out.new.items ≡ out.old.items ++ mark_words (ShortSign short.status short.data1 short.data2) }
    ensures len { array_vec_len out.new ≤ array_vec_len out.old + 14 }
{
    put_text("short", out);
    put_byte(short.status(), out);
    if short.len() > 1 {
        put_byte(short.data1(), out);
    }
    if short.len() > 2 {
        put_byte(short.data2(), out);
    }
}

/// The word of a kind of note.
fn kind_text(kind: NoteKind) -> &'static str
    ensures word { result.now ≡ kind_text kind }
    ensures len { length result.now ≤ 15 }
{
    match kind {
        NoteKind::StrayData => "stray-data",
        NoteKind::Truncated => "truncated",
        NoteKind::StrayEnd => "stray-end",
        NoteKind::Undefined => "undefined",
        NoteKind::ReservedCin => "reserved-cin",
        NoteKind::CinMismatch => "cin-mismatch",
        NoteKind::BadHeader => "bad-header",
        NoteKind::EmptyPacket => "empty-packet",
        NoteKind::LoneStamp => "lone-stamp",
        NoteKind::BadCip => "bad-cip",
        NoteKind::ZeroDbs => "zero-dbs",
        NoteKind::Ragged => "ragged",
        NoteKind::NoMidiQuadlet => "no-midi-quadlet",
        NoteKind::DbcGap => "dbc-gap",
    }
}
