//! The lines of a recording: a piece is read to its end, each mark and note is printed into one buffer, and that is
//! handed on.

ghost use Rattle.std.specs.Prelude.{◌≡◌, ℕ, ◌+◌, ◌*◌, ◌^◌, ◌<◌, ◌≤◌, Bool, ◌||◌, List, [], ◌++◌, map, flat_map, length};
ghost use Rattle.std.specs.Prelude.{OnOk, OnErr};
ghost use Rattle.arrayvec.specs.ArrayVec.{array_vec_len};
ghost use Rattle.mb_message.specs.Signs.{sign_of, signs_of_event, ByteSign};
ghost use Rattle.mb_outside.specs.Cause.{HasCause};
ghost use Rattle.mb_outside.specs.Taking.{TookFront};
ghost use Rattle.mb_print.specs.Lines.{mark_text, note_text};
ghost use Rattle.mb_stream.specs.ReaderLaw.{answer, told_by};
ghost use Rattle.mb_carrier.specs.ListSteps.{lines_told, has_notes, Gathered, ListStands, ListFed, ListHalted};
ghost use Rattle.mb_carrier.specs.ListSteps.{ListEnded};
ghost use Rattle.mb_carrier.specs.ListSteps.{ListEndHalted};

use crate::EventReader;
use mb_message::{Buf, Ev, Mark, Note, Seen};
use mb_outside::{Out, Refused};
use mb_print::{Line, mark_line, note_line};

/// Reads a piece to its end and prints all that it gives: the notes alone, or the marks too where they are traced.
/// Whether a note was among it is kept in `noted`. After `Refused` a front of it was handed on.
pub(crate) fn list_piece<R: EventReader, K: Out>(
    reader: &mut R,
    traced: bool,
    noted: &mut bool,
    piece: &[u8],
    out: &mut K,
) -> Result<(), Refused>
    requires early { R.offset reader.old + length piece.now ≤ 2 ^ 51 + 2 ^ 14 }
    requires ready { K.ready out.old }
    requires stands { (bytes : List ℕ) × ListStands (R.spec reader.old) (R.stands reader.old) noted.old bytes }
    ensures reads { R.spec reader.new ≡ R.spec reader.old }
    ensures offset { OnOk result (R.offset reader.new ≡ R.offset reader.old + length piece.now) }
    ensures ready { K.ready out.new }
    ensures cause { HasCause (K.refusals out.old) (K.refusals out.new) result }
    ensures sound { OnOk result (K.refusals out.new ≡ K.refusals out.old) }
    ensures fed { OnOk result (ListFed (R.spec reader.old) traced (R.stands reader.old)
        (R.stands reader.new) noted.old noted.new piece.now (λ given. K.took out.old given out.new)) }
    ensures halted { OnErr result (ListHalted (R.spec reader.old) traced (R.stands reader.old) noted.old piece.now
        (λ given. K.took out.old given out.new)) }
{
    let mut held = Buf::new();
    let mut rest = piece;
    'events: while let Some(seen) = reader.next(&mut rest) {
        let moment = reader.moment(0);
        *noted |= is_note(seen);
        if let Err(refused) = list_seen(moment, seen, traced, &mut held, out) {
            return Err(refused);
        }
    }
    out.take(held.as_slice())
}

/// Prints what only the end makes known. After `Refused` a front of it was handed on.
pub(crate) fn list_end<R: EventReader, K: Out>(
    reader: &mut R,
    traced: bool,
    noted: &mut bool,
    out: &mut K,
) -> Result<(), Refused>
    requires ready { K.ready out.old }
    requires stands { (bytes : List ℕ) × ListStands (R.spec reader.old) (R.stands reader.old) noted.old bytes }
    ensures reads { R.spec reader.new ≡ R.spec reader.old }
    ensures ready { K.ready out.new }
    ensures cause { HasCause (K.refusals out.old) (K.refusals out.new) result }
    ensures sound { OnOk result (K.refusals out.new ≡ K.refusals out.old) }
    ensures ended { OnOk result (ListEnded (R.spec reader.old) traced (R.stands reader.old) noted.old noted.new
        (λ given. K.took out.old given out.new)) }
    ensures halted { OnErr result (ListEndHalted (R.spec reader.old) traced (R.stands reader.old) noted.old
        (λ given. K.took out.old given out.new)) }
{
    let mut held = Buf::new();
    match reader.finish() {
        Some(seen) => {
            let moment = reader.moment(0);
            *noted |= is_note(seen);
            if let Err(refused) = list_seen(moment, seen, traced, &mut held, out) {
                return Err(refused);
            }
            out.take(held.as_slice())
        }
        None => Ok(()),
    }
}

/// Whether it is a note.
#[inline(always)]
fn is_note(seen: Seen<'_>) -> bool
    ensures { result ≡ has_notes (told_by seen.entry) }
{
    match seen {
        Seen::Ev(_) => false,
        Seen::Note(_) => true,
    }
}

/// Prints a note, and an event where marks are traced.
#[inline(always)]
fn list_seen<K: Out>(
    moment: u64,
    seen: Seen<'_>,
    traced: bool,
    held: &mut Buf,
    out: &mut K,
) -> Result<(), Refused>
    requires ready { K.ready out.old }
    ensures ready { K.ready out.new }
    ensures cause { HasCause (K.refusals out.old) (K.refusals out.new) result }
    ensures sound { OnOk result (K.refusals out.new ≡ K.refusals out.old) }
    ensures ok { OnOk result (Gathered (λ given. K.took out.old given out.new) (held.old.items
        ++ lines_told traced moment (told_by seen.entry)) held.new.items) }
    ensures err { OnErr result (TookFront K.took out.old out.new (held.old.items ++ lines_told traced moment
        (told_by seen.entry))) }
{
    match seen {
        Seen::Note(note) => list_note(note, traced, held, out),
        Seen::Ev(ev) => {
            if traced {
                list_event(moment, ev, held, out)
            } else {
                Ok(())
            }
        }
    }
}

/// Prints an event, a run as its bytes.
fn list_event<K: Out>(moment: u64, ev: Ev<'_>, held: &mut Buf, out: &mut K) -> Result<(), Refused>
    requires ready { K.ready out.old }
    ensures ready { K.ready out.new }
    ensures cause { HasCause (K.refusals out.old) (K.refusals out.new) result }
    ensures sound { OnOk result (K.refusals out.new ≡ K.refusals out.old) }
    ensures ok { OnOk result (Gathered (λ given. K.took out.old given out.new) (held.old.items ++ flat_map
        (mark_text moment) (signs_of_event ev.entry)) held.new.items) }
    ensures err { OnErr result (TookFront K.took out.old out.new (held.old.items ++ flat_map (mark_text moment)
        (signs_of_event ev.entry))) }
{
    match ev {
        Ev::Short(short) => list_mark(moment, Mark::Short(short), held, out),
        Ev::Rt(message) => list_mark(moment, Mark::Rt(message), held, out),
        Ev::Open => list_mark(moment, Mark::Open, held, out),
        Ev::Run(bytes) => list_run(moment, bytes, held, out),
        Ev::End => list_mark(moment, Mark::End, held, out),
        Ev::Abort => list_mark(moment, Mark::Abort, held, out),
    }
}

/// Prints the data of a SysEx, a line each byte.
fn list_run<K: Out>(moment: u64, bytes: &[u8], held: &mut Buf, out: &mut K) -> Result<(), Refused>
    requires ready { K.ready out.old }
    ensures ready { K.ready out.new }
    ensures cause { HasCause (K.refusals out.old) (K.refusals out.new) result }
    ensures sound { OnOk result (K.refusals out.new ≡ K.refusals out.old) }
    ensures ok { OnOk result (Gathered (λ given. K.took out.old given out.new) (held.old.items ++ flat_map
        (mark_text moment) (map ByteSign bytes.now)) held.new.items) }
    ensures err { OnErr result (TookFront K.took out.old out.new (held.old.items ++ flat_map (mark_text moment)
        (map ByteSign bytes.now))) }
{
    let mut rest = bytes;
    'run: while !rest.is_empty() {
        if let Err(refused) = list_mark(moment, Mark::Byte(rest[0]), held, out) {
            return Err(refused);
        }
        rest = &rest[1..];
    }
    Ok(())
}

/// Prints a mark.
fn list_mark<K: Out>(moment: u64, mark: Mark, held: &mut Buf, out: &mut K) -> Result<(), Refused>
    requires ready { K.ready out.old }
    ensures ready { K.ready out.new }
    ensures cause { HasCause (K.refusals out.old) (K.refusals out.new) result }
    ensures sound { OnOk result (K.refusals out.new ≡ K.refusals out.old) }
    ensures ok { OnOk result (Gathered (λ given. K.took out.old given out.new) (held.old.items ++ mark_text moment
        (sign_of mark)) held.new.items) }
    ensures err { OnErr result (TookFront K.took out.old out.new (held.old.items ++ mark_text moment (sign_of mark))) }
{
    let mut line = Line::new();
    mark_line(moment, mark, &mut line);
    put_line(&line, held, out)
}

/// Prints a note.
fn list_note<K: Out>(note: Note, traced: bool, held: &mut Buf, out: &mut K) -> Result<(), Refused>
    requires ready { K.ready out.old }
    ensures ready { K.ready out.new }
    ensures cause { HasCause (K.refusals out.old) (K.refusals out.new) result }
    ensures sound { OnOk result (K.refusals out.new ≡ K.refusals out.old) }
    ensures ok { OnOk result (Gathered (λ given. K.took out.old given out.new) (held.old.items
        ++ note_text traced note.at note.kind) held.new.items) }
    ensures err { OnErr result (TookFront K.took out.old out.new (held.old.items
        ++ note_text traced note.at note.kind)) }
{
    let mut line = Line::new();
    note_line(note, traced, &mut line);
    put_line(&line, held, out)
}

/// Appends a line to the buffer. Where it has no room for the longest, the buffer is handed on first.
fn put_line<K: Out>(line: &Line, held: &mut Buf, out: &mut K) -> Result<(), Refused>
    requires ready { K.ready out.old }
    ensures ready { K.ready out.new }
    ensures cause { HasCause (K.refusals out.old) (K.refusals out.new) result }
    ensures sound { OnOk result (K.refusals out.new ≡ K.refusals out.old) }
    ensures ok { OnOk result (Gathered (λ given. K.took out.old given out.new) (held.old.items
        ++ line.now.items) held.new.items) }
    ensures err { OnErr result (TookFront K.took out.old out.new (held.old.items ++ line.now.items)) }
{
    if let Err(refused) = make_place(held, out) {
        return Err(refused);
    }
    // There is room.
    let _fits = held.try_extend_from_slice(line.as_slice());
    Ok(())
}

/// Hands the buffer on where the longest line has no room in it.
fn make_place<K: Out>(held: &mut Buf, out: &mut K) -> Result<(), Refused>
    requires ready { K.ready out.old }
    ensures ready { K.ready out.new }
    ensures cause { HasCause (K.refusals out.old) (K.refusals out.new) result }
    ensures sound { OnOk result (K.refusals out.new ≡ K.refusals out.old) }
    ensures room { OnOk result (array_vec_len held.new + 96 ≤ 1024) }
    ensures ok { OnOk result (Gathered (λ given. K.took out.old given out.new) held.old.items held.new.items) }
    ensures err { OnErr result (TookFront K.took out.old out.new held.old.items) }
{
    if held.len() + 96 <= held.capacity() {
        return Ok(());
    }
    if let Err(refused) = out.take(held.as_slice()) {
        return Err(refused);
    }
    held.clear();
    Ok(())
}
