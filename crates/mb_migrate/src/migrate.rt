//! A piece of a tape in the second form.

ghost use Rattle.std.specs.Prelude.{◌≡◌, ℕ, true, List, ◌++◌, flat_map, OnOk, OnErr, IfOk};
ghost use Rattle.mb_outside.specs.Cause.{HasCause};
ghost use Rattle.mb_outside.specs.Taking.{TookFront};
ghost use Rattle.mb_frames.specs.Tapes.{fault_in, header};
ghost use Rattle.mb_frames.specs.TapeSteps.{after, ending_at};
ghost use Rattle.mb_frames.specs.TapeReading.{told_part};
ghost use Rattle.mb_frames.specs.Migrated.{magic_between, migrated_from, part_bytes};
ghost use Rattle.mb_held.specs.Held.{Holds};

use mb_frames::{Tape, TapeFault, TapePart, put_header, tape_magic};
use mb_held::{make_place, put_bytes};
use mb_message::Buf;
use mb_outside::{Out, Refused};

/// Reads a piece of a tape and hands on what the second form has of it: each header that became whole, each byte of a
/// record. A fault is answered where one comes: what stands before it was handed on, and what follows isn't looked at.
/// After `Refused` a front of it was handed on, and the tape isn't read on.
pub fn migrate_piece<K: Out>(
    tape: &mut Tape,
    piece: &[u8],
    out: &mut K,
) -> Result<Option<TapeFault>, Refused>
    requires { K.ready out.old }
    ensures ready { K.ready out.new }
    ensures cause { HasCause (K.refusals out.old) (K.refusals out.new) result }
    ensures sound { OnOk result (K.refusals out.new ≡ K.refusals out.old) }
    ensures state { OnOk result (tape.new ≡ after tape.old piece.now) }
    ensures fault { IfOk result (λ fault. fault ≡ fault_in (ending_at (after tape.old piece.now))) }
    ensures given { OnOk result (K.took out.old (migrated_from tape.old piece.now) out.new) }
    ensures part { OnErr result (TookFront K.took out.old out.new (migrated_from tape.old piece.now)) }
{
    let mut held = Buf::new();
    let mut rest = piece;
    'parts: loop {
        let begun = tape.has_magic();
        match tape.next(&mut rest) {
            Ok(Some(part)) => {
                if let Err(refused) = put_told(begun, tape.has_magic(), part, &mut held, out) {
                    return Err(refused);
                }
            }
            Ok(None) => return hand_on(begun, tape.has_magic(), None, &mut held, out),
            Err(fault) => return hand_on(begun, tape.has_magic(), Some(fault), &mut held, out),
        }
    }
}

/// Hands on what is held, with the magic where it became whole behind it, and answers the fault.
fn hand_on<K: Out>(
    before: bool,
    now: bool,
    fault: Option<TapeFault>,
    held: &mut Buf,
    out: &mut K,
) -> Result<Option<TapeFault>, Refused>
    requires { K.ready out.old }
    ensures ready { K.ready out.new }
    ensures cause { HasCause (K.refusals out.old) (K.refusals out.new) result }
    ensures sound { OnOk result (K.refusals out.new ≡ K.refusals out.old) }
    ensures fault { IfOk result (λ told. told ≡ fault) }
    ensures took { OnOk result (K.took out.old (held.old.items ++ magic_between before now) out.new) }
    ensures front { OnErr result (TookFront K.took out.old out.new (held.old.items ++ magic_between before now)) }
{
    if let Err(refused) = put_magic(before, now, held, out) {
        return Err(refused);
    }
    match out.take(held.as_slice()) {
        Ok(()) => Ok(fault),
        Err(refused) => Err(refused),
    }
}

/// Appends the magic where it became whole, and a part.
fn put_told<K: Out>(
    before: bool,
    now: bool,
    part: TapePart<'_>,
    held: &mut Buf,
    out: &mut K,
) -> Result<(), Refused>
    requires { K.ready out.old }
    ensures ready { K.ready out.new }
    ensures cause { HasCause (K.refusals out.old) (K.refusals out.new) result }
    ensures sound { OnOk result (K.refusals out.new ≡ K.refusals out.old) }
    ensures ok { OnOk result (Holds (λ given. K.took out.old given out.new) (held.old.items
        ++ (magic_between before now ++ flat_map part_bytes (told_part part.entry))) held.new.items) }
    ensures err { OnErr result (TookFront K.took out.old out.new (held.old.items
        ++ (magic_between before now ++ flat_map part_bytes (told_part part.entry)))) }
{
    if let Err(refused) = put_magic(before, now, held, out) {
        return Err(refused);
    }
    put_part(part, held, out)
}

/// Appends the magic, where it became whole.
fn put_magic<K: Out>(before: bool, now: bool, held: &mut Buf, out: &mut K) -> Result<(), Refused>
    requires { K.ready out.old }
    ensures ready { K.ready out.new }
    ensures cause { HasCause (K.refusals out.old) (K.refusals out.new) result }
    ensures sound { OnOk result (K.refusals out.new ≡ K.refusals out.old) }
    ensures ok { OnOk result (Holds (λ given. K.took out.old given out.new) (held.old.items
        ++ magic_between before now) held.new.items) }
    ensures err { OnErr result (TookFront K.took out.old out.new (held.old.items ++ magic_between before now)) }
{
    if before {
        return Ok(());
    }
    if !now {
        return Ok(());
    }
    if let Err(refused) = make_place(16, held, out) {
        return Err(refused);
    }
    tape_magic(held);
    Ok(())
}

/// Appends a part: a header in the second form, or bytes as they are.
fn put_part<K: Out>(part: TapePart<'_>, held: &mut Buf, out: &mut K) -> Result<(), Refused>
    requires { K.ready out.old }
    ensures ready { K.ready out.new }
    ensures cause { HasCause (K.refusals out.old) (K.refusals out.new) result }
    ensures sound { OnOk result (K.refusals out.new ≡ K.refusals out.old) }
    ensures ok { OnOk result (Holds (λ given. K.took out.old given out.new) (held.old.items
        ++ flat_map part_bytes (told_part part.entry)) held.new.items) }
    ensures err { OnErr result (TookFront K.took out.old out.new (held.old.items
        ++ flat_map part_bytes (told_part part.entry))) }
{
    match part {
        TapePart::Begin { moment, track, len } => put_begin(moment, track, len, held, out),
        TapePart::Bytes(bytes) => put_bytes(bytes, held, out),
        TapePart::End => Ok(()),
    }
}

/// Appends a header.
fn put_begin<K: Out>(
    moment: u64,
    track: u8,
    len: u16,
    held: &mut Buf,
    out: &mut K,
) -> Result<(), Refused>
    requires { K.ready out.old }
    ensures ready { K.ready out.new }
    ensures cause { HasCause (K.refusals out.old) (K.refusals out.new) result }
    ensures sound { OnOk result (K.refusals out.new ≡ K.refusals out.old) }
    ensures ok { OnOk result (Holds (λ given. K.took out.old given out.new) (held.old.items
        ++ header true moment track len) held.new.items) }
    ensures err { OnErr result (TookFront K.took out.old out.new (held.old.items
        ++ header true moment track len)) }
{
    if let Err(refused) = make_place(16, held, out) {
        return Err(refused);
    }
    put_header(moment, track, len, held);
    Ok(())
}
