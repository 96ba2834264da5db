//! One hop's loop: a piece is read on and each event written into a buffer, until the piece is used up, the buffer is
//! full, or the next event has another moment.

ghost use Rattle.std.specs.Prelude.{◌≡◌, ℕ, ◌+◌, ◌*◌, ◌^◌, ◌<◌, ◌≤◌, true, false, List, [], ◌++◌, map, length, Some};
ghost use Rattle.std.specs.Prelude.{IfSome, IfNone};
ghost use Rattle.arrayvec.specs.ArrayVec.{array_vec_len};
ghost use Rattle.mb_message.specs.Signs.{ByteSign, suits_event, signs_of_event, IsRunOf, open_behind};
ghost use Rattle.mb_stream.specs.Puts.{Put, puts_at};
ghost use Rattle.mb_carrier.specs.Carrier.{live, hop_room_of, hop_longest_of};
ghost use Rattle.mb_carrier.specs.Hop.{seen_signs, MayCome};
ghost use Rattle.mb_carrier.specs.Fill.{PutSome, Flows, UsedUp, OnItsWay, More, unread, work, HasMoment};

use crate::{EventReader, EventWriter, Piece};
use mb_message::{Buf, Ev, Seen};

/// Reads a piece on and writes what it gives into an empty buffer, until the piece is used up, or the buffer has no
/// room for one more event: then it answers what is left of the piece. Where moments are kept apart, it stops also
/// before an event of another moment, so that all that it writes has the moment that the reader named before.
/// Each pair of carriers has a loop of its own, which a compiler lays out by itself.
#[inline(never)]
pub(crate) fn fill_pair<'a, R: EventReader, W: EventWriter>(
    reader: &mut R,
    writer: &mut W,
    apart: bool,
    piece: Piece<'a>,
    held: &mut Buf,
) -> Option<Piece<'a>>
    requires early { R.offset reader.old + length piece.rest.now ≤ 2 ^ 51 + 2 ^ 14 }
    requires empty { held.old.items ≡ [] }
    requires flows { (moments : ℕ → ℕ) × (bytes : List ℕ) × (puts : List Put) × (base : List ℕ) ×
        OnItsWay (R.spec reader.old) (W.spec writer.old) moments (R.moment reader.old) (R.stands reader.old)
        (W.stands writer.old)
        bytes (Some piece) puts base held.old.items }
    ensures reads { R.spec reader.new ≡ R.spec reader.old }
    ensures writes { W.spec writer.new ≡ W.spec writer.old }
    ensures offset { R.offset reader.new + unread result ≡ R.offset reader.old + length piece.entry.rest.now }
    ensures goes_on { (moments : ℕ → ℕ) (bytes : List ℕ) (puts : List Put) (base : List ℕ) →
        OnItsWay (R.spec reader.old) (W.spec writer.old) moments (R.moment reader.old) (R.stands reader.old)
        (W.stands writer.old)
        bytes (Some piece.entry) puts base held.old.items →
        More apart (R.moment reader.old piece.entry.moment) puts (λ ps.
        OnItsWay (R.spec reader.old) (W.spec writer.old) moments (R.moment reader.new) (R.stands reader.new)
        (W.stands writer.new)
        bytes result ps base held.new.items) }
    ensures moment { HasMoment piece.entry.moment result }
    ensures progress { work (R.owed reader.new) result < work (R.owed reader.old) (Some piece.entry) }
{
    fill_buffer(reader, writer, apart, piece, held)
}

/// The same, by way of a buffer of its own, whose length a compiler keeps in a register. It is worth the moving where
/// each event is several bytes.
#[inline(never)]
pub(crate) fn fill_own_buffer<'a, R: EventReader, W: EventWriter>(
    reader: &mut R,
    writer: &mut W,
    apart: bool,
    piece: Piece<'a>,
    held: &mut Buf,
) -> Option<Piece<'a>>
    requires early { R.offset reader.old + length piece.rest.now ≤ 2 ^ 51 + 2 ^ 14 }
    requires empty { held.old.items ≡ [] }
    requires flows { (moments : ℕ → ℕ) × (bytes : List ℕ) × (puts : List Put) × (base : List ℕ) ×
        OnItsWay (R.spec reader.old) (W.spec writer.old) moments (R.moment reader.old) (R.stands reader.old)
        (W.stands writer.old)
        bytes (Some piece) puts base held.old.items }
    ensures reads { R.spec reader.new ≡ R.spec reader.old }
    ensures writes { W.spec writer.new ≡ W.spec writer.old }
    ensures offset { R.offset reader.new + unread result ≡ R.offset reader.old + length piece.entry.rest.now }
    ensures goes_on { (moments : ℕ → ℕ) (bytes : List ℕ) (puts : List Put) (base : List ℕ) →
        OnItsWay (R.spec reader.old) (W.spec writer.old) moments (R.moment reader.old) (R.stands reader.old)
        (W.stands writer.old)
        bytes (Some piece.entry) puts base held.old.items →
        More apart (R.moment reader.old piece.entry.moment) puts (λ ps.
        OnItsWay (R.spec reader.old) (W.spec writer.old) moments (R.moment reader.new) (R.stands reader.new)
        (W.stands writer.new)
        bytes result ps base held.new.items) }
    ensures moment { HasMoment piece.entry.moment result }
    ensures progress { work (R.owed reader.new) result < work (R.owed reader.old) (Some piece.entry) }
{
    let mut buffer = Buf::new();
    let left = fill_buffer(reader, writer, apart, piece, &mut buffer);
    *held = buffer;
    left
}

/// `fill_pair`, where it is called.
#[inline(always)]
fn fill_buffer<'a, R: EventReader, W: EventWriter>(
    reader: &mut R,
    writer: &mut W,
    apart: bool,
    piece: Piece<'a>,
    held: &mut Buf,
) -> Option<Piece<'a>>
    requires early { R.offset reader.old + length piece.rest.now ≤ 2 ^ 51 + 2 ^ 14 }
    requires empty { held.old.items ≡ [] }
    requires flows { (moments : ℕ → ℕ) × (bytes : List ℕ) × (puts : List Put) × (base : List ℕ) ×
        OnItsWay (R.spec reader.old) (W.spec writer.old) moments (R.moment reader.old) (R.stands reader.old)
        (W.stands writer.old)
        bytes (Some piece) puts base held.old.items }
    ensures reads { R.spec reader.new ≡ R.spec reader.old }
    ensures writes { W.spec writer.new ≡ W.spec writer.old }
    ensures offset { R.offset reader.new + unread result ≡ R.offset reader.old + length piece.entry.rest.now }
    ensures goes_on { (moments : ℕ → ℕ) (bytes : List ℕ) (puts : List Put) (base : List ℕ) →
        OnItsWay (R.spec reader.old) (W.spec writer.old) moments (R.moment reader.old) (R.stands reader.old)
        (W.stands writer.old)
        bytes (Some piece.entry) puts base held.old.items →
        More apart (R.moment reader.old piece.entry.moment) puts (λ ps.
        OnItsWay (R.spec reader.old) (W.spec writer.old) moments (R.moment reader.new) (R.stands reader.new)
        (W.stands writer.new)
        bytes result ps base held.new.items) }
    ensures moment { HasMoment piece.entry.moment result }
    ensures progress { work (R.owed reader.new) result < work (R.owed reader.old) (Some piece.entry) }
{
    // An empty buffer has room for any event.
    let room = writer.room();
    prove!(room <= held.capacity());
    let at = reader.moment(piece.moment);
    let mut run: &'a [u8] = &[];
    let mut rest = piece.rest;
    if !put_event(writer, at, room, piece.ev, &mut run, held) {
        return Some(Piece {
            moment: piece.moment,
            ev: Ev::Run(run),
            rest,
        });
    }
    if let Some(ev) = read_on(
        reader,
        writer,
        apart,
        piece.moment,
        at,
        room,
        &mut rest,
        held,
    ) {
        return Some(Piece {
            moment: piece.moment,
            ev,
            rest,
        });
    }
    None
}

/// The loop over what isn't read yet. It answers what was read and isn't put yet, where something is left.
#[inline(always)]
fn read_on<'a, R: EventReader, W: EventWriter>(
    reader: &mut R,
    writer: &mut W,
    apart: bool,
    moment: u64,
    at: u64,
    room: usize,
    rest: &mut &'a [u8],
    held: &mut Buf,
) -> Option<Ev<'a>>
    requires early { R.offset reader.old + length rest.old.now ≤ 2 ^ 51 + 2 ^ 14 }
    requires asked { room ≡ hop_room_of (W.spec writer.old) }
    requires room { array_vec_len held.old + hop_room_of (W.spec writer.old) ≤ 1024 }
    requires at { at ≡ R.moment reader.old moment }
    requires flows { (moments : ℕ → ℕ) × (bytes : List ℕ) × (puts : List Put) × (base : List ℕ) ×
        Flows (R.spec reader.old) (W.spec writer.old) moments moment (R.stands reader.old) (W.stands writer.old)
        bytes rest.old.now [] puts base held.old.items }
    ensures reads { R.spec reader.new ≡ R.spec reader.old }
    ensures writes { W.spec writer.new ≡ W.spec writer.old }
    ensures offset { R.offset reader.new + length rest.new.now ≡ R.offset reader.old + length rest.old.now }
    ensures left { IfSome result (λ ev. (moments : ℕ → ℕ) (bytes : List ℕ) (puts : List Put) (base : List ℕ) →
        Flows (R.spec reader.old) (W.spec writer.old) moments moment (R.stands reader.old) (W.stands writer.old)
        bytes rest.old.now [] puts base held.old.items →
        More apart at puts (λ ps. Flows (R.spec reader.old) (W.spec writer.old) moments moment (R.stands reader.new)
        (W.stands writer.new)
        bytes rest.new.now (puts_at (R.moment reader.new moment) (signs_of_event ev)) ps base held.new.items)) }
    ensures empty { IfNone result (rest.new.now ≡ []) }
    ensures done { IfNone result ((moments : ℕ → ℕ) (bytes : List ℕ) (puts : List Put) (base : List ℕ) →
        Flows (R.spec reader.old) (W.spec writer.old) moments moment (R.stands reader.old) (W.stands writer.old)
        bytes rest.old.now [] puts base held.old.items →
        More apart at puts (λ ps. UsedUp (R.spec reader.old) (W.spec writer.old) moments (R.stands reader.new)
        (W.stands writer.new)
        bytes ps base held.new.items)) }
    ensures short { IfSome result (λ ev. length (signs_of_event ev) < 2 ^ 64) }
    ensures progress { IfSome result
        (λ ev. 2 * length rest.new.now + R.owed reader.new < 2 * length rest.old.now + R.owed reader.old) }
{
    'events: while let Some(seen) = reader.next(rest) {
        let now = reader.moment(moment);
        if !may_stand(apart, now, at) {
            return Some(event_of(seen));
        }
        let mut run: &'a [u8] = &[];
        if !put_seen(writer, now, room, seen, &mut run, held) {
            return Some(Ev::Run(run));
        }
    }
    None
}

/// Whether what has this moment may stand in a buffer of the other.
#[inline(always)]
fn may_stand(apart: bool, now: u64, at: u64) -> bool
    ensures { result ≡ true → apart ≡ true → now ≡ at }
{
    !apart || now == at
}

/// The event that was told; of a note, none.
#[inline(always)]
fn event_of<'a>(seen: Seen<'a>) -> Ev<'a>
    ensures signs { signs_of_event result ≡ seen_signs seen.entry }
    ensures short { length (signs_of_event result) < 2 ^ 64 }
{
    match seen {
        Seen::Note(_) => Ev::Run(&[]),
        Seen::Ev(Ev::Run(bytes)) => Ev::Run(bytes.split_at(bytes.len()).0),
        Seen::Ev(ev) => ev,
    }
}

/// Writes an event; a note is passed over. It answers whether there is room for one more; else data of a run may be
/// left.
#[inline(always)]
fn put_seen<'a, W: EventWriter>(
    writer: &mut W,
    at: u64,
    room: usize,
    seen: Seen<'a>,
    run: &mut &'a [u8],
    held: &mut Buf,
) -> bool
    requires asked { room ≡ hop_room_of (W.spec writer.old) }
    requires room { array_vec_len held.old + hop_room_of (W.spec writer.old) ≤ 1024 }
    requires run { run.old.now ≡ [] }
    requires suits { MayCome (W.in_sysex writer.old) (seen_signs seen) }
    ensures spec { W.spec writer.new ≡ W.spec writer.old }
    ensures put { PutSome (live (W.spec writer.old)) (W.stands writer.old) (W.stands writer.new)
        at (seen_signs seen.entry) run.new.now held.old.items held.new.items }
    ensures empty { result ≡ true → run.new.now ≡ [] }
    ensures room { result ≡ true → array_vec_len held.new + hop_room_of (W.spec writer.old) ≤ 1024 }
    ensures short { length run.new.now < 2 ^ 64 }
{
    match seen {
        Seen::Note(_) => true,
        Seen::Ev(ev) => put_event(writer, at, room, ev, run, held),
    }
}

/// Writes an event, a run of any length among them.
#[inline(always)]
fn put_event<'a, W: EventWriter>(
    writer: &mut W,
    at: u64,
    room: usize,
    ev: Ev<'a>,
    run: &mut &'a [u8],
    held: &mut Buf,
) -> bool
    requires asked { room ≡ hop_room_of (W.spec writer.old) }
    requires room { array_vec_len held.old + hop_room_of (W.spec writer.old) ≤ 1024 }
    requires run { run.old.now ≡ [] }
    requires suits { MayCome (W.in_sysex writer.old) (signs_of_event ev) }
    ensures spec { W.spec writer.new ≡ W.spec writer.old }
    ensures put { PutSome (live (W.spec writer.old)) (W.stands writer.old) (W.stands writer.new)
        at (signs_of_event ev.entry) run.new.now held.old.items held.new.items }
    ensures empty { result ≡ true → run.new.now ≡ [] }
    ensures room { result ≡ true → array_vec_len held.new + hop_room_of (W.spec writer.old) ≤ 1024 }
    ensures some { result ≡ false → length run.new.now < length (signs_of_event ev.entry) }
    ensures short { length run.new.now < 2 ^ 64 }
{
    match ev {
        Ev::Run(bytes) => {
            *run = bytes;
            put_run(writer, at, room, run, held)
        }
        _ => put_one(writer, at, room, ev, held),
    }
}

/// Writes a run of any length in pieces that the writer takes, as far as there is room.
#[inline(always)]
fn put_run<W: EventWriter>(
    writer: &mut W,
    at: u64,
    room: usize,
    run: &mut &[u8],
    held: &mut Buf,
) -> bool
    requires asked { room ≡ hop_room_of (W.spec writer.old) }
    requires room { array_vec_len held.old + hop_room_of (W.spec writer.old) ≤ 1024 }
    requires suits { MayCome (W.in_sysex writer.old) (map ByteSign run.old.now) }
    ensures spec { W.spec writer.new ≡ W.spec writer.old }
    ensures put { PutSome (live (W.spec writer.old)) (W.stands writer.old) (W.stands writer.new)
        at (map ByteSign run.old.now) run.new.now held.old.items held.new.items }
    ensures empty { result ≡ true → run.new.now ≡ [] }
    ensures room { result ≡ true → array_vec_len held.new + hop_room_of (W.spec writer.old) ≤ 1024 }
    ensures some { result ≡ false → length run.new.now < length run.old.now }
    ensures short { length run.new.now < 2 ^ 64 }
{
    'pieces: while !run.is_empty() {
        let (piece, others) = run.split_at(run.len().min(writer.longest()));
        *run = others;
        if !put_one(writer, at, room, Ev::Run(piece), held) {
            return false;
        }
    }
    true
}

/// Writes an event, and answers whether there is room for one more, for which the writer asks for so many free bytes.
#[inline(always)]
fn put_one<W: EventWriter>(writer: &mut W, at: u64, room: usize, ev: Ev<'_>, held: &mut Buf) -> bool
    requires asked { room ≡ hop_room_of (W.spec writer.old) }
    requires room { array_vec_len held.old + hop_room_of (W.spec writer.old) ≤ 1024 }
    requires suits { suits_event (W.in_sysex writer.old) ev ≡ true }
    requires run { IsRunOf (hop_longest_of (W.spec writer.old)) ev }
    ensures spec { W.spec writer.new ≡ W.spec writer.old }
    ensures in_sysex { W.in_sysex writer.new ≡ open_behind (W.in_sysex writer.old) ev.entry }
    ensures put { PutSome (live (W.spec writer.old)) (W.stands writer.old) (W.stands writer.new)
        at (signs_of_event ev.entry) [] held.old.items held.new.items }
    ensures room { result ≡ true → array_vec_len held.new + hop_room_of (W.spec writer.old) ≤ 1024 }
{
    writer.put(at, ev, held);
    room <= held.capacity() - held.len()
}
