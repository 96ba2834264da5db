//! Writing marks with moments as a tape of a byte line.

ghost use Rattle.std.specs.Prelude.{◌≡◌, true, false, [], ◌++◌, map, if◌then◌else◌, OnOk, OnErr, ◌∷◌, IfSome, IfNone};
ghost use Rattle.std.specs.List.{list_all};
ghost use Rattle.mb_message.specs.Signs.{ByteSign, IsShortRun, open_behind, signs_of_event, suits_event, suits_sign};
ghost use Rattle.mb_stream.specs.Puts.{puts_at};
ghost use Rattle.mb_outside.specs.Cause.{HasCause};
ghost use Rattle.mb_outside.specs.Taking.{TookFront};
ghost use Rattle.mb_frames.specs.Tapes.{magic};
ghost use Rattle.mb_frames.specs.Gathering.{written_piece};
ghost use Rattle.mb_held.specs.Held.{Holds};
ghost use Rattle.mb_rewrite.specs.LineTape.{byte_at, ended_from, piece_after};
ghost use Rattle.mb_rewrite.specs.Line.{LineHalted, LineStands, LineWrote};

use mb_din::DinWriter;
use mb_frames::{Gather, tape_magic};
use mb_held::make_place;
use mb_message::{Buf, Ev};
use mb_outside::{Out, Refused};

/// The most bytes of SysEx data that are written at once.
const RUN: usize = 16;

/// The room that a record takes.
const RECORD: usize = 266;

/// A writer of such a tape.
#[derive(Drop)]
pub(crate) struct LineTape {
    writer: DinWriter,
    gather: Gather,
    /// Whether its magic was written.
    begun: bool,
}

impl LineTape {
    /// Nothing was written.
    pub(crate) fn new() -> LineTape
        ensures stands { LineStands result [] }
        ensures begun { result.begun ≡ false }
    {
        LineTape {
            writer: DinWriter::new(true),
            gather: Gather::new(),
            begun: false,
        }
    }

    /// Writes the magic, if it isn't there.
    pub(crate) fn begin(&mut self, held: &mut Buf)
        requires { held.old.items ≡ [] }
        ensures begun { self.new.begun ≡ true }
        ensures same { (self.new.writer ≡ self.old.writer) × (self.new.gather ≡ self.old.gather) }
        ensures written { held.new.items ≡ (if self.old.begun then [] else magic true) }
    {
        if !self.begun {
            tape_magic(held);
            self.begun = true;
        }
    }

    /// Writes an event at a moment in microseconds: what it ends of the tape is held, or handed on where there is no
    /// room.
    pub(crate) fn put<K: Out>(
        &mut self,
        moment: u64,
        ev: Ev<'_>,
        held: &mut Buf,
        out: &mut K,
    ) -> Result<(), Refused>
        requires ready { K.ready out.old }
        requires suits { suits_event self.old.writer.in_sysex ev ≡ true }
        ensures in_sysex { OnOk result (self.new.writer.in_sysex ≡ open_behind self.old.writer.in_sysex ev.entry) }
        ensures ready { K.ready out.new }
        ensures cause { HasCause (K.refusals out.old) (K.refusals out.new) result }
        ensures sound { OnOk result (K.refusals out.new ≡ K.refusals out.old) }
        ensures ok { OnOk result (LineWrote self.old self.new (puts_at moment (signs_of_event ev.entry)) held.old.items
            held.new.items (λ given. K.took out.old given out.new)) }
        ensures err { OnErr result (LineHalted self.old (puts_at moment (signs_of_event ev.entry)) held.old.items
            (λ given. K.took out.old given out.new)) }
    {
        match ev {
            Ev::Run(bytes) => self.put_run(moment, bytes, held, out),
            Ev::Short(_) | Ev::Rt(_) | Ev::Open | Ev::End | Ev::Abort => self.put_one(
                moment, ev, held, out,
            ),
        }
    }

    /// Hands on all that is held and the record under way.
    pub(crate) fn end<K: Out>(&mut self, held: &mut Buf, out: &mut K) -> Result<(), Refused>
        requires ready { K.ready out.old }
        ensures ready { K.ready out.new }
        ensures cause { HasCause (K.refusals out.old) (K.refusals out.new) result }
        ensures sound { OnOk result (K.refusals out.new ≡ K.refusals out.old) }
        ensures ok { OnOk result (K.took out.old (held.old.items
            ++ written_piece self.old.gather.moment self.old.gather.bytes) out.new) }
        ensures err { OnErr result (TookFront K.took out.old out.new (held.old.items
            ++ written_piece self.old.gather.moment self.old.gather.bytes)) }
    {
        if let Err(refused) = make_place(RECORD, held, out) {
            return Err(refused);
        }
        self.gather.finish(held);
        out.take(held.as_slice())
    }

    /// Writes SysEx data.
    fn put_run<K: Out>(
        &mut self,
        moment: u64,
        bytes: &[u8],
        held: &mut Buf,
        out: &mut K,
    ) -> Result<(), Refused>
        requires ready { K.ready out.old }
        requires suits { list_all (suits_sign self.old.writer.in_sysex) (map ByteSign bytes.now) ≡ true }
        ensures in_sysex { self.new.writer.in_sysex ≡ self.old.writer.in_sysex }
        ensures ready { K.ready out.new }
        ensures cause { HasCause (K.refusals out.old) (K.refusals out.new) result }
        ensures sound { OnOk result (K.refusals out.new ≡ K.refusals out.old) }
        ensures ok { OnOk result (LineWrote self.old self.new (puts_at moment (map ByteSign bytes.now)) held.old.items
            held.new.items (λ given. K.took out.old given out.new)) }
        ensures err { OnErr result (LineHalted self.old (puts_at moment (map ByteSign bytes.now)) held.old.items
            (λ given. K.took out.old given out.new)) }
    {
        let mut rest = bytes;
        'runs: while !rest.is_empty() {
            let (first, others) = rest.split_at(rest.len().min(RUN));
            if let Err(refused) = self.put_one(moment, Ev::Run(first), held, out) {
                return Err(refused);
            }
            rest = others;
        }
        Ok(())
    }

    /// Writes an event, of SysEx data at most 16 bytes.
    fn put_one<K: Out>(
        &mut self,
        moment: u64,
        ev: Ev<'_>,
        held: &mut Buf,
        out: &mut K,
    ) -> Result<(), Refused>
        requires ready { K.ready out.old }
        requires suits { suits_event self.old.writer.in_sysex ev ≡ true }
        requires run { IsShortRun ev }
        ensures in_sysex { self.new.writer.in_sysex ≡ open_behind self.old.writer.in_sysex ev.entry }
        ensures ready { K.ready out.new }
        ensures cause { HasCause (K.refusals out.old) (K.refusals out.new) result }
        ensures sound { OnOk result (K.refusals out.new ≡ K.refusals out.old) }
        ensures ok { OnOk result (LineWrote self.old self.new (puts_at moment (signs_of_event ev.entry)) held.old.items
            held.new.items (λ given. K.took out.old given out.new)) }
        ensures err { OnErr result (LineHalted self.old (puts_at moment (signs_of_event ev.entry)) held.old.items
            (λ given. K.took out.old given out.new)) }
    {
        let mut spelled = Buf::new();
        self.writer.put(ev, &mut spelled);
        gather_all(&mut self.gather, moment, spelled.as_slice(), held, out)
    }
}

/// Gathers bytes of one moment.
fn gather_all<K: Out>(
    gather: &mut Gather,
    moment: u64,
    bytes: &[u8],
    held: &mut Buf,
    out: &mut K,
) -> Result<(), Refused>
    requires { K.ready out.old }
    ensures ready { K.ready out.new }
    ensures cause { HasCause (K.refusals out.old) (K.refusals out.new) result }
    ensures sound { OnOk result (K.refusals out.new ≡ K.refusals out.old) }
    ensures piece { OnOk result (gather.new ≡ piece_after gather.old (map (byte_at moment) bytes.now)) }
    ensures ok { OnOk result (Holds (λ given. K.took out.old given out.new)
        (held.old.items ++ ended_from gather.old (map (byte_at moment) bytes.now)) held.new.items) }
    ensures err { OnErr result (TookFront K.took out.old out.new
        (held.old.items ++ ended_from gather.old (map (byte_at moment) bytes.now))) }
{
    let mut rest = bytes;
    'bytes: while let Some(byte) = take_byte(&mut rest) {
        if let Err(refused) = make_place(RECORD, held, out) {
            return Err(refused);
        }
        gather.put(moment, byte, held);
    }
    Ok(())
}

/// Takes the first byte.
fn take_byte(rest: &mut &[u8]) -> Option<u8>
    ensures some { IfSome result (λ byte. rest.old.now ≡ byte ∷ rest.new.now) }
    ensures none { IfNone result (rest.old.now ≡ []) }
    ensures left { IfNone result (rest.new.now ≡ []) }
{
    let (byte, others) = rest.split_first()?;
    *rest = others;
    Some(*byte)
}
