//! Playing a file onto a tape.

ghost use Rattle.std.specs.Prelude.{◌≡◌, ◌+◌, ◌<◌, ◌≤◌, ◌^◌, ◌++◌, [], None, true, length, OnOk, OnErr, IfOk};
ghost use Rattle.mb_outside.specs.Cause.{HasCause};
ghost use Rattle.mb_outside.specs.Taking.{TookFront};
ghost use Rattle.mb_smf.specs.Smf.{is_ended, smf_from};
ghost use Rattle.mb_tapes.specs.Played.{ended_records};
ghost use Rattle.mb_tapes.specs.Playing.{HasRead, PlayingStands, magic_due, playing_behind, playing_end, playing_fault};
ghost use Rattle.mb_tapes.specs.Playing.{playing_given};

use crate::part::put_part;
use mb_frames::{Gather, tape_magic};
use mb_message::Buf;
use mb_outside::{Out, Refused};
use mb_smf::{SmfFault, SmfReader};

/// Reads a Standard MIDI File, and writes a tape of what it gives. It takes no memory.
#[derive(Drop)]
pub struct Playing {
    file: SmfReader,
    gather: Gather,
    /// Whether the tape's magic was written.
    begun: bool,
}

impl Playing {
    /// Nothing was fed.
    pub fn new() -> Playing
        ensures stands { PlayingStands result [] }
    {
        Playing {
            file: SmfReader::new(),
            gather: Gather::new(),
            begun: false,
        }
    }

    /// Reads a piece of the file, and hands on each record that is known whole of what it gives. A fault is answered
    /// where one comes; what follows isn't looked at. After `Refused` a front was handed on.
    pub fn feed<K: Out>(&mut self, piece: &[u8], out: &mut K) -> Result<Option<SmfFault>, Refused>
        requires ready { K.ready out.old }
        requires early { self.old.file.file.offset + length piece.now < 2 ^ 63 }
        requires rests { self.old.file.owed ≡ None }
        ensures ready { K.ready out.new }
        ensures cause { HasCause (K.refusals out.old) (K.refusals out.new) result }
        ensures sound { OnOk result (K.refusals out.new ≡ K.refusals out.old) }
        ensures state { OnOk result (self.new ≡ playing_behind self.old piece.now) }
        ensures fault { IfOk result (λ fault. fault ≡ playing_fault self.new) }
        ensures given { OnOk result (K.took out.old (playing_given self.old piece.now) out.new) }
        ensures part { OnErr result (TookFront K.took out.old out.new (playing_given self.old piece.now)) }
        ensures end { self.new.file.file.offset ≤ self.old.file.file.offset + length piece.now }
    {
        let mut held = Buf::new();
        self.begin(&mut held);
        match self.read(piece, &mut held, out) {
            Ok(fault) => hand_on(fault, &held, out),
            Err(refused) => Err(refused),
        }
    }

    /// At the file's end, or where it is stopped: the record under way.
    pub fn finish<K: Out>(&mut self, out: &mut K) -> Result<(), Refused>
        requires ready { K.ready out.old }
        ensures ready { K.ready out.new }
        ensures cause { HasCause (K.refusals out.old) (K.refusals out.new) result }
        ensures sound { OnOk result (K.refusals out.new ≡ K.refusals out.old) }
        ensures given { OnOk result (K.took out.old (playing_end self.old) out.new) }
        ensures part { OnErr result (TookFront K.took out.old out.new (playing_end self.old)) }
    {
        let mut held = Buf::new();
        self.begin(&mut held);
        self.gather.finish(&mut held);
        out.take(held.as_slice())
    }

    /// Whether the track's end was read.
    pub fn ended(&self) -> bool
        ensures { result ≡ is_ended self.now.file.file.place }
    {
        self.file.ended()
    }

    /// Reads a piece to its end, or to a fault, which is answered.
    fn read<K: Out>(
        &mut self,
        piece: &[u8],
        held: &mut Buf,
        out: &mut K,
    ) -> Result<Option<SmfFault>, Refused>
        requires ready { K.ready out.old }
        requires early { self.old.file.file.offset + length piece.now < 2 ^ 63 }
        requires rests { self.old.file.owed ≡ None }
        ensures ready { K.ready out.new }
        ensures cause { HasCause (K.refusals out.old) (K.refusals out.new) result }
        ensures sound { OnOk result (K.refusals out.new ≡ K.refusals out.old) }
        ensures fault { IfOk result (λ fault. fault ≡ playing_fault self.new) }
        ensures ok { OnOk result (HasRead self.old self.new piece.now held.old.items held.new.items
            (λ given. K.took out.old given out.new)) }
        ensures err { OnErr result (TookFront K.took out.old out.new (held.old.items
            ++ ended_records self.old.gather (smf_from self.old.file.file piece.now).given)) }
        ensures end { self.new.file.file.offset ≤ self.old.file.file.offset + length piece.now }
    {
        let mut rest = piece;
        'parts: loop {
            match self.file.next(&mut rest) {
                Ok(Some(part)) => {
                    if let Err(refused) = put_part(part, &mut self.gather, held, out) {
                        return Err(refused);
                    }
                }
                Ok(None) => return Ok(None),
                Err(fault) => return Ok(Some(fault)),
            }
        }
    }

    /// Writes the magic, if it isn't there.
    fn begin(&mut self, held: &mut Buf)
        requires { held.old.items ≡ [] }
        ensures state { self.new ≡ record self.old { begun = true } }
        ensures written { held.new.items ≡ magic_due self.old.begun }
        ensures few { length held.new.items ≤ 4 }
    {
        if !self.begun {
            tape_magic(held);
            self.begun = true;
        }
    }
}

/// Hands on what is held, and answers the fault.
fn hand_on<K: Out>(
    fault: Option<SmfFault>,
    held: &Buf,
    out: &mut K,
) -> Result<Option<SmfFault>, Refused>
    requires ready { K.ready out.old }
    ensures ready { K.ready out.new }
    ensures cause { HasCause (K.refusals out.old) (K.refusals out.new) result }
    ensures sound { OnOk result (K.refusals out.new ≡ K.refusals out.old) }
    ensures fault { IfOk result (λ told. told ≡ fault) }
    ensures took { OnOk result (K.took out.old held.now.items out.new) }
    ensures front { OnErr result (TookFront K.took out.old out.new held.now.items) }
{
    match out.take(held.as_slice()) {
        Ok(()) => Ok(fault),
        Err(refused) => Err(refused),
    }
}
