//! A port of FireWire packets behind the face of all carriers.

ghost use Rattle.std.specs.Prelude.{◌≡◌, ℕ, ◌+◌, ◌≤◌, true, List, ◌++◌, take};
ghost use Rattle.arrayvec.specs.ArrayVec.{array_vec_len};
ghost use Rattle.mb_message.specs.Signs.{suits_event, IsRunOf, open_behind, signs_of_event};
ghost use Rattle.mb_stream.specs.Appended.{Appended};
ghost use Rattle.mb_stream.specs.Puts.{Put, signs_in, puts_at};
ghost use Rattle.mb_fire.specs.PortWriter.{Stands, longest, room};
ghost use Rattle.mb_fire.specs.Written.{fire_written};

use crate::{EventReader, EventWriter};
use mb_fire::{FirePortReader, FirePortWriter};
use mb_message::{Buf, Ev, Seen};

/// The longest run of SysEx data that a hop hands over at once: as many bytes as any other event has. A packet for each
/// of more would be much room to ask for, and a buffer would be handed on half full.
const HOP_RUN: usize = 3;

impl EventReader for FirePortReader {
    ghost use Rattle.mb_din.specs.State.{Rests};
    ghost use Rattle.mb_fire.specs.State as state;
    ghost use Rattle.mb_fire.specs.Ports.{PortStands};
    ghost use Rattle.mb_carrier.specs.declared.spec.Spec.TheVariants.{Fire};
    ghost use Rattle.mb_stream.specs.ReaderLaw.{StatusNext};
    ghost use Rattle.mb_carrier.specs.FireLaws.{known-stays, marks-end, marks-suit};

    ghost spec = { λ r. Fire r.port };

    ghost offset = { λ r. state.port_offset r };

    ghost owed = { λ r. state.port_owed r };

    ghost moment = { λ r moment_set. moment_set };

    ghost broken_next = { λ r input. StatusNext input };

    ghost beside = { λ r input. take (state.port_to_come r) input };

    ghost stands = { λ r bytes told. PortStands r bytes told };

    ghost rests = { λ r. Rests r.reader };

    ghost is_partial = { λ r. state.port_partial r };

    #[inline(always)]
    fn next<'a>(&mut self, input: &mut &'a [u8]) -> Option<Seen<'a>> {
        FirePortReader::next(self, input)
    }

    #[inline(always)]
    fn finish(&mut self) -> Option<Seen<'static>> {
        FirePortReader::finish(self)
    }

    #[inline(always)]
    fn moment(&self, moment_set: u64) -> u64 {
        moment_set
    }

    ghost stays = { λ r bytes more. known-stays r.port bytes more };

    ghost ends = { λ r bytes. marks-end r.port bytes };

    ghost suits = { λ r bytes. marks-suit r.port bytes };
}

impl EventWriter for FirePortWriter {
    ghost use Rattle.mb_stream.specs.Puts.{signs_in};
    ghost use Rattle.mb_fire.specs.PortWriter.{Writer, Stands};
    ghost use Rattle.mb_carrier.specs.declared.spec.Spec.TheVariants.{Fire};

    ghost spec = { λ w. Fire w.port };

    ghost in_sysex = { λ w. w.in_sysex };

    ghost stands = { λ w puts. Stands w (signs_in puts) };

    #[inline(always)]
    fn room(&self) -> usize {
        self.short_room()
    }

    #[inline(always)]
    fn longest(&self) -> usize {
        HOP_RUN
    }

    #[inline(always)]
    fn put(&mut self, moment: u64, ev: Ev<'_>, out: &mut Buf) {
        let _ = moment;
        FirePortWriter::put(self, ev, out);
    }

    #[inline(always)]
    fn flush(&mut self, out: &mut Buf) {
        let _ = out;
    }

    #[inline(always)]
    fn finish(&mut self, out: &mut Buf) {
        FirePortWriter::finish(self, out);
    }

    ghost open_now = { λ w puts stands. stands.open_now };
}

/// Appends what an event is written as, with a run of as many bytes as the writer's port takes.
pub(crate) fn put_long(writer: &mut FirePortWriter, moment: u64, ev: Ev<'_>, out: &mut Buf)
    requires room { array_vec_len out.old + room writer.old.port ≤ 1024 }
    requires suits { suits_event writer.old.in_sysex ev ≡ true }
    requires run { IsRunOf (longest writer.old.port) ev }
    ensures port { writer.new.port ≡ writer.old.port }
    ensures in_sysex { writer.new.in_sysex ≡ open_behind writer.old.in_sysex ev.entry }
    ensures len { array_vec_len out.new ≤ array_vec_len out.old + room writer.old.port }
    ensures stands { (puts : List Put) → Stands writer.old (signs_in puts) →
        Stands writer.new (signs_in (puts ++ puts_at moment (signs_of_event ev.entry))) }
    ensures written { (puts : List Put) → Stands writer.old (signs_in puts) →
        Appended out.old.items out.new.items (fire_written writer.old.port (signs_in puts))
        (fire_written writer.old.port (signs_in (puts ++ puts_at moment (signs_of_event ev.entry)))) }
{
    let _ = (moment, writer.port());
    FirePortWriter::put(writer, ev, out);
}
