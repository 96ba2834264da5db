//! A cable of USB-MIDI packets behind the face of all carriers.

ghost use Rattle.std.specs.Prelude.{ℕ, List, take};

use crate::{EventReader, EventWriter, LONGEST_RUN};
use mb_message::{Buf, Ev, Seen};
use mb_usb::{CableReader, PUT_ROOM, UsbWriter};

impl EventReader for CableReader {
    ghost use Rattle.std.specs.Prelude.{not, ◌==◌};
    ghost use Rattle.mb_din.specs.State.{Rests};
    ghost use Rattle.mb_usb.specs.State as state;
    ghost use Rattle.mb_usb.specs.Cables.{CableStands};
    ghost use Rattle.mb_carrier.specs.declared.spec.Spec.TheVariants.{Usb};
    ghost use Rattle.mb_stream.specs.ReaderLaw.{StatusNext};
    ghost use Rattle.mb_carrier.specs.UsbLaws.{known-stays, marks-end, marks-suit};

    ghost spec = { λ r. Usb r.cable };

    ghost offset = { λ r. state.cable_offset r };

    ghost owed = { λ r. state.cable_owed r };

    ghost moment = { λ r moment_set. moment_set };

    ghost broken_next = { λ r input. StatusNext input };

    ghost beside = { λ r input. take (state.cable_to_come r) input };

    ghost stands = { λ r bytes told. CableStands r bytes told };

    ghost rests = { λ r. Rests r.reader };

    ghost is_partial = { λ r. not (state.cable_taken r == 0) };

    #[inline(always)]
    fn next<'a>(&mut self, input: &mut &'a [u8]) -> Option<Seen<'a>> {
        CableReader::next(self, input)
    }

    #[inline(always)]
    fn finish(&mut self) -> Option<Seen<'static>> {
        CableReader::finish(self)
    }

    #[inline(always)]
    fn moment(&self, moment_set: u64) -> u64 {
        moment_set
    }

    ghost stays = { λ r bytes more. known-stays r.cable bytes more };

    ghost ends = { λ r bytes. marks-end r.cable bytes };

    ghost suits = { λ r bytes. marks-suit r.cable bytes };
}

impl EventWriter for UsbWriter {
    ghost use Rattle.mb_stream.specs.Puts.{signs_in};
    ghost use Rattle.mb_usb.specs.Writer.{Writer, Stands};
    ghost use Rattle.mb_carrier.specs.declared.spec.Spec.TheVariants.{Usb};

    ghost spec = { λ w. Usb w.cable };

    ghost in_sysex = { λ w. w.in_sysex };

    ghost stands = { λ w puts. Stands w (signs_in puts) };

    #[inline(always)]
    fn room(&self) -> usize {
        PUT_ROOM
    }

    #[inline(always)]
    fn longest(&self) -> usize {
        LONGEST_RUN
    }

    #[inline(always)]
    fn put(&mut self, moment: u64, ev: Ev<'_>, out: &mut Buf) {
        let _ = moment;
        UsbWriter::put(self, ev, out);
    }

    #[inline(always)]
    fn flush(&mut self, out: &mut Buf) {
        let _ = out;
    }

    #[inline(always)]
    fn finish(&mut self, out: &mut Buf) {
        UsbWriter::finish(self, out);
    }

    ghost open_now = { λ w puts stands. stands.open_now };
}
