//! A byte line behind the face of all carriers.

ghost use Rattle.std.specs.Prelude.{ℕ, List};

use crate::{EventReader, EventWriter, LONGEST_RUN};
use mb_din::{DinReader, DinWriter, PUT_ROOM};
use mb_message::{Buf, Ev, Seen};

impl EventReader for DinReader {
    ghost use Rattle.std.specs.Prelude.{false};
    ghost use Rattle.mb_din.specs.State as state;
    ghost use Rattle.mb_din.specs.State.{Rests};
    ghost use Rattle.mb_carrier.specs.Line.{LineStands};
    ghost use Rattle.mb_carrier.specs.declared.spec.Spec.TheVariants.{Din};
    ghost use Rattle.mb_stream.specs.ReaderLaw.{StatusNext};
    ghost use Rattle.mb_carrier.specs.DinLaws.{known-stays, marks-end, marks-suit};

    ghost spec = { λ r. Din };

    ghost offset = { λ r. r.offset };

    ghost owed = { λ r. state.owed r };

    ghost moment = { λ r moment_set. moment_set };

    ghost broken_next = { λ r input. StatusNext input };

    ghost beside = { λ r input. input };

    ghost stands = { λ r bytes told. LineStands r bytes told };

    ghost rests = { λ r. Rests r };

    ghost is_partial = { λ r. false };

    #[inline(always)]
    fn next<'a>(&mut self, input: &mut &'a [u8]) -> Option<Seen<'a>> {
        DinReader::next(self, input)
    }

    #[inline(always)]
    fn finish(&mut self) -> Option<Seen<'static>> {
        DinReader::finish(self)
    }

    #[inline(always)]
    fn moment(&self, moment_set: u64) -> u64 {
        moment_set
    }

    ghost stays = { λ r bytes more. known-stays bytes more };

    ghost ends = { λ r bytes. marks-end bytes };

    ghost suits = { λ r bytes. marks-suit bytes };
}

impl EventWriter for DinWriter {
    ghost use Rattle.std.specs.Prelude.{◌≡◌, true};
    ghost use Rattle.mb_stream.specs.Puts.{signs_in};
    ghost use Rattle.mb_din.specs.Writer.{Writer, Stands};
    ghost use Rattle.mb_carrier.specs.declared.spec.Spec.TheVariants.{Din};

    ghost spec = { λ w. Din };

    ghost in_sysex = { λ w. w.in_sysex };

    ghost stands = { λ w puts. Stands w (signs_in puts) × (w.running ≡ true) };

    #[inline(always)]
    fn room(&self) -> usize {
        PUT_ROOM
    }

    #[inline(always)]
    fn longest(&self) -> usize {
        LONGEST_RUN
    }

    #[inline(always)]
    fn put(&mut self, moment: u64, ev: Ev<'_>, out: &mut Buf) {
        let _ = moment;
        DinWriter::put(self, ev, out);
    }

    #[inline(always)]
    fn flush(&mut self, out: &mut Buf) {
        let _ = out;
    }

    #[inline(always)]
    fn finish(&mut self, out: &mut Buf) {
        DinWriter::finish(self, out);
    }

    ghost open_now = { λ w puts stands. (stands.0).open_now };
}
