//! BLE-MIDI packets behind the face of all carriers.

ghost use Rattle.std.specs.Prelude.{◌≡◌, ℕ, List, [], take};
ghost use Rattle.mb_ble.specs.Stands.{BleStands, seen_of};
ghost use Rattle.mb_ble.specs.State.{ble_offset};

use crate::{EventReader, EventWriter, LONGEST_RUN};
use mb_ble::{BleReader, BleStep, BleWriter, MORE_ROOM};
use mb_message::{Buf, Ev, Seen};

/// A reader of packets, and the size that its spec names. Packets of any size are read.
#[derive(Drop)]
pub struct BlePort {
    pub(crate) packets: BleReader,
    pub(crate) size: u16,
}

impl BlePort {
    /// A reader that has taken nothing.
    pub(crate) fn new(size: u16) -> BlePort
        ensures size { result.size ≡ size }
        ensures offset { ble_offset result.packets ≡ 0 }
        ensures stands { BleStands result.packets [] [] }
    {
        BlePort {
            packets: BleReader::new(),
            size,
        }
    }
}

/// What a step tells, without its moment.
#[inline(always)]
fn seen_in(step: Option<BleStep<'_>>) -> Option<Seen<'_>>
    ensures { result ≡ seen_of step.entry }
{
    match step {
        Some(step) => Some(step.seen),
        None => None,
    }
}

impl EventReader for BlePort {
    ghost use Rattle.mb_din.specs.State.{Rests};
    ghost use Rattle.mb_frames.specs.Reading.{is_partial};
    ghost use Rattle.mb_ble.specs.State as state;
    ghost use Rattle.mb_ble.specs.Stands.{BleStands, BrokenNext};
    ghost use Rattle.mb_carrier.specs.declared.spec.Spec.TheVariants.{Ble};
    ghost use Rattle.mb_carrier.specs.BleLaws.{known-stays, marks-end, marks-suit};

    ghost spec = { λ r. Ble r.size };

    ghost offset = { λ r. state.ble_offset r.packets };

    ghost owed = { λ r. state.ble_owed r.packets };

    ghost moment = { λ r moment_set. state.ble_moment r.packets };

    ghost broken_next = { λ r input. BrokenNext r.packets input };

    ghost beside = { λ r input. take (state.ble_to_come r.packets) input };

    ghost stands = { λ r bytes told. BleStands r.packets bytes told };

    ghost rests = { λ r. Rests (state.ble_reader r.packets) };

    ghost is_partial = { λ r. is_partial (state.ble_frames r.packets) };

    #[inline(always)]
    fn next<'a>(&mut self, input: &mut &'a [u8]) -> Option<Seen<'a>> {
        seen_in(self.packets.next(input))
    }

    #[inline(always)]
    fn finish(&mut self) -> Option<Seen<'static>> {
        seen_in(self.packets.finish())
    }

    #[inline(always)]
    fn moment(&self, moment_set: u64) -> u64 {
        let _ = moment_set;
        self.packets.moment()
    }

    ghost stays = { λ r bytes more. known-stays bytes more };

    ghost ends = { λ r bytes. marks-end bytes };

    ghost suits = { λ r bytes. marks-suit bytes };
}

impl EventWriter for BleWriter {
    ghost use Rattle.mb_ble.specs.Writer.{Stands};
    ghost use Rattle.mb_carrier.specs.declared.spec.Spec.TheVariants.{Ble};

    ghost spec = { λ w. Ble w.packet.size };

    ghost in_sysex = { λ w. w.in_sysex };

    ghost stands = { λ w puts. Stands w puts };

    #[inline(always)]
    fn room(&self) -> usize {
        usize::from(self.size()) + MORE_ROOM
    }

    #[inline(always)]
    fn longest(&self) -> usize {
        LONGEST_RUN
    }

    #[inline(always)]
    fn put(&mut self, moment: u64, ev: Ev<'_>, out: &mut Buf) {
        BleWriter::put(self, moment, ev, out);
    }

    #[inline(always)]
    fn flush(&mut self, out: &mut Buf) {
        BleWriter::flush(self, out);
    }

    #[inline(always)]
    fn finish(&mut self, out: &mut Buf) {
        BleWriter::finish(self, out);
    }

    ghost open_now = { λ w puts stands. stands.open_now };
}
