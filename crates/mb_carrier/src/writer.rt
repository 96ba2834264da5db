//! A writer of whatever port a spec names.

ghost use Rattle.std.specs.Prelude.{◌≡◌, ℕ, ◌+◌, ◌<◌, ◌≤◌, true, false, List, [], ◌∷◌, ◌++◌, IsOk, IfOk};
ghost use Rattle.arrayvec.specs.ArrayVec.{array_vec_len};
ghost use Rattle.mb_message.specs.Signs.{suits_event, IsRunOf, open_behind, signs_of_event};
ghost use Rattle.mb_stream.specs.Appended.{Appended};
ghost use Rattle.mb_stream.specs.Puts.{Put, Flush, puts_at};
ghost use Rattle.mb_carrier.specs.Carrier.{live, written, room_of, longest_of};
ghost use Rattle.mb_carrier.specs.Port.{writer_spec, writer_in_sysex, WriterStands};
ghost use Rattle.mb_carrier.specs.Word.{IsSpec};

use crate::fire::put_long;
use crate::{EventWriter, Spec};
use mb_ble::BleWriter;
use mb_din::DinWriter;
use mb_fire::FirePortWriter;
use mb_message::{Buf, Ev, Memory};
use mb_usb::UsbWriter;
use std::alloc::Global;

/// The writer of each carrier.
#[derive(Debug, Drop)]
pub(crate) enum WriterOf {
    Din(DinWriter),
    Usb(UsbWriter),
    Fire(FirePortWriter),
    Ble(BleWriter),
}

/// A writer of one port. It keeps no more than its carrier's writer does, and never grows.
#[derive(Debug, Drop)]
pub struct PortWriter {
    pub(crate) carrier: WriterOf,
}

impl PortWriter {
    /// A writer of a spec's port. No carrier's writer takes memory.
    pub fn new(_alloc: Global, spec: Spec) -> Result<PortWriter, Memory>
        requires { IsSpec spec }
        ensures memory { IsOk result }
        ensures ok { IfOk result (λ w. writer_spec w ≡ spec) }
        ensures in_sysex { IfOk result (λ w. writer_in_sysex w ≡ false) }
        ensures stands { IfOk result (λ w. WriterStands w []) }
    {
        let carrier = match spec {
            Spec::Din => WriterOf::Din(DinWriter::new(true)),
            Spec::Usb(cable) => WriterOf::Usb(UsbWriter::new(cable)),
            Spec::Fire(port) => WriterOf::Fire(FirePortWriter::new(port)),
            Spec::Ble(size) => WriterOf::Ble(BleWriter::new(size)),
        };
        Ok(PortWriter { carrier })
    }

    /// Whether a SysEx is open.
    pub fn in_sysex(&self) -> bool
        ensures { result ≡ writer_in_sysex self.now }
    {
        match &self.carrier {
            WriterOf::Din(writer) => writer.in_sysex(),
            WriterOf::Usb(writer) => writer.in_sysex(),
            WriterOf::Fire(writer) => writer.in_sysex(),
            WriterOf::Ble(writer) => writer.in_sysex(),
        }
    }

    /// How many bytes the longest run has that `put` takes.
    pub fn longest(&self) -> usize
        ensures longest { result ≡ longest_of (writer_spec self.now) }
        ensures some { 0 < result }
    {
        match &self.carrier {
            WriterOf::Din(writer) => EventWriter::longest(writer),
            WriterOf::Usb(writer) => EventWriter::longest(writer),
            WriterOf::Fire(writer) => FirePortWriter::longest(writer),
            WriterOf::Ble(writer) => EventWriter::longest(writer),
        }
    }

    /// The free bytes that `put`, `flush` and `finish` ask for.
    pub fn room(&self) -> usize
        ensures room { result ≡ room_of (writer_spec self.now) }
        ensures fits { result ≤ 1024 }
    {
        match &self.carrier {
            WriterOf::Din(writer) => EventWriter::room(writer),
            WriterOf::Usb(writer) => EventWriter::room(writer),
            WriterOf::Fire(writer) => FirePortWriter::room(writer),
            WriterOf::Ble(writer) => EventWriter::room(writer),
        }
    }

    /// Appends what an event is written as, or as much of it as is known now. A run has at most `longest` bytes. The
    /// moment is in milliseconds; a carrier without a clock doesn't write it.
    pub fn put(&mut self, moment: u64, ev: Ev<'_>, out: &mut Buf)
        requires room { array_vec_len out.old + room_of (writer_spec self.old) ≤ 1024 }
        requires suits { suits_event (writer_in_sysex self.old) ev ≡ true }
        requires run { IsRunOf (longest_of (writer_spec self.old)) ev }
        ensures spec { writer_spec self.new ≡ writer_spec self.old }
        ensures in_sysex { writer_in_sysex self.new ≡ open_behind (writer_in_sysex self.old) ev.entry }
        ensures len { array_vec_len out.new ≤ array_vec_len out.old + room_of (writer_spec self.old) }
        ensures stands { (puts : List Put) → WriterStands self.old puts →
            WriterStands self.new (puts ++ puts_at moment (signs_of_event ev.entry)) }
        ensures written { (puts : List Put) → WriterStands self.old puts → Appended out.old.items out.new.items
            (live (writer_spec self.old) puts) (live (writer_spec self.old) (puts ++ puts_at moment
            (signs_of_event ev.entry))) }
    {
        match &mut self.carrier {
            WriterOf::Din(writer) => EventWriter::put(writer, moment, ev, out),
            WriterOf::Usb(writer) => EventWriter::put(writer, moment, ev, out),
            WriterOf::Fire(writer) => put_long(writer, moment, ev, out),
            WriterOf::Ble(writer) => EventWriter::put(writer, moment, ev, out),
        }
    }

    /// Ends the packet under way, if there is one.
    pub fn flush(&mut self, out: &mut Buf)
        requires room { array_vec_len out.old + room_of (writer_spec self.old) ≤ 1024 }
        ensures spec { writer_spec self.new ≡ writer_spec self.old }
        ensures in_sysex { writer_in_sysex self.new ≡ writer_in_sysex self.old }
        ensures len { array_vec_len out.new ≤ array_vec_len out.old + room_of (writer_spec self.old) }
        ensures stands { (puts : List Put) → WriterStands self.old puts → WriterStands self.new (puts ++ Flush ∷ []) }
        ensures written { (puts : List Put) → WriterStands self.old puts → Appended out.old.items out.new.items
            (live (writer_spec self.old) puts) (live (writer_spec self.old) (puts ++ Flush ∷ [])) }
    {
        match &mut self.carrier {
            WriterOf::Din(writer) => EventWriter::flush(writer, out),
            WriterOf::Usb(writer) => EventWriter::flush(writer, out),
            WriterOf::Fire(_) => {}
            WriterOf::Ble(writer) => EventWriter::flush(writer, out),
        }
    }

    /// Appends what the end of the list of marks adds. Afterwards the writer is as new.
    pub fn finish(&mut self, out: &mut Buf)
        requires room { array_vec_len out.old + room_of (writer_spec self.old) ≤ 1024 }
        ensures spec { writer_spec self.new ≡ writer_spec self.old }
        ensures in_sysex { writer_in_sysex self.new ≡ false }
        ensures len { array_vec_len out.new ≤ array_vec_len out.old + room_of (writer_spec self.old) }
        ensures stands { (puts : List Put) → WriterStands self.old puts → WriterStands self.new [] }
        ensures written { (puts : List Put) → WriterStands self.old puts → Appended out.old.items out.new.items
            (live (writer_spec self.old) puts) (written (writer_spec self.old) puts) }
    {
        match &mut self.carrier {
            WriterOf::Din(writer) => EventWriter::finish(writer, out),
            WriterOf::Usb(writer) => EventWriter::finish(writer, out),
            WriterOf::Fire(writer) => FirePortWriter::finish(writer, out),
            WriterOf::Ble(writer) => EventWriter::finish(writer, out),
        }
    }
}

impl Default for PortWriter {
    /// A writer of a byte line, in an unused place of a row.
    fn default() -> PortWriter {
        PortWriter {
            carrier: WriterOf::Din(DinWriter::new(true)),
        }
    }
}
