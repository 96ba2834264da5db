//! An out of a rig: a handle of the desk, and the writer of its port.

ghost use Rattle.std.specs.Prelude.{◌≡◌, ℕ, Bool, true, List, [], ◌∷◌, ◌++◌, IsTrue, OnOk, OnErr};
ghost use Rattle.mb_message.specs.Signs.{IsShortRun, open_behind, sign_of, signs_of_event, suits_sign};
ghost use Rattle.mb_stream.specs.Puts.{Put, At, Flush};
ghost use Rattle.mb_outside.specs.Cause.{HasCause};
ghost use Rattle.mb_outside.specs.Contents.{is_writable};
ghost use Rattle.mb_carrier.specs.Carrier.{live, written};
ghost use Rattle.mb_carrier.specs.Port.{writer_in_sysex};
ghost use Rattle.mb_merge.specs.Passing.{opens};
ghost use Rattle.mb_rig.specs.Outlet.{OutletEnded, OutletGave, OutletGavePart, OutletStands, mark_byte, outlet_spec};

use mb_carrier::PortWriter;
use mb_message::{Buf, Ev, Mark};
use mb_outside::{Desk, Refused, write_all};

#[derive(Drop)]
pub(crate) struct Outlet {
    pub(crate) handle: u32,
    pub(crate) writer: PortWriter,
}

impl Default for Outlet {
    /// An out of a byte line, in an unused place of a row.
    fn default() -> Outlet {
        Outlet {
            handle: 0,
            writer: PortWriter::default(),
        }
    }
}

impl Outlet {
    /// Writes what a mark is written as now, its moment being in milliseconds.
    pub(crate) fn put<D: Desk>(
        &mut self,
        moment: u64,
        mark: Mark,
        desk: &mut D,
    ) -> Result<(), Refused>
        requires suits { suits_sign (writer_in_sysex self.old.writer) (sign_of mark) ≡ true }
        requires writable { IsTrue D.tells → IsTrue (is_writable (D.contents desk.old) self.old.handle) }
        ensures handle { self.new.handle ≡ self.old.handle }
        ensures spec { outlet_spec self.new ≡ outlet_spec self.old }
        ensures in_sysex { writer_in_sysex self.new.writer ≡ opens (writer_in_sysex self.old.writer) mark }
        ensures gave { OnOk result ((puts : List Put) → OutletStands D.tells D.contents self.old desk.old puts →
            OutletGave D.tells D.contents D.read_faults self.old self.new puts (puts ++ At moment (sign_of mark) ∷ [])
            desk.old desk.new) }
        ensures part { OnErr result ((puts : List Put) → OutletStands D.tells D.contents self.old desk.old puts →
            OutletGavePart D.tells D.contents D.read_faults self.old.handle (live (outlet_spec self.old) puts)
            (live (outlet_spec self.old) (puts ++ At moment (sign_of mark) ∷ [])) desk.old desk.new) }
        ensures cause { HasCause (D.write_faults desk.old) (D.write_faults desk.new) result }
        ensures sound { OnOk result (D.write_faults desk.new ≡ D.write_faults desk.old) }
        ensures read_faults { D.read_faults desk.new ≡ D.read_faults desk.old }
    {
        let byte = [byte_of(mark)];
        let mut written = Buf::new();
        let room = self.writer.room();
        prove!(room <= written.capacity());
        self.writer.put(moment, event_of(mark, &byte), &mut written);
        write_all(desk, self.handle, written.as_slice())
    }

    /// Ends the packet under way, if there is one.
    pub(crate) fn flush<D: Desk>(&mut self, desk: &mut D) -> Result<(), Refused>
        requires writable { IsTrue D.tells → IsTrue (is_writable (D.contents desk.old) self.old.handle) }
        ensures handle { self.new.handle ≡ self.old.handle }
        ensures spec { outlet_spec self.new ≡ outlet_spec self.old }
        ensures in_sysex { writer_in_sysex self.new.writer ≡ writer_in_sysex self.old.writer }
        ensures gave { OnOk result ((puts : List Put) → OutletStands D.tells D.contents self.old desk.old puts →
            OutletGave D.tells D.contents D.read_faults self.old self.new puts (puts ++ Flush ∷ []) desk.old desk.new) }
        ensures part { OnErr result ((puts : List Put) → OutletStands D.tells D.contents self.old desk.old puts →
            OutletGavePart D.tells D.contents D.read_faults self.old.handle (live (outlet_spec self.old) puts)
            (live (outlet_spec self.old) (puts ++ Flush ∷ [])) desk.old desk.new) }
        ensures cause { HasCause (D.write_faults desk.old) (D.write_faults desk.new) result }
        ensures sound { OnOk result (D.write_faults desk.new ≡ D.write_faults desk.old) }
        ensures read_faults { D.read_faults desk.new ≡ D.read_faults desk.old }
    {
        let mut written = Buf::new();
        let room = self.writer.room();
        prove!(room <= written.capacity());
        self.writer.flush(&mut written);
        write_all(desk, self.handle, written.as_slice())
    }

    /// Writes what the end of all marks adds.
    pub(crate) fn finish<D: Desk>(&mut self, desk: &mut D) -> Result<(), Refused>
        requires writable { IsTrue D.tells → IsTrue (is_writable (D.contents desk.old) self.old.handle) }
        ensures handle { self.new.handle ≡ self.old.handle }
        ensures spec { outlet_spec self.new ≡ outlet_spec self.old }
        ensures ended { OnOk result ((puts : List Put) → OutletStands D.tells D.contents self.old desk.old puts →
            OutletEnded D.tells D.contents D.read_faults self.old puts desk.old desk.new) }
        ensures part { OnErr result ((puts : List Put) → OutletStands D.tells D.contents self.old desk.old puts →
            OutletGavePart D.tells D.contents D.read_faults self.old.handle (live (outlet_spec self.old) puts)
            (written (outlet_spec self.old) puts) desk.old desk.new) }
        ensures cause { HasCause (D.write_faults desk.old) (D.write_faults desk.new) result }
        ensures sound { OnOk result (D.write_faults desk.new ≡ D.write_faults desk.old) }
        ensures read_faults { D.read_faults desk.new ≡ D.read_faults desk.old }
    {
        let mut written = Buf::new();
        let room = self.writer.room();
        prove!(room <= written.capacity());
        self.writer.finish(&mut written);
        write_all(desk, self.handle, written.as_slice())
    }
}

/// The data byte that a mark is, or 0.
fn byte_of(mark: Mark) -> u8
    ensures { result ≡ mark_byte mark }
{
    match mark {
        Mark::Byte(byte) => byte,
        _ => 0,
    }
}

/// A mark as an event: a data byte as a run of one.
fn event_of<'a>(mark: Mark, byte: &'a [u8]) -> Ev<'a>
    requires { byte.now ≡ mark_byte mark ∷ [] }
    ensures signs { signs_of_event result ≡ sign_of mark ∷ [] }
    ensures run { IsShortRun result }
    ensures behind { (open_now : Bool) → suits_sign open_now (sign_of mark) ≡ true →
        open_behind open_now result ≡ opens open_now mark }
{
    match mark {
        Mark::Short(short) => Ev::Short(short),
        Mark::Rt(message) => Ev::Rt(message),
        Mark::Open => Ev::Open,
        Mark::Byte(_) => Ev::Run(byte),
        Mark::End => Ev::End,
        Mark::Abort => Ev::Abort,
    }
}
