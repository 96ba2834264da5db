//! The files of a rig.

ghost use Rattle.std.specs.Prelude.{◌≡◌, ℕ, ◌+◌, ◌≤◌, ◌^◌, ◌++◌, false, List, [], length, IsTrue, IfOk, OnOk, OnErr};
ghost use Rattle.mb_outside.specs.Cause.{HasCause};
ghost use Rattle.mb_outside.specs.Contents.{Contents, after_create, after_open, next_handle};
ghost use Rattle.mb_carrier.specs.Port.{writer_in_sysex};
ghost use Rattle.mb_carrier.specs.Word.{AreSpecs, IsSpec};
ghost use Rattle.mb_track.specs.TrackReading.{track_of, track_spec};
ghost use Rattle.mb_rig.specs.Link.{LinkStands};
ghost use Rattle.mb_rig.specs.Outlet.{OutletStands, outlet_spec};
ghost use Rattle.mb_rig.specs.RigText.{RigPort};
ghost use Rattle.mb_rig.specs.Right.{specs_of};
ghost use Rattle.mb_rig.specs.RigRun.{to_read, to_write};
ghost use Rattle.mb_rig.specs.Given.{CreatesPart, OpensPart};
ghost use Rattle.mb_rig.specs.Beginning.{FeedsOpened, OutsCreated};

use crate::bay::Outlets;
use crate::feed::Feed;
use crate::link::Link;
use crate::name::Port;
use crate::outlet::Outlet;
use arrayvec::ArrayVec;
use mb_carrier::PortWriter;
use mb_outside::{Desk, Failed};
use std::alloc::Global;

/// The links of a rig.
pub(crate) type Feeds = ArrayVec<Feed, 16>;

/// Opens a link's file, of which at most `limit` bytes are taken. Its handle is the next one.
pub(crate) fn open_link<D: Desk>(port: &Port, limit: u64, desk: &mut D) -> Result<Link, Failed>
    requires spec { IsSpec port.now.spec }
    requires most { limit ≤ 2 ^ 40 }
    ensures opened { IfOk result (λ link. IsTrue D.tells →
        (link.supply.handle ≡ next_handle (D.contents desk.old)) × (content : List ℕ)
        × (D.contents desk.new ≡ after_open port.now.file content (D.contents desk.old))) }
    ensures spec { IfOk result (λ link. track_spec link.reader ≡ port.now.spec) }
    ensures track { IfOk result (λ link. track_of link.reader ≡ port.now.track) }
    ensures limit { IfOk result (λ link. link.supply.limit ≡ limit) }
    ensures stands { IfOk result (λ link. LinkStands D.tells D.contents link desk.new []) }
    ensures err { OnErr result (IsTrue D.tells → D.contents desk.new ≡ D.contents desk.old) }
    ensures cause { HasCause (D.read_faults desk.old) (D.read_faults desk.new) result }
    ensures sound { OnOk result (D.read_faults desk.new ≡ D.read_faults desk.old) }
    ensures write_faults { D.write_faults desk.new ≡ D.write_faults desk.old }
{
    match desk.open(port.file.text()) {
        Ok(handle) => Ok(Link::new(handle, limit, port.spec, port.track)),
        Err(failed) => Err(failed),
    }
}

/// Creates an out's file. Its handle is the next one.
pub(crate) fn create_outlet<D: Desk>(
    alloc: Global,
    port: &Port,
    desk: &mut D,
) -> Result<Outlet, Failed>
    requires { IsSpec port.now.spec }
    ensures created { IfOk result (λ out. IsTrue D.tells →
        (out.handle ≡ next_handle (D.contents desk.old))
        × (D.contents desk.new ≡ after_create port.now.file (D.contents desk.old))) }
    ensures spec { IfOk result (λ out. outlet_spec out ≡ port.now.spec) }
    ensures in_sysex { IfOk result (λ out. writer_in_sysex out.writer ≡ false) }
    ensures stands { IfOk result (λ out. OutletStands D.tells D.contents out desk.new []) }
    ensures err { OnErr result (IsTrue D.tells → D.contents desk.new ≡ D.contents desk.old) }
    ensures cause { HasCause (D.write_faults desk.old) (D.write_faults desk.new) result }
    ensures sound { OnOk result (D.write_faults desk.new ≡ D.write_faults desk.old) }
    ensures read_faults { D.read_faults desk.new ≡ D.read_faults desk.old }
{
    let Ok(writer) = PortWriter::new(alloc, port.spec) else {
        unreachable!()
    };
    match desk.create(port.file.text()) {
        Ok(handle) => Ok(Outlet { handle, writer }),
        Err(failed) => Err(failed),
    }
}

/// Opens the links' files in their order, behind those that are open.
pub(crate) fn open_feeds<D: Desk>(
    ports: &[Port],
    limit: u64,
    feeds: &mut Feeds,
    desk: &mut D,
) -> Result<(), Failed>
    requires specs { AreSpecs (specs_of ports.now) }
    requires room { length feeds.old.items + length ports.now ≤ 16 }
    requires most { limit ≤ 2 ^ 40 }
    ensures opened { OnOk result ((done : List RigPort) (start : Contents) →
        FeedsOpened D.tells D.contents done limit feeds.old.items start desk.old →
        FeedsOpened D.tells D.contents (done ++ ports.now) limit feeds.new.items start desk.new) }
    ensures part { OnErr result ((done : List RigPort) (start : Contents) →
        FeedsOpened D.tells D.contents done limit feeds.old.items start desk.old → IsTrue D.tells →
        OpensPart start (D.contents desk.new) (to_read (done ++ ports.now))) }
    ensures cause { HasCause (D.read_faults desk.old) (D.read_faults desk.new) result }
    ensures sound { OnOk result (D.read_faults desk.new ≡ D.read_faults desk.old) }
    ensures write_faults { D.write_faults desk.new ≡ D.write_faults desk.old }
{
    let Some((port, ports_behind)) = ports.split_first() else {
        return Ok(());
    };
    match open_link(port, limit, desk) {
        Ok(link) => {
            feeds.push(Feed::new(link));
            open_feeds(ports_behind, limit, feeds, desk)
        }
        Err(failed) => Err(failed),
    }
}

/// Creates the outs' files in their order, behind those that are created.
pub(crate) fn create_outs<D: Desk>(
    alloc: Global,
    ports: &[Port],
    outs: &mut Outlets,
    desk: &mut D,
) -> Result<(), Failed>
    requires specs { AreSpecs (specs_of ports.now) }
    requires room { length outs.old.items + length ports.now ≤ 16 }
    ensures created { OnOk result ((done : List RigPort) (start : Contents) →
        OutsCreated D.tells D.contents done outs.old.items start desk.old →
        OutsCreated D.tells D.contents (done ++ ports.now) outs.new.items start desk.new) }
    ensures part { OnErr result ((done : List RigPort) (start : Contents) →
        OutsCreated D.tells D.contents done outs.old.items start desk.old → IsTrue D.tells →
        CreatesPart start (D.contents desk.new) (to_write (done ++ ports.now))) }
    ensures cause { HasCause (D.write_faults desk.old) (D.write_faults desk.new) result }
    ensures sound { OnOk result (D.write_faults desk.new ≡ D.write_faults desk.old) }
    ensures read_faults { D.read_faults desk.new ≡ D.read_faults desk.old }
{
    let Some((port, ports_behind)) = ports.split_first() else {
        return Ok(());
    };
    match create_outlet(alloc, port, desk) {
        Ok(out) => {
            outs.push(out);
            create_outs(alloc, ports_behind, outs, desk)
        }
        Err(failed) => Err(failed),
    }
}
