//! How a run of a rig ends.

ghost use Rattle.std.specs.Prelude.{◌≡◌, ◌<◌};
ghost use Rattle.mb_rig.specs.Ending.{end_by};

use crate::feed::RunStop;
use crate::link::LinkStop;
use mb_frames::TapeFault;
use mb_message::Memory;

/// How a run of a rig ends.
#[derive(Clone, Copy, Debug, PartialEq, Eq)]
pub enum RigEnd {
    /// All tapes were read to their end, and so were their recordings.
    Done,
    /// All tapes were read to their end: one of them stops inside its magic or a record, or its recording inside a
    /// packet.
    Cut,
    /// A file couldn't be opened, or not be read on.
    ReadFault,
    /// A file couldn't be created, or not be written to.
    WriteFault,
    BadTape { link: u8, fault: TapeFault },
    /// As much as may be was read of a link's tape.
    TooLong { link: u8 },
    Memory(Memory),
}

/// The end that a stop at a link is.
pub(crate) fn end_of(link: usize, stop: RunStop) -> RigEnd
    requires { link < 16 }
    ensures { result ≡ end_by link stop }
{
    match stop {
        RunStop::WriteFault => RigEnd::WriteFault,
        RunStop::Link(stop) => match stop {
            LinkStop::ReadFault => RigEnd::ReadFault,
            LinkStop::TooLong => RigEnd::TooLong { link: link as u8 },
            LinkStop::BadTape(fault) => RigEnd::BadTape {
                link: link as u8,
                fault,
            },
        },
    }
}
