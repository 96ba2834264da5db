//! Where a byte stands in a file.

ghost use Rattle.std.specs.Prelude.{◌≡◌};
ghost use Rattle.mb_smf.specs.Smf.{is_faulted};
ghost use Rattle.mb_smf.specs.TrackSteps.{is_over};

use crate::event_kind::EventKind;
use crate::fault::SmfWhy;

/// What the next byte is of. A number says how many bytes of the same part stand before it.
#[derive(Clone, Copy, Debug, PartialEq, Eq)]
pub enum FilePlace {
    Magic(u8),
    HeaderLength(u8),
    /// Format and number of tracks.
    Kind(u8),
    Division(u8),
    /// Of a chunk that is passed over.
    Rest,
    /// The type of a chunk, which is still that of a track or not.
    Name(u8, bool),
    ChunkLength(u8, bool),
    Delta(u8),
    /// An event's first byte.
    First,
    /// Data of a channel event, of which so many bytes are to come.
    Data(u8),
    MetaType,
    Length(u8, EventKind),
    Bytes(EventKind),
    /// Behind the track's end.
    Ended,
    /// At a byte that shows a fault.
    Faulted(SmfWhy),
}

/// Whether nothing more of the track is to be read.
pub fn is_over(place: FilePlace) -> bool
    ensures { result ≡ is_over place }
{
    match place {
        FilePlace::Ended | FilePlace::Faulted(_) => true,
        _ => false,
    }
}

/// Whether a byte there shows a fault.
pub fn is_faulted(place: FilePlace) -> bool
    ensures { result ≡ is_faulted place }
{
    match place {
        FilePlace::Faulted(_) => true,
        _ => false,
    }
}
