//! What the bytes of an F0, F7 or FF event are for.

ghost use Rattle.std.specs.Prelude.{◌≡◌};
ghost use Rattle.mb_smf.specs.TrackSteps.{gives_bytes, meta_kind};

/// The events that have a length.
#[derive(Clone, Copy, Debug, PartialEq, Eq)]
pub enum EventKind {
    /// F0: F0 and its bytes are given.
    Sysex,
    /// F7: its bytes are given.
    Escape,
    /// FF 51: the tempo from here on.
    Tempo,
    /// FF 2F: the end of the track.
    End,
    /// Any other meta-event.
    Other,
}

/// The kind of a meta-event, by its type.
pub fn meta_kind(type_byte: u8) -> EventKind
    ensures { result ≡ meta_kind type_byte }
{
    if type_byte == 0x51 {
        EventKind::Tempo
    } else if type_byte == 0x2f {
        EventKind::End
    } else {
        EventKind::Other
    }
}

/// Whether the bytes of such an event are given.
pub fn gives_bytes(kind: EventKind) -> bool
    ensures { result ≡ gives_bytes kind }
{
    match kind {
        EventKind::Sysex | EventKind::Escape => true,
        EventKind::Tempo | EventKind::End | EventKind::Other => false,
    }
}
