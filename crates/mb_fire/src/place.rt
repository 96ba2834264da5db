//! Where the next byte of a recording stands: in the frames round the packets, which are this project's own, in a
//! packet's header (IEC 61883-1, "CIP header"), or in its data blocks (IEC 61883-6, "AM824 data").

/// A header of which bytes are to come.
#[derive(Clone, Copy, Debug, PartialEq, Eq)]
pub struct BegunHeader {
    /// The length that the frame names.
    pub len: u16,
    /// How many of the header's eight bytes were taken, up to seven.
    pub taken: u8,
    pub sid: u8,
    pub dbs: u8,
    pub dbc: u8,
    pub fmt: u8,
    pub fdf: u8,
}

/// A place in the data blocks of a packet. All numbers of what is to come run down, so none has to agree with another.
#[derive(Clone, Copy, Debug, PartialEq, Eq)]
pub struct BlockPlace {
    /// Quadlets of a block.
    pub dbs: u8,
    /// The data block count of this block.
    pub count: u8,
    /// Blocks behind this one.
    pub blocks: u16,
    /// Bytes behind the last block.
    pub ragged: u16,
    /// Quadlets of this block behind the one that is under way, or next.
    pub quadlets: u8,
    /// MIDI conformant quadlets that this block had, up to eight.
    pub midi: u8,
    /// Bytes to come of the quadlet under way that a port carries.
    pub left: u8,
    /// Bytes of it behind those. Where both are 0 a label is next.
    pub skip: u8,
}

/// What the next byte is.
#[derive(Clone, Copy, Debug, PartialEq, Eq)]
pub enum Place {
    /// The first of a frame's length.
    Between,
    /// The second of it, the first being this.
    High(u8),
    /// One of a header.
    Heading(BegunHeader),
    /// One of a data block.
    Within(BlockPlace),
    /// One that is passed over, with so many behind it.
    Passing(u16),
}
