//! What marks mean, one by one.

use crate::Bytes;
use mb_message::{Rt, Short};

/// What ended: a short message, a SysEx that ended by F7, or one that was broken off.
#[derive(Debug, PartialEq, Eq, Drop)]
pub enum Item {
    Msg(Short),
    /// The data of a whole SysEx, without F0 and F7.
    Syx(Bytes),
    /// The data of a SysEx that ended by anything else, or that was still open.
    Broken(Bytes),
}

/// A real-time message, and how many messages and whole SysEx ended before it. A broken one counts for nothing.
#[derive(Clone, Copy, Debug, PartialEq, Eq)]
pub struct RtAt {
    pub rt: Rt,
    pub after: u64,
}
