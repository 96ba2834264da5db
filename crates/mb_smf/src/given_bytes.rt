//! What one byte of a file gives.

/// A data byte before which a status was left out gives both.
#[derive(Clone, Copy, Debug, PartialEq, Eq)]
pub enum GivenBytes {
    Nothing,
    One(u8),
    Two(u8, u8),
}
