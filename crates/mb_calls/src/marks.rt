//! The marks that tables name: a constant can't hold a `Short`, which carries a proof.

use mb_message::{Mark, Rt, Short};

/// A mark of a table.
#[derive(Clone, Copy, Debug)]
pub enum Sample {
    /// A Note On.
    Note,
    /// The same with another velocity.
    Softer,
    Program,
    Tune,
    Clock,
    Stop,
    Open,
    Byte(u8),
    End,
    Abort,
}

impl Sample {
    pub fn mark(self) -> Mark {
        match self {
            Sample::Note => Mark::Short(Short::of(0x90, 0x3c, 0x64)),
            Sample::Softer => Mark::Short(Short::of(0x90, 0x3c, 0x63)),
            Sample::Program => Mark::Short(Short::of(0xc5, 0x0a, 0)),
            Sample::Tune => Mark::Short(Short::of(0xf6, 0, 0)),
            Sample::Clock => Mark::Rt(Rt::new(0xf8).unwrap()),
            Sample::Stop => Mark::Rt(Rt::new(0xfc).unwrap()),
            Sample::Open => Mark::Open,
            Sample::Byte(byte) => Mark::Byte(byte),
            Sample::End => Mark::End,
            Sample::Abort => Mark::Abort,
        }
    }
}
