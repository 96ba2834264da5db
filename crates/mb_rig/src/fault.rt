//! What is wrong with the text of a rig.

ghost use Rattle.std.specs.Prelude.{◌≡◌};
ghost use Rattle.mb_rig.specs.RigText.{why_word};

use mb_message::Memory;
use thiserror::Error;

/// What is wrong with a line. Of several causes the one that stands here first is told.
#[derive(Clone, Copy, Debug, PartialEq, Eq)]
pub enum Why {
    /// The text is longer than 65,536 bytes.
    Long,
    /// A byte of a word isn't 21 to 7E, the first word is none of `in`, `out`, `route`, there are too few words or too
    /// many, a file's name is longer than 255 bytes, or a track isn't 0 to 255.
    Words,
    /// There is no such carrier or port.
    Carrier,
    /// The name of a link or an out isn't 1 to 16 of `a` to `z`, `0` to `9`, `_`.
    Name,
    /// The name, or the file, of a link or an out stands in an earlier line. Two links may have one file, each with
    /// another track.
    NameTwice,
    /// A route is from no earlier link, or to no earlier out.
    Port,
    /// The same route stands in an earlier line.
    RouteTwice,
    /// The line is the 17th link or the 17th out; or there is no line more, and no link or no out.
    Count,
}

impl Why {
    /// Its word.
    pub fn word(self) -> &'static str
        ensures { result.now ≡ why_word self }
    {
        match self {
            Why::Long => "long",
            Why::Words => "words",
            Why::Carrier => "carrier",
            Why::Name => "name",
            Why::NameTwice => "name-twice",
            Why::Port => "port",
            Why::RouteTwice => "route-twice",
            Why::Count => "count",
        }
    }
}

/// Why there is no rig.
#[derive(Clone, Copy, Debug, PartialEq, Eq, Error)]
pub enum RigFault {
    /// The number of the first faulty line, and its first cause. Lines are numbered from 1; 0 is the text as a whole.
    #[error("a line of the rig is faulty")]
    Line(u32, Why),
    /// There was no memory for what a line says.
    #[error("there was no memory")]
    Memory(Memory),
}
