//! Notes that are to be told.

ghost use Rattle.std.specs.Prelude.{◌≡◌};
ghost use Rattle.mb_fire.specs.Under.{due_first, due_rest};

use mb_message::Note;

/// Notes that are to be told. A header's last byte makes up to two known, other bytes one at most.
#[derive(Clone, Copy, Debug, PartialEq, Eq)]
pub enum Due {
    Nothing,
    One(Note),
    Two(Note, Note),
}

impl Due {
    /// Takes the first of them.
    #[inline(always)]
    pub fn take(&mut self) -> Option<Note>
        ensures first { result ≡ due_first self.old }
        ensures rest { self.new ≡ due_rest self.old }
    {
        let (first, rest) = match *self {
            Due::Nothing => (None, Due::Nothing),
            Due::One(note) => (Some(note), Due::Nothing),
            Due::Two(note, next) => (Some(note), Due::One(next)),
        };
        *self = rest;
        first
    }
}
