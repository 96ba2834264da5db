//! How many marks of a kind there are.

ghost use Rattle.std.specs.Prelude.{◌≡◌, ◌+◌, ◌<◌, [], ◌∷◌, ◌++◌, List};
ghost use Rattle.mb_message.specs.Signs.{Sign, sign_of};
ghost use Rattle.mb_denote.specs.Counted.{Counted, with_mark};

use mb_message::Mark;

/// Short messages, SysEx that ended by F7, broken ones, and real-time messages.
#[derive(Clone, Copy, Debug, PartialEq, Eq, Default)]
pub struct Counts {
    pub msg: u64,
    pub syx: u64,
    pub broken: u64,
    pub rt: u64,
}

impl Counts {
    /// All are 0.
    pub fn new() -> Counts
        ensures { Counted result [] }
    {
        Counts {
            msg: 0,
            syx: 0,
            broken: 0,
            rt: 0,
        }
    }

    /// Counts a mark: a short message, an end, an abort or a real-time message. A start and a data byte count for
    /// nothing. No field is at its last value.
    pub fn put(&mut self, mark: Mark)
        requires msg { self.old.msg < u64.MAX }
        requires syx { self.old.syx < u64.MAX }
        requires broken { self.old.broken < u64.MAX }
        requires rt { self.old.rt < u64.MAX }
        ensures one_more { self.new ≡ with_mark self.old (sign_of mark) }
        ensures counted { (marks : List Sign) → Counted self.old marks → Counted self.new (marks ++ sign_of mark ∷ []) }
    {
        *self = with_mark(*self, mark);
    }
}

fn with_mark(counts: Counts, mark: Mark) -> Counts
    requires msg { counts.msg < u64.MAX }
    requires syx { counts.syx < u64.MAX }
    requires broken { counts.broken < u64.MAX }
    requires rt { counts.rt < u64.MAX }
    ensures { result ≡ with_mark counts (sign_of mark) }
{
    match mark {
        Mark::Short(_) => Counts {
            msg: counts.msg + 1,
            ..counts
        },
        Mark::End => Counts {
            syx: counts.syx + 1,
            ..counts
        },
        Mark::Abort => Counts {
            broken: counts.broken + 1,
            ..counts
        },
        Mark::Rt(_) => Counts {
            rt: counts.rt + 1,
            ..counts
        },
        Mark::Open | Mark::Byte(_) => counts,
    }
}
