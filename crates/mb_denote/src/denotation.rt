//! What a list of marks means, as two lists.

ghost use Rattle.std.specs.Prelude.{◌≡◌, ◌↔◌, map, IsTrue};
ghost use Rattle.mb_denote.specs.Denoted.{denoted, meant, timed};

use crate::{Item, RtAt};
use std::marker::Model;

/// Items in the order in which they ended. A clause sees their list.
#[derive(Debug, Drop)]
pub struct Items {
    items: Vec<Item>,
}

impl Model for Items {
    ghost use Rattle.std.specs.Prelude.{List};
    ghost use Rattle.mb_denote.specs.declared.item.Item.{Item};

    ghost Value = { List Item };

    ghost view = { λ i. i.items.items };
}

impl Items {
    pub(crate) fn new(items: Vec<Item>) -> Items
        ensures { result ≡ items.items }
    {
        Items { items }
    }

    /// The items, the one that ended first in front.
    pub fn list(&self) -> &[Item]
        ensures { result.now ≡ self.now }
    {
        self.items.as_slice()
    }

    fn same(&self, other: &Items) -> bool
        ensures list { IsTrue result ↔ (self.now ≡ other.now) }
        ensures meaning { IsTrue result ↔ (map meant self.now ≡ map meant other.now) }
    {
        self.items == other.items
    }
}

/// Real-time messages in their order. A clause sees their list.
#[derive(Debug, Drop)]
pub struct Rts {
    rts: Vec<RtAt>,
}

impl Model for Rts {
    ghost use Rattle.std.specs.Prelude.{List};
    ghost use Rattle.mb_denote.specs.declared.item.RtAt.{RtAt};

    ghost Value = { List RtAt };

    ghost view = { λ r. r.rts.items };
}

impl Rts {
    pub(crate) fn new(rts: Vec<RtAt>) -> Rts
        ensures { result ≡ rts.items }
    {
        Rts { rts }
    }

    /// The real-time messages, the first one in front.
    pub fn list(&self) -> &[RtAt]
        ensures { result.now ≡ self.now }
    {
        self.rts.as_slice()
    }

    fn same(&self, other: &Rts) -> bool
        ensures list { IsTrue result ↔ (self.now ≡ other.now) }
        ensures meaning { IsTrue result ↔ (map timed self.now ≡ map timed other.now) }
    {
        self.rts == other.rts
    }
}

/// The denotation of a list of marks: what ended, and beside it the real-time messages.
#[derive(Debug, Drop)]
pub struct Den {
    pub items: Items,
    pub rts: Rts,
}

impl Den {
    /// Whether both lists are the same.
    pub fn same(&self, other: &Den) -> bool
        ensures lists { IsTrue result ↔ (self.now ≡ other.now) }
        ensures meaning { IsTrue result ↔ (denoted self.now ≡ denoted other.now) }
    {
        self.items.same(&other.items) && self.rts.same(&other.rts)
    }
}
