//! The denotation of marks that come one by one.

ghost use Rattle.std.specs.Prelude.{◌≡◌, ◌+◌, ◌<◌, ◌≤◌, true, false, [], ◌∷◌, ◌++◌, List, IfOk, IsOk, OnErr, OnOk};
ghost use Rattle.std.specs.Prelude.{is_some, map, vec_capacity, vec_len};
ghost use Rattle.mb_message.specs.Signs.{Sign, ShortSign, RtSign, ByteSign, EndSign, AbortSign, sign_of, suits_sign};
ghost use Rattle.mb_stream.specs.Denotation.{denotation, left_open};
ghost use Rattle.mb_denote.specs.Collected.{Stands, in_sysex};
ghost use Rattle.mb_denote.specs.Collecting.{with_mark};
ghost use Rattle.mb_denote.specs.Denoted.{denoted, meant};

use crate::{Bytes, Den, Item, Items, RtAt, Rts};
use mb_message::{Mark, Memory, Rt, Short};
use std::alloc::Global;
use std::marker::Model;

/// What the marks so far mean. A refusal for want of memory changes nothing, so the mark may be put once more.
#[derive(Debug, Drop)]
pub struct Collector {
    alloc: Global,
    items: Vec<Item>,
    rts: Vec<RtAt>,
    /// How many of the items aren't broken.
    ended: u64,
    /// The data of the open SysEx.
    sysex: Option<Bytes>,
}

impl Model for Collector {
    ghost use Rattle.std.specs.Prelude.{◌≤◌, map, vec_len};
    ghost use Rattle.mb_denote.specs.Collected.{Collected};

    ghost Value = { Collected };

    ghost use Rattle.mb_denote.specs.Denoted.{meant, timed};

    ghost view = { λ c. record {
      items = map meant c.items.items;
      realtimes = map timed c.rts.items;
      ended = c.ended;
      open_data = c.sysex;
    } };

    ghost invariant = { λ c. c.ended ≤ vec_len c.items };
}

impl Collector {
    /// No mark yet. Takes no memory.
    pub fn new(alloc: Global) -> Collector
        ensures { Stands result [] }
    {
        Collector {
            alloc,
            items: Vec::new(alloc),
            rts: Vec::new(alloc),
            ended: 0,
            sysex: None,
        }
    }

    /// Whether the marks leave a SysEx open.
    pub fn in_sysex(&self) -> bool
        ensures { result ≡ in_sysex self.now }
    {
        self.sysex.is_some()
    }

    /// The next mark, which suits. Without memory nothing changes.
    pub fn put(&mut self, mark: Mark) -> Result<(), Memory>
        requires suits { suits_sign (in_sysex self.old) (sign_of mark) ≡ true }
        ensures stands { OnOk result
            ((marks : List Sign) → Stands self.old marks → Stands self.new (marks ++ sign_of mark ∷ [])) }
        ensures err { OnErr result (self.new ≡ self.old) }
    {
        self.collect(mark)
    }

    /// What the marks mean. A SysEx that is still open is broken off, which alone takes memory; without it all is given
    /// up.
    pub fn finish(self) -> Result<Den, Memory>
        ensures closed { in_sysex self ≡ false → IsOk result }
        ensures means { (marks : List Sign) → Stands self marks → IfOk result (λ den. denoted den ≡ denotation marks) }
    {
        let Collector {
            items,
            rts,
            sysex,
            ..
        } = self;
        Ok(Den {
            items: finished(items, sysex)?,
            rts: Rts::new(rts),
        })
    }

    // `put`, said exactly.
    fn collect(&mut self, mark: Mark) -> Result<(), Memory>
        requires suits { suits_sign (in_sysex self.old) (sign_of mark) ≡ true }
        ensures ok { OnOk result (self.new ≡ with_mark self.old (sign_of mark)) }
        ensures err { OnErr result (self.new ≡ self.old) }
    {
        match mark {
            Mark::Short(short) => self.message(short),
            Mark::Rt(message) => self.realtime(message),
            Mark::Open => {
                self.sysex = Some(Bytes::new(self.alloc));
                Ok(())
            }
            Mark::Byte(byte) => self.byte(byte),
            Mark::End => self.end(),
            Mark::Abort => self.abort(),
        }
    }

    fn message(&mut self, short: Short) -> Result<(), Memory>
        ensures ok { OnOk result (self.new ≡ with_mark self.old (ShortSign short.status short.data1 short.data2)) }
        ensures err { OnErr result (self.new ≡ self.old) }
    {
        push(&mut self.items, Item::Msg(short))?;
        self.ended += 1;
        Ok(())
    }

    fn realtime(&mut self, message: Rt) -> Result<(), Memory>
        ensures ok { OnOk result (self.new ≡ with_mark self.old (RtSign message.byte)) }
        ensures err { OnErr result (self.new ≡ self.old) }
    {
        push(
            &mut self.rts,
            RtAt {
                rt: message,
                after: self.ended,
            },
        )
    }

    fn byte(&mut self, byte: u8) -> Result<(), Memory>
        ensures ok { OnOk result (self.new ≡ with_mark self.old (ByteSign byte)) }
        ensures err { OnErr result (self.new ≡ self.old) }
    {
        match &mut self.sysex {
            Some(data) => data.push(byte),
            None => Ok(()),
        }
    }

    fn end(&mut self) -> Result<(), Memory>
        requires { in_sysex self.old ≡ true }
        ensures ok { OnOk result (self.new ≡ with_mark self.old EndSign) }
        ensures err { OnErr result (self.new ≡ self.old) }
    {
        room(&mut self.items)?;
        if let Some(data) = self.sysex.take() {
            push(&mut self.items, Item::Syx(data))?;
            self.ended += 1;
        }
        Ok(())
    }

    fn abort(&mut self) -> Result<(), Memory>
        ensures ok { OnOk result (self.new ≡ with_mark self.old AbortSign) }
        ensures err { OnErr result (self.new ≡ self.old) }
    {
        room(&mut self.items)?;
        if let Some(data) = self.sysex.take() {
            push(&mut self.items, Item::Broken(data))?;
        }
        Ok(())
    }
}

/// The items, with a SysEx that is still open as a broken one.
fn finished(mut items: Vec<Item>, unfinished: Option<Bytes>) -> Result<Items, Memory>
    ensures closed { is_some unfinished ≡ false → IsOk result }
    ensures all { IfOk result (λ all. map meant all ≡ map meant items.items ++ left_open unfinished) }
{
    if let Some(data) = unfinished {
        push(&mut items, Item::Broken(data))?;
    }
    Ok(Items::new(items))
}

/// Appends a value. Without memory nothing changes.
fn push<T: Drop>(items: &mut Vec<T>, item: T) -> Result<(), Memory>
    ensures ok { OnOk result (items.new.items ≡ items.old.items ++ item ∷ []) }
    ensures len { OnOk result (vec_len items.new ≡ vec_len items.old + 1) }
    ensures err { OnErr result (items.new.items ≡ items.old.items) }
    ensures same { OnErr result (vec_len items.new ≡ vec_len items.old) }
    ensures full { OnErr result (vec_capacity items.old ≤ vec_len items.old) }
{
    match items.push(item) {
        Ok(()) => Ok(()),
        Err(_) => Err(Memory),
    }
}

/// Room for one value more. It is made before an open SysEx is taken, so that nothing has to be put back after a
/// refusal.
fn room(items: &mut Vec<Item>) -> Result<(), Memory>
    ensures ok { OnOk result (vec_len items.new < vec_capacity items.new) }
    ensures items { items.new.items ≡ items.old.items }
    ensures len { vec_len items.new ≡ vec_len items.old }
{
    match items.reserve(1) {
        Ok(()) => Ok(()),
        Err(_) => Err(Memory),
    }
}
