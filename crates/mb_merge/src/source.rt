//! A source of marks: which outs it goes to, whether it owns them, and the marks of it that wait.

ghost use Rattle.std.specs.Prelude.{◌≡◌, ◌↔◌, ◌<◌, ◌≤◌, ◌==◌, false, length, slice_get, slice_index_or, IsErr, IfErr};
ghost use Rattle.std.specs.Prelude.{IfNone, IfOk, IfSome, OnErr, OnOk};
ghost use Rattle.mb_message.specs.Signs.{sign_of, suits_sign};
ghost use Rattle.mb_merge.specs.Links.{closed_link, owns, owns_out, share};
ghost use Rattle.mb_merge.specs.Passing.{after_head, after_pass, has_room_in, opens, taken};

use circular_buffer::HeapCircularBuffer;
use mb_message::{Mark, suits};
use std::alloc::{AllocError, Global};
use std::marker::Model;

/// How many marks of a source are held at most.
const ROOM: usize = 1024;

/// A mark that waits, and when it came.
#[derive(Clone, Copy, Debug, PartialEq, Eq)]
pub struct Held {
    pub arrival: u64,
    pub mark: Mark,
}

/// The source holds as many marks as it may: 1,024.
#[derive(Clone, Copy, Debug, PartialEq, Eq)]
pub struct Full {
    pub held: u16,
}

#[derive(Drop)]
pub struct Source {
    outs: [bool; 16],
    is_open: bool,
    in_sysex: bool,
    last: u64,
    held: HeapCircularBuffer<Held>,
}

impl Model for Source {
    ghost use Rattle.std.specs.Prelude.{◌≡◌};
    ghost use Rattle.mb_merge.specs.Links.{Link};

    ghost Value = { Link };

    ghost view = { λ s. record {
      outs = s.outs;
      is_open = s.is_open;
      in_sysex = s.in_sysex;
      last = s.last;
      held = s.held.items;
    } };

    ghost invariant = { λ s. s.held.capacity ≡ 1024 };
}

impl Source {
    /// A source that goes to these outs, with nothing taken.
    pub fn new(alloc: Global, outs: [bool; 16]) -> Result<Source, AllocError>
        ensures { IfOk result (λ source. source ≡ closed_link outs) }
    {
        let held = HeapCircularBuffer::with_capacity(alloc, ROOM)?;
        Ok(Source {
            outs,
            is_open: false,
            in_sysex: false,
            last: 0,
            held,
        })
    }

    /// Whether it has an open SysEx: its start has passed.
    #[inline(always)]
    pub fn is_open(&self) -> bool
        ensures { result ≡ self.now.is_open }
    {
        self.is_open
    }

    /// Whether it goes to this out.
    #[inline(always)]
    pub fn goes(&self, out: u8) -> bool
        requires { out < 16 }
        ensures { result ≡ slice_index_or self.now.outs out false }
    {
        self.outs[out as usize]
    }

    /// Of each out whether it goes there.
    #[inline(always)]
    pub fn outs(&self) -> &[bool]
        ensures { result.now ≡ self.now.outs }
    {
        &self.outs
    }

    /// Whether it has an open SysEx on this out.
    #[inline(always)]
    pub fn owns_out(&self, out: u8) -> bool
        requires { out < 16 }
        ensures { result ≡ owns_out out self.now }
    {
        self.is_open && self.goes(out)
    }

    /// Whether the mark may come next of it, behind all that was taken.
    #[inline(always)]
    pub fn suits(&self, mark: Mark) -> bool
        ensures { result ≡ suits_sign self.now.in_sysex (sign_of mark) }
    {
        suits(self.in_sysex, mark)
    }

    /// Whether this one has an open SysEx on an out of the other.
    pub fn owns(&self, other: &Source) -> bool
        ensures { result ≡ owns self.now other.now }
    {
        self.is_open && self.shares(other)
    }

    fn shares(&self, other: &Source) -> bool
        ensures { result ≡ share self.now.outs other.now.outs }
    {
        self.outs
            .iter()
            .zip(other.outs.iter())
            .any(|(mine, theirs)| *mine && *theirs)
    }

    /// The moment of the last mark that was taken: 0 before any.
    #[inline(always)]
    pub fn last(&self) -> u64
        ensures { result ≡ self.now.last }
    {
        self.last
    }

    /// How many marks are held: 1,024 at most.
    #[inline(always)]
    pub fn held(&self) -> u16
        ensures held { result ≡ length self.now.held }
        ensures few { result ≤ 1024 }
    {
        self.held.len() as u16
    }

    /// How many marks its ring has room for: it is made so once, and never grows.
    pub fn room(&self) -> usize
        ensures { result ≡ 1024 }
    {
        self.held.capacity()
    }

    /// The first held mark.
    #[inline(always)]
    pub fn head(&self) -> Option<Held>
        ensures { result ≡ slice_get self.now.held 0 }
    {
        self.held.front().copied()
    }

    /// A mark is taken, which passes now or is held.
    pub fn take(&mut self, passes: bool, moment: u64, mark: Mark) -> Result<(), Full>
        ensures ok { OnOk result (self.new ≡ taken self.old passes moment mark) }
        ensures full { IsErr result ↔ (has_room_in self.old passes ≡ false) }
        ensures err { OnErr result (self.new ≡ self.old) }
        ensures held { IfErr result (λ full. full.held ≡ length self.old.held) }
        ensures room { IfErr result (λ full. full.held ≡ 1024) }
    {
        if !passes {
            let held = Held {
                arrival: moment,
                mark,
            };
            if self.held.try_push_back(held).is_err() {
                return Err(Full { held: self.held() });
            }
        }
        self.in_sysex = is_open_behind(self.in_sysex, mark);
        self.last = moment;
        Ok(())
    }

    /// A mark passes that wasn't held.
    pub fn pass(&mut self, mark: Mark)
        ensures { self.new ≡ after_pass self.old mark }
    {
        self.is_open = is_open_behind(self.is_open, mark);
    }

    /// The first held mark passes.
    pub fn pass_head(&mut self) -> Option<Held>
        ensures head { result ≡ slice_get self.old.held 0 }
        ensures some { IfSome result (λ head. self.new ≡ after_head self.old head.mark) }
        ensures none { IfNone result (self.new ≡ self.old) }
    {
        let head = self.held.pop_front()?;
        self.is_open = is_open_behind(self.is_open, head.mark);
        Some(head)
    }
}

/// Whether a SysEx is open behind a mark.
#[inline(always)]
fn is_open_behind(before: bool, mark: Mark) -> bool
    ensures { result ≡ opens before mark }
{
    match mark {
        Mark::Open => true,
        Mark::End | Mark::Abort => false,
        Mark::Short(_) | Mark::Rt(_) | Mark::Byte(_) => before,
    }
}
