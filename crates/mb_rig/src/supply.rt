//! A handle to read, piece by piece, up to a limit.

ghost use Rattle.std.specs.Prelude.{◌≡◌, ◌≢◌, ◌↔◌, ℕ, ◌+◌, ◌<◌, ◌≤◌, true, false, List, [], ◌++◌, drop, length, IsTrue};
ghost use Rattle.std.specs.Prelude.{IfOk, IfErr, OnOk, OnErr, Ok};
ghost use Rattle.mb_outside.specs.Cause.{HasCause};
ghost use Rattle.mb_outside.specs.Contents.{is_readable};
ghost use Rattle.mb_rig.specs.Supply.{Drew, DryBy, IsCounted, front_of};

use mb_outside::Desk;
use std::marker::Model;

/// The most that one read gives.
const PIECE: usize = 512;

/// Why a handle gives no more.
#[derive(Clone, Copy, Debug, PartialEq, Eq)]
pub(crate) enum Dry {
    ReadFault,
    /// As much as may be was taken off it.
    TooLong,
}

/// A handle, and what was taken off it and isn't handed out yet.
#[derive(Drop)]
pub(crate) struct Supply {
    handle: u32,
    limit: u64,
    count: u64,
    buffer: [u8; PIECE],
    at: usize,
    end: usize,
}

impl Model for Supply {
    ghost use Rattle.std.specs.Prelude.{◌≤◌, slice_range};
    ghost use Rattle.mb_rig.specs.Supply.{SupplyValue};

    ghost Value = { SupplyValue };

    ghost view = { λ s. record {
      handle = s.handle;
      limit = s.limit;
      count = s.count;
      ahead = slice_range s.buffer s.at s.end;
    } };

    ghost invariant = { λ s. (s.at ≤ s.end) × (s.end ≤ 512) × (s.count ≤ s.limit) };
}

impl Supply {
    /// Nothing was taken.
    pub(crate) fn new(handle: u32, limit: u64) -> Supply
        ensures handle { result.handle ≡ handle }
        ensures limit { result.limit ≡ limit }
        ensures count { result.count ≡ 0 }
        ensures ahead { result.ahead ≡ [] }
    {
        Supply {
            handle,
            limit,
            count: 0,
            buffer: [0; PIECE],
            at: 0,
            end: 0,
        }
    }

    /// The next byte, if one is at hand.
    pub(crate) fn front(&self) -> &[u8]
        ensures { result.now ≡ front_of self.now }
    {
        let end = self.end.min(self.at + 1);
        &self.buffer[self.at..end]
    }

    /// Whether all that was taken is handed out.
    pub(crate) fn is_used(&self) -> bool
        ensures { IsTrue result ↔ (self.now.ahead ≡ []) }
    {
        self.at == self.end
    }

    /// So many bytes of the front are handed out.
    pub(crate) fn pass(&mut self, many: usize)
        requires { many ≤ length (front_of self.old) }
        ensures { self.new ≡ (record self.old { ahead = drop many self.old.ahead }) }
    {
        self.at += many;
    }

    /// Reads on, where all that was taken is handed out, and tells whether there was more.
    pub(crate) fn read_on<D: Desk>(&mut self, desk: &mut D) -> Result<bool, Dry>
        requires used { self.old.ahead ≡ [] }
        requires readable { IsTrue D.tells → IsTrue (is_readable (D.contents desk.old) self.old.handle) }
        ensures handle { self.new.handle ≡ self.old.handle }
        ensures limit { self.new.limit ≡ self.old.limit }
        ensures count { self.new.count ≡ self.old.count + length self.new.ahead }
        ensures within { self.new.count ≤ self.new.limit }
        ensures below { OnOk result (self.old.count < self.old.limit) }
        ensures drew { OnOk result (IsTrue D.tells →
            Drew self.old.handle (D.contents desk.old) self.new.ahead (D.contents desk.new)) }
        ensures more { IfOk result (λ more. IsTrue more ↔ (self.new.ahead ≢ [])) }
        ensures none { result ≡ Ok false → self.new.ahead ≡ [] }
        ensures dry { IfErr result
            (DryBy (D.read_faults desk.old) (D.read_faults desk.new) self.old.count self.old.limit) }
        ensures err { OnErr result ((self.new.ahead ≡ []) ×
            (IsTrue D.tells → D.contents desk.new ≡ D.contents desk.old)) }
        ensures sound { OnOk result (D.read_faults desk.new ≡ D.read_faults desk.old) }
        ensures later { D.read_faults desk.old ≤ D.read_faults desk.new }
        ensures write_faults { D.write_faults desk.new ≡ D.write_faults desk.old }
    {
        if self.count >= self.limit {
            return Err(Dry::TooLong);
        }
        let most = (self.limit - self.count).min(PIECE as u64) as usize;
        self.at = 0;
        self.end = 0;
        match desk.read(self.handle, &mut self.buffer[..most]) {
            Ok(many) => {
                self.end = many;
                self.count += many as u64;
                Ok(many > 0)
            }
            Err(_) => Err(Dry::ReadFault),
        }
    }
}
