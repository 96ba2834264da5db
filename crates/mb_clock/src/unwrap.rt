//! From stamps to moments.

ghost use Rattle.std.specs.Prelude.{◌≡◌, ℕ, ◌+◌, ◌*◌, ◌^◌, ◌<◌, List, [], ◌∷◌, ◌++◌};
ghost use Rattle.mb_clock.specs.Stamps.{StampedPacket, with_stamp};
ghost use Rattle.mb_clock.specs.Moments.{IsNextMoment};
ghost use Rattle.mb_clock.specs.Clock.{begun, clock_of, last_moment, stamped};

use std::marker::Model;

/// The clock of a recording's reader.
#[derive(Drop)]
pub struct Unwrap {
    upper: u8,
    lower: u8,
    moment: u64,
}

impl Model for Unwrap {
    ghost use Rattle.std.specs.Prelude.{◌<◌};
    ghost use Rattle.mb_clock.specs.Clock.{Clock};

    ghost Value = { Clock };

    ghost view = { λ u. record { upper = u.upper; lower = u.lower; moment = u.moment } };

    ghost invariant = { λ u. (u.upper < 64) × (u.lower < 128) };
}

impl Unwrap {
    /// No packet was begun, and the last moment is 0.
    #[inline(always)]
    pub fn new() -> Unwrap
        ensures { result ≡ clock_of [] }
    {
        Unwrap {
            upper: 0,
            lower: 0,
            moment: 0,
        }
    }

    /// A packet begins, whose header has these upper six bits.
    #[inline(always)]
    pub fn packet(&mut self, high: u8)
        requires { high < 64 }
        ensures clock { self.new ≡ begun self.old high }
        ensures all { (packets : List StampedPacket) → self.old ≡ clock_of packets →
            self.new ≡ clock_of (packets ++ (record { high = high; lows = [] }) ∷ []) }
    {
        self.upper = high;
        self.lower = 0;
    }

    /// The moment, in milliseconds, of a stamp with these lower seven bits in the packet under way.
    #[inline(always)]
    pub fn stamp(&mut self, low: u8) -> u64
        requires seven_bits { low < 128 }
        requires room { self.old.moment < 2 ^ 63 }
        ensures clock { self.new ≡ stamped self.old low }
        ensures moment { result ≡ self.new.moment }
        // For all packets and stamps so far.
        ensures all { (packets : List StampedPacket) (packet : StampedPacket) → self.old ≡ clock_of (packets ++ packet ∷ []) →
            self.new ≡ clock_of (packets ++ with_stamp packet low ∷ []) }
        ensures least { IsNextMoment self.old.moment (128 * self.new.upper + low) result }
    {
        if low < self.lower {
            self.upper = (self.upper + 1) % 64;
        }
        self.lower = low;
        let bits = 128 * u64::from(self.upper) + u64::from(low);
        self.moment += (bits + 8192 - self.moment % 8192) % 8192;
        self.moment
    }

    /// The moment of the last stamp, in milliseconds: 0 before any.
    #[inline(always)]
    pub fn moment(&self) -> u64
        ensures { result ≡ self.now.moment }
    {
        self.moment
    }
}
