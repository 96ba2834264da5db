//! What is made, piece by piece.

ghost use Rattle.std.specs.Prelude.{◌≡◌, ◌*◌, ◌≤◌, ◌++◌, length, take, drop, min};
ghost use Rattle.mb_make.specs.Generated.{generated};

use crate::units::Units;
use std::marker::Model;

/// Gives so many units, whose bytes it makes as they are asked for. Contracts see it as the list of bytes that are
/// still to come.
#[derive(Drop)]
pub struct Maker {
    units: Units,
}

impl Model for Maker {
    ghost use Rattle.std.specs.Prelude.{ℕ, List};
    ghost use Rattle.mb_make.specs.Units.{rest_of, IsWithin};

    ghost Value = { List ℕ };

    ghost view = { λ m. rest_of m.units };

    ghost invariant = { λ m. IsWithin m.units };
}

impl Maker {
    /// So many units, the generator's first state given.
    #[tactic(auto, unfolding(crate::specs::Generated::generated))]
    pub fn new(start: u32, units: u32) -> Maker
        ensures { result ≡ generated start units }
    {
        Maker {
            units: Units::new(start, units),
        }
    }

    /// Writes the next bytes to the front of the buffer, and answers how many: as many as it has room for, and fewer
    /// exactly where the last unit ends before it is full. Behind them the buffer stays as it is.
    pub fn fill(&mut self, out: &mut [u8]) -> usize
        ensures count { result ≡ min (length self.old) (length out.old) }
        ensures bytes { out.new ≡ take result self.old ++ drop result out.old }
        ensures left { self.new ≡ drop result self.old }
    {
        let mut count = 0;
        'bytes: while count < out.len() {
            let Some(byte) = self.units.next() else {
                return count;
            };
            out[count] = byte;
            count += 1;
        }
        count
    }
}
