//! Units on their way.

ghost use Rattle.std.specs.Prelude.{◌≡◌, ◌+◌, ◌<◌, [], ◌∷◌, IfSome, IfNone};
ghost use Rattle.arrayvec.specs.ArrayVec.{array_vec_len};
ghost use Rattle.mb_make.specs.Generated.{units_from};
ghost use Rattle.mb_make.specs.Units.{rest_of, IsWithin};

use crate::draws::Draws;
use crate::unit::{UnitBytes, make_unit};

/// The unit that was begun, the place of its next byte, and how many units are to be made behind it.
#[derive(Drop)]
pub(crate) struct Units {
    pub(crate) draws: Draws,
    pub(crate) running: Option<u8>,
    pub(crate) left: u32,
    pub(crate) unit: UnitBytes,
    pub(crate) at: usize,
}

impl Units {
    /// So many units, the generator's first state given.
    pub(crate) fn new(start: u32, units: u32) -> Units
        ensures rest { rest_of result ≡ units_from units None start }
        ensures within { IsWithin result }
    {
        Units {
            draws: Draws { state: start },
            running: None,
            left: units,
            unit: UnitBytes::new(),
            at: 0,
        }
    }

    /// The next byte, if one is to come.
    pub(crate) fn next(&mut self) -> Option<u8>
        requires { IsWithin self.old }
        ensures within { IsWithin self.new }
        ensures byte { IfSome result (λ byte. rest_of self.old ≡ byte ∷ rest_of self.new) }
        ensures end { IfNone result (rest_of self.old ≡ []) }
        ensures ended { IfNone result (rest_of self.new ≡ []) }
    {
        'units: while self.at == self.unit.len() {
            if self.left == 0 {
                return None;
            }
            self.begin_unit();
        }
        let byte = self.unit.as_slice()[self.at];
        self.at += 1;
        Some(byte)
    }

    /// Makes a unit, where the one before was used up.
    #[tactic(auto, using(crate::proofs::MadeLemmas::units_step))]
    fn begin_unit(&mut self)
        requires left { 0 < self.old.left }
        requires used { self.old.at ≡ array_vec_len self.old.unit }
        ensures rest { rest_of self.new ≡ rest_of self.old }
        ensures left { self.new.left < self.old.left }
        ensures within { IsWithin self.new }
    {
        self.unit.clear();
        self.running = make_unit(&mut self.draws, self.running, &mut self.unit);
        self.at = 0;
        self.left -= 1;
    }
}
