//! The generator of pseudo-random numbers.

ghost use Rattle.std.specs.Prelude.{◌≡◌, ◌<◌};
ghost use Rattle.mb_make.specs.Generated.{drawn, next_state};

/// A linear congruential generator of 31 bits.
#[derive(Drop)]
pub(crate) struct Draws {
    pub(crate) state: u32,
}

impl Draws {
    /// Draws a number below a bound. It is made of the state's upper bits, since the lowest repeat soon.
    pub(crate) fn below(&mut self, bound: u32) -> u32
        requires { 0 < bound }
        ensures drawn { result ≡ drawn bound self.old.state }
        ensures below { result < bound }
        ensures state { self.new.state ≡ next_state self.old.state }
    {
        let state = (u64::from(self.state) * 1_103_515_245 + 12_345) % (1 << 31);
        self.state = state as u32;
        self.state / 65_536 % bound
    }
}
