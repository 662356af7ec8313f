//! Numbers that look random.

ghost use Rattle.std.specs.Prelude.{◌<◌};

/// Marsaglia's generator of 64 bits with the shifts 13, 7 and 17 (Xorshift RNGs, 2003), from a seed
/// that stays the same.
#[derive(Drop)]
pub(crate) struct Draws {
    state: u64,
}

impl Draws {
    pub(crate) fn new() -> Draws {
        Draws {
            state: 88_172_645_463_325_252,
        }
    }

    /// The next number.
    pub(crate) fn draw(&mut self) -> u64 {
        self.state ^= self.state << 13;
        self.state ^= self.state >> 7;
        self.state ^= self.state << 17;
        self.state
    }

    /// The next number's remainder.
    pub(crate) fn below(&mut self, bound: u32) -> u32
        requires { 0 < bound }
        ensures { result < bound }
    {
        (self.draw() % u64::from(bound)) as u32
    }
}
