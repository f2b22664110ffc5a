//! Numbers that are drawn from a seed.
ghost use Rattle.std.specs.Prelude.{◌<◌};

/// A linear congruential generator with the factor and the increment of Knuth's MMIX; it returns the upper bits.
#[derive(Clone, Copy)]
pub(crate) struct Draws {
    state: u64,
}

impl Draws {
    pub(crate) fn new(seed: u64) -> Draws {
        Draws { state: seed }
    }

    pub(crate) fn below(&mut self, limit: u32) -> u32
        requires { 0 < limit }
        ensures { result < limit }
    {
        self.state = self
            .state
            .wrapping_mul(6364136223846793005)
            .wrapping_add(1442695040888963407);
        (self.state >> 33) as u32 % limit
    }

    /// How many calls are made at a gate: mostly few, and sometimes enough to drain and erase blocks.
    pub(crate) fn burst(&mut self) -> u32 {
        match self.below(8) {
            0 => 10,
            1 | 2 => 2,
            3 | 4 => 1,
            _ => 0,
        }
    }
}
