//! How many blocks of a device are in each phase.
ghost use Rattle.std.specs.Prelude.{◌≡◌, ◌<◌};
ghost use Rattle.broom.specs.Loading.{counted_one};

use geometry::{Phase, PinWord};

/// The blocks that were found in each phase, and all erases that they have had.
#[derive(Clone, Copy, Debug, PartialEq, Eq)]
pub struct BlockCounts {
    pub erases: u64,
    pub free: u32,
    pub open: u32,
    pub closed: u32,
    pub victims: u32,
    pub drained: u32,
    pub erasing: u32,
    pub retired: u32,
}

impl BlockCounts {
    ghost use Rattle.std.specs.Prelude.{[], ◌+◌, ◌≤◌};
    ghost use Rattle.broom.specs.Loading.{FitsOneMore, counts_in};

    pub(crate) fn none() -> BlockCounts
        ensures { result ≡ counts_in [] }
    {
        BlockCounts {
            erases: 0,
            free: 0,
            open: 0,
            closed: 0,
            victims: 0,
            drained: 0,
            erasing: 0,
            retired: 0,
        }
    }

    // Counts one block more.
    pub(crate) fn add(&mut self, state: PinWord)
        requires { FitsOneMore state self.old }
        ensures { self.new ≡ counted_one state self.old }
    {
        self.erases += state.generation as u64;
        match state.phase {
            Phase::Free => self.free += 1,
            Phase::Open => self.open += 1,
            Phase::Closed => self.closed += 1,
            Phase::Victim => self.victims += 1,
            Phase::Drained => self.drained += 1,
            Phase::Erasing => self.erasing += 1,
            Phase::Retired => {
                self.erases += 1;
                self.retired += 1;
            }
        }
    }
}
