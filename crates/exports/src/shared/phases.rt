//! The phases of a block, as numbers of C.
ghost use Rattle.std.specs.Prelude.{◌≡◌};
ghost use Rattle.exports.specs.Blocks.{phase_number};

use volume::Phase;

pub const PHASE_FREE: u32 = 0;

pub const PHASE_OPEN: u32 = 1;

pub const PHASE_CLOSED: u32 = 2;

pub const PHASE_VICTIM: u32 = 3;

pub const PHASE_DRAINED: u32 = 4;

pub const PHASE_ERASING: u32 = 5;

pub const PHASE_RETIRED: u32 = 6;

// The number of a phase.
pub(crate) fn number_of(phase: Phase) -> u32
    ensures { result ≡ phase_number phase }
{
    match phase {
        Phase::Free => PHASE_FREE,
        Phase::Open => PHASE_OPEN,
        Phase::Closed => PHASE_CLOSED,
        Phase::Victim => PHASE_VICTIM,
        Phase::Drained => PHASE_DRAINED,
        Phase::Erasing => PHASE_ERASING,
        Phase::Retired => PHASE_RETIRED,
    }
}
