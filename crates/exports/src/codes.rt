//! The codes that a call returns, and those of the faults of a geometry.
ghost use Rattle.std.specs.Prelude.{◌≡◌, ◌<◌};
ghost use Rattle.exports.specs.Codes.{was_code, fault_code};

use geometry::{GeometryFault, Was};

/// The call succeeded; for a call that reports what the sector was: it was empty.
pub const DONE: u32 = 0;
/// The sector was written.
pub const WRITTEN: u32 = 1;
/// The handle is closed.
pub const CLOSED: u32 = handles::CLOSED;
/// The device has no such sector.
pub const NO_SECTOR: u32 = 3;
/// The buffer is not as long as a page.
pub const NOT_A_PAGE: u32 = 4;
/// No page is left for a write, and none can be reclaimed.
pub const WORN_OUT: u32 = 5;
/// The heap has no room for the device.
pub const NO_MEMORY: u32 = 6;
/// No block is free for a write.
pub const NO_BLOCK: u32 = 7;
/// A handle is open already.
pub const ALREADY_OPEN: u32 = 8;
/// The handle is of another kind.
pub const WRONG_KIND: u32 = 9;
/// The device has no such block, or a page no such word.
pub const NO_SUCH_BLOCK: u32 = 10;
/// A drain has nothing to gain.
pub const NOTHING_TO_GAIN: u32 = 20;
/// A broom has no spare to drain into, or a restock finds no block for one.
pub const NO_SPARE: u32 = 21;
/// The state of a drain's block changed in between.
pub const LOST: u32 = 22;
/// An erase was the block's last.
pub const RETIRED: u32 = 23;
/// The block of an erase has readers.
pub const PINNED: u32 = 24;
/// The block of an erase isn't drained.
pub const STALE: u32 = 25;
/// An erased block is the broom's spare.
pub const KEPT: u32 = 26;
/// No block is free, and none can become free.
pub const EXHAUSTED: u32 = 27;

/// The first number of a device that is out of its limits; each fault has its own code.
pub const BAD_LUNS: u32 = 101;

pub const BAD_BLOCKS: u32 = 102;

pub const BAD_PAGES: u32 = 103;

pub const BAD_WORDS: u32 = 104;

pub const BAD_SECTORS: u32 = 105;

pub const BAD_ENDURANCE: u32 = 106;
/// A device has too many hosts or brooms, or a shared one no host.
pub const BAD_SEATS: u32 = 107;

pub const TOO_MANY_WORDS: u32 = 108;

pub const TOO_FEW_BLOCKS: u32 = 109;

// The code of what a sector was.
pub(crate) fn code_of(was: Was) -> u32
    ensures { result ≡ was_code was }
{
    match was {
        Was::Empty => DONE,
        Was::Written => WRITTEN,
    }
}

// The code of a fault of a geometry.
pub(crate) fn code_of_fault(fault: GeometryFault) -> u32
    ensures code { result ≡ fault_code fault }
    ensures over { ALREADY_OPEN < result }
{
    match fault {
        GeometryFault::Luns => BAD_LUNS,
        GeometryFault::Blocks => BAD_BLOCKS,
        GeometryFault::Pages => BAD_PAGES,
        GeometryFault::Words => BAD_WORDS,
        GeometryFault::Sectors => BAD_SECTORS,
        GeometryFault::Endurance => BAD_ENDURANCE,
        GeometryFault::Passes => BAD_SEATS,
        GeometryFault::TooManyWords => TOO_MANY_WORDS,
        GeometryFault::TooFewBlocks => TOO_FEW_BLOCKS,
    }
}
