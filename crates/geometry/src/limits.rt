//! The limits of a device, and the faults of numbers that break them.
ghost use Rattle.std.specs.Prelude.{◌≡◌, ◌≤◌, Some, length};
ghost use Rattle.geometry.specs.Limits.{fault_name};

use std::error::Error;
use std::fmt;

/// The most LUNs of a device.
pub const MAX_LUNS: u32 = 8;
/// The fewest blocks of a device: one open, one closed and one spare.
pub const MIN_BLOCKS: u32 = 3;
/// The most blocks of a device, over all its LUNs.
pub const MAX_BLOCKS: u32 = 4096;
/// The most pages of a block.
pub const MAX_PAGES: u32 = 16_384;
/// The most 64-bit words of a page.
pub const MAX_WORDS: u32 = 512;
/// The most sectors.
pub const MAX_SECTORS: u32 = 1_048_576;
/// The most erase cycles of a block.
pub const MAX_ENDURANCE: u32 = 1_000_000;
/// The most host passes. With none the device is for one thread.
pub const MAX_HOSTS: u32 = 500;
/// The most brooms, which collect garbage while hosts read and write.
pub const MAX_BROOMS: u32 = 32;
/// The most words of a shared device's table: one for each sector, one for each block, and each page's words and stamp.
pub const MAX_TABLE_WORDS: u64 = 16_777_216;
/// How many bytes a word has.
pub const WORD_BYTES: u32 = 8;
/// How many workers a trace for one thread may name; their numbers are ignored.
pub const LONE_WORKERS: u32 = 500;

/// Why eight numbers make no device: the first fault that applies, in this order.
#[derive(Clone, Copy, Debug, PartialEq, Eq)]
pub enum GeometryFault {
    /// The LUNs are out of range.
    Luns,
    /// The blocks are out of range, or no multiple of the LUNs.
    Blocks,
    /// The pages of a block are out of range.
    Pages,
    /// The words of a page are out of range.
    Words,
    /// The sectors are out of range.
    Sectors,
    /// The endurance is out of range.
    Endurance,
    /// There are too many hosts or brooms, or brooms without a host.
    Passes,
    /// The table of all words would be too large.
    TooManyWords,
    /// The blocks have too little room for the sectors and for what collection needs.
    TooFewBlocks,
}

impl GeometryFault {
    /// The fault's name, as it is printed.
    pub fn name(self) -> &'static str
        ensures name { result.now ≡ fault_name self }
        ensures short { length result.now ≤ 12 }
    {
        match self {
            GeometryFault::Luns => "Luns",
            GeometryFault::Blocks => "Blocks",
            GeometryFault::Pages => "Pages",
            GeometryFault::Words => "Words",
            GeometryFault::Sectors => "Sectors",
            GeometryFault::Endurance => "Endurance",
            GeometryFault::Passes => "Passes",
            GeometryFault::TooManyWords => "TooManyWords",
            GeometryFault::TooFewBlocks => "TooFewBlocks",
        }
    }
}

impl fmt::Display for GeometryFault {
    ghost output = { λ fault. Some (fault_name fault) };

    fn fmt<W: fmt::Write>(&self, f: &mut fmt::Formatter<W>) -> fmt::Result {
        f.write_str(self.name())
    }
}

impl Error for GeometryFault {}
