ghost use Rattle.std.specs.Prelude.{◌≡◌, ◌<◌, ◌≤◌, ◌*◌, ◌^◌, length};
ghost use Rattle.durable.specs.Collecting.{HasCapacity};

use crate::found::Found;

/// A mount under way: the stamps of all pages are read in order, block by block. It gives the flash no command.
#[derive(Drop)]
pub struct Mount {
    // How many blocks are in use.
    pub(crate) blocks: u32,
    // How many are read: those, and bad ones and a reserve after them.
    pub(crate) read_blocks: u32,
    pub(crate) pages: u32,
    pub(crate) found: Found,
    pub(crate) next_number: u64,
    // The sectors that a page has a value of are marked.
    pub(crate) valued: Vec<u64>,
    // How many gaps each block has that is read.
    pub(crate) gaps: Vec<u32>,
    // The page whose stamp comes next, and how many pages before it in its block have versions.
    pub(crate) block: u32,
    pub(crate) page: u32,
    pub(crate) versions: u32,
    pub ghost few_sectors: { length found.items < 2 ^ 32 },
    pub ghost has_capacity: { HasCapacity (length found.items) blocks pages },
    pub ghost page_within: { page < pages },
    pub ghost block_within: { block ≤ read_blocks },
    pub ghost all_read: { blocks ≤ read_blocks },
    pub ghost valued_sized: { length found.items ≤ length valued.items * 64 },
    pub ghost gaps_sized: { length gaps.items ≡ read_blocks },
    pub ghost versions_within: { versions ≤ page },
}
