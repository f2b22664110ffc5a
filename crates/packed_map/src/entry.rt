ghost use Rattle.std.specs.Prelude.{◌≡◌, ◌<◌, ◌+◌, ◌^◌};
ghost use Rattle.packed_map.specs.Entries.{entry_of, IsPackable};

use geometry::PageAddr;

// What a page, a block and 16,384 pages more count in the bits of an entry. Those of a device with at most 2^18 blocks of 16,384 pages are below 2^32.
const PAGES: u32 = 16_384;

const BLOCK: u64 = 16_384;

const BLOCKS: u64 = 4_294_967_296;

const MORE_PAGES: u64 = 70_368_744_177_664;

/// The bits of an entry.
pub fn pack(entry: Option<PageAddr>) -> u64
    requires { IsPackable entry }
    ensures { entry_of result ≡ entry }
{
    match entry {
        Some(at) => u64::from(at.page / PAGES) * MORE_PAGES
            + u64::from(at.block) * BLOCK
            + u64::from(at.page % PAGES)
            + 1,
        None => 0,
    }
}

/// The entry that these bits stand for.
pub fn unpack(bits: u64) -> Option<PageAddr>
    ensures entry { result ≡ entry_of bits }
    ensures packable { IsPackable result }
{
    if bits == 0 {
        return None;
    }
    let place = bits - 1;
    Some(PageAddr {
        block: (place / BLOCK % BLOCKS) as u32,
        page: (place / MORE_PAGES) as u32 * PAGES + (place % BLOCK) as u32,
    })
}
