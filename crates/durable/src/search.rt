ghost use Rattle.std.specs.Prelude.{◌≡◌, ◌≢◌, ◌<◌, ◌≤◌, ◌+◌, ◌^◌, ℕ, length, None, Some, IfSome, slice_index_or};
ghost use Rattle.geometry.specs.declared.page_addr.PageAddr.{PageAddr as Addr};
ghost use Rattle.durable.specs.Collecting.{IsFree};

use crate::owners::Owners;
use geometry::PageAddr;
use packed_map::PackedMap;

/// The page after this one, if the block has one.
pub fn page_after(at: PageAddr, pages: u32) -> Option<PageAddr>
    requires { at.page < pages }
    ensures next { IfSome result
        (λ to. (to.block ≡ at.block) × (to.page ≡ at.page + 1) × (to.page < pages)) }
    ensures last { result ≡ None → at.page + 1 ≡ pages }
    ensures exact { at.page + 1 < pages
        → result ≡ Some (record { block = at.block; page = at.page + 1 }) }
{
    let page = at.page + 1;
    (page < pages).then_some(PageAddr {
        block: at.block,
        page,
    })
}

/// The block with the fewest live pages, beside one.
#[inline(never)]
pub fn fewest(counts: &[u32], avoided: u32) -> u32
    requires { length counts.now < 2 ^ 32 }
    ensures { (b : ℕ) → b < length counts.now → b ≢ avoided
        → (result < length counts.now) × (result ≢ avoided)
        × (slice_index_or counts.now result 0 ≤ slice_index_or counts.now b 0) }
{
    let mut best = avoided;
    let mut least = 0;
    for block in 0..counts.len() as u32 {
        let count = counts[block as usize];
        if block != avoided && (best == avoided || count < least) {
            least = count;
            best = block;
        }
    }
    best
}

/// A sector that is mapped to a block, and its page.
pub fn source(map: &PackedMap, owners: &Owners, block: u32) -> Option<(u32, PageAddr)>
    requires { length map.now.items < 2 ^ 32 }
    ensures found { IfSome result
        (λ found. (found.0 < length map.now.items)
        × (slice_index_or map.now.items found.0 None ≡ Some found.1)
        × (found.1.block ≡ block)) }
    ensures none { result ≡ None → IsFree map.now.items block }
{
    match owners.next_in(map, block) {
        Some(found) => Some(found),
        None => source_in_map(map, block),
    }
}

/// The same, by the map alone.
#[inline(never)]
pub fn source_in_map(map: &PackedMap, block: u32) -> Option<(u32, PageAddr)>
    requires { length map.now.items < 2 ^ 32 }
    ensures found { IfSome result
        (λ found. (found.0 < length map.now.items)
        × (slice_index_or map.now.items found.0 None ≡ Some found.1)
        × (found.1.block ≡ block)) }
    ensures none { result ≡ None → IsFree map.now.items block }
{
    for s in 0..map.len() {
        if let Some(at) = map.get(s) {
            if at.block == block {
                return Some((s as u32, at));
            }
        }
    }
    None
}
