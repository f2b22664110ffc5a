ghost use Rattle.std.specs.Prelude.{◌≡◌, ◌<◌, ◌≤◌, ◌+◌, ◌^◌, ℕ, length, IfOk, None, Some, slice_set, slice_index_or};
ghost use Rattle.durable.specs.Collecting.{AreLiveCounts, IsFree, MapsAll, weight};
ghost use Rattle.durable.specs.Retiring.{Renumbers};
ghost use Rattle.durable.specs.Updates.{LiesWithin};
ghost use Rattle.packed_map.specs.Entries.{IsPackable};

use crate::extent::Extent;
use crate::ranking::Counts;
use geometry::PageAddr;
use packed_map::PackedMap;
use std::alloc::{AllocError, Global};

// Counts a sector that is mapped to a block, if the map has an entry for it.
fn count(counts: &mut Counts, entry: Option<PageAddr>)
    requires { (b : ℕ) → b < length counts.old
        → slice_index_or counts.old b 0 + weight b entry < 2 ^ 32 }
    ensures size { length counts.new ≡ length counts.old }
    ensures counts { (b : ℕ) → b < length counts.old
        → slice_index_or counts.new b 0 ≡ slice_index_or counts.old b 0 + weight b entry }
{
    if let Some(at) = entry {
        if (at.block as usize) < counts.len() {
            counts.add(at.block);
        }
    }
}

// The opposite of `count`.
fn discount(counts: &mut Counts, entry: Option<PageAddr>)
    requires { (b : ℕ) → b < length counts.old → weight b entry ≤ slice_index_or counts.old b 0 }
    ensures size { length counts.new ≡ length counts.old }
    ensures counts { (b : ℕ) → b < length counts.old
        → slice_index_or counts.new b 0 + weight b entry ≡ slice_index_or counts.old b 0 }
{
    if let Some(at) = entry {
        if (at.block as usize) < counts.len() {
            counts.take(at.block);
        }
    }
}

/// Maps a sector to a page, from what it is mapped to, and counts the live pages anew.
#[inline(always)]
pub fn remap(
    map: &mut PackedMap,
    counts: &mut Counts,
    sector: u32,
    from: Option<PageAddr>,
    to: PageAddr,
)
    requires sector { sector < length map.old.items }
    requires few { length map.old.items < 2 ^ 32 }
    requires from { from ≡ slice_index_or map.old.items sector None }
    requires packable { IsPackable (Some to) }
    requires counted { AreLiveCounts counts.old map.old.items }
    ensures map { map.new.items ≡ slice_set map.old.items sector (Some to) }
    ensures size { length counts.new ≡ length counts.old }
    ensures counted { AreLiveCounts counts.new map.new.items }
{
    discount(counts, from);
    map.set(sector as usize, Some(to));
    count(counts, Some(to));
}

/// Maps the sectors of an extent to a page, and counts the live pages anew.
pub fn remap_all(map: &mut PackedMap, counts: &mut Counts, extent: Extent, to: PageAddr)
    requires within { LiesWithin (length map.old.items) extent }
    requires few { length map.old.items < 2 ^ 32 }
    requires packable { IsPackable (Some to) }
    requires counted { AreLiveCounts counts.old map.old.items }
    ensures map { MapsAll map.old.items map.new.items extent to }
    ensures size { length counts.new ≡ length counts.old }
    ensures counted { AreLiveCounts counts.new map.new.items }
{
    for sector in extent.first..extent.first + extent.count {
        let from = map.get(sector as usize);
        remap(map, counts, sector, from, to);
    }
}

/// Gives each sector of a block the same page of another block, which no sector has, and counts the live pages anew.
pub fn renumber(map: &mut PackedMap, counts: &mut Counts, from: u32, to: u32)
    requires few { length map.old.items < 2 ^ 32 }
    requires to { to + 1 < 2 ^ 32 }
    requires free { IsFree map.old.items to }
    requires counted { AreLiveCounts counts.old map.old.items }
    ensures map { Renumbers map.old.items map.new.items from to }
    ensures size { length counts.new ≡ length counts.old }
    ensures counted { AreLiveCounts counts.new map.new.items }
{
    for s in 0..map.len() {
        if let Some(at) = map.get(s) {
            if at.block == from {
                let page = at.page;
                remap(
                    map,
                    counts,
                    s as u32,
                    Some(at),
                    PageAddr { block: to, page },
                );
            }
        }
    }
}

/// How many live pages each block has.
pub fn counts_of(
    alloc: Global,
    map: &PackedMap,
    blocks: u32,
    pages: u32,
) -> Result<Counts, AllocError>
    requires { length map.now.items < 2 ^ 32 }
    ensures size { IfOk result (λ counts. length counts ≡ blocks) }
    ensures counted { IfOk result (λ counts. AreLiveCounts counts map.now.items) }
{
    let mut counts = Counts::new(alloc, blocks, pages)?;
    for s in 0..map.len() {
        count(&mut counts, map.get(s));
    }
    Ok(counts)
}
