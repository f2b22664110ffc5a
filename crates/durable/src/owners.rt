ghost use Rattle.std.specs.Prelude.{◌≡◌, ◌<◌, ◌^◌, length, None, Some, IfSome, slice_index_or};
ghost use Rattle.durable.specs.Updates.{LiesWithin};
ghost use Rattle.packed_map.specs.Entries.{IsPackable};

use crate::cleaning::Victim;
use crate::extent::Extent;
use crate::hints::Hints;
use crate::ranking::Counts;
use geometry::PageAddr;
use packed_map::PackedMap;
use std::alloc::{AllocError, Global};

// How far from a page's hint a sector is looked for if the page was programmed for several.
const REACH: u32 = 4096;

// How many blocks a map may tell apart in four bytes a sector; with more it takes five.
const LOW_BLOCKS: u32 = 262_144;

/// A sector that each page has, as far as it is known. The map says which of the sectors of the page's hint it is.
#[derive(Drop)]
pub struct Owners {
    pages: u32,
    hints: Hints,
    // The sectors that the block that was looked through last had then, the first page's at the end, and how many of them are left.
    live: Vec<u32>,
    left: usize,
}

impl Owners {
    /// The sectors that a map has in these blocks.
    pub fn new(
        alloc: Global,
        map: &PackedMap,
        blocks: u32,
        pages: u32,
    ) -> Result<Owners, AllocError>
        requires { length map.now.items < 2 ^ 32 }
    {
        let count = (blocks as usize).saturating_mul(pages as usize);
        let most_bits = if blocks <= LOW_BLOCKS { 32 } else { 24 };
        let mut owners = Owners {
            pages,
            hints: Hints::new(alloc, count, map.len(), most_bits)?,
            live: vec![in alloc; 0; pages as usize + 1]?,
            left: 0,
        };
        for s in 0..map.len() {
            if let Some(at) = map.get(s) {
                owners.share(at, s as u32);
            }
        }
        Ok(owners)
    }

    /// A page was programmed for these sectors, which the map has elsewhere as yet.
    pub fn programmed(&mut self, map: &PackedMap, at: PageAddr, extent: Extent)
        requires few { length map.now.items < 2 ^ 32 }
        requires within { LiesWithin (length map.now.items) extent }
    {
        if self.hints.forgets() {
            for sector in extent.first..extent.first + extent.count {
                if let Some(from) = map.get(sector as usize) {
                    self.leave(from);
                }
            }
        }
        let page = self.index(at);
        self.hints.set(page, extent.first, extent.count <= 1);
    }

    // A sector has left a page, which has no other if it was alone.
    fn leave(&mut self, from: PageAddr) {
        let page = self.index(from);
        if self.hints.get(page).is_some_and(|hint| hint.is_alone) {
            self.hints.forget(page);
        }
    }

    /// A sector was copied from a page to another.
    pub fn copied(&mut self, map: &PackedMap, sector: u32, from: PageAddr, to: PageAddr) {
        self.left = self.left.saturating_sub(1);
        let hint = self.hints.get(self.index(from));
        if hint.is_some_and(|hint| !hint.is_alone) {
            if let Some(other) = near(map, from, sector) {
                self.put(self.left, other);
                self.left = self.left.saturating_add(1);
            }
        }
        let page = self.index(to);
        self.hints.set(page, sector, true);
    }

    /// Looks for the live sectors of a victim, if it is a new one. Where pages aren't forgotten, which are live can't be foreseen, so no branch depends
    /// on it.
    pub fn prepare(&mut self, map: &PackedMap, counts: &Counts, old: Victim, new: Victim)
        requires { length map.now.items < 2 ^ 32 }
    {
        let block = new.block;
        if block == old.block {
            return;
        }
        self.left = 0;
        if (block as usize) >= counts.len() || counts.get(block) == 0 {
            return;
        }
        self.left = if self.hints.size() as usize >= map.len() {
            self.collect(map, block)
        } else {
            self.collect_by_hints(map, block)
        };
    }

    // Collects the sectors of a block from the whole map, and counts them.
    fn collect(&mut self, map: &PackedMap, block: u32) -> usize
        requires { length map.now.items < 2 ^ 32 }
    {
        let mut left = 0;
        for s in 0..map.len() {
            if map.get(s).is_some_and(|at| at.block == block) {
                self.put(left, s as u32);
                left = left.wrapping_add(1);
            }
        }
        left
    }

    // Collects the sectors of a block's pages, and counts them.
    fn collect_by_hints(&mut self, map: &PackedMap, block: u32) -> usize
        requires { length map.now.items < 2 ^ 32 }
    {
        let size = self.hints.size();
        let first = self.index(PageAddr { block, page: 0 });
        let mut left = 0;
        for page in (0..self.pages).rev() {
            let at = PageAddr { block, page };
            let Some(hint) = self.hints.get(first.wrapping_add(page as usize)) else {
                continue;
            };
            let (sector, count) = owner(map, at, hint.first, size);
            self.put(left, sector);
            left = left.wrapping_add(count as usize);
            if !hint.is_alone && count == 0 {
                if let Some(sector) = near(map, at, hint.first) {
                    self.put(left, sector);
                    left = left.wrapping_add(1);
                }
            }
        }
        left
    }

    /// A sector that is mapped to the block that was looked through, and its page.
    pub fn next_in(&self, map: &PackedMap, block: u32) -> Option<(u32, PageAddr)>
        ensures { IfSome result
            (λ found. (found.0 < length map.now.items)
            × (slice_index_or map.now.items found.0 None ≡ Some found.1)
            × (found.1.block ≡ block)) }
    {
        for i in (0..self.left.min(self.live.len())).rev() {
            let sector = self.live[i];
            if (sector as usize) < map.len() {
                if let Some(at) = map.get(sector as usize) {
                    if at.block == block {
                        return Some((sector, at));
                    }
                }
            }
        }
        None
    }

    fn put(&mut self, place: usize, sector: u32) {
        if let Some(live) = self.live.get_mut(place) {
            *live = sector;
        }
    }

    // A page has one sector more.
    fn share(&mut self, at: PageAddr, sector: u32) {
        let page = self.index(at);
        let is_alone = self.hints.get(page).is_none();
        self.hints.set(page, sector, is_alone);
    }

    fn index(&self, at: PageAddr) -> usize {
        (at.block as usize)
            .saturating_mul(self.pages as usize)
            .saturating_add(at.page as usize)
    }
}

// The sector that has a page, of so many from a first one on, and 1; or a number and 0.
fn owner(map: &PackedMap, at: PageAddr, first: u32, size: u32) -> (u32, u32)
    requires few { length map.now.items < 2 ^ 32 }
    requires packable { IsPackable (Some at) }
{
    if size == 1 {
        return (first, has(map, at, first));
    }
    let mut found = (0, 0);
    let mut from = first as usize;
    let end = from.saturating_add(size as usize).min(map.len());
    for _ in 0..size / 256 + 1 {
        let last = (from / 256 * 256).saturating_add(256).min(end);
        if from < last {
            if let Some(sector) = map.find(from, last, at) {
                found = (sector as u32, 1);
            }
            from = last;
        }
    }
    found
}

// 1 if a sector has a page, or 0.
fn has(map: &PackedMap, at: PageAddr, sector: u32) -> u32 {
    if sector as usize >= map.len() {
        return 0;
    }
    map.get(sector as usize).map_or(0, |found| {
        u32::from(found.block == at.block) & u32::from(found.page == at.page)
    })
}

// A sector near to one that has a page.
#[inline(never)]
fn near(map: &PackedMap, at: PageAddr, sector: u32) -> Option<u32> {
    for distance in 0..REACH {
        for other in [sector.wrapping_add(distance), sector.wrapping_sub(distance)] {
            if has(map, at, other) == 1 {
                return Some(other);
            }
        }
    }
    None
}
