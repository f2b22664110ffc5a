ghost use Rattle.std.specs.Prelude.{◌≡◌, ◌<◌, ◌≤◌, ◌+◌, ◌*◌, ◌/◌, length, replicate, slice_set, slice_index_or, None, Some, IfOk};
ghost use Rattle.packed_map.specs.Entries.{IsPackable};
ghost use Rattle.packed_map.specs.Finding.{Finds};

use crate::entry::{pack, unpack};
use crate::numbers::SparseNumbers;
use geometry::PageAddr;
use std::alloc::{AllocError, Global};
use std::marker::Model;

/// The page of each sector, or none.
#[derive(Drop)]
pub struct PackedMap {
    entries: SparseNumbers,
}

// Clauses see the list of the entries.
impl Model for PackedMap {
    ghost use Rattle.std.specs.Prelude.{map};
    ghost use Rattle.packed_map.specs.Entries.{Entries, entry_of};

    ghost Value = { Entries };

    ghost view = { λ packed. record { items = map entry_of packed.entries } };
}

impl PackedMap {
    /// No sector has a page.
    pub fn new(alloc: Global, sectors: u32) -> Result<Self, AllocError>
        ensures { IfOk result (λ packed. packed.items ≡ replicate sectors None) }
    {
        Ok(PackedMap {
            entries: SparseNumbers::new(alloc, sectors)?,
        })
    }

    /// How many sectors there are.
    pub fn len(&self) -> usize
        ensures { result ≡ length self.now.items }
    {
        self.entries.len()
    }

    /// The page of a sector.
    pub fn get(&self, sector: usize) -> Option<PageAddr>
        requires { sector < length self.now.items }
        ensures entry { result ≡ slice_index_or self.now.items sector None }
        ensures packable { IsPackable result }
    {
        unpack(self.entries.get(sector))
    }

    /// One of these sectors that has a page. They are in one group of 256, which is 0 to 255, 256 to 511 and so on.
    pub fn find(&self, first: usize, end: usize, at: PageAddr) -> Option<usize>
        requires within { (first < end) × (end ≤ length self.now.items) }
        requires group { end ≤ first / 256 * 256 + 256 }
        requires packable { IsPackable (Some at) }
        ensures { Finds (λ s. slice_index_or self.now.items s None ≡ Some at) first end result }
    {
        self.entries.find(first, end, pack(Some(at)))
    }

    /// Maps a sector to a page, or to none.
    pub fn set(&mut self, sector: usize, entry: Option<PageAddr>)
        requires sector { sector < length self.old.items }
        requires packable { IsPackable entry }
        ensures { self.new.items ≡ slice_set self.old.items sector entry }
    {
        self.entries.set(sector, pack(entry));
    }
}
