ghost use Rattle.std.specs.Prelude.{◌≡◌, ℕ, ◌≢◌, ◌+◌, ◌^◌, ◌<◌, ◌==◌, true, false, IfOk, length, slice_index, slice_set, None, Some, IfNone, IfSome};
ghost use Rattle.geometry.specs.Geometry.{blocks_of, pages_of, page_bytes_of, endurance_of, sectors_of, lun_of};
ghost use Rattle.geometry.specs.Sectors.{sector_at, was_of, Answers};
ghost use Rattle.die.specs.Die.{geometry_of as die_geometry_of, block_of};
ghost use Rattle.ftl_one.specs.Entries.{IsMapped, Recounts, was_by};

use crate::copy::copy_page;
use crate::map_entry::MapEntry;
use die::Die;
use geometry::{Geometry, Got, PageAddr, Was};
use std::alloc::{AllocError, Global};
use std::mem;

/// The pages of a die, and the map from sectors to their current pages.
#[derive(Drop)]
pub struct Store {
    die: Die,
    // The current page of each sector.
    current: Vec<MapEntry>,
    // The live pages of each block.
    live: Vec<u16>,
    // Room for a page on its way to another LUN.
    page: Vec<u8>,
    ghost page_sized: { length page.items ≡ page_bytes_of (die_geometry_of die) },
    ghost mapped: { IsMapped (page_bytes_of (die_geometry_of die)) (blocks_of (die_geometry_of die)) (sectors_of (die_geometry_of die))
        (block_of die) current.items live.items },
}

impl Store {
    ghost use Rattle.ftl_one.specs.Store.{geometry_of, array_of, entries_of, erases_of, retired_of, counts_of, IsNew, KeepsBlocks, HasRoom};
    ghost use Rattle.ftl_one.specs.Store.{HasRoomFor, live_at, sector_of, Forgets, Puts, Relocates, Clears, ErasesBlock};
    ghost use Rattle.ftl_one.specs.Entries.{live_count};

    /// A store with every sector empty and no page programmed.
    pub fn new(alloc: Global, geometry: &Geometry) -> Result<Store, AllocError>
        ensures { IfOk result (λ store. IsNew store geometry.now) }
    {
        Ok(Store {
            die: Die::new(alloc, geometry)?,
            current: vec![in alloc; MapEntry::none(); geometry.sectors() as usize]?,
            live: vec![in alloc; 0; geometry.blocks() as usize]?,
            page: vec![in alloc; 0; geometry.page_bytes()]?,
        })
    }

    pub fn geometry(&self) -> Geometry
        ensures { result ≡ geometry_of self.now }
    {
        self.die.geometry()
    }

    /// The counts of live pages, block by block.
    #[tactic(auto, unfolding(crate::specs::Store::counts_of))]
    pub fn live(&self) -> &[u16]
        ensures value { result.now ≡ counts_of self.now }
        ensures size { length result.now ≡ blocks_of (geometry_of self.now) }
    {
        &self.live
    }

    /// How many erase commands a block has had.
    #[tactic(auto, unfolding(crate::specs::Store::erases_of))]
    pub fn erases(&self, block: u32) -> u32
        requires { block < blocks_of (geometry_of self.now) }
        ensures { result ≡ erases_of self.now block }
    {
        self.die.erases(block)
    }

    pub fn read(&self, sector: u32, out: &mut [u8]) -> Got
        requires sector { sector < sectors_of (geometry_of self.now) }
        requires page { length out.old ≡ page_bytes_of (geometry_of self.now) }
        ensures { Answers (sector_at (array_of self.now) sector) result out.old out.new }
    {
        match self.current[sector as usize].page() {
            None => Got::Empty,
            Some(at) => {
                self.die.read(at, out);
                Got::Data
            }
        }
    }

    pub fn page(&self, sector: u32) -> Option<&[u8]>
        requires { sector < sectors_of (geometry_of self.now) }
        ensures some { IfSome result
            (λ page. sector_at (array_of self.now) sector ≡ Some page.now) }
        ensures none { IfNone result (sector_at (array_of self.now) sector ≡ None) }
        ensures size { IfSome result
            (λ page. length page.now ≡ page_bytes_of (geometry_of self.now)) }
    {
        let at = self.current[sector as usize].page()?;
        Some(self.die.page(at))
    }

    /// Whether a sector is written.
    pub fn was(&self, sector: u32) -> Was
        requires { sector < sectors_of (geometry_of self.now) }
        ensures { result ≡ was_of (sector_at (array_of self.now) sector) }
    {
        answer_of(self.current[sector as usize].page())
    }

    /// Empties a sector, and returns what it was.
    #[tactic(auto, unfolding(crate::specs::Store::erases_of, crate::specs::Store::retired_of))]
    pub fn forget(&mut self, sector: u32) -> Was
        requires { sector < sectors_of (geometry_of self.old) }
        ensures answer { result ≡ was_of (sector_at (array_of self.old) sector) }
        ensures sectors { array_of self.new ≡ slice_set (array_of self.old) sector None }
        ensures entries { (b : ℕ) → b < blocks_of (geometry_of self.old)
            → Forgets self.old self.new sector b }
        ensures keeps { KeepsBlocks self.old self.new }
    {
        let entry = mem::replace(&mut self.current[sector as usize], MapEntry::none());
        let was = entry.page();
        recount(&mut self.live, was, None);
        answer_of(was)
    }

    /// Programs the next page of a block for a sector, and returns what the sector was.
    pub fn put(&mut self, block: u32, sector: u32, bytes: &[u8]) -> Was
        requires room { HasRoom self.old block }
        requires sector { sector < sectors_of (geometry_of self.old) }
        requires page { length bytes.now ≡ page_bytes_of (geometry_of self.old) }
        ensures answer { result ≡ was_of (sector_at (array_of self.old) sector) }
        ensures sectors { array_of self.new
            ≡ slice_set (array_of self.old) sector (Some bytes.now) }
        ensures puts { Puts self.old self.new block sector }
    {
        let at = self.next_page(block);
        self.die.program(at, bytes, sector);
        let entry = mem::replace(&mut self.current[sector as usize], MapEntry::of(at));
        let was = entry.page();
        recount(&mut self.live, was, Some(at));
        answer_of(was)
    }

    // The address of the page that a block programs next.
    fn next_page(&self, block: u32) -> PageAddr
        requires { block < blocks_of (geometry_of self.now) }
        ensures block { result.block ≡ block }
        ensures page { result.page ≡ length (entries_of self.now block) }
    {
        PageAddr {
            block,
            page: self.die.next(block),
        }
    }

    // Whether a programmed page is its sector's current one, by its stamp.
    fn is_live(&self, at: PageAddr) -> bool
        requires block { at.block < blocks_of (geometry_of self.now) }
        requires usable { retired_of self.now at.block ≡ false }
        requires page { at.page < length (entries_of self.now at.block) }
        ensures { result ≡ live_at self.now at }
    {
        self.current[self.die.stamp(at) as usize].page() == Some(at)
    }

    /// Whether two blocks are on one LUN.
    pub fn is_one_lun(&self, first: u32, second: u32) -> bool
        requires first { first < blocks_of (geometry_of self.now) }
        requires second { second < blocks_of (geometry_of self.now) }
        ensures { result
            ≡ (lun_of (geometry_of self.now) first == lun_of (geometry_of self.now) second) }
    {
        let geometry = self.die.geometry();
        geometry.lun_of(first) == geometry.lun_of(second)
    }

    // Copies a live page behind the others of another block, which has the sector's current page then.
    fn relocate(&mut self, source: PageAddr, block: u32, one_lun: bool)
        requires source_block { source.block < blocks_of (geometry_of self.old) }
        requires source_usable { retired_of self.old source.block ≡ false }
        requires source_page { source.page < length (entries_of self.old source.block) }
        requires live { live_at self.old source ≡ true }
        requires room { HasRoom self.old block }
        requires apart { source.block ≢ block }
        requires one_lun { one_lun
            ≡ (lun_of (geometry_of self.old) source.block == lun_of (geometry_of self.old) block) }
        ensures { Relocates self.old self.new source block (sector_of self.old source) }
    {
        let to = self.next_page(block);
        let sector = self.die.stamp(source) as u32;
        copy_page(&mut self.die, &mut self.page, sector, source, to, one_lun);
        self.current[sector as usize] = MapEntry::of(to);
        recount(&mut self.live, Some(source), Some(to));
    }

    /// Copies the live pages of a block to the end of another, in their order, and returns how many.
    pub fn clear(&mut self, victim: u32, spare: u32) -> u32
        requires victim { victim < blocks_of (geometry_of self.old) }
        requires usable { retired_of self.old victim ≡ false }
        requires room { HasRoomFor self.old spare (live_count (entries_of self.old victim)) }
        requires apart { victim ≢ spare }
        ensures copies { result ≡ live_count (entries_of self.old victim) }
        ensures clears { Clears self.old self.new victim spare }
    {
        let one_lun = self.is_one_lun(victim, spare);
        let mut copies = 0;
        for page in 0..self.die.next(victim) {
            let source = PageAddr {
                block: victim,
                page,
            };
            if self.is_live(source) {
                self.relocate(source, spare, one_lun);
                copies += 1;
            }
        }
        copies
    }

    /// Erases a block that has no live page, and returns whether the erase has failed.
    pub fn erase(&mut self, block: u32) -> bool
        requires block { block < blocks_of (geometry_of self.old) }
        requires usable { retired_of self.old block ≡ false }
        requires dead { live_count (entries_of self.old block) ≡ 0 }
        ensures failed { result
            ≡ (erases_of self.old block + 1 == endurance_of (geometry_of self.old)) }
        ensures erases { ErasesBlock self.old self.new block }
    {
        self.die.erase(block) == 1
    }

    /// Whether all pages of a block are programmed.
    pub fn is_full(&self, block: u32) -> bool
        requires { block < blocks_of (geometry_of self.now) }
        ensures { result ≡ (length (entries_of self.now block) == pages_of (geometry_of self.now)) }
    {
        self.die.next(block) == self.die.geometry().pages()
    }
}

// What a sector was whose current page this is.
fn answer_of(page: Option<PageAddr>) -> Was
    ensures { result ≡ was_by page }
{
    match page {
        None => Was::Empty,
        Some(_) => Was::Written,
    }
}

// Counts one page as dead and one as live, if there are such.
fn recount(counts: &mut [u16], dead: Option<PageAddr>, live: Option<PageAddr>)
    requires dead_within { IfSome dead (λ at. at.block < length counts.old) }
    requires counted { IfSome dead (λ at. 0 < slice_index counts.old at.block) }
    requires live_within { IfSome live (λ at. at.block < length counts.old) }
    requires room { IfSome live (λ at. slice_index counts.old at.block + 1 < 2 ^ 16) }
    ensures { Recounts counts.old counts.new dead live }
{
    if let Some(at) = dead {
        counts[at.block as usize] -= 1;
    }
    if let Some(at) = live {
        counts[at.block as usize] += 1;
    }
}
