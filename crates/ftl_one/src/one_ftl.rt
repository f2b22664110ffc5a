ghost use Rattle.std.specs.Prelude.{◌≡◌, ℕ, ◌+◌, ◌<◌, ◌≤◌, ◌==◌, if◌then◌else◌, false, length, sum_by, None, Some};
ghost use Rattle.geometry.specs.Geometry.{blocks_of, pages_of, lun_of, sectors_of, hosts_of};
ghost use Rattle.ftl_one.specs.{Store.geometry_of as store_geometry_of, Store.entries_of, Store.retired_of, Stock.is_free, Lawful.blocks_in, Lawful.weight};
ghost use Rattle.ftl_one.specs.Lawful.{IsLawful, KnowsSpare, role_in};

use crate::collection::Collection;
use crate::fewest::fewest_beside;
use crate::role::Role;
use crate::roles::{hand_over, lowest_free, next_spare};
use crate::store::Store;
use geometry::{Geometry, Got, Was};
use std::alloc::{AllocError, Global};
use thiserror::Error;

/// No page is left for a write, and none can be reclaimed.
#[derive(Clone, Copy, Debug, PartialEq, Eq, Error)]
#[error("no page is left to write")]
pub struct WornOut;

/// Why a write of an empty sector changed nothing.
#[derive(Clone, Copy, Debug, PartialEq, Eq, Error)]
pub enum NewOneFault {
    /// No page is left for a write, and none can be reclaimed.
    #[error("no page is left to write")]
    WornOut,
    /// The sector was already written.
    #[error("the sector is written")]
    Written,
}

/// Pages programmed for host writes, pages relocated, and erase commands.
#[derive(Clone, Copy, Debug, PartialEq, Eq)]
pub struct Counts {
    pub programs: u64,
    pub copies: u64,
    pub erases: u64,
}

/// The layer: each sector has its current page, and blocks are collected when pages run out.
#[derive(Drop)]
pub struct OneFtl {
    store: Store,
    roles: Vec<Role>,
    open_block: Option<u32>,
    spare: Option<u32>,
    // No block below is free: a block that is opened is never free again.
    free_from: usize,
    counts: Counts,
    ghost one_thread: { hosts_of (store_geometry_of store) ≡ 0 },
    ghost roles_sized: { length roles.items ≡ blocks_of (store_geometry_of store) },
    ghost free_within: { free_from ≤ length roles.items },
    ghost free_above: { (b : ℕ) → b < free_from → is_free (role_in roles.items b) ≡ false },
    ghost knows_spare: { KnowsSpare (role_in roles.items) spare },
    ghost lawful: { IsLawful (blocks_of (store_geometry_of store)) (pages_of (store_geometry_of store)) (λ b. length (entries_of store b))
        (retired_of store) (role_in roles.items) open_block },
    ghost bounded: { counts.programs + counts.copies + counts.erases ≤ sum_by (weight (pages_of (store_geometry_of store))) (blocks_in store roles.items) },
}

impl OneFtl {
    ghost use Rattle.ftl_one.specs.Collections.{collection_between, collection_due, collection_into};
    ghost use Rattle.ftl_one.specs.Laws.{CollectsAtMostOne, ErasesNothing, HasNoPage, HasRetired, block_at};
    ghost use Rattle.std.specs.Prelude.{◌≢◌, [], IfOk, IfSome, IfNone, OnOk, OnErr, ◌^◌, Err};
    ghost use Rattle.geometry.specs.Sectors.{sector_at, was_of, Answers};
    ghost use Rattle.geometry.specs.History.{Write, WriteNew, Trim, step, after};
    ghost use Rattle.ftl_one.specs.OneFtl.{geometry_of, sectors, blocks, pages, page_bytes, endurance, array_of, stock_of, was_found};
    ghost use Rattle.ftl_one.specs.declared.one_ftl.NewOneFault.TheVariants as fault;
    ghost use Rattle.ftl_one.specs.Stock.{Stock, next, opening, opened, open_of, free_of, spare_of, victim_of, ready, collect, write_of, live_of, is_retired};

    /// A layer with every sector empty.
    #[tactic(auto, unfolding(crate::specs::OneFtl::geometry_of, crate::specs::OneFtl::array_of))]
    pub fn new(alloc: Global, geometry: &Geometry) -> Result<OneFtl, AllocError>
        requires { hosts_of geometry.now ≡ 0 }
        ensures geometry { IfOk result (λ ftl. geometry_of ftl ≡ geometry.now) }
        ensures empty { IfOk result (λ ftl. array_of ftl ≡ after (sectors_of geometry.now) []) }
        ensures stock { IfOk result (λ ftl. stock_of ftl ≡ opening geometry.now) }
    {
        let blocks = geometry.blocks();
        let store = Store::new(alloc, geometry)?;
        let mut roles = vec![in alloc; Role::Free; blocks as usize]?;
        roles[blocks as usize - 1] = Role::Spare;
        Ok(OneFtl {
            store,
            roles,
            open_block: None,
            spare: Some(blocks - 1),
            free_from: 0,
            counts: Counts {
                programs: 0,
                copies: 0,
                erases: 0,
            },
        })
    }

    /// The numbers that the layer was made with: how many sectors it has, and the size of a page.
    #[tactic(auto, unfolding(crate::specs::OneFtl::geometry_of))]
    pub fn geometry(&self) -> Geometry
        ensures value { result ≡ geometry_of self.now }
        ensures sectors { length (array_of self.now) ≡ sectors self.now }
    {
        self.store.geometry()
    }

    /// Reads a sector into `out`, a buffer of one page.
    #[tactic(auto, unfolding(crate::specs::OneFtl::geometry_of, crate::specs::OneFtl::array_of))]
    pub fn read(&self, sector: u32, out: &mut [u8]) -> Got
        requires sector { sector < sectors self.now }
        requires page { length out.old ≡ page_bytes self.now }
        ensures { Answers (sector_at (array_of self.now) sector) result out.old out.new }
    {
        self.store.read(sector, out)
    }

    /// The page of a sector, without a copy, or none for an empty sector.
    #[tactic(auto, unfolding(crate::specs::OneFtl::geometry_of, crate::specs::OneFtl::array_of))]
    pub fn page(&self, sector: u32) -> Option<&[u8]>
        requires { sector < sectors self.now }
        ensures some { IfSome result
            (λ page. sector_at (array_of self.now) sector ≡ Some page.now) }
        ensures none { IfNone result (sector_at (array_of self.now) sector ≡ None) }
        ensures size { IfSome result (λ page. length page.now ≡ page_bytes self.now) }
    {
        self.store.page(sector)
    }

    /// Writes a sector, and returns what it was.
    pub fn write(&mut self, sector: u32, bytes: &[u8]) -> Result<Was, WornOut>
        requires sector { sector < sectors self.old }
        requires page { length bytes.now ≡ page_bytes self.old }
        ensures geometry { geometry_of self.new ≡ geometry_of self.old }
        ensures answer { IfOk result (λ was. was ≡ was_of (sector_at (array_of self.old) sector)) }
        ensures array { OnOk result
            (array_of self.new ≡ step (array_of self.old) (Write 0 sector bytes.now)) }
        ensures stock { OnOk result
            (next (geometry_of self.old) (stock_of self.old) (Write 0 sector bytes.now)
            ≡ Some (stock_of self.new)) }

        // A write that is refused has changed nothing: no block is open or free, and there is no spare.
        ensures worn { OnErr result
            (next (geometry_of self.old) (stock_of self.old) (Write 0 sector bytes.now) ≡ None) }
        ensures no_page { OnErr result (HasNoPage (stock_of self.old)) }
        ensures same_array { OnErr result (array_of self.new ≡ array_of self.old) }
        ensures same_stock { OnErr result (stock_of self.new ≡ stock_of self.old) }

        // Whatever is relocated or erased, no other sector changes; a write that succeeds is one program.
        ensures others { (s : ℕ) → s ≢ sector
            → sector_at (array_of self.new) s ≡ sector_at (array_of self.old) s }
        ensures programs { OnOk result
            ((stock_of self.new).programs ≡ (stock_of self.old).programs + 1) }

        // At most one block is collected, a closed one with the fewest live pages, and none after a failed erase.
        ensures collection { CollectsAtMostOne (stock_of self.old) (stock_of self.new) }
        ensures after_failure { HasRetired (stock_of self.old)
            → ErasesNothing (stock_of self.old) (stock_of self.new) }

        // The collection that it makes is the one that was due.
        ensures due { OnOk result
            (collection_between (geometry_of self.old) (stock_of self.old) (stock_of self.new)
            ≡ collection_due (geometry_of self.old) (stock_of self.old)) }
    {
        let Some(block) = self.make_ready() else {
            return Err(WornOut);
        };
        Ok(self.write_into(block, sector, bytes))
    }

    /// Writes a sector if it is empty; otherwise nothing is programmed.
    #[tactic(auto, unfolding(crate::specs::OneFtl::geometry_of, crate::specs::OneFtl::array_of))]
    pub fn write_new(&mut self, sector: u32, bytes: &[u8]) -> Result<(), NewOneFault>
        requires sector { sector < sectors self.old }
        requires page { length bytes.now ≡ page_bytes self.old }
        ensures geometry { geometry_of self.new ≡ geometry_of self.old }
        ensures answer { was_found result ≡ was_of (sector_at (array_of self.old) sector) }
        ensures array { OnOk result
            (array_of self.new ≡ step (array_of self.old) (WriteNew 0 sector bytes.now)) }
        ensures stock { OnOk result
            (next (geometry_of self.old) (stock_of self.old) (WriteNew 0 sector bytes.now)
            ≡ Some (stock_of self.new)) }

        // A write that is refused has changed nothing. A written sector leaves the stock as it was, and one that is empty finds no page.
        ensures written { result ≡ Err fault.Written
            → next (geometry_of self.old) (stock_of self.old) (WriteNew 0 sector bytes.now)
            ≡ Some (stock_of self.old) }
        ensures unchanged { result ≡ Err fault.Written
            → step (array_of self.old) (WriteNew 0 sector bytes.now) ≡ array_of self.old }
        ensures worn { result ≡ Err fault.WornOut
            → next (geometry_of self.old) (stock_of self.old) (WriteNew 0 sector bytes.now) ≡ None }
        ensures same_array { OnErr result (array_of self.new ≡ array_of self.old) }
        ensures same_stock { OnErr result (stock_of self.new ≡ stock_of self.old) }

        // Whatever is relocated or erased, no other sector changes; a write that succeeds is one program.
        ensures others { (s : ℕ) → s ≢ sector
            → sector_at (array_of self.new) s ≡ sector_at (array_of self.old) s }
        ensures programs { OnOk result
            ((stock_of self.new).programs ≡ (stock_of self.old).programs + 1) }
    {
        match self.store.was(sector) {
            Was::Written => Err(NewOneFault::Written),
            Was::Empty => match self.write(sector, bytes) {
                Ok(_) => Ok(()),
                Err(WornOut) => Err(NewOneFault::WornOut),
            },
        }
    }

    /// Empties a sector, and returns what it was.
    #[tactic(auto, unfolding(crate::specs::OneFtl::geometry_of, crate::specs::OneFtl::array_of))]
    pub fn trim(&mut self, sector: u32) -> Was
        requires sector { sector < sectors self.old }
        ensures geometry { geometry_of self.new ≡ geometry_of self.old }
        ensures answer { result ≡ was_of (sector_at (array_of self.old) sector) }
        ensures array { array_of self.new ≡ step (array_of self.old) (Trim 0 sector) }
        ensures stock { next (geometry_of self.old) (stock_of self.old) (Trim 0 sector)
            ≡ Some (stock_of self.new) }
    {
        self.store.forget(sector)
    }

    /// What the layer has done so far.
    #[tactic(auto, unfolding(crate::specs::OneFtl::stock_of))]
    pub fn counts(&self) -> Counts
        ensures programs { result.programs ≡ (stock_of self.now).programs }
        ensures copies { result.copies ≡ (stock_of self.now).copies }
        ensures erases { result.erases ≡ (stock_of self.now).erases }
    {
        self.counts
    }

    /// How many erase commands a block has had, including the one that failed.
    #[tactic(auto, unfolding(crate::specs::OneFtl::geometry_of))]
    pub fn erases(&self, block: u32) -> u32
        requires { block < blocks self.now }
        ensures { result ≡ (block_at (stock_of self.now) block).erases }
    {
        self.store.erases(block)
    }

    /// How many pages of a block are the current page of a sector.
    #[tactic(auto, unfolding(crate::specs::OneFtl::geometry_of))]
    pub fn live(&self, block: u32) -> u32
        requires { block < blocks self.now }
        ensures { result ≡ live_of (block_at (stock_of self.now) block) }
    {
        u32::from(self.store.live()[block as usize])
    }

    /// The collection that the next programmed page needs. It needs one if the open block is full and no block is free.
    pub fn collection_due(&self) -> Option<Collection>
        ensures { result ≡ collection_due (geometry_of self.now) (stock_of self.now) }
    {
        if self.open_block.is_some() {
            return None;
        }
        if lowest_free(&self.roles, self.free_from).is_some() {
            return None;
        }
        let spare = self.spare?;
        Some(self.collection_into(spare))
    }

    /// Whether a block's last erase has failed, so that it is never used again.
    #[tactic(auto, unfolding(crate::specs::OneFtl::geometry_of))]
    pub fn retired(&self, block: u32) -> bool
        requires { block < blocks self.now }
        ensures { result ≡ is_retired (block_at (stock_of self.now) block).role }
    {
        matches!(self.roles[block as usize], Role::Retired)
    }

    // The collection of the greedy victim into the spare.
    fn collection_into(&self, spare: u32) -> Collection
        requires none { open_of (stock_of self.now).blocks ≡ None }
        requires no_free { free_of (stock_of self.now).blocks ≡ None }
        requires spare { spare_of (stock_of self.now).blocks ≡ Some spare }
        ensures victim { victim_of (stock_of self.now).blocks ≡ Some result.victim }
        ensures value { result
            ≡ collection_into (geometry_of self.now) (stock_of self.now) spare result.victim }
    {
        let victim = fewest_beside(self.store.live(), spare as usize) as u32;
        let copied = self.live(victim);
        let erases = self.erases(victim) + 1;
        Collection {
            victim,
            copied,
            copybacks: self.copybacks(victim, spare, copied),
            erases,
            retired: erases == self.store.geometry().endurance(),
        }
    }

    // How many of this many copies are copybacks: all within one LUN, and none to another.
    fn copybacks(&self, victim: u32, spare: u32, copied: u32) -> u32
        requires victim { victim < blocks_of (store_geometry_of self.now.store) }
        requires spare { spare < blocks_of (store_geometry_of self.now.store) }
        ensures { result
            ≡ (if lun_of (store_geometry_of self.now.store) victim == lun_of
            (store_geometry_of self.now.store) spare then copied else 0) }
    {
        if self.store.is_one_lun(victim, spare) {
            copied
        } else {
            0
        }
    }

    // The open block: the one that there is, or the lowest free block, or the spare after a collection.
    fn make_ready(&mut self) -> Option<u32>
        ensures geometry { geometry_of self.new ≡ geometry_of self.old }
        ensures sectors { array_of self.new ≡ array_of self.old }
        ensures ready { IfSome result
            (λ block. ready (endurance self.old) (stock_of self.old) ≡ Some (stock_of self.new)) }
        ensures opened { IfSome result (λ block. open_of (stock_of self.new).blocks ≡ Some block) }
        ensures none { IfNone result (ready (endurance self.old) (stock_of self.old) ≡ None) }
        ensures no_page { IfNone result (HasNoPage (stock_of self.old)) }
        ensures same { IfNone result (stock_of self.new ≡ stock_of self.old) }
    {
        if let Some(block) = self.open_block {
            return Some(block);
        }
        if let Some(block) = lowest_free(&self.roles, self.free_from) {
            let block = block as u32;
            self.open(block);
            return Some(block);
        }
        let spare = self.spare?;
        self.collect(spare);
        Some(spare)
    }

    // Opens a free block.
    #[tactic(auto, unfolding(crate::specs::OneFtl::geometry_of, crate::specs::OneFtl::array_of))]
    fn open(&mut self, block: u32)
        requires none { open_of (stock_of self.old).blocks ≡ None }
        requires free { free_of (stock_of self.old).blocks ≡ Some block }
        ensures geometry { geometry_of self.new ≡ geometry_of self.old }
        ensures sectors { array_of self.new ≡ array_of self.old }
        ensures stock { stock_of self.new ≡ opened (stock_of self.old) block }
        ensures opened { open_of (stock_of self.new).blocks ≡ Some block }
    {
        self.roles[block as usize] = Role::Open;
        self.free_from = block as usize + 1;
        self.open_block = Some(block);
    }

    // Copies the greedy victim's live pages into the spare, which is the open block then, and erases it.
    #[tactic(auto, unfolding(crate::specs::OneFtl::array_of))]
    fn collect(&mut self, spare: u32)
        requires none { open_of (stock_of self.old).blocks ≡ None }
        requires no_free { free_of (stock_of self.old).blocks ≡ None }
        requires spare { spare_of (stock_of self.old).blocks ≡ Some spare }
        ensures geometry { geometry_of self.new ≡ geometry_of self.old }
        ensures sectors { array_of self.new ≡ array_of self.old }
        ensures stock { collect (endurance self.old) (stock_of self.old) spare
            (victim_of (stock_of self.old).blocks) ≡ Some (stock_of self.new) }
        ensures opened { open_of (stock_of self.new).blocks ≡ Some spare }
    {
        let victim = fewest_beside(self.store.live(), spare as usize) as u32;
        let copies = self.store.clear(victim, spare);
        let failed = self.store.erase(victim);
        self.counts.copies += u64::from(copies);
        self.counts.erases += 1;
        hand_over(&mut self.roles, spare, victim, failed);
        self.open_block = Some(spare);
        self.spare = next_spare(victim, failed);
    }

    // Programs the open block's next page for a sector, and closes the block if it is full then.
    #[tactic(auto, unfolding(crate::specs::OneFtl::geometry_of, crate::specs::OneFtl::array_of))]
    fn write_into(&mut self, block: u32, sector: u32, bytes: &[u8]) -> Was
        requires opened { open_of (stock_of self.old).blocks ≡ Some block }
        requires sector { sector < sectors self.old }
        requires page { length bytes.now ≡ page_bytes self.old }
        ensures geometry { geometry_of self.new ≡ geometry_of self.old }
        ensures answer { result ≡ was_of (sector_at (array_of self.old) sector) }
        ensures array { array_of self.new ≡ step (array_of self.old) (Write 0 sector bytes.now) }
        ensures stock { write_of (pages self.old) sector (stock_of self.old)
            ≡ Some (stock_of self.new) }
    {
        let was = self.store.put(block, sector, bytes);
        self.counts.programs += 1;
        if self.store.is_full(block) {
            self.roles[block as usize] = Role::Closed;
            self.open_block = None;
        }
        was
    }
}
