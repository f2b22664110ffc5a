ghost use Rattle.std.specs.Prelude.{◌≡◌, ℕ, ◌+◌, ◌*◌, ◌<◌, ◌≤◌, IfOk, length, slice_index_or, if◌then◌else◌, ◌==◌};
ghost use Rattle.geometry.specs.Geometry.{blocks_of, pages_of, page_bytes_of, endurance_of, lun_of};
ghost use Rattle.die.specs.Storage.{IsSound, unused};

use crate::slots::{get_page, lend_page, move_page, put_page};
use geometry::{Geometry, PageAddr};
use std::alloc::{AllocError, Global};

/// A byte of an erased page.
pub const ERASED_BYTE: u8 = 0xff;
/// The stamp of an erased page.
pub const ERASED_STAMP: u64 = u64::MAX;

/// What a die stores for a block in addition to its pages.
#[derive(Clone, Copy)]
pub struct BlockState {
    /// How many pages are programmed, which is also the page to be programmed next.
    pub next: u32,
    pub erases: u32,
    pub retired: bool,
}

/// The dies of a device, as one list of blocks.
#[derive(Drop)]
pub struct Die {
    geometry: Geometry,
    // The main bytes of all pages, block by block.
    bytes: Vec<u8>,
    // The stamps of all pages, block by block.
    stamps: Vec<u32>,
    states: Vec<BlockState>,
    // How many pages were copied back, modulo 2^64.
    copybacks: u64,
    ghost bytes_sized: { length bytes.items ≡ blocks_of geometry * pages_of geometry * page_bytes_of geometry },
    ghost stamps_sized: { length stamps.items ≡ blocks_of geometry * pages_of geometry },
    ghost states_sized: { length states.items ≡ blocks_of geometry },
    ghost sound: { (b : ℕ) → b < blocks_of geometry → IsSound (pages_of geometry) (endurance_of geometry) (slice_index_or states.items b unused) },
}

impl Die {
    ghost use Rattle.die.specs.Die.{geometry_of, blocks, pages, page_bytes, endurance, block_of, copybacks_of, one_more};
    ghost use Rattle.die.specs.Die.{ChangesBlock, IsUsable, IsNext, IsProgrammed, IsNew};
    ghost use Rattle.die.specs.Pages.{page_at, programmed, erased};

    /// A die whose blocks are all erased.
    pub fn new(alloc: Global, geometry: &Geometry) -> Result<Die, AllocError>
        ensures { IfOk result (λ die. IsNew die geometry.now) }
    {
        let geometry = *geometry;
        let blocks = geometry.blocks() as usize;
        let places = blocks * geometry.pages() as usize;
        let unused = BlockState {
            next: 0,
            erases: 0,
            retired: false,
        };
        Ok(Die {
            geometry,
            bytes: vec![in alloc; ERASED_BYTE; places * geometry.page_bytes()]?,
            stamps: vec![in alloc; 0; places]?,
            states: vec![in alloc; unused; blocks]?,
            copybacks: 0,
        })
    }

    /// The numbers that the die was made with.
    pub fn geometry(&self) -> Geometry
        ensures { result ≡ geometry_of self.now }
    {
        self.geometry
    }

    // The place of a page in the storage.
    fn place_of(&self, at: PageAddr) -> usize
        requires block { at.block < blocks self.now }
        requires page { at.page < pages self.now }
        ensures value { result ≡ at.block * pages self.now + at.page }
        ensures within { result < blocks self.now * pages self.now }
    {
        at.block as usize * self.geometry.pages() as usize + at.page as usize
    }

    /// ONFI 4.0, Read: copies the main bytes into `out`, and returns the stamp. In a page that isn't programmed every bit is one.
    pub fn read(&self, at: PageAddr, out: &mut [u8]) -> u64
        requires usable { IsUsable self.now at.block }
        requires room { length out.old ≡ page_bytes self.now }
        ensures value { out.new
            ≡ (page_at (page_bytes self.now) (block_of self.now at.block) at.page).value }
        ensures stamp { result
            ≡ (page_at (page_bytes self.now) (block_of self.now at.block) at.page).stamp }
    {
        if at.page >= self.states[at.block as usize].next {
            out.fill(ERASED_BYTE);
            return ERASED_STAMP;
        }
        let place = self.place_of(at);
        get_page(&self.bytes, place, out);
        u64::from(self.stamps[place])
    }

    /// The main bytes of a programmed page, without a copy.
    pub fn page(&self, at: PageAddr) -> &[u8]
        requires { IsProgrammed self.now at }
        ensures value { result.now
            ≡ (page_at (page_bytes self.now) (block_of self.now at.block) at.page).value }
        ensures size { length result.now ≡ page_bytes self.now }
    {
        lend_page(&self.bytes, self.geometry.page_bytes(), self.place_of(at))
    }

    /// ONFI 4.0, Read with a column address in the spare bytes: only the stamp of a programmed page.
    pub fn stamp(&self, at: PageAddr) -> u64
        requires { IsProgrammed self.now at }
        ensures { result
            ≡ (page_at (page_bytes self.now) (block_of self.now at.block) at.page).stamp }
    {
        u64::from(self.stamps[self.place_of(at)])
    }

    /// ONFI 4.0, Page Program: the page gets the bytes and the stamp. The status is 0, since only an erase can fail here. The pages of a block are
    /// programmed in order, each once between two erases.
    pub fn program(&mut self, at: PageAddr, bytes: &[u8], stamp: u32) -> u8
        requires next { IsNext self.old at }
        requires size { length bytes.now ≡ page_bytes self.old }
        ensures status { result ≡ 0 }
        ensures changes { ChangesBlock self.old self.new at.block
            (programmed (block_of self.old at.block) (record { value = bytes.now; stamp = stamp })) }
        ensures copybacks { copybacks_of self.new ≡ copybacks_of self.old }
    {
        let place = self.place_of(at);
        put_page(&mut self.bytes, place, bytes);
        self.stamps[place] = stamp;
        self.states[at.block as usize].next += 1;
        0
    }

    /// ONFI 4.0, Copyback Read and Copyback Program: `to` gets the main bytes and the stamp of `from`, on the same LUN. The status is 0.
    pub fn copyback(&mut self, from: PageAddr, to: PageAddr) -> u8
        requires source { IsProgrammed self.old from }
        requires next { IsNext self.old to }
        requires same_lun { lun_of (geometry_of self.old) from.block
            ≡ lun_of (geometry_of self.old) to.block }
        ensures status { result ≡ 0 }
        ensures changes { ChangesBlock self.old self.new to.block
            (programmed (block_of self.old to.block)
            (page_at (page_bytes self.old) (block_of self.old from.block) from.page)) }
        ensures copybacks { copybacks_of self.new ≡ one_more (copybacks_of self.old) }
    {
        let source = self.place_of(from);
        let place = self.place_of(to);
        let page_bytes = self.geometry.page_bytes();
        move_page(&mut self.bytes, page_bytes, source, place);
        self.stamps[place] = self.stamps[source];
        self.states[to.block as usize].next += 1;
        self.copybacks = self.copybacks.wrapping_add(1);
        0
    }

    /// ONFI 4.0, Block Erase: afterwards no page of the block is programmed. The status is 0, or 1 (FAIL) for the last erase of the block's
    /// endurance, which retires it.
    pub fn erase(&mut self, block: u32) -> u8
        requires { IsUsable self.old block }
        ensures status { result
            ≡ (if (block_of self.old block).erases + 1 == endurance self.old then 1 else 0) }
        ensures changes { ChangesBlock self.old self.new block
            (erased (endurance self.old) (block_of self.old block)) }
        ensures copybacks { copybacks_of self.new ≡ copybacks_of self.old }
    {
        let endurance = self.geometry.endurance();
        let state = &mut self.states[block as usize];
        state.next = 0;
        state.erases += 1;
        state.retired = state.erases == endurance;
        u8::from(state.retired)
    }

    /// How many pages of the block are programmed, which is the page to be programmed next.
    pub fn next(&self, block: u32) -> u32
        requires { block < blocks self.now }
        ensures value { result ≡ length (block_of self.now block).pages }
        ensures within { result ≤ pages self.now }
    {
        self.states[block as usize].next
    }

    /// Whether the block is retired, and may never be used again.
    pub fn retired(&self, block: u32) -> bool
        requires { block < blocks self.now }
        ensures { result ≡ (block_of self.now block).retired }
    {
        self.states[block as usize].retired
    }

    /// How many erase commands the block has had.
    pub fn erases(&self, block: u32) -> u32
        requires { block < blocks self.now }
        ensures value { result ≡ (block_of self.now block).erases }
        ensures usable { IsUsable self.now block → result < endurance self.now }
    {
        self.states[block as usize].erases
    }

    /// How many pages were copied back, modulo 2^64.
    pub fn copybacks(&self) -> u64
        ensures { result ≡ copybacks_of self.now }
    {
        self.copybacks
    }
}
