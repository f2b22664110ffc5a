//! The words of a shared device: the bytes of a page as words, the word of a sector, the word of a block, and where each word is in the table.
ghost use Rattle.std.specs.Prelude.{◌≡◌, ℕ, ◌≢◌, ◌+◌, ◌*◌, ◌≤◌, ◌<◌, IfSome, IfNone, Some, length};
ghost use Rattle.geometry.specs.declared.words.MapWord.{MapWord};
ghost use Rattle.geometry.specs.declared.words.PinWord.{PinWord};
ghost use Rattle.geometry.specs.Geometry.{numbers_of, blocks_of, pages_of, words_of, sectors_of};
ghost use Rattle.geometry.specs.Limits.{table_words_of};
ghost use Rattle.geometry.specs.Words.{word_of, with_word, FitsMap, IsPageOf, map_word, pin_index, page_index};
ghost use Rattle.geometry.specs.Words.{FitsPin, IsStateOf, phase_bits, pin_word, freed_added, kept_added};

use crate::geometry::Geometry;
use crate::page_addr::PageAddr;
use std::fmt;
use std::fmt::{Display, Formatter};

/// Word `i` of a page: its bytes from `8 * i` on, the least significant first.
pub fn word_at(page: &[u8], i: usize) -> u64
    requires { 8 * i + 8 ≤ length page.now }
    ensures { result ≡ word_of page.now i }
{
    let s = &page[8 * i..8 * i + 8];
    u64::from_le_bytes([s[0], s[1], s[2], s[3], s[4], s[5], s[6], s[7]])
}

/// Writes word `i` of a page.
pub fn put_word(page: &mut [u8], i: usize, word: u64)
    requires { 8 * i + 8 ≤ length page.old }
    ensures bytes { page.new ≡ with_word page.old i word }
    ensures word { word_of page.new i ≡ word }
    ensures others { (k : ℕ) → k ≢ i → 8 * k + 8 ≤ length page.old
        → word_of page.new k ≡ word_of page.old k }
{
    page[8 * i..8 * i + 8].copy_from_slice(&word.to_le_bytes());
}

/// The word of a sector that no page holds.
pub const UNMAPPED: u64 = 0;
/// Pages are below this: a block has at most 16,384. They have bits 0 to 15.
const MAP_PAGES: u64 = 0x1_0000;
/// Blocks are below this: a device has at most 4,096.
pub const MAP_BLOCKS: u64 = 0x1_0000;
/// Generations are below this: a block is erased at most 1,000,000 times.
pub const MAP_GENERATIONS: u64 = 0x8000_0000;
/// One more block. Blocks have bits 16 to 31.
pub const MAP_BLOCK: u64 = MAP_PAGES;
/// One more generation. The generation has bits 32 to 62.
pub const MAP_GENERATION: u64 = MAP_BLOCKS * MAP_BLOCK;
/// Bit 63 of the word of a sector that a page holds.
pub const MAPPED: u64 = MAP_GENERATIONS * MAP_GENERATION;

/// A page of one generation of its block.
#[derive(Clone, Copy, PartialEq, Eq, Debug)]
pub struct MapWord {
    pub generation: u32,
    pub block: u32,
    pub page: u32,
}

impl MapWord {
    /// The word of a sector that has this page.
    pub fn pack(self) -> u64
        requires { FitsMap self }
        ensures { result ≡ map_word self }
    {
        MAPPED
            + self.generation as u64 * MAP_GENERATION
            + self.block as u64 * MAP_BLOCK
            + self.page as u64
    }

    /// Returns `None` if bit 63 is clear.
    pub fn unpack(word: u64) -> Option<MapWord>
        ensures some { IfSome result (λ page. FitsMap page × (map_word page ≡ word)) }
        ensures none { IfNone result (word < MAPPED) }
        ensures undoes { (m : MapWord) → FitsMap m → map_word m ≡ word → result ≡ Some m }
    {
        if word < MAPPED {
            return None;
        }
        Some(MapWord {
            generation: ((word - MAPPED) / MAP_GENERATION) as u32,
            block: (word % MAP_GENERATION / MAP_BLOCK) as u32,
            page: (word % MAP_BLOCK) as u32,
        })
    }
}

/// Different fields have different map words, so `unpack` is the inverse of `pack`.
pub fn map_word_names_one_page()
    ensures { (m n : MapWord) → FitsMap m → FitsMap n → map_word m ≡ map_word n → m ≡ n }
{}

/// The fields have room for every page of every device.
pub fn every_page_fits(geometry: &Geometry)
    ensures { (page : MapWord) → IsPageOf (numbers_of geometry.now) page → FitsMap page }
{
    let _geometry = *geometry;
}

/// For debugging: `block 2 page 3 generation 1`.
impl Display for MapWord {
    fn fmt<W: fmt::Write>(&self, f: &mut Formatter<W>) -> fmt::Result {
        write!(
            f,
            "block {} page {} generation {}",
            self.block, self.page, self.generation
        )
    }
}

// How many values each field of a word has, from the lowest bit up: every other number here follows.

/// Readers are below this: each of at most 500 hosts has one page pinned at a time. They have bits 0 to 11.
pub const READERS: u64 = 0x1000;
/// The phases of a taken block are below this.
const PHASES: u64 = 8;
/// Pages written are below this: a block has at most 16,384 pages.
pub const PAGES_WRITTEN: u64 = 0x1_0000;
/// Generations are below this: a block is erased at most 1,000,000 times.
pub const GENERATIONS: u64 = 0x1_0000_0000;

/// One more reader.
pub const READER: u64 = 1;
/// Bit 12: the block was taken since it was free.
pub const TAKEN: u64 = READERS;
/// The step from a taken block's phase to the next one. Phases have bits 13 to 15.
pub const NEXT_PHASE: u64 = 2 * TAKEN;
/// One more page written. Pages written have bits 16 to 31.
pub const PAGE_WRITTEN: u64 = PHASES * NEXT_PHASE;
/// One generation more. The generation has bits 32 to 63.
pub const GENERATION: u64 = PAGES_WRITTEN * PAGE_WRITTEN;

/// The bits of each phase.
const FREE: u64 = 0;

const OPEN: u64 = TAKEN;

const CLOSED: u64 = OPEN + NEXT_PHASE;

const VICTIM: u64 = CLOSED + NEXT_PHASE;

const DRAINED: u64 = VICTIM + NEXT_PHASE;

const ERASING: u64 = DRAINED + NEXT_PHASE;

const RETIRED: u64 = ERASING + NEXT_PHASE;

/// The phases of a block between two erases.
#[derive(Clone, Copy, PartialEq, Eq, Debug)]
pub enum Phase {
    /// Erased; nobody owns it.
    Free,
    /// Its owner programs it.
    Open,
    /// It has pages to read; nobody owns it.
    Closed,
    /// Its owner moves the live pages away.
    Victim,
    /// It has no live page; nobody owns it.
    Drained,
    /// Its owner erases it.
    Erasing,
    /// Never used again; nobody owns it.
    Retired,
}

/// The state of a block, as its pin word encodes it.
#[derive(Clone, Copy, PartialEq, Eq, Debug)]
pub struct PinWord {
    pub readers: u32,
    pub phase: Phase,
    pub written: u32,
    pub generation: u32,
}

impl Phase {
    /// The bit of taken blocks and the phase's number above it.
    pub fn bits(self) -> u64
        ensures bits { result ≡ phase_bits self }
        ensures small { result < PAGE_WRITTEN }
    {
        match self {
            Phase::Free => FREE,
            Phase::Open => OPEN,
            Phase::Closed => CLOSED,
            Phase::Victim => VICTIM,
            Phase::Drained => DRAINED,
            Phase::Erasing => ERASING,
            Phase::Retired => RETIRED,
        }
    }

    fn of_bits(bits: u64) -> Option<Phase>
        ensures some { IfSome result (λ phase. phase_bits phase ≡ bits) }
        ensures none { IfNone result ((phase : _) → phase_bits phase ≢ bits) }
    {
        match bits {
            FREE => Some(Phase::Free),
            OPEN => Some(Phase::Open),
            CLOSED => Some(Phase::Closed),
            VICTIM => Some(Phase::Victim),
            DRAINED => Some(Phase::Drained),
            ERASING => Some(Phase::Erasing),
            RETIRED => Some(Phase::Retired),
            _ => None,
        }
    }
}

impl PinWord {
    /// The word of a block in this state.
    pub fn pack(self) -> u64
        requires { FitsPin self }
        ensures { result ≡ pin_word self }
    {
        self.readers as u64
            + self.phase.bits()
            + self.written as u64 * PAGE_WRITTEN
            + self.generation as u64 * GENERATION
    }

    /// Returns `None` for a word that is no state of a block.
    pub fn unpack(word: u64) -> Option<PinWord>
        ensures some { IfSome result (λ pin. FitsPin pin × (pin_word pin ≡ word)) }
        ensures none { IfNone result ((pin : _) → FitsPin pin → pin_word pin ≢ word) }
        ensures undoes { (pin : _) → FitsPin pin → pin_word pin ≡ word → result ≡ Some pin }
    {
        let phase = Phase::of_bits(word % PAGE_WRITTEN - word % READERS)?;
        let written = (word % GENERATION / PAGE_WRITTEN) as u32;
        if phase == Phase::Free && written > 0 {
            return None;
        }
        Some(PinWord {
            readers: (word % READERS) as u32,
            phase,
            written,
            generation: (word / GENERATION) as u32,
        })
    }
}

/// Different states have different pin words, so `unpack` is the inverse of `pack`.
pub fn pin_word_tells_one_state()
    ensures { (p q : PinWord) → FitsPin p → FitsPin q → pin_word p ≡ pin_word q → p ≡ q }
{}

/// The fields have room for every state of a block, of every device.
pub fn every_state_fits(geometry: &Geometry)
    ensures { (pin : PinWord) → IsStateOf (numbers_of geometry.now) pin → FitsPin pin }
{
    let _geometry = *geometry;
}

/// What the owner of an erased block with `written` pages written adds to make it free, in its next generation.
pub fn freed(written: u32) -> u64
    requires { written < PAGES_WRITTEN }
    ensures { result ≡ freed_added written }
{
    GENERATION - ERASING - written as u64 * PAGE_WRITTEN
}

/// What the owner of an erased block with `written` pages written adds to keep it open, in its next generation.
pub fn kept(written: u32) -> u64
    requires { written < PAGES_WRITTEN }
    ensures { result ≡ kept_added written }
{
    GENERATION - (ERASING - OPEN) - written as u64 * PAGE_WRITTEN
}

impl Display for Phase {
    fn fmt<W: fmt::Write>(&self, f: &mut Formatter<W>) -> fmt::Result {
        let name = match self {
            Phase::Free => "free",
            Phase::Open => "open",
            Phase::Closed => "closed",
            Phase::Victim => "victim",
            Phase::Drained => "drained",
            Phase::Erasing => "erasing",
            Phase::Retired => "retired",
        };
        write!(f, "{name}")
    }
}

/// For debugging: `closed, 2 written, generation 5, 2 readers`.
impl Display for PinWord {
    fn fmt<W: fmt::Write>(&self, f: &mut Formatter<W>) -> fmt::Result {
        write!(
            f,
            "{}, {} written, generation {}, {} readers",
            self.phase, self.written, self.generation, self.readers
        )
    }
}

/// A page word that was not written since the last erase.
pub const ERASED: u64 = 0xffff_ffff_ffff_ffff;

/// The index of a block's pin word in the table.
pub fn pin_at(geometry: &Geometry, block: u32) -> usize
    requires { block < blocks_of geometry.now }
    ensures { result ≡ pin_index (numbers_of geometry.now) block }
{
    geometry.sectors() as usize + block as usize
}

/// The index of word `i` of a page in the table. The stamp comes after the data words.
pub fn page_word_at(geometry: &Geometry, addr: PageAddr, i: u32) -> usize
    requires block { addr.block < blocks_of geometry.now }
    requires page { addr.page < pages_of geometry.now }
    requires word { i ≤ words_of geometry.now }
    ensures { result ≡ page_index (numbers_of geometry.now) addr.block addr.page + i }
{
    let page = addr.block as usize * geometry.pages() as usize + addr.page as usize;
    geometry.sectors() as usize
        + geometry.blocks() as usize
        + page * (geometry.words() as usize + 1)
        + i as usize
}

/// How many words the table has.
pub fn table_size(geometry: &Geometry) -> usize
    ensures { result
        ≡ table_words_of (blocks_of geometry.now) (pages_of geometry.now)
        (words_of geometry.now) (sectors_of geometry.now) }
{
    let pages = geometry.blocks() as usize * geometry.pages() as usize;
    geometry.sectors() as usize
        + geometry.blocks() as usize
        + pages * (geometry.words() as usize + 1)
}
