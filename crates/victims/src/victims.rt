ghost use Rattle.std.specs.Prelude.{◌≡◌, ℕ, ◌+◌, ◌-◌, ◌^◌, ◌<◌, ◌≤◌, ◌↔◌, true, false, length, replicate, slice_set, All, IsTrue, IfOk, IfSome, IfNone};
ghost use Rattle.victims.specs.Victims.{Blocks, block_count, kept_pages, erase_count, spare_count, AreCounted, IsEligible, IsBestVictim, IsSpareBlock};

use crate::bucket_queue::BucketQueue;
use std::alloc::{AllocError, Global};
use std::marker::Model;

/// The key of a block that may not be collected.
const EXCLUDED: u16 = 0;
/// The key of an eligible block that keeps no page.
const SPARE: u16 = 1;

/// How many pages each block of a device keeps, and which block to collect next. A kept page is one whose version is the newest of some sector.
///
/// `new`, `exclude` and `include` take a step for each page that a block keeps, and every other call constant time. A block takes 16 bytes, and each
/// count that is possible four.
#[derive(Drop)]
pub struct Victims {
    pages: u16,
    kept: Vec<u16>,
    erases: Vec<u32>,
    // The key of a block is 0 while it is excluded, and otherwise one more than the pages that it keeps.
    queue: BucketQueue,
}

impl Model for Victims {
    ghost use Rattle.victims.specs.Victims.{Blocks};

    ghost Value = { Blocks };

    ghost use Rattle.std.specs.Prelude.{◌≡◌, ◌+◌, ◌<◌, ◌≤◌, ◌^◌, length, All};
    ghost use Rattle.victims.specs.Victims.{AreKeys, are_above_zero};

    ghost view = { λ s. record { pages = s.pages; kept = s.kept.items; erases = s.erases.items; eligible = are_above_zero s.queue.keys.items } };

    ghost invariant = { λ s. record {
      keys : AreKeys s.kept.items s.queue.keys.items;
      erases : length s.erases.items ≡ length s.kept.items;
      buckets : length s.queue.starts.items ≡ s.pages + 2;
      some : 0 < s.pages;
      within : All (λ kept. kept ≤ s.pages) s.kept.items;
    } };
}

impl Victims {
    /// Takes the counts that a mount has found. Every block is eligible then.
    pub fn new(
        alloc: Global,
        pages: u16,
        kept: Vec<u16>,
        erases: Vec<u32>,
    ) -> Result<Self, AllocError>
        requires some { 0 < pages }
        requires pages { pages + 2 ≤ 2 ^ 16 }
        requires blocks { length kept.items < 2 ^ 32 }
        requires erases { length erases.items ≡ length kept.items }
        requires within { All (λ n. n ≤ pages) kept.items }
        ensures { IfOk result
            (λ s. s
            ≡ record { pages = pages; kept = kept.items; erases = erases.items; eligible = replicate (length kept.items) true }) }
    {
        let blocks = kept.len() as u32;
        let mut queue = BucketQueue::new(alloc, blocks, pages as usize + 2)?;
        for block in 0..blocks {
            queue.raise_to(block, kept[block as usize] + 1);
        }
        Ok(Victims {
            pages,
            kept,
            erases,
            queue,
        })
    }

    /// How many pages a block has.
    pub fn pages(&self) -> u16
        ensures { result ≡ self.now.pages }
    {
        self.pages
    }

    /// How many blocks there are.
    pub fn blocks(&self) -> u32
        ensures count { result ≡ block_count self.now }
        ensures counted { AreCounted self.now }
    {
        self.kept.len() as u32
    }

    /// How many pages a block keeps.
    pub fn kept(&self, block: u32) -> u16
        requires { block < block_count self.now }
        ensures { result ≡ kept_pages self.now block }
    {
        self.kept[block as usize]
    }

    /// How often a block was erased.
    pub fn erases(&self, block: u32) -> u32
        requires { block < block_count self.now }
        ensures { result ≡ erase_count self.now block }
    {
        self.erases[block as usize]
    }

    /// Whether a block may be collected.
    pub fn is_eligible(&self, block: u32) -> bool
        requires { block < block_count self.now }
        ensures { IsTrue result ↔ IsEligible self.now block }
    {
        self.queue.keys[block as usize] > EXCLUDED
    }

    /// The block to collect: of the eligible ones one with the fewest kept pages, and of a few of these the least erased.
    pub fn victim(&self) -> Option<u32>
        ensures some { IfSome result (IsBestVictim self.now) }
        ensures none { IfNone result ((b : ℕ) → ¬ (IsEligible self.now b)) }
    {
        self.queue.least(EXCLUDED + 1, &self.erases)
    }

    /// An eligible block that keeps no page: of a few of these the least erased.
    pub fn spare(&self) -> Option<u32>
        ensures some { IfSome result (IsSpareBlock self.now) }
        ensures none { IfNone result ((b : ℕ) → ¬ (IsSpareBlock self.now b)) }
    {
        self.victim()
            .filter(|block| self.kept[*block as usize] == 0)
    }

    /// How many eligible blocks keep no page.
    pub fn spares(&self) -> u32
        ensures { result ≡ spare_count self.now }
    {
        self.queue.count(SPARE)
    }

    /// One more page of a block is kept.
    pub fn keep(&mut self, block: u32)
        requires block { block < block_count self.old }
        requires room { kept_pages self.old block < self.old.pages }
        ensures { self.new
            ≡ record self.old { kept = slice_set self.old.kept block (kept_pages self.old block + 1) } }
    {
        if self.queue.keys[block as usize] != EXCLUDED {
            self.queue.raise(block);
        }
        self.kept[block as usize] += 1;
    }

    /// A page of a block is not kept any more.
    pub fn release(&mut self, block: u32)
        requires block { block < block_count self.old }
        requires some { 0 < kept_pages self.old block }
        ensures { self.new
            ≡ record self.old { kept = slice_set self.old.kept block (kept_pages self.old block - 1) } }
    {
        if self.queue.keys[block as usize] != EXCLUDED {
            self.queue.lower(block);
        }
        self.kept[block as usize] -= 1;
    }

    /// A block was erased.
    pub fn erased(&mut self, block: u32)
        requires block { block < block_count self.old }
        requires room { erase_count self.old block + 1 < 2 ^ 32 }
        ensures { self.new
            ≡ record self.old { erases = slice_set self.old.erases block (erase_count self.old block + 1) } }
    {
        self.erases[block as usize] += 1;
    }

    /// A block may not be collected: it is open, or bad.
    pub fn exclude(&mut self, block: u32)
        requires { block < block_count self.old }
        ensures { self.new
            ≡ record self.old { eligible = slice_set self.old.eligible block false } }
    {
        self.queue.lower_to(block, EXCLUDED);
    }

    /// A block may be collected again: it is closed.
    pub fn include(&mut self, block: u32)
        requires { block < block_count self.old }
        ensures { self.new ≡ record self.old { eligible = slice_set self.old.eligible block true } }
    {
        self.queue.raise_to(block, self.kept[block as usize] + 1);
    }
}
