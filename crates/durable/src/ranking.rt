ghost use Rattle.std.specs.Prelude.{◌≡◌, ◌≢◌, ◌<◌, ◌≤◌, ◌+◌, ◌-◌, ◌^◌, ℕ, length, replicate, slice_set, slice_index, slice_index_or, IfOk, IfSome, IfNone};
ghost use Rattle.durable.specs.Collecting.{IsNotOpen};

use crate::next_pages::NextPages;
use crate::search::fewest;
use std::alloc::{AllocError, Global};
use std::marker::Model;
use victims::BucketQueue;

// How many blocks are compared for the least erased one.
pub(crate) const COMPARED: usize = 8;

pub(crate) const NO_BLOCK: u32 = u32::MAX;

/// When a block was opened, in erases of all blocks, and how often what it was opened for had been copied.
#[derive(Clone, Copy)]
pub struct Opening {
    pub turn: u32,
    pub copies: u32,
}

/// How many live pages each block has, and the blocks in the order of that.
#[derive(Drop)]
pub struct Counts {
    pub(crate) counts: Vec<u32>,
    // How often each block was erased.
    pub(crate) erases: Vec<u16>,
    // The key of a block is its count, or the greatest key if that is less.
    pub(crate) queue: BucketQueue,
    pub(crate) openings: Vec<Opening>,
    // A block with live pages that was erased less often than the others that were looked at.
    pub(crate) coldest: u32,
    pub(crate) pages: u32,
    // How many copies that a call doesn't need come before its program at most; 0 if no block is opened for hosts.
    pub(crate) most_copies: u32,
}

impl Model for Counts {
    ghost use Rattle.std.specs.Prelude.{◌≡◌, ◌<◌, ◌≤◌, ◌+◌, ◌^◌, ℕ, List, length, slice_index};

    ghost Value = { List ℕ };

    ghost view = { λ s. s.counts.items };

    ghost invariant = { λ s. record {
      same : length s.queue.keys.items ≡ length s.counts.items;
      erases : length s.erases.items ≡ length s.counts.items;
      openings : length s.openings.items ≡ length s.counts.items;
      few : length s.counts.items < 2 ^ 32;
      some : 1 < length s.queue.starts.items;
      at_most : (b : ℕ) → b < length s.counts.items → slice_index s.queue.keys.items b ≤ slice_index s.counts.items b;
      exact : (b : ℕ) → b < length s.counts.items → slice_index s.queue.keys.items b + 1 < length s.queue.starts.items
          → slice_index s.queue.keys.items b ≡ slice_index s.counts.items b;
    } };
}

impl Counts {
    /// No block has a live page.
    pub fn new(alloc: Global, blocks: u32, pages: u32) -> Result<Counts, AllocError>
        ensures { IfOk result (λ counts. counts ≡ replicate blocks 0) }
    {
        Ok(Counts {
            counts: vec![in alloc; 0; blocks as usize]?,
            erases: vec![in alloc; 0; blocks as usize]?,
            queue: BucketQueue::new(alloc, blocks, (pages as usize).min(65534) + 2)?,
            openings: vec![in alloc; Opening { turn: 0, copies: 0 }; blocks as usize]?,
            coldest: NO_BLOCK,
            pages,
            most_copies: 0,
        })
    }

    /// How many blocks there are.
    pub fn len(&self) -> usize
        ensures { result ≡ length self.now }
    {
        self.counts.len()
    }

    /// How many live pages a block has.
    pub fn get(&self, block: u32) -> u32
        requires { block < length self.now }
        ensures { result ≡ slice_index_or self.now block 0 }
    {
        self.counts[block as usize]
    }

    /// A block has a live page more.
    pub fn add(&mut self, block: u32)
        requires block { block < length self.old }
        requires room { slice_index_or self.old block 0 + 1 < 2 ^ 32 }
        ensures { self.new ≡ slice_set self.old block (slice_index_or self.old block 0 + 1) }
    {
        if (self.queue.keys[block as usize] as usize) + 1 < self.queue.starts.len() {
            self.queue.raise(block);
        }
        self.counts[block as usize] += 1;
    }

    /// A block has a live page less.
    pub fn take(&mut self, block: u32)
        requires block { block < length self.old }
        requires some { 0 < slice_index_or self.old block 0 }
        ensures { self.new ≡ slice_set self.old block (slice_index_or self.old block 0 - 1) }
    {
        if self.queue.keys[block as usize] as u32 == self.counts[block as usize] {
            self.queue.lower(block);
        }
        self.counts[block as usize] -= 1;
    }

    /// A block was erased so often before the mount.
    pub fn erased_before(&mut self, block: u32, erases: u32)
        requires { block < length self.old }
        ensures { self.new ≡ self.old }
    {
        self.erases[block as usize] = erases.min(u32::from(u16::MAX)) as u16;
    }

    /// A block was erased, after so many others, and is opened for copies from a block, or for hosts.
    pub fn erased(&mut self, block: u32, turn: u32, source: u32)
        requires { block < length self.old }
        ensures { self.new ≡ self.old }
    {
        let copies = self.copies_from(source);
        self.openings[block as usize] = Opening { turn, copies };
        self.erases[block as usize] = self.erases[block as usize].saturating_add(1);
        self.coldest = self.colder(turn);
    }

    /// A block without live pages, if there is one: of a few the least erased. In each turn these are others, so that blocks wear evenly.
    pub fn empty(&self, turn: u32) -> Option<u32>
        ensures some { IfSome result (λ b. (b < length self.now)
            × (slice_index_or self.now b 0 ≡ 0)) }
        ensures none { IfNone result ((b : ℕ) → b < length self.now
            → 0 < slice_index_or self.now b 0) }
    {
        let block = self.queue.in_turn(0, turn)?;
        Some(by_erases(&self.queue, &self.erases, block, NO_BLOCK, false))
    }

    /// A block without live pages, if there is one: for copies the most erased of a few, since what is copied is written seldom, and for hosts the least.
    pub fn empty_for(&self, next: NextPages) -> Option<u32>
        ensures some { IfSome result (λ b. (b < length self.now)
            × (slice_index_or self.now b 0 ≡ 0)) }
    {
        let block = self.queue.in_turn(0, 0)?;
        Some(by_erases(
            &self.queue,
            &self.erases,
            block,
            NO_BLOCK,
            next.hosts.is_some(),
        ))
    }

    /// Blocks are opened for hosts from now on, with so many copies before a program at most.
    pub fn keep_copies_apart(&mut self, most_copies: u32)
        ensures { self.new ≡ self.old }
    {
        self.most_copies = most_copies;
    }

    /// A closed block without live pages, beside one, if blocks are opened for hosts.
    pub fn other_empty(&self, next: NextPages, avoided: u32) -> Option<u32>
        ensures { IfSome result (λ b. (b < length self.now) × (slice_index_or self.now b 0 ≡ 0)
            × IsNotOpen next b × (b ≢ avoided)) }
    {
        if self.most_copies == 0 {
            return None;
        }
        for turn in 0..4 {
            let block = self.queue.in_turn(0, turn)?;
            if block != avoided && next.is_closed(block) {
                return Some(block);
            }
        }
        None
    }

    /// The block with the fewest live pages, beside one: of a few the least erased.
    #[inline(always)]
    pub fn fewest(&self, avoided: u32) -> u32
        ensures { (b : ℕ) → b < length self.now → b ≢ avoided
            → (result < length self.now) × (result ≢ avoided)
            × (slice_index_or self.now result 0 ≤ slice_index_or self.now b 0) }
    {
        let best = self.queue.least_beside(avoided);
        if (best as usize) < self.counts.len() {
            if (self.queue.keys[best as usize] as usize) + 1 < self.queue.starts.len() {
                return if self.counts[best as usize] == 0 {
                    best
                } else {
                    by_erases(&self.queue, &self.erases, best, avoided, false)
                };
            }
        }
        fewest(&self.counts, avoided)
    }
}

// The least erased of a block and of a few behind it that have its key, beside one; or the most erased.
#[inline(never)]
fn by_erases(queue: &BucketQueue, erases: &[u16], block: u32, avoided: u32, is_most: bool) -> u32
    requires block { block < length queue.now.keys.items }
    requires erases { length erases.now ≡ length queue.now.keys.items }
    ensures within { result < length queue.now.keys.items }
    ensures key { slice_index queue.now.keys.items result
        ≡ slice_index queue.now.keys.items block }
    ensures beside { block ≢ avoided → result ≢ avoided }
{
    let order = &queue.sorted.order;
    let first = queue.sorted.places[block as usize] as usize + 1;
    let mut best = block;
    for place in first..order.len().min(first + COMPARED) {
        let other = order[place];
        if queue.keys[other as usize] != queue.keys[block as usize] {
            break;
        }
        let is_less = worn(erases, other, avoided) < worn(erases, best, avoided);
        if other != avoided && is_less != is_most {
            best = other;
        }
    }
    best
}

// How often a block was erased, and once more if it is near to another one: mostly they are then of one LUN, and a copy keeps that busy alone.
fn worn(erases: &[u16], block: u32, other: u32) -> u32
    requires { block < length erases.now }
{
    let is_near = (block.abs_diff(other) as usize) < erases.len() / 4;
    u32::from(erases[block as usize]) + u32::from(is_near)
}
