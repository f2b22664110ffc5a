//! The order in which the blocks of a survey are drained. It is made once a survey, so that no later choice has to look at all blocks.
ghost use Rattle.std.specs.Prelude.{◌≡◌, ◌<◌, ◌≤◌, false, true, IfOk, length, vec_capacity};
ghost use Rattle.geometry.specs.Greedy.{greedy_of};
ghost use Rattle.broom.specs.Survey.{IsRanked, Ranks, key_of};

use std::alloc::{AllocError, Global};

// A block's number is below this, and is in a key below the count of its live pages.
const ONE_PAGE: u64 = 0x1_0000_0000;

// The keys of the blocks that were marked when the ranking was made, in rising order, and the place of the first one that isn't done with.
// A ranking that isn't made yet has keys that mean nothing.
#[derive(Drop)]
pub(crate) struct Ranking {
    pub keys: Vec<u64>,
    pub next: usize,
    pub made: bool,
}

// The key of a block with this many live pages.
fn key(count: u32, block: usize) -> u64
    requires { block < ONE_PAGE }
    ensures { result ≡ key_of count block }
{
    u64::from(count) * ONE_PAGE + block as u64
}

impl Ranking {
    // The room for a ranking of this many blocks, which isn't made yet.
    pub(crate) fn new(alloc: Global, blocks: usize) -> Result<Ranking, AllocError>
        ensures { IfOk result
            (λ ranking. (blocks ≤ vec_capacity ranking.keys) × (ranking.made ≡ false)) }
    {
        let keys = Vec::with_capacity(alloc, blocks)?;
        Ok(Ranking {
            keys,
            next: 0,
            made: false,
        })
    }

    // A new survey was made, by which the next choice ranks the blocks again.
    pub(crate) fn forget(&mut self)
        ensures { self.new ≡ record self.old { made = false } }
    {
        self.made = false;
    }

    // Ranks the marked blocks.
    fn make(&mut self, counts: &[u32], marks: &[bool])
        requires long { length counts.now ≡ length marks.now }
        requires few { length counts.now ≤ ONE_PAGE }
        requires room { length counts.now ≤ vec_capacity self.old.keys }
        ensures ranked { IsRanked counts.now marks.now self.new.keys.items self.new.next }
        ensures room { vec_capacity self.new.keys ≡ vec_capacity self.old.keys }
        ensures made { self.new.made ≡ true }
    {
        self.keys.clear();
        for block in 0..counts.len() {
            if marks[block] {
                self.keys.push_reserved(key(counts[block], block));
            }
        }
        self.keys.sort_unstable();
        self.next = 0;
        self.made = true;
    }

    // The marked block with the fewest live pages, the lowest on a tie. Keys of blocks that aren't marked any more are done with.
    pub(crate) fn first(&mut self, counts: &[u32], marks: &[bool]) -> Option<usize>
        requires long { length counts.now ≡ length marks.now }
        requires few { length counts.now ≤ ONE_PAGE }
        requires ranks { Ranks counts.now marks.now self.old }
        ensures value { result ≡ greedy_of counts.now marks.now }
        ensures ranks { Ranks counts.now marks.now self.new }
    {
        if !self.made {
            self.make(counts, marks);
        }
        while self.next < self.keys.len() {
            let block = (self.keys[self.next] % ONE_PAGE) as usize;
            let marked = marks[block];
            if marked {
                return Some(block);
            }
            self.next += 1;
        }
        None
    }
}
