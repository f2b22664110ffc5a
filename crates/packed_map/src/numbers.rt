ghost use Rattle.std.specs.Prelude.{◌≡◌, ◌<◌, ◌≤◌, ◌+◌, ◌*◌, ◌/◌, ◌^◌, length, replicate, slice_set, slice_index_or, IfOk};
ghost use Rattle.packed_map.specs.Finding.{Finds};

use crate::bytes::SparseBytes;
use crate::words::SparseWords;
use std::alloc::{AllocError, Global};
use std::marker::Model;

const HALF: u64 = 4_294_967_296;

const BYTE: u64 = 256;

/// Numbers of which most are small: those below 2^32 take four bytes, those below 2^40 five, and zeros next to nothing.
#[derive(Drop)]
pub struct SparseNumbers {
    low: SparseWords,
    middle: SparseBytes,
    high: SparseWords,
}

// Clauses see the list of the numbers.
impl Model for SparseNumbers {
    ghost use Rattle.std.specs.Prelude.{◌≡◌, ◌<◌, ◌^◌, List, ℕ, length, slice_index_or};
    ghost use Rattle.packed_map.specs.Parts.{joined_at, values_of};

    ghost Value = { List ℕ };

    ghost view = { λ n. values_of (joined_at n.low n.middle n.high) (length n.low) };

    ghost invariant = { λ n. record {
      middle : length n.middle ≡ length n.low;
      high : length n.high ≡ length n.low;
      small : (i : ℕ) → slice_index_or n.high i 0 < 2 ^ 24;
    } };
}

impl SparseNumbers {
    /// Each number is 0.
    pub fn new(alloc: Global, len: u32) -> Result<Self, AllocError>
        ensures { IfOk result (λ numbers. numbers ≡ replicate len 0) }
    {
        Ok(SparseNumbers {
            low: SparseWords::new(alloc, len)?,
            middle: SparseBytes::new(alloc, len)?,
            high: SparseWords::new(alloc, len)?,
        })
    }

    /// How many numbers there are.
    pub fn len(&self) -> usize
        ensures { result ≡ length self.now }
    {
        self.low.len()
    }

    /// The number at an index.
    pub fn get(&self, index: usize) -> u64
        requires { index < length self.now }
        ensures { result ≡ slice_index_or self.now index 0 }
    {
        (u64::from(self.high.get(index)) * BYTE + u64::from(self.middle.get(index))) * HALF
            + u64::from(self.low.get(index))
    }

    /// One of these indices, all in one group of 256, at which a number stands.
    pub fn find(&self, first: usize, end: usize, number: u64) -> Option<usize>
        requires within { (first < end) × (end ≤ length self.now) }
        requires group { end ≤ first / 256 * 256 + 256 }
        ensures { Finds (λ i. slice_index_or self.now i 0 ≡ number) first end result }
    {
        match self.low.find(first, end, (number % HALF) as u32) {
            Some(i) if self.get(i) == number => Some(i),
            Some(_) => self.find_whole(first, end, number),
            None => None,
        }
    }

    // The same, where low halves are equal and high ones aren't.
    #[inline(never)]
    fn find_whole(&self, first: usize, end: usize, number: u64) -> Option<usize>
        requires within { (first < end) × (end ≤ length self.now) }
        ensures { Finds (λ i. slice_index_or self.now i 0 ≡ number) first end result }
    {
        for i in first..end {
            if self.get(i) == number {
                return Some(i);
            }
        }
        None
    }

    /// Sets the number at an index.
    pub fn set(&mut self, index: usize, number: u64)
        requires { index < length self.old }
        ensures { self.new ≡ slice_set self.old index number }
    {
        self.low.set(index, (number % HALF) as u32);
        self.middle.set(index, (number / HALF % BYTE) as u8);
        self.high.set(index, (number / HALF / BYTE) as u32);
    }
}
