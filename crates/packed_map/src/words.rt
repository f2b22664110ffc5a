ghost use Rattle.std.specs.Prelude.{◌≡◌, ◌≢◌, ◌<◌, ◌≤◌, ◌+◌, ◌*◌, ◌/◌, ◌%◌, ◌^◌, ℕ, length, replicate, slice_set, slice_index_or, vec_capacity, IfOk};
ghost use Rattle.packed_map.specs.Groups.{number_at, AreGrouped};
ghost use Rattle.packed_map.specs.Finding.{Finds};

use std::alloc::{AllocError, Global};
use std::marker::Model;

/// How many numbers a group has.
const GROUP: usize = 256;

// How many numbers of 32 bits there are.
const WORDS: u64 = 4_294_967_296;

/// Numbers of 32 bits, in groups of 256. Those groups in which each number is 0 take no memory but a place.
#[derive(Drop)]
pub struct SparseWords {
    len: usize,
    // Where each group is kept, in groups. All of which each number is 0 are kept at the first place.
    places: Vec<u32>,
    // Room for every group is there from the start, so that a set needs no memory.
    kept: Vec<u32>,
    used: u32,
}

// Clauses see the list of the numbers.
impl Model for SparseWords {
    ghost use Rattle.std.specs.Prelude.{◌<◌, ◌≤◌, ◌+◌, ◌*◌, ◌^◌, List, ℕ, length, vec_capacity};
    ghost use Rattle.packed_map.specs.Groups.{number_at, AreGrouped};
    ghost use Rattle.packed_map.specs.Parts.{values_of};

    ghost Value = { List ℕ };

    ghost view = { λ n. values_of (number_at n.places.items n.kept.items) n.len };

    ghost invariant = { λ n. record {
      kept : AreGrouped n.places.items n.kept.items n.used;
      all : n.len < length n.places.items * 256;
      few : length n.places.items + 1 < 2 ^ 32;
      room : length n.places.items * 256 + 256 ≤ vec_capacity n.kept;
    } };
}

impl SparseWords {
    /// Each number is 0.
    pub fn new(alloc: Global, len: u32) -> Result<Self, AllocError>
        ensures { IfOk result (λ numbers. numbers ≡ replicate len 0) }
    {
        let groups = len as usize / GROUP + 1;
        let mut kept = Vec::with_capacity(alloc, groups * GROUP + GROUP)?;
        kept.resize(GROUP, 0)?;
        Ok(SparseWords {
            len: len as usize,
            places: vec![in alloc; 0; groups]?,
            kept,
            used: 1,
        })
    }

    /// How many numbers there are.
    pub fn len(&self) -> usize
        ensures { result ≡ length self.now }
    {
        self.len
    }

    /// The number at an index.
    pub fn get(&self, index: usize) -> u32
        requires { index < length self.now }
        ensures { result ≡ slice_index_or self.now index 0 }
    {
        if self.used == 1 {
            return 0;
        }
        self.kept[self.places[index / GROUP] as usize * GROUP + index % GROUP]
    }

    /// The last of these indices at which a number stands. All of them are in one group.
    pub fn find(&self, first: usize, end: usize, number: u32) -> Option<usize>
        requires within { (first < end) × (end ≤ length self.now) }
        requires group { end ≤ first / 256 * 256 + 256 }
        ensures { Finds (λ i. slice_index_or self.now i 0 % 4294967296 ≡ number) first end result }
    {
        let start = self.places[first / GROUP] as usize * GROUP + first % GROUP;
        let mut found = None;
        for i in first..end {
            if u64::from(self.kept[start + (i - first)]) % WORDS == u64::from(number) {
                found = Some(i);
            }
        }
        found
    }

    /// Sets the number at an index.
    pub fn set(&mut self, index: usize, number: u32)
        requires { index < length self.old }
        ensures { self.new ≡ slice_set self.old index number }
    {
        if number == 0 && self.get(index) == 0 {
            return;
        }
        own_place(
            &mut self.places,
            &mut self.kept,
            &mut self.used,
            index / GROUP,
        );
        self.kept[self.places[index / GROUP] as usize * GROUP + index % GROUP] = number;
    }
}

// Gives a group a place of its own, if it has none. In its callers it would take up registers for what is seldom done.
#[inline(never)]
fn own_place(places: &mut Vec<u32>, kept: &mut Vec<u32>, used: &mut u32, group: usize)
    requires kept { AreGrouped places.old.items kept.old.items used.old }
    requires group { group < length places.old.items }
    requires few { length places.old.items + 1 < 2 ^ 32 }
    requires room { length places.old.items * 256 + 256 ≤ vec_capacity kept.old }
    ensures kept { AreGrouped places.new.items kept.new.items used.new }
    ensures own { slice_index_or places.new.items group 0 ≢ 0 }
    ensures same { (k : ℕ) → k / 256 < length places.old.items
        → number_at places.new.items kept.new.items k
        ≡ number_at places.old.items kept.old.items k }
    ensures size { length places.new.items ≡ length places.old.items }
    ensures room { vec_capacity kept.old ≤ vec_capacity kept.new }
{
    if places[group] != 0 {
        return;
    }
    let _ = kept.resize(kept.len() + GROUP, 0);
    places[group] = *used;
    *used += 1;
}
