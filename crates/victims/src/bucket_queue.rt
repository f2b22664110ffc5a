ghost use Rattle.std.specs.Prelude.{◌≡◌, ◌≢◌, ℕ, ◌+◌, ◌-◌, ◌^◌, ◌<◌, ◌≤◌, ◌==◌, length, replicate, count_by, slice_set, slice_index, IfOk, IfSome, IfNone};
ghost use Rattle.victims.specs.Buckets.{AreSorted, HasLeastKey};

use crate::permutation::Permutation;
use std::alloc::{AllocError, Global};

/// How many items of a bucket are compared for the smallest weight.
const COMPARED: usize = 8;

/// Items with small keys, sorted by key in flat arrays: a bucket queue. To add one to a key, or to take one from it, costs one swap.
#[derive(Drop)]
pub struct BucketQueue {
    /// The key of each item.
    pub keys: Vec<u16>,
    /// The items, bucket after bucket.
    pub sorted: Permutation,
    /// The first place of each bucket.
    pub starts: Vec<u32>,
    ghost in_order: { AreSorted keys.items sorted.places.items starts.items },
    ghost narrow: { length starts.items ≤ 2 ^ 16 },
}

impl BucketQueue {
    /// All items have the key 0.
    pub fn new(alloc: Global, items: u32, buckets: usize) -> Result<Self, AllocError>
        requires some { 0 < buckets }
        requires narrow { buckets ≤ 2 ^ 16 }
        ensures { IfOk result
            (λ q. (q.keys.items ≡ replicate items 0) × (length q.starts.items ≡ buckets)) }
    {
        let mut starts = vec![in alloc; items; buckets]?;
        starts[0] = 0;
        Ok(BucketQueue {
            keys: vec![in alloc; 0; items as usize]?,
            sorted: Permutation::new(alloc, items)?,
            starts,
        })
    }

    /// Adds one to an item's key.
    pub fn raise(&mut self, item: u32)
        requires item { item < length self.old.keys.items }
        requires room { slice_index self.old.keys.items item + 1 < length self.old.starts.items }
        ensures keys { self.new.keys.items
            ≡ slice_set self.old.keys.items item (slice_index self.old.keys.items item + 1) }
        ensures buckets { length self.new.starts.items ≡ length self.old.starts.items }
    {
        let key = self.keys[item as usize] + 1;
        let last = self.starts[key as usize] - 1;
        self.sorted.move_to(item, last);
        self.starts[key as usize] = last;
        self.keys[item as usize] = key;
    }

    /// Takes one from an item's key.
    pub fn lower(&mut self, item: u32)
        requires item { item < length self.old.keys.items }
        requires some { 0 < slice_index self.old.keys.items item }
        ensures keys { self.new.keys.items
            ≡ slice_set self.old.keys.items item (slice_index self.old.keys.items item - 1) }
        ensures buckets { length self.new.starts.items ≡ length self.old.starts.items }
    {
        let key = self.keys[item as usize];
        let first = self.starts[key as usize];
        self.sorted.move_to(item, first);
        self.starts[key as usize] = first + 1;
        self.keys[item as usize] = key - 1;
    }

    /// Raises an item's key to this one, a step for each key on the way.
    pub fn raise_to(&mut self, item: u32, key: u16)
        requires item { item < length self.old.keys.items }
        requires up { slice_index self.old.keys.items item ≤ key }
        requires room { key < length self.old.starts.items }
        ensures keys { self.new.keys.items ≡ slice_set self.old.keys.items item key }
        ensures buckets { length self.new.starts.items ≡ length self.old.starts.items }
    {
        while self.keys[item as usize] < key {
            self.raise(item);
        }
    }

    /// Lowers an item's key to this one, a step for each key on the way.
    pub fn lower_to(&mut self, item: u32, key: u16)
        requires item { item < length self.old.keys.items }
        requires down { key ≤ slice_index self.old.keys.items item }
        ensures keys { self.new.keys.items ≡ slice_set self.old.keys.items item key }
        ensures buckets { length self.new.starts.items ≡ length self.old.starts.items }
    {
        while self.keys[item as usize] > key {
            self.lower(item);
        }
    }

    /// An item with the least key that is not below `key`, if there is one: of the first few the one with the smallest weight.
    pub fn least(&self, key: u16, weights: &[u32]) -> Option<u32>
        requires key { key < length self.now.starts.items }
        requires weights { length weights.now ≡ length self.now.keys.items }
        ensures some { IfSome result (HasLeastKey self.now.keys.items key) }
        ensures none { IfNone result ((i : ℕ) → i < length self.now.keys.items
            → slice_index self.now.keys.items i < key) }
    {
        let start = self.starts[key as usize] as usize;
        let order = &self.sorted.order;
        if start == order.len() {
            return None;
        }
        let mut best = order[start];
        for place in start + 1..order.len().min(start + COMPARED) {
            let item = order[place];
            if self.keys[item as usize] != self.keys[best as usize] {
                break;
            }
            if weights[item as usize] < weights[best as usize] {
                best = item;
            }
        }
        Some(best)
    }

    /// An item with the least key of all beside one, if there is one.
    pub fn least_beside(&self, avoided: u32) -> u32
        ensures { (i : ℕ) → i < length self.now.keys.items → i ≢ avoided
            → (result < length self.now.keys.items) × (result ≢ avoided)
            × (slice_index self.now.keys.items result ≤ slice_index self.now.keys.items i) }
    {
        let order = &self.sorted.order;
        for place in 0..order.len() {
            if order[place] != avoided {
                return order[place];
            }
        }
        avoided
    }

    /// An item with a key, if there is one. In each turn it is another of them.
    pub fn in_turn(&self, key: u16, turn: u32) -> Option<u32>
        requires { key + 1 < length self.now.starts.items }
        ensures some { IfSome result (λ i. (i < length self.now.keys.items)
            × (slice_index self.now.keys.items i ≡ key)) }
        ensures none { IfNone result ((i : ℕ) → i < length self.now.keys.items
            → slice_index self.now.keys.items i ≢ key) }
    {
        let items = self.count(key);
        if items == 0 {
            return None;
        }
        let place = self.starts[key as usize] + turn % items;
        Some(self.sorted.order[place as usize])
    }

    /// How many items have a key.
    pub fn count(&self, key: u16) -> u32
        requires { key + 1 < length self.now.starts.items }
        ensures { result ≡ count_by (λ k. k == key) self.now.keys.items }
    {
        self.starts[key as usize + 1] - self.starts[key as usize]
    }
}
