ghost use Rattle.std.specs.Prelude.{◌≡◌, ◌^◌, ◌<◌, length, slice_index, EachIndex, IfOk};
ghost use Rattle.victims.specs.Permutation.{AreInverse, HasMoved};

use std::alloc::{AllocError, Global};

/// Items in an order that also knows the place of each.
#[derive(Drop)]
pub struct Permutation {
    /// The item at each place.
    pub order: Vec<u32>,
    /// The place of each item.
    pub places: Vec<u32>,
    ghost inverse: { AreInverse order.items places.items },
    ghost few: { length order.items < 2 ^ 32 },
}

impl Permutation {
    /// The items in their own order.
    pub fn new(alloc: Global, items: u32) -> Result<Self, AllocError>
        ensures { IfOk result (λ p. length p.places.items ≡ items) }
    {
        Ok(Permutation {
            order: in_turn(alloc, items)?,
            places: in_turn(alloc, items)?,
        })
    }

    /// Moves an item to a place, and the item from there to its place.
    pub fn move_to(&mut self, item: u32, to: u32)
        requires item { item < length self.old.places.items }
        requires to { to < length self.old.places.items }
        ensures moved { HasMoved self.old.places.items self.new.places.items item to }
        ensures length { length self.new.places.items ≡ length self.old.places.items }
    {
        let from = self.places[item as usize];
        let other = self.order[to as usize];
        self.order[from as usize] = other;
        self.places[other as usize] = from;
        self.order[to as usize] = item;
        self.places[item as usize] = to;
    }
}

// The numbers below a number, in turn.
fn in_turn(alloc: Global, below: u32) -> Result<Vec<u32>, AllocError>
    ensures length { IfOk result (λ numbers. length numbers.items ≡ below) }
    ensures numbers { IfOk result
        (λ numbers. EachIndex numbers.items (λ i. slice_index numbers.items i ≡ i)) }
{
    let mut numbers = vec![in alloc; 0; below as usize]?;
    for i in 0..below {
        numbers[i as usize] = i;
    }
    Ok(numbers)
}
