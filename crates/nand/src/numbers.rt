//! The numbers by which the core knows a chip's blocks.
ghost use Rattle.std.specs.Prelude.{◌≡◌, ◌<◌, ◌≤◌, ℕ, min, length};
ghost use Rattle.durable.specs.Failures.{swapped};
ghost use Rattle.nand.specs.Numbers.{chip_block as block_of, chip_page as page_of, most_in_use};

use crate::flash::Shape;
use geometry::PageAddr;

/// The chip's block that has this number.
pub fn chip_block(numbers: &[u32], number: u32) -> u32
    ensures { result ≡ block_of numbers.now number }
{
    numbers.get(number as usize).copied().unwrap_or(number)
}

/// The chip's page.
pub fn chip_page(numbers: &[u32], at: PageAddr) -> PageAddr
    ensures { result ≡ page_of numbers.now at }
{
    PageAddr {
        block: chip_block(numbers, at.block),
        page: at.page,
    }
}

/// How many blocks are in use, if so many are good. The others are a reserve.
pub fn used_of(shape: Shape, good: u32, sectors: u32) -> u32
    ensures used { result ≡ min good (most_in_use shape.blocks shape.spare_blocks shape.pages sectors) }
    ensures few { result ≤ good }
{
    let most = shape.blocks.saturating_sub(shape.spare_blocks);
    let needed = if shape.pages == 0 {
        2
    } else {
        u64::from(sectors / shape.pages) + 2
    };
    u64::from(good).min(u64::from(most).max(needed)) as u32
}

/// Gives two blocks each other's number.
pub fn exchange(numbers: &mut Vec<u32>, a: u32, b: u32)
    ensures swapped { a < length numbers.old.items → b < length numbers.old.items
        → (c : ℕ) → block_of numbers.new.items c ≡ block_of numbers.old.items (swapped a b c) }
    ensures length { length numbers.new.items ≡ length numbers.old.items }
{
    if (a as usize) < numbers.len() && (b as usize) < numbers.len() {
        numbers.swap(a as usize, b as usize);
    }
}
