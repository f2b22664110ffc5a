ghost use Rattle.std.specs.Prelude.{◌<◌, ◌≤◌};

use std::alloc::{AllocError, Global};

// The greatest number of bits that a hint has, and that it leaves out of a sector's number.
const MOST: u32 = 31;

// From so many bits on that are left out, a page without a sector is worth a mark, since to look for its sector takes longer.
const FORGETTING: u32 = 5;

/// For each page a few neighbouring sectors of which it may have one, and whether it was programmed for that one alone. All hints together take at most
/// so many bits a sector: the more pages there are for a sector, the shorter they are, and the more sectors they stand for.
#[derive(Drop)]
pub struct Hints {
    words: Vec<u64>,
    // How many bits a hint has. It may begin in one word and end in the next.
    width: u32,
    // How many low bits of a sector's number are left out.
    scale: u32,
    pub ghost narrow: { width ≤ 31 },
    pub ghost small: { scale ≤ 31 },
}

/// The first of the neighbouring sectors, and whether the page has no other sector.
#[derive(Clone, Copy)]
pub struct Hint {
    pub first: u32,
    pub is_alone: bool,
}

impl Hints {
    /// Nothing is known of any page.
    pub fn new(
        alloc: Global,
        pages: usize,
        sectors: usize,
        most_bits: usize,
    ) -> Result<Hints, AllocError> {
        let width = width_of(pages, sectors, most_bits);
        let bits = pages.saturating_mul(width as usize);
        Ok(Hints {
            words: vec![in alloc; u64::MAX; bits / 64 + 2]?,
            width,
            scale: scale_of(sectors, 1 << width >> 1),
        })
    }

    /// How many sectors a hint stands for.
    pub fn size(&self) -> u32 {
        1 << self.scale
    }

    /// Whether a page that has lost its sector should be forgotten.
    pub fn forgets(&self) -> bool {
        self.scale >= FORGETTING
    }

    /// What is known of a page, if anything is.
    pub fn get(&self, page: usize) -> Option<Hint> {
        let (at, shift) = self.place(page);
        let bits = self.word(at) >> shift | self.word(at.wrapping_add(1)) << 1 << (63 - shift);
        let bits = (bits & u64::from(self.mask())) as u32;
        (bits != self.mask()).then_some(Hint {
            first: bits >> 1 << self.scale,
            is_alone: bits % 2 == 0,
        })
    }

    /// A page has a sector, and perhaps others, if there is such a page.
    pub fn set(&mut self, page: usize, sector: u32, is_alone: bool) {
        self.put(page, sector >> self.scale << 1 | u32::from(!is_alone));
    }

    /// Nothing is known of a page.
    pub fn forget(&mut self, page: usize) {
        self.put(page, self.mask());
    }

    fn put(&mut self, page: usize, hint: u32) {
        let (at, shift) = self.place(page);
        let mask = u64::from(self.mask());
        let hint = u64::from(hint) & mask;
        self.put_bits(at, mask << shift, hint << shift);
        let rest = 63 - shift;
        self.put_bits(at.wrapping_add(1), mask >> 1 >> rest, hint >> 1 >> rest);
    }

    fn put_bits(&mut self, at: usize, mask: u64, bits: u64) {
        if let Some(word) = self.words.get_mut(at) {
            *word = *word & !mask | bits;
        }
    }

    fn word(&self, at: usize) -> u64 {
        match self.words.get(at) {
            Some(word) => *word,
            None => u64::MAX,
        }
    }

    // All bits of a hint. They say that nothing is known, or that the page was programmed for several sectors, from one of the last on.
    fn mask(&self) -> u32 {
        (1 << self.width) - 1
    }

    // The word in which a page's hint begins, and at which bit.
    fn place(&self, page: usize) -> (usize, u32)
        ensures { result.1 < 64 }
    {
        let bit = page.wrapping_mul(self.width as usize);
        (bit / 64, (bit % 64) as u32)
    }
}

// How many bits a hint has: one more than tell the sectors apart, or fewer if that were too many in all.
fn width_of(pages: usize, sectors: usize, most_bits: usize) -> u32
    ensures { result ≤ 31 }
{
    let most = sectors.saturating_mul(most_bits) / pages.max(1);
    for width in 0..MOST {
        if most <= width as usize || sectors <= 1 << width >> 1 {
            return width;
        }
    }
    MOST
}

// How many low bits of a sector's number a hint leaves out, if it can tell so many numbers.
fn scale_of(sectors: usize, numbers: usize) -> u32
    ensures { result ≤ 31 }
{
    for scale in 0..MOST {
        if sectors.saturating_sub(1) >> scale < numbers {
            return scale;
        }
    }
    MOST
}
