//! The plain array that checks each answer, with the number of erases of each block.
ghost use Rattle.std.specs.Prelude.{◌<◌};

use broom::{Drain, Erase};
use geometry::Was;

pub(crate) const SECTORS: u32 = 3;

pub(crate) const BLOCKS: u32 = 10;

/// The numbers that the sectors hold, 0 for an empty one.
pub(crate) type Numbers = [u64; 3];

/// The expected array, and the number that was written last. For each block, how often it was erased, and whether it is retired; for
/// each host, the block of the page that it holds, with the page's number.
#[derive(Clone, Copy)]
pub(crate) struct ArrayModel {
    pub numbers: Numbers,
    last: u64,
    endurance: u32,
    erases: [u32; 10],
    retired: [bool; 10],
    held: [Option<u32>; 3],
    held_numbers: [u64; 3],
    // For each host, how many pages of its open block it has programmed; and which blocks are known to be full, and were not drained since.
    programmed: [u32; 3],
    full: [bool; 10],
    /// Whether each answer so far was the expected one.
    pub right: bool,
}

impl ArrayModel {
    pub(crate) fn new(endurance: u32) -> ArrayModel {
        ArrayModel {
            numbers: [0; 3],
            last: 0,
            endurance,
            erases: [0; 10],
            retired: [false; 10],
            held: [None; 3],
            held_numbers: [0; 3],
            programmed: [0; 3],
            full: [false; 10],
            right: true,
        }
    }

    /// A number that was never written.
    pub(crate) fn fresh(&mut self) -> u64 {
        self.last = self.last.wrapping_add(1);
        self.last
    }

    /// A condition that an answer has to meet.
    pub(crate) fn expect(&mut self, holds: bool) {
        self.right = self.right && holds;
    }

    fn was(&self, sector: u32) -> Was
        requires { sector < 3 }
    {
        match self.numbers[sector as usize] {
            0 => Was::Empty,
            _ => Was::Written,
        }
    }

    /// A write or a trim, which writes 0, has returned what the sector was.
    pub(crate) fn put(&mut self, sector: u32, number: u64, was: Was) -> bool
        requires { sector < 3 }
    {
        self.expect(was == self.was(sector));
        self.numbers[sector as usize] = number;
        true
    }

    /// A write of an empty sector has returned what the sector was. Returns whether it has written.
    pub(crate) fn put_new(&mut self, sector: u32, number: u64, was: Was) -> bool
        requires { sector < 3 }
    {
        self.expect(was == self.was(sector));
        if was == Was::Empty {
            self.numbers[sector as usize] = number;
        }
        was == Was::Empty
    }

    /// A read has found this number, and these were the numbers at its last look.
    pub(crate) fn read(&mut self, sector: u32, found: Option<u64>, numbers: &Numbers)
        requires { sector < 3 }
    {
        self.expect(found.unwrap_or(0) == numbers[sector as usize] && found != Some(0));
    }

    /// A look found a sector written, or empty.
    pub(crate) fn ask(&mut self, sector: u32, is_written: bool)
        requires { sector < 3 }
    {
        self.expect(is_written == (self.was(sector) == Was::Written));
    }

    /// A hold found a page in this generation of a block.
    pub(crate) fn hold(&mut self, host: usize, sector: u32, block: u32, generation: u32)
        requires host { host < 3 }
        requires sector { sector < 3 }
    {
        self.expect(self.was(sector) == Was::Written);
        self.expect(block < BLOCKS && generation == self.erases[(block % BLOCKS) as usize]);
        self.held[host] = Some(block);
        self.held_numbers[host] = self.numbers[sector as usize];
    }

    /// A hold found the sector empty.
    pub(crate) fn hold_empty(&mut self, sector: u32)
        requires { sector < 3 }
    {
        self.expect(self.was(sector) == Was::Empty);
    }

    /// A host has looked at the page that it holds.
    pub(crate) fn look(&mut self, host: usize, number: u64)
        requires { host < 3 }
    {
        self.expect(number == self.held_numbers[host]);
    }

    /// A host holds no page any more.
    pub(crate) fn release(&mut self, host: usize)
        requires { host < 3 }
    {
        self.held[host] = None;
    }

    /// A host has programmed a page. Returns whether this has filled its block.
    pub(crate) fn program(&mut self, host: usize, pages: u32) -> bool
        requires { host < 3 }
    {
        let programmed = self.programmed[host].wrapping_add(1);
        self.programmed[host] = if programmed == pages { 0 } else { programmed };
        programmed == pages
    }

    /// The page that a host wrote last was found in this block. It has filled the block, which is therefore closed.
    pub(crate) fn fill(&mut self, found: Option<u32>) {
        let Some(block) = found else {
            self.right = false;
            return;
        };
        self.expect(block < BLOCKS);
        self.full[(block % BLOCKS) as usize] = true;
    }

    /// Whether a page of this block is held.
    pub(crate) fn is_held(&self, block: Option<u32>) -> bool {
        let [a, b, c] = self.held;
        block.is_some() && (a == block || b == block || c == block)
    }

    /// A drain has returned. A block that is retired is never drained.
    pub(crate) fn drain(&mut self, drain: Drain, pages: u32) {
        if let Drain::Drained { block, copied } = drain {
            self.expect(block < BLOCKS && !self.retired[(block % BLOCKS) as usize]);
            self.expect(copied < pages);
            self.full[(block % BLOCKS) as usize] = false;
        }
    }

    /// A drain found nothing to gain, and each block has this many live pages: no closed block has a dead one.
    pub(crate) fn gain_nothing(&mut self, live: &[u32; 10], pages: u32) {
        for block in 0..10 {
            self.expect(!self.full[block] || live[block] == pages);
        }
    }

    /// An erase has returned. A block that is held is not erased, and the last of its erases retires it.
    pub(crate) fn erase(&mut self, erase: Erase) {
        let (block, retires) = match erase {
            Erase::Erased { block, kept: _ } => (block, false),
            Erase::Retired { block } => (block, true),
            Erase::Pinned | Erase::Stale | Erase::QueueEmpty => return,
        };
        self.expect(!self.is_held(Some(block)));
        let k = (block % BLOCKS) as usize;
        self.expect(block < BLOCKS && !self.retired[k]);
        self.erases[k] = self.erases[k].wrapping_add(1);
        self.retired[k] = retires;
        self.expect(retires == (self.erases[k] == self.endurance));
    }
}
