ghost use Rattle.std.specs.{Prelude.◌≡◌, Bool.OnTrue};
ghost use Rattle.die.specs.Die.{blocks, pages, page_bytes, IsUsable, IsNext};

use die::Die;
use geometry::{Geometry, PageAddr};
use std::process::Abort;
use std::test::Fail;

const FIRST: PageAddr = PageAddr { block: 0, page: 0 };
// What a read of an unprogrammed page returns.
const EMPTY: ([u8; 8], u64) = ([255; 8], 0xffff_ffff_ffff_ffff);

// A die of one LUN, three blocks of two pages of one word, and endurance 2.
#[derive(Drop)]
struct SmallDie {
    die: Die,
    ghost blocks: { blocks die ≡ 3 },
    ghost pages: { pages die ≡ 2 },
    ghost bytes: { page_bytes die ≡ 8 },
}

impl SmallDie {
    fn new(rt: &(impl Abort + AllocGlobal)) -> Result<SmallDie, Fail> {
        let geometry = Geometry::new(1, 3, 2, 1, 3, 2, 0, 0)?;
        assert!(rt; (geometry.blocks(), geometry.pages(), geometry.page_bytes()) == (3, 2, 8));
        Ok(SmallDie {
            die: Die::new(rt.alloc(), &geometry)?,
        })
    }

    // Whether the die has the block, and it isn't retired.
    fn is_usable(&self, block: u32) -> bool
        ensures { OnTrue result (IsUsable self.now.die block) }
    {
        block < 3 && !self.die.retired(block)
    }

    // Whether the page is the next one of a usable block.
    fn is_next(&self, at: PageAddr) -> bool
        ensures { OnTrue result (IsNext self.now.die at) }
    {
        at.page < 2 && self.is_usable(at.block) && self.die.next(at.block) == at.page
    }

    fn program(&mut self, rt: &impl Abort, at: PageAddr, byte: u8, stamp: u32) -> u8 {
        assert!(rt; self.is_next(at));
        self.die.program(at, &[byte, 0, 0, 0, 0, 0, 0, 0], stamp)
    }

    fn copyback(&mut self, rt: &impl Abort, from: PageAddr, to: PageAddr) -> u8 {
        assert!(rt; self.is_usable(from.block) && from.page < self.die.next(from.block));
        assert!(rt; self.is_next(to));
        let geometry = self.die.geometry();
        assert!(rt; geometry.lun_of(from.block) == geometry.lun_of(to.block));
        self.die.copyback(from, to)
    }

    fn erase(&mut self, rt: &impl Abort, block: u32) -> u8 {
        assert!(rt; self.is_usable(block));
        self.die.erase(block)
    }

    // What a read of a page returns: its bytes and its stamp.
    fn read(&self, rt: &impl Abort, at: PageAddr) -> ([u8; 8], u64) {
        assert!(rt; self.is_usable(at.block));
        let mut out = [0; 8];
        let stamp = self.die.read(at, &mut out);
        (out, stamp)
    }
}

#[test]
fn a_die_keeps_and_copies_pages(rt: HostRuntime) -> Result<(), Fail> {
    let mut small = SmallDie::new(&rt)?;
    let next = PageAddr { block: 0, page: 1 };
    let copy = PageAddr { block: 1, page: 0 };
    let programmed = small.program(&rt, FIRST, 1, 2);
    let copied = small.copyback(&rt, FIRST, copy);
    let reads = [
        small.read(&rt, FIRST),
        small.read(&rt, next),
        small.read(&rt, copy),
    ];
    let page = ([1, 0, 0, 0, 0, 0, 0, 0], 2);
    assert!(rt;
        (programmed, copied, small.die.copybacks()) == (0, 0, 1) && reads == [page, EMPTY, page]
    );
    Ok(())
}

#[test]
fn the_last_erase_retires_a_block(rt: HostRuntime) -> Result<(), Fail> {
    let mut small = SmallDie::new(&rt)?;
    small.program(&rt, FIRST, 1, 2);
    let first = small.erase(&rt, 0);
    let programmed = small.die.next(0);
    let read = small.read(&rt, FIRST);
    let second = small.erase(&rt, 0);
    let end = (small.die.retired(0), small.die.erases(0));
    assert!(rt; (first, programmed, read, second, end) == (0, 0, EMPTY, 1, (true, 2)));
    Ok(())
}
