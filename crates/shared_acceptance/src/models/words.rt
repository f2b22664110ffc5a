//! The words of a small device after each call, as the seat of a second broom reads them.
ghost use Rattle.std.specs.Prelude.{◌≡◌, ◌<◌};
ghost use Rattle.geometry.specs.Geometry.{blocks_of, sectors_of, page_bytes_of};
ghost use Rattle.flash_table.specs.Flash.{geometry_of};
ghost use Rattle.broom.specs.Once.{IsReady-prop};
ghost use Rattle.broom.specs.Ready.{IsRested, IsReady as IsBroomReady};
ghost use Rattle.host.specs.Ready.{IsReady};
ghost use Rattle.shared_acceptance.specs.Kept.{IsRested-prop};

use broom::{Broom, Drain, Erase, fold_seat, wipe_all};
use erase_queue::EraseQueue;
use flash_table::{BroomSeat, Flash, NoGate, Pass};
use geometry::{Geometry, Phase, UNMAPPED};
use host::Holding;
use std::process::Abort;
use std::test::Fail;

// A device of nine blocks with the passes of two hosts, a broom, and the seats of two more.
struct Table {
    flash: Flash,
    a: Pass,
    b: Pass,
    broom: Broom,
    seat: BroomSeat,
    watcher: BroomSeat,
    ghost sectors: { sectors_of (geometry_of flash) ≡ 2 },
    ghost blocks: { blocks_of (geometry_of flash) ≡ 9 },
    ghost bytes: { page_bytes_of (geometry_of flash) ≡ 8 },
    ghost a_ready: { IsReady flash a },
    ghost b_ready: { IsReady flash b },
    ghost broom_ready: { IsBroomReady flash broom } by { Prim.hlevel IsReady-prop },
    ghost rested: { IsRested flash seat } by { Prim.hlevel IsRested-prop },
    ghost watcher_rested: { IsRested flash watcher } by { Prim.hlevel IsRested-prop },
}

fn open(rt: &(impl AllocGlobal + Abort), endurance: u32) -> Result<Table, Fail> {
    let geometry = Geometry::new(1, 9, 2, 1, 2, endurance, 2, 3)?;
    let (_queue, mut places) = EraseQueue::new(rt.alloc(), 9, 1)?;
    let Some(place) = places.pop() else {
        unreachable!()
    };
    let (flash, mut passes, mut seats) = Flash::open(rt.alloc(), &geometry)?;
    let Some(b) = passes.pop() else {
        unreachable!()
    };
    let Some(a) = passes.pop() else {
        unreachable!()
    };
    passes.destroy_empty();
    let Some(watcher) = seats.pop() else {
        unreachable!()
    };
    let Some(seat) = seats.pop() else {
        unreachable!()
    };
    let Some(first) = seats.pop() else {
        unreachable!()
    };
    seats.destroy_empty();
    let broom = match Broom::new(rt.alloc(), first, place, &geometry) {
        Ok(broom) => broom,
        Err((_seat, _place)) => panic!(rt; "memory"),
    };
    Ok(Table {
        flash,
        a,
        b,
        broom,
        seat,
        watcher,
    })
}

// A page of one word with this first byte.
fn page(byte: u8) -> [u8; 8] {
    [byte, 0, 0, 0, 0, 0, 0, 0]
}

// The map word of a sector.
fn map_word(flash: &Flash, seat: &mut BroomSeat, sector: u32) -> u64
    requires sector { sector < sectors_of (geometry_of flash.now) }
    requires seat { IsRested flash.now seat.old }
    ensures { IsRested flash.now seat.new }
{
    match flash.broom_look(seat, sector) {
        Some(page) => page.pack(),
        None => UNMAPPED,
    }
}

// The pin word of a block.
fn pin_word(flash: &Flash, seat: &mut BroomSeat, block: u32) -> u64
    requires block { block < blocks_of (geometry_of flash.now) }
    requires seat { IsRested flash.now seat.old }
    ensures { IsRested flash.now seat.new }
{
    flash.load_state(seat, block).pack()
}

// The map words of both sectors, and the pin words of the first two blocks and of the broom's spare.
fn words(flash: &Flash, seat: &mut BroomSeat) -> [u64; 5]
    requires sectors { sectors_of (geometry_of flash.now) ≡ 2 }
    requires blocks { blocks_of (geometry_of flash.now) ≡ 9 }
    requires seat { IsRested flash.now seat.old }
    ensures { IsRested flash.now seat.new }
{
    let first = map_word(flash, seat, 0);
    let second = map_word(flash, seat, 1);
    let zero = pin_word(flash, seat, 0);
    let one = pin_word(flash, seat, 1);
    let spare = pin_word(flash, seat, 6);
    [first, second, zero, one, spare]
}

// The words of a device after it was opened, and after each call on it.
const WORDS: [[u64; 5]; 10] = [
    [0, 0, 0, 0, 0x1000],
    [0x8000_0000_0000_0000, 0, 0x11000, 0, 0x1000],
    [
        0x8000_0000_0000_0000,
        0x8000_0000_0000_0001,
        0x23000,
        0,
        0x1000,
    ],
    [
        0x8000_0000_0000_0000,
        0x8000_0000_0000_0001,
        0x23001,
        0,
        0x1000,
    ],
    [
        0x8000_0000_0001_0000,
        0x8000_0000_0000_0001,
        0x23001,
        0x11000,
        0x1000,
    ],
    [
        0x8000_0000_0001_0000,
        0x8000_0000_0001_0001,
        0x23001,
        0x23000,
        0x1000,
    ],
    [
        0x8000_0000_0001_0000,
        0x8000_0000_0001_0001,
        0x27001,
        0x23000,
        0x1000,
    ],
    [
        0x8000_0000_0001_0000,
        0x8000_0000_0001_0001,
        0x27001,
        0x23000,
        0x1000,
    ],
    [
        0x8000_0000_0001_0000,
        0x8000_0000_0001_0001,
        0x27000,
        0x23000,
        0x1000,
    ],
    [
        0x8000_0000_0001_0000,
        0x8000_0000_0001_0001,
        0x1_0000_0000,
        0x23000,
        0x1000,
    ],
];

// Erases a drained block in its last generation, step by step. Returns its pin word between the condemn and the retirement, as another seat
// reads it, or none if it isn't such a block.
fn erase_in_steps(
    flash: &Flash,
    seat: &mut BroomSeat,
    watcher: &mut BroomSeat,
    block: u32,
) -> Option<u64>
    requires block { block < blocks_of (geometry_of flash.now) }
    requires seat { IsRested flash.now seat.old }
    requires watcher { IsRested flash.now watcher.old }
    ensures seat { IsRested flash.now seat.new }
    ensures watcher { IsRested flash.now watcher.new }
{
    let state = flash.load_state(seat, block);
    if state.phase != Phase::Drained || state.readers > 0 {
        return None;
    }
    if state.generation + 1 != flash.geometry().endurance() {
        return None;
    }
    if !flash.condemn(seat, block, state) {
        return None;
    }
    let word = pin_word(flash, watcher, block);
    wipe_all(flash, seat);
    flash.retire_block(seat);
    Some(word)
}

#[test]
fn each_call_leaves_the_words_of_the_table(rt: HostRuntime) -> Result<(), Fail> {
    let Table {
        flash,
        mut a,
        b,
        mut broom,
        mut seat,
        watcher,
    } = open(&rt, 10)?;
    let opened = words(&flash, &mut seat);
    let _ = host::write(&flash, &mut a, 0, &page(1));
    let first = words(&flash, &mut seat);
    let _ = host::write(&flash, &mut a, 1, &page(2));
    let second = words(&flash, &mut seat);
    let held = match host::hold(&flash, b, 0) {
        Holding::Held(held) => held,
        Holding::Empty(_pass) => panic!(rt; "it is written"),
    };
    let pinned = words(&flash, &mut seat);
    let _ = host::write(&flash, &mut a, 0, &page(3));
    let third = words(&flash, &mut seat);
    let _ = host::write(&flash, &mut a, 1, &page(4));
    let fourth = words(&flash, &mut seat);
    let drain = broom::drain(&flash, &mut broom, &mut NoGate);
    let drained = words(&flash, &mut seat);
    let refused = broom::erase(&flash, &mut broom, 0, &mut NoGate);
    let kept = words(&flash, &mut seat);
    host::retire(&flash, host::release(&flash, held));
    let released = words(&flash, &mut seat);
    let erase = broom::erase(&flash, &mut broom, 0, &mut NoGate);
    let freed = words(&flash, &mut seat);
    host::retire(&flash, a);
    broom::retire_broom(&flash, broom);
    fold_seat(&flash, seat);
    fold_seat(&flash, watcher);
    let found = [
        opened, first, second, pinned, third, fourth, drained, kept, released, freed,
    ];
    assert!(rt; found == WORDS);
    let answers = (
        Drain::Drained {
            block: 0,
            copied: 0,
        },
        Erase::Pinned,
        Erase::Erased {
            block: 0,
            kept: false,
        },
    );
    assert!(rt; (drain, refused, erase) == answers);
    Ok(())
}

// The block is condemned with the pages that were written in it, and belongs to no pass.
#[test]
fn a_condemned_block_has_the_word_of_the_table(rt: HostRuntime) -> Result<(), Fail> {
    let Table {
        flash,
        mut a,
        b,
        mut broom,
        mut seat,
        mut watcher,
    } = open(&rt, 1)?;
    let _ = host::write(&flash, &mut a, 0, &page(1));
    let _ = host::write(&flash, &mut a, 1, &page(2));
    let _ = host::write(&flash, &mut a, 0, &page(3));
    let _ = host::write(&flash, &mut a, 1, &page(4));
    let _ = broom::drain(&flash, &mut broom, &mut NoGate);
    let drained = pin_word(&flash, &mut watcher, 0);
    let condemned = erase_in_steps(&flash, &mut seat, &mut watcher, 0);
    let retired = pin_word(&flash, &mut watcher, 0);
    host::retire(&flash, a);
    host::retire(&flash, b);
    broom::retire_broom(&flash, broom);
    fold_seat(&flash, seat);
    fold_seat(&flash, watcher);
    let found = (drained, condemned, retired);
    assert_eq!(rt; found, (0x27000, Some(0x29000), 0x2b000));
    Ok(())
}
