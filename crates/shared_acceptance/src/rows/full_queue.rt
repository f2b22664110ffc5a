//! A broom at a queue that another pass has filled, over the calls of `broom`, `host` and the queue itself.
ghost use Rattle.std.specs.Prelude.{◌≡◌, ◌+◌, ◌<◌, All, length};
ghost use Rattle.geometry.specs.Geometry.{blocks_of, sectors_of, page_bytes_of};
ghost use Rattle.erase_queue.specs.Queue.{IsNewPass, limit_of};
ghost use Rattle.flash_table.specs.Flash.{geometry_of};
ghost use Rattle.broom.specs.Handing.{IsQueued};
ghost use Rattle.broom.specs.Once.{IsQueued-prop, IsReady-prop};
ghost use Rattle.broom.specs.Ready.{IsReady as IsBroomReady};
ghost use Rattle.host.specs.Ready.{IsReady};

use crate::threads::queue_users::{QueueCall, next_user};
use broom::{Broom, Drain, Erase, drain_one, erase_one, fold};
use erase_queue::{EraseQueue, QueuePass};
use flash_table::{Flash, NoGate, Pass};
use geometry::Geometry;
use std::process::Abort;
use std::sync::Wait;
use std::test::Fail;

// A device of five blocks with the passes of two hosts, and a broom at the queue, which another pass has filled.
struct FullQueue {
    flash: Flash,
    queue: EraseQueue,
    a: Pass,
    b: Pass,
    broom: Broom,
    ghost sectors: { sectors_of (geometry_of flash) ≡ 2 },
    ghost bytes: { page_bytes_of (geometry_of flash) ≡ 8 },
    ghost limit: { limit_of queue ≡ blocks_of (geometry_of flash) },
    ghost a_ready: { IsReady flash a },
    ghost b_ready: { IsReady flash b },
    ghost broom_ready: { IsBroomReady flash broom } by { Prim.hlevel IsReady-prop },
    ghost queued: { IsQueued queue broom } by { Prim.hlevel IsQueued-prop },
}

const PUTS: [QueueCall; 6] = [
    QueueCall::Put(0, true),
    QueueCall::Put(1, true),
    QueueCall::Put(2, true),
    QueueCall::Put(3, true),
    QueueCall::Put(4, true),
    QueueCall::Put(0, false),
];

// The last of these passes fills the queue. Returns whether it has.
fn fill(rt: &impl Wait, queue: &EraseQueue, places: &mut Vec<QueuePass>) -> bool
    requires some { 0 < length places.old.items }
    requires places { All (IsNewPass queue.now) places.old.items }
    ensures long { length places.new.items + 1 ≡ length places.old.items }
    ensures places { All (IsNewPass queue.now) places.new.items }
{
    let mut filler = next_user(queue, places);
    filler.answers(rt, &PUTS)
}

fn open(rt: &(impl AllocGlobal + Abort + Wait)) -> Result<FullQueue, Fail> {
    let geometry = Geometry::new(1, 5, 2, 1, 2, 10, 2, 1)?;
    let (queue, mut places) = EraseQueue::new(rt.alloc(), 5, 2)?;
    assert!(rt; fill(rt, &queue, &mut places));
    let Some(place) = places.pop() else {
        unreachable!()
    };
    let (flash, mut passes, mut seats) = Flash::open(rt.alloc(), &geometry)?;
    let Some(b) = passes.pop() else {
        unreachable!()
    };
    let Some(a) = passes.pop() else {
        unreachable!()
    };
    passes.destroy_empty();
    let Some(seat) = seats.pop() else {
        unreachable!()
    };
    seats.destroy_empty();
    let broom = match Broom::new(rt.alloc(), seat, place, &geometry) {
        Ok(broom) => broom,
        Err((_seat, _place)) => panic!(rt; "memory"),
    };
    Ok(FullQueue {
        flash,
        queue,
        a,
        b,
        broom,
    })
}

// A page of one word with this first byte.
fn page(byte: u8) -> [u8; 8] {
    [byte, 0, 0, 0, 0, 0, 0, 0]
}

const DRAINS: [Drain; 3] = [
    Drain::Drained {
        block: 0,
        copied: 0,
    },
    Drain::QueueFull,
    Drain::NothingToGain,
];

const ERASES: [Erase; 3] = [
    Erase::Erased {
        block: 0,
        kept: false,
    },
    Erase::Stale,
    Erase::Stale,
];

// The broom sets the block that it drains aside, and erases it before the blocks of the queue, none of which is drained.
#[test]
fn a_block_is_set_aside_while_another_pass_fills_the_queue(rt: HostRuntime) -> Result<(), Fail> {
    let FullQueue {
        flash,
        queue,
        mut a,
        b,
        mut broom,
    } = open(&rt)?;
    let _ = host::write(&flash, &mut a, 0, &page(1));
    let _ = host::write(&flash, &mut a, 1, &page(2));
    let _ = host::write(&flash, &mut a, 0, &page(3));
    let _ = host::write(&flash, &mut a, 1, &page(4));
    let first = drain_one(&flash, &queue, &rt, &mut broom, &mut NoGate);
    let second = drain_one(&flash, &queue, &rt, &mut broom, &mut NoGate);
    let aside = erase_one(&flash, &queue, &rt, &mut broom, &mut NoGate);
    let third = drain_one(&flash, &queue, &rt, &mut broom, &mut NoGate);
    let zero = erase_one(&flash, &queue, &rt, &mut broom, &mut NoGate);
    let one = erase_one(&flash, &queue, &rt, &mut broom, &mut NoGate);
    fold(&flash, &queue, &rt, broom);
    host::retire(&flash, a);
    host::retire(&flash, b);
    assert!(rt; [first, second, third] == DRAINS);
    assert!(rt; [aside, zero, one] == ERASES);
    Ok(())
}
