//! A read pins a block after an erase has loaded its state and before the erase condemns it, in two threads.
ghost use Rattle.std.specs.Prelude.{All, ◌≡◌, length};
ghost use Rattle.host.specs.Ready.{IsReady};
ghost use Rattle.volume.specs.Volume.{IsBroomReady, flash_of};
ghost use Rattle.shared_acceptance.specs.Kept.{IsHome};

use crate::actors::actor_setup::{fold, give_back, next_broom, next_host};
use crate::actors::calls::{Call, Done, EMPTY, WORDS, WRITTEN, hold};
use crate::actors::{Actor, Home, call_at, gated_call_at};
use crate::closing::close;
use broom::{Broom, Drain, Erase};
use flash_table::{Gate, Pass, Point};
use geometry::Geometry;
use std::marker::Brand;
use std::sync::Wait;
use std::sync::atomic::{AtomicBool, Ordering};
use std::test::Fail;
use std::thread::{Threads, for_each_mut, yield_now};
use volume::Volume;

// How often a thread looks for a flag of the other one.
const LOOKS: u32 = 100_000_000;

// What has happened so far, for the other thread to see.
#[derive(Drop)]
struct Flags {
    looked: AtomicBool,
    loaded: AtomicBool,
    pinned: AtomicBool,
    refused: AtomicBool,
}

// Waits until the flag is set. Returns false if it wasn't set in time.
fn wait_for(flag: &AtomicBool) -> bool {
    for _ in 0..LOOKS {
        if flag.load(Ordering::SeqCst) {
            return true;
        }
        yield_now();
    }
    false
}

// At a point it sets a flag, and waits until the other thread has set another one.
#[derive(Drop)]
struct Meeting<'f> {
    flags: &'f Flags,
    right: bool,
}

impl Gate for Meeting<'_> {
    fn at(&mut self, point: Point) {
        let (own, other) = match point {
            Point::AfterLook => (&self.flags.looked, &self.flags.loaded),
            Point::AfterPin => (&self.flags.pinned, &self.flags.refused),
            Point::BeforeErase => (&self.flags.loaded, &self.flags.pinned),
            _ => return,
        };
        own.store(true, Ordering::SeqCst);
        self.right = wait_for(other) && self.right;
    }
}

// A thread: a host that reads, or a host that writes with a broom that collects; and whether each call returned its expected answer.
#[derive(Drop)]
struct Side<'a, 'f, H: Home> {
    host: Option<Actor<'a, H>>,
    broom: Option<Actor<'a, H>>,
    flags: &'f Flags,
    right: bool,
}

const DRAINED: Done = Done::Drained(Drain::Drained {
    block: 0,
    copied: 0,
});

const ERASED: Done = Done::Erased(Erase::Erased {
    block: 0,
    kept: false,
});

const PINNED: Done = Done::Erased(Erase::Pinned);

impl<'a, 'f, H: Home> Side<'a, 'f, H> {
    fn expect(&mut self, holds: bool) {
        self.right = self.right && holds;
    }

    fn write(&mut self, rt: &impl Wait, sector: u32, number: u64, answer: Done) {
        let done = call_at(&mut self.host, rt, Call::Write(sector, number));
        self.expect(done == answer);
    }

    // Reads the first value, whatever the other thread does in the meantime.
    fn read(&mut self, rt: &impl Wait) {
        let mut gate = Meeting {
            flags: self.flags,
            right: true,
        };
        let done = gated_call_at(&mut self.host, rt, Call::Read(0), &mut gate);
        self.expect(gate.right && done == Done::Read(Some(1), 1));
    }

    // Between the look and the pin of the reader this writes both sectors again, drains their block, and begins to erase it.
    fn collect(&mut self, rt: &impl Wait) {
        let has_looked = wait_for(&self.flags.looked);
        self.write(rt, 0, 3, WRITTEN);
        self.write(rt, 1, 4, WRITTEN);
        let drained = call_at(&mut self.broom, rt, Call::Drain);
        let mut gate = Meeting {
            flags: self.flags,
            right: true,
        };
        let erased = gated_call_at(&mut self.broom, rt, Call::Erase(0), &mut gate);
        self.flags.refused.store(true, Ordering::SeqCst);
        self.expect(has_looked && gate.right && drained == DRAINED && erased == PINNED);
    }

    fn run(&mut self, rt: &impl Wait) {
        if self.broom.is_some() {
            self.collect(rt);
        } else {
            self.read(rt);
        }
    }
}

// Returns a side's pass, and whether its calls returned the expected answers. Its broom is folded.
fn end<H: Home>(
    rt: &impl Wait,
    volume: &Volume,
    side: Option<Side<'_, '_, H>>,
    passes: &mut Vec<Pass>,
) -> bool
    requires home { IsHome H.home volume.now }
    requires ready { All (IsReady (flash_of volume.now)) passes.old.items }
    ensures { All (IsReady (flash_of volume.now)) passes.new.items }
{
    let Some(side) = side else {
        return false;
    };
    let Side {
        host,
        broom,
        flags: _,
        right,
    } = side;
    fold(rt, broom);
    give_back(volume, host, passes);
    right
}

// Returns the passes, and whether each call returned its expected answer.
fn play<'x, R: Threads + Wait + Sync, H: Home + Send + Sync>(
    rt: &R,
    volume: &'x Volume,
    passes: Vec<Pass>,
    brooms: Vec<Broom>,
    flags: &Flags,
) -> (Vec<Pass>, bool)
    requires home { IsHome H.home volume.now }
    requires ready { All (IsReady (flash_of volume.now)) passes.items }
    requires brooms { All (IsBroomReady volume.now) brooms.items }
    requires one { length brooms.items ≡ 1 }
    ensures { All (IsReady (flash_of volume.now)) result.0.items }
{
    let (mut passes, mut brooms) = (passes, brooms);
    let mut reader: Side<'x, '_, H> = Side {
        host: next_host(volume, &mut passes),
        broom: None,
        flags,
        right: true,
    };
    let mut writer = Side {
        host: next_host(volume, &mut passes),
        broom: next_broom(volume, &mut brooms),
        flags,
        right: true,
    };
    brooms.destroy_empty();
    writer.write(rt, 0, 1, EMPTY);
    writer.write(rt, 1, 2, EMPTY);
    let mut sides = [reader, writer];
    for_each_mut(rt, &mut sides, 2, &|_, side| side.run(rt));
    let erased = call_at(&mut sides[1].broom, rt, Call::Erase(0));
    sides[1].expect(erased == ERASED);
    let mut sides = sides.into_iter();
    let reader_right = end(rt, volume, sides.next(), &mut passes);
    let writer_right = end(rt, volume, sides.next(), &mut passes);
    (passes, reader_right && writer_right)
}

#[test]
fn a_pin_between_the_load_and_the_condemn_refuses_the_erase(rt: HostRuntime) -> Result<(), Fail> {
    let geometry = Geometry::new(1, 5, 2, WORDS, 2, 10, 2, 1)?;
    let (volume, passes, brooms) = Volume::open(rt.alloc(), &geometry)?;
    let flags = Flags {
        looked: AtomicBool::new(false),
        loaded: AtomicBool::new(false),
        pinned: AtomicBool::new(false),
        refused: AtomicBool::new(false),
    };
    let (passes, right) = play::<HostRuntime, Brand>(&rt, &volume, passes, brooms, &flags);
    assert!(rt; right);
    assert!(rt; !passes.is_empty());
    let sectors = close(&rt, volume, passes);
    assert!(rt; hold(sectors.as_slice(), &[3, 4]));
    Ok(())
}
