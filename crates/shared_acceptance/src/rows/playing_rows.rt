//! Plays a row on a device of its own, which is closed at the end.
ghost use Rattle.std.specs.Prelude.{◌≤◌, All, length};
ghost use Rattle.host.specs.Ready.{IsReady};
ghost use Rattle.volume.specs.Volume.{IsBroomReady, flash_of};
ghost use Rattle.shared_acceptance.specs.Kept.{IsHome};

use crate::actors::Home;
use crate::actors::actor_setup::{end_all, next_broom, next_host};
use crate::actors::calls::{WORDS, hold};
use crate::actors::idle_actors::{IdleActors, Who};
use crate::closing::close;
use crate::schedules::schedule::{ExpectedCall, Schedule, Step};
use broom::Broom;
use flash_table::{Pass, Point};
use geometry::Geometry;
use std::marker::Brand;
use std::process::Abort;
use std::sync::Wait;
use std::test::Fail;
use volume::Volume;

/// A device with two sectors, two hosts, and blocks of two pages: how many blocks it has, how often each may be erased, and how
/// many brooms it has, at most two.
#[derive(Clone, Copy)]
pub(crate) struct Device {
    pub blocks: u32,
    pub endurance: u32,
    pub brooms: u32,
}

/// What is done on one device, and what the sectors hold at the end.
#[derive(Clone, Copy)]
pub(crate) struct Row<'a> {
    pub name: &'a str,
    pub device: Device,
    pub steps: &'a [Step],
    /// What others do at the gate of a call.
    pub meanwhile: &'a [(Who, ExpectedCall)],
    /// Their numbers, 0 for an empty one.
    pub sectors: [u64; 2],
}

// Makes the steps up to the first one whose call returns another answer, and returns how many were right.
fn play<'x, 's, R: Wait, H: Home>(
    rt: &'x R,
    volume: &'x Volume,
    passes: Vec<Pass>,
    brooms: Vec<Broom>,
    steps: &[Step],
    meanwhile: &'s [(Who, ExpectedCall)],
) -> (Vec<Pass>, usize)
    requires home { IsHome H.home volume.now }
    requires ready { All (IsReady (flash_of volume.now)) passes.items }
    requires brooms { All (IsBroomReady volume.now) brooms.items }
    requires two { length brooms.items ≤ 2 }
    ensures { All (IsReady (flash_of volume.now)) result.0.items }
{
    let (mut passes, mut brooms) = (passes, brooms);
    let b = next_host(volume, &mut passes);
    let a = next_host(volume, &mut passes);
    let first: Option<_> = next_broom(volume, &mut brooms);
    let second = next_broom(volume, &mut brooms);
    brooms.destroy_empty();
    let idle: IdleActors<'x, H> = IdleActors {
        a,
        b,
        c: None,
        first,
        second,
    };
    let mut schedule = Schedule {
        rt,
        idle,
        point: Point::Answered,
        calls: meanwhile,
        each: 1,
        right: true,
    };
    let mut done = 0usize;
    for step in steps {
        schedule.step(*step);
        if !schedule.right {
            break;
        }
        done = done.wrapping_add(1);
    }
    end_all(rt, volume, schedule.idle, &mut passes);
    (passes, done)
}

// Plays a row. Each call has to return its expected answer, and the sectors have to hold the expected values.
fn check_row<R: Wait + Abort + AllocGlobal>(rt: &R, row: Row<'_>) -> Result<(), Fail> {
    let Row {
        name,
        device,
        steps,
        meanwhile,
        sectors,
    } = row;
    let Device {
        blocks,
        endurance,
        brooms,
    } = device;
    assert!(rt; brooms <= 2);
    let geometry = Geometry::new(1, blocks, 2, WORDS, 2, endurance, 2, brooms)?;
    let (volume, passes, brooms) = Volume::open(rt.alloc(), &geometry)?;
    let (passes, done) = play::<R, Brand>(rt, &volume, passes, brooms, steps, meanwhile);
    assert!(rt; done == steps.len(), "{:?}", (name, done));
    assert!(rt; !passes.is_empty());
    let closed = close(rt, volume, passes);
    assert!(rt; hold(closed.as_slice(), &sectors), "{name:?}");
    Ok(())
}

/// Plays the rows, each on a device of its own.
pub(crate) fn check_rows<R: Wait + Abort + AllocGlobal>(
    rt: &R,
    rows: &[Row<'_>],
) -> Result<(), Fail> {
    for row in rows {
        check_row(rt, *row)?;
    }
    Ok(())
}
