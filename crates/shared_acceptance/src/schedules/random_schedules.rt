//! Schedules that are drawn from seeds.
ghost use Rattle.std.specs.Prelude.{◌≡◌, All, length};
ghost use Rattle.host.specs.Ready.{IsReady};
ghost use Rattle.volume.specs.Volume.{IsBroomReady, flash_of};
ghost use Rattle.shared_acceptance.specs.Kept.{IsHome};

use crate::actors::Home;
use crate::actors::actor_setup::{end_all, next_broom, next_host};
use crate::actors::calls::{WORDS, hold};
use crate::actors::idle_actors::IdleActors;
use crate::actors::nested_calls::{InnerGate, OuterGate};
use crate::closing::close;
use crate::models::array_model::{BLOCKS, SECTORS};
use crate::models::oracle::{Looks, Oracle};
use crate::models::tally::Tally;
use broom::Broom;
use flash_table::Pass;
use geometry::Geometry;
use std::env;
use std::marker::Brand;
use std::process::Abort;
use std::rt::Env;
use std::sync::Wait;
use std::test::Fail;
use volume::Volume;

// How many schedules are played if the environment has no SCHEDULES, and how many outermost calls each has.
const SCHEDULES: u64 = 2000;

const CALLS: u32 = 250;

// Plays a schedule, and returns the passes and the oracle.
fn play<'x, R: Wait + Abort + AllocGlobal, H: Home>(
    rt: &'x R,
    volume: &'x Volume,
    passes: Vec<Pass>,
    brooms: Vec<Broom>,
    oracle: Oracle,
) -> (Vec<Pass>, Oracle)
    requires home { IsHome H.home volume.now }
    requires ready { All (IsReady (flash_of volume.now)) passes.items }
    requires brooms { All (IsBroomReady volume.now) brooms.items }
    requires two { length brooms.items ≡ 2 }
    ensures { All (IsReady (flash_of volume.now)) result.0.items }
{
    let (mut passes, mut brooms) = (passes, brooms);
    let idle: IdleActors<'x, H> = IdleActors {
        a: next_host(volume, &mut passes),
        b: next_host(volume, &mut passes),
        c: next_host(volume, &mut passes),
        first: next_broom(volume, &mut brooms),
        second: next_broom(volume, &mut brooms),
    };
    brooms.destroy_empty();
    let mut outer = OuterGate {
        inner: InnerGate {
            rt,
            idle,
            oracle,
            looks: Looks::none(),
        },
        looks: Looks::none(),
    };
    for _ in 0..CALLS {
        outer.step();
    }
    let OuterGate { inner, looks: _ } = outer;
    let InnerGate {
        rt,
        idle,
        oracle,
        looks: _,
    } = inner;
    end_all(rt, volume, idle, &mut passes);
    (passes, oracle)
}

// Plays the schedule of a seed on a device of its own, and returns what has happened so far.
fn play_seed<R: Wait + Abort + AllocGlobal>(
    rt: &R,
    seed: u64,
    tally: Tally,
) -> Result<Tally, Fail> {
    let pages = 1 + (seed % 3) as u32;
    let endurance = 2 + (seed % 7) as u32;
    let geometry = Geometry::new(1, BLOCKS, pages, WORDS, SECTORS, endurance, 3, 2)?;
    let (volume, passes, brooms) = Volume::open(rt.alloc(), &geometry)?;
    let oracle = Oracle::new(seed, endurance, pages, tally);
    let (passes, oracle) = play::<R, Brand>(rt, &volume, passes, brooms, oracle);
    assert!(rt; passes.len() == 3);
    let closed = close(rt, volume, passes);
    let is_right = oracle.is_right() && hold(closed.as_slice(), &oracle.array.numbers);
    assert!(rt; is_right, "{seed:?}");
    Ok(oracle.tally)
}

// How many schedules to play.
fn schedules(rt: &(impl Env + AllocGlobal)) -> u64 {
    match env::var(rt, "SCHEDULES") {
        Ok(number) => number.as_str().parse::<u64>().unwrap_or(SCHEDULES),
        Err(_) => SCHEDULES,
    }
}

#[test]
fn each_answer_agrees_with_the_array_in_every_schedule(rt: HostRuntime) -> Result<(), Fail> {
    let mut tally = Tally::default();
    for seed in 0..schedules(&rt) {
        tally = play_seed(&rt, seed, tally)?;
    }
    println!(rt; "{tally:?}")?;
    let Tally {
        calls: _,
        stops,
        hosts,
        brooms,
    } = tally;
    assert!(rt; stops.are_all_reached());
    assert!(rt; hosts.did_all());
    assert!(rt; brooms.gave_all());
    Ok(())
}
