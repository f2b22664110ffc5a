//! Hosts that race, each in its own thread, without a broom.
ghost use Rattle.std.specs.Prelude.{All};
ghost use Rattle.host.specs.Ready.{IsReady};
ghost use Rattle.volume.specs.Volume.{flash_of};
ghost use Rattle.shared_acceptance.specs.Kept.{IsHome};

use crate::actors::actor_setup::{end_all, next_host};
use crate::actors::calls::{Call, Done, EMPTY, TRIMMED, WORDS, WRITTEN, hold};
use crate::actors::idle_actors::{IdleActors, Who};
use crate::actors::{Actor, Home, call_at};
use crate::closing::close;
use flash_table::Pass;
use geometry::Geometry;
use std::marker::Brand;
use std::sync::Wait;
use std::test::Fail;
use std::thread::{Threads, for_each_mut};
use volume::Volume;

// What a host does in a round.
#[derive(Clone, Copy)]
enum Job {
    /// Writes 1 to 100 to this sector, which is empty, and which no other host writes.
    WriteHundred(u32),
    /// Reads sector 0 a thousand times, while at most one other writes 1 to 100 to it. Each read finds a value that was written, at its first
    /// look, and none finds an earlier one than the read before.
    ReadThousand,
    /// Writes this number to sector 0 if it is empty.
    WriteNew(u64),
    Rest,
}

// A host at its place, and whether it got the expected answers; for a write of an empty sector, whether it has written.
#[derive(Drop)]
struct Racer<'a, H: Home> {
    place: Option<Actor<'a, H>>,
    job: Job,
    right: bool,
    has_written: bool,
}

impl<'a, H: Home> Racer<'a, H> {
    fn new(place: Option<Actor<'a, H>>, job: Job) -> Racer<'a, H> {
        Racer {
            place,
            job,
            right: true,
            has_written: false,
        }
    }

    fn answers(&mut self, rt: &impl Wait, call: Call, answer: Done) {
        let done = call_at(&mut self.place, rt, call);
        self.right = self.right && done == answer;
    }

    fn write_hundred(&mut self, rt: &impl Wait, sector: u32) {
        for number in 1..=100u64 {
            let answer = if number == 1 { EMPTY } else { WRITTEN };
            self.answers(rt, Call::Write(sector, number), answer);
        }
    }

    fn read_thousand(&mut self, rt: &impl Wait) {
        let mut last = 0;
        for _ in 0..1000 {
            let number = match call_at(&mut self.place, rt, Call::Read(0)) {
                Done::Read(found, 1) => found.unwrap_or(0),
                _ => 101,
            };
            self.right = self.right && last <= number && number <= 100;
            last = number;
        }
    }

    // Writes to an empty sector, and returns whether it was found empty or written.
    fn write_new(&mut self, rt: &impl Wait, number: u64) {
        let done = call_at(&mut self.place, rt, Call::New(0, number));
        self.has_written = done == EMPTY;
        self.right = self.right && (done == EMPTY || done == WRITTEN);
    }

    fn run(&mut self, rt: &impl Wait) {
        match self.job {
            Job::WriteHundred(sector) => self.write_hundred(rt, sector),
            Job::ReadThousand => self.read_thousand(rt),
            Job::WriteNew(number) => self.write_new(rt, number),
            Job::Rest => (),
        }
    }
}

// After a round of writes of an empty sector exactly one of the two has written. One of them reads what was written, and the other trims it.
fn check_winner<H: Home>(rt: &impl Wait, racers: &mut [Racer<'_, H>; 3]) {
    if let (Job::WriteNew(first), Job::WriteNew(second)) = (racers[0].job, racers[1].job) {
        let first_won = racers[0].has_written;
        racers[0].right = racers[0].right && first_won != racers[1].has_written;
        let winner = if first_won { first } else { second };
        racers[0].answers(rt, Call::Read(0), Done::Read(Some(winner), 1));
        racers[1].answers(rt, Call::Trim(0), TRIMMED);
    }
}

// The jobs of three hosts on a device of this many blocks, in this many rounds; and what the sectors hold at the end, 0 for an empty one.
#[derive(Clone, Copy)]
struct Race {
    blocks: u32,
    jobs: [Job; 3],
    rounds: u32,
    sectors: [u64; 2],
}

// Whether two hosts meet at the end, and the first and the third then find what the sectors hold.
fn find_last<H: Home>(rt: &impl Wait, idle: &mut IdleActors<'_, H>, sectors: [u64; 2]) -> bool {
    let [zero, one] = sectors;
    let have_met = idle.meet(Who::A, Who::B);
    let first = call_at(&mut idle.a, rt, Call::Read(1));
    let third = call_at(&mut idle.c, rt, Call::Read(0));
    have_met == Some(true) && first == found(one) && third == found(zero)
}

// The answer of a read whose first look finds this number, or an empty sector.
fn found(number: u64) -> Done {
    match number {
        0 => Done::Read(None, 1),
        _ => Done::Read(Some(number), 1),
    }
}

// A racer's place, and whether it was right.
fn end<H: Home>(racer: Option<Racer<'_, H>>) -> (Option<Actor<'_, H>>, bool) {
    match racer {
        Some(racer) => (racer.place, racer.right),
        None => (None, false),
    }
}

// Runs a race, and returns the passes and whether each answer was right.
fn run_race<'x, R: Threads + Wait + Sync, H: Home + Send + Sync>(
    rt: &R,
    volume: &'x Volume,
    passes: Vec<Pass>,
    race: Race,
) -> (Vec<Pass>, bool)
    requires home { IsHome H.home volume.now }
    requires ready { All (IsReady (flash_of volume.now)) passes.items }
    ensures { All (IsReady (flash_of volume.now)) result.0.items }
{
    let mut passes = passes;
    let [a, b, c] = race.jobs;
    let mut racers: [Racer<'x, H>; 3] = [
        Racer::new(next_host(volume, &mut passes), a),
        Racer::new(next_host(volume, &mut passes), b),
        Racer::new(next_host(volume, &mut passes), c),
    ];
    for _ in 0..race.rounds {
        for_each_mut(rt, &mut racers, 3, &|_, racer| racer.run(rt));
        check_winner(rt, &mut racers);
    }
    let mut racers = racers.into_iter();
    let (a, a_right) = end(racers.next());
    let (b, b_right) = end(racers.next());
    let (c, c_right) = end(racers.next());
    let right = a_right && b_right && c_right;
    let mut idle = IdleActors {
        a,
        b,
        c,
        first: None,
        second: None,
    };
    let right = find_last(rt, &mut idle, race.sectors) && right;
    end_all(rt, volume, idle, &mut passes);
    (passes, right)
}

const RACES: [(&str, Race); 3] = [
    (
        "two write a hundred values each",
        Race {
            blocks: 101,
            jobs: [Job::WriteHundred(0), Job::WriteHundred(1), Job::Rest],
            rounds: 1,
            sectors: [100, 100],
        },
    ),
    (
        "two read a sector while a third overwrites it",
        Race {
            blocks: 101,
            jobs: [Job::WriteHundred(0), Job::ReadThousand, Job::ReadThousand],
            rounds: 1,
            sectors: [100, 0],
        },
    ),
    (
        "of two just one writes an empty sector",
        Race {
            blocks: 1003,
            jobs: [Job::WriteNew(1), Job::WriteNew(2), Job::Rest],
            rounds: 1000,
            sectors: [0, 0],
        },
    ),
];

#[test]
fn racing_hosts_get_the_expected_answers(rt: HostRuntime) -> Result<(), Fail> {
    for (name, race) in RACES {
        let geometry = Geometry::new(1, race.blocks, 2, WORDS, 2, 10, 3, 0)?;
        let (volume, passes, brooms) = Volume::open(rt.alloc(), &geometry)?;
        brooms.destroy_empty();
        let (passes, right) = run_race::<HostRuntime, Brand>(&rt, &volume, passes, race);
        assert!(rt; right, "{name:?}");
        assert!(rt; !passes.is_empty());
        let sectors = close(&rt, volume, passes);
        assert!(rt; hold(sectors.as_slice(), &race.sectors), "{name:?}");
    }
    Ok(())
}
