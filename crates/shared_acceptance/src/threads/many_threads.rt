//! Three hosts and two brooms at the same time, each in its own thread.
ghost use Rattle.std.specs.Prelude.{◌≡◌, ◌<◌, All, length};
ghost use Rattle.host.specs.Ready.{IsReady};
ghost use Rattle.volume.specs.Volume.{IsBroomReady, flash_of};
ghost use Rattle.shared_acceptance.specs.Kept.{IsHome};

use crate::actors::actor_setup::{fold, give_back, next_broom, next_host};
use crate::actors::calls::{Call, Done, WORDS, number_of};
use crate::actors::{Actor, Home, call_at};
use crate::closing::close;
use crate::models::oracle::Next;
use crate::models::tally::BroomCalls;
use crate::threads::thread_notes::Notes;
use crate::threads::thread_values::SECTORS;
use broom::Broom;
use flash_table::Pass;
use geometry::Geometry;
use std::env;
use std::marker::Brand;
use std::rt::Env;
use std::sync::Wait;
use std::test::Fail;
use std::thread::{Threads, for_each_mut};
use volume::Volume;

// How many rounds are played if the environment has no ROUNDS. In each a host makes a hundred calls, and a broom collects three
// hundred times. The device has room for all writes of one round, but not for those of six: so writes succeed only if blocks are
// drained and erased, in whatever order the threads run.
const ROUNDS: u64 = 100;

const BLOCKS: u32 = 128;

const CALLS: u32 = 100;

const COLLECTIONS: u32 = 300;

// A participant: an actor at its place, what it knows as a host, and what it did as a broom. A broom passes its blocks on by the queue, or
// names the blocks that it erases.
#[derive(Drop)]
struct Participant<'a, H: Home> {
    place: Option<Actor<'a, H>>,
    notes: Notes,
    brooms: BroomCalls,
    has_queue: bool,
}

impl<'a, H: Home> Participant<'a, H> {
    fn new(place: Option<Actor<'a, H>>, host: u32, has_queue: bool) -> Participant<'a, H>
        requires { host < 3 }
    {
        Participant {
            place,
            notes: Notes::new(host),
            brooms: BroomCalls::default(),
            has_queue,
        }
    }

    // A call of a host.
    fn make_call(&mut self, rt: &impl Wait) {
        let call = self.notes.draw();
        let done = call_at(&mut self.place, rt, call);
        match self.notes.check(call, done) {
            Next::Look => {
                let done = call_at(&mut self.place, rt, Call::Look);
                self.notes.hold(call, done);
            }
            Next::Release => {
                let done = call_at(&mut self.place, rt, Call::Release);
                self.notes.release(done);
            }
            Next::Nothing | Next::Find | Next::Count => (),
        }
    }

    // A broom drains and erases, asks for a spare, and drains twice with its last survey.
    fn collect(&mut self, rt: &impl Wait, block: u32) {
        let (drain, next, erase) = if self.has_queue {
            (Call::DrainOne, Call::DrainNextOne, Call::EraseOne)
        } else {
            (Call::Drain, Call::DrainNext, Call::Erase(block))
        };
        for call in [drain, erase, Call::Restock] {
            let done = call_at(&mut self.place, rt, call);
            self.brooms.note(done);
        }
        for _ in 0..2 {
            let done = call_at(&mut self.place, rt, next);
            if let Done::Drained(drain) = done {
                self.brooms.note_next(true, drain);
            }
            self.brooms.note(done);
        }
    }

    // A participant's part of a round.
    fn play(&mut self, rt: &impl Wait) {
        if let Some(Actor::Collector(_)) = &self.place {
            for number in 0..COLLECTIONS {
                self.collect(rt, number % BLOCKS);
            }
        } else {
            for _ in 0..CALLS {
                self.make_call(rt);
            }
        }
    }
}

// Returns a host's pass, and what the host knows.
fn end_host<H: Home>(
    volume: &Volume,
    participant: Option<Participant<'_, H>>,
    passes: &mut Vec<Pass>,
) -> Option<Notes>
    requires home { IsHome H.home volume.now }
    requires ready { All (IsReady (flash_of volume.now)) passes.old.items }
    ensures { All (IsReady (flash_of volume.now)) passes.new.items }
{
    let Participant {
        place,
        notes,
        brooms: _,
        has_queue: _,
    } = participant?;
    give_back(volume, place, passes);
    Some(notes)
}

// Folds a broom, and returns what it did.
fn end_broom<H: Home>(
    rt: &impl Wait,
    participant: Option<Participant<'_, H>>,
) -> Option<BroomCalls> {
    let Participant {
        place,
        notes: _,
        brooms,
        has_queue: _,
    } = participant?;
    fold(rt, place);
    Some(brooms)
}

// Whether no host, of which there are three before the brooms, has found a value that its writer didn't write.
fn agree<H: Home>(participants: &[Participant<'_, H>]) -> bool {
    for reader in 0..3 {
        for writer in 0..3 {
            if let (Some(reader), Some(writer)) = (
                participants.get(reader),
                participants.get(writer),
            )
                && !reader.notes.agrees_with(&writer.notes)
            {
                return false;
            }
        }
    }
    true
}

// A round: each participant has its own thread. Returns whether the hosts agree after it.
fn play_round<R: Threads + Wait + Sync, H: Home + Send + Sync>(
    rt: &R,
    participants: &mut [Participant<'_, H>],
) -> bool {
    for_each_mut(rt, participants, 5, &|_, participant| participant.play(rt));
    agree(participants)
}

// What the hosts know at the end, with what the brooms did, and whether the hosts agreed after each round.
#[derive(Drop)]
struct Ended {
    hosts: [Option<Notes>; 3],
    brooms: [Option<BroomCalls>; 2],
    agreed: bool,
}

// Plays this many rounds, and returns the passes.
fn play<'x, R: Threads + Wait + Sync, H: Home + Send + Sync>(
    rt: &R,
    volume: &'x Volume,
    passes: Vec<Pass>,
    brooms: Vec<Broom>,
    rounds: u64,
) -> (Vec<Pass>, Ended)
    requires home { IsHome H.home volume.now }
    requires ready { All (IsReady (flash_of volume.now)) passes.items }
    requires brooms { All (IsBroomReady volume.now) brooms.items }
    requires two { length brooms.items ≡ 2 }
    ensures { All (IsReady (flash_of volume.now)) result.0.items }
{
    let (mut passes, mut brooms) = (passes, brooms);
    let mut participants: [Participant<'x, H>; 5] = [
        Participant::new(next_host(volume, &mut passes), 0, false),
        Participant::new(next_host(volume, &mut passes), 1, false),
        Participant::new(next_host(volume, &mut passes), 2, false),
        Participant::new(next_broom(volume, &mut brooms), 0, true),
        Participant::new(next_broom(volume, &mut brooms), 0, false),
    ];
    brooms.destroy_empty();
    let mut agreed = true;
    for _ in 0..rounds {
        agreed = play_round(rt, &mut participants) && agreed;
    }
    let mut participants = participants.into_iter();
    let hosts = [
        end_host(volume, participants.next(), &mut passes),
        end_host(volume, participants.next(), &mut passes),
        end_host(volume, participants.next(), &mut passes),
    ];
    let ended = Ended {
        hosts,
        brooms: [
            end_broom(rt, participants.next()),
            end_broom(rt, participants.next()),
        ],
        agreed,
    };
    (passes, ended)
}

// Whether a host finds what the device holds at its end, and was right throughout.
fn finds_last(host: &mut Option<Notes>, sectors: &[Option<Vec<u8>>]) -> bool {
    let Some(notes) = host else {
        return false;
    };
    notes.expect(sectors.len() == 6);
    for sector in 0..SECTORS {
        let found = match sectors.get(sector as usize) {
            Some(Some(page)) => {
                let number = number_of(page);
                notes.expect(number.is_some());
                number
            }
            _ => None,
        };
        notes.find_page(sector, found);
    }
    notes.is_right()
}

// How many rounds to play.
fn rounds(rt: &(impl Env + AllocGlobal)) -> u64 {
    match env::var(rt, "ROUNDS") {
        Ok(number) => number.as_str().parse::<u64>().unwrap_or(ROUNDS),
        Err(_) => ROUNDS,
    }
}

// Whether the brooms together drained, moved pages, erased blocks, found some with readers, and drained with a survey made before.
fn did_all(a: BroomCalls, b: BroomCalls) -> bool {
    (a.drained > 0 || b.drained > 0)
        && (a.copied > 0 || b.copied > 0)
        && (a.erased > 0 || b.erased > 0)
        && (a.pinned > 0 || b.pinned > 0)
        && (a.drained_next > 0 || b.drained_next > 0)
}

#[test]
fn hosts_find_what_was_written_beside_brooms(rt: HostRuntime) -> Result<(), Fail> {
    let geometry = Geometry::new(1, BLOCKS, 4, WORDS, SECTORS, 1000000, 3, 2)?;
    let (volume, passes, brooms) = Volume::open(rt.alloc(), &geometry)?;
    let rounds = rounds(&rt);
    let (passes, ended) = play::<HostRuntime, Brand>(&rt, &volume, passes, brooms, rounds);
    assert!(rt; passes.len() == 3);
    let sectors = close(&rt, volume, passes);
    let Ended {
        mut hosts,
        brooms,
        agreed,
    } = ended;
    for host in &mut hosts {
        assert!(rt; finds_last(host, sectors.as_slice()));
    }
    let [Some(first), Some(second)] = brooms else {
        panic!(rt; "a broom is gone")
    };
    assert!(rt; did_all(first, second));
    assert!(rt; agreed);
    Ok(())
}
