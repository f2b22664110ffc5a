//! What a broom does while the workers of a round play.
ghost use Rattle.std.specs.Prelude.{◌≡◌, ◌||◌, ℕ, [], ◌∷◌, length};
ghost use Rattle.std.specs.Arc.{arc_value};
ghost use Rattle.geometry.specs.Geometry.{pages_of};
ghost use Rattle.flash_table.specs.Flash.{geometry_of};
ghost use Rattle.broom.specs.Emptying.{pages_to_fill};
ghost use Rattle.broom.specs.Ready.{blocks_of_broom};
ghost use Rattle.volume.specs.Volume.{flash_of};
ghost use Rattle.workers.specs.declared.collector.broom_answer.BroomAnswer.TheVariants as by;
ghost use Rattle.workers.specs.Collecting.{HasCollected, HasCollectedBy, HasFollowed, HasSearched, HasTakenTurn};
ghost use Rattle.workers.specs.Turns as turns;

use crate::collector::Collector;
use crate::collector::broom_answer::BroomAnswer;
use broom::{Drain, Erase};
use flash_table::Gate;
use std::sync::Wait;
use std::sync::atomic::{AtomicBool, Ordering};
use std::thread;
use std::time::{Clock, Duration};

// The first sleep of a broom that gains nothing, and the longest one on a small device, in microseconds. On a larger one the longest sleep
// grows with the sectors, so that the surveys between the sleeps take no more of a processor.
const FIRST_SLEEP: u64 = 10;

const LONGEST_SLEEP: u64 = 1_000;

const SECTORS_A_MICROSECOND: u64 = 10;

fn has_drained(drain: Drain) -> bool
    ensures { result ≡ turns.has_drained drain }
{
    match drain {
        Drain::Drained { .. } => true,
        Drain::NothingToGain | Drain::NoSpare | Drain::Lost | Drain::QueueFull => false,
    }
}

// Whether no other drain by the same survey can follow.
fn is_last(drain: Drain) -> bool
    ensures { result ≡ turns.is_last drain }
{
    match drain {
        Drain::NothingToGain | Drain::NoSpare => true,
        Drain::Drained { .. } | Drain::Lost | Drain::QueueFull => false,
    }
}

fn has_erased(erase: Erase) -> bool
    ensures { result ≡ turns.has_erased erase }
{
    match erase {
        Erase::Erased { .. } | Erase::Retired { .. } => true,
        Erase::Pinned | Erase::Stale | Erase::QueueEmpty => false,
    }
}

// Whether a drain or the erase that followed it gained something.
fn have_gained(drain: Drain, erase: Erase) -> bool
    ensures { result ≡ (turns.has_drained drain || turns.has_erased erase) }
{
    has_drained(drain) || has_erased(erase)
}

impl Collector {
    // How many pages the broom has room for in its blocks.
    fn room(&self) -> u64
        ensures { result
            ≡ length
            (pages_to_fill (pages_of (geometry_of (flash_of (arc_value self.now.volume))))
            (blocks_of_broom self.now.broom)) }
    {
        self.broom.room(self.volume.geometry().pages())
    }

    fn survey_and_drain<G: Gate>(&mut self, rt: &impl Wait, gate: &mut G) -> Drain
        ensures { (programmed : ℕ)
            × HasCollectedBy self.old (by.Drain result programmed ∷ []) self.new }
    {
        let room = self.room();
        let drain = self.volume.drain_one(rt, &mut self.broom, gate);
        let programmed = room.saturating_sub(self.room());
        self.tally = self
            .tally
            .with_answer(BroomAnswer::Drain(drain, programmed));
        drain
    }

    fn drain_next<G: Gate>(&mut self, rt: &impl Wait, gate: &mut G) -> Drain
        ensures { (programmed : ℕ)
            × HasCollectedBy self.old (by.DrainNext result programmed ∷ []) self.new }
    {
        let room = self.room();
        let drain = self.volume.drain_next_one(rt, &mut self.broom, gate);
        let programmed = room.saturating_sub(self.room());
        self.tally = self
            .tally
            .with_answer(BroomAnswer::DrainNext(drain, programmed));
        drain
    }

    fn drain_dead<G: Gate>(&mut self, rt: &impl Wait, gate: &mut G) -> Drain
        ensures { HasCollectedBy self.old (by.DrainDead result ∷ []) self.new }
    {
        let drain = self.volume.drain_dead_one(rt, &mut self.broom, gate);
        self.tally = self.tally.with_answer(BroomAnswer::DrainDead(drain));
        drain
    }

    fn erase<G: Gate>(&mut self, rt: &impl Wait, gate: &mut G) -> Erase
        ensures { HasCollectedBy self.old (by.Erase result ∷ []) self.new }
    {
        let erase = self.volume.erase_one(rt, &mut self.broom, gate);
        self.tally = self.tally.with_answer(BroomAnswer::Erase(erase));
        erase
    }

    fn restock(&mut self) -> bool
        ensures { HasCollectedBy self.old (by.Restock result ∷ []) self.new }
    {
        let has_spare = self.volume.restock(&mut self.broom);
        self.tally = self.tally.with_answer(BroomAnswer::Restock(has_spare));
        has_spare
    }

    // Looks for a spare: a restock or, if no block is free, a drain of a block without live pages, whose erase gives one. Returns whether
    // these gained anything.
    fn search<G: Gate>(&mut self, rt: &impl Wait, gate: &mut G) -> bool
        ensures { HasSearched self.old result self.new }
    {
        if self.restock() {
            return true;
        }
        let drain = self.drain_dead(rt, gate);
        has_drained(drain)
    }

    // What follows a drain: an erase, and a search for a spare if the drain found none. Returns whether the drain or these gained anything.
    fn follow<G: Gate>(&mut self, drain: Drain, rt: &impl Wait, gate: &mut G) -> bool
        ensures { HasFollowed self.old drain result self.new }
    {
        let erase = self.erase(rt, gate);
        let gained = have_gained(drain, erase);
        if drain == Drain::NoSpare {
            return self.search(rt, gate) || gained;
        }
        gained
    }

    // A drain by a new survey, and drains by that one as long as it gives some, each with what follows it. Returns whether anything was
    // gained.
    fn turn<G: Gate>(&mut self, rt: &impl Wait, stop: &AtomicBool, gate: &mut G) -> bool
        ensures { HasTakenTurn self.old result self.new }
    {
        let mut drain = self.survey_and_drain(rt, gate);
        let mut gained = self.follow(drain, rt, gate);
        for _made in 1..self.drains {
            if is_last(drain) || stop.load(Ordering::SeqCst) {
                break;
            }
            drain = self.drain_next(rt, gate);
            gained = self.follow(drain, rt, gate) || gained;
        }
        gained
    }

    fn longest_sleep(&self) -> u64 {
        let sectors = u64::from(self.volume.geometry().sectors());
        LONGEST_SLEEP.max(sectors / SECTORS_A_MICROSECOND)
    }
}

// A rest: a yield, or a sleep of this many microseconds. Returns how long the next one is, at most this long.
fn rest(clock: &impl Clock, micros: u64, longest: u64) -> u64 {
    if micros == 0 {
        thread::yield_now();
        return FIRST_SLEEP;
    }
    thread::sleep(clock, Duration::from_micros(micros));
    micros.saturating_mul(2).min(longest)
}

// Takes turns until the flag is set, and rests if a turn has gained nothing.
#[tactic(auto, using(crate::proofs::BroomCalls::collected_none))]
pub(crate) fn collect<R: Wait + Clock, G: Gate>(
    rt: &R,
    collector: Collector,
    stop: &AtomicBool,
    gate: &mut G,
) -> Collector
    ensures { HasCollected collector result }
{
    let mut collector = collector;
    let longest = collector.longest_sleep();
    let mut micros = 0;
    for _ in rt.forever() {
        if stop.load(Ordering::SeqCst) {
            return collector;
        }
        if collector.turn(rt, stop, gate) {
            micros = 0;
            continue;
        }
        if stop.load(Ordering::SeqCst) {
            return collector;
        }
        micros = rest(rt, micros, longest);
    }
    unreachable!()
}
