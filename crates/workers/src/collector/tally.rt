//! What a broom has done, counted.
ghost use Rattle.std.specs.Prelude.{◌≡◌};
ghost use Rattle.workers.specs.Tallies.{added, answer_adds, drain_adds, erase_adds, nothing_done, survey_adds, wrapped};

use crate::collector::broom_answer::BroomAnswer;
use broom::{Drain, Erase};

/// What a broom has done so far, each count modulo 2^64.
#[derive(Clone, Copy, Debug, PartialEq, Eq)]
pub struct Tally {
    /// The blocks that it drained, the pages that it moved out of them, and the pages that it programmed for copies. A copy is not moved
    /// if its sector was written meanwhile.
    pub drained: u64,
    pub moved: u64,
    pub programmed: u64,
    /// The blocks that it erased; of these the ones that it kept as its spare, and those whose last erase it was.
    pub erased: u64,
    pub kept: u64,
    pub retired: u64,
    /// Its claims that failed.
    pub lost: u64,
    /// The blocks that it did not erase, since they had readers or weren't drained.
    pub pinned: u64,
    pub stale: u64,
    /// Its surveys that showed nothing to gain.
    pub gainless: u64,
}

impl Tally {
    /// A tally of nothing.
    pub fn new() -> Tally
        ensures { result ≡ nothing_done }
    {
        Tally {
            drained: 0,
            moved: 0,
            programmed: 0,
            erased: 0,
            kept: 0,
            retired: 0,
            lost: 0,
            pinned: 0,
            stale: 0,
            gainless: 0,
        }
    }

    // What a drain adds.
    fn of_drain(drain: Drain) -> Tally
        ensures { result ≡ drain_adds drain }
    {
        let mut tally = Tally::new();
        match drain {
            Drain::Drained { block: _, copied } => {
                tally.drained = 1;
                tally.moved = u64::from(copied);
            }
            Drain::Lost => tally.lost = 1,
            Drain::NothingToGain | Drain::NoSpare | Drain::QueueFull => (),
        }
        tally
    }

    // What a drain by a new survey adds.
    fn of_survey(drain: Drain) -> Tally
        ensures { result ≡ survey_adds drain }
    {
        if drain == Drain::NothingToGain {
            let mut tally = Tally::new();
            tally.gainless = 1;
            return tally;
        }
        Tally::of_drain(drain)
    }

    // What an erase adds.
    fn of_erase(erase: Erase) -> Tally
        ensures { result ≡ erase_adds erase }
    {
        let mut tally = Tally::new();
        match erase {
            Erase::Erased { block: _, kept } => {
                tally.erased = 1;
                tally.kept = u64::from(kept);
            }
            Erase::Retired { block: _ } => {
                tally.erased = 1;
                tally.retired = 1;
            }
            Erase::Pinned => tally.pinned = 1,
            Erase::Stale => tally.stale = 1,
            Erase::QueueEmpty => (),
        }
        tally
    }

    // A tally with these pages programmed.
    fn with_programmed(self, programmed: u64) -> Tally
        ensures { result ≡ record self { programmed = programmed } }
    {
        let mut tally = self;
        tally.programmed = programmed;
        tally
    }

    // What a call adds.
    fn of(answer: BroomAnswer) -> Tally
        ensures { result ≡ answer_adds answer }
    {
        match answer {
            BroomAnswer::Drain(drain, programmed) => {
                Tally::of_survey(drain).with_programmed(programmed)
            }
            BroomAnswer::DrainNext(drain, programmed) => {
                Tally::of_drain(drain).with_programmed(programmed)
            }
            BroomAnswer::DrainDead(drain) => Tally::of_survey(drain),
            BroomAnswer::Erase(erase) => Tally::of_erase(erase),
            BroomAnswer::Restock(_) => Tally::new(),
        }
    }

    // This one and another together.
    fn plus(self, other: Tally) -> Tally
        ensures { result ≡ wrapped (added self other) }
    {
        Tally {
            drained: self.drained.wrapping_add(other.drained),
            moved: self.moved.wrapping_add(other.moved),
            programmed: self.programmed.wrapping_add(other.programmed),
            erased: self.erased.wrapping_add(other.erased),
            kept: self.kept.wrapping_add(other.kept),
            retired: self.retired.wrapping_add(other.retired),
            lost: self.lost.wrapping_add(other.lost),
            pinned: self.pinned.wrapping_add(other.pinned),
            stale: self.stale.wrapping_add(other.stale),
            gainless: self.gainless.wrapping_add(other.gainless),
        }
    }

    // This one, and what a call adds.
    pub(crate) fn with_answer(self, answer: BroomAnswer) -> Tally
        ensures { result ≡ wrapped (added self (answer_adds answer)) }
    {
        self.plus(Tally::of(answer))
    }
}
