//! Counts of what happened in the schedules.
use crate::actors::calls::Done;
use broom::{Drain, Erase};
use flash_table::Point;

/// How often a call stopped at each point of its gate.
#[derive(Clone, Copy, Debug, Default)]
pub(crate) struct Stops {
    pub after_look: u64,
    pub after_pin: u64,
    pub before_place: u64,
    pub before_claim: u64,
    pub before_move: u64,
    pub before_erase: u64,
}

impl Stops {
    pub(crate) fn note(&mut self, point: Point) {
        match point {
            Point::AfterLook => self.after_look = self.after_look.wrapping_add(1),
            Point::AfterPin => self.after_pin = self.after_pin.wrapping_add(1),
            Point::BeforePlace => self.before_place = self.before_place.wrapping_add(1),
            Point::BeforeClaim => self.before_claim = self.before_claim.wrapping_add(1),
            Point::BeforeMove => self.before_move = self.before_move.wrapping_add(1),
            Point::BeforeErase => self.before_erase = self.before_erase.wrapping_add(1),
            Point::Answered => (),
        }
    }

    /// Whether each point was reached.
    pub(crate) fn are_all_reached(&self) -> bool {
        self.after_look > 0
            && self.after_pin > 0
            && self.before_place > 0
            && self.before_claim > 0
            && self.before_move > 0
            && self.before_erase > 0
    }
}

/// What the hosts did.
#[derive(Clone, Copy, Debug, Default)]
pub(crate) struct HostCalls {
    pub writes: u64,
    pub full: u64,
    pub reads: u64,
    pub late_reads: u64,
    pub holds: u64,
    pub looks_at_held: u64,
    pub meetings: u64,
}

impl HostCalls {
    /// Whether two actors were there to meet.
    pub(crate) fn note_meeting(&mut self, were_there: bool) {
        self.meetings = self.meetings.wrapping_add(u64::from(were_there));
    }

    /// Whether a host wrote, was refused, read at a second look, held, looked at what it held, and met another one.
    pub(crate) fn did_all(&self) -> bool {
        self.writes > self.full
            && self.full > 0
            && self.late_reads > 0
            && self.holds > 0
            && self.looks_at_held > 0
            && self.meetings > 0
    }
}

/// The answers of the brooms.
#[derive(Clone, Copy, Debug, Default)]
pub(crate) struct BroomCalls {
    pub drained: u64,
    pub copied: u64,
    pub nothing_to_gain: u64,
    pub surveyed: u64,
    pub no_spare: u64,
    pub lost: u64,
    pub queue_full: u64,
    pub drained_next: u64,
    pub lost_next: u64,
    pub drained_dead: u64,
    pub unstocked: u64,
    pub erased: u64,
    pub kept: u64,
    pub retired: u64,
    pub pinned: u64,
    pub stale: u64,
    pub queue_empty: u64,
}

impl BroomCalls {
    /// Whether each answer was returned, and `NothingToGain` was checked by the live pages.
    pub(crate) fn gave_all(&self) -> bool {
        self.has_drained() && self.has_erased()
    }

    fn has_drained(&self) -> bool {
        self.drained > 0
            && self.copied > 0
            && self.nothing_to_gain > 0
            && self.no_spare > 0
            && self.surveyed > 0
            && self.lost > 0
            && self.queue_full > 0
            && self.drained_next > 0
            && self.lost_next > 0
            && self.drained_dead > 0
            && self.unstocked > 0
    }

    fn has_erased(&self) -> bool {
        self.erased > self.kept
            && self.kept > 0
            && self.retired > 0
            && self.pinned > 0
            && self.stale > 0
            && self.queue_empty > 0
    }

    pub(crate) fn note(&mut self, done: Done) {
        match done {
            Done::Drained(drain) => self.note_drain(drain),
            Done::Erased(erase) => self.note_erase(erase),
            _ => (),
        }
    }

    pub(crate) fn note_drain(&mut self, drain: Drain) {
        match drain {
            Drain::Drained { block: _, copied } => {
                self.drained = self.drained.wrapping_add(1);
                self.copied = self.copied.wrapping_add(u64::from(copied));
            }
            Drain::NothingToGain => self.nothing_to_gain = self.nothing_to_gain.wrapping_add(1),
            Drain::NoSpare => self.no_spare = self.no_spare.wrapping_add(1),
            Drain::Lost => self.lost = self.lost.wrapping_add(1),
            Drain::QueueFull => self.queue_full = self.queue_full.wrapping_add(1),
        }
    }

    /// A drain of a block without live pages has returned.
    pub(crate) fn note_dead(&mut self, drain: Drain) {
        if matches!(drain, Drain::Drained { .. }) {
            self.drained_dead = self.drained_dead.wrapping_add(1);
        }
    }

    /// A drain with the last survey, or with one of its own, has returned.
    pub(crate) fn note_next(&mut self, is_next: bool, drain: Drain) {
        match drain {
            Drain::Drained { .. } if is_next => {
                self.drained_next = self.drained_next.wrapping_add(1);
            }
            Drain::Lost if is_next => self.lost_next = self.lost_next.wrapping_add(1),
            _ => (),
        }
    }

    /// A broom found no free block, or has a spare.
    pub(crate) fn note_restock(&mut self, has_spare: bool) {
        self.unstocked = self.unstocked.wrapping_add(u64::from(!has_spare));
    }

    pub(crate) fn note_erase(&mut self, erase: Erase) {
        match erase {
            Erase::Erased { block: _, kept } => {
                self.erased = self.erased.wrapping_add(1);
                self.kept = self.kept.wrapping_add(u64::from(kept));
            }
            Erase::Retired { block: _ } => self.retired = self.retired.wrapping_add(1),
            Erase::Pinned => self.pinned = self.pinned.wrapping_add(1),
            Erase::Stale => self.stale = self.stale.wrapping_add(1),
            Erase::QueueEmpty => self.queue_empty = self.queue_empty.wrapping_add(1),
        }
    }
}

/// All that happened.
#[derive(Clone, Copy, Debug, Default)]
pub(crate) struct Tally {
    pub calls: u64,
    pub stops: Stops,
    pub hosts: HostCalls,
    pub brooms: BroomCalls,
}
