//! A plain model of the brooms that checks their answers: the queue of drained blocks, and what each broom has.
ghost use Rattle.std.specs.Prelude.{◌<◌};

use crate::models::array_model::BLOCKS;
use crate::schedules::drawn::Drawn;
use arrayvec::ArrayVec;
use broom::{Drain, Erase};

// What a broom has between two calls: whether it has a spare, how many pages are left in the block that it copies to, 0 if there is
// none, the block that it has set aside, and which blocks may still be marked by its last survey.
#[derive(Clone, Copy)]
struct BroomState {
    has_spare: bool,
    room: u32,
    aside: Option<u32>,
    may_be_marked: [bool; 10],
}

impl BroomState {
    fn unmark(&mut self, block: u32) {
        if let Some(mark) = self.may_be_marked.get_mut(block as usize) {
            *mark = false;
        }
    }
}

// Whether this drain uses the last survey.
fn is_next(drawn: Drawn) -> bool {
    matches!(drawn.kind, 5..7 | 9)
}

// Whether this drain is one of a block without live pages.
fn is_dead(drawn: Drawn) -> bool {
    matches!(drawn.kind, 7 | 17)
}

/// The state in which a call of a broom begins.
#[derive(Clone, Copy)]
pub(crate) struct CallStart {
    /// The block to erase, if the call is an erase and there is one.
    pub block: Option<u32>,
    was_drained: bool,
    // Whether a block is set aside because the queue has no room for it.
    is_stuck: bool,
}

impl CallStart {
    /// For a call that erases nothing.
    pub(crate) fn none() -> CallStart {
        CallStart {
            block: None,
            was_drained: false,
            is_stuck: false,
        }
    }
}

/// What is known of a broom's call in addition to its answer.
#[derive(Clone, Copy)]
pub(crate) struct CallFacts {
    pub start: CallStart,
    /// How many pages it tried to move.
    pub moves: u32,
    /// Whether nobody else made a call during it.
    pub alone: bool,
}

/// The brooms, as far as their answers show them, and which blocks are drained.
#[derive(Drop)]
pub(crate) struct BroomModel {
    states: [BroomState; 2],
    queue: ArrayVec<u32, 10>,
    drained: [bool; 10],
    pages: u32,
    /// Whether each answer so far was possible.
    pub right: bool,
}

impl BroomModel {
    /// Two brooms of a device that is not used yet, with blocks of this many pages.
    pub(crate) fn new(pages: u32) -> BroomModel {
        let state = BroomState {
            has_spare: true,
            room: 0,
            aside: None,
            may_be_marked: [false; 10],
        };
        BroomModel {
            states: [state; 2],
            queue: ArrayVec::new(),
            drained: [false; 10],
            pages,
            right: true,
        }
    }

    fn expect(&mut self, holds: bool) {
        self.right = self.right && holds;
    }

    /// The first drained block, or this one if there is none.
    pub(crate) fn drained_or(&self, block: u32) -> u32
        requires { block < 10 }
        ensures { result < 10 }
    {
        for drained in 0..BLOCKS {
            if self.drained[drained as usize] {
                return drained;
            }
        }
        block
    }

    fn set_drained(&mut self, block: u32, drained: bool) {
        match self.drained.get_mut(block as usize) {
            Some(mark) => *mark = drained,
            None => self.expect(false),
        }
    }

    // Puts a block into the queue. Returns false if the queue is full.
    fn put(&mut self, block: u32) -> bool {
        self.queue.try_push(block).is_ok()
    }

    // Puts what is set aside into the queue. Returns false if the queue is full.
    fn put_set_aside(&mut self, broom: usize) -> bool
        requires { broom < 2 }
    {
        let Some(block) = self.states[broom].aside else {
            return true;
        };
        if !self.put(block) {
            return false;
        }
        self.states[broom].aside = None;
        true
    }

    // Takes what is set aside, or the queue's first block if nothing is.
    fn take_next(&mut self, broom: usize) -> Option<u32>
        requires { broom < 2 }
    {
        if let Some(block) = self.states[broom].aside {
            self.states[broom].aside = None;
            return Some(block);
        }
        if self.queue.is_empty() {
            None
        } else {
            Some(self.queue.remove(0))
        }
    }

    fn put_or_set_aside(&mut self, broom: usize, block: u32)
        requires { broom < 2 }
    {
        if !self.put(block) {
            self.states[broom].aside = Some(block);
        }
    }

    /// A call begins.
    pub(crate) fn begin(&mut self, broom: usize, drawn: Drawn) -> CallStart
        requires { broom < 2 }
    {
        let block = match drawn.kind {
            0..8 => {
                let is_stuck = !self.put_set_aside(broom);
                return CallStart {
                    is_stuck,
                    ..CallStart::none()
                };
            }
            8..10 | 16..18 => return CallStart::none(),
            10..16 => self.take_next(broom),
            _ => Some(drawn.block),
        };
        let was_drained = match block {
            Some(block) => self.drained.get(block as usize) == Some(&true),
            None => false,
        };
        CallStart {
            block,
            was_drained,
            is_stuck: false,
        }
    }

    // The broom has copied this many pages: the spare becomes the block that it copies to if there is none.
    fn copy(&mut self, broom: usize, pages: u32)
        requires { broom < 2 }
    {
        for _ in 0..pages {
            let state = self.states[broom];
            if state.room == 0 {
                self.expect(state.has_spare);
                self.states[broom].has_spare = false;
                self.states[broom].room = self.pages;
            }
            self.states[broom].room = self.states[broom].room.saturating_sub(1);
        }
    }

    /// A drain has returned.
    pub(crate) fn drain(&mut self, broom: usize, drawn: Drawn, facts: CallFacts, drain: Drain)
        requires { broom < 2 }
    {
        let is_stuck = facts.start.is_stuck;
        let has_spare = self.states[broom].has_spare;
        self.expect(is_stuck == (drain == Drain::QueueFull));
        self.expect(is_stuck || is_dead(drawn) || has_spare == (drain != Drain::NoSpare));
        self.expect(drain != Drain::Lost || !facts.alone || is_next(drawn));
        self.survey(broom, drawn, drain);
        let Drain::Drained { block, copied } = drain else {
            return;
        };
        self.expect(copied == facts.moves || !facts.alone);
        self.expect(copied == 0 || !is_dead(drawn));
        self.copy(broom, facts.moves);
        self.set_drained(block, true);
        if drawn.kind < 8 {
            self.put_or_set_aside(broom, block);
        }
    }

    // A drain makes a survey, which marks all closed blocks. A drain with the last survey makes none, and its block was still marked.
    fn survey(&mut self, broom: usize, drawn: Drawn, drain: Drain)
        requires { broom < 2 }
    {
        if drain == Drain::QueueFull || drain == Drain::NoSpare && !is_dead(drawn) {
            return;
        }
        if !is_next(drawn) {
            self.states[broom].may_be_marked = [true; 10];
        }
        let marks = self.states[broom].may_be_marked;
        if let Drain::Drained { block, copied: _ } = drain {
            self.expect(marks.get(block as usize) == Some(&true));
            self.states[broom].unmark(block);
        }
        self.expect(drain != Drain::Lost || marks.contains(&true));
    }

    /// A broom has asked for a spare.
    pub(crate) fn restock(&mut self, broom: usize, has_spare: bool)
        requires { broom < 2 }
    {
        self.expect(has_spare || !self.states[broom].has_spare);
        self.states[broom].has_spare = has_spare;
    }

    /// An erase has returned.
    pub(crate) fn erase(&mut self, broom: usize, drawn: Drawn, facts: CallFacts, erase: Erase)
        requires { broom < 2 }
    {
        let start = facts.start;
        self.expect(start.block.is_none() == (erase == Erase::QueueEmpty));
        let Some(wanted) = start.block else {
            return;
        };
        self.expect(start.was_drained == (erase != Erase::Stale));
        self.states[broom].unmark(wanted);
        match erase {
            Erase::Erased { block, kept } => {
                self.expect(block == wanted && kept != self.states[broom].has_spare);
                self.states[broom].has_spare = true;
                self.set_drained(block, false);
            }
            Erase::Retired { block } => {
                self.expect(block == wanted);
                self.set_drained(block, false);
            }
            Erase::Pinned if drawn.kind < 17 => self.put_or_set_aside(broom, wanted),
            Erase::Pinned | Erase::Stale | Erase::QueueEmpty => (),
        }
    }
}
