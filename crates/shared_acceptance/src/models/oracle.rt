//! Draws the calls of a schedule, and checks their answers: the plain array, the model of the brooms, and what happened so far.
ghost use Rattle.std.specs.Prelude.{◌<◌};

use crate::actors::Role;
use crate::actors::calls::{Call, Done};
use crate::models::array_model::{ArrayModel, BLOCKS, Numbers, SECTORS};
use crate::models::broom_model::{BroomModel, CallFacts, CallStart};
use crate::models::tally::Tally;
use crate::schedules::drawn::{ACTORS, Begun, Drawn, ERASE};
use crate::schedules::draws::Draws;
use broom::{Drain, Erase};
use flash_table::Point;
use geometry::Was;

/// How often a call has looked, and the numbers that the sectors held at its last look.
#[derive(Clone, Copy)]
pub(crate) struct Looks {
    pub count: u64,
    pub numbers: Numbers,
    /// How often it was about to move a page.
    pub moves: u32,
}

impl Looks {
    pub(crate) fn none() -> Looks {
        Looks {
            count: 0,
            numbers: [0; 3],
            moves: 0,
        }
    }

    /// For an ungated call: it looks once, and no move of a page fails.
    pub(crate) fn alone(numbers: Numbers, done: Done) -> Looks {
        let moves = match done {
            Done::Drained(Drain::Drained { block: _, copied }) => copied,
            _ => 0,
        };
        Looks {
            count: 1,
            numbers,
            moves,
        }
    }

    pub(crate) fn note(&mut self, point: Point, numbers: &Numbers) {
        if point == Point::AfterLook {
            self.count = self.count.wrapping_add(1);
            self.numbers = *numbers;
        }
        if point == Point::BeforeMove {
            self.moves = self.moves.wrapping_add(1);
        }
    }
}

/// What remains to be done after a call has returned.
#[derive(Clone, Copy)]
pub(crate) enum Next {
    Nothing,
    /// Find the page that was written, since it has filled its block.
    Find,
    /// Look at the page that is held now.
    Look,
    Release,
    /// Count the live pages.
    Count,
}

// Which of the two brooms an actor is.
fn broom_of(k: u32) -> usize
    ensures { result < 2 }
{
    (k % 2) as usize
}

// Which of the three hosts an actor is.
fn host_of(k: u32) -> usize
    ensures { result < 3 }
{
    (k % 3) as usize
}

#[derive(Drop)]
pub(crate) struct Oracle {
    draws: Draws,
    pub array: ArrayModel,
    brooms: BroomModel,
    pub tally: Tally,
    pages: u32,
    // Whether brooms name most of the blocks that they erase, so that their numbers stay in the queue.
    names_blocks: bool,
}

impl Oracle {
    pub(crate) fn new(seed: u64, endurance: u32, pages: u32, tally: Tally) -> Oracle {
        Oracle {
            draws: Draws::new(seed),
            array: ArrayModel::new(endurance),
            brooms: BroomModel::new(pages),
            tally,
            pages,
            names_blocks: seed % 4 == 3,
        }
    }

    /// Whether each answer so far was possible.
    pub(crate) fn is_right(&self) -> bool {
        self.array.right && self.brooms.right
    }

    pub(crate) fn draw_actor(&mut self) -> u32
        ensures { result < 5 }
    {
        self.draws.below(ACTORS)
    }

    /// How many calls are made at a point of a gate.
    pub(crate) fn draw_burst(&mut self, point: Point) -> u32 {
        self.tally.stops.note(point);
        self.draws.burst()
    }

    /// Whether two actors meet next.
    pub(crate) fn draw_meeting(&mut self) -> bool {
        self.draws.below(4) == 0
    }

    // What is drawn for a call.
    fn draw(&mut self) -> Drawn {
        Drawn {
            kind: self.draws.below(20),
            sector: self.draws.below(SECTORS),
            block: self.draws.below(BLOCKS),
            number: self.array.fresh(),
        }
    }

    // The same for a broom.
    fn draw_broom(&mut self) -> Drawn {
        let drawn = self.draw();
        if !self.names_blocks || drawn.kind < 11 {
            return drawn;
        }
        Drawn {
            kind: ERASE,
            sector: drawn.sector,
            block: self.brooms.drained_or(drawn.block),
            number: drawn.number,
        }
    }

    /// An actor begins a call.
    pub(crate) fn begin(&mut self, k: u32, role: Role) -> Begun
        requires { k < 5 }
    {
        self.tally.calls = self.tally.calls.wrapping_add(1);
        let calls = self.tally.calls;
        let (drawn, call, start) = match role {
            Role::Host => {
                let drawn = self.draw();
                (drawn, drawn.of_host(), CallStart::none())
            }
            Role::Holder => (self.draw(), Call::Look, CallStart::none()),
            Role::Broom => {
                let drawn = self.draw_broom();
                let start = self.brooms.begin(broom_of(k), drawn);
                (drawn, drawn.of_broom(), start)
            }
        };
        Begun {
            k,
            drawn,
            call,
            start,
            calls,
        }
    }

    fn facts(&self, begun: Begun, looks: &Looks) -> CallFacts {
        CallFacts {
            start: begun.start,
            moves: looks.moves,
            alone: self.tally.calls == begun.calls,
        }
    }

    // A write has returned this. If it has filled its block, asks for the block.
    fn check_write(&mut self, begun: Begun, was: Option<Was>) -> Next {
        let drawn = begun.drawn;
        self.tally.hosts.writes = self.tally.hosts.writes.wrapping_add(1);
        let Some(was) = was else {
            self.tally.hosts.full = self.tally.hosts.full.wrapping_add(1);
            return Next::Nothing;
        };
        let is_written = match begun.call {
            Call::New(_, _) => self.array.put_new(drawn.sector, drawn.number, was),
            _ => self.array.put(drawn.sector, drawn.number, was),
        };
        if self.array.program(host_of(begun.k), self.pages) && is_written {
            Next::Find
        } else {
            Next::Nothing
        }
    }

    // A read with these looks has returned this.
    fn check_read(&mut self, drawn: Drawn, found: Option<u64>, tries: u64, looks: &Looks) {
        self.tally.hosts.reads = self.tally.hosts.reads.wrapping_add(1);
        if looks.count > 1 {
            self.tally.hosts.late_reads = self.tally.hosts.late_reads.wrapping_add(1);
        }
        self.array.expect(tries == looks.count);
        self.array.read(drawn.sector, found, &looks.numbers);
    }

    // What a hold found.
    fn check_hold(&mut self, begun: Begun, place: Option<(u32, u32)>) -> Next {
        let sector = begun.drawn.sector;
        self.tally.hosts.holds = self.tally.hosts.holds.wrapping_add(1);
        let Some((block, generation)) = place else {
            self.array.hold_empty(sector);
            return Next::Nothing;
        };
        self.array.hold(host_of(begun.k), sector, block, generation);
        Next::Look
    }

    // What a look at a held page found. Sometimes the page is then released.
    fn check_look(&mut self, begun: Begun, number: u64) -> Next {
        self.tally.hosts.looks_at_held = self.tally.hosts.looks_at_held.wrapping_add(1);
        self.array.look(host_of(begun.k), number);
        if begun.drawn.kind < 8 {
            Next::Release
        } else {
            Next::Nothing
        }
    }

    /// What the look directly after a hold found.
    pub(crate) fn check_held(&mut self, begun: Begun, done: Done) {
        match done {
            Done::Looked(number) => self.array.look(host_of(begun.k), number),
            _ => self.array.expect(false),
        }
    }

    /// A host has released its page.
    pub(crate) fn release(&mut self, begun: Begun) {
        self.array.release(host_of(begun.k))
    }

    fn check_drain(&mut self, begun: Begun, drain: Drain, looks: &Looks) -> Next {
        self.tally.brooms.note_drain(drain);
        let is_next = matches!(begun.call, Call::DrainNext | Call::DrainNextOne);
        self.tally.brooms.note_next(is_next, drain);
        if matches!(begun.call, Call::DrainDead | Call::DrainDeadOne) {
            self.tally.brooms.note_dead(drain);
        }
        self.array.drain(drain, self.pages);
        let facts = self.facts(begun, looks);
        self.brooms
            .drain(broom_of(begun.k), begun.drawn, facts, drain);
        if drain == Drain::NothingToGain && !is_next {
            Next::Count
        } else {
            Next::Nothing
        }
    }

    fn check_restock(&mut self, begun: Begun, has_spare: bool) {
        self.tally.brooms.note_restock(has_spare);
        self.brooms.restock(broom_of(begun.k), has_spare);
    }

    /// The live pages of each block when a drain found nothing to gain.
    pub(crate) fn check_no_gain(&mut self, live: &[u32; 10]) {
        self.tally.brooms.surveyed = self.tally.brooms.surveyed.wrapping_add(1);
        self.array.gain_nothing(live, self.pages);
    }

    // An erase that runs alone finds readers only if a page of the block is held.
    fn check_erase(&mut self, begun: Begun, erase: Erase, looks: &Looks, are_idle: bool) {
        self.tally.brooms.note_erase(erase);
        self.array.erase(erase);
        let facts = self.facts(begun, looks);
        self.brooms
            .erase(broom_of(begun.k), begun.drawn, facts, erase);
        if erase == Erase::Pinned && facts.alone && are_idle {
            let is_held = self.array.is_held(begun.start.block);
            self.array.expect(is_held);
        }
    }

    /// A call with these looks has returned, while all hosts were idle or not.
    pub(crate) fn check(
        &mut self,
        begun: Begun,
        done: Done,
        looks: &Looks,
        are_idle: bool,
    ) -> Next {
        match done {
            Done::Wrote(was) => return self.check_write(begun, was),
            Done::Trimmed(was) => {
                self.array.put(begun.drawn.sector, 0, was);
            }
            Done::Read(found, tries) => self.check_read(begun.drawn, found, tries, looks),
            Done::Holds(place) => return self.check_hold(begun, place),
            Done::Looked(number) => return self.check_look(begun, number),
            Done::Drained(drain) => return self.check_drain(begun, drain, looks),
            Done::Erased(erase) => self.check_erase(begun, erase, looks, are_idle),
            Done::Asked(is_written) => self.array.ask(begun.drawn.sector, is_written),
            Done::Restocked(has_spare) => self.check_restock(begun, has_spare),
            Done::Nothing | Done::Torn | Done::Opened(_) | Done::Released => {
                self.array.expect(false);
            }
        }
        Next::Nothing
    }
}
