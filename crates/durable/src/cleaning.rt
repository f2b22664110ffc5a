ghost use Rattle.std.specs.Prelude.{◌≡◌, ◌<◌, ◌≤◌, length};
ghost use Rattle.durable.specs.Collecting.{most_copies as most_in_all, even_share};

use crate::next_pages::NextPages;
use crate::ranking::{COMPARED, Counts, NO_BLOCK};

// How many blocks are looked at for one to collect, and at each erase for one that was erased less often.
const LOOKED_AT: u32 = 16;

const LOOKED_AT_FOR_WEAR: u32 = 4;

// A block whose erases are so many below those of a free one is collected, whatever it has.
const WEAR_GAP: u16 = 16;

// So many blocks' pages are left when a victim is chosen: then the two open blocks can be filled while it is emptied, and another block is free still.
const KEPT: u64 = 3;

// So many blocks are free when the first one is opened for hosts: one of them will be for copies, and another one is free beside both.
const MANY: u32 = 3;

/// The block that copies come from, and how many of them come before a program.
#[derive(Clone, Copy)]
pub struct Victim {
    pub block: u32,
    pub pace: u32,
}

impl Victim {
    pub const NONE: Victim = Victim {
        block: NO_BLOCK,
        pace: 0,
    };

    /// The block that an opened one gets its pages from: none if it is for hosts.
    pub fn source(self, next: NextPages, opened: u32) -> u32 {
        match next.hosts {
            Some(at) if at.block == opened => NO_BLOCK,
            _ => self.block,
        }
    }
}

impl Counts {
    /// The victim after a program: another one once it has no live pages and few pages are left, if copies are kept apart.
    pub fn victim_after(&self, victim: Victim, next: NextPages, turn: u32) -> Victim {
        let is_needed = self.is_needed(victim, next);
        if self.most_copies == 0 {
            return if is_needed { victim } else { Victim::NONE };
        }
        let room = self.room(next);
        let block = if is_needed {
            victim.block
        } else {
            self.chosen(next, room, turn)
        };
        Victim {
            block,
            pace: self.pace(block, room),
        }
    }

    /// The victim once a block was erased: with none free and none open for hosts, the one with the fewest live pages.
    pub fn victim_beside(&self, victim: Victim, next: NextPages, block: u32) -> Victim {
        let fewest = self.fewest(block);
        if next.hosts.is_some() || self.live(fewest) == 0 {
            return victim;
        }
        Victim {
            block: fewest,
            pace: 0,
        }
    }

    /// Whether a block for hosts may be opened beside that of copies: the victim will be empty while two blocks' pages are left, so a block is free once
    /// either is full.
    pub fn has_room(&self, victim: Victim, next: NextPages) -> bool {
        if self.most_copies == 0 {
            return false;
        }
        let block = if self.is_needed(victim, next) {
            victim.block
        } else {
            self.emptiest(next)
        };
        let taken = self.taken(block).min(u64::from(self.pages));
        self.room(next) > self.kept(KEPT - 1).saturating_add(taken)
    }

    /// Whether three blocks or more have no live pages.
    pub fn has_many_empty(&self) -> bool {
        self.queue.count(0) >= MANY
    }

    // Whether copies come from a victim still.
    fn is_needed(&self, victim: Victim, next: NextPages) -> bool {
        next.is_closed(victim.block) && self.live(victim.block) > 0
    }

    // The block to collect next, if one should be.
    fn chosen(&self, next: NextPages, room: u64, turn: u32) -> u32 {
        let emptiest = self.emptiest(next);
        let pages = u64::from(self.pages);
        let kept = self.kept(KEPT).saturating_add(self.margin());
        if room < kept {
            return emptiest;
        }
        let spare = room - kept;
        let mut waits = (pages / 8).saturating_add(1);
        if self.lags_behind(next) {
            let taken = self.taken(self.coldest).saturating_sub(pages);
            if taken <= spare {
                return self.coldest;
            }
            waits = waits.max(taken.saturating_add(1));
        }
        if spare >= waits {
            return NO_BLOCK;
        }
        self.most_gainful(emptiest, next, spare, turn)
    }

    // Of the emptiest block and some others the one whose pages are worth most to be copied: it has few live pages, and has had them for long.
    fn most_gainful(&self, emptiest: u32, next: NextPages, spare: u64, turn: u32) -> u32 {
        let mut best = emptiest;
        let mut most = self.gain(best, next, turn);
        for look in 0..LOOKED_AT {
            let block = self.in_turn(turn.wrapping_mul(LOOKED_AT).wrapping_add(look));
            if next.is_closed(block)
                && self.taken(block).saturating_sub(u64::from(self.pages)) <= spare
            {
                let gain = self.gain(block, next, turn);
                if gain > most {
                    best = block;
                    most = gain;
                }
            }
        }
        best
    }

    // What it gains to collect a block now: the pages that come free, by those to copy and the time since it was opened. More if the open block of copies
    // has such pages, too: what is copied for the first time is warmer than the rest.
    fn gain(&self, block: u32, next: NextPages, turn: u32) -> u64 {
        let live = u64::from(self.live(block));
        let dead = u64::from(self.pages).saturating_sub(live);
        if live == 0 || dead == 0 {
            return 0;
        }
        let opened = self
            .openings
            .get(block as usize)
            .map_or(0, |opening| opening.turn);
        let age = u64::from(turn.wrapping_sub(opened)).saturating_add(1);
        let gain = dead
            .saturating_mul(dead)
            .saturating_mul(age)
            .saturating_mul(16)
            / live.max(1);
        let copies = next.copies.map_or(0, |to| self.copies_in(to.block));
        if copies == self.copies_from(block) {
            gain.saturating_mul(2)
        } else {
            gain
        }
    }

    // A closed block with the fewest live pages, of those with some, if a sixteenth of its pages comes free: of a few the least erased.
    fn emptiest(&self, next: NextPages) -> u32 {
        let order = &self.queue.sorted.order;
        let first = self.queue.starts[1] as usize;
        let mut best = NO_BLOCK;
        for place in first..order.len().min(first.saturating_add(COMPARED)) {
            let other = order[place];
            if next.is_closed(other)
                && self.live(other) < self.pages - self.pages / 16
                && self.is_better(other, best)
            {
                best = other;
            }
        }
        best
    }

    // Whether a block that comes later in the order is better to collect: it has as few live pages, and fewer erases.
    fn is_better(&self, block: u32, best: u32) -> bool
        requires { block < length self.now }
    {
        if best as usize >= self.counts.len() {
            return true;
        }
        self.queue.keys[block as usize] == self.queue.keys[best as usize]
            && self.erases[block as usize] < self.erases[best as usize]
    }

    // How many copies of a block come before the next program: so many that it is empty while two blocks' pages are left, if they are not more than the most.
    fn pace(&self, block: u32, room: u64) -> u32 {
        let live = u64::from(self.live(block));
        let margin = self.margin().saturating_add(u64::from(self.pages / 16));
        let left = room
            .saturating_sub(self.kept(KEPT - 1))
            .saturating_sub(live)
            .saturating_sub(margin);
        shares(live, left).min(u64::from(self.most_copies)) as u32
    }

    // The pages of so many blocks.
    fn kept(&self, blocks: u64) -> u64 {
        blocks.saturating_mul(u64::from(self.pages))
    }

    // How many pages are kept in addition, since what comes before one program is a few copies, and the last of a block may be missing.
    fn margin(&self) -> u64 {
        u64::from(self.most_copies).saturating_add(2)
    }

    // How many pages are programmed until a block is empty, if as many copies as can be come before each program.
    fn taken(&self, block: u32) -> u64 {
        let live = u64::from(self.live(block));
        live.saturating_add(shares(live, u64::from(self.most_copies)))
    }

    // Whether the coldest block was erased much less often than a free one, which takes its pages then.
    fn lags_behind(&self, next: NextPages) -> bool {
        let worn = self
            .empty_for(next)
            .map_or(0, |block| self.erases_of(block));
        let live = self.live(self.coldest);
        next.is_closed(self.coldest)
            && 0 < live
            && live <= self.pages
            && self.erases_of(self.coldest) < worn.saturating_sub(WEAR_GAP)
    }

    /// The coldest block, or one of the next few that was erased less often, if they have live pages.
    pub(crate) fn colder(&self, turn: u32) -> u32 {
        let mut best = self.coldest;
        for look in 0..LOOKED_AT_FOR_WEAR {
            let block = self.in_turn(turn.wrapping_mul(LOOKED_AT_FOR_WEAR).wrapping_add(look));
            if self.live(block) > 0
                && (self.live(best) == 0 || self.erases_of(block) < self.erases_of(best))
            {
                best = block;
            }
        }
        best
    }

    // How many pages can be programmed before a block has to be freed.
    fn room(&self, next: NextPages) -> u64 {
        let pages = u64::from(self.pages);
        let free = u64::from(self.queue.count(0)).saturating_mul(pages);
        let mut room = free;
        for at in [next.hosts, next.copies] {
            if let Some(at) = at {
                room = room.saturating_add(u64::from(self.pages.saturating_sub(at.page)));
                if self.live(at.block) == 0 {
                    room = room.saturating_sub(pages);
                }
            }
        }
        room
    }

    /// How often pages of a block have been copied, once they are copied from it: twice stands for more.
    pub(crate) fn copies_from(&self, block: u32) -> u32 {
        match self.openings.get(block as usize) {
            Some(opening) => opening.copies.saturating_add(1).min(2),
            None => 0,
        }
    }

    fn copies_in(&self, block: u32) -> u32 {
        self.openings
            .get(block as usize)
            .map_or(0, |opening| opening.copies)
    }

    fn live(&self, block: u32) -> u32 {
        self.counts.get(block as usize).map_or(0, |live| *live)
    }

    fn erases_of(&self, block: u32) -> u16 {
        self.erases.get(block as usize).map_or(0, |erases| *erases)
    }

    // One block after another.
    fn in_turn(&self, turn: u32) -> u32 {
        turn % (self.counts.len() as u32).max(1)
    }
}

/// The most copies before a program that are needed to keep copies apart, on so many sectors and blocks.
pub fn most_copies(sectors: u32, blocks: u32, pages: u32) -> u32
    ensures { result ≤ most_in_all sectors blocks pages }
{
    let live = sectors / blocks.saturating_sub(5).max(1);
    let copies = shares(u64::from(live), u64::from(pages.saturating_sub(live)));
    (copies.min(u64::from(pages)) as u32).saturating_add(1)
}

// The size of each of so many equal shares of a number, rounded up.
fn shares(number: u64, count: u64) -> u64
    ensures { result ≤ even_share number count }
{
    if number == 0 {
        return 0;
    }
    ((number - 1) / count.max(1)).saturating_add(1)
}
