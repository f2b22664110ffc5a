mod laws;

ghost use Rattle.std.specs.Prelude.{◌≡◌, ◌≢◌, ◌<◌, ◌≤◌, ◌+◌, ◌^◌, List, length, None, Some, IfSome, true, false};
ghost use Rattle.durable.specs.Collecting.{IsNotOpen, IsFree, live_in, most_copies as most_in_all};
ghost use Rattle.durable.specs.Commands.{is_program};
ghost use Rattle.durable.specs.Next.{HasFree, HasFreeBeside, IsRoomy, Opens};

use crate::cleaning::most_copies;
use crate::command::Command;
use crate::counting::{remap, remap_all};
use crate::extent::Extent;
use crate::memory::Core;
use crate::next_pages::NextPages;
use crate::search::source;
use geometry::PageAddr;

impl Core {
    ghost use Rattle.durable.specs.Flash.{Flash};
    ghost use Rattle.durable.specs.Updates.{LiesWithin, Update, array_after};
    ghost use Rattle.durable.specs.Device.{device_of, live_sectors, losses_of, next_number_of, next_pages_of};
    ghost use Rattle.durable.specs.Memory.{IsMappedTo, map_entry};
    ghost use Rattle.durable.specs.Choice.{IsNextCommand, StaysOpen, Spends, left, number_after};
    ghost use Rattle.durable.specs.Promise.{IsConsistent};
    ghost use Rattle.durable.specs.Calls.{IsSafe, SurvivesCut, SurvivesIdleCut, Acknowledges};
    ghost use Rattle.durable.specs.Whole.{CutsIdleUnharmed, CutsUnharmed, StaysWhole};
    ghost use Rattle.durable.specs.declared.command.Command.TheVariants.{Erase, Refused};

    /// How many sectors the device has.
    pub fn sectors(&self) -> u32
        ensures { result ≡ (device_of self.now).sectors }
    {
        self.map.len() as u32
    }

    /// How many blocks are in use.
    pub fn blocks(&self) -> u32
        ensures { result ≡ (device_of self.now).blocks }
    {
        self.blocks
    }

    /// How many sectors have their page in a block that is in use. One without such sectors can be erased.
    pub fn live(&self, block: u32) -> u32
        requires { block < (device_of self.now).blocks }
        ensures { result ≡ live_sectors self.now block }
    {
        self.counts.get(block)
    }

    /// How many losses the mount has found: pages that have become unreadable before others in their blocks, which have newest versions still. An
    /// older version may stand for each of theirs.
    pub fn losses(&self) -> u64
        ensures { result ≡ losses_of self.now }
    {
        self.losses
    }

    /// The page with the sector's value, or with its trim if that is needed; none where no page has a value of it.
    pub fn page(&self, sector: u32) -> Option<PageAddr>
        requires { sector < (device_of self.now).sectors }
        ensures map { result ≡ map_entry self.now sector }
        ensures newest { (f : Flash) (acked begun : List Update)
            (consistent : IsConsistent f self.now acked begun)
            → IsMappedTo f sector (array_after consistent.updates sector) result }
    {
        self.map.get(sector as usize)
    }

    /// A block was erased so often before the mount. Of a few blocks that are as good the least erased is taken, and blocks that are not in use
    /// don't count.
    pub fn erased_before(&mut self, block: u32, erases: u32)
        ensures { self.new ≡ self.old }
    {
        if block < self.blocks {
            self.counts.erased_before(block, erases);
        }
    }

    /// From now on a block is opened for what hosts write and another one for copies, where blocks are free. Sectors that are written often don't lie
    /// among copied ones then, and a write waits for few copies at a time. It is for flash that keeps each command that is done: after a power cut
    /// that loses some of them, what is left need not be a beginning of the history.
    pub fn keep_copies_apart(&mut self)
        ensures { self.new ≡ self.old }
    {
        let most = most_copies(self.map.len() as u32, self.blocks, self.pages);
        self.counts.keep_copies_apart(most);
    }

    /// The command that comes next for a write or trim of these sectors. It depends on nothing but the layer's memory.
    pub fn next(&self, extent: Extent) -> Command
        requires { LiesWithin (device_of self.now).sectors extent }
        ensures next { IsNextCommand self.now result }
        ensures safe { IsSafe self.now result }
        ensures cut { SurvivesCut self.now extent result }
        ensures idle { SurvivesIdleCut self.now }
        ensures unharmed { CutsUnharmed self.now extent result }
        ensures idle_unharmed { CutsIdleUnharmed self.now }

        // It is refused only if the numbers have run out.
        ensures progress { next_number_of self.now + 1 < 2 ^ 64 → result ≢ Refused }
    {
        self.choose()
    }

    /// The command that came next has succeeded.
    pub fn done(&mut self, extent: Extent, command: Command)
        requires within { LiesWithin (device_of self.old).sectors extent }
        requires next { IsNextCommand self.old command }
        ensures device { device_of self.new ≡ device_of self.old }
        ensures losses { losses_of self.new ≡ losses_of self.old }
        ensures acknowledges { Acknowledges self.old extent command self.new }
        ensures whole { StaysWhole self.old extent command self.new }
        ensures number { next_number_of self.new ≡ number_after command (next_number_of self.old) }

        // Each command but the program brings the call nearer to its end.
        ensures spends { Spends command (device_of self.old).pages (left self.old) (left self.new) }
        ensures open { StaysOpen command (device_of self.old).pages (next_pages_of self.new) }

        // While a block is open and another one is free, this stays so until the call's program.
        ensures roomy { is_program command ≡ false
            → IsRoomy self.old.blocks self.old.map.items self.old.next_pages
            → IsRoomy self.new.blocks self.new.map.items self.new.next_pages }
    {
        self.chosen = Command::Refused;
        match command {
            Command::Program(at, number) => {
                self.owners.programmed(&self.map, at, extent);
                remap_all(&mut self.map, &mut self.counts, extent, at);
                self.next_number = number + 1;
                self.next_pages = self.next_pages.programmed(at, self.pages);
                self.left = u64::from(self.pages) + 1;
                let victim = self
                    .counts
                    .victim_after(self.victim, self.next_pages, self.turn);
                self.owners
                    .prepare(&self.map, &self.counts, self.victim, victim);
                self.victim = victim;
                self.chosen = self.decide();
            }
            Command::Copy(sector, from, to) => {
                remap(&mut self.map, &mut self.counts, sector, Some(from), to);
                self.owners.copied(&self.map, sector, from, to);
                self.next_pages = self.next_pages.copied(to, self.pages);
                self.left = self.left.min(u64::from(self.pages)) - 1;
                self.chosen = self.decide();
            }
            Command::Erase(block) => {
                let next_pages = self.opened(block);
                let source = self.victim.source(next_pages, block);
                self.counts.erased(block, self.turn, source);
                self.turn = self.turn.wrapping_add(1);
                let victim = self.counts.victim_beside(self.victim, next_pages, block);
                self.owners
                    .prepare(&self.map, &self.counts, self.victim, victim);
                self.victim = victim;
                self.next_pages = next_pages;
                self.left = u64::from(self.pages);
                self.chosen = self.decide();
            }
            Command::Refused => {}
        }
    }

    // The command that comes next, whatever the sector is.
    fn choose(&self) -> Command
        ensures next { IsNextCommand self.now result }
        ensures progress { next_number_of self.now + 1 < 2 ^ 64 → result ≢ Refused }
    {
        match self.chosen {
            Command::Refused => self.decide(),
            chosen => chosen,
        }
    }

    // The next pages once a block was erased: it is for hosts, if it can be.
    fn opened(&self, block: u32) -> NextPages
        requires { IsNextCommand self.now (Erase block) }
        ensures { Opens self.now.blocks self.now.map.items self.now.next_pages block result }
    {
        let first = PageAddr { block, page: 0 };
        let next = self.next_pages;
        let for_hosts = NextPages {
            hosts: Some(first),
            copies: next.copies,
        };
        let for_copies = NextPages {
            hosts: next.hosts,
            copies: Some(first),
        };
        match next.hosts {
            Some(_) => for_copies,
            None => match next.copies {
                Some(_) => for_hosts,
                None => match self.counts.other_empty(next, block) {
                    Some(_) if self.counts.has_many_empty() => for_hosts,
                    _ => for_copies,
                },
            },
        }
    }

    // The same, by the counts and the owners.
    fn decide(&self) -> Command
        ensures next { IsNextCommand self.now result }
        ensures progress { next_number_of self.now + 1 < 2 ^ 64 → result ≢ Refused }
    {
        match self.next_pages.hosts {
            Some(at) => self.beside_hosts(at),
            None => self.without_hosts(),
        }
    }

    // The same, while a block is open for hosts: copies that the call doesn't need come before its program.
    fn beside_hosts(&self, at: PageAddr) -> Command
        requires { self.now.next_pages.hosts ≡ Some at }
        ensures next { IsNextCommand self.now result }
        ensures progress { next_number_of self.now + 1 < 2 ^ 64 → result ≢ Refused }
    {
        if let Some(command) = self.collecting() {
            return command;
        }
        if self.next_number >= u64::MAX {
            return Command::Refused;
        }
        Command::Program(at, self.next_number)
    }

    // A copy that the call doesn't need, or an erase before it.
    fn collecting(&self) -> Option<Command>
        requires { self.now.next_pages.hosts ≢ None }
        ensures { IfSome result (λ m. IsNextCommand self.now m × (m ≢ Refused)) }
    {
        match self.next_pages.copies {
            Some(to) => self.spare_copy(to),
            None => {
                self.due()?;
                Some(Command::Erase(self.block_to_open()?))
            }
        }
    }

    // A copy that the call doesn't need, beside a free block.
    fn spare_copy(&self, to: PageAddr) -> Option<Command>
        requires copies { self.now.next_pages.copies ≡ Some to }
        requires free { HasFree self.now.blocks self.now.map.items self.now.next_pages }
        requires room { self.now.next_pages.hosts ≡ None → to.page + 1 < self.now.pages }
        ensures { IfSome result (λ m. IsNextCommand self.now m × (m ≢ Refused)) }
    {
        let victim = self.due()?;
        let (sector, from) = source(&self.map, &self.owners, victim)?;
        Some(Command::Copy(sector, from, to))
    }

    // The block that such a copy comes from, if one is due.
    fn due(&self) -> Option<u32>
        ensures { IfSome result (λ b. IsNotOpen self.now.next_pages b
            × (1 < self.now.left) × (1 < self.now.pages)
            × (self.now.pages < self.now.left
            + most_in_all (length self.now.map.items) self.now.blocks self.now.pages)) }
    {
        let victim = self.victim.block;
        if victim >= self.blocks || !self.next_pages.is_closed(victim) {
            return None;
        }
        if self.counts.get(victim) == 0 || self.left <= 1 || self.pages <= 1 {
            return None;
        }
        let most = most_copies(self.map.len() as u32, self.blocks, self.pages);
        let pace = u64::from(self.victim.pace.min(most));
        if pace == 0 || self.left + pace <= u64::from(self.pages) {
            return None;
        }
        Some(victim)
    }

    // A block that can be opened beside another free one.
    fn block_to_open(&self) -> Option<u32>
        ensures { IfSome result (λ b. (self.now.left ≡ self.now.pages + 1) × (b < self.now.blocks) × IsFree self.now.map.items b
            × IsNotOpen self.now.next_pages b × HasFreeBeside self.now.blocks self.now.map.items self.now.next_pages b) }
    {
        if self.left <= u64::from(self.pages) {
            return None;
        }
        let block = self.counts.empty_for(self.next_pages)?;
        if !self.next_pages.is_closed(block) {
            return None;
        }
        self.counts.other_empty(self.next_pages, block)?;
        Some(block)
    }

    // The same, while no block is open for hosts: one is opened if it can be.
    fn without_hosts(&self) -> Command
        requires { self.now.next_pages.hosts ≡ None }
        ensures next { IsNextCommand self.now result }
        ensures progress { next_number_of self.now + 1 < 2 ^ 64 → result ≢ Refused }
    {
        if let Some(block) = self.for_hosts() {
            return Command::Erase(block);
        }
        match self.next_pages.copies {
            Some(to) => self.in_copies(to),
            None => match self.counts.empty(self.turn) {
                Some(block) => Command::Erase(block),
                None => Command::Refused,
            },
        }
    }

    // A block to be opened for hosts, if enough pages are left.
    fn for_hosts(&self) -> Option<u32>
        ensures { IfSome result (λ b. (self.now.left ≡ self.now.pages + 1) × (b < self.now.blocks) × IsFree self.now.map.items b
            × IsNotOpen self.now.next_pages b × HasFreeBeside self.now.blocks self.now.map.items self.now.next_pages b) }
    {
        if !self.counts.has_room(self.victim, self.next_pages) {
            return None;
        }
        self.block_to_open()
    }

    // The same, while only the block of copies is open.
    fn in_copies(&self, to: PageAddr) -> Command
        requires hosts { self.now.next_pages.hosts ≡ None }
        requires copies { self.now.next_pages.copies ≡ Some to }
        ensures next { IsNextCommand self.now result }
        ensures progress { next_number_of self.now + 1 < 2 ^ 64 → result ≢ Refused }
    {
        let victim = self.counts.fewest(to.block);
        if self.is_free_beside(victim, to.block) {
            if self.pages - to.page > 1 {
                if let Some(command) = self.spare_copy(to) {
                    return command;
                }
            }
            if self.next_number >= u64::MAX {
                return Command::Refused;
            }
            return Command::Program(to, self.next_number);
        }
        match source(&self.map, &self.owners, victim) {
            Some((sector, from)) => Command::Copy(sector, from, to),
            None => Command::Refused,
        }
    }

    // Whether a block is free, and another one than this.
    fn is_free_beside(&self, block: u32, avoided: u32) -> bool
        ensures yes { result ≡ true → IsFree self.now.map.items block
            × (block < self.now.blocks) × (block ≢ avoided) }
        ensures no { result ≡ false → block < self.now.blocks
            → block ≢ avoided → 0 < live_in block self.now.map.items }
    {
        block < self.blocks && block != avoided && self.counts.get(block) == 0
    }
}
