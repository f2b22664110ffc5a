//! How a driver gives up blocks that have failed: what they hold moves, and they are marked.
ghost use Rattle.std.specs.Prelude.{◌≡◌, ◌≢◌, ◌⊎◌, ◌<◌, ◌≤◌, ◌+◌, ℕ, IfSome, None, Some, true, false};
ghost use Rattle.geometry.specs.Sectors.{Sector};
ghost use Rattle.geometry.specs.declared.page_addr.PageAddr.{PageAddr as Addr};
ghost use Rattle.durable.specs.Collecting.{IsFree};
ghost use Rattle.durable.specs.Device.{device_of, live_sectors};
ghost use Rattle.durable.specs.Flash.{Flash, LosesPages};
ghost use Rattle.durable.specs.Memory.{map_entry};
ghost use Rattle.durable.specs.Next.{HasFree};
ghost use Rattle.nand.specs.Driving.{HoldsNow, IsAfterSuccess, IsMovingOf, KnowsArray, StaysDriver, array_now, driver_sectors, is_made};
ghost use Rattle.nand.specs.Nand.{ReadsStamp};
ghost use Rattle.nand.specs.Numbers.{chip_block as block_of};
ghost use Rattle.nand.specs.Phases.{IsOfDevice};
ghost use Rattle.nand.specs.declared.driver.Phase.TheVariants as phase;

use crate::driver::{Driver, Job, Main, Phase};
use crate::flash::Reading;
use crate::numbers::chip_page;
use durable::{Command, Extent};
use geometry::PageAddr;

// Whether it is this page.
fn is_at(page: Option<PageAddr>, at: PageAddr) -> bool
    ensures { result ≡ true → page ≡ Some at }
{
    match page {
        Some(here) => here == at,
        None => false,
    }
}

impl Driver {
    // The version of the last job is there: the next thing that a block holds that has failed is moved, or the block is marked, or the call has ended.
    pub(crate) fn made(&mut self, extent: Extent)
        requires { IsOfDevice self.old.core extent }
        ensures holds { (f : Flash) (value : Sector) (was : ℕ → Sector)
            → KnowsArray f self.old (array_now self.new value was) → HoldsNow f self.new value was }
        ensures success { IsAfterSuccess self.old self.new }
        ensures stays { StaysDriver self.old self.new }
        ensures made { is_made self.new.outcome ≡ true }
        ensures marks { self.new.unmarked ≡ self.old.unmarked }
    {
        self.outcome = Ok(());
        self.phase = Phase::Idle;
        if self.unmarked >= self.spare {
            return;
        }
        match self.stranded() {
            Some(sector) => self.fetch(sector),
            None => {
                if self.has_free(extent) {
                    self.phase = Phase::Mark(extent);
                }
            }
        }
    }

    // A sector that has its page in a block that has failed and isn't marked.
    fn stranded(&self) -> Option<u32>
        ensures found { IfSome result (λ sector. (sector < driver_sectors self.now)
            × ((at : Addr) × (map_entry self.now.core sector ≡ Some at)
            × (self.now.unmarked ≤ at.block) × (at.block < self.now.spare))) }
        ensures none { result ≡ None → (sector : ℕ) (at : Addr) → sector < driver_sectors self.now
            → map_entry self.now.core sector ≡ Some at
            → (at.block < self.now.unmarked) ⊎ (self.now.spare ≤ at.block) }
    {
        if let Some(sector) = self.stranded_from(self.searched) {
            return Some(sector);
        }
        self.stranded_from(0)
    }

    // The first such sector from this one on.
    fn stranded_from(&self, first: u32) -> Option<u32>
        ensures found { IfSome result (λ sector. (sector < driver_sectors self.now)
            × ((at : Addr) × (map_entry self.now.core sector ≡ Some at)
            × (self.now.unmarked ≤ at.block) × (at.block < self.now.spare))) }
        ensures none { result ≡ None → (sector : ℕ) (at : Addr) → first ≤ sector → sector < driver_sectors self.now
            → map_entry self.now.core sector ≡ Some at
            → (at.block < self.now.unmarked) ⊎ (self.now.spare ≤ at.block) }
    {
        for sector in first..self.core.sectors() {
            if self.is_stranded(self.core.page(sector)) {
                return Some(sector);
            }
        }
        None
    }

    // Whether a page is in such a block.
    fn is_stranded(&self, at: Option<PageAddr>) -> bool
        ensures yes { result ≡ true → (on : Addr) × (at ≡ Some on) × (self.now.unmarked ≤ on.block) × (on.block < self.now.spare) }
        ensures no { result ≡ false → (on : Addr) → at ≡ Some on → (on.block < self.now.unmarked) ⊎ (self.now.spare ≤ on.block) }
    {
        match at {
            Some(on) => on.block >= self.unmarked && on.block < self.spare,
            None => false,
        }
    }

    // Has the page of such a sector read, to move all sectors in a row from this one on that have it.
    fn fetch(&mut self, sector: u32)
        requires sector { sector < driver_sectors self.old }
        requires made { is_made self.old.outcome ≡ true }
        requires failed { IfSome (map_entry self.old.core sector)
            (λ at. (self.old.unmarked ≤ at.block) × (at.block < self.old.spare)) }
        requires idle { self.old.phase ≡ phase.Idle }
        ensures holds { (f : Flash) (value : Sector) (was : ℕ → Sector)
            → KnowsArray f self.old (array_now self.old value was) → HoldsNow f self.new value was }
        ensures here { self.new.phase ≢ phase.Closed }
        ensures writes { self.new.phase ≢ phase.ReadOnly }
        ensures spare { self.new.spare ≡ self.old.spare }
        ensures good { self.new.good ≡ self.old.good }
        ensures stays { StaysDriver self.old self.new }
        ensures made { self.new.outcome ≡ self.old.outcome }
        ensures marks { self.new.unmarked ≡ self.old.unmarked }
    {
        let Some(at) = self.core.page(sector) else {
            return;
        };
        let extent = Extent {
            first: sector,
            count: self.count_at(sector, at),
        };
        self.searched = sector;
        self.phase = Phase::Fetch(chip_page(&self.numbers, at), extent);
    }

    // How many sectors in a row have this page, from one on that has it.
    fn count_at(&self, first: u32, at: PageAddr) -> u32
        requires sector { first < driver_sectors self.now }
        requires here { map_entry self.now.core first ≡ Some at }
        ensures some { 1 ≤ result }
        ensures within { first + result ≤ driver_sectors self.now }
        ensures all { (sector : ℕ) → first ≤ sector → sector < first + result → map_entry self.now.core sector ≡ Some at }
    {
        let sectors = self.core.sectors();
        for end in first + 1..sectors {
            if !is_at(self.core.page(end), at) {
                return end - first;
            }
        }
        sectors - first
    }

    // Whether a closed block is free.
    fn has_free(&self, extent: Extent) -> bool
        requires { IsOfDevice self.now.core extent }
        ensures { result ≡ true → HasFree self.now.core.blocks self.now.core.map.items self.now.core.next_pages }
    {
        match self.core.next(extent) {
            Command::Program(..) => true,
            Command::Erase(_) => true,
            Command::Copy(_, _, to) => self.has_empty_beside(to.block),
            Command::Refused => false,
        }
    }

    // Whether a block in use that isn't this one has no sectors.
    fn has_empty_beside(&self, avoided: u32) -> bool
        ensures { result ≡ true → (b : ℕ) × (b < (device_of self.now.core).blocks) × (b ≢ avoided) × (live_sectors self.now.core b ≡ 0) }
    {
        for block in 0..self.core.blocks() {
            if block != avoided && self.core.live(block) == 0 {
                return true;
            }
        }
        false
    }

    // The page of sectors that have to move was read. Those whose page can't be read are lost.
    pub(crate) fn fetched(&mut self, from: PageAddr, extent: Extent, reading: Reading)
        requires { IsOfDevice self.old.core extent }
        ensures holds { (f : Flash) (value : Sector) (was : ℕ → Sector) (v : Sector)
            → KnowsArray f self.old (array_now self.old value was)
            → IsMovingOf f self.old from extent (array_now self.old value was) v
            → ReadsStamp (f from.block from.page) reading → HoldsNow f self.new value was }
        ensures success { IsAfterSuccess self.old self.new }
        ensures unmarked { self.new.unmarked ≡ self.old.unmarked }
        ensures stays { StaysDriver self.old self.new }
    {
        match reading {
            Reading::Version(stamp) => self.choose(Job {
                extent,
                trimmed: stamp.trimmed,
                main: Main::Page(from),
            }),
            Reading::Erased | Reading::Unreadable => self.choose(Job {
                extent,
                trimmed: false,
                main: Main::Lost,
            }),
        }
    }

    // The first block that has failed was marked.
    pub(crate) fn marked(&mut self, extent: Extent)
        requires { IsOfDevice self.old.core extent }
        ensures holds { (f t : Flash) (value : Sector) (was : ℕ → Sector)
            → KnowsArray f self.old (array_now self.old value was) → is_made self.old.outcome ≡ true
            → IsFree self.old.core.map.items self.old.unmarked
            → HasFree self.old.core.blocks self.old.core.map.items self.old.core.next_pages
            → LosesPages f t (block_of self.old.numbers.items self.old.unmarked)
            → HoldsNow t self.new value was }
        ensures next { self.old.unmarked < self.old.spare → self.new.unmarked ≡ self.old.unmarked + 1 }
        ensures success { IsAfterSuccess self.old self.new }
        ensures stays { StaysDriver self.old self.new }
    {
        self.phase = Phase::Idle;
        self.unmarked = self.after_unmarked();
        self.made(extent);
    }

    // The number after that of the first block that has failed and isn't marked, if there is one.
    fn after_unmarked(&self) -> u32
        ensures low { self.now.unmarked ≤ result }
        ensures high { result ≤ self.now.spare }
        ensures next { self.now.unmarked < self.now.spare → result ≡ self.now.unmarked + 1 }
    {
        if self.unmarked < self.spare {
            return self.unmarked + 1;
        }
        self.unmarked
    }
}
