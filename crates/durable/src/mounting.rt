ghost use Rattle.std.specs.Prelude.{◌≡◌, ◌≢◌, ◌⊎◌, ◌<◌, ◌≤◌, ◌+◌, ◌-◌, ◌*◌, ℕ, List, length, Ok, Err, Some, None, IfOk, OnOk, OnErr, IfSome};
ghost use Rattle.durable.specs.Flash.{Flash};

use crate::candidates::{freeable, is_of_device, take};
use crate::cleaning::Victim;
use crate::command::Command;
use crate::counting::counts_of;
use crate::fault::MountFault;
use crate::found::{Found, Stamp};
use crate::gaps::{count_gaps, losses};
use crate::marks::mark_values;
use crate::memory::Core;
use crate::mount::Mount;
use crate::next_pages::NextPages;
use crate::owners::Owners;
use geometry::PageAddr;
use std::alloc::Global;

impl Mount {
    ghost use Rattle.durable.specs.Updates.{Update};
    ghost use Rattle.durable.specs.Candidates.{number_above};
    ghost use Rattle.durable.specs.Device.{device_of, device_in, losses_of, next_number_in, next_number_of};
    ghost use Rattle.durable.specs.Device.{HasOwnVersions, IsStampOn, IsWrittenOn};
    ghost use Rattle.durable.specs.Whole.{MountsWhole};
    ghost use Rattle.durable.specs.Collecting.{HasCapacity};
    ghost use Rattle.durable.specs.Mounting.{IsStampOf, next_in, after_in};
    ghost use Rattle.durable.specs.Promise.{IsRecoverable};
    ghost use Rattle.durable.specs.Calls.{CountsLosses, DropsTrims, HasNoted, Remounts, TellsLosses, TellsNoFalseLoss};
    ghost use Rattle.durable.specs.declared.fault.MountFault.TheVariants.{TooManySectors, ForeignStamp, NoFreeBlock, OutOfMemory};

    /// A mount that has noted nothing, of a device whose blocks are all in use.
    pub fn begin(alloc: Global, blocks: u32, pages: u32, sectors: u32) -> Result<Mount, MountFault>
        ensures device { IfOk result
            (λ mount. device_in mount
            ≡ record { blocks = blocks; read_blocks = blocks; pages = pages; sectors = sectors }) }
        ensures first { IfOk result
            (λ mount. next_in mount ≡ Some (record { block = 0; page = 0 })) }
        ensures number { IfOk result (λ mount. next_number_in mount ≡ 0) }
        ensures notes { IfOk result (λ mount. (f : Flash) → HasNoted f mount) }
        ensures refused { HasCapacity sectors blocks pages → result ≢ Err TooManySectors }
        ensures capacity { OnOk result (HasCapacity sectors blocks pages) }
        ensures cause { OnErr result ((result ≡ Err TooManySectors) ⊎ (result ≡ Err OutOfMemory)) }
    {
        Mount::begin_over(alloc, blocks, blocks, pages, sectors)
    }

    /// The same, where more blocks are read than are in use: bad ones and a reserve, with the numbers after those.
    pub fn begin_over(
        alloc: Global,
        read_blocks: u32,
        blocks: u32,
        pages: u32,
        sectors: u32,
    ) -> Result<Mount, MountFault>
        requires { blocks ≤ read_blocks }
        ensures device { IfOk result
            (λ mount. device_in mount
            ≡ record { blocks = blocks; read_blocks = read_blocks; pages = pages; sectors = sectors }) }
        ensures first { IfOk result
            (λ mount. next_in mount ≡ Some (record { block = 0; page = 0 })) }
        ensures number { IfOk result (λ mount. next_number_in mount ≡ 0) }
        ensures notes { IfOk result (λ mount. (f : Flash) → HasNoted f mount) }
        ensures refused { HasCapacity sectors blocks pages → result ≢ Err TooManySectors }
        ensures capacity { OnOk result (HasCapacity sectors blocks pages) }
        ensures cause { OnErr result ((result ≡ Err TooManySectors) ⊎ (result ≡ Err OutOfMemory)) }
    {
        if blocks == 0 || u64::from(sectors) >= u64::from(blocks - 1) * u64::from(pages) {
            return Err(MountFault::TooManySectors);
        }
        let Ok(found) = Found::new(alloc, sectors) else {
            return Err(MountFault::OutOfMemory);
        };
        let Ok(valued) = vec![in alloc; 0; sectors as usize / 64 + 1] else {
            return Err(MountFault::OutOfMemory);
        };
        let Ok(gaps) = vec![in alloc; 0; read_blocks as usize] else {
            return Err(MountFault::OutOfMemory);
        };
        Ok(Mount {
            blocks,
            read_blocks,
            pages,
            found,
            next_number: 0,
            valued,
            gaps,
            block: 0,
            page: 0,
            versions: 0,
        })
    }

    /// The page whose stamp has to be noted next, or none after the last.
    pub fn next_page(&self) -> Option<PageAddr>
        ensures { result ≡ next_in self.now }
    {
        (self.block < self.read_blocks).then_some(PageAddr {
            block: self.block,
            page: self.page,
        })
    }

    /// Takes the stamp of the next page, or none for a page that has no version: an erased or a torn one.
    pub fn note(&mut self, stamp: Option<Stamp>) -> Result<(), MountFault>
        requires { next_in self.old ≢ None }
        ensures device { device_in self.new ≡ device_in self.old }
        ensures next { OnOk result (next_in self.new ≡ after_in self.old) }
        ensures number { OnOk result
            (next_number_in self.new ≡ number_above (next_number_in self.old) stamp) }
        ensures notes { OnOk result ((f : Flash) → HasNoted f self.old
            → IfSome (next_in self.old) (λ at. IsStampOf f at.block at.page stamp)
            → HasNoted f self.new) }
        ensures accepts { (f : Flash) → IsWrittenOn (device_in self.old) f
            → IfSome (next_in self.old) (λ at. IsStampOf f at.block at.page stamp)
            → result ≡ Ok tt }
        ensures refused { OnOk result (IsStampOn (device_in self.old) stamp) }
        ensures cause { OnErr result (result ≡ Err ForeignStamp) }
        ensures same { OnErr result (self.new ≡ self.old) }
    {
        if !is_of_device(stamp, self.found.len()) {
            return Err(MountFault::ForeignStamp);
        }
        let at = PageAddr {
            block: self.block,
            page: self.page,
        };
        take(
            &mut self.found,
            &self.gaps,
            &mut self.next_number,
            at,
            stamp,
        );
        mark_values(&mut self.valued, stamp);
        count_gaps(&mut self.gaps, &mut self.versions, at, stamp);
        if self.page + 1 < self.pages {
            self.page += 1;
        } else {
            self.page = 0;
            self.block += 1;
            self.versions = 0;
        }
        Ok(())
    }

    /// The layer, once the stamp of every page was noted.
    pub fn finish(self, alloc: Global) -> Result<Core, MountFault>
        requires { next_in self ≡ None }
        ensures device { IfOk result (λ core. device_of core ≡ device_in self) }
        ensures number { IfOk result (λ core. next_number_of core ≡ next_number_in self) }
        ensures own { OnOk result ((f : Flash) → HasNoted f self → HasOwnVersions (device_in self) f) }
        ensures remounts { IfOk result (Remounts self) }
        ensures drops { IfOk result (DropsTrims self) }

        // The losses are the gaps in blocks that have a needed newest version which no block without a gap has.
        ensures losses { IfOk result (CountsLosses self) }
        ensures tells { IfOk result (TellsLosses self) }
        ensures quiet { IfOk result (TellsNoFalseLoss self) }
        ensures whole { IfOk result (MountsWhole self) }
        ensures frees { (f : Flash) (acked begun : List Update) → HasNoted f self
            → IsRecoverable f (device_in self) acked begun → result ≢ Err NoFreeBlock }
        ensures cause { OnErr result ((result ≡ Err NoFreeBlock) ⊎ (result ≡ Err OutOfMemory)) }
    {
        let mut found = self.found;
        found.forget_trims(&self.valued);
        let Ok(avoided) = freeable(alloc, &found, &self.gaps, self.blocks) else {
            return Err(MountFault::OutOfMemory);
        };
        if avoided >= self.blocks {
            return Err(MountFault::NoFreeBlock);
        }
        let losses = losses(&found, &self.gaps);
        let map = found.into_map(avoided);
        let Ok(counts) = counts_of(alloc, &map, self.blocks, self.pages) else {
            return Err(MountFault::OutOfMemory);
        };
        let Ok(owners) = Owners::new(alloc, &map, self.blocks, self.pages) else {
            return Err(MountFault::OutOfMemory);
        };
        Ok(Core {
            blocks: self.blocks,
            read_blocks: self.read_blocks,
            pages: self.pages,
            map,
            counts,
            owners,
            turn: 0,
            next_pages: NextPages {
                hosts: None,
                copies: None,
            },
            victim: Victim::NONE,
            left: u64::from(self.pages) + 1,
            next_number: self.next_number,
            chosen: Command::Refused,
            losses,
        })
    }
}
