//! How a chip is opened: each block is asked for, and then the stamp of each page.
mod laws;

ghost use Rattle.std.specs.Prelude.{◌≡◌, ◌≢◌, ◌⊎◌, ◌<◌, ◌≤◌, ◌+◌, ◌*◌, ◌^◌, Bool, List, Some, None, Ok, Err, IfOk, OnOk, OnErr, IfSome};
ghost use Rattle.std.specs.Prelude.{if◌then◌else◌, length, min};
ghost use Rattle.std.specs.Option.{ForNone};
ghost use Rattle.durable.specs.Calls.{HasNoted};
ghost use Rattle.durable.specs.Collecting.{HasCapacity};
ghost use Rattle.durable.specs.Device.{IsStampOn, IsWrittenOn, device_in, next_number_in};
ghost use Rattle.durable.specs.Flash.{Flash};
ghost use Rattle.durable.specs.Mounting.{next_in};
ghost use Rattle.durable.specs.Promise.{IsReadable};
ghost use Rattle.durable.specs.Updates.{Update};
ghost use Rattle.durable.specs.declared.fault.MountFault.TheVariants as mount_fault;
ghost use Rattle.nand.specs.Nand.{noted_of};
ghost use Rattle.nand.specs.Numbers.{good_before};
ghost use Rattle.nand.specs.Opened.{CanFreeInUse, device_on, device_using, most_used};
ghost use Rattle.nand.specs.Opening.{AsksMark, AsksStamp, HasHeard, IsOpenedFrom, IsSameOpening};
ghost use Rattle.nand.specs.Opening.{TakesAnswer, TellsMark, TellsStamp, next_question, questions_left, opening_sectors, shape_of};
ghost use Rattle.nand.specs.declared.opening.OpeningFault.TheVariants as stop;

use crate::flash::{Reading, Shape};
use crate::numbers::{chip_page, used_of};
use crate::opening::{Opened, Opening, OpeningFault, Question};
use durable::{Mount, MountFault};
use std::alloc::Global;

impl Opening {
    /// The opening of a chip for a device of so many sectors. Without spare blocks in its shape no block is kept in reserve: a chip that was refused as
    /// `NoFreeBlock` may have a block that can be freed there.
    pub fn begin(alloc: Global, shape: Shape, sectors: u32) -> Result<Opening, OpeningFault>
        ensures reads { IfOk result (λ opening. (f : Flash) (bad : List Bool) → HasHeard f bad opening) }
        ensures shape { IfOk result (λ opening. shape_of opening ≡ shape) }
        ensures sectors { IfOk result (λ opening. opening_sectors opening ≡ sectors) }
        ensures left { IfOk result
            (λ opening. questions_left opening ≡ shape.blocks + shape.blocks * shape.pages) }
        ensures accepts { shape.blocks ≢ 0 → IfOk result (λ opening. AsksMark (next_question opening)) }
        ensures blank { shape.blocks ≡ 0 → result ≡ Err (stop.Refused mount_fault.TooManySectors) }
        ensures cause { OnErr result (shape.blocks ≡ 0) }
    {
        if shape.blocks == 0 {
            return Err(OpeningFault::Refused(MountFault::TooManySectors));
        }
        Ok(Opening {
            shape,
            sectors,
            numbers: Vec::new(alloc),
            good: 0,
            mount: None,
        })
    }

    /// The question that is open, or none once everything was asked.
    pub fn next(&self) -> Option<Question>
        ensures question { result ≡ next_question self.now }
    {
        let Some(mount) = &self.mount else {
            let block = self.numbers.len();
            prove!(block < self.shape.blocks as usize);
            return Some(Question::IsBad(block as u32));
        };
        match mount.next_page() {
            Some(at) => Some(Question::Stamp(chip_page(&self.numbers, at))),
            None => None,
        }
    }

    /// Takes the answer whether the block is marked bad. After the last block the mount begins, which takes memory for it.
    pub fn block(&mut self, alloc: Global, is_bad: bool) -> Result<(), OpeningFault>
        ensures reads { OnOk result ((f : Flash) (bad : List Bool) → HasHeard f bad self.old
            → TellsMark bad (next_question self.old) is_bad → HasHeard f bad self.new) }
        ensures takes { OnOk result (TakesAnswer self.old self.new) }
        ensures same { OnErr result (IsSameOpening self.old self.new) }
        ensures turn { AsksMark (next_question self.old) → result ≢ Err stop.OutOfTurn }
        ensures other { ¬ AsksMark (next_question self.old) → result ≡ Err stop.OutOfTurn }
        ensures refused { (f : Flash) (bad : List Bool) → HasHeard f bad self.old
            → TellsMark bad (next_question self.old) is_bad
            → HasCapacity (opening_sectors self.old)
            (good_before bad (shape_of self.old).blocks) (shape_of self.old).pages
            → result ≢ Err (stop.Refused mount_fault.TooManySectors) }
        ensures last { result ≡ Err (stop.Refused mount_fault.TooManySectors)
            → questions_left self.old
            ≡ 1 + (shape_of self.old).blocks * (shape_of self.old).pages }
        ensures cause { OnErr result ((result ≡ Err stop.OutOfTurn)
            ⊎ (result ≡ Err (stop.Refused mount_fault.TooManySectors))
            ⊎ (result ≡ Err (stop.Refused mount_fault.OutOfMemory))) }
    {
        if self.mount.is_some() {
            return Err(OpeningFault::OutOfTurn);
        }
        let block = self.numbers.len() as u32;
        let good = good_with(self.good, is_bad);
        let mount = mount_after(alloc, self.shape, self.sectors, block + 1, good)?;
        let number = self.number_for(is_bad);
        if self.numbers.insert(number, block).is_err() {
            return Err(OpeningFault::Refused(MountFault::OutOfMemory));
        }
        self.good = good;
        self.mount = mount;
        Ok(())
    }

    /// Takes what the page's stamp was read as.
    pub fn page(&mut self, reading: Reading) -> Result<(), OpeningFault>
        ensures reads { OnOk result ((f : Flash) (bad : List Bool) → HasHeard f bad self.old
            → TellsStamp f (next_question self.old) reading → HasHeard f bad self.new) }
        ensures takes { OnOk result (TakesAnswer self.old self.new) }
        ensures same { OnErr result (self.new ≡ self.old) }
        ensures turn { AsksStamp (next_question self.old) → result ≢ Err stop.OutOfTurn }
        ensures other { ¬ AsksStamp (next_question self.old) → result ≡ Err stop.OutOfTurn }
        ensures accepts { (f : Flash) (bad : List Bool) → HasHeard f bad self.old
            → IsWrittenOn (device_on (shape_of self.old) bad (opening_sectors self.old)) f
            → TellsStamp f (next_question self.old) reading → result ≡ Ok tt }
        ensures own { (f : Flash) (bad : List Bool) → HasHeard f bad self.old
            → OnOk result
            (IsStampOn (device_on (shape_of self.old) bad (opening_sectors self.old))
            (noted_of reading)) }
        ensures cause { OnErr result ((result ≡ Err stop.OutOfTurn)
            ⊎ (result ≡ Err (stop.Refused mount_fault.ForeignStamp))) }
    {
        let Some(mount) = &mut self.mount else {
            return Err(OpeningFault::OutOfTurn);
        };
        if mount.next_page().is_none() {
            return Err(OpeningFault::OutOfTurn);
        }
        match mount.note(noted(reading)) {
            Ok(()) => Ok(()),
            Err(why) => Err(OpeningFault::Refused(why)),
        }
    }

    /// What the chip is opened as, once everything was asked.
    pub fn finish(self, alloc: Global) -> Result<Opened, OpeningFault>
        ensures opens { IfOk result (λ opened. (f : Flash) (bad : List Bool) → HasHeard f bad self
            → IsOpenedFrom f bad (shape_of self) (opening_sectors self) opened) }
        ensures turn { next_question self ≡ None → result ≢ Err stop.OutOfTurn }
        ensures other { next_question self ≢ None → result ≡ Err stop.OutOfTurn }
        ensures frees { (f : Flash) (bad : List Bool) (acked begun : List Update) → HasHeard f bad self
            → IsReadable f (device_on (shape_of self) bad (opening_sectors self)) acked begun
            → CanFreeInUse f (shape_of self) bad (opening_sectors self)
            → result ≢ Err (stop.Refused mount_fault.NoFreeBlock) }
        ensures cause { OnErr result ((result ≡ Err stop.OutOfTurn)
            ⊎ (result ≡ Err (stop.Refused mount_fault.NoFreeBlock))
            ⊎ (result ≡ Err (stop.Refused mount_fault.OutOfMemory))) }
    {
        let Opening {
            numbers,
            good,
            mount,
            ..
        } = self;
        let Some(mount) = mount else {
            return Err(OpeningFault::OutOfTurn);
        };
        if mount.next_page().is_some() {
            return Err(OpeningFault::OutOfTurn);
        }
        match mount.finish(alloc) {
            Ok(core) => Ok(Opened {
                core,
                numbers,
                good,
            }),
            Err(why) => Err(OpeningFault::Refused(why)),
        }
    }

    // The number for the next block: a bad one comes last, and a good one behind those in use.
    fn number_for(&self, is_bad: bool) -> usize
        ensures number { result ≡ (if is_bad then length self.now.numbers.items
            else min self.now.good (most_used self.now.shape self.now.sectors)) }
        ensures within { result ≤ length self.now.numbers.items }
    {
        if is_bad {
            self.numbers.len()
        } else {
            used_of(self.shape, self.good, self.sectors) as usize
        }
    }
}

// How many blocks are good with this one.
fn good_with(good: u32, is_bad: bool) -> u32
    requires { good + 1 < 2 ^ 32 }
    ensures { result ≡ good + (if is_bad then 0 else 1) }
{
    if is_bad { good } else { good + 1 }
}

// The mount of a chip of which so many blocks were told, and so many of them are good. It begins after the last.
fn mount_after(
    alloc: Global,
    shape: Shape,
    sectors: u32,
    told: u32,
    good: u32,
) -> Result<Option<Mount>, OpeningFault>
    requires good { good ≤ told }
    requires told { told ≤ shape.blocks }
    ensures asks { IfOk result (λ mount. ForNone mount (told < shape.blocks)) }
    ensures all { IfOk result (λ mount. IfSome mount (λ m. told ≡ shape.blocks)) }
    ensures device { IfOk result (λ mount. IfSome mount (λ m. device_in m
        ≡ device_using (min good (most_used shape sectors)) shape sectors)) }
    ensures first { IfOk result (λ mount. IfSome mount
        (λ m. next_in m ≡ Some (record { block = 0; page = 0 }))) }
    ensures number { IfOk result (λ mount. IfSome mount (λ m. next_number_in m ≡ 0)) }
    ensures notes { IfOk result (λ mount. IfSome mount (λ m. (f : Flash) → HasNoted f m)) }
    ensures capacity { IfOk result (λ mount. IfSome mount
        (λ m. HasCapacity sectors good shape.pages)) }
    ensures refused { HasCapacity sectors good shape.pages
        → result ≢ Err (stop.Refused mount_fault.TooManySectors) }
    ensures last { OnErr result (told ≡ shape.blocks) }
    ensures cause { OnErr result ((result ≡ Err (stop.Refused mount_fault.TooManySectors))
        ⊎ (result ≡ Err (stop.Refused mount_fault.OutOfMemory))) }
{
    if told < shape.blocks {
        return Ok(None);
    }
    let used = used_of(shape, good, sectors);
    match Mount::begin_over(alloc, shape.blocks, used, shape.pages, sectors) {
        Ok(mount) => Ok(Some(mount)),
        Err(why) => Err(OpeningFault::Refused(why)),
    }
}

// The stamp that a mount notes of a page.
fn noted(reading: Reading) -> Option<durable::Stamp>
    ensures { result ≡ noted_of reading }
{
    match reading {
        Reading::Version(stamp) => Some(durable::Stamp {
            extent: stamp.extent,
            number: stamp.number,
            is_trim: stamp.trimmed,
        }),
        Reading::Erased | Reading::Unreadable => None,
    }
}
