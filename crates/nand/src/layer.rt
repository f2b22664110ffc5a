ghost use Rattle.std.specs.Prelude.{◌≡◌, ◌≢◌, ◌⊎◌, ◌<◌, ◌≤◌, ◌+◌, ◌%◌, ◌^◌, ℕ, List, ◌∷◌, [], length};
ghost use Rattle.std.specs.Prelude.{None, Some, Ok, Err, OnOk, OnErr, IfOk, IfErr, IfSome};
ghost use Rattle.geometry.specs.Sectors.{was_of};
ghost use Rattle.geometry.specs.declared.answer.Got.TheVariants as got;
ghost use Rattle.geometry.specs.declared.answer.Was.TheVariants as was;
ghost use Rattle.durable.specs.Collecting.{HasCapacity};
ghost use Rattle.durable.specs.Updates.{LiesWithin, Update, array_after, sole};
ghost use Rattle.durable.specs.declared.fault.MountFault.TheVariants as mount_fault;
ghost use Rattle.durable.specs.Device.{HasOwnVersions, IsWrittenOn, device_of, live_sectors, losses_of};
ghost use Rattle.durable.specs.Flash.{IsErased, PageContents};
ghost use Rattle.durable.specs.Losses.{HasNoLoss};
ghost use Rattle.nand.specs.Numbers.{chip_block as block_of, good_before, numbered};
ghost use Rattle.nand.specs.Opened.{CanOpen, Fails, IsUnmounted, IsOpenLayer, IsSameDevice, IsTrueCause, KeepsDevice, MarksFailed, ReadsSector, Were};
ghost use Rattle.nand.specs.Opened.{CanSpare, NumbersBelow, device_on, layer_sectors, number_of, reserve_of, update_of};
ghost use Rattle.nand.specs.Stored.{ReadsStored, StopsLook, StopsUpdate, TellsStored, WereStored, stored_value, told_of, value_for};
ghost use Rattle.nand.specs.Looks.{Looks};
ghost use Rattle.nand.specs.Nand.{HasBytes, ReadsStamp};
ghost use Rattle.nand.specs.Programs.{ProgramsOnce};
ghost use Rattle.nand.specs.declared.failure.Failure.TheVariants as failure;
ghost use Rattle.nand.specs.declared.failure.OpenFailure.TheVariants as why;
ghost use Rattle.nand.specs.declared.flash.Fault.TheVariants as fault;

use crate::asked::open_chip;
use crate::failure::{Failure, OpenFailure};
use crate::flash::{Nand, PowerGone, Reading, Tally};
use crate::numbers::{chip_block, chip_page};
use durable::{Core, Extent};
use geometry::{Got, Was};
use std::alloc::Global;

/// A page-mapped layer over a chip. It survives power cuts.
#[derive(Drop)]
pub struct Durable<N: Nand> {
    pub(crate) nand: N,
    // The chip's block of each of the core's.
    pub(crate) numbers: Vec<u32>,
    pub(crate) core: Core,
    // How many blocks are good: those in use, and the reserve.
    pub(crate) good: u32,
    // The core knows what the chip holds.
    pub(crate) mounted: bool,
}

/// A chip that was not opened, and why.
#[derive(Drop)]
pub struct NotOpened<N> {
    pub nand: N,
    pub why: OpenFailure,
}

// What a sector is, by what its page was read as.
fn found(reading: Reading, sector: u32) -> Result<Was, Failure>
    ensures tells { (page : PageContents) → ReadsStamp page reading
        → result ≡ told_of (value_for page sector) }
    ensures lost { OnErr result (result ≡ Err failure.Lost) }
{
    match reading {
        Reading::Version(stamp) => {
            if !stamp.extent.covers(sector) {
                return Err(Failure::Lost);
            }
            Ok(if stamp.trimmed {
                Was::Empty
            } else {
                Was::Written
            })
        }
        Reading::Erased | Reading::Unreadable => Err(Failure::Lost),
    }
}

impl<N: Nand> Durable<N> {
    /// Opens a chip: reads each page's stamp. A chip that was never written is an empty device. A chip that isn't opened comes back.
    pub fn open(alloc: Global, nand: N, sectors: u32) -> Result<Durable<N>, NotOpened<N>>
        ensures open { (updates : List Update) → CanOpen N.flash N.shape N.bad nand sectors updates
            → IfOk result (λ layer. IsOpenLayer N.flash N.shape N.bad layer updates) }
        ensures new { IsErased (N.flash nand)
            → IfOk result (λ layer. IsOpenLayer N.flash N.shape N.bad layer []) }
        ensures chip { IfOk result
            (λ layer. (N.flash layer.nand ≡ N.flash nand) × (N.shape layer.nand ≡ N.shape nand)
            × (N.bad layer.nand ≡ N.bad nand) × (layer_sectors layer ≡ sectors)) }
        ensures tally { IfOk result (λ layer. N.tally layer.nand ≡ N.tally nand)
            × IfErr result (λ refused. N.tally refused.nand ≡ N.tally nand) }
        ensures number { IfOk result (λ layer. (n : ℕ) → NumbersBelow (N.flash nand) n
            → number_of layer ≤ n) }
        ensures spares { IfOk result
            (λ layer. (n : ℕ) → CanSpare (N.shape nand) (N.bad nand) sectors n
            → n ≤ reserve_of layer) }

        // It tells no loss exactly if each sector's newest version, where it is needed, has a page in a block without a gap.
        ensures tells { IfOk result
            (λ layer. IsWrittenOn
            (device_on (N.shape nand) (N.bad nand) sectors) (N.flash nand)
            → losses_of layer.core ≡ 0
            → HasNoLoss (numbered layer.numbers.items (N.flash nand)) sectors) }
        ensures quiet { (updates : List Update) → CanOpen N.flash N.shape N.bad nand sectors updates
            → IfOk result
            (λ layer. HasNoLoss (numbered layer.numbers.items (N.flash nand)) sectors
            → losses_of layer.core ≡ 0) }

        // A device with fewer sectors than were written is refused.
        ensures own { IfOk result
            (λ layer. HasOwnVersions
            (device_on (N.shape nand) (N.bad nand) sectors)
            (numbered layer.numbers.items (N.flash nand))) }
        ensures capacity { OnOk result
            (HasCapacity sectors (good_before (N.bad nand) (N.shape nand).blocks)
            (N.shape nand).pages) }
        ensures back { IfErr result
            (λ refused. (N.flash refused.nand ≡ N.flash nand)
            × (N.shape refused.nand ≡ N.shape nand)
            × (N.bad refused.nand ≡ N.bad nand)) }

        // It is refused only if the sectors are too many, if the flash is none that this layer leaves, or without memory or power.
        ensures room { HasCapacity sectors
            (good_before (N.bad nand) (N.shape nand).blocks) (N.shape nand).pages
            → IfErr result (λ refused. refused.why ≢ why.Refused mount_fault.TooManySectors) }
        ensures foreign { IsWrittenOn (device_on (N.shape nand) (N.bad nand) sectors) (N.flash nand)
            → IfErr result (λ refused. refused.why ≢ why.Refused mount_fault.ForeignStamp) }
        ensures frees { (updates : List Update) → CanOpen N.flash N.shape N.bad nand sectors updates
            → IfErr result (λ refused. refused.why ≢ why.Refused mount_fault.NoFreeBlock) }
        ensures begins { IsErased (N.flash nand)
            → HasCapacity sectors
            (good_before (N.bad nand) (N.shape nand).blocks) (N.shape nand).pages
            → IfErr result
            (λ refused. (refused.why ≡ why.PowerGone)
            ⊎ (refused.why ≡ why.Refused mount_fault.OutOfMemory)) }
        ensures power { IfErr result
            (λ refused. refused.why ≡ why.PowerGone
            → N.faults refused.nand fault.PowerGone ≢ N.faults nand fault.PowerGone) }
    {
        let mut nand = nand;
        match open_chip(alloc, &mut nand, sectors) {
            Ok(opened) => Ok(Durable {
                nand,
                numbers: opened.numbers,
                core: opened.core,
                good: opened.good,
                mounted: true,
            }),
            Err(why) => Err(NotOpened { nand, why }),
        }
    }

    /// Gives the chip back.
    pub fn into_nand(self) -> N
        ensures chip { result ≡ self.nand }
        ensures left { (updates : List Update) → IsOpenLayer N.flash N.shape N.bad self updates
            → CanOpen N.flash N.shape N.bad result (layer_sectors self) updates }
    {
        self.nand
    }

    /// How many sectors the layer has.
    pub fn sectors(&self) -> u32
        ensures { result ≡ layer_sectors self.now }
    {
        self.core.sectors()
    }

    /// How many losses the open has found: pages that have become unreadable before others of their blocks, which have newest versions still. An older
    /// version may stand for each of theirs.
    pub fn losses(&self) -> u64
        ensures { result ≡ losses_of self.now.core }
    {
        self.core.losses()
    }

    /// How many blocks are in reserve: so many commands may fail before a call tells one.
    pub fn reserve(&self) -> u32
        ensures reserve { result ≡ reserve_of self.now }
    {
        self.good.saturating_sub(self.core.blocks())
    }

    /// How many sectors have their page in one of the chip's blocks, if it is in use: one that is bad or in reserve isn't.
    pub fn live(&self, block: u32) -> Option<u32>
        ensures in_use { IfSome result
            (λ live. (c : ℕ) × (c < (device_of self.now.core).blocks)
            × (block_of self.now.numbers.items c ≡ block) × (live ≡ live_sectors self.now.core c)) }
        ensures other { result ≡ None → (c : ℕ) → c < (device_of self.now.core).blocks
            → block_of self.now.numbers.items c ≢ block }
    {
        for number in 0..self.core.blocks() {
            if chip_block(&self.numbers, number) == block {
                return Some(self.core.live(number));
            }
        }
        None
    }

    /// How often each of the chip's blocks was erased before the open. Of a few blocks that are as good the least erased is taken, so a chip that was
    /// opened often wears evenly too. A block of the reserve that comes in use takes over the count of the block that it replaces.
    pub fn erased_before(&mut self, erases: &[u32])
        ensures { self.new ≡ self.old }
    {
        for block in 0..self.nand.shape().blocks {
            if let Some(count) = erases.get(chip_block(&self.numbers, block) as usize) {
                self.core.erased_before(block, *count);
            }
        }
    }

    /// How many programs, copies and erases the chip has done since it counts, modulo 2^64.
    pub fn tally(&self) -> Tally
        ensures { result ≡ N.tally self.now.nand }
    {
        self.nand.tally()
    }

    /// How many bytes a page has, and so a sector.
    pub fn page_bytes(&self) -> usize
        ensures { result ≡ (N.shape self.now.nand).page_bytes }
    {
        self.nand.shape().page_bytes
    }

    /// Reads a sector into `out`, a buffer of one page. If the sector is empty, any bytes may be in `out`.
    pub fn read(&mut self, sector: u32, out: &mut [u8]) -> Result<Got, Failure>
        requires sector { sector < layer_sectors self.old }
        requires page { length out.old ≡ (N.shape self.old.nand).page_bytes }
        ensures gives { (updates : List Update) → IsOpenLayer N.flash N.shape N.bad self.old updates
            → IfOk result (λ got. ReadsSector (array_after updates sector) got out.new) }

        // Also where pages have become unreadable: data are a version of the sector in the flash, and a lost sector is told as lost.
        ensures data { result ≡ Ok got.Data
            → HasBytes (N.flash self.old.nand) sector out.new }
        ensures stored { IfOk result (λ got. ReadsStored (stored_value N.flash self.old sector) got out.new) }
        ensures stops { IfErr result (StopsLook (stored_value N.flash self.old) (sole sector)) }

        // It changes nothing, and fails only without power.
        ensures open { (updates : List Update) → IsOpenLayer N.flash N.shape N.bad self.old updates
            → IsOpenLayer N.flash N.shape N.bad self.new updates }
        ensures only { (updates : List Update) → IsOpenLayer N.flash N.shape N.bad self.old updates
            → OnErr result (result ≡ Err failure.PowerGone) }
        ensures cause { IfErr result (IsTrueCause N.faults self.old self.new) }
        ensures closed { IsUnmounted self.old → result ≡ Err failure.Closed }
        ensures flash { N.flash self.new.nand ≡ N.flash self.old.nand }
        ensures tally { N.tally self.new.nand ≡ N.tally self.old.nand }
        ensures device { IsSameDevice N.shape N.bad self.old self.new }
    {
        if !self.mounted {
            return Err(Failure::Closed);
        }
        let Some(at) = self.core.page(sector) else {
            return Ok(Got::Empty);
        };
        match self.nand.read(chip_page(&self.numbers, at), out) {
            Ok(reading) => match found(reading, sector) {
                Ok(Was::Empty) => Ok(Got::Empty),
                Ok(Was::Written) => Ok(Got::Data),
                Err(lost) => Err(lost),
            },
            Err(PowerGone) => Err(Failure::PowerGone),
        }
    }

    /// Writes a sector. At `Ok` the flash holds it.
    pub fn write(&mut self, sector: u32, bytes: &[u8]) -> Result<(), Failure>
        requires sector { sector < layer_sectors self.old }
        requires page { length bytes.now ≡ (N.shape self.old.nand).page_bytes }
        ensures acknowledged { (updates : List Update)
            → IsOpenLayer N.flash N.shape N.bad self.old updates
            → OnOk result
            (IsOpenLayer N.flash N.shape N.bad self.new
            (update_of (sole sector) (Some bytes.now) ∷ updates)) }

        // It fails only if the chip does, or if the numbers have run out.
        ensures fails { (updates : List Update) → IsOpenLayer N.flash N.shape N.bad self.old updates
            → IfErr result
            (Fails N.flash N.shape N.bad self.old self.new
            (update_of (sole sector) (Some bytes.now)) updates) }
        ensures cause { IfErr result (IsTrueCause N.faults self.old self.new) }
        ensures closed { IsUnmounted self.old → result ≡ Err failure.Closed }
        ensures idle { IsUnmounted self.old → N.tally self.new.nand ≡ N.tally self.old.nand }
        ensures device { KeepsDevice N.shape N.bad N.faults self.old self.new }
        ensures marks { OnOk result (MarksFailed N.flash N.shape N.bad N.faults self.old self.new) }
        ensures number { OnOk result (number_of self.old < number_of self.new) }
        ensures once { (updates : List Update) → IsOpenLayer N.flash N.shape N.bad self.old updates
            → OnOk result
            (ProgramsOnce N.flash N.shape N.bad N.tally self.old self.new
            (update_of (sole sector) (Some bytes.now))) }
        ensures overwrites { result ≢ Err failure.Written }
        ensures lost { result ≢ Err failure.Lost }
    {
        let extent = Extent {
            first: sector,
            count: 1,
        };
        self.update(extent, false, bytes)
    }

    /// Writes a sector if it is empty.
    pub fn write_new(&mut self, sector: u32, bytes: &[u8]) -> Result<(), Failure>
        requires sector { sector < layer_sectors self.old }
        requires page { length bytes.now ≡ (N.shape self.old.nand).page_bytes }
        ensures acknowledged { (updates : List Update)
            → IsOpenLayer N.flash N.shape N.bad self.old updates
            → OnOk result
            (IsOpenLayer N.flash N.shape N.bad self.new
            (update_of (sole sector) (Some bytes.now) ∷ updates)) }
        ensures empty { (updates : List Update) → IsOpenLayer N.flash N.shape N.bad self.old updates
            → OnOk result (was_of (array_after updates sector) ≡ was.Empty) }
        ensures stored { OnOk result (WereStored (stored_value N.flash self.old) (sole sector) was.Empty) }

        // It fails only if the sector is written or lost, if the chip fails, or if the numbers have run out.
        ensures stops { IfErr result
            (StopsUpdate was.Empty (stored_value N.flash self.old) (sole sector)) }
        ensures written { (updates : List Update)
            → IsOpenLayer N.flash N.shape N.bad self.old updates
            → result ≡ Err failure.Written → was_of (array_after updates sector) ≡ was.Written }
        ensures fails { (updates : List Update) → IsOpenLayer N.flash N.shape N.bad self.old updates
            → IfErr result
            (Fails N.flash N.shape N.bad self.old self.new
            (update_of (sole sector) (Some bytes.now)) updates) }
        ensures cause { IfErr result (IsTrueCause N.faults self.old self.new) }
        ensures closed { IsUnmounted self.old → result ≡ Err failure.Closed }
        ensures idle { IsUnmounted self.old → N.tally self.new.nand ≡ N.tally self.old.nand }
        ensures refused { result ≡ Err failure.Written
            → N.tally self.new.nand ≡ N.tally self.old.nand }
        ensures device { KeepsDevice N.shape N.bad N.faults self.old self.new }
        ensures marks { OnOk result (MarksFailed N.flash N.shape N.bad N.faults self.old self.new) }
        ensures number { OnOk result (number_of self.old < number_of self.new) }
        ensures once { (updates : List Update) → IsOpenLayer N.flash N.shape N.bad self.old updates
            → OnOk result
            (ProgramsOnce N.flash N.shape N.bad N.tally self.old self.new
            (update_of (sole sector) (Some bytes.now))) }
    {
        let extent = Extent {
            first: sector,
            count: 1,
        };
        match self.was(sector) {
            Ok(Was::Empty) => self.update(extent, false, bytes),
            Ok(Was::Written) => Err(Failure::Written),
            Err(failure) => Err(failure),
        }
    }

    /// Empties the sectors of an extent, and returns whether any of them was written. If none was, nothing is programmed, and otherwise one page.
    pub fn trim(&mut self, extent: Extent) -> Result<Was, Failure>
        requires { LiesWithin (layer_sectors self.old) extent }
        ensures was { (updates : List Update) → IsOpenLayer N.flash N.shape N.bad self.old updates
            → IfOk result (Were (array_after updates) extent) }
        ensures acknowledged { (updates : List Update)
            → IsOpenLayer N.flash N.shape N.bad self.old updates
            → OnOk result
            (IsOpenLayer N.flash N.shape N.bad self.new (update_of extent None ∷ updates)) }
        ensures nothing { result ≡ Ok was.Empty → N.flash self.new.nand ≡ N.flash self.old.nand }
        ensures none { result ≡ Ok was.Empty → N.tally self.new.nand ≡ N.tally self.old.nand }
        ensures stored { IfOk result (WereStored (stored_value N.flash self.old) extent) }

        // It fails only if a sector is lost, if the chip fails, or if the numbers have run out.
        ensures stops { IfErr result (StopsUpdate was.Written (stored_value N.flash self.old) extent) }
        ensures fails { (updates : List Update) → IsOpenLayer N.flash N.shape N.bad self.old updates
            → IfErr result
            (Fails N.flash N.shape N.bad self.old self.new (update_of extent None) updates) }
        ensures cause { IfErr result (IsTrueCause N.faults self.old self.new) }
        ensures closed { IsUnmounted self.old → result ≡ Err failure.Closed }
        ensures idle { IsUnmounted self.old → N.tally self.new.nand ≡ N.tally self.old.nand }
        ensures device { KeepsDevice N.shape N.bad N.faults self.old self.new }
        ensures marks { OnOk result (MarksFailed N.flash N.shape N.bad N.faults self.old self.new) }
        ensures number { result ≡ Ok was.Written → number_of self.old < number_of self.new }
        ensures once { (updates : List Update) → IsOpenLayer N.flash N.shape N.bad self.old updates
            → result ≡ Ok was.Written
            → ProgramsOnce N.flash N.shape N.bad N.tally self.old self.new (update_of extent None) }
        ensures trims { result ≢ Err failure.Written }
    {
        match self.were(extent) {
            Ok(Was::Empty) => Ok(Was::Empty),
            Ok(Was::Written) => match self.update(extent, true, &[]) {
                Ok(()) => Ok(Was::Written),
                Err(failure) => Err(failure),
            },
            Err(failure) => Err(failure),
        }
    }

    /// Returns once what was acknowledged is durable: has the chip sync.
    pub fn flush(&mut self) -> Result<(), Failure>
        ensures syncs { OnOk result
            (N.syncs self.new.nand ≡ (N.syncs self.old.nand + 1) % 2 ^ 64) }
        ensures open { (updates : List Update) → IsOpenLayer N.flash N.shape N.bad self.old updates
            → IsOpenLayer N.flash N.shape N.bad self.new updates }
        ensures only { OnErr result (result ≡ Err failure.PowerGone) }
        ensures cause { IfErr result (IsTrueCause N.faults self.old self.new) }
        ensures flash { N.flash self.new.nand ≡ N.flash self.old.nand }
        ensures tally { N.tally self.new.nand ≡ N.tally self.old.nand }
        ensures device { IsSameDevice N.shape N.bad self.old self.new }
    {
        match self.nand.sync() {
            Ok(()) => Ok(()),
            Err(PowerGone) => Err(Failure::PowerGone),
        }
    }

    // Whether a sector is empty or written.
    fn was(&mut self, sector: u32) -> Result<Was, Failure>
        requires { sector < layer_sectors self.old }
        ensures gives { (updates : List Update) → IsOpenLayer N.flash N.shape N.bad self.old updates
            → IfOk result (λ had. had ≡ was_of (array_after updates sector)) }
        ensures tells { TellsStored (stored_value N.flash self.old) (sole sector) result }
        ensures looks { Looks N.flash N.shape N.bad N.faults N.tally self.old self.new result }
        ensures only { (updates : List Update) → IsOpenLayer N.flash N.shape N.bad self.old updates
            → OnErr result (result ≡ Err failure.PowerGone) }
        ensures closed { IsUnmounted self.old → result ≡ Err failure.Closed }
    {
        if !self.mounted {
            return Err(Failure::Closed);
        }
        let Some(at) = self.core.page(sector) else {
            return Ok(Was::Empty);
        };
        match self.nand.stamp(chip_page(&self.numbers, at)) {
            Ok(reading) => found(reading, sector),
            Err(PowerGone) => Err(Failure::PowerGone),
        }
    }

    // Whether any sector of an extent is written.
    fn were(&mut self, extent: Extent) -> Result<Was, Failure>
        requires { LiesWithin (layer_sectors self.old) extent }
        ensures gives { (updates : List Update) → IsOpenLayer N.flash N.shape N.bad self.old updates
            → IfOk result (Were (array_after updates) extent) }
        ensures tells { TellsStored (stored_value N.flash self.old) extent result }
        ensures looks { Looks N.flash N.shape N.bad N.faults N.tally self.old self.new result }
        ensures only { (updates : List Update) → IsOpenLayer N.flash N.shape N.bad self.old updates
            → OnErr result (result ≡ Err failure.PowerGone) }
        ensures closed { IsUnmounted self.old → result ≡ Err failure.Closed }
    {
        for sector in extent.first..extent.first + extent.count {
            match self.was(sector) {
                Ok(Was::Empty) => {}
                Ok(Was::Written) => return Ok(Was::Written),
                Err(failure) => return Err(failure),
            }
        }
        Ok(Was::Empty)
    }
}
