//! The steps of a driver: how sectors get a new version, how it goes on after a command that has failed, and how blocks that have failed are given up.
mod laws;

ghost use Rattle.std.specs.Prelude.{◌≡◌, ◌≢◌, ◌⊎◌, ◌<◌, ◌≤◌, ◌+◌, ◌-◌, ◌^◌, ℕ, List, length, Some, None, Ok, true, false, IfSome, OnErr, OnOk};
ghost use Rattle.geometry.specs.Sectors.{Sector};
ghost use Rattle.durable.specs.Device.{device_of, losses_of, next_number_of};
ghost use Rattle.durable.specs.Flash.{Flash, is_trim};
ghost use Rattle.durable.specs.Updates.{Update, array_after};
ghost use Rattle.durable.specs.declared.extent.Extent.{Extent as Sectors};
ghost use Rattle.nand.specs.Driving.{BeginsCall, CutHoldsIn, HasBegunCall, HasSector, HoldsNow, IsAfterCut, IsAfterFailure, IsAfterSuccess};
ghost use Rattle.nand.specs.Driving.{IsDoneIn, IsFailureIn, IsLeftAlone, IsOneToOne, IsStepAllowed, Knows, StaysDriver};
ghost use Rattle.nand.specs.Driving.{StepChanges, StepCutLeaves, StepLeaves};
ghost use Rattle.nand.specs.Driving.{array_now, can_read, driver_sectors, is_busy_in, step_for, step_of};
ghost use Rattle.nand.specs.Phases.{IsOfDevice};
ghost use Rattle.nand.specs.declared.driver.Answer.TheVariants as told;
ghost use Rattle.nand.specs.declared.driver.Phase.TheVariants as phase;
ghost use Rattle.nand.specs.declared.driver.Step.TheVariants as step;

use crate::driver::{Answer, Driver, Job, Main, Phase, Refusal, Step};
use crate::flash::Stamp;
use crate::numbers::{chip_block, chip_page};
use durable::{Command, Core, Extent};
use geometry::PageAddr;

impl Driver {
    /// A device on the layer that a mount gives, which knows the chip's blocks by these numbers. So many blocks are good: those in use, and after them the
    /// reserve.
    pub fn new(core: Core, numbers: Vec<u32>, good: u32) -> Option<Driver>
        ensures holds { (f : Flash) (value : Sector) (updates : List Update)
            → Knows f numbers.items core (device_of core).blocks good (array_after updates)
            → IfSome result (λ driver. HoldsNow f driver value (array_after updates)) }
        ensures device { IfSome result (λ driver. driver_sectors driver ≡ (device_of core).sectors) }
        ensures reserve { IfSome result
            (λ driver. driver.good - driver.spare ≡ good - (device_of core).blocks) }
        ensures idle { IfSome result (λ driver. is_busy_in driver.phase ≡ false) }
        ensures none { result ≡ None → (good < (device_of core).blocks) ⊎ (length numbers.items < good) }
    {
        let used = core.blocks();
        if good < used || numbers.len() < good as usize {
            return None;
        }
        Some(Driver {
            core,
            numbers,
            unmarked: used,
            spare: used,
            good,
            call: Extent { first: 0, count: 0 },
            outcome: Ok(()),
            phase: Phase::Idle,
            searched: 0,
        })
    }

    /// How many sectors the device has.
    pub fn sectors(&self) -> u32
        ensures { result ≡ driver_sectors self.now }
    {
        self.core.sectors()
    }

    /// How many blocks are in reserve: so many commands may fail before the device is only read.
    pub fn reserve(&self) -> u32
        ensures { result ≡ self.now.good - self.now.spare }
    {
        self.good.saturating_sub(self.spare)
    }

    /// How many blocks have failed and aren't marked yet.
    pub fn unmarked(&self) -> u32
        ensures { result ≡ self.now.spare - self.now.unmarked }
    {
        self.spare.saturating_sub(self.unmarked)
    }

    /// How many losses the mount has found.
    pub fn losses(&self) -> u64
        ensures { result ≡ losses_of self.now.core }
    {
        self.core.losses()
    }

    /// The chip's page with the sector's value, or with its trim; none where no page has a value of it.
    pub fn page(&self, sector: u32) -> Option<PageAddr>
        ensures gives { (f : Flash) (value : Sector) (was : ℕ → Sector) → HoldsNow f self.now value was
            → can_read self.now.phase ≡ true → sector < driver_sectors self.now
            → HasSector f sector (array_now self.now value was sector) result }
        ensures outside { driver_sectors self.now ≤ sector → result ≡ None }
    {
        if sector >= self.core.sectors() {
            return None;
        }
        match self.core.page(sector) {
            Some(at) => Some(chip_page(&self.numbers, at)),
            None => None,
        }
    }

    /// How the last call ended; nothing while it is under way.
    pub fn result(&self) -> Option<Result<(), Refusal>>
        ensures ended { is_busy_in self.now.phase ≡ false → result ≡ Some self.now.outcome }
        ensures busy { is_busy_in self.now.phase ≡ true → result ≡ None }
    {
        match self.phase {
            Phase::Idle | Phase::ReadOnly | Phase::Closed => Some(self.outcome),
            _ => None,
        }
    }

    /// Begins a write or trim of these sectors. If it is refused, nothing has changed.
    pub fn begin(&mut self, extent: Extent, trimmed: bool) -> Result<(), Refusal>
        ensures holds { (f : Flash) (before value : Sector) (was : ℕ → Sector)
            → HoldsNow f self.old before was → is_trim value ≡ trimmed
            → OnOk result (HoldsNow f self.new value (array_now self.old before was)) }
        ensures result { BeginsCall self.old extent result }
        ensures progress { self.old.phase ≡ phase.Idle → IsOfDevice self.old.core extent
            → next_number_of self.old.core + 1 < 2 ^ 64 → result ≡ Ok tt }
        ensures begun { OnOk result (HasBegunCall extent trimmed self.old self.new) }
        ensures refused { OnErr result (self.new ≡ self.old) }
    {
        match self.phase {
            Phase::Idle => {}
            Phase::ReadOnly => return Err(Refusal::ReadOnly),
            Phase::Closed => return Err(Refusal::Closed),
            _ => return Err(Refusal::Busy),
        }
        if !extent.lies_within(self.core.sectors() as usize) {
            return Err(Refusal::Outside);
        }
        let command = self.core.next(extent);
        if matches!(command, Command::Refused) {
            return Err(Refusal::NoNumber);
        }
        let job = Job {
            extent,
            trimmed,
            main: Main::Caller,
        };
        self.call = extent;
        self.outcome = Err(Refusal::Closed);
        self.phase = Phase::Perform(command, job);
        Ok(())
    }

    /// What the device does next. It depends on nothing but the driver's memory.
    pub fn next(&self) -> Step
        ensures step { result ≡ step_of self.now }
        ensures allowed { (f : Flash) (value : Sector) (was : ℕ → Sector)
            → HoldsNow f self.now value was → IsStepAllowed f result }
        ensures alone { (b : ℕ) → StepChanges result b → ¬ IsLeftAlone self.now b }
        ensures ended { is_busy_in self.now.phase ≡ false → result ≡ step.Ended }
        ensures goes_on { is_busy_in self.now.phase ≡ true → result ≢ step.Ended }

        // Whatever a power cut leaves, inside the step or before it, can be mounted.
        ensures cut { (f t : Flash) (value : Sector) (was : ℕ → Sector)
            → HoldsNow f self.now value was → StepCutLeaves result value f t
            → CutHoldsIn self.now.phase t self.now value was }
    {
        match self.phase {
            Phase::Perform(command, job) => self.step(command, job),
            Phase::Look(at, _, _) => Step::Read(chip_page(&self.numbers, at)),
            Phase::Fetch(from, _) => Step::Read(from),
            Phase::Mark(_) => Step::Mark(chip_block(&self.numbers, self.unmarked)),
            Phase::Idle => Step::Ended,
            Phase::ReadOnly => Step::Ended,
            Phase::Closed => Step::Ended,
        }
    }

    // The step of a command.
    fn step(&self, command: Command, job: Job) -> Step
        ensures { result ≡ step_for self.now.numbers.items command job }
    {
        match command {
            Command::Program(at, number) => {
                let stamp = Stamp {
                    extent: job.extent,
                    number,
                    trimmed: job.trimmed,
                };
                Step::Program(chip_page(&self.numbers, at), stamp, job.main)
            }
            Command::Copy(sector, from, to) => Step::Copy(
                sector,
                chip_page(&self.numbers, from),
                chip_page(&self.numbers, to),
            ),
            Command::Erase(block) => Step::Erase(chip_block(&self.numbers, block)),
            Command::Refused => Step::Ended,
        }
    }

    /// The step that came next has ended so. An answer that it can't have is taken for a lack of power.
    pub fn done(&mut self, answer: Answer)
        ensures holds { (f t : Flash) (value : Sector) (was : ℕ → Sector)
            → HoldsNow f self.old value was → StepLeaves (step_of self.old) answer value f t
            → HoldsNow t self.new value was }
        ensures stays { StaysDriver self.old self.new }

        // The answer says whether the call goes on, and how it ends. A block in reserve is used while there is one.
        ensures success { IsDoneIn self.old.phase answer → IsAfterSuccess self.old self.new }
        ensures failure { IsFailureIn self.old.phase answer → IsAfterFailure self.old self.new }
        ensures reserve { (f : Flash) (value : Sector) (was : ℕ → Sector)
            → HoldsNow f self.old value was → IsFailureIn self.old.phase answer
            → self.old.spare < self.old.good → self.new.phase ≢ phase.ReadOnly }
        ensures cut { is_busy_in self.old.phase ≡ true → ¬ IsDoneIn self.old.phase answer
            → ¬ IsFailureIn self.old.phase answer → IsAfterCut self.old self.new }
        ensures rest { is_busy_in self.old.phase ≡ false → self.new ≡ self.old }

        // With each mark there is one block less that has failed and isn't marked.
        ensures marks { (extent : Sectors) → self.old.phase ≡ phase.Mark extent → answer ≡ told.Done
            → self.old.unmarked < self.old.spare → self.new.unmarked ≡ self.old.unmarked + 1 }
        ensures unmarked { ((extent : Sectors) → self.old.phase ≢ phase.Mark extent)
            → self.new.unmarked ≡ self.old.unmarked }

        // A block gets no program and no erase any more from the moment that one has failed.
        ensures failed { (b : ℕ) → IsOneToOne self.old.numbers.items → answer ≡ told.Failed
            → StepChanges (step_of self.old) b → IsLeftAlone self.new b }
        ensures alone { (b : ℕ) → IsOneToOne self.old.numbers.items
            → IsLeftAlone self.old b → IsLeftAlone self.new b }
    {
        match self.phase {
            Phase::Perform(command, job) => match answer {
                Answer::Done => self.performed(command, job),
                Answer::Failed => self.failed(command, job),
                _ => self.close(),
            },
            Phase::Look(at, number, job) => match answer {
                Answer::Found(reading) => self.looked(at, number, job, reading),
                _ => self.close(),
            },
            Phase::Fetch(from, extent) => match answer {
                Answer::Found(reading) => self.fetched(from, extent, reading),
                _ => self.close(),
            },
            Phase::Mark(extent) => match answer {
                Answer::Done => self.marked(extent),
                _ => self.close(),
            },
            Phase::Idle | Phase::ReadOnly | Phase::Closed => {}
        }
    }
}
