//! How a driver goes on after a command of the layer, whether it was done or has failed.
ghost use Rattle.std.specs.Prelude.{◌≡◌, ◌≢◌, ◌⊎◌, ◌<◌, ℕ, Ok, Err, true, false};
ghost use Rattle.geometry.specs.Sectors.{Sector};
ghost use Rattle.durable.specs.Choice.{IsNextCommand};
ghost use Rattle.durable.specs.Commands.{CutLeaves, is_program};
ghost use Rattle.durable.specs.Failures.{Changes};
ghost use Rattle.durable.specs.Flash.{Flash};
ghost use Rattle.durable.specs.Retiring.{HasLeftVersion};
ghost use Rattle.durable.specs.declared.command.Command.TheVariants.{Program, Refused as refused};
ghost use Rattle.nand.specs.Driving.{HoldsNow, IsAfterCut, IsAfterFailure, IsAfterSuccess};
ghost use Rattle.nand.specs.Driving.{IsJob, IsLeftAlone, IsOneToOne, KnowsArray, StaysDriver, StepCompletes, StepCutLeaves};
ghost use Rattle.nand.specs.Driving.{array_now, is_made, step_for};
ghost use Rattle.nand.specs.Nand.{IsNoVersion, ReadsStamp};
ghost use Rattle.nand.specs.Numbers.{chip_block as block_of, chip_page as page_of, numbered};
ghost use Rattle.nand.specs.Phases.{IsOfDevice};
ghost use Rattle.nand.specs.declared.flash.Reading.TheVariants as outcome;
ghost use Rattle.nand.specs.declared.flash.Stamp.{Stamp as Found};
ghost use Rattle.nand.specs.declared.driver.Phase.TheVariants as phase;

use crate::driver::{Driver, Job, Phase, Refusal};
use crate::flash::Reading;
use crate::numbers::exchange;
use durable::Command;
use geometry::PageAddr;

// How a call ends that goes no further, for this reason.
fn unless_made(outcome: Result<(), Refusal>, why: Refusal) -> Result<(), Refusal>
    ensures same { is_made result ≡ is_made outcome }
    ensures why { is_made outcome ≡ false → result ≡ Err why }
    ensures either { (result ≡ Ok tt) ⊎ (result ≡ Err why) }
{
    match outcome {
        Ok(()) => Ok(()),
        Err(_) => Err(why),
    }
}

// Whether a version was found.
fn is_version(reading: Reading) -> bool
    ensures yes { result ≡ true → (stamp : Found) × (reading ≡ outcome.Version stamp) }
    ensures no { result ≡ false → IsNoVersion reading }
{
    match reading {
        Reading::Version(_) => true,
        Reading::Erased => false,
        Reading::Unreadable => false,
    }
}

impl Driver {
    // The power is gone.
    pub(crate) fn close(&mut self)
        ensures closed { self.new.phase ≡ phase.Closed }
        ensures cut { IsAfterCut self.old self.new }
        ensures stays { StaysDriver self.old self.new }
    {
        self.phase = Phase::Closed;
    }

    // A command of the job was done.
    pub(crate) fn performed(&mut self, command: Command, job: Job)
        requires within { IsOfDevice self.old.core job.extent }
        requires next { IsNextCommand self.old.core command }
        ensures holds { (f t : Flash) (value : Sector) (was : ℕ → Sector) (v : Sector)
            → KnowsArray f self.old (array_now self.old value was) → IsJob f self.old job value was v
            → StepCompletes (step_for self.old.numbers.items command job) value f t
            → HoldsNow t self.new value was }
        ensures success { IsAfterSuccess self.old self.new }
        ensures unmarked { self.new.unmarked ≡ self.old.unmarked }
        ensures stays { StaysDriver self.old self.new }
    {
        self.phase = Phase::Idle;
        self.core.done(job.extent, command);
        if command.is_last() {
            self.made(job.extent);
        } else {
            self.choose(job);
        }
    }

    // The job's next command.
    pub(crate) fn choose(&mut self, job: Job)
        requires within { IsOfDevice self.old.core job.extent }
        ensures holds { (f : Flash) (value : Sector) (was : ℕ → Sector) (v : Sector)
            → KnowsArray f self.old (array_now self.old value was) → IsJob f self.old job value was v
            → HoldsNow f self.new value was }
        ensures success { IsAfterSuccess self.old self.new }
        ensures unmarked { self.new.unmarked ≡ self.old.unmarked }
        ensures stays { StaysDriver self.old self.new }
    {
        match self.core.next(job.extent) {
            Command::Refused => {
                self.phase = Phase::Idle;
                self.outcome = unless_made(self.outcome, Refusal::NoNumber);
            }
            command => self.phase = Phase::Perform(command, job),
        }
    }

    // A command of the job has failed.
    pub(crate) fn failed(&mut self, command: Command, job: Job)
        requires within { IsOfDevice self.old.core job.extent }
        requires next { IsNextCommand self.old.core command }
        requires some { command ≢ refused }
        ensures holds { (f t : Flash) (value : Sector) (was : ℕ → Sector) (v : Sector)
            → KnowsArray f self.old (array_now self.old value was) → IsJob f self.old job value was v
            → StepCutLeaves (step_for self.old.numbers.items command job) value f t
            → HoldsNow t self.new value was }
        ensures alone { (b : ℕ) → IsOneToOne self.old.numbers.items → Changes command b
            → IsLeftAlone self.new (block_of self.old.numbers.items b) }
        ensures failure { IsAfterFailure self.old self.new }
        ensures reserve { (f : Flash) (array : ℕ → Sector) → KnowsArray f self.old array
            → self.old.spare < self.old.good → self.new.phase ≢ phase.ReadOnly }
        ensures stays { StaysDriver self.old self.new }
    {
        match command {
            Command::Program(at, number) => self.phase = Phase::Look(at, number, job),
            _ => self.replace(command, job, false),
        }
    }

    // The page of a program that has failed was read.
    pub(crate) fn looked(&mut self, at: PageAddr, number: u64, job: Job, reading: Reading)
        requires within { IsOfDevice self.old.core job.extent }
        requires next { IsNextCommand self.old.core (Program at number) }
        ensures holds { (f t : Flash) (value : Sector) (was : ℕ → Sector) (v : Sector)
            → KnowsArray f self.old (array_now self.old value was) → IsJob f self.old job value was v
            → CutLeaves (Program (page_of self.old.numbers.items at) number) job.extent v f t
            → ReadsStamp (t (page_of self.old.numbers.items at).block at.page) reading
            → HoldsNow t self.new value was }
        ensures alone { IsOneToOne self.old.numbers.items
            → IsLeftAlone self.new (block_of self.old.numbers.items at.block) }
        ensures failure { IsAfterFailure self.old self.new }
        ensures reserve { (f : Flash) (array : ℕ → Sector) → KnowsArray f self.old array
            → self.old.spare < self.old.good → self.new.phase ≢ phase.ReadOnly }
        ensures stays { StaysDriver self.old self.new }
    {
        self.replace(Command::Program(at, number), job, is_version(reading));
    }

    // A command of the job has failed. The call goes on with the first block of the reserve in place of the command's.
    pub(crate) fn replace(&mut self, command: Command, job: Job, left: bool)
        requires within { IsOfDevice self.old.core job.extent }
        requires next { IsNextCommand self.old.core command }
        requires some { command ≢ refused }
        requires left { left ≡ true → is_program command ≡ true }
        ensures holds { (f t : Flash) (value : Sector) (was : ℕ → Sector) (v : Sector)
            → KnowsArray f self.old (array_now self.old value was) → IsJob f self.old job value was v
            → StepCutLeaves (step_for self.old.numbers.items command job) value f t
            → HasLeftVersion (numbered self.old.numbers.items t) command left
            → HoldsNow t self.new value was }
        ensures alone { (b : ℕ) → IsOneToOne self.old.numbers.items → Changes command b
            → IsLeftAlone self.new (block_of self.old.numbers.items b) }
        ensures failure { IsAfterFailure self.old self.new }
        ensures reserve { (f : Flash) (array : ℕ → Sector) → KnowsArray f self.old array
            → self.old.spare < self.old.good → self.new.phase ≢ phase.ReadOnly }
        ensures stays { StaysDriver self.old self.new }
    {
        self.phase = Phase::ReadOnly;
        let spare = self.spare;
        if spare >= self.good {
            return self.give_up(command, job, left);
        }
        if !self.core.retire(job.extent, command, left, spare) {
            return self.give_up(command, job, left);
        }
        exchange(&mut self.numbers, command.changed_block(), spare);
        self.spare = spare + 1;
        self.searched = 0;
        if left {
            self.made(job.extent);
        } else {
            self.choose(job);
        }
    }

    // The same where no block is in reserve. A program that has left its version is as one that was done.
    fn give_up(&mut self, command: Command, job: Job, left: bool)
        requires within { IsOfDevice self.old.core job.extent }
        requires next { IsNextCommand self.old.core command }
        requires left { left ≡ true → is_program command ≡ true }
        ensures holds { (f t : Flash) (value : Sector) (was : ℕ → Sector) (v : Sector)
            → KnowsArray f self.old (array_now self.old value was) → IsJob f self.old job value was v
            → StepCutLeaves (step_for self.old.numbers.items command job) value f t
            → HasLeftVersion (numbered self.old.numbers.items t) command left
            → HoldsNow t self.new value was }
        ensures phase { self.new.phase ≡ phase.ReadOnly }
        ensures failure { IsAfterFailure self.old self.new }
        ensures stays { StaysDriver self.old self.new }
    {
        self.phase = Phase::ReadOnly;
        if left {
            self.core.done(job.extent, command);
            self.outcome = Ok(());
        } else {
            self.outcome = unless_made(self.outcome, Refusal::ReadOnly);
        }
    }
}
