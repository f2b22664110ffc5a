//! How sectors get a new version, and how the layer goes on after a command that has failed.
ghost use Rattle.std.specs.Prelude.{◌≡◌, ◌≢◌, ◌⊎◌, ◌<◌, ◌≤◌, ◌+◌, ◌^◌, ℕ, Bool, true, false, List, ◌∷◌, length, Ok, Err, OnOk, OnErr, IfOk, IfErr};
ghost use Rattle.geometry.specs.Sectors.{Sector};
ghost use Rattle.durable.specs.Choice.{IsNextCommand};
ghost use Rattle.durable.specs.Device.{device_of, losses_of};
ghost use Rattle.durable.specs.Failures.{Changes};
ghost use Rattle.durable.specs.Retiring.{HasLeftVersion};
ghost use Rattle.durable.specs.Updates.{LiesWithin, Update};
ghost use Rattle.nand.specs.Attempts.{CountsStop, IsOpenAgain, IsCutShort, Leaves, Reopens, StopsAt, TalliesAttempt};
ghost use Rattle.nand.specs.Nand.{CountsCommand, CountsCut, CountsFault, Performs, value_with};
ghost use Rattle.nand.specs.Numbers.{IsOrder, Marks, chip_block as block_of, good_before, is_marked, numbered};
ghost use Rattle.nand.specs.Opened.{Fails, IsUnmounted, IsOpenLayer, IsTrueCause, KeepsDevice, MarksFailed};
ghost use Rattle.nand.specs.Opened.{layer_sectors, number_of, update_of};
ghost use Rattle.nand.specs.Programs.{AddsVersion, ProgramsOnce};
ghost use Rattle.nand.specs.declared.failure.Failure.TheVariants as failure;
ghost use Rattle.nand.specs.declared.flash.Fault.{Fault as Cause};
ghost use Rattle.nand.specs.declared.flash.Fault.TheVariants as fault;
ghost use Rattle.nand.specs.declared.updating.Stop.TheVariants as stop;

use crate::failure::Failure;
use crate::flash::{Fault, Nand, PowerGone, Reading, Stamp};
use crate::layer::Durable;
use crate::numbers::{chip_block, chip_page, exchange};
use durable::{Command, Extent};

// Why an attempt to update sectors came to no end.
#[derive(Clone, Copy)]
pub(crate) enum Stop {
    // The numbers of versions have run out.
    NoNumber,
    // The fault of a command.
    Fault(Fault, Command),
}

// Has the chip do a command.
fn perform<N: Nand>(
    nand: &mut N,
    numbers: &[u32],
    command: Command,
    extent: Extent,
    trimmed: bool,
    main: &[u8],
) -> Result<(), Fault>
    requires { trimmed ≡ false → length main.now ≡ (N.shape nand.old).page_bytes }
    ensures tally { CountsCommand command (N.tally nand.old) (N.tally nand.new) result }
    ensures does { (bad : List Bool) (blocks most : ℕ) → IsOrder numbers.now bad blocks most
        → Performs command extent (value_with trimmed main.now) result
        (numbered numbers.now (N.flash nand.old)) (numbered numbers.now (N.flash nand.new)) }
    ensures shape { N.shape nand.new ≡ N.shape nand.old }
    ensures bad { N.bad nand.new ≡ N.bad nand.old }
    ensures cause { CountsFault (N.faults nand.old) (N.faults nand.new) result }
{
    match command {
        Command::Program(at, number) => {
            let stamp = Stamp {
                extent,
                number,
                trimmed,
            };
            nand.program(chip_page(numbers, at), stamp, main)
        }
        Command::Copy(_, from, to) => {
            let from = chip_page(numbers, from);
            match nand.stamp(from) {
                Ok(source) => nand.copyback(from, chip_page(numbers, to), source),
                Err(PowerGone) => Err(Fault::PowerGone),
            }
        }
        Command::Erase(number) => nand.erase(chip_block(numbers, number)),
        Command::Refused => Ok(()),
    }
}

// Whether a program that has failed has left a version in its page.
fn has_left<N: Nand>(nand: &mut N, numbers: &[u32], command: Command) -> Result<bool, PowerGone>
    ensures left { IfOk result (HasLeftVersion (numbered numbers.now (N.flash nand.old)) command) }
    ensures flash { N.flash nand.new ≡ N.flash nand.old }
    ensures shape { N.shape nand.new ≡ N.shape nand.old }
    ensures bad { N.bad nand.new ≡ N.bad nand.old }
    ensures tally { N.tally nand.new ≡ N.tally nand.old }
    ensures cause { CountsCut (N.faults nand.old) (N.faults nand.new) result }
{
    let Command::Program(at, _) = command else {
        return Ok(false);
    };
    match nand.stamp(chip_page(numbers, at)) {
        Ok(Reading::Version(_)) => Ok(true),
        Ok(Reading::Erased | Reading::Unreadable) => Ok(false),
        Err(gone) => Err(gone),
    }
}

impl<N: Nand> Durable<N> {
    // Gives the sectors of an extent a new version. A block whose command fails is replaced by one of the reserve, and the call goes on.
    pub(crate) fn update(
        &mut self,
        extent: Extent,
        trimmed: bool,
        main: &[u8],
    ) -> Result<(), Failure>
        requires within { LiesWithin (layer_sectors self.old) extent }
        requires page { trimmed ≡ false → length main.now ≡ (N.shape self.old.nand).page_bytes }
        ensures acknowledged { (updates : List Update)
            → IsOpenLayer N.flash N.shape N.bad self.old updates
            → OnOk result
            (IsOpenLayer N.flash N.shape N.bad self.new
            (update_of extent (value_with trimmed main.now) ∷ updates)) }
        ensures fails { (updates : List Update) → IsOpenLayer N.flash N.shape N.bad self.old updates
            → IfErr result
            (Fails N.flash N.shape N.bad self.old self.new
            (update_of extent (value_with trimmed main.now)) updates) }
        ensures cause { IfErr result (IsTrueCause N.faults self.old self.new) }
        ensures closed { IsUnmounted self.old → result ≡ Err failure.Closed }
        ensures idle { IsUnmounted self.old → N.tally self.new.nand ≡ N.tally self.old.nand }
        ensures device { KeepsDevice N.shape N.bad N.faults self.old self.new }
        ensures marks { OnOk result (MarksFailed N.flash N.shape N.bad N.faults self.old self.new) }
        ensures number { OnOk result (number_of self.old < number_of self.new) }
        ensures overwrites { result ≢ Err failure.Written }
        ensures lost { result ≢ Err failure.Lost }
        ensures once { (updates : List Update) → IsOpenLayer N.flash N.shape N.bad self.old updates
            → OnOk result
            (ProgramsOnce N.flash N.shape N.bad N.tally self.old self.new
            (update_of extent (value_with trimmed main.now))) }
    {
        if !self.mounted {
            return Err(Failure::Closed);
        }
        let mut failed = 0u32;
        loop {
            match self.attempt(extent, trimmed, main) {
                Ok(()) => return Ok(()),
                Err(Stop::NoNumber) => {
                    if failed == 0 {
                        return Err(Failure::NoNumber);
                    }
                    self.mounted = false;
                    return Err(Failure::Failed);
                }
                Err(Stop::Fault(Fault::PowerGone, _)) => return Err(Failure::PowerGone),
                Err(Stop::Fault(Fault::Failed, command)) => {
                    if self.reserve() == 0 {
                        return Err(Failure::Failed);
                    }
                    if let Err(failure) = self.replace(extent, command) {
                        return Err(failure);
                    }
                }
            }
            failed += 1;
        }
    }

    // The same, up to the first fault.
    fn attempt(&mut self, extent: Extent, trimmed: bool, main: &[u8]) -> Result<(), Stop>
        requires within { LiesWithin (layer_sectors self.old) extent }
        requires page { trimmed ≡ false → length main.now ≡ (N.shape self.old.nand).page_bytes }
        ensures acknowledged { (updates : List Update)
            → IsOpenLayer N.flash N.shape N.bad self.old updates
            → OnOk result
            (IsOpenLayer N.flash N.shape N.bad self.new
            (update_of extent (value_with trimmed main.now) ∷ updates)) }
        ensures leaves { (updates : List Update)
            → IsOpenLayer N.flash N.shape N.bad self.old updates
            → IfErr result
            (Leaves N.flash N.shape N.bad self.new
            (update_of extent (value_with trimmed main.now)) updates) }
        ensures number { OnOk result (number_of self.new ≡ number_of self.old + 1)
            × OnErr result (number_of self.new ≡ number_of self.old) }
        ensures spent { result ≡ Err stop.NoNumber → 2 ^ 64 ≤ number_of self.new + 1 }
        ensures at { StopsAt self.new result }
        ensures counts { CountsStop (N.faults self.old.nand) (N.faults self.new.nand) result }
        ensures sectors { layer_sectors self.new ≡ layer_sectors self.old }
        ensures shape { N.shape self.new.nand ≡ N.shape self.old.nand }
        ensures bad { N.bad self.new.nand ≡ N.bad self.old.nand }
        ensures good { self.new.good ≡ self.old.good }
        ensures losses { losses_of self.new.core ≡ losses_of self.old.core }
        ensures adds { (updates : List Update) → IsOpenLayer N.flash N.shape N.bad self.old updates
            → OnOk result
            (AddsVersion (N.flash self.old.nand) (N.flash self.new.nand)
            (number_of self.old) (update_of extent
            (value_with trimmed main.now))) }
        ensures tally { TalliesAttempt (N.tally self.old.nand) (N.tally self.new.nand)
            (device_of self.old.core).pages result }
    {
        loop {
            let command = self.core.next(extent);
            if matches!(command, Command::Refused) {
                return Err(Stop::NoNumber);
            }
            if let Err(fault) = perform(
                &mut self.nand,
                &self.numbers,
                command,
                extent,
                trimmed,
                main,
            ) {
                self.mounted = false;
                return Err(Stop::Fault(fault, command));
            }
            self.core.done(extent, command);
            if command.is_last() {
                return Ok(());
            }
        }
    }

    // Marks the block of a command that has failed, and goes on with the next block of the reserve in its stead.
    fn replace(&mut self, extent: Extent, command: Command) -> Result<(), Failure>
        requires within { LiesWithin (layer_sectors self.old) extent }
        requires next { IsNextCommand self.old.core command }
        requires some { (device_of self.old.core).blocks < self.old.good }
        ensures replaced { (value : Sector) (updates : List Update)
            → IsCutShort N.flash N.shape N.bad self.old (update_of extent value) command updates
            → OnOk result (IsOpenAgain N.flash N.shape N.bad self.new (update_of extent value) updates
            × (good_before (N.bad self.new.nand) (N.shape self.old.nand).blocks + 1
            ≡ good_before (N.bad self.old.nand) (N.shape self.old.nand).blocks)) }
        ensures closed { (value : Sector) (updates : List Update)
            → IsCutShort N.flash N.shape N.bad self.old (update_of extent value) command updates
            → OnErr result ((result ≡ Err failure.PowerGone) × IsUnmounted self.new
            × Reopens N.flash N.shape N.bad self.new.nand (layer_sectors self.old)
            (update_of extent value) updates) }
        ensures marked { (b : ℕ) → Changes command b
            → block_of self.old.numbers.items b < (N.shape self.old.nand).blocks
            → OnOk result (Marks (N.bad self.old.nand) (N.bad self.new.nand)
            (block_of self.old.numbers.items b)) }
        ensures no_other { (b c : ℕ) → Changes command b → c ≢ block_of self.old.numbers.items b
            → is_marked (N.bad self.new.nand) c ≡ is_marked (N.bad self.old.nand) c }
        ensures marks { (b : ℕ) → is_marked (N.bad self.old.nand) b ≡ true
            → is_marked (N.bad self.new.nand) b ≡ true }
        ensures good { OnOk result (self.new.good + 1 ≡ self.old.good) }
        ensures number { number_of self.old ≤ number_of self.new }
        ensures losses { losses_of self.new.core ≡ losses_of self.old.core }
        ensures causes { OnErr result ((result ≡ Err failure.PowerGone) ⊎ (result ≡ Err failure.Failed)) }
        ensures failures { N.faults self.new.nand fault.Failed
            ≡ N.faults self.old.nand fault.Failed }
        ensures faults { OnOk result ((cause : Cause)
            → N.faults self.new.nand cause ≡ N.faults self.old.nand cause) }
        ensures power { result ≡ Err failure.PowerGone
            → N.faults self.new.nand fault.PowerGone ≢ N.faults self.old.nand fault.PowerGone }
        ensures tally { N.tally self.new.nand ≡ N.tally self.old.nand }
        ensures shape { N.shape self.new.nand ≡ N.shape self.old.nand }
        ensures sectors { layer_sectors self.new ≡ layer_sectors self.old }
    {
        let number = command.changed_block();
        if let Err(PowerGone) = self.nand.mark_bad(chip_block(&self.numbers, number)) {
            return Err(Failure::PowerGone);
        }
        let left = match has_left(&mut self.nand, &self.numbers, command) {
            Ok(left) => left,
            Err(PowerGone) => return Err(Failure::PowerGone),
        };
        let spare = self.good - 1;
        if !self.core.retire(extent, command, left, spare) {
            return Err(Failure::Failed);
        }
        exchange(&mut self.numbers, number, spare);
        self.good = spare;
        self.mounted = true;
        Ok(())
    }
}
