//! The layer behind a handle.
ghost use Rattle.std.specs.Prelude.{◌≡◌};

use crate::codes::{DONE, NO_BLOCK, NO_NUMBER, NO_SECTOR, OUT_OF_ORDER, WRITTEN};
use crate::reports::{self, CommandReport, PlaceReport, Totals};
use durable::{Command, Core, Extent};

/// The core, and what has succeeded since the mount.
#[derive(Drop)]
pub struct Layer {
    pub(crate) core: Core,
    pub(crate) totals: Totals,
}

impl Layer {
    ghost use Rattle.std.specs.Prelude.{◌≢◌, ◌<◌, ◌+◌, ◌^◌, ◌==◌, if◌then◌else◌};
    ghost use Rattle.durable.specs.Device.{next_number_of};
    ghost use Rattle.durable_exports.specs.declared.codes.TheConstants.{DONE, WRITTEN, NO_NUMBER, OUT_OF_ORDER};
    ghost use Rattle.durable_exports.specs.Reports.{no_totals, found_page};
    ghost use Rattle.durable_exports.specs.Calls.{sector_code, extent_code, retire_code, IsNewestPageOf, IsCommandFor, IsDone, GoesOnWithout, TakesSpare};

    /// A layer that was just mounted.
    pub(crate) fn new(core: Core) -> Layer
        ensures core { result.core ≡ core }
        ensures totals { result.totals ≡ no_totals }
    {
        Layer {
            core,
            totals: Totals {
                programs: 0,
                copies: 0,
                erases: 0,
            },
        }
    }

    // The page of a sector.
    pub(crate) fn page(&self, sector: u32, out: &mut PlaceReport) -> u32
        ensures code { result
            ≡ sector_code sector (if result == WRITTEN then WRITTEN else DONE) self.now }
        ensures page { IsNewestPageOf sector (found_page result out.new) self.now }
        ensures same { result ≢ WRITTEN → out.new ≡ out.old }
    {
        if sector >= self.core.sectors() {
            return NO_SECTOR;
        }
        let Some(at) = self.core.page(sector) else {
            return DONE;
        };
        *out = reports::place(at);
        WRITTEN
    }

    // The command that comes next for an extent.
    pub(crate) fn next(&self, extent: Extent, out: &mut CommandReport) -> u32
        ensures code { result
            ≡ extent_code extent (if result == NO_NUMBER then NO_NUMBER else DONE) self.now }
        ensures progress { next_number_of self.now.core + 1 < 2 ^ 64 → result ≢ NO_NUMBER }
        ensures command { result ≡ DONE → IsCommandFor extent out.new self.now }
        ensures same { result ≢ DONE → out.new ≡ out.old }
    {
        if !extent.lies_within(self.core.sectors() as usize) {
            return NO_SECTOR;
        }
        let command = self.core.next(extent);
        if command == Command::Refused {
            return NO_NUMBER;
        }
        *out = reports::report(extent.first, command);
        DONE
    }

    // Takes the success of the command that comes next for an extent.
    pub(crate) fn done(&mut self, extent: Extent, did: CommandReport) -> u32
        ensures code { result
            ≡ extent_code extent (if result == OUT_OF_ORDER then OUT_OF_ORDER else DONE) self.old }
        ensures done { result ≡ DONE → IsDone extent did self.old self.new }
        ensures same { result ≢ DONE → self.new ≡ self.old }
    {
        if !extent.lies_within(self.core.sectors() as usize) {
            return NO_SECTOR;
        }
        let command = self.core.next(extent);
        if did != reports::report(extent.first, command) {
            return OUT_OF_ORDER;
        }
        self.core.done(extent, command);
        self.totals.count(command);
        DONE
    }

    // Retires the block of the command that comes next for an extent, which has failed, for a block that isn't in use.
    pub(crate) fn retire(
        &mut self,
        extent: Extent,
        did: CommandReport,
        left: bool,
        spare: u32,
    ) -> u32
        ensures code { result ≡ extent_code extent (retire_code result) self.old }
        ensures retired { result ≡ DONE → GoesOnWithout extent did left spare self.old self.new }
        ensures takes { TakesSpare spare result self.old }
        ensures same { result ≢ DONE → self.new ≡ self.old }
    {
        if !extent.lies_within(self.core.sectors() as usize) {
            return NO_SECTOR;
        }
        let command = self.core.next(extent);
        if reports::report(extent.first, command) != did {
            return OUT_OF_ORDER;
        }
        if self.core.retire(extent, command, left, spare) {
            DONE
        } else {
            NO_BLOCK
        }
    }
}
