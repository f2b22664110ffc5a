//! What the calls report, in structs of C.
ghost use Rattle.std.specs.Prelude.{◌≡◌};
ghost use Rattle.durable_exports.specs.Driving.{page_kept, report_at, step_report, programmed_value};
ghost use Rattle.nand.specs.declared.driver.Step.TheVariants as step;
ghost use Rattle.durable_exports.specs.Reports.{report_of, place_report, totals_with};

use durable::{Command, PageAddr};
use nand::{Main, Stamp, Step};

/// The pages programmed for calls, the pages copied and the blocks erased since the mount.
#[repr(C)]
#[derive(Clone, Copy, Debug, PartialEq, Eq)]
pub struct Totals {
    pub programs: u64,
    pub copies: u64,
    pub erases: u64,
}

/// A page's block, and its index in the block.
#[repr(C)]
#[derive(Clone, Copy, Debug, PartialEq, Eq)]
pub struct PlaceReport {
    pub block: u32,
    pub page: u32,
}

/// A command for the flash: 1 programs the page with the sector's new value and a stamp of this number; 2 copies the sector's page, with its
/// stamp; 3 erases the block. What a command does not name is 0.
#[repr(C)]
#[derive(Clone, Copy, Debug, PartialEq, Eq)]
pub struct CommandReport {
    pub kind: u32,
    pub sector: u32,
    pub from_block: u32,
    pub from_page: u32,
    pub block: u32,
    pub page: u32,
    pub number: u64,
}

/// What a driver does next: 0 nothing, since no call is under way; 1 programs the page with a stamp of these sectors and this number; 2 copies a
/// sector's page; 3 erases the block; 4 reads the page; 5 marks the block. `value` is what is programmed: 1 the caller's bytes; 2 those of the page
/// that was read last; 3 none, of a trim; 4 none, since they are lost. What a step does not name is 0.
#[repr(C)]
#[derive(Clone, Copy, Debug, PartialEq, Eq)]
pub struct StepReport {
    pub kind: u32,
    pub value: u32,
    pub first: u32,
    pub count: u32,
    pub from_block: u32,
    pub from_page: u32,
    pub block: u32,
    pub page: u32,
    pub number: u64,
}

// A page's address, as it is reported.
pub(crate) fn place(at: PageAddr) -> PlaceReport
    ensures { result ≡ place_report at }
{
    PlaceReport {
        block: at.block,
        page: at.page,
    }
}

// A command for a sector's new version, as it is reported.
pub(crate) fn report(sector: u32, command: Command) -> CommandReport
    ensures { result ≡ report_of sector command }
{
    let none = CommandReport {
        kind: 0,
        sector: 0,
        from_block: 0,
        from_page: 0,
        block: 0,
        page: 0,
        number: 0,
    };
    match command {
        Command::Program(at, number) => CommandReport {
            kind: 1,
            sector,
            block: at.block,
            page: at.page,
            number,
            ..none
        },
        Command::Copy(sector, from, to) => CommandReport {
            kind: 2,
            sector,
            from_block: from.block,
            from_page: from.page,
            block: to.block,
            page: to.page,
            ..none
        },
        Command::Erase(block) => CommandReport {
            kind: 3,
            block,
            ..none
        },
        Command::Refused => none,
    }
}

// What a program programs, as it is reported.
fn value(trimmed: bool, main: Main) -> u32
    ensures { result ≡ programmed_value trimmed main }
{
    match main {
        Main::Lost => 4,
        Main::Page(_) => { if trimmed { 3 } else { 2 } }
        Main::Caller => { if trimmed { 3 } else { 1 } }
    }
}

// The page whose main bytes a program takes, or the first one of the chip.
fn page_read(main: Main) -> PageAddr
    ensures { result ≡ page_kept main }
{
    match main {
        Main::Page(from) => from,
        Main::Caller | Main::Lost => PageAddr { block: 0, page: 0 },
    }
}

// A step that programs a page, as it is reported.
fn program(at: PageAddr, stamp: Stamp, main: Main) -> StepReport
    ensures { result ≡ step_report (step.Program at stamp main) }
{
    let from = page_read(main);
    StepReport {
        kind: 1,
        value: value(stamp.trimmed, main),
        first: stamp.extent.first,
        count: stamp.extent.count,
        from_block: from.block,
        from_page: from.page,
        block: at.block,
        page: at.page,
        number: stamp.number,
    }
}

// A step of this kind at a page, as it is reported.
fn step_at(kind: u32, at: PageAddr) -> StepReport
    ensures { result ≡ report_at kind at }
{
    StepReport {
        kind,
        value: 0,
        first: 0,
        count: 0,
        from_block: 0,
        from_page: 0,
        block: at.block,
        page: at.page,
        number: 0,
    }
}

// A driver's step, as it is reported.
pub(crate) fn step(step: Step) -> StepReport
    ensures { result ≡ step_report step }
{
    match step {
        Step::Program(at, stamp, main) => program(at, stamp, main),
        Step::Copy(sector, from, to) => StepReport {
            first: sector,
            count: 1,
            from_block: from.block,
            from_page: from.page,
            ..step_at(2, to)
        },
        Step::Erase(block) => step_at(3, PageAddr { block, page: 0 }),
        Step::Read(at) => step_at(4, at),
        Step::Mark(block) => step_at(5, PageAddr { block, page: 0 }),
        Step::Ended => step_at(0, PageAddr { block: 0, page: 0 }),
    }
}

impl Totals {
    // Counts a command that has succeeded.
    pub(crate) fn count(&mut self, command: Command)
        ensures { self.new ≡ totals_with command self.old }
    {
        match command {
            Command::Program(..) => self.programs = self.programs.saturating_add(1),
            Command::Copy(..) => self.copies = self.copies.saturating_add(1),
            Command::Erase(_) => self.erases = self.erases.saturating_add(1),
            Command::Refused => {}
        }
    }
}
