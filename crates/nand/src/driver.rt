//! A driver's memory, the steps that it says, and their answers.
ghost use Rattle.std.specs.Prelude.{◌≤◌, length};
ghost use Rattle.durable.specs.Device.{device_of};
ghost use Rattle.nand.specs.Phases.{IsPhaseOf};

use crate::flash::{Reading, Stamp};
use durable::{Command, Core, Extent};
use geometry::PageAddr;
use thiserror::Error;

/// Where the main bytes of a program come from.
#[derive(Clone, Copy, Debug, PartialEq, Eq)]
pub enum Main {
    /// The caller's.
    Caller,
    /// Those of this page. It was read before, and holds the same still; the page of a program that failed may have been read since.
    Page(PageAddr),
    /// From nowhere: they are lost, and a read of the sectors has to say so.
    Lost,
}

/// What a device does next. All addresses are by the chip's blocks.
#[derive(Clone, Copy, Debug, PartialEq, Eq)]
pub enum Step {
    /// Program the page with this stamp. A trim has no main bytes.
    Program(PageAddr, Stamp, Main),
    /// Copy the sector's page, from the first address to the second, with its stamp.
    Copy(u32, PageAddr, PageAddr),
    /// Erase the block.
    Erase(u32),
    /// Read the page. The answer is what was found. A program that follows may want its main bytes, as `Main::Page` says.
    Read(PageAddr),
    /// Mark the block bad. Nothing in it is needed: its pages need not be readable afterwards.
    Mark(u32),
    /// Nothing: no call is under way.
    Ended,
}

/// How a step ended.
#[derive(Clone, Copy, Debug, PartialEq, Eq)]
pub enum Answer {
    /// A program, copy, erase or mark was done.
    Done,
    /// The status of a program, copy or erase says FAIL.
    Failed,
    /// The power went while the step ran, or before.
    PowerGone,
    /// What a read found.
    Found(Reading),
}

/// Why a call doesn't begin, or has ended without its update.
#[derive(Clone, Copy, Debug, PartialEq, Eq, Error)]
pub enum Refusal {
    /// Another call is under way.
    #[error("another call is under way")]
    Busy,
    /// The device doesn't have these sectors.
    #[error("the device doesn't have these sectors")]
    Outside,
    /// A command has failed, and no block was in reserve: the device is only read from now on.
    #[error("the device is only read")]
    ReadOnly,
    /// The power is gone. Open the chip again once it is back.
    #[error("the chip has to be opened again")]
    Closed,
    /// The numbers of versions have run out.
    #[error("the numbers of versions have run out")]
    NoNumber,
}

// A new version of some sectors: the call's, or one that moves them.
#[derive(Clone, Copy)]
pub(crate) struct Job {
    pub(crate) extent: Extent,
    pub(crate) trimmed: bool,
    pub(crate) main: Main,
}

// What is under way.
#[derive(Clone, Copy)]
pub(crate) enum Phase {
    // No call is.
    Idle,
    // A command of the job.
    Perform(Command, Job),
    // The job's program has failed: its page is read, to find out whether it has the version.
    Look(PageAddr, u64, Job),
    // A page of the chip in a block that has failed is read, to move these sectors.
    Fetch(PageAddr, Extent),
    // The first block that has failed is marked. The sectors are those of the last job.
    Mark(Extent),
    // No call ever again: a command has failed, and no block was in reserve.
    ReadOnly,
    // No call until the chip is opened again.
    Closed,
}

/// A device over a chip, without input or output: it says one step at a time, and takes how it ended.
#[derive(Drop)]
pub struct Driver {
    pub(crate) core: Core,
    // The chip's block of each of the core's.
    pub(crate) numbers: Vec<u32>,
    // After the blocks in use come those that have failed and are marked; from this number on those that aren't;
    pub(crate) unmarked: u32,
    // from this one on the reserve;
    pub(crate) spare: u32,
    // and from this one on those that were bad.
    pub(crate) good: u32,
    // The sectors of the last call.
    pub(crate) call: Extent,
    // Whether its update is made, and otherwise why not.
    pub(crate) outcome: Result<(), Refusal>,
    pub(crate) phase: Phase,
    // From this sector on those are looked for that have to move.
    pub(crate) searched: u32,
    pub ghost numbered: { good ≤ length numbers.items },
    pub ghost after_use: { (device_of core).blocks ≤ unmarked },
    pub ghost before_reserve: { unmarked ≤ spare },
    pub ghost under_way: { ∥ IsPhaseOf core phase ∥₁ },
}
