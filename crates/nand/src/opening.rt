//! What an opening asks, and what it has been told.
ghost use Rattle.std.specs.Prelude.{◌<◌, ◌≤◌, length};
ghost use Rattle.std.specs.Option.{ForNone};

use crate::flash::Shape;
use durable::{Core, Mount, MountFault};
use geometry::PageAddr;
use thiserror::Error;

/// What an opening asks of the chip. The blocks are the chip's.
#[derive(Clone, Copy, Debug, PartialEq, Eq)]
pub enum Question {
    /// Whether the block is marked bad.
    IsBad(u32),
    /// What the page's stamp is read as. The pages of a block that is marked bad may be told unreadable without a look, at each opening.
    Stamp(PageAddr),
}

/// Why an opening doesn't take an answer, or doesn't end with a layer.
#[derive(Clone, Copy, Debug, PartialEq, Eq, Error)]
pub enum OpeningFault {
    /// This isn't what comes next: another question is open, or none.
    #[error("another question is open, or none")]
    OutOfTurn,
    /// What stands in the flash can't be mounted, or there is too little memory.
    #[error("{0}")]
    Refused(MountFault),
}

/// The opening of a chip without input or output: it asks one question at a time, and takes the answer.
#[derive(Drop)]
pub struct Opening {
    pub(crate) shape: Shape,
    pub(crate) sectors: u32,
    // The blocks that were told of, in the order of their numbers, and how many of them are good.
    pub(crate) numbers: Vec<u32>,
    pub(crate) good: u32,
    // It begins once all blocks have numbers.
    pub(crate) mount: Option<Mount>,
    pub ghost few: { good ≤ length numbers.items },
    pub ghost asks: { ForNone mount (length numbers.items < shape.blocks) },
}

/// What a chip is opened as: the core of its layer, the chip's block of each number by which the core knows it, and how many blocks are good: those in
/// use, and the reserve with the numbers after theirs.
#[derive(Drop)]
pub struct Opened {
    pub core: Core,
    pub numbers: Vec<u32>,
    pub good: u32,
}
