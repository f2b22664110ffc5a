ghost use Rattle.std.specs.Prelude.{◌≡◌, ◌⊎◌, ◌<◌, ◌+◌, ◌%◌, ◌^◌, ℕ, Bool, true, false, List, length, slice_index_or, IfOk, OnErr, OnOk};
ghost use Rattle.durable.specs.Flash.{Flash};
ghost use Rattle.durable.specs.Updates.{sole};
ghost use Rattle.nand.specs.declared.flash.Shape.{Shape as Numbers};
ghost use Rattle.durable.specs.declared.command.Command.TheVariants as command;
ghost use Rattle.nand.specs.declared.flash.Fault.{Fault as Cause};
ghost use Rattle.nand.specs.declared.flash.Tally.{Tally as Counts};
ghost use Rattle.nand.specs.Numbers.{Marks};
ghost use Rattle.nand.specs.Nand.{ReadsStamp, ReadsMain, Performs, CountsCommand, CountsFault, CountsCut, value_with};

use durable::Extent;
use geometry::PageAddr;
use thiserror::Error;

/// The power is gone: the chip says no more until it has power again.
#[derive(Clone, Copy, Debug, PartialEq, Eq, Error)]
#[error("the power is gone")]
pub struct PowerGone;

/// Why a command was not done. A part of it may be.
#[derive(Clone, Copy, Debug, PartialEq, Eq, Error)]
pub enum Fault {
    /// The status says FAIL: the block is bad.
    #[error("the command has failed")]
    Failed,
    /// The power went while the command ran, or before.
    #[error("the power is gone")]
    PowerGone,
}

/// How many blocks a chip has, how many pages a block, and how many main bytes a page.
/// So many of the blocks are spare: they stay out of use while the sectors leave room, and one comes in use for each that goes bad. ONFI 4.0 has
/// the number in the parameter page, as the most blocks that may be bad over the chip's life.
#[derive(Clone, Copy, Debug, PartialEq, Eq)]
pub struct Shape {
    pub blocks: u32,
    pub pages: u32,
    pub page_bytes: usize,
    pub spare_blocks: u32,
}

/// How many commands of each kind have succeeded, modulo 2^64.
#[derive(Clone, Copy, Debug, PartialEq, Eq)]
pub struct Tally {
    pub programs: u64,
    pub copies: u64,
    pub erases: u64,
}

/// What is programmed into a page's spare bytes.
#[derive(Clone, Copy, Debug, PartialEq, Eq)]
pub struct Stamp {
    /// The sectors of which the version is: of a write one.
    pub extent: Extent,
    /// Grows by one from a version to the next.
    pub number: u64,
    /// The version is empty: the sectors were trimmed.
    pub trimmed: bool,
}

/// What a read found.
#[derive(Clone, Copy, Debug, PartialEq, Eq)]
pub enum Reading {
    /// A version, whose check is right.
    Version(Stamp),
    /// No bit is programmed.
    Erased,
    /// A torn page, or one that can't be corrected.
    Unreadable,
}

/// Flash that the caller brings. A power cut is an error that leaves a torn command.
pub trait Nand {
    /// What each page holds.
    ghost flash: { Self → Flash };

    /// How large it is.
    ghost shape: { Self → Numbers };

    /// Of each block, whether it is marked bad.
    ghost bad: { Self → List Bool };

    /// How many calls have ended with each fault, modulo 2^64: a driver can keep it in a word.
    ghost faults: { Self → Cause → ℕ };

    /// How many calls of `sync` have succeeded, modulo 2^64.
    ghost syncs: { Self → ℕ };

    /// How many commands of each kind have succeeded, modulo 2^64. One that failed isn't counted.
    ghost tally: { Self → Counts };

    /// How large the chip is.
    fn shape(&self) -> Shape
        ensures { result ≡ shape self.now };

    /// How many commands of each kind have succeeded.
    fn tally(&self) -> Tally
        ensures { result ≡ tally self.now };

    /// Whether the block is marked bad.
    fn is_bad(&mut self, block: u32) -> Result<bool, PowerGone>
        ensures answer { IfOk result (λ is. is ≡ slice_index_or (bad self.old) block false) }
        ensures flash { flash self.new ≡ flash self.old }
        ensures shape { shape self.new ≡ shape self.old }
        ensures bad { bad self.new ≡ bad self.old }
        ensures tally { tally self.new ≡ tally self.old }
        ensures syncs { syncs self.new ≡ syncs self.old }
        ensures cause { CountsCut (faults self.old) (faults self.new) result };

    /// Marks a block bad for good. Its pages are still read.
    fn mark_bad(&mut self, block: u32) -> Result<(), PowerGone>
        ensures marks { block < (shape self.old).blocks
            → OnOk result (Marks (bad self.old) (bad self.new) block) }
        ensures only { (bad self.new ≡ bad self.old) ⊎ Marks (bad self.old) (bad self.new) block }
        ensures flash { flash self.new ≡ flash self.old }
        ensures shape { shape self.new ≡ shape self.old }
        ensures tally { tally self.new ≡ tally self.old }
        ensures syncs { syncs self.new ≡ syncs self.old }
        ensures cause { CountsCut (faults self.old) (faults self.new) result };

    /// Reads a page's stamp alone.
    fn stamp(&mut self, at: PageAddr) -> Result<Reading, PowerGone>
        ensures stamp { IfOk result
            (λ reading. ReadsStamp (flash self.old at.block at.page) reading) }
        ensures flash { flash self.new ≡ flash self.old }
        ensures shape { shape self.new ≡ shape self.old }
        ensures bad { bad self.new ≡ bad self.old }
        ensures tally { tally self.new ≡ tally self.old }
        ensures syncs { syncs self.new ≡ syncs self.old }
        ensures cause { CountsCut (faults self.old) (faults self.new) result };

    /// Reads a page's stamp, and its main bytes into `out`. If it isn't a version with bytes, any bytes may be there.
    fn read(&mut self, at: PageAddr, out: &mut [u8]) -> Result<Reading, PowerGone>
        requires { length out.old ≡ (shape self.old).page_bytes }
        ensures stamp { IfOk result
            (λ reading. ReadsStamp (flash self.old at.block at.page) reading) }
        ensures main { OnOk result (ReadsMain (flash self.old at.block at.page) out.new) }
        ensures flash { flash self.new ≡ flash self.old }
        ensures shape { shape self.new ≡ shape self.old }
        ensures bad { bad self.new ≡ bad self.old }
        ensures tally { tally self.new ≡ tally self.old }
        ensures syncs { syncs self.new ≡ syncs self.old }
        ensures cause { CountsCut (faults self.old) (faults self.new) result };

    /// Programs an erased page. The main bytes of a trim are none.
    fn program(&mut self, at: PageAddr, stamp: Stamp, main: &[u8]) -> Result<(), Fault>
        requires { stamp.trimmed ≡ false → length main.now ≡ (shape self.old).page_bytes }
        ensures does { Performs (command.Program at stamp.number) stamp.extent
            (value_with stamp.trimmed main.now) result (flash self.old) (flash self.new) }
        ensures shape { shape self.new ≡ shape self.old }
        ensures bad { bad self.new ≡ bad self.old }
        ensures tally { CountsCommand (command.Program at stamp.number)
            (tally self.old) (tally self.new) result }
        ensures syncs { syncs self.new ≡ syncs self.old }
        ensures cause { CountsFault (faults self.old) (faults self.new) result };

    /// Copies a page with its stamp into an erased page. The source is what its stamp was read as: the number and the sectors of its version, or that it
    /// can't be read, and then the copy can't be read either.
    fn copyback(&mut self, from: PageAddr, to: PageAddr, source: Reading) -> Result<(), Fault>
        requires { ReadsStamp (flash self.old from.block from.page) source }
        ensures does { Performs (command.Copy 0 from to)
            (sole 0) None result (flash self.old) (flash self.new) }
        ensures shape { shape self.new ≡ shape self.old }
        ensures bad { bad self.new ≡ bad self.old }
        ensures tally { CountsCommand (command.Copy 0 from to)
            (tally self.old) (tally self.new) result }
        ensures syncs { syncs self.new ≡ syncs self.old }
        ensures cause { CountsFault (faults self.old) (faults self.new) result };

    /// Erases a block.
    fn erase(&mut self, block: u32) -> Result<(), Fault>
        ensures does { Performs (command.Erase block)
            (sole 0) None result (flash self.old) (flash self.new) }
        ensures shape { shape self.new ≡ shape self.old }
        ensures bad { bad self.new ≡ bad self.old }
        ensures tally { CountsCommand (command.Erase block)
            (tally self.old) (tally self.new) result }
        ensures syncs { syncs self.new ≡ syncs self.old }
        ensures cause { CountsFault (faults self.old) (faults self.new) result };

    /// Returns once each command that was done is durable.
    fn sync(&mut self) -> Result<(), PowerGone>
        ensures counts { OnOk result (syncs self.new ≡ (syncs self.old + 1) % 2 ^ 64) }
        ensures failed { OnErr result (syncs self.new ≡ syncs self.old) }
        ensures flash { flash self.new ≡ flash self.old }
        ensures shape { shape self.new ≡ shape self.old }
        ensures bad { bad self.new ≡ bad self.old }
        ensures tally { tally self.new ≡ tally self.old }
        ensures cause { CountsCut (faults self.old) (faults self.new) result };
}
