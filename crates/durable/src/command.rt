ghost use Rattle.std.specs.Prelude.{◌≡◌, ◌≢◌};

use geometry::PageAddr;

/// What the flash has to do next for a call.
#[derive(Clone, Copy, Debug, PartialEq, Eq)]
pub enum Command {
    /// Program the page with the new value of the call's sectors, and a stamp with this number. The call is acknowledged after it.
    Program(PageAddr, u64),
    /// Copy the sector's page, from the first address to the second, with its stamp: ONFI 4.0, Copyback. Other sectors with the same page keep it.
    Copy(u32, PageAddr, PageAddr),
    /// Erase the block.
    Erase(u32),
    /// The numbers have run out.
    Refused,
}

impl Command {
    ghost use Rattle.durable.specs.Commands.{is_program};
    ghost use Rattle.durable.specs.Failures.{Changes};
    ghost use Rattle.durable.specs.declared.command.Command.TheVariants.{Refused};

    /// Whether the call is acknowledged after it.
    pub fn is_last(self) -> bool
        ensures { result ≡ is_program self }
    {
        matches!(self, Command::Program(..))
    }

    /// The block of which it changes pages.
    pub fn changed_block(self) -> u32
        ensures { self ≢ Refused → Changes self result }
    {
        match self {
            Command::Program(at, _) => at.block,
            Command::Copy(_, _, to) => to.block,
            Command::Erase(block) => block,
            Command::Refused => 0,
        }
    }
}
