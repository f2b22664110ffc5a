ghost use Rattle.std.specs.Prelude.{◌≡◌, Some};
ghost use Rattle.durable.specs.Faults.{mount_fault_text};

use std::error::Error;
use std::fmt;

/// Why a flash was not mounted.
#[derive(Clone, Copy, Debug, PartialEq, Eq)]
pub enum MountFault {
    /// The sectors don't fit in all blocks but one with a page to spare.
    TooManySectors,
    /// A stamp has a sector that the device doesn't have, or the greatest number.
    ForeignStamp,
    /// No block can be freed. This layer never leaves a flash so.
    NoFreeBlock,
    /// There was too little memory.
    OutOfMemory,
}

impl MountFault {
    /// What is wrong, as it is printed.
    pub fn text(self) -> &'static str
        ensures { result.now ≡ mount_fault_text self }
    {
        match self {
            MountFault::TooManySectors => "the sectors don't fit in all blocks but one",
            MountFault::ForeignStamp => "a stamp is not of this device",
            MountFault::NoFreeBlock => "no block can be freed",
            MountFault::OutOfMemory => "out of memory",
        }
    }
}

impl fmt::Display for MountFault {
    ghost output = { λ fault. Some (mount_fault_text fault) };

    fn fmt<W: fmt::Write>(&self, f: &mut fmt::Formatter<W>) -> fmt::Result {
        f.write_str(self.text())
    }
}

impl Error for MountFault {}
