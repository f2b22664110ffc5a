ghost use Rattle.std.specs.Prelude.{◌≡◌, ◌<◌, ◌≤◌, ◌+◌, ◌^◌, length};

use crate::command::Command;
use crate::extent::Extent;
use crate::memory::Core;

/// What a call costs before its program.
#[derive(Clone, Copy, Debug, PartialEq, Eq)]
pub struct Cost {
    pub erases: u64,
    pub copies: u64,
}

impl Core {
    ghost use Rattle.durable.specs.Collecting.{most_copies};
    ghost use Rattle.durable.specs.Device.{device_of, next_number_of};
    ghost use Rattle.durable.specs.Next.{IsRoomy};
    ghost use Rattle.durable.specs.Updates.{LiesWithin};

    /// A whole call in memory, as if each command succeeded. It costs at most one erase, a copy fewer than a block has pages, and one program; and
    /// few copies if a block is open and another one is free.
    pub fn rehearse(&mut self, extent: Extent) -> Cost
        requires within { LiesWithin (device_of self.old).sectors extent }
        requires number { next_number_of self.old + 1 < 2 ^ 64 }
        ensures erases { result.erases ≤ 1 }
        ensures copies { result.copies + 1 ≤ (device_of self.old).pages }
        ensures few { IsRoomy self.old.blocks self.old.map.items self.old.next_pages
            → result.copies ≤ most_copies (length self.old.map.items) self.old.blocks self.old.pages }
        ensures device { device_of self.new ≡ device_of self.old }
        ensures number { next_number_of self.new ≡ next_number_of self.old + 1 }
    {
        let mut cost = Cost {
            erases: 0,
            copies: 0,
        };
        loop {
            let command = self.next(extent);
            self.done(extent, command);
            match command {
                Command::Program(..) => return cost,
                Command::Copy(..) => cost.copies += 1,
                Command::Erase(_) => cost.erases += 1,
                Command::Refused => {}
            }
        }
    }
}
