//! How the layer goes on without a block whose command has failed.
mod laws;

ghost use Rattle.std.specs.Prelude.{◌≡◌, ◌≢◌, ◌<◌, ◌≤◌, ◌+◌, ◌^◌, ℕ, List, length, Some, true, false};
ghost use Rattle.geometry.specs.declared.page_addr.PageAddr.{PageAddr as Addr};
ghost use Rattle.packed_map.specs.Entries.{IsPackable};
ghost use Rattle.durable.specs.Collecting.{AreLiveCounts};
ghost use Rattle.durable.specs.Retiring.{Keeps};
ghost use Rattle.durable.specs.Updates.{LiesWithin};
ghost use Rattle.durable.specs.declared.command.Command.TheVariants.{Program};

use crate::cleaning::Victim;
use crate::command::Command;
use crate::counting::{remap_all, renumber};
use crate::extent::Extent;
use crate::memory::Core;
use crate::next_pages::NextPages;
use crate::ranking::Counts;
use crate::search::source_in_map;
use packed_map::PackedMap;

impl Core {
    ghost use Rattle.durable.specs.Choice.{IsNextCommand, number_after};
    ghost use Rattle.durable.specs.Device.{device_of, losses_of, next_number_of};
    ghost use Rattle.durable.specs.Failures.{HoldsNoVersion};
    ghost use Rattle.durable.specs.Flash.{Flash};
    ghost use Rattle.durable.specs.Promise.{IsConsistent};
    ghost use Rattle.durable.specs.Retiring.{Retires};
    ghost use Rattle.durable.specs.Updates.{Update};
    ghost use Rattle.durable.specs.Whole.{RetiresWhole};
    ghost use Rattle.durable.specs.declared.command.Command.TheVariants.{Refused};

    /// The command that came next has failed. Its block isn't used any more: it changes its number with `spare`, a block that isn't in use and has
    /// no version, and that comes in use. Its pages are read still, as long as sectors have them. `left` tells whether the page of a program can be
    /// read as a version now. The answer is whether `spare` will do.
    pub fn retire(&mut self, extent: Extent, command: Command, left: bool, spare: u32) -> bool
        requires within { LiesWithin (device_of self.old).sectors extent }
        requires next { IsNextCommand self.old command }
        ensures retires { result ≡ true → Retires self.old extent command left spare self.new }
        ensures whole { result ≡ true → RetiresWhole self.old extent command left spare self.new }
        ensures device { device_of self.new ≡ device_of self.old }
        ensures losses { losses_of self.new ≡ losses_of self.old }
        ensures number { result ≡ true
            → next_number_of self.new ≡ number_after command (next_number_of self.old) }

        // It is refused only if the block won't do.
        ensures refused { result ≡ false → self.new ≡ self.old }
        ensures accepts { (f : Flash) (acked begun : List Update) → IsConsistent f self.old acked begun
            → HoldsNoVersion f spare → (device_of self.old).blocks ≤ spare
            → spare < (device_of self.old).read_blocks → command ≢ Refused → result ≡ true }
    {
        if spare < self.blocks || spare >= self.read_blocks {
            return false;
        }
        if matches!(command, Command::Refused) || source_in_map(&self.map, spare).is_some() {
            return false;
        }
        self.chosen = Command::Refused;
        self.next_pages = NextPages {
            hosts: None,
            copies: None,
        };
        self.victim = Victim::NONE;
        self.left = u64::from(self.pages) + 1;
        let number = self.next_number;
        self.next_number = keep(
            &mut self.map,
            &mut self.counts,
            extent,
            command,
            left,
            number,
        );
        renumber(
            &mut self.map,
            &mut self.counts,
            command.changed_block(),
            spare,
        );
        true
    }
}

// Maps the sectors of a program that has left its version, and returns the next number, which is never the same again.
fn keep(
    map: &mut PackedMap,
    counts: &mut Counts,
    extent: Extent,
    command: Command,
    left: bool,
    number: u64,
) -> u64
    requires within { LiesWithin (length map.old.items) extent }
    requires few { length map.old.items < 2 ^ 32 }
    requires program { (at : Addr) (n : ℕ) → command ≡ Program at n → IsPackable (Some at) × (n + 1 < 2 ^ 64) }
    requires counted { AreLiveCounts counts.old map.old.items }
    ensures keeps { Keeps command left extent map.old.items map.new.items number result }
    ensures size { length counts.new ≡ length counts.old }
    ensures counted { AreLiveCounts counts.new map.new.items }
{
    match command {
        Command::Program(at, programmed) => {
            if left {
                remap_all(map, counts, extent, at);
            }
            programmed + 1
        }
        Command::Copy(..) => number,
        Command::Erase(_) => number,
        Command::Refused => number,
    }
}
