//! Threads that share a device: what each one needs is in a struct, whose ghost fields say that it is ready.
ghost use Rattle.std.specs.Prelude.{◌≡◌, ◌<◌, length};
ghost use Rattle.flash_table.specs.Flash.{view_of};
ghost use Rattle.host.specs.Ready.{IsReady};
ghost use Rattle.volume.specs.Volume.{IsBroomReady, IsBroomReady-prop, flash_of, sectors, page_bytes};
ghost use Rattle.uses.specs.Sharing.{IsStored, HasHeard};

use std::thread::{Threads, join_mut};
use volume::{Broom, Drain, NoGate, Pass, Volume};

/// A pass at its device, and a value for a sector.
pub struct Writer<'a> {
    pub volume: &'a Volume,
    pub pass: Pass,
    pub sector: u32,
    pub value: &'a [u8],
    ghost ready: { IsReady (flash_of volume.now) pass },
    ghost sector_is_there: { sector < sectors volume.now },
    ghost whole_page: { length value.now ≡ page_bytes volume.now },
}

impl Writer<'_> {
    // Whether the value was written: it isn't if no block is free.
    fn write(&mut self) -> bool
        ensures stored { IsStored self.old.sector self.old.value.now
            (view_of self.old.pass) result (view_of self.new.pass) }
        ensures volume { self.new.volume ≡ self.old.volume }
    {
        self.volume
            .write(&mut self.pass, self.sector, self.value)
            .is_ok()
    }
}

/// A broom at its device.
pub struct Sweeper<'a> {
    pub volume: &'a Volume,
    pub broom: Broom,
    ghost ready: { IsBroomReady volume.now broom } by { Prim.hlevel IsBroomReady-prop },
}

impl Sweeper<'_> {
    // Empties the block with the fewest live pages, and erases it if nobody reads it.
    fn sweep(&mut self) {
        if let Drain::Drained { block, copied: _ } = self
            .volume
            .drain(&mut self.broom, &mut NoGate)
        {
            self.volume.erase(&mut self.broom, block, &mut NoGate);
        }
    }
}

// A writer's turn and a broom's, each in its own thread. Returns the writer's answer.
fn write_beside_broom<R: Threads + Sync>(rt: &R, writer: &mut Writer, sweeper: &mut Sweeper) -> bool
    ensures stored { IsStored writer.old.sector writer.old.value.now
        (view_of writer.old.pass) result (view_of writer.new.pass) }
    ensures volume { writer.new.volume ≡ writer.old.volume }
{
    join_mut(rt, &mut || writer.write(), &mut || sweeper.sweep()).0
}

/// Two hosts write a value each while a broom collects, each in its own thread; then the hosts meet. Returns for each whether its value was
/// written; it isn't if no block is free.
pub fn two_writers_and_a_broom<R: Threads + Sync>(
    rt: &R,
    first: &mut Writer,
    second: &mut Writer,
    sweeper: &mut Sweeper,
) -> (bool, bool)
    requires { second.old.volume.now ≡ first.old.volume.now }

    // Each has made its own write, or none, whatever the broom and other threads did in between.
    ensures first { IsStored first.old.sector first.old.value.now
        (view_of first.old.pass) result.0 (view_of first.new.pass) }
    ensures second { IsStored second.old.sector second.old.value.now
        (view_of second.old.pass) result.1 (view_of second.new.pass) }

    // And the first has seen what the second has written, so that it reads no older value from now on.
    ensures heard { HasHeard (view_of second.new.pass) (view_of first.new.pass) }
{
    let answers = join_mut(
        rt,
        &mut || first.write(),
        &mut || write_beside_broom(rt, second, sweeper),
    );
    first.volume.meet(&mut first.pass, &mut second.pass);
    answers
}
