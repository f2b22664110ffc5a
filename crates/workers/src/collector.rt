//! A collector: a broom with its device.
ghost use Rattle.std.specs.Prelude.{◌≡◌};
ghost use Rattle.std.specs.Arc.{arc_value};
ghost use Rattle.erase_queue.specs.Queue.{limit_of};
ghost use Rattle.flash_table.specs.GivingUp.{closed_broom};
ghost use Rattle.broom.specs.Ready.{folded_place, folded_view, blocks_of_broom, view_of_broom};
ghost use Rattle.broom.specs.Handing.{LeftAt};
ghost use Rattle.volume.specs.Volume.{queue_of, IsBroomReady, IsBroomReady-prop};

pub(crate) mod broom_answer;
pub(crate) mod broom_thread;
pub(crate) mod collecting;
pub(crate) mod collector_end;
pub(crate) mod tally;

use crate::collector::collector_end::CollectorEnd;
use crate::collector::tally::Tally;
use broom::Broom;
use std::alloc::Global;
use std::sync::{Arc, Wait};
use volume::Volume;

/// A broom at its device, how many blocks it drains by one survey, and what it has done so far. A collector that is dropped retires its broom.
pub struct Collector {
    pub volume: Arc<Volume, Global>,
    pub broom: Broom,
    pub drains: u32,
    pub tally: Tally,
    pub ghost ready: { IsBroomReady (arc_value volume) broom } by { Prim.hlevel IsBroomReady-prop },
}

impl Drop for Collector {
    fn drop(self) {
        let Collector {
            volume,
            broom,
            drains: _,
            tally: _,
        } = self;
        volume.retire_broom(broom);
    }
}

impl Collector {
    // Gives up the broom. A block that it has set aside goes to the queue.
    pub(crate) fn fold<R: Wait>(self, rt: &R) -> CollectorEnd
        ensures tally { result.tally ≡ self.tally }
        ensures view { folded_view result.folded
            ≡ closed_broom (view_of_broom self.broom) (blocks_of_broom self.broom) }
        ensures place { LeftAt (limit_of (queue_of (arc_value self.volume))) self.broom
            (folded_place result.folded) }
    {
        let Collector {
            volume,
            broom,
            drains: _,
            tally,
        } = self;
        let folded = volume.fold(rt, broom);
        CollectorEnd { tally, folded }
    }
}
