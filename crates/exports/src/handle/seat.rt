//! What an open handle has.
ghost use Rattle.std.specs.Arc.{arc_value};
ghost use Rattle.host.specs.Holding.{Holds};
ghost use Rattle.host.specs.Ready.{IsReady};
ghost use Rattle.exports.specs.Holds.{held_value, Holds-prop};
ghost use Rattle.volume.specs.Volume.{flash_of, IsBroomReady, IsBroomReady-prop};
ghost use Rattle.exports.specs.Tallies.{tally_of};
ghost use Rattle.std.specs.Prelude.{◌≡◌};

use crate::codes::{DONE, NO_SECTOR, WRITTEN};
use crate::reports::TallyReport;
use ftl_one::OneFtl;
use std::alloc::Global;
use std::sync::Arc;
use volume::{Broom, Held, Holding, Pass, Volume};

/// A pass, with its device.
pub struct Host {
    pub(crate) volume: Arc<Volume, Global>,
    pub(crate) pass: Pass,
    ghost ready: { IsReady (flash_of (arc_value volume)) pass },
}

impl Drop for Host {
    fn drop(self) {
        let Host { volume, pass } = self;
        volume.retire(pass);
        drop(volume);
    }
}

impl Host {
    ghost use Rattle.std.specs.Prelude.{◌≡◌, Some};
    ghost use Rattle.exports.specs.Holding.{HoldLeaves, hold_code};
    ghost use Rattle.exports.specs.Shared.{seen_of};

    // Holds the page of a sector, or stays a host.
    pub(crate) fn hold(self, sector: u32) -> (Seat, u32)
        ensures code { result.1 ≡ hold_code sector (seen_of (Some result.0)) self }
        ensures leaves { HoldLeaves self sector result.1 result.0 }
    {
        if sector >= self.volume.geometry().sectors() {
            return (Seat::Host(self), NO_SECTOR);
        }
        let Host { volume, pass } = self;
        match volume.hold(pass, sector) {
            Holding::Held(held) => (Seat::Holder(Holder { volume, held }), WRITTEN),
            Holding::Empty(pass) => (Seat::Host(Host { volume, pass }), DONE),
        }
    }
}

/// A pass that holds a page, with its device.
pub struct Holder {
    pub(crate) volume: Arc<Volume, Global>,
    pub(crate) held: Held,
    ghost holds: { Holds (flash_of (arc_value volume)) held (held_value held) } by { Prim.hlevel Holds-prop },
}

impl Drop for Holder {
    fn drop(self) {
        let Holder { volume, held } = self;
        let pass = volume.release(held);
        volume.retire(pass);
        drop(volume);
    }
}

impl Holder {
    ghost use Rattle.exports.specs.Holding.{ReleaseLeaves};

    // Gives the page up.
    pub(crate) fn release(self) -> Seat
        ensures { ReleaseLeaves self result }
    {
        let Holder { volume, held } = self;
        let pass = volume.release(held);
        Seat::Host(Host { volume, pass })
    }
}

/// A broom, with its device and what it has done.
pub struct Sweeper {
    pub(crate) volume: Arc<Volume, Global>,
    pub(crate) broom: Broom,
    pub(crate) done: TallyReport,
    ghost ready: { IsBroomReady (arc_value volume) broom } by { Prim.hlevel IsBroomReady-prop },
    pub ghost counted: { done ≡ tally_of broom },
}

impl Drop for Sweeper {
    fn drop(self) {
        let Sweeper {
            volume,
            broom,
            done: _,
        } = self;
        volume.retire_broom(broom);
        drop(volume);
    }
}

/// What an open handle has: a device for one thread, or a pass, a hold or a broom of a shared one. It is `Away` while a call makes a hold of a
/// pass, or a pass of a hold.
#[derive(Drop)]
pub enum Seat {
    One(OneFtl),
    Host(Host),
    Sweeper(Sweeper),
    Holder(Holder),
    Away,
}
