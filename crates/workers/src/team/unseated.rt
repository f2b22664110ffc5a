//! A new device, before its passes and brooms have threads to go to.
ghost use Rattle.std.specs.Prelude.{◌≡◌};
ghost use Rattle.std.specs.Arc.{arc_value};
ghost use Rattle.workers.specs.Dealing.{AreReady, AreReady-prop};

use crate::team::leaving::give_up;
use broom::Broom;
use flash_table::Pass;
use std::alloc::Global;
use std::sync::Arc;
use volume::Volume;

/// A device with passes and brooms that have no thread yet. If it is dropped, they are retired.
pub(crate) struct Unseated {
    pub volume: Arc<Volume, Global>,
    pub passes: Vec<Pass>,
    pub brooms: Vec<Broom>,
    pub ghost ready: { AreReady (arc_value volume) passes.items brooms.items } by { AreReady-prop (arc_value volume) passes.items brooms.items },
}

impl Drop for Unseated {
    fn drop(self) {
        let Unseated {
            volume,
            passes,
            brooms,
        } = self;
        give_up(&volume, passes, brooms);
    }
}

impl Unseated {
    // The device, its passes and its brooms.
    pub(crate) fn into_parts(self) -> (Arc<Volume, Global>, Vec<Pass>, Vec<Broom>)
        ensures volume { arc_value result.0 ≡ arc_value self.volume }
        ensures passes { result.1.items ≡ self.passes.items }
        ensures brooms { result.2.items ≡ self.brooms.items }
        ensures ready { AreReady (arc_value result.0) result.1.items result.2.items }
    {
        let Unseated {
            volume,
            passes,
            brooms,
        } = self;
        (volume, passes, brooms)
    }
}
