//! The brooms of an open device.
ghost use Rattle.std.specs.Prelude.{◌≡◌, ◌+◌, ◌<◌, All, length};
ghost use Rattle.volume.specs.Volume.{IsBroomReady};

use broom::Broom;
use volume::Volume;

/// Takes the broom with the highest number.
pub(crate) fn last_broom(volume: &Volume, brooms: &mut Vec<Broom>) -> Broom
    requires some { 0 < length brooms.old.items }
    requires ready { All (IsBroomReady volume.now) brooms.old.items }
    ensures long { length brooms.new.items + 1 ≡ length brooms.old.items }
    ensures others { All (IsBroomReady volume.now) brooms.new.items }
    ensures ready { IsBroomReady volume.now result }
{
    let Some(broom) = brooms.pop() else {
        unreachable!()
    };
    broom
}
