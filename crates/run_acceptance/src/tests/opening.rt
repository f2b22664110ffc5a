//! The only pass and the only broom of an open device.
ghost use Rattle.std.specs.Prelude.{◌≡◌, All, length};
ghost use Rattle.host.specs.Ready.{IsReady};
ghost use Rattle.volume.specs.Volume.{IsBroomReady, flash_of};

use broom::Broom;
use flash_table::Pass;
use volume::Volume;

/// The only pass.
pub(crate) fn only_pass(volume: &Volume, passes: Vec<Pass>) -> Pass
    requires one { length passes.items ≡ 1 }
    requires ready { All (IsReady (flash_of volume.now)) passes.items }
    ensures { IsReady (flash_of volume.now) result }
{
    let mut passes = passes;
    let Some(pass) = passes.pop() else {
        unreachable!()
    };
    passes.destroy_empty();
    pass
}

/// The only broom.
pub(crate) fn only_broom(volume: &Volume, brooms: Vec<Broom>) -> Broom
    requires one { length brooms.items ≡ 1 }
    requires ready { All (IsBroomReady volume.now) brooms.items }
    ensures { IsBroomReady volume.now result }
{
    let mut brooms = brooms;
    let Some(broom) = brooms.pop() else {
        unreachable!()
    };
    brooms.destroy_empty();
    broom
}
