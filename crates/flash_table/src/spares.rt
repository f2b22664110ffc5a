//! The step by which a broom without a spare takes one.
ghost use Rattle.std.specs.Prelude.{◌≡◌, ◌<◌, None};
ghost use Rattle.geometry.specs.Geometry.{blocks_of};
ghost use Rattle.flash_table.specs.Flash.{IsBroomOf, broom_view, own_blocks, geometry_of};
ghost use Rattle.flash_table.specs.Taking.{SpareTold};

use crate::broom_seat::{BroomBlocks, BroomSeat};
use crate::flash::Flash;
use crate::pass::OpenBlock;

impl Flash {
    /// Takes a block as the broom's spare if it is free. Returns whether it did.
    pub fn take_spare(&self, broom: &mut BroomSeat, block: u32) -> bool
        requires broom { IsBroomOf self.now broom.old }
        requires no_spare { (own_blocks broom.old).spare ≡ None }
        requires block { block < blocks_of (geometry_of self.now) }
        ensures spare { SpareTold (broom_view broom.old) (own_blocks broom.old) block result
            (broom_view broom.new) (own_blocks broom.new) }
        ensures broom { IsBroomOf self.now broom.new }
    {
        let Some(generation) = self.take_free(&mut broom.seat, block) else {
            return false;
        };
        broom.blocks = BroomBlocks {
            destination: broom.blocks.destination,
            spare: Some(OpenBlock {
                block,
                generation,
                written: 0,
            }),
            reclaiming: broom.blocks.reclaiming,
        };
        true
    }
}
