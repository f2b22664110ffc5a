//! A broom that has lost its spare takes a free block.
ghost use Rattle.std.specs.Prelude.{◌≡◌, None};
ghost use Rattle.flash_table.specs.Flash.{IsBroomOf, broom_view, own_blocks};
ghost use Rattle.broom.specs.Ready.{IsReady};
ghost use Rattle.broom.specs.Handing.{HandsNothing};
ghost use Rattle.broom.specs.Told.{KeepsSurvey, RestockTold, SearchTold};

use crate::broom::Broom;
use flash_table::{BroomSeat, Flash};

/// If a broom has no spare, makes the lowest free block its spare. Returns whether the broom has a spare now.
pub fn restock(flash: &Flash, broom: &mut Broom) -> bool
    requires broom { IsReady flash.now broom.old }
    ensures restocked { RestockTold broom.old result broom.new }
    ensures ready { IsReady flash.now broom.new }
    ensures queue { HandsNothing broom.old broom.new }
    ensures survey { KeepsSurvey broom.old broom.new }
{
    if broom.seat.blocks().spare.is_some() {
        return true;
    }
    take_lowest(flash, &mut broom.seat)
}

// Takes the lowest block that is free as the spare, trying from block 0 upwards, and says whether there was one.
fn take_lowest(flash: &Flash, seat: &mut BroomSeat) -> bool
    requires seat { IsBroomOf flash.now seat.old }
    requires none { (own_blocks seat.old).spare ≡ None }
    ensures searched { SearchTold (broom_view seat.old)
        (own_blocks seat.old) result (broom_view seat.new) (own_blocks seat.new) }
    ensures seat { IsBroomOf flash.now seat.new }
{
    for block in 0..flash.geometry().blocks() {
        if flash.take_spare(seat, block) {
            return true;
        }
    }
    false
}
