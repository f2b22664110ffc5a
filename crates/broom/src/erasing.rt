//! The erase of a drained block.
ghost use Rattle.std.specs.Prelude.{◌≡◌, ◌<◌, MatchBool};
ghost use Rattle.geometry.specs.Geometry.{blocks_of};
ghost use Rattle.flash_table.specs.Flash.{IsBroomOf, broom_view, own_blocks, geometry_of, device};
ghost use Rattle.flash_table.specs.Erasing.{IsErasing, CanLiveOn, words_in_block};
ghost use Rattle.flash_table.specs.declared.broom_seat.ReclaimedBlock.{ReclaimedBlock};
ghost use Rattle.flash_table.specs.declared.broom_seat.Reclaiming.TheVariants as reclaiming;
ghost use Rattle.broom.specs.Ready.{IsReady};
ghost use Rattle.broom.specs.Handing.{HandsNothing};
ghost use Rattle.broom.specs.Erasing.{Kept, Freed, EraseTold};
ghost use Rattle.broom.specs.Told.{Unmarks};

use crate::answer::Erase;
use crate::broom::Broom;
use flash_table::{BroomSeat, Flash, Gate, Point, Reclaiming};
use geometry::{MapWord, Phase};

/// Erases a drained block that nobody reads. It calls its gate after it has loaded the block's state, before it condemns the block.
pub fn erase<G: Gate>(flash: &Flash, broom: &mut Broom, block: u32, gate: &mut G) -> Erase
    requires broom { IsReady flash.now broom.old }
    requires block { block < blocks_of (geometry_of flash.now) }
    ensures erased { EraseTold broom.old block result broom.new }
    ensures marks { Unmarks broom.old block broom.new }
    ensures ready { IsReady flash.now broom.new }
    ensures queue { HandsNothing broom.old broom.new }
{
    broom.closed[block as usize] = false;
    let state = flash.load_state(&mut broom.seat, block);
    if state.phase != Phase::Drained {
        return Erase::Stale;
    }
    if state.readers > 0 {
        return Erase::Pinned;
    }
    gate.at(Point::BeforeErase);
    if !flash.condemn(&mut broom.seat, block, state) {
        return Erase::Pinned;
    }
    wipe_all(flash, &mut broom.seat);
    if state.generation + 1 == flash.geometry().endurance() {
        flash.retire_block(&mut broom.seat);
        return Erase::Retired { block };
    }
    let kept = renew(flash, &mut broom.seat);
    Erase::Erased { block, kept }
}

/// Sets all words of the block that the broom erases to all ones, page after page with its stamp.
pub fn wipe_all(flash: &Flash, seat: &mut BroomSeat)
    requires seat { IsBroomOf flash.now seat.old }
    requires erasing { (o : ReclaimedBlock) × IsErasing flash.now seat.old o }
    requires none { (broom_view seat.old).wiped ≡ 0 }
    ensures wiped { broom_view seat.new
        ≡ record (broom_view seat.old) { wiped = words_in_block (device flash.now) } }
    ensures seat { IsBroomOf flash.now seat.new }
    ensures blocks { own_blocks seat.new ≡ own_blocks seat.old }
{
    let Reclaiming::Erasing(erased) = seat.blocks().reclaiming else {
        unreachable!()
    };
    let first = MapWord {
        generation: erased.generation,
        block: erased.block,
        page: 0,
    };
    let start = flash.page_start(first);
    let geometry = flash.geometry();
    for i in 0..geometry.pages() * (geometry.words() + 1) {
        flash.wipe(seat, start, i);
    }
}

// Begins the wiped block's next generation: a broom without a spare keeps it, and else it is free. The answer is whether it was kept.
fn renew(flash: &Flash, seat: &mut BroomSeat) -> bool
    requires seat { IsBroomOf flash.now seat.old }
    requires wiped { (o : ReclaimedBlock) × CanLiveOn flash.now seat.old o }
    ensures renewed { (o : ReclaimedBlock) → (own_blocks seat.old).reclaiming ≡ reclaiming.Erasing o
        → MatchBool result
        (Kept (broom_view seat.old) (own_blocks seat.old) o
        (broom_view seat.new) (own_blocks seat.new))
        (Freed (broom_view seat.old) (own_blocks seat.old) o
        (broom_view seat.new) (own_blocks seat.new)) }
    ensures seat { IsBroomOf flash.now seat.new }
{
    let kept = seat.blocks().spare.is_none();
    if kept {
        flash.keep_block(seat);
    } else {
        flash.free_block(seat);
    }
    kept
}
