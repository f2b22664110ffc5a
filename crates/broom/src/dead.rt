//! Draining a block without live pages: nothing is copied, so no spare is needed.
ghost use Rattle.std.specs.Prelude.{◌≡◌, ◌<◌, MatchBool};
ghost use Rattle.geometry.specs.Geometry.{blocks_of};
ghost use Rattle.flash_table.specs.Flash.{IsBroomOf, broom_view, own_blocks, geometry_of};
ghost use Rattle.broom.specs.Ready.{IsReady};
ghost use Rattle.broom.specs.Handing.{HandsNothing, IsBelow};
ghost use Rattle.broom.specs.Told.{Unmarks};
ghost use Rattle.broom.specs.Dead.{DeadTold, HasLoadedClosed, InspectionEnds, InspectedTold};

use crate::answer::Drain;
use crate::broom::Broom;
use crate::survey::choose;
use flash_table::{BroomSeat, Flash, Gate, Point};
use geometry::{Phase, PinWord};

/// Surveys the device, and drains the closed block with the fewest live pages if it has none. It needs no spare, and looks at each sector once
/// more. It calls its gate before the claim. `NoSpare` means that the block has a live page, or isn't closed any more.
pub fn drain_dead<G: Gate>(flash: &Flash, broom: &mut Broom, gate: &mut G) -> Drain
    requires { IsReady flash.now broom.old }
    ensures drained_dead { DeadTold broom.old result broom.new }
    ensures ready { IsReady flash.now broom.new }
    ensures queue { HandsNothing broom.old broom.new }
    ensures block { IsBelow (blocks_of (geometry_of flash.now)) result }
{
    let Some(block) = choose(flash, broom) else {
        return Drain::NothingToGain;
    };
    if broom.counts[block as usize] > 0 {
        return Drain::NoSpare;
    }
    drain_inspected(flash, broom, block, gate)
}

// Drains a block if it is closed and no sector has a page in it. The block isn't marked any more.
fn drain_inspected<G: Gate>(flash: &Flash, broom: &mut Broom, block: u32, gate: &mut G) -> Drain
    requires ready { IsReady flash.now broom.old }
    requires block { block < blocks_of (geometry_of flash.now) }
    ensures inspected { InspectedTold broom.old block result broom.new }
    ensures marks { Unmarks broom.old block broom.new }
    ensures ready { IsReady flash.now broom.new }
    ensures queue { HandsNothing broom.old broom.new }
    ensures block { IsBelow (blocks_of (geometry_of flash.now)) result }
{
    broom.closed[block as usize] = false;
    let state = flash.load_state(&mut broom.seat, block);
    if state.phase != Phase::Closed {
        return Drain::NoSpare;
    }
    if !inspect(flash, &mut broom.seat, block, state) {
        return Drain::NoSpare;
    }
    gate.at(Point::BeforeClaim);
    if !flash.claim(&mut broom.seat, block, state) {
        return Drain::Lost;
    }
    flash.drain(&mut broom.seat);
    Drain::Drained { block, copied: 0 }
}

// Looks at the sectors from 0 on. Returns whether none of them has a page in the block, whose state was loaded last.
fn inspect(flash: &Flash, seat: &mut BroomSeat, block: u32, state: PinWord) -> bool
    requires seat { IsBroomOf flash.now seat.old }
    requires block { block < blocks_of (geometry_of flash.now) }
    requires loaded { HasLoadedClosed (broom_view seat.old) block state }
    ensures looked { InspectionEnds (broom_view seat.old) block state result (broom_view seat.new) }
    ensures seat { IsBroomOf flash.now seat.new }
    ensures blocks { own_blocks seat.new ≡ own_blocks seat.old }
{
    for sector in 0..flash.geometry().sectors() {
        if flash.inspect_sector(seat, block, state, sector) {
            return false;
        }
    }
    true
}
