//! The end of a broom.
ghost use Rattle.std.specs.Prelude.{◌≡◌, ◌<◌, Some, None};
ghost use Rattle.geometry.specs.Geometry.{blocks_of};
ghost use Rattle.flash_table.specs.Flash.{IsBroomOf, broom_view, own_blocks, geometry_of, retired_broom_view};
ghost use Rattle.flash_table.specs.declared.pass.OpenBlock.{OpenBlock};
ghost use Rattle.flash_table.specs.GivingUp.{closed_broom};
ghost use Rattle.erase_queue.specs.Queue.{limit_of};
ghost use Rattle.broom.specs.Ready.{IsReady, IsRested, IsFiled, view_of_broom, blocks_of_broom, folded_view, folded_place, HasClosed};
ghost use Rattle.broom.specs.Handing.{IsQueued, LeftAt, aside_of, place_of};

use crate::broom::Broom;
use crate::handing::relieve;
use erase_queue::{EraseQueue, QueuePass};
use flash_table::{BroomSeat, Flash, RetiredBroom};
use std::sync::Wait;

/// The seat of a broom that makes no more steps, with its place at the queue. It may be dropped.
#[derive(Drop)]
pub struct Folded {
    seat: RetiredBroom,
    place: QueuePass,
}

/// Gives a broom up. Its destination, full or not, and its spare are closed. A block that is set aside is put into the queue; if the queue is full,
/// the block stays drained, and nobody erases it.
#[tactic(auto, using(crate::proofs::Turning::still_at))]
pub fn fold(flash: &Flash, queue: &EraseQueue, rt: &impl Wait, broom: Broom) -> Folded
    requires ready { IsReady flash.now broom }
    requires queued { IsQueued queue.now broom }
    ensures view { folded_view result ≡ closed_broom (view_of_broom broom) (blocks_of_broom broom) }
    ensures place { LeftAt (limit_of queue.now) broom (folded_place result) }
{
    let mut broom = broom;
    relieve(queue, rt, &mut broom);
    retire_broom(flash, broom)
}

/// Gives up a broom that has set nothing aside, such as one that was just made.
pub fn fold_new(flash: &Flash, broom: Broom) -> Folded
    requires ready { IsReady flash.now broom }
    requires aside { aside_of broom ≡ None }
    ensures view { folded_view result ≡ closed_broom (view_of_broom broom) (blocks_of_broom broom) }
    ensures place { folded_place result ≡ place_of broom }
{
    retire_broom(flash, broom)
}

/// Gives a broom up without using the queue, so it doesn't wait. Its destination and its spare are closed. A block that is set aside stays drained,
/// and nobody erases it.
pub fn retire_broom(flash: &Flash, broom: Broom) -> Folded
    requires { IsReady flash.now broom }
    ensures view { folded_view result ≡ closed_broom (view_of_broom broom) (blocks_of_broom broom) }
    ensures place { folded_place result ≡ place_of broom }
{
    let Broom {
        seat,
        states: _,
        counts: _,
        closed: _,
        ranking: _,
        place,
        aside: _,
    } = broom;
    Folded {
        seat: fold_seat(flash, seat),
        place,
    }
}

/// Gives up the seat of a broom that could not be made, since memory ran out.
pub fn fold_seat(flash: &Flash, seat: BroomSeat) -> RetiredBroom
    requires { IsRested flash.now seat }
    ensures { retired_broom_view result ≡ closed_broom (broom_view seat) (own_blocks seat) }
{
    let mut seat = seat;
    close_if_open(flash, &mut seat);
    seat.use_spare();
    close_if_open(flash, &mut seat);
    seat.leave()
}

// Closes the destination, if there is one.
fn close_if_open(flash: &Flash, seat: &mut BroomSeat)
    requires seat { IsBroomOf flash.now seat.old }
    requires filed { IsFiled (broom_view seat.old) (own_blocks seat.old) }
    requires block { (o : OpenBlock) → (own_blocks seat.old).destination ≡ Some o
        → o.block < blocks_of (geometry_of flash.now) }
    ensures closed { HasClosed (broom_view seat.old)
        (own_blocks seat.old).destination (broom_view seat.new) }
    ensures blocks { own_blocks seat.new ≡ record (own_blocks seat.old) { destination = None } }
    ensures seat { IsBroomOf flash.now seat.new }
{
    if seat.blocks().destination.is_some() {
        flash.close_destination(seat);
    }
}
