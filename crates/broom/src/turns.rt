//! The turns of a broom over the queue of drained blocks.
ghost use Rattle.std.specs.Prelude.{◌≡◌};
ghost use Rattle.geometry.specs.Geometry.{blocks_of};
ghost use Rattle.erase_queue.specs.Queue.{limit_of};
ghost use Rattle.flash_table.specs.Flash.{geometry_of};
ghost use Rattle.broom.specs.Ready.{IsReady};
ghost use Rattle.broom.specs.Handing.{HandsNothing, IsBelow, IsQueued, DrainedBy, TurnTold, DrainOneTold, EraseOneTold};

use crate::answer::{Drain, Erase};
use crate::broom::Broom;
use crate::dead::drain_dead;
use crate::draining::{drain, drain_next};
use crate::erasing::erase;
use crate::handing::{fetch, hand_on, pass_on, relieve};
use erase_queue::EraseQueue;
use flash_table::{Flash, Gate};
use std::sync::Wait;

/// Which block a turn drains.
#[derive(Clone, Copy)]
pub enum Choice {
    /// The one that `drain` chooses.
    Survey,
    /// The one that `drain_next` chooses.
    Next,
    /// The one that `drain_dead` chooses.
    Dead,
}

/// Drains a block and puts it into the queue, or sets it aside if the queue is full. A block that is already set aside is put first; if there is no
/// room for it, nothing is drained.
pub fn drain_one<G: Gate>(
    flash: &Flash,
    queue: &EraseQueue,
    rt: &impl Wait,
    broom: &mut Broom,
    gate: &mut G,
) -> Drain
    requires limit { limit_of queue.now ≡ blocks_of (geometry_of flash.now) }
    requires ready { IsReady flash.now broom.old }
    requires queued { IsQueued queue.now broom.old }
    ensures drained_one { DrainOneTold (limit_of queue.now) broom.old result broom.new }
    ensures ready { IsReady flash.now broom.new }
    ensures queued { IsQueued queue.now broom.new }
{
    drain_chosen(flash, queue, rt, broom, Choice::Survey, gate)
}

/// A turn as `drain_one` makes it, with this choice of the block.
#[tactic(auto, using(crate::proofs::Turning::still_at, crate::proofs::Turning::still_queued))]
pub fn drain_chosen<G: Gate>(
    flash: &Flash,
    queue: &EraseQueue,
    rt: &impl Wait,
    broom: &mut Broom,
    choice: Choice,
    gate: &mut G,
) -> Drain
    requires limit { limit_of queue.now ≡ blocks_of (geometry_of flash.now) }
    requires ready { IsReady flash.now broom.old }
    requires queued { IsQueued queue.now broom.old }
    ensures drained_one { TurnTold (DrainedBy choice)
        (limit_of queue.now) broom.old result broom.new }
    ensures ready { IsReady flash.now broom.new }
    ensures queued { IsQueued queue.now broom.new }
{
    if !relieve(queue, rt, broom) {
        return Drain::QueueFull;
    }
    let answer = drain_by(flash, broom, choice, gate);
    pass_on(queue, rt, broom, answer);
    answer
}

// Drains the block of this choice.
fn drain_by<G: Gate>(flash: &Flash, broom: &mut Broom, choice: Choice, gate: &mut G) -> Drain
    requires { IsReady flash.now broom.old }
    ensures drained_by { DrainedBy choice broom.old result broom.new }
    ensures ready { IsReady flash.now broom.new }
    ensures queue { HandsNothing broom.old broom.new }
    ensures block { IsBelow (blocks_of (geometry_of flash.now)) result }
{
    match choice {
        Choice::Survey => drain(flash, broom, gate),
        Choice::Next => drain_next(flash, broom, gate),
        Choice::Dead => drain_dead(flash, broom, gate),
    }
}

/// Erases the block that is set aside or, if there is none, the first one of the queue. A block that has readers is put back at the end of the
/// queue.
#[tactic(auto, using(crate::proofs::Turning::still_at, crate::proofs::Turning::still_queued))]
pub fn erase_one<G: Gate>(
    flash: &Flash,
    queue: &EraseQueue,
    rt: &impl Wait,
    broom: &mut Broom,
    gate: &mut G,
) -> Erase
    requires limit { limit_of queue.now ≡ blocks_of (geometry_of flash.now) }
    requires ready { IsReady flash.now broom.old }
    requires queued { IsQueued queue.now broom.old }
    ensures erased_one { EraseOneTold (limit_of queue.now) broom.old result broom.new }
    ensures ready { IsReady flash.now broom.new }
    ensures queued { IsQueued queue.now broom.new }
{
    let Some(block) = fetch(queue, rt, broom) else {
        return Erase::QueueEmpty;
    };
    let answer = erase(flash, broom, block, gate);
    let Erase::Pinned = answer else {
        return answer;
    };
    hand_on(queue, rt, broom, block);
    Erase::Pinned
}
