//! Draining: a closed block's live pages are copied elsewhere, so that no map word names it any more.
ghost use Rattle.std.specs.Prelude.{◌≡◌, true, is_some};
ghost use Rattle.geometry.specs.Geometry.{blocks_of};
ghost use Rattle.geometry.specs.Greedy.{IsClosed};
ghost use Rattle.flash_table.specs.Flash.{geometry_of};
ghost use Rattle.broom.specs.Ready.{IsReady, blocks_of_broom, marks_of};
ghost use Rattle.broom.specs.Handing.{HandsNothing, IsBelow};
ghost use Rattle.broom.specs.Told.{DrainTold, MarkedTold, NextTold, SurveyLeft, Unmarks};

use crate::answer::Drain;
use crate::broom::Broom;
use crate::relocation::relocate;
use crate::survey::{choose, choose_next};
use flash_table::{Flash, Gate, Point};

/// Surveys the device, claims the closed block with the fewest live pages, and moves these out of it. It calls its gate before the claim, and
/// before each exchange of a map word.
pub fn drain<G: Gate>(flash: &Flash, broom: &mut Broom, gate: &mut G) -> Drain
    requires { IsReady flash.now broom.old }
    ensures drained { DrainTold broom.old result broom.new }
    ensures left { SurveyLeft broom.old result broom.new }
    ensures ready { IsReady flash.now broom.new }
    ensures queue { HandsNothing broom.old broom.new }
    ensures block { IsBelow (blocks_of (geometry_of flash.now)) result }
{
    if broom.seat.blocks().spare.is_none() {
        return Drain::NoSpare;
    }
    let Some(block) = choose(flash, broom) else {
        return Drain::NothingToGain;
    };
    drain_marked(flash, broom, block, gate)
}

/// Claims the next block by the survey that the broom made last, and moves its live pages out of it: of the blocks that were closed then, and that
/// the broom has neither drained nor loaded since, the one with the fewest live pages. It calls its gate where `drain` does.
pub fn drain_next<G: Gate>(flash: &Flash, broom: &mut Broom, gate: &mut G) -> Drain
    requires { IsReady flash.now broom.old }
    ensures drained_next { NextTold broom.old result broom.new }
    ensures ready { IsReady flash.now broom.new }
    ensures queue { HandsNothing broom.old broom.new }
    ensures block { IsBelow (blocks_of (geometry_of flash.now)) result }
{
    if broom.seat.blocks().spare.is_none() {
        return Drain::NoSpare;
    }
    let Some(block) = choose_next(flash, broom) else {
        return Drain::NothingToGain;
    };
    drain_marked(flash, broom, block, gate)
}

// Claims a marked block, whose mark goes, and moves its live pages out of it.
fn drain_marked<G: Gate>(flash: &Flash, broom: &mut Broom, block: u32, gate: &mut G) -> Drain
    requires ready { IsReady flash.now broom.old }
    requires spare { is_some (blocks_of_broom broom.old).spare ≡ true }
    requires marked { IsClosed (marks_of broom.old) block }
    ensures drained_marked { MarkedTold broom.old block result broom.new }
    ensures marks { Unmarks broom.old block broom.new }
    ensures ready { IsReady flash.now broom.new }
    ensures queue { HandsNothing broom.old broom.new }
    ensures block { IsBelow (blocks_of (geometry_of flash.now)) result }
{
    broom.closed[block as usize] = false;
    gate.at(Point::BeforeClaim);
    let state = broom.states[block as usize];
    if !flash.claim(&mut broom.seat, block, state) {
        return Drain::Lost;
    }
    let copied = relocate(flash, &mut broom.seat, gate);
    flash.drain(&mut broom.seat);
    Drain::Drained { block, copied }
}
