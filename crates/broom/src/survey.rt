//! The survey that a broom makes before it claims a block: the state of each block, and for each sector its page.
ghost use Rattle.std.specs.Prelude.{◌≡◌, None, length, IfSome, MatchOption};
ghost use Rattle.geometry.specs.Geometry.{blocks_of};
ghost use Rattle.flash_rule.specs.Views.{AreOfHosts};
ghost use Rattle.flash_table.specs.Flash.{IsBroomOf, broom_view, own_blocks, geometry_of, device};
ghost use Rattle.broom.specs.Survey as survey;
ghost use Rattle.geometry.specs.Greedy.{IsClosed};
ghost use Rattle.broom.specs.Ready.{IsReady, view_of_broom, blocks_of_broom, marks_of};
ghost use Rattle.broom.specs.Told.{GainsNothingNext, HasOnlyRanked, IsDrainedNext, next_of};
ghost use Rattle.broom.specs.Handing.{HandsNothing};
ghost use Rattle.broom.specs.Surveying.{StatesLoaded, PagesCounted, Chooses};

use crate::broom::Broom;
use flash_table::{BroomSeat, Flash};
use geometry::{Phase, PinWord, greedy};

// Whether a block can be claimed.
fn is_closed(phase: Phase) -> bool
    ensures { result ≡ survey.is_closed phase }
{
    match phase {
        Phase::Closed => true,
        Phase::Free
        | Phase::Open
        | Phase::Victim
        | Phase::Drained
        | Phase::Erasing
        | Phase::Retired => false,
    }
}

// Loads the state of each block, in order, and marks the closed ones.
fn load_states(flash: &Flash, seat: &mut BroomSeat, states: &mut [PinWord], closed: &mut [bool])
    requires seat { IsBroomOf flash.now seat.old }
    requires states { length states.old ≡ blocks_of (geometry_of flash.now) }
    requires closed { length closed.old ≡ blocks_of (geometry_of flash.now) }
    ensures loaded { StatesLoaded (device flash.now)
        (broom_view seat.old) states.new closed.new (broom_view seat.new) }
    ensures seat { IsBroomOf flash.now seat.new }
    ensures blocks { own_blocks seat.new ≡ own_blocks seat.old }
{
    for block in 0..flash.geometry().blocks() {
        let state = flash.load_state(seat, block);
        states[block as usize] = state;
        closed[block as usize] = is_closed(state.phase);
    }
}

// Looks at each sector, in order, and counts the live pages of each block in its generation as loaded.
fn count_pages(flash: &Flash, seat: &mut BroomSeat, states: &[PinWord], counts: &mut [u32])
    requires seat { IsBroomOf flash.now seat.old }
    requires source { (broom_view seat.old).source ≡ None }
    requires callers { AreOfHosts (broom_view seat.old).numbers (broom_view seat.old).seen }
    requires states { length states.now ≡ blocks_of (geometry_of flash.now) }
    requires counts { length counts.old ≡ blocks_of (geometry_of flash.now) }
    ensures counted { PagesCounted
        (broom_view seat.old) states.now counts.new (broom_view seat.new) }
    ensures seat { IsBroomOf flash.now seat.new }
    ensures blocks { own_blocks seat.new ≡ own_blocks seat.old }
{
    counts.fill(0);
    for sector in 0..flash.geometry().sectors() {
        let Some(page) = flash.broom_look(seat, sector) else {
            continue;
        };
        let block = page.block as usize;
        if states[block].generation == page.generation {
            counts[block] += 1;
        }
    }
}

// Surveys the device, and chooses the block to be drained, if there is something to gain.
pub(crate) fn choose(flash: &Flash, broom: &mut Broom) -> Option<u32>
    requires { IsReady flash.now broom.old }
    ensures chosen { Chooses (view_of_broom broom.old) result broom.new }
    ensures marked { IfSome result (λ block. IsClosed (marks_of broom.new) block) }
    ensures ready { IsReady flash.now broom.new }
    ensures blocks { blocks_of_broom broom.new ≡ blocks_of_broom broom.old }
    ensures queue { HandsNothing broom.old broom.new }
{
    load_states(flash, &mut broom.seat, &mut broom.states, &mut broom.closed);
    count_pages(flash, &mut broom.seat, &broom.states, &mut broom.counts);
    broom.ranking.forget();
    let victim = greedy(&broom.counts, &broom.closed);
    gains(flash, broom, victim)
}

// Chooses the block to drain next by the last survey, if there is something to gain. It ranks the blocks if the survey is new.
pub(crate) fn choose_next(flash: &Flash, broom: &mut Broom) -> Option<u32>
    requires { IsReady flash.now broom.old }
    ensures next { MatchOption result (GainsNothingNext broom.old) (IsDrainedNext broom.old) }
    ensures marked { IfSome result (IsClosed (marks_of broom.old)) }
    ensures rest { HasOnlyRanked broom.old broom.new }
    ensures ready { IsReady flash.now broom.new }
{
    let victim = broom.ranking.first(&broom.counts, &broom.closed);
    gains(flash, broom, victim)
}

// The block to be drained next, if not all of its pages are live.
fn gains(flash: &Flash, broom: &Broom, victim: Option<usize>) -> Option<u32>
    requires ready { IsReady flash.now broom.now }
    requires next { victim ≡ next_of broom.now }
    ensures next { MatchOption result (GainsNothingNext broom.now) (IsDrainedNext broom.now) }
    ensures marked { IfSome result (IsClosed (marks_of broom.now)) }
{
    let Some(victim) = victim else {
        return None;
    };
    let pages = flash.geometry().pages();
    if broom.counts[victim] == pages {
        return None;
    }
    Some(victim as u32)
}
