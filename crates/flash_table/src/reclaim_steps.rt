//! The steps by which a broom loads the state of a block, claims it and is done with draining it, one atomic operation each.
ghost use Rattle.std.specs.Prelude.{◌≡◌, ◌<◌, ◌≤◌, ◌⊎◌, [], ◌∷◌, ◌++◌, MatchBool};
ghost use Rattle.geometry.specs.Geometry.{blocks_of, pages_of, endurance_of};
ghost use Rattle.geometry.specs.Words.{FitsPin, pin_word};
ghost use Rattle.geometry.specs.declared.words.Phase.TheVariants as phase;
ghost use Rattle.flash_rule.specs.BroomPlays.{Loaded, IsLastLoaded};
ghost use Rattle.flash_table.specs.GivingUp.{left_drained};
ghost use Rattle.flash_table.specs.Flash.{IsBroomOf, broom_view, own_blocks, geometry_of};
ghost use Rattle.flash_table.specs.declared.broom_seat.ReclaimedBlock.{ReclaimedBlock};
ghost use Rattle.flash_table.specs.declared.broom_seat.Reclaiming.TheVariants as reclaiming;
ghost use Rattle.flash_table.specs.Steps.{HasInspected, IsClaimed, IsCleared, NowDrains};

use crate::broom_seat::{BroomSeat, ReclaimedBlock, Reclaiming};
use crate::flash::Flash;
use flash_rule::{Claim, Drain, LoadState};
use geometry::{NEXT_PHASE, PinWord, pin_at};

impl Flash {
    /// The state of a block.
    pub fn load_state(&self, broom: &mut BroomSeat, block: u32) -> PinWord
        requires broom { IsBroomOf self.now broom.old }
        requires block { block < blocks_of (geometry_of self.now) }
        ensures loaded { Loaded (broom_view broom.old) block
            (pin_word result) (broom_view broom.new) }
        ensures fits { FitsPin result }
        ensures ranges { (result.generation < endurance_of (geometry_of self.now))
            × (result.written ≤ pages_of (geometry_of self.now)) }
        ensures broom { IsBroomOf self.now broom.new }
        ensures blocks { own_blocks broom.new ≡ own_blocks broom.old }
    {
        let word = pin_at(&self.geometry, block);
        let found = self.table.shared.load::<LoadState>(&mut broom.seat, word);
        let Some(state) = PinWord::unpack(found) else {
            unreachable!()
        };
        state
    }

    /// Makes a closed block the broom's victim if its state is still this one. Returns whether it did.
    pub fn claim(&self, broom: &mut BroomSeat, block: u32, state: PinWord) -> bool
        requires broom { IsBroomOf self.now broom.old }
        requires block { block < blocks_of (geometry_of self.now) }
        requires state { FitsPin state × (state.phase ≡ phase.Closed) }
        requires loaded { IsLastLoaded (broom_view broom.old) block (pin_word state) }
        requires at_rest { (own_blocks broom.old).reclaiming ≡ reclaiming.Nothing }
        ensures claimed { MatchBool result
            (IsClaimed (broom_view broom.old) block state (broom_view broom.new))
            (broom_view broom.new ≡ record (broom_view broom.old) { lost = (broom_view broom.old).lost ++ block ∷ [] }) }
        ensures blocks { MatchBool result
            (NowDrains (own_blocks broom.old) block state (own_blocks broom.new))
            (own_blocks broom.new ≡ own_blocks broom.old) }
        ensures broom { IsBroomOf self.now broom.new }
    {
        let word = pin_at(&self.geometry, block);
        let expected = state.pack();
        let found = self
            .table
            .shared
            .compare_exchange::<Claim>(&mut broom.seat, word, expected, expected + NEXT_PHASE);
        if found != expected {
            return false;
        }
        broom.blocks.reclaiming = Reclaiming::Draining(ReclaimedBlock {
            block,
            generation: state.generation,
            written: state.written,
        });
        true
    }

    /// Gives up the victim after all its counted pages are dead, or after it was inspected.
    pub fn drain(&self, broom: &mut BroomSeat)
        requires broom { IsBroomOf self.now broom.old }
        requires emptied { IsCleared (geometry_of self.now)
            (broom_view broom.old) (own_blocks broom.old)
            ⊎ HasInspected (geometry_of self.now) (broom_view broom.old) (own_blocks broom.old) }
        ensures drained { (o : ReclaimedBlock)
            → (own_blocks broom.old).reclaiming ≡ reclaiming.Draining o
            → broom_view broom.new ≡ left_drained (broom_view broom.old) o }
        ensures blocks { own_blocks broom.new
            ≡ record (own_blocks broom.old) { reclaiming = reclaiming.Nothing } }
        ensures broom { IsBroomOf self.now broom.new }
    {
        let Reclaiming::Draining(victim) = broom.blocks.reclaiming else {
            unreachable!()
        };
        let word = pin_at(&self.geometry, victim.block);
        self.table
            .shared
            .fetch_add::<Drain>(&mut broom.seat, word, NEXT_PHASE);
        broom.blocks.reclaiming = Reclaiming::Nothing;
    }
}
