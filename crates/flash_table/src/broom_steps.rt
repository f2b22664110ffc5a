//! The steps by which a broom fills and closes the block that it copies live pages to, one atomic operation each.
ghost use Rattle.std.specs.Prelude.{◌≡◌, ◌+◌, ◌<◌, [], ◌∷◌, ◌++◌, Some, None};
ghost use Rattle.geometry.specs.Geometry.{numbers_of};
ghost use Rattle.geometry.specs.Words.{page_index};
ghost use Rattle.flash_rule.specs.declared.facts.Work.{Work};
ghost use Rattle.flash_rule.specs.Views.{with_owned};
ghost use Rattle.flash_rule.specs.Plays.{CanCount};
ghost use Rattle.flash_table.specs.Owning.{owned_of};
ghost use Rattle.flash_table.specs.GivingUp.{left_closed};
ghost use Rattle.flash_table.specs.Flash.{IsBroomOf, broom_view, own_blocks, geometry_of};
ghost use Rattle.flash_table.specs.declared.pass.OpenBlock.{OpenBlock};
ghost use Rattle.flash_table.specs.Steps.{CanGiveUp, HasOneMore, HasPut, IsFilled, IsNextWord};

use crate::broom_seat::BroomSeat;
use crate::flash::Flash;
use crate::pass::OpenBlock;
use flash_rule::{Close, Count, PutWord};
use geometry::{NEXT_PHASE, PAGE_WRITTEN, pin_at};

impl Flash {
    /// Stores word `i` of the destination's first page that isn't written, whose words begin at `start`. The stamp comes after the data words.
    pub fn put_copy_word(&self, broom: &mut BroomSeat, start: usize, i: u32, word: u64)
        requires broom { IsBroomOf self.now broom.old }
        requires next { IsNextWord (geometry_of self.now)
            (broom_view broom.old) (own_blocks broom.old).destination i }
        requires start { (o : OpenBlock) → (own_blocks broom.old).destination ≡ Some o
            → start ≡ page_index (numbers_of (geometry_of self.now)) o.block o.written }
        ensures put { HasPut (broom_view broom.old)
            (own_blocks broom.old).destination word (broom_view broom.new) }
        ensures broom { IsBroomOf self.now broom.new }
        ensures blocks { own_blocks broom.new ≡ own_blocks broom.old }
    {
        let place = start + i as usize;
        self.table
            .shared
            .store::<PutWord>(&mut broom.seat, place, word);
    }

    /// Counts the page of the destination that was filled; from now on it is programmed.
    pub fn count_copy(&self, broom: &mut BroomSeat)
        requires broom { IsBroomOf self.now broom.old }
        requires filled { IsFilled (geometry_of self.now)
            (broom_view broom.old) (own_blocks broom.old).destination }
        ensures counted { (o : OpenBlock) (x : Work) → (own_blocks broom.old).destination ≡ Some o → CanCount (broom_view broom.old) (owned_of o) x
            → broom_view broom.new ≡ record (broom_view broom.old) {
              programs = (broom_view broom.old).programs ++ x.page ∷ [];
              owns = with_owned (owned_of (record o { written = o.written + 1 })) (broom_view broom.old).owns;
            } }
        ensures blocks { HasOneMore (own_blocks broom.old) (own_blocks broom.new) }
        ensures broom { IsBroomOf self.now broom.new }
    {
        let Some(opened) = broom.blocks.destination else {
            unreachable!()
        };
        let word = pin_at(&self.geometry, opened.block);
        self.table
            .shared
            .fetch_add::<Count>(&mut broom.seat, word, PAGE_WRITTEN);
        broom.blocks.destination = Some(OpenBlock {
            block: opened.block,
            generation: opened.generation,
            written: opened.written + 1,
        });
    }

    /// Gives up the destination, full or not.
    pub fn close_destination(&self, broom: &mut BroomSeat)
        requires broom { IsBroomOf self.now broom.old }
        requires settled { CanGiveUp (geometry_of self.now)
            (broom_view broom.old) (own_blocks broom.old).destination }
        ensures closed { (o : OpenBlock) → (own_blocks broom.old).destination ≡ Some o
            → broom_view broom.new ≡ left_closed (broom_view broom.old) o }
        ensures blocks { own_blocks broom.new
            ≡ record (own_blocks broom.old) { destination = None } }
        ensures broom { IsBroomOf self.now broom.new }
    {
        let Some(opened) = broom.blocks.destination else {
            unreachable!()
        };
        let word = pin_at(&self.geometry, opened.block);
        self.table
            .shared
            .fetch_add::<Close>(&mut broom.seat, word, NEXT_PHASE);
        broom.blocks.destination = None;
    }
}
