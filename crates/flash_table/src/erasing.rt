//! The steps by which a broom erases a block, one atomic operation each.
ghost use Rattle.std.specs.Prelude.{◌≡◌, ◌+◌, ◌<◌, Some, None};
ghost use Rattle.geometry.specs.Geometry.{blocks_of};
ghost use Rattle.geometry.specs.Words.{page_index};
ghost use Rattle.flash_rule.specs.Views.{with_owned};
ghost use Rattle.flash_table.specs.Owning.{owned_of};
ghost use Rattle.flash_table.specs.GivingUp.{left_free, left_retired};
ghost use Rattle.flash_table.specs.Flash.{IsBroomOf, broom_view, own_blocks, geometry_of, device};
ghost use Rattle.flash_table.specs.Erasing.{IsUnread, IsErasing, CanLiveOn, IsLastErase, words_in_block, CondemnTold};
ghost use Rattle.flash_table.specs.declared.broom_seat.ReclaimedBlock.{ReclaimedBlock};
ghost use Rattle.flash_table.specs.declared.broom_seat.Reclaiming.TheVariants as reclaiming;

use crate::broom_seat::{BroomBlocks, BroomSeat, ReclaimedBlock, Reclaiming};
use crate::flash::Flash;
use crate::pass::OpenBlock;
use flash_rule::{Condemn, FreeBlock, KeepBlock, RetireBlock, Wipe};
use geometry::{ERASED, NEXT_PHASE, PinWord, freed, kept, pin_at};

impl Flash {
    /// Condemns a drained block if its state is the expected one. Returns whether it did; then the broom owns the block and may erase it.
    pub fn condemn(&self, broom: &mut BroomSeat, block: u32, expected: PinWord) -> bool
        requires broom { IsBroomOf self.now broom.old }
        requires rested { (own_blocks broom.old).reclaiming ≡ reclaiming.Nothing }
        requires block { block < blocks_of (geometry_of self.now) }
        requires expected { IsUnread (broom_view broom.old) block expected }
        ensures condemned { CondemnTold broom.old block expected result broom.new }
        ensures broom { IsBroomOf self.now broom.new }
    {
        let word = pin_at(&self.geometry, block);
        let old = expected.pack();
        let found = self
            .table
            .shared
            .compare_exchange::<Condemn>(&mut broom.seat, word, old, old + NEXT_PHASE);
        if found != old {
            return false;
        }
        broom.blocks.reclaiming = Reclaiming::Erasing(ReclaimedBlock {
            block,
            generation: expected.generation,
            written: expected.written,
        });
        true
    }

    /// Sets word `i` of the block that the broom erases, whose words begin at `start`, to all ones, after the words before it. A page's stamp comes
    /// after its data words.
    pub fn wipe(&self, broom: &mut BroomSeat, start: usize, i: u32)
        requires broom { IsBroomOf self.now broom.old }
        requires erasing { (o : ReclaimedBlock) × IsErasing self.now broom.old o }
        requires start { (o : ReclaimedBlock)
            → (own_blocks broom.old).reclaiming ≡ reclaiming.Erasing o
            → start ≡ page_index (device self.now) o.block 0 }
        requires next { i ≡ (broom_view broom.old).wiped }
        requires word { i < words_in_block (device self.now) }
        ensures wiped { broom_view broom.new ≡ record (broom_view broom.old) { wiped = i + 1 } }
        ensures broom { IsBroomOf self.now broom.new }
        ensures blocks { own_blocks broom.new ≡ own_blocks broom.old }
    {
        let place = start + i as usize;
        self.table
            .shared
            .store::<Wipe>(&mut broom.seat, place, ERASED);
    }

    /// Gives up the wiped block; it is free, in its next generation.
    pub fn free_block(&self, broom: &mut BroomSeat)
        requires broom { IsBroomOf self.now broom.old }
        requires wiped { (o : ReclaimedBlock) × CanLiveOn self.now broom.old o }
        ensures freed { (o : ReclaimedBlock)
            → (own_blocks broom.old).reclaiming ≡ reclaiming.Erasing o
            → broom_view broom.new ≡ left_free (broom_view broom.old) o }
        ensures blocks { own_blocks broom.new
            ≡ record (own_blocks broom.old) { reclaiming = reclaiming.Nothing } }
        ensures broom { IsBroomOf self.now broom.new }
    {
        let Reclaiming::Erasing(erased) = broom.blocks.reclaiming else {
            unreachable!()
        };
        let word = pin_at(&self.geometry, erased.block);
        self.table
            .shared
            .fetch_add::<FreeBlock>(&mut broom.seat, word, freed(erased.written));
        broom.blocks.reclaiming = Reclaiming::Nothing;
    }

    /// Keeps the wiped block as the spare, empty and in its next generation.
    pub fn keep_block(&self, broom: &mut BroomSeat)
        requires broom { IsBroomOf self.now broom.old }
        requires wiped { (o : ReclaimedBlock) × CanLiveOn self.now broom.old o }
        requires no_spare { (own_blocks broom.old).spare ≡ None }
        ensures kept { (o : ReclaimedBlock)
            → (own_blocks broom.old).reclaiming ≡ reclaiming.Erasing o
            → broom_view broom.new ≡ record (broom_view broom.old)
            { owns = with_owned (owned_of (record { block = o.block; generation = o.generation + 1; written = 0 })) (broom_view broom.old).owns } }
        ensures blocks { (o : ReclaimedBlock)
            → (own_blocks broom.old).reclaiming ≡ reclaiming.Erasing o
            → own_blocks broom.new ≡ record (own_blocks broom.old)
            { spare = Some (record { block = o.block; generation = o.generation + 1; written = 0 }); reclaiming = reclaiming.Nothing } }
        ensures broom { IsBroomOf self.now broom.new }
    {
        let Reclaiming::Erasing(erased) = broom.blocks.reclaiming else {
            unreachable!()
        };
        let word = pin_at(&self.geometry, erased.block);
        self.table
            .shared
            .fetch_add::<KeepBlock>(&mut broom.seat, word, kept(erased.written));
        broom.blocks = BroomBlocks {
            destination: broom.blocks.destination,
            spare: Some(OpenBlock {
                block: erased.block,
                generation: erased.generation + 1,
                written: 0,
            }),
            reclaiming: Reclaiming::Nothing,
        };
    }

    /// Retires the block: it was erased as often as it can be.
    pub fn retire_block(&self, broom: &mut BroomSeat)
        requires broom { IsBroomOf self.now broom.old }
        requires last { (o : ReclaimedBlock) × IsLastErase self.now broom.old o }
        ensures retired { (o : ReclaimedBlock)
            → (own_blocks broom.old).reclaiming ≡ reclaiming.Erasing o
            → broom_view broom.new ≡ left_retired (broom_view broom.old) o }
        ensures blocks { own_blocks broom.new
            ≡ record (own_blocks broom.old) { reclaiming = reclaiming.Nothing } }
        ensures broom { IsBroomOf self.now broom.new }
    {
        let Reclaiming::Erasing(erased) = broom.blocks.reclaiming else {
            unreachable!()
        };
        let word = pin_at(&self.geometry, erased.block);
        self.table
            .shared
            .fetch_add::<RetireBlock>(&mut broom.seat, word, NEXT_PHASE);
        broom.blocks.reclaiming = Reclaiming::Nothing;
    }
}
