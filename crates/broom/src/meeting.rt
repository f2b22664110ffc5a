//! What a broom has done is tied to what another broom, or a pass that holds a page, has done and seen.
ghost use Rattle.std.specs.Prelude.{◌≡◌, ℕ, List};
ghost use Rattle.geometry.specs.declared.page_addr.PageAddr.{PageAddr};
ghost use Rattle.flash_table.specs.Flash.{IsPassOf, view_of, opened_of};
ghost use Rattle.broom.specs.Ready.{IsReady, view_of_broom, blocks_of_broom};
ghost use Rattle.broom.specs.Handing.{HandsNothing};
ghost use Rattle.broom.specs.Told.{KeepsSurvey};
ghost use Rattle.broom.specs.Meeting.{IsPinned, StoodTold, BroomsMet, page_in};

use crate::broom::Broom;
use flash_table::{Flash, Pass};
use geometry::{MapWord, PageAddr};

/// Each of two brooms learns what the other has done and seen: the first makes one look, and then the second makes one. It changes no answer.
pub fn meet_brooms(flash: &Flash, first: &mut Broom, second: &mut Broom)
    requires first { IsReady flash.now first.old }
    requires second { IsReady flash.now second.old }
    ensures met_brooms { BroomsMet (view_of_broom first.old) (view_of_broom second.old)
        (view_of_broom first.new) (view_of_broom second.new) }
    ensures first { IsReady flash.now first.new }
    ensures second { IsReady flash.now second.new }
    ensures first_blocks { blocks_of_broom first.new ≡ blocks_of_broom first.old }
    ensures second_blocks { blocks_of_broom second.new ≡ blocks_of_broom second.old }
    ensures first_queue { HandsNothing first.old first.new }
    ensures first_survey { KeepsSurvey first.old first.new }
    ensures second_queue { HandsNothing second.old second.new }
    ensures second_survey { KeepsSurvey second.old second.new }
{
    let note = flash.broom_lend(&mut second.seat);
    flash.broom_take_in(&mut first.seat, note);
    flash.broom_look(&mut first.seat, 0);
    let note = flash.broom_give_back(&mut first.seat);
    flash.broom_come_home(&mut second.seat, note);
    flash.broom_look(&mut second.seat, 0);
}

/// A pass with a pinned page learns what a broom has done, and the broom what the pass has seen: the pass loads one word of the page, and then the
/// broom makes one look. It changes no answer.
pub fn stand(flash: &Flash, pass: &mut Pass, page: PageAddr, generation: u32, broom: &mut Broom)
    requires pass { (value : List ℕ) × IsPinned flash.now pass.old (page_in page generation) value }
    requires broom { IsReady flash.now broom.old }
    ensures stood { StoodTold (view_of pass.old) (view_of_broom broom.old)
        (page_in page generation) (view_of pass.new) (view_of_broom broom.new) }
    ensures pass { IsPassOf flash.now pass.new }
    ensures opened { opened_of pass.new ≡ opened_of pass.old }
    ensures broom { IsReady flash.now broom.new }
    ensures blocks { blocks_of_broom broom.new ≡ blocks_of_broom broom.old }
    ensures queue { HandsNothing broom.old broom.new }
    ensures survey { KeepsSurvey broom.old broom.new }
{
    let page = MapWord {
        generation,
        block: page.block,
        page: page.page,
    };
    let note = flash.broom_lend(&mut broom.seat);
    flash.take_in(pass, note);
    let start = flash.page_start(page);
    flash.get_word(pass, page, start, 0);
    let note = flash.give_back(pass);
    flash.broom_come_home(&mut broom.seat, note);
    flash.broom_look(&mut broom.seat, 0);
}
