//! The relocation: each page of the victim that is still live is copied to the destination, and its sector's map word is moved to the copy.
ghost use Rattle.std.specs.Prelude.{◌≡◌, ℕ, ◌+◌, ◌<◌, ◌≤◌, List, MatchBool, None, Some};
ghost use Rattle.geometry.specs.Geometry.{pages_of};
ghost use Rattle.flash_table.specs.Flash.{IsBroomOf, broom_view, own_blocks, geometry_of};
ghost use Rattle.flash_table.specs.declared.flash.Flash.{Flash};
ghost use Rattle.flash_table.specs.declared.pass.OpenBlock.{OpenBlock};
ghost use Rattle.flash_table.specs.declared.broom_seat.ReclaimedBlock.{ReclaimedBlock};
ghost use Rattle.broom.specs.Relocating.{IsSweeping, Sweeps, Relocated, Opened, Tidied, room_left, ClearTold, CopyTold, FoundTold};
ghost use Rattle.broom.specs.Emptying.{victim_page, count_if, HasEmptied};
ghost use Rattle.flash_table.specs.Steps.{HasOneMore};

use flash_table::{BroomSeat, Flash, Gate, Point, Reclaiming};
use geometry::MapWord;

// Whether a look found this page.
fn found(named: Option<MapWord>, page: MapWord) -> bool
    ensures { MatchBool result (named ≡ Some page) (¬ (named ≡ Some page)) }
{
    named == Some(page)
}

// The sector whose page the victim's next page is, or none for a dead page.
fn live_sector(flash: &Flash, seat: &mut BroomSeat, page: MapWord) -> Option<u32>
    requires next { (x : ReclaimedBlock) × Sweeps flash.now seat.old x
        × ((page ≡ victim_page x page.page) × (page.page < x.written)) }
    requires cleared { page.page ≡ (broom_view seat.old).cleared }
    ensures found { FoundTold (broom_view seat.old) page result (broom_view seat.new) }
    ensures sweeps { (x : ReclaimedBlock)
        → Sweeps flash.now seat.old x → Sweeps flash.now seat.new x }
    ensures blocks { own_blocks seat.new ≡ own_blocks seat.old }
{
    let stamp = flash.get_stamp(seat, page.page);
    if stamp >= u64::from(flash.geometry().sectors()) {
        return None;
    }
    let sector = stamp as u32;
    let named = flash.broom_look(seat, sector);
    if found(named, page) {
        Some(sector)
    } else {
        None
    }
}

// Makes the spare the destination, if there is none.
fn open_destination(seat: &mut BroomSeat)
    ensures opened { Opened seat.old seat.new }
    ensures broom { (f : Flash) → IsBroomOf f seat.old → IsBroomOf f seat.new }
{
    if seat.blocks().destination.is_none() {
        seat.use_spare();
    }
}

// Copies the source to the next page of the destination, and counts the copy.
fn copy_page(flash: &Flash, seat: &mut BroomSeat, page: MapWord, sector: u32) -> MapWord
    requires sweeps { (x : ReclaimedBlock) × Sweeps flash.now seat.old x
        × ((page ≡ victim_page x page.page) × (page.page < x.written)) }
    requires destination { (o : OpenBlock) × ((own_blocks seat.old).destination ≡ Some o) }
    requires source { (value : List ℕ)
        × ((broom_view seat.old).source
        ≡ Some (record { page = page; stamp = sector; value = Some value })) }
    ensures copied { CopyTold (broom_view seat.old)
        (own_blocks seat.old).destination page sector result (broom_view seat.new) }
    ensures blocks { HasOneMore (own_blocks seat.old) (own_blocks seat.new) }
    ensures sweeps { (x : ReclaimedBlock) → Sweeps flash.now seat.old x
        → IsSweeping flash.now (pages_of (geometry_of flash.now) + 1) seat.new x }
{
    let Some(destination) = seat.blocks().destination else {
        unreachable!()
    };
    let copy = MapWord {
        generation: destination.generation,
        block: destination.block,
        page: destination.written,
    };
    let source = flash.page_start(page);
    let start = flash.page_start(copy);
    let words = flash.geometry().words();
    for i in 0..words {
        let word = flash.get_source_word(seat, page, source, i);
        flash.put_copy_word(seat, start, i, word);
    }
    flash.put_copy_word(seat, start, words, u64::from(sector));
    flash.count_copy(seat);
    copy
}

// Closes the destination if no page is left in it.
fn close_if_full(flash: &Flash, seat: &mut BroomSeat)
    requires sweeps { (x : ReclaimedBlock)
        × IsSweeping flash.now (pages_of (geometry_of flash.now) + 1) seat.old x }
    requires destination { (o : OpenBlock) × ((own_blocks seat.old).destination ≡ Some o) }
    ensures tidied { Tidied (pages_of (geometry_of flash.now)) (broom_view seat.old)
        (own_blocks seat.old) (broom_view seat.new) (own_blocks seat.new) }
    ensures sweeps { (x : ReclaimedBlock)
        → IsSweeping flash.now (pages_of (geometry_of flash.now) + 1) seat.old x
        → Sweeps flash.now seat.new x }
{
    let Some(destination) = seat.blocks().destination else {
        unreachable!()
    };
    if destination.written == flash.geometry().pages() {
        flash.close_destination(seat);
    }
}

// Clears the victim's next page, and says whether it was moved.
fn clear_page<G: Gate>(flash: &Flash, seat: &mut BroomSeat, page: MapWord, gate: &mut G) -> bool
    requires next { (x : ReclaimedBlock) × Sweeps flash.now seat.old x
        × ((page ≡ victim_page x page.page) × (page.page < x.written)) }
    requires cleared { page.page ≡ (broom_view seat.old).cleared }
    requires room { 0 < room_left (pages_of (geometry_of flash.now)) (own_blocks seat.old) }
    ensures page { ClearTold (pages_of (geometry_of flash.now)) seat.old page
        (count_if result) seat.new }
    ensures sweeps { (x : ReclaimedBlock)
        → Sweeps flash.now seat.old x → Sweeps flash.now seat.new x }
{
    let Some(sector) = live_sector(flash, seat, page) else {
        return false;
    };
    open_destination(seat);
    let copy = copy_page(flash, seat, page, sector);
    gate.at(Point::BeforeMove);
    let moved = flash.move_to(seat, sector, page, copy);
    close_if_full(flash, seat);
    moved
}

// Clears all pages of the victim, in order, and says how many were moved.
pub(crate) fn relocate<G: Gate>(flash: &Flash, seat: &mut BroomSeat, gate: &mut G) -> u32
    requires sweeps { (x : ReclaimedBlock) × Sweeps flash.now seat.old x
        × (x.written ≤ room_left (pages_of (geometry_of flash.now)) (own_blocks seat.old)) }
    requires cleared { (broom_view seat.old).cleared ≡ 0 }
    requires source { (broom_view seat.old).source ≡ None }
    ensures relocated { Relocated (broom_view seat.old) result (broom_view seat.new) }
    ensures emptied { (x : ReclaimedBlock) → Sweeps flash.now seat.old x
        → HasEmptied (pages_of (geometry_of flash.now)) x seat.old result seat.new }
    ensures cleared { (x : ReclaimedBlock) → Sweeps flash.now seat.old x
        → (broom_view seat.new).cleared ≡ x.written }
    ensures source { (broom_view seat.new).source ≡ None }
    ensures sweeps { (x : ReclaimedBlock)
        → Sweeps flash.now seat.old x → Sweeps flash.now seat.new x }
{
    let Reclaiming::Draining(victim) = seat.blocks().reclaiming else {
        unreachable!()
    };
    let mut copied = 0;
    for page in 0..victim.written {
        let page = MapWord {
            generation: victim.generation,
            block: victim.block,
            page,
        };
        if clear_page(flash, seat, page, gate) {
            copied += 1;
        }
    }
    copied
}
