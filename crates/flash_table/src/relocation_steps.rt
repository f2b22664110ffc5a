//! The steps by which a broom looks at sectors and copies live pages out of its victim, one atomic operation each.
ghost use Rattle.std.specs.Prelude.{◌≡◌, ℕ, ◌<◌, List, IfSome, Some};
ghost use Rattle.geometry.specs.Geometry.{numbers_of, blocks_of, pages_of, words_of, sectors_of};
ghost use Rattle.geometry.specs.Words.{page_index, FitsMap};
ghost use Rattle.flash_rule.specs.declared.facts.Source.{Source};
ghost use Rattle.flash_rule.specs.World.{sector_word, data_word};
ghost use Rattle.flash_rule.specs.BroomPlays.{Named, CanMove};
ghost use Rattle.flash_table.specs.Flash.{IsBroomOf, broom_view, own_blocks, geometry_of};
ghost use Rattle.flash_table.specs.Steps.{IsOfVictim, MoveTold, StampTold};

use crate::broom_seat::{BroomSeat, Reclaiming};
use crate::flash::Flash;
use flash_rule::{BroomLook, GetSource, GetStamp, MoveTo};
use geometry::{MapWord, PageAddr, page_word_at};

impl Flash {
    /// The page that a sector's map word names, or `None` for an empty sector.
    pub fn broom_look(&self, broom: &mut BroomSeat, sector: u32) -> Option<MapWord>
        requires broom { IsBroomOf self.now broom.old }
        requires sector { sector < sectors_of (geometry_of self.now) }
        ensures named { Named (broom_view broom.old) sector
            (sector_word result) (broom_view broom.new) }
        ensures fits { IfSome result FitsMap }
        ensures broom { IsBroomOf self.now broom.new }
        ensures blocks { own_blocks broom.new ≡ own_blocks broom.old }
    {
        let found = self
            .table
            .shared
            .load::<BroomLook>(&mut broom.seat, sector as usize);
        MapWord::unpack(found)
    }

    /// The stamp of the victim's first page that isn't known to be dead.
    pub fn get_stamp(&self, broom: &mut BroomSeat, page: u32) -> u64
        requires broom { IsBroomOf self.now broom.old }
        requires next { IsOfVictim (geometry_of self.now) (own_blocks broom.old) page }
        requires cleared { page ≡ (broom_view broom.old).cleared }
        requires page { page < pages_of (geometry_of self.now) }
        ensures stamp { StampTold (broom_view broom.old)
            (own_blocks broom.old) result (broom_view broom.new) }
        ensures broom { IsBroomOf self.now broom.new }
        ensures blocks { own_blocks broom.new ≡ own_blocks broom.old }
    {
        let Reclaiming::Draining(victim) = broom.blocks.reclaiming else {
            unreachable!()
        };
        let addr = PageAddr {
            block: victim.block,
            page,
        };
        let place = page_word_at(&self.geometry, addr, self.geometry.words());
        self.table.shared.load::<GetStamp>(&mut broom.seat, place)
    }

    /// Word `i` of the page that is copied, whose words begin at `start`.
    pub fn get_source_word(&self, broom: &mut BroomSeat, page: MapWord, start: usize, i: u32) -> u64
        requires broom { IsBroomOf self.now broom.old }
        requires source { (x : Source)
            × ((broom_view broom.old).source ≡ Some x) × (x.page ≡ page) }
        requires block { page.block < blocks_of (geometry_of self.now) }
        requires page { page.page < pages_of (geometry_of self.now) }
        requires start { start
            ≡ page_index (numbers_of (geometry_of self.now)) page.block page.page }
        requires word { i < words_of (geometry_of self.now) }
        ensures value { (x : Source) (value : List ℕ) → (broom_view broom.old).source ≡ Some x
            → x.value ≡ Some value → result ≡ data_word value i }
        ensures same { broom_view broom.new ≡ broom_view broom.old }
        ensures broom { IsBroomOf self.now broom.new }
        ensures blocks { own_blocks broom.new ≡ own_blocks broom.old }
    {
        let place = start + i as usize;
        self.table.shared.load::<GetSource>(&mut broom.seat, place)
    }

    /// Makes the copy the sector's page if its map word still names the page that was copied. Returns whether it did.
    pub fn move_to(&self, broom: &mut BroomSeat, sector: u32, from: MapWord, to: MapWord) -> bool
        requires broom { IsBroomOf self.now broom.old }
        requires sector { sector < sectors_of (geometry_of self.now) }
        requires fits { FitsMap from × FitsMap to }
        requires live { (x : Source) × CanMove (broom_view broom.old) x to
            × ((x.page ≡ from) × (x.stamp ≡ sector)) }
        ensures moved { MoveTold (broom_view broom.old) result (broom_view broom.new) }
        ensures broom { IsBroomOf self.now broom.new }
        ensures blocks { own_blocks broom.new ≡ own_blocks broom.old }
    {
        let old = from.pack();
        let new = to.pack();
        let found = self
            .table
            .shared
            .compare_exchange::<MoveTo>(&mut broom.seat, sector as usize, old, new);
        found == old
    }
}
