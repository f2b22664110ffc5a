//! The step by which a broom sees that a sector has no page in a block.
ghost use Rattle.std.specs.Prelude.{◌≡◌, ◌<◌, Some, Option};
ghost use Rattle.geometry.specs.Geometry.{sectors_of};
ghost use Rattle.geometry.specs.Words.{FitsMap};
ghost use Rattle.geometry.specs.declared.words.MapWord.{MapWord};
ghost use Rattle.flash_rule.specs.World.{sector_word};
ghost use Rattle.flash_rule.specs.BroomPlays.{CanInspect, is_page_of};
ghost use Rattle.flash_table.specs.Flash.{IsBroomOf, broom_view, own_blocks, geometry_of};
ghost use Rattle.flash_table.specs.Steps.{InspectTold};

use crate::broom_seat::BroomSeat;
use crate::flash::Flash;
use flash_rule::InspectSector;
use geometry::{MapWord, PinWord};

// Whether a map word names a page of this block in this generation.
fn is_page_in(word: u64, block: u32, generation: u32) -> bool
    ensures { (x : Option MapWord) → word ≡ sector_word x
        → ((m : MapWord) → x ≡ Some m → FitsMap m) → result ≡ is_page_of block generation x }
{
    match MapWord::unpack(word) {
        Some(page) => page.block == block && page.generation == generation,
        None => false,
    }
}

impl Flash {
    /// Looks at the next sector of the inspection of a block. Returns whether the sector has a page in the block's generation; if not, it is passed.
    pub fn inspect_sector(
        &self,
        broom: &mut BroomSeat,
        block: u32,
        state: PinWord,
        sector: u32,
    ) -> bool
        requires broom { IsBroomOf self.now broom.old }
        requires next { CanInspect (broom_view broom.old) block state sector }
        requires sector { sector < sectors_of (geometry_of self.now) }
        ensures inspected { InspectTold
            (broom_view broom.old) block state.generation sector result (broom_view broom.new) }
        ensures broom { IsBroomOf self.now broom.new }
        ensures blocks { own_blocks broom.new ≡ own_blocks broom.old }
    {
        let found = self
            .table
            .shared
            .load::<InspectSector>(&mut broom.seat, sector as usize);
        is_page_in(found, block, state.generation)
    }
}
