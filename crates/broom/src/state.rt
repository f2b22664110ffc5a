//! A broom loads the states of blocks, and keeps its last survey.
ghost use Rattle.std.specs.Prelude.{◌≡◌, ◌<◌, List};
ghost use Rattle.geometry.specs.Geometry.{blocks_of};
ghost use Rattle.flash_table.specs.Flash.{geometry_of, device};
ghost use Rattle.broom.specs.Ready.{IsReady, IsInRange};
ghost use Rattle.broom.specs.Handing.{HandsNothing};
ghost use Rattle.geometry.specs.declared.words.PinWord.{PinWord};
ghost use Rattle.broom.specs.Loading.{AllLoaded, StateLoaded, counts_in};

use crate::block_counts::BlockCounts;
use crate::broom::Broom;
use flash_table::Flash;
use geometry::PinWord;

/// Loads the state of a block. The broom's next drain by its last survey passes over the block only if its state has changed since.
pub fn load_state(flash: &Flash, broom: &mut Broom, block: u32) -> PinWord
    requires broom { IsReady flash.now broom.old }
    requires block { block < blocks_of (geometry_of flash.now) }
    ensures loaded { StateLoaded broom.old block result broom.new }
    ensures range { IsInRange (device flash.now) result }
    ensures ready { IsReady flash.now broom.new }
    ensures queue { HandsNothing broom.old broom.new }
{
    let state = flash.load_state(&mut broom.seat, block);
    let at = block as usize;
    if broom.closed[at] && broom.states[at].pack() != state.pack() {
        broom.closed[at] = false;
    }
    state
}

/// Loads the state of each block, in order, and counts the blocks by their phases. The broom keeps its last survey, as by a single load.
pub fn count_blocks(flash: &Flash, broom: &mut Broom) -> BlockCounts
    requires { IsReady flash.now broom.old }
    ensures all_loaded { (states : List PinWord)
        × AllLoaded (device flash.now) broom.old states broom.new × (result ≡ counts_in states) }
    ensures ready { IsReady flash.now broom.new }
    ensures queue { HandsNothing broom.old broom.new }
{
    let mut counts = BlockCounts::none();
    for block in 0..flash.geometry().blocks() {
        let state = load_state(flash, broom, block);
        counts.add(state);
    }
    counts
}
