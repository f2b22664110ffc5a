//! What the steps of a broom record for it.
ghost use Rattle.flash_rule.specs.BroomPlays.{broom_look_told, stamp_told, source_told, move_told, inspect_told, wipe_told};
ghost use Rattle.flash_rule.specs.BroomPlays.{state_told, claim_told, condemn_told, drain_told, freed_told, kept_told, retired_told};

use crate::view::View;
use atomic_table::Play;

/// A broom loads a map word.
pub struct BroomLook;

impl Play<(), View> for BroomLook {
    ghost then = { broom_look_told };
}

/// A broom loads the stamp of its victim's next page.
pub struct GetStamp;

impl Play<(), View> for GetStamp {
    ghost then = { stamp_told };
}

/// A broom loads a word of the page that it relocates.
pub struct GetSource;

impl Play<(), View> for GetSource {
    ghost then = { source_told };
}

/// A broom exchanges the map word of the page that it relocates for that of the copy.
pub struct MoveTo;

impl Play<(), View> for MoveTo {
    ghost then = { move_told };
}

/// A broom loads a map word to see whether it names a page of the block that it inspects.
pub struct InspectSector;

impl Play<(), View> for InspectSector {
    ghost then = { inspect_told };
}

/// A broom stores all ones in the next word of the block that it erases.
pub struct Wipe;

impl Play<(), View> for Wipe {
    ghost then = { wipe_told };
}

/// A broom loads a pin word.
pub struct LoadState;

impl Play<(), View> for LoadState {
    ghost then = { state_told };
}

/// A broom exchanges a closed block's pin word for that of its victim.
pub struct Claim;

impl Play<(), View> for Claim {
    ghost then = { claim_told };
}

/// A broom exchanges the pin word of a drained block without readers for that of a block that it erases.
pub struct Condemn;

impl Play<(), View> for Condemn {
    ghost then = { condemn_told };
}

/// The owner of a cleared victim moves it to the next phase.
pub struct Drain;

impl Play<(), View> for Drain {
    ghost then = { drain_told };
}

/// The owner of a wiped block makes it free in its next generation.
pub struct FreeBlock;

impl Play<(), View> for FreeBlock {
    ghost then = { freed_told };
}

/// The owner of a wiped block keeps it, open in its next generation.
pub struct KeepBlock;

impl Play<(), View> for KeepBlock {
    ghost then = { kept_told };
}

/// The owner of an erased block moves it to the last phase.
pub struct RetireBlock;

impl Play<(), View> for RetireBlock {
    ghost then = { retired_told };
}
