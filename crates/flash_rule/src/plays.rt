//! What each kind of step records for the seat that makes it.
ghost use Rattle.flash_rule.specs.Seats.{dealt_pass, new_pass, dealt_broom, new_broom, lender, lent_note, host_of, giver, given_note, home, gone};
ghost use Rattle.flash_rule.specs.Plays.{look_told, write_told, new_told, trim_told, test_told, take_told, put_told};
ghost use Rattle.flash_rule.specs.Plays.{get_told, count_told, close_told, pin_told, unpin_told};

use crate::view::View;
use atomic_table::{Join, Play, Split};

/// A pass loads a map word.
pub struct Look;

impl Play<(), View> for Look {
    ghost then = { look_told };
}

/// A pass swaps a map word with that of a page that it has filled and counted.
pub struct PlaceWrite;

impl Play<(), View> for PlaceWrite {
    ghost then = { write_told };
}

/// A pass exchanges the map word of an empty sector for that of a page that it has filled and counted.
pub struct PlaceNew;

impl Play<(), View> for PlaceNew {
    ghost then = { new_told };
}

/// A pass swaps a map word with 0.
pub struct PlaceTrim;

impl Play<(), View> for PlaceTrim {
    ghost then = { trim_told };
}

/// A pass or a broom loads a pin word to see whether the block is free.
pub struct Test;

impl Play<(), View> for Test {
    ghost then = { test_told };
}

/// A pass or a broom sets the taking bit of a pin word.
pub struct Take;

impl Play<(), View> for Take {
    ghost then = { take_told };
}

/// The owner of an open block stores a word of its next page.
pub struct PutWord;

impl Play<(), View> for PutWord {
    ghost then = { put_told };
}

/// A pass loads a word of the page that it has pinned.
pub struct GetWord;

impl Play<(), View> for GetWord {
    ghost then = { get_told };
}

/// The owner of an open block adds one to its pages written.
pub struct Count;

impl Play<(), View> for Count {
    ghost then = { count_told };
}

/// The owner of an open block moves it to the next phase.
pub struct Close;

impl Play<(), View> for Close {
    ghost then = { close_told };
}

/// A pass adds a reader to its candidate's block.
pub struct AddReader;

impl Play<(), View> for AddReader {
    ghost then = { pin_told };
}

/// A pass removes its reader from a block.
pub struct RemoveReader;

impl Play<(), View> for RemoveReader {
    ghost then = { unpin_told };
}

/// The dealer deals the next pass.
pub struct DealPass;

impl Split<View> for DealPass {
    ghost left = { dealt_pass };

    ghost right = { new_pass };
}

/// The dealer deals the next broom, with its spare block.
pub struct DealBroom;

impl Split<View> for DealBroom {
    ghost left = { dealt_broom };

    ghost right = { new_broom };
}

/// A seat puts its badge and copies of its lists into a note.
pub struct Lend;

impl Split<View> for Lend {
    ghost left = { lender };

    ghost right = { lent_note };
}

/// A seat takes in the note of another seat.
pub struct TakeIn;

impl Join<View> for TakeIn {
    ghost both = { host_of };

    ghost spent = { gone };
}

/// A seat returns the other's badge with copies of its own lists.
pub struct GiveBack;

impl Split<View> for GiveBack {
    ghost left = { giver };

    ghost right = { given_note };
}

/// A seat takes its own badge back, with copies of the other's lists.
pub struct ComeHome;

impl Join<View> for ComeHome {
    ghost both = { home };

    ghost spent = { gone };
}
