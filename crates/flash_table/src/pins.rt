//! The steps by which a pass reads: it pins a block, reads the page and takes the pin off.
ghost use Rattle.std.specs.Prelude.{◌≡◌, ℕ, ◌<◌, List, MatchBool, Some};
ghost use Rattle.geometry.specs.Geometry.{numbers_of, blocks_of, pages_of, words_of};
ghost use Rattle.geometry.specs.Words.{page_index};
ghost use Rattle.geometry.specs.declared.words.PinWord.{PinWord};
ghost use Rattle.flash_rule.specs.declared.facts.Pin.TheVariants as pin;
ghost use Rattle.flash_rule.specs.World.{data_word, is_intact};
ghost use Rattle.flash_rule.specs.Plays.{IsOn};
ghost use Rattle.flash_table.specs.Flash.{IsPassOf, view_of, geometry_of, opened_of};
ghost use Rattle.flash_table.specs.Steps.{DeniesIntact, IsSpared, PinTold, SaysIntact};

use crate::flash::Flash;
use crate::pass::Pass;
use flash_rule::{AddReader, GetWord, RemoveReader};
use geometry::{MapWord, Phase, PinWord, READER, pin_at};

// Whether the written pages of a block can be read.
fn is_readable(phase: Phase) -> bool
    ensures { result ≡ is_intact phase }
{
    match phase {
        Phase::Open | Phase::Closed | Phase::Victim | Phase::Drained => true,
        Phase::Free | Phase::Erasing | Phase::Retired => false,
    }
}

// Whether the word says that its block is intact in this generation.
fn finds_intact(word: u64, generation: u32) -> bool
    ensures { MatchBool result (SaysIntact word generation) (DeniesIntact word generation) }
{
    let Some(state) = PinWord::unpack(word) else {
        return false;
    };
    state.generation == generation && is_readable(state.phase)
}

impl Flash {
    /// Pins the block of the page that a look has named. Returns false if the block was erased since the look, is being erased, or is retired.
    pub fn pin(&self, pass: &mut Pass, page: MapWord) -> bool
        requires pass { IsPassOf self.now pass.old }
        requires candidate { (value : List ℕ)
            × ((view_of pass.old).pin ≡ pin.Candidate page value) }
        requires block { page.block < blocks_of (geometry_of self.now) }
        ensures pinned { PinTold (view_of pass.old) page result (view_of pass.new) }
        ensures pass { IsPassOf self.now pass.new }
        ensures opened { opened_of pass.new ≡ opened_of pass.old }
    {
        let word = pin_at(&self.geometry, page.block);
        let found = self
            .table
            .shared
            .fetch_add::<AddReader>(&mut pass.seat, word, READER);
        finds_intact(found, page.generation)
    }

    /// Removes the pin from its block.
    pub fn unpin(&self, pass: &mut Pass, block: u32)
        requires pass { IsPassOf self.now pass.old }
        requires pinned { IsOn (view_of pass.old).pin block }
        requires block { block < blocks_of (geometry_of self.now) }
        ensures clear { view_of pass.new ≡ record (view_of pass.old) { pin = pin.Clear } }
        ensures pass { IsPassOf self.now pass.new }
        ensures opened { opened_of pass.new ≡ opened_of pass.old }
    {
        let word = pin_at(&self.geometry, block);
        self.table
            .shared
            .fetch_sub::<RemoveReader>(&mut pass.seat, word, READER);
    }

    /// Word `i` of the page that is pinned, whose words begin at `start`.
    pub fn get_word(&self, pass: &mut Pass, page: MapWord, start: usize, i: u32) -> u64
        requires pass { IsPassOf self.now pass.old }
        requires pinned { (value : List ℕ) × ((view_of pass.old).pin ≡ pin.Accepted page value) }
        requires block { page.block < blocks_of (geometry_of self.now) }
        requires page { page.page < pages_of (geometry_of self.now) }
        requires start { start
            ≡ page_index (numbers_of (geometry_of self.now)) page.block page.page }
        requires word { i < words_of (geometry_of self.now) }
        ensures value { (value : List ℕ) → (view_of pass.old).pin ≡ pin.Accepted page value
            → result ≡ data_word value i }
        ensures spared { IsSpared (view_of pass.old) page }
        ensures same { view_of pass.new ≡ view_of pass.old }
        ensures pass { IsPassOf self.now pass.new }
        ensures opened { opened_of pass.new ≡ opened_of pass.old }
    {
        let place = start + i as usize;
        self.table.shared.load::<GetWord>(&mut pass.seat, place)
    }
}
