//! The steps of a pass, one atomic operation each, except a take. A broom takes blocks in the same way.
ghost use Rattle.std.specs.Prelude.{◌≡◌, ℕ, ◌+◌, ◌<◌, List, [], ◌∷◌, ◌++◌, true, IfSome, IfNone, MatchOption, Some, None};
ghost use Rattle.geometry.specs.Geometry.{numbers_of, sectors_of, blocks_of};
ghost use Rattle.geometry.specs.Words.{page_index, FitsMap, FitsPin, pin_word};
ghost use Rattle.geometry.specs.History.{Write, WriteNew, Trim};
ghost use Rattle.geometry.specs.declared.words.PinWord.{PinWord};
ghost use Rattle.geometry.specs.declared.words.Phase.TheVariants as phase;
ghost use Rattle.flash_rule.specs.declared.facts.Work.{Work};
ghost use Rattle.flash_rule.specs.World.{sector_word};
ghost use Rattle.flash_rule.specs.Views.{is_player};
ghost use Rattle.flash_rule.specs.Plays.{Looked, CanPlace, CanCount, is_unpinned};
ghost use Rattle.flash_table.specs.Owning.{owned_of};
ghost use Rattle.flash_table.specs.GivingUp.{closed_pass};
ghost use Rattle.flash_table.specs.Flash.{IsPassOf, view_of, device, geometry_of, opened_of};
ghost use Rattle.flash_table.specs.Taking.{FoundTaken, TookFree};
ghost use Rattle.flash_table.specs.declared.pass.OpenBlock.{OpenBlock};
ghost use Rattle.flash_table.specs.Steps.{CanGiveUp, HasCalled, HasNumber, HasPut, IsFilled, IsNextWord, TakeTold, PlaceTold};

use crate::flash::Flash;
use crate::pass::{OpenBlock, Pass};
use atomic_table::Seat;
use flash_rule::{Close, Count, Look, PlaceNew, PlaceTrim, PlaceWrite, PutWord, Take, Test, View};
use geometry::{MapWord, NEXT_PHASE, PAGE_WRITTEN, Phase, PinWord, TAKEN, UNMAPPED, Was, pin_at};

// What a sector was, by the word that was found there.
fn was_by(found: u64) -> Was
    ensures empty { found ≡ UNMAPPED → result ≡ Was.Empty }
    ensures written { ¬ (found ≡ UNMAPPED) → result ≡ Was.Written }
{
    if found == UNMAPPED {
        Was::Empty
    } else {
        Was::Written
    }
}

// The generation of a block that the word says is free.
fn generation_if_free(word: u64) -> Option<u32>
    ensures some { IfSome result
        (λ n. (state : PinWord) × FitsPin state × (pin_word state ≡ word)
        × (state.phase ≡ phase.Free) × (state.generation ≡ n)) }
    ensures none { IfNone result ((state : PinWord) → FitsPin state
        → pin_word state ≡ word → ¬ (state.phase ≡ phase.Free)) }
{
    let state = PinWord::unpack(word)?;
    if state.phase == Phase::Free {
        Some(state.generation)
    } else {
        None
    }
}

impl Flash {
    /// The page that a sector's map word names, or `None` for an empty sector.
    pub fn look(&self, pass: &mut Pass, sector: u32) -> Option<MapWord>
        requires pass { IsPassOf self.now pass.old }
        requires unpinned { is_unpinned (view_of pass.old).pin ≡ true }
        requires sector { sector < sectors_of (geometry_of self.now) }
        ensures looked { Looked (view_of pass.old) sector (sector_word result) (view_of pass.new) }
        ensures fits { IfSome result FitsMap }
        ensures pass { IsPassOf self.now pass.new }
        ensures opened { opened_of pass.new ≡ opened_of pass.old }
    {
        let found = self
            .table
            .shared
            .load::<Look>(&mut pass.seat, sector as usize);
        MapWord::unpack(found)
    }

    /// Makes a page that the pass has filled and counted the sector's page. Returns what the sector was.
    pub fn place_write(&self, pass: &mut Pass, sector: u32, page: MapWord) -> Was
        requires pass { IsPassOf self.now pass.old }
        requires sector { sector < sectors_of (geometry_of self.now) }
        requires page { FitsMap page }
        requires counted { (value : List ℕ) × CanPlace (view_of pass.old) sector page value }
        ensures placed { PlaceTold
            (λ t value. Write t sector value) pass.old sector page result pass.new }
        ensures pass { IsPassOf self.now pass.new }
        ensures opened { opened_of pass.new ≡ opened_of pass.old }
    {
        let word = page.pack();
        let found = self
            .table
            .shared
            .swap::<PlaceWrite>(&mut pass.seat, sector as usize, word);
        was_by(found)
    }

    /// Makes a page that the pass has filled and counted the sector's page if the sector is empty. Returns what the sector was.
    pub fn place_new(&self, pass: &mut Pass, sector: u32, page: MapWord) -> Was
        requires pass { IsPassOf self.now pass.old }
        requires sector { sector < sectors_of (geometry_of self.now) }
        requires page { FitsMap page }
        requires counted { (value : List ℕ) × CanPlace (view_of pass.old) sector page value }
        ensures placed { PlaceTold
            (λ t value. WriteNew t sector value) pass.old sector page result pass.new }
        ensures pass { IsPassOf self.now pass.new }
        ensures opened { opened_of pass.new ≡ opened_of pass.old }
    {
        let new = page.pack();
        let found = self
            .table
            .shared
            .compare_exchange::<PlaceNew>(&mut pass.seat, sector as usize, UNMAPPED, new);
        was_by(found)
    }

    /// Empties the sector. Returns what it was.
    pub fn place_trim(&self, pass: &mut Pass, sector: u32) -> Was
        requires pass { IsPassOf self.now pass.old }
        requires sector { sector < sectors_of (geometry_of self.now) }
        ensures called { (t : ℕ) → HasNumber t pass.old
            → HasCalled pass.old (Trim t sector) sector result pass.new }
        ensures pass { IsPassOf self.now pass.new }
        ensures opened { opened_of pass.new ≡ opened_of pass.old }
    {
        let found = self
            .table
            .shared
            .swap::<PlaceTrim>(&mut pass.seat, sector as usize, UNMAPPED);
        was_by(found)
    }

    // Takes a block for a pass or a broom if it is free, and returns its generation. It loads the block's word first: an exchange would cost far
    // more, and most blocks that are tried are taken.
    pub(crate) fn take_free(&self, seat: &mut Seat<(), View>, block: u32) -> Option<u32>
        requires table { seat.old.table_id ≡ self.now.table.shared.table_id }
        requires player { is_player seat.old.me.0.role ≡ true }
        requires numbers { seat.old.me.0.numbers ≡ device self.now }
        requires block { block < blocks_of (geometry_of self.now) }
        ensures taken { MatchOption result (FoundTaken seat.old.me.0 block seat.new.me.0)
            (λ generation. TookFree seat.old.me.0 block generation seat.new.me.0) }
        ensures bare { seat.new.me.1 ≡ seat.old.me.1 }
        ensures table { seat.new.table_id ≡ seat.old.table_id }
    {
        let word = pin_at(&self.geometry, block);
        let seen = self.table.shared.load::<Test>(seat, word);
        generation_if_free(seen)?;
        let found = self.table.shared.fetch_or::<Take>(seat, word, TAKEN);
        generation_if_free(found)
    }

    /// Takes a block if it is free. Returns whether it did. A load that finds the block taken is all that this does.
    pub fn take(&self, pass: &mut Pass, block: u32) -> bool
        requires pass { IsPassOf self.now pass.old }
        requires nothing_open { opened_of pass.old ≡ None }
        requires block { block < blocks_of (geometry_of self.now) }
        ensures taken { TakeTold (view_of pass.old) block result
            (view_of pass.new) (opened_of pass.new) }
        ensures pass { IsPassOf self.now pass.new }
    {
        let Some(generation) = self.take_free(&mut pass.seat, block) else {
            return false;
        };
        pass.opened = Some(OpenBlock {
            block,
            generation,
            written: 0,
        });
        true
    }

    /// Stores word `i` of the open block's first page that isn't written, whose words begin at `start`. The stamp comes after the data words.
    pub fn put_word(&self, pass: &mut Pass, start: usize, i: u32, word: u64)
        requires pass { IsPassOf self.now pass.old }
        requires next { IsNextWord (geometry_of self.now)
            (view_of pass.old) (opened_of pass.old) i }
        requires start { (o : OpenBlock) → opened_of pass.old ≡ Some o
            → start ≡ page_index (numbers_of (geometry_of self.now)) o.block o.written }
        ensures put { HasPut (view_of pass.old) (opened_of pass.old) word (view_of pass.new) }
        ensures pass { IsPassOf self.now pass.new }
        ensures opened { opened_of pass.new ≡ opened_of pass.old }
    {
        let place = start + i as usize;
        self.table
            .shared
            .store::<PutWord>(&mut pass.seat, place, word);
    }

    /// Counts the page that was filled; from now on it is programmed.
    pub fn count(&self, pass: &mut Pass)
        requires pass { IsPassOf self.now pass.old }
        requires filled { IsFilled (geometry_of self.now) (view_of pass.old) (opened_of pass.old) }
        ensures counted { (o : OpenBlock) (x : Work) → opened_of pass.old ≡ Some o
            → CanCount (view_of pass.old) (owned_of o) x
            → view_of pass.new ≡ record (view_of pass.old)
            { programs = (view_of pass.old).programs ++ x.page ∷ []; owns = owned_of (record o { written = o.written + 1 }) ∷ [] } }
        ensures opened { (o : OpenBlock) → opened_of pass.old ≡ Some o
            → opened_of pass.new ≡ Some (record o { written = o.written + 1 }) }
        ensures pass { IsPassOf self.now pass.new }
    {
        let Some(opened) = pass.opened else {
            unreachable!()
        };
        let word = pin_at(&self.geometry, opened.block);
        self.table
            .shared
            .fetch_add::<Count>(&mut pass.seat, word, PAGE_WRITTEN);
        pass.opened = Some(OpenBlock {
            block: opened.block,
            generation: opened.generation,
            written: opened.written + 1,
        });
    }

    /// Gives up the open block, full or not.
    pub fn close(&self, pass: &mut Pass)
        requires pass { IsPassOf self.now pass.old }
        requires settled { CanGiveUp (geometry_of self.now)
            (view_of pass.old) (opened_of pass.old) }
        ensures closed { view_of pass.new ≡ closed_pass (view_of pass.old) (opened_of pass.old) }
        ensures opened { opened_of pass.new ≡ None }
        ensures pass { IsPassOf self.now pass.new }
    {
        let Some(opened) = pass.opened else {
            unreachable!()
        };
        let word = pin_at(&self.geometry, opened.block);
        self.table
            .shared
            .fetch_add::<Close>(&mut pass.seat, word, NEXT_PHASE);
        pass.opened = None;
    }
}
