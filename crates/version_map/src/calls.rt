ghost use Rattle.std.specs.Prelude.{◌≡◌, ◌≢◌, ◌⊎◌, ◌<◌, ◌≤◌, ◌+◌, ◌/◌, ℕ, [], ◌∷◌, IfOk, IfSome, IfNone, MatchResult, MatchBool};
ghost use Rattle.version_map.specs.History.{version_after, cleared_after, Continues};
ghost use Rattle.version_map.specs.Map.{map_sectors, map_pages, numbers_below, history_seen, looks_made, history_published, IsReaderOf, IsPublisherOf};

use crate::map::VersionMap;
use crate::plays::{Change, Hear, Look, Move, NewReader};
use crate::reader::{Publisher, Reader};
use crate::shape::MapShape;
use atomic_table::Table;
use std::alloc::{AllocError, Global};

/// A version's number, and a page that has it.
#[derive(Clone, Copy, Debug, PartialEq, Eq)]
pub struct Place {
    pub number: u64,
    pub page: u64,
}

/// A word has no room for so great a number.
#[derive(Clone, Copy, Debug, PartialEq, Eq)]
pub struct NoNumber;

impl VersionMap {
    /// The map of a device whose sectors are empty, and the right to change it. It takes 8 bytes for each sector.
    pub fn new(alloc: Global, shape: MapShape) -> Result<(VersionMap, Publisher), AllocError>
        requires sectors { 0 < shape.sectors }
        requires pages { 0 < shape.pages }
        ensures sectors { IfOk result (λ made. map_sectors made.0 ≡ shape.sectors) }
        ensures pages { IfOk result (λ made. map_pages made.0 ≡ shape.pages) }
        ensures publisher { IfOk result (λ made. IsPublisherOf made.0 made.1) }
        ensures none { IfOk result (λ made. history_published made.1 ≡ []) }
    {
        let mut words = Vec::with_capacity(alloc, shape.sectors as usize)?;
        words.resize(shape.sectors as usize, 0u64)?;
        let (table, seat) = Table::of_words(alloc, &words, &shape)?;
        Ok((VersionMap { table, shape }, Publisher { seat }))
    }

    /// How many sectors it has.
    pub fn sectors(&self) -> u32
        ensures { result ≡ map_sectors self.now }
    {
        self.shape.sectors
    }

    /// Each number that it can hold is below this.
    pub fn numbers(&self) -> u64
        ensures { result ≡ numbers_below self.now }
    {
        u64::MAX / self.shape.pages
    }

    /// A reader that has seen all that was published.
    pub fn reader(&self, publisher: &mut Publisher) -> Reader
        requires publisher { IsPublisherOf self.now publisher.old }
        ensures reader { IsReaderOf self.now result }
        ensures seen { history_seen result ≡ history_published publisher.old }
        ensures looks { looks_made result ≡ 0 }
        ensures publisher { IsPublisherOf self.now publisher.new }
        ensures same { history_published publisher.new ≡ history_published publisher.old }
    {
        let seat = self
            .table
            .shared
            .split_seat::<NewReader>(&mut publisher.seat);
        Reader { seat }
    }

    /// Another reader, which has seen as much.
    pub fn another(&self, reader: &mut Reader) -> Reader
        requires reader { IsReaderOf self.now reader.old }
        ensures reader { IsReaderOf self.now reader.new }
        ensures another { IsReaderOf self.now result }
        ensures seen { history_seen result ≡ history_seen reader.old }
        ensures looks { looks_made result ≡ 0 }
        ensures same { history_seen reader.new ≡ history_seen reader.old }
        ensures same_looks { looks_made reader.new ≡ looks_made reader.old }
    {
        let seat = self.table.shared.split_seat::<NewReader>(&mut reader.seat);
        Reader { seat }
    }

    /// The reader has seen all that another one has, and perhaps more. The other is used up: `another` makes one to be given away.
    pub fn hear(&self, reader: &mut Reader, other: Reader)
        requires reader { IsReaderOf self.now reader.old }
        requires other { IsReaderOf self.now other }
        ensures reader { IsReaderOf self.now reader.new }
        ensures later { Continues (history_seen reader.new) (history_seen reader.old) }
        ensures heard { Continues (history_seen reader.new) (history_seen other) }
        ensures looks { looks_made reader.new ≡ looks_made reader.old + 1 }
    {
        let Reader { seat } = other;
        self.table.shared.join_seat::<Hear>(&mut reader.seat, seat);
        self.table.shared.load::<Look>(&mut reader.seat, 0);
    }

    /// What a reader has seen is a beginning of what was published.
    pub fn check_reader(&self, publisher: &mut Publisher, other: Reader)
        requires publisher { IsPublisherOf self.now publisher.old }
        requires other { IsReaderOf self.now other }
        ensures part { Continues (history_published publisher.old) (history_seen other) }
        ensures publisher { IsPublisherOf self.now publisher.new }
        ensures same { history_published publisher.new ≡ history_published publisher.old }
    {
        let Reader { seat } = other;
        self.table
            .shared
            .join_seat::<Hear>(&mut publisher.seat, seat);
        self.table.shared.load::<Look>(&mut publisher.seat, 0);
    }

    /// Which version is the sector's at this moment, and a page that has it. None if the sector is empty.
    pub fn look(&self, reader: &mut Reader, sector: u32) -> Option<Place>
        requires reader { IsReaderOf self.now reader.old }
        requires sector { sector < map_sectors self.now }
        ensures later { Continues (history_seen reader.new) (history_seen reader.old) }
        ensures version { IfSome result
            (λ place. version_after (history_seen reader.new) sector ≡ place.number) }
        ensures some { IfSome result (λ place. 0 < place.number) }
        ensures empty { IfNone result (version_after (history_seen reader.new) sector ≡ 0) }
        ensures looks { looks_made reader.new ≡ looks_made reader.old + 1 }
        ensures reader { IsReaderOf self.now reader.new }
    {
        let word = self
            .table
            .shared
            .load::<Look>(&mut reader.seat, sector as usize);
        let number = word / self.shape.pages;
        if number == 0 {
            return None;
        }
        let page = word % self.shape.pages;
        Some(Place { number, page })
    }

    /// Makes the version the sector's. From this step on each look finds it, or a later one.
    pub fn publish(
        &self,
        publisher: &mut Publisher,
        sector: u32,
        place: Place,
    ) -> Result<(), NoNumber>
        requires publisher { IsPublisherOf self.now publisher.old }
        requires sector { sector < map_sectors self.now }
        requires page { place.page < map_pages self.now }
        ensures published { MatchResult result
            (λ _. history_published publisher.new ≡ (sector, place.number) ∷ history_published publisher.old)
            (λ _. history_published publisher.new ≡ history_published publisher.old) }
        ensures fits { MatchResult result (λ _. place.number < numbers_below self.now)
            (λ _. numbers_below self.now ≤ place.number) }
        ensures publisher { IsPublisherOf self.now publisher.new }
    {
        let word = self.word_of(place)?;
        self.table
            .shared
            .store::<Change>(&mut publisher.seat, sector as usize, word);
        Ok(())
    }

    /// Makes so many sectors in a row empty, from the first one on. To a reader each is a change of its own.
    pub fn clear(&self, publisher: &mut Publisher, first: u32, count: u32)
        requires publisher { IsPublisherOf self.now publisher.old }
        requires sectors { first + count ≤ map_sectors self.now }
        ensures cleared { history_published publisher.new
            ≡ cleared_after (history_published publisher.old) first count }
        ensures publisher { IsPublisherOf self.now publisher.new }
    {
        for i in 0..count {
            self.table
                .shared
                .store::<Change>(&mut publisher.seat, first as usize + i as usize, 0);
        }
    }

    /// Tells to which page a version was copied, if it is the sector's still. Returns whether it is; else nothing changes.
    pub fn follow(&self, publisher: &mut Publisher, sector: u32, place: Place) -> bool
        requires publisher { IsPublisherOf self.now publisher.old }
        requires sector { sector < map_sectors self.now }
        requires page { place.page < map_pages self.now }
        ensures published { history_published publisher.new ≡ history_published publisher.old }
        ensures followed { MatchBool result
            (version_after (history_published publisher.old) sector ≡ place.number)
            ((version_after (history_published publisher.old) sector ≢ place.number)
            ⊎ (numbers_below self.now ≤ place.number)) }
        ensures publisher { IsPublisherOf self.now publisher.new }
    {
        let found = self
            .table
            .shared
            .load::<Look>(&mut publisher.seat, sector as usize);
        if found / self.shape.pages != place.number {
            return false;
        }
        let Ok(word) = self.word_of(place) else {
            return false;
        };
        self.table
            .shared
            .store::<Move>(&mut publisher.seat, sector as usize, word);
        true
    }

    // The word that names a place, if its number fits.
    fn word_of(&self, place: Place) -> Result<u64, NoNumber>
        requires page { place.page < map_pages self.now }
        ensures word { MatchResult result (λ word. word / map_pages self.now ≡ place.number)
            (λ _. numbers_below self.now ≤ place.number) }
        ensures fits { IfOk result (λ _. place.number < numbers_below self.now) }
    {
        if place.number >= self.numbers() {
            return Err(NoNumber);
        }
        Ok(place.number * self.shape.pages + place.page)
    }
}
