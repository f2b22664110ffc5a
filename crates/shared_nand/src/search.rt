ghost use Rattle.std.specs.Prelude.{◌≡◌, ◌≢◌, ◌<◌, ◌+◌, Some, None};
ghost use Rattle.version_map.specs.History.{version_after, Continues};
ghost use Rattle.version_map.specs.Map.{map_sectors, history_seen, looks_made, IsReaderOf};
ghost use Rattle.shared_nand.specs.Search.{IfRead, is_sought, NamesVersion};
ghost use Rattle.shared_nand.specs.declared.search.Step.TheVariants.{Empty as empty, Lost as lost, Unsettled as unsettled};

use version_map::{Place, Reader, VersionMap};

/// What a search does next.
#[derive(Clone, Copy, Debug, PartialEq, Eq)]
pub enum Step {
    /// Its caller reads this page, and asks whether the version that was read fits.
    Read(Place),
    /// The sector is empty.
    Empty,
    /// Two looks in a row have named the same page, and what was read of it between them didn't fit.
    Lost,
    /// The looks are used up.
    Unsettled,
}

/// A read of a sector without its flash: the caller reads the pages that it names.
#[derive(Clone, Copy, Debug, PartialEq, Eq)]
pub struct Search {
    pub sector: u32,
    /// How many looks are left.
    pub looks: u32,
    /// What the last look has found.
    pub found: Option<Place>,
}

impl Search {
    /// A search that has not looked yet.
    pub fn new(sector: u32, looks: u32) -> Search
        ensures { result ≡ record { sector = sector; looks = looks; found = None } }
    {
        Search {
            sector,
            looks,
            found: None,
        }
    }

    /// Looks which version the sector has now.
    pub fn look(&mut self, map: &VersionMap, reader: &mut Reader) -> Step
        requires reader { IsReaderOf map.now reader.old }
        requires sector { self.old.sector < map_sectors map.now }
        ensures later { Continues (history_seen reader.new) (history_seen reader.old) }
        ensures read { IfRead result (λ place. (self.new.found ≡ Some place) × (self.old.found ≢ Some place)
            × NamesVersion place (history_seen reader.new) self.old.sector) }
        ensures empty { result ≡ empty → version_after (history_seen reader.new) self.old.sector ≡ 0 }
        ensures lost { result ≡ lost → (place : Place) × (self.old.found ≡ Some place)
            × NamesVersion place (history_seen reader.new) self.old.sector }
        ensures unsettled { result ≡ unsettled → (self.old.looks ≡ 0)
            × (looks_made reader.new ≡ looks_made reader.old) }
        ensures looks { result ≢ unsettled → (self.old.looks ≡ self.new.looks + 1)
            × (looks_made reader.new ≡ looks_made reader.old + 1) }
        ensures sector { self.new.sector ≡ self.old.sector }
        ensures reader { IsReaderOf map.now reader.new }
    {
        if self.looks == 0 {
            return Step::Unsettled;
        }
        self.looks -= 1;
        let Some(place) = map.look(reader, self.sector) else {
            return Step::Empty;
        };
        if self.found == Some(place) {
            return Step::Lost;
        }
        self.found = Some(place);
        Step::Read(place)
    }

    /// Whether the version with this number, which was read, is the one that the last look has found.
    pub fn fits(&self, number: u64) -> bool
        ensures { result ≡ is_sought number self.now.found }
    {
        match self.found {
            Some(place) => number == place.number,
            None => false,
        }
    }
}
