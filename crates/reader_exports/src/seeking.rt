//! The searches of a reader.
ghost use Rattle.std.specs.Prelude.{◌≡◌, ◌≢◌, ◌<◌, ◌+◌, None, IfSome, true};
ghost use Rattle.shared_nand.specs.Search.{is_sought};
ghost use Rattle.std.specs.Arc.{arc_value};
ghost use Rattle.version_map.specs.History.{version_after};
ghost use Rattle.version_map.specs.Map.{map_sectors, history_seen, looks_made};
ghost use Rattle.reader_exports.specs.declared.codes.TheConstants.{NO_SECTOR, OUT_OF_ORDER, UNREADABLE, WRITTEN};
ghost use Rattle.reader_exports.specs.Seekers.{step_code, search_code, answer_code, AnswersValue, LooksOnce, ReportsPage, fits_number};

use crate::codes::{DONE, NO_SECTOR, OUT_OF_ORDER, READ_PAGE, UNREADABLE, UNSETTLED, WRITTEN};
use crate::seeker::Seeker;
use shared_nand::{Search, Step};

impl Seeker {
    /// Begins a search of a sector by so many looks.
    pub(crate) fn search(&mut self, sector: u32, looks: u32, page: &mut u64) -> u32
        ensures code { result ≡ search_code sector result self.old }
        ensures looked { result ≢ NO_SECTOR → LooksOnce result sector looks self.old self.new }
        ensures first { result ≢ UNREADABLE }
        ensures reports { ReportsPage result page.old self.new page.new }
        ensures map { self.new.map ≡ self.old.map }
        ensures same { result ≡ NO_SECTOR → self.new ≡ self.old }
    {
        if sector >= self.map.sectors() {
            return NO_SECTOR;
        }
        self.search = Search::new(sector, looks);
        self.look(page)
    }

    /// Takes what was read of the page that was reported last: no version, or the one with this number.
    pub(crate) fn answer(&mut self, has_version: bool, number: u64, page: &mut u64) -> u32
        ensures code { result ≡ answer_code has_version number result self.old.search.found }
        ensures answers { AnswersValue result number self.new }
        ensures looked { result ≢ OUT_OF_ORDER → result ≢ WRITTEN
            → LooksOnce result self.old.search.sector self.old.search.looks self.old self.new }
        ensures found { result ≡ WRITTEN → (history_seen self.new.reader ≡ history_seen self.old.reader)
            × (self.new.search.sector ≡ self.old.search.sector) × (self.new.search.found ≡ None)
            × (looks_made self.new.reader ≡ looks_made self.old.reader) }
        ensures lost { result ≡ UNREADABLE → IfSome self.old.search.found (λ place.
            version_after (history_seen self.new.reader) self.old.search.sector ≡ place.number) }
        ensures reports { ReportsPage result page.old self.new page.new }
        ensures map { self.new.map ≡ self.old.map }
        ensures same { result ≡ OUT_OF_ORDER → self.new ≡ self.old }
    {
        if self.search.found.is_none() {
            return OUT_OF_ORDER;
        }
        if self.fits(has_version, number) {
            self.search.found = None;
            return WRITTEN;
        }
        self.look(page)
    }

    // The next look of a search.
    fn look(&mut self, page: &mut u64) -> u32
        requires { self.old.search.sector < map_sectors (arc_value self.old.map) }
        ensures code { result ≡ step_code result }
        ensures looked { LooksOnce result self.old.search.sector self.old.search.looks self.old self.new }
        ensures first { self.old.search.found ≡ None → result ≢ UNREADABLE }
        ensures lost { result ≡ UNREADABLE → IfSome self.old.search.found (λ place.
            version_after (history_seen self.new.reader) self.old.search.sector ≡ place.number) }
        ensures reports { ReportsPage result page.old self.new page.new }
        ensures map { self.new.map ≡ self.old.map }
    {
        match self.search.look(&self.map, &mut self.reader) {
            Step::Read(place) => {
                *page = place.page;
                READ_PAGE
            }
            Step::Empty => {
                self.search.found = None;
                DONE
            }
            Step::Lost => {
                self.search.found = None;
                UNREADABLE
            }
            Step::Unsettled => {
                self.search.found = None;
                UNSETTLED
            }
        }
    }

    // Whether the version with this number, if there is one, is the one that was found.
    fn fits(&self, has_version: bool, number: u64) -> bool
        ensures code { result ≡ fits_number has_version number self.now.search.found }
        ensures fits { result ≡ true → is_sought (number + 1) self.now.search.found ≡ true }
    {
        has_version && number < u64::MAX && self.search.fits(number + 1)
    }
}
