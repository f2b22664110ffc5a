//! The calls on a map by who may change it.
ghost use Rattle.std.specs.Prelude.{◌≡◌, ◌≢◌};
ghost use Rattle.std.specs.Arc.{arc_value};
ghost use Rattle.version_map.specs.Map.{history_published};
ghost use Rattle.reader_exports.specs.declared.codes.TheConstants.{DONE};
ghost use Rattle.reader_exports.specs.Handles.{seat_of};
ghost use Rattle.reader_exports.specs.Maps.{HasSeeker, IsNewReader, deal_code, publish_code, clear_code, follow_code, publishes, clears};

use crate::codes::{ALREADY_OPEN, DONE, NO_MEMORY, NO_NUMBER, NO_SECTOR, NO_SUCH_BLOCK, WRITTEN};
use crate::handle::Handle;
use crate::keeper::Keeper;
use crate::seat::Seat;
use crate::seeker::Seeker;
use shared_nand::Search;
use std::alloc::Global;
use version_map::Place;

impl Keeper {
    /// Puts a reader that has seen all that was published into a closed handle.
    pub(crate) fn deal(&mut self, alloc: Global, handle: &mut Handle) -> u32
        ensures code { result ≡ deal_code (seat_of handle.old) result }
        ensures dealt { result ≡ DONE → HasSeeker (seat_of handle.new)
            (IsNewReader (arc_value self.old.map) (history_published self.old.publisher)) }
        ensures same { result ≢ DONE → seat_of handle.new ≡ seat_of handle.old }
        ensures map { self.new.map ≡ self.old.map }
        ensures history { history_published self.new.publisher ≡ history_published self.old.publisher }
    {
        if handle.is_open() {
            return ALREADY_OPEN;
        }
        let Ok(map) = self.map.clone() else {
            return NO_MEMORY;
        };
        let reader = self.map.reader(&mut self.publisher);
        let search = Search::new(0, 0);
        let seeker = Seeker {
            map,
            reader,
            search,
        };
        if handle.typed().fill(alloc, Seat::Seeker(seeker)) {
            DONE
        } else {
            NO_MEMORY
        }
    }

    /// Makes the version with this number the sector's, on this page.
    pub(crate) fn publish(&mut self, sector: u32, number: u64, page: u64) -> u32
        ensures code { result ≡ publish_code sector number page self.old }
        ensures published { history_published self.new.publisher ≡ publishes result sector number self.old }
        ensures map { self.new.map ≡ self.old.map }
    {
        if sector >= self.map.sectors() {
            return NO_SECTOR;
        }
        if page >= self.pages {
            return NO_SUCH_BLOCK;
        }
        if number >= self.map.numbers() {
            return NO_NUMBER;
        }
        let place = Place {
            number: number + 1,
            page,
        };
        match self.map.publish(&mut self.publisher, sector, place) {
            Ok(()) => DONE,
            Err(_) => NO_NUMBER,
        }
    }

    /// Makes so many sectors empty, from the first one on.
    pub(crate) fn clear(&mut self, first: u32, count: u32) -> u32
        ensures code { result ≡ clear_code first count self.old }
        ensures cleared { history_published self.new.publisher ≡ clears result first count self.old }
        ensures map { self.new.map ≡ self.old.map }
    {
        let sectors = self.map.sectors();
        if first > sectors || count > sectors - first {
            return NO_SECTOR;
        }
        self.map.clear(&mut self.publisher, first, count);
        DONE
    }

    /// Tells to which page the version with this number was copied, if it is the sector's still.
    pub(crate) fn follow(&mut self, sector: u32, number: u64, page: u64) -> u32
        ensures code { result ≡ follow_code sector number page self.old }
        ensures history { history_published self.new.publisher ≡ history_published self.old.publisher }
        ensures map { self.new.map ≡ self.old.map }
    {
        if sector >= self.map.sectors() {
            return NO_SECTOR;
        }
        if page >= self.pages {
            return NO_SUCH_BLOCK;
        }
        if number >= self.map.numbers() || number + 1 >= self.map.numbers() {
            return NO_NUMBER;
        }
        let place = Place {
            number: number + 1,
            page,
        };
        if self.map.follow(&mut self.publisher, sector, place) {
            WRITTEN
        } else {
            DONE
        }
    }
}
