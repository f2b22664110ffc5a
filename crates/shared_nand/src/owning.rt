ghost use Rattle.std.specs.Prelude.{◌≡◌, ◌<◌, ◌≤◌, ◌+◌, ◌⊎◌, ℕ, List, [], length, Some, Err, OnOk, OnErr, MatchResult};
ghost use Rattle.geometry.specs.Sectors.{Sector};
ghost use Rattle.version_map.specs.History.{version_after, cleared_after, Continues};
ghost use Rattle.version_map.specs.Map.{map_sectors, map_pages, numbers_below, history_seen, history_published, IsReaderOf, IsPublisherOf};
ghost use Rattle.shared_nand.specs.Reads.{ReadsVersion, ReadsValue};
ghost use Rattle.shared_nand.specs.Shown.{sector_shown, ShowsArray, with_value, with_trimmed, HasPublished, KeepsBytes};
ghost use Rattle.shared_nand.specs.declared.owning.OwnerFailure.TheVariants.{Failed as failed, NoNumber as no_number};

use crate::layer::Layer;
use crate::owner::Owner;
use version_map::{Publisher, Reader, VersionMap};

/// Why a write was not done, as far as any reader of the open device will see.
#[derive(Clone, Copy, Debug, PartialEq, Eq)]
pub enum OwnerFailure<F> {
    /// The layer has failed.
    Failed(F),
    /// The map's words have no room for a number as great as the version's. The flash has the write, as it may have one that failed, and no reader sees it.
    NoNumber,
}

impl<L: Layer> Owner<L> {
    /// The owner of a device, of which the map has nothing yet. `load` comes next.
    pub fn new(layer: L, publisher: Publisher) -> Owner<L>
        requires { history_published publisher ≡ [] }
        ensures layer { result.layer ≡ layer }
        ensures publisher { result.publisher ≡ publisher }
    {
        Owner { layer, publisher }
    }

    /// Publishes the version of each sector of a layer that was opened, so that readers see its array from then on.
    pub fn load(&mut self, map: &VersionMap) -> Result<(), OwnerFailure<L::Failure>>
        requires publisher { IsPublisherOf map.now self.old.publisher }
        requires none { history_published self.old.publisher ≡ [] }
        requires pages { L.pages self.old.layer ≤ map_pages map.now }
        ensures shows { (array : ℕ → Sector) → L.holds self.old.layer array
            → OnOk result (ShowsArray (map_sectors map.now) (L.bytes_of self.new.layer)
            (history_published self.new.publisher) array) }
        ensures holds { (array : ℕ → Sector) → L.holds self.old.layer array → L.holds self.new.layer array }
        ensures bytes { L.bytes_of self.new.layer ≡ L.bytes_of self.old.layer }
        ensures next { L.next_number self.new.layer ≡ L.next_number self.old.layer }
        ensures numbers { result ≡ Err no_number
            → numbers_below map.now < L.next_number self.new.layer }
        ensures pages { L.pages self.new.layer ≡ L.pages self.old.layer }
        ensures page_bytes { L.page_bytes self.new.layer ≡ L.page_bytes self.old.layer }
        ensures tells { (token : L.Token) (n : ℕ) (bytes : List ℕ)
            → L.tells self.old.layer token n bytes → L.tells self.new.layer token n bytes }
        ensures publisher { IsPublisherOf map.now self.new.publisher }
    {
        for sector in 0..map.sectors() {
            match self.layer.locate(sector) {
                Ok(Some(place)) => {
                    let Ok(()) = map.publish(&mut self.publisher, sector, place) else {
                        return Err(OwnerFailure::NoNumber);
                    };
                }
                Ok(None) => {}
                Err(cause) => return Err(OwnerFailure::Failed(cause)),
            }
        }
        Ok(())
    }

    /// Writes a sector. Its page is programmed before the map names it.
    pub fn write(
        &mut self,
        map: &VersionMap,
        sector: u32,
        bytes: &[u8],
    ) -> Result<(), OwnerFailure<L::Failure>>
        requires publisher { IsPublisherOf map.now self.old.publisher }
        requires sector { sector < map_sectors map.now }
        requires pages { L.pages self.old.layer ≤ map_pages map.now }
        requires page { length bytes.now ≡ L.page_bytes self.old.layer }

        // At `Ok` the flash holds the array with the write, and the history ends with it.
        ensures acknowledged { (array : ℕ → Sector) → L.holds self.old.layer array
            → OnOk result (L.holds self.new.layer (with_value array sector (Some bytes.now))) }
        ensures shows { (array : ℕ → Sector)
            → ShowsArray (map_sectors map.now) (L.bytes_of self.old.layer)
            (history_published self.old.publisher) array
            → MatchResult result
            (λ _. ShowsArray (map_sectors map.now) (L.bytes_of self.new.layer) (history_published self.new.publisher)
            (with_value array sector (Some bytes.now)))
            (λ _. ShowsArray (map_sectors map.now) (L.bytes_of self.new.layer)
            (history_published self.new.publisher) array) }
        ensures published { OnOk result (HasPublished (L.bytes_of self.new.layer)
            (history_published self.old.publisher) (history_published self.new.publisher)
            sector (Some bytes.now)) }

        // Otherwise no reader sees anything of it, and the flash holds what it held, or is closed, or holds a version whose number no word can hold.
        ensures nothing { OnErr result
            (history_published self.new.publisher ≡ history_published self.old.publisher) }
        ensures fails { (array : ℕ → Sector) (cause : L.Failure) → L.holds self.old.layer array
            → result ≡ Err (failed cause) → L.holds self.new.layer array ⊎ L.is_closed self.new.layer }
        ensures unpublished { (array : ℕ → Sector) → L.holds self.old.layer array
            → result ≡ Err no_number
            → L.holds self.new.layer (with_value array sector (Some bytes.now)) }
        ensures numbers { result ≡ Err no_number
            → numbers_below map.now < L.next_number self.new.layer }

        ensures keeps { KeepsBytes (L.next_number self.old.layer)
            (L.bytes_of self.old.layer) (L.bytes_of self.new.layer) }
        ensures next { L.next_number self.old.layer ≤ L.next_number self.new.layer }
        ensures pages { L.pages self.new.layer ≡ L.pages self.old.layer }
        ensures page_bytes { L.page_bytes self.new.layer ≡ L.page_bytes self.old.layer }
        ensures tells { (token : L.Token) (n : ℕ) (bytes : List ℕ)
            → L.tells self.old.layer token n bytes → L.tells self.new.layer token n bytes }
        ensures publisher { IsPublisherOf map.now self.new.publisher }
    {
        let place = match self.layer.write(sector, bytes) {
            Ok(place) => place,
            Err(cause) => return Err(OwnerFailure::Failed(cause)),
        };
        match map.publish(&mut self.publisher, sector, place) {
            Ok(()) => Ok(()),
            Err(_) => Err(OwnerFailure::NoNumber),
        }
    }

    /// Empties so many sectors in a row, from the first one on. To a reader each is a change of its own.
    pub fn trim(&mut self, map: &VersionMap, first: u32, count: u32) -> Result<(), L::Failure>
        requires publisher { IsPublisherOf map.now self.old.publisher }
        requires sectors { first + count ≤ map_sectors map.now }
        ensures acknowledged { (array : ℕ → Sector) → L.holds self.old.layer array
            → OnOk result (L.holds self.new.layer (with_trimmed array first count)) }
        ensures shows { (array : ℕ → Sector)
            → ShowsArray (map_sectors map.now) (L.bytes_of self.old.layer)
            (history_published self.old.publisher) array
            → MatchResult result
            (λ _. ShowsArray (map_sectors map.now) (L.bytes_of self.new.layer) (history_published self.new.publisher)
            (with_trimmed array first count))
            (λ _. ShowsArray (map_sectors map.now) (L.bytes_of self.new.layer)
            (history_published self.new.publisher) array) }
        ensures published { MatchResult result
            (λ _. history_published self.new.publisher
            ≡ cleared_after (history_published self.old.publisher) first count)
            (λ _. history_published self.new.publisher ≡ history_published self.old.publisher) }
        ensures fails { (array : ℕ → Sector) → L.holds self.old.layer array
            → OnErr result (L.holds self.new.layer array ⊎ L.is_closed self.new.layer) }
        ensures keeps { KeepsBytes (L.next_number self.old.layer)
            (L.bytes_of self.old.layer) (L.bytes_of self.new.layer) }
        ensures next { L.next_number self.old.layer ≤ L.next_number self.new.layer }
        ensures pages { L.pages self.new.layer ≡ L.pages self.old.layer }
        ensures page_bytes { L.page_bytes self.new.layer ≡ L.page_bytes self.old.layer }
        ensures tells { (token : L.Token) (n : ℕ) (bytes : List ℕ)
            → L.tells self.old.layer token n bytes → L.tells self.new.layer token n bytes }
        ensures publisher { IsPublisherOf map.now self.new.publisher }
    {
        self.layer.trim(first, count)?;
        map.clear(&mut self.publisher, first, count);
        Ok(())
    }

    /// Another reader, which has seen all that the owner has done.
    pub fn reader(&mut self, map: &VersionMap) -> Reader
        requires publisher { IsPublisherOf map.now self.old.publisher }
        ensures reader { IsReaderOf map.now result }
        ensures seen { history_seen result ≡ history_published self.old.publisher }
        ensures layer { self.new.layer ≡ self.old.layer }
        ensures same { history_published self.new.publisher ≡ history_published self.old.publisher }
        ensures publisher { IsPublisherOf map.now self.new.publisher }
    {
        map.reader(&mut self.publisher)
    }

    /// Checks what a reader has read last against what was written: it is the sector's value after the history that the reader has seen, a beginning of
    /// what the owner has done. This does nothing, and no read needs it.
    pub fn check_read(
        &mut self,
        map: &VersionMap,
        reader: Reader,
        sector: u32,
        found: &Option<L::Token>,
        out: &[u8],
    )
        requires publisher { IsPublisherOf map.now self.old.publisher }
        requires reader { IsReaderOf map.now reader }
        requires read { ReadsVersion (L.tells self.old.layer)
            (version_after (history_seen reader) sector) found.now out.now }
        ensures part { Continues (history_published self.old.publisher) (history_seen reader) }
        ensures value { ReadsValue (sector_shown (L.bytes_of self.old.layer) (history_seen reader) sector)
            found.now out.now }
        ensures layer { self.new.layer ≡ self.old.layer }
        ensures same { history_published self.new.publisher ≡ history_published self.old.publisher }
        ensures publisher { IsPublisherOf map.now self.new.publisher }
    {
        map.check_reader(&mut self.publisher, reader);
        if let Some(token) = found {
            self.layer.knows(token);
        }
    }
}
