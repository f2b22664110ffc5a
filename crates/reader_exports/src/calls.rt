//! The calls of C. Each but the close takes the seat out of its handle, and puts it back.
ghost use Rattle.std.specs.Prelude.{◌≡◌, ◌≢◌, ◌<◌, None, IfSome, nat_eq, nat_lt};
ghost use Rattle.version_map.specs.History.{version_after};
ghost use Rattle.version_map.specs.Map.{history_seen, history_published, looks_made};
ghost use Rattle.reader_exports.specs.declared.codes.TheConstants.{DONE, NO_MEMORY, NO_SECTOR, OUT_OF_ORDER, UNREADABLE, WRITTEN};
ghost use Rattle.reader_exports.specs.Handles.{seat_of};
ghost use Rattle.reader_exports.specs.Maps.{HasKeeper, IsDealtReader, IsNewMap, KeeperCalled, code_of_keeper, map_code, deal_code, publish_code, clear_code};
ghost use Rattle.reader_exports.specs.Maps.{follow_code, publishes, clears};
ghost use Rattle.reader_exports.specs.Seekers.{SeekerCalled, code_of_seeker, search_code, answer_code, AnswersValue, LooksOnce, ReportsPage};

use crate::codes::{ALREADY_OPEN, BAD_PAGES, BAD_SECTORS, DONE, NO_MEMORY, WRONG_KIND};
use crate::handle::Handle;
use crate::keeper::Keeper;
use crate::seat::Seat;
use std::alloc::Global;
use std::sync::Arc;
use version_map::{MapShape, VersionMap};

/// Makes the map of a device whose sectors are empty. Its words can name so many pages: the fewer they are, the more numbers they have room for.
#[unsafe(no_mangle)]
pub extern "C" fn mintlintel_map_open(
    alloc: Global,
    handle: &mut Handle,
    sectors: u32,
    pages: u64,
) -> u32
    ensures code { result ≡ map_code (seat_of handle.old) sectors pages (nat_eq result NO_MEMORY) }
    ensures opened { result ≡ DONE → HasKeeper (seat_of handle.new) (IsNewMap sectors pages) }
    ensures same { result ≢ DONE → seat_of handle.new ≡ seat_of handle.old }
{
    if handle.is_open() {
        return ALREADY_OPEN;
    }
    if sectors == 0 {
        return BAD_SECTORS;
    }
    if pages == 0 {
        return BAD_PAGES;
    }
    let Ok((map, publisher)) = VersionMap::new(alloc, MapShape { sectors, pages }) else {
        return NO_MEMORY;
    };
    let Ok(map) = Arc::new(alloc, map) else {
        return NO_MEMORY;
    };
    let keeper = Keeper {
        map,
        publisher,
        pages,
    };
    if handle.typed().fill(alloc, Seat::Keeper(keeper)) {
        DONE
    } else {
        NO_MEMORY
    }
}

/// Makes a reader, which has seen all that was published.
#[unsafe(no_mangle)]
pub extern "C" fn mintlintel_map_reader(
    alloc: Global,
    handle: &mut Handle,
    reader: &mut Handle,
) -> u32
    ensures code { result ≡ code_of_keeper (seat_of handle.old) (λ _. deal_code (seat_of reader.old) result) }
    ensures dealt { result ≡ DONE → IsDealtReader (seat_of handle.old) (seat_of reader.new) }
    ensures map { KeeperCalled (seat_of handle.old) (seat_of handle.new)
        (λ k j. history_published j.publisher ≡ history_published k.publisher) }
    ensures same { result ≢ DONE → seat_of reader.new ≡ seat_of reader.old }
{
    handle
        .typed()
        .on_with(alloc, reader, |seat, reader| match seat {
            Seat::Keeper(keeper) => keeper.deal(alloc, reader),
            Seat::Seeker(_) => WRONG_KIND,
        })
}

/// Makes the version with this number a sector's, on this page, which was programmed with it.
#[unsafe(no_mangle)]
pub extern "C" fn mintlintel_map_publish(
    alloc: Global,
    handle: &mut Handle,
    sector: u32,
    number: u64,
    page: u64,
) -> u32
    ensures code { result ≡ code_of_keeper (seat_of handle.old) (publish_code sector number page) }
    ensures published { KeeperCalled (seat_of handle.old) (seat_of handle.new)
        (λ k j. history_published j.publisher ≡ publishes result sector number k) }
{
    handle.typed().on(alloc, |seat| match seat {
        Seat::Keeper(keeper) => keeper.publish(sector, number, page),
        Seat::Seeker(_) => WRONG_KIND,
    })
}

/// Makes so many sectors empty, from the first one on.
#[unsafe(no_mangle)]
pub extern "C" fn mintlintel_map_clear(
    alloc: Global,
    handle: &mut Handle,
    first: u32,
    count: u32,
) -> u32
    ensures code { result ≡ code_of_keeper (seat_of handle.old) (clear_code first count) }
    ensures cleared { KeeperCalled (seat_of handle.old) (seat_of handle.new)
        (λ k j. history_published j.publisher ≡ clears result first count k) }
{
    handle.typed().on(alloc, |seat| match seat {
        Seat::Keeper(keeper) => keeper.clear(first, count),
        Seat::Seeker(_) => WRONG_KIND,
    })
}

/// The version with this number was copied to this page: the map names it, if the version is the sector's still.
#[unsafe(no_mangle)]
pub extern "C" fn mintlintel_map_follow(
    alloc: Global,
    handle: &mut Handle,
    sector: u32,
    number: u64,
    page: u64,
) -> u32
    ensures code { result ≡ code_of_keeper (seat_of handle.old) (follow_code sector number page) }
    ensures moved { KeeperCalled (seat_of handle.old) (seat_of handle.new)
        (λ k j. history_published j.publisher ≡ history_published k.publisher) }
{
    handle.typed().on(alloc, |seat| match seat {
        Seat::Keeper(keeper) => keeper.follow(sector, number, page),
        Seat::Seeker(_) => WRONG_KIND,
    })
}

/// Begins a read of a sector by so many looks: it says which page to read, or how the read ends.
#[unsafe(no_mangle)]
pub extern "C" fn mintlintel_map_search(
    alloc: Global,
    handle: &mut Handle,
    sector: u32,
    looks: u32,
    page: &mut u64,
) -> u32
    ensures code { result ≡ code_of_seeker (seat_of handle.old) (search_code sector result) }
    ensures looked { SeekerCalled (seat_of handle.old) (seat_of handle.new)
        (λ s t. result ≢ NO_SECTOR → LooksOnce result sector looks s t) }
    ensures first { result ≢ UNREADABLE }
    ensures reports { SeekerCalled (seat_of handle.old) (seat_of handle.new)
        (λ s t. ReportsPage result page.old t page.new) }
    ensures same { SeekerCalled (seat_of handle.old) (seat_of handle.new) (λ s t. result ≡ NO_SECTOR → t ≡ s) }
{
    handle
        .typed()
        .on_with(alloc, page, |seat, page| match seat {
            Seat::Seeker(seeker) => seeker.search(sector, looks, page),
            Seat::Keeper(_) => WRONG_KIND,
        })
}

/// Goes on with a read once its page was read: `has_version` isn't 0 if the page has a version of the sector, which has this number. It says whether the
/// bytes that were read are the sector's, which page to read next, or how the read ends.
#[unsafe(no_mangle)]
pub extern "C" fn mintlintel_map_answer(
    alloc: Global,
    handle: &mut Handle,
    has_version: u32,
    number: u64,
    page: &mut u64,
) -> u32
    ensures code { result ≡ code_of_seeker (seat_of handle.old)
        (λ s. answer_code (nat_lt 0 has_version) number result s.search.found) }
    ensures answers { SeekerCalled (seat_of handle.old) (seat_of handle.new) (λ s t. AnswersValue result number t) }
    ensures looked { SeekerCalled (seat_of handle.old) (seat_of handle.new)
        (λ s t. result ≢ OUT_OF_ORDER → result ≢ WRITTEN → LooksOnce result s.search.sector s.search.looks s t) }
    ensures found { SeekerCalled (seat_of handle.old) (seat_of handle.new)
        (λ s t. result ≡ WRITTEN → (history_seen t.reader ≡ history_seen s.reader)
        × (t.search.sector ≡ s.search.sector) × (t.search.found ≡ None)
        × (looks_made t.reader ≡ looks_made s.reader)) }
    ensures lost { SeekerCalled (seat_of handle.old) (seat_of handle.new)
        (λ s t. result ≡ UNREADABLE → IfSome s.search.found
        (λ place. version_after (history_seen t.reader) s.search.sector ≡ place.number)) }
    ensures reports { SeekerCalled (seat_of handle.old) (seat_of handle.new)
        (λ s t. ReportsPage result page.old t page.new) }
    ensures same { SeekerCalled (seat_of handle.old) (seat_of handle.new) (λ s t. result ≡ OUT_OF_ORDER → t ≡ s) }
{
    handle
        .typed()
        .on_with(alloc, page, |seat, page| match seat {
            Seat::Seeker(seeker) => seeker.answer(has_version > 0, number, page),
            Seat::Keeper(_) => WRONG_KIND,
        })
}

/// Closes a handle, and gives the map up with its last one. A closed one stays so.
#[unsafe(no_mangle)]
pub extern "C" fn mintlintel_map_close(alloc: Global, handle: &mut Handle)
    ensures { seat_of handle.new ≡ None }
{
    let _seat = handle.typed().take(alloc);
}
