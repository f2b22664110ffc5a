ghost use Rattle.std.specs.Prelude.{◌≡◌, ◌<◌, None, Some};

use geometry::{MAX_BLOCKS, MAX_PAGES, PageAddr};
use std::marker::Model;

/// The bits of an entry that names no page: above the number of each page, which has 26 bits.
const NO_PAGE: u32 = u32::MAX;

/// An entry of the map, in four bytes: the current page of a sector, or none.
#[derive(Clone, Copy)]
pub struct MapEntry {
    bits: u32,
}

impl Model for MapEntry {
    ghost use Rattle.std.specs.Prelude.{Option};
    ghost use Rattle.geometry.specs.declared.page_addr.PageAddr.{PageAddr};

    ghost Value = { Option PageAddr };

    ghost use Rattle.ftl_one.specs.Entries.{named_by, bits_of, bits_back};

    ghost view = { λ entry. named_by entry.bits };

    ghost inverse = { λ page. record { bits = bits_of page } };

    ghost inverse_ok = { λ entry h i. record { bits = bits_back entry.bits i } };
}

impl MapEntry {
    /// The entry that names no page.
    #[tactic(auto, unfolding(crate::specs::Entries::named_by))]
    pub fn none() -> MapEntry
        ensures { result ≡ None }
    {
        MapEntry { bits: NO_PAGE }
    }

    /// The entry that names a page.
    pub fn of(at: PageAddr) -> MapEntry
        requires block { at.block < MAX_BLOCKS }
        requires page { at.page < MAX_PAGES }
        ensures { result ≡ Some at }
    {
        MapEntry {
            bits: at.block * MAX_PAGES + at.page,
        }
    }

    /// The page that the entry names.
    pub fn page(self) -> Option<PageAddr>
        ensures { result ≡ self }
    {
        if self.bits == NO_PAGE {
            return None;
        }
        Some(PageAddr {
            block: self.bits / MAX_PAGES,
            page: self.bits % MAX_PAGES,
        })
    }
}
