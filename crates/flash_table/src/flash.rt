use atomic_table::Table;
use flash_rule::{Device, View};
use geometry::{Geometry, MapWord, PageAddr, page_word_at};
use std::alloc::Global;

pub(crate) type SharedTable = Table<(), View, Geometry, Device, Global>;

/// The table of map words, pin words and page words, which many threads share.
#[derive(Drop)]
pub struct Flash {
    pub(crate) table: SharedTable,
    pub(crate) geometry: Geometry,
    ghost key: { table.shared.key ≡ geometry },
    ghost size: { table.shared.table_id.words ≡ table_words_of (blocks_of geometry) (pages_of geometry) (words_of geometry) (sectors_of geometry) },
}

ghost use Rattle.std.specs.Prelude.{◌≡◌};
ghost use Rattle.geometry.specs.Geometry.{blocks_of, pages_of, words_of, sectors_of};
ghost use Rattle.geometry.specs.Limits.{table_words_of};

impl Flash {
    ghost use Rattle.std.specs.Prelude.{◌<◌};
    ghost use Rattle.geometry.specs.Geometry.{numbers_of};
    ghost use Rattle.geometry.specs.Words.{page_index};
    ghost use Rattle.flash_table.specs.Flash.{geometry_of};

    /// The numbers of the device.
    pub fn geometry(&self) -> &Geometry
        ensures { result.now ≡ geometry_of self.now }
    {
        &self.geometry
    }

    /// The index in the table at which a page's words begin.
    pub fn page_start(&self, page: MapWord) -> usize
        requires block { page.block < blocks_of (geometry_of self.now) }
        requires page { page.page < pages_of (geometry_of self.now) }
        ensures { result ≡ page_index (numbers_of (geometry_of self.now)) page.block page.page }
    {
        let addr = PageAddr {
            block: page.block,
            page: page.page,
        };
        page_word_at(&self.geometry, addr, 0)
    }
}
