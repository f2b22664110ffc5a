ghost use Rattle.std.specs.Prelude.{◌≡◌, ◌<◌};

use crate::rule::OnePublisher;
use crate::shape::MapShape;
use crate::sighting::Sighting;
use atomic_table::Table;
use std::alloc::Global;

/// The map of a device, which many threads share. A word is a version's number times the number of pages, and its page.
#[derive(Drop)]
pub struct VersionMap {
    pub(crate) table: Table<(), Sighting, MapShape, OnePublisher, Global>,
    pub(crate) shape: MapShape,
    ghost key: { table.shared.key ≡ shape },
    ghost size: { table.shared.table_id.words ≡ shape.sectors },
    ghost some: { 0 < shape.sectors },
    ghost pages: { 0 < shape.pages },
}
