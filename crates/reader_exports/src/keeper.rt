//! The right to change a map.
ghost use Rattle.std.specs.Prelude.{◌≡◌};
ghost use Rattle.std.specs.Arc.{arc_value};
ghost use Rattle.version_map.specs.Map.{map_pages, IsPublisherOf};

use std::alloc::Global;
use std::sync::Arc;
use version_map::{Publisher, VersionMap};

/// A map, the right to change it, and how many pages its words name.
#[derive(Drop)]
pub struct Keeper {
    pub(crate) map: Arc<VersionMap, Global>,
    pub(crate) publisher: Publisher,
    pub(crate) pages: u64,
    ghost own: { IsPublisherOf (arc_value map) publisher },
    ghost named: { pages ≡ map_pages (arc_value map) },
}
