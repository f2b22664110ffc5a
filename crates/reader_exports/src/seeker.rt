//! A reader of a map.
ghost use Rattle.std.specs.Arc.{arc_value};
ghost use Rattle.std.proofs.Props.{props};
ghost use Rattle.version_map.specs.Map.{IsReaderOf};
ghost use Rattle.reader_exports.specs.Searches.{IsSoughtIn};

use shared_nand::Search;
use std::alloc::Global;
use std::sync::Arc;
use version_map::{Reader, VersionMap};

/// A map, what a thread reads by, and its last search.
#[derive(Drop)]
pub struct Seeker {
    pub(crate) map: Arc<VersionMap, Global>,
    pub(crate) reader: Reader,
    pub(crate) search: Search,
    ghost own: { IsReaderOf (arc_value map) reader },
    ghost found: { IsSoughtIn (arc_value map) reader search } by { Prim.hlevel props },
}
