//! The map of a layer over flash, packed: the page of each sector in four bytes, or five on the largest devices, and next to nothing for sectors that
//! have none.
#![tactic(auto)]

mod bytes;
mod entry;
mod laws;
mod numbers;
mod packed_map;
mod words;

pub use numbers::SparseNumbers;
pub use packed_map::PackedMap;
