//! A page-mapped flash translation layer for one thread, its whole map in memory: the ideal
//! page-level baseline of Gupta, Kim and Urgaonkar, "DFTL" (ASPLOS 2009).
#![tactic(auto)]

mod collection;
mod copy;
mod fewest;
mod map_entry;
mod one_ftl;
mod role;
mod roles;
mod store;

pub use collection::Collection;
pub use geometry::{DeviceNumbers, Geometry, GeometryFault, Got, Was};
pub use one_ftl::{Counts, NewOneFault, OneFtl, WornOut};
pub use role::Role;
