//! Proved callers to copy: each contract says what its caller may rely on.
#![tactic(auto)]

mod closing;
mod holding;
mod rereading;
mod sharing;
mod standing;
mod storing;
mod together;

pub use closing::two_writers;
pub use holding::held_through_collection;
pub use rereading::write_and_read;
pub use sharing::{Sweeper, Writer, two_writers_and_a_broom};
pub use standing::{held_beside_a_broom, held_beside_a_writer};
pub use storing::{NotStored, store_and_read};
pub use together::reads_may_be_shared;
