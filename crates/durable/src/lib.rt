//! The core of a page-mapped flash translation layer for one thread that survives power cuts: it
//! says which command the flash gets next, and does no input or output itself.
#![tactic(auto)]

mod candidates;
mod cleaning;
mod command;
mod counting;
mod extent;
mod fault;
mod found;
mod gaps;
mod hints;
mod laws;
mod layer;
mod marks;
mod memory;
mod mount;
mod mounting;
mod next_pages;
mod owners;
mod ranking;
mod rehearsal;
mod retiring;
mod runs;
mod search;

pub use command::Command;
pub use extent::Extent;
pub use fault::MountFault;
pub use found::Stamp;
pub use geometry::PageAddr;
pub use memory::Core;
pub use mount::Mount;
pub use rehearsal::Cost;
pub use runs::{keeps_acknowledged, survives_failures, tells_no_false_loss};
