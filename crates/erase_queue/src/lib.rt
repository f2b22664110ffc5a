//! The numbers of drained blocks, on their way from the brooms that drain to the brooms that erase.
#![tactic(auto)]

mod pass;
mod queue;
mod rule;
mod sight;

pub use pass::QueuePass;
pub use queue::EraseQueue;
pub use sight::{Role, Sight};
