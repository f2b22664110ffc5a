//! Which block a log-structured layer over flash collects next: the block with the fewest kept pages, found at once.
#![tactic(auto)]

mod bucket_queue;
mod laws;
mod permutation;
mod victims;

pub use bucket_queue::BucketQueue;
pub use victims::Victims;
