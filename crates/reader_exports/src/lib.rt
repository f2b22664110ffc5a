//! The calls of C for reads that wait for nobody: the map of a device, by which one thread tells where versions are, and searches of many threads. No call
//! reads a page: its caller does.
#![tactic(auto)]

mod calls;
mod codes;
mod handle;
mod keeper;
mod keeping;
mod laws;
mod seat;
mod seeker;
mod seeking;
mod slot;

pub use calls::{
    mintlintel_map_answer, mintlintel_map_clear, mintlintel_map_close, mintlintel_map_follow,
    mintlintel_map_open, mintlintel_map_publish, mintlintel_map_reader, mintlintel_map_search,
};
pub use handle::Handle;
pub use keeper::Keeper;
pub use seat::Seat;
pub use seeker::Seeker;
