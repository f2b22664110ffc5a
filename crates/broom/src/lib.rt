//! Garbage collection on the shared device: a broom copies what is live out of a block, and erases it, while hosts work. Only `Broom::new`
//! takes memory, and only the calls that take a runtime handle, which put into the queue of drained blocks and take from it, may wait.
#![tactic(auto)]

mod answer;
mod block_counts;
mod broom;
mod dead;
mod draining;
mod erasing;
mod folding;
mod handing;
mod meeting;
mod ranking;
mod relocation;
mod restocking;
mod room;
mod state;
mod survey;
mod turns;

pub use answer::{Drain, Erase};
pub use block_counts::BlockCounts;
pub use broom::Broom;
pub use dead::drain_dead;
pub use draining::{drain, drain_next};
pub use erase_queue::{EraseQueue, QueuePass};
pub use erasing::{erase, wipe_all};
pub use flash_table::{BroomSeat, Flash, Gate, NoGate, Pass, Point, RetiredBroom};
pub use folding::{Folded, fold, fold_new, fold_seat, retire_broom};
pub use geometry::{Geometry, PageAddr};
pub use meeting::{meet_brooms, stand};
pub use restocking::restock;
pub use state::{count_blocks, load_state};
pub use turns::{Choice, drain_chosen, drain_one, erase_one};
