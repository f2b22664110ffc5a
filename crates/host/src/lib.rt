//! What a host asks of the shared device: reads, writes, trims and holds. No call waits for anybody, none takes memory.
#![tactic(auto)]

mod holding;
mod meeting;
mod reading;
mod searching;
mod writing;
mod writing_new;

pub use flash_table::{Flash, Gate, NoGate, Pass, Point, Retired};
pub use geometry::{Got, PageAddr, Was};
pub use holding::{Held, Holding, copy_into, hold, release, word};
pub use meeting::{meet, meet_holding, retire};
pub use reading::{ReadDone, look, read, read_gated};
pub use writing::{NoBlock, trim, write, write_gated};
pub use writing_new::{NewFault, write_new, write_new_gated};
