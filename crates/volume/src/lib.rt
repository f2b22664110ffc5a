//! A flash device that many threads share: it is opened, read and written through passes, cleaned by brooms, and closed.
#![tactic(auto)]

mod closing;
mod opening;
mod volume;

pub use broom::{BlockCounts, Broom, Drain, Erase, Folded};
pub use closing::Closed;
pub use flash_table::{Gate, NoGate, Pass, Point, Retired};
pub use geometry::{DeviceNumbers, Geometry, GeometryFault, Got, PageAddr, Phase, PinWord, Was};
pub use host::{Held, Holding, NewFault, NoBlock, ReadDone};
pub use volume::Volume;
