//! Flash that the caller brings, and the layer over it that survives power cuts at any moment.
#![tactic(auto)]

mod asked;
mod asking;
mod cells;
mod chip;
mod driver;
mod driving;
mod failing;
mod failure;
mod flash;
mod history;
mod laws;
mod layer;
mod moving;
mod numbers;
mod opening;
mod updating;

pub use asked::open_chip;
pub use chip::{Chip, Cut};
pub use driver::{Answer, Driver, Main, Refusal, Step};
pub use durable::{Extent, MountFault};
pub use failure::{Failure, OpenFailure};
pub use flash::{Fault, Nand, PowerGone, Reading, Shape, Stamp, Tally};
pub use geometry::{Got, PageAddr, Was};
pub use history::Change;
pub use layer::{Durable, NotOpened};
pub use opening::{Opened, Opening, OpeningFault, Question};
