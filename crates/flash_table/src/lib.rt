//! The shared words of a flash device, the seats of its passes and brooms, and the steps that they make.
#![tactic(auto)]

mod broom_seat;
mod broom_steps;
mod erasing;
mod flash;
mod gate;
mod inspecting;
mod notes;
mod open;
mod pass;
mod pins;
mod reclaim_steps;
mod relocation_steps;
mod retired;
mod retired_broom;
mod spares;
mod steps;

pub use broom_seat::{BroomBlocks, BroomSeat, ReclaimedBlock, Reclaiming};
pub use flash::Flash;
pub use gate::{Gate, NoGate, Point};
pub use pass::{Note, OpenBlock, Pass};
pub use retired::Retired;
pub use retired_broom::RetiredBroom;
