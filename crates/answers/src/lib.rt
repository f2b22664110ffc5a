//! Reads a trace's commands, makes its answers as text, and writes a text.
#![tactic(auto)]

mod broom_line;
mod delivery;
mod fault;
mod laws;
mod line;
mod lines;
mod printing;
mod reading;
mod reply;
mod words;

pub use broom_line::BroomLine;
pub use delivery::{OutputFailed, send};
pub use fault::RunFault;
pub use lines::Lines;
pub use reading::read_commands;
pub use reply::Reply;
