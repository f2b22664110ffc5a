//! The map of a device that many threads read while one changes it: for each sector the number of its newest version, and the page that has it.
//! No call waits. The rule is about the numbers alone: the page that a word names is a hint.
#![tactic(auto)]

mod calls;
mod laws;
mod map;
mod plays;
mod reader;
mod rule;
mod shape;
mod sighting;

pub use calls::{NoNumber, Place};
pub use map::VersionMap;
pub use plays::{Change, Hear, Look, Move, NewReader};
pub use reader::{Publisher, Reader};
pub use rule::OnePublisher;
pub use shape::MapShape;
pub use sighting::Sighting;
