//! Plays a trace on a shared device by many workers at the same time: each is a thread with its own pass, and brooms collect garbage meanwhile.
#![tactic(auto)]

mod collector;
mod fault;
mod runs;
mod team;
mod worker;

pub use collector::collector_end::CollectorEnd;
pub use collector::tally::Tally;
pub use fault::RoundFault;
pub use rounds::{Answer, Answers, Cursor, Kind};
pub use runs::commands::play_commands;
pub use runs::run_end::RunEnd;
pub use trace::{Command, Commands, Op};
pub use volume::{
    Broom, Drain, Erase, Folded, Gate, Geometry, GeometryFault, NoGate, Pass, Point, Volume,
};
pub use worker::plays::play;
