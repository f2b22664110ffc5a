//! Plays a trace and writes its answers: on a flash layer for one thread, or on a shared device by several workers.
#![tactic(auto)]

mod broom_log;
mod delivering;
mod delivery;
mod desk;
mod files;
mod laws;
mod log;
mod logged;
mod many_threads;
mod one_thread;
mod perform;
mod played_by_workers;
mod refusals;
mod wear;

pub use answers::{OutputFailed, RunFault};
pub use delivery::Delivery;
pub use files::{RunFiles, RunOptions, Wanted, Written};
pub use many_threads::{run_by_workers, run_shared};
pub use one_thread::{run, run_with_files};
pub use played_by_workers::PlayedByWorkers;
pub use streams::Watched;
pub use trace::{TraceFault, TraceFaultKind};
pub use workers::{
    Answer, Answers, Command, Commands, Gate, Geometry, GeometryFault, Kind, NoGate, Op, Pass,
    Point, RunEnd, Volume, play,
};
