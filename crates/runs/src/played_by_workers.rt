//! What a run by workers leaves.
use answers::OutputFailed;
use std::alloc::Global;
use std::sync::Arc;
use trace::Commands;
use workers::RunEnd;

/// The commands that a run by workers played, the answers of each worker with what each broom has done, and whether the log was written whole.
/// `log` is `Ok` if it isn't wanted.
#[derive(Drop)]
pub struct PlayedByWorkers {
    pub commands: Arc<Commands, Global>,
    pub end: RunEnd,
    pub log: Result<(), OutputFailed>,
}
