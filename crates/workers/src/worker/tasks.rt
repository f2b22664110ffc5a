//! A worker's task in a round: a thread that plays its lines.
ghost use Rattle.std.specs.Prelude.{◌≡◌, IfOk};
ghost use Rattle.workers.specs.Workers.{HasPlayed};
ghost use Rattle.workers.specs.Tasks.{asked, with_limits};

use crate::fault::RoundFault;
use crate::worker::Worker;
use crate::worker::round_limits::RoundLimits;
use flash_table::{Gate, NoGate};
use std::snapshot::Snapshot;
use std::thread::{Promise, PromisedHandle, Scope, Threads};

/// The promise of a worker's thread: the worker is returned after its lines were played.
#[derive(Drop)]
pub struct PlayOf {
    pub before: Snapshot<Worker>,
    pub limits: RoundLimits,
}

impl Promise<Worker> for PlayOf {
    ghost kept_by = { λ p r. HasPlayed p.limits p.before.value r };
}

/// A worker in a round. One without a line has no thread.
#[derive(Drop)]
pub enum Task {
    Idle(Worker),
    Playing(PromisedHandle<Worker, PlayOf>),
}

// Starts a worker, if it has a line.
pub(crate) fn start_worker<'s, E, G: Gate + Send>(
    scope: &Scope<'s, E>,
    worker: Worker,
    limits: RoundLimits,
    gate: &'s mut G,
) -> Result<Task, RoundFault>
    ensures { IfOk result (λ task. asked limits task ≡ with_limits limits worker) }
{
    if !worker.has_line_before(limits.end) {
        return Ok(Task::Idle(worker));
    }
    let promise = PlayOf {
        before: Snapshot::of(&worker),
        limits,
    };
    match scope.spawn_with(promise, move || worker.play_before(limits, gate)) {
        Ok(handle) => Ok(Task::Playing(handle)),
        Err(_refused) => Err(RoundFault::Threads),
    }
}

// The worker once its task has ended.
pub(crate) fn join_worker<R: Threads>(rt: &R, limits: RoundLimits, task: Task) -> Worker
    ensures { HasPlayed (asked limits task).1 (asked limits task).0 result }
{
    match task {
        Task::Idle(worker) => worker.play_before(limits, &mut NoGate),
        Task::Playing(handle) => handle.join(rt),
    }
}
