//! A broom's thread: it collects until the round ends.
ghost use Rattle.std.specs.Prelude.{◌≡◌, IfOk};
ghost use Rattle.workers.specs.Collecting.{HasCollected, given_to};

use crate::collector::Collector;
use crate::collector::collecting::collect;
use crate::fault::RoundFault;
use flash_table::Gate;
use std::snapshot::Snapshot;
use std::sync::Wait;
use std::sync::atomic::AtomicBool;
use std::thread::{Promise, PromisedHandle, Scope, Threads};
use std::time::Clock;

/// That a broom comes back with drains, erases and restocks done, and nothing else.
#[derive(Drop)]
pub struct CollectOf {
    pub before: Snapshot<Collector>,
}

impl Promise<Collector> for CollectOf {
    ghost kept_by = { λ p s. HasCollected p.before.value s };
}

/// A broom that was sent out, and its thread.
#[derive(Drop)]
pub struct BroomThread {
    pub handle: PromisedHandle<Collector, CollectOf>,
}

// Starts a broom.
pub(crate) fn start_collector<'s, E, R: Threads + Wait + Clock + Sync, G: Gate + Send>(
    scope: &Scope<'s, E>,
    rt: &'s R,
    collector: Collector,
    stop: &'s AtomicBool,
    gate: &'s mut G,
) -> Result<BroomThread, RoundFault>
    ensures { IfOk result (λ thread. given_to thread ≡ collector) }
{
    let promise = CollectOf {
        before: Snapshot::of(&collector),
    };
    match scope.spawn_with(promise, move || collect(rt, collector, stop, gate)) {
        Ok(handle) => Ok(BroomThread { handle }),
        Err(_refused) => Err(RoundFault::Threads),
    }
}

// The broom once its thread has ended.
pub(crate) fn join_collector<R: Threads>(rt: &R, thread: BroomThread) -> Collector
    ensures { HasCollected (given_to thread) result }
{
    let BroomThread { handle } = thread;
    handle.join(rt)
}
