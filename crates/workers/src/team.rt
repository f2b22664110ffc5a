//! The workers and the brooms of a run, and the threads of a round: brooms and workers start, the workers are joined, and then the brooms are told
//! to stop.
ghost use Rattle.std.specs.Prelude.{◌≡◌, ◌+◌, ◌≤◌, ◌++◌, IfOk, OnOk, length, map};
ghost use Rattle.std.specs.VecDeque.{deque_capacity, deque_len};
ghost use Rattle.workers.specs.Collecting.{HaveCollected, given_to};
ghost use Rattle.workers.specs.Tasks.{asked, HaveGone, HaveSetOut, WerePlayed, HavePlayed};

pub(crate) mod dealing;
pub(crate) mod leaving;
pub(crate) mod opening;
pub(crate) mod unseated;

use crate::collector::Collector;
use crate::collector::broom_thread::{BroomThread, join_collector, start_collector};
use crate::fault::RoundFault;
use crate::worker::Worker;
use crate::worker::round_limits::RoundLimits;
use crate::worker::tasks::{Task, join_worker, start_worker};
use flash_table::Gate;
use std::alloc::{AllocError, Global};
use std::collections::VecDeque;
use std::sync::Wait;
use std::sync::atomic::{AtomicBool, Ordering};
use std::thread::{self, Scope, Threads};
use std::time::Clock;

/// The workers and the brooms of a run, and room for the handles of their threads, which is allocated once.
#[derive(Drop)]
pub(crate) struct Team {
    pub workers: Vec<Worker>,
    pub collectors: Vec<Collector>,
    pub tasks: VecDeque<Task>,
    pub collecting: VecDeque<BroomThread>,
    pub ghost workers_room: { length workers.items ≤ deque_capacity tasks },
    pub ghost collectors_room: { length collectors.items ≤ deque_capacity collecting },
    pub ghost no_task: { deque_len tasks ≡ 0 },
    pub ghost no_thread: { deque_len collecting ≡ 0 },
}

impl Team {
    // These workers and brooms, with room for their threads. `Err` means out of memory; then all passes and brooms are retired.
    pub(crate) fn new(
        alloc: Global,
        workers: Vec<Worker>,
        collectors: Vec<Collector>,
    ) -> Result<Team, AllocError>
        ensures workers { IfOk result (λ team. team.workers.items ≡ workers.items) }
        ensures collectors { IfOk result (λ team. team.collectors.items ≡ collectors.items) }
    {
        let tasks = VecDeque::with_capacity(alloc, workers.len())?;
        let collecting = VecDeque::with_capacity(alloc, collectors.len())?;
        Ok(Team {
            workers,
            collectors,
            tasks,
            collecting,
        })
    }
}

// A round of a team: a gate for each worker and for each broom, and the flag by which the brooms stop.
#[derive(Drop)]
struct Round<'a, G> {
    team: Team,
    worker_gates: &'a mut [G],
    collector_gates: &'a mut [G],
    stop: &'a AtomicBool,
    limits: RoundLimits,
}

// Starts the brooms.
fn start_collectors<'s, E, R: Threads + Wait + Clock + Sync, G: Gate + Send>(
    scope: &Scope<'s, E>,
    rt: &'s R,
    collectors: &mut VecDeque<Collector>,
    stop: &'s AtomicBool,
    gates: &'s mut [G],
    collecting: &mut VecDeque<BroomThread>,
) -> Result<(), RoundFault>
    requires gates { deque_len collectors.old ≡ length gates.old }
    requires room { deque_len collecting.old + deque_len collectors.old
        ≤ deque_capacity collecting.old }
    ensures started { OnOk result (map given_to collecting.new.items
        ≡ map given_to collecting.old.items ++ collectors.old.items) }
    ensures none { OnOk result (deque_len collectors.new ≡ 0) }
    ensures gone { HaveGone collectors.old collectors.new collecting.old collecting.new }
{
    for gate in gates.iter_mut() {
        let Some(collector) = collectors.pop_front() else {
            unreachable!()
        };
        collecting.push_back_reserved(start_collector(scope, rt, collector, stop, gate)?);
    }
    Ok(())
}

// Starts the workers.
fn start_workers<'s, E, G: Gate + Send>(
    scope: &Scope<'s, E>,
    workers: &mut VecDeque<Worker>,
    limits: RoundLimits,
    gates: &'s mut [G],
    tasks: &mut VecDeque<Task>,
) -> Result<(), RoundFault>
    requires gates { deque_len workers.old ≡ length gates.old }
    requires room { deque_len tasks.old + deque_len workers.old ≤ deque_capacity tasks.old }
    ensures started { OnOk result
        (HaveSetOut limits tasks.old.items workers.old.items tasks.new.items) }
    ensures none { OnOk result (deque_len workers.new ≡ 0) }
    ensures gone { HaveGone workers.old workers.new tasks.old tasks.new }
{
    for gate in gates.iter_mut() {
        let Some(worker) = workers.pop_front() else {
            unreachable!()
        };
        tasks.push_back_reserved(start_worker(scope, worker, limits, gate)?);
    }
    Ok(())
}

// Joins the workers, in order.
fn join_workers<R: Threads>(
    rt: &R,
    limits: RoundLimits,
    tasks: &mut VecDeque<Task>,
    workers: &mut VecDeque<Worker>,
)
    requires { deque_len workers.old + deque_len tasks.old ≤ deque_capacity workers.old }
    ensures played { deque_len workers.old ≡ 0
        → WerePlayed (map (asked limits) tasks.old.items) workers.new.items }
    ensures none { deque_len tasks.new ≡ 0 }
    ensures gone { HaveGone tasks.old tasks.new workers.old workers.new }
{
    while let Some(task) = tasks.pop_front() {
        workers.push_back_reserved(join_worker(rt, limits, task));
    }
}

// Joins the brooms, in order.
fn join_collectors<R: Threads>(
    rt: &R,
    collecting: &mut VecDeque<BroomThread>,
    collectors: &mut VecDeque<Collector>,
)
    requires { deque_len collectors.old + deque_len collecting.old ≤ deque_capacity collectors.old }
    ensures collected { deque_len collectors.old ≡ 0
        → HaveCollected (map given_to collecting.old.items) collectors.new.items }
    ensures none { deque_len collecting.new ≡ 0 }
    ensures gone { HaveGone collecting.old collecting.new collectors.old collectors.new }
{
    while let Some(next) = collecting.pop_front() {
        collectors.push_back_reserved(join_collector(rt, next));
    }
}

// Starts all, and joins all that could be started. The brooms are told to stop once the workers are joined, on every path.
fn run_all<'s, E, R: Threads + Wait + Clock + Sync, G: Gate + Send>(
    scope: &Scope<'s, E>,
    rt: &'s R,
    round: Round<'s, G>,
) -> Result<Team, RoundFault>
    requires workers { length round.team.workers.items ≡ length round.worker_gates.now }
    requires collectors { length round.team.collectors.items ≡ length round.collector_gates.now }
    ensures played { IfOk result
        (λ team. HavePlayed round.entry.limits round.entry.team.workers.items team.workers.items) }
    ensures collected { IfOk result
        (λ team. HaveCollected round.entry.team.collectors.items team.collectors.items) }
{
    let Round {
        team,
        worker_gates,
        collector_gates,
        stop,
        limits,
    } = round;
    let Team {
        workers,
        collectors,
        mut tasks,
        mut collecting,
    } = team;
    let mut workers = VecDeque::from_vec(workers);
    let mut collectors = VecDeque::from_vec(collectors);
    let mut started = start_collectors(
        scope,
        rt,
        &mut collectors,
        stop,
        collector_gates,
        &mut collecting,
    );
    if started.is_ok() {
        started = start_workers(scope, &mut workers, limits, worker_gates, &mut tasks);
    }
    join_workers(rt, limits, &mut tasks, &mut workers);
    stop.store(true, Ordering::SeqCst);
    join_collectors(rt, &mut collecting, &mut collectors);
    started?;
    Ok(Team {
        workers: workers.into_vec(),
        collectors: collectors.into_vec(),
        tasks,
        collecting,
    })
}

// One scope for all threads of a round.
fn shift<'a, R: Threads + Wait + Clock + Sync, G: Gate + Send>(
    rt: &'a R,
    round: Round<'a, G>,
) -> Result<Team, RoundFault>
    requires workers { length round.team.workers.items ≡ length round.worker_gates.now }
    requires collectors { length round.team.collectors.items ≡ length round.collector_gates.now }
    ensures played { IfOk result
        (λ team. HavePlayed round.entry.limits round.entry.team.workers.items team.workers.items) }
    ensures collected { IfOk result
        (λ team. HaveCollected round.entry.team.collectors.items team.collectors.items) }
{
    thread::scope(
        thread::scope_env(),
        rt,
        move |scope| -> Result<Team, RoundFault>
            requires workers { length round.team.workers.items ≡ length round.worker_gates.now }
            requires collectors { length round.team.collectors.items
                ≡ length round.collector_gates.now }
            ensures played { IfOk result
                (λ team. HavePlayed round.entry.limits round.entry.team.workers.items team.workers.items) }
            ensures collected { IfOk result
                (λ team. HaveCollected round.entry.team.collectors.items team.collectors.items) }
        { run_all(scope, rt, round) },
    )
}

// Plays a round: each worker with a line has a thread that plays its lines, and brooms collect at the same time until the last worker is joined.
// There is a gate for each worker, and then one for each broom. After a fault no thread runs, and all passes and brooms are retired.
pub(crate) fn play_workers<R: Threads + Wait + Clock + Sync, G: Gate + Send>(
    rt: &R,
    team: Team,
    limits: RoundLimits,
    gates: &mut [G],
) -> Result<Team, RoundFault>
    requires gates { length team.workers.items + length team.collectors.items ≡ length gates.old }
    ensures played { IfOk result (λ r. HavePlayed limits team.workers.items r.workers.items) }
    ensures collected { IfOk result (λ r. HaveCollected team.collectors.items r.collectors.items) }
{
    let stop = AtomicBool::new(false);
    let (worker_gates, collector_gates) = gates.split_at_mut(team.workers.len());
    let round = Round {
        team,
        worker_gates,
        collector_gates,
        stop: &stop,
        limits,
    };
    shift(rt, round)
}
