//! Threads with a pass each.
ghost use Rattle.std.specs.Prelude.{◌≡◌, ◌+◌, ◌<◌, All, length};
ghost use Rattle.erase_queue.specs.Queue.{IsNewPass};

use crate::threads::queue_users::{QueueCall, QueueUser, next_user};
use erase_queue::{EraseQueue, QueuePass};
use std::sync::Wait;
use std::test::Fail;
use std::thread::{Threads, for_each_mut};

// What a thread does this many times: it puts numbers from the first one on, each by this step above the one before, or it takes numbers.
#[derive(Clone, Copy)]
enum Job {
    Put {
        first: usize,
        step: usize,
        times: u32,
    },
    Take {
        times: u32,
    },
}

// What a thread works with: its pass, and how often it has taken each number.
#[derive(Drop)]
struct Worker<'a> {
    user: QueueUser<'a>,
    job: Job,
    taken: [u32; 1000],
}

impl Worker<'_> {
    fn take_one(&mut self, rt: &impl Wait) {
        let block = self.user.take(rt);
        if let Some(count) = self.taken.get_mut(block) {
            *count = count.wrapping_add(1);
        }
    }

    fn work(&mut self, rt: &impl Wait) {
        match self.job {
            Job::Put { first, step, times } => {
                let mut block = first;
                for _ in 0..times {
                    self.user.put(rt, block);
                    block = block.wrapping_add(step);
                }
            }
            Job::Take { times } => {
                for _ in 0..times {
                    self.take_one(rt);
                }
            }
        }
    }
}

// Four threads share a queue with this many places. Each number below that is taken this many times in all, and no other number is.
#[derive(Clone, Copy)]
struct ThreadGroup {
    places: usize,
    jobs: [Job; 4],
    times: u32,
}

// A thread that puts numbers.
macro_rules! put {
    (from $first:literal, by $step:literal, $times:literal times) => {
        Job::Put {
            first: $first,
            step: $step,
            times: $times,
        }
    };
}

const GROUPS: [(&str, ThreadGroup); 2] = [
    (
        "each number that two threads put is taken once by two others",
        ThreadGroup {
            places: 1000,
            jobs: [
                put!(from 0, by 1, 500 times),
                put!(from 500, by 1, 500 times),
                Job::Take { times: 500 },
                Job::Take { times: 500 },
            ],
            times: 1,
        },
    ),
    (
        "four threads share a queue with one place",
        ThreadGroup {
            places: 1,
            jobs: [
                put!(from 0, by 0, 500 times),
                put!(from 0, by 0, 300 times),
                Job::Take { times: 400 },
                Job::Take { times: 400 },
            ],
            times: 800,
        },
    ),
];

// Whether each number was taken as often as expected.
fn are_taken(workers: &[Worker<'_>; 4], group: ThreadGroup) -> bool {
    for block in 0..1000 {
        let mut count = 0u32;
        for worker in workers {
            count = count.wrapping_add(worker.taken[block]);
        }
        let wanted = if block < group.places { group.times } else { 0 };
        if count != wanted {
            return false;
        }
    }
    true
}

fn new_worker<'a>(queue: &'a EraseQueue, passes: &mut Vec<QueuePass>, job: Job) -> Worker<'a>
    requires some { 0 < length passes.old.items }
    requires passes { All (IsNewPass queue.now) passes.old.items }
    ensures long { length passes.new.items + 1 ≡ length passes.old.items }
    ensures passes { All (IsNewPass queue.entry.now) passes.new.items }
{
    Worker {
        user: next_user(queue, passes),
        job,
        taken: [0; 1000],
    }
}

// Whether all that was put was taken, as often as expected, and nothing is left.
fn is_right<R: Threads + Wait + Sync>(
    rt: &R,
    queue: &EraseQueue,
    passes: Vec<QueuePass>,
    group: ThreadGroup,
) -> bool
    requires passes { All (IsNewPass queue.now) passes.items }
    requires four { length passes.items ≡ 4 }
{
    let mut passes = passes;
    let [a, b, c, d] = group.jobs;
    let mut workers = [
        new_worker(queue, &mut passes, a),
        new_worker(queue, &mut passes, b),
        new_worker(queue, &mut passes, c),
        new_worker(queue, &mut passes, d),
    ];
    for_each_mut(rt, &mut workers, 4, &|_, worker| worker.work(rt));
    are_taken(&workers, group) && workers[2].user.answers(rt, &[QueueCall::Take(None)])
}

#[test]
fn four_threads_share_a_queue(rt: HostRuntime) -> Result<(), Fail> {
    for (name, group) in GROUPS {
        assert!(rt; group.places > 0);
        let (queue, passes) = EraseQueue::new(rt.alloc(), group.places, 4)?;
        assert!(rt; is_right(&rt, &queue, passes, group), "{name:?}");
    }
    Ok(())
}

const PUTS: [QueueCall; 3] = [
    QueueCall::Put(0, true),
    QueueCall::Put(1, true),
    QueueCall::Put(2, true),
];

const TAKES_THE_FIRST: [QueueCall; 1] = [QueueCall::Take(Some(0))];

const THEN: [QueueCall; 5] = [
    QueueCall::Put(4, true),
    QueueCall::Take(Some(1)),
    QueueCall::Take(Some(2)),
    QueueCall::Take(Some(4)),
    QueueCall::Take(None),
];

#[test]
fn what_a_dropped_pass_has_put_is_taken_by_the_others(rt: HostRuntime) -> Result<(), Fail> {
    let (queue, mut passes) = EraseQueue::new(rt.alloc(), 5, 3)?;
    let mut a = next_user(&queue, &mut passes);
    let mut b = next_user(&queue, &mut passes);
    let mut c = next_user(&queue, &mut passes);
    assert!(rt; a.answers(&rt, &PUTS));
    drop(a);
    assert!(rt; b.answers(&rt, &TAKES_THE_FIRST));
    drop(b);
    assert!(rt; c.answers(&rt, &THEN));
    Ok(())
}
