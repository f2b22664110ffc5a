//! A pass at its queue, and the rows of its calls with their answers.
ghost use Rattle.std.specs.Prelude.{◌≡◌, ◌+◌, ◌<◌, All, length};
ghost use Rattle.erase_queue.specs.Queue.{IsPassOf, IsNewPass};

use erase_queue::{EraseQueue, QueuePass};
use std::sync::Wait;
use std::thread::yield_now;

/// A call on a queue, with the answer that it has to give.
#[derive(Clone, Copy)]
pub enum QueueCall {
    Put(usize, bool),
    Take(Option<usize>),
    /// How often the pass has found the queue full, and empty.
    Counts(u64, u64),
}

/// A pass at its queue.
#[derive(Drop)]
pub struct QueueUser<'a> {
    pub queue: &'a EraseQueue,
    pub pass: QueuePass,
    ghost pass_of: { IsPassOf queue.now pass },
}

/// The next of these passes.
pub(crate) fn next_user<'a>(queue: &'a EraseQueue, passes: &mut Vec<QueuePass>) -> QueueUser<'a>
    requires some { 0 < length passes.old.items }
    requires passes { All (IsNewPass queue.now) passes.old.items }
    ensures long { length passes.new.items + 1 ≡ length passes.old.items }
    ensures passes { All (IsNewPass queue.entry.now) passes.new.items }
{
    let Some(pass) = passes.pop() else {
        unreachable!()
    };
    QueueUser { queue, pass }
}

impl QueueUser<'_> {
    /// Whether these calls, one after another, return their expected answers.
    pub(crate) fn answers(&mut self, rt: &impl Wait, calls: &[QueueCall]) -> bool {
        for call in calls {
            if !self.answers_one(rt, *call) {
                return false;
            }
        }
        true
    }

    fn answers_one(&mut self, rt: &impl Wait, call: QueueCall) -> bool {
        match call {
            QueueCall::Put(block, stands) => {
                block < self.queue.limit() && self.queue.put(rt, &mut self.pass, block) == stands
            }
            QueueCall::Take(block) => self.queue.take(rt, &mut self.pass) == block,
            QueueCall::Counts(fulls, empties) => {
                self.pass.fulls() == fulls && self.pass.empties() == empties
            }
        }
    }

    /// Puts a number as soon as there is room for it.
    pub(crate) fn put(&mut self, rt: &impl Wait, block: usize) {
        for _ in rt.forever() {
            if block >= self.queue.limit() || self.queue.put(rt, &mut self.pass, block) {
                return;
            }
            yield_now();
        }
    }

    /// Waits for a number, and takes it.
    pub(crate) fn take(&mut self, rt: &impl Wait) -> usize {
        for _ in rt.forever() {
            if let Some(block) = self.queue.take(rt, &mut self.pass) {
                return block;
            }
            yield_now();
        }
        unreachable!()
    }
}
