//! The ends of a run. After a good run the brooms are folded, and the workers' answers are returned.
ghost use Rattle.std.specs.Prelude.{◌≡◌, ◌≤◌, All, length, map, vec_capacity};
ghost use Rattle.std.specs.Vec.Iter.{into_iter_items};
ghost use Rattle.host.specs.Ready.{IsReady};
ghost use Rattle.volume.specs.Volume.{IsBroomReady, flash_of};
ghost use Rattle.workers.specs.Dealing.{AreReady};
ghost use Rattle.workers.specs.Served.{HaveFolded};
ghost use Rattle.workers.specs.Workers.{answers_kept};

use crate::collector::Collector;
use crate::collector::collector_end::CollectorEnd;
use crate::worker::Worker;
use broom::Broom;
use flash_table::Pass;
use rounds::Answers;
use std::collections::VecDeque;
use std::sync::Wait;
use volume::Volume;

// Gives up the brooms, and lists what each has done and knew last, in order. A block that one has set aside goes to the queue.
pub(crate) fn fold_collectors<R: Wait>(
    rt: &R,
    collectors: Vec<Collector>,
    ends: &mut Vec<CollectorEnd>,
)
    requires none { length ends.old.items ≡ 0 }
    requires room { length collectors.items ≤ vec_capacity ends.old }
    ensures { HaveFolded collectors.items ends.new.items }
{
    let mut collectors = VecDeque::from_vec(collectors);
    while let Some(collector) = collectors.pop_front() {
        ends.push_reserved(collector.fold(rt));
    }
}

// Lists each worker's answers, in the order of the workers, and retires the passes.
pub(crate) fn hand_out(workers: Vec<Worker>, rows: &mut Vec<Answers>)
    requires none { length rows.old.items ≡ 0 }
    requires room { length workers.items ≤ vec_capacity rows.old }
    ensures { rows.new.items ≡ map answers_kept workers.items }
{
    let mut workers = VecDeque::from_vec(workers);
    while let Some(worker) = workers.pop_front() {
        rows.push_reserved(worker.into_answers());
    }
}

// Gives up passes.
fn retire_all(volume: &Volume, passes: Vec<Pass>)
    requires { All (IsReady (flash_of volume.now)) passes.items }
{
    let mut passes = passes.into_iter();
    while let Some(pass) = passes.next() {
        volume.retire(pass);
    }
    passes.destroy_empty();
}

// Gives up brooms, and waits for nobody.
fn retire_brooms(volume: &Volume, brooms: Vec<Broom>)
    requires { All (IsBroomReady volume.now) brooms.items }
{
    let mut brooms = brooms.into_iter();
    while let Some(broom) = brooms.next() {
        volume.retire_broom(broom);
    }
    brooms.destroy_empty();
}

// Gives up the passes and the brooms of a device.
pub(crate) fn give_up(volume: &Volume, passes: Vec<Pass>, brooms: Vec<Broom>)
    requires { AreReady volume.now passes.items brooms.items }
{
    retire_all(volume, passes);
    retire_brooms(volume, brooms);
}
