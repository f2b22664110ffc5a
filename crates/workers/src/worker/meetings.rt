//! Meetings of the passes after a round: each pass comes to see all that the others have done.
ghost use Rattle.std.specs.Prelude.{◌≡◌, ◌<◌, All, map, length};
ghost use Rattle.std.specs.Arc.{arc_value};
ghost use Rattle.flash_table.specs.Flash.{view_of};
ghost use Rattle.host.specs.Told.{MetTold};
ghost use Rattle.volume.specs.Closing.{MetEach};
ghost use Rattle.volume.specs.Volume.{hosts};
ghost use Rattle.workers.specs.Meetings.{AreSeated, IsAt, PassesMet, passes_of, rest_of};

use crate::worker::Worker;
use volume::Volume;

// Two workers' passes meet.
fn meet_two(volume: &Volume, first: &mut Worker, second: &mut Worker)
    requires first { IsAt volume.now first.old }
    requires second { IsAt volume.now second.old }
    ensures met { MetTold (view_of first.old.pass) (view_of second.old.pass)
        (view_of first.new.pass) (view_of second.new.pass) }
    ensures first { rest_of first.new ≡ rest_of first.old }
    ensures second { rest_of second.new ≡ rest_of second.old }
{
    volume.meet(&mut first.pass, &mut second.pass);
}

// The first worker's pass meets each other one's.
fn meet_others(volume: &Volume, first: &mut Worker, others: &mut [Worker])
    requires first { IsAt volume.now first.old }
    requires others { All (IsAt volume.now) others.old }
    ensures met { MetEach (view_of first.old.pass) (passes_of others.old)
        (view_of first.new.pass) (passes_of others.new) }
    ensures first { rest_of first.new ≡ rest_of first.old }
    ensures others { map rest_of others.new ≡ map rest_of others.old }
{
    for other in others.iter_mut() {
        meet_two(volume, first, other);
    }
}

// All passes meet: the first pass meets each other one, and then each of them once more, so that every pass has seen all calls that were made
// before.
pub(crate) fn meet_all(volume: &Volume, workers: &mut [Worker])
    requires some { 0 < length workers.old }
    requires all { length workers.old ≡ hosts volume.now }
    requires at { All (IsAt volume.now) workers.old }
    requires seated { AreSeated (passes_of workers.old) }
    ensures all_met { PassesMet volume.now (passes_of workers.old) (passes_of workers.new) }
    ensures rest { map rest_of workers.new ≡ map rest_of workers.old }
    ensures seated { AreSeated (passes_of workers.new) }
{
    let Some((first, others)) = workers.split_first_mut() else {
        unreachable!()
    };
    // What the others have seen, the first pass sees.
    meet_others(volume, first, others);
    // What it has seen by then, they see too.
    meet_others(volume, first, others);
}
