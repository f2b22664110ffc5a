//! Workers and collectors for the threads of a run.
ghost use Rattle.std.specs.Prelude.{◌≡◌, ◌<◌, ◌≤◌, All, IfOk, length, map, vec_capacity};
ghost use Rattle.answers.specs.Answers.{IsPlayable};
ghost use Rattle.rounds.specs.Plans.{ends_of, items_of};
ghost use Rattle.workers.specs.Runs.{AreManned, HasBegun};
ghost use Rattle.std.specs.Arc.{arc_value};
ghost use Rattle.geometry.specs.Geometry.{brooms_of, hosts_of};
ghost use Rattle.flash_table.specs.Flash.{geometry_of};
ghost use Rattle.host.specs.Ready.{IsReady};
ghost use Rattle.volume.specs.Volume.{IsBroomReady, flash_of};
ghost use Rattle.workers.specs.Meetings.{IsAt, passes_of};
ghost use Rattle.workers.specs.Served.{AreAtRunStart, HasCountedNone, broom_of};
ghost use Rattle.workers.specs.Dealing.{HasFitShare, HasPlayedNone, IsOwner, rows_for, work_in, work_of};

use crate::collector::Collector;
use crate::collector::tally::Tally;
use crate::team::Team;
use crate::team::opening::{more_owners, open_shared};
use crate::worker::Worker;
use crate::worker::share::{Share, make_shares};
use broom::Broom;
use flash_table::Pass;
use geometry::Geometry;
use std::alloc::{AllocError, Global};
use std::collections::VecDeque;
use std::sync::Arc;
use trace::Commands;
use volume::Volume;

// A worker with this pass and this share.
fn make_worker(volume: Arc<Volume, Global>, pass: Pass, share: Share) -> Worker
    requires ready { IsReady (flash_of (arc_value volume)) pass }
    requires fit { HasFitShare (geometry_of (flash_of (arc_value volume))) share }
    ensures at { arc_value result.volume ≡ arc_value volume }
    ensures pass { result.pass ≡ pass }
    ensures work { work_of result ≡ work_in share }
    ensures none { HasPlayedNone result }
{
    let Share {
        commands,
        places,
        answers,
        buffer,
    } = share;
    Worker {
        volume,
        commands,
        pass,
        places,
        answers,
        buffer,
    }
}

// A worker for each pass and its share, in order.
fn make_workers(
    volume: &Volume,
    passes: Vec<Pass>,
    owners: Vec<Arc<Volume, Global>>,
    shares: Vec<Share>,
    workers: &mut Vec<Worker>,
)
    requires ready { All (IsReady (flash_of volume.now)) passes.items }
    requires fit { All (HasFitShare (geometry_of (flash_of volume.now))) shares.items }
    requires owners { All (IsOwner volume.now) owners.items }
    requires shares_count { length shares.items ≡ length passes.items }
    requires owners_count { length owners.items ≡ length passes.items }
    requires none { length workers.old.items ≡ 0 }
    requires room { length passes.items ≤ vec_capacity workers.old }
    ensures passes { passes_of workers.new.items ≡ passes.items }
    ensures work { map work_of workers.new.items ≡ map work_in shares.items }
    ensures at { All (IsAt volume.now) workers.new.items }
    ensures none { All HasPlayedNone workers.new.items }
{
    let mut passes = VecDeque::from_vec(passes);
    let mut owners = VecDeque::from_vec(owners);
    let mut shares = VecDeque::from_vec(shares);
    while let Some(pass) = passes.pop_front() {
        let Some(owner) = owners.pop_front() else {
            unreachable!()
        };
        let Some(share) = shares.pop_front() else {
            unreachable!()
        };
        workers.push_reserved(make_worker(owner, pass, share));
    }
    passes.destroy_empty();
}

// A collector for each broom.
fn make_collectors(
    volume: &Volume,
    brooms: Vec<Broom>,
    owners: Vec<Arc<Volume, Global>>,
    drains: u32,
    collectors: &mut Vec<Collector>,
)
    requires ready { All (IsBroomReady volume.now) brooms.items }
    requires owners { All (IsOwner volume.now) owners.items }
    requires count { length owners.items ≡ length brooms.items }
    requires none { length collectors.old.items ≡ 0 }
    requires room { length brooms.items ≤ vec_capacity collectors.old }
    ensures count { length collectors.new.items ≡ length brooms.items }
    ensures brooms { map broom_of collectors.new.items ≡ brooms.items }
    ensures none { All (HasCountedNone volume.now drains) collectors.new.items }
{
    let mut brooms = VecDeque::from_vec(brooms);
    let mut owners = VecDeque::from_vec(owners);
    while let Some(broom) = brooms.pop_front() {
        let Some(volume) = owners.pop_front() else {
            unreachable!()
        };
        collectors.push_reserved(Collector {
            volume,
            broom,
            drains,
            tally: Tally::new(),
        });
    }
    brooms.destroy_empty();
}

// What a run takes: a device, a worker for each row of places, and a collector for each broom. `Err` is out of memory, and then nothing is left of them.
pub(crate) fn deal(
    alloc: Global,
    geometry: &Geometry,
    commands: &Arc<Commands, Global>,
    places: Vec<Vec<usize>>,
    drains: u32,
) -> Result<(Arc<Volume, Global>, Team), AllocError>
    requires hosts { 0 < hosts_of geometry.now }
    requires playable { All (IsPlayable geometry.now) (arc_value commands.now) }
    requires places { map items_of places.items
        ≡ rows_for (hosts_of geometry.now) (arc_value commands.now) }
    ensures geometry { IfOk result (λ r. geometry_of (flash_of (arc_value r.0)) ≡ geometry.now) }
    ensures begun { IfOk result
        (λ r. HasBegun (arc_value r.0) (arc_value commands.now)
        (ends_of (arc_value commands.now)) r.1.workers.items) }
    ensures manned { IfOk result (λ r. AreManned (arc_value r.0) r.1.workers.items) }
    ensures collectors { IfOk result (λ r. length r.1.collectors.items ≡ brooms_of geometry.now) }
    ensures first { IfOk result (λ r. AreAtRunStart (arc_value r.0) drains 0 r.1.collectors.items) }
{
    let hosts = geometry.hosts() as usize;
    let brooms = geometry.brooms() as usize;
    let shares = make_shares(alloc, geometry, commands, places)?;
    let mut workers = Vec::with_capacity(alloc, hosts)?;
    let mut collectors = Vec::with_capacity(alloc, brooms)?;
    let unseated = open_shared(alloc, geometry)?;
    let worker_owners = more_owners(alloc, &unseated.volume, hosts)?;
    let collector_owners = more_owners(alloc, &unseated.volume, brooms)?;
    let (volume, passes, brooms) = unseated.into_parts();
    make_workers(&volume, passes, worker_owners, shares, &mut workers);
    make_collectors(&volume, brooms, collector_owners, drains, &mut collectors);
    Ok((volume, Team::new(alloc, workers, collectors)?))
}
