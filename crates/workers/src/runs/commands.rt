//! A whole run over the commands of a trace.
ghost use Rattle.std.specs.Prelude.{◌≡◌, ◌+◌, ◌<◌, All, IfOk, length};
ghost use Rattle.std.specs.Arc.{arc_value};
ghost use Rattle.geometry.specs.Geometry.{brooms_of, hosts_of, page_bytes_of};
ghost use Rattle.answers.specs.Answers.{IsPlayable};
ghost use Rattle.rounds.specs.Answers.{page_size_of};
ghost use Rattle.rounds.specs.Merging.{answers_by};
ghost use Rattle.workers.specs.Runs.{ArePlayed};
ghost use Rattle.workers.specs.Served.{AllHaveServed};

use crate::fault::RoundFault;
use crate::runs::play_rounds;
use crate::runs::run_end::RunEnd;
use crate::team::Team;
use crate::team::dealing::deal;
use crate::team::leaving::{fold_collectors, hand_out};
use flash_table::Gate;
use geometry::Geometry;
use rounds::Plan;
use std::alloc::Global;
use std::sync::{Arc, Wait};
use std::thread::Threads;
use std::time::Clock;
use trace::Commands;

/// Plays the commands of a trace on a new device, with a thread for each worker that has a line in a round, and with brooms at the same time. There
/// is a gate for each host, and then one for each broom. A broom drains at most `drains` blocks by one survey. Returns the answers of each
/// worker, and what each broom has done. After a fault no thread runs, and everything is freed.
pub fn play_commands<R: Threads + Wait + Clock + Sync, G: Gate + Send>(
    rt: &R,
    alloc: Global,
    geometry: &Geometry,
    commands: &Arc<Commands, Global>,
    patience: u32,
    drains: u32,
    gates: &mut [G],
) -> Result<RunEnd, RoundFault>
    requires hosts { 0 < hosts_of geometry.now }
    requires playable { All (IsPlayable geometry.now) (arc_value commands.now) }
    requires gates { length gates.old ≡ hosts_of geometry.now + brooms_of geometry.now }
    ensures rows { IfOk result (λ end. length end.rows.items ≡ hosts_of geometry.now) }
    ensures pages { IfOk result
        (λ end. All (λ row. page_size_of row ≡ page_bytes_of geometry.now) end.rows.items) }
    ensures played { IfOk result
        (λ end. ArePlayed geometry.now (arc_value commands.now) (answers_by end.rows.items)) }
    ensures brooms { IfOk result (λ end. AllHaveServed geometry.now drains end.brooms.items) }
{
    let Plan { places, ends } = Plan::new(alloc, commands, geometry.hosts())?;
    let mut rows = Vec::with_capacity(alloc, geometry.hosts() as usize)?;
    let mut brooms = Vec::with_capacity(alloc, geometry.brooms() as usize)?;
    let (volume, team) = deal(alloc, geometry, commands, places, drains)?;
    let team = play_rounds(rt, &volume, team, &ends, patience, gates)?;
    let Team {
        workers,
        collectors,
        tasks: _,
        collecting: _,
    } = team;
    fold_collectors(rt, collectors, &mut brooms);
    hand_out(workers, &mut rows);
    Ok(RunEnd { rows, brooms })
}
