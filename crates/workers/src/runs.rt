//! A run over all rounds of a trace.
ghost use Rattle.std.specs.Prelude.{◌≡◌, ◌+◌, All, IfOk, Ok, length, map, true};
ghost use Rattle.workers.specs.Collecting.{HaveCollected};
ghost use Rattle.workers.specs.Meetings.{AreSeated, PassesMet, passes_of, rest_of};
ghost use Rattle.workers.specs.Runs.{RoundPlayed, AreManned, EndsRun};
ghost use Rattle.workers.specs.Tasks.{HavePlayed};
ghost use Rattle.workers.specs.Workers.{IsIdle};

pub(crate) mod commands;
pub(crate) mod run_end;

use crate::fault::RoundFault;
use crate::team::{Team, play_workers};
use crate::worker::Worker;
use crate::worker::meetings::meet_all;
use crate::worker::round_limits::RoundLimits;
use flash_table::Gate;
use std::sync::Wait;
use std::thread::Threads;
use std::time::Clock;
use volume::Volume;

// Whether no worker has a line in the round.
fn have_no_line(workers: &[Worker], end: usize) -> bool
    ensures idle { result ≡ true → All (IsIdle end) workers.now }
    ensures busy { All (IsIdle end) workers.now → result ≡ true }
{
    for worker in workers {
        if worker.has_line_before(end) {
            return false;
        }
    }
    true
}

// Plays the workers' lines. Where there is none, no thread is started.
fn play_team<R: Threads + Wait + Clock + Sync, G: Gate + Send>(
    rt: &R,
    team: Team,
    limits: RoundLimits,
    gates: &mut [G],
) -> Result<Team, RoundFault>
    requires gates { length team.workers.items + length team.collectors.items ≡ length gates.old }
    ensures idle { All (IsIdle limits.end) team.workers.items → result ≡ Ok team }
    ensures played { IfOk result (λ back. HavePlayed limits team.workers.items back.workers.items) }
    ensures collected { IfOk result
        (λ back. HaveCollected team.collectors.items back.collectors.items) }
{
    if have_no_line(&team.workers, limits.end) {
        return Ok(team);
    }
    play_workers(rt, team, limits, gates)
}

// Plays the round before an end: each worker with a line in it has a thread, brooms collect at the same time, and after all threads are joined the
// passes meet.
fn play_round<R: Threads + Wait + Clock + Sync, G: Gate + Send>(
    rt: &R,
    volume: &Volume,
    team: Team,
    end: usize,
    patience: u32,
    gates: &mut [G],
) -> Result<Team, RoundFault>
    requires gates { length team.workers.items + length team.collectors.items ≡ length gates.old }
    requires manned { AreManned volume.now team.workers.items }
    ensures played { IfOk result
        (λ back. RoundPlayed volume.now patience end team.workers.items back.workers.items) }
    ensures manned { IfOk result (λ back. AreManned volume.now back.workers.items) }
    ensures count { IfOk result (λ back. length back.workers.items ≡ length team.workers.items) }
    ensures collected { IfOk result
        (λ back. HaveCollected team.collectors.items back.collectors.items) }
{
    let mut team = play_team(rt, team, RoundLimits { end, patience }, gates)?;
    meet_all(volume, &mut team.workers);
    Ok(team)
}

// Plays all rounds of a trace, which `ends` separate. After a fault no thread runs, and all passes and brooms are retired.
pub(crate) fn play_rounds<R: Threads + Wait + Clock + Sync, G: Gate + Send>(
    rt: &R,
    volume: &Volume,
    team: Team,
    ends: &[usize],
    patience: u32,
    gates: &mut [G],
) -> Result<Team, RoundFault>
    requires gates { length team.workers.items + length team.collectors.items ≡ length gates.old }
    requires manned { AreManned volume.now team.workers.items }
    ensures run { IfOk result
        (λ back. EndsRun volume.now patience ends.now team.workers.items back.workers.items) }
    ensures manned { IfOk result (λ back. AreManned volume.now back.workers.items) }
    ensures collected { IfOk result
        (λ back. HaveCollected team.collectors.items back.collectors.items) }
{
    let mut team = team;
    for i in 0..ends.len() {
        team = play_round(rt, volume, team, ends[i], patience, gates)?;
    }
    Ok(team)
}
