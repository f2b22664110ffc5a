ghost use Rattle.std.specs.Prelude.{◌≡◌, ◌+◌, ◌<◌, length, IfErr, IfOk, OnErr, OnOk};
ghost use Rattle.std.specs.Io.KnownBytes.{IsAtEnd};
ghost use Rattle.geometry.specs.Geometry.{brooms_of, hosts_of};
ghost use Rattle.streams.specs.Watched.{failures_of, inner_of};
ghost use Rattle.answers.specs.{Outcome.ExplainsRun, Streams.Tells, Streams.over, Streams.stream_of};
ghost use Rattle.answers.specs.Streams.{Whole, TellsIf};
ghost use Rattle.runs.specs.{Logs.IsBroomLogOf, ByWorkers.WasPlayed, Outputs.ExplainsEnd, Outputs.IsOutputByWorkers, Texts.IsTextOf};

use crate::broom_log::{log_room, tell_brooms_if};
use crate::delivery::Delivery;
use crate::files::RunOptions;
use crate::played_by_workers::PlayedByWorkers;
use answers::{OutputFailed, RunFault, read_commands};
use flash_table::{Gate, NoGate};
use geometry::{Geometry, MAX_BROOMS, MAX_HOSTS};
use std::alloc::Global;
use std::io::{self, Read, Write};
use std::sync::{Arc, Wait};
use std::thread::Threads;
use std::time::Clock;
use streams::Watched;
use workers::{RoundFault, play_commands};

// The most threads of a round: a worker for each host, and the brooms.
const MAX_THREADS: usize = MAX_HOSTS as usize + MAX_BROOMS as usize;

/// Plays a trace on a shared device: each worker plays its lines in its own thread, brooms collect at the same time, and then the answers are
/// written in the order of the trace. There is a gate for each worker, and then one for each broom.
///
/// The whole trace is read and checked before the first command. A write that finds no block is tried at most `patience` times, and a broom
/// drains at most `drains` blocks by one survey. After a fault no thread runs.
#[allow(clippy::too_many_arguments)]
pub fn run_shared<T: Threads + Wait + Clock + Sync, R: Read, W: Write, G: Gate + Send>(
    rt: &T,
    alloc: Global,
    reader: &mut Watched<R>,
    writer: &mut Watched<W>,
    geometry: &Geometry,
    patience: u32,
    drains: u32,
    gates: &mut [G],
) -> Result<(), RunFault>
    requires hosts { 0 < hosts_of geometry.now }
    requires gates { length gates.old ≡ hosts_of geometry.now + brooms_of geometry.now }

    // The reader was read to its end, what was written is a text of all its bytes, and no call failed.
    ensures end { OnOk result (IsAtEnd (R.remaining (inner_of reader.new))) }
    ensures text { OnOk result
        (Tells Whole (IsTextOf geometry.now) (stream_of R.remaining reader.old)
        (over W.contents writer.old writer.new)) }
    ensures reader_unfailed { OnOk result (failures_of reader.new ≡ failures_of reader.old) }
    ensures writer_unfailed { OnOk result (failures_of writer.new ≡ failures_of writer.old) }

    // A fault says what happened. Only a failed writer has taken bytes, and those are a beginning of a text.
    ensures why { IfErr result
        (ExplainsRun IsTextOf geometry.now (over R.remaining reader.old reader.new)
        (over W.contents writer.old writer.new)) }
{
    let options = RunOptions {
        patience,
        drains,
        answers: true,
        log: false,
    };
    let mut no_log = Watched::new(io::sink());
    match run_logged(
        rt,
        alloc,
        reader,
        writer,
        &mut no_log,
        geometry,
        options,
        gates,
    ) {
        Ok(_) => Ok(()),
        Err(fault) => Err(fault),
    }
}

// Plays a trace as `run_shared` does, with these options: writes its output with or without the answers, and then what each broom has done, if
// that is wanted.
fn run_logged<T: Threads + Wait + Clock + Sync, R: Read, W: Write, V: Write, G: Gate + Send>(
    rt: &T,
    alloc: Global,
    reader: &mut Watched<R>,
    writer: &mut Watched<W>,
    file: &mut Watched<V>,
    geometry: &Geometry,
    options: RunOptions,
    gates: &mut [G],
) -> Result<PlayedByWorkers, RunFault>
    requires hosts { 0 < hosts_of geometry.now }
    requires gates { length gates.old ≡ hosts_of geometry.now + brooms_of geometry.now }
    ensures ended { ExplainsEnd (IsOutputByWorkers options.answers) geometry.now
        (over R.remaining reader.old reader.new) (over W.contents writer.old writer.new) result }
    ensures played { IfOk result
        (WasPlayed geometry.now options (stream_of R.remaining reader.old)
        (over W.contents writer.old writer.new) (over V.contents file.old file.new)) }
    ensures log { IfOk result
        (λ run. TellsIf options.log (IsBroomLogOf options.drains geometry.now)
        (stream_of R.remaining reader.old)
        (over V.contents file.old file.new) run.log) }
    ensures no_log { OnErr result (stream_of V.contents file.new ≡ stream_of V.contents file.old) }
{
    let commands = match read_commands(alloc, reader, geometry) {
        Ok(commands) => commands,
        Err(fault) => return Err(RunFault::Trace(fault)),
    };
    let Ok(delivery) = Delivery::new(alloc, geometry) else {
        return Err(RunFault::Memory);
    };
    let Ok(log) = log_room(alloc, geometry, options.log) else {
        return Err(RunFault::Memory);
    };
    let Ok(commands) = Arc::new(alloc, commands) else {
        return Err(RunFault::Memory);
    };
    let (patience, drains) = (options.patience, options.drains);
    let end = match play_commands(rt, alloc, geometry, &commands, patience, drains, gates) {
        Ok(end) => end,
        Err(RoundFault::Memory) => return Err(RunFault::Memory),
        Err(RoundFault::Threads) => return Err(RunFault::Threads),
    };
    match delivery.write_out(options.answers, &commands, &end.rows, writer) {
        Ok(()) => {
            let log = tell_brooms_if(log, &end.brooms, file);
            Ok(PlayedByWorkers { commands, end, log })
        }
        Err(OutputFailed) => Err(RunFault::Output),
    }
}

/// Plays a trace as `run_shared` does, with gates that do nothing, and then writes the log if it is wanted: what each broom has done. If the
/// answers aren't wanted, the output is the last line alone. If the log fails, the output is complete. Returns what was played.
#[allow(clippy::too_many_arguments)]
pub fn run_by_workers<T: Threads + Wait + Clock + Sync, R: Read, W: Write, V: Write>(
    rt: &T,
    alloc: Global,
    reader: &mut Watched<R>,
    writer: &mut Watched<W>,
    file: &mut Watched<V>,
    geometry: &Geometry,
    options: RunOptions,
) -> Result<PlayedByWorkers, RunFault>
    requires { 0 < hosts_of geometry.now }
    ensures end { OnOk result (IsAtEnd (R.remaining (inner_of reader.new))) }
    ensures text { OnOk result
        (Tells Whole (IsOutputByWorkers options.answers geometry.now)
        (stream_of R.remaining reader.old) (over W.contents writer.old writer.new)) }
    ensures reader_unfailed { OnOk result (failures_of reader.new ≡ failures_of reader.old) }
    ensures writer_unfailed { OnOk result (failures_of writer.new ≡ failures_of writer.old) }

    // Each line was played, also if its answer isn't wanted: these are the answers, and the output and the log are of the same run.
    ensures played { IfOk result
        (WasPlayed geometry.now options (stream_of R.remaining reader.old)
        (over W.contents writer.old writer.new) (over V.contents file.old file.new)) }

    // The log has the counts of each broom, within this limit of drains by one survey. If its writer failed, a beginning was written.
    ensures log { IfOk result
        (λ run. TellsIf options.log (IsBroomLogOf options.drains geometry.now)
        (stream_of R.remaining reader.old)
        (over V.contents file.old file.new) run.log) }

    // After a fault of the run no log was written.
    ensures why { IfErr result
        (ExplainsRun (IsOutputByWorkers options.answers) geometry.now
        (over R.remaining reader.old reader.new) (over W.contents writer.old writer.new)) }
    ensures no_log { OnErr result (stream_of V.contents file.new ≡ stream_of V.contents file.old) }
{
    let mut gates = [NoGate; MAX_THREADS];
    let threads = geometry.hosts() as usize + geometry.brooms() as usize;
    run_logged(
        rt,
        alloc,
        reader,
        writer,
        file,
        geometry,
        options,
        &mut gates[..threads],
    )
}
