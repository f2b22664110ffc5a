ghost use Rattle.std.specs.Prelude.{◌≡◌, ◌+◌, [], length, vec_len, All, IfErr, IfOk, IfSome, OnOk, OnErr, Err};
ghost use Rattle.std.specs.Io.KnownBytes.{IsAtEnd};
ghost use Rattle.geometry.specs.{Geometry.hosts_of, History.after};
ghost use Rattle.ftl_one.specs.{OneFtl.geometry_of, OneFtl.sectors, OneFtl.page_bytes, OneFtl.array_of, OneFtl.stock_of, Stock.opening};
ghost use Rattle.streams.specs.Watched.{failures_of, inner_of};
ghost use Rattle.answers.specs.{Answers.collection_names, Delivery.waiting_of, Outcome.ExplainsRun, Answers.IsPlayable};
ghost use Rattle.answers.specs.Streams.{Tells, WritesOut, over, stream_of, Whole, Writes, TellsIf};
ghost use Rattle.runs.specs.Logs.{IsLogOf, log_text, IsStockOf, IsWearOf, beginning_if, portion_left};
ghost use Rattle.runs.specs.{Logs.IsLogUnderWay, Logs.IsLogged, Logs.is_wanted, Outputs.ExplainsEnd, Outputs.IsOutputOf, Outputs.written_of};
ghost use Rattle.runs.specs.Playing.{IsTextOf, stock_before, IsRefusedCount, refused_before};

use crate::desk::Desk;
use crate::files::{RunFiles, Wanted, Written};
use crate::log::Log;
use crate::logged::answer_logged;
use crate::wear::{Played, tell_wear_if};
use answers::{OutputFailed, RunFault, read_commands};
use ftl_one::OneFtl;
use geometry::Geometry;
use std::alloc::Global;
use std::io::{self, Read, Write};
use streams::Watched;
use trace::Commands;

/// Plays a trace on a device for one thread, and writes its answers and the totals.
///
/// The whole trace is read and checked before the first command, and all memory is allocated before the
/// first byte is written.
pub fn run<R: Read, W: Write>(
    alloc: Global,
    reader: &mut Watched<R>,
    writer: &mut Watched<W>,
    geometry: &Geometry,
) -> Result<(), RunFault>
    requires { hosts_of geometry.now ≡ 0 }

    // The reader was read to its end, what was written is the text of all its bytes, and no call failed.
    ensures end { OnOk result (IsAtEnd (R.remaining (inner_of reader.new))) }
    ensures text { OnOk result
        (Tells Whole (IsTextOf geometry.now) (stream_of R.remaining reader.old)
        (over W.contents writer.old writer.new)) }
    ensures reader_unfailed { OnOk result (failures_of reader.new ≡ failures_of reader.old) }
    ensures writer_unfailed { OnOk result (failures_of writer.new ≡ failures_of writer.old) }

    // A fault says what happened. Only a failed writer has taken bytes, and those are a beginning of the text.
    ensures why { IfErr result
        (ExplainsRun IsTextOf geometry.now (over R.remaining reader.old reader.new)
        (over W.contents writer.old writer.new)) }
{
    let wanted = Wanted {
        answers: true,
        collections: false,
        wear: false,
    };
    let mut no_log = Watched::new(io::sink());
    match run_out(alloc, reader, writer, wanted, &mut no_log, geometry) {
        Ok(_) => Ok(()),
        Err(fault) => Err(fault),
    }
}

/// Plays a trace as `run` does, and writes what is wanted: the answers, the log of its collections as they are made, and the wear of the
/// device after it. Without the answers the output is the last line alone. If a file fails, the run continues without it, and its output
/// is complete.
pub fn run_with_files<R: Read, W: Write, V: Write>(
    alloc: Global,
    reader: &mut Watched<R>,
    writer: &mut Watched<W>,
    wanted: Wanted,
    files: &mut RunFiles<V>,
    geometry: &Geometry,
) -> Result<Written, RunFault>
    requires { hosts_of geometry.now ≡ 0 }
    ensures end { OnOk result (IsAtEnd (R.remaining (inner_of reader.new))) }
    ensures text { OnOk result
        (Tells Whole (IsOutputOf wanted.answers geometry.now)
        (stream_of R.remaining reader.old) (over W.contents writer.old writer.new)) }
    ensures reader_unfailed { OnOk result (failures_of reader.new ≡ failures_of reader.old) }
    ensures writer_unfailed { OnOk result (failures_of writer.new ≡ failures_of writer.old) }

    // The log is that of the trace, and the wear that of the device after it. Where a writer failed, a beginning was written.
    ensures collections { IfOk result
        (λ written. TellsIf wanted.collections
        (IsLogOf geometry.now) (stream_of R.remaining reader.old)
        (over V.contents files.old.collections files.new.collections) written.collections) }
    ensures wear { IfOk result
        (λ written. TellsIf wanted.wear (IsWearOf geometry.now) (stream_of R.remaining reader.old)
        (over V.contents files.old.wear files.new.wear) written.wear) }

    // So many writes were refused.
    ensures refused { IfOk result
        (λ written. IfSome (R.remaining (inner_of reader.old))
        (λ bytes. IsRefusedCount geometry.now bytes written.refused)) }

    // After a fault of the run no wear was written, and a part of the log only if the answers could not be written.
    ensures why { IfErr result
        (ExplainsRun (IsOutputOf wanted.answers) geometry.now
        (over R.remaining reader.old reader.new) (over W.contents writer.old writer.new)) }
    ensures log_left { IfErr result
        (λ fault. Tells (portion_left fault wanted.collections) (IsLogOf geometry.now)
        (stream_of R.remaining reader.old) (over V.contents files.old.collections files.new.collections)) }
    ensures no_wear { OnErr result
        (stream_of V.contents files.new.wear ≡ stream_of V.contents files.old.wear) }
{
    match run_out(
        alloc,
        reader,
        writer,
        wanted,
        &mut files.collections,
        geometry,
    ) {
        Ok(played) => {
            let Played { ftl, mut desk, log } = played;
            let refused = desk.refused;
            let collections = log.finish(&mut files.collections);
            let wear = tell_wear_if(wanted.wear, &ftl, &mut desk, &mut files.wear);
            Ok(Written {
                refused,
                collections,
                wear,
            })
        }
        Err(fault) => Err(fault),
    }
}

// Plays a trace and writes its output and its log, if one is wanted; returns the device, the desk and the log after it.
fn run_out<R: Read, W: Write, V: Write>(
    alloc: Global,
    reader: &mut Watched<R>,
    writer: &mut Watched<W>,
    wanted: Wanted,
    file: &mut Watched<V>,
    geometry: &Geometry,
) -> Result<Played, RunFault>
    requires { hosts_of geometry.now ≡ 0 }
    ensures ended { ExplainsEnd (IsOutputOf wanted.answers) geometry.now
        (over R.remaining reader.old reader.new) (over W.contents writer.old writer.new) result }
    ensures geometry { IfOk result (λ played. geometry_of played.ftl ≡ geometry.now) }
    ensures refused { IfOk result
        (λ played. IfSome (R.remaining (inner_of reader.old))
        (λ bytes. IsRefusedCount geometry.now bytes played.desk.refused)) }
    ensures stock { IfOk result
        (λ played. IfSome (R.remaining (inner_of reader.old))
        (λ bytes. IsStockOf geometry.now bytes (stock_of played.ftl))) }
    ensures wanted { IfOk result (λ played. is_wanted played.log ≡ wanted.collections) }
    ensures logged { IfOk result
        (λ played. IsLogUnderWay geometry.now (stream_of R.remaining reader.old) played.log
        (over V.contents file.old file.new)) }
    ensures log_left { IfErr result
        (λ fault. Tells (portion_left fault wanted.collections) (IsLogOf geometry.now)
        (stream_of R.remaining reader.old) (over V.contents file.old file.new)) }
{
    let commands = match read_commands(alloc, reader, geometry) {
        Ok(commands) => commands,
        Err(fault) => return Err(RunFault::Trace(fault)),
    };
    let Ok(mut ftl) = OneFtl::new(alloc, geometry) else {
        return Err(RunFault::Memory);
    };
    let Ok(mut desk) = Desk::new(alloc, geometry) else {
        return Err(RunFault::Memory);
    };
    let Ok(mut log) = Log::new(alloc, geometry, wanted.collections) else {
        return Err(RunFault::Memory);
    };
    let answers = wanted.answers;
    match play(
        &mut ftl, &commands, &mut desk, answers, writer, &mut log, file,
    ) {
        Ok(()) => Ok(Played { ftl, desk, log }),
        Err(OutputFailed) => Err(RunFault::Output),
    }
}

// Plays commands on an unused layer, writes the answers if they are wanted and the last line, and adds the collections to the log.
fn play<W: Write, V: Write>(
    ftl: &mut OneFtl,
    commands: &Commands,
    desk: &mut Desk,
    answers: bool,
    writer: &mut Watched<W>,
    log: &mut Log,
    file: &mut Watched<V>,
) -> Result<(), OutputFailed>
    requires array { array_of ftl.old ≡ after (sectors ftl.old) [] }
    requires stock { stock_of ftl.old ≡ opening (geometry_of ftl.old) }
    requires playable { All (IsPlayable (geometry_of ftl.old)) commands.now }
    requires page { vec_len desk.old.page ≡ page_bytes ftl.old }
    requires lines { waiting_of desk.old.lines ≡ [] }
    requires names { IsLogged log.old (over V.contents file.old file.old) collection_names }
    requires none_refused { desk.old.refused ≡ 0 }
    ensures sent { WritesOut (written_of answers (geometry_of ftl.old) commands.now)
        (over W.contents writer.old writer.new) result }
    ensures geometry { OnOk result (geometry_of ftl.new ≡ geometry_of ftl.old) }
    ensures refused { OnOk result (desk.new.refused
        ≡ refused_before (geometry_of ftl.old) commands.now (length commands.now)) }
    ensures stock { OnOk result
        (stock_of ftl.new ≡ stock_before (geometry_of ftl.old) commands.now (length commands.now)) }
    ensures lines_sent { OnOk result (waiting_of desk.new.lines ≡ []) }
    ensures wanted { is_wanted log.new ≡ is_wanted log.old }
    ensures logged { OnOk result
        (IsLogged log.new (over V.contents file.old file.new)
        (log_text (geometry_of ftl.old) commands.now)) }
    ensures log_left { OnErr result
        (Writes (beginning_if (is_wanted log.old)) (log_text (geometry_of ftl.old) commands.now)
        (over V.contents file.old file.new)) }
{
    for i in 0..commands.len() {
        desk.make_room(writer)?;
        let command = commands.command(i);
        answer_logged(ftl, desk, &command, i as u64 + 1, answers, log, file);
    }
    desk.make_room(writer)?;
    desk.end(ftl);
    desk.hand_on(writer)
}
