ghost use Rattle.std.specs.Prelude.{◌≡◌, ◌≢◌, Some, is_some, map, option_map, true, IfErr, IfOk, OnErr, OnOk};
ghost use Rattle.geometry.specs.{Geometry.hosts_of, Geometry.numbers_of, Limits.first_fault};
ghost use Rattle.streams.specs.declared.named_file.OpenFault.{OpenFault};
ghost use Rattle.answers.specs.Streams.{over, stream_of};
ghost use Rattle.player.specs.{CommandLine.numbers_given, Session.outcome_of, Session.stop_of_open};
ghost use Rattle.player.specs.Session.{AnswersClap, EndsOn, EndsSession, Explains, HasFailedToOpen, IsOpened, OpensFiles, counted_refusals, filing, filings};
ghost use Rattle.runs.specs.{ByWorkers.IsAnswered, ByWorkers.answers_played, ByWorkers.commands_played, Playing.refused_by_workers};

use crate::arguments::options;
use crate::command_line::Options;
use crate::refusal::Refusal;
use crate::run_files::{FileStop, RunFile};
use crate::stop::Stop;
use crate::telling::tell;
use answers::{OutputFailed, send};
use clap::error::ErrorKind;
use geometry::{DeviceNumbers, Geometry, GeometryFault};
use runs::{PlayedByWorkers, RunFiles, RunOptions, Wanted, run_by_workers, run_with_files};
use std::alloc::Global;
use std::io::{Read, Write};
use std::sync::Wait;
use std::thread::Threads;
use std::time::Clock;
use trace::{NamedFile, Watched};

/// A whole session of the program: its arguments, its device, and its run. Returns the exit status. A fault is reported
/// in a line on `errors`; whether that line was written doesn't change the status. The files that the arguments name are
/// opened before the trace is read, and written after it was played.
///
/// | Status | When |
/// |---|---|
/// | 0 | everything was written: the answers, or the help or the version that the arguments asked for |
/// | 1 | the input, the output or a file failed |
/// | 2 | the arguments are refused, describe no device, or name a file that the run already uses |
/// | 3 | the trace has a fault, or is too big |
/// | 4 | memory ran out, or a thread could not be started |
/// | 5 | all was written, but writes were refused, and the options want all of them done |
pub fn session<'a, T: Threads + Wait + Clock + Sync, R: Read, W: Write, E: Write, F: NamedFile>(
    rt: &T,
    alloc: Global,
    words: &'a [&'a str],
    reader: &mut Watched<R>,
    writer: &mut Watched<W>,
    errors: &mut Watched<E>,
    files: &mut RunFiles<F>,
) -> u8
    ensures ending { EndsSession result (map (λ w. w.now) words.entry.now)
        (over R.remaining reader.old reader.new)
        (over W.contents writer.old writer.new)
        (over E.contents errors.old errors.new)
        (filings F.opened_as F.refused_as F.contents files.old files.new) }

    // A session that ends well writes nothing there.
    ensures quiet { result ≡ 0 → stream_of E.contents errors.new ≡ stream_of E.contents errors.old }
{
    match attempt(rt, alloc, words, reader, writer, files) {
        Ok(()) => 0,
        Err(stop) => tell(&stop, errors),
    }
}

// Reads the arguments, makes the device and plays the trace.
fn attempt<'a, T: Threads + Wait + Clock + Sync, R: Read, W: Write, F: NamedFile>(
    rt: &T,
    alloc: Global,
    words: &'a [&'a str],
    reader: &mut Watched<R>,
    writer: &mut Watched<W>,
    files: &mut RunFiles<F>,
) -> Result<(), Stop>
    ensures { Explains result (map (λ w. w.now) words.entry.now)
        (over R.remaining reader.old reader.new)
        (over W.contents writer.old writer.new)
        (filings F.opened_as F.refused_as F.contents files.old files.new) }
{
    let given = match options(alloc, words) {
        Ok(given) => given,
        Err(error) => return refuse(alloc, error, writer),
    };
    let geometry = match device(given) {
        Ok(geometry) => geometry,
        Err(fault) => return Err(Stop::Geometry(fault)),
    };
    match geometry.hosts() {
        0 => play_alone(alloc, given, reader, writer, files, &geometry),
        _ => play_shared(rt, alloc, given, reader, writer, files, &geometry),
    }
}

// Plays the trace by one thread, and writes the files that the options name. They are opened before the trace is read.
fn play_alone<R: Read, W: Write, F: NamedFile>(
    alloc: Global,
    given: Options<'_>,
    reader: &mut Watched<R>,
    writer: &mut Watched<W>,
    files: &mut RunFiles<F>,
    geometry: &Geometry,
) -> Result<(), Stop>
    requires { hosts_of geometry.now ≡ 0 }
    ensures { EndsOn result geometry.now given.entry
        (over R.remaining reader.old reader.new)
        (over W.contents writer.old writer.new)
        (filings F.opened_as F.refused_as F.contents files.old files.new) }
{
    if let Err(stop) = open_files(given, files) {
        return Err(stop);
    }
    let wanted = Wanted {
        answers: !given.quiet,
        collections: given.collections.is_some(),
        wear: given.wear.is_some(),
    };
    match run_with_files(alloc, reader, writer, wanted, files, geometry) {
        Ok(written) => {
            let count = if_counted(given, written.refused);
            outcome(written.collections, written.wear, Refusal::Worn, count)
        }
        Err(fault) => Err(Stop::Run(fault)),
    }
}

// Plays the trace by a worker for each host of the device, and writes the log of the brooms if the options name it. It is opened before the trace
// is read. Workers write no wear.
fn play_shared<T: Threads + Wait + Clock + Sync, R: Read, W: Write, F: NamedFile>(
    rt: &T,
    alloc: Global,
    given: Options<'_>,
    reader: &mut Watched<R>,
    writer: &mut Watched<W>,
    files: &mut RunFiles<F>,
    geometry: &Geometry,
) -> Result<(), Stop>
    requires { hosts_of geometry.now ≢ 0 }
    ensures { EndsOn result geometry.now given.entry
        (over R.remaining reader.old reader.new)
        (over W.contents writer.old writer.new)
        (filings F.opened_as F.refused_as F.contents files.old files.new) }
{
    if given.wear.is_some() {
        return Err(Stop::File(RunFile::Wear, FileStop::NotWithWorkers));
    }
    if let Err(stop) = open_files(given, files) {
        return Err(stop);
    }
    let answers = !given.quiet;
    let options = RunOptions {
        patience: given.patience,
        drains: given.drains,
        answers,
        log: given.collections.is_some(),
    };
    match run_by_workers(
        rt,
        alloc,
        reader,
        writer,
        &mut files.collections,
        geometry,
        options,
    ) {
        Ok(played) => {
            let count = count_if_wanted(given, &played);
            outcome(played.log, Ok(()), Refusal::Full, count)
        }
        Err(fault) => Err(Stop::Run(fault)),
    }
}

// How many of the refused writes are counted: all if the options want all writes done.
fn if_counted(given: Options<'_>, refused: u64) -> u64
    ensures { result ≡ counted_refusals given.entry refused }
{
    if given.all_written { refused } else { 0 }
}

// The same of a run by workers, whose answers are searched only then.
fn count_if_wanted(given: Options<'_>, played: &PlayedByWorkers) -> u64
    requires { IsAnswered played.now }
    ensures { result
        ≡ counted_refusals given.entry
        (refused_by_workers (commands_played played.now) (answers_played played.now)) }
{
    if given.all_written {
        played.refused()
    } else {
        0
    }
}

// Opens the files that the options name.
fn open_files<F: NamedFile>(given: Options<'_>, files: &mut RunFiles<F>) -> Result<(), Stop>
    ensures { OpensFiles result given.entry
        (filings F.opened_as F.refused_as F.contents files.old files.new) }
{
    if let Err(why) = open_file(given.wear, &mut files.wear) {
        return Err(Stop::File(RunFile::Wear, why));
    }
    if let Err(why) = open_file(given.collections, &mut files.collections) {
        return Err(Stop::File(RunFile::Collections, why));
    }
    Ok(())
}

// Opens a file, if it is named.
fn open_file<F: NamedFile>(name: Option<&str>, file: &mut Watched<F>) -> Result<(), FileStop>
    ensures opened { OnOk result
        (IsOpened (option_map (λ n. n.now) name.entry)
        (filing F.opened_as F.refused_as F.contents file.old file.new)) }
    ensures asked { OnErr result (is_some (option_map (λ n. n.now) name.entry) ≡ true) }
    ensures unopened { IfErr result (λ why. (fault : OpenFault) × (why ≡ stop_of_open fault)
        × HasFailedToOpen fault (filing F.opened_as F.refused_as F.contents file.old file.new)) }
{
    let Some(name) = name else {
        return Ok(());
    };
    match file.open(name) {
        Ok(()) => Ok(()),
        Err(fault) => Err(FileStop::of_open(fault)),
    }
}

// How a run ends, by how its log and its wear were written, and by how many refused writes are counted.
fn outcome(
    collections: Result<(), OutputFailed>,
    wear: Result<(), OutputFailed>,
    why: Refusal,
    refused: u64,
) -> Result<(), Stop>
    ensures { result ≡ outcome_of collections wear why refused }
{
    if let Err(OutputFailed) = collections {
        return Err(Stop::File(RunFile::Collections, FileStop::Failed));
    }
    if let Err(OutputFailed) = wear {
        return Err(Stop::File(RunFile::Wear, FileStop::Failed));
    }
    if refused > 0 {
        return Err(Stop::Refused(why, refused));
    }
    Ok(())
}

// The device of these numbers, with a host for each worker.
fn device(given: Options<'_>) -> Result<Geometry, GeometryFault>
    ensures numbers { IfOk result (λ geo. numbers_of geo ≡ numbers_given given.entry) }
    ensures first { IfErr result (λ found. first_fault (numbers_given given.entry) ≡ Some found) }
{
    Geometry::of(DeviceNumbers {
        luns: given.luns,
        blocks: given.blocks,
        pages: given.pages,
        words: given.words,
        sectors: given.sectors,
        endurance: given.endurance,
        hosts: given.workers,
        brooms: given.brooms,
    })
}

// Answers clap's refusal: the help or the version that the words ask for goes to the output.
fn refuse<W: Write>(alloc: Global, error: clap::Error, writer: &mut Watched<W>) -> Result<(), Stop>
    ensures { AnswersClap error result (over W.contents writer.old writer.new) }
{
    if let ErrorKind::OutOfMemory = error.kind() {
        return Err(Stop::Memory);
    }
    let Ok(text) = error.to_string(alloc) else {
        return Err(Stop::Memory);
    };
    if let ErrorKind::DisplayHelp | ErrorKind::DisplayVersion = error.kind() {
        return match send(writer, text.as_bytes()) {
            Ok(()) => Ok(()),
            Err(OutputFailed) => Err(Stop::Help),
        };
    }
    Err(Stop::Arguments(text))
}
