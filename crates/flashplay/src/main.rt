//! `flashplay`: plays a trace from standard input on a page-mapped flash layer, and writes its answers
//! to standard output.
#![tactic(auto)]

mod closed_streams;
mod out_file;

use closed_streams::ClosedStreams;
use out_file::{OutFile, Place};
use player::{RunFiles, Stop, Watched, read_words, session, tell};
use std::io::Write;
use std::process::ExitCode;
use std::sync::Wait;
use std::thread::Threads;
use std::time::Clock;

fn main(rt: HostRuntime) -> ExitCode {
    let mut errors = Watched::new(rt.stderr());
    let status = match play(&rt, &rt, &mut errors) {
        Ok(status) => status,
        Err(stop) => tell(&stop, &mut errors),
    };
    ExitCode::from(status)
}

// Runs a session on the arguments and the standard streams. Its threads are started by a handle of their own.
fn play<T: Threads + Wait + Clock + Sync, E: Write>(
    rt: &HostRuntime,
    threads: &T,
    errors: &mut Watched<E>,
) -> Result<u8, Stop> {
    let alloc = rt.alloc();
    let arguments = read_words(rt, alloc)?;
    let mut words = Vec::new(alloc);
    for argument in &arguments {
        if words.push(argument.as_str()).is_err() {
            return Err(Stop::Memory);
        }
    }
    let mut input = Watched::new(rt.stdin());
    let mut output = Watched::new(rt.stdout());
    let _closed = ClosedStreams::keep(rt);
    let opened = Place::new(None);
    let mut files = RunFiles {
        collections: Watched::new(OutFile::new(rt, &opened)),
        wear: Watched::new(OutFile::new(rt, &opened)),
    };
    Ok(session(
        threads,
        alloc,
        &words,
        &mut input,
        &mut output,
        errors,
        &mut files,
    ))
}
