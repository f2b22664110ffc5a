ghost use Rattle.std.specs.Prelude.{◌≡◌, ◌+◌, ◌≤◌, ◌++◌, codes, decimal, length};
ghost use Rattle.trace.specs.Faults.{fault_text};
ghost use Rattle.answers.specs.{Outcome.run_text, Streams.over};
ghost use Rattle.player.specs.{Session.status_of, Telling.IsTold, Telling.TellsStop, Telling.stop_line, Telling.refusal_text};
ghost use Rattle.player.specs.declared.telling.TheConstants.{LINE_BYTES};

use crate::refusal::Refusal;
use crate::stop::Stop;
use answers::{RunFault, send};
use arrayvec::ArrayString;
use std::io::Write;
use trace::{TraceFault, Watched};

// The room for a line on standard error.
const LINE_BYTES: usize = 64;

type Line = ArrayString<LINE_BYTES>;

/// Reports why a session stopped, in one line or in the text of `clap`, which is written at once. Returns the exit status; whether the text was
/// written doesn't change it.
pub fn tell<E: Write>(stop: &Stop, errors: &mut Watched<E>) -> u8
    ensures status { result ≡ status_of stop.now }
    ensures reported { TellsStop stop.now (over E.contents errors.old errors.new) }
{
    if let Stop::Arguments(text) = stop {
        tell_text(text.as_str(), errors);
        return stop.status();
    }
    tell_text(line(stop).as_str(), errors);
    stop.status()
}

// Hands on a text, and doesn't mind whether it went out.
fn tell_text<E: Write>(text: &str, errors: &mut Watched<E>)
    ensures { IsTold text.now (over E.contents errors.old errors.new) }
{
    let _ = send(errors, text.as_bytes());
}

// The line that reports a stop. It is empty if the text is clap's.
fn line(stop: &Stop) -> Line
    ensures { result.bytes ≡ stop_line stop.now }
{
    match stop {
        Stop::Arguments(_) => ArrayString::new(),
        Stop::Encoding(place) => {
            let mut digits = itoa::Buffer::new();
            joined("argument ", digits.format(*place), ": not UTF-8\n")
        }
        Stop::Geometry(fault) => joined("geometry: ", fault.name(), "\n"),
        Stop::Run(fault) => run_line(*fault),
        Stop::Help => joined("output: ", "failed", "\n"),
        Stop::Memory => joined("memory: ", "refused", "\n"),
        Stop::File(file, why) => joined(file.name(), why.text(), "\n"),
        Stop::Refused(why, count) => refused_line(*why, *count),
    }
}

// The line that says how many writes were refused.
fn refused_line(why: Refusal, count: u64) -> Line
    ensures { result.bytes
        ≡ codes "writes refused: " ++ decimal count ++ codes " " ++ refusal_text why ++ codes "\n" }
{
    let mut digits = itoa::Buffer::new();
    let mut line = joined("writes refused: ", digits.format(count), " ");
    line.push_str(why.name());
    line.push_str("\n");
    line
}

// The line that reports why a run stopped.
fn run_line(fault: RunFault) -> Line
    ensures { result.bytes ≡ run_text fault ++ codes "\n" }
{
    match fault {
        RunFault::Trace(found) => trace_line(found),
        RunFault::Memory => joined("memory: ", "refused", "\n"),
        RunFault::Threads => joined("threads: ", "refused", "\n"),
        RunFault::Output => joined("output: ", "failed", "\n"),
    }
}

// The line that names a trace's fault.
fn trace_line(fault: TraceFault) -> Line
    ensures { result.bytes ≡ fault_text fault ++ codes "\n" }
{
    let mut digits = itoa::Buffer::new();
    let mut line = joined("line ", digits.format(fault.line), ": ");
    line.push_str(fault.kind.name());
    line.push_str("\n");
    line
}

// Three texts, one behind the other.
fn joined(first: &str, second: &str, third: &str) -> Line
    requires room { length first.now + length second.now + length third.now ≤ LINE_BYTES }
    ensures bytes { result.bytes ≡ first.now ++ second.now ++ third.now }
{
    let mut line = ArrayString::new();
    line.push_str(first);
    line.push_str(second);
    line.push_str(third);
    line
}
