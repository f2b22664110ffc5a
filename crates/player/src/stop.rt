ghost use Rattle.std.specs.Prelude.{◌≡◌};
ghost use Rattle.player.specs.Session.{status_of_file, status_of_run, status_of_trace};

use crate::refusal::Refusal;
use crate::run_files::{FileStop, RunFile};
use answers::RunFault;
use geometry::GeometryFault;
use trace::TraceFaultKind;

/// Why a session ended with another status than 0.
#[derive(Debug, Drop)]
pub enum Stop {
    /// The arguments are refused, for the reason in this text.
    Arguments(String),
    /// The argument of this number isn't UTF-8; they count from 1.
    Encoding(u64),
    /// The numbers make no device.
    Geometry(GeometryFault),
    /// The run stopped.
    Run(RunFault),
    /// The help could not be written.
    Help,
    /// Memory ran out before the run.
    Memory,
    /// A file that the command line names was not written. If it failed after it was opened, the answers are complete.
    File(RunFile, FileStop),
    /// The run refused this many writes, and the options want all of them done. Everything else was written.
    Refused(Refusal, u64),
}

impl Stop {
    ghost use Rattle.player.specs.Session.{status_of};

    /// The exit status.
    pub fn status(&self) -> u8
        ensures { result ≡ status_of self.now }
    {
        match self {
            Stop::Arguments(_) | Stop::Encoding(_) | Stop::Geometry(_) => 2,
            Stop::Run(fault) => run_status(*fault),
            Stop::Help => 1,
            Stop::Memory => 4,
            Stop::File(_, why) => file_status(*why),
            Stop::Refused(_, _) => 5,
        }
    }
}

fn file_status(why: FileStop) -> u8
    ensures { result ≡ status_of_file why }
{
    match why {
        FileStop::NotWithWorkers | FileStop::NotItsOwn => 2,
        FileStop::NotOpened | FileStop::Failed => 1,
    }
}

fn run_status(fault: RunFault) -> u8
    ensures { result ≡ status_of_run fault }
{
    match fault {
        RunFault::Trace(found) => trace_status(found.kind),
        RunFault::Memory | RunFault::Threads => 4,
        RunFault::Output => 1,
    }
}

fn trace_status(kind: TraceFaultKind) -> u8
    ensures { result ≡ status_of_trace kind }
{
    match kind {
        TraceFaultKind::Read => 1,
        TraceFaultKind::Memory => 4,
        _ => 3,
    }
}
