ghost use Rattle.std.specs.Prelude.{Some};
ghost use Rattle.answers.specs.Outcome.{run_text};

use std::error::Error;
use std::fmt;
use trace::TraceFault;

/// Why the output of a run is missing or incomplete.
#[derive(Clone, Copy, Debug, PartialEq, Eq)]
pub enum RunFault {
    /// The trace could not be read, or has a fault.
    Trace(TraceFault),
    /// Memory ran out before the first answer was written.
    Memory,
    /// A thread could not be started.
    Threads,
    /// The writer failed; a beginning of the output was written.
    Output,
}

impl fmt::Display for RunFault {
    ghost output = { λ fault. Some (run_text fault) };

    fn fmt<W: fmt::Write>(&self, f: &mut fmt::Formatter<W>) -> fmt::Result {
        match self {
            RunFault::Trace(fault) => write!(f, "{fault}"),
            RunFault::Memory => f.write_str("memory: refused"),
            RunFault::Threads => f.write_str("threads: refused"),
            RunFault::Output => f.write_str("output: failed"),
        }
    }
}

impl Error for RunFault {}
