use answers::RunFault;
use geometry::GeometryFault;
use std::alloc::{AllocError, AllocFailed};
use std::fmt;
use trace::TraceFaultKind;

/// Why a run ended with another status than 0.
#[derive(Debug, Drop)]
pub enum Stop {
    /// The arguments are refused, for the reason in this text.
    Arguments(String),
    /// The numbers make no device.
    Geometry(GeometryFault),
    Run(RunFault),
}

impl Stop {
    /// The exit status, as flashplay's.
    pub fn status(&self) -> u8 {
        match self {
            Stop::Arguments(_) | Stop::Geometry(_) => 2,
            Stop::Run(RunFault::Trace(fault)) => match fault.kind {
                TraceFaultKind::Read => 1,
                TraceFaultKind::Memory => 4,
                _ => 3,
            },
            Stop::Run(RunFault::Memory | RunFault::Threads) => 4,
            Stop::Run(RunFault::Output) => 1,
        }
    }
}

impl From<AllocError> for Stop {
    fn from(_: AllocError) -> Stop {
        Stop::Run(RunFault::Memory)
    }
}

impl<T: Drop> From<AllocFailed<T>> for Stop {
    fn from(_: AllocFailed<T>) -> Stop {
        Stop::Run(RunFault::Memory)
    }
}

impl fmt::Display for Stop {
    fn fmt<W: fmt::Write>(&self, f: &mut fmt::Formatter<W>) -> fmt::Result {
        match self {
            Stop::Arguments(text) => f.write_str(text.as_str()),
            Stop::Geometry(fault) => write!(f, "geometry: {fault}\n"),
            Stop::Run(fault) => write!(f, "{fault}\n"),
        }
    }
}
