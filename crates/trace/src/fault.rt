ghost use Rattle.std.specs.Prelude.{◌≡◌, ◌≤◌, Some, length};
ghost use Rattle.trace.specs.Faults.{fault_text, kind_name};

use std::error::Error;
use std::fmt;

/// Why a trace can't be played.
#[derive(Clone, Copy, Debug, PartialEq, Eq)]
pub struct TraceFault {
    /// The number of the faulty record, from 1. It is 0 for `Read`, `Memory` and `Big`.
    pub line: u64,
    pub kind: TraceFaultKind,
}

/// What is wrong with a record, in the order of the checks, or with the trace as a whole.
#[derive(Clone, Copy, Debug, PartialEq, Eq)]
pub enum TraceFaultKind {
    /// A record doesn't have four fields.
    Fields,
    /// The worker is not a number, or too large.
    Worker,
    /// The op is none of the five.
    Op,
    /// The sector is not a number, or too large.
    Sector,
    /// The data of a write is not an even number of hexadecimal digits.
    Hex,
    /// A write has more data than a page.
    TooLong,
    /// A read, a trim or a meet has data, or a meet names a worker or a sector.
    Unused,
    /// The reader failed.
    Read,
    /// Memory ran out.
    Memory,
    /// The trace has more than `MAX_TRACE_BYTES`.
    Big,
}

impl TraceFault {
    ghost use Rattle.trace.specs.Trace.{whole_fault};

    // A fault of no record.
    pub(crate) fn whole(kind: TraceFaultKind) -> TraceFault
        ensures { result ≡ whole_fault kind }
    {
        TraceFault { line: 0, kind }
    }
}

impl fmt::Display for TraceFault {
    ghost output = { λ fault. Some (fault_text fault) };

    fn fmt<W: fmt::Write>(&self, f: &mut fmt::Formatter<W>) -> fmt::Result {
        let line = self.line;
        let kind = self.kind;
        write!(f, "line {line}: {kind}")
    }
}

impl Error for TraceFault {}

impl TraceFaultKind {
    /// The kind's name, as it is printed.
    pub fn name(self) -> &'static str
        ensures name { result.now ≡ kind_name self }
        ensures short { length result.now ≤ 7 }
    {
        match self {
            TraceFaultKind::Fields => "Fields",
            TraceFaultKind::Worker => "Worker",
            TraceFaultKind::Op => "Op",
            TraceFaultKind::Sector => "Sector",
            TraceFaultKind::Hex => "Hex",
            TraceFaultKind::TooLong => "TooLong",
            TraceFaultKind::Unused => "Unused",
            TraceFaultKind::Read => "Read",
            TraceFaultKind::Memory => "Memory",
            TraceFaultKind::Big => "Big",
        }
    }
}

impl fmt::Display for TraceFaultKind {
    ghost output = { λ kind. Some (kind_name kind) };

    fn fmt<W: fmt::Write>(&self, f: &mut fmt::Formatter<W>) -> fmt::Result {
        f.write_str(self.name())
    }
}

impl Error for TraceFaultKind {}
