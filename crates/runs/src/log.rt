ghost use Rattle.std.specs.Prelude.{◌≡◌, [], ◌++◌, List, ℕ, IfOk};
ghost use Rattle.ftl_one.specs.OneFtl.{geometry_of, stock_of};
ghost use Rattle.answers.specs.{Answers.collection_names, Streams.Stream, Streams.stream_of};
ghost use Rattle.answers.specs.Streams.{WritesIf};
ghost use Rattle.runs.specs.Logs.{log_part, IsLogged, IsOpen, due_before, is_wanted};

use answers::{Lines, OutputFailed};
use ftl_one::{Collection, OneFtl};
use geometry::Geometry;
use std::alloc::{AllocError, Global};
use std::io::Write;
use streams::Watched;
use trace::Op;

/// The log of the collections of a run.
#[derive(Drop)]
pub enum Log {
    /// No log is wanted.
    Unwanted,
    /// These lines wait to be written.
    Open(Lines),
    /// Its file has failed, so that nothing more is written.
    Failed,
}

impl Log {
    /// A log on which the names wait, if one is wanted.
    pub(crate) fn new(alloc: Global, geometry: &Geometry, wanted: bool) -> Result<Log, AllocError>
        ensures wanted { IfOk result (λ log. is_wanted log ≡ wanted) }
        ensures names { IfOk result
            (λ log. (known : Stream)
            → IsLogged log (record { before = known; after = known }) collection_names) }
    {
        if !wanted {
            return Ok(Log::Unwanted);
        }
        let mut lines = Lines::new(alloc, geometry)?;
        lines.collection_names();
        Ok(Log::Open(lines))
    }

    /// The collection that a command makes if it programs a page. It is searched for only if the log is written.
    pub(crate) fn due(&self, ftl: &OneFtl, op: Op) -> Option<Collection>
        ensures { IsOpen self.now → result ≡ due_before op (geometry_of ftl.now) (stock_of ftl.now) }
    {
        match (self, op) {
            (Log::Open(_), Op::Write | Op::New) => ftl.collection_due(),
            _ => None,
        }
    }

    /// Records the collection that was made for a line of the trace.
    pub(crate) fn tell<V: Write>(
        &mut self,
        line: u64,
        made: Option<Collection>,
        file: &mut Watched<V>,
    )
        ensures wanted { is_wanted self.new ≡ is_wanted self.old }
        ensures logged { (before : Stream) → (text : List ℕ)
            → (more : List ℕ) → (IsOpen self.old → more ≡ log_part line made)
            → IsLogged self.old (record { before = before; after = stream_of V.contents file.old }) text
            → IsLogged self.new (record { before = before; after = stream_of V.contents file.new }) (text ++ more) }
    {
        let Some(it) = made else {
            return;
        };
        if let Log::Open(lines) = self {
            match lines.make_room(file) {
                Ok(()) => lines.collection(
                    line,
                    it.victim,
                    it.copied,
                    it.copybacks,
                    it.erases,
                    it.retired,
                ),
                Err(OutputFailed) => *self = Log::Failed,
            }
        }
    }

    /// Writes the lines that wait. Returns whether a wanted log was written whole.
    pub(crate) fn finish<V: Write>(self, file: &mut Watched<V>) -> Result<(), OutputFailed>
        ensures { (before : Stream) → (text : List ℕ)
            → IsLogged self (record { before = before; after = stream_of V.contents file.old }) text
            → WritesIf (is_wanted self) text (record { before = before; after = stream_of V.contents file.new }) result }
    {
        match self {
            Log::Unwanted => Ok(()),
            Log::Open(mut lines) => lines.hand_on(file),
            Log::Failed => Err(OutputFailed),
        }
    }
}
