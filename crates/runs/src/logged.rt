ghost use Rattle.std.specs.Prelude.{◌≡◌, ◌+◌, ◌<◌, ◌≤◌, [], ◌++◌, ℕ, List, if◌then◌else◌, length, nat_lt, vec_len, None};
ghost use Rattle.std.specs.List.{fold};
ghost use Rattle.geometry.specs.History.{step};
ghost use Rattle.ftl_one.specs.{Collections.collection_between, OneFtl.geometry_of, OneFtl.page_bytes, OneFtl.array_of, OneFtl.stock_of};
ghost use Rattle.answers.specs.{Answers.calls_of, Delivery.waiting_of, Answers.IsPlayable, Streams.Stream, Streams.stream_of};
ghost use Rattle.answers.specs.declared.line.TheConstants.{PIECE_BYTES};
ghost use Rattle.runs.specs.{Logs.log_part, Logs.IsLogged, Logs.is_wanted, Playing.is_refused, Playing.line_by, Playing.stock_after};

use crate::desk::Desk;
use crate::log::Log;
use ftl_one::{Collection, OneFtl};
use std::io::Write;
use streams::Watched;
use trace::Command;

// Does a command, adds its answer line to those that wait if it is wanted, and records in the log the collection that it made.
#[inline(always)]
pub(crate) fn answer_logged<V: Write>(
    ftl: &mut OneFtl,
    desk: &mut Desk,
    command: &Command<'_>,
    line: u64,
    wanted: bool,
    log: &mut Log,
    file: &mut Watched<V>,
)
    requires playable { IsPlayable (geometry_of ftl.old) command.now }
    requires page { vec_len desk.old.page ≡ page_bytes ftl.old }
    requires room { length (waiting_of desk.old.lines) ≤ PIECE_BYTES }
    requires count { desk.old.refused < line }
    ensures page { vec_len desk.new.page ≡ vec_len desk.old.page }
    ensures refused { desk.new.refused
        ≡ desk.old.refused +
        (if is_refused (geometry_of ftl.old) (stock_of ftl.old) command.now then 1 else 0) }
    ensures lines { waiting_of desk.new.lines
        ≡ waiting_of desk.old.lines ++ (if wanted then line_by ftl.old line command.now else []) }
    ensures geometry { geometry_of ftl.new ≡ geometry_of ftl.old }
    ensures array { array_of ftl.new
        ≡ fold step (array_of ftl.old)
        (calls_of (is_refused (geometry_of ftl.old) (stock_of ftl.old) command.now) command.now) }
    ensures stock { stock_of ftl.new
        ≡ stock_after (geometry_of ftl.old) (stock_of ftl.old) command.now }
    ensures wanted { is_wanted log.new ≡ is_wanted log.old }
    ensures logged { (before : Stream) → (text : List ℕ)
        → IsLogged log.old (record { before = before; after = stream_of V.contents file.old }) text
        → IsLogged log.new (record { before = before; after = stream_of V.contents file.new })
        (text ++ log_part line
        (collection_between (geometry_of ftl.old) (stock_of ftl.old) (stock_of ftl.new))) }
{
    // If no log is written, nothing is asked about collections.
    let Log::Open(_) = log else {
        desk.answer(ftl, command, line, wanted);
        return;
    };
    let due = log.due(ftl, command.op);
    let programs = ftl.counts().programs;
    desk.answer(ftl, command, line, wanted);
    log.tell(line, made(due, programs, ftl.counts().programs), file);
}

// The collection that was due, if a page was programmed, by the pages programmed before and after.
fn made(due: Option<Collection>, before: u64, after: u64) -> Option<Collection>
    ensures { result ≡ (if nat_lt before after then due else None) }
{
    if before < after { due } else { None }
}
