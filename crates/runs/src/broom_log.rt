//! The log of a run by workers: what each broom has done.
ghost use Rattle.std.specs.Prelude.{◌≡◌, [], IfOk, IfSome, is_some};
ghost use Rattle.answers.specs.{Delivery.waiting_of, Streams.WritesOut, Streams.over};
ghost use Rattle.answers.specs.Streams.{WritesIf};
ghost use Rattle.runs.specs.Logs.{brooms_text, counts_of};

use answers::{BroomLine, Lines, OutputFailed};
use geometry::Geometry;
use std::alloc::{AllocError, Global};
use std::io::Write;
use streams::Watched;
use workers::{CollectorEnd, Tally};

// Room for a log, if one is wanted.
pub(crate) fn log_room(
    alloc: Global,
    geometry: &Geometry,
    wanted: bool,
) -> Result<Option<Lines>, AllocError>
    ensures wanted { IfOk result (λ lines. is_some lines ≡ wanted) }
    ensures none { IfOk result (λ lines. IfSome lines (λ waiting. waiting_of waiting ≡ [])) }
{
    if !wanted {
        return Ok(None);
    }
    Ok(Some(Lines::new(alloc, geometry)?))
}

// Writes what each broom has done, if it is wanted: then there is room for it.
pub(crate) fn tell_brooms_if<V: Write>(
    lines: Option<Lines>,
    brooms: &[CollectorEnd],
    file: &mut Watched<V>,
) -> Result<(), OutputFailed>
    requires none { IfSome lines (λ waiting. waiting_of waiting ≡ []) }
    ensures { WritesIf (is_some lines) (brooms_text brooms.now)
        (over V.contents file.old file.new) result }
{
    match lines {
        None => Ok(()),
        Some(lines) => tell_brooms(lines, brooms, file),
    }
}

// Writes what each broom has done, in the order of their numbers.
fn tell_brooms<V: Write>(
    lines: Lines,
    brooms: &[CollectorEnd],
    file: &mut Watched<V>,
) -> Result<(), OutputFailed>
    requires none { waiting_of lines ≡ [] }
    ensures { WritesOut (brooms_text brooms.now) (over V.contents file.old file.new) result }
{
    let mut lines = lines;
    lines.broom_names();
    for k in 0..brooms.len() {
        lines.make_room(file)?;
        let end = &brooms[k];
        lines.broom(counts(k as u64, end.tally));
    }
    lines.hand_on(file)
}

// What a line has for a broom.
fn counts(broom: u64, tally: Tally) -> BroomLine
    ensures { result ≡ counts_of broom tally }
{
    BroomLine {
        broom,
        drained: tally.drained,
        moved: tally.moved,
        programmed: tally.programmed,
        erased: tally.erased,
        kept: tally.kept,
        retired: tally.retired,
        lost: tally.lost,
        pinned: tally.pinned,
        stale: tally.stale,
        idle: tally.gainless,
    }
}
