ghost use Rattle.std.specs.Prelude.{◌≡◌, ◌<◌, ℕ, All, IfNone, IfSome, length, map};
ghost use Rattle.flash_table.specs.{Flash.geometry_of, Flash.view_of, Steps.HasNumber};
ghost use Rattle.host.specs.{Ready.IsReady, Told.Programmed, Told.Refused};
ghost use Rattle.volume.specs.Volume.{flash_of, sectors, page_bytes};
ghost use Rattle.rounds.specs.Lines.{said};
ghost use Rattle.rounds.specs.Answers.{page_size_of, HasSpaceFor};
ghost use Rattle.workers.specs.Playable.{IsLine, HasPage, HasAnswered, HasPlayedLines, added, lines_at, kind_found, HasPlayedLine, write_call, write_op};

use flash_table::{Gate, Pass, Point};
use geometry::{Got, Was};
use host::{NewFault, NoBlock};
use rounds::{Answer, Answers, Kind};
use std::thread;
use trace::{Command, Commands, Op};
use volume::Volume;

// What a read found, as an answer.
fn found(got: Got) -> Kind
    ensures { result ≡ kind_found got }
{
    match got {
        Got::Empty => Kind::Empty,
        Got::Data => Kind::Page,
    }
}

// How many refused tries of a write are between two yields.
const TRIES_A_YIELD: u32 = 16;

// A try of a write was refused, after this many others. Sometimes this yields the processor to another thread, such as a broom.
fn rest_after(turned_away: u32) {
    if turned_away % TRIES_A_YIELD == 0 {
        thread::yield_now();
    }
}

// Tries to write a page to a sector, or with `only_new` to an empty one. Returns what the sector was, or nothing if no block was found.
fn try_write<G: Gate>(
    volume: &Volume,
    pass: &mut Pass,
    only_new: bool,
    sector: u32,
    bytes: &[u8],
    gate: &mut G,
) -> Option<Was>
    requires pass { IsReady (flash_of volume.now) pass.old }
    requires sector { sector < sectors volume.now }
    requires page { length bytes.now ≡ page_bytes volume.now }
    ensures wrote { IfSome result
        (λ was. (t : ℕ) → HasNumber t pass.old
        → Programmed (view_of pass.old) (write_call only_new t sector bytes.now) sector was
        (view_of pass.new)) }
    ensures refused { IfNone result (Refused (view_of pass.old) (view_of pass.new)) }
    ensures pass { IsReady (flash_of volume.now) pass.new }
{
    if only_new {
        return match volume.write_new_gated(pass, sector, bytes, gate) {
            Ok(()) => Some(Was::Empty),
            Err(NewFault::Written) => Some(Was::Written),
            Err(NewFault::NoBlock) => None,
        };
    }
    match volume.write_gated(pass, sector, bytes, gate) {
        Ok(was) => Some(was),
        Err(NoBlock) => None,
    }
}

// The same in at most this many tries, as an answer.
fn write_patiently<G: Gate>(
    volume: &Volume,
    pass: &mut Pass,
    only_new: bool,
    sector: u32,
    bytes: &[u8],
    patience: u32,
    gate: &mut G,
) -> Kind
    requires pass { IsReady (flash_of volume.now) pass.old }
    requires sector { sector < sectors volume.now }
    requires page { length bytes.now ≡ page_bytes volume.now }
    ensures played { HasPlayedLine patience pass.old (write_op only_new) sector bytes.now result
        bytes.now pass.new }
    ensures pass { IsReady (flash_of volume.now) pass.new }
{
    for tried in 0..patience {
        if let Some(was) = try_write(volume, pass, only_new, sector, bytes, gate) {
            return Kind::of_was(was);
        }
        rest_after(tried);
    }
    Kind::Full
}

// Does a line, with a buffer of a page: a read leaves there what it found, and a write's bytes are made there.
fn play_line<G: Gate>(
    volume: &Volume,
    pass: &mut Pass,
    line: &Command<'_>,
    patience: u32,
    gate: &mut G,
    page: &mut [u8],
) -> Kind
    requires pass { IsReady (flash_of volume.now) pass.old }
    requires line { IsLine (geometry_of (flash_of volume.now)) line.now }
    requires page { length page.old ≡ page_bytes volume.now }
    ensures played { HasPlayedLine patience pass.old line.now.op line.now.sector line.now.page result page.new pass.new }
    ensures pass { IsReady (flash_of volume.now) pass.new }
{
    match line.op {
        Op::Read => found(volume.read_gated(pass, line.sector, page, gate).got),
        Op::Write => {
            line.page.copy_into(page);
            write_patiently(volume, pass, false, line.sector, page, patience, gate)
        }
        Op::New => {
            line.page.copy_into(page);
            write_patiently(volume, pass, true, line.sector, page, patience, gate)
        }
        Op::Trim => Kind::of_was(volume.trim(pass, line.sector)),
        Op::Meet => unreachable!(),
    }
}

/// Plays lines one after another with one pass, and stores an answer for each. A write that finds no block is tried again, up to `patience` calls
/// in all, and is then answered `Full`.
pub fn play<G: Gate>(
    volume: &Volume,
    pass: &mut Pass,
    lines: &[Command<'_>],
    patience: u32,
    gate: &mut G,
    answers: &mut [Answer],
)
    requires pass { IsReady (flash_of volume.now) pass.old }
    requires lines { All (IsLine (geometry_of (flash_of volume.now))) lines.now }
    requires count { length answers.old ≡ length lines.now }
    requires pages { All (HasPage (geometry_of (flash_of volume.now))) answers.old }
    ensures played { HasPlayedLines patience pass.old lines.now (map said answers.new) pass.new }
    ensures pages { All (HasPage (geometry_of (flash_of volume.now))) answers.new }
    ensures pass { IsReady (flash_of volume.now) pass.new }
{
    for i in 0..lines.len() {
        let answer = &mut answers[i];
        answer.kind = play_line(volume, pass, &lines[i], patience, gate, &mut answer.page);
        gate.at(Point::Answered);
    }
}

// Plays the lines at these indices of a trace as `play` does, with a buffer of one page, and adds their answers to the list.
pub(crate) fn play_at<G: Gate>(
    volume: &Volume,
    pass: &mut Pass,
    commands: &Commands,
    places: &[usize],
    patience: u32,
    gate: &mut G,
    buffer: &mut [u8],
    answers: &mut Answers,
)
    requires pass { IsReady (flash_of volume.now) pass.old }
    requires there { All (λ p. p < length commands.now) places.now }
    requires lines { All (IsLine (geometry_of (flash_of volume.now)))
        (lines_at commands.now places.now) }
    requires buffer { length buffer.old ≡ page_bytes volume.now }
    requires page { page_size_of answers.old ≡ page_bytes volume.now }
    requires space { HasSpaceFor answers.old (lines_at commands.now places.now) }
    ensures played { HasPlayedLines patience pass.old
        (lines_at commands.now places.now) (added answers.old answers.new) pass.new }
    ensures answered { HasAnswered (lines_at commands.now places.now) answers.old answers.new }
    ensures pass { IsReady (flash_of volume.now) pass.new }
{
    for i in 0..places.len() {
        let line = commands.command(places[i]);
        let kind = play_line(volume, pass, &line, patience, gate, buffer);
        answers.push(kind, buffer);
        gate.at(Point::Answered);
    }
}
