ghost use Rattle.std.specs.Prelude.{◌≡◌, ◌≤◌, ◌<◌, ◌+◌, ◌^◌, length, Ok, Err, IfOk, IfErr, MatchBool, OnOk};
ghost use Rattle.std.specs.Bool.{OnTrue};
ghost use Rattle.geometry.specs.Geometry.{page_bytes_of};
ghost use Rattle.trace.specs.{Cutting.StandsBefore, Cutting.fields_of_row, Drafting.IsChecked, Drafting.IsDraft, Drafting.MakePage, Trace.workers_of};
ghost use Rattle.trace.specs.{Parsing.Adds, Parsing.AreSoFar, Parsing.RefusesBy, Parsing.fault_at, declared.fault.TraceFaultKind.TheVariants.Memory};
ghost use Rattle.trace.specs.Stored.{AreKept, drafted, stored_in};
ghost use Rattle.trace.specs.Trace.{AreCommands, IsFirstFault, checked, command_of, commands_of, is_of_record, number_below, op_of, page_of_op, whole_fault};

use crate::commands::{Commands, Op};
use crate::cutting::{Cut, Row, next_cut};
use crate::draft::Draft;
use crate::fault::{TraceFault, TraceFaultKind};
use crate::limits::MAX_DIGITS;
use crate::rows::{next_record, records, row_of};
use crate::stored::Head;
use crate::usual::usual_line;
use csv::ByteRecord;
use geometry::{Geometry, LONE_WORKERS, WORD_BYTES};
use std::alloc::{AllocError, Global};
use text::are_pairs;

/// The commands of a trace for this device, or its first fault. They keep a copy of the text.
pub fn parse(alloc: Global, text: &[u8], geometry: &Geometry) -> Result<Commands, TraceFault>
    // Each record is a command.
    ensures commands { IfOk result (λ commands. commands_of text.now geometry.now ≡ Ok commands) }
    ensures each { IfOk result (λ commands. AreCommands (checked geometry.now text.now) commands) }

    // The first invalid record is the fault; only running out of memory may be reported instead.
    ensures fault { IfErr result (λ fault. MatchBool (is_of_record fault.kind)
        (commands_of text.now geometry.now ≡ Err fault)
        (fault ≡ whole_fault Memory)) }
    ensures first { IfErr result
        (λ fault. OnTrue (is_of_record fault.kind)
        (IsFirstFault (checked geometry.now text.now) fault)) }
{
    match text.to_vec(alloc) {
        Ok(copy) => parse_owned(alloc, copy, geometry),
        Err(_) => Err(TraceFault::whole(TraceFaultKind::Memory)),
    }
}

/// The same for a text that the commands take over, without a copy.
pub fn parse_owned(
    alloc: Global,
    text: Vec<u8>,
    geometry: &Geometry,
) -> Result<Commands, TraceFault>
    ensures commands { IfOk result (λ commands. commands_of text.items geometry.now ≡ Ok commands) }
    ensures each { IfOk result
        (λ commands. AreCommands (checked geometry.now text.items) commands) }
    ensures fault { IfErr result (λ fault. MatchBool (is_of_record fault.kind)
        (commands_of text.items geometry.now ≡ Err fault)
        (fault ≡ whole_fault Memory)) }
    ensures first { IfErr result
        (λ fault. OnTrue (is_of_record fault.kind)
        (IsFirstFault (checked geometry.now text.items) fault)) }
{
    match parse_lines(alloc, &text, geometry) {
        Ok(draft) => Ok(Commands::new(text, draft)),
        Err(fault) => Err(fault),
    }
}

// The commands of a text, which is kept with them.
fn parse_lines(alloc: Global, text: &[u8], geometry: &Geometry) -> Result<Draft, TraceFault>
    ensures kept { IfOk result (AreKept text.now) }
    ensures each { IfOk result
        (λ draft. AreCommands (checked geometry.now text.now) (drafted text.now draft)) }
    ensures fault { IfErr result (λ fault. MatchBool (is_of_record fault.kind)
        (commands_of text.now geometry.now ≡ Err fault)
        (fault ≡ whole_fault Memory)) }
    ensures first { IfErr result
        (λ fault. OnTrue (is_of_record fault.kind)
        (IsFirstFault (checked geometry.now text.now) fault)) }
{
    let mut draft = Draft::new(alloc, page_bytes(geometry));
    let mut at = 0;
    'records: loop {
        let Ok(start) = add_usual_lines(text, at, geometry, &mut draft) else {
            return Err(TraceFault::whole(TraceFaultKind::Memory));
        };
        let line = next_line(&draft);
        match next_cut(text, start) {
            Cut::End => return Ok(draft),
            Cut::Fields => return Err(fault(line, TraceFaultKind::Fields)),
            Cut::Record(_, None) => return parse_rest(alloc, text, start, geometry, draft),
            Cut::Record(end, Some(row)) => {
                if let Err(kind) = add_cut(text, end, &row, geometry, &mut draft) {
                    return Err(fault(line, kind));
                }
                at = end;
            }
        }
    }
}

// Adds the commands of lines of the usual form from a place on, and returns the place at which the last one ends.
fn add_usual_lines(
    text: &[u8],
    from: usize,
    geometry: &Geometry,
    draft: &mut Draft,
) -> Result<usize, AllocError>
    requires place { from ≤ length text.now }
    requires draft { IsDraft geometry.now text.now draft.old }
    requires so_far { AreSoFar geometry.now text.now from (drafted text.now draft.old) }
    ensures place { IfOk result (λ end. from ≤ end) }
    ensures within { IfOk result (λ end. end ≤ length text.now) }
    ensures draft { OnOk result (IsDraft geometry.now text.now draft.new) }
    ensures so_far { IfOk result
        (λ end. AreSoFar geometry.now text.now end (drafted text.now draft.new)) }
{
    let mut at = from;
    'lines: while let Some(line) = usual_line(text, at, geometry) {
        draft.push(text, line.head, line.start, (line.end - line.start) as u16)?;
        at = line.end;
    }
    Ok(at)
}

// The same from a record on that has a quote: `csv` reads it and those behind it. The fields of each
// are counted first, so that a record of too many is never copied.
fn parse_rest(
    alloc: Global,
    text: &[u8],
    start: usize,
    geometry: &Geometry,
    mut draft: Draft,
) -> Result<Draft, TraceFault>
    requires place { start ≤ length text.now }
    requires draft { IsDraft geometry.now text.now draft }
    requires so_far { AreSoFar geometry.now text.now start (drafted text.now draft) }
    ensures kept { IfOk result (AreKept text.now) }
    ensures each { IfOk result
        (λ draft. AreCommands (checked geometry.now text.now) (drafted text.now draft)) }
    ensures fault { IfErr result (λ fault. MatchBool (is_of_record fault.kind)
        (commands_of text.now geometry.now ≡ Err fault)
        (fault ≡ whole_fault Memory)) }
    ensures first { IfErr result
        (λ fault. OnTrue (is_of_record fault.kind)
        (IsFirstFault (checked geometry.now text.now) fault)) }
{
    let mut rows = records(alloc, &text[start..]);
    let mut byte_record = ByteRecord::new(alloc);
    let mut at = start;
    'records: loop {
        let line = next_line(&draft);
        let end = match next_cut(text, at) {
            Cut::End => return Ok(draft),
            Cut::Fields => return Err(fault(line, TraceFaultKind::Fields)),
            Cut::Record(end, _) => end,
        };
        match next_record(&mut rows, &mut byte_record) {
            Ok(true) => {}
            Ok(false) => unreachable!(),
            Err(_) => return Err(TraceFault::whole(TraceFaultKind::Memory)),
        }
        if let Err(kind) = add_read(text, &row_of(&byte_record), geometry, &mut draft) {
            return Err(fault(line, kind));
        }
        at = end;
    }
}

// The number of the record behind these commands.
fn next_line(draft: &Draft) -> u64
    ensures { result ≡ length (stored_in draft.now.stored) + 1 }
{
    draft.len() as u64 + 1
}

// The fault of a record, or out of memory at it.
fn fault(line: u64, kind: TraceFaultKind) -> TraceFault
    ensures { result ≡ fault_at line kind }
{
    match kind {
        TraceFaultKind::Memory => TraceFault::whole(kind),
        _ => TraceFault { line, kind },
    }
}

// Checks a record that was cut in the text and ends at a place, and adds its command.
fn add_cut(
    text: &[u8],
    end: usize,
    row: &Row,
    geometry: &Geometry,
    draft: &mut Draft,
) -> Result<(), TraceFaultKind>
    requires draft { IsDraft geometry.now text.now draft.old }
    requires within { end ≤ length text.now }
    requires place { StandsBefore text.now end row.now.digits.now }
    ensures draft { OnOk result (IsDraft geometry.now text.now draft.new) }
    ensures added { OnOk result
        (Adds (command_of geometry.now (fields_of_row row.now))
        (drafted text.now draft.old) (drafted text.now draft.new)) }
    ensures refused { IfErr result (RefusesBy (command_of geometry.now (fields_of_row row.now))) }
{
    let head = check(row, geometry)?;
    let digits = row.digits.len();
    match draft.push(text, head, end - digits, digits as u16) {
        Ok(()) => Ok(()),
        Err(_) => Err(TraceFaultKind::Memory),
    }
}

// The same of a record that `csv` read.
fn add_read(
    text: &[u8],
    row: &Row,
    geometry: &Geometry,
    draft: &mut Draft,
) -> Result<(), TraceFaultKind>
    requires draft { IsDraft geometry.now text.now draft.old }
    ensures draft { OnOk result (IsDraft geometry.now text.now draft.new) }
    ensures added { OnOk result
        (Adds (command_of geometry.now (fields_of_row row.now))
        (drafted text.now draft.old) (drafted text.now draft.new)) }
    ensures refused { IfErr result (RefusesBy (command_of geometry.now (fields_of_row row.now))) }
{
    let head = check(row, geometry)?;
    match draft.push_odd(text, head, row.digits) {
        Ok(()) => Ok(()),
        Err(_) => Err(TraceFaultKind::Memory),
    }
}

// Checks a record, and returns what it says without its digits.
fn check(row: &Row, geometry: &Geometry) -> Result<Head, TraceFaultKind>
    ensures checked { IfOk result (IsChecked geometry.now row.now) }
    ensures refused { IfErr result
        (λ kind. command_of geometry.now (fields_of_row row.now) ≡ Err kind) }
{
    let worker = number_below(workers(geometry), TraceFaultKind::Worker, row.worker)?;
    let op = op_named(row.op)?;
    let sector = number_below(geometry.sectors(), TraceFaultKind::Sector, row.sector)?;
    check_digits(page_bytes(geometry), op, worker, sector, row.digits)?;
    Ok(Head {
        worker: worker as u16,
        op,
        sector,
    })
}

// How many bytes a page has.
#[inline(always)]
pub(crate) fn page_bytes(geometry: &Geometry) -> u16
    ensures value { result ≡ page_bytes_of geometry.now }
    ensures small { result ≤ 4096 }
{
    (geometry.words() * WORD_BYTES) as u16
}

// How many workers a trace may name.
#[inline(always)]
pub(crate) fn workers(geometry: &Geometry) -> u32
    ensures value { result ≡ workers_of geometry.now }
    ensures few { result < 2 ^ 16 }
{
    match geometry.hosts() {
        0 => LONE_WORKERS,
        hosts => hosts,
    }
}

// The number that a field writes, if it is below the bound.
#[tactic(auto, unfolding(crate::specs::Trace::number_below))]
fn number_below(bound: u32, otherwise: TraceFaultKind, text: &[u8]) -> Result<u32, TraceFaultKind>
    ensures value { result ≡ number_below bound otherwise text.now }
    ensures below { IfOk result (λ number. number < bound) }
{
    if text.is_empty() || text.len() > MAX_DIGITS {
        return Err(otherwise);
    }
    let mut number = 0;
    for digit in text {
        if !digit.is_ascii_digit() {
            return Err(otherwise);
        }
        number = 10 * number + u32::from(digit - b'0');
    }
    if number < bound {
        Ok(number)
    } else {
        Err(otherwise)
    }
}

// The op that a field names.
#[tactic(auto, unfolding(crate::specs::Trace::op_of))]
fn op_named(text: &[u8]) -> Result<Op, TraceFaultKind>
    ensures { result ≡ op_of text.now }
{
    if text == Op::Read.name().as_bytes() {
        Ok(Op::Read)
    } else if text == Op::Write.name().as_bytes() {
        Ok(Op::Write)
    } else if text == Op::New.name().as_bytes() {
        Ok(Op::New)
    } else if text == Op::Trim.name().as_bytes() {
        Ok(Op::Trim)
    } else if text == Op::Meet.name().as_bytes() {
        Ok(Op::Meet)
    } else {
        Err(TraceFaultKind::Op)
    }
}

// Checks the data of an op, which are the digits of no more than its page.
#[tactic(auto, unfolding(crate::specs::Trace::page_of_op))]
fn check_digits(
    size: u16,
    op: Op,
    worker: u32,
    sector: u32,
    digits: &[u8],
) -> Result<(), TraceFaultKind>
    ensures made { OnOk result
        (MakePage size op digits.now (page_of_op size op worker sector digits.now)) }
    ensures refused { IfErr result (λ kind. page_of_op size op worker sector digits.now ≡ Err kind) }
{
    match op {
        Op::Write | Op::New => {
            if !are_pairs(digits) {
                return Err(TraceFaultKind::Hex);
            }
            if digits.len() / 2 > size as usize {
                return Err(TraceFaultKind::TooLong);
            }
        }
        Op::Read | Op::Trim if digits.is_empty() => {}
        Op::Meet if digits.is_empty() && worker == 0 && sector == 0 => {}
        _ => return Err(TraceFaultKind::Unused),
    }
    Ok(())
}
