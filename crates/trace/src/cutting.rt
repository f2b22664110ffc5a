// The places of the records of a text. Their fields are cut at commas and line ends, and nothing is
// copied: the text between quotes is only skipped.

ghost use Rattle.std.specs.Prelude.{◌≡◌, ◌≤◌, length, drop, true};
ghost use Rattle.csv.specs.declared.parser.State.TheVariants.{InField};
ghost use Rattle.trace.specs.Cutting.{CutsField, IsCut, EndsField, EndsPlain, EndsQuoted, IsMarkEnd, Joins};
ghost use Rattle.trace.specs.Cutting.{StartsRecord, begins_with, HasRecordedValues};
ghost use Rattle.text.specs.Lanes.{is_field_end, is_line_end};

use text::{LANES, field_run};

// How far a field is looked at byte by byte.
const NEAR: usize = 8;

// U+FEFF in UTF-8.
const BYTE_ORDER_MARK: [u8; 3] = [0xef, 0xbb, 0xbf];

/// The fields of a record.
#[derive(Clone, Copy)]
pub(crate) struct Row<'t> {
    pub(crate) worker: &'t [u8],
    pub(crate) op: &'t [u8],
    pub(crate) sector: &'t [u8],
    pub(crate) digits: &'t [u8],
}

/// What comes next in a text.
pub(crate) enum Cut<'t> {
    /// No record.
    End,
    /// A record that doesn't have four fields.
    Fields,
    /// A record of four fields that ends at this place, with its fields if none begins with a quote.
    Record(usize, Option<Row<'t>>),
}

// A field: its value, if it doesn't begin with a quote, where it ends, and whether a comma ends it.
#[derive(Clone, Copy)]
struct Field<'t> {
    value: Option<&'t [u8]>,
    end: usize,
    comma: bool,
}

/// The first record from a place on, which is the start of the text or the end of a record.
pub(crate) fn next_cut(text: &[u8], at: usize) -> Cut<'_>
    requires { at ≤ length text.now }
    ensures { IsCut text.now at result }
{
    let start = record_start(text, mark_end(text, at));
    if start == text.len() {
        return Cut::End;
    }
    let worker = next_field(text, start);
    if !worker.comma {
        return Cut::Fields;
    }
    let op = next_field(text, worker.end + 1);
    if !op.comma {
        return Cut::Fields;
    }
    let sector = next_field(text, op.end + 1);
    if !sector.comma {
        return Cut::Fields;
    }
    let digits = next_field(text, sector.end + 1);
    if digits.comma {
        return Cut::Fields;
    }
    Cut::Record(digits.end, plain_row(worker, op, sector, digits))
}

// The fields of a record, if all are known.
fn plain_row<'t>(
    worker: Field<'t>,
    op: Field<'t>,
    sector: Field<'t>,
    digits: Field<'t>,
) -> Option<Row<'t>>
    ensures { HasRecordedValues result worker.entry op.entry sector.entry digits.entry }
{
    Some(Row {
        worker: worker.value?,
        op: op.value?,
        sector: sector.value?,
        digits: digits.value?,
    })
}

// The place after a byte order mark at this place.
fn mark_end(text: &[u8], at: usize) -> usize
    requires { at ≤ length text.now }
    ensures { IsMarkEnd text.now at result }
{
    if text[at..].starts_with(&BYTE_ORDER_MARK) {
        at + BYTE_ORDER_MARK.len()
    } else {
        at
    }
}

// The place after the line ends at this place.
fn record_start(text: &[u8], from: usize) -> usize
    requires { from ≤ length text.now }
    ensures { StartsRecord text.now from result }
{
    for start in from..text.len() {
        if !is_line_end(text[start]) {
            return start;
        }
    }
    text.len()
}

fn is_line_end(byte: u8) -> bool
    ensures { result ≡ is_line_end byte }
{
    byte == b'\r' || byte == b'\n'
}

fn is_field_end(byte: u8) -> bool
    ensures { result ≡ is_field_end byte }
{
    byte == b',' || is_line_end(byte)
}

// Whether this byte is at a place.
#[inline(always)]
pub(crate) fn has(text: &[u8], at: usize, byte: u8) -> bool
    ensures { result ≡ begins_with byte (drop at text.now) }
{
    if at < text.len() {
        text[at] == byte
    } else {
        false
    }
}

// The field that begins here.
#[inline(always)]
fn next_field(text: &[u8], start: usize) -> Field<'_>
    requires { start ≤ length text.now }
    ensures { CutsField text.now start result }
{
    if has(text, start, b'"') {
        let end = quoted_end(text, start);
        return Field {
            value: None,
            end,
            comma: has(text, end, b','),
        };
    }
    let end = plain_end(text, start);
    Field {
        value: Some(&text[start..end]),
        end,
        comma: has(text, end, b','),
    }
}

// Where a field ends, from a place that is behind its quotes.
#[inline(always)]
fn plain_end(text: &[u8], start: usize) -> usize
    requires { start ≤ length text.now }
    ensures { EndsPlain text.now start result }
{
    let near = text.len().min(start + NEAR);
    for end in start..near {
        if is_field_end(text[end]) {
            return end;
        }
    }
    far_end(text, start, near)
}

// The end of a field that reaches at least to a place. Most fields are short, and are not examined in blocks.
#[inline(never)]
fn far_end(text: &[u8], start: usize, from: usize) -> usize
    requires { Joins InField text.now start from }
    ensures { EndsPlain text.now start result }
{
    let mut at = from;
    'blocks: while text.len() - at >= LANES {
        let run = field_run(text, at);
        if run < LANES {
            return at + run;
        }
        at += LANES;
    }
    for end in at..text.len() {
        if is_field_end(text[end]) {
            return end;
        }
    }
    text.len()
}

// The end of a field that begins with a quote. Two quotes between its quotes mean one.
#[inline(never)]
fn quoted_end(text: &[u8], start: usize) -> usize
    requires { begins_with 34 (drop start text.now) ≡ true }
    ensures { EndsField text.now start result }
{
    let mut at = start + 1;
    'quotes: loop {
        let quote = quote_at(text, at);
        if quote == text.len() {
            return quote;
        }
        if !has(text, quote + 1, b'"') {
            return plain_end(text, quote + 1);
        }
        at = quote + 2;
    }
}

// The next quote, or the end of the text.
fn quote_at(text: &[u8], from: usize) -> usize
    requires { from ≤ length text.now }
    ensures { EndsQuoted text.now from result }
{
    for quote in from..text.len() {
        if text[quote] == b'"' {
            return quote;
        }
    }
    text.len()
}
