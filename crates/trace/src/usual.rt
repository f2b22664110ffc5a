// Lines of the usual form, which are cut and checked in one pass: short numbers, no quotes, no fault, and a line feed
// behind the data. Any other line takes the longer way, which says what is wrong with it.

ghost use Rattle.std.specs.Prelude.{◌≡◌, ◌+◌, ◌≤◌, ◌++◌, drop, length, IfSome, IsTrue};
ghost use Rattle.trace.specs.Usual.{IsNumber, IsOpName, IsUsual, IsUsualData, IsLineStart};

use crate::commands::Op;
use crate::cutting::has;
use crate::limits::MAX_DIGITS;
use crate::parsing::{page_bytes, workers};
use crate::stored::Head;
use geometry::Geometry;
use text::digits_end;

/// A line of the usual form: what it says without its digits, and where these begin and end.
#[derive(Clone, Copy)]
pub(crate) struct UsualLine {
    pub(crate) head: Head,
    pub(crate) start: usize,
    pub(crate) end: usize,
}

// A number, and the place of the comma after it.
#[derive(Clone, Copy)]
struct Number {
    value: u32,
    end: usize,
}

// An op, and the place of the comma after its name.
#[derive(Clone, Copy)]
struct OpName {
    op: Op,
    end: usize,
}

/// The line that begins at this place, or after the line feed at this place, if it is of the usual form.
#[inline(always)]
pub(crate) fn usual_line(text: &[u8], at: usize, geometry: &Geometry) -> Option<UsualLine>
    requires { at ≤ length text.now }
    ensures { IfSome result (IsUsual geometry.now text.now at) }
{
    let worker = usual_number(text, line_start(text, at), workers(geometry))?;
    let name = usual_op(text, worker.end + 1)?;
    let sector = usual_number(text, name.end + 1, geometry.sectors())?;
    let start = sector.end + 1;
    let end = usual_data(text, start, name.op, page_bytes(geometry))?;
    Some(UsualLine {
        head: Head {
            worker: worker.value as u16,
            op: name.op,
            sector: sector.value,
        },
        start,
        end,
    })
}

// The place after a line feed at this place.
#[inline(always)]
fn line_start(text: &[u8], at: usize) -> usize
    requires { at ≤ length text.now }
    ensures { IsLineStart text.now at result }
{
    if has(text, at, b'\n') { at + 1 } else { at }
}

// The number that begins here, if it is below the bound and a comma ends it. A number near the end of the text isn't
// usual: so the loop has a constant length, and the compiler unrolls it.
#[inline(always)]
fn usual_number(text: &[u8], start: usize, bound: u32) -> Option<Number>
    requires { start ≤ length text.now }
    ensures { IfSome result (IsNumber text.now start bound) }
{
    if text.len() - start <= MAX_DIGITS {
        return None;
    }
    let mut value = 0;
    for i in 0..MAX_DIGITS + 1 {
        let byte = text[start + i];
        if !byte.is_ascii_digit() {
            if byte != b',' || i == 0 || value >= bound {
                return None;
            }
            return Some(Number {
                value,
                end: start + i,
            });
        }
        value = 10 * value + u32::from(byte - b'0');
    }
    None
}

// The op whose name begins here, if a comma ends it. A meet isn't usual.
#[inline(always)]
fn usual_op(text: &[u8], start: usize) -> Option<OpName>
    requires { start ≤ length text.now }
    ensures { IfSome result (IsOpName text.now start) }
{
    if has_all(text, start, b"read,") {
        return Some(OpName {
            op: Op::Read,
            end: start + 4,
        });
    }
    if has_all(text, start, b"write,") {
        return Some(OpName {
            op: Op::Write,
            end: start + 5,
        });
    }
    if has_all(text, start, b"trim,") {
        return Some(OpName {
            op: Op::Trim,
            end: start + 4,
        });
    }
    if has_all(text, start, b"new,") {
        return Some(OpName {
            op: Op::New,
            end: start + 3,
        });
    }
    None
}

// Whether these bytes are at a place.
#[inline(always)]
fn has_all(text: &[u8], start: usize, bytes: &[u8]) -> bool
    requires { start ≤ length text.now }
    ensures { IsTrue result
        → drop start text.now ≡ bytes.now ++ drop (start + length bytes.now) text.now }
{
    if text.len() - start < bytes.len() {
        return false;
    }
    for i in 0..bytes.len() {
        if text[start + i] != bytes[i] {
            return false;
        }
    }
    true
}

// Where the data of an op ends that begins here, if it is what the op takes and a line feed is behind it.
#[inline(always)]
fn usual_data(text: &[u8], start: usize, op: Op, size: u16) -> Option<usize>
    requires { start ≤ length text.now }
    ensures { IfSome result (IsUsualData text.now start op size) }
{
    match op {
        Op::Write | Op::New => {
            let end = digits_end(text, start);
            if !has(text, end, b'\n')
                || (end - start) % 2 != 0
                || (end - start) / 2 > size as usize
            {
                return None;
            }
            Some(end)
        }
        Op::Read | Op::Trim if has(text, start, b'\n') => Some(start),
        _ => None,
    }
}
