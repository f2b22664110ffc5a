//! Puts the lines of a run's output into a buffer; each call returns where its line ends.
ghost use Rattle.std.specs.Prelude.{◌≡◌, ◌+◌, ◌*◌, ◌≤◌, ◌++◌, codes, length};
ghost use Rattle.hex.specs.Hex.{encode_lower};
ghost use Rattle.answers.specs.Answers.{broom_line, collection_line, end_text, line_text, totals_text, wear_line, reply_text};
ghost use Rattle.text.specs.Putting.{PutsText};
ghost use Rattle.answers.specs.declared.reply.Reply.TheVariants as replies;

use crate::broom_line::BroomLine;
use crate::reply::Reply;
use crate::words::{END, END_COMMA, op_word, outcome_word, reply_word};
use text::{Numbering, SHORT_BYTES, put_number, put_page, put_short};
use trace::Op;

/// The most bytes of a line without those of its page, but with the bytes that are stored after its end.
pub const LINE_BYTES: usize = 256;

/// How many bytes of output have to wait before they are written.
pub const PIECE_BYTES: usize = 65_536;

/// Puts an answer line. `page` is the value that a read found.
#[inline(always)]
pub(crate) fn put_line(
    numbering: &mut Numbering,
    buffer: &mut [u8],
    at: usize,
    line: u64,
    op: Op,
    sector: u32,
    reply: Reply,
    page: &[u8],
) -> usize
    requires room { at + LINE_BYTES ≤ length buffer.old }
    requires page { reply ≡ replies.Page
        → at + LINE_BYTES + 2 * length page.now ≤ length buffer.old }
    ensures { PutsText buffer.old buffer.new at
        (line_text line op sector (reply_text reply (encode_lower page.now))) result }
{
    let name = numbering.put(buffer, at, line);
    let place = put_short(buffer, name, op_word(op));
    let answer = put_number(buffer, place, u64::from(sector), b',');
    put_reply(buffer, answer, reply, page)
}

// Puts a reply and the end of its line.
#[inline(always)]
fn put_reply(buffer: &mut [u8], at: usize, reply: Reply, page: &[u8]) -> usize
    requires room { at + SHORT_BYTES ≤ length buffer.old }
    requires page { reply ≡ replies.Page
        → at + SHORT_BYTES + 2 * length page.now ≤ length buffer.old }
    ensures { PutsText buffer.old buffer.new at
        (reply_text reply (encode_lower page.now) ++ codes "\n") result }
{
    let end = if let Reply::Page = reply {
        put_page(buffer, at, page)
    } else {
        at
    };
    put_short(buffer, end, reply_word(reply))
}

/// Puts the last line.
pub(crate) fn put_end(buffer: &mut [u8], at: usize) -> usize
    requires { at + LINE_BYTES ≤ length buffer.old }
    ensures { PutsText buffer.old buffer.new at end_text result }
{
    put_short(buffer, at, &END)
}

/// Puts the last line, with the totals of a run.
pub(crate) fn put_totals(
    buffer: &mut [u8],
    at: usize,
    programs: u64,
    copies: u64,
    erases: u64,
) -> usize
    requires { at + LINE_BYTES ≤ length buffer.old }
    ensures { PutsText buffer.old buffer.new at (totals_text programs copies erases) result }
{
    let first = put_short(buffer, at, &END_COMMA);
    let second = put_number(buffer, first, programs, b',');
    let third = put_number(buffer, second, copies, b',');
    put_number(buffer, third, erases, b'\n')
}

/// Puts a block's line of the wear.
pub(crate) fn put_wear(
    buffer: &mut [u8],
    at: usize,
    block: u32,
    erases: u32,
    live: u32,
    retired: bool,
) -> usize
    requires { at + LINE_BYTES ≤ length buffer.old }
    ensures { PutsText buffer.old buffer.new at (wear_line block erases live retired) result }
{
    let first = put_number(buffer, at, u64::from(block), b',');
    let second = put_number(buffer, first, u64::from(erases), b',');
    let third = put_number(buffer, second, u64::from(live), b',');
    put_number(buffer, third, u64::from(retired), b'\n')
}

/// Puts the line of a collection.
pub(crate) fn put_collection(
    buffer: &mut [u8],
    at: usize,
    line: u64,
    victim: u32,
    copied: u32,
    copybacks: u32,
    erases: u32,
    retired: bool,
) -> usize
    requires { at + LINE_BYTES ≤ length buffer.old }
    ensures { PutsText buffer.old buffer.new at
        (collection_line line victim copied copybacks erases retired) result }
{
    let first = put_number(buffer, at, line, b',');
    let second = put_number(buffer, first, u64::from(victim), b',');
    let third = put_number(buffer, second, u64::from(copied), b',');
    let fourth = put_number(buffer, third, u64::from(copybacks), b',');
    let fifth = put_number(buffer, fourth, u64::from(erases), b',');
    put_short(buffer, fifth, outcome_word(retired))
}

/// Puts the line of a broom.
pub(crate) fn put_broom(buffer: &mut [u8], at: usize, it: BroomLine) -> usize
    requires { at + LINE_BYTES ≤ length buffer.old }
    ensures { PutsText buffer.old buffer.new at (broom_line it) result }
{
    let broom = put_number(buffer, at, it.broom, b',');
    let drained = put_number(buffer, broom, it.drained, b',');
    let moved = put_number(buffer, drained, it.moved, b',');
    let programmed = put_number(buffer, moved, it.programmed, b',');
    let erased = put_number(buffer, programmed, it.erased, b',');
    let kept = put_number(buffer, erased, it.kept, b',');
    let retired = put_number(buffer, kept, it.retired, b',');
    let lost = put_number(buffer, retired, it.lost, b',');
    let pinned = put_number(buffer, lost, it.pinned, b',');
    let stale = put_number(buffer, pinned, it.stale, b',');
    put_number(buffer, stale, it.idle, b'\n')
}
