//! The words of the lines, each with the byte behind it.
ghost use Rattle.std.specs.Prelude.{◌≡◌, ◌≤◌, [], ◌++◌, codes};
ghost use Rattle.trace.specs.Trace.{op_name};
ghost use Rattle.answers.specs.Answers.{outcome_text, reply_text};
ghost use Rattle.text.specs.Putting.{short_of};

use crate::reply::Reply;
use text::{SHORT_BYTES, Short};
use trace::Op;

// A word of this length: of 16 bytes, so that it is stored at once.
macro_rules! short {
    ($bytes:literal, $len:literal) => {
        Short {
            bytes: *$bytes,
            len: $len,
        }
    };
}

static READ: Short = short!(b"read,\0\0\0\0\0\0\0\0\0\0\0", 5);

static WRITE: Short = short!(b"write,\0\0\0\0\0\0\0\0\0\0", 6);

static NEW: Short = short!(b"new,\0\0\0\0\0\0\0\0\0\0\0\0", 4);

static TRIM: Short = short!(b"trim,\0\0\0\0\0\0\0\0\0\0\0", 5);

static MEET: Short = short!(b"meet,\0\0\0\0\0\0\0\0\0\0\0", 5);

static EMPTY: Short = short!(b"empty\n\0\0\0\0\0\0\0\0\0\0", 6);

static WRITTEN: Short = short!(b"written\n\0\0\0\0\0\0\0\0", 8);

static WORN: Short = short!(b"worn\n\0\0\0\0\0\0\0\0\0\0\0", 5);

static FULL: Short = short!(b"full\n\0\0\0\0\0\0\0\0\0\0\0", 5);

static MET: Short = short!(b"met\n\0\0\0\0\0\0\0\0\0\0\0\0", 4);

static LINE_END: Short = short!(b"\n\0\0\0\0\0\0\0\0\0\0\0\0\0\0\0", 1);

pub(crate) static END: Short = short!(b"end\n\0\0\0\0\0\0\0\0\0\0\0\0", 4);

pub(crate) static END_COMMA: Short = short!(b"end,\0\0\0\0\0\0\0\0\0\0\0\0", 4);

static FREED: Short = short!(b"freed\n\0\0\0\0\0\0\0\0\0\0", 6);

static RETIRED: Short = short!(b"retired\n\0\0\0\0\0\0\0\0", 8);

/// What a collection's victim is after its erase.
pub(crate) fn outcome_word(retired: bool) -> &'static Short
    ensures text { short_of result.now ≡ outcome_text retired ++ codes "\n" }
    ensures short { result.now.len ≤ SHORT_BYTES }
{
    if retired { &RETIRED } else { &FREED }
}

/// The op's name.
#[inline(always)]
pub(crate) fn op_word(op: Op) -> &'static Short
    ensures text { short_of result.now ≡ op_name op ++ codes "," }
    ensures short { result.now.len ≤ SHORT_BYTES }
{
    match op {
        Op::Read => &READ,
        Op::Write => &WRITE,
        Op::New => &NEW,
        Op::Trim => &TRIM,
        Op::Meet => &MEET,
    }
}

/// The text of a reply, or what comes after the digits of its page.
#[inline(always)]
pub(crate) fn reply_word(reply: Reply) -> &'static Short
    ensures text { short_of result.now ≡ reply_text reply [] ++ codes "\n" }
    ensures short { result.now.len ≤ SHORT_BYTES }
{
    match reply {
        Reply::Empty => &EMPTY,
        Reply::Written => &WRITTEN,
        Reply::Worn => &WORN,
        Reply::Full => &FULL,
        Reply::Met => &MET,
        Reply::Page => &LINE_END,
    }
}
