ghost use Rattle.std.specs.Prelude.{◌≡◌, ◌⊎◌, ◌+◌, ◌^◌, ◌==◌, ◌<◌, ◌≤◌, ◌∷◌, ◌++◌, drop, length, slice_get, Some};
ghost use Rattle.std.specs.Iterator.{YieldsFirst, item_count};
ghost use Rattle.trace.specs.{Trace.op_name, Parsing.page_len, Stored.AreKept, Stored.digits_at, Stored.drafted, Stored.lent_as, Stored.stored_in};

use crate::draft::Draft;
use crate::page::Page;
use crate::stored::{AllStored, Lent};
use std::marker::Model;

/// The operation of a line of a trace.
#[derive(Clone, Copy, Debug, PartialEq, Eq)]
pub enum Op {
    Read,
    Write,
    /// A write that takes effect only if the sector is empty.
    New,
    Trim,
    Meet,
}

impl Op {
    /// The op's name, in a trace and in the answers.
    pub fn name(self) -> &'static str
        ensures { result.now ≡ op_name self }
    {
        match self {
            Op::Read => "read",
            Op::Write => "write",
            Op::New => "new",
            Op::Trim => "trim",
            Op::Meet => "meet",
        }
    }
}

/// A line of a trace.
#[derive(Drop)]
pub struct Command<'a> {
    /// The worker that does it. A run by one thread ignores it.
    pub worker: u32,
    pub op: Op,
    pub sector: u32,
    /// The bytes of a write or a `new`, as many as a page has. It is empty for the other ops.
    pub page: Page<'a>,
}

/// The commands of a trace, in order. They keep its text, and a command takes 12 more bytes, or 16 from the first on whose digits begin after
/// 4 GiB: the digits of a write stay in the text, and are decoded when its page is copied.
#[derive(Drop)]
pub struct Commands {
    text: Vec<u8>,
    odd: Vec<u8>,
    page_bytes: u16,
    stored: AllStored,
}

impl Model for Commands {
    ghost use Rattle.std.specs.Prelude.{List, map};
    ghost use Rattle.trace.specs.declared.commands.Command.{Command};

    ghost Value = { List Command };

    ghost use Rattle.trace.specs.Stored.{command_at, IsWhole, stored_in};

    ghost view = { λ a. map (command_at a.text.items a.odd.items a.page_bytes) (stored_in a.stored) };

    ghost invariant = { λ a. IsWhole a.text.items a.odd.items a.page_bytes (stored_in a.stored) };
}

impl Commands {
    // The commands of a text that was read to its end.
    pub(crate) fn new(text: Vec<u8>, draft: Draft) -> Commands
        requires kept { AreKept text.items draft }
        requires few { length (stored_in draft.stored) < 2 ^ 63 }
        ensures { result ≡ drafted text.items draft }
    {
        let Draft {
            page_bytes,
            stored,
            odd,
        } = draft;
        Commands {
            text,
            odd,
            page_bytes,
            stored,
        }
    }

    /// How many commands there are.
    pub fn len(&self) -> usize
        ensures len { result ≡ length self.now }
        ensures small { result < 2 ^ 63 }
    {
        self.stored.len()
    }

    /// Whether there is no command.
    pub fn is_empty(&self) -> bool
        ensures { result ≡ (length self.now == 0) }
    {
        self.stored.len() == 0
    }

    /// The command at an index, from 0.
    pub fn command(&self, i: usize) -> Command<'_>
        requires { i < length self.now }
        ensures at { slice_get self.now i ≡ Some result }
        ensures rest { drop i self.now ≡ result ∷ drop (i + 1) self.now }
    {
        let stored = self.stored.at(i);
        let head = stored.brief.head();
        let digits = digits_at(&self.text, &self.odd, &stored);
        Command {
            worker: u32::from(head.worker),
            op: head.op,
            sector: head.sector,
            page: Page::new(digits, page_len(head.op, self.page_bytes) as usize),
        }
    }

    /// The commands in order.
    pub fn iter(&self) -> CommandIter<'_>
        ensures { commands_left result ≡ self.now }
    {
        CommandIter {
            commands: self,
            next: 0,
        }
    }
}

// The digits of a command.
fn digits_at<'a>(text: &'a [u8], odd: &'a [u8], stored: &Lent) -> &'a [u8]
    requires within { stored.now.start + stored.now.brief.now.digits
        ≤ length (text.now ++ odd.now) }
    requires whole { (stored.now.start + stored.now.brief.now.digits ≤ length text.now)
        ⊎ (length text.now ≤ stored.now.start) }
    ensures { result.now ≡ digits_at text.now odd.now (lent_as stored.now) }
{
    let start = stored.start;
    let count = usize::from(stored.brief.digits);
    if count <= text.len() && start <= text.len() - count {
        &text[start..start + count]
    } else {
        &odd[start - text.len()..start - text.len() + count]
    }
}

// How many bytes the page of a command has, if a page has `size`.
pub(crate) fn page_len(op: Op, size: u16) -> u16
    ensures { result ≡ page_len op size }
{
    match op {
        Op::Write | Op::New => size,
        Op::Read | Op::Trim | Op::Meet => 0,
    }
}

/// The commands of a trace in order.
#[derive(Drop)]
pub struct CommandIter<'a> {
    commands: &'a Commands,
    next: usize,
}

ghost use Rattle.trace.specs.Commands.{commands_left};

impl<'a> Iterator for CommandIter<'a> {
    type Item = Command<'a>;

    ghost next_gives = { YieldsFirst commands_left };

    ghost remaining = { item_count commands_left };

    fn next(&mut self) -> Option<Command<'a>> {
        if self.next >= self.commands.len() {
            return None;
        }
        let command = self.commands.command(self.next);
        self.next += 1;
        Some(command)
    }
}
