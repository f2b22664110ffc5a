ghost use Rattle.std.specs.Prelude.{◌≡◌, ℕ, List, Some, ◌+◌, ◌*◌, ◌<◌, ◌≤◌, false, All, None, [], ◌++◌, length, option_map, slice_index_or, IfOk};
ghost use Rattle.geometry.specs.Geometry.{hosts_of, page_bytes_of};
ghost use Rattle.hex.specs.Hex.{encode_lower};
ghost use Rattle.answers.specs.{Answers.end_text, Delivery.page_digits_of, Delivery.waiting_of, Answers.reply_text, declared.line.TheConstants.PIECE_BYTES};
ghost use Rattle.answers.specs.Streams.{WritesOut, over};
ghost use Rattle.answers.specs.declared.reply.Reply.TheVariants as replies;
ghost use Rattle.rounds.specs.{Answers.page_size_of, Lines.Said, Merging.is_meet, Merging.HaveAnswers, Told.answer_text, Merging.answers_by};
ghost use Rattle.rounds.specs.declared.answer.Kind.TheVariants as kinds;
ghost use Rattle.runs.specs.Texts.{AreAt, HasDigits, digits_in, line_of, next_of, passed, passed_in, said_as, text_of, workers_in};
ghost use Rattle.runs.specs.Outputs.{written_by_workers};

use crate::delivery::Delivery;
use answers::{Lines, OutputFailed, Reply};
use geometry::Geometry;
use rounds::{Answers, Cursor, Kind};
use std::alloc::{AllocError, Global};
use std::io::Write;
use streams::Watched;
use trace::{Command, Commands, Op};

impl Delivery {
    /// The room for a run on a device of this geometry.
    pub fn new(alloc: Global, geometry: &Geometry) -> Result<Delivery, AllocError>
        ensures workers { IfOk result (λ delivery. workers_in delivery ≡ hosts_of geometry.now) }
        ensures digits { IfOk result
            (λ delivery. digits_in delivery ≡ 2 * page_bytes_of geometry.now) }
    {
        Ok(Delivery {
            next: vec![in alloc; Cursor::new(); geometry.hosts() as usize]?,
            lines: Lines::new(alloc, geometry)?,
        })
    }

    /// Writes the answers as `deliver` does if they are wanted, and otherwise the last line alone.
    pub fn write_out<W: Write>(
        self,
        wanted: bool,
        commands: &Commands,
        rows: &[Answers],
        writer: &mut Watched<W>,
    ) -> Result<(), OutputFailed>
        requires workers { length rows.now ≡ workers_in self }
        requires answers { HaveAnswers (answers_by rows.now) commands.now }
        requires pages { All (λ row. digits_in self ≡ 2 * page_size_of row) rows.now }
        ensures { WritesOut (written_by_workers wanted commands.now (answers_by rows.now))
            (over W.contents writer.old writer.new) result }
    {
        if wanted {
            return self.deliver(commands, rows, writer);
        }
        self.write_end(writer)
    }

    // Writes the last line alone.
    fn write_end<W: Write>(self, writer: &mut Watched<W>) -> Result<(), OutputFailed>
        ensures { WritesOut end_text (over W.contents writer.old writer.new) result }
    {
        let mut lines = self.lines;
        lines.end();
        lines.hand_on(writer)
    }

    /// Writes the line of each command in the order of the trace, and then the last line. Each row of answers is that of one worker, in the order
    /// of its lines.
    pub fn deliver<W: Write>(
        self,
        commands: &Commands,
        rows: &[Answers],
        writer: &mut Watched<W>,
    ) -> Result<(), OutputFailed>
        requires workers { length rows.now ≡ workers_in self }
        requires answers { HaveAnswers (answers_by rows.now) commands.now }
        requires pages { All (λ row. digits_in self ≡ 2 * page_size_of row) rows.now }
        ensures { WritesOut (text_of commands.now (answers_by rows.now))
            (over W.contents writer.old writer.new) result }
    {
        let Delivery {
            mut next,
            mut lines,
        } = self;
        for i in 0..commands.len() {
            lines.make_room(writer)?;
            let command = commands.command(i);
            let answer = next_answer(&command, rows, &mut next);
            put_answer(&mut lines, i as u64 + 1, &command, answer);
        }
        lines.make_room(writer)?;
        lines.end();
        lines.hand_on(writer)
    }
}

// The next answer of a command's worker, which is passed over; a meeting has none of its own.
pub(crate) fn next_answer<'a>(
    command: &Command<'_>,
    rows: &'a [Answers],
    next: &mut [Cursor],
) -> Option<(Kind, &'a [u8])>
    requires workers { length next.old ≡ length rows.now }
    requires there { is_meet command.now.op ≡ false
        → slice_index_or (passed_in next.old) command.now.worker 0
        < length (answers_by rows.now command.now.worker) }
    requires at { AreAt rows.now next.old }
    ensures answer { option_map said_as result
        ≡ next_of (answers_by rows.now) (passed_in next.old) command.now }
    ensures next { passed_in next.new ≡ passed (passed_in next.old) command.now }
    ensures at { AreAt rows.now next.new }
{
    if let Op::Meet = command.op {
        return None;
    }
    let worker = command.worker as usize;
    Some(rows[worker].next(&mut next[worker]))
}

// Adds the line of a command that was answered so.
fn put_answer(lines: &mut Lines, line: u64, command: &Command<'_>, answer: Option<(Kind, &[u8])>)
    requires pages { (a : Said) → option_map said_as answer ≡ Some a
        → HasDigits (page_digits_of lines.old) a }
    requires room { length (waiting_of lines.old) ≤ PIECE_BYTES }
    ensures waiting { waiting_of lines.new
        ≡ waiting_of lines.old ++ line_of line command.now (option_map said_as answer.entry) }
    ensures page { page_digits_of lines.new ≡ page_digits_of lines.old }
{
    match answer {
        None => lines.answer(line, command.op, command.sector, Reply::Met, &[]),
        Some((kind, page)) => lines.answer(line, command.op, command.sector, reply(kind), page),
    }
}

// A line's answer as the words of a reply.
fn reply(kind: Kind) -> Reply
    ensures text { (page : List ℕ) → reply_text result (encode_lower page) ≡ answer_text kind page }
    ensures page { result ≡ replies.Page → kind ≡ kinds.Page }
{
    match kind {
        Kind::Empty => Reply::Empty,
        Kind::Written => Reply::Written,
        Kind::Page => Reply::Page,
        Kind::Met => Reply::Met,
        Kind::Full => Reply::Full,
    }
}
