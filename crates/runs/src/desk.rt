ghost use Rattle.std.specs.Prelude.{◌≡◌, ◌+◌, ◌*◌, ◌<◌, ◌≤◌, [], ◌++◌, length, vec_len, if◌then◌else◌, IfOk, OnOk, OnErr};
ghost use Rattle.std.specs.List.{fold};
ghost use Rattle.geometry.specs.{Geometry.page_bytes_of, History.step, Sectors.sector_at};
ghost use Rattle.ftl_one.specs.OneFtl.{geometry_of, sectors, blocks, page_bytes, array_of, stock_of};
ghost use Rattle.trace.specs.declared.commands.Op.TheVariants as ops;
ghost use Rattle.answers.specs.{Answers.calls_of, Answers.found_text, Answers.line_text, Answers.wear_names, Delivery.page_digits_of, Delivery.waiting_of};
ghost use Rattle.answers.specs.{Answers.IsPlayable, declared.line.TheConstants.PIECE_BYTES};
ghost use Rattle.answers.specs.Streams.{FailsBy, Moves, Part, Writes, WritesOut, over};
ghost use Rattle.runs.specs.{Playing.end_text, Playing.is_refused, Playing.line_by, Playing.stock_after, Logs.block_line};

use crate::perform::perform;
use answers::{Lines, OutputFailed, Reply};
use ftl_one::OneFtl;
use geometry::Geometry;
use std::alloc::{AllocError, Global};
use std::io::Write;
use streams::Watched;
use trace::{Command, Op};

/// The room for a run: a page, and the lines that wait to be written; and how many writes were refused.
#[derive(Drop)]
pub(crate) struct Desk {
    page: Vec<u8>,
    lines: Lines,
    pub refused: u64,
    pub ghost digits: { page_digits_of lines ≡ 2 * vec_len page },
}

impl Desk {
    pub(crate) fn new(alloc: Global, geometry: &Geometry) -> Result<Desk, AllocError>
        ensures page { IfOk result (λ desk. vec_len desk.page ≡ page_bytes_of geometry.now) }
        ensures lines { IfOk result (λ desk. waiting_of desk.lines ≡ []) }
        ensures refused { IfOk result (λ desk. desk.refused ≡ 0) }
    {
        Ok(Desk {
            page: vec![in alloc; 0; geometry.page_bytes()]?,
            lines: Lines::new(alloc, geometry)?,
            refused: 0,
        })
    }

    /// Does a command, and if its answer is wanted adds the line to those that wait.
    #[inline(always)]
    pub(crate) fn answer(
        &mut self,
        ftl: &mut OneFtl,
        command: &Command<'_>,
        line: u64,
        wanted: bool,
    )
        requires playable { IsPlayable (geometry_of ftl.old) command.now }
        requires page { vec_len self.old.page ≡ page_bytes ftl.old }
        requires room { length (waiting_of self.old.lines) ≤ PIECE_BYTES }
        requires count { self.old.refused < line }
        ensures page { vec_len self.new.page ≡ vec_len self.old.page }
        ensures refused { self.new.refused
            ≡ self.old.refused +
            (if is_refused (geometry_of ftl.old) (stock_of ftl.old) command.now then 1 else 0) }
        ensures lines { waiting_of self.new.lines
            ≡ waiting_of self.old.lines ++
            (if wanted then line_by ftl.old line command.now else []) }
        ensures geometry { geometry_of ftl.new ≡ geometry_of ftl.old }
        ensures array { array_of ftl.new
            ≡ fold step (array_of ftl.old)
            (calls_of
            (is_refused (geometry_of ftl.old) (stock_of ftl.old) command.now) command.now) }
        ensures stock { stock_of ftl.new
            ≡ stock_after (geometry_of ftl.old) (stock_of ftl.old) command.now }
    {
        if let Op::Read = command.op {
            if wanted {
                self.answer_read(ftl, command.sector, line);
            }
            return;
        }
        let reply = perform(ftl, command, &mut self.page);
        self.refused += u64::from(reply.is_worn());
        if wanted {
            self.lines
                .answer(line, command.op, command.sector, reply, &self.page);
        }
    }

    // Adds the answer line of a read. A page is encoded where it is.
    fn answer_read(&mut self, ftl: &OneFtl, sector: u32, line: u64)
        requires sector { sector < sectors ftl.now }
        requires page { vec_len self.old.page ≡ page_bytes ftl.now }
        requires room { length (waiting_of self.old.lines) ≤ PIECE_BYTES }
        ensures page { vec_len self.new.page ≡ vec_len self.old.page }
        ensures refused { self.new.refused ≡ self.old.refused }
        ensures lines { waiting_of self.new.lines ≡ waiting_of self.old.lines
            ++ line_text line ops.Read sector (found_text (sector_at (array_of ftl.now) sector)) }
    {
        match ftl.page(sector) {
            Some(page) => self.lines.answer(line, Op::Read, sector, Reply::Page, page),
            None => self.lines.answer(line, Op::Read, sector, Reply::Empty, &[]),
        }
    }

    /// Adds the last line.
    pub(crate) fn end(&mut self, ftl: &OneFtl)
        requires room { length (waiting_of self.old.lines) ≤ PIECE_BYTES }
        ensures refused { self.new.refused ≡ self.old.refused }
        ensures lines { waiting_of self.new.lines
            ≡ waiting_of self.old.lines ++ end_text (stock_of ftl.now) }
    {
        let counts = ftl.counts();
        self.lines
            .totals(counts.programs, counts.copies, counts.erases);
    }

    /// Adds the header line of the wear.
    pub(crate) fn wear_names(&mut self)
        requires room { length (waiting_of self.old.lines) ≤ PIECE_BYTES }
        ensures lines { waiting_of self.new.lines ≡ waiting_of self.old.lines ++ wear_names }
    {
        self.lines.wear_names();
    }

    /// Adds a block's line of the wear.
    pub(crate) fn wear(&mut self, ftl: &OneFtl, block: u32)
        requires block { block < blocks ftl.now }
        requires room { length (waiting_of self.old.lines) ≤ PIECE_BYTES }
        ensures lines { waiting_of self.new.lines
            ≡ waiting_of self.old.lines ++ block_line (stock_of ftl.now) block }
    {
        let (erases, live, retired) = (ftl.erases(block), ftl.live(block), ftl.retired(block));
        self.lines.wear(block, erases, live, retired);
    }

    /// Writes the lines that wait.
    pub(crate) fn hand_on<W: Write>(&mut self, writer: &mut Watched<W>) -> Result<(), OutputFailed>
        ensures sent { WritesOut (waiting_of self.old.lines)
            (over W.contents writer.old writer.new) result }
        ensures empty { OnOk result (waiting_of self.new.lines ≡ []) }
        ensures refused { self.new.refused ≡ self.old.refused }
    {
        self.lines.hand_on(writer)
    }

    /// Writes the lines that wait if there are many, so that there is room for another line.
    pub(crate) fn make_room<W: Write>(
        &mut self,
        writer: &mut Watched<W>,
    ) -> Result<(), OutputFailed>
        ensures moved { Moves (over W.contents writer.old writer.new)
            (waiting_of self.new.lines) (waiting_of self.old.lines) }
        ensures failed { FailsBy result (over W.contents writer.old writer.new) }
        ensures room { OnOk result (length (waiting_of self.new.lines) ≤ PIECE_BYTES) }
        ensures page { vec_len self.new.page ≡ vec_len self.old.page }
        ensures refused { self.new.refused ≡ self.old.refused }
        ensures part { OnErr result
            (Writes Part (waiting_of self.old.lines) (over W.contents writer.old writer.new)) }
    {
        self.lines.make_room(writer)
    }
}
