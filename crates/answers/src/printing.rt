ghost use Rattle.std.specs.Prelude.{◌≡◌, ◌*◌, ◌-◌, ◌≤◌, [], ◌++◌, drop, length, IfOk, OnOk, OnErr};
ghost use Rattle.geometry.specs.Geometry.{page_bytes_of};
ghost use Rattle.hex.specs.Hex.{encode_lower};
ghost use Rattle.answers.specs.Answers.{broom_line, broom_names, collection_line, collection_names, end_text, line_text, totals_text, wear_line, wear_names};
ghost use Rattle.answers.specs.{Delivery.page_digits_of, Delivery.waiting_of, Answers.reply_text, declared.line.TheConstants.PIECE_BYTES};
ghost use Rattle.answers.specs.Streams.{FailsBy, Moves, Part, Writes, WritesOut, over};
ghost use Rattle.answers.specs.declared.reply.Reply.TheVariants as replies;

use crate::broom_line::BroomLine;
use crate::delivery::{OutputFailed, send_some};
use crate::line::{
    LINE_BYTES, PIECE_BYTES, put_broom, put_collection, put_end, put_line, put_totals, put_wear,
};
use crate::lines::Lines;
use crate::reply::Reply;
use geometry::Geometry;
use std::alloc::{AllocError, Global};
use std::io::Write;
use streams::Watched;
use text::{Numbering, put_text};
use trace::Op;

impl Lines {
    /// An empty buffer for the lines of a device of this geometry.
    pub fn new(alloc: Global, geometry: &Geometry) -> Result<Lines, AllocError>
        ensures page { IfOk result
            (λ lines. page_digits_of lines ≡ 2 * page_bytes_of geometry.now) }
        ensures waiting { IfOk result (λ lines. waiting_of lines ≡ []) }
    {
        let digits = 2 * geometry.page_bytes();
        Ok(Lines {
            buffer: vec![in alloc; 0; PIECE_BYTES + LINE_BYTES + digits]?,
            used: 0,
            numbering: Numbering::new(),
            digits,
        })
    }

    /// Adds an answer line. `page` is the value that a read found.
    #[inline(always)]
    pub fn answer(&mut self, line: u64, op: Op, sector: u32, reply: Reply, page: &[u8])
        requires page { reply ≡ replies.Page → page_digits_of self.old ≡ 2 * length page.now }
        requires room { length (waiting_of self.old) ≤ PIECE_BYTES }
        ensures waiting { waiting_of self.new
            ≡ waiting_of self.old ++ line_text line op sector
            (reply_text reply (encode_lower page.now)) }
        ensures page { page_digits_of self.new ≡ page_digits_of self.old }
    {
        self.used = put_line(
            &mut self.numbering,
            &mut self.buffer,
            self.used,
            line,
            op,
            sector,
            reply,
            page,
        );
    }

    /// Adds the last line of a run by several threads.
    pub fn end(&mut self)
        requires room { length (waiting_of self.old) ≤ PIECE_BYTES }
        ensures waiting { waiting_of self.new ≡ waiting_of self.old ++ end_text }
        ensures page { page_digits_of self.new ≡ page_digits_of self.old }
    {
        self.used = put_end(&mut self.buffer, self.used);
    }

    /// Adds the last line of a run by one thread, with its totals.
    pub fn totals(&mut self, programs: u64, copies: u64, erases: u64)
        requires room { length (waiting_of self.old) ≤ PIECE_BYTES }
        ensures waiting { waiting_of self.new
            ≡ waiting_of self.old ++ totals_text programs copies erases }
        ensures page { page_digits_of self.new ≡ page_digits_of self.old }
    {
        self.used = put_totals(&mut self.buffer, self.used, programs, copies, erases);
    }

    /// Adds the header line of the wear.
    pub fn wear_names(&mut self)
        requires room { length (waiting_of self.old) ≤ PIECE_BYTES }
        ensures waiting { waiting_of self.new ≡ waiting_of self.old ++ wear_names }
        ensures page { page_digits_of self.new ≡ page_digits_of self.old }
    {
        self.used = put_text(&mut self.buffer, self.used, b"block,erases,live,retired\n");
    }

    /// Adds a block's line of the wear: its erases, its live pages, and whether it is retired.
    pub fn wear(&mut self, block: u32, erases: u32, live: u32, retired: bool)
        requires room { length (waiting_of self.old) ≤ PIECE_BYTES }
        ensures waiting { waiting_of self.new
            ≡ waiting_of self.old ++ wear_line block erases live retired }
        ensures page { page_digits_of self.new ≡ page_digits_of self.old }
    {
        self.used = put_wear(&mut self.buffer, self.used, block, erases, live, retired);
    }

    /// Adds the names of what is reported for each collection.
    pub fn collection_names(&mut self)
        requires room { length (waiting_of self.old) ≤ PIECE_BYTES }
        ensures waiting { waiting_of self.new ≡ waiting_of self.old ++ collection_names }
        ensures page { page_digits_of self.new ≡ page_digits_of self.old }
    {
        self.used = put_text(
            &mut self.buffer,
            self.used,
            b"line,victim,copied,copybacks,erases,outcome\n",
        );
    }

    /// Adds the line of a collection: the line of the trace that it is for, its victim, its copies, how many of them are
    /// copybacks, the victim's erases, and whether it is retired.
    pub fn collection(
        &mut self,
        line: u64,
        victim: u32,
        copied: u32,
        copybacks: u32,
        erases: u32,
        retired: bool,
    )
        requires room { length (waiting_of self.old) ≤ PIECE_BYTES }
        ensures waiting { waiting_of self.new
            ≡ waiting_of self.old ++ collection_line line victim copied copybacks erases retired }
        ensures page { page_digits_of self.new ≡ page_digits_of self.old }
    {
        self.used = put_collection(
            &mut self.buffer,
            self.used,
            line,
            victim,
            copied,
            copybacks,
            erases,
            retired,
        );
    }

    /// Adds the names of what is reported for each broom.
    pub fn broom_names(&mut self)
        requires room { length (waiting_of self.old) ≤ PIECE_BYTES }
        ensures waiting { waiting_of self.new ≡ waiting_of self.old ++ broom_names }
        ensures page { page_digits_of self.new ≡ page_digits_of self.old }
    {
        self.used = put_text(
            &mut self.buffer,
            self.used,
            b"broom,drained,moved,programmed,erased,kept,retired,lost,pinned,stale,idle\n",
        );
    }

    /// Adds the line of a broom.
    pub fn broom(&mut self, it: BroomLine)
        requires room { length (waiting_of self.old) ≤ PIECE_BYTES }
        ensures waiting { waiting_of self.new ≡ waiting_of self.old ++ broom_line it }
        ensures page { page_digits_of self.new ≡ page_digits_of self.old }
    {
        self.used = put_broom(&mut self.buffer, self.used, it);
    }

    /// Writes the lines that wait. After a failure those bytes wait that the writer has not taken, so another call can continue.
    pub fn hand_on<W: Write>(&mut self, writer: &mut Watched<W>) -> Result<(), OutputFailed>
        ensures sent { WritesOut (waiting_of self.old)
            (over W.contents writer.old writer.new) result }
        ensures empty { OnOk result (waiting_of self.new ≡ []) }
        ensures page { page_digits_of self.new ≡ page_digits_of self.old }
        ensures kept { OnErr result
            (Moves (over W.contents writer.old writer.new)
            (waiting_of self.new) (waiting_of self.old)) }
    {
        let sent = send_some(writer, &self.buffer[..self.used]);
        self.remove_front(sent);
        if self.used == 0 {
            Ok(())
        } else {
            Err(OutputFailed)
        }
    }

    // Removes the first bytes of those that wait.
    fn remove_front(&mut self, count: usize)
        requires { count ≤ length (waiting_of self.old) }
        ensures waiting { waiting_of self.new ≡ drop count (waiting_of self.old) }
        ensures left { self.new.used ≡ self.old.used - count }
        ensures page { page_digits_of self.new ≡ page_digits_of self.old }
    {
        self.buffer.as_mut_slice().copy_within(count..self.used, 0);
        self.used -= count;
    }

    /// Writes the lines that wait if there are many, so that there is room for another line.
    pub fn make_room<W: Write>(&mut self, writer: &mut Watched<W>) -> Result<(), OutputFailed>
        ensures moved { Moves (over W.contents writer.old writer.new)
            (waiting_of self.new) (waiting_of self.old) }
        ensures failed { FailsBy result (over W.contents writer.old writer.new) }
        ensures room { OnOk result (length (waiting_of self.new) ≤ PIECE_BYTES) }
        ensures page { page_digits_of self.new ≡ page_digits_of self.old }
        ensures part { OnErr result
            (Writes Part (waiting_of self.old) (over W.contents writer.old writer.new)) }
    {
        if self.used < PIECE_BYTES {
            return Ok(());
        }
        self.hand_on(writer)
    }
}
