ghost use Rattle.std.specs.{Prelude.◌≡◌, Prelude.◌≢◌, Prelude.length, List.fold};
ghost use Rattle.geometry.specs.History.{step};
ghost use Rattle.ftl_one.specs.OneFtl.{geometry_of, page_bytes, array_of, stock_of};
ghost use Rattle.hex.specs.Hex.{encode_lower};
ghost use Rattle.trace.specs.declared.commands.Op.TheVariants as ops;
ghost use Rattle.answers.specs.Answers.{calls_of, IsPlayable, is_worn_reply, reply_text};
ghost use Rattle.runs.specs.Playing.{answer_by, is_refused, stock_after};

use answers::Reply;
use ftl_one::{NewOneFault, OneFtl, WornOut};
use trace::{Command, Op};

// Does a command other than a read. The buffer has the size of a page, and is overwritten.
pub(crate) fn perform(ftl: &mut OneFtl, command: &Command<'_>, page: &mut [u8]) -> Reply
    requires playable { IsPlayable (geometry_of ftl.old) command.now }
    requires no_read { command.now.op ≢ ops.Read }
    requires buffer { length page.old ≡ page_bytes ftl.old }
    ensures geometry { geometry_of ftl.new ≡ geometry_of ftl.old }
    ensures refused { is_worn_reply result
        ≡ is_refused (geometry_of ftl.old) (stock_of ftl.old) command.now }
    ensures answer { reply_text result (encode_lower page.new) ≡ answer_by ftl.old command.now }
    ensures array { array_of ftl.new
        ≡ fold step (array_of ftl.old)
        (calls_of (is_refused (geometry_of ftl.old) (stock_of ftl.old) command.now) command.now) }
    ensures stock { stock_of ftl.new
        ≡ stock_after (geometry_of ftl.old) (stock_of ftl.old) command.now }
{
    match command.op {
        Op::Read => unreachable!(),
        Op::Write => {
            command.page.copy_into(page);
            match ftl.write(command.sector, page) {
                Ok(was) => Reply::of_was(was),
                Err(WornOut) => Reply::Worn,
            }
        }
        Op::New => {
            command.page.copy_into(page);
            match ftl.write_new(command.sector, page) {
                Ok(()) => Reply::Empty,
                Err(NewOneFault::Written) => Reply::Written,
                Err(NewOneFault::WornOut) => Reply::Worn,
            }
        }
        Op::Trim => Reply::of_was(ftl.trim(command.sector)),
        Op::Meet => Reply::Met,
    }
}
