ghost use Rattle.std.specs.Prelude.{◌≡◌, []};
ghost use Rattle.ftl_one.specs.OneFtl.{geometry_of, stock_of};
ghost use Rattle.answers.specs.{Delivery.waiting_of, Streams.WritesOut, Streams.over};
ghost use Rattle.answers.specs.Streams.{WritesIf};
ghost use Rattle.runs.specs.Logs.{wear_text};

use crate::desk::Desk;
use crate::log::Log;
use answers::OutputFailed;
use ftl_one::OneFtl;
use std::io::Write;
use streams::Watched;

/// A device after its run, the desk, on which no line waits, and the log of its collections.
#[derive(Drop)]
pub(crate) struct Played {
    pub ftl: OneFtl,
    pub desk: Desk,
    pub log: Log,
    pub ghost sent: { waiting_of desk.lines ≡ [] },
}

// Writes the wear of each block of a device, if it is wanted.
pub(crate) fn tell_wear_if<V: Write>(
    wanted: bool,
    ftl: &OneFtl,
    desk: &mut Desk,
    wear: &mut Watched<V>,
) -> Result<(), OutputFailed>
    requires lines { waiting_of desk.old.lines ≡ [] }
    ensures { WritesIf wanted (wear_text (geometry_of ftl.now) (stock_of ftl.now))
        (over V.contents wear.old wear.new) result }
{
    if !wanted {
        return Ok(());
    }
    tell_wear(ftl, desk, wear)
}

// Writes the wear of each block of a device.
fn tell_wear<V: Write>(
    ftl: &OneFtl,
    desk: &mut Desk,
    wear: &mut Watched<V>,
) -> Result<(), OutputFailed>
    requires lines { waiting_of desk.old.lines ≡ [] }
    ensures { WritesOut (wear_text (geometry_of ftl.now) (stock_of ftl.now))
        (over V.contents wear.old wear.new) result }
{
    desk.wear_names();
    for block in 0..ftl.geometry().blocks() {
        desk.make_room(wear)?;
        desk.wear(ftl, block);
    }
    desk.hand_on(wear)
}
