ghost use Rattle.std.specs.Prelude.{◌≡◌, ◌<◌, ◌≤◌, ◌+◌, length, Err, IfOk};
ghost use Rattle.version_map.specs.History.{version_after, Continues};
ghost use Rattle.version_map.specs.Map.{map_sectors, history_seen, looks_made, IsReaderOf};
ghost use Rattle.shared_nand.specs.Reads.{ReadsVersion};
ghost use Rattle.shared_nand.specs.declared.reading.ReadFault.TheVariants.{Lost as lost, Unsettled as unsettled};

use crate::flash::{PowerGone, SharedNand};
use crate::search::{Search, Step};
use version_map::{Reader, VersionMap};

/// Why a read gave nothing.
#[derive(Clone, Copy, Debug, PartialEq, Eq)]
pub enum ReadFault {
    /// The power is gone.
    PowerGone,
    /// Between two looks that named the same page it had no version of the sector: the page is torn or can't be corrected, if its owner moves a version
    /// before it erases the page. The owner's own read tells for sure.
    Lost,
    /// Each page that was read no longer had its version, and the looks are used up. The caller may read again, or beside the owner, under its lock.
    Unsettled,
}

/// Reads a sector, by so many looks at most. It waits for no write, collection, erase or sync. `None` says that the sector is empty.
pub fn read<N: SharedNand>(
    map: &VersionMap,
    nand: &N,
    reader: &mut Reader,
    sector: u32,
    tries: u32,
    out: &mut [u8],
) -> Result<Option<N::Token>, ReadFault>
    requires reader { IsReaderOf map.now reader.old }
    requires sector { sector < map_sectors map.now }
    requires page { length out.old ≡ N.page_bytes nand.now }

    // It answers what the sector holds after a history that goes on from all that this reader had seen.
    ensures later { Continues (history_seen reader.new) (history_seen reader.old) }
    ensures reads { IfOk result (λ found. ReadsVersion (N.tells nand.now)
        (version_after (history_seen reader.new) sector) found out.new) }

    // A sector is told as lost only if it isn't empty, after a look and one more, and as unsettled only once the looks are used up.
    ensures lost { result ≡ Err lost → (0 < version_after (history_seen reader.new) sector)
        × (looks_made reader.old + 2 ≤ looks_made reader.new) }
    ensures unsettled { result ≡ Err unsettled
        → looks_made reader.new ≡ looks_made reader.old + tries }
    ensures looks { looks_made reader.new ≤ looks_made reader.old + tries }
    ensures reader { IsReaderOf map.now reader.new }
    ensures size { length out.new ≡ N.page_bytes nand.now }
{
    let mut search = Search::new(sector, tries);
    for _ in 0..tries {
        let place = match search.look(map, reader) {
            Step::Read(place) => place,
            Step::Empty => return Ok(None),
            Step::Lost => return Err(ReadFault::Lost),
            Step::Unsettled => return Err(ReadFault::Unsettled),
        };
        match nand.read(place.page, out) {
            Ok(Some((number, token))) => {
                if search.fits(number) {
                    return Ok(Some(token));
                }
            }
            Ok(None) => {}
            Err(PowerGone) => return Err(ReadFault::PowerGone),
        }
    }
    Err(ReadFault::Unsettled)
}
