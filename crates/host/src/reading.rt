//! Reads: a look names the sector's page, a pin keeps its block from being erased, and the page is read.
ghost use Rattle.std.specs.Prelude.{◌≡◌, ◌<◌, is_some, length};
ghost use Rattle.geometry.specs.Geometry.{sectors_of, page_bytes_of};
ghost use Rattle.geometry.specs.Sectors.{Answers};
ghost use Rattle.flash_table.specs.Flash.{view_of, opened_of, geometry_of};
ghost use Rattle.host.specs.Ready.{IsReady, seen_at};
ghost use Rattle.host.specs.Told.{Searched};

use crate::searching::{read_page, search};
use flash_table::{Flash, Gate, NoGate, Pass, Point};
use geometry::Got;

/// What a read found, and how many looks it made.
#[derive(Clone, Copy, Debug, PartialEq, Eq)]
pub struct ReadDone {
    pub got: Got,
    pub tries: u64,
}

/// Reads a sector into `out`, a buffer of one page.
pub fn read(flash: &Flash, pass: &mut Pass, sector: u32, out: &mut [u8]) -> ReadDone
    requires pass { IsReady flash.now pass.old }
    requires sector { sector < sectors_of (geometry_of flash.now) }
    requires page { length out.old ≡ page_bytes_of (geometry_of flash.now) }
    ensures searched { Searched (view_of pass.old) result.tries (view_of pass.new) }
    ensures answer { Answers
        (seen_at flash.now pass.new sector) result.got out.old out.new }
    ensures pass { IsReady flash.now pass.new }
    ensures opened { opened_of pass.new ≡ opened_of pass.old }
{
    read_gated(flash, pass, sector, out, &mut NoGate)
}

/// A read that calls its gate after each look, and after its pin.
pub fn read_gated<G: Gate>(
    flash: &Flash,
    pass: &mut Pass,
    sector: u32,
    out: &mut [u8],
    gate: &mut G,
) -> ReadDone
    requires pass { IsReady flash.now pass.old }
    requires sector { sector < sectors_of (geometry_of flash.now) }
    requires page { length out.old ≡ page_bytes_of (geometry_of flash.now) }
    ensures searched { Searched (view_of pass.old) result.tries (view_of pass.new) }
    ensures answer { Answers
        (seen_at flash.now pass.new sector) result.got out.old out.new }
    ensures pass { IsReady flash.now pass.new }
    ensures opened { opened_of pass.new ≡ opened_of pass.old }
{
    let looks = search(flash, pass, sector, gate);
    let Some(page) = looks.page else {
        return ReadDone {
            got: Got::Empty,
            tries: looks.tries,
        };
    };
    gate.at(Point::AfterPin);
    read_page(flash, pass, page, out);
    flash.unpin(pass, page.block);
    ReadDone {
        got: Got::Data,
        tries: looks.tries,
    }
}

/// Whether a sector is written, by one look at its map word. No page is read.
pub fn look(flash: &Flash, pass: &mut Pass, sector: u32) -> bool
    requires pass { IsReady flash.now pass.old }
    requires sector { sector < sectors_of (geometry_of flash.now) }
    ensures searched { Searched (view_of pass.old) 1 (view_of pass.new) }
    ensures answer { result
        ≡ is_some (seen_at flash.now pass.new sector) }
    ensures pass { IsReady flash.now pass.new }
    ensures opened { opened_of pass.new ≡ opened_of pass.old }
{
    flash.look(pass, sector).is_some()
}
