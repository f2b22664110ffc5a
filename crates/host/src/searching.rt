//! The search for a sector's page, with which reads and holds begin, and the reading of a pinned page.
ghost use Rattle.std.specs.Prelude.{◌≡◌, ℕ, ◌<◌, List, IfSome, IfNone, None, Some, length};
ghost use Rattle.geometry.specs.Geometry.{blocks_of, sectors_of, page_bytes_of};
ghost use Rattle.flash_rule.specs.declared.carried.Carried.{Carried};
ghost use Rattle.flash_rule.specs.declared.facts.Pin.TheVariants as pin;
ghost use Rattle.flash_rule.specs.Plays.{Spared};
ghost use Rattle.flash_table.specs.Flash.{IsPassOf, view_of, opened_of, geometry_of};
ghost use Rattle.host.specs.Ready.{IsReady, IsPinned, HasFound, seen_at};
ghost use Rattle.host.specs.Told.{Searched, PinnedInTime};

use flash_table::{Flash, Gate, Pass, Point};
use geometry::{MapWord, put_word};

// The page that is pinned, or none for an empty sector, and the number of looks.
#[derive(Clone, Copy)]
pub(crate) struct Looks {
    pub page: Option<MapWord>,
    pub tries: u64,
}

// Pins the page that a look has named. Where its block isn't any more as it was at the look, the pin is given back.
fn pin_in_time(flash: &Flash, pass: &mut Pass, page: MapWord) -> bool
    requires pass { IsPassOf flash.now pass.old }
    requires candidate { (value : List ℕ) × ((view_of pass.old).pin ≡ pin.Candidate page value) }
    requires block { page.block < blocks_of (geometry_of flash.now) }
    ensures pinned { PinnedInTime (view_of pass.old) page result (view_of pass.new) }
    ensures pass { IsPassOf flash.now pass.new }
    ensures opened { opened_of pass.new ≡ opened_of pass.old }
{
    let pinned = flash.pin(pass, page);
    if !pinned {
        flash.unpin(pass, page.block);
    }
    pinned
}

// Looks at the sector and pins the page that its map word names, until the page's block is as it was at the look, or the sector is empty.
pub(crate) fn search<G: Gate>(flash: &Flash, pass: &mut Pass, sector: u32, gate: &mut G) -> Looks
    requires pass { IsReady flash.now pass.old }
    requires sector { sector < sectors_of (geometry_of flash.now) }
    ensures searched { Searched (view_of pass.old) result.tries (view_of pass.new) }
    ensures found { IfSome result.page (HasFound flash.now pass.new sector) }
    ensures empty { IfNone result.page (IsReady flash.now pass.new
        × (seen_at flash.now pass.new sector ≡ None)) }
    ensures opened { opened_of pass.new ≡ opened_of pass.old }
{
    let mut tries = 0;
    loop {
        let found = flash.look(pass, sector);
        tries += 1;
        gate.at(Point::AfterLook);
        let Some(page) = found else {
            return Looks { page: None, tries };
        };
        if pin_in_time(flash, pass, page) {
            return Looks {
                page: Some(page),
                tries,
            };
        }
    }
}

// The bytes of a page that is pinned.
pub(crate) fn read_page(flash: &Flash, pass: &mut Pass, page: MapWord, out: &mut [u8])
    requires pinned { (value : List ℕ) × IsPinned flash.now pass.old page value }
    requires out { length out.old ≡ page_bytes_of (geometry_of flash.now) }
    ensures value { (value : List ℕ) → IsPinned flash.now pass.old page value
        → (out.new ≡ value) × IsPinned flash.now pass.new page value }
    ensures spared { (value : List ℕ) (c : Carried)
        → IsPinned flash.now pass.old page value → (view_of pass.old).copy ≡ Some c
        → Spared (view_of pass.old) page c }
    ensures same { view_of pass.new ≡ view_of pass.old }
    ensures opened { opened_of pass.new ≡ opened_of pass.old }
{
    let start = flash.page_start(page);
    for i in 0..flash.geometry().words() {
        let word = flash.get_word(pass, page, start, i);
        put_word(out, i as usize, word);
    }
}
