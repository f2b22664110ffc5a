//! Writes and trims: a page is filled and counted, and then the sector's map word is swapped.
ghost use Rattle.std.specs.Prelude.{◌≡◌, ℕ, ◌+◌, ◌<◌, length, None, Some, OnErr, IfNone, IfOk, IfSome, MatchBool};
ghost use Rattle.geometry.specs.Geometry.{blocks_of, sectors_of, page_bytes_of};
ghost use Rattle.geometry.specs.History.{Trim};
ghost use Rattle.flash_rule.specs.Plays.{IsSettled};
ghost use Rattle.flash_table.specs.Flash.{IsPassOf, view_of, opened_of, geometry_of};
ghost use Rattle.flash_table.specs.declared.pass.OpenBlock.{OpenBlock};
ghost use Rattle.host.specs.Ready.{IsReady};
ghost use Rattle.host.specs.Told.{Wrote, Refused};
ghost use Rattle.host.specs.Filling.{TookLowest, Filled, HasRoom, IsClosedIfFull, IsProgrammed, TookNone};
ghost use Rattle.flash_table.specs.Steps.{HasCalled, HasNumber};

use flash_table::{Flash, Gate, NoGate, Pass, Point};
use geometry::{MapWord, Was, word_at};
use thiserror::Error;

/// The pass had no open block, and every block was found taken.
#[derive(Clone, Copy, Debug, PartialEq, Eq, Error)]
#[error("every block is taken")]
pub struct NoBlock;

/// Writes a page of bytes to a sector. Returns what the sector was.
pub fn write(flash: &Flash, pass: &mut Pass, sector: u32, bytes: &[u8]) -> Result<Was, NoBlock>
    requires pass { IsReady flash.now pass.old }
    requires sector { sector < sectors_of (geometry_of flash.now) }
    requires page { length bytes.now ≡ page_bytes_of (geometry_of flash.now) }
    ensures wrote { IfOk result
        (λ was. (t : ℕ) → HasNumber t pass.old
        → Wrote (view_of pass.old) t sector bytes.now was (view_of pass.new)) }
    ensures refused { OnErr result (Refused (view_of pass.old) (view_of pass.new)) }
    ensures pass { IsReady flash.now pass.new }
{
    write_gated(flash, pass, sector, bytes, &mut NoGate)
}

/// A write that calls its gate after its page was counted, before the sector's map word is swapped.
pub fn write_gated<G: Gate>(
    flash: &Flash,
    pass: &mut Pass,
    sector: u32,
    bytes: &[u8],
    gate: &mut G,
) -> Result<Was, NoBlock>
    requires pass { IsReady flash.now pass.old }
    requires sector { sector < sectors_of (geometry_of flash.now) }
    requires page { length bytes.now ≡ page_bytes_of (geometry_of flash.now) }
    ensures wrote { IfOk result
        (λ was. (t : ℕ) → HasNumber t pass.old
        → Wrote (view_of pass.old) t sector bytes.now was (view_of pass.new)) }
    ensures refused { OnErr result (Refused (view_of pass.old) (view_of pass.new)) }
    ensures pass { IsReady flash.now pass.new }
{
    let Some(page) = program(flash, pass, sector, bytes) else {
        return Err(NoBlock);
    };
    gate.at(Point::BeforePlace);
    let was = flash.place_write(pass, sector, page);
    close_if_full(flash, pass);
    Ok(was)
}

/// Empties a sector. Returns what it was.
pub fn trim(flash: &Flash, pass: &mut Pass, sector: u32) -> Was
    requires pass { IsReady flash.now pass.old }
    requires sector { sector < sectors_of (geometry_of flash.now) }
    ensures called { (t : ℕ) → HasNumber t pass.old
        → HasCalled pass.old (Trim t sector) sector result pass.new }
    ensures pass { IsReady flash.now pass.new }
    ensures opened { opened_of pass.new ≡ opened_of pass.old }
{
    flash.place_trim(pass, sector)
}

// Takes the lowest block that is free, trying from block 0 upwards, and says whether there was one.
pub(crate) fn take_lowest(flash: &Flash, pass: &mut Pass) -> bool
    requires pass { IsPassOf flash.now pass.old }
    requires nothing_open { opened_of pass.old ≡ None }
    ensures taken { MatchBool result
        (TookLowest (view_of pass.old) (view_of pass.new) (opened_of pass.new))
        (TookNone pass.old pass.new) }
    ensures pass { IsPassOf flash.now pass.new }
{
    for block in 0..flash.geometry().blocks() {
        if flash.take(pass, block) {
            return true;
        }
    }
    false
}

// Puts the bytes and the sector's stamp into the next page of the open block, and counts the page.
pub(crate) fn fill(flash: &Flash, pass: &mut Pass, sector: u32, bytes: &[u8]) -> MapWord
    requires pass { IsPassOf flash.now pass.old }
    requires room { HasRoom (geometry_of flash.now) (opened_of pass.old) }
    requires settled { IsSettled (view_of pass.old) }
    requires page { length bytes.now ≡ page_bytes_of (geometry_of flash.now) }
    ensures filled { (o : OpenBlock) → opened_of pass.old ≡ Some o
        → Filled (view_of pass.old) o sector bytes.now result (view_of pass.new) }
    ensures opened { (o : OpenBlock) → opened_of pass.old ≡ Some o
        → opened_of pass.new ≡ Some (record o { written = o.written + 1 }) }
    ensures pass { IsPassOf flash.now pass.new }
{
    let Some(opened) = pass.opened() else {
        unreachable!()
    };
    let page = MapWord {
        generation: opened.generation,
        block: opened.block,
        page: opened.written,
    };
    let start = flash.page_start(page);
    let words = flash.geometry().words();
    for i in 0..words {
        flash.put_word(pass, start, i, word_at(bytes, i as usize));
    }
    flash.put_word(pass, start, words, sector as u64);
    flash.count(pass);
    page
}

// Fills and counts a page of the open block, or of the lowest block that is free; without one there is no page.
pub(crate) fn program(flash: &Flash, pass: &mut Pass, sector: u32, bytes: &[u8]) -> Option<MapWord>
    requires pass { IsReady flash.now pass.old }
    requires page { length bytes.now ≡ page_bytes_of (geometry_of flash.now) }
    ensures filled { IfSome result
        (λ page. IsProgrammed flash.now (view_of pass.old) sector bytes.now page pass.new) }
    ensures refused { IfNone result (Refused (view_of pass.old) (view_of pass.new)) }
    ensures ready { IfNone result (IsReady flash.now pass.new) }
{
    if pass.opened().is_none() && !take_lowest(flash, pass) {
        return None;
    }
    Some(fill(flash, pass, sector, bytes))
}

// Closes the open block if no page is left in it.
pub(crate) fn close_if_full(flash: &Flash, pass: &mut Pass)
    requires pass { IsPassOf flash.now pass.old }
    requires opened { (o : OpenBlock) × (opened_of pass.old ≡ Some o)
        × (o.block < blocks_of (geometry_of flash.now)) }
    requires settled { IsSettled (view_of pass.old) }
    ensures closed { (o : OpenBlock) → opened_of pass.old ≡ Some o
        → IsClosedIfFull (geometry_of flash.now) pass.old o pass.new }
    ensures pass { IsPassOf flash.now pass.new }
{
    let Some(opened) = pass.opened() else {
        unreachable!()
    };
    if opened.written == flash.geometry().pages() {
        flash.close(pass);
    }
}
