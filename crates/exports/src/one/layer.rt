//! The calls of the layer, by codes.
ghost use Rattle.std.specs.Prelude.{◌≡◌, length};
ghost use Rattle.exports.specs.One.{machine_of, Open, write_on, write_new_on, trim_on, read_on, buffer_on, totals_on, reported, block_on, report_on};

use crate::codes::{DONE, NO_SECTOR, NO_SUCH_BLOCK, NOT_A_PAGE, WORN_OUT, WRITTEN, code_of};
use crate::reports::{BlockReport, NumbersReport, Totals};
use ftl_one::{Counts, Geometry, Got, NewOneFault, OneFtl};

// Reads a sector into a buffer.
pub(crate) fn read(layer: &OneFtl, sector: u32, out: &mut [u8]) -> u32
    ensures code { result ≡ read_on sector (length out.old) (machine_of layer.now) }
    ensures buffer { out.new ≡ buffer_on sector out.old (machine_of layer.now) }
{
    let geometry = layer.geometry();
    if sector >= geometry.sectors() {
        return NO_SECTOR;
    }
    if out.len() != geometry.page_bytes() {
        return NOT_A_PAGE;
    }
    match layer.read(sector, out) {
        Got::Empty => DONE,
        Got::Data => WRITTEN,
    }
}

// Writes bytes to a sector, and returns what it was.
pub(crate) fn write(layer: &mut OneFtl, sector: u32, bytes: &[u8]) -> u32
    ensures code { result ≡ (write_on sector bytes.now (machine_of layer.old)).code }
    ensures state { Open (machine_of layer.new)
        ≡ (write_on sector bytes.now (machine_of layer.old)).state }
{
    let geometry = layer.geometry();
    if sector >= geometry.sectors() {
        return NO_SECTOR;
    }
    if bytes.len() != geometry.page_bytes() {
        return NOT_A_PAGE;
    }
    match layer.write(sector, bytes) {
        Ok(was) => code_of(was),
        Err(_) => WORN_OUT,
    }
}

// Writes bytes to a sector if it is empty.
pub(crate) fn write_new(layer: &mut OneFtl, sector: u32, bytes: &[u8]) -> u32
    ensures code { result ≡ (write_new_on sector bytes.now (machine_of layer.old)).code }
    ensures state { Open (machine_of layer.new)
        ≡ (write_new_on sector bytes.now (machine_of layer.old)).state }
{
    let geometry = layer.geometry();
    if sector >= geometry.sectors() {
        return NO_SECTOR;
    }
    if bytes.len() != geometry.page_bytes() {
        return NOT_A_PAGE;
    }
    match layer.write_new(sector, bytes) {
        Ok(()) => DONE,
        Err(NewOneFault::Written) => WRITTEN,
        Err(NewOneFault::WornOut) => WORN_OUT,
    }
}

// Empties a sector, and returns what it was.
pub(crate) fn trim(layer: &mut OneFtl, sector: u32) -> u32
    ensures code { result ≡ (trim_on sector (machine_of layer.old)).code }
    ensures state { Open (machine_of layer.new) ≡ (trim_on sector (machine_of layer.old)).state }
{
    if sector >= layer.geometry().sectors() {
        return NO_SECTOR;
    }
    code_of(layer.trim(sector))
}

// The totals.
pub(crate) fn totals(layer: &OneFtl, out: &mut Totals) -> u32
    ensures code { result ≡ DONE }
    ensures report { out.new ≡ totals_on (machine_of layer.now) }
{
    let Counts {
        programs,
        copies,
        erases,
    } = layer.counts();
    *out = Totals {
        programs,
        copies,
        erases,
    };
    DONE
}

// What a block has had so far.
pub(crate) fn block(layer: &OneFtl, block: u32, out: &mut BlockReport) -> u32
    ensures code { result ≡ block_on block (machine_of layer.now) }
    ensures report { out.new ≡ report_on block out.old (machine_of layer.now) }
{
    if block >= layer.geometry().blocks() {
        return NO_SUCH_BLOCK;
    }
    *out = BlockReport {
        erases: layer.erases(block),
        live: layer.live(block),
        retired: u32::from(layer.retired(block)),
    };
    DONE
}

// The numbers of a device.
pub(crate) fn numbers(geometry: &Geometry, out: &mut NumbersReport) -> u32
    ensures code { result ≡ DONE }
    ensures report { out.new ≡ reported geometry.now }
{
    *out = NumbersReport {
        luns: geometry.luns(),
        blocks: geometry.blocks(),
        pages: geometry.pages(),
        words: geometry.words(),
        sectors: geometry.sectors(),
        endurance: geometry.endurance(),
        hosts: geometry.hosts(),
        brooms: geometry.brooms(),
    };
    DONE
}
