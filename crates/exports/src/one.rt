//! A device for one thread: the calls of C. Each is a call of the layer, on the seat of its handle.
ghost use Rattle.std.specs.Prelude.{◌≡◌, ◌≢◌, None, nat_eq, not, length};
ghost use Rattle.geometry.specs.Limits.{numbers};
ghost use Rattle.exports.specs.Handles.{seat_of};
ghost use Rattle.exports.specs.One.{state_of, on_state, code_on, filled_on, write_on, write_new_on, trim_on, read_on};
ghost use Rattle.exports.specs.One.{buffer_on, totals_on, reported, block_on, report_on, open_code, IsFreshIn};

pub(crate) mod layer;

use crate::codes::{ALREADY_OPEN, DONE, NO_MEMORY, WRONG_KIND, code_of_fault};
use crate::handle::Handle;
use crate::handle::seat::Seat;
use crate::reports::{BlockReport, NumbersReport, Totals};
use ftl_one::{Geometry, OneFtl};
use std::alloc::Global;

/// Opens a device of these numbers, with every sector empty.
#[unsafe(no_mangle)]
#[allow(clippy::too_many_arguments)]
pub extern "C" fn mintlintel_one_open(
    alloc: Global,
    handle: &mut Handle,
    luns: u32,
    blocks: u32,
    pages: u32,
    words: u32,
    sectors: u32,
    endurance: u32,
) -> u32
    ensures code { result
        ≡ open_code (seat_of handle.old) (numbers luns blocks pages words sectors endurance 0 0)
        (not (nat_eq result NO_MEMORY)) }
    ensures fresh { result ≡ DONE
        → IsFreshIn (numbers luns blocks pages words sectors endurance 0 0) (state_of handle.new) }
    ensures same { result ≢ DONE → seat_of handle.new ≡ seat_of handle.old }
{
    if handle.is_open() {
        return ALREADY_OPEN;
    }
    let geometry = match Geometry::new(luns, blocks, pages, words, sectors, endurance, 0, 0) {
        Ok(geometry) => geometry,
        Err(fault) => return code_of_fault(fault),
    };
    let Ok(layer) = OneFtl::new(alloc, &geometry) else {
        return NO_MEMORY;
    };
    if handle.typed().fill(alloc, Seat::One(layer)) {
        DONE
    } else {
        NO_MEMORY
    }
}

/// Closes a handle. One that is closed stays so.
#[unsafe(no_mangle)]
pub extern "C" fn mintlintel_one_close(alloc: Global, handle: &mut Handle)
    ensures { seat_of handle.new ≡ None }
{
    let _seat = handle.typed().take(alloc);
}

/// Reads a sector into a buffer of one page. An empty sector leaves the buffer as it was.
#[unsafe(no_mangle)]
pub extern "C" fn mintlintel_one_read(
    alloc: Global,
    handle: &mut Handle,
    sector: u32,
    out: &mut [u8],
) -> u32
    ensures code { result ≡ code_on (state_of handle.old) (read_on sector (length out.old)) }
    ensures buffer { out.new ≡ filled_on (state_of handle.old) out.old (buffer_on sector out.old) }
    ensures same { seat_of handle.new ≡ seat_of handle.old }
{
    handle.typed().on_page(alloc, out, |seat, out| match seat {
        Seat::One(layer) => layer::read(layer, sector, out),
        _ => WRONG_KIND,
    })
}

/// Writes a page of bytes to a sector, and returns what the sector was.
#[unsafe(no_mangle)]
pub extern "C" fn mintlintel_one_write(
    alloc: Global,
    handle: &mut Handle,
    sector: u32,
    bytes: &[u8],
) -> u32
    ensures code { result ≡ (on_state (state_of handle.old) (write_on sector bytes.now)).code }
    ensures state { state_of handle.new
        ≡ (on_state (state_of handle.old) (write_on sector bytes.now)).state }
{
    handle.typed().on(alloc, |seat| match seat {
        Seat::One(layer) => layer::write(layer, sector, bytes),
        _ => WRONG_KIND,
    })
}

/// Writes a page of bytes to a sector that is empty.
#[unsafe(no_mangle)]
pub extern "C" fn mintlintel_one_write_new(
    alloc: Global,
    handle: &mut Handle,
    sector: u32,
    bytes: &[u8],
) -> u32
    ensures code { result ≡ (on_state (state_of handle.old) (write_new_on sector bytes.now)).code }
    ensures state { state_of handle.new
        ≡ (on_state (state_of handle.old) (write_new_on sector bytes.now)).state }
{
    handle.typed().on(alloc, |seat| match seat {
        Seat::One(layer) => layer::write_new(layer, sector, bytes),
        _ => WRONG_KIND,
    })
}

/// Empties a sector, and returns what it was.
#[unsafe(no_mangle)]
pub extern "C" fn mintlintel_one_trim(alloc: Global, handle: &mut Handle, sector: u32) -> u32
    ensures code { result ≡ (on_state (state_of handle.old) (trim_on sector)).code }
    ensures state { state_of handle.new ≡ (on_state (state_of handle.old) (trim_on sector)).state }
{
    handle.typed().on(alloc, |seat| match seat {
        Seat::One(layer) => layer::trim(layer, sector),
        _ => WRONG_KIND,
    })
}

/// What the device has done so far.
#[unsafe(no_mangle)]
pub extern "C" fn mintlintel_one_counts(alloc: Global, handle: &mut Handle, out: &mut Totals) -> u32
    ensures code { result ≡ code_on (state_of handle.old) (λ _. DONE) }
    ensures report { out.new ≡ filled_on (state_of handle.old) out.old totals_on }
    ensures same { seat_of handle.new ≡ seat_of handle.old }
{
    handle.typed().on_with(alloc, out, |seat, out| match seat {
        Seat::One(layer) => layer::totals(layer, out),
        _ => WRONG_KIND,
    })
}

/// What a block has had so far.
#[unsafe(no_mangle)]
pub extern "C" fn mintlintel_one_block(
    alloc: Global,
    handle: &mut Handle,
    block: u32,
    out: &mut BlockReport,
) -> u32
    ensures code { result ≡ code_on (state_of handle.old) (block_on block) }
    ensures report { out.new ≡ filled_on (state_of handle.old) out.old (report_on block out.old) }
    ensures same { seat_of handle.new ≡ seat_of handle.old }
{
    handle.typed().on_with(alloc, out, |seat, out| match seat {
        Seat::One(layer) => layer::block(layer, block, out),
        _ => WRONG_KIND,
    })
}

/// The numbers that the device was made with.
#[unsafe(no_mangle)]
pub extern "C" fn mintlintel_one_numbers(
    alloc: Global,
    handle: &mut Handle,
    out: &mut NumbersReport,
) -> u32
    ensures code { result ≡ code_on (state_of handle.old) (λ _. DONE) }
    ensures report { out.new ≡ filled_on (state_of handle.old) out.old (λ m. reported m.numbers) }
    ensures same { seat_of handle.new ≡ seat_of handle.old }
{
    handle.typed().on_with(alloc, out, |seat, out| match seat {
        Seat::One(layer) => layer::numbers(&layer.geometry(), out),
        _ => WRONG_KIND,
    })
}
