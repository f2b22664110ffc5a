//! The calls of C. Each but the close takes the seat out of its handle, and puts it back.
ghost use Rattle.std.specs.Prelude.{◌≡◌, ◌≢◌, ◌<◌, ◌≤◌, ◌+◌, ◌-◌, ◌*◌, ◌^◌, ◌&&◌, true, Some, None, nat_eq, nat_le, nat_lt, if◌then◌else◌, ◌==◌};
ghost use Rattle.durable.specs.Device.{next_number_of};
ghost use Rattle.durable.specs.Mounting.{next_in};
ghost use Rattle.durable_exports.specs.declared.codes.TheConstants.{DONE, WRITTEN, NO_MEMORY, NO_BLOCK, OTHER_DEVICE, NO_NUMBER, OUT_OF_ORDER};
ghost use Rattle.durable_exports.specs.Handles.{seat_of};
ghost use Rattle.durable_exports.specs.Reports.{found_page};
ghost use Rattle.durable_exports.specs.Calls.{code_of_mount, code_of_layer, OfMount, OfLayer, HasMount, HasLayer, begin_code, note_code};
ghost use Rattle.durable_exports.specs.Calls.{finish_code, FreesBlock, Accepts, Refuses, IsBegun, IsNoted, IsMounted};
ghost use Rattle.durable_exports.specs.Calls.{sector_code, extent_code, retire_code, IsNewestPageOf, IsCommandFor, IsDone, GoesOnWithout, TakesSpare};
ghost use Rattle.durable_exports.specs.Calls.{layer_losses, stamp_of};

use crate::codes::{
    ALREADY_OPEN, CLOSED, DONE, NO_BLOCK, NO_MEMORY, OUT_OF_ORDER, TOO_FEW_BLOCKS, WRONG_KIND,
};
use crate::handle::Handle;
use crate::layer::Layer;
use crate::mounts;
use crate::reports::{CommandReport, PlaceReport, Totals};
use crate::seat::Seat;
use durable::{Extent, Mount, MountFault, Stamp};
use std::alloc::Global;

/// Begins the mount of a device with these numbers, whose blocks are all in use.
#[unsafe(no_mangle)]
pub extern "C" fn mintlintel_core_open(
    alloc: Global,
    handle: &mut Handle,
    blocks: u32,
    pages: u32,
    sectors: u32,
) -> u32
    ensures code { result
        ≡ begin_code (seat_of handle.old)
        (nat_lt sectors ((blocks - 1) * pages)) (nat_eq result NO_MEMORY) }
    ensures begun { result ≡ DONE → HasMount (seat_of handle.new)
        (IsBegun (record { blocks = blocks; read_blocks = blocks; pages = pages; sectors = sectors })) }
    ensures same { result ≢ DONE → seat_of handle.new ≡ seat_of handle.old }
{
    open(alloc, handle, blocks, blocks, pages, sectors)
}

/// The same of a device that has bad blocks and a reserve, with numbers after those in use: they are read and not used.
#[unsafe(no_mangle)]
pub extern "C" fn mintlintel_core_open_over(
    alloc: Global,
    handle: &mut Handle,
    read_blocks: u32,
    blocks: u32,
    pages: u32,
    sectors: u32,
) -> u32
    ensures code { result
        ≡ begin_code (seat_of handle.old)
        (nat_le blocks read_blocks && nat_lt sectors ((blocks - 1) * pages)) (nat_eq result NO_MEMORY) }
    ensures begun { result ≡ DONE → HasMount (seat_of handle.new)
        (IsBegun (record { blocks = blocks; read_blocks = read_blocks; pages = pages; sectors = sectors })) }
    ensures same { result ≢ DONE → seat_of handle.new ≡ seat_of handle.old }
{
    if blocks > read_blocks {
        return if handle.is_open() {
            ALREADY_OPEN
        } else {
            TOO_FEW_BLOCKS
        };
    }
    open(alloc, handle, read_blocks, blocks, pages, sectors)
}

fn open(
    alloc: Global,
    handle: &mut Handle,
    read_blocks: u32,
    blocks: u32,
    pages: u32,
    sectors: u32,
) -> u32
    requires { blocks ≤ read_blocks }
    ensures code { result
        ≡ begin_code (seat_of handle.old)
        (nat_lt sectors ((blocks - 1) * pages)) (nat_eq result NO_MEMORY) }
    ensures begun { result ≡ DONE → HasMount (seat_of handle.new)
        (IsBegun (record { blocks = blocks; read_blocks = read_blocks; pages = pages; sectors = sectors })) }
    ensures same { result ≢ DONE → seat_of handle.new ≡ seat_of handle.old }
{
    if handle.is_open() {
        return ALREADY_OPEN;
    }
    if !has_capacity(blocks, pages, sectors) {
        return TOO_FEW_BLOCKS;
    }
    let Ok(mount) = Mount::begin_over(alloc, read_blocks, blocks, pages, sectors) else {
        return NO_MEMORY;
    };
    if handle.typed().fill(alloc, Seat::Mounting(mount)) {
        DONE
    } else {
        NO_MEMORY
    }
}

// Whether the sectors fit in all blocks but one, with a page to spare.
fn has_capacity(blocks: u32, pages: u32, sectors: u32) -> bool
    ensures { result ≡ nat_lt sectors ((blocks - 1) * pages) }
{
    blocks > 0 && u64::from(sectors) < u64::from(blocks - 1) * u64::from(pages)
}

/// Notes the stamp of the next page: nothing with 0; with 1 and 2 its sectors, from the first one on, and its number. 2 tells that it is a trim, which
/// keeps no page where no page has a value of its sectors. Another number is refused.
#[unsafe(no_mangle)]
pub extern "C" fn mintlintel_core_note(
    alloc: Global,
    handle: &mut Handle,
    has_version: u32,
    first: u32,
    count: u32,
    number: u64,
) -> u32
    ensures code { result ≡ code_of_mount (seat_of handle.old)
        (λ m. note_code (next_in m) (nat_eq result OTHER_DEVICE)) }
    ensures kinds { 2 < has_version → result ≢ DONE }
    ensures accepts { has_version ≤ 2
        → OfMount (seat_of handle.old)
        (Accepts (stamp_of has_version (record { first = first; count = count }) number) result) }
    ensures refuses { OfMount (seat_of handle.old)
        (Refuses (stamp_of has_version (record { first = first; count = count }) number) result) }
    ensures noted { result ≡ DONE → OfMount (seat_of handle.old)
        (λ m. HasMount (seat_of handle.new) (IsNoted (stamp_of has_version (record { first = first; count = count }) number) m)) }
    ensures same { result ≢ DONE → seat_of handle.new ≡ seat_of handle.old }
{
    let extent = Extent { first, count };
    let is_trim = has_version == 2;
    let stamp = if has_version == 0 {
        None
    } else {
        Some(Stamp {
            extent,
            number,
            is_trim,
        })
    };
    handle.typed().on(alloc, |seat| {
        if has_version > 2 {
            refuse(seat)
        } else {
            note(seat, stamp)
        }
    })
}

// The code of a note of something that is no stamp.
fn refuse(seat: &Seat) -> u32
    ensures code { result ≡ code_of_mount (Some seat.now) (λ m. note_code (next_in m) true) }
    ensures refused { result ≢ DONE }
{
    match seat {
        Seat::Mounting(mount) => mounts::refuse(mount),
        Seat::Mounted(_) | Seat::Driving(_) => WRONG_KIND,
    }
}

fn note(seat: &mut Seat, stamp: Option<Stamp>) -> u32
    ensures code { result ≡ code_of_mount (Some seat.old)
        (λ m. note_code (next_in m) (nat_eq result OTHER_DEVICE)) }
    ensures accepts { OfMount (Some seat.old) (Accepts stamp result) }
    ensures refuses { OfMount (Some seat.old) (Refuses stamp result) }
    ensures noted { result ≡ DONE
        → OfMount (Some seat.old) (λ m. HasMount (Some seat.new) (IsNoted stamp m)) }
    ensures same { result ≢ DONE → seat.new ≡ seat.old }
{
    match seat {
        Seat::Mounting(mount) => mounts::note(mount, stamp),
        Seat::Mounted(_) | Seat::Driving(_) => WRONG_KIND,
    }
}

/// Mounts the layer, once every page was noted. If that fails, the handle is closed.
#[unsafe(no_mangle)]
pub extern "C" fn mintlintel_core_finish(alloc: Global, handle: &mut Handle) -> u32
    ensures code { result ≡ code_of_mount (seat_of handle.old)
        (λ m. finish_code (next_in m) (nat_eq result NO_BLOCK) (nat_eq result NO_MEMORY)) }
    ensures frees { OfMount (seat_of handle.old) (FreesBlock result) }
    ensures mounted { result ≡ DONE
        → OfMount (seat_of handle.old) (λ m. HasLayer (seat_of handle.new) (IsMounted m)) }
    ensures memory { result ≡ NO_MEMORY → seat_of handle.new ≡ None }
    ensures block { result ≡ NO_BLOCK → seat_of handle.new ≡ None }
    ensures same { result ≢ DONE → result ≢ NO_MEMORY → result ≢ NO_BLOCK
        → seat_of handle.new ≡ seat_of handle.old }
{
    let handle = handle.typed();
    let Some(seat) = handle.take(alloc) else {
        return CLOSED;
    };
    match &*seat {
        Seat::Mounting(mount) => {
            if mount.next_page().is_some() {
                handle.put(seat);
                return OUT_OF_ORDER;
            }
        }
        Seat::Mounted(_) | Seat::Driving(_) => {
            handle.put(seat);
            return WRONG_KIND;
        }
    }
    let Seat::Mounting(mount) = Box::into_inner(seat) else {
        return WRONG_KIND;
    };
    match mount.finish(alloc) {
        Ok(core) => {
            if handle.fill(alloc, Seat::Mounted(Layer::new(core))) {
                DONE
            } else {
                NO_MEMORY
            }
        }
        Err(MountFault::NoFreeBlock) => NO_BLOCK,
        Err(_) => NO_MEMORY,
    }
}

/// The page with the newest version of a sector: 1 with its place, or 0 if no page has one.
#[unsafe(no_mangle)]
pub extern "C" fn mintlintel_core_page(
    alloc: Global,
    handle: &mut Handle,
    sector: u32,
    out: &mut PlaceReport,
) -> u32
    ensures code { result
        ≡ code_of_layer (seat_of handle.old)
        (sector_code sector (if result == WRITTEN then WRITTEN else DONE)) }
    ensures page { OfLayer (seat_of handle.old)
        (IsNewestPageOf sector (found_page result out.new)) }
    ensures report { result ≢ WRITTEN → out.new ≡ out.old }
    ensures same { seat_of handle.new ≡ seat_of handle.old }
{
    handle
        .typed()
        .on_with(alloc, out, |seat, out| page(seat, sector, out))
}

fn page(seat: &Seat, sector: u32, out: &mut PlaceReport) -> u32
    ensures code { result
        ≡ code_of_layer (Some seat.now)
        (sector_code sector (if result == WRITTEN then WRITTEN else DONE)) }
    ensures page { OfLayer (Some seat.now) (IsNewestPageOf sector (found_page result out.new)) }
    ensures report { result ≢ WRITTEN → out.new ≡ out.old }
{
    match seat {
        Seat::Mounted(layer) => layer.page(sector, out),
        Seat::Mounting(_) | Seat::Driving(_) => WRONG_KIND,
    }
}

/// The command that comes next for a write of a sector, or a trim of as many as are counted from the first one on.
#[unsafe(no_mangle)]
pub extern "C" fn mintlintel_core_next(
    alloc: Global,
    handle: &mut Handle,
    first: u32,
    count: u32,
    out: &mut CommandReport,
) -> u32
    ensures code { result
        ≡ code_of_layer (seat_of handle.old)
        (extent_code (record { first = first; count = count })
        (if result == NO_NUMBER then NO_NUMBER else DONE)) }
    ensures progress { OfLayer (seat_of handle.old)
        (λ l. next_number_of l.core + 1 < 2 ^ 64 → result ≢ NO_NUMBER) }
    ensures command { result ≡ DONE
        → OfLayer (seat_of handle.old)
        (IsCommandFor (record { first = first; count = count }) out.new) }
    ensures report { result ≢ DONE → out.new ≡ out.old }
    ensures same { seat_of handle.new ≡ seat_of handle.old }
{
    handle.typed().on_with(alloc, out, |seat, out| match seat {
        Seat::Mounted(layer) => layer.next(Extent { first, count }, out),
        Seat::Mounting(_) | Seat::Driving(_) => WRONG_KIND,
    })
}

/// The command that comes next for these sectors has succeeded.
#[unsafe(no_mangle)]
pub extern "C" fn mintlintel_core_done(
    alloc: Global,
    handle: &mut Handle,
    first: u32,
    count: u32,
    command: &mut CommandReport,
) -> u32
    ensures code { result
        ≡ code_of_layer (seat_of handle.old)
        (extent_code (record { first = first; count = count })
        (if result == OUT_OF_ORDER then OUT_OF_ORDER else DONE)) }
    ensures done { result ≡ DONE
        → OfLayer (seat_of handle.old) (λ l. HasLayer (seat_of handle.new) (IsDone (record { first = first; count = count }) command.old l)) }
    ensures same { result ≢ DONE → seat_of handle.new ≡ seat_of handle.old }
    ensures report { command.new ≡ command.old }
{
    let command = *command;
    handle.typed().on(alloc, |seat| match seat {
        Seat::Mounted(layer) => layer.done(Extent { first, count }, command),
        Seat::Mounting(_) | Seat::Driving(_) => WRONG_KIND,
    })
}

/// The command that comes next for these sectors has failed. Its block changes its number with `spare`, which comes in use in its stead. `left` isn't 0
/// if the page of a program can be read as a version now.
#[unsafe(no_mangle)]
pub extern "C" fn mintlintel_core_retire(
    alloc: Global,
    handle: &mut Handle,
    first: u32,
    count: u32,
    command: &mut CommandReport,
    left: u32,
    spare: u32,
) -> u32
    ensures code { result
        ≡ code_of_layer (seat_of handle.old)
        (extent_code (record { first = first; count = count }) (retire_code result)) }
    ensures retired { result ≡ DONE
        → OfLayer (seat_of handle.old) (λ l. HasLayer (seat_of handle.new)
        (GoesOnWithout (record { first = first; count = count }) command.old (nat_lt 0 left) spare l)) }
    ensures takes { OfLayer (seat_of handle.old) (TakesSpare spare result) }
    ensures same { result ≢ DONE → seat_of handle.new ≡ seat_of handle.old }
    ensures report { command.new ≡ command.old }
{
    let command = *command;
    handle.typed().on(
        alloc,
        |seat| retire(seat, Extent { first, count }, command, left > 0, spare),
    )
}

fn retire(seat: &mut Seat, extent: Extent, command: CommandReport, left: bool, spare: u32) -> u32
    ensures code { result ≡ code_of_layer (Some seat.old) (extent_code extent (retire_code result)) }
    ensures retired { result ≡ DONE → OfLayer (Some seat.old)
        (λ l. HasLayer (Some seat.new) (GoesOnWithout extent command left spare l)) }
    ensures takes { OfLayer (Some seat.old) (TakesSpare spare result) }
    ensures same { result ≢ DONE → seat.new ≡ seat.old }
{
    match seat {
        Seat::Mounted(layer) => layer.retire(extent, command, left, spare),
        Seat::Mounting(_) | Seat::Driving(_) => WRONG_KIND,
    }
}

/// A block was erased so often before the mount, which counts where the layer chooses among blocks that are as good.
#[unsafe(no_mangle)]
pub extern "C" fn mintlintel_core_erased(
    alloc: Global,
    handle: &mut Handle,
    block: u32,
    erases: u32,
) -> u32
    ensures code { result ≡ code_of_layer (seat_of handle.old) (λ _. DONE) }
    ensures same { seat_of handle.new ≡ seat_of handle.old }
{
    handle.typed().on(alloc, |seat| match seat {
        Seat::Mounted(layer) => {
            layer.core.erased_before(block, erases);
            DONE
        }
        Seat::Mounting(_) | Seat::Driving(_) => WRONG_KIND,
    })
}

/// From now on the layer keeps what hosts write apart from copies, where blocks are free.
#[unsafe(no_mangle)]
pub extern "C" fn mintlintel_core_keep_apart(alloc: Global, handle: &mut Handle) -> u32
    ensures code { result ≡ code_of_layer (seat_of handle.old) (λ _. DONE) }
    ensures same { seat_of handle.new ≡ seat_of handle.old }
{
    handle.typed().on(alloc, |seat| match seat {
        Seat::Mounted(layer) => {
            layer.core.keep_copies_apart();
            DONE
        }
        Seat::Mounting(_) | Seat::Driving(_) => WRONG_KIND,
    })
}

/// What has succeeded since the mount.
#[unsafe(no_mangle)]
pub extern "C" fn mintlintel_core_counts(
    alloc: Global,
    handle: &mut Handle,
    out: &mut Totals,
) -> u32
    ensures code { result ≡ code_of_layer (seat_of handle.old) (λ _. DONE) }
    ensures totals { OfLayer (seat_of handle.old) (λ l. out.new ≡ l.totals) }
    ensures report { result ≢ DONE → out.new ≡ out.old }
    ensures same { seat_of handle.new ≡ seat_of handle.old }
{
    handle.typed().on_with(alloc, out, |seat, out| match seat {
        Seat::Mounted(layer) => {
            *out = layer.totals;
            DONE
        }
        Seat::Mounting(_) | Seat::Driving(_) => WRONG_KIND,
    })
}

/// How many losses the mount has found.
#[unsafe(no_mangle)]
pub extern "C" fn mintlintel_core_losses(alloc: Global, handle: &mut Handle, out: &mut u64) -> u32
    ensures code { result ≡ code_of_layer (seat_of handle.old) (λ _. DONE) }
    ensures losses { OfLayer (seat_of handle.old) (λ l. out.new ≡ layer_losses l) }
    ensures report { result ≢ DONE → out.new ≡ out.old }
    ensures same { seat_of handle.new ≡ seat_of handle.old }
{
    handle.typed().on_with(alloc, out, |seat, out| match seat {
        Seat::Mounted(layer) => {
            *out = layer.core.losses();
            DONE
        }
        Seat::Mounting(_) | Seat::Driving(_) => WRONG_KIND,
    })
}

/// Closes a handle. One that is closed stays so.
#[unsafe(no_mangle)]
pub extern "C" fn mintlintel_core_close(alloc: Global, handle: &mut Handle)
    ensures { seat_of handle.new ≡ None }
{
    let _seat = handle.typed().take(alloc);
}
