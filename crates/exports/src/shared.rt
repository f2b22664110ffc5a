//! A device that threads share: the calls of C on any seat, and those of a broom. Each is a call of the device, on the seat of its handle.
ghost use Rattle.std.specs.Prelude.{◌≡◌, ◌≢◌, List, None, is_some};
ghost use Rattle.flash_table.specs.Flash.{device};
ghost use Rattle.broom.specs.Told.{KeepsSurvey, Unmarks, RestockTold};
ghost use Rattle.broom.specs.Erasing.{EraseTold};
ghost use Rattle.broom.specs.Handing.{HandsNothing};
ghost use Rattle.broom.specs.Loading.{AllLoaded, counts_in};
ghost use Rattle.broom.specs.Ready.{blocks_of_broom};
ghost use Rattle.geometry.specs.declared.words.PinWord.{PinWord};
ghost use Rattle.volume.specs.Volume.{flash_of};
ghost use Rattle.exports.specs.Codes.{as_number, drain_code, drain_by, erase_by, restock_code, stocked_by};
ghost use Rattle.exports.specs.Blocks.{BlockReported, block_code, counts_code, counts_report};
ghost use Rattle.exports.specs.Tallies.{tally_of};
ghost use Rattle.exports.specs.Handles.{seat_of};
ghost use Rattle.handles.specs.Calls.{CallsWith, ReturnsAtBoth};
ghost use Rattle.exports.specs.declared.reports.Drained.{Drained};
ghost use Rattle.exports.specs.Shared.{numbers_of, sweeper_volume, sweeper_code, BroomCalled, erased_code, numbers_code, numbers_report, Drains, by_sweeper};
ghost use Rattle.broom.specs.declared.turns.Choice.TheVariants as choice;

pub(crate) mod block_calls;
pub(crate) mod holder_calls;
pub(crate) mod host_calls;
pub(crate) mod opening;
pub(crate) mod phases;
pub(crate) mod sweeper_calls;

use crate::codes::{CLOSED, DONE, NO_SUCH_BLOCK, WRONG_KIND};
use crate::handle::Handle;
use crate::handle::seat::Seat;
use crate::one::layer;
use crate::reports::{CountsReport, Drained, NumbersReport, StateReport, TallyReport};
use std::alloc::Global;

/// Gives a seat up, and the device with its last one. A closed handle stays closed.
#[unsafe(no_mangle)]
pub extern "C" fn mintlintel_seat_close(alloc: Global, handle: &mut Handle)
    ensures { seat_of handle.new ≡ None }
{
    let _seat = handle.typed().take(alloc);
}

/// The numbers that the device was made with.
#[unsafe(no_mangle)]
pub extern "C" fn mintlintel_seat_numbers(
    alloc: Global,
    handle: &mut Handle,
    out: &mut NumbersReport,
) -> u32
    ensures code { result ≡ numbers_code (seat_of handle.old) }
    ensures report { out.new ≡ numbers_report out.old (seat_of handle.old) }
    ensures same { seat_of handle.new ≡ seat_of handle.old }
{
    handle.typed().on_with(alloc, out, |seat, out| match seat {
        Seat::Host(host) => layer::numbers(host.volume.geometry(), out),
        Seat::Holder(holder) => layer::numbers(holder.volume.geometry(), out),
        Seat::Sweeper(sweeper) => layer::numbers(sweeper.volume.geometry(), out),
        _ => WRONG_KIND,
    })
}

/// Moves the live pages out of the closed block with the fewest. With 0 its number and how many pages moved are written.
#[unsafe(no_mangle)]
pub extern "C" fn mintlintel_broom_drain(
    alloc: Global,
    handle: &mut Handle,
    block: &mut u32,
    moved: &mut u32,
) -> u32
    ensures code { result ≡ sweeper_code (seat_of handle.old)
        (λ _. drain_code (drain_by result block.new moved.new)) }
    ensures drained { BroomCalled (seat_of handle.old) (seat_of handle.new)
        (λ v b c. Drains choice.Survey v b (drain_by result block.new moved.new) c) }
    ensures block { result ≢ DONE → block.new ≡ block.old }
    ensures moved { result ≢ DONE → moved.new ≡ moved.old }
{
    drained(alloc, handle, block, moved, |seat, out| match seat {
        Seat::Sweeper(sweeper) => sweeper.drain(out),
        _ => WRONG_KIND,
    })
}

/// Drains the next block by the survey that the broom made last. With 0 its number and how many pages moved are written.
#[unsafe(no_mangle)]
pub extern "C" fn mintlintel_broom_drain_next(
    alloc: Global,
    handle: &mut Handle,
    block: &mut u32,
    moved: &mut u32,
) -> u32
    ensures code { result ≡ sweeper_code (seat_of handle.old)
        (λ _. drain_code (drain_by result block.new moved.new)) }
    ensures drained { BroomCalled (seat_of handle.old) (seat_of handle.new)
        (λ v b c. Drains choice.Next v b (drain_by result block.new moved.new) c) }
    ensures block { result ≢ DONE → block.new ≡ block.old }
    ensures moved { result ≢ DONE → moved.new ≡ moved.old }
{
    drained(alloc, handle, block, moved, |seat, out| match seat {
        Seat::Sweeper(sweeper) => sweeper.drain_next(out),
        _ => WRONG_KIND,
    })
}

/// Erases a drained block that nobody reads.
#[unsafe(no_mangle)]
pub extern "C" fn mintlintel_broom_erase(alloc: Global, handle: &mut Handle, block: u32) -> u32
    ensures code { result ≡ sweeper_code (seat_of handle.old) (erased_code block result) }
    ensures erased { BroomCalled (seat_of handle.old) (seat_of handle.new)
        (λ v b c. result ≢ NO_SUCH_BLOCK → EraseTold b block (erase_by result block) c) }
    ensures marks { BroomCalled (seat_of handle.old) (seat_of handle.new)
        (λ v b c. result ≢ NO_SUCH_BLOCK → Unmarks b block c) }
    ensures queue { BroomCalled (seat_of handle.old) (seat_of handle.new)
        (λ v b c. result ≢ NO_SUCH_BLOCK → HandsNothing b c) }
    ensures same { BroomCalled (seat_of handle.old) (seat_of handle.new)
        (λ v b c. result ≡ NO_SUCH_BLOCK → c ≡ b) }
{
    handle.typed().on(alloc, |seat| match seat {
        Seat::Sweeper(sweeper) => sweeper.erase(block),
        _ => WRONG_KIND,
    })
}

/// Surveys the device, and drains the closed block with the fewest live pages if it has none: no page moves, so no spare is needed. With 0 its
/// number is written, and 0 for the pages that moved.
#[unsafe(no_mangle)]
pub extern "C" fn mintlintel_broom_drain_dead(
    alloc: Global,
    handle: &mut Handle,
    block: &mut u32,
    moved: &mut u32,
) -> u32
    ensures code { result ≡ sweeper_code (seat_of handle.old)
        (λ _. drain_code (drain_by result block.new moved.new)) }
    ensures drained { BroomCalled (seat_of handle.old) (seat_of handle.new)
        (λ v b c. Drains choice.Dead v b (drain_by result block.new moved.new) c) }
    ensures block { result ≢ DONE → block.new ≡ block.old }
    ensures moved { result ≢ DONE → moved.new ≡ moved.old }
{
    drained(alloc, handle, block, moved, |seat, out| match seat {
        Seat::Sweeper(sweeper) => sweeper.drain_dead(out),
        _ => WRONG_KIND,
    })
}

/// Makes a free block the spare of a broom that has none.
#[unsafe(no_mangle)]
pub extern "C" fn mintlintel_broom_restock(alloc: Global, handle: &mut Handle) -> u32
    ensures code { result ≡ sweeper_code (seat_of handle.old)
        (λ _. restock_code (stocked_by result)) }
    ensures restocked { BroomCalled (seat_of handle.old) (seat_of handle.new)
        (λ v b c. RestockTold b (stocked_by result) c) }
    ensures queue { BroomCalled (seat_of handle.old) (seat_of handle.new)
        (λ v b c. HandsNothing b c) }
    ensures survey { BroomCalled (seat_of handle.old) (seat_of handle.new)
        (λ v b c. KeepsSurvey b c) }
{
    handle.typed().on(alloc, |seat| match seat {
        Seat::Sweeper(sweeper) => sweeper.restock(),
        _ => WRONG_KIND,
    })
}

// A call that drains. If a block was drained, its number and how many pages moved are written.
fn drained<F: FnOnce(&mut Seat, &mut Drained) -> u32>(
    alloc: Global,
    handle: &mut Handle,
    block: &mut u32,
    moved: &mut u32,
    call: F,
) -> u32
    requires { F.IsAlwaysCallable call }
    ensures { CallsWith {O = Drained} (seat_of handle.old)
        (record { block = block.old; moved = moved.old }) result (seat_of handle.new)
        (record { block = block.new; moved = moved.new }) (λ x o code y p. ReturnsAtBoth F.FnOnce call x o code y p) }
{
    let mut drained = Drained {
        block: *block,
        moved: *moved,
    };
    let code = handle.typed().on_with(alloc, &mut drained, call);
    *block = drained.block;
    *moved = drained.moved;
    code
}

/// The state of a block, by one load. The broom keeps its last survey.
#[unsafe(no_mangle)]
pub extern "C" fn mintlintel_broom_block(
    alloc: Global,
    handle: &mut Handle,
    block: u32,
    out: &mut StateReport,
) -> u32
    ensures code { result ≡ sweeper_code (seat_of handle.old)
        (λ s. block_code (numbers_of (sweeper_volume s)) block) }
    ensures reported { BroomCalled (seat_of handle.old) (seat_of handle.new)
        (λ v b c. result ≡ DONE → BlockReported b block out.new c) }
    ensures queue { BroomCalled (seat_of handle.old) (seat_of handle.new)
        (λ v b c. result ≡ DONE → HandsNothing b c) }
    ensures same { BroomCalled (seat_of handle.old) (seat_of handle.new)
        (λ v b c. result ≢ DONE → c ≡ b) }
    ensures unchanged { result ≢ DONE → out.new ≡ out.old }
{
    handle.typed().on_with(alloc, out, |seat, out| match seat {
        Seat::Sweeper(sweeper) => sweeper.block(block, out),
        _ => WRONG_KIND,
    })
}

/// How many blocks are in each phase, by one load of each block. The broom keeps its last survey.
#[unsafe(no_mangle)]
pub extern "C" fn mintlintel_broom_counts(
    alloc: Global,
    handle: &mut Handle,
    out: &mut CountsReport,
) -> u32
    ensures code { result ≡ sweeper_code (seat_of handle.old)
        (λ s. counts_code (numbers_of (sweeper_volume s)) out.new) }
    ensures counted { BroomCalled (seat_of handle.old) (seat_of handle.new)
        (λ v b c. (states : List PinWord) × AllLoaded (device (flash_of v)) b states c
        × (out.new
        ≡ counts_report (counts_in states) (as_number (is_some (blocks_of_broom b).spare)))) }
    ensures queue { BroomCalled (seat_of handle.old) (seat_of handle.new)
        (λ v b c. HandsNothing b c) }
    ensures unchanged { (result ≡ CLOSED → out.new ≡ out.old)
        × (result ≡ WRONG_KIND → out.new ≡ out.old) }
{
    handle.typed().on_with(alloc, out, |seat, out| match seat {
        Seat::Sweeper(sweeper) => sweeper.counts(out),
        _ => WRONG_KIND,
    })
}

/// What the broom has done since its open: the pages that it programmed, the copies that became their sectors' pages, and its erases.
#[unsafe(no_mangle)]
pub extern "C" fn mintlintel_broom_tally(
    alloc: Global,
    handle: &mut Handle,
    out: &mut TallyReport,
) -> u32
    ensures code { result ≡ sweeper_code (seat_of handle.old) (λ _. DONE) }
    ensures tally { out.new ≡ by_sweeper (seat_of handle.old) out.old out.old
        (λ s. tally_of s.broom) }
    ensures same { seat_of handle.new ≡ seat_of handle.old }
{
    handle.typed().on_with(alloc, out, |seat, out| match seat {
        Seat::Sweeper(sweeper) => sweeper.tally(out),
        _ => WRONG_KIND,
    })
}
