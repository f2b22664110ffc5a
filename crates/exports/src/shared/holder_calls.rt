//! The calls of C on holds: a host holds a page, and a holder reads it and gives it up.
ghost use Rattle.std.specs.Prelude.{◌≡◌, length, Some};
ghost use Rattle.flash_table.specs.Flash.{view_of};
ghost use Rattle.host.specs.Holding.{pass_of, page_of};
ghost use Rattle.volume.specs.Undisturbed.{IsUndisturbed};
ghost use Rattle.volume.specs.Volume.{flash_of};
ghost use Rattle.exports.specs.Holding.{copy_code, copied, word_code, word_read, page_report, by_holder, holder_code, hold_code, HoldCalled, HolderCalled};
ghost use Rattle.exports.specs.Holding.{ReleaseCalled};
ghost use Rattle.exports.specs.Shared.{holder_volume, host_code, seen_of};
ghost use Rattle.exports.specs.Handles.{seat_of};

use crate::codes::{DONE, NO_SUCH_BLOCK, NOT_A_PAGE, WRITTEN, WRONG_KIND};
use crate::handle::Handle;
use crate::handle::seat::{Holder, Seat};
use crate::reports::PageReport;
use std::alloc::Global;
use std::mem;

impl Holder {
    // The page that is held, into a buffer.
    pub(crate) fn copy(&mut self, out: &mut [u8]) -> u32
        ensures device { self.new.volume ≡ self.old.volume }
        ensures code { result ≡ copy_code (length out.old) self.old }
        ensures buffer { out.new ≡ copied out.old self.old }
        ensures page { page_of self.new.held ≡ page_of self.old.held }
        ensures view { view_of (pass_of self.new.held) ≡ view_of (pass_of self.old.held) }
        ensures undisturbed { result ≡ WRITTEN
            → IsUndisturbed (flash_of (holder_volume self.old)) self.old.held
            (view_of (pass_of self.old.held)).copy self.new.held }
    {
        if out.len() != self.volume.geometry().page_bytes() {
            return NOT_A_PAGE;
        }
        self.volume.copy_into(&mut self.held, out);
        WRITTEN
    }

    // Word `i` of the page that is held.
    pub(crate) fn word(&mut self, i: u32, out: &mut u64) -> u32
        ensures device { self.new.volume ≡ self.old.volume }
        ensures code { result ≡ word_code i self.old }
        ensures word { out.new ≡ word_read i out.old self.old }
        ensures page { page_of self.new.held ≡ page_of self.old.held }
        ensures view { view_of (pass_of self.new.held) ≡ view_of (pass_of self.old.held) }
        ensures undisturbed { result ≡ DONE
            → IsUndisturbed (flash_of (holder_volume self.old)) self.old.held
            (view_of (pass_of self.old.held)).copy self.new.held }
    {
        if i >= self.volume.geometry().words() {
            return NO_SUCH_BLOCK;
        }
        *out = self.volume.word(&mut self.held, i);
        DONE
    }

    // The address of the page that is held.
    pub(crate) fn page(&self, out: &mut PageReport) -> u32
        ensures code { result ≡ DONE }
        ensures page { out.new ≡ page_report self.now }
    {
        *out = PageReport {
            block: self.held.block(),
            generation: self.held.generation(),
        };
        DONE
    }
}

/// Holds the page that has a sector's value, so that its block is not erased up to the release.
#[unsafe(no_mangle)]
pub extern "C" fn mintlintel_host_hold(alloc: Global, handle: &mut Handle, sector: u32) -> u32
    ensures code { result
        ≡ host_code (seat_of handle.old) (hold_code sector (seen_of (seat_of handle.new))) }
    ensures held { HoldCalled sector result (seat_of handle.old) (seat_of handle.new) }
{
    handle.typed().on(alloc, |seat| hold(seat, sector))
}

/// Copies the page that is held into a buffer of one page.
#[unsafe(no_mangle)]
pub extern "C" fn mintlintel_host_copy(alloc: Global, handle: &mut Handle, out: &mut [u8]) -> u32
    ensures code { result ≡ holder_code (seat_of handle.old) (copy_code (length out.old)) }
    ensures buffer { out.new ≡ by_holder (seat_of handle.old) out.old out.old (copied out.old) }
    ensures page { HolderCalled (seat_of handle.old) (seat_of handle.new)
        (λ v k j. page_of j ≡ page_of k) }
    ensures view { HolderCalled (seat_of handle.old) (seat_of handle.new)
        (λ v k j. view_of (pass_of j) ≡ view_of (pass_of k)) }
    ensures undisturbed { HolderCalled (seat_of handle.old) (seat_of handle.new)
        (λ v k j. result ≡ WRITTEN → IsUndisturbed (flash_of v) k (view_of (pass_of k)).copy j) }
{
    handle.typed().on_page(alloc, out, |seat, out| match seat {
        Seat::Holder(holder) => holder.copy(out),
        _ => WRONG_KIND,
    })
}

/// Word `i` of the page that is held.
#[unsafe(no_mangle)]
pub extern "C" fn mintlintel_host_word(
    alloc: Global,
    handle: &mut Handle,
    i: u32,
    out: &mut u64,
) -> u32
    ensures code { result ≡ holder_code (seat_of handle.old) (word_code i) }
    ensures word { out.new ≡ by_holder (seat_of handle.old) out.old out.old (word_read i out.old) }
    ensures page { HolderCalled (seat_of handle.old) (seat_of handle.new)
        (λ v k j. page_of j ≡ page_of k) }
    ensures view { HolderCalled (seat_of handle.old) (seat_of handle.new)
        (λ v k j. view_of (pass_of j) ≡ view_of (pass_of k)) }
    ensures undisturbed { HolderCalled (seat_of handle.old) (seat_of handle.new)
        (λ v k j. result ≡ DONE → IsUndisturbed (flash_of v) k (view_of (pass_of k)).copy j) }
{
    handle.typed().on_with(alloc, out, |seat, out| match seat {
        Seat::Holder(holder) => holder.word(i, out),
        _ => WRONG_KIND,
    })
}

/// The address of the page that is held.
#[unsafe(no_mangle)]
pub extern "C" fn mintlintel_host_held(
    alloc: Global,
    handle: &mut Handle,
    out: &mut PageReport,
) -> u32
    ensures code { result ≡ holder_code (seat_of handle.old) (λ _. DONE) }
    ensures page { out.new ≡ by_holder (seat_of handle.old) out.old out.old page_report }
    ensures same { seat_of handle.new ≡ seat_of handle.old }
{
    handle.typed().on_with(alloc, out, |seat, out| match seat {
        Seat::Holder(holder) => holder.page(out),
        _ => WRONG_KIND,
    })
}

/// Gives the page that is held up: the handle is a host as before.
#[unsafe(no_mangle)]
pub extern "C" fn mintlintel_host_release(alloc: Global, handle: &mut Handle) -> u32
    ensures code { result ≡ holder_code (seat_of handle.old) (λ _. DONE) }
    ensures released { ReleaseCalled (seat_of handle.old) (seat_of handle.new) }
{
    handle.typed().on(alloc, |seat| release(seat))
}

// A host holds the page of a sector, and becomes a holder. It is `Away` meanwhile.
fn hold(seat: &mut Seat, sector: u32) -> u32
    ensures code { result ≡ host_code (Some seat.old) (hold_code sector (seen_of (Some seat.new))) }
    ensures held { HoldCalled sector result (Some seat.old) (Some seat.new) }
{
    match mem::replace(seat, Seat::Away) {
        Seat::Host(host) => {
            let (after, code) = host.hold(sector);
            *seat = after;
            code
        }
        other => {
            *seat = other;
            WRONG_KIND
        }
    }
}

// A holder gives its page up, and becomes a host.
fn release(seat: &mut Seat) -> u32
    ensures code { result ≡ holder_code (Some seat.old) (λ _. DONE) }
    ensures released { ReleaseCalled (Some seat.old) (Some seat.new) }
{
    match mem::replace(seat, Seat::Away) {
        Seat::Holder(holder) => {
            *seat = holder.release();
            DONE
        }
        other => {
            *seat = other;
            WRONG_KIND
        }
    }
}
