//! The calls of C on a host: reads, looks, writes and trims.
ghost use Rattle.std.specs.Prelude.{◌≡◌, ◌<◌, ◌≤◌, ℕ, length};
ghost use Rattle.flash_table.specs.Flash.{view_of, opened_of};
ghost use Rattle.host.specs.Told.{Searched};
ghost use Rattle.volume.specs.Correct.{Read, Look, Write, WriteNew, Trim, Found, IsWritten, Replaced};
ghost use Rattle.exports.specs.Codes.{got_by, written_by, was_by};
ghost use Rattle.exports.specs.Shared.{host_volume, read_code, read_buffer, look_code, write_code, trim_code, HasTrimmed, HasWritten, HasWrittenNew, IsStep};
ghost use Rattle.exports.specs.Shared.{WriteEnds, by_host, host_code, HostCalled, seen_of};
ghost use Rattle.exports.specs.Handles.{seat_of};

use crate::codes::{DONE, NO_BLOCK, NO_SECTOR, NOT_A_PAGE, WRITTEN, WRONG_KIND, code_of};
use crate::handle::Handle;
use crate::handle::seat::{Host, Seat};
use std::alloc::Global;
use volume::{Got, NewFault};

impl Host {
    // Reads a sector into a buffer.
    #[tactic(auto, unfolding(crate::specs::Shared::IsStep))]
    pub(crate) fn read(&mut self, sector: u32, out: &mut [u8]) -> u32
        ensures device { self.new.volume ≡ self.old.volume }
        ensures code { result
            ≡ read_code sector (length out.old) (view_of self.new.pass).seen self.old }
        ensures buffer { out.new
            ≡ read_buffer sector out.old (view_of self.new.pass).seen self.old }
        ensures correct { result ≤ WRITTEN
            → IsStep (host_volume self.old) self.old.pass (Read sector)
            (Found (got_by result) out.old out.new) self.new.pass }
        ensures searched { result ≤ WRITTEN → (tries : ℕ)
            × Searched (view_of self.old.pass) tries (view_of self.new.pass) }
        ensures same { WRITTEN < result → self.new.pass ≡ self.old.pass }
    {
        let geometry = self.volume.geometry();
        if sector >= geometry.sectors() {
            return NO_SECTOR;
        }
        if out.len() != geometry.page_bytes() {
            return NOT_A_PAGE;
        }
        match self.volume.read(&mut self.pass, sector, out).got {
            Got::Empty => DONE,
            Got::Data => WRITTEN,
        }
    }

    // Whether a sector is written, by one look.
    #[tactic(auto, unfolding(crate::specs::Shared::IsStep))]
    pub(crate) fn look(&mut self, sector: u32) -> u32
        ensures device { self.new.volume ≡ self.old.volume }
        ensures code { result ≡ look_code sector (view_of self.new.pass).seen self.old }
        ensures correct { result ≤ WRITTEN
            → IsStep (host_volume self.old) self.old.pass (Look sector)
            (IsWritten (written_by result)) self.new.pass }
        ensures searched { result ≤ WRITTEN
            → Searched (view_of self.old.pass) 1 (view_of self.new.pass) }
        ensures opened { opened_of self.new.pass ≡ opened_of self.old.pass }
        ensures same { WRITTEN < result → self.new.pass ≡ self.old.pass }
    {
        if sector >= self.volume.geometry().sectors() {
            return NO_SECTOR;
        }
        if self.volume.look(&mut self.pass, sector) {
            WRITTEN
        } else {
            DONE
        }
    }

    // Writes bytes to a sector, and returns what it was.
    #[tactic(auto, unfolding(crate::specs::Shared::IsStep, crate::specs::Shared::HasWritten))]
    pub(crate) fn write(&mut self, sector: u32, bytes: &[u8]) -> u32
        ensures device { self.new.volume ≡ self.old.volume }
        ensures code { result ≡ write_code sector (length bytes.now) result self.old }
        ensures wrote { WriteEnds (host_volume self.old) self.old.pass (Write sector bytes.now)
            (HasWritten self.old.pass sector bytes.now) result self.new.pass }
    {
        let geometry = self.volume.geometry();
        if sector >= geometry.sectors() {
            return NO_SECTOR;
        }
        if bytes.len() != geometry.page_bytes() {
            return NOT_A_PAGE;
        }
        match self.volume.write(&mut self.pass, sector, bytes) {
            Ok(was) => code_of(was),
            Err(_) => NO_BLOCK,
        }
    }

    // Writes bytes to a sector if it is empty.
    #[tactic(auto, unfolding(crate::specs::Shared::IsStep, crate::specs::Shared::HasWrittenNew))]
    pub(crate) fn write_new(&mut self, sector: u32, bytes: &[u8]) -> u32
        ensures device { self.new.volume ≡ self.old.volume }
        ensures code { result ≡ write_code sector (length bytes.now) result self.old }
        ensures wrote { WriteEnds (host_volume self.old) self.old.pass (WriteNew sector bytes.now)
            (HasWrittenNew self.old.pass sector bytes.now) result self.new.pass }
    {
        let geometry = self.volume.geometry();
        if sector >= geometry.sectors() {
            return NO_SECTOR;
        }
        if bytes.len() != geometry.page_bytes() {
            return NOT_A_PAGE;
        }
        match self.volume.write_new(&mut self.pass, sector, bytes) {
            Ok(()) => DONE,
            Err(NewFault::Written) => WRITTEN,
            Err(NewFault::NoBlock) => NO_BLOCK,
        }
    }

    // Empties a sector, and returns what it was.
    #[tactic(auto, unfolding(crate::specs::Shared::IsStep, crate::specs::Shared::HasTrimmed))]
    pub(crate) fn trim(&mut self, sector: u32) -> u32
        ensures device { self.new.volume ≡ self.old.volume }
        ensures code { result ≡ trim_code sector result self.old }
        ensures correct { result ≤ WRITTEN
            → IsStep (host_volume self.old) self.old.pass
            (Trim sector) (Replaced (was_by result)) self.new.pass }
        ensures called { result ≤ WRITTEN
            → HasTrimmed self.old.pass sector (was_by result) self.new.pass }
        ensures same { WRITTEN < result → self.new.pass ≡ self.old.pass }
    {
        if sector >= self.volume.geometry().sectors() {
            return NO_SECTOR;
        }
        code_of(self.volume.trim(&mut self.pass, sector))
    }
}

/// Reads a sector into a buffer of one page. An empty sector leaves the buffer as it was.
#[unsafe(no_mangle)]
pub extern "C" fn mintlintel_host_read(
    alloc: Global,
    handle: &mut Handle,
    sector: u32,
    out: &mut [u8],
) -> u32
    ensures code { result
        ≡ host_code (seat_of handle.old)
        (read_code sector (length out.old) (seen_of (seat_of handle.new))) }
    ensures buffer { out.new
        ≡ by_host (seat_of handle.old) out.old out.old
        (read_buffer sector out.old (seen_of (seat_of handle.new))) }
    ensures correct { HostCalled (seat_of handle.old) (seat_of handle.new)
        (λ v p q. result ≤ WRITTEN
        → IsStep v p (Read sector) (Found (got_by result) out.old out.new) q) }
    ensures searched { HostCalled (seat_of handle.old) (seat_of handle.new)
        (λ v p q. result ≤ WRITTEN → (tries : ℕ) × Searched (view_of p) tries (view_of q)) }
    ensures same { HostCalled (seat_of handle.old) (seat_of handle.new)
        (λ v p q. WRITTEN < result → q ≡ p) }
{
    handle.typed().on_page(alloc, out, |seat, out| match seat {
        Seat::Host(host) => host.read(sector, out),
        _ => WRONG_KIND,
    })
}

/// Whether a sector is written, by one look at its map word. No page is read.
#[unsafe(no_mangle)]
pub extern "C" fn mintlintel_host_look(alloc: Global, handle: &mut Handle, sector: u32) -> u32
    ensures code { result
        ≡ host_code (seat_of handle.old) (look_code sector (seen_of (seat_of handle.new))) }
    ensures correct { HostCalled (seat_of handle.old) (seat_of handle.new)
        (λ v p q. result ≤ WRITTEN → IsStep v p (Look sector) (IsWritten (written_by result)) q) }
    ensures searched { HostCalled (seat_of handle.old) (seat_of handle.new)
        (λ v p q. result ≤ WRITTEN → Searched (view_of p) 1 (view_of q)) }
    ensures opened { HostCalled (seat_of handle.old) (seat_of handle.new)
        (λ v p q. opened_of q ≡ opened_of p) }
    ensures same { HostCalled (seat_of handle.old) (seat_of handle.new)
        (λ v p q. WRITTEN < result → q ≡ p) }
{
    handle.typed().on(alloc, |seat| match seat {
        Seat::Host(host) => host.look(sector),
        _ => WRONG_KIND,
    })
}

/// Writes a page of bytes to a sector, and returns what the sector was.
#[unsafe(no_mangle)]
pub extern "C" fn mintlintel_host_write(
    alloc: Global,
    handle: &mut Handle,
    sector: u32,
    bytes: &[u8],
) -> u32
    ensures code { result
        ≡ host_code (seat_of handle.old) (write_code sector (length bytes.now) result) }
    ensures wrote { HostCalled (seat_of handle.old) (seat_of handle.new)
        (λ v p q. WriteEnds v p (Write sector bytes.now) (HasWritten p sector bytes.now) result q) }
{
    handle.typed().on(alloc, |seat| match seat {
        Seat::Host(host) => host.write(sector, bytes),
        _ => WRONG_KIND,
    })
}

/// Writes a page of bytes to a sector that is empty.
#[unsafe(no_mangle)]
pub extern "C" fn mintlintel_host_write_new(
    alloc: Global,
    handle: &mut Handle,
    sector: u32,
    bytes: &[u8],
) -> u32
    ensures code { result
        ≡ host_code (seat_of handle.old) (write_code sector (length bytes.now) result) }
    ensures wrote { HostCalled (seat_of handle.old) (seat_of handle.new)
        (λ v p q. WriteEnds v p (WriteNew sector bytes.now) (HasWrittenNew p sector bytes.now) result q) }
{
    handle.typed().on(alloc, |seat| match seat {
        Seat::Host(host) => host.write_new(sector, bytes),
        _ => WRONG_KIND,
    })
}

/// Empties a sector, and returns what it was.
#[unsafe(no_mangle)]
pub extern "C" fn mintlintel_host_trim(alloc: Global, handle: &mut Handle, sector: u32) -> u32
    ensures code { result ≡ host_code (seat_of handle.old) (trim_code sector result) }
    ensures correct { HostCalled (seat_of handle.old) (seat_of handle.new)
        (λ v p q. result ≤ WRITTEN → IsStep v p (Trim sector) (Replaced (was_by result)) q) }
    ensures called { HostCalled (seat_of handle.old) (seat_of handle.new)
        (λ v p q. result ≤ WRITTEN → HasTrimmed p sector (was_by result) q) }
    ensures same { HostCalled (seat_of handle.old) (seat_of handle.new)
        (λ v p q. WRITTEN < result → q ≡ p) }
{
    handle.typed().on(alloc, |seat| match seat {
        Seat::Host(host) => host.trim(sector),
        _ => WRONG_KIND,
    })
}
