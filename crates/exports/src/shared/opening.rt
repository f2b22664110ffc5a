//! The opening of a shared device: a seat for each handle, or none at all.
ghost use Rattle.std.specs.Prelude.{◌≡◌, ◌≢◌, ◌<◌, ◌==◌, ℕ, All, true, false, nat_eq, not, length, if◌then◌else◌};
ghost use Rattle.std.specs.Arc.{arc_value};
ghost use Rattle.geometry.specs.Geometry.{hosts_of, brooms_of, numbers_of};
ghost use Rattle.geometry.specs.Limits.{numbers};
ghost use Rattle.host.specs.Ready.{IsReady};
ghost use Rattle.volume.specs.Volume.{IsBroomReady, flash_of};
ghost use Rattle.exports.specs.Codes.{fault_code};
ghost use Rattle.exports.specs.Handles.{seat_of};
ghost use Rattle.exports.specs.Opening.{HasNoSeat, EachAt, IsFirstPass, IsFirstBroom, IsPassIn, IsBroomIn, IsFreshHost};
ghost use Rattle.exports.specs.Tallies.{empty_tally, tally_of};
ghost use Rattle.exports.specs.Opening.{IsFreshBroom, AreFresh, capped, shared_open_code, shared_fault_code};

use crate::codes::{ALREADY_OPEN, BAD_SEATS, DONE, NO_MEMORY, code_of_fault};
use crate::handle::Handle;
use crate::handle::seat::{Host, Seat, Sweeper};
use crate::reports::TallyReport;
use geometry::{MAX_BROOMS, MAX_HOSTS};
use std::alloc::Global;
use std::sync::Arc;
use volume::{Broom, Geometry, GeometryFault, Pass, Volume};

// More hosts or brooms than a device may have: a longer array counts as so many.
const TOO_MANY_HOSTS: u32 = MAX_HOSTS + 1;

const TOO_MANY_BROOMS: u32 = MAX_BROOMS + 1;

// Closes these handles.
fn close_all(alloc: Global, handles: &mut [Handle])
    ensures closed { All HasNoSeat handles.new }
    ensures count { length handles.new ≡ length handles.old }
{
    for handle in handles.iter_mut() {
        handle.typed().take(alloc);
    }
}

// Gives these passes up.
fn retire_passes(volume: &Volume, passes: Vec<Pass>)
    requires { All (IsReady (flash_of volume.now)) passes.items }
{
    let mut passes = passes;
    while let Some(pass) = passes.pop() {
        volume.retire(pass);
    }
    passes.destroy_empty();
}

// Gives these brooms up.
fn retire_brooms(volume: &Volume, brooms: Vec<Broom>)
    requires { All (IsBroomReady volume.now) brooms.items }
{
    let mut brooms = brooms;
    while let Some(broom) = brooms.pop() {
        volume.retire_broom(broom);
    }
    brooms.destroy_empty();
}

// Puts a pass into a closed handle. If memory runs out, it is retired, and the handle stays closed.
fn seat_host(alloc: Global, volume: &Arc<Volume, Global>, pass: Pass, handle: &mut Handle) -> bool
    requires pass { IsReady (flash_of (arc_value volume.now)) pass }
    requires closed { HasNoSeat handle.old }
    ensures seated { result ≡ true → IsPassIn (arc_value volume.now) pass (seat_of handle.new) }
    ensures closed { result ≡ false → HasNoSeat handle.new }
{
    let Ok(volume) = volume.clone() else {
        volume.retire(pass);
        return false;
    };
    handle
        .typed()
        .fill(alloc, Seat::Host(Host { volume, pass }))
}

// Puts a broom that has done nothing yet into a closed handle. If memory runs out, it is retired, and the handle stays closed.
fn seat_broom(
    alloc: Global,
    volume: &Arc<Volume, Global>,
    broom: Broom,
    handle: &mut Handle,
) -> bool
    requires broom { IsBroomReady (arc_value volume.now) broom }
    requires unused { tally_of broom ≡ empty_tally }
    requires closed { HasNoSeat handle.old }
    ensures seated { result ≡ true → IsBroomIn (arc_value volume.now) broom (seat_of handle.new) }
    ensures closed { result ≡ false → HasNoSeat handle.new }
{
    let Ok(volume) = volume.clone() else {
        volume.retire_broom(broom);
        return false;
    };
    let sweeper = Sweeper {
        volume,
        broom,
        done: TallyReport::new(),
    };
    handle.typed().fill(alloc, Seat::Sweeper(sweeper))
}

// Puts a pass into each of these handles, pass t into handle t. If memory runs out, all stay closed, and the passes are retired.
fn seat_hosts(
    alloc: Global,
    volume: &Arc<Volume, Global>,
    passes: Vec<Pass>,
    handles: &mut [Handle],
) -> bool
    requires passes { All (IsReady (flash_of (arc_value volume.now))) passes.items }
    requires first { EachAt (IsFirstPass (arc_value volume.now)) passes.items }
    requires count { length passes.items ≡ length handles.old }
    requires closed { All HasNoSeat handles.old }
    ensures seated { result ≡ true → EachAt (IsFreshHost (arc_value volume.now)) handles.new }
    ensures closed { result ≡ false → All HasNoSeat handles.new }
    ensures count { length handles.new ≡ length handles.old }
{
    let mut passes = passes;
    while let Some(pass) = passes.pop() {
        let at = passes.len();
        if !seat_host(alloc, volume, pass, &mut handles[at]) {
            retire_passes(volume, passes);
            close_all(alloc, handles);
            return false;
        }
    }
    passes.destroy_empty();
    true
}

// Puts a broom into each of these handles, broom i into handle i. If memory runs out, all stay closed, and the brooms are retired.
fn seat_brooms(
    alloc: Global,
    volume: &Arc<Volume, Global>,
    brooms: Vec<Broom>,
    handles: &mut [Handle],
) -> bool
    requires brooms { All (IsBroomReady (arc_value volume.now)) brooms.items }
    requires first { EachAt (IsFirstBroom (arc_value volume.now)) brooms.items }
    requires count { length brooms.items ≡ length handles.old }
    requires closed { All HasNoSeat handles.old }
    ensures seated { result ≡ true → EachAt (IsFreshBroom (arc_value volume.now)) handles.new }
    ensures closed { result ≡ false → All HasNoSeat handles.new }
    ensures count { length handles.new ≡ length handles.old }
{
    let mut brooms = brooms;
    while let Some(broom) = brooms.pop() {
        let at = brooms.len();
        if !seat_broom(alloc, volume, broom, &mut handles[at]) {
            retire_brooms(volume, brooms);
            close_all(alloc, handles);
            return false;
        }
    }
    brooms.destroy_empty();
    true
}

// A new device's seats into these handles. Without memory all stay closed.
fn deal(alloc: Global, geometry: &Geometry, hosts: &mut [Handle], brooms: &mut [Handle]) -> bool
    requires some { 0 < hosts_of geometry.now }
    requires hosts { hosts_of geometry.now ≡ length hosts.old }
    requires brooms { brooms_of geometry.now ≡ length brooms.old }
    requires closed_hosts { All HasNoSeat hosts.old }
    requires closed_brooms { All HasNoSeat brooms.old }
    ensures fresh { result ≡ true → AreFresh (numbers_of geometry.now) hosts.new brooms.new }
    ensures closed_hosts { result ≡ false → All HasNoSeat hosts.new }
    ensures closed_brooms { result ≡ false → All HasNoSeat brooms.new }
{
    let Ok((volume, passes, sweepers)) = Volume::open(alloc, geometry) else {
        return false;
    };
    let volume = match Arc::new(alloc, volume) {
        Ok(volume) => volume,
        Err(failed) => {
            retire_brooms(&failed.value, sweepers);
            retire_passes(&failed.value, passes);
            return false;
        }
    };
    if !seat_hosts(alloc, &volume, passes, hosts) {
        retire_brooms(&volume, sweepers);
        return false;
    }
    if !seat_brooms(alloc, &volume, sweepers, brooms) {
        close_all(alloc, hosts);
        return false;
    }
    true
}

// Whether all of these handles are closed.
fn are_closed(handles: &[Handle]) -> bool
    ensures closed { result ≡ true → All HasNoSeat handles.now }
    ensures open { result ≡ false → ¬ All HasNoSeat handles.now }
{
    for handle in handles.iter() {
        if handle.is_open() {
            return false;
        }
    }
    true
}

// The code of a fault of a shared device's numbers.
fn code_of_shared_fault(hosts: u32, fault: GeometryFault) -> u32
    ensures code { result ≡ shared_fault_code hosts fault }
    ensures over { ALREADY_OPEN < result }
{
    let code = code_of_fault(fault);
    if hosts == 0 && code > BAD_SEATS {
        BAD_SEATS
    } else {
        code
    }
}

/// Opens a device of these numbers, with a seat for each handle, and every sector empty.
#[unsafe(no_mangle)]
#[allow(clippy::too_many_arguments)]
pub extern "C" fn mintlintel_shared_open(
    alloc: Global,
    hosts: &mut [Handle],
    brooms: &mut [Handle],
    luns: u32,
    blocks: u32,
    pages: u32,
    words: u32,
    sectors: u32,
    endurance: u32,
) -> u32
    ensures code { result ≡ shared_open_code (not (nat_eq result ALREADY_OPEN))
        (numbers luns blocks pages words sectors endurance
        (capped TOO_MANY_HOSTS (length hosts.old))
        (capped TOO_MANY_BROOMS (length brooms.old))) (not (nat_eq result NO_MEMORY)) }
    ensures closed { result ≢ ALREADY_OPEN → All HasNoSeat hosts.old × All HasNoSeat brooms.old }
    ensures open { result ≡ ALREADY_OPEN → ¬ (All HasNoSeat hosts.old × All HasNoSeat brooms.old) }
    ensures fresh { result ≡ DONE
        → AreFresh
        (numbers luns blocks pages words sectors endurance
        (length hosts.old) (length brooms.old)) hosts.new brooms.new }
    ensures closed_hosts { result ≡ NO_MEMORY → All HasNoSeat hosts.new }
    ensures closed_brooms { result ≡ NO_MEMORY → All HasNoSeat brooms.new }
    ensures same_hosts { result ≢ DONE → result ≢ NO_MEMORY → hosts.new ≡ hosts.old }
    ensures same_brooms { result ≢ DONE → result ≢ NO_MEMORY → brooms.new ≡ brooms.old }
{
    if !are_closed(hosts) || !are_closed(brooms) {
        return ALREADY_OPEN;
    }
    let host_count = capped_count(hosts.len(), TOO_MANY_HOSTS);
    let broom_count = capped_count(brooms.len(), TOO_MANY_BROOMS);
    let geometry = match Geometry::new(
        luns,
        blocks,
        pages,
        words,
        sectors,
        endurance,
        host_count,
        broom_count,
    ) {
        Ok(geometry) => geometry,
        Err(fault) => return code_of_shared_fault(host_count, fault),
    };
    if host_count == 0 {
        return BAD_SEATS;
    }
    if deal(alloc, &geometry, hosts, brooms) {
        DONE
    } else {
        NO_MEMORY
    }
}

// A count of handles, or the bound that it is over.
fn capped_count(count: usize, most: u32) -> u32
    ensures { result ≡ capped most count }
{
    if count <= most as usize {
        count as u32
    } else {
        most
    }
}
