//! The calls of C for a driver: it says one step at a time, and takes how it has ended.
ghost use Rattle.std.specs.Prelude.{◌≡◌, ◌≢◌, ◌-◌, ◌==◌, ◌&&◌, if◌then◌else◌, None, length, nat_lt, nat_le, nat_eq};
ghost use Rattle.durable_exports.specs.declared.codes.TheConstants.{DONE, WRITTEN, NO_MEMORY};
ghost use Rattle.durable.specs.Device.{device_of};
ghost use Rattle.durable_exports.specs.Calls.{OfLayer, code_of_layer};
ghost use Rattle.durable_exports.specs.Driving.{AnswersStep, BeginsUpdate, DrivesLayer, HasDriver, IsBeginCode, IsDriverPage};
ghost use Rattle.durable_exports.specs.Driving.{IsStepFor, OfDriver};
ghost use Rattle.durable_exports.specs.Driving.{told_answer, code_of_driver, drive_code, driver_sector_code, told_reading, result_code};
ghost use Rattle.durable_exports.specs.Reports.{found_page};
ghost use Rattle.durable_exports.specs.Handles.{seat_of};
ghost use Rattle.nand.specs.declared.driver.Answer.TheVariants as answer;

use crate::codes::{CLOSED, DONE, NO_BLOCK, NO_MEMORY, WRONG_KIND};
use crate::drives;
use crate::handle::Handle;
use crate::reports::{PlaceReport, StepReport};
use crate::seat::Seat;
use durable::Extent;
use nand::Driver;
use std::alloc::Global;

/// Makes the mounted layer a driver, which knows the chip's block of each of its numbers. So many blocks are good: those in use, and after them the reserve.
#[unsafe(no_mangle)]
pub extern "C" fn mintlintel_driver_open(
    alloc: Global,
    handle: &mut Handle,
    numbers: &[u32],
    good: u32,
) -> u32
    ensures code { result ≡ code_of_layer (seat_of handle.old) (λ l. drive_code
        (nat_le (device_of l.core).blocks good && nat_le good (length numbers.now)) (nat_eq result NO_MEMORY)) }
    ensures opened { result ≡ DONE → OfLayer (seat_of handle.old)
        (λ l. HasDriver (seat_of handle.new) (DrivesLayer numbers.now good l)) }
    ensures memory { result ≡ NO_MEMORY → seat_of handle.new ≡ None }
    ensures same { result ≢ DONE → result ≢ NO_MEMORY → seat_of handle.new ≡ seat_of handle.old }
{
    let handle = handle.typed();
    let Some(seat) = handle.take(alloc) else {
        return CLOSED;
    };
    match &*seat {
        Seat::Mounted(layer) => {
            if good < layer.core.blocks() || numbers.len() < good as usize {
                handle.put(seat);
                return NO_BLOCK;
            }
        }
        Seat::Mounting(_) | Seat::Driving(_) => {
            handle.put(seat);
            return WRONG_KIND;
        }
    }
    let Seat::Mounted(layer) = Box::into_inner(seat) else {
        return WRONG_KIND;
    };
    let Ok(numbers) = numbers.to_vec(alloc) else {
        return NO_MEMORY;
    };
    let Some(driver) = Driver::new(layer.core, numbers, good) else {
        return NO_MEMORY;
    };
    if handle.fill(alloc, Seat::Driving(driver)) {
        DONE
    } else {
        NO_MEMORY
    }
}

/// Begins a write of a sector, or a trim of as many as are counted from the first one on, and says its first step.
#[unsafe(no_mangle)]
pub extern "C" fn mintlintel_driver_begin(
    alloc: Global,
    handle: &mut Handle,
    first: u32,
    count: u32,
    trimmed: u32,
    out: &mut StepReport,
) -> u32
    ensures code { OfDriver (seat_of handle.old) (IsBeginCode (record { first = first; count = count }) result) }
    ensures no_driver { result ≡ code_of_driver (seat_of handle.old) (λ _. result) }
    ensures begun { result ≡ DONE → OfDriver (seat_of handle.old) (λ d. HasDriver (seat_of handle.new)
        (λ k. BeginsUpdate (record { first = first; count = count }) (nat_lt 0 trimmed) d k × IsStepFor out.new k)) }
    ensures same { result ≢ DONE → seat_of handle.new ≡ seat_of handle.old }
    ensures report { result ≢ DONE → out.new ≡ out.old }
{
    handle.typed().on_with(alloc, out, |seat, out| match seat {
        Seat::Driving(driver) => drives::begin(driver, Extent { first, count }, trimmed > 0, out),
        Seat::Mounting(_) | Seat::Mounted(_) => WRONG_KIND,
    })
}

/// The step that comes next.
#[unsafe(no_mangle)]
pub extern "C" fn mintlintel_driver_next(
    alloc: Global,
    handle: &mut Handle,
    out: &mut StepReport,
) -> u32
    ensures code { result ≡ code_of_driver (seat_of handle.old) (λ _. DONE) }
    ensures step { result ≡ DONE → OfDriver (seat_of handle.old) (IsStepFor out.new) }
    ensures report { result ≢ DONE → out.new ≡ out.old }
    ensures same { seat_of handle.new ≡ seat_of handle.old }
{
    handle.typed().on_with(alloc, out, |seat, out| match seat {
        Seat::Driving(driver) => {
            drives::next(driver, out);
            DONE
        }
        Seat::Mounting(_) | Seat::Mounted(_) => WRONG_KIND,
    })
}

/// The step that came next was done, with 0, or has failed, with 1. With another answer the power is gone.
#[unsafe(no_mangle)]
pub extern "C" fn mintlintel_driver_done(
    alloc: Global,
    handle: &mut Handle,
    answer: u32,
    out: &mut StepReport,
) -> u32
    ensures code { result ≡ code_of_driver (seat_of handle.old) (λ _. DONE) }
    ensures done { result ≡ DONE → OfDriver (seat_of handle.old) (λ d. HasDriver (seat_of handle.new)
        (λ k. AnswersStep (told_answer answer) d k × IsStepFor out.new k)) }
    ensures same { result ≢ DONE → seat_of handle.new ≡ seat_of handle.old }
    ensures report { result ≢ DONE → out.new ≡ out.old }
{
    handle.typed().on_with(alloc, out, |seat, out| match seat {
        Seat::Driving(driver) => {
            drives::told(driver, answer, out);
            DONE
        }
        Seat::Mounting(_) | Seat::Mounted(_) => WRONG_KIND,
    })
}

/// The read that came next has found no version, with 0, or one with these sectors and this number: with 2 that of a trim.
#[unsafe(no_mangle)]
pub extern "C" fn mintlintel_driver_found(
    alloc: Global,
    handle: &mut Handle,
    has_version: u32,
    first: u32,
    count: u32,
    number: u64,
    out: &mut StepReport,
) -> u32
    ensures code { result ≡ code_of_driver (seat_of handle.old) (λ _. DONE) }
    ensures found { result ≡ DONE → OfDriver (seat_of handle.old) (λ d. HasDriver (seat_of handle.new)
        (λ k. AnswersStep (answer.Found (told_reading has_version (record { first = first; count = count }) number)) d k
        × IsStepFor out.new k)) }
    ensures same { result ≢ DONE → seat_of handle.new ≡ seat_of handle.old }
    ensures report { result ≢ DONE → out.new ≡ out.old }
{
    let extent = Extent { first, count };
    handle.typed().on_with(alloc, out, |seat, out| match seat {
        Seat::Driving(driver) => {
            drives::found(driver, has_version, extent, number, out);
            DONE
        }
        Seat::Mounting(_) | Seat::Mounted(_) => WRONG_KIND,
    })
}

/// How the last call has ended.
#[unsafe(no_mangle)]
pub extern "C" fn mintlintel_driver_result(alloc: Global, handle: &mut Handle) -> u32
    ensures code { result ≡ code_of_driver (seat_of handle.old) result_code }
    ensures same { seat_of handle.new ≡ seat_of handle.old }
{
    handle.typed().on(alloc, |seat| match seat {
        Seat::Driving(driver) => drives::result(driver),
        Seat::Mounting(_) | Seat::Mounted(_) => WRONG_KIND,
    })
}

/// The chip's page with the newest version of a sector: 1 with its place, or 0 if no page has one.
#[unsafe(no_mangle)]
pub extern "C" fn mintlintel_driver_page(
    alloc: Global,
    handle: &mut Handle,
    sector: u32,
    out: &mut PlaceReport,
) -> u32
    ensures code { result ≡ code_of_driver (seat_of handle.old)
        (driver_sector_code sector (if result == WRITTEN then WRITTEN else DONE)) }
    ensures page { OfDriver (seat_of handle.old) (IsDriverPage sector (found_page result out.new)) }
    ensures report { result ≢ WRITTEN → out.new ≡ out.old }
    ensures same { seat_of handle.new ≡ seat_of handle.old }
{
    handle.typed().on_with(alloc, out, |seat, out| match seat {
        Seat::Driving(driver) => drives::page(driver, sector, out),
        Seat::Mounting(_) | Seat::Mounted(_) => WRONG_KIND,
    })
}

/// How many blocks are in reserve: so many commands may fail before the device is only read.
#[unsafe(no_mangle)]
pub extern "C" fn mintlintel_driver_reserve(
    alloc: Global,
    handle: &mut Handle,
    out: &mut u32,
) -> u32
    ensures code { result ≡ code_of_driver (seat_of handle.old) (λ _. DONE) }
    ensures reserve { result ≡ DONE → OfDriver (seat_of handle.old) (λ d. out.new ≡ d.good - d.spare) }
    ensures report { result ≢ DONE → out.new ≡ out.old }
    ensures same { seat_of handle.new ≡ seat_of handle.old }
{
    handle.typed().on_with(alloc, out, |seat, out| match seat {
        Seat::Driving(driver) => {
            *out = driver.reserve();
            DONE
        }
        Seat::Mounting(_) | Seat::Mounted(_) => WRONG_KIND,
    })
}
