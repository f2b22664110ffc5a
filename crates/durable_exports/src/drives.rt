//! A driver behind a handle.
ghost use Rattle.std.specs.Prelude.{◌≡◌, ◌≢◌, ◌==◌, if◌then◌else◌};
ghost use Rattle.durable_exports.specs.declared.codes.TheConstants.{DONE, WRITTEN};
ghost use Rattle.durable_exports.specs.Driving.{AnswersStep, BeginsUpdate, IsBeginCode, IsDriverPage, IsStepFor};
ghost use Rattle.durable_exports.specs.Driving.{driver_sector_code, refusal_code, result_code, told_answer, told_reading};
ghost use Rattle.durable_exports.specs.Reports.{found_page};
ghost use Rattle.nand.specs.declared.driver.Answer.TheVariants as answer;

use crate::codes::{DONE, EXHAUSTED, NO_NUMBER, NO_SECTOR, OUT_OF_ORDER, POWER_GONE, WRITTEN};
use crate::reports::{self, PlaceReport, StepReport};
use durable::Extent;
use nand::{Answer, Driver, Reading, Refusal, Stamp};

// The code of a refusal.
fn code_of(refusal: Refusal) -> u32
    ensures { result ≡ refusal_code refusal }
{
    match refusal {
        Refusal::Busy => OUT_OF_ORDER,
        Refusal::Outside => NO_SECTOR,
        Refusal::ReadOnly => EXHAUSTED,
        Refusal::Closed => POWER_GONE,
        Refusal::NoNumber => NO_NUMBER,
    }
}

// Begins a call, and reports its first step.
pub(crate) fn begin(driver: &mut Driver, extent: Extent, trimmed: bool, out: &mut StepReport) -> u32
    ensures code { IsBeginCode extent result driver.old }
    ensures begun { result ≡ DONE → BeginsUpdate extent trimmed driver.old driver.new × IsStepFor out.new driver.new }
    ensures same { result ≢ DONE → driver.new ≡ driver.old }
    ensures report { result ≢ DONE → out.new ≡ out.old }
{
    match driver.begin(extent, trimmed) {
        Ok(()) => {
            next(driver, out);
            DONE
        }
        Err(refusal) => code_of(refusal),
    }
}

// Reports the step that comes next.
pub(crate) fn next(driver: &Driver, out: &mut StepReport)
    ensures { IsStepFor out.new driver.now }
{
    *out = reports::step(driver.next());
}

// Takes how the step that came next has ended, and reports the one after it.
pub(crate) fn done(driver: &mut Driver, answer: Answer, out: &mut StepReport)
    ensures answered { AnswersStep answer driver.old driver.new }
    ensures step { IsStepFor out.new driver.new }
{
    driver.done(answer);
    next(driver, out);
}

// How the last call has ended.
pub(crate) fn result(driver: &Driver) -> u32
    ensures { result ≡ result_code driver.now }
{
    match driver.result() {
        Some(Ok(())) => DONE,
        Some(Err(refusal)) => code_of(refusal),
        None => OUT_OF_ORDER,
    }
}

// The chip's page of a sector.
pub(crate) fn page(driver: &Driver, sector: u32, out: &mut PlaceReport) -> u32
    ensures code { result
        ≡ driver_sector_code sector (if result == WRITTEN then WRITTEN else DONE) driver.now }
    ensures page { IsDriverPage sector (found_page result out.new) driver.now }
    ensures same { result ≢ WRITTEN → out.new ≡ out.old }
{
    if sector >= driver.sectors() {
        return NO_SECTOR;
    }
    let Some(at) = driver.page(sector) else {
        return DONE;
    };
    *out = reports::place(at);
    WRITTEN
}

// The answer that a number stands for.
fn answer_of(number: u32) -> Answer
    ensures { result ≡ told_answer number }
{
    match number {
        0 => Answer::Done,
        1 => Answer::Failed,
        _ => Answer::PowerGone,
    }
}

// What a read has found that is told so.
fn reading_of(has_version: u32, extent: Extent, number: u64) -> Reading
    ensures { result ≡ told_reading has_version extent number }
{
    if has_version == 0 {
        return Reading::Unreadable;
    }
    Reading::Version(Stamp {
        extent,
        number,
        trimmed: has_version == 2,
    })
}

// The step that came next has had the answer of this number.
pub(crate) fn told(driver: &mut Driver, number: u32, out: &mut StepReport)
    ensures answered { AnswersStep (told_answer number) driver.old driver.new }
    ensures step { IsStepFor out.new driver.new }
{
    done(driver, answer_of(number), out);
}

// The step that came next has read what is told so.
pub(crate) fn found(
    driver: &mut Driver,
    has_version: u32,
    extent: Extent,
    number: u64,
    out: &mut StepReport,
)
    ensures answered { AnswersStep (answer.Found (told_reading has_version extent number)) driver.old driver.new }
    ensures step { IsStepFor out.new driver.new }
{
    let reading = reading_of(has_version, extent, number);
    done(driver, Answer::Found(reading), out);
}
