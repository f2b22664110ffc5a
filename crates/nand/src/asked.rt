ghost use Rattle.std.specs.Prelude.{◌≡◌, ◌≢◌, List, Some, Ok, Err, IfOk, OnOk};
ghost use Rattle.durable.specs.Collecting.{HasCapacity};
ghost use Rattle.durable.specs.Device.{IsWrittenOn};
ghost use Rattle.durable.specs.Promise.{IsReadable};
ghost use Rattle.durable.specs.Updates.{Update};
ghost use Rattle.durable.specs.declared.fault.MountFault.{MountFault as Cause};
ghost use Rattle.durable.specs.declared.fault.MountFault.TheVariants as mount_fault;
ghost use Rattle.nand.specs.Numbers.{good_before};
ghost use Rattle.nand.specs.Opened.{CanFreeInUse, device_on};
ghost use Rattle.nand.specs.Opening.{HasHeard, IsOpenedFrom, TakesAnswer, next_question, opening_sectors, shape_of};
ghost use Rattle.nand.specs.declared.failure.OpenFailure.TheVariants as why;
ghost use Rattle.nand.specs.declared.flash.Fault.TheVariants as fault;
ghost use Rattle.nand.specs.declared.flash.Fault.{Fault};
ghost use Rattle.nand.specs.declared.opening.OpeningFault.TheVariants as stop;

use crate::failure::OpenFailure;
use crate::flash::{Nand, PowerGone};
use crate::opening::{Opened, Opening, OpeningFault, Question};
use std::alloc::Global;

/// Opens a chip as an `Opening` asks for it: each answer is the chip's. It gives no command.
pub fn open_chip<N: Nand>(alloc: Global, nand: &mut N, sectors: u32) -> Result<Opened, OpenFailure>
    ensures opens { IfOk result
        (IsOpenedFrom (N.flash nand.old) (N.bad nand.old) (N.shape nand.old) sectors) }
    ensures frees { (acked begun : List Update) → IsReadable (N.flash nand.old)
        (device_on (N.shape nand.old) (N.bad nand.old) sectors) acked begun
        → CanFreeInUse (N.flash nand.old) (N.shape nand.old) (N.bad nand.old) sectors
        → result ≢ Err (why.Refused mount_fault.NoFreeBlock) }
    ensures foreign { IsWrittenOn
        (device_on (N.shape nand.old) (N.bad nand.old) sectors) (N.flash nand.old)
        → result ≢ Err (why.Refused mount_fault.ForeignStamp) }
    ensures refused { HasCapacity sectors
        (good_before (N.bad nand.old) (N.shape nand.old).blocks) (N.shape nand.old).pages
        → result ≢ Err (why.Refused mount_fault.TooManySectors) }
    ensures power { result ≡ Err why.PowerGone
        → N.faults nand.new fault.PowerGone ≢ N.faults nand.old fault.PowerGone }
    ensures faults { OnOk result ((cause : Fault)
        → N.faults nand.new cause ≡ N.faults nand.old cause) }
    ensures flash { N.flash nand.new ≡ N.flash nand.old }
    ensures shape { N.shape nand.new ≡ N.shape nand.old }
    ensures bad { N.bad nand.new ≡ N.bad nand.old }
    ensures tally { N.tally nand.new ≡ N.tally nand.old }
{
    let mut opening = match Opening::begin(alloc, nand.shape(), sectors) {
        Ok(opening) => opening,
        Err(fault) => return Err(failure(fault)),
    };
    while let Some(question) = opening.next() {
        if let Err(cause) = answer(alloc, nand, &mut opening, question) {
            return Err(cause);
        }
    }
    match opening.finish(alloc) {
        Ok(opened) => Ok(opened),
        Err(fault) => Err(failure(fault)),
    }
}

// Has the chip answer the question that is open.
fn answer<N: Nand>(
    alloc: Global,
    nand: &mut N,
    opening: &mut Opening,
    question: Question,
) -> Result<(), OpenFailure>
    requires { next_question opening.old ≡ Some question }
    ensures reads { HasHeard (N.flash nand.old) (N.bad nand.old) opening.old
        → OnOk result (HasHeard (N.flash nand.old) (N.bad nand.old) opening.new) }
    ensures takes { OnOk result (TakesAnswer opening.old opening.new) }
    ensures frees { result ≢ Err (why.Refused mount_fault.NoFreeBlock) }
    ensures foreign { HasHeard (N.flash nand.old) (N.bad nand.old) opening.old
        → IsWrittenOn (device_on (shape_of opening.old) (N.bad nand.old) (opening_sectors opening.old))
        (N.flash nand.old)
        → result ≢ Err (why.Refused mount_fault.ForeignStamp) }
    ensures refused { HasHeard (N.flash nand.old) (N.bad nand.old) opening.old
        → HasCapacity (opening_sectors opening.old)
        (good_before (N.bad nand.old) (shape_of opening.old).blocks) (shape_of opening.old).pages
        → result ≢ Err (why.Refused mount_fault.TooManySectors) }
    ensures power { result ≡ Err why.PowerGone
        → N.faults nand.new fault.PowerGone ≢ N.faults nand.old fault.PowerGone }
    ensures faults { OnOk result ((cause : Fault)
        → N.faults nand.new cause ≡ N.faults nand.old cause) }
    ensures flash { N.flash nand.new ≡ N.flash nand.old }
    ensures shape { N.shape nand.new ≡ N.shape nand.old }
    ensures bad { N.bad nand.new ≡ N.bad nand.old }
    ensures tally { N.tally nand.new ≡ N.tally nand.old }
{
    match question {
        Question::IsBad(block) => match nand.is_bad(block) {
            Ok(is_bad) => told(opening.block(alloc, is_bad)),
            Err(PowerGone) => Err(OpenFailure::PowerGone),
        },
        Question::Stamp(at) => match nand.stamp(at) {
            Ok(reading) => told(opening.page(reading)),
            Err(PowerGone) => Err(OpenFailure::PowerGone),
        },
    }
}

// How an answer in turn was taken.
fn told(taken: Result<(), OpeningFault>) -> Result<(), OpenFailure>
    requires { taken ≢ Err stop.OutOfTurn }
    ensures done { OnOk result (taken ≡ Ok tt) }
    ensures refused { (cause : Cause) → result ≡ Err (why.Refused cause)
        → taken ≡ Err (stop.Refused cause) }
    ensures power { result ≢ Err why.PowerGone }
{
    match taken {
        Ok(()) => Ok(()),
        Err(fault) => Err(failure(fault)),
    }
}

// The fault of an opening that was asked in turn.
fn failure(stopped: OpeningFault) -> OpenFailure
    requires { stopped ≢ stop.OutOfTurn }
    ensures cause { (cause : Cause) → result ≡ why.Refused cause → stopped ≡ stop.Refused cause }
    ensures power { result ≢ why.PowerGone }
{
    match stopped {
        OpeningFault::Refused(cause) => OpenFailure::Refused(cause),
        OpeningFault::OutOfTurn => unreachable!(),
    }
}
