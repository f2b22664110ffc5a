//! The calls of a broom, by codes.
ghost use Rattle.std.specs.Prelude.{◌≡◌, ◌≢◌};
ghost use Rattle.broom.specs.Told.{KeepsSurvey, Unmarks, RestockTold};
ghost use Rattle.broom.specs.Erasing.{EraseTold};
ghost use Rattle.broom.specs.Handing.{HandsNothing};
ghost use Rattle.broom.specs.declared.answer.Drain.TheVariants as drain;
ghost use Rattle.broom.specs.declared.turns.Choice.TheVariants as choice;
ghost use Rattle.exports.specs.Codes.{drain_code, drain_by, erase_by, restock_code, stocked_by};
ghost use Rattle.exports.specs.Shared.{Drains, sweeper_volume, erased_code};
ghost use Rattle.exports.specs.Tallies.{empty_tally, with_drain, with_erase};

use crate::codes::{
    DONE, KEPT, LOST, NO_SPARE, NO_SUCH_BLOCK, NOTHING_TO_GAIN, PINNED, RETIRED, STALE,
};
use crate::handle::seat::Sweeper;
use crate::reports::{Drained, TallyReport};
use volume::{Drain, Erase, NoGate};

impl Sweeper {
    // Drains a block. With 0 it reports the block's number and how many pages moved.
    pub(crate) fn drain(&mut self, out: &mut Drained) -> u32
        ensures device { self.new.volume ≡ self.old.volume }
        ensures code { result ≡ drain_code (drain_by result out.new.block out.new.moved) }
        ensures drained { Drains choice.Survey (sweeper_volume self.old) self.old.broom
            (drain_by result out.new.block out.new.moved) self.new.broom }
        ensures same { result ≢ DONE → out.new ≡ out.old }
    {
        let pages = self.volume.geometry().pages();
        let room = self.broom.room(pages);
        let answer = self.volume.drain(&mut self.broom, &mut NoGate);
        let programs = room.saturating_sub(self.broom.room(pages));
        self.done = self.done.with_drain(programs, answer);
        hand_out(answer, out)
    }

    // Drains the next block by the survey that the broom made last. With 0 it reports the block's number and how many pages moved.
    pub(crate) fn drain_next(&mut self, out: &mut Drained) -> u32
        ensures device { self.new.volume ≡ self.old.volume }
        ensures code { result ≡ drain_code (drain_by result out.new.block out.new.moved) }
        ensures drained { Drains choice.Next (sweeper_volume self.old) self.old.broom
            (drain_by result out.new.block out.new.moved) self.new.broom }
        ensures same { result ≢ DONE → out.new ≡ out.old }
    {
        let pages = self.volume.geometry().pages();
        let room = self.broom.room(pages);
        let answer = self.volume.drain_next(&mut self.broom, &mut NoGate);
        let programs = room.saturating_sub(self.broom.room(pages));
        self.done = self.done.with_drain(programs, answer);
        hand_out(answer, out)
    }

    // Surveys the device, and drains the closed block with the fewest live pages if it has none. With 0 it reports the block's number.
    pub(crate) fn drain_dead(&mut self, out: &mut Drained) -> u32
        ensures device { self.new.volume ≡ self.old.volume }
        ensures code { result ≡ drain_code (drain_by result out.new.block out.new.moved) }
        ensures drained { Drains choice.Dead (sweeper_volume self.old) self.old.broom
            (drain_by result out.new.block out.new.moved) self.new.broom }
        ensures same { result ≢ DONE → out.new ≡ out.old }
    {
        let answer = self.volume.drain_dead(&mut self.broom, &mut NoGate);
        hand_out(answer, out)
    }

    // Erases a drained block.
    pub(crate) fn erase(&mut self, block: u32) -> u32
        ensures device { self.new.volume ≡ self.old.volume }
        ensures code { result ≡ erased_code block result self.old }
        ensures erased { result ≢ NO_SUCH_BLOCK
            → EraseTold self.old.broom block (erase_by result block) self.new.broom }
        ensures marks { result ≢ NO_SUCH_BLOCK → Unmarks self.old.broom block self.new.broom }
        ensures queue { result ≢ NO_SUCH_BLOCK → HandsNothing self.old.broom self.new.broom }
        ensures same { result ≡ NO_SUCH_BLOCK → self.new.broom ≡ self.old.broom }
    {
        if block >= self.volume.geometry().blocks() {
            return NO_SUCH_BLOCK;
        }
        let answer = self.volume.erase(&mut self.broom, block, &mut NoGate);
        self.done = self.done.with_erase(answer);
        match answer {
            Erase::Erased { kept: true, .. } => KEPT,
            Erase::Erased { .. } => DONE,
            Erase::Retired { .. } => RETIRED,
            Erase::Pinned => PINNED,
            _ => STALE,
        }
    }

    // Makes a free block the spare of a broom that has none.
    pub(crate) fn restock(&mut self) -> u32
        ensures device { self.new.volume ≡ self.old.volume }
        ensures code { result ≡ restock_code (stocked_by result) }
        ensures restocked { RestockTold self.old.broom (stocked_by result) self.new.broom }
        ensures queue { HandsNothing self.old.broom self.new.broom }
        ensures survey { KeepsSurvey self.old.broom self.new.broom }
    {
        if self.volume.restock(&mut self.broom) {
            DONE
        } else {
            NO_SPARE
        }
    }
}

impl TallyReport {
    // Nothing was done.
    pub(crate) fn new() -> TallyReport
        ensures { result ≡ empty_tally }
    {
        TallyReport {
            programs: 0,
            moved: 0,
            erases: 0,
        }
    }

    // This, and a drain that has programmed so many pages.
    fn with_drain(self, programs: u64, answer: Drain) -> TallyReport
        ensures { result ≡ with_drain self programs answer }
    {
        let moved = match answer {
            Drain::Drained { block: _, copied } => u64::from(copied),
            _ => 0,
        };
        TallyReport {
            programs: self.programs.wrapping_add(programs),
            moved: self.moved.wrapping_add(moved),
            erases: self.erases,
        }
    }

    // This, and an erase.
    fn with_erase(self, answer: Erase) -> TallyReport
        ensures { result ≡ with_erase self answer }
    {
        let erases = match answer {
            Erase::Erased { .. } | Erase::Retired { .. } => 1,
            _ => 0,
        };
        TallyReport {
            programs: self.programs,
            moved: self.moved,
            erases: self.erases.wrapping_add(erases),
        }
    }
}

// The code of a drain's answer. Reports the number of a drained block, and how many pages moved.
fn hand_out(answer: Drain, out: &mut Drained) -> u32
    ensures code { result ≡ drain_code (drain_by result out.new.block out.new.moved) }
    ensures answer { answer ≢ drain.QueueFull
        → drain_by result out.new.block out.new.moved ≡ answer }
    ensures same { result ≢ DONE → out.new ≡ out.old }
{
    match answer {
        Drain::Drained {
            block,
            copied: moved,
        } => {
            *out = Drained { block, moved };
            DONE
        }
        Drain::NothingToGain => NOTHING_TO_GAIN,
        Drain::NoSpare => NO_SPARE,
        _ => LOST,
    }
}
