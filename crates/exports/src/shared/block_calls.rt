//! What a broom reports of the blocks of its device.
ghost use Rattle.std.specs.Prelude.{◌≡◌, ◌≢◌, List, is_some};
ghost use Rattle.geometry.specs.declared.words.PinWord.{PinWord};
ghost use Rattle.flash_table.specs.Flash.{device};
ghost use Rattle.volume.specs.Volume.{flash_of};
ghost use Rattle.broom.specs.Handing.{HandsNothing};
ghost use Rattle.broom.specs.Loading.{AllLoaded, counts_in};
ghost use Rattle.broom.specs.Ready.{blocks_of_broom};
ghost use Rattle.exports.specs.Codes.{as_number};
ghost use Rattle.exports.specs.Blocks.{BlockReported, block_code, counts_code, counts_report, is_exhausted};
ghost use Rattle.exports.specs.Shared.{numbers_of, sweeper_volume};
ghost use Rattle.exports.specs.Tallies.{tally_of};

use crate::codes::{DONE, EXHAUSTED, NO_SUCH_BLOCK};
use crate::handle::seat::Sweeper;
use crate::reports::{CountsReport, StateReport, TallyReport};
use crate::shared::phases::number_of;
use volume::{Geometry, Phase};

impl Sweeper {
    // Reports the state of a block.
    pub(crate) fn block(&mut self, block: u32, out: &mut StateReport) -> u32
        ensures device { self.new.volume ≡ self.old.volume }
        ensures code { result ≡ block_code (numbers_of (sweeper_volume self.old)) block }
        ensures reported { result ≡ DONE
            → BlockReported self.old.broom block out.new self.new.broom }
        ensures queue { result ≡ DONE → HandsNothing self.old.broom self.new.broom }
        ensures same { result ≢ DONE → self.new.broom ≡ self.old.broom }
        ensures unchanged { result ≢ DONE → out.new ≡ out.old }
    {
        if block >= self.volume.geometry().blocks() {
            return NO_SUCH_BLOCK;
        }
        let state = self.volume.load_state(&mut self.broom, block);
        let retired = u32::from(state.phase == Phase::Retired);
        *out = StateReport {
            phase: number_of(state.phase),
            readers: state.readers,
            written: state.written,
            erases: state.generation + retired,
        };
        DONE
    }

    // Counts the blocks by their phases.
    pub(crate) fn counts(&mut self, out: &mut CountsReport) -> u32
        ensures device { self.new.volume ≡ self.old.volume }
        ensures code { result ≡ counts_code (numbers_of (sweeper_volume self.old)) out.new }
        ensures counted { (states : List PinWord)
            × AllLoaded
            (device (flash_of (sweeper_volume self.old))) self.old.broom states self.new.broom
            × (out.new
            ≡ counts_report (counts_in states)
            (as_number (is_some (blocks_of_broom self.old.broom).spare))) }
        ensures queue { HandsNothing self.old.broom self.new.broom }
    {
        let spares = u32::from(self.broom.has_spare());
        let counts = self.volume.count_blocks(&mut self.broom);
        *out = CountsReport {
            erases: counts.erases,
            free: counts.free,
            open: counts.open,
            closed: counts.closed,
            victims: counts.victims,
            drained: counts.drained,
            erasing: counts.erasing,
            retired: counts.retired,
            spares,
        };
        if out.is_exhausted(self.volume.geometry()) {
            EXHAUSTED
        } else {
            DONE
        }
    }

    // Reports what the broom has done.
    pub(crate) fn tally(&self, out: &mut TallyReport) -> u32
        ensures code { result ≡ DONE }
        ensures tally { out.new ≡ tally_of self.now.broom }
    {
        *out = self.done;
        DONE
    }
}

impl CountsReport {
    // Whether no block is free and none can become free. Other brooms may have spares, so this is known only of a device with one broom.
    fn is_exhausted(&self, geometry: &Geometry) -> bool
        ensures { result ≡ is_exhausted geometry.now self.now }
    {
        geometry.brooms() == 1
            && self.spares == 0
            && self.free == 0
            && self.victims == 0
            && self.drained == 0
            && self.erasing == 0
    }
}
