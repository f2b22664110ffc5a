ghost use Rattle.std.specs.Prelude.{◌≡◌, ◌≢◌, ◌⊎◌, ◌≤◌, All, false, List, ◌∷◌, [], length, Ok, Err, OnOk, IfOk, IfErr};
ghost use Rattle.durable.specs.Device.{losses_of};
ghost use Rattle.durable.specs.Updates.{Makes, Update};
ghost use Rattle.nand.specs.Histories.{IsFor, Leads, update_by};
ghost use Rattle.nand.specs.Opened.{CanOpen, Fails, HasFailed, IsUnmounted, IsOpenLayer, IsTrueCause, KeepsDevice, MarksFailed, layer_sectors};
ghost use Rattle.nand.specs.Programs.{ProgramsOnce};
ghost use Rattle.nand.specs.declared.failure.Failure.TheVariants as failure;

use crate::failure::{Failure, OpenFailure};
use crate::flash::Nand;
use crate::layer::{Durable, NotOpened};
use durable::{Extent, MountFault};
use std::alloc::Global;

/// A call that changes the array: a write of a sector, or a trim of an extent.
#[derive(Drop)]
pub enum Change {
    Write(u32, Vec<u8>),
    Trim(Extent),
}

impl<N: Nand> Durable<N> {
    /// Writes a sector, or trims an extent.
    pub fn make(&mut self, change: &Change) -> Result<(), Failure>
        requires { IsFor (layer_sectors self.old) (N.shape self.old.nand).page_bytes change.now }
        ensures acknowledged { (updates : List Update)
            → IsOpenLayer N.flash N.shape N.bad self.old updates
            → OnOk result
            (IsOpenLayer N.flash N.shape N.bad self.new (update_by change.now ∷ updates)) }
        ensures fails { (updates : List Update) → IsOpenLayer N.flash N.shape N.bad self.old updates
            → IfErr result
            (Fails N.flash N.shape N.bad self.old self.new (update_by change.now) updates) }
        ensures cause { IfErr result (IsTrueCause N.faults self.old self.new) }
        ensures closed { IsUnmounted self.old → result ≡ Err failure.Closed }
        ensures idle { IsUnmounted self.old → N.tally self.new.nand ≡ N.tally self.old.nand }
        ensures device { KeepsDevice N.shape N.bad N.faults self.old self.new }
        ensures marks { OnOk result (MarksFailed N.flash N.shape N.bad N.faults self.old self.new) }
        ensures overwrites { result ≢ Err failure.Written }
        ensures once { (updates : List Update) → IsOpenLayer N.flash N.shape N.bad self.old updates
            → OnOk result ((N.flash self.new.nand ≡ N.flash self.old.nand)
            × (N.tally self.new.nand ≡ N.tally self.old.nand)
            ⊎ ProgramsOnce N.flash N.shape N.bad N.tally self.old self.new (update_by change.now)) }
    {
        match change {
            Change::Write(sector, bytes) => self.write(*sector, bytes),
            Change::Trim(extent) => match self.trim(*extent) {
                Ok(_) => Ok(()),
                Err(failure) => Err(failure),
            },
        }
    }

    /// Opens a chip and makes the calls in order, whatever power cuts fall in them: after each call that fails, the chip is opened again.
    /// Of each call that was made it tells whether it was acknowledged. If the chip can't be opened again, it comes back.
    pub fn make_all(
        alloc: Global,
        nand: N,
        sectors: u32,
        changes: &[Change],
        acknowledged: &mut Vec<bool>,
    ) -> Result<Durable<N>, NotOpened<N>>
        requires changes { All (IsFor sectors (N.shape nand).page_bytes) changes.now }
        requires none { acknowledged.old.items ≡ [] }
        ensures array { (before : List Update) → CanOpen N.flash N.shape N.bad nand sectors before
            → IfOk result
            (λ layer. (after : List Update)
            × Leads (HasFailed N.flash N.shape N.bad N.faults)
            changes.now acknowledged.new.items before after
            × IsOpenLayer N.flash N.shape N.bad layer after) }
        ensures back { (before : List Update) → CanOpen N.flash N.shape N.bad nand sectors before
            → IfErr result
            (λ refused. (after : List Update)
            × Leads (HasFailed N.flash N.shape N.bad N.faults)
            changes.now acknowledged.new.items before after
            × CanOpen N.flash N.shape N.bad refused.nand sectors after) }
        ensures all { OnOk result (length acknowledged.new.items ≡ length changes.now) }

        ensures device { IfOk result
            (λ layer. (layer_sectors layer ≡ sectors) × (N.shape layer.nand ≡ N.shape nand)) }
    {
        let mut layer = Durable::open(alloc, nand, sectors)?;
        for i in 0..changes.len() {
            if let Err(_) = acknowledged.push(false) {
                return Err(NotOpened {
                    nand: layer.into_nand(),
                    why: OpenFailure::Refused(MountFault::OutOfMemory),
                });
            }
            match layer.make_or_reopen(alloc, &changes[i], &mut acknowledged[i]) {
                Ok(next) => layer = next,
                Err(refused) => return Err(refused),
            }
        }
        Ok(layer)
    }

    // Makes a call, and tells whether it was acknowledged. If it was not, the chip is opened again.
    fn make_or_reopen(
        self,
        alloc: Global,
        change: &Change,
        acknowledged: &mut bool,
    ) -> Result<Durable<N>, NotOpened<N>>
        requires { IsFor (layer_sectors self) (N.shape self.nand).page_bytes change.now }
        ensures open { (updates : List Update) → IsOpenLayer N.flash N.shape N.bad self updates
            → IfOk result
            (λ layer. (after : List Update)
            × Makes acknowledged.new (update_by change.now) updates after
            × IsOpenLayer N.flash N.shape N.bad layer after) }
        ensures back { (updates : List Update) → IsOpenLayer N.flash N.shape N.bad self updates
            → IfErr result
            (λ refused. (after : List Update)
            × Makes acknowledged.new (update_by change.now) updates after
            × CanOpen N.flash N.shape N.bad refused.nand (layer_sectors self) after) }
        ensures failed { (updates : List Update) → IsOpenLayer N.flash N.shape N.bad self updates
            → acknowledged.new ≡ false
            → HasFailed N.flash N.shape N.bad N.faults (update_by change.now) updates }
        ensures device { IfOk result
            (λ layer. (layer_sectors layer ≡ layer_sectors self)
            × (N.shape layer.nand ≡ N.shape self.nand)) }
    {
        let mut layer = self;
        match layer.make(change) {
            Ok(()) => {
                *acknowledged = true;
                Ok(layer)
            }
            Err(_) => {
                *acknowledged = false;
                let sectors = layer.sectors();
                Durable::open(alloc, layer.into_nand(), sectors)
            }
        }
    }
}
