//! The calls of a device.
ghost use Rattle.std.specs.Prelude.{◌≡◌};
ghost use Rattle.erase_queue.specs.Queue.{limit_of};
ghost use Rattle.flash_table.specs.{Flash.geometry_of, Steps.HasCalled, Steps.HasNumber};
ghost use Rattle.geometry.specs.Geometry.{blocks_of};

use crate::closing::retire_all;
use crate::opening::make_brooms;
use broom::{BlockCounts, Broom, Choice, Drain, Erase, Folded};
use erase_queue::{EraseQueue, QueuePass};
use flash_table::{Flash, Gate, Pass, Retired};
use geometry::{Geometry, PinWord, Was};
use host::{Held, Holding, NewFault, NoBlock, ReadDone};
use std::alloc::{AllocError, Global};
use std::sync::Wait;

/// A flash device. Each thread reads and writes it with its own pass.
#[derive(Drop)]
pub struct Volume {
    pub(crate) flash: Flash,
    pub(crate) queue: EraseQueue,
    ghost limit: { limit_of queue ≡ blocks_of (geometry_of flash) },
}

impl Volume {
    ghost use Rattle.volume.specs.LeavesArray.{LeavesArray};
    ghost use Rattle.std.specs.Prelude.{ℕ, ◌<◌, All, List, None, Some, Err, IfOk, IfSome, OnErr, is_some, length, slice_get};
    ghost use Rattle.geometry.specs.Geometry.{brooms_of, hosts_of};
    ghost use Rattle.geometry.specs.History as call;
    ghost use Rattle.geometry.specs.Sectors.{Answers};
    ghost use Rattle.geometry.specs.declared.words.PinWord.{PinWord};
    ghost use Rattle.flash_rule.specs.declared.facts.Pin.TheVariants as pin;
    ghost use Rattle.flash_rule.specs.World.{data_word};
    ghost use Rattle.flash_rule.specs.Seats.{carried};
    ghost use Rattle.flash_table.specs.declared.pass.Pass.{Pass};
    ghost use Rattle.flash_table.specs.Flash.{view_of, opened_of, device, first_view, first_blocks, retired_view};
    ghost use Rattle.flash_table.specs.GivingUp.{closed_pass, closed_broom};
    ghost use Rattle.broom.specs.declared.broom.Broom.{Broom};
    ghost use Rattle.erase_queue.specs.Queue.{IsNewPass};
    ghost use Rattle.broom.specs.Ready.{folded_view, folded_place, IsInRange, view_of_broom, blocks_of_broom};
    ghost use Rattle.broom.specs.Erasing.{EraseTold};
    ghost use Rattle.broom.specs.Told.{DrainTold, NextTold, KeepsSurvey, SurveyLeft, Unmarks, RestockTold};
    ghost use Rattle.broom.specs.Dead.{DeadTold};
    ghost use Rattle.broom.specs.Meeting.{StoodTold, BroomsMet};
    ghost use Rattle.broom.specs.Handing.{DrainDeadOneTold, DrainNextOneTold, DrainOneTold, EraseOneTold, HandsNothing, IsBelow, LeftAt, aside_of, place_of};
    ghost use Rattle.broom.specs.Loading.{AllLoaded, StateLoaded, counts_in};
    ghost use Rattle.host.specs.Ready.{IsReady, seen_at};
    ghost use Rattle.host.specs.Told.{Searched, Wrote, WroteNew, Refused, MetHolding, MetTold, was_found};
    ghost use Rattle.host.specs.declared.writing_new.NewFault.TheVariants as fault;
    ghost use Rattle.host.specs.Holding.{Holds, Found, pass_of, page_of};
    ghost use Rattle.volume.specs.Correct.{Does, Read, Look, Write, WriteNew, Trim, Found as Got, IsWritten, Replaced};
    ghost use Rattle.volume.specs.Volume.{IsBroomReady, IsFresh, IsUnused, flash_of, queue_of, sectors, blocks, words, page_bytes};
    ghost use Rattle.volume.specs.Undisturbed.{IsUndisturbed};

    /// A device with every sector empty, its passes, pass t with number t, and its brooms, broom i with number i. `Err` means out of memory.
    pub fn open(
        alloc: Global,
        geometry: &Geometry,
    ) -> Result<(Volume, Vec<Pass>, Vec<Broom>), AllocError>
        requires hosts { 0 < hosts_of geometry.now }
        ensures geometry { IfOk result (λ r. geometry_of (flash_of r.0) ≡ geometry.now) }
        ensures count { IfOk result
            (λ r. (length r.1.items ≡ hosts_of geometry.now)
            × (length r.2.items ≡ brooms_of geometry.now)) }
        ensures passes { IfOk result
            (λ r. (t : ℕ) (p : Pass) → slice_get r.1.items t ≡ Some p
            → view_of p ≡ first_view (device (flash_of r.0)) t) }
        ensures ready { IfOk result (λ r. All (IsReady (flash_of r.0)) r.1.items) }
        ensures brooms { IfOk result
            (λ r. (i : ℕ) (b : Broom) → slice_get r.2.items i ≡ Some b
            → IsUnused (flash_of r.0) i b) }
        ensures brooms_ready { IfOk result (λ r. All (IsBroomReady r.0) r.2.items) }
        ensures brooms_fresh { IfOk result
            (λ r. All (IsFresh (flash_of r.0) (queue_of r.0)) r.2.items) }
    {
        let blocks = geometry.blocks() as usize;
        let (queue, places) = EraseQueue::new(alloc, blocks, geometry.brooms() as usize)?;
        Volume::open_over(alloc, geometry, queue, places)
    }

    // The same, over this queue, at which the brooms have these places.
    pub(crate) fn open_over(
        alloc: Global,
        geometry: &Geometry,
        queue: EraseQueue,
        places: Vec<QueuePass>,
    ) -> Result<(Volume, Vec<Pass>, Vec<Broom>), AllocError>
        requires hosts { 0 < hosts_of geometry.now }
        requires limit { limit_of queue ≡ blocks_of geometry.now }
        requires places { All (IsNewPass queue) places.items }
        requires count { length places.items ≡ brooms_of geometry.now }
        ensures geometry { IfOk result (λ r. geometry_of (flash_of r.0) ≡ geometry.now) }
        ensures count { IfOk result
            (λ r. (length r.1.items ≡ hosts_of geometry.now)
            × (length r.2.items ≡ brooms_of geometry.now)) }
        ensures passes { IfOk result
            (λ r. (t : ℕ) (p : Pass) → slice_get r.1.items t ≡ Some p
            → view_of p ≡ first_view (device (flash_of r.0)) t) }
        ensures ready { IfOk result (λ r. All (IsReady (flash_of r.0)) r.1.items) }
        ensures brooms { IfOk result
            (λ r. (i : ℕ) (b : Broom) → slice_get r.2.items i ≡ Some b
            → IsUnused (flash_of r.0) i b) }
        ensures brooms_ready { IfOk result (λ r. All (IsBroomReady r.0) r.2.items) }
        ensures brooms_fresh { IfOk result
            (λ r. All (IsFresh (flash_of r.0) (queue_of r.0)) r.2.items) }
    {
        let (flash, passes, seats) = Flash::open(alloc, geometry)?;
        match make_brooms(&flash, &queue, alloc, seats, places) {
            Ok(brooms) => Ok((Volume { flash, queue }, passes, brooms)),
            Err(AllocError) => {
                retire_all(&flash, passes.into_iter());
                Err(AllocError)
            }
        }
    }

    /// The device's numbers: which sectors and blocks there are, and how many bytes a page has.
    pub fn geometry(&self) -> &Geometry
        ensures { result.now ≡ geometry_of (flash_of self.now) }
    {
        self.flash.geometry()
    }

    /// Reads a sector into `out`, a buffer of one page.
    pub fn read(&self, pass: &mut Pass, sector: u32, out: &mut [u8]) -> ReadDone
        requires pass { IsReady (flash_of self.now) pass.old }
        requires sector { sector < sectors self.now }
        requires page { length out.old ≡ page_bytes self.now }
        ensures correct { Does self.now pass.old (Read sector)
            (Got result.got out.old out.new) pass.new }
        ensures searched { Searched (view_of pass.old) result.tries (view_of pass.new) }
        ensures answer { Answers
            (seen_at (flash_of self.now) pass.new sector) result.got out.old out.new }
        ensures pass { IsReady (flash_of self.now) pass.new }
        ensures opened { opened_of pass.new ≡ opened_of pass.old }
    {
        host::read(&self.flash, pass, sector, out)
    }

    /// A read that calls its gate after each look, and after its pin.
    pub fn read_gated<G: Gate>(
        &self,
        pass: &mut Pass,
        sector: u32,
        out: &mut [u8],
        gate: &mut G,
    ) -> ReadDone
        requires pass { IsReady (flash_of self.now) pass.old }
        requires sector { sector < sectors self.now }
        requires page { length out.old ≡ page_bytes self.now }
        ensures correct { Does self.now pass.old (Read sector)
            (Got result.got out.old out.new) pass.new }
        ensures searched { Searched (view_of pass.old) result.tries (view_of pass.new) }
        ensures answer { Answers
            (seen_at (flash_of self.now) pass.new sector) result.got out.old out.new }
        ensures pass { IsReady (flash_of self.now) pass.new }
        ensures opened { opened_of pass.new ≡ opened_of pass.old }
    {
        host::read_gated(&self.flash, pass, sector, out, gate)
    }

    /// Whether a sector is written, by one look at its map word. No page is read.
    pub fn look(&self, pass: &mut Pass, sector: u32) -> bool
        requires pass { IsReady (flash_of self.now) pass.old }
        requires sector { sector < sectors self.now }
        ensures correct { Does self.now pass.old (Look sector) (IsWritten result) pass.new }
        ensures searched { Searched (view_of pass.old) 1 (view_of pass.new) }
        ensures answer { result
            ≡ is_some (seen_at (flash_of self.now) pass.new sector) }
        ensures pass { IsReady (flash_of self.now) pass.new }
        ensures opened { opened_of pass.new ≡ opened_of pass.old }
    {
        host::look(&self.flash, pass, sector)
    }

    /// Writes a page of bytes to a sector. Returns what the sector was.
    pub fn write(&self, pass: &mut Pass, sector: u32, bytes: &[u8]) -> Result<Was, NoBlock>
        requires pass { IsReady (flash_of self.now) pass.old }
        requires sector { sector < sectors self.now }
        requires page { length bytes.now ≡ page_bytes self.now }
        ensures correct { IfOk result
            (λ was. Does self.now pass.old (Write sector bytes.now) (Replaced was) pass.new) }
        ensures wrote { IfOk result
            (λ was. (t : ℕ) → HasNumber t pass.old
            → Wrote (view_of pass.old) t sector bytes.now was (view_of pass.new)) }
        ensures refused { OnErr result (Refused (view_of pass.old) (view_of pass.new)) }
        ensures pass { IsReady (flash_of self.now) pass.new }
    {
        host::write(&self.flash, pass, sector, bytes)
    }

    /// A write that calls its gate after its page was counted, before the sector's map word is swapped.
    pub fn write_gated<G: Gate>(
        &self,
        pass: &mut Pass,
        sector: u32,
        bytes: &[u8],
        gate: &mut G,
    ) -> Result<Was, NoBlock>
        requires pass { IsReady (flash_of self.now) pass.old }
        requires sector { sector < sectors self.now }
        requires page { length bytes.now ≡ page_bytes self.now }
        ensures correct { IfOk result
            (λ was. Does self.now pass.old (Write sector bytes.now) (Replaced was) pass.new) }
        ensures wrote { IfOk result
            (λ was. (t : ℕ) → HasNumber t pass.old
            → Wrote (view_of pass.old) t sector bytes.now was (view_of pass.new)) }
        ensures refused { OnErr result (Refused (view_of pass.old) (view_of pass.new)) }
        ensures pass { IsReady (flash_of self.now) pass.new }
    {
        host::write_gated(&self.flash, pass, sector, bytes, gate)
    }

    /// Writes a page of bytes to a sector if it is empty. The page is programmed before the sector is tested, so `NoBlock` is returned rather than
    /// `Written` if both apply. After `Written` that page is dead, and its block is closed if it is full.
    pub fn write_new(&self, pass: &mut Pass, sector: u32, bytes: &[u8]) -> Result<(), NewFault>
        requires pass { IsReady (flash_of self.now) pass.old }
        requires sector { sector < sectors self.now }
        requires page { length bytes.now ≡ page_bytes self.now }
        ensures correct { IfSome (was_found result)
            (λ was. Does self.now pass.old (WriteNew sector bytes.now) (Replaced was) pass.new) }
        ensures wrote { IfSome (was_found result)
            (λ was. (t : ℕ) → HasNumber t pass.old
            → WroteNew (view_of pass.old) t sector bytes.now was (view_of pass.new)) }
        ensures refused { result ≡ Err fault.NoBlock
            → Refused (view_of pass.old) (view_of pass.new) }
        ensures pass { IsReady (flash_of self.now) pass.new }
    {
        host::write_new(&self.flash, pass, sector, bytes)
    }

    /// A write of an empty sector that calls its gate after its page was counted, before the sector's map word is exchanged.
    pub fn write_new_gated<G: Gate>(
        &self,
        pass: &mut Pass,
        sector: u32,
        bytes: &[u8],
        gate: &mut G,
    ) -> Result<(), NewFault>
        requires pass { IsReady (flash_of self.now) pass.old }
        requires sector { sector < sectors self.now }
        requires page { length bytes.now ≡ page_bytes self.now }
        ensures correct { IfSome (was_found result)
            (λ was. Does self.now pass.old (WriteNew sector bytes.now) (Replaced was) pass.new) }
        ensures wrote { IfSome (was_found result)
            (λ was. (t : ℕ) → HasNumber t pass.old
            → WroteNew (view_of pass.old) t sector bytes.now was (view_of pass.new)) }
        ensures refused { result ≡ Err fault.NoBlock
            → Refused (view_of pass.old) (view_of pass.new) }
        ensures pass { IsReady (flash_of self.now) pass.new }
    {
        host::write_new_gated(&self.flash, pass, sector, bytes, gate)
    }

    /// Empties a sector. Returns what it was.
    pub fn trim(&self, pass: &mut Pass, sector: u32) -> Was
        requires pass { IsReady (flash_of self.now) pass.old }
        requires sector { sector < sectors self.now }
        ensures correct { Does self.now pass.old (Trim sector) (Replaced result) pass.new }
        ensures called { (t : ℕ) → HasNumber t pass.old
            → HasCalled pass.old (call.Trim t sector) sector result pass.new }
        ensures pass { IsReady (flash_of self.now) pass.new }
        ensures opened { opened_of pass.new ≡ opened_of pass.old }
    {
        host::trim(&self.flash, pass, sector)
    }

    /// Pins the page that has a sector's value.
    pub fn hold(&self, pass: Pass, sector: u32) -> Holding
        requires pass { IsReady (flash_of self.now) pass }
        requires sector { sector < sectors self.now }
        ensures { Found (flash_of self.now) (view_of pass) sector result }
    {
        host::hold(&self.flash, pass, sector)
    }

    /// Copies the value that is held into a buffer of one page.
    pub fn copy_into(&self, held: &mut Held, out: &mut [u8])
        requires held { (value : List ℕ) × Holds (flash_of self.now) held.old value }
        requires page { length out.old ≡ page_bytes self.now }
        ensures value { (value : List ℕ) → Holds (flash_of self.now) held.old value
            → (out.new ≡ value) × Holds (flash_of self.now) held.new value }
        ensures undisturbed { IsUndisturbed (flash_of self.now) held.old
            (view_of (pass_of held.old)).copy held.new }
        ensures same { view_of (pass_of held.new) ≡ view_of (pass_of held.old) }
        ensures page { page_of held.new ≡ page_of held.old }
    {
        host::copy_into(&self.flash, held, out)
    }

    /// Word `i` of the value that is held.
    pub fn word(&self, held: &mut Held, i: u32) -> u64
        requires held { (value : List ℕ) × Holds (flash_of self.now) held.old value }
        requires word { i < words self.now }
        ensures value { (value : List ℕ) → Holds (flash_of self.now) held.old value
            → (result ≡ data_word value i) × Holds (flash_of self.now) held.new value }
        ensures undisturbed { IsUndisturbed (flash_of self.now) held.old
            (view_of (pass_of held.old)).copy held.new }
        ensures same { view_of (pass_of held.new) ≡ view_of (pass_of held.old) }
        ensures page { page_of held.new ≡ page_of held.old }
    {
        host::word(&self.flash, held, i)
    }

    /// Removes the pin, and returns the pass.
    pub fn release(&self, held: Held) -> Pass
        requires held { (value : List ℕ) × Holds (flash_of self.now) held value }
        ensures clear { view_of result ≡ record (view_of (pass_of held)) { pin = pin.Clear } }
        ensures pass { IsReady (flash_of self.now) result }
        ensures opened { opened_of result ≡ opened_of (pass_of held) }
    {
        host::release(&self.flash, held)
    }

    /// Each of two passes learns what the other has seen: the first makes one look, and then the second makes one. It changes no answer.
    pub fn meet(&self, first: &mut Pass, second: &mut Pass)
        requires first { IsReady (flash_of self.now) first.old }
        requires second { IsReady (flash_of self.now) second.old }
        ensures met { MetTold (view_of first.old) (view_of second.old)
            (view_of first.new) (view_of second.new) }
        ensures first { IsReady (flash_of self.now) first.new }
        ensures second { IsReady (flash_of self.now) second.new }
        ensures first_opened { opened_of first.new ≡ opened_of first.old }
        ensures second_opened { opened_of second.new ≡ opened_of second.old }
    {
        host::meet(&self.flash, first, second)
    }

    /// Each of two brooms learns what the other has done and seen: the first makes one look, and then the second makes one. It changes no answer.
    #[tactic(auto, using(crate::proofs::ArrayLeft::still_ready))]
    pub fn meet_brooms(&self, first: &mut Broom, second: &mut Broom)
        requires first { IsBroomReady self.now first.old }
        requires second { IsBroomReady self.now second.old }
        ensures met_brooms { BroomsMet (view_of_broom first.old) (view_of_broom second.old)
            (view_of_broom first.new) (view_of_broom second.new) }
        ensures first { IsBroomReady self.now first.new }
        ensures second { IsBroomReady self.now second.new }
        ensures first_array { LeavesArray (view_of_broom first.old) (view_of_broom first.new) }
        ensures second_array { LeavesArray (view_of_broom second.old) (view_of_broom second.new) }
        ensures first_blocks { blocks_of_broom first.new ≡ blocks_of_broom first.old }
        ensures second_blocks { blocks_of_broom second.new ≡ blocks_of_broom second.old }
        ensures first_queue { HandsNothing first.old first.new }
        ensures second_queue { HandsNothing second.old second.new }
        ensures first_survey { KeepsSurvey first.old first.new }
        ensures second_survey { KeepsSurvey second.old second.new }
    {
        broom::meet_brooms(&self.flash, first, second)
    }

    /// A hold learns what a broom has done, and the broom what the hold's pass has seen. It changes no answer.
    #[tactic(auto, using(crate::proofs::ArrayLeft::still_ready))]
    pub fn stand(&self, held: Held, broom: &mut Broom) -> Held
        requires held { (value : List ℕ) × Holds (flash_of self.now) held value }
        requires broom { IsBroomReady self.now broom.old }
        ensures undisturbed { IsUndisturbed (flash_of self.now) held
            (Some (carried (view_of_broom broom.old))) result }
        ensures stood { StoodTold (view_of (pass_of held)) (view_of_broom broom.old)
            (page_of held) (view_of (pass_of result)) (view_of_broom broom.new) }
        ensures opened { opened_of (pass_of result) ≡ opened_of (pass_of held) }
        ensures broom { IsBroomReady self.now broom.new }
        ensures blocks { blocks_of_broom broom.new ≡ blocks_of_broom broom.old }
        ensures queue { HandsNothing broom.old broom.new }
        ensures survey { KeepsSurvey broom.old broom.new }
    {
        let (mut pass, page, generation) = held.parts();
        broom::stand(&self.flash, &mut pass, page, generation, broom);
        Held::from_parts(pass, page, generation)
    }

    /// Ties what the pass of a hold, and another pass, have done and seen. It changes no answer, and the hold's pass sees no more of the
    /// history than before.
    pub fn meet_holding(&self, held: Held, other: &mut Pass) -> Held
        requires held { (value : List ℕ) × Holds (flash_of self.now) held value }
        requires other { IsReady (flash_of self.now) other.old }
        ensures undisturbed { IsUndisturbed (flash_of self.now) held
            (Some (carried (view_of other.old))) result }
        ensures met_holding { MetHolding (view_of (pass_of held)) (view_of other.old)
            (page_of held) (view_of (pass_of result)) (view_of other.new) }
        ensures opened { opened_of (pass_of result) ≡ opened_of (pass_of held) }
        ensures other { IsReady (flash_of self.now) other.new }
        ensures other_opened { opened_of other.new ≡ opened_of other.old }
    {
        host::meet_holding(&self.flash, held, other)
    }

    /// Gives a pass up. Its open block, full or not, is closed.
    pub fn retire(&self, pass: Pass) -> Retired
        requires { IsReady (flash_of self.now) pass }
        ensures { retired_view result ≡ closed_pass (view_of pass) (opened_of pass) }
    {
        host::retire(&self.flash, pass)
    }

    /// Surveys the device, claims the closed block with the fewest live pages, and moves these out of it. It calls its gate before the claim, and
    /// before each exchange of a map word.
    #[tactic(auto, using(crate::proofs::ArrayLeft::still_ready))]
    pub fn drain<G: Gate>(&self, broom: &mut Broom, gate: &mut G) -> Drain
        requires { IsBroomReady self.now broom.old }
        ensures drained { DrainTold broom.old result broom.new }
        ensures left { SurveyLeft broom.old result broom.new }
        ensures ready { IsBroomReady self.now broom.new }
        ensures array { LeavesArray (view_of_broom broom.old) (view_of_broom broom.new) }
        ensures queue { HandsNothing broom.old broom.new }
        ensures block { IsBelow (blocks self.now) result }
    {
        broom::drain(&self.flash, broom, gate)
    }

    /// Claims the next block by the survey that the broom made last, and moves its live pages out of it: of the blocks that were closed then, and
    /// that the broom has neither drained nor loaded since, the one with the fewest live pages. It calls its gate where `drain` does.
    #[tactic(auto, using(crate::proofs::ArrayLeft::still_ready))]
    pub fn drain_next<G: Gate>(&self, broom: &mut Broom, gate: &mut G) -> Drain
        requires { IsBroomReady self.now broom.old }
        ensures drained_next { NextTold broom.old result broom.new }
        ensures ready { IsBroomReady self.now broom.new }
        ensures array { LeavesArray (view_of_broom broom.old) (view_of_broom broom.new) }
        ensures queue { HandsNothing broom.old broom.new }
        ensures block { IsBelow (blocks self.now) result }
    {
        broom::drain_next(&self.flash, broom, gate)
    }

    /// Surveys the device, and drains the closed block with the fewest live pages if it has none. It needs no spare, and looks at each sector once
    /// more. It calls its gate before the claim. `NoSpare` means that the block has a live page, or isn't closed any more.
    #[tactic(auto, using(crate::proofs::ArrayLeft::still_ready))]
    pub fn drain_dead<G: Gate>(&self, broom: &mut Broom, gate: &mut G) -> Drain
        requires { IsBroomReady self.now broom.old }
        ensures drained_dead { DeadTold broom.old result broom.new }
        ensures ready { IsBroomReady self.now broom.new }
        ensures array { LeavesArray (view_of_broom broom.old) (view_of_broom broom.new) }
        ensures queue { HandsNothing broom.old broom.new }
        ensures block { IsBelow (blocks self.now) result }
    {
        broom::drain_dead(&self.flash, broom, gate)
    }

    /// Erases a drained block that nobody reads. It calls its gate after it has loaded the block's state, before it condemns the block.
    #[tactic(auto, using(crate::proofs::ArrayLeft::still_ready))]
    pub fn erase<G: Gate>(&self, broom: &mut Broom, block: u32, gate: &mut G) -> Erase
        requires broom { IsBroomReady self.now broom.old }
        requires block { block < blocks self.now }
        ensures erased { EraseTold broom.old block result broom.new }
        ensures marks { Unmarks broom.old block broom.new }
        ensures ready { IsBroomReady self.now broom.new }
        ensures array { LeavesArray (view_of_broom broom.old) (view_of_broom broom.new) }
        ensures queue { HandsNothing broom.old broom.new }
    {
        broom::erase(&self.flash, broom, block, gate)
    }

    /// If a broom has no spare, makes the lowest free block its spare. Returns whether the broom has a spare now.
    #[tactic(auto, using(crate::proofs::ArrayLeft::still_ready))]
    pub fn restock(&self, broom: &mut Broom) -> bool
        requires { IsBroomReady self.now broom.old }
        ensures restocked { RestockTold broom.old result broom.new }
        ensures ready { IsBroomReady self.now broom.new }
        ensures array { LeavesArray (view_of_broom broom.old) (view_of_broom broom.new) }
        ensures queue { HandsNothing broom.old broom.new }
        ensures survey { KeepsSurvey broom.old broom.new }
    {
        broom::restock(&self.flash, broom)
    }

    /// Loads the state of a block. The broom keeps its last survey; only if the block's state is another one than there, its mark goes.
    #[tactic(auto, using(crate::proofs::ArrayLeft::still_ready))]
    pub fn load_state(&self, broom: &mut Broom, block: u32) -> PinWord
        requires broom { IsBroomReady self.now broom.old }
        requires block { block < blocks self.now }
        ensures loaded { StateLoaded broom.old block result broom.new }
        ensures range { IsInRange (device (flash_of self.now)) result }
        ensures ready { IsBroomReady self.now broom.new }
        ensures array { LeavesArray (view_of_broom broom.old) (view_of_broom broom.new) }
        ensures queue { HandsNothing broom.old broom.new }
    {
        broom::load_state(&self.flash, broom, block)
    }

    /// Loads the state of each block, in order, and counts the blocks by their phases. The broom keeps its last survey, as by a single load.
    #[tactic(auto, using(crate::proofs::ArrayLeft::still_ready))]
    pub fn count_blocks(&self, broom: &mut Broom) -> BlockCounts
        requires { IsBroomReady self.now broom.old }
        ensures all_loaded { (states : List PinWord)
            × AllLoaded (device (flash_of self.now)) broom.old states broom.new
            × (result ≡ counts_in states) }
        ensures ready { IsBroomReady self.now broom.new }
        ensures array { LeavesArray (view_of_broom broom.old) (view_of_broom broom.new) }
        ensures queue { HandsNothing broom.old broom.new }
    {
        broom::count_blocks(&self.flash, broom)
    }

    /// Drains a block and puts it into the queue of drained blocks, or sets it aside if the queue is full. A block that is already set aside is put
    /// first; if there is no room for it, nothing is drained.
    pub fn drain_one<G: Gate>(&self, rt: &impl Wait, broom: &mut Broom, gate: &mut G) -> Drain
        requires { IsBroomReady self.now broom.old }
        ensures drained_one { DrainOneTold
            (limit_of (queue_of self.now)) broom.old result broom.new }
        ensures ready { IsBroomReady self.now broom.new }
        ensures array { LeavesArray (view_of_broom broom.old) (view_of_broom broom.new) }
    {
        broom::drain_one(&self.flash, &self.queue, rt, broom, gate)
    }

    /// Drains the next block by the survey that the broom made last, and puts it into the queue or sets it aside as `drain_one` does.
    pub fn drain_next_one<G: Gate>(&self, rt: &impl Wait, broom: &mut Broom, gate: &mut G) -> Drain
        requires { IsBroomReady self.now broom.old }
        ensures drained_next_one { DrainNextOneTold
            (limit_of (queue_of self.now)) broom.old result broom.new }
        ensures ready { IsBroomReady self.now broom.new }
        ensures array { LeavesArray (view_of_broom broom.old) (view_of_broom broom.new) }
    {
        broom::drain_chosen(&self.flash, &self.queue, rt, broom, Choice::Next, gate)
    }

    /// Drains a block without live pages as `drain_dead` does, and puts it into the queue or sets it aside as `drain_one` does.
    pub fn drain_dead_one<G: Gate>(&self, rt: &impl Wait, broom: &mut Broom, gate: &mut G) -> Drain
        requires { IsBroomReady self.now broom.old }
        ensures drained_dead_one { DrainDeadOneTold
            (limit_of (queue_of self.now)) broom.old result broom.new }
        ensures ready { IsBroomReady self.now broom.new }
        ensures array { LeavesArray (view_of_broom broom.old) (view_of_broom broom.new) }
    {
        broom::drain_chosen(&self.flash, &self.queue, rt, broom, Choice::Dead, gate)
    }

    /// Erases the block that is set aside or, if there is none, the first one of the queue. A block that has readers is put back at the end of the
    /// queue.
    pub fn erase_one<G: Gate>(&self, rt: &impl Wait, broom: &mut Broom, gate: &mut G) -> Erase
        requires { IsBroomReady self.now broom.old }
        ensures erased_one { EraseOneTold
            (limit_of (queue_of self.now)) broom.old result broom.new }
        ensures ready { IsBroomReady self.now broom.new }
        ensures array { LeavesArray (view_of_broom broom.old) (view_of_broom broom.new) }
    {
        broom::erase_one(&self.flash, &self.queue, rt, broom, gate)
    }

    /// Gives a broom up. Its destination, full or not, and its spare are closed. A block that is set aside is put into the queue; if the queue is
    /// full, the block stays drained, and nobody erases it.
    pub fn fold(&self, rt: &impl Wait, broom: Broom) -> Folded
        requires { IsBroomReady self.now broom }
        ensures view { folded_view result
            ≡ closed_broom (view_of_broom broom) (blocks_of_broom broom) }
        ensures array { LeavesArray (view_of_broom broom) (folded_view result) }
        ensures place { LeftAt (limit_of (queue_of self.now)) broom (folded_place result) }
    {
        broom::fold(&self.flash, &self.queue, rt, broom)
    }

    /// Gives a broom up without using the queue, so it doesn't wait. Its destination and its spare are closed. A block that is set aside stays
    /// drained, and nobody erases it.
    pub fn retire_broom(&self, broom: Broom) -> Folded
        requires { IsBroomReady self.now broom }
        ensures view { folded_view result
            ≡ closed_broom (view_of_broom broom) (blocks_of_broom broom) }
        ensures place { folded_place result ≡ place_of broom }
    {
        broom::retire_broom(&self.flash, broom)
    }
}
