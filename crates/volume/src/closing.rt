//! The end of a device: what its sectors hold when all passes are retired.
ghost use Rattle.std.specs.Prelude.{◌≡◌, ◌<◌, All, Some, IfOk, IfErr, length, slice_get, option_map};
ghost use Rattle.std.specs.Vec.Iter.{into_iter_items};
ghost use Rattle.geometry.specs.{Geometry.sectors_of};
ghost use Rattle.flash_table.specs.{declared.pass.Pass.Pass, Flash.view_of, Flash.geometry_of, Flash.device};
ghost use Rattle.host.specs.Ready.{IsReady, seen_at};
ghost use Rattle.volume.specs.Closing.{array_of, sectors_left, last_view, AreAll, AreRead, IsFinal, HasLooked, HaveLooked, HasLeft};
ghost use Rattle.volume.specs.{Closing.IsFinalBy, Closing.IsReadBy, Closing.MetEach, Closing.HasRead, Volume.flash_of, Volume.hosts};

use crate::volume::Volume;
use flash_table::{Flash, Pass, Retired};
use geometry::Got;
use host::{meet, read, retire};
use std::alloc::{AllocError, Global};
use std::vec::IntoIter;

/// What is left of a device: the value of each sector, or `None` for an empty one.
#[derive(Drop)]
pub struct Closed {
    pub sectors: Vec<Option<Vec<u8>>>,
    /// What is left of the first pass, which has read the sectors.
    pub first: Retired,
}

// The first pass meets each other one.
fn meet_each(flash: &Flash, first: &mut Pass, others: &mut [Pass])
    requires first { IsReady flash.now first.old }
    requires others { All (IsReady flash.now) others.old }
    ensures met_each { MetEach (view_of first.old) others.old (view_of first.new) others.new }
    ensures first { IsReady flash.now first.new }
    ensures others { All (IsReady flash.now) others.new }
{
    for other in others.iter_mut() {
        meet(flash, first, other);
    }
}

// What a sector holds.
fn read_sector(
    flash: &Flash,
    alloc: Global,
    pass: &mut Pass,
    sector: u32,
) -> Result<Option<Vec<u8>>, AllocError>
    requires pass { IsReady flash.now pass.old }
    requires sector { sector < sectors_of (geometry_of flash.now) }
    ensures looked { HasLooked (view_of pass.old) (view_of pass.new) }
    ensures value { IfOk result
        (λ value. option_map (λ x. x.items) value
        ≡ seen_at flash.now pass.new sector) }
    ensures pass { IsReady flash.now pass.new }
{
    let mut page = vec![in alloc; 0u8; flash.geometry().page_bytes()]?;
    match read(flash, pass, sector, &mut page).got {
        Got::Empty => Ok(None),
        Got::Data => Ok(Some(page)),
    }
}

// What all sectors hold, read one after another.
fn read_all(
    flash: &Flash,
    alloc: Global,
    pass: &mut Pass,
) -> Result<Vec<Option<Vec<u8>>>, AllocError>
    requires { IsReady flash.now pass.old }
    ensures pass { IsReady flash.now pass.new }
    ensures looked { HasLooked (view_of pass.old) (view_of pass.new) }
    ensures long { IfOk result
        (λ sectors. length (array_of sectors.items) ≡ sectors_of (geometry_of flash.now)) }
    ensures read { IfOk result
        (λ sectors. HasRead (sectors_of (geometry_of flash.now))
        (view_of pass.old) (array_of sectors.items) (view_of pass.new)) }
{
    let count = flash.geometry().sectors();
    let mut sectors = Vec::with_capacity(alloc, count as usize)?;
    for sector in 0..count {
        let value = read_sector(flash, alloc, pass, sector)?;
        sectors.push_reserved(value);
    }
    Ok(sectors)
}

// The first pass meets each other one, reads every sector, and meets each other one again.
fn gather(
    flash: &Flash,
    alloc: Global,
    passes: &mut [Pass],
) -> Result<Vec<Option<Vec<u8>>>, AllocError>
    requires some { 0 < length passes.old }
    requires passes { All (IsReady flash.now) passes.old }
    ensures read { IfOk result (λ sectors. IsReadBy flash.now passes.old passes.new sectors.items) }
    ensures one_history { IfOk result
        (λ sectors. IsFinalBy flash.now passes.old passes.new sectors.items) }
    ensures looked { HaveLooked passes.old passes.new }
    ensures passes { All (IsReady flash.now) passes.new }
{
    let Some((first, others)) = passes.split_first_mut() else {
        unreachable!()
    };
    // What all others had seen, the first pass has seen before it reads.
    meet_each(flash, first, others);
    let sectors = read_all(flash, alloc, first)?;
    // They have also seen all after which it has read; so none of them has made a call in between.
    meet_each(flash, first, others);
    Ok(sectors)
}

// Gives these passes up.
pub(crate) fn retire_all(flash: &Flash, passes: IntoIter<Pass>)
    requires { All (IsReady flash.now) (into_iter_items passes) }
{
    let mut passes = passes;
    while let Some(pass) = passes.next() {
        retire(flash, pass);
    }
    passes.destroy_empty();
}

impl Volume {
    /// Gives up the passes, of which there is at least one, and returns what the sectors hold. If memory runs out, `Err` returns the device and the
    /// passes.
    pub fn close(self, alloc: Global, passes: Vec<Pass>) -> Result<Closed, (Volume, Vec<Pass>)>
        requires some { 0 < length passes.items }
        requires passes { All (IsReady (flash_of self)) passes.items }

        // Where all passes are given, the sectors are those after one history; else each is what it is after a history that grows.
        ensures one_history { IfOk result
            (λ closed. AreAll (hosts self) passes.items
            → IsFinal (flash_of self) passes.items closed) }
        ensures read { IfOk result
            (λ closed. AreRead (device (flash_of self)) passes.items
            (last_view closed).seen (sectors_left closed)) }
        ensures first { IfOk result
            (λ closed. (p : Pass) → slice_get passes.items 0 ≡ Some p
            → HasLeft (view_of p) (last_view closed)) }

        // Everything is returned unchanged, except that the passes have looked.
        ensures volume { IfErr result (λ back. back.0 ≡ self) }
        ensures looked { IfErr result (λ back. HaveLooked passes.items back.1.items) }
        ensures ready { IfErr result (λ back. All (IsReady (flash_of back.0)) back.1.items) }
    {
        let mut passes = passes;
        let Ok(sectors) = gather(&self.flash, alloc, &mut passes) else {
            return Err((self, passes));
        };
        let mut passes = passes.into_iter();
        let Some(first) = passes.next() else {
            unreachable!()
        };
        let first = retire(&self.flash, first);
        retire_all(&self.flash, passes);
        Ok(Closed { sectors, first })
    }
}
