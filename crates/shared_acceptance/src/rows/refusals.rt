//! Opens and closes a device while memory may be refused once. `examples/short_of_memory` runs only this test, refuses each allocation
//! of the two calls in turn, and reads what this test prints.
ghost use Rattle.std.specs.Prelude.{◌≡◌, ◌<◌, All, IfOk, length};
ghost use Rattle.geometry.specs.Geometry.{hosts_of};
ghost use Rattle.flash_table.specs.Flash.{geometry_of};
ghost use Rattle.host.specs.Ready.{IsReady};
ghost use Rattle.volume.specs.Volume.{IsBroomReady, flash_of};

use crate::actors::calls::{WORDS, hold, page};
use broom::Broom;
use flash_table::Pass;
use geometry::Geometry;
use std::process::Abort;
use std::test::Fail;
use volume::{Closed, Volume};

// Opens a device. If its memory is refused, prints this and opens it again.
fn open(
    rt: &(impl Print + AllocGlobal),
    geometry: &Geometry,
) -> Result<(Volume, Vec<Pass>, Vec<Broom>), Fail>
    requires { 0 < hosts_of geometry.now }
    ensures geometry { IfOk result (λ r. geometry_of (flash_of r.0) ≡ geometry.now) }
    ensures passes { IfOk result (λ r. length r.1.items ≡ hosts_of geometry.now) }
    ensures ready { IfOk result (λ r. All (IsReady (flash_of r.0)) r.1.items) }
    ensures brooms { IfOk result (λ r. All (IsBroomReady r.0) r.2.items) }
{
    println!(rt; "open")?;
    if let Ok(opened) = Volume::open(rt.alloc(), geometry) {
        return Ok(opened);
    }
    println!(rt; "refused")?;
    Ok(Volume::open(rt.alloc(), geometry)?)
}

// What a device holds. If the memory for it is refused, prints this and closes again what was returned.
fn close(rt: &(impl Abort + Print + AllocGlobal), volume: Volume, passes: Vec<Pass>) -> Closed
    requires some { 0 < length passes.items }
    requires passes { All (IsReady (flash_of volume)) passes.items }
{
    println!(rt; "close").expect(rt, "output");
    let (volume, passes) = match volume.close(rt.alloc(), passes) {
        Ok(closed) => return closed,
        Err(back) => back,
    };
    println!(rt; "refused").expect(rt, "output");
    match volume.close(rt.alloc(), passes) {
        Ok(closed) => closed,
        Err((_volume, _passes)) => panic!(rt; "memory"),
    }
}

// Retires all brooms.
fn retire_all(volume: &Volume, brooms: Vec<Broom>)
    requires { All (IsBroomReady volume.now) brooms.items }
{
    let mut brooms = brooms;
    while let Some(broom) = brooms.pop() {
        volume.retire_broom(broom);
    }
    brooms.destroy_empty();
}

#[test]
fn a_device_is_opened_and_closed_in_spite_of_a_refusal(rt: HostRuntime) -> Result<(), Fail> {
    let geometry = Geometry::new(1, 10, 2, WORDS, 3, 10, 3, 2)?;
    let (volume, mut passes, brooms) = open(&rt, &geometry)?;
    retire_all(&volume, brooms);
    let Some(pass) = passes.first_mut() else {
        unreachable!()
    };
    assert!(rt; volume.write(pass, 0, &page(1)).is_ok());
    assert!(rt; volume.write(pass, 2, &page(2)).is_ok());
    let closed = close(&rt, volume, passes);
    assert!(rt; hold(closed.sectors.as_slice(), &[1, 0, 2]));
    println!(rt; "closed")?;
    Ok(())
}
