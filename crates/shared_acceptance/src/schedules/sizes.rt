//! A device with the most blocks and sectors.
use crate::closing::{close, has};
use crate::opening::last_broom;
use broom::Drain;
use flash_table::NoGate;
use geometry::{Geometry, Was};
use std::test::Fail;
use volume::Volume;

// The page of one word that is written.
const PAGE: [u8; 8] = [1, 0, 0, 0, 0, 0, 0, 0];

#[test]
fn the_largest_device_is_opened_and_closed(rt: HostRuntime) -> Result<(), Fail> {
    let geometry = Geometry::new(1, 4096, 512, 1, 1_048_576, 10, 1, 1)?;
    let (volume, mut passes, mut brooms) = Volume::open(rt.alloc(), &geometry)?;
    let Some(pass) = passes.first_mut() else {
        unreachable!()
    };
    let mut broom = last_broom(&volume, &mut brooms);
    brooms.destroy_empty();
    assert!(rt; volume.geometry().sectors() == 1_048_576);
    assert!(rt; volume.geometry().page_bytes() == 8);
    assert!(rt; volume.write(pass, 1_048_575, &PAGE) == Ok(Was::Empty));
    assert!(rt; volume.drain(&mut broom, &mut NoGate) == Drain::NothingToGain);
    volume.fold(&rt, broom);
    let sectors = close(&rt, volume, passes);
    assert!(rt; sectors.len() == 1_048_576);
    assert!(rt; sectors[0].is_none());
    assert!(rt; has(&sectors, 1_048_575, &PAGE));
    Ok(())
}
