//! Opens a device for one thread, writes a sector and reads it.
#![tactic(auto)]

use ftl_one::{DeviceNumbers, Geometry, OneFtl};

fn main(rt: HostRuntime) -> anyhow::Result<()> {
    let geometry = Geometry::of(DeviceNumbers {
        luns: 1,
        blocks: 64,
        pages: 64,
        words: 1,
        sectors: 3072,
        endurance: 1000,
        hosts: 0,
        brooms: 0,
    })?;
    let mut ftl = OneFtl::new(rt.alloc(), &geometry)?;
    let was = ftl.write(7, b"A sector")?;
    let mut page = [0; 8];
    ftl.read(7, &mut page);
    println!(rt; "sector 7 was {was:?} and holds {page:?}")?;
    Ok(())
}
