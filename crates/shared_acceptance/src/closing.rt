//! Closes a device, and examines its sectors.
ghost use Rattle.std.specs.Prelude.{◌<◌, All, length};
ghost use Rattle.host.specs.Ready.{IsReady};
ghost use Rattle.volume.specs.Volume.{flash_of};

use flash_table::Pass;
use std::process::Abort;
use volume::Volume;

/// Whether the sector has this value.
pub(crate) fn has(sectors: &[Option<Vec<u8>>], sector: usize, value: &[u8]) -> bool {
    match sectors.get(sector) {
        Some(Some(bytes)) => bytes.as_slice() == value,
        _ => false,
    }
}

/// The sectors of a device whose passes are retired.
pub(crate) fn close(
    rt: &(impl Abort + AllocGlobal),
    volume: Volume,
    passes: Vec<Pass>,
) -> Vec<Option<Vec<u8>>>
    requires some { 0 < length passes.items }
    requires ready { All (IsReady (flash_of volume)) passes.items }
{
    match volume.close(rt.alloc(), passes) {
        Ok(closed) => closed.sectors,
        Err((_volume, _passes)) => panic!(rt; "memory"),
    }
}
