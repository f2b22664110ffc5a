ghost use Rattle.std.specs.Prelude.{◌≡◌, ◌<◌, OnErr, OnOk, length};
ghost use Rattle.geometry.specs.Geometry.{hosts_of, page_bytes_of, sectors_of};

use ftl_one::{Geometry, OneFtl, WornOut};
use std::alloc::{AllocError, Global};
use thiserror::Error;

/// Why a value was not stored.
#[derive(Clone, Copy, Debug, PartialEq, Eq, Error)]
pub enum NotStored {
    #[error("out of memory")]
    Memory(#[from] AllocError),
    #[error(transparent)]
    WornOut(#[from] WornOut),
}

/// Writes a sector of a new device for one thread, and reads it.
pub fn store_and_read(
    alloc: Global,
    geometry: &Geometry,
    sector: u32,
    bytes: &[u8],
    out: &mut [u8],
) -> Result<(), NotStored>
    requires one_thread { hosts_of geometry.now ≡ 0 }
    requires sector { sector < sectors_of geometry.now }
    requires bytes { length bytes.now ≡ page_bytes_of geometry.now }
    requires out { length out.old ≡ page_bytes_of geometry.now }
    ensures value { OnOk result (out.new ≡ bytes.now) }
    ensures unread { OnErr result (out.new ≡ out.old) }
{
    let mut ftl = OneFtl::new(alloc, geometry)?;
    ftl.write(sector, bytes)?;
    ftl.read(sector, out);
    Ok(())
}
