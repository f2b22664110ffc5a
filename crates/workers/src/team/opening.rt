//! A new device for the threads of a run.
ghost use Rattle.std.specs.Prelude.{◌≡◌, ◌<◌, All, IfOk, length};
ghost use Rattle.std.specs.Arc.{arc_value};
ghost use Rattle.geometry.specs.Geometry.{hosts_of};
ghost use Rattle.workers.specs.Dealing.{AreNew};

use crate::team::leaving::give_up;
use crate::team::unseated::Unseated;
use geometry::Geometry;
use std::alloc::{AllocError, Global};
use std::sync::Arc;
use volume::Volume;

// A new device. `Err` is out of memory, and then its passes and brooms are retired.
pub(crate) fn open_shared(alloc: Global, geometry: &Geometry) -> Result<Unseated, AllocError>
    requires { 0 < hosts_of geometry.now }
    ensures { IfOk result
        (λ u. AreNew geometry.now (arc_value u.volume) u.passes.items u.brooms.items) }
{
    let (volume, passes, brooms) = Volume::open(alloc, geometry)?;
    match Arc::new(alloc, volume) {
        Ok(volume) => Ok(Unseated {
            volume,
            passes,
            brooms,
        }),
        Err(refused) => {
            give_up(&refused.value, passes, brooms);
            Err(AllocError)
        }
    }
}

// So many owners more of a device.
pub(crate) fn more_owners(
    alloc: Global,
    volume: &Arc<Volume, Global>,
    count: usize,
) -> Result<Vec<Arc<Volume, Global>>, AllocError>
    ensures count { IfOk result (λ owners. length owners.items ≡ count) }
    ensures same { IfOk result
        (λ owners. All (λ owner. arc_value owner ≡ arc_value volume.now) owners.items) }
{
    let mut owners = Vec::with_capacity(alloc, count)?;
    for _ in 0..count {
        owners.push_reserved(Arc::try_clone(volume)?);
    }
    Ok(owners)
}
