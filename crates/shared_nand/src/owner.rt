ghost use Rattle.std.specs.Prelude.{◌≡◌};
ghost use Rattle.std.proofs.Props.{props};
ghost use Rattle.version_map.specs.Map.{history_published};
ghost use Rattle.shared_nand.specs.Shown.{AreGivenBelow};

use crate::layer::Layer;
use version_map::Publisher;

/// The right to change a device: the layer, and the right to change the map that its readers look at. It may lie under a lock.
#[derive(Drop)]
pub struct Owner<L: Layer> {
    pub(crate) layer: L,
    pub(crate) publisher: Publisher,
    ghost given: { AreGivenBelow (L.next_number layer) (history_published publisher) } by { Prim.hlevel props },
}
