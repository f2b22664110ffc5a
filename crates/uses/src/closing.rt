ghost use Rattle.std.specs.Prelude.{◌≡◌, ℕ, ◌∷◌, [], All, Some, IfOk, IfErr, length, slice_get};
ghost use Rattle.flash_table.specs.{Flash.device, Flash.first_view, Flash.view_of, declared.pass.Pass.Pass};
ghost use Rattle.host.specs.Ready.{IsReady};
ghost use Rattle.volume.specs.{Closing.sectors_left, Volume.flash_of, Volume.sectors, Volume.page_bytes, Volume.hosts};

use std::alloc::Global;
use volume::{Closed, Pass, Volume};

/// Two passes of a new device write a sector each, and the device is closed. It ends with both values, whichever write is first in the history. If
/// no block is free or memory runs out, the device and its passes are returned.
pub fn two_writers(
    alloc: Global,
    volume: Volume,
    passes: Vec<Pass>,
    first: &[u8],
    second: &[u8],
) -> Result<Closed, (Volume, Vec<Pass>)>
    requires hosts { hosts volume ≡ 2 }
    requires sectors { sectors volume ≡ 2 }
    requires count { length passes.items ≡ 2 }
    requires new { (t : ℕ) (p : Pass) → slice_get passes.items t ≡ Some p
        → (view_of p ≡ first_view (device (flash_of volume)) t)
        × IsReady (flash_of volume) p }
    requires first { length first.now ≡ page_bytes volume }
    requires second { length second.now ≡ page_bytes volume }
    ensures both { IfOk result
        (λ closed. sectors_left closed ≡ Some first.now ∷ Some second.now ∷ []) }
    ensures handed_back { IfErr result (λ back. All (IsReady (flash_of back.0)) back.1.items) }
{
    let mut passes = passes;
    let one = volume.write(&mut passes[0], 0, first);
    let two = volume.write(&mut passes[1], 1, second);
    if one.is_err() || two.is_err() {
        return Err((volume, passes));
    }
    volume.close(alloc, passes)
}
