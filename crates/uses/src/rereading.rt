ghost use Rattle.std.specs.Prelude.{◌≡◌, ℕ, ◌<◌, IfOk, length};
ghost use Rattle.flash_table.specs.{Flash.view_of, Steps.HasNumber};
ghost use Rattle.host.specs.Ready.{IsReady};
ghost use Rattle.uses.specs.Sharing.{IsReadBehind};
ghost use Rattle.volume.specs.Volume.{flash_of, sectors, page_bytes};

use volume::{Got, NoBlock, Pass, Volume};

/// Writes a sector and reads it by the same pass. Other threads may write the sector in between.
pub fn write_and_read(
    volume: &Volume,
    pass: &mut Pass,
    sector: u32,
    value: &[u8],
    out: &mut [u8],
) -> Result<Got, NoBlock>
    requires pass { IsReady (flash_of volume.now) pass.old }
    requires sector { sector < sectors volume.now }
    requires value { length value.now ≡ page_bytes volume.now }
    requires out { length out.old ≡ page_bytes volume.now }

    // What is read is what the sector held when the value was written, or later.
    ensures behind { IfOk result
        (λ got. (t : ℕ) → HasNumber t pass.old
        → IsReadBehind (sectors volume.now) t sector value.now
        (view_of pass.old) got out.old out.new) }
    ensures pass { IsReady (flash_of volume.now) pass.new }
{
    volume.write(pass, sector, value)?;
    Ok(volume.read(pass, sector, out).got)
}
