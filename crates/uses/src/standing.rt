ghost use Rattle.std.specs.Prelude.{◌≡◌, ◌<◌, ℕ, List, length};
ghost use Rattle.geometry.specs.{History.Begins};
ghost use Rattle.flash_rule.specs.Plays.{Disjoint};
ghost use Rattle.flash_table.specs.Flash.{view_of};
ghost use Rattle.broom.specs.Ready.{view_of_broom};
ghost use Rattle.host.specs.{Holding.Holds, Holding.page_of, Holding.pass_of, Ready.IsReady};
ghost use Rattle.uses.specs.Sharing.{HasNoErase};
ghost use Rattle.volume.specs.Volume.{IsBroomReady, flash_of, sectors, page_bytes};

use volume::{Broom, Held, NoGate, Pass, Volume};

/// A broom collects a block and tries to erase the held one; then the hold and the broom meet, by `stand`.
pub fn held_beside_a_broom(volume: &Volume, held: Held, broom: &mut Broom) -> Held
    requires held { (value : List ℕ) × Holds (flash_of volume.now) held value }
    requires broom { IsBroomReady volume.now broom.old }

    // Whatever the broom has ever erased, it was not the held block in the generation that is held.
    ensures spared { HasNoErase (view_of_broom broom.new).erases (page_of held) }

    // The same page is held, with the same value.
    ensures page { page_of result ≡ page_of held }
    ensures holds { (value : List ℕ) → Holds (flash_of volume.now) held value
        → Holds (flash_of volume.now) result value }
    ensures broom { IsBroomReady volume.now broom.new }
{
    volume.drain(broom, &mut NoGate);
    volume.erase(broom, held.block(), &mut NoGate);
    volume.stand(held, broom)
}

/// Another host writes while a page is held; then the two meet, by `meet_holding`, and the page is still held.
pub fn held_beside_a_writer(
    volume: &Volume,
    held: Held,
    writer: &mut Pass,
    sector: u32,
    fresh: &[u8],
) -> Held
    requires held { (value : List ℕ) × Holds (flash_of volume.now) held value }
    requires writer { IsReady (flash_of volume.now) writer.old }
    requires sector { sector < sectors volume.now }
    requires fresh { length fresh.now ≡ page_bytes volume.now }

    // Whatever the writer has ever programmed, it was no page that the holder has programmed in the same generation of its block.
    ensures apart { Disjoint (view_of (pass_of result)).programs (view_of writer.new).programs }

    // The writer has seen all that the holder had seen.
    ensures brought { Begins (view_of (pass_of held)).seen (view_of writer.new).seen }

    // The same page is held, with the same value.
    ensures page { page_of result ≡ page_of held }
    ensures holds { (value : List ℕ) → Holds (flash_of volume.now) held value
        → Holds (flash_of volume.now) result value }
    ensures writer { IsReady (flash_of volume.now) writer.new }
{
    let _ = volume.write(writer, sector, fresh);
    volume.meet_holding(held, writer)
}
