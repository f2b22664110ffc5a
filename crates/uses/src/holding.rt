ghost use Rattle.std.specs.Prelude.{◌≡◌, ◌<◌, length};
ghost use Rattle.geometry.specs.{History.Begins, Sectors.Answers};
ghost use Rattle.geometry.specs.declared.answer.Got.TheVariants as got;
ghost use Rattle.flash_table.specs.Flash.{view_of};
ghost use Rattle.host.specs.Ready.{IsReady, seen_at};
ghost use Rattle.volume.specs.Volume.{IsBroomReady, flash_of, sectors, page_bytes};

use volume::{Broom, Got, Holding, NoGate, Pass, Volume};

/// Reads a sector's page twice under one hold. In between, the sector is overwritten, a block is collected, and
/// an erase of the held page's block is tried.
pub fn held_through_collection(
    volume: &Volume,
    reader: Pass,
    writer: &mut Pass,
    broom: &mut Broom,
    sector: u32,
    fresh: &[u8],
    before: &mut [u8],
    after: &mut [u8],
) -> (Pass, Got)
    requires reader { IsReady (flash_of volume.now) reader }
    requires writer { IsReady (flash_of volume.now) writer.old }
    requires broom { IsBroomReady volume.now broom.old }
    requires sector { sector < sectors volume.now }
    requires fresh { length fresh.now ≡ page_bytes volume.now }
    requires before { length before.old ≡ page_bytes volume.now }
    requires after { length after.old ≡ page_bytes volume.now }

    // What was read first is what the sector held at a point of the history that is not before anything the reader had seen.
    ensures later { Begins (view_of reader).seen (view_of result.0).seen }
    ensures found { Answers
        (seen_at (flash_of volume.now) result.0 sector) result.1 before.old before.new }

    // And what was read last is the same, whatever was written, drained and erased in between, here and by other threads.
    ensures same { result.1 ≡ got.Data → after.new ≡ before.new }
{
    let mut held = match volume.hold(reader, sector) {
        Holding::Empty(reader) => return (reader, Got::Empty),
        Holding::Held(held) => held,
    };
    volume.copy_into(&mut held, before);
    let _ = volume.write(writer, sector, fresh);
    volume.drain(broom, &mut NoGate);
    volume.erase(broom, held.block(), &mut NoGate);
    volume.copy_into(&mut held, after);
    (volume.release(held), Got::Data)
}
