ghost use Rattle.std.specs.Prelude.{◌≡◌, ◌==◌, length};
ghost use Rattle.geometry.specs.Geometry.{lun_of};
ghost use Rattle.die.specs.Die.{geometry_of, page_bytes, block_of, copybacks_of, ChangesBlock, IsProgrammed, IsNext};
ghost use Rattle.die.specs.Pages.{page_at, programmed};
ghost use Rattle.ftl_one.specs.Collections.{copybacks_after};

use die::Die;
use geometry::PageAddr;

/// Copies a sector's page: by copyback on its own LUN, and otherwise by a read and a program through `page`.
pub(crate) fn copy_page(
    die: &mut Die,
    page: &mut [u8],
    sector: u32,
    from: PageAddr,
    to: PageAddr,
    one_lun: bool,
)
    requires source { IsProgrammed die.old from }
    requires next { IsNext die.old to }
    requires sector { (page_at (page_bytes die.old)
        (block_of die.old from.block) from.page).stamp ≡ sector }
    requires room { length page.old ≡ page_bytes die.old }
    requires one_lun { one_lun
        ≡ (lun_of (geometry_of die.old) from.block == lun_of (geometry_of die.old) to.block) }
    ensures changes { ChangesBlock die.old die.new to.block
        (programmed (block_of die.old to.block)
        (page_at (page_bytes die.old) (block_of die.old from.block) from.page)) }
    ensures copybacks { copybacks_of die.new ≡ copybacks_after die.old from to }
{
    if one_lun {
        die.copyback(from, to);
    } else {
        die.read(from, page);
        die.program(to, page, sector);
    }
}
