ghost use Rattle.std.specs.Prelude.{◌≡◌, ◌<◌, ◌≤◌, ◌^◌, length};
ghost use Rattle.durable.specs.Collecting.{AreInTwoBlocks, AreLiveCounts, ArePagesOn, CanCollect, HasCapacity, IsEnough};
ghost use Rattle.durable.specs.Next.{IsNextFor};

use crate::cleaning::Victim;
use crate::command::Command;
use crate::next_pages::NextPages;
use crate::owners::Owners;
use crate::ranking::Counts;
use packed_map::PackedMap;

/// What the layer knows of a flash: where each sector is, the pages to be programmed next, and the next version's number.
#[derive(Drop)]
pub struct Core {
    // How many blocks are in use, and how many are read.
    pub(crate) blocks: u32,
    pub(crate) read_blocks: u32,
    pub(crate) pages: u32,
    pub(crate) map: PackedMap,
    // How many live pages each block has.
    pub(crate) counts: Counts,
    // Which sector each page has.
    pub(crate) owners: Owners,
    // How many blocks were erased, modulo 2^32: the choice of a free block begins with another one each time.
    pub(crate) turn: u32,
    pub(crate) next_pages: NextPages,
    // The block that copies come from which a call doesn't need.
    pub(crate) victim: Victim,
    // The most commands that the call under way still needs, its program included.
    pub(crate) left: u64,
    pub(crate) next_number: u64,
    // The command that comes next, as far as it is known. Refused: it has to be chosen.
    pub(crate) chosen: Command,
    // How many losses the mount has told.
    pub(crate) losses: u64,
    pub ghost on_device: { ArePagesOn blocks pages next_pages },
    pub ghost apart: { AreInTwoBlocks next_pages },
    pub ghost enough: { IsEnough pages next_pages left },
    pub ghost all_read: { blocks ≤ read_blocks },
    pub ghost counts_sized: { length counts ≡ blocks },
    pub ghost counted: { AreLiveCounts counts map.items },
    pub ghost few_sectors: { length map.items < 2 ^ 32 },
    pub ghost has_capacity: { HasCapacity (length map.items) blocks pages },
    pub ghost can_collect: { CanCollect map.items blocks pages next_pages },
    pub ghost is_next: { ∥ IsNextFor blocks pages map.items next_pages left next_number chosen ∥₁ },
}
