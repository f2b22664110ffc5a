use crate::pass::OpenBlock;
use atomic_table::Seat;
use flash_rule::View;

/// A block that a broom drains or erases: the number of its pages written, in its generation.
#[derive(Clone, Copy)]
pub struct ReclaimedBlock {
    pub block: u32,
    pub generation: u32,
    pub written: u32,
}

/// What a broom does with a block that it has claimed or condemned.
#[derive(Clone, Copy)]
pub enum Reclaiming {
    Nothing,
    /// It copies the block's live pages elsewhere.
    Draining(ReclaimedBlock),
    /// It sets the block's words to all ones.
    Erasing(ReclaimedBlock),
}

/// The blocks that a broom owns.
#[derive(Clone, Copy)]
pub struct BroomBlocks {
    /// The block that live pages are copied to.
    pub destination: Option<OpenBlock>,
    /// The next destination.
    pub spare: Option<OpenBlock>,
    pub reclaiming: Reclaiming,
}

/// A broom's seat at the table, with the blocks that it owns. It can be moved to another thread.
pub struct BroomSeat {
    pub(crate) seat: Seat<(), View>,
    pub(crate) blocks: BroomBlocks,
    ghost bare: { seat.me.1 ≡ [] },
    ghost owns: { OwnsJust (blocks_list blocks) seat.me.0.owns } by { Prim.hlevel (props, AreApart-prop) },
}

ghost use Rattle.std.specs.Prelude.{◌≡◌, []};
ghost use Rattle.std.proofs.Props.{props};
ghost use Rattle.flash_table.specs.Owning.{AreApart-prop, OwnsJust, blocks_list};

impl BroomSeat {
    ghost use Rattle.std.specs.Prelude.{None};
    ghost use Rattle.flash_table.specs.declared.flash.Flash.{Flash};
    ghost use Rattle.flash_table.specs.Flash.{IsBroomOf, broom_view, own_blocks};

    /// The blocks that the broom owns.
    pub fn blocks(&self) -> BroomBlocks
        ensures { result ≡ own_blocks self.now }
    {
        self.blocks
    }

    /// Makes the spare the destination.
    pub fn use_spare(&mut self)
        requires { (own_blocks self.old).destination ≡ None }
        ensures blocks { own_blocks self.new
            ≡ record
            (own_blocks self.old) { destination = (own_blocks self.old).spare; spare = None } }
        ensures same { broom_view self.new ≡ broom_view self.old }
        ensures broom { (f : Flash) → IsBroomOf f self.old → IsBroomOf f self.new }
    {
        self.blocks = BroomBlocks {
            destination: self.blocks.spare,
            spare: None,
            reclaiming: self.blocks.reclaiming,
        };
    }
}
