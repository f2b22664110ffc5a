//! What is left of a broom that makes no more steps.
use atomic_table::Seat;
use flash_rule::View;

/// The seat of a broom that makes no more steps. It may be dropped.
#[derive(Drop)]
pub struct RetiredBroom {
    seat: Seat<(), View>,
    ghost bare: { seat.me.1 ≡ [] },
}

ghost use Rattle.std.specs.Prelude.{◌≡◌, []};

use crate::broom_seat::BroomSeat;

impl BroomSeat {
    ghost use Rattle.std.specs.Prelude.{None};
    ghost use Rattle.flash_table.specs.Flash.{broom_view, own_blocks, retired_broom_view};
    ghost use Rattle.flash_table.specs.declared.broom_seat.Reclaiming.TheVariants as reclaiming;

    /// Gives the broom up. It owns no block, so none is lost to the others.
    pub fn leave(self) -> RetiredBroom
        requires destination { (own_blocks self).destination ≡ None }
        requires spare { (own_blocks self).spare ≡ None }
        requires reclaiming { (own_blocks self).reclaiming ≡ reclaiming.Nothing }
        ensures same { retired_broom_view result ≡ broom_view self }
        ensures nothing { (retired_broom_view result).owns ≡ [] }
    {
        let BroomSeat { seat, blocks: _ } = self;
        RetiredBroom { seat }
    }
}
