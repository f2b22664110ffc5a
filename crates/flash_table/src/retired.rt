//! What is left of a pass that makes no more steps.
use atomic_table::Seat;
use flash_rule::View;

/// The seat of a pass that makes no more steps. It may be dropped.
#[derive(Drop)]
pub struct Retired {
    seat: Seat<(), View>,
    ghost bare: { seat.me.1 ≡ [] },
}

ghost use Rattle.std.specs.Prelude.{◌≡◌, [], true};

use crate::pass::Pass;

impl Pass {
    ghost use Rattle.std.specs.Prelude.{None};
    ghost use Rattle.flash_rule.specs.Plays.{is_unpinned};
    ghost use Rattle.flash_table.specs.Flash.{view_of, opened_of, retired_view};

    /// Gives the pass up. It has no open block and nothing pinned, so no block is kept from the others.
    pub fn leave(self) -> Retired
        requires closed { opened_of self ≡ None }
        requires unpinned { is_unpinned (view_of self).pin ≡ true }
        ensures { retired_view result ≡ view_of self }
    {
        let Pass { seat, opened: _ } = self;
        Retired { seat }
    }
}
