use atomic_table::Seat;
use flash_rule::View;

/// A block that a pass or a broom has open: the number of its pages written, in its generation.
#[derive(Clone, Copy)]
pub struct OpenBlock {
    pub block: u32,
    pub generation: u32,
    pub written: u32,
}

/// A host's right to use a device: each read, write and trim takes one. It has the block that the host writes into, and can be moved to another thread.
pub struct Pass {
    pub(crate) seat: Seat<(), View>,
    pub(crate) opened: Option<OpenBlock>,
    ghost bare: { seat.me.1 ≡ [] },
    ghost owns: { seat.me.0.owns ≡ owned_list opened },
}

/// A note from one pass or broom to another, which has to take it in.
pub struct Note {
    pub(crate) seat: Seat<(), View>,
    ghost bare: { seat.me.1 ≡ [] },
}

ghost use Rattle.std.specs.Prelude.{◌≡◌, []};
ghost use Rattle.flash_table.specs.Owning.{owned_list};

impl Pass {
    ghost use Rattle.flash_table.specs.Flash.{opened_of};

    /// The block that the pass writes into.
    pub fn opened(&self) -> Option<OpenBlock>
        ensures { result ≡ opened_of self.now }
    {
        self.opened
    }
}
