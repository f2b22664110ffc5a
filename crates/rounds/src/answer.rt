ghost use Rattle.std.specs.Prelude.{◌≡◌};
ghost use Rattle.rounds.specs.Lines.{kind_of};

use geometry::Was;

/// The kind of a line's answer. `Page`: a read found the value in the answer's page; `Met`: a round has ended; `Full`: a write found no block.
#[derive(Clone, Copy, Debug, PartialEq, Eq)]
pub enum Kind {
    Empty,
    Written,
    Page,
    Met,
    Full,
}

impl Kind {
    /// The answer to a write or a trim that was done.
    pub fn of_was(was: Was) -> Kind
        ensures { result ≡ kind_of was }
    {
        match was {
            Was::Empty => Kind::Empty,
            Was::Written => Kind::Written,
        }
    }
}

/// A line's answer. The page is a buffer for what a read finds.
#[derive(Drop)]
pub struct Answer {
    pub kind: Kind,
    pub page: Vec<u8>,
}
