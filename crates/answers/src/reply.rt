ghost use Rattle.std.specs.Prelude.{◌≡◌};
ghost use Rattle.answers.specs.Answers.{is_worn_reply, reply_of};

use geometry::Was;

/// The answer to a command. `Page` is the value that a read found.
#[derive(Clone, Copy, Debug, PartialEq, Eq)]
pub enum Reply {
    Empty,
    Written,
    /// A write found no page, since the device is worn out.
    Worn,
    /// A write found no free block in as many tries as it may make.
    Full,
    Met,
    Page,
}

impl Reply {
    /// The answer of a write or a trim that was done.
    pub fn of_was(was: Was) -> Reply
        ensures { result ≡ reply_of was }
    {
        match was {
            Was::Empty => Reply::Empty,
            Was::Written => Reply::Written,
        }
    }

    /// Whether a write was refused because the device is worn out.
    pub fn is_worn(self) -> bool
        ensures { result ≡ is_worn_reply self }
    {
        match self {
            Reply::Worn => true,
            _ => false,
        }
    }
}
