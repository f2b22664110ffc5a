ghost use Rattle.std.specs.Prelude.{◌≡◌, ◌≤◌, length};
ghost use Rattle.player.specs.Telling.{refusal_text};

/// Why a run refused writes.
#[derive(Clone, Copy, Debug, PartialEq, Eq)]
pub enum Refusal {
    /// By one thread: the device is worn out.
    Worn,
    /// By workers: a write found no block in as many tries as it may make.
    Full,
}

impl Refusal {
    /// The answer of a write that was refused.
    pub fn name(self) -> &'static str
        ensures name { result.now ≡ refusal_text self }
        ensures short { length result.now ≤ 4 }
    {
        match self {
            Refusal::Worn => "worn",
            Refusal::Full => "full",
        }
    }
}
