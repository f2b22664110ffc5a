//! What a seat of the map knows. No value of it is made: it exists in proofs alone.
ghost use Rattle.std.specs.Prelude.{ℕ, Bool, List};
ghost use base.Fml.{ftrue};

use std::marker::Model;

/// What a seat knows of the history, whether it is the publisher's, how many words it has loaded, and how many pages a word can name.
#[derive(Drop)]
pub struct Sighting {
    /// The changes as of the seat's last step, the newest first: a sector, and the number of its new version or 0.
    pub ghost seen: { List (ℕ × ℕ) },
    /// What another seat had seen, of which this one was told.
    pub ghost told: { List (ℕ × ℕ) },
    pub ghost looks: { ℕ },
    pub ghost publishes: { Bool },
    pub ghost pages: { ℕ },
}

impl Model for Sighting {
    ghost also_owns = { λ _. ftrue };
}
