//! What a pass of a queue knows. No value of it is made: it exists in proofs alone.
ghost use Rattle.std.specs.Prelude.{ℕ, List};
ghost use base.Fml.{ftrue};
ghost use Rattle.erase_queue.specs.declared.sight.Role.{Role};

use std::marker::Model;

/// What a pass is for.
pub enum Role {
    /// It sets the limit of the numbers.
    Counter,
    /// It deals the passes.
    Dealer,
    /// It puts and takes numbers.
    User,
    /// It makes no more steps.
    Gone,
}

/// What a pass knows.
#[derive(Drop)]
pub struct Sight {
    pub ghost role: { Role },
    /// The limit of the numbers of its queue.
    pub ghost limit: { ℕ },
    /// The numbers that were put, as far as it has seen.
    pub ghost puts: { List ℕ },
    /// How many of them it knows were taken.
    pub ghost takes: { ℕ },
    /// The indices of its own puts in the list of all puts, and of its own takes in the list of all takes.
    pub ghost own_puts: { List ℕ },
    pub ghost own_takes: { List ℕ },
}

impl Model for Sight {
    ghost also_owns = { λ _. ftrue };
}
