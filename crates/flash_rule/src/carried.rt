//! What a note carries from one player to another. No value of it is made.
ghost use Rattle.std.specs.Prelude.{List};
ghost use base.Fml.{ftrue};
ghost use Rattle.geometry.specs.History.{Call};
ghost use Rattle.geometry.specs.declared.words.MapWord.{MapWord};
ghost use Rattle.flash_rule.specs.Codes.{calls_coded};
ghost use Rattle.flash_rule.specs.declared.facts.Name.{Name};
ghost use Rattle.flash_rule.specs.declared.facts.Cycle.{Cycle};

use std::marker::Model;

/// Copies of a player's lists.
#[derive(Drop)]
pub struct Carried {
    pub ghost of: { Name },
    pub ghost seen: { List Call } by { calls_coded },
    pub ghost programs: { List MapWord },
    pub ghost erases: { List Cycle },
}

impl Model for Carried {
    ghost also_owns = { λ _. ftrue };
}
