//! What a seat of the table knows. No value of it is made: it exists in proofs alone.
ghost use Rattle.std.specs.Prelude.{ℕ, Bool, List, Option};
ghost use base.Fml.{ftrue};
ghost use Rattle.geometry.specs.History.{Call};
ghost use Rattle.geometry.specs.Limits.{Numbers};
ghost use Rattle.geometry.specs.declared.words.MapWord.{MapWord};
ghost use Rattle.flash_rule.specs.Codes.{calls_coded, numbers_coded};
ghost use Rattle.flash_rule.specs.declared.facts.Name.{Name};
ghost use Rattle.flash_rule.specs.declared.facts.Role.{Role};
ghost use Rattle.flash_rule.specs.declared.facts.Owned.{Owned};
ghost use Rattle.flash_rule.specs.declared.facts.Work.{Work};
ghost use Rattle.flash_rule.specs.declared.facts.Pin.{Pin};
ghost use Rattle.flash_rule.specs.declared.facts.Source.{Source};
ghost use Rattle.flash_rule.specs.declared.facts.Inspection.{Inspection};
ghost use Rattle.flash_rule.specs.declared.facts.Cycle.{Cycle};
ghost use Rattle.flash_rule.specs.declared.carried.Carried.{Carried};

use std::marker::Model;

/// What a seat knows. The fields that its role doesn't use are empty.
#[derive(Drop)]
pub struct View {
    pub ghost role: { Role },
    /// The table's numbers.
    pub ghost numbers: { Numbers } by { numbers_coded },
    /// The history as of the last look or place, and the seat's own calls in it.
    pub ghost seen: { List Call } by { calls_coded },
    pub ghost mine: { List Call } by { calls_coded },
    /// How many looks were made.
    pub ghost looks: { ℕ },
    pub ghost pin: { Pin },
    /// For each block an age that it has reached.
    pub ghost known: { List ℕ },
    /// How many takes succeeded, and the block of each take, or of each load before one, that found it taken.
    pub ghost taken: { ℕ },
    pub ghost denied: { List ℕ },
    pub ghost owns: { List Owned },
    pub ghost work: { Option Work },
    /// The pages that were programmed and the blocks that were erased, in order.
    pub ghost programs: { List MapWord },
    pub ghost erases: { List Cycle },
    /// How many pages of its victim a broom knows to be dead, and the next one.
    pub ghost cleared: { ℕ },
    pub ghost source: { Option Source },
    /// The block that a broom has inspected last.
    pub ghost inspection: { Option Inspection },
    /// How many words of its erasing block a broom has set to all ones.
    pub ghost wiped: { ℕ },
    /// The block and word of each state step, and the sector and word of each look of a broom.
    pub ghost loaded: { List (ℕ × ℕ) },
    pub ghost named: { List (ℕ × ℕ) },
    /// The block of each claim that failed.
    pub ghost lost: { List ℕ },
    /// How many exchanges of a map word succeeded.
    pub ghost moves: { ℕ },
    /// The victims that were drained.
    pub ghost drains: { List Cycle },
    /// The blocks that were given up, each in its last state.
    pub ghost ceded: { List Owned },
    /// The blocks that were found with readers, and those that were found not drained.
    pub ghost busy: { List ℕ },
    pub ghost stale: { List ℕ },
    /// How many passes and how many brooms the dealer has dealt.
    pub ghost passes: { ℕ },
    pub ghost brooms: { ℕ },
    /// Whether the seat has its own badge.
    pub ghost whole: { Bool },
    /// The seat whose badge this seat has in addition to its own.
    pub ghost guest: { Option Name },
    /// The copies that were taken in last, and those before them.
    pub ghost copy: { Option Carried },
    pub ghost older: { Option Carried },
}

impl Model for View {
    ghost also_owns = { λ _. ftrue };
}
