//! Laws of how the commands of a trace are kept. Each function has no code: its clauses say where a definition holds and where it doesn't, and what it
//! is on small values.
ghost use Rattle.std.specs.Prelude.{◌≡◌, ℕ, ◌^◌, ◌<◌, List, [], ◌∷◌, All, codes, length};
ghost use Rattle.trace.specs.{Commands.commands_left, Stored.line_of_read, Stored.line_of_write, Stored.placed, declared.commands.Command.Command};
ghost use Rattle.trace.specs.{Stored.IsKept, Stored.IsWhole, Stored.command_at, Stored.stored_in, Stored.widened, declared.commands.CommandIter.CommandIter};
ghost use Rattle.trace.specs.declared.stored.{AllStored.AllStored, Near.Near, Stored.Stored};
ghost use Rattle.trace.specs.declared.commands.Op.TheVariants as op;

/// Which commands an iterator has left, and in which order commands are kept.
pub fn commands_in_order()
    ensures all { (it : CommandIter) (a b : Command)
        → it.commands.now ≡ a ∷ b ∷ [] → it.next ≡ 0 → commands_left it ≡ a ∷ b ∷ [] }
    ensures last { (it : CommandIter) (a b : Command)
        → it.commands.now ≡ a ∷ b ∷ [] → it.next ≡ 1 → commands_left it ≡ b ∷ [] }
    ensures none { (it : CommandIter) (a b : Command)
        → it.commands.now ≡ a ∷ b ∷ [] → it.next ≡ 2 → commands_left it ≡ [] }
    ensures order { (all : AllStored) (a b : Near) (c d : Stored)
        → all.near.items ≡ a ∷ b ∷ [] → all.far.items ≡ c ∷ d ∷ []
        → stored_in all ≡ widened a ∷ widened b ∷ c ∷ d ∷ [] }
    ensures place { (a : Near) → a.start ≡ 4294967295 → (widened a).start ≡ 4294967295 }
    ensures line { (a : Near) → (widened a).brief ≡ a.brief }
{}

/// What command a line is, by the place of its digits in the text or after its end.
pub fn commands_at_places()
    ensures write { command_at (codes ",0a\n") [] 2 (placed line_of_write 1)
        ≡ record { worker = 3; op = op.Write; sector = 65541; page = 10 ∷ 0 ∷ [] } }
    ensures later { command_at (codes ",0a0b\n") [] 1 (placed line_of_write 3)
        ≡ record { worker = 3; op = op.Write; sector = 65541; page = 11 ∷ [] } }
    ensures odd { command_at (codes "\n") (codes "0b0a") 1 (placed line_of_write 3)
        ≡ record { worker = 3; op = op.Write; sector = 65541; page = 10 ∷ [] } }
    ensures read { command_at (codes ",0a\n") [] 2 (placed line_of_read 1)
        ≡ record { worker = 4; op = op.Read; sector = 6; page = [] } }
{}

/// Which commands can be kept: the digits of each are in the text or all after its end, and write no more than its page.
pub fn commands_that_are_kept()
    ensures none { (text odd : List ℕ) (size : ℕ) → IsWhole text odd size [] }
    ensures in_text { IsWhole (codes "0a") [] 1 (placed line_of_write 0 ∷ []) }
    ensures after_text { IsWhole [] (codes "0a") 1 (placed line_of_write 0 ∷ []) }
    ensures few { (text odd : List ℕ) (size : ℕ) (all : List Stored)
        → All (IsKept text odd size) all → length all < 2 ^ 63 → IsWhole text odd size all }
    ensures many { (text odd : List ℕ) (size : ℕ) (all : List Stored)
        → length all ≡ 2 ^ 63 → ¬ IsWhole text odd size all }
    ensures past_end { ¬ IsWhole (codes "0a") [] 1 (placed line_of_write 1 ∷ []) }
    ensures across { ¬ IsWhole (codes "0") (codes "a") 1 (placed line_of_write 0 ∷ []) }
    ensures no_digit { ¬ IsWhole (codes "0g") [] 1 (placed line_of_write 0 ∷ []) }
    ensures too_long { ¬ IsWhole (codes "0a") [] 0 (placed line_of_write 0 ∷ []) }
    ensures second { ¬ IsWhole (codes "0a") [] 1
        (placed line_of_write 0 ∷ placed line_of_write 1 ∷ []) }
{}
