ghost use Rattle.std.specs.Prelude.{◌≡◌, ℕ, All, List, [], ◌∷◌};
ghost use Rattle.rounds.specs.Merging.{AreDisjointCommands, IsDisjointTrace};
ghost use Rattle.trace.specs.declared.commands.Command.{Command};
ghost use Rattle.trace.specs.declared.commands.Op.TheVariants as op;
ghost use Rattle.uses.specs.Sharing.{read_by, trim_by};

/// Which sectors the lines of a round may share, for programs that make traces: all workers may read a sector that is only read, and no other
/// worker may name a sector that one of them changes.
pub fn reads_may_be_shared()
    ensures round { (round : List Command)
        → All (λ c. c.op ≡ op.Read) round → AreDisjointCommands round }
    ensures shared { (first second sector : ℕ)
        → IsDisjointTrace (read_by first sector ∷ read_by second sector ∷ []) }
    ensures changed { (first second sector : ℕ)
        → IsDisjointTrace (trim_by first sector ∷ read_by second sector ∷ []) → first ≡ second }
{}
