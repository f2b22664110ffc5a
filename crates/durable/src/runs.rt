ghost use Rattle.std.specs.Prelude.{◌≡◌, ◌<◌, ◌≤◌, ◌+◌, ℕ, List, [], ◌∷◌};
ghost use Rattle.durable.specs.Flash.{Flash, IsErased, Recovers};
ghost use Rattle.durable.specs.Device.{Device, device_of, losses_of, NamesOn};
ghost use Rattle.durable.specs.Commands.{CutLeaves};
ghost use Rattle.durable.specs.Calls.{IsSafe, SurvivesCut};
ghost use Rattle.durable.specs.Failures.{Changes, HasVersionlessBlock, HoldsNoVersion, IsRenumbered, IsSameFlashOf, IsSwapped};
ghost use Rattle.durable.specs.Whole.{IsUnharmed, KeepsWhole, RunsWhole};
ghost use Rattle.geometry.specs.Sectors.{Sector};
ghost use Rattle.durable.specs.Updates.{AreMade, Update, array_after};
ghost use Rattle.durable.specs.declared.command.Command.{Command as Next};
ghost use Rattle.durable.specs.declared.extent.Extent.{Extent};
ghost use Rattle.durable.specs.declared.memory.Core.{Core as Layer};
ghost use Rattle.durable.specs.Promise.{KeepsAcknowledged, IsReadable, IsRecoverable, IsConsistent};
ghost use Rattle.durable.specs.Runs.{Event, Runs, RunsOnReserve, acknowledged_in, begun_in, outcomes_in, failures_in};

/// After any run of commands with any number of power cuts, each inside a command or between two, and with any number of commands that fail, a mount
/// reads every acknowledged update.
/// It computes nothing: its clauses are the theorem.
pub fn keeps_acknowledged()
    ensures new { (f : Flash) (device : Device) → IsErased f
        → 0 < device.blocks → IsRecoverable f device [] [] }
    ensures keeps { (events : List Event) (f : Flash) (layer : Layer) → Runs events f layer
        → KeepsAcknowledged f (device_of layer).sectors (acknowledged_in events) (begun_in events) }
    ensures consistent { (events : List Event) (f : Flash) (layer : Layer) → Runs events f layer
        → IsConsistent f layer (acknowledged_in events) (begun_in events) }

    // Told call by call: each acknowledged call has made its update, each other one has made it or not, and nothing else has.
    ensures each { (events : List Event) (f : Flash) (layer : Layer) → Runs events f layer
        → (updates : List Update) × AreMade (outcomes_in events) updates
        × Recovers f (device_of layer).sectors (array_after updates) }
{}

/// What a command that fails leaves can be mounted, if the blocks are numbered so that one without versions comes in use: one in reserve, since no
/// command changes a block that isn't in use. It computes nothing: its clauses are the theorem.
pub fn survives_failures()
    ensures untouched { (f t : Flash) (device : Device) (command : Next) (extent : Extent) (value : Sector) → NamesOn device command
        → CutLeaves command extent value f t
        → (b p : ℕ) → device.blocks ≤ b → t b p ≡ f b p }
    ensures renumbered { (f t : Flash) (old new : Device) (acked begun : List Update)
        → IsReadable f old acked begun
        → IsRenumbered f t old.read_blocks → IsSameFlashOf old new → IsReadable t new acked begun }
    ensures recoverable { (f : Flash) (device : Device) (acked begun : List Update)
        → IsReadable f device acked begun → HasVersionlessBlock f device
        → IsRecoverable f device acked begun }
{}

/// A device with a reserve of `spare` blocks survives as many failures: in any run with fewer, a mount can be made after one more, and reads every
/// acknowledged update. The failed block changes its number with the next of the reserve. It computes nothing: its clauses are the theorem.
pub fn survives_as_many_failures_as_spares()
    ensures run { (spare : ℕ) (events : List Event) (f : Flash) (layer : Layer)
        → RunsOnReserve events f layer
        → (device_of layer).read_blocks ≡ (device_of layer).blocks + spare
        → failures_in events ≤ spare → Runs events f layer }
    ensures mounts { (spare : ℕ) (events : List Event) (f left t : Flash) (layer : Layer) (update : Update) (command : Next) (b : ℕ)
        → RunsOnReserve events f layer
        → (device_of layer).read_blocks ≡ (device_of layer).blocks + spare
        → failures_in events < spare
        → IsSafe layer command → SurvivesCut layer update.extent command
        → CutLeaves command update.extent update.value f left → Changes command b
        → IsSwapped left t b ((device_of layer).blocks + failures_in events)
        → IsRecoverable t (device_of layer) (acknowledged_in events) (update ∷ begun_in events) }
    ensures untouched { (events : List Event) (f : Flash) (layer : Layer) (spare c : ℕ)
        → RunsOnReserve events f layer
        → (device_of layer).read_blocks ≡ (device_of layer).blocks + spare
        → failures_in events ≤ spare
        → (device_of layer).blocks + failures_in events ≤ c → HoldsNoVersion f c }
{}

/// No loss is told where no page was lost: in any run of commands with any number of power cuts, and of commands that fail after which a block without
/// versions comes in use, each mount tells none. It computes nothing: its clauses are the theorem.
pub fn tells_no_false_loss()
    ensures new { (f : Flash) (device : Device) → IsErased f
        → 0 < device.blocks → IsUnharmed f device }
    ensures runs { (events : List Event) (f : Flash) (layer : Layer)
        → RunsWhole events f layer → Runs events f layer }
    ensures whole { (events : List Event) (f : Flash) (layer : Layer)
        → RunsWhole events f layer → KeepsWhole f layer × (losses_of layer ≡ 0) }
{}
