//! Reads beside the owner, and power cuts: what a read has returned is kept.
#![tactic(auto)]

mod laws;

ghost use Rattle.std.specs.Prelude.{◌≡◌, ◌≢◌, ◌<◌, ℕ, List, All, ◌∷◌, ◌++◌, None};
ghost use Rattle.geometry.specs.Sectors.{Sector};
ghost use Rattle.durable.specs.Device.{device_of};
ghost use Rattle.durable.specs.Flash.{Flash};
ghost use Rattle.durable.specs.Promise.{KeepsAcknowledged};
ghost use Rattle.durable.specs.Runs.{Event, Happens, Runs, acknowledged_in, begun_in};
ghost use Rattle.durable.specs.Updates.{Update, array_after, sole};
ghost use Rattle.durable.specs.declared.memory.Core.{Core as Layer};
ghost use Rattle.shared_nand.specs.Shown.{AreGivenBelow, HasPublished, KeepsBytes, ShowsArray, sector_shown};
ghost use Rattle.version_map.specs.History.{Continues, cleared_after};
ghost use Rattle.kept_reads.specs.Published.{Publishes};
ghost use Rattle.kept_reads.specs.Sessions.{Does, HasAllSeen, Reads, RunsBeside, SessionStep, changes_in, events_in, value_after};

/// After any run of commands with power cuts, each inside a command or between two, a mount reads the array after a list of begun updates that has every
/// acknowledged one and every change that a read has seen, in order. It computes nothing: its clauses are the theorem.
pub fn keeps_reads()
    ensures keeps { (steps : List SessionStep) (f : Flash) (layer : Layer) (made : List Update)
        → RunsBeside steps f layer made
        → (its : KeepsAcknowledged f (device_of layer).sectors
        (acknowledged_in (events_in steps)) (begun_in (events_in steps)))
        × HasAllSeen steps (changes_in its.updates) }

    // Nothing stops such a run: whatever an event leaves, a command that was cut has made its update or not.
    ensures goes_on { (steps : List SessionStep) (f t : Flash) (old new : Layer) (before : List Update) (event : Event)
        → RunsBeside steps f old before → Happens event f old t new
        → (made : List Update) × RunsBeside (Does event ∷ steps) t new made }
    ensures runs { (steps : List SessionStep) (f : Flash) (layer : Layer) (made : List Update)
        → RunsBeside steps f layer made → Runs (events_in steps) f layer }

    // The changes that updates are to readers give the array.
    ensures array { (updates : List Update) (s : ℕ)
        → value_after (changes_in updates) s ≡ array_after updates s }

    // So a mount reads what a read has answered, unless a newer change is of its sector.
    ensures again { (updates : List Update) (newer seen : List (ℕ × Sector)) (s : ℕ)
        → changes_in updates ≡ newer ++ seen → All (λ (change : ℕ × Sector). change.0 ≢ s) newer
        → array_after updates s ≡ value_after seen s }
{}

/// A read by the clauses of `shared_nand` is a step of such a run, if its owner publishes each update after it is made, in order. It computes nothing: its
/// clauses are the theorem.
pub fn reads_are_steps()
    // At an open, and after each write and trim that returns Ok, the owner has published what is made.
    ensures opens { (sectors : ℕ) (bytes : ℕ → List ℕ) (loaded : List (ℕ × ℕ)) (made : List Update)
        → ShowsArray sectors bytes loaded (array_after made)
        → Publishes sectors bytes loaded loaded made }
    ensures writes { (sectors : ℕ) (bytes : ℕ → List ℕ) (loaded before after : List (ℕ × ℕ))
        (made : List Update) (s : ℕ) (value : Sector)
        → Publishes sectors bytes loaded before made → HasPublished bytes before after s value
        → Publishes sectors bytes loaded after (record { extent = sole s; value = value } ∷ made) }
    ensures trims { (sectors : ℕ) (bytes : ℕ → List ℕ) (loaded before : List (ℕ × ℕ))
        (made : List Update) (first count : ℕ)
        → Publishes sectors bytes loaded before made
        → Publishes sectors bytes loaded (cleared_after before first count)
        (record { extent = record { first = first; count = count }; value = None } ∷ made) }
    ensures stays { (sectors next : ℕ) (bytes others : ℕ → List ℕ) (loaded history : List (ℕ × ℕ))
        (made : List Update)
        → Publishes sectors bytes loaded history made
        → AreGivenBelow next history → KeepsBytes next bytes others
        → Publishes sectors others loaded history made }

    // What a sector is shown to hold is what it holds after a beginning of what is made, also while newer updates are made and not published.
    ensures reads { (steps : List SessionStep) (f : Flash) (layer : Layer) (newer made : List Update)
        (sectors : ℕ) (bytes : ℕ → List ℕ) (loaded history seen : List (ℕ × ℕ)) (s : ℕ)
        → RunsBeside steps f layer (newer ++ made) → Publishes sectors bytes loaded history made
        → Continues history seen → Continues seen loaded → s < sectors
        → (changes : List (ℕ × Sector))
        × RunsBeside (Reads changes s (sector_shown bytes seen s) ∷ steps) f layer (newer ++ made) }

    // Nothing is asked of what else is made if all that was seen shows the array after it.
    ensures at_rest { (steps : List SessionStep) (f : Flash) (layer : Layer) (newer made : List Update)
        (sectors : ℕ) (bytes : ℕ → List ℕ) (seen : List (ℕ × ℕ)) (s : ℕ)
        → RunsBeside steps f layer (newer ++ made) → ShowsArray sectors bytes seen (array_after made) → s < sectors
        → RunsBeside (Reads (changes_in made) s (sector_shown bytes seen s) ∷ steps) f layer (newer ++ made) }
{}
