//! Buffered writes: what a layer that survives power cuts keeps on flash that forgets what it was given since its last sync.
#![tactic(auto)]

mod laws;

ghost use Rattle.std.specs.Prelude.{◌≡◌, ℕ, Bool, List, ◌∷◌, ◌++◌, drop};
ghost use Rattle.durable.specs.Device.{device_of};
ghost use Rattle.durable.specs.Flash.{Recovers};
ghost use Rattle.durable.specs.Promise.{IsRecoverable};
ghost use Rattle.durable.specs.Runs.{Runs, acknowledged_in, begun_in, outcomes_in};
ghost use Rattle.durable.specs.Updates.{AreMade, Update, array_after};
ghost use Rattle.buffered.specs.Buffered.{LiesBack, Moment, RunsThrough, Step, Syncs, kept_in};

/// Where a power cut undoes a part of what was done since the last sync, an open reads the array after a beginning of the calls, which has every call
/// from before that sync. It computes nothing: its clauses are the theorem.
pub fn keeps_flushed()
    // What the flash holds at each moment that a cut may go back to is what a run on flash that forgets nothing leaves.
    ensures runs { (steps : List Step) (moments : List Moment) (was : Moment) (undone : ℕ)
        → RunsThrough steps moments → LiesBack undone moments was
        → Runs (drop undone (kept_in steps)) was.flash was.layer }
    ensures mounts { (steps : List Step) (moments : List Moment) (was : Moment) (undone : ℕ)
        → RunsThrough steps moments → LiesBack undone moments was
        → IsRecoverable was.flash (device_of was.layer)
        (acknowledged_in (drop undone (kept_in steps)))
        (begun_in (drop undone (kept_in steps))) }

    // Of the calls the last ones may be undone, none of them from before the sync. Each of the others that was acknowledged has been made.
    ensures flushed { (later steps : List Step) (moments : List Moment) (was : Moment) (undone : ℕ)
        → RunsThrough (later ++ Syncs ∷ steps) moments → LiesBack undone moments was
        → (lost kept : List (Update × Bool)) × (updates : List Update)
        × (outcomes_in (kept_in (later ++ Syncs ∷ steps))
        ≡ lost ++ kept ++ outcomes_in (kept_in steps))
        × AreMade (kept ++ outcomes_in (kept_in steps)) updates
        × Recovers was.flash (device_of was.layer).sectors (array_after updates) }
{}
