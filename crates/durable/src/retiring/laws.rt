//! Laws of the definitions of a block that leaves the use: each function has no code, and its clauses say where a definition holds and where not.
ghost use Rattle.std.specs.Prelude.{◌≡◌, ◌+◌, ℕ, Bool, List, [], ◌∷◌, length, Option, None, Some, slice_index_or, true, false};
ghost use Rattle.geometry.specs.Sectors.{Sector};
ghost use Rattle.geometry.specs.declared.page_addr.PageAddr.{PageAddr as Addr};
ghost use Rattle.durable.specs.Commands.{CutLeaves};
ghost use Rattle.durable.specs.Device.{device_of, losses_of};
ghost use Rattle.durable.specs.Calls.{IsSafe};
ghost use Rattle.durable.specs.Failures.{IsSwapped};
ghost use Rattle.durable.specs.Flash.{Erased, Flash, Torn, Version};
ghost use Rattle.durable.specs.Promise.{IsConsistent};
ghost use Rattle.durable.specs.Retiring.{HasLeftVersion, IsRetired, Renumbers, Retires, updates_left};
ghost use Rattle.durable.specs.Runs.{Event, Retired, Runs, RunsOnReserve, acknowledged_in, begun_in, failures_in, outcomes_in};
ghost use Rattle.durable.specs.Updates.{Update, sole};
ghost use Rattle.durable.specs.Whole.{KeepsWhole, RetiresWhole, RunsWhole};
ghost use Rattle.durable.specs.declared.command.Command.TheVariants as command;
ghost use Rattle.durable.specs.declared.extent.Extent.{Extent as Sectors};
ghost use Rattle.durable.specs.declared.memory.Core.{Core as Layer};

/// What a command that failed leaves, once its block and a spare one have changed their numbers.
pub fn retired_blocks()
    ensures left { (f : Flash) (v : Sector) → f 1 2 ≡ Version (sole 7) 5 v
        → HasLeftVersion f (command.Program (record { block = 1; page = 2 }) 5) true }
    ensures left_none { (f : Flash) → f 1 2 ≡ Torn
        → HasLeftVersion f (command.Program (record { block = 1; page = 2 }) 5) false }
    ensures torn { (f : Flash) → f 1 2 ≡ Torn
        → ¬ HasLeftVersion f (command.Program (record { block = 1; page = 2 }) 5) true }
    ensures overlooked { (f : Flash) (v : Sector) → f 1 2 ≡ Version (sole 7) 5 v
        → ¬ HasLeftVersion f (command.Program (record { block = 1; page = 2 }) 5) false }
    ensures made { (u : Update)
        → updates_left true (command.Program (record { block = 1; page = 2 }) 5) u [] ≡ u ∷ [] }
    ensures not_made { (u : Update)
        → updates_left false (command.Program (record { block = 1; page = 2 }) 5) u [] ≡ [] }
    ensures not_by_an_erase { (u : Update) → updates_left true (command.Erase 1) u [] ≡ [] }
    ensures moves { (f t : Flash) (e : Sectors) (left : Bool) (v : Sector)
        → IsRetired f t e (command.Program (record { block = 1; page = 2 }) 5) left 3 v
        → t 3 0 ≡ f 1 0 }
    ensures comes { (f t : Flash) (e : Sectors) (left : Bool) (v : Sector)
        → IsRetired f t e (command.Program (record { block = 1; page = 2 }) 5) left 3 v
        → t 1 0 ≡ f 3 0 }
    ensures stays { (f t : Flash) (e : Sectors) (left : Bool) (v : Sector)
        → IsRetired f t e (command.Program (record { block = 1; page = 2 }) 5) left 3 v
        → t 2 2 ≡ f 2 2 }
    ensures programmed { (f t : Flash) (v : Sector)
        → IsRetired f t (sole 7) (command.Program (record { block = 1; page = 2 }) 5) true 3 v
        → f 1 2 ≡ Erased → t 3 2 ≡ Version (sole 7) 5 v }
    ensures erase { (f left t : Flash) (e : Sectors) (v : Sector)
        → CutLeaves (command.Erase 1) e v f left → IsSwapped left t 1 3
        → IsRetired f t e (command.Erase 1) false 3 v }
    ensures goes_on { (f t : Flash) (e : Sectors) (v : Sector) (old new : Layer) (acked begun : List Update)
        → Retires old e (command.Erase 1) false 3 new → IsConsistent f old acked begun
        → IsRetired f t e (command.Erase 1) false 3 v → IsConsistent t new acked begun }
    ensures goes_on_with { (f t : Flash) (v : Sector) (old new : Layer) (acked begun : List Update) (at : Addr) (n : ℕ)
        → Retires old (sole 7) (command.Program at n) true 3 new → IsConsistent f old acked begun
        → IsRetired f t (sole 7) (command.Program at n) true 3 v
        → IsConsistent t new (record { extent = sole 7; value = v } ∷ acked) (record { extent = sole 7; value = v } ∷ begun) }
    ensures whole { (f t : Flash) (e : Sectors) (v : Sector) (old new : Layer) (acked begun : List Update)
        → RetiresWhole old e (command.Erase 1) false 3 new → IsConsistent f old acked begun
        → KeepsWhole f old → IsRetired f t e (command.Erase 1) false 3 v → KeepsWhole t new }
{}

/// The map by the new numbers of two blocks.
pub fn renumbered_maps()
    ensures moved { (old new : List (Option Addr)) → Renumbers old new 1 3
        → slice_index_or old 7 None ≡ Some (record { block = 1; page = 2 })
        → slice_index_or new 7 None ≡ Some (record { block = 3; page = 2 }) }
    ensures stays { (old new : List (Option Addr)) → Renumbers old new 1 3
        → slice_index_or old 7 None ≡ Some (record { block = 2; page = 2 })
        → slice_index_or new 7 None ≡ Some (record { block = 2; page = 2 }) }
    ensures none { (old new : List (Option Addr)) → Renumbers old new 1 3
        → slice_index_or old 7 None ≡ None → slice_index_or new 7 None ≡ None }
    ensures size { (old new : List (Option Addr)) → Renumbers old new 1 3 → length new ≡ length old }
{}

/// Runs in which a block is retired.
pub fn retired_runs()
    ensures acknowledged { (u : Update) → acknowledged_in
        (Retired u (command.Program (record { block = 1; page = 2 }) 5) ∷ []) ≡ [] }
    ensures begun { (u : Update) → begun_in (Retired u (command.Erase 1) ∷ []) ≡ u ∷ [] }
    ensures call { (u : Update) → outcomes_in (Retired u (command.Erase 1) ∷ []) ≡ (u, false) ∷ [] }
    ensures counted { (u : Update) → failures_in (Retired u (command.Erase 1) ∷ []) ≡ 1 }
    ensures retired { (events : List Event) (t : Flash) (new : Layer) (u : Update)
        → Runs (Retired u (command.Erase 1) ∷ events) t new
        → (f : Flash) × (old : Layer) × (left : Bool) × (spare : ℕ) × Runs events f old
        × IsRetired f t u.extent (command.Erase 1) left spare u.value
        × Retires old u.extent (command.Erase 1) left spare new × (device_of new ≡ device_of old) }
    ensures retires { (events : List Event) (f t : Flash) (old new : Layer) (u : Update) (left : Bool) (spare : ℕ)
        → Runs events f old → IsRetired f t u.extent (command.Erase 1) left spare u.value
        → Retires old u.extent (command.Erase 1) left spare new → device_of new ≡ device_of old
        → Runs (Retired u (command.Erase 1) ∷ events) t new }
    ensures on_reserve { (events : List Event) (t : Flash) (new : Layer) (u : Update)
        → RunsOnReserve (Retired u (command.Erase 1) ∷ events) t new
        → (f : Flash) × (old : Layer) × (left : Bool) × RunsOnReserve events f old × IsSafe old (command.Erase 1)
        × IsRetired f t u.extent (command.Erase 1) left (old.blocks + failures_in events) u.value
        × (device_of new ≡ device_of old) }
    ensures whole { (events : List Event) (t : Flash) (new : Layer) (u : Update)
        → RunsWhole (Retired u (command.Erase 1) ∷ events) t new
        → (f : Flash) × (old : Layer) × (left : Bool) × (spare : ℕ) × RunsWhole events f old
        × RetiresWhole old u.extent (command.Erase 1) left spare new × (losses_of new ≡ losses_of old) }
{}
