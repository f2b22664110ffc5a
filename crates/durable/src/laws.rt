//! Laws of the definitions: each function has no code, and its clauses say on small values where a definition holds and where not.
ghost use Rattle.std.specs.Prelude.{◌≡◌, ◌≢◌, ◌<◌, ◌+◌, ◌-◌, ◌^◌, ℕ, List, [], ◌∷◌, Option, None, Some, true, false, length, codes, slice_index_or};
ghost use Rattle.geometry.specs.Sectors.{Sector};
ghost use Rattle.geometry.specs.declared.page_addr.PageAddr.{PageAddr as Addr};
ghost use Rattle.durable.specs.Candidates.{AreNeeded, IsEntryOf, IsFoundWith, IsFreeable, IsPackableVersion, candidates_of, needed_of};
ghost use Rattle.durable.specs.Candidates.{number_above, valued_page, with_twin};
ghost use Rattle.durable.specs.Calls.{Acknowledges, CountsLosses, DropsTrims, HasNoted, IsSafe, Remounts, SurvivesCut, SurvivesIdleCut};
ghost use Rattle.durable.specs.Calls.{TellsLosses, TellsNoFalseLoss};
ghost use Rattle.durable.specs.Choice.{left};
ghost use Rattle.durable.specs.declared.found.Candidate.{Candidate as Seen};
ghost use Rattle.durable.specs.Collecting.{AreLiveCounts, ArePagesOn, CanCollect, HasCapacity, IsFree, MapsAll, live_in};
ghost use Rattle.durable.specs.Commands.{Completes, CutLeaves, IsAllowed, is_program, updates_with};
ghost use Rattle.durable.specs.Device.{Device, HasOwnVersions, IsReadOn, IsStampOn, IsWrittenOn, NamesOn, device_in, device_of, live_sectors, losses_of};
ghost use Rattle.durable.specs.Device.{next_number_in, next_number_of, next_pages_of};
ghost use Rattle.durable.specs.Failures.{Changes, HasVersionlessBlock, HoldsNoVersion, IsRenumbered, IsSameFlashOf, IsSwapped, swapped};
ghost use Rattle.durable.specs.Faults.{mount_fault_text};
ghost use Rattle.durable.specs.Flash.{Erased, Flash, HasValue, HasVersion, HoldsNeeded, HoldsNewest, HoldsNoValue, IsErased, RecoversSector};
ghost use Rattle.durable.specs.Flash.{SetsPage, Torn, Version, is_trim};
ghost use Rattle.durable.specs.Losses.{HasNoLoss, IsGapless, IsWholeOrHere, gaps_before, gaps_noted, losses_in, versions_before, versions_noted};
ghost use Rattle.durable.specs.Marks.{IsMarkedWith, is_valued};
ghost use Rattle.durable.specs.Memory.{map_entry};
ghost use Rattle.durable.specs.Mounting.{IsStampOf, TellsValue, TellsValues, next_in, after_in};
ghost use Rattle.durable.specs.Spare.{IsDuplicated};
ghost use Rattle.durable.specs.Promise.{IsConsistent, IsReadable, IsRecoverable, KeepsAcknowledged};
ghost use Rattle.durable.specs.Runs.{Completed, CutBetween, CutInside, Event, Failed, IsMountedFrom, Runs, RunsOnReserve};
ghost use Rattle.durable.specs.Whole.{CutsIdleUnharmed, CutsUnharmed, IsMountedWhole, IsSafelyDuplicated, IsUnharmed, KeepsWhole, RunsWhole, StaysWhole};
ghost use Rattle.durable.specs.Runs.{acknowledged_in, begun_in, outcomes_in, failures_in};
ghost use Rattle.durable.specs.Updates.{AreMade, Covers, IsSubsequence, LiesWithin, Makes, Update, array_after, changed, is_covered, sole};
ghost use Rattle.durable.specs.declared.command.Command.TheVariants as command;
ghost use Rattle.durable.specs.declared.extent.Extent.{Extent as Sectors};
ghost use Rattle.durable.specs.declared.fault.MountFault.TheVariants.{NoFreeBlock};
ghost use Rattle.durable.specs.declared.memory.Core.{Core as Layer};
ghost use Rattle.durable.specs.declared.next_pages.NextPages.{NextPages as Nexts};
ghost use Rattle.durable.specs.declared.mount.Mount.{Mount as Reading};

/// Which sectors an extent has, and what an update of it changes.
pub fn extents()
    ensures first { Covers (record { first = 7; count = 2 }) 7 }
    ensures last { Covers (record { first = 7; count = 2 }) 8 }
    ensures before { ¬ Covers (record { first = 7; count = 2 }) 6 }
    ensures after { ¬ Covers (record { first = 7; count = 2 }) 9 }
    ensures none { (k : ℕ) → ¬ Covers (record { first = 7; count = 0 }) k }
    ensures one { (k : ℕ) → Covers (sole 7) k → k ≡ 7 }
    ensures tells { (is_covered (record { first = 7; count = 2 }) 8 ≡ true)
        × (is_covered (record { first = 7; count = 2 }) 9 ≡ false) }
    ensures within { LiesWithin 9 (record { first = 7; count = 2 }) }
    ensures beyond { ¬ LiesWithin 8 (record { first = 7; count = 2 }) }
    ensures empty { ¬ LiesWithin 9 (record { first = 7; count = 0 }) }
    ensures changed_first { (array : ℕ → Sector) (v : Sector)
        → changed array (record { first = 7; count = 2 }) v 7 ≡ v }
    ensures changed_last { (array : ℕ → Sector) (v : Sector)
        → changed array (record { first = 7; count = 2 }) v 8 ≡ v }
    ensures kept_before { (array : ℕ → Sector) (v : Sector)
        → changed array (record { first = 7; count = 2 }) v 6 ≡ array 6 }
    ensures kept_after { (array : ℕ → Sector) (v : Sector)
        → changed array (record { first = 7; count = 2 }) v 9 ≡ array 9 }
    ensures version { (f : Flash) (v : Sector)
        → f 1 2 ≡ Version (record { first = 7; count = 2 }) 5 v → HasVersion f 1 2 8 5 v }
    ensures other { (f : Flash) (v : Sector)
        → f 1 2 ≡ Version (record { first = 7; count = 2 }) 5 v → ¬ HasVersion f 1 2 9 5 v }
    ensures number { (f : Flash) (v : Sector)
        → f 1 2 ≡ Version (record { first = 7; count = 2 }) 5 v → ¬ HasVersion f 1 2 8 6 v }
    ensures value { (f : Flash) (v w : Sector) → v ≢ w
        → f 1 2 ≡ Version (record { first = 7; count = 2 }) 5 v → ¬ HasVersion f 1 2 8 5 w }
    ensures mapped { (old new : List (Option Addr)) (at : Addr)
        → MapsAll old new (record { first = 0; count = 2 }) at
        → slice_index_or new 1 None ≡ Some at }
    ensures others { (old new : List (Option Addr)) (at : Addr)
        → MapsAll old new (record { first = 0; count = 2 }) at
        → slice_index_or new 2 None ≡ slice_index_or old 2 None }
    ensures size { (old new : List (Option Addr)) (at : Addr)
        → MapsAll old new (record { first = 0; count = 2 }) at → length new ≡ length old }
{}

/// What the array holds after updates, the newest first.
pub fn arrays()
    ensures new { array_after [] 0 ≡ None }
    ensures newest { (v w : Sector)
        → array_after
        (record { extent = sole 0; value = v } ∷ record { extent = sole 0; value = w } ∷ []) 0 ≡ v }
    ensures other { (v w : Sector)
        → array_after
        (record { extent = sole 1; value = v } ∷ record { extent = sole 0; value = w } ∷ []) 0 ≡ w }
    ensures all { (u v : Update) → IsSubsequence (u ∷ v ∷ []) (u ∷ v ∷ []) }
    ensures some { (u v : Update) → IsSubsequence (v ∷ []) (u ∷ v ∷ []) }
    ensures more { (u : Update) → ¬ IsSubsequence (u ∷ []) [] }
    ensures order { (u v : Update) → u ≢ v → ¬ IsSubsequence (u ∷ v ∷ []) (v ∷ u ∷ []) }
    ensures done { (u : Update) (before after : List Update)
        → Makes true u before after → after ≡ u ∷ before }
    ensures before { (u : Update) → Makes false u [] [] }
    ensures after { (u : Update) → Makes false u [] (u ∷ []) }
    ensures no_other { (u v : Update) → u ≢ v → ¬ Makes false u [] (v ∷ []) }
    ensures no_call { (updates : List Update) → AreMade [] updates → updates ≡ [] }
    ensures in_order { (u v : Update) (updates : List Update)
        → AreMade ((u, true) ∷ (v, true) ∷ []) updates → updates ≡ u ∷ v ∷ [] }
    ensures cut_short { (u v : Update) → AreMade ((u, false) ∷ (v, true) ∷ []) (v ∷ []) }
    ensures cut_late { (u v : Update) → AreMade ((u, false) ∷ (v, true) ∷ []) (u ∷ v ∷ []) }
    ensures kept { (u v : Update) → u ≢ v → ¬ AreMade ((u, true) ∷ (v, false) ∷ []) (v ∷ []) }
{}

/// What is read of a sector with two versions, and of one with none.
pub fn versions_of_a_sector()
    ensures newest { (f : Flash) (v w : Sector) → f 0 0 ≡ Version (sole 7) 1 v
        → f 1 1 ≡ Version (sole 7) 2 w → ¬ HoldsNewest f 7 v 0 0 }
    ensures other { (f : Flash) (v w : Sector)
        → f 0 0 ≡ Version (sole 7) 1 v → ¬ HoldsNewest f 8 v 0 0 }
    ensures value { (f : Flash) (v w : Sector) → v ≢ w
        → f 0 0 ≡ Version (sole 7) 1 v → ¬ HoldsNewest f 7 w 0 0 }
    ensures torn { (f : Flash) (v : Sector) → f 0 0 ≡ Torn → ¬ HoldsNewest f 7 v 0 0 }
    ensures erased { (f : Flash) → IsErased f → RecoversSector f 7 None }
    ensures none { (f : Flash) (bytes : List ℕ) → IsErased f → ¬ RecoversSector f 7 (Some bytes) }
    ensures lost { (f : Flash) (bytes : List ℕ)
        → HoldsNewest f 7 (Some bytes) 0 0 → ¬ RecoversSector f 7 None }
    ensures valued { (f : Flash) (bytes : List ℕ)
        → f 2 3 ≡ Version (sole 7) 1 (Some bytes) → HasValue f 7 }
    ensures valueless { (f : Flash) → HoldsNoValue f 7 → ¬ HasValue f 7 }
    ensures needed { (f : Flash) (bytes : List ℕ) → f 2 3 ≡ Version (sole 7) 1 (Some bytes)
        → HoldsNewest f 7 None 0 0 → HoldsNeeded f 7 None 0 0 }
    ensures unneeded { (f : Flash) (v : Sector) → HoldsNoValue f 7 → ¬ HoldsNeeded f 7 v 0 0 }
    ensures not_newest { (f : Flash) (v : Sector) → HoldsNeeded f 7 v 0 0 → HoldsNewest f 7 v 0 0 }
{}

/// What commands leave, and a power cut inside them.
pub fn commands()
    ensures programs { (f t : Flash) (v : Sector)
        → Completes (command.Program (record { block = 1; page = 2 }) 5) (sole 7) v f t
        → t 1 2 ≡ Version (sole 7) 5 v }
    ensures other_page { (f t : Flash) (v : Sector)
        → Completes (command.Program (record { block = 1; page = 2 }) 5) (sole 7) v f t
        → t 1 3 ≡ f 1 3 }
    ensures copies { (f t : Flash) (v : Sector)
        → Completes (command.Copy 7 (record { block = 0; page = 4 }) (record { block = 1; page = 2 })) (sole 7) v f t → t 1 2 ≡ f 0 4 }
    ensures erases { (f t : Flash) (v : Sector)
        → Completes (command.Erase 1) (sole 7) v f t → t 1 3 ≡ Erased }
    ensures other_block { (f t : Flash) (v : Sector)
        → Completes (command.Erase 1) (sole 7) v f t → t 0 3 ≡ f 0 3 }
    ensures torn { (f t : Flash) (v : Sector) → SetsPage f t 1 2 Torn
        → CutLeaves (command.Program (record { block = 1; page = 2 }) 5) (sole 7) v f t }
    ensures whole { (f t : Flash) (v : Sector) → SetsPage f t 1 2 (Version (sole 7) 5 v)
        → CutLeaves (command.Program (record { block = 1; page = 2 }) 5) (sole 7) v f t }
    ensures torn_copy { (f t : Flash) (v : Sector) → SetsPage f t 1 2 Torn
        → CutLeaves (command.Copy 7 (record { block = 0; page = 4 }) (record { block = 1; page = 2 })) (sole 7) v f t }
    ensures whole_copy { (f t : Flash) (v : Sector) → SetsPage f t 1 2 (f 0 4)
        → CutLeaves (command.Copy 7 (record { block = 0; page = 4 }) (record { block = 1; page = 2 })) (sole 7) v f t }
    ensures part { (f t : Flash) (v : Sector) → SetsPage f t 1 3 Torn
        → CutLeaves (command.Erase 1) (sole 7) v f t }
    ensures erased_part { (f t : Flash) (v : Sector) → SetsPage f t 1 3 Erased
        → CutLeaves (command.Erase 1) (sole 7) v f t }
    ensures nothing { (f : Flash) (v : Sector)
        → CutLeaves (command.Program (record { block = 1; page = 2 }) 5) (sole 7) v f f }
    ensures no_other { (f t : Flash) (v : Sector) → f 1 3 ≢ t 1 3
        → ¬ CutLeaves (command.Program (record { block = 1; page = 2 }) 5) (sole 7) v f t }
    ensures no_value { (f t : Flash) (v w : Sector) → v ≢ w
        → f 1 2 ≡ Erased → t 1 2 ≡ Version (sole 7) 5 w
        → ¬ CutLeaves (command.Program (record { block = 1; page = 2 }) 5) (sole 7) v f t }
    ensures no_new { (f t : Flash) (v : Sector) → f 1 3 ≡ Torn
        → t 1 3 ≡ Version (sole 7) 5 v → ¬ CutLeaves (command.Erase 1) (sole 7) v f t }
    ensures no_beside { (f t : Flash) (v : Sector) → f 0 3 ≡ Version (sole 7) 5 v
        → t 0 3 ≡ Torn → ¬ CutLeaves (command.Erase 1) (sole 7) v f t }
    ensures last { is_program (command.Program (record { block = 1; page = 2 }) 5) ≡ true }
    ensures not_last { is_program (command.Erase 1) ≡ false }
    ensures added { (u : Update)
        → updates_with (command.Program (record { block = 1; page = 2 }) 5) u [] ≡ u ∷ [] }
    ensures not_added { (u : Update)
        → updates_with
        (command.Copy 7 (record { block = 0; page = 4 }) (record { block = 1; page = 2 })) u []
        ≡ [] }
    ensures over { (f : Flash) → f 1 2 ≡ Torn
        → ¬ IsAllowed f (command.Program (record { block = 1; page = 2 }) 5) }
    ensures copied_over { (f : Flash) → f 1 2 ≡ Torn
        → ¬ IsAllowed f (command.Copy 7 (record { block = 0; page = 4 }) (record { block = 1; page = 2 })) }
{}

/// What lies on a device of 3 blocks of 4 pages for 8 sectors, and what doesn't.
pub fn devices()
    ensures own { (f : Flash) (v : Sector) → f 0 0 ≡ Version (sole 7) 5 v
        → ¬ HasOwnVersions (record { blocks = 3; read_blocks = 3; pages = 4; sectors = 7 }) f }
    ensures own_number { (f : Flash) (v : Sector) → f 0 0 ≡ Version (sole 7) (2 ^ 64 - 1) v
        → ¬ HasOwnVersions (record { blocks = 3; read_blocks = 3; pages = 4; sectors = 8 }) f }
    ensures own_read { (f : Flash) (v : Sector) → f 3 3 ≡ Version (sole 8) 5 v
        → ¬ HasOwnVersions (record { blocks = 3; read_blocks = 4; pages = 4; sectors = 8 }) f }
    ensures own_written { (f : Flash) (device : Device) → IsWrittenOn device f → HasOwnVersions device f }
    ensures fits { HasCapacity 7 3 4 }
    ensures full { ¬ HasCapacity 8 3 4 }
    ensures no_blocks { ¬ HasCapacity 0 0 4 }
    ensures no_pages { ¬ HasCapacity 0 3 0 }
    ensures block { (f : Flash) (v : Sector) → f 3 0 ≡ Version (sole 7) 1 v
        → ¬ IsWrittenOn (record { blocks = 3; read_blocks = 3; pages = 4; sectors = 8 }) f }
    ensures page { (f : Flash) (v : Sector) → f 2 4 ≡ Version (sole 7) 1 v
        → ¬ IsWrittenOn (record { blocks = 3; read_blocks = 3; pages = 4; sectors = 8 }) f }
    ensures sector { (f : Flash) (v : Sector) → f 2 3 ≡ Version (sole 8) 1 v
        → ¬ IsWrittenOn (record { blocks = 3; read_blocks = 3; pages = 4; sectors = 8 }) f }
    ensures number { (f : Flash) (v : Sector) → f 2 3 ≡ Version (sole 7) (2 ^ 64 - 1) v
        → ¬ IsWrittenOn (record { blocks = 3; read_blocks = 3; pages = 4; sectors = 8 }) f }
    ensures erased { (f : Flash) → IsErased f
        → IsWrittenOn (record { blocks = 3; read_blocks = 3; pages = 4; sectors = 8 }) f }
    ensures program { ¬ NamesOn (record { blocks = 3; read_blocks = 3; pages = 4; sectors = 8 })
        (command.Program (record { block = 3; page = 0 }) 1) }
    ensures last_page { ¬ NamesOn (record { blocks = 3; read_blocks = 3; pages = 4; sectors = 8 })
        (command.Program (record { block = 0; page = 4 }) 1) }
    ensures erase { ¬ NamesOn
        (record { blocks = 3; read_blocks = 3; pages = 4; sectors = 8 }) (command.Erase 3) }
    ensures source { ¬ NamesOn (record { blocks = 3; read_blocks = 3; pages = 4; sectors = 8 })
        (command.Copy 7 (record { block = 3; page = 0 }) (record { block = 0; page = 0 })) }
    ensures target { ¬ NamesOn (record { blocks = 3; read_blocks = 3; pages = 4; sectors = 8 })
        (command.Copy 7 (record { block = 0; page = 0 }) (record { block = 0; page = 4 })) }
    ensures spare { ¬ NamesOn (record { blocks = 3; read_blocks = 5; pages = 4; sectors = 8 })
        (command.Program (record { block = 3; page = 0 }) 1) }
    ensures spare_erased { ¬ NamesOn
        (record { blocks = 3; read_blocks = 5; pages = 4; sectors = 8 }) (command.Erase 4) }
    ensures spare_target { ¬ NamesOn
        (record { blocks = 3; read_blocks = 5; pages = 4; sectors = 8 })
        (command.Copy 7 (record { block = 0; page = 0 }) (record { block = 3; page = 0 })) }
    ensures bad_source { NamesOn (record { blocks = 3; read_blocks = 5; pages = 4; sectors = 8 })
        (command.Copy 7 (record { block = 4; page = 0 }) (record { block = 2; page = 0 })) }
    ensures bad_read { IsReadOn (record { blocks = 3; read_blocks = 5; pages = 4; sectors = 8 })
        (record { block = 4; page = 3 }) }
    ensures open { (next : Nexts) → ArePagesOn 3 4 next → next.hosts ≡ Some (record { block = 3; page = 3 }) → ⊥ }
    ensures closed { ArePagesOn 3 4 (record { hosts = None; copies = None }) }
    ensures beyond { (next : Nexts) → ArePagesOn 3 4 next → next.copies ≡ Some (record { block = 3; page = 3 }) → ⊥ }
    ensures past { (next : Nexts) → ArePagesOn 3 4 next → next.copies ≡ Some (record { block = 2; page = 4 }) → ⊥ }
{}

/// Live pages, and room to collect on 3 blocks of 4 pages.
pub fn rooms()
    ensures counted { live_in 2
        (Some (record { block = 2; page = 0 }) ∷ None ∷ Some (record { block = 1; page = 0 })
        ∷ Some (record { block = 2; page = 3 }) ∷ []) ≡ 2 }
    ensures counts { AreLiveCounts (0 ∷ 1 ∷ [])
        (Some (record { block = 1; page = 0 }) ∷ None ∷ []) }
    ensures live { (core : Layer) → core.map.items
        ≡ Some (record { block = 1; page = 0 }) ∷ Some (record { block = 2; page = 0 }) ∷ None
        ∷ Some (record { block = 2; page = 3 }) ∷ [] → live_sectors core 2 ≡ 2 }
    ensures other_count { ¬ AreLiveCounts (0 ∷ 2 ∷ [])
        (Some (record { block = 1; page = 0 }) ∷ None ∷ []) }
    ensures free { IsFree (Some (record { block = 2; page = 0 }) ∷ None ∷ []) 1 }
    ensures used { ¬ IsFree (None ∷ Some (record { block = 2; page = 0 }) ∷ []) 2 }
    ensures spare { CanCollect (Some (record { block = 2; page = 0 }) ∷ []) 3 4
        (record { hosts = None; copies = None }) }
    ensures no_block { ¬ CanCollect [] 0 4 (record { hosts = None; copies = None }) }
    ensures all_live { ¬ CanCollect (Some (record { block = 0; page = 0 }) ∷ []) 1 4
        (record { hosts = None; copies = None }) }
    ensures alone { ¬ CanCollect [] 1 4
        (record { hosts = None; copies = Some (record { block = 0; page = 0 }) }) }
    ensures hosts_alone { ¬ CanCollect [] 1 4
        (record { hosts = Some (record { block = 0; page = 0 }); copies = None }) }
    ensures at_end { ¬ CanCollect (Some (record { block = 1; page = 0 }) ∷ []) 2 4
        (record { hosts = None; copies = Some (record { block = 0; page = 3 }) }) }
    ensures before_end { CanCollect (Some (record { block = 1; page = 0 }) ∷ []) 2 4
        (record { hosts = None; copies = Some (record { block = 0; page = 2 }) }) }
{}

/// The order in which stamps are noted, and what is kept of them.
pub fn stamps()
    ensures next { (mount : Reading) → mount.next_number ≡ 5 → next_number_in mount ≡ 5 }
    ensures on_device { (device : Device) → device.sectors ≡ 9
        → IsStampOn device (Some (record { extent = sole 8; number = 5; is_trim = false })) }
    ensures off_device { (device : Device) → device.sectors ≡ 8
        → ¬ IsStampOn device (Some (record { extent = sole 8; number = 5; is_trim = false })) }
    ensures greatest { (device : Device) → ¬ IsStampOn device
        (Some (record { extent = sole 8; number = 2 ^ 64 - 1; is_trim = false })) }
    ensures no_version { (device : Device) → IsStampOn device None }
    ensures erased { (f : Flash) → f 1 2 ≡ Erased → IsStampOf f 1 2 None }
    ensures torn { (f : Flash) → f 1 2 ≡ Torn → IsStampOf f 1 2 None }
    ensures version { (f : Flash) (v : Sector)
        → f 1 2 ≡ Version (sole 7) 5 v → ¬ IsStampOf f 1 2 None }
    ensures stamp { (f : Flash) (bytes : List ℕ) → f 1 2 ≡ Version (sole 7) 5 (Some bytes)
        → IsStampOf f 1 2 (Some (record { extent = sole 7; number = 5; is_trim = false })) }
    ensures trim { (f : Flash) → f 1 2 ≡ Version (sole 7) 5 None
        → IsStampOf f 1 2 (Some (record { extent = sole 7; number = 5; is_trim = true })) }
    ensures no_trim { (f : Flash) (bytes : List ℕ) → f 1 2 ≡ Version (sole 7) 5 (Some bytes)
        → ¬ IsStampOf f 1 2 (Some (record { extent = sole 7; number = 5; is_trim = true })) }
    ensures no_value { (f : Flash) → f 1 2 ≡ Version (sole 7) 5 None
        → ¬ IsStampOf f 1 2 (Some (record { extent = sole 7; number = 5; is_trim = false })) }
    ensures other { (f : Flash) (v : Sector) → f 1 2 ≡ Version (sole 7) 5 v
        → ¬ IsStampOf f 1 2 (Some (record { extent = sole 8; number = 5; is_trim = false })) }
    ensures number { (f : Flash) (v : Sector) → f 1 2 ≡ Version (sole 7) 5 v
        → ¬ IsStampOf f 1 2 (Some (record { extent = sole 7; number = 6; is_trim = false })) }
    ensures not_torn { (f : Flash) → f 1 2 ≡ Torn
        → ¬ IsStampOf f 1 2 (Some (record { extent = sole 7; number = 5; is_trim = false })) }
    ensures here { (mount : Reading) → mount.read_blocks ≡ 3 → mount.block ≡ 2
        → mount.page ≡ 1 → next_in mount ≡ Some (record { block = 2; page = 1 }) }
    ensures end { (mount : Reading) → mount.read_blocks ≡ 3
        → mount.block ≡ 3 → next_in mount ≡ None }
    ensures after { (mount : Reading) → mount.read_blocks ≡ 3
        → mount.pages ≡ 4 → mount.block ≡ 2 → mount.page ≡ 1
        → after_in mount ≡ Some (record { block = 2; page = 2 }) }
    ensures block { (mount : Reading) → mount.read_blocks ≡ 3
        → mount.pages ≡ 4 → mount.block ≡ 1 → mount.page ≡ 3
        → after_in mount ≡ Some (record { block = 2; page = 0 }) }
    ensures last { (mount : Reading) → mount.read_blocks ≡ 3 → mount.pages ≡ 4
        → mount.block ≡ 2 → mount.page ≡ 3 → after_in mount ≡ None }
    ensures above { number_above 5 (Some (record { extent = sole 7; number = 5; is_trim = false }))
        ≡ 6 }
    ensures below { number_above 9 (Some (record { extent = sole 7; number = 5; is_trim = false }))
        ≡ 9 }
    ensures no_stamp { number_above 5 None ≡ 5 }
{}

/// Which sectors have values, by the pages that were read.
pub fn values()
    ensures trim { is_trim None ≡ true }
    ensures bytes { (bytes : List ℕ) → is_trim (Some bytes) ≡ false }
    ensures read { (f : Flash) (bytes : List ℕ)
        → f 1 0 ≡ Version (sole 7) 5 (Some bytes) → TellsValue f 4 1 1 7 true }
    ensures not_read { (f : Flash) (bytes : List ℕ)
        → f 1 0 ≡ Version (sole 7) 5 (Some bytes) → ¬ TellsValue f 4 1 1 7 false }
    ensures erased { (f : Flash) → IsErased f → TellsValue f 4 1 1 7 false }
    ensures no_value { (f : Flash) → HoldsNoValue f 7 → ¬ TellsValue f 4 1 1 7 true }
    ensures unread { (f : Flash) → ¬ TellsValue f 4 0 0 7 true }
    ensures each { (f : Flash) (bytes : List ℕ)
        → f 1 0 ≡ Version (sole 1) 5 (Some bytes) → ¬ TellsValues f 4 1 1 2 (1 ∷ []) }
    ensures bit { (is_valued (0 ∷ 2 ∷ []) 65 ≡ true)
        × (is_valued (0 ∷ 2 ∷ []) 64 ≡ false) × (is_valued (0 ∷ 2 ∷ []) 1 ≡ false) }
    ensures marked { (old new : List ℕ)
        → IsMarkedWith old new (Some (record { extent = sole 1; number = 5; is_trim = false }))
        → is_valued new 1 ≡ true }
    ensures not_marked { (old new : List ℕ)
        → IsMarkedWith old new (Some (record { extent = sole 1; number = 5; is_trim = false }))
        → is_valued new 2 ≡ is_valued old 2 }
    ensures unmarked { (new : List ℕ)
        → IsMarkedWith (2 ∷ []) new (Some (record { extent = sole 0; number = 5; is_trim = true }))
        → new ≡ 2 ∷ [] }
    ensures no_stamp { (new : List ℕ) → IsMarkedWith (2 ∷ []) new None → new ≡ 2 ∷ [] }
    ensures needed { needed_of true
        (Some (record { at = record { block = 1; page = 0 }; number = 5; twin = None }))
        ≡ Some (record { at = record { block = 1; page = 0 }; number = 5; twin = None }) }
    ensures dropped { needed_of false
        (Some (record { at = record { block = 1; page = 0 }; number = 5; twin = None })) ≡ None }
    ensures page { valued_page true (Some (record { block = 1; page = 0 }))
        ≡ Some (record { block = 1; page = 0 }) }
    ensures no_page { valued_page false (Some (record { block = 1; page = 0 })) ≡ None }
    ensures kept { (x y : Option Seen) (kept : List (Option Seen))
        → AreNeeded (1 ∷ []) (x ∷ y ∷ []) kept → kept ≡ x ∷ None ∷ [] }
    ensures noted { (f : Flash) (mount : Reading) → HasNoted f mount
        → TellsValues f mount.pages mount.block mount.page
        (length mount.found.items) mount.valued.items }
    ensures versions { (f : Flash) (mount : Reading) → HasNoted f mount
        → mount.versions ≡ versions_before f mount.block mount.page }
    ensures here { (f : Flash) (mount : Reading) (x : Seen) (q : ℕ) (v : Sector)
        → HasNoted f mount → 3 < length mount.found.items
        → slice_index_or mount.found.items 3 None ≡ Some x
        → q < mount.page → HasVersion f mount.block q 3 x.number v
        → IsWholeOrHere mount.gaps.items mount.block x.at.block }
    ensures drops { (f : Flash) (mount : Reading) (core : Layer)
        → DropsTrims mount core → HasNoted f mount → 7 < (device_in mount).sectors
        → HoldsNoValue f 7 → map_entry core 7 ≡ None }
{}

/// What was found of sectors, by tables of their pages, numbers and twins, and which pages have places there.
#[tactic(auto, unfolding(crate::specs::Candidates::candidates_of))]
pub fn tables_of_candidates()
    ensures tables { candidates_of (Some (record { block = 1; page = 0 }) ∷ None ∷ [])
        (5 ∷ 6 ∷ []) (None ∷ Some (record { block = 2; page = 3 }) ∷ [])
        ≡ Some (record { at = record { block = 1; page = 0 }; number = 5; twin = None }) ∷ None ∷ [] }
    ensures twin { candidates_of (Some (record { block = 1; page = 0 }) ∷ [])
        (5 ∷ []) (Some (record { block = 2; page = 3 }) ∷ [])
        ≡ Some (record { at = record { block = 1; page = 0 }; number = 5; twin = Some (record { block = 2; page = 3 }) }) ∷ [] }
    ensures nothing { IsPackableVersion None }
    ensures small { IsPackableVersion
        (Some (record { at = record { block = 1; page = 0 }; number = 5; twin = None })) }
    ensures last { ¬ IsPackableVersion
        (Some (record { at = record { block = 4294967295; page = 4294967295 }; number = 5; twin = None })) }
    ensures last_twin { ¬ IsPackableVersion (Some (record {
      at = record { block = 1; page = 0 };
      number = 5;
      twin = Some (record { block = 4294967295; page = 4294967295 });
    })) }
{}

/// What a mount finds of sectors, and which block it can free.
pub fn candidates()
    ensures none { ¬ IsEntryOf None (Some (record { block = 1; page = 0 })) }
    ensures found { IsEntryOf
        (Some (record { at = record { block = 1; page = 0 }; number = 5; twin = None }))
        (Some (record { block = 1; page = 0 })) }
    ensures other { ¬ IsEntryOf
        (Some (record { at = record { block = 1; page = 0 }; number = 5; twin = None }))
        (Some (record { block = 2; page = 0 })) }
    ensures lost { ¬ IsEntryOf
        (Some (record { at = record { block = 1; page = 0 }; number = 5; twin = None })) None }
    ensures newer { (new : List (Option Seen))
        → IsFoundWith []
        (None ∷ Some (record { at = record { block = 1; page = 0 }; number = 5; twin = None }) ∷ [])
        new (record { block = 2; page = 3 }) (Some (record { extent = record { first = 0; count = 2 }; number = 6; is_trim = false }))
        → new ≡ Some (record { at = record { block = 2; page = 3 }; number = 6; twin = None })
        ∷ Some (record { at = record { block = 2; page = 3 }; number = 6; twin = None }) ∷ [] }
    ensures older { (new : List (Option Seen))
        → IsFoundWith []
        (Some (record { at = record { block = 1; page = 0 }; number = 5; twin = None }) ∷ [])
        new (record { block = 2; page = 3 }) (Some (record { extent = sole 0; number = 4; is_trim = false }))
        → new ≡ Some (record { at = record { block = 1; page = 0 }; number = 5; twin = None }) ∷ [] }
    ensures twin { (new : List (Option Seen))
        → IsFoundWith []
        (Some (record { at = record { block = 1; page = 0 }; number = 5; twin = None }) ∷ [])
        new (record { block = 2; page = 3 }) (Some (record { extent = sole 0; number = 5; is_trim = false }))
        → new ≡ Some (record { at = record { block = 1; page = 0 }; number = 5; twin = Some (record { block = 2; page = 3 }) }) ∷ [] }
    ensures gap { (new : List (Option Seen)) → IsFoundWith (0 ∷ 1 ∷ [])
        (Some (record { at = record { block = 1; page = 0 }; number = 5; twin = None }) ∷ []) new
        (record { block = 2; page = 3 }) (Some (record { extent = sole 0; number = 5; is_trim = false }))
        → new ≡ Some (record { at = record { block = 2; page = 3 }; number = 5; twin = Some (record { block = 1; page = 0 }) }) ∷ [] }
    ensures beside { (new : List (Option Seen))
        → IsFoundWith [] (None ∷ None ∷ []) new (record { block = 2; page = 3 })
        (Some (record { extent = sole 0; number = 5; is_trim = false }))
        → new ≡ Some (record { at = record { block = 2; page = 3 }; number = 5; twin = None }) ∷ None ∷ [] }
    ensures unread { (old new : List (Option Seen))
        → IsFoundWith [] old new (record { block = 2; page = 3 }) None → new ≡ old }
    ensures third { with_twin (0 ∷ 0 ∷ 1 ∷ [])
        (record { at = record { block = 1; page = 0 }; number = 5; twin = Some (record { block = 2; page = 3 }) })
        (record { block = 4; page = 0 })
        ≡ record { at = record { block = 1; page = 0 }; number = 5; twin = Some (record { block = 4; page = 0 }) } }
    ensures second { with_twin (0 ∷ 0 ∷ 0 ∷ [])
        (record { at = record { block = 1; page = 0 }; number = 5; twin = Some (record { block = 2; page = 3 }) })
        (record { block = 4; page = 0 })
        ≡ record { at = record { block = 1; page = 0 }; number = 5; twin = Some (record { block = 2; page = 3 }) } }
    ensures within { with_twin []
        (record { at = record { block = 1; page = 0 }; number = 5; twin = None })
        (record { block = 1; page = 3 })
        ≡ record { at = record { block = 1; page = 0 }; number = 5; twin = None } }
    ensures empty { IsFreeable [] [] 1 }
    ensures alone { ¬ IsFreeable []
        (Some (record { at = record { block = 1; page = 0 }; number = 5; twin = None }) ∷ []) 1 }
    ensures elsewhere { IsFreeable []
        (Some (record { at = record { block = 1; page = 0 }; number = 5; twin = None }) ∷ []) 2 }
    ensures same_block { ¬ IsFreeable []
        (Some (record { at = record { block = 1; page = 0 }; number = 5; twin = Some (record { block = 1; page = 2 }) }) ∷ [])
        1 }
    ensures behind_gap { ¬ IsFreeable (0 ∷ 0 ∷ 1 ∷ [])
        (Some (record { at = record { block = 1; page = 0 }; number = 5; twin = Some (record { block = 2; page = 2 }) }) ∷ []) 1 }
    ensures text { mount_fault_text NoFreeBlock ≡ codes "no block can be freed" }
{}

/// Which pages are gaps, and which gaps are losses.
pub fn losses()
    ensures erased { (f : Flash) → IsErased f → IsGapless f 1 }
    ensures gap { (f : Flash) (v : Sector) → f 1 0 ≡ Torn
        → f 1 1 ≡ Version (sole 7) 5 v → ¬ IsGapless f 1 }
    ensures erased_gap { (f : Flash) (v : Sector) → f 1 0 ≡ Erased
        → f 1 1 ≡ Version (sole 7) 5 v → ¬ IsGapless f 1 }
    ensures counted { (f : Flash) (v : Sector) → f 1 0 ≡ Torn
        → f 1 1 ≡ Version (sole 7) 5 v → gaps_before f 1 2 ≡ 1 }
    ensures torn_last { (f : Flash) (v : Sector)
        → f 1 0 ≡ Version (sole 7) 5 v → f 1 1 ≡ Torn → gaps_before f 1 2 ≡ 0 }
    ensures versions { (f : Flash) (v : Sector) → f 1 0 ≡ Torn
        → f 1 1 ≡ Version (sole 7) 5 v → versions_before f 1 2 ≡ 1 }
    ensures noted { gaps_noted (0 ∷ 0 ∷ []) 1 3 1
        (Some (record { extent = sole 7; number = 5; is_trim = false })) ≡ 0 ∷ 2 ∷ [] }
    ensures not_noted { gaps_noted (0 ∷ 4 ∷ []) 1 3 1 None ≡ 0 ∷ 4 ∷ [] }
    ensures one_more { versions_noted 1
        (Some (record { extent = sole 7; number = 5; is_trim = false })) ≡ 2 }
    ensures as_many { versions_noted 1 None ≡ 1 }
    ensures new { (f : Flash) → IsErased f → HasNoLoss f 8 }
    ensures lost { (f : Flash) (v : Sector) → f 1 0 ≡ Torn
        → HoldsNeeded f 7 v 1 1 → ((d q : ℕ) → HoldsNewest f 7 v d q → d ≡ 1)
        → ((d q : ℕ) (w : Sector) → HoldsNewest f 7 w d q → w ≡ v) → ¬ HasNoLoss f 8 }
    ensures trims { (f : Flash) → ((s : ℕ) → HoldsNoValue f s)
        → HasNoLoss f 8 × IsDuplicated f 8 1 × IsSafelyDuplicated f 8 1 }
    ensures elsewhere { (f : Flash) (s : ℕ) (v : Sector)
        → HasNoLoss f 8 → s < 8 → HoldsNeeded f s v 1 1
        → (d : ℕ) × (q : ℕ) × (w : Sector) × IsGapless f d × HoldsNewest f s w d q }
    ensures in_use { losses_in
        (Some (record { at = record { block = 1; page = 1 }; number = 5; twin = None }) ∷ [])
        (3 ∷ 2 ∷ []) 2 ≡ 2 }
    ensures unused { losses_in (None ∷ []) (3 ∷ 2 ∷ []) 2 ≡ 0 }
    ensures kept { (mount : Reading) (core : Layer)
        → CountsLosses mount core → (kept : List (Option Seen))
        × AreNeeded mount.valued.items mount.found.items kept
        × (losses_of core ≡ losses_in kept mount.gaps.items mount.read_blocks) }
    ensures tells { (mount : Reading) (core : Layer) (f : Flash)
        → TellsLosses mount core → HasNoted f mount → IsWrittenOn (device_in mount) f
        → ¬ HasNoLoss f (device_in mount).sectors → core.losses ≢ 0 }
    ensures quiet { (mount : Reading) (core : Layer) (f : Flash) (acked begun : List Update)
        → TellsNoFalseLoss mount core → HasNoted f mount
        → IsReadable f (device_in mount) acked begun
        → HasNoLoss f (device_in mount).sectors → core.losses ≡ 0 }
{}

/// What keeps a loss from being told where no page was lost.
pub fn unharmed()
    ensures spare { (f : Flash) (device : Device) → IsUnharmed f device
        → (b : ℕ) × (b < device.blocks) × IsSafelyDuplicated f device.sectors b }
    ensures no_loss { (f : Flash) (device : Device)
        → IsUnharmed f device → HasNoLoss f device.sectors }
    ensures alone { (f : Flash) (v : Sector) → HoldsNeeded f 7 v 1 1
        → ((d q : ℕ) (w : Sector) → HoldsNewest f 7 w d q → d ≡ 1)
        → ¬ IsSafelyDuplicated f 8 1 }
    ensures mapped { (f : Flash) (layer : Layer) → KeepsWhole f layer
        → 7 < length layer.map.items → map_entry layer 7 ≡ Some (record { block = 1; page = 1 })
        → IsGapless f 1 }
    ensures full { (f : Flash) (layer : Layer) → KeepsWhole f layer
        → layer.next_pages.hosts ≡ Some (record { block = 1; page = 2 }) → f 1 1 ≢ Torn }
    ensures spared { (f : Flash) (layer : Layer) → KeepsWhole f layer
        → layer.next_pages.copies ≡ None → (b : ℕ) × (b < layer.blocks) × IsFree layer.map.items b }
    ensures mounted { (f : Flash) (layer : Layer) (acked begun : List Update) (from : IsMountedWhole f layer) → IsReadable f (device_in from.0) acked begun
        → IsUnharmed f (device_in from.0) → KeepsWhole f layer × (layer.losses ≡ 0) }
    ensures first { (f : Flash) (layer : Layer)
        → RunsWhole [] f layer → IsErased f × IsMountedWhole f layer }
    ensures done { (events : List Event) (t : Flash) (new : Layer) (u : Update)
        → RunsWhole (Completed u (command.Erase 1) ∷ events) t new
        → (f : Flash) × (old : Layer) × RunsWhole events f old
        × StaysWhole old u.extent (command.Erase 1) new × (losses_of new ≡ losses_of old) }
    ensures failed { (events : List Event) (t : Flash) (new : Layer) (u : Update)
        → RunsWhole (Failed u (command.Erase 1) ∷ events) t new
        → (f : Flash) × (old : Layer) × RunsWhole events f old
        × CutsUnharmed old u.extent (command.Erase 1) × IsMountedWhole t new
        × HasVersionlessBlock t (device_of new) }
    ensures inside { (events : List Event) (t : Flash) (new : Layer) (u : Update)
        → RunsWhole (CutInside u (command.Erase 1) ∷ events) t new
        → (f : Flash) × (old : Layer) × RunsWhole events f old
        × CutsUnharmed old u.extent (command.Erase 1) × IsMountedWhole t new }
    ensures idle { (events : List Event) (t : Flash) (new : Layer)
        → RunsWhole (CutBetween ∷ events) t new
        → (f : Flash) × (old : Layer) × RunsWhole events f old
        × CutsIdleUnharmed old × IsMountedWhole t new }
{}

/// What the promise says of an erased flash, and of one with a version that nobody began.
pub fn promises()
    ensures nothing { (f : Flash) → IsErased f → KeepsAcknowledged f 8 [] [] }
    ensures lost { (f : Flash) (bytes : List ℕ) → IsErased f
        → ¬ KeepsAcknowledged f 8 (record { extent = sole 7; value = Some bytes } ∷ []) (record { extent = sole 7; value = Some bytes } ∷ []) }
    ensures not_begun { (f : Flash) (bytes : List ℕ)
        → HoldsNewest f 7 (Some bytes) 0 0 → ¬ KeepsAcknowledged f 8 [] [] }
    ensures keeps { (f : Flash) (device : Device) (acked begun : List Update)
        → IsRecoverable f device acked begun
        → KeepsAcknowledged f device.sectors acked begun }
    ensures written { (f : Flash) (device : Device) (acked begun : List Update)
        → IsRecoverable f device acked begun → IsWrittenOn device f }
    ensures frees { (f : Flash) (acked begun : List Update)
        → ¬ IsRecoverable f
        (record { blocks = 0; read_blocks = 0; pages = 4; sectors = 8 }) acked begun }
    ensures number { (f : Flash) (core : Layer) (v : Sector) (acked begun : List Update)
        → IsConsistent f core acked begun → f 0 0 ≡ Version (sole 7) 5 v
        → 5 < next_number_of core }
    ensures never_begun { (f : Flash) (core : Layer) (u : Update)
        → ¬ IsConsistent f core (u ∷ []) [] }
    ensures open { (f : Flash) (core : Layer) (acked begun : List Update)
        → IsConsistent f core acked begun
        → (next_pages_of core).hosts ≡ Some (record { block = 1; page = 2 }) → f 1 3 ≡ Erased }
    ensures on_device { (f : Flash) (core : Layer) (v : Sector) (acked begun : List Update)
        → IsConsistent f core acked begun → f 3 0 ≡ Version (sole 7) 5 v
        → 3 < (device_of core).read_blocks }
    ensures spare { (f : Flash) (core : Layer) (acked begun : List Update)
        → IsConsistent f core acked begun → (next_pages_of core).copies ≡ None
        → (b : ℕ) × (b < (device_of core).blocks) × IsFree core.map.items b }
    ensures safe { (f : Flash) (core : Layer) (acked begun : List Update)
        → IsConsistent f core acked begun
        → IsSafe core (command.Program (record { block = 1; page = 2 }) 5) → f 1 2 ≡ Erased }
    ensures off_device { (f : Flash) (core : Layer) (acked begun : List Update)
        → IsConsistent f core acked begun → core.blocks ≡ 3
        → ¬ IsSafe core (command.Erase 3) }
    ensures cut { (f : Flash) (core : Layer) (acked begun : List Update)
        → IsConsistent f core acked begun → SurvivesCut core (sole 7) command.Refused
        → IsRecoverable f (device_of core) acked (record { extent = sole 7; value = None } ∷ begun) }
    ensures idle { (f : Flash) (core : Layer) (acked begun : List Update)
        → IsConsistent f core acked begun → SurvivesIdleCut core
        → IsRecoverable f (device_of core) acked begun }
    ensures refused { (f : Flash) (old new : Layer) (acked begun : List Update)
        → IsConsistent f old acked begun → Acknowledges old (sole 7) command.Refused new
        → IsConsistent f new acked begun }
    ensures programmed { (f t : Flash) (v : Sector) (old new : Layer) (acked begun : List Update)
        → IsConsistent f old acked begun
        → Acknowledges old (sole 7) (command.Program (record { block = 1; page = 2 }) 5) new
        → Completes (command.Program (record { block = 1; page = 2 }) 5) (sole 7) v f t
        → IsConsistent t new (record { extent = sole 7; value = v } ∷ acked) (record { extent = sole 7; value = v } ∷ begun) }
    ensures noted { (f : Flash) (mount : Reading) (v : Sector) → HasNoted f mount
        → f 0 0 ≡ Version (sole 7) 5 v → 0 < mount.block → 5 < mount.next_number }
    ensures noted_own { (f : Flash) (mount : Reading) (v : Sector) → HasNoted f mount
        → f 0 0 ≡ Version (sole 7) 5 v → 0 < mount.block → 0 < mount.pages
        → (device_in mount).sectors ≢ 7 }
    ensures remounts { (f : Flash) (mount : Reading) (core : Layer) (acked begun : List Update)
        → Remounts mount core → HasNoted f mount
        → IsReadable f (device_in mount) acked begun → IsConsistent f core acked begun }
    ensures reads { (f : Flash) (device : Device) (acked begun : List Update)
        → IsReadable f device acked begun
        → KeepsAcknowledged f device.sectors acked begun }
    ensures read_written { (f : Flash) (device : Device) (acked begun : List Update)
        → IsReadable f device acked begun → IsWrittenOn device f }
    ensures readable { (f : Flash) (device : Device) (acked begun : List Update)
        → KeepsAcknowledged f device.sectors acked begun
        → IsWrittenOn device f → IsReadable f device acked begun }
{}

/// Blocks that are numbered anew, and blocks without versions.
pub fn failures()
    ensures same { (f : Flash) → IsRenumbered f f 3 }
    ensures lost { (f t : Flash) (v : Sector)
        → f 0 1 ≡ Version (sole 7) 5 v → IsErased t → ¬ IsRenumbered f t 3 }
    ensures grown { (f t : Flash) (v : Sector) → IsErased f
        → t 0 1 ≡ Version (sole 7) 5 v → ¬ IsRenumbered f t 3 }
    ensures within { (f t : Flash) (anew : IsRenumbered f t 3) → anew.to 2 < 3 }
    ensures blank { (f : Flash) → IsErased f
        → HasVersionlessBlock f (record { blocks = 3; read_blocks = 5; pages = 4; sectors = 8 }) }
    ensures torn { (f : Flash) → ((p : ℕ) → f 1 p ≡ Torn) → HoldsNoVersion f 1 }
    ensures version { (f : Flash) (v : Sector)
        → f 1 2 ≡ Version (sole 7) 5 v → ¬ HoldsNoVersion f 1 }
    ensures not_used { (f : Flash)
        → ¬ HasVersionlessBlock f (record { blocks = 0; read_blocks = 5; pages = 4; sectors = 8 }) }
    ensures fewer { IsSameFlashOf
        (record { blocks = 5; read_blocks = 5; pages = 4; sectors = 8 }) (record { blocks = 4; read_blocks = 5; pages = 4; sectors = 8 }) }
    ensures unread { ¬ IsSameFlashOf
        (record { blocks = 4; read_blocks = 5; pages = 4; sectors = 8 }) (record { blocks = 4; read_blocks = 4; pages = 4; sectors = 8 }) }
    ensures other_pages { ¬ IsSameFlashOf
        (record { blocks = 4; read_blocks = 5; pages = 4; sectors = 8 }) (record { blocks = 4; read_blocks = 5; pages = 3; sectors = 8 }) }
    ensures other_sectors { ¬ IsSameFlashOf
        (record { blocks = 4; read_blocks = 5; pages = 4; sectors = 8 }) (record { blocks = 4; read_blocks = 5; pages = 4; sectors = 7 }) }
    ensures swapped_blocks { (f t : Flash) → IsSwapped f t 1 5 → (t 5 2 ≡ f 1 2) × (t 1 2 ≡ f 5 2) }
    ensures other_block { (f t : Flash) → IsSwapped f t 1 5 → t 3 2 ≡ f 3 2 }
    ensures numbers { (swapped 1 5 1 ≡ 5) × (swapped 1 5 5 ≡ 1) × (swapped 1 5 3 ≡ 3) }
    ensures programmed { (b : ℕ)
        → Changes (command.Program (record { block = 1; page = 2 }) 5) b → b ≡ 1 }
    ensures copied { (b : ℕ)
        → Changes
        (command.Copy 7 (record { block = 0; page = 4 }) (record { block = 1; page = 2 })) b
        → b ≡ 1 }
    ensures wiped { (b : ℕ) → Changes (command.Erase 1) b → b ≡ 1 }
    ensures changed { Changes (command.Program (record { block = 1; page = 2 }) 5) 1
        × Changes (command.Erase 1) 1 }
    ensures nothing { (b : ℕ) → ¬ Changes command.Refused b }
{}

/// Which updates of a run are acknowledged, and which were begun.
pub fn runs()
    ensures acknowledged { (u : Update)
        → acknowledged_in (Completed u (command.Program (record { block = 1; page = 2 }) 5) ∷ [])
        ≡ u ∷ [] }
    ensures not_yet { (u : Update) → acknowledged_in (Completed u (command.Erase 1) ∷ []) ≡ [] }
    ensures cut { (u : Update)
        → acknowledged_in (CutInside u (command.Program (record { block = 1; page = 2 }) 5) ∷ [])
        ≡ [] }
    ensures begun { (u : Update) → begun_in (CutInside u (command.Erase 1) ∷ []) ≡ u ∷ [] }
    ensures failed { (u : Update)
        → acknowledged_in (Failed u (command.Program (record { block = 1; page = 2 }) 5) ∷ [])
        ≡ [] }
    ensures failed_begun { (u : Update) → begun_in (Failed u (command.Erase 1) ∷ []) ≡ u ∷ [] }
    ensures completed { (u : Update)
        → begun_in
        (Completed u (command.Program (record { block = 1; page = 2 }) 5) ∷ CutBetween ∷ [])
        ≡ u ∷ [] }
    ensures erased { (f : Flash) (core : Layer) → Runs [] f core → IsErased f }
    ensures inside { (events : List Event) (f t : Flash) (old new : Layer) (u : Update)
        → Runs events f old
        → SurvivesCut old u.extent (command.Erase 1)
        → CutLeaves (command.Erase 1) u.extent u.value f t → IsMountedFrom t new
        → device_of new ≡ device_of old → Runs (CutInside u (command.Erase 1) ∷ events) t new }
    ensures numbered_anew { (events : List Event) (f left t : Flash) (old new : Layer) (u : Update)
        → Runs events f old
        → SurvivesCut old u.extent (command.Erase 1)
        → CutLeaves (command.Erase 1) u.extent u.value f left
        → IsRenumbered left t (device_of old).read_blocks
        → IsMountedFrom t new → IsSameFlashOf (device_of old) (device_of new)
        → Runs (Failed u (command.Erase 1) ∷ events) t new }
    ensures idle { (events : List Event) (f : Flash) (old new : Layer)
        → Runs events f old → IsMountedFrom f new → device_of new ≡ device_of old
        → Runs (CutBetween ∷ events) f new }
    ensures done { (events : List Event) (f t : Flash) (old new : Layer) (u : Update)
        → Runs events f old
        → Completes (command.Erase 1) u.extent u.value f t
        → Acknowledges old u.extent (command.Erase 1) new → device_of new ≡ device_of old
        → Runs (Completed u (command.Erase 1) ∷ events) t new }
    ensures between { (t : Flash) (new : Layer)
        → Runs (CutBetween ∷ []) t new → (b p : ℕ) → t b p ≡ Erased }
    ensures mounted { (f : Flash) (core : Layer) (acked begun : List Update)
        → IsMountedFrom f core → IsReadable f (device_of core) acked begun
        → IsConsistent f core acked begun }
    ensures failed_erase { (t : Flash) (new : Layer) (u : Update)
        → Runs (Failed u (command.Erase 1) ∷ []) t new
        → (b p : ℕ) (e : Sectors) (m : ℕ) (v : Sector) → t b p ≢ Version e m v }
    ensures failed_chosen { (events : List Event) (t : Flash) (new : Layer) (u : Update)
        → Runs (Failed u (command.Erase 1) ∷ events) t new
        → (f : Flash) × (old : Layer) × Runs events f old
        × SurvivesCut old u.extent (command.Erase 1) }
    ensures failed_mounted { (events : List Event) (t : Flash) (new : Layer) (u : Update)
        → Runs (Failed u (command.Erase 1) ∷ events) t new
        → IsMountedFrom t new }
    ensures failed_same { (events : List Event) (t : Flash) (new : Layer) (u : Update)
        → Runs (Failed u (command.Erase 1) ∷ events) t new
        → (f : Flash) × (old : Layer) × Runs events f old
        × IsSameFlashOf (device_of old) (device_of new) }
    ensures call { (u v : Update)
        → outcomes_in
        (Completed u (command.Program (record { block = 1; page = 2 }) 5) ∷ Failed v
        (command.Erase 1) ∷ [])
        ≡ (u, true) ∷ (v, false) ∷ [] }
    ensures no_call { (u : Update)
        → outcomes_in (Completed u (command.Erase 1) ∷ CutBetween ∷ []) ≡ [] }
    ensures cut_call { (u : Update)
        → outcomes_in (CutInside u (command.Program (record { block = 1; page = 2 }) 5) ∷ [])
        ≡ (u, false) ∷ [] }
    ensures counted { (u : Update)
        → failures_in
        (Failed u (command.Erase 1) ∷ Completed u
        (command.Erase 1) ∷ Failed u (command.Erase 2) ∷ []) ≡ 2 }
    ensures not_counted { (u : Update)
        → failures_in (CutInside u (command.Erase 1) ∷ CutBetween ∷ []) ≡ 0 }
{}

/// Runs on a device that keeps a reserve.
pub fn reserves()
    ensures first { (f : Flash) (core : Layer) → RunsOnReserve [] f core → IsErased f }
    ensures replaced { (events : List Event) (t : Flash) (new : Layer) (u : Update)
        → RunsOnReserve (Failed u (command.Erase 1) ∷ events) t new
        → (f left : Flash) × (old : Layer) × RunsOnReserve events f old
        × CutLeaves (command.Erase 1) u.extent u.value f left
        × IsSwapped left t 1 (old.blocks + failures_in events)
        × IsMountedFrom t new × (device_of new ≡ device_of old) }
    ensures replaces { (events : List Event) (f left t : Flash) (old new : Layer) (u : Update)
        → RunsOnReserve events f old → IsSafe old (command.Erase 1)
        → SurvivesCut old u.extent (command.Erase 1)
        → CutLeaves (command.Erase 1) u.extent u.value f left
        → IsSwapped left t 1 (old.blocks + failures_in events)
        → IsMountedFrom t new → device_of new ≡ device_of old
        → RunsOnReserve (Failed u (command.Erase 1) ∷ events) t new }
    ensures safe { (events : List Event) (t : Flash) (new : Layer) (u : Update)
        → RunsOnReserve (Completed u (command.Erase 1) ∷ events) t new
        → (f : Flash) × (old : Layer) × IsSafe old (command.Erase 1)
        × Completes (command.Erase 1) u.extent u.value f t }
    ensures safe_cut { (events : List Event) (t : Flash) (new : Layer) (u : Update)
        → RunsOnReserve (CutInside u (command.Erase 1) ∷ events) t new
        → (f : Flash) × (old : Layer) × IsSafe old (command.Erase 1)
        × CutLeaves (command.Erase 1) u.extent u.value f t }
    ensures idle { (events : List Event) (t : Flash) (new : Layer)
        → RunsOnReserve (CutBetween ∷ events) t new
        → (f : Flash) × (old : Layer) × RunsOnReserve events f old × (t ≡ f) }
{}
