//! Laws of the definitions: each function has no code, and its clauses say on small values where a definition holds and where not.
ghost use Rattle.std.specs.Prelude.{◌≡◌, ◌≢◌, ◌<◌, ◌+◌, ◌-◌, ◌%◌, ◌^◌, ℕ, Bool, List, [], ◌∷◌, Option, None, Some, Ok, Err, Vec, true, false};
ghost use Rattle.std.specs.declared.alloc.Global.{Global as OnHeap};
ghost use Rattle.geometry.specs.Sectors.{Sector};
ghost use Rattle.geometry.specs.declared.answer.Got.TheVariants as got;
ghost use Rattle.geometry.specs.declared.answer.Was.TheVariants as was;
ghost use Rattle.geometry.specs.declared.page_addr.PageAddr.{PageAddr as Addr};
ghost use Rattle.durable.specs.Device.{device_of, losses_of, next_number_of};
ghost use Rattle.durable.specs.Flash.{Erased, Flash, IsErased, SetsPage, Torn, Version};
ghost use Rattle.durable.specs.Memory.{map_entry};
ghost use Rattle.durable.specs.Promise.{KeepsAcknowledged};
ghost use Rattle.durable.specs.Spare.{IsDuplicated};
ghost use Rattle.durable.specs.Updates.{Update, sole};
ghost use Rattle.durable.specs.declared.command.Command.TheVariants as command;
ghost use Rattle.nand.specs.Cells.{IsWiped, contents_of, flash_in, reading_of};
ghost use Rattle.nand.specs.Chip.{Ends, HasSame, after_command, chip_bad, chip_erases, chip_faults, chip_flash, chip_shape, chip_syncs};
ghost use Rattle.nand.specs.Chip.{IsNoCommand, chip_tally, chip_violations, coming, is_next_page, schedule_of, violations_after};
ghost use Rattle.nand.specs.Stored.{HasLostSector, ReadsStored, StopsLook, StopsUpdate, WereStored, stored_value, value_at, value_for};
ghost use Rattle.nand.specs.Histories.{IsFor, Leads, update_by};
ghost use Rattle.nand.specs.Nand.{CountsCommand, CountsCut, CountsFault, HasBytes, Performs, ReadsMain, ReadsStamp};
ghost use Rattle.nand.specs.Nand.{noted_of, other_fault, tally_after, value_with};
ghost use Rattle.nand.specs.Numbers.{IsInReserve, IsInUse, IsOrder, Marks, chip_block, chip_page, good_before};
ghost use Rattle.nand.specs.Numbers.{is_marked, most_in_use, numbered};
ghost use Rattle.nand.specs.Opened.{CanFreeInUse, CanOpen, Fails, HasFailed, IsUnmounted, IsOpenLayer, IsRefusal, IsSameDevice, IsSpent};
ghost use Rattle.nand.specs.Opened.{CanSpare, IsTrueCause, KeepsDevice, MarksFailed, ReadsSector, Were};
ghost use Rattle.nand.specs.Opened.{NumbersBelow, device_on, layer_sectors, marked_blocks, most_used, number_of, reserve_of, update_of};
ghost use Rattle.nand.specs.Programs.{AddsVersion, HasSomewhere, ProgramsOnce, TalliesMoves, TalliesOnce};
ghost use Rattle.nand.specs.Attempts.{TalliesAttempt};
ghost use Rattle.nand.specs.declared.chip.Chip.{Chip as Modelled};
ghost use Rattle.nand.specs.declared.chip.Cut.TheVariants as cut;
ghost use Rattle.nand.specs.declared.chip.Fate.TheVariants as fate;
ghost use Rattle.nand.specs.declared.cells.Page.{Page as Cell};
ghost use Rattle.nand.specs.declared.cells.Page.TheVariants as page;
ghost use Rattle.nand.specs.declared.failure.Failure.TheVariants as failure;
ghost use Rattle.nand.specs.declared.flash.Fault.{Fault as Cause};
ghost use Rattle.nand.specs.declared.flash.Fault.TheVariants as fault;
ghost use Rattle.nand.specs.declared.flash.PowerGone.{PowerGone as NoPower};
ghost use Rattle.nand.specs.declared.flash.Reading.TheVariants as outcome;
ghost use Rattle.nand.specs.declared.flash.Shape.{Shape as Numbers};
ghost use Rattle.nand.specs.declared.flash.Tally.{Tally as Counts};
ghost use Rattle.nand.specs.declared.history.Change.{Change as Call};
ghost use Rattle.nand.specs.declared.history.Change.TheVariants.{Trim, Write};
ghost use Rattle.nand.specs.declared.layer.Durable.{Durable as Layer};
ghost use Rattle.nand.specs.declared.updating.Stop.TheVariants as stop;

/// What reads may say of pages.
pub fn readings()
    ensures value { value_with false (5 ∷ []) ≡ Some (5 ∷ []) }
    ensures trim { value_with true (5 ∷ []) ≡ None }
    ensures version { ReadsStamp (Version (sole 7) 3 (Some (5 ∷ [])))
        (outcome.Version (record { extent = sole 7; number = 3; trimmed = false })) }
    ensures trimmed { ReadsStamp (Version (sole 7) 3 None)
        (outcome.Version (record { extent = sole 7; number = 3; trimmed = true })) }
    ensures sector { ¬ ReadsStamp (Version (sole 7) 3 None)
        (outcome.Version (record { extent = sole 8; number = 3; trimmed = true })) }
    ensures number { ¬ ReadsStamp (Version (sole 7) 3 None)
        (outcome.Version (record { extent = sole 7; number = 4; trimmed = true })) }
    ensures not_trimmed { ¬ ReadsStamp (Version (sole 7) 3 None)
        (outcome.Version (record { extent = sole 7; number = 3; trimmed = false })) }
    ensures data { ¬ ReadsStamp (Version (sole 7) 3 (Some (5 ∷ [])))
        (outcome.Version (record { extent = sole 7; number = 3; trimmed = true })) }
    ensures missed { ¬ ReadsStamp (Version (sole 7) 3 None) outcome.Erased }
    ensures unread { ¬ ReadsStamp (Version (sole 7) 3 None) outcome.Unreadable }
    ensures torn { ReadsStamp Torn outcome.Unreadable }
    ensures torn_erased { ReadsStamp Torn outcome.Erased }
    ensures torn_version { ¬ ReadsStamp Torn
        (outcome.Version (record { extent = sole 7; number = 3; trimmed = true })) }
    ensures erased { ReadsStamp Erased outcome.Erased }
    ensures erased_unread { ReadsStamp Erased outcome.Unreadable }
    ensures erased_version { ¬ ReadsStamp Erased
        (outcome.Version (record { extent = sole 7; number = 3; trimmed = true })) }
    ensures main { ReadsMain (Version (sole 7) 3 (Some (5 ∷ []))) (5 ∷ []) }
    ensures other_main { ¬ ReadsMain (Version (sole 7) 3 (Some (5 ∷ []))) (6 ∷ []) }
    ensures no_main { ReadsMain (Version (sole 7) 3 None) (6 ∷ []) }
    ensures torn_main { ReadsMain Torn (6 ∷ []) }
    ensures erased_main { ReadsMain Erased (6 ∷ []) }
    ensures noted { noted_of
        (outcome.Version (record { extent = sole 7; number = 3; trimmed = true }))
        ≡ Some (record { extent = sole 7; number = 3; is_trim = true }) }
    ensures noted_value { noted_of
        (outcome.Version (record { extent = sole 7; number = 3; trimmed = false }))
        ≡ Some (record { extent = sole 7; number = 3; is_trim = false }) }
    ensures not_noted { noted_of outcome.Unreadable ≡ None }
    ensures none_noted { noted_of outcome.Erased ≡ None }
    ensures some_written { (array : ℕ → Sector) → array 8 ≡ Some (5 ∷ [])
        → Were array (record { first = 7; count = 2 }) was.Written }
    ensures none_written { (array : ℕ → Sector) → array 8 ≡ Some (5 ∷ [])
        → ¬ Were array (record { first = 7; count = 2 }) was.Empty }
    ensures other_written { (array : ℕ → Sector) → array 7 ≡ None → array 8 ≡ None
        → ¬ Were array (record { first = 7; count = 2 }) was.Written }
    ensures all_empty { (array : ℕ → Sector) → ((k : ℕ) → array k ≡ None)
        → Were array (record { first = 7; count = 2 }) was.Empty }
    ensures empty { ReadsSector None got.Empty (6 ∷ []) }
    ensures empty_data { ¬ ReadsSector None got.Data (6 ∷ []) }
    ensures bytes { ReadsSector (Some (5 ∷ [])) got.Data (5 ∷ []) }
    ensures other_bytes { ¬ ReadsSector (Some (5 ∷ [])) got.Data (6 ∷ []) }
    ensures lost { ¬ ReadsSector (Some (5 ∷ [])) got.Empty (5 ∷ []) }
{}

/// What a layer has of its sectors, and what calls tell of them.
pub fn stored_sectors()
    ensures empty { value_for (Version (sole 7) 3 None) 7 ≡ Some None }
    ensures value { value_for (Version (sole 7) 3 (Some (5 ∷ []))) 7 ≡ Some (Some (5 ∷ [])) }
    ensures other { value_for (Version (sole 7) 3 None) 8 ≡ None }
    ensures torn { value_for Torn 7 ≡ None }
    ensures erased { value_for Erased 7 ≡ None }
    ensures no_page { (f : Flash) → value_at f None 7 ≡ Some None }
    ensures page { (f : Flash) → f 1 2 ≡ Torn
        → value_at f (Some (record { block = 1; page = 2 })) 7 ≡ None }
    ensures lost { (layer : Layer Modelled) → layer.numbers.items ≡ 2 ∷ 0 ∷ 1 ∷ []
        → map_entry layer.core 7 ≡ Some (record { block = 0; page = 4 })
        → chip_flash layer.nand 2 4 ≡ Torn → stored_value chip_flash layer 7 ≡ None }
    ensures unmapped { (layer : Layer Modelled)
        → map_entry layer.core 7 ≡ None → stored_value chip_flash layer 7 ≡ Some None }
    ensures reads { ReadsStored (Some (Some (5 ∷ []))) got.Data (5 ∷ []) }
    ensures reads_other { ¬ ReadsStored (Some (Some (5 ∷ []))) got.Empty (5 ∷ []) }
    ensures reads_lost { ¬ ReadsStored None got.Empty (5 ∷ []) }
    ensures were_empty { (has : ℕ → Option Sector) → ((k : ℕ) → has k ≡ Some None)
        → WereStored has (record { first = 7; count = 2 }) was.Empty }
    ensures were_lost { (has : ℕ → Option Sector) → has 8 ≡ None
        → ¬ WereStored has (record { first = 7; count = 2 }) was.Empty }
    ensures were_written { (has : ℕ → Option Sector) → has 7 ≡ Some None → has 8 ≡ Some (Some (5 ∷ []))
        → WereStored has (record { first = 7; count = 2 }) was.Written }
    ensures not_written { (has : ℕ → Option Sector) → has 7 ≡ None → has 8 ≡ Some None
        → ¬ WereStored has (record { first = 7; count = 2 }) was.Written }
    ensures written_behind { (has : ℕ → Option Sector) → has 7 ≡ None → has 8 ≡ Some (Some (5 ∷ []))
        → ¬ WereStored has (record { first = 7; count = 2 }) was.Written }
    ensures has_lost { (has : ℕ → Option Sector) → has 7 ≡ Some None → has 8 ≡ None
        → HasLostSector has (record { first = 7; count = 2 }) }
    ensures lost_behind { (has : ℕ → Option Sector) → has 7 ≡ Some (Some (5 ∷ [])) → has 8 ≡ None
        → ¬ HasLostSector has (record { first = 7; count = 2 }) }
    ensures none_lost { (has : ℕ → Option Sector) → has 7 ≡ Some None → has 8 ≡ Some None
        → ¬ HasLostSector has (record { first = 7; count = 2 }) }
{}

/// Why calls fail that look at sectors.
pub fn failed_looks()
    ensures lost { (has : ℕ → Option Sector) → has 7 ≡ None
        → StopsLook has (sole 7) failure.Lost }
    ensures there { (has : ℕ → Option Sector) → has 7 ≡ Some None
        → ¬ StopsLook has (sole 7) failure.Lost }
    ensures power { (has : ℕ → Option Sector) → StopsLook has (sole 7) failure.PowerGone }
    ensures closed { (has : ℕ → Option Sector) → StopsLook has (sole 7) failure.Closed }
    ensures failed { (has : ℕ → Option Sector) → ¬ StopsLook has (sole 7) failure.Failed }
    ensures number { (has : ℕ → Option Sector) → ¬ StopsLook has (sole 7) failure.NoNumber }
    ensures written { (has : ℕ → Option Sector) → ¬ StopsLook has (sole 7) failure.Written }
    ensures update_lost { (has : ℕ → Option Sector) → has 7 ≡ None
        → StopsUpdate was.Empty has (sole 7) failure.Lost }
    ensures update_there { (has : ℕ → Option Sector) → has 7 ≡ Some None
        → ¬ StopsUpdate was.Empty has (sole 7) failure.Lost }
    ensures update_power { (has : ℕ → Option Sector)
        → StopsUpdate was.Empty has (sole 7) failure.PowerGone }
    ensures update_closed { (has : ℕ → Option Sector)
        → StopsUpdate was.Empty has (sole 7) failure.Closed }
    ensures updates { (has : ℕ → Option Sector) → has 7 ≡ Some (Some (5 ∷ []))
        → StopsUpdate was.Written has (sole 7) failure.Failed }
    ensures update_failed { (has : ℕ → Option Sector) → has 7 ≡ None
        → ¬ StopsUpdate was.Empty has (sole 7) failure.Failed }
    ensures update_number { (has : ℕ → Option Sector) → has 7 ≡ None
        → ¬ StopsUpdate was.Empty has (sole 7) failure.NoNumber }
    ensures update_written { (has : ℕ → Option Sector) → has 7 ≡ None
        → ¬ StopsUpdate was.Empty has (sole 7) failure.Written }
{}

/// What a command leaves, and which counts a call changes.
pub fn outcomes()
    ensures done { (f t : Flash)
        → Performs {T = ℕ} (command.Program (record { block = 1; page = 2 }) 5)
        (sole 7) None (Ok 0) f t → f 1 2 ≡ Erased
        → t 1 2 ≡ Version (sole 7) 5 None }
    ensures programmed { (f t : Flash) → f 1 2 ≡ Torn
        → Performs {T = ℕ} (command.Program (record { block = 1; page = 2 }) 5) (sole 7) None (Ok 0) f t }
    ensures failed { (f : Flash)
        → Performs {T = ℕ} (command.Program (record { block = 1; page = 2 }) 5)
        (sole 7) None (Err fault.Failed) f f }
    ensures cut { (f : Flash)
        → Performs {T = ℕ} (command.Program (record { block = 1; page = 2 }) 5)
        (sole 7) None (Err fault.PowerGone) f f }
    ensures not_done { (f : Flash) → f 1 2 ≡ Erased
        → ¬ Performs {T = ℕ} (command.Program (record { block = 1; page = 2 }) 5) (sole 7) None (Ok 0) f f }
    ensures torn { (f t : Flash) → SetsPage f t 1 2 Torn
        → Performs {T = ℕ} (command.Program (record { block = 1; page = 2 }) 5) (sole 7) None (Err fault.Failed) f t }
    ensures other { (f t : Flash) → f 1 2 ≡ Erased → t 0 0 ≢ f 0 0
        → ¬ Performs {T = ℕ} (command.Program (record { block = 1; page = 2 }) 5) (sole 7) None (Err fault.Failed) f t }
    ensures same { (count : Cause → ℕ) → CountsFault {T = ℕ} count count (Ok 0) }
    ensures success { (old new : Cause → ℕ) → new fault.Failed ≢ old fault.Failed
        → ¬ CountsFault {T = ℕ} old new (Ok 0) }
    ensures same_cut { (old new : Cause → ℕ) → new fault.PowerGone ≢ old fault.PowerGone
        → ¬ CountsFault {T = ℕ} old new (Ok 0) }
    ensures other_failed { other_fault fault.PowerGone ≡ fault.Failed }
    ensures other_gone { other_fault fault.Failed ≡ fault.PowerGone }
    ensures wraps { (old new : Cause → ℕ) → CountsFault {T = ℕ} old new (Err fault.Failed)
        → old fault.Failed ≡ 2 ^ 64 - 1 → new fault.Failed ≡ 0 }
    ensures counted { (old new : Cause → ℕ) → CountsFault {T = ℕ} old new (Err fault.Failed)
        → old fault.Failed ≡ 2 → new fault.Failed ≡ 3 }
    ensures only { (old new : Cause → ℕ) → CountsFault {T = ℕ} old new (Err fault.Failed)
        → new fault.PowerGone ≡ old fault.PowerGone }
    ensures counts { (old new : Cause → ℕ) → CountsFault {T = ℕ} old new (Err fault.PowerGone)
        → old fault.PowerGone ≡ 2 → new fault.PowerGone ≡ 3 }
    ensures not_power { (old new : Cause → ℕ) → new fault.Failed ≢ old fault.Failed
        → new fault.PowerGone ≡ old fault.PowerGone
        → ¬ CountsFault {T = ℕ} old new (Err fault.PowerGone) }
    ensures same_cuts { (count : Cause → ℕ) → CountsCut {T = ℕ} count count (Ok 0) }
    ensures no_cut { (old new : Cause → ℕ) → new fault.Failed ≢ old fault.Failed
        → ¬ CountsCut {T = ℕ} old new (Ok 0) }
    ensures no_power { (old new : Cause → ℕ) → new fault.PowerGone ≢ old fault.PowerGone
        → ¬ CountsCut {T = ℕ} old new (Ok 0) }
    ensures power { (count : Cause → ℕ) (gone : NoPower)
        → ¬ CountsCut {T = ℕ} count count (Err gone) }
    ensures gone { (old new : Cause → ℕ) (gone : NoPower) → CountsCut {T = ℕ} old new (Err gone)
        → old fault.PowerGone ≡ 2 → new fault.PowerGone ≡ 3 }
    ensures no_failure { (old new : Cause → ℕ) (gone : NoPower)
        → CountsCut {T = ℕ} old new (Err gone) → new fault.Failed ≡ old fault.Failed }
{}

/// What a modelled chip holds and counts.
pub fn modelled()
    ensures erased { contents_of page.Erased ≡ Erased }
    ensures torn { contents_of page.Torn ≡ Torn }
    ensures none { (b p : ℕ) → flash_in [] b p ≡ Erased }
    ensures page { (pages : Vec Cell OnHeap)
        → pages.items ≡ page.Erased ∷ page.Torn ∷ [] → flash_in (pages ∷ []) 0 1 ≡ Torn }
    ensures beyond { (pages : Vec Cell OnHeap)
        → pages.items ≡ page.Torn ∷ [] → flash_in (pages ∷ []) 0 1 ≡ Erased }
    ensures chip { (chip : Modelled) (pages : Vec Cell OnHeap) → chip.blocks.items ≡ pages ∷ []
        → pages.items ≡ page.Torn ∷ [] → chip_flash chip 0 0 ≡ Torn }
    ensures shape { (chip : Modelled) → chip.shape.pages ≡ 4 → (chip_shape chip).pages ≡ 4 }
    ensures version { (main : Vec ℕ OnHeap) → main.items ≡ 5 ∷ []
        → contents_of (page.Version (record { extent = sole 7; number = 3; trimmed = false }) main) ≡ Version (sole 7) 3 (Some (5 ∷ [])) }
    ensures trim { (main : Vec ℕ OnHeap)
        → contents_of (page.Version (record { extent = sole 7; number = 3; trimmed = true }) main)
        ≡ Version (sole 7) 3 None }
    ensures read_erased { reading_of Erased ≡ outcome.Erased }
    ensures read_torn { reading_of Torn ≡ outcome.Unreadable }
    ensures read { reading_of (Version (sole 7) 3 None)
        ≡ outcome.Version (record { extent = sole 7; number = 3; trimmed = true }) }
    ensures wiped { (f t : Flash) → IsWiped f t 1 → t 1 3 ≡ Erased }
    ensures other { (f t : Flash) → IsWiped f t 1 → t 0 3 ≡ f 0 3 }
    ensures clean { (f : Flash) → IsErased f → IsWiped f f 1 }
    ensures not_wiped { (f : Flash) → f 1 3 ≡ Torn → ¬ IsWiped f f 1 }
    ensures failures { (chip : Modelled) → chip.failures ≡ 2 → chip_faults chip fault.Failed ≡ 2 }
    ensures cuts { (chip : Modelled) → chip.cuts ≡ 3 → chip_faults chip fault.PowerGone ≡ 3 }
    ensures syncs { (chip : Modelled) → chip.syncs ≡ 3 → chip_syncs chip ≡ 3 }
    ensures tally { (chip : Modelled) → chip.tally.copies ≡ 3 → (chip_tally chip).copies ≡ 3 }
{}

/// What comes of a modelled chip's commands.
pub fn schedules()
    ensures off { coming (record { powered = false; commands = 3; cut = None; failing = None })
        ≡ fate.Cut cut.Nothing }
    ensures done { coming
        (record { powered = true; commands = 3; cut = Some (4, cut.Whole); failing = Some (5, 1) })
        ≡ fate.Done }
    ensures cut { coming
        (record { powered = true; commands = 4; cut = Some (4, cut.Whole); failing = Some (4, 1) })
        ≡ fate.Cut cut.Whole }
    ensures fails { coming
        (record { powered = true; commands = 5; cut = Some (4, cut.Whole); failing = Some (5, 1) })
        ≡ fate.Fails }
    ensures fails_again { coming
        (record { powered = true; commands = 7; cut = None; failing = Some (5, 5) }) ≡ fate.Fails }
    ensures between { coming
        (record { powered = true; commands = 6; cut = None; failing = Some (5, 5) }) ≡ fate.Done }
    ensures before { coming
        (record { powered = true; commands = 4; cut = None; failing = Some (5, 5) }) ≡ fate.Done }
    ensures past { coming
        (record { powered = true; commands = 69; cut = None; failing = Some (5, 2 ^ 64 - 1) })
        ≡ fate.Done }
    ensures counts { after_command
        (record { powered = true; commands = 3; cut = Some (4, cut.Whole); failing = Some (5, 1) })
        ≡ record { powered = true; commands = 4; cut = Some (4, cut.Whole); failing = Some (5, 1) } }
    ensures wraps { (after_command
        (record { powered = true; commands = 2 ^ 64 - 1; cut = None; failing = None })).commands
        ≡ 0 }
    ensures falls { after_command
        (record { powered = true; commands = 4; cut = Some (4, cut.Whole); failing = Some (5, 1) })
        ≡ record { powered = false; commands = 5; cut = None; failing = Some (5, 1) } }
    ensures stays_off { after_command
        (record { powered = false; commands = 4; cut = Some (4, cut.Whole); failing = None })
        ≡ record { powered = false; commands = 4; cut = Some (4, cut.Whole); failing = None } }
    ensures lost { ¬ Ends (fate.Cut cut.Whole) (Ok tt) }
    ensures gone { Ends (fate.Cut cut.Whole) (Err fault.PowerGone) }
    ensures no_cut { ¬ Ends fate.Done (Err fault.PowerGone) }
    ensures memory { Ends fate.Done (Err fault.Failed) }
    ensures succeeds { Ends fate.Done (Ok tt) }
    ensures failed { Ends fate.Fails (Err fault.Failed) }
    ensures not_failed { ¬ Ends fate.Fails (Ok tt) }
    ensures not_gone { ¬ Ends fate.Fails (Err fault.PowerGone) }
    ensures same_page { (old new : Modelled) → HasSame old new
        → chip_flash old 0 0 ≡ Torn → chip_flash new 0 0 ≡ Torn }
    ensures same_shape { (old new : Modelled) → HasSame old new
        → (chip_shape old).pages ≡ 4 → (chip_shape new).pages ≡ 4 }
    ensures same_bad { (old new : Modelled) → HasSame old new
        → chip_bad old ≡ true ∷ [] → chip_bad new ≡ true ∷ [] }
    ensures same_erases { (old new : Modelled) → HasSame old new
        → chip_erases old ≡ 3 ∷ [] → chip_erases new ≡ 3 ∷ [] }
    ensures same_failures { (old new : Modelled) → HasSame old new
        → chip_faults new fault.Failed ≡ chip_faults old fault.Failed }
    ensures same_cuts { (old new : Modelled) → HasSame old new
        → chip_faults new fault.PowerGone ≡ chip_faults old fault.PowerGone }
    ensures same_tally { (old new : Modelled) → HasSame old new
        → (chip_tally old).copies ≡ 3 → (chip_tally new).copies ≡ 3 }
    ensures same_syncs { (old new : Modelled) → HasSame old new
        → chip_syncs old ≡ 3 → chip_syncs new ≡ 3 }
    ensures same_violations { (old new : Modelled) → HasSame old new
        → chip_violations old ≡ 3 → chip_violations new ≡ 3 }
    ensures bad { (chip : Modelled) → chip.bad.items ≡ true ∷ [] → chip_bad chip ≡ true ∷ [] }
    ensures erases { (chip : Modelled) → chip.erases.items ≡ 3 ∷ [] → chip_erases chip ≡ 3 ∷ [] }
    ensures powered { (chip : Modelled) → chip.powered ≡ true → (schedule_of chip).powered ≡ true }
    ensures commands { (chip : Modelled) → chip.commands ≡ 3 → (schedule_of chip).commands ≡ 3 }
    ensures at { (chip : Modelled) → chip.cut ≡ Some (4, cut.Whole)
        → (schedule_of chip).cut ≡ Some (4, cut.Whole) }
    ensures failing { (chip : Modelled) → chip.failing ≡ Some (5, 1)
        → (schedule_of chip).failing ≡ Some (5, 1) }
{}

/// In which order a modelled chip's pages are programmed, what breaks it, and what a call leaves that is no command.
pub fn page_order()
    ensures first { (f : Flash) → IsErased f
        → is_next_page f (record { block = 0; page = 0 }) ≡ true }
    ensures ahead { (f : Flash) → IsErased f
        → is_next_page f (record { block = 0; page = 1 }) ≡ false }
    ensures next { (f : Flash) → f 0 0 ≡ Torn → f 0 1 ≡ Erased
        → is_next_page f (record { block = 0; page = 1 }) ≡ true }
    ensures torn { (f : Flash) → f 0 0 ≡ Torn
        → is_next_page f (record { block = 0; page = 0 }) ≡ false }
    ensures programmed { (f : Flash) → f 0 0 ≡ Version (sole 7) 3 None
        → is_next_page f (record { block = 0; page = 0 }) ≡ false }
    ensures breaks { violations_after fate.Done false 3 ≡ 4 }
    ensures wraps { violations_after fate.Done false (2 ^ 64 - 1) ≡ 0 }
    ensures obeys { violations_after fate.Done true 3 ≡ 3 }
    ensures failed { violations_after fate.Fails false 3 ≡ 3 }
    ensures cut_off { violations_after (fate.Cut cut.Nothing) false 3 ≡ 3 }
    ensures counted { (chip : Modelled) → chip.violations ≡ 3 → chip_violations chip ≡ 3 }
    ensures pages { (old new : Modelled) → IsNoCommand old new
        → chip_flash old 0 0 ≡ Torn → chip_flash new 0 0 ≡ Torn }
    ensures schedule { (old new : Modelled) → IsNoCommand old new
        → (schedule_of old).commands ≡ 3 → (schedule_of new).commands ≡ 3 }
    ensures shape { (old new : Modelled) → IsNoCommand old new
        → (chip_shape old).pages ≡ 4 → (chip_shape new).pages ≡ 4 }
    ensures erases { (old new : Modelled) → IsNoCommand old new
        → chip_erases old ≡ 3 ∷ [] → chip_erases new ≡ 3 ∷ [] }
    ensures tally { (old new : Modelled) → IsNoCommand old new
        → (chip_tally old).copies ≡ 3 → (chip_tally new).copies ≡ 3 }
    ensures violations { (old new : Modelled) → IsNoCommand old new
        → chip_violations old ≡ 3 → chip_violations new ≡ 3 }
{}

/// Which failures may come, and what they leave.
pub fn failures()
    ensures no_number { IsRefusal failure.NoNumber }
    ensures is_written { IsRefusal failure.Written }
    ensures no_power { ¬ IsRefusal failure.PowerGone }
    ensures no_command { ¬ IsRefusal failure.Failed }
    ensures is_closed { ¬ IsRefusal failure.Closed }
    ensures is_lost { ¬ IsRefusal failure.Lost }
{}

/// An open layer on a modelled chip, and a chip that can be opened.
pub fn opened()
    ensures most { (shape : Numbers) → shape.blocks ≡ 100 → shape.spare_blocks ≡ 3
        → shape.pages ≡ 4 → most_used shape 8 ≡ 97 }
    ensures blocks { (shape : Numbers)
        → shape.blocks ≡ 9 → shape.spare_blocks ≡ 1 → shape.pages ≡ 4
        → ((device_on shape [] 8).blocks ≡ 8) × ((device_on shape [] 8).read_blocks ≡ 9) }
    ensures bad_block { (shape : Numbers) → shape.blocks ≡ 3 → shape.pages ≡ 4
        → ((device_on shape (false ∷ true ∷ []) 8).blocks ≡ 2)
        × ((device_on shape (false ∷ true ∷ []) 8).read_blocks ≡ 3) }
    ensures pages { (shape : Numbers) → shape.pages ≡ 4 → (device_on shape [] 8).pages ≡ 4 }
    ensures sectors { (shape : Numbers) → (device_on shape [] 8).sectors ≡ 8 }
    ensures sector { (update_of (sole 7) None).extent ≡ sole 7 }
    ensures value { (update_of (sole 7) (Some (5 ∷ []))).value ≡ Some (5 ∷ []) }
    ensures size { (layer : Layer Modelled)
        → (device_of layer.core).sectors ≡ 8 → layer_sectors layer ≡ 8 }
    ensures number { (layer : Layer Modelled)
        → next_number_of layer.core ≡ 5 → number_of layer ≡ 5 }
    ensures below { (f : Flash) (v : Sector) → f 0 0 ≡ Version (sole 7) 5 v
        → ¬ NumbersBelow f 5 }
    ensures none_below { (f : Flash) → IsErased f → NumbersBelow f 0 }
    ensures rest { (layer : Layer Modelled)
        → layer.good ≡ 5 → (device_of layer.core).blocks ≡ 3 → reserve_of layer ≡ 2 }
    ensures is_closed { (layer : Layer Modelled) → layer.mounted ≡ false → IsUnmounted layer }
    ensures closed { (layer : Layer Modelled) (updates : List Update) → IsUnmounted layer
        → ¬ IsOpenLayer chip_flash chip_shape chip_bad layer updates }
    ensures other_chip { (layer : Layer Modelled) (updates : List Update)
        → (chip_shape layer.nand).blocks ≡ 3 → (device_of layer.core).read_blocks ≡ 4
        → ¬ IsOpenLayer chip_flash chip_shape chip_bad layer updates }
    ensures numbered { (layer : Layer Modelled) (v : Sector) (updates : List Update)
        → IsOpenLayer chip_flash chip_shape chip_bad layer updates
        → chip_flash layer.nand 0 0 ≡ Version (sole 7) 5 v → 5 < next_number_of layer.core }
    ensures bad_unused { (layer : Layer Modelled) (updates : List Update)
        → IsOpenLayer chip_flash chip_shape chip_bad layer updates
        → chip_bad layer.nand ≡ true ∷ false ∷ false ∷ []
        → chip_block layer.numbers.items 0 ≢ 0 }
    ensures frees { (chip : Modelled) (updates : List Update)
        → (chip_shape chip).blocks ≡ 1 → chip_bad chip ≡ true ∷ []
        → ¬ CanOpen chip_flash chip_shape chip_bad chip 8 updates }
    ensures in_reserve { (layer : Layer Modelled) (updates : List Update)
        → IsOpenLayer chip_flash chip_shape chip_bad layer updates
        → (chip_shape layer.nand).spare_blocks ≡ 1
        → (chip_shape layer.nand).pages ≡ 4 → layer_sectors layer ≡ 3
        → chip_bad layer.nand ≡ false ∷ false ∷ false ∷ [] → reserve_of layer ≡ 1 }
    ensures blank { (layer : Layer Modelled) (v : Sector) (updates : List Update)
        → IsOpenLayer chip_flash chip_shape chip_bad layer updates
        → (chip_shape layer.nand).spare_blocks ≡ 1
        → (chip_shape layer.nand).pages ≡ 4 → layer_sectors layer ≡ 3
        → chip_bad layer.nand ≡ false ∷ false ∷ false ∷ []
        → chip_flash layer.nand 2 0 ≢ Version (sole 1) 5 v }
    ensures blank_chip { (chip : Modelled) (v : Sector) (updates : List Update)
        → CanOpen chip_flash chip_shape chip_bad chip 3 updates
        → (chip_shape chip).spare_blocks ≡ 1
        → (chip_shape chip).pages ≡ 4 → chip_bad chip ≡ false ∷ false ∷ false ∷ []
        → chip_flash chip 2 0 ≢ Version (sole 1) 5 v }
    ensures freed { (f : Flash) (shape : Numbers) → shape.blocks ≡ 2
        → CanFreeInUse f shape (true ∷ false ∷ []) 8 → IsDuplicated f 8 1 }
    ensures freed_in_use { (f : Flash) (shape : Numbers)
        → shape.blocks ≡ 9 → shape.spare_blocks ≡ 1 → shape.pages ≡ 4 → CanFreeInUse f shape [] 8
        → (b : ℕ) × (good_before [] b < 8) × IsDuplicated f 8 b }
    ensures keeps { (chip : Modelled) (updates : List Update)
        → CanOpen chip_flash chip_shape chip_bad chip 8 updates
        → KeepsAcknowledged (chip_flash chip) 8 updates updates }
    ensures erased { (chip : Modelled) → IsErased (chip_flash chip)
        → 0 < good_before (chip_bad chip) (chip_shape chip).blocks
        → CanOpen chip_flash chip_shape chip_bad chip 8 [] }
    ensures on_chip { (chip : Modelled) (v : Sector) (updates : List Update)
        → CanOpen chip_flash chip_shape chip_bad chip 8 updates
        → chip_flash chip 3 0 ≡ Version (sole 7) 5 v → 3 < (chip_shape chip).blocks }
    ensures no_sector { (chip : Modelled) (v : Sector) (updates : List Update)
        → chip_flash chip 3 0 ≡ Version (sole 8) 5 v
        → ¬ CanOpen chip_flash chip_shape chip_bad chip 8 updates }
{}

/// The order of a chip's blocks.
pub fn orders()
    ensures good { (is_marked (false ∷ true ∷ []) 0 ≡ false)
        × (is_marked (false ∷ true ∷ []) 1 ≡ true) × (is_marked (false ∷ true ∷ []) 2 ≡ false) }
    ensures counted { (good_before (true ∷ false ∷ []) 1 ≡ 0)
        × (good_before (true ∷ false ∷ []) 2 ≡ 1) × (good_before (true ∷ false ∷ []) 3 ≡ 2) }
    ensures block { (chip_block (2 ∷ 0 ∷ 1 ∷ []) 0 ≡ 2) × (chip_block (2 ∷ 0 ∷ 1 ∷ []) 3 ≡ 3) }
    ensures page { chip_page (2 ∷ 0 ∷ 1 ∷ []) (record { block = 0; page = 4 })
        ≡ record { block = 2; page = 4 } }
    ensures numbers { (f : Flash) → numbered (2 ∷ 0 ∷ 1 ∷ []) f 0 4 ≡ f 2 4 }
    ensures first { (numbers : List ℕ)
        → IsOrder numbers (true ∷ false ∷ []) 2 2 → chip_block numbers 0 ≢ 0 }
    ensures last { (numbers : List ℕ)
        → IsOrder numbers (false ∷ true ∷ []) 2 2 → chip_block numbers 1 ≡ 1 }
    ensures once { (numbers : List ℕ) (bad : List Bool)
        → IsOrder numbers bad 2 2 → chip_block numbers 0 ≢ chip_block numbers 1 }
    ensures every { (numbers : List ℕ) (bad : List Bool) → IsOrder numbers bad 2 2
        → (c : ℕ) × (c < 2) × (chip_block numbers c ≡ 1) }
    ensures lies { (numbers : List ℕ) (bad : List Bool)
        → IsOrder numbers bad 2 2 → chip_block numbers 1 < 2 }
    ensures rest { (numbers : List ℕ) → IsOrder numbers [] 2 2 → chip_block numbers 5 ≡ 5 }
    ensures in_order { IsOrder (0 ∷ 1 ∷ []) [] 2 2 }
    ensures any_order { IsOrder (1 ∷ 0 ∷ []) [] 2 2 }
    ensures bad_last { IsOrder (1 ∷ 0 ∷ []) (true ∷ false ∷ []) 2 2 }
    ensures in_use_first { (numbers : List ℕ)
        → IsOrder numbers [] 2 1 → chip_block numbers 0 ≡ 0 }
    ensures reserve_backwards { (numbers : List ℕ)
        → IsOrder numbers [] 3 1 → (chip_block numbers 1 ≡ 2) × (chip_block numbers 2 ≡ 1) }
    ensures most { most_in_use 100 3 4 8 ≡ 97 }
    ensures least { most_in_use 3 2 2 3 ≡ 3 }
    ensures in_use { IsInUse (true ∷ false ∷ []) 1 1 }
    ensures past_use { ¬ IsInUse (false ∷ false ∷ []) 1 1 }
    ensures bad_use { ¬ IsInUse (true ∷ []) 1 0 }
    ensures reserve { IsInReserve (false ∷ false ∷ []) 1 1 }
    ensures no_reserve { ¬ IsInReserve (false ∷ false ∷ []) 1 0 }
    ensures bad_reserve { ¬ IsInReserve (false ∷ true ∷ []) 1 1 }
    ensures marked { (now : List Bool) → Marks [] now 1 → is_marked now 1 ≡ true }
    ensures unmarked { (now : List Bool)
        → Marks (true ∷ false ∷ []) now 1 → is_marked now 0 ≡ true }
{}

/// Which bytes the flash has of a sector.
pub fn bytes_of_sectors()
    ensures there { (f : Flash) → f 1 2 ≡ Version (sole 8) 3 (Some (5 ∷ []))
        → HasBytes f 8 (5 ∷ []) }
    ensures nowhere { (f : Flash) → IsErased f → ¬ HasBytes f 8 [] }
    ensures other_sector { (f : Flash) → ((b p : ℕ) → f b p ≡ Version (sole 9) 3 (Some []))
        → ¬ HasBytes f 8 [] }
    ensures other_bytes { (f : Flash) → ((b p : ℕ) → f b p ≡ Version (sole 8) 3 (Some []))
        → ¬ HasBytes f 8 (5 ∷ []) }
{}

/// Which versions a call adds.
pub fn programs()
    ensures somewhere { (f : Flash) → f 1 2 ≡ Version (sole 8) 3 None
        → HasSomewhere f (sole 8) 3 None }
    ensures nowhere { (f : Flash) → IsErased f → ¬ HasSomewhere f (sole 8) 3 None }
    ensures put { (f t : Flash) (u : Update) → AddsVersion f t 5 u
        → HasSomewhere t u.extent 5 u.value }
    ensures adds { (f t : Flash) → SetsPage f t 0 1 (Version (sole 7) 5 None)
        → AddsVersion f t 5 (update_of (sole 7) None) }
    ensures second_page { (f t : Flash) (u : Update) → IsErased f
        → AddsVersion f t 5 u → t 0 0 ≡ Version (sole 7) 5 None
        → t 0 1 ≢ Version (sole 7) 6 None }
    ensures second_block { (f t : Flash) (u : Update) → IsErased f
        → AddsVersion f t 5 u → t 0 0 ≡ Version (sole 7) 5 None
        → t 1 0 ≢ Version (sole 7) 6 None }
    ensures numbered { (old new : Layer Modelled) (u : Update)
        → ProgramsOnce chip_flash chip_shape chip_bad chip_tally old new u
        → chip_bad new.nand ≡ chip_bad old.nand
        → number_of old ≡ 5 → HasSomewhere (chip_flash new.nand) u.extent 5 u.value }
    ensures once { (old new : Layer Modelled) (u : Update)
        → ProgramsOnce chip_flash chip_shape chip_bad chip_tally old new u
        → chip_bad new.nand ≡ chip_bad old.nand
        → IsErased (chip_flash old.nand) → chip_flash new.nand 0 0 ≡ Version (sole 7) 5 None
        → chip_flash new.nand 0 1 ≢ Version (sole 7) 6 None }
    ensures marked { (old new : Layer Modelled) (u : Update)
        → chip_bad new.nand ≢ chip_bad old.nand
        → TalliesOnce (chip_tally old.nand) (chip_tally new.nand)
        (marked_blocks chip_shape chip_bad old new + 1) (chip_shape old.nand).pages
        → ProgramsOnce chip_flash chip_shape chip_bad chip_tally old new u }
{}

/// How commands are counted, and how many a call does.
pub fn tallies()
    ensures program { (at : Addr) (tally : Counts) → tally.programs ≡ 1
        → tally_after (command.Program at 5) tally ≡ record tally { programs = 2 } }
    ensures copy { (at : Addr) (tally : Counts) → tally.copies ≡ 2
        → tally_after (command.Copy 7 at at) tally ≡ record tally { copies = 3 } }
    ensures erase { (tally : Counts) → tally.erases ≡ 3
        → tally_after (command.Erase 0) tally ≡ record tally { erases = 4 } }
    ensures wraps { (tally : Counts) → tally.erases ≡ 2 ^ 64 - 1
        → (tally_after (command.Erase 0) tally).erases ≡ 0 }
    ensures none { (tally : Counts) → tally_after command.Refused tally ≡ tally }
    ensures done { (before now : Counts) → before.erases ≡ 3
        → CountsCommand {T = ℕ} (command.Erase 0) before now (Ok 0) → now.erases ≡ 4 }
    ensures failed { (before now : Counts)
        → CountsCommand {T = ℕ} (command.Erase 0) before now (Err fault.Failed) → now ≡ before }
    ensures same { (tally : Counts)
        → CountsCommand {T = ℕ} (command.Erase 0) tally tally (Err fault.Failed) }
    ensures collects { TalliesOnce (record { programs = 1; copies = 2; erases = 3 })
        (record { programs = 2; copies = 5; erases = 4 }) 1 4 }
    ensures collects_again { TalliesOnce (record { programs = 1; copies = 2; erases = 3 })
        (record { programs = 2; copies = 8; erases = 5 }) 2 4 }
    ensures twice { (before now : Counts) → before.programs ≡ 1 → now.programs ≡ 3
        → ¬ TalliesOnce before now 2 4 }
    ensures copies { (before now : Counts) → before.copies ≡ 2 → now.copies ≡ 6
        → ¬ TalliesMoves before now 1 4 }
    ensures copies_again { (before now : Counts) → before.copies ≡ 2 → now.copies ≡ 9
        → ¬ TalliesMoves before now 2 4 }
    ensures erases { (before now : Counts) → before.erases ≡ 3 → now.erases ≡ 5
        → ¬ TalliesMoves before now 1 4 }
    ensures moves { (before now : Counts) → TalliesOnce before now 1 4
        → TalliesMoves before now 1 4 }
    ensures updates { (old new : Layer Modelled) (u : Update)
        → ProgramsOnce chip_flash chip_shape chip_bad chip_tally old new u
        → (chip_tally old.nand).programs ≡ 5 → (chip_tally new.nand).programs ≡ 6 }
    ensures attempts { (old new : Layer Modelled) (u : Update)
        → ProgramsOnce chip_flash chip_shape chip_bad chip_tally old new u
        → (chip_shape old.nand).blocks ≡ 2 → chip_bad old.nand ≡ false ∷ false ∷ []
        → chip_bad new.nand ≡ true ∷ false ∷ []
        → (chip_tally old.nand).erases ≡ 3 → (chip_tally new.nand).erases ≢ 6 }
    ensures once { TalliesAttempt {T = ℕ} (record { programs = 1; copies = 2; erases = 3 })
        (record { programs = 2; copies = 5; erases = 4 }) 4 (Ok 0) }
    ensures stopped { TalliesAttempt {T = ℕ} (record { programs = 1; copies = 2; erases = 3 })
        (record { programs = 1; copies = 5; erases = 4 }) 4 (Err stop.NoNumber) }
    ensures programmed { (before now : Counts) → before.programs ≡ 1 → now.programs ≡ 2
        → ¬ TalliesAttempt {T = ℕ} before now 4 (Err stop.NoNumber) }
    ensures stopped_copies { (before now : Counts) → before.copies ≡ 2 → now.copies ≡ 6
        → ¬ TalliesAttempt {T = ℕ} before now 4 (Err stop.NoNumber) }
{}

/// How updates fail, and which causes are true.
pub fn failing()
    ensures power { (old new : Layer Modelled) → chip_faults old.nand fault.PowerGone ≡ 2
        → chip_faults new.nand fault.PowerGone ≡ 2
        → ¬ IsTrueCause chip_faults old new failure.PowerGone }
    ensures failed { (old new : Layer Modelled)
        → chip_faults old.nand fault.Failed ≡ 2 → chip_faults new.nand fault.Failed ≡ 2
        → ¬ IsTrueCause chip_faults old new failure.Failed }
    ensures open { (old new : Layer Modelled) → old.mounted ≡ true
        → ¬ IsTrueCause chip_faults old new failure.Closed }
    ensures number { (old new : Layer Modelled) → number_of old ≡ 5
        → ¬ IsTrueCause chip_faults old new failure.NoNumber }
    ensures last_number { (old new : Layer Modelled) → number_of old ≡ 2 ^ 64 - 1
        → IsTrueCause chip_faults old new failure.NoNumber }
    ensures sectors { (old new : Layer Modelled) → layer_sectors old ≡ 8
        → layer_sectors new ≡ 7 → ¬ IsSameDevice chip_shape chip_bad old new }
    ensures chip { (old new : Layer Modelled) → (chip_shape old.nand).pages ≡ 4
        → (chip_shape new.nand).pages ≡ 5 → ¬ IsSameDevice chip_shape chip_bad old new }
    ensures same_number { (old new : Layer Modelled) → number_of old ≡ 5
        → number_of new ≡ 6 → ¬ IsSameDevice chip_shape chip_bad old new }
    ensures marks { (old new : Layer Modelled) → chip_bad old.nand ≢ chip_bad new.nand
        → ¬ IsSameDevice chip_shape chip_bad old new }
    ensures kept_sectors { (old new : Layer Modelled)
        → layer_sectors old ≡ 8 → layer_sectors new ≡ 7
        → ¬ KeepsDevice chip_shape chip_bad chip_faults old new }
    ensures kept_number { (old new : Layer Modelled) → number_of old ≡ 5
        → number_of new ≡ 4 → ¬ KeepsDevice chip_shape chip_bad chip_faults old new }
    ensures kept_losses { (old new : Layer Modelled) → losses_of old.core ≡ 1
        → losses_of new.core ≡ 0 → ¬ KeepsDevice chip_shape chip_bad chip_faults old new }
    ensures kept_chip { (old new : Layer Modelled)
        → (chip_shape old.nand).pages ≡ 4 → (chip_shape new.nand).pages ≡ 5
        → ¬ KeepsDevice chip_shape chip_bad chip_faults old new }
    ensures kept_marks { (old new : Layer Modelled)
        → KeepsDevice chip_shape chip_bad chip_faults old new → chip_bad old.nand ≡ true ∷ []
        → is_marked (chip_bad new.nand) 0 ≡ true }
    ensures no_marks { (old new : Layer Modelled)
        → KeepsDevice chip_shape chip_bad chip_faults old new
        → chip_faults old.nand fault.Failed ≡ 2
        → chip_faults new.nand fault.Failed ≡ 2 → chip_bad new.nand ≡ chip_bad old.nand }
    ensures one_mark { (old new : Layer Modelled) (updates : List Update)
        → IsOpenLayer chip_flash chip_shape chip_bad old updates
        → MarksFailed chip_flash chip_shape chip_bad chip_faults old new
        → (chip_shape old.nand).blocks ≡ 2
        → chip_bad old.nand ≡ false ∷ false ∷ []
        → chip_bad new.nand ≡ true ∷ false ∷ [] → chip_faults old.nand fault.Failed ≡ 3
        → chip_faults new.nand fault.Failed % 2 ^ 64 ≡ 4 }
    ensures failed_open { (u : Update) (updates : List Update)
        (has : HasFailed chip_flash chip_shape chip_bad chip_faults u updates)
        → has.old.mounted ≡ true }
    ensures failed_true { (u : Update) (updates : List Update)
        (has : HasFailed chip_flash chip_shape chip_bad chip_faults u updates)
        → has.cause ≡ failure.PowerGone
        → chip_faults has.new.nand fault.PowerGone ≢ chip_faults has.old.nand fault.PowerGone }
    ensures failed_written { (u : Update) (updates : List Update)
        (has : HasFailed chip_flash chip_shape chip_bad chip_faults u updates)
        → has.cause ≢ failure.Written }
    ensures failed_lost { (u : Update) (updates : List Update)
        (has : HasFailed chip_flash chip_shape chip_bad chip_faults u updates)
        → has.cause ≢ failure.Lost }
    ensures spare { (shape : Numbers) → shape.blocks ≡ 9
        → shape.spare_blocks ≡ 1 → shape.pages ≡ 4 → ¬ IsSpent shape [] 8 5 }
    ensures may_fail { (shape : Numbers) → shape.blocks ≡ 9 → shape.spare_blocks ≡ 4
        → shape.pages ≡ 4 → CanSpare shape (true ∷ []) 12 3 }
    ensures no_spare { (shape : Numbers) → shape.blocks ≡ 9 → shape.spare_blocks ≡ 4
        → shape.pages ≡ 4 → ¬ CanSpare shape (true ∷ []) 8 4 }
    ensures no_room { (shape : Numbers) → shape.blocks ≡ 9 → shape.spare_blocks ≡ 9
        → shape.pages ≡ 4 → ¬ CanSpare shape (true ∷ []) 12 4 }
    ensures spent { (shape : Numbers) → shape.blocks ≡ 3 → shape.pages ≡ 4 → IsSpent shape [] 8 5 }
    ensures spent_numbers { (shape : Numbers) → IsSpent shape [] 8 (2 ^ 64 - 1) }
    ensures only_spent { (old new : Layer Modelled) (u : Update) (updates : List Update)
        → Fails chip_flash chip_shape chip_bad old new u updates failure.Failed
        → IsSpent (chip_shape new.nand) (chip_bad new.nand) (layer_sectors old) (number_of new) }
    ensures lost { (old new : Layer Modelled) (u : Update) (updates : List Update)
        → ¬ Fails chip_flash chip_shape chip_bad old new u updates failure.Lost }
    ensures written { (old new : Layer Modelled) (u : Update) (updates : List Update)
        → new.mounted ≡ false
        → ¬ Fails chip_flash chip_shape chip_bad old new u updates failure.Written }
    ensures stays { (old new : Layer Modelled) (u : Update) (updates : List Update)
        → Fails chip_flash chip_shape chip_bad old new u updates failure.PowerGone
        → new.mounted ≡ true → (device_of new.core).read_blocks ≡ (chip_shape new.nand).blocks }
    ensures reopens { (old new : Layer Modelled) (u : Update) (updates : List Update) (v : Sector)
        → chip_flash new.nand 3 0 ≡ Version (sole 8) 5 v
        → layer_sectors old ≡ 8
        → ¬ Fails chip_flash chip_shape chip_bad old new u updates failure.PowerGone }
{}

/// What calls leave that were acknowledged or cut short.
pub fn histories()
    ensures write { (bytes : Vec ℕ OnHeap) → bytes.items ≡ 5 ∷ []
        → update_by (Write 7 bytes) ≡ record { extent = sole 7; value = Some (5 ∷ []) } }
    ensures trim { update_by (Trim (record { first = 7; count = 2 }))
        ≡ record { extent = record { first = 7; count = 2 }; value = None } }
    ensures fits { (bytes : Vec ℕ OnHeap) → bytes.items ≡ 5 ∷ [] → IsFor 8 1 (Write 7 bytes) }
    ensures beyond { (bytes : Vec ℕ OnHeap) → ¬ IsFor 8 1 (Write 8 bytes) }
    ensures short { (bytes : Vec ℕ OnHeap) → bytes.items ≡ [] → ¬ IsFor 8 1 (Write 7 bytes) }
    ensures last { IsFor 9 1 (Trim (record { first = 7; count = 2 })) }
    ensures past { ¬ IsFor 8 1 (Trim (record { first = 7; count = 2 })) }
    ensures no_sectors { ¬ IsFor 8 1 (Trim (record { first = 7; count = 0 })) }
    ensures in_order { (a b : Call) (u : Update)
        → Leads (λ v before. ⊥) (a ∷ b ∷ []) (true ∷ true ∷ []) (u ∷ []) (update_by b ∷ update_by a ∷ u ∷ []) }
    ensures only { (a b : Call) (updates : List Update)
        → Leads (λ v before. Unit {0}) (a ∷ b ∷ []) (true ∷ true ∷ []) [] updates
        → updates ≡ update_by b ∷ update_by a ∷ [] }
    ensures not_made { (a b : Call) (updates : List Update)
        → Leads (λ v before. Unit {0}) (a ∷ b ∷ []) (true ∷ []) [] updates → updates ≡ update_by a ∷ [] }
    ensures cut { (a b : Call)
        → Leads (λ u before. (u ≡ update_by a) × (before ≡ []))
        (a ∷ b ∷ []) (false ∷ true ∷ []) [] (update_by b ∷ []) }
    ensures failed { (a b : Call) (updates : List Update)
        → ¬ Leads (λ v before. before ≡ []) (a ∷ b ∷ []) (true ∷ false ∷ []) [] updates }
    ensures failed_update { (a b : Call) (updates : List Update)
        → Leads (λ v before. v ≡ update_by a) (a ∷ b ∷ []) (true ∷ false ∷ []) [] updates
        → update_by b ≡ update_by a }
    ensures too_many { (updates : List Update)
        → ¬ Leads (λ v before. Unit {0}) [] (true ∷ []) [] updates }
{}
