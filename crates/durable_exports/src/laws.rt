//! Laws of what C sees of a handle. Each function has no code: its clauses say where a definition holds and where it doesn't, and what a code or a report
//! is on small values.
ghost use Rattle.std.specs.Prelude.{◌≡◌, ◌≢◌, ◌+◌, ◌-◌, ◌^◌, max, ℕ, List, Err, Some, None, true, false};
ghost use Rattle.geometry.specs.declared.page_addr.PageAddr.{PageAddr as Addr};
ghost use Rattle.durable.specs.Flash.{Flash};
ghost use Rattle.durable.specs.Updates.{Update};
ghost use Rattle.durable.specs.Device.{Device, device_in, next_number_in, next_number_of, next_pages_of, IsStampOn};
ghost use Rattle.durable.specs.Mounting.{IsStampOf, next_in, after_in};
ghost use Rattle.durable.specs.Failures.{HoldsNoVersion};
ghost use Rattle.durable.specs.Promise.{IsConsistent, IsReadable, IsRecoverable};
ghost use Rattle.durable.specs.Retiring.{Retires};
ghost use Rattle.durable.specs.Choice.{IsNextCommand, Spends, StaysOpen, left, number_after};
ghost use Rattle.durable.specs.Calls.{Acknowledges, IsSafe, SurvivesCut, SurvivesIdleCut};
ghost use Rattle.durable.specs.Calls.{CountsLosses, DropsTrims, HasNoted, Remounts, TellsLosses, TellsNoFalseLoss};
ghost use Rattle.durable.specs.Whole.{CutsIdleUnharmed, CutsUnharmed, IsUnharmed, MountsWhole, RetiresWhole, StaysWhole};
ghost use Rattle.durable.specs.declared.command.Command.{Command as Next};
ghost use Rattle.durable.specs.declared.command.Command.TheVariants as command;
ghost use Rattle.durable.specs.declared.found.Stamp.{Stamp};
ghost use Rattle.durable.specs.declared.mount.Mount.{Mount};
ghost use Rattle.durable_exports.specs.declared.handle.Handle.{Handle};
ghost use Rattle.durable_exports.specs.declared.layer.Layer.{Layer};
ghost use Rattle.durable_exports.specs.declared.reports.CommandReport.{CommandReport};
ghost use Rattle.durable_exports.specs.declared.reports.PlaceReport.{PlaceReport};
ghost use Rattle.durable_exports.specs.declared.seat.Seat.{Seat};
ghost use Rattle.durable_exports.specs.declared.seat.Seat.TheVariants.{Mounting, Mounted, Driving};
ghost use Rattle.durable_exports.specs.Handles.{seat_of};
ghost use Rattle.durable_exports.specs.Reports.{found_page, place_report, page_at, report_of, one_more, no_totals, totals_with};
ghost use Rattle.durable_exports.specs.Calls.{layer_device, layer_losses, code_of_mount, code_of_layer, OfMount, OfLayer, HasMount, HasLayer};
ghost use Rattle.durable.specs.Updates.{array_after, sole};
ghost use Rattle.durable_exports.specs.Calls.{begin_code, note_code, finish_code, sector_code, extent_code, retire_code, stamp_of};
ghost use Rattle.durable_exports.specs.Calls.{Accepts, Refuses, FreesBlock, IsBegun, IsNoted, IsMounted, IsNewestPageOf, IsCommandFor, IsDone};
ghost use Rattle.durable_exports.specs.Calls.{GoesOnWithout, TakesSpare};
ghost use Rattle.geometry.specs.Sectors.{Sector};
ghost use Rattle.nand.specs.Driving.{CutHoldsIn, HasBegunCall, HasSector, HoldsNow, IsLeftAlone, IsOneToOne, IsStepAllowed, Knows, StepChanges};
ghost use Rattle.nand.specs.Driving.{StepCutLeaves, Takes, array_now, can_read, driver_sectors, is_busy_in, step_of};
ghost use Rattle.nand.specs.declared.driver.Answer.TheVariants as answer;
ghost use Rattle.nand.specs.declared.driver.Driver.{Driver};
ghost use Rattle.nand.specs.declared.driver.Main.TheVariants as main;
ghost use Rattle.nand.specs.declared.driver.Phase.TheVariants as phase;
ghost use Rattle.nand.specs.declared.driver.Refusal.TheVariants as refusal;
ghost use Rattle.nand.specs.declared.driver.Step.TheVariants as step;
ghost use Rattle.nand.specs.declared.flash.Reading.TheVariants as reading;
ghost use Rattle.durable_exports.specs.declared.reports.StepReport.{StepReport};
ghost use Rattle.durable_exports.specs.Driving.{code_of_driver, OfDriver, HasDriver, drive_code, refusal_code, outcome_code, result_code};
ghost use Rattle.durable_exports.specs.Driving.{programmed_value, page_kept, report_at, step_report, told_answer, told_reading, driver_sector_code};
ghost use Rattle.durable_exports.specs.Driving.{DrivesLayer, IsBeginCode, IsStepFor, BeginsUpdate, AnswersStep, IsDriverPage};

/// The code of a call, by what the handle has.
pub fn codes()
    ensures no_mount { code_of_mount None (λ _. 0) ≡ 2 }
    ensures mount { (m : Mount) → code_of_mount (Some (Mounting m)) (λ _. 7) ≡ 7 }
    ensures not_a_mount { (l : Layer) → code_of_mount (Some (Mounted l)) (λ _. 0) ≡ 9 }
    ensures no_layer { code_of_layer None (λ _. 0) ≡ 2 }
    ensures layer { (l : Layer) → code_of_layer (Some (Mounted l)) (λ _. 7) ≡ 7 }
    ensures not_a_layer { (m : Mount) → code_of_layer (Some (Mounting m)) (λ _. 0) ≡ 9 }
    ensures driver { (d : Driver) → (code_of_mount (Some (Driving d)) (λ _. 0) ≡ 9)
        × (code_of_layer (Some (Driving d)) (λ _. 0) ≡ 9) }
    ensures open_already { (x : Seat) → begin_code (Some x) true false ≡ 8 }
    ensures full { begin_code None false true ≡ 109 }
    ensures no_memory { begin_code None true true ≡ 6 }
    ensures begun { begin_code None true false ≡ 0 }
    ensures all_noted { note_code None false ≡ 32 }
    ensures foreign { (at : Addr) → note_code (Some at) true ≡ 30 }
    ensures noted { (at : Addr) → note_code (Some at) false ≡ 0 }
    ensures finished { finish_code None false false ≡ 0 }
    ensures no_memory_left { finish_code None false true ≡ 6 }
    ensures no_block { finish_code None true false ≡ 7 }
    ensures too_early { (at : Addr) → finish_code (Some at) false false ≡ 32 }
    ensures no_sector { (l : Layer) → (layer_device l).sectors ≡ 8 → sector_code 8 0 l ≡ 3 }
    ensures sector { (l : Layer) → (layer_device l).sectors ≡ 8 → sector_code 7 5 l ≡ 5 }
    ensures extent { (l : Layer) → (layer_device l).sectors ≡ 8
        → extent_code (record { first = 6; count = 2 }) 5 l ≡ 5 }
    ensures past { (l : Layer) → (layer_device l).sectors ≡ 8
        → extent_code (record { first = 7; count = 2 }) 5 l ≡ 3 }
    ensures empty { (l : Layer) → (layer_device l).sectors ≡ 8
        → extent_code (record { first = 7; count = 0 }) 5 l ≡ 3 }
    ensures retired { retire_code 0 ≡ 0 }
    ensures no_spare { retire_code 7 ≡ 7 }
    ensures not_next { retire_code 32 ≡ 32 }
{}

/// What is said of a mount or a layer, by what the handle has.
pub fn handles()
    ensures nothing { OfMount None (λ _. ⊥) × OfLayer None (λ _. ⊥) }
    ensures other_layer { (l : Layer) → OfMount (Some (Mounted l)) (λ _. ⊥) }
    ensures other_mount { (m : Mount) → OfLayer (Some (Mounting m)) (λ _. ⊥) }
    ensures of_mount { (m : Mount) → OfMount (Some (Mounting m)) (λ n. n ≡ m) }
    ensures of_layer { (l : Layer) → OfLayer (Some (Mounted l)) (λ k. k ≡ l) }
    ensures says_of_mount { (m : Mount) → ¬ OfMount (Some (Mounting m)) (λ _. ⊥) }
    ensures says_of_layer { (l : Layer) → ¬ OfLayer (Some (Mounted l)) (λ _. ⊥) }
    ensures closed { (¬ HasMount None (λ m. m ≡ m)) × (¬ HasLayer None (λ l. l ≡ l)) }
    ensures no_mount { (l : Layer) → ¬ HasMount (Some (Mounted l)) (λ m. m ≡ m) }
    ensures no_layer { (m : Mount) → ¬ HasLayer (Some (Mounting m)) (λ l. l ≡ l) }
    ensures has_mount { (m : Mount) → HasMount (Some (Mounting m)) (λ n. n ≡ m) }
    ensures has_layer { (l : Layer) → HasLayer (Some (Mounted l)) (λ k. k ≡ l) }
    ensures driver { (d : Driver) → OfMount (Some (Driving d)) (λ _. ⊥) × OfLayer (Some (Driving d)) (λ _. ⊥)
        × (¬ HasMount (Some (Driving d)) (λ m. m ≡ m)) × (¬ HasLayer (Some (Driving d)) (λ l. l ≡ l)) }
    ensures seat { (h : Handle) (x y : Seat) → seat_of h ≡ Some x → seat_of h ≡ Some y → x ≡ y }
{}

/// Stamps, pages, commands and totals, as C passes and sees them.
pub fn reports()
    ensures no_stamp { stamp_of 0 (sole 7) 5 ≡ None }
    ensures stamp { stamp_of 1 (record { first = 7; count = 2 }) 5
        ≡ Some (record { extent = record { first = 7; count = 2 }; number = 5; is_trim = false }) }
    ensures trim { stamp_of 2 (sole 7) 5
        ≡ Some (record { extent = sole 7; number = 5; is_trim = true }) }
    ensures no_page { (at : PlaceReport) → found_page 0 at ≡ None }
    ensures page { found_page 1 (record { block = 1; page = 2 })
        ≡ Some (record { block = 1; page = 2 }) }
    ensures same_place { page_at (place_report (record { block = 1; page = 2 }))
        ≡ record { block = 1; page = 2 } }
    ensures program { report_of 7 (command.Program (record { block = 1; page = 2 }) 5)
        ≡ record { kind = 1; sector = 7; from_block = 0; from_page = 0; block = 1; page = 2; number = 5 } }
    ensures copy { report_of 7
        (command.Copy 6 (record { block = 1; page = 2 }) (record { block = 3; page = 4 }))
        ≡ record { kind = 2; sector = 6; from_block = 1; from_page = 2; block = 3; page = 4; number = 0 } }
    ensures erase { report_of 7 (command.Erase 4)
        ≡ record { kind = 3; sector = 0; from_block = 0; from_page = 0; block = 4; page = 0; number = 0 } }
    ensures none { (report_of 7 command.Refused).kind ≡ 0 }
    ensures counted { one_more 4 ≡ 5 }
    ensures greatest { one_more (2 ^ 64 - 1) ≡ 2 ^ 64 - 1 }
    ensures programs { totals_with (command.Program (record { block = 1; page = 2 }) 5) no_totals
        ≡ record { programs = 1; copies = 0; erases = 0 } }
    ensures copies { totals_with
        (command.Copy 6 (record { block = 1; page = 2 }) (record { block = 3; page = 4 })) no_totals
        ≡ record { programs = 0; copies = 1; erases = 0 } }
    ensures erases { totals_with (command.Erase 4) no_totals
        ≡ record { programs = 0; copies = 0; erases = 1 } }
    ensures refused { totals_with command.Refused no_totals ≡ no_totals }
{}

/// What a call leaves of a mount, and of a layer.
pub fn calls()
    ensures begun { (device : Device) (m : Mount) → IsBegun device m → device_in m ≡ device }
    ensures first { (device : Device) (m : Mount) → IsBegun device m
        → next_in m ≡ Some (record { block = 0; page = 0 }) }
    ensures unnumbered { (device : Device) (m : Mount) → IsBegun device m → next_number_in m ≡ 0 }
    ensures unread { (device : Device) (m : Mount) (f : Flash) → IsBegun device m → HasNoted f m }
    ensures next { (stamp : Stamp) (m n : Mount)
        → IsNoted (Some stamp) m n → next_in n ≡ after_in m }
    ensures above { (stamp : Stamp) (m n : Mount) → IsNoted (Some stamp) m n
        → next_number_in n ≡ max (next_number_in m) (stamp.number + 1) }
    ensures no_number { (m n : Mount) → IsNoted None m n → next_number_in n ≡ next_number_in m }
    ensures stamped { (f : Flash) (stamp : Stamp) (m n : Mount) → IsNoted (Some stamp) m n
        → HasNoted f m → next_in m ≡ Some (record { block = 1; page = 2 })
        → IsStampOf f 1 2 (Some stamp) → HasNoted f n }
    ensures same_device { (m n : Mount) → IsNoted None m n → device_in n ≡ device_in m }
    ensures taken { (stamp : Stamp) (m : Mount) → Accepts (Some stamp) 0 m }
    ensures of_device { (stamp : Stamp) (m : Mount)
        → Refuses (Some stamp) 0 m → IsStampOn (device_in m) (Some stamp) }
    ensures refused { (stamp : Stamp) (m : Mount) → Refuses (Some stamp) 30 m }
    ensures free { (m : Mount) → FreesBlock 0 m }
    ensures stuck { (f : Flash) (m : Mount) (acked begun : List Update) → HasNoted f m
        → IsRecoverable f (device_in m) acked begun → ¬ FreesBlock 7 m }
    ensures mounted { (m : Mount) (l : Layer) → IsMounted m l → Remounts m l.core }
    ensures idle { (m : Mount) (l : Layer) → IsMounted m l → l.totals ≡ no_totals }
    ensures sizes { (m : Mount) (l : Layer) → IsMounted m l → layer_device l ≡ device_in m }
    ensures number { (m : Mount) (l : Layer)
        → IsMounted m l → next_number_of l.core ≡ next_number_in m }
    ensures losses { (m : Mount) (l : Layer) → IsMounted m l → CountsLosses m l.core }
    ensures drops { (m : Mount) (l : Layer) → IsMounted m l → DropsTrims m l.core }
    ensures tells { (m : Mount) (l : Layer) → IsMounted m l → TellsLosses m l.core }
    ensures quiet { (m : Mount) (l : Layer) → IsMounted m l → TellsNoFalseLoss m l.core }
    ensures whole { (m : Mount) (l : Layer) → IsMounted m l → MountsWhole m l.core }
    ensures no_loss { (f : Flash) (m : Mount) (l : Layer) (acked begun : List Update)
        → IsMounted m l → HasNoted f m → IsReadable f (device_in m) acked begun
        → IsUnharmed f (device_in m) → layer_losses l ≡ 0 }
    ensures unharmed { (out : CommandReport) (l : Layer) → IsCommandFor (sole 7) out l
        → (c : Next) × (out ≡ report_of 7 c) × CutsUnharmed l.core (sole 7) c }
    ensures idle_unharmed { (out : CommandReport) (l : Layer)
        → IsCommandFor (sole 7) out l → CutsIdleUnharmed l.core }
    ensures stays { (did : CommandReport) (l k : Layer) → IsDone (sole 7) did l k
        → (c : Next) × (did ≡ report_of 7 c) × StaysWhole l.core (sole 7) c k.core }
    ensures safe { (out : CommandReport) (l : Layer) → IsCommandFor (sole 7) out l
        → (c : Next) × (out ≡ report_of 7 c) × IsNextCommand l.core c × IsSafe l.core c
        × SurvivesCut l.core (sole 7) c }
    ensures idle_cut { (out : CommandReport) (l : Layer)
        → IsCommandFor (sole 7) out l → SurvivesIdleCut l.core }
    ensures not_refused { (out : CommandReport) (l : Layer) → IsCommandFor (sole 7) out l
        → (c : Next) × (out ≡ report_of 7 c) × (c ≢ command.Refused) }
    ensures acknowledges { (did : CommandReport) (l k : Layer) → IsDone (sole 7) did l k
        → (c : Next) × (did ≡ report_of 7 c) × IsNextCommand l.core c
        × Acknowledges l.core (sole 7) c k.core }
    ensures goes_on { (did : CommandReport) (l k : Layer) → IsDone (sole 7) did l k
        → (c : Next) × (did ≡ report_of 7 c)
        × Spends c (layer_device l).pages (left l.core) (left k.core)
        × StaysOpen c (layer_device l).pages (next_pages_of k.core) }
    ensures numbered { (did : CommandReport) (l k : Layer) → IsDone (sole 7) did l k
        → (c : Next) × (did ≡ report_of 7 c)
        × (next_number_of k.core ≡ number_after c (next_number_of l.core)) }
    ensures keeps { (did : CommandReport) (l k : Layer) → IsDone (sole 7) did l k
        → (layer_losses k ≡ layer_losses l) × (layer_device k ≡ layer_device l) }
    ensures beyond { (l : Layer) → (layer_device l).sectors ≡ 8 → IsNewestPageOf 8 None l }
    ensures reported { (out : CommandReport) (l : Layer)
        → IsCommandFor (sole 7) out l → (c : Next) × (out ≡ report_of 7 c) }
    ensures done { (did : CommandReport) (l k : Layer) → IsDone (sole 7) did l k
        → (c : Next) × (did ≡ report_of 7 c) × (k.totals ≡ totals_with c l.totals) }
{}

/// What a retirement leaves, and which block it takes.
pub fn retirements()
    ensures retires { (did : CommandReport) (l k : Layer) → GoesOnWithout (sole 7) did true 5 l k
        → (c : Next) × (did ≡ report_of 7 c) × IsNextCommand l.core c × Retires l.core (sole 7) c true 5 k.core }
    ensures whole { (did : CommandReport) (l k : Layer) → GoesOnWithout (sole 7) did true 5 l k
        → (c : Next) × (did ≡ report_of 7 c) × RetiresWhole l.core (sole 7) c true 5 k.core }
    ensures device { (did : CommandReport) (l k : Layer) → GoesOnWithout (sole 7) did true 5 l k
        → layer_device k ≡ layer_device l }
    ensures losses { (did : CommandReport) (l k : Layer) → GoesOnWithout (sole 7) did true 5 l k
        → layer_losses k ≡ layer_losses l }
    ensures number { (did : CommandReport) (l k : Layer) → GoesOnWithout (sole 7) did true 5 l k
        → (c : Next) × (did ≡ report_of 7 c)
        × (next_number_of k.core ≡ number_after c (next_number_of l.core)) }
    ensures totals { (did : CommandReport) (l k : Layer) → GoesOnWithout (sole 7) did true 5 l k → k.totals ≡ l.totals }
    ensures takes { (f : Flash) (l : Layer) (acked begun : List Update) → IsConsistent f l.core acked begun
        → HoldsNoVersion f 5 → (layer_device l).blocks ≡ 5 → (layer_device l).read_blocks ≡ 6
        → next_number_of l.core ≡ 9 → ¬ TakesSpare 5 7 l }
    ensures in_use { (l : Layer) → (layer_device l).blocks ≡ 6 → TakesSpare 5 7 l }
    ensures not_read { (l : Layer) → (layer_device l).read_blocks ≡ 5 → TakesSpare 5 7 l }
    ensures spent { (l : Layer) → next_number_of l.core ≡ 2 ^ 64 - 1 → TakesSpare 5 7 l }
    ensures taken { (l : Layer) → TakesSpare 5 0 l }
{}

/// The codes of calls for a driver, and what is said of it, by what the handle has.
pub fn drivers()
    ensures no_driver { code_of_driver None (λ _. 0) ≡ 2 }
    ensures of_mount { (m : Mount) → code_of_driver (Some (Mounting m)) (λ _. 0) ≡ 9 }
    ensures of_layer { (l : Layer) → code_of_driver (Some (Mounted l)) (λ _. 0) ≡ 9 }
    ensures driver { (d : Driver) → code_of_driver (Some (Driving d)) (λ _. 7) ≡ 7 }
    ensures others { (m : Mount) (l : Layer) → OfDriver None (λ _. ⊥)
        × OfDriver (Some (Mounting m)) (λ _. ⊥) × OfDriver (Some (Mounted l)) (λ _. ⊥) }
    ensures says { (d : Driver) → ¬ OfDriver (Some (Driving d)) (λ _. ⊥) }
    ensures lacks { (m : Mount) (l : Layer) → (¬ HasDriver None (λ d. d ≡ d))
        × (¬ HasDriver (Some (Mounting m)) (λ d. d ≡ d)) × (¬ HasDriver (Some (Mounted l)) (λ d. d ≡ d)) }
    ensures has { (d : Driver) → HasDriver (Some (Driving d)) (λ k. k ≡ d) }
    ensures opened { (drive_code true false ≡ 0) × (drive_code true true ≡ 6) }
    ensures unfit { drive_code false true ≡ 7 }
    ensures refusals { (refusal_code refusal.Busy ≡ 32) × (refusal_code refusal.Outside ≡ 3) × (refusal_code refusal.ReadOnly ≡ 27)
        × (refusal_code refusal.Closed ≡ 28) × (refusal_code refusal.NoNumber ≡ 31) }
    ensures refused { outcome_code (Err refusal.ReadOnly) ≡ 27 }
    ensures begin_busy { (d : Driver) (code : ℕ) → d.phase ≡ phase.Mark (sole 7) → IsBeginCode (sole 7) code d → code ≡ 32 }
    ensures begin_refused { (d : Driver) (code : ℕ) → d.phase ≡ phase.ReadOnly → IsBeginCode (sole 7) code d → code ≡ 27 }
    ensures begin_closed { (d : Driver) (code : ℕ) → d.phase ≡ phase.Closed → IsBeginCode (sole 7) code d → code ≡ 28 }
    ensures under_way { (d : Driver) → is_busy_in d.phase ≡ true → result_code d ≡ 32 }
    ensures ended { (d : Driver) → is_busy_in d.phase ≡ false → result_code d ≡ outcome_code d.outcome }
    ensures sector { (d : Driver) → driver_sectors d ≡ 8 → driver_sector_code 7 5 d ≡ 5 }
    ensures no_sector { (d : Driver) → driver_sectors d ≡ 8 → driver_sector_code 8 0 d ≡ 3 }
{}

/// Steps, answers and what was read, as C passes and sees them.
pub fn steps()
    ensures values { (programmed_value false main.Caller ≡ 1) × (programmed_value true main.Caller ≡ 3) × (programmed_value false main.Lost ≡ 4) }
    ensures moved { (at : Addr) → (programmed_value false (main.Page at) ≡ 2) × (programmed_value true (main.Page at) ≡ 3) }
    ensures pages { (at : Addr) → (page_kept (main.Page at) ≡ at) × (page_kept main.Caller ≡ record { block = 0; page = 0 }) }
    ensures at { report_at 4 (record { block = 1; page = 2 })
        ≡ record { kind = 4; value = 0; first = 0; count = 0; from_block = 0; from_page = 0; block = 1; page = 2; number = 0 } }
    ensures program { step_report (step.Program (record { block = 1; page = 2 })
        (record { extent = record { first = 7; count = 1 }; number = 5; trimmed = false }) (main.Page (record { block = 3; page = 4 })))
        ≡ record { kind = 1; value = 2; first = 7; count = 1; from_block = 3; from_page = 4; block = 1; page = 2; number = 5 } }
    ensures copy { step_report (step.Copy 6 (record { block = 1; page = 2 }) (record { block = 3; page = 4 }))
        ≡ record { kind = 2; value = 0; first = 6; count = 1; from_block = 1; from_page = 2; block = 3; page = 4; number = 0 } }
    ensures erase { ((step_report (step.Erase 4)).kind ≡ 3) × ((step_report (step.Erase 4)).block ≡ 4) }
    ensures read { step_report (step.Read (record { block = 1; page = 2 }))
        ≡ record { kind = 4; value = 0; first = 0; count = 0; from_block = 0; from_page = 0; block = 1; page = 2; number = 0 } }
    ensures mark { step_report (step.Mark 4)
        ≡ record { kind = 5; value = 0; first = 0; count = 0; from_block = 0; from_page = 0; block = 4; page = 0; number = 0 } }
    ensures none { (step_report step.Ended).kind ≡ 0 }
    ensures answers { (told_answer 0 ≡ answer.Done) × (told_answer 1 ≡ answer.Failed) × (told_answer 2 ≡ answer.PowerGone)
        × (told_answer 3 ≡ answer.PowerGone) }
    ensures nothing { told_reading 0 (sole 7) 5 ≡ reading.Unreadable }
    ensures version { told_reading 1 (sole 7) 5 ≡ reading.Version (record { extent = sole 7; number = 5; trimmed = false }) }
    ensures trim { told_reading 2 (sole 7) 5 ≡ reading.Version (record { extent = sole 7; number = 5; trimmed = true }) }
{}

/// What calls leave of a driver, and what a report says of it.
pub fn driver_calls()
    ensures sectors { (numbers : List ℕ) (l : Layer) (d : Driver) → DrivesLayer numbers 5 l d
        → driver_sectors d ≡ (layer_device l).sectors }
    ensures idle { (numbers : List ℕ) (l : Layer) (d : Driver) → DrivesLayer numbers 5 l d → is_busy_in d.phase ≡ false }
    ensures reserve { (numbers : List ℕ) (l : Layer) (d : Driver) → DrivesLayer numbers 5 l d
        → d.good - d.spare ≡ 5 - (layer_device l).blocks }
    ensures holds { (f : Flash) (numbers : List ℕ) (value : Sector) (updates : List Update) (l : Layer) (d : Driver)
        → DrivesLayer numbers 5 l d → Knows f numbers l.core (layer_device l).blocks 5 (array_after updates)
        → HoldsNow f d value (array_after updates) }
    ensures reported { (out : StepReport) (d : Driver) → IsStepFor out d → out ≡ step_report (step_of d) }
    ensures allowed { (f : Flash) (value : Sector) (was : ℕ → Sector) (out : StepReport) (d : Driver)
        → IsStepFor out d → HoldsNow f d value was → IsStepAllowed f (step_of d) }
    ensures names { (b : ℕ) (out : StepReport) (d : Driver) → IsStepFor out d → IsLeftAlone d b → ¬ StepChanges (step_of d) b }
    ensures cut { (f t : Flash) (value : Sector) (was : ℕ → Sector) (out : StepReport) (d : Driver)
        → IsStepFor out d → HoldsNow f d value was → StepCutLeaves (step_of d) value f t → CutHoldsIn d.phase t d value was }
    ensures none { (out : StepReport) (d : Driver) → IsStepFor out d → is_busy_in d.phase ≡ false → out.kind ≡ 0 }
    ensures some { (out : StepReport) (d : Driver) → IsStepFor out d → is_busy_in d.phase ≡ true → step_of d ≢ step.Ended }
    ensures taken { (d k : Driver) → AnswersStep answer.Done d k → Takes d answer.Done k }
    ensures failed { (b : ℕ) (d k : Driver) → AnswersStep answer.Failed d k → IsOneToOne d.numbers.items
        → StepChanges (step_of d) b → IsLeftAlone k b }
    ensures alone { (b : ℕ) (d k : Driver) → AnswersStep answer.Done d k → IsOneToOne d.numbers.items
        → IsLeftAlone d b → IsLeftAlone k b }
    ensures page { (f : Flash) (value : Sector) (was : ℕ → Sector) (at : Addr) (d : Driver) → IsDriverPage 7 (Some at) d
        → HoldsNow f d value was → can_read d.phase ≡ true → driver_sectors d ≡ 8
        → HasSector f 7 (array_now d value was 7) (Some at) }
    ensures begun { (d k : Driver) → BeginsUpdate (sole 7) true d k → HasBegunCall (sole 7) true d k }
    ensures begins { (f : Flash) (before : Sector) (was : ℕ → Sector) (d k : Driver) → BeginsUpdate (sole 7) true d k
        → HoldsNow f d before was → HoldsNow f k None (array_now d before was) }
{}
