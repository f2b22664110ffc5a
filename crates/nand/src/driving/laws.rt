//! Laws of the definitions of drivers: each function has no code, and its clauses say where a definition holds and where not.
ghost use Rattle.std.specs.Prelude.{◌≡◌, ◌≢◌, ◌<◌, ◌≤◌, ◌+◌, ◌^◌, ℕ, Bool, List, [], ◌∷◌, None, Some, Result, Ok, Err, true, false};
ghost use Rattle.geometry.specs.Sectors.{Sector};
ghost use Rattle.geometry.specs.declared.page_addr.PageAddr.{PageAddr as Addr};
ghost use Rattle.durable.specs.Device.{device_of, next_number_of};
ghost use Rattle.durable.specs.Failures.{HoldsNoVersion};
ghost use Rattle.durable.specs.Flash.{Erased, Flash, Version};
ghost use Rattle.durable.specs.Promise.{IsConsistent, IsRecoverable};
ghost use Rattle.durable.specs.Updates.{Update, array_after, changed, sole};
ghost use Rattle.durable.specs.declared.command.Command.{Command as Order};
ghost use Rattle.durable.specs.declared.command.Command.TheVariants as command;
ghost use Rattle.durable.specs.declared.memory.Core.{Core as Layer};
ghost use Rattle.nand.specs.Driving.{BeginsAtRest, BeginsCall, BeginsIn, GoesOnAfter, HasBegunCall, IsAfterCut, IsAfterFailure, IsAfterSuccess};
ghost use Rattle.nand.specs.Driving.{IsDoneIn, IsFailureIn, IsOutOfNumbers, TellsOutcome};
ghost use Rattle.nand.specs.Driving.{CanMount, CanMountEither, CutHoldsIn, Drives, HasSector, HoldsIn, HoldsNow, IsGivenUp, IsJob};
ghost use Rattle.nand.specs.Driving.{IsJobBy, IsMain, IsMoving, IsMovingOf};
ghost use Rattle.nand.specs.Driving.{IsLeftAlone, IsLeftIn, IsOneToOne, can_read, IsStepAllowed, IsStillGood, Knows, KnowsArray};
ghost use Rattle.nand.specs.Driving.{ReadsArray, StaysDriver, StepChanges, StepCompletes};
ghost use Rattle.nand.specs.Driving.{StepCutLeaves, StepLeaves, StepReads, Takes, array_now, driver_sectors, is_busy_in, is_made};
ghost use Rattle.nand.specs.Driving.{step_for, step_in, step_of};
ghost use Rattle.nand.specs.Driving.{value_unless};
ghost use Rattle.nand.specs.Nand.{ReadsStamp};
ghost use Rattle.nand.specs.Numbers.{IsOrder, chip_block, good_before, numbered};
ghost use Rattle.nand.specs.Opened.{IsReserveBlank, device_on, most_used};
ghost use Rattle.nand.specs.Phases.{IsOfDevice, IsPhaseOf};
ghost use Rattle.nand.specs.declared.driver.Answer.{Answer as Told};
ghost use Rattle.nand.specs.declared.driver.Answer.TheVariants as answer;
ghost use Rattle.nand.specs.declared.driver.Driver.{Driver as Device};
ghost use Rattle.nand.specs.declared.driver.Job.{Job as Work};
ghost use Rattle.nand.specs.declared.driver.Main.TheVariants as main;
ghost use Rattle.nand.specs.declared.driver.Phase.TheVariants as phase;
ghost use Rattle.nand.specs.declared.driver.Refusal.{Refusal as Reason};
ghost use Rattle.nand.specs.declared.driver.Refusal.TheVariants as refusal;
ghost use Rattle.nand.specs.declared.driver.Step.TheVariants as step;
ghost use Rattle.nand.specs.declared.flash.Reading.{Reading as Read};
ghost use Rattle.nand.specs.declared.flash.Shape.{Shape as Sizes};
ghost use Rattle.nand.specs.declared.flash.Stamp.{Stamp as Mark};

/// What an open finds is what a driver begins with. Through a call, or any part of one, whatever its steps answered, the driver and the flash hold the
/// array from before the call, with the call's update once it is made. So a call that has ended without a refusal has made its update. It computes
/// nothing: its clauses are the theorem.
pub fn driver_calls()
    ensures opened { (f : Flash) (numbers : List ℕ) (core : Layer) (shape : Sizes) (bad : List Bool) (sectors : ℕ) (updates : List Update)
        → IsOrder numbers bad shape.blocks (most_used shape sectors) → device_of core ≡ device_on shape bad sectors
        → IsReserveBlank f shape bad sectors → IsConsistent (numbered numbers f) core updates updates
        → Knows f numbers core (device_of core).blocks (good_before bad shape.blocks) (array_after updates) }
    ensures holds { (answers : List Told) (value : Sector) (f t : Flash) (old new : Device) (was : ℕ → Sector)
        → HoldsNow f old value was → Drives answers value f old t new → HoldsNow t new value was }
    ensures call { (answers : List Told) (value : Sector) (f t : Flash) (old new : Device)
        → Drives answers value f old t new → new.call ≡ old.call }
    ensures given_up { (answers : List Told) (value : Sector) (f t : Flash) (old new : Device) (b : ℕ)
        → Drives answers value f old t new → IsGivenUp old b → IsGivenUp new b }
    ensures made { (f : Flash) (value : Sector) (was : ℕ → Sector) (driver : Device)
        → HoldsNow f driver value was → driver.phase ≡ phase.Idle → driver.outcome ≡ Ok tt
        → KnowsArray f driver (changed was driver.call value) }
    ensures refused { (f : Flash) (value : Sector) (was : ℕ → Sector) (driver : Device)
        → HoldsNow f driver value was → driver.phase ≡ phase.Idle → driver.outcome ≡ Err refusal.NoNumber
        → KnowsArray f driver was }
    ensures reads { (f : Flash) (value : Sector) (was : ℕ → Sector) (driver : Device)
        → HoldsNow f driver value was → driver.phase ≡ phase.ReadOnly → driver.outcome ≡ Err refusal.ReadOnly
        → ReadsArray f driver was }
{}

/// The steps that a driver says.
pub fn driver_steps()
    ensures erase { (job : Work) → step_for (2 ∷ 0 ∷ 1 ∷ []) (command.Erase 0) job ≡ step.Erase 2 }
    ensures mark { step_in (2 ∷ 0 ∷ 1 ∷ []) 1 (phase.Mark (sole 7)) ≡ step.Mark 0 }
    ensures none { step_in (2 ∷ 0 ∷ 1 ∷ []) 1 phase.ReadOnly ≡ step.Ended }
    ensures of { (driver : Device) → driver.phase ≡ phase.Idle → step_of driver ≡ step.Ended }
    ensures busy { is_busy_in (phase.Mark (sole 7)) ≡ true }
    ensures idle { is_busy_in phase.ReadOnly ≡ false }
    ensures sectors { (driver : Device) → driver_sectors driver ≡ (device_of driver.core).sectors }
    ensures changes { StepChanges (step.Erase 1) 1 }
    ensures no_other { ¬ StepChanges (step.Erase 1) 2 }
    ensures no_mark { ¬ StepChanges (step.Mark 1) 1 }
    ensures allowed { (f : Flash) (stamp : Mark)
        → IsStepAllowed f (step.Program (record { block = 1; page = 2 }) stamp main.Caller)
        → f 1 2 ≡ Erased }
    ensures of_device { (core : Layer) → IsOfDevice core (sole 7) → 7 + 1 ≤ (device_of core).sectors }
    ensures under_way { (core : Layer) → IsPhaseOf core (phase.Mark (sole 7)) → IsOfDevice core (sole 7) }
{}

/// What steps leave.
pub fn driver_effects()
    ensures trim { value_unless true (Some (5 ∷ [])) ≡ None }
    ensures value { value_unless false (Some (5 ∷ [])) ≡ Some (5 ∷ []) }
    ensures caller { (f : Flash) (v : Sector) → IsMain f main.Caller v v }
    ensures other { (f : Flash) → ¬ IsMain f main.Caller (Some (5 ∷ [])) None }
    ensures page { (f : Flash) (v : Sector) → f 1 2 ≡ Version (sole 7) 3 v
        → IsMain f (main.Page (record { block = 1; page = 2 })) None v }
    ensures erased { (f t : Flash) → StepCompletes (step.Erase 1) None f t → t 1 2 ≡ Erased }
    ensures stays { (f t : Flash) → StepCompletes (step.Erase 1) None f t → t 2 2 ≡ f 2 2 }
    ensures marked { (f t : Flash) → StepCutLeaves (step.Mark 1) None f t → t 2 2 ≡ f 2 2 }
    ensures read { (f t : Flash)
        → StepCutLeaves (step.Read (record { block = 1; page = 2 })) None f t → t 1 2 ≡ f 1 2 }
    ensures done { (f t : Flash) → StepLeaves (step.Erase 1) answer.Done None f t → t 1 2 ≡ Erased }
    ensures failed { (f t : Flash) → StepLeaves (step.Erase 1) answer.Failed None f t → t 2 2 ≡ f 2 2 }
    ensures found { (f t : Flash) (reading : Read)
        → StepLeaves (step.Read (record { block = 1; page = 2 })) (answer.Found reading) None f t
        → ReadsStamp (f 1 2) reading }
    ensures reads { (P : Addr → Bool) → StepReads (step.Read (record { block = 1; page = 2 })) (λ at. P at ≡ true)
        → P (record { block = 1; page = 2 }) ≡ true }
{}

/// How calls begin.
pub fn driver_beginnings()
    ensures spent { (core : Layer) → next_number_of core + 1 ≡ 2 ^ 64 → IsOutOfNumbers core }
    ensures not_spent { (core : Layer) → next_number_of core ≡ 5 → ¬ IsOutOfNumbers core }
    ensures within { (core : Layer) → BeginsAtRest core (sole 7) (Ok tt) → 7 + 1 ≤ (device_of core).sectors }
    ensures outside { (core : Layer) → (device_of core).sectors ≡ 8
        → ¬ BeginsAtRest core (sole 7) (Err refusal.Outside) }
    ensures number { (core : Layer) → BeginsAtRest core (sole 7) (Err refusal.NoNumber) → IsOutOfNumbers core }
    ensures has { (core : Layer) → BeginsAtRest core (sole 7) (Err refusal.NoNumber) → IsOfDevice core (sole 7) }
    ensures at_rest { (core : Layer) → (¬ BeginsAtRest core (sole 7) (Err refusal.Busy))
        × (¬ BeginsAtRest core (sole 7) (Err refusal.ReadOnly)) × (¬ BeginsAtRest core (sole 7) (Err refusal.Closed)) }
    ensures idle { (core : Layer) (result : Result (Unit {0}) Reason)
        → BeginsIn phase.Idle core (sole 7) result → BeginsAtRest core (sole 7) result }
    ensures busy { (core : Layer) (result : Result (Unit {0}) Reason)
        → BeginsIn (phase.Mark (sole 7)) core (sole 7) result → result ≡ Err refusal.Busy }
    ensures only_read { (core : Layer) (result : Result (Unit {0}) Reason)
        → BeginsIn phase.ReadOnly core (sole 7) result → result ≡ Err refusal.ReadOnly }
    ensures closed { (driver : Device) (result : Result (Unit {0}) Reason)
        → driver.phase ≡ phase.Closed → BeginsCall driver (sole 7) result → result ≡ Err refusal.Closed }
    ensures call { (old new : Device) → HasBegunCall (sole 7) true old new → new.call ≡ sole 7 }
    ensures outcome { (old new : Device) → HasBegunCall (sole 7) true old new → new.outcome ≡ Err refusal.Closed }
    ensures first { (old new : Device) → HasBegunCall (sole 7) true old new → (m : Order)
        × (new.phase ≡ phase.Perform m (record { extent = sole 7; trimmed = true; main = main.Caller })) }
    ensures core { (old new : Device) → HasBegunCall (sole 7) true old new → new.core ≡ old.core }
    ensures numbers { (old new : Device) → HasBegunCall (sole 7) true old new → new.numbers ≡ old.numbers }
    ensures unmarked { (old new : Device) → HasBegunCall (sole 7) true old new → new.unmarked ≡ old.unmarked }
    ensures reserve { (old new : Device) → HasBegunCall (sole 7) true old new
        → (new.spare ≡ old.spare) × (new.good ≡ old.good) }
{}

/// How a driver goes on after an answer.
pub fn driver_answers()
    ensures done { (m : Order) (job : Work) → IsDoneIn (phase.Perform m job) answer.Done }
    ensures marked { IsDoneIn (phase.Mark (sole 7)) answer.Done }
    ensures fetched { (at : Addr) (reading : Read) → IsDoneIn (phase.Fetch at (sole 7)) (answer.Found reading) }
    ensures not_done { ¬ IsDoneIn (phase.Mark (sole 7)) answer.Failed }
    ensures at_rest { ¬ IsDoneIn phase.Idle answer.Done }
    ensures failed { (m : Order) (job : Work) → IsFailureIn (phase.Perform m job) answer.Failed }
    ensures looked { (at : Addr) (job : Work) (reading : Read) → IsFailureIn (phase.Look at 5 job) (answer.Found reading) }
    ensures no_failure { ¬ IsFailureIn (phase.Mark (sole 7)) answer.Failed }
    ensures made { (old new : Device) → new.outcome ≡ Ok tt → TellsOutcome old new }
    ensures spent { (old new : Device) → TellsOutcome old new → new.outcome ≡ Err refusal.NoNumber
        → new.phase ≡ phase.Idle → IsOutOfNumbers new.core }
    ensures ends { (old new : Device) → TellsOutcome old new → new.phase ≡ phase.Idle → new.outcome ≢ Err refusal.Closed }
    ensures goes_on { (old new : Device) → TellsOutcome old new → new.phase ≡ phase.Mark (sole 7)
        → new.outcome ≡ Err refusal.Closed → old.outcome ≡ Err refusal.Closed }
    ensures success { (old new : Device) → IsAfterSuccess old new → (new.phase ≢ phase.Closed) × (new.phase ≢ phase.ReadOnly) }
    ensures told { (old new : Device) → IsAfterSuccess old new → TellsOutcome old new }
    ensures reserve { (old new : Device) → IsAfterSuccess old new → (new.spare ≡ old.spare) × (new.good ≡ old.good) }
    ensures failure { (old new : Device) → IsAfterFailure old new → new.phase ≢ phase.Closed }
    ensures refused { (old new : Device) → IsAfterFailure old new → new.outcome ≡ Err refusal.ReadOnly
        → old.outcome ≡ Err refusal.Closed → new.phase ≡ phase.ReadOnly }
    ensures only_read { (old new : Device) → IsAfterFailure old new → new.phase ≡ phase.ReadOnly → new.spare ≡ old.spare }
    ensures used { (old new : Device) → IsAfterFailure old new → new.spare ≢ old.spare → new.spare ≡ old.spare + 1 }
    ensures same { (old new : Device) → IsAfterFailure old new → (new.good ≡ old.good) × (new.unmarked ≡ old.unmarked) }
    ensures cut { (old new : Device) → IsAfterCut old new → new.phase ≡ phase.Closed }
    ensures kept { (old new : Device) → IsAfterCut old new → (new.outcome ≡ old.outcome)
        × (new.spare ≡ old.spare) × (new.good ≡ old.good) × (new.unmarked ≡ old.unmarked) }
    ensures closes { (old new : Device) → old.phase ≡ phase.Mark (sole 7)
        → GoesOnAfter old answer.Failed new → new.phase ≡ phase.Closed }
    ensures continues { (old new : Device) → old.phase ≡ phase.Mark (sole 7)
        → GoesOnAfter old answer.Done new → IsAfterSuccess old new }
    ensures fails { (old new : Device) (m : Order) (job : Work) → old.phase ≡ phase.Perform m job
        → GoesOnAfter old answer.Failed new → IsAfterFailure old new }
    ensures uses { (f : Flash) (value : Sector) (was : ℕ → Sector) (old new : Device) (m : Order) (job : Work)
        → old.phase ≡ phase.Perform m job → HoldsNow f old value was → old.spare < old.good
        → GoesOnAfter old answer.Failed new → new.phase ≢ phase.ReadOnly }
    ensures rests { (old new : Device) → old.phase ≡ phase.Idle → GoesOnAfter old answer.Done new → new ≡ old }
    ensures taken { (old new : Device) → Takes old answer.PowerGone new → GoesOnAfter old answer.PowerGone new }
{}

/// The numbers of a driver's blocks, and which are given up.
pub fn driver_numbers()
    ensures none { IsOneToOne [] }
    ensures twice { ¬ IsOneToOne (1 ∷ 1 ∷ []) }
    ensures used { IsStillGood 2 4 6 1 }
    ensures failed { ¬ IsStillGood 2 4 6 3 }
    ensures reserve { IsStillGood 2 4 6 4 }
    ensures bad { ¬ IsStillGood 2 4 6 6 }
    ensures given_up { (driver : Device) (b c : ℕ) → IsGivenUp driver b
        → c < (device_of driver.core).blocks → chip_block driver.numbers.items c ≢ b }
    ensures left { IsLeftIn (phase.Look (record { block = 0; page = 2 }) 5 (record { extent = sole 7; trimmed = true; main = main.Caller }))
        (2 ∷ 0 ∷ 1 ∷ []) 2 }
    ensures alone { (driver : Device) (b : ℕ) → driver.phase ≡ phase.ReadOnly → IsLeftAlone driver b }
    ensures not_alone { (driver : Device) (b : ℕ) → driver.phase ≡ phase.Idle → IsLeftAlone driver b → IsGivenUp driver b }
    ensures stays { (old new : Device) (b : ℕ) → StaysDriver old new → IsGivenUp old b → IsGivenUp new b }
{}

/// What a driver and its flash hold.
pub fn driver_arrays()
    ensures at_rest { can_read phase.ReadOnly ≡ true }
    ensures in_call { can_read (phase.Mark (sole 7)) ≡ false }
    ensures empty { (f : Flash) → ¬ HasSector f 7 (Some (5 ∷ [])) None }
    ensures there { (f : Flash) (v : Sector) → f 1 2 ≡ Version (sole 7) 3 v
        → HasSector f 7 v (Some (record { block = 1; page = 2 })) }
    ensures made { is_made (Ok tt) ≡ true }
    ensures not_made { is_made (Err refusal.Closed) ≡ false }
    ensures now { (driver : Device) (value : Sector) (was : ℕ → Sector) → driver.outcome ≡ Ok tt
        → array_now driver value was 7 ≡ changed was driver.call value 7 }
    ensures before { (driver : Device) (value : Sector) (was : ℕ → Sector)
        → driver.outcome ≡ Err refusal.Closed → array_now driver value was 7 ≡ was 7 }
    ensures mounts { (f : Flash) (core : Layer) (array : ℕ → Sector) → CanMount f [] core array
        → (updates : List Update) × IsRecoverable f (device_of core) updates updates }
    ensures blank { (f : Flash) (core : Layer) (array : ℕ → Sector) → Knows f [] core 2 4 array
        → HoldsNoVersion f 3 }
    ensures knows { (f : Flash) (driver : Device) (array : ℕ → Sector) → KnowsArray f driver array
        → driver.good ≤ (device_of driver.core).read_blocks }
    ensures moves { (f : Flash) (array : ℕ → Sector) (v : Sector) (at : Addr)
        → IsMoving f true [] 2 4 6 at (sole 7) array v → array 7 ≡ v }
    ensures given_up { (f : Flash) (array : ℕ → Sector) (v : Sector)
        → ¬ IsMoving f true [] 2 4 6 (record { block = 1; page = 2 }) (sole 7) array v }
    ensures moves_of { (f : Flash) (driver : Device) (array : ℕ → Sector) (v : Sector) (at : Addr)
        → IsMovingOf f driver at (sole 7) array v → is_made driver.outcome ≡ true }
    ensures lost { (P : Bool) → ¬ IsJobBy main.Lost (P ≡ P) (λ at. P ≡ P) }
    ensures job { (f : Flash) (driver : Device) (job : Work) (value v : Sector) (was : ℕ → Sector)
        → job.main ≡ main.Lost → ¬ IsJob f driver job value was v }
    ensures reads { (f : Flash) (driver : Device) (array : ℕ → Sector) → ReadsArray f driver array
        → CanMount f driver.numbers.items driver.core array }
    ensures closed { (f : Flash) (driver : Device) (value : Sector) (was : ℕ → Sector)
        → HoldsIn phase.Closed f driver value was }
    ensures idle { (f : Flash) (driver : Device) (value : Sector) (was : ℕ → Sector)
        → driver.phase ≡ phase.Idle → HoldsNow f driver value was → KnowsArray f driver (array_now driver value was) }
    ensures either { (f : Flash) (driver : Device) (value : Sector) (was : ℕ → Sector)
        → CanMount f driver.numbers.items driver.core (array_now driver value was) → CanMountEither f driver value was }
    ensures cut { (f : Flash) (driver : Device) (value : Sector) (was : ℕ → Sector)
        → CutHoldsIn phase.Idle f driver value was
        → CanMount f driver.numbers.items driver.core (array_now driver value was) }
    ensures takes { (old new : Device) → Takes old answer.PowerGone new → new.call ≡ old.call }
{}
