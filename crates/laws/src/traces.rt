//! Laws of how a trace is read, and of why it is not loaded, not played, or not played to its end.
ghost use Rattle.std.specs.Prelude.{◌≡◌, ℕ, List, [], ◌∷◌, Option, Some, None, Ok, Err, Bool, true, false, codes, drop, length, replicate};
ghost use Rattle.answers.specs.{Answers.answer_of, Answers.calls_of, Answers.history_before, Outcome.ExplainsRun, Outcome.ExplainsTrace, Outcome.ReadsCommands};
ghost use Rattle.answers.specs.{Answers.IsPlayable, Streams.Passage};
ghost use Rattle.answers.specs.declared.fault.RunFault.TheVariants as run;
ghost use Rattle.answers.specs.Streams.{Part, Tells};
ghost use Rattle.geometry.specs.{Geometry.hosts_of, Geometry.sectors_of, Geometry.words_of, Sectors.Sector, declared.geometry.Geometry.Geometry};
ghost use Rattle.geometry.specs.History.{Trim, WriteNew};
ghost use Rattle.trace.specs.{Loading.ExplainsLoad, Trace.AreCommands, Trace.IsFirstFault, Trace.commands_of, Trace.is_of_record};
ghost use Rattle.trace.specs.declared.{commands.Command.Command, fault.TraceFault.TraceFault, fault.TraceFaultKind.TraceFaultKind};
ghost use Rattle.trace.specs.declared.commands.Op.TheVariants as op;
ghost use Rattle.trace.specs.declared.fault.TraceFaultKind.TheVariants as fault;
ghost use Rattle.laws.specs.Sessions.{Same, fails, passes, stream};

pub(crate) mod deliveries;
pub(crate) mod lines;
pub(crate) mod reports;
pub(crate) mod sessions;
pub(crate) mod texts;

/// Why a trace is not loaded: it is too big only if it has more bytes than a trace may have, of which one was read.
pub fn loads_of_a_trace()
    ensures big { (bytes : List ℕ) → length bytes ≡ 268435458
        → ExplainsLoad fault.Big 0 0 (Some bytes) (Some (drop 268435457 bytes)) }
    ensures not_big { (bytes rest : List ℕ) → length bytes ≡ 268435456
        → ¬ ExplainsLoad fault.Big 0 0 (Some bytes) (Some rest) }
    ensures read_too_few { (bytes : List ℕ) → length bytes ≡ 268435458
        → ¬ ExplainsLoad fault.Big 0 0 (Some bytes) (Some (drop 268435456 bytes)) }
    ensures big_failed { (bytes rest : Option (List ℕ)) → ¬ ExplainsLoad fault.Big 0 1 bytes rest }
    ensures of_a_record { (k : TraceFaultKind) (n m : ℕ) (bytes rest : Option (List ℕ))
        → is_of_record k ≡ true → ¬ ExplainsLoad k n m bytes rest }
{}

/// Which commands records are, which fault is the first, and which commands a device can play.
pub fn records_of_a_trace()
    ensures order { (c d : Command) → ¬ (c ≡ d) → ¬ AreCommands (Ok c ∷ Ok d ∷ []) (d ∷ c ∷ []) }
    ensures faulty { (commands : List Command) → ¬ AreCommands (Err fault.Hex ∷ []) commands }
    ensures first { IsFirstFault (Err fault.Hex ∷ Err fault.Op ∷ [])
        (record { line = 1; kind = fault.Hex }) }
    ensures second { ¬ IsFirstFault (Err fault.Hex ∷ Err fault.Op ∷ [])
        (record { line = 2; kind = fault.Op }) }
    ensures other_kind { ¬ IsFirstFault (Err fault.Hex ∷ [])
        (record { line = 1; kind = fault.Op }) }
    ensures no_fault { (c : Command) (k : TraceFault) → ¬ IsFirstFault (Ok c ∷ []) k }
    ensures write { (g : Geometry) → hosts_of g ≡ 0 → sectors_of g ≡ 6 → words_of g ≡ 1
        → IsPlayable g (record { worker = 499; op = op.Write; sector = 5; page = replicate 8 0 }) }
    ensures new { (g : Geometry) → hosts_of g ≡ 0 → sectors_of g ≡ 6 → words_of g ≡ 1
        → IsPlayable g (record { worker = 499; op = op.New; sector = 5; page = replicate 8 0 }) }
    ensures no_worker { (g : Geometry) → hosts_of g ≡ 0
        → ¬ IsPlayable g (record { worker = 500; op = op.Read; sector = 5; page = [] }) }
{}

/// Why a trace is not played: the fault is that of its bytes, which were read to their end, or no record's.
pub fn faults_of_a_trace()
    ensures record_fault { (g : Geometry) (k : TraceFault)
        → is_of_record k.kind ≡ true → commands_of (7 ∷ []) g ≡ Err k
        → ExplainsTrace k g (passes (7 ∷ []) []) }
    ensures no_fault { (g : Geometry) (k : TraceFault) (commands : List Command)
        → is_of_record k.kind ≡ true → commands_of (7 ∷ []) g ≡ Ok commands
        → ¬ ExplainsTrace k g (passes (7 ∷ []) []) }
    ensures not_ended { (g : Geometry) (k : TraceFault) → is_of_record k.kind ≡ true
        → ¬ ExplainsTrace k g (passes (7 ∷ 8 ∷ []) (8 ∷ [])) }
    ensures memory { (g : Geometry) (i : Passage) → i.after.failures ≡ i.before.failures
        → ExplainsTrace (record { line = 0; kind = fault.Memory }) g i }
    ensures memory_failed { (g : Geometry)
        → ¬ ExplainsTrace (record { line = 0; kind = fault.Memory }) g (fails [] []) }
    ensures read { (g : Geometry)
        → ExplainsTrace (record { line = 0; kind = fault.Read }) g (fails [] []) }
    ensures big { (g : Geometry) (bytes : List ℕ) → length bytes ≡ 268435458
        → ExplainsTrace (record { line = 0; kind = fault.Big }) g (passes bytes (drop 268435457 bytes)) }
    ensures not_big { (g : Geometry)
        → ¬ ExplainsTrace (record { line = 0; kind = fault.Big }) g (passes [] []) }
{}

/// Why a run stops: unless the trace has a fault it was read to its end, and only if the writer failed a beginning of the text is written.
pub fn faults_of_a_run()
    ensures reads { (g : Geometry) (commands : List Command)
        → commands_of (7 ∷ []) g ≡ Ok commands → ReadsCommands g (passes (7 ∷ []) []) }
    ensures not_ended { (g : Geometry) → ¬ ReadsCommands g (passes (7 ∷ 8 ∷ []) (8 ∷ [])) }
    ensures read_failed { (g : Geometry) → ¬ ReadsCommands g (fails [] []) }
    ensures faulty { (g : Geometry) (k : TraceFault)
        → commands_of (7 ∷ []) g ≡ Err k → ¬ ReadsCommands g (passes (7 ∷ []) []) }
    ensures memory { (g : Geometry) (i o : Passage) → ReadsCommands g i
        → o.after ≡ o.before → ExplainsRun (λ x. Same) g i o run.Memory }
    ensures threads { (g : Geometry) (i o : Passage) → hosts_of g ≡ 2 → ReadsCommands g i
        → o.after ≡ o.before → ExplainsRun (λ x. Same) g i o run.Threads }
    ensures output { (g : Geometry) (commands : List Command)
        → commands_of (7 ∷ 8 ∷ []) g ≡ Ok commands
        → ExplainsRun (λ x. Same) g (passes (7 ∷ 8 ∷ []) []) (fails [] (7 ∷ [])) run.Output }
    ensures other_output { (g : Geometry)
        → ¬ ExplainsRun (λ x. Same) g (passes (7 ∷ 8 ∷ []) []) (fails [] (8 ∷ [])) run.Output }
    ensures unread { (g : Geometry) (o : Passage)
        → (¬ ExplainsRun (λ x. Same) g (fails [] []) o run.Memory)
        × (¬ ExplainsRun (λ x. Same) g (fails [] []) o run.Threads)
        × (¬ ExplainsRun (λ x. Same) g (fails [] []) o run.Output) }
    ensures trace { (g : Geometry) (k : TraceFault) (i o : Passage) → ExplainsTrace k g i
        → o.after ≡ o.before → ExplainsRun (λ x. Same) g i o (run.Trace k) }
    ensures part { Tells Part Same (stream 0 (7 ∷ 8 ∷ [])) (passes [] (7 ∷ [])) }
    ensures no_part { (¬ Tells Part Same (stream 0 (7 ∷ 8 ∷ [])) (passes [] (8 ∷ [])))
        × (¬ Tells Part Same (stream 0 (7 ∷ [])) (passes [] (7 ∷ 8 ∷ []))) }
{}

/// What is answered to a command, and which calls it adds to the history.
pub fn answers_of_commands()
    ensures read { (refused : Bool)
        → (answer_of (codes "worn") refused op.Read None ≡ codes "empty")
        × (answer_of (codes "worn") refused op.Read (Some (10 ∷ [])) ≡ codes "0a") }
    ensures write { (x : List ℕ) → (answer_of (codes "worn") false op.Write None ≡ codes "empty")
        × (answer_of (codes "worn") false op.New (Some x) ≡ codes "written") }
    ensures refused { (s : Sector) → (answer_of (codes "worn") true op.Write s ≡ codes "worn")
        × (answer_of (codes "worn") true op.New s ≡ codes "worn") }
    ensures trim { (refused : Bool) (x : List ℕ)
        → (answer_of (codes "worn") refused op.Trim None ≡ codes "empty")
        × (answer_of (codes "worn") refused op.Trim (Some x) ≡ codes "written") }
    ensures meet { (refused : Bool) (s : Sector)
        → answer_of (codes "worn") refused op.Meet s ≡ codes "met" }
    ensures calls { (x : List ℕ)
        → (calls_of false (record { worker = 3; op = op.New; sector = 5; page = x })
        ≡ WriteNew 0 5 x ∷ [])
        × (calls_of false (record { worker = 3; op = op.Meet; sector = 0; page = x }) ≡ []) }
    ensures before { (x : List ℕ) (c : Command)
        → history_before
        (λ k. false) (record { worker = 3; op = op.Trim; sector = 5; page = x } ∷ c ∷ []) 1
        ≡ Trim 0 5 ∷ [] }
    ensures none_before { (commands : List Command) → history_before (λ k. false) commands 0 ≡ [] }
{}
