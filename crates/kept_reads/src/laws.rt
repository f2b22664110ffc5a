//! Laws of the definitions: each function has no code, and its clauses say where a definition holds and where not.
ghost use Rattle.std.specs.Prelude.{◌≡◌, ℕ, List, [], ◌∷◌, None, Some, false};
ghost use Rattle.geometry.specs.declared.page_addr.PageAddr.{PageAddr};
ghost use Rattle.durable.specs.Device.{device_of};
ghost use Rattle.durable.specs.Flash.{Flash, Recovers};
ghost use Rattle.durable.specs.Runs.{Completed, CutBetween, CutInside, Event, Failed, Happens, Retired, Runs};
ghost use Rattle.durable.specs.Updates.{Makes, Update, array_after, sole};
ghost use Rattle.durable.specs.declared.command.Command.{Command as Next};
ghost use Rattle.durable.specs.declared.command.Command.TheVariants.{Program, Erase};
ghost use Rattle.durable.specs.declared.memory.Core.{Core as Layer};
ghost use Rattle.kept_reads.specs.Published.{Publishes, changes_shown};
ghost use Rattle.kept_reads.specs.Sessions.{Does, Extends, HasAllSeen, MakesBy, Reads, RunsBeside, changes_in, events_in, value_after, with_changes};

/// What updates are to readers. A trim of sectors 4 and 5 is two changes.
pub fn changes()
    ensures none { value_after [] 2 ≡ None }
    ensures newest { value_after ((2, Some (9 ∷ [])) ∷ (2, Some (8 ∷ [])) ∷ []) 2 ≡ Some (9 ∷ []) }
    ensures other { value_after ((2, Some (9 ∷ [])) ∷ (1, Some (8 ∷ [])) ∷ []) 1 ≡ Some (8 ∷ []) }
    ensures row { with_changes 4 2 None ((1, None) ∷ []) ≡ (5, None) ∷ (4, None) ∷ (1, None) ∷ [] }
    ensures updates { changes_in (record { extent = record { first = 4; count = 2 }; value = None }
        ∷ record { extent = sole 7; value = Some (9 ∷ []) } ∷ [])
        ≡ (5, None) ∷ (4, None) ∷ (7, Some (9 ∷ [])) ∷ [] }
    ensures longer { Extends ((2, None) ∷ (1, None) ∷ []) ((1, None) ∷ []) }
    ensures itself { Extends ((1, None) ∷ []) ((1, None) ∷ []) }
    ensures newer { ¬ (Extends ((2, None) ∷ (1, None) ∷ []) ((2, None) ∷ [])) }
{}

/// What an event makes.
pub fn events()
    ensures some { (a b : Event) → events_in (Does a ∷ Reads [] 1 None ∷ Does b ∷ []) ≡ a ∷ b ∷ [] }
    ensures completed { (update : Update) (at : PageAddr) (n : ℕ) (t : Flash) (new : Layer) (made : List Update)
        → MakesBy (Completed update (Program at n)) [] t new made → made ≡ update ∷ [] }
    ensures erased { (update : Update) (t : Flash) (new : Layer) (made : List Update)
        → MakesBy (Completed update (Erase 3)) [] t new made → made ≡ [] }
    ensures failed { (update : Update) (m : Next) (t : Flash) (new : Layer) (before made : List Update)
        → MakesBy (Failed update m) before t new made
        → Makes false update before made × Recovers t (device_of new).sectors (array_after made) }
    ensures retired { (update : Update) (m : Next) (t : Flash) (new : Layer) (before made : List Update)
        → MakesBy (Retired update m) before t new made
        → Makes false update before made × Recovers t (device_of new).sectors (array_after made) }
    ensures cut { (update : Update) (m : Next) (t : Flash) (new : Layer) (before made : List Update)
        → MakesBy (CutInside update m) before t new made
        → Makes false update before made × Recovers t (device_of new).sectors (array_after made) }
    ensures between { (t : Flash) (new : Layer) (before made : List Update)
        → MakesBy CutBetween before t new made → made ≡ before }
{}

/// Runs of one step, and what reads have seen.
pub fn runs()
    ensures first { (f : Flash) (layer : Layer) (made : List Update) → RunsBeside [] f layer made
        → Runs [] f layer × (made ≡ []) }
    ensures event { (event : Event) (t : Flash) (new : Layer) (made : List Update)
        → RunsBeside (Does event ∷ []) t new made
        → (f : Flash) × (old : Layer) × Runs [] f old × Happens event f old t new
        × MakesBy event [] t new made }
    ensures read { (f : Flash) (layer : Layer) → RunsBeside [] f layer []
        → RunsBeside (Reads [] 2 None ∷ []) f layer [] }
    ensures seen { (f : Flash) (layer : Layer) (made : List Update)
        → ¬ (RunsBeside (Reads ((2, None) ∷ []) 2 None ∷ []) f layer made) }
    ensures value { (f : Flash) (layer : Layer) (made : List Update)
        → ¬ (RunsBeside (Reads [] 2 (Some (9 ∷ [])) ∷ []) f layer made) }
    ensures kept { HasAllSeen (Reads ((1, None) ∷ []) 1 None ∷ []) ((2, None) ∷ (1, None) ∷ []) }
    ensures lost { ¬ (HasAllSeen (Reads ((1, None) ∷ []) 1 None ∷ []) ((2, None) ∷ [])) }
    ensures other_value { ¬ (HasAllSeen (Reads [] 1 (Some (9 ∷ [])) ∷ []) []) }
    ensures each { (event : Event)
        → ¬ (HasAllSeen (Does event ∷ Reads [] 1 None ∷ Reads ((1, None) ∷ []) 1 None ∷ []) []) }
{}

/// Of three sectors, what an owner has published. The version with a number has this number as its byte.
pub fn published()
    ensures shown { changes_shown (λ n. n ∷ []) ((1, 0) ∷ (2, 9) ∷ []) ≡ (1, None) ∷ (2, Some (9 ∷ [])) ∷ [] }
    ensures written { Publishes 3 (λ n. n ∷ []) [] ((2, 9) ∷ [])
        (record { extent = sole 2; value = Some (9 ∷ []) } ∷ []) }
    ensures array { ¬ (Publishes 3 (λ n. n ∷ []) ((2, 9) ∷ []) ((2, 9) ∷ []) []) }
    ensures both { (made : List Update) → ¬ (Publishes 3 (λ n. n ∷ []) ((2, 9) ∷ []) [] made) }
    ensures not_made { ¬ (Publishes 3 (λ n. n ∷ []) [] ((2, 9) ∷ []) []) }
{}
