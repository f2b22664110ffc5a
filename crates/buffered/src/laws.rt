//! Laws of the definitions: each function has no code, and its clauses say where a definition holds and where not.
ghost use Rattle.std.specs.Prelude.{◌≡◌, ℕ, List, [], ◌∷◌};
ghost use Rattle.durable.specs.Runs.{Completed, CutBetween, CutInside, Event, Failed, Happens, Retired};
ghost use Rattle.durable.specs.Updates.{Update};
ghost use Rattle.durable.specs.declared.command.Command.{Command as Next};
ghost use Rattle.buffered.specs.Buffered.{Does, LiesBack, IsCutOf, IsCutOfFirst, Moment, RunsThrough, Step, Syncs, Undoes, kept_in};

/// What a power cut undoes: events since the last sync, and since the last cut that has undone some.
pub fn undoing()
    ensures kept { (a b : Event) → kept_in (Undoes 1 CutBetween ∷ Does b ∷ Does a ∷ Syncs ∷ [])
        ≡ CutBetween ∷ a ∷ [] }
    ensures synced { (steps : List Step) (moments : List Moment) (undone : ℕ) (cut : Event)
        → ¬ RunsThrough (Undoes undone cut ∷ Syncs ∷ steps) moments }
    ensures once { (steps : List Step) (moments : List Moment) (m n : ℕ) (cut other : Event)
        → ¬ RunsThrough (Undoes n cut ∷ Undoes m other ∷ steps) moments }
    ensures happens { (event : Event) (steps : List Step) (now was : Moment)
        (earlier : List Moment)
        → RunsThrough (Does event ∷ steps) (now ∷ was ∷ earlier)
        → Happens event was.flash was.layer now.flash now.layer }
    ensures cut { (steps : List Step) (now : Moment) (undone : ℕ) (cut : Event)
        → RunsThrough (Undoes undone cut ∷ steps) (now ∷ []) → IsCutOfFirst undone (kept_in steps) cut }
{}

/// Which cuts an undone event may leave, and which moments lie behind one.
pub fn cuts()
    ensures idle { (event : Event) → IsCutOf event CutBetween }
    ensures inside { (update : Update) (command : Next)
        → IsCutOf (Completed update command) (CutInside update command) }
    ensures failed { (update : Update) (command : Next)
        → IsCutOf (Failed update command) (CutInside update command) }
    ensures retired { (update : Update) (command : Next)
        → IsCutOf (Retired update command) (CutInside update command) }
    ensures again { (update : Update) (command : Next)
        → IsCutOf (CutInside update command) (CutInside update command) }
    ensures none { (update : Update) (command : Next)
        → ¬ IsCutOf CutBetween (CutInside update command) }
    ensures other { (one two : Update) (command : Next)
        → IsCutOf (Completed one command) (CutInside two command) → two ≡ one }
    ensures first { (a b : Event) → IsCutOf a b → IsCutOfFirst 2 (CutBetween ∷ a ∷ []) b }
    ensures not_last { (update : Update) (command : Next)
        → ¬ IsCutOfFirst 2 (Completed update command ∷ CutBetween ∷ [])
        (CutInside update command) }
    ensures back { (now was : Moment) → LiesBack 1 (now ∷ was ∷ []) was }
    ensures present { (now was : Moment) → LiesBack 0 (now ∷ []) was → was ≡ now }
    ensures not_back { (now was : Moment) → ¬ LiesBack 1 (now ∷ []) was }
{}
