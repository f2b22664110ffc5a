ghost use Rattle.std.specs.Prelude.{◌≡◌, ℕ, List, [], ◌∷◌};
ghost use Rattle.geometry.specs.{History.Call, History.Trim, History.Begins, Limits.Numbers, declared.words.MapWord.MapWord};
ghost use Rattle.flash_rule.specs.{Plays.Disjoint, Plays.Once, Views.AreOfHosts, Views.calls_of};

/// A history begins itself and each longer one whose first calls are its own.
pub fn beginnings_of_histories()
    ensures itself { (h : List Call) → Begins h h }
    ensures shorter { (c d : Call) → Begins (c ∷ []) (c ∷ d ∷ []) }
    ensures first { (c d e : Call) → Begins (c ∷ []) (d ∷ e ∷ []) → c ≡ d }
    ensures longer { (c d : Call) → ¬ Begins (c ∷ d ∷ []) (c ∷ []) }
{}

/// Which calls are those of a pass, and which are of the hosts of a device.
pub fn calls_of_hosts()
    ensures calls { (s r : ℕ)
        → calls_of 0 (Trim 0 s ∷ Trim 1 s ∷ Trim 0 r ∷ []) ≡ Trim 0 s ∷ Trim 0 r ∷ [] }
    ensures last { (z : Numbers) (s : ℕ) → z.hosts ≡ 2 → AreOfHosts z (Trim 1 s ∷ []) }
    ensures beyond { (z : Numbers) (s : ℕ) → z.hosts ≡ 2
        → ¬ AreOfHosts z (Trim 0 s ∷ Trim 2 s ∷ []) }
{}

/// When two lists of pages share none, and when a list has none twice.
pub fn lists_of_players()
    ensures apart { (x y : MapWord) → ¬ (x ≡ y) → Disjoint (x ∷ []) (y ∷ []) }
    ensures shared { (x y z : MapWord) → ¬ Disjoint (x ∷ y ∷ []) (z ∷ y ∷ []) }
    ensures once { (x y : MapWord) → ¬ (x ≡ y) → Once (x ∷ y ∷ []) }
    ensures twice { (x y : MapWord) → ¬ Once (x ∷ y ∷ x ∷ []) }
{}
