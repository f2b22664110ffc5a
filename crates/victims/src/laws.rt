//! Laws of what is known of blocks, and of how they are sorted. Each function has no code: its clauses say where a definition holds and where not.
ghost use Rattle.std.specs.Prelude.{◌≡◌, ◌^◌, [], ◌∷◌, true, false};
ghost use Rattle.victims.specs.Victims.{Blocks, block_count, kept_pages, erase_count, spare_count, AreKeys, are_above_zero, AreCounted, IsEligible};
ghost use Rattle.victims.specs.{Victims.IsBestVictim, Victims.IsSpareBlock, Permutation.AreInverse, Permutation.HasMoved};
ghost use Rattle.victims.specs.Buckets.{AreSorted, HasLeastKey};

/// Four blocks that keep 3, 0, 1 and 1 pages, of which all but the second are eligible.
pub fn four_blocks()
    ensures count { (s : Blocks) → s.kept ≡ 3 ∷ 0 ∷ 1 ∷ 1 ∷ [] → block_count s ≡ 4 }
    ensures kept { (s : Blocks) → s.kept ≡ 3 ∷ 0 ∷ 1 ∷ 1 ∷ [] → kept_pages s 0 ≡ 3 }
    ensures erases { (s : Blocks) → s.erases ≡ 5 ∷ 6 ∷ 7 ∷ 8 ∷ [] → erase_count s 3 ≡ 8 }
    ensures closed { (s : Blocks) → s.kept ≡ 3 ∷ 0 ∷ 1 ∷ 1 ∷ []
        → s.eligible ≡ true ∷ false ∷ true ∷ true ∷ [] → IsEligible s 0 }
    ensures open { (s : Blocks)
        → s.eligible ≡ true ∷ false ∷ true ∷ true ∷ [] → ¬ (IsEligible s 1) }
    ensures beyond { (s : Blocks) → s.kept ≡ 3 ∷ 0 ∷ 1 ∷ 1 ∷ [] → ¬ (IsEligible s 4) }
    ensures fullest { (s : Blocks) → s.kept ≡ 3 ∷ 0 ∷ 1 ∷ 1 ∷ []
        → s.eligible ≡ true ∷ false ∷ true ∷ true ∷ [] → ¬ (IsBestVictim s 0) }
    ensures emptiest { (s : Blocks)
        → s.eligible ≡ true ∷ false ∷ true ∷ true ∷ [] → ¬ (IsBestVictim s 1) }
    ensures fewest { (s : Blocks) → s.kept ≡ 3 ∷ 0 ∷ 1 ∷ 1 ∷ []
        → s.eligible ≡ true ∷ false ∷ true ∷ true ∷ [] → IsBestVictim s 2 }
    ensures last { (s : Blocks) → s.kept ≡ 3 ∷ 0 ∷ 1 ∷ 1 ∷ []
        → s.eligible ≡ true ∷ false ∷ true ∷ true ∷ [] → IsBestVictim s 3 }
{}

/// Each block has its counts.
pub fn counted_blocks()
    ensures counted { AreCounted
        (record { pages = 4; kept = 4 ∷ 0 ∷ []; erases = 5 ∷ 6 ∷ []; eligible = true ∷ false ∷ [] }) }
    ensures few_erases { ¬ (AreCounted
        (record { pages = 4; kept = 4 ∷ 0 ∷ []; erases = 5 ∷ []; eligible = true ∷ false ∷ [] })) }
    ensures few_marks { ¬ (AreCounted
        (record { pages = 4; kept = 4 ∷ 0 ∷ []; erases = 5 ∷ 6 ∷ []; eligible = true ∷ [] })) }
    ensures too_many { (s : Blocks) → block_count s ≡ 2 ^ 32 → ¬ (AreCounted s) }
    ensures too_full { ¬ (AreCounted
        (record { pages = 4; kept = 5 ∷ 0 ∷ []; erases = 5 ∷ 6 ∷ []; eligible = true ∷ false ∷ [] })) }
{}

/// Spares are eligible and keep nothing.
pub fn spares()
    ensures one { (s : Blocks) → s.kept ≡ 0 ∷ 0 ∷ 1 ∷ []
        → s.eligible ≡ true ∷ false ∷ true ∷ [] → IsSpareBlock s 0 }
    ensures open { (s : Blocks) → s.eligible ≡ true ∷ false ∷ true ∷ [] → ¬ (IsSpareBlock s 1) }
    ensures used { (s : Blocks) → s.kept ≡ 0 ∷ 0 ∷ 1 ∷ [] → ¬ (IsSpareBlock s 2) }
    ensures count { (s : Blocks) → s.kept ≡ 0 ∷ 0 ∷ 1 ∷ []
        → s.eligible ≡ true ∷ false ∷ true ∷ [] → spare_count s ≡ 1 }
    ensures two { (s : Blocks) → s.kept ≡ 0 ∷ 0 ∷ 1 ∷ []
        → s.eligible ≡ true ∷ true ∷ true ∷ [] → spare_count s ≡ 2 }
{}

/// The keys of blocks: 0 of those that are not eligible, and one more than the kept pages of the others.
pub fn keys()
    ensures marks { are_above_zero (2 ∷ 0 ∷ 1 ∷ []) ≡ true ∷ false ∷ true ∷ [] }
    ensures keys { AreKeys (3 ∷ 3 ∷ 0 ∷ []) (4 ∷ 0 ∷ 1 ∷ []) }
    ensures other { ¬ (AreKeys (3 ∷ []) (3 ∷ [])) }
    ensures short { ¬ (AreKeys (3 ∷ 3 ∷ []) (4 ∷ [])) }
{}

/// An order and places that are inverse to each other, and moves in it.
pub fn orders()
    ensures inverse { AreInverse (2 ∷ 0 ∷ 1 ∷ []) (1 ∷ 2 ∷ 0 ∷ []) }
    ensures same { ¬ (AreInverse (2 ∷ 0 ∷ 1 ∷ []) (2 ∷ 0 ∷ 1 ∷ [])) }
    ensures moved { HasMoved (1 ∷ 2 ∷ 0 ∷ []) (2 ∷ 1 ∷ 0 ∷ []) 0 2 }
    ensures here { ¬ (HasMoved (1 ∷ 2 ∷ 0 ∷ []) (9 ∷ 1 ∷ 0 ∷ []) 0 2) }
    ensures back { ¬ (HasMoved (1 ∷ 2 ∷ 0 ∷ []) (2 ∷ 2 ∷ 0 ∷ []) 0 2) }
    ensures others { ¬ (HasMoved (1 ∷ 2 ∷ 0 ∷ []) (2 ∷ 1 ∷ 1 ∷ []) 0 2) }
{}

/// Items of the keys 1, 0 and 1 in buckets.
pub fn buckets()
    ensures sorted { AreSorted (1 ∷ 0 ∷ 1 ∷ []) (2 ∷ 0 ∷ 1 ∷ []) (0 ∷ 1 ∷ 3 ∷ []) }
    ensures same { ¬ (AreSorted (1 ∷ 0 ∷ 1 ∷ []) (2 ∷ 0 ∷ 1 ∷ 9 ∷ []) (0 ∷ 1 ∷ 3 ∷ [])) }
    ensures in_range { ¬ (AreSorted (1 ∷ 0 ∷ 1 ∷ []) (2 ∷ 0 ∷ 1 ∷ []) (0 ∷ [])) }
    ensures behind { ¬ (AreSorted (1 ∷ 0 ∷ 1 ∷ []) (2 ∷ 1 ∷ 1 ∷ []) (0 ∷ 1 ∷ 3 ∷ [])) }
    ensures before { ¬ (AreSorted (1 ∷ 0 ∷ 1 ∷ []) (0 ∷ 0 ∷ 1 ∷ []) (0 ∷ 1 ∷ 3 ∷ [])) }
    ensures count { ¬ (AreSorted (1 ∷ 0 ∷ 1 ∷ []) (9 ∷ 0 ∷ 8 ∷ []) (0 ∷ 2 ∷ 10 ∷ [])) }
    ensures least { HasLeastKey (4 ∷ 1 ∷ 3 ∷ []) 2 2 }
    ensures enough { ¬ (HasLeastKey (4 ∷ 1 ∷ 3 ∷ []) 2 1) }
    ensures more { ¬ (HasLeastKey (4 ∷ 1 ∷ 3 ∷ []) 2 0) }
    ensures beyond { ¬ (HasLeastKey (4 ∷ 1 ∷ 3 ∷ []) 0 3) }
{}
