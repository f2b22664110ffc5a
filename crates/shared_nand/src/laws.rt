//! Laws of what readers see. Each function has no code: its clauses say where a definition holds and where not.
ghost use Rattle.std.specs.Prelude.{◌≡◌, ◌+◌, [], ◌∷◌, None, Some, true, false, ℕ, List};
ghost use Rattle.geometry.specs.Sectors.{Sector};
ghost use Rattle.shared_nand.specs.Reads.{ReadsVersion, ReadsValue};
ghost use Rattle.shared_nand.specs.Search.{IfRead, is_sought, NamesVersion};
ghost use Rattle.shared_nand.specs.declared.search.Step.TheVariants as step;
ghost use Rattle.shared_nand.specs.Shown.{value_numbered, sector_shown, ShowsArray, with_value, with_trimmed, HasPublished};
ghost use Rattle.shared_nand.specs.Shown.{AreGivenBelow, number_found, KeepsBytes};
ghost use Rattle.version_map.specs.declared.calls.Place.{Place as Where};

/// A token that is a number tells that the version with this number has these two bytes.
pub fn reads()
    ensures none { ReadsVersion {T = ℕ} (λ t n out. t ≡ n) 0 None [] }
    ensures missed { ¬ (ReadsVersion {T = ℕ} (λ t n out. t ≡ n) 3 None []) }
    ensures found { ReadsVersion {T = ℕ} (λ t n out. (t ≡ n) × (out ≡ 7 ∷ 8 ∷ [])) 3 (Some 3) (7 ∷ 8 ∷ []) }
    ensures other { ¬ (ReadsVersion {T = ℕ} (λ t n out. t ≡ n) 3 (Some 4) []) }
    ensures bytes { ¬ (ReadsVersion {T = ℕ} (λ t n out. out ≡ 7 ∷ []) 3 (Some 3) (9 ∷ [])) }
    ensures no_version { ¬ (ReadsVersion {T = ℕ} (λ t n out. t ≡ n) 0 (Some 0) []) }
    ensures empty { ReadsValue {T = ℕ} None None (9 ∷ []) }
    ensures not_empty { ¬ (ReadsValue {T = ℕ} (Some (7 ∷ [])) None (7 ∷ [])) }
    ensures value { ReadsValue {T = ℕ} (Some (7 ∷ [])) (Some 3) (7 ∷ []) }
    ensures other_value { ¬ (ReadsValue {T = ℕ} (Some (7 ∷ [])) (Some 3) (9 ∷ [])) }
    ensures no_value { ¬ (ReadsValue {T = ℕ} None (Some 3) []) }
{}

/// The version with a number has this number and the next as its bytes. Sector 2 has version 9, and sector 1 was emptied.
pub fn shown()
    ensures none { value_numbered (λ n. n ∷ []) 0 ≡ None }
    ensures some { value_numbered (λ n. n ∷ (n + 1) ∷ []) 9 ≡ Some (9 ∷ 10 ∷ []) }
    ensures newest { sector_shown (λ n. n ∷ []) ((1, 0) ∷ (2, 9) ∷ (1, 8) ∷ []) 2 ≡ Some (9 ∷ []) }
    ensures emptied { sector_shown (λ n. n ∷ []) ((1, 0) ∷ (2, 9) ∷ (1, 8) ∷ []) 1 ≡ None }
    ensures array { (array : ℕ → Sector) → ShowsArray 3 (λ n. n ∷ []) ((2, 9) ∷ []) array
        → (array 2 ≡ Some (9 ∷ [])) × (array 1 ≡ None) }
    ensures empty { ShowsArray 3 (λ n. n ∷ []) [] (λ s. None) }
    ensures beyond { ShowsArray 0 (λ n. n ∷ []) [] (λ s. Some (7 ∷ [])) }
    ensures found { (place : Where) → place.number ≡ 9 → number_found (Some place) ≡ 9 }
    ensures not_found { number_found None ≡ 0 }
    ensures kept { KeepsBytes 4 (λ n. n ∷ []) (λ n. n ∷ []) }
    ensures lost { ¬ (KeepsBytes 4 (λ n. n ∷ []) (λ n. [])) }
    ensures not_given { KeepsBytes 0 (λ n. n ∷ []) (λ n. []) }
    ensures below { AreGivenBelow 4 ((2, 3) ∷ (1, 0) ∷ []) }
    ensures above { ¬ (AreGivenBelow 4 ((2, 4) ∷ [])) }
    ensures older { ¬ (AreGivenBelow 4 ((1, 0) ∷ (2, 5) ∷ [])) }
    ensures no_version { AreGivenBelow 0 ((1, 0) ∷ []) }
{}

/// Changes of one sector, and of sectors in a row.
pub fn changes()
    ensures written { (array : ℕ → Sector) → with_value array 2 (Some (7 ∷ [])) 2 ≡ Some (7 ∷ []) }
    ensures other { (array : ℕ → Sector) → with_value array 2 (Some (7 ∷ [])) 3 ≡ array 3 }
    ensures first { (array : ℕ → Sector) → with_trimmed array 2 3 2 ≡ None }
    ensures last { (array : ℕ → Sector) → with_trimmed array 2 3 4 ≡ None }
    ensures before { (array : ℕ → Sector) → with_trimmed array 2 3 1 ≡ array 1 }
    ensures behind { (array : ℕ → Sector) → with_trimmed array 2 3 5 ≡ array 5 }
    ensures published { HasPublished (λ n. n ∷ []) [] ((2, 9) ∷ []) 2 (Some (9 ∷ [])) }
    ensures nothing { ¬ (HasPublished (λ n. n ∷ []) [] [] 2 (Some (9 ∷ []))) }
    ensures other_value { ¬ (HasPublished (λ n. n ∷ []) [] ((2, 8) ∷ []) 2 (Some (9 ∷ []))) }
    ensures other_sector { ¬ (HasPublished (λ n. n ∷ []) [] ((3, 9) ∷ []) 2 (Some (9 ∷ []))) }
{}

/// A search has found version 9 of sector 2.
pub fn searches()
    ensures read { (place : Where) → IfRead (step.Read place) (λ p. p ≡ place) }
    ensures says { (place : Where) → ¬ (IfRead (step.Read place) (λ p. ⊥)) }
    ensures not_read { IfRead step.Empty (λ p. ⊥) × IfRead step.Lost (λ p. ⊥)
        × IfRead step.Unsettled (λ p. ⊥) }
    ensures sought { (place : Where) → place.number ≡ 9 → is_sought 9 (Some place) ≡ true }
    ensures other { (place : Where) → place.number ≡ 9 → is_sought 8 (Some place) ≡ false }
    ensures later { (place : Where) → place.number ≡ 9 → is_sought 10 (Some place) ≡ false }
    ensures none { is_sought 0 None ≡ false }
    ensures names { (place : Where) → place.number ≡ 9 → NamesVersion place ((2, 9) ∷ []) 2 }
    ensures names_another { (place : Where) → place.number ≡ 8
        → ¬ (NamesVersion place ((2, 9) ∷ []) 2) }
    ensures names_none { (place : Where) → place.number ≡ 0 → ¬ (NamesVersion place [] 2) }
{}
