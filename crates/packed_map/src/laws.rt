//! Laws of the definitions. Each function has no code: its clauses say on small values where a definition holds and where not.
ghost use Rattle.std.specs.Prelude.{◌≡◌, ℕ, List, [], ◌∷◌, replicate, None, Some};
ghost use Rattle.packed_map.specs.Entries.{entry_of, IsPackable};
ghost use Rattle.packed_map.specs.Finding.{Finds};
ghost use Rattle.packed_map.specs.Groups.{number_at, AreGrouped};
ghost use Rattle.packed_map.specs.Parts.{byte_at, joined_at, values_of};

/// The bits of entries.
#[tactic(auto, unfolding(crate::specs::Entries::entry_of))]
pub fn bits_of_entries()
    ensures none { entry_of 0 ≡ None }
    ensures first { entry_of 1 ≡ Some (record { block = 0; page = 0 }) }
    ensures last_low_page { entry_of 16384 ≡ Some (record { block = 0; page = 16383 }) }
    ensures next_block { entry_of 16385 ≡ Some (record { block = 1; page = 0 }) }
    ensures last_low { entry_of 4294967295 ≡ Some (record { block = 262143; page = 16382 }) }
    ensures last_block { entry_of 70368744177664
        ≡ Some (record { block = 4294967295; page = 16383 }) }
    ensures high_page { entry_of 70368744177665 ≡ Some (record { block = 0; page = 16384 }) }
    ensures greatest { entry_of 18446744073709551615
        ≡ Some (record { block = 4294967295; page = 4294967294 }) }
{}

/// Which entries have bits.
pub fn limits_of_entries()
    ensures none { IsPackable None }
    ensures greatest { IsPackable (Some (record { block = 4294967295; page = 4294967294 })) }
    ensures last { ¬ IsPackable (Some (record { block = 4294967295; page = 4294967295 })) }
{}

/// What a search finds, and when it finds nothing.
pub fn searches()
    ensures first { Finds (λ i. i ≡ 3) 3 5 (Some 3) }
    ensures last { Finds (λ i. i ≡ 4) 3 5 (Some 4) }
    ensures other { ¬ Finds (λ i. i ≡ 4) 3 5 (Some 3) }
    ensures below { ¬ Finds (λ i. i ≡ 2) 3 5 (Some 2) }
    ensures end { ¬ Finds (λ i. i ≡ 5) 3 5 (Some 5) }
    ensures nothing_below { Finds (λ i. i ≡ 2) 3 5 None }
    ensures nothing_above { Finds (λ i. i ≡ 5) 3 5 None }
    ensures overlooked { ¬ Finds (λ i. i ≡ 3) 3 5 None }
    ensures overlooked_last { ¬ Finds (λ i. i ≡ 4) 3 5 None }
{}

/// Where the numbers of groups are, and which groups are kept.
#[tactic(auto, unfolding(crate::specs::Parts::values_of))]
pub fn groups()
    ensures numbers { values_of (number_at (0 ∷ []) (5 ∷ 6 ∷ [])) 3 ≡ 5 ∷ 6 ∷ 0 ∷ [] }
    ensures first { AreGrouped (replicate 3 0) (replicate 256 0) 1 }
    ensures nothing { (places : List ℕ) → ¬ AreGrouped places [] 1 }
    ensures shared { (kept : List ℕ) → ¬ AreGrouped (1 ∷ 1 ∷ []) kept 2 }
    ensures outside { (kept : List ℕ) → ¬ AreGrouped (2 ∷ []) kept 2 }
{}

/// Numbers by their parts.
#[tactic(auto, unfolding(crate::specs::Parts::values_of))]
pub fn parts()
    ensures bytes { values_of (byte_at (67305985 ∷ 4278190080 ∷ [])) 8
        ≡ 1 ∷ 2 ∷ 3 ∷ 4 ∷ 0 ∷ 0 ∷ 0 ∷ 255 ∷ [] }
    ensures joined { values_of (joined_at (1 ∷ 2 ∷ []) (0 ∷ 3 ∷ []) (0 ∷ 5 ∷ [])) 2
        ≡ 1 ∷ 5510443040770 ∷ [] }
{}
