//! Laws of the blocks of a device for one thread.
ghost use Rattle.std.specs.Prelude.{◌≡◌, ◌+◌, ◌<◌, ◌≤◌, ℕ, List, [], ◌∷◌, Some, None, Ok, Err, true, false};
ghost use Rattle.ftl_one.specs.{Lawful.weight, Collections.collection_between, Collections.collection_due, Entries.Recounts, Entries.live_count};
ghost use Rattle.ftl_one.specs.{Collections.IsFewest, Lawful.IsLawful, Lawful.KnowsSpare, Lawful.role_in, Entries.bits_of, Entries.named_by, OneFtl.was_found};
ghost use Rattle.ftl_one.specs.Laws.{Collects, CollectsAtMostOne, ErasesNothing, HasNoPage, HasRetired, block_at};
ghost use Rattle.ftl_one.specs.Stock.{Stock, is_free, is_retired, live_of, next_of, opening_of};
ghost use Rattle.ftl_one.specs.declared.one_ftl.NewOneFault.TheVariants as one_fault;
ghost use Rattle.ftl_one.specs.declared.role.Role.TheVariants as role;
ghost use Rattle.geometry.specs.declared.answer.Was.TheVariants as was;
ghost use Rattle.geometry.specs.{declared.geometry.Geometry.Geometry, History.Trim, History.Write, History.WriteNew};
ghost use Rattle.laws.specs.Blocks.{HasThreeBlocks, at, before_write, block_with, dead, half_live, half_moved, live, stock_with, written_after};

/// When a stock needs a collection, and which one.
#[tactic(auto, unfolding(ftl_one::specs::Collections::collection_due, ftl_one::specs::Collections::collection_between, geometry::specs::Greedy::greedy_of))]
pub fn collections_of_a_stock()
    ensures open { (g : Geometry)
        → collection_due g
        (stock_with (block_with role.Closed (live 0 ∷ []) ∷ block_with role.Open [] ∷ [])) ≡ None }
    ensures free { (g : Geometry)
        → collection_due g
        (stock_with (block_with role.Closed (live 0 ∷ []) ∷ block_with role.Free [] ∷ [])) ≡ None }
    ensures no_spare { (g : Geometry)
        → collection_due g
        (stock_with (block_with role.Closed (live 0 ∷ []) ∷ block_with role.Retired [] ∷ []))
        ≡ None }
    ensures due { (g : Geometry) → HasThreeBlocks g 1 5
        → collection_due g half_live ≡ Some (record { victim = 0; copied = 1; copybacks = 1; erases = 1; retired = false }) }
    ensures other_lun { (g : Geometry) → HasThreeBlocks g 3 5
        → collection_due g half_live ≡ Some (record { victim = 0; copied = 1; copybacks = 0; erases = 1; retired = false }) }
    ensures last_erase { (g : Geometry) → HasThreeBlocks g 1 1
        → collection_due g half_live ≡ Some (record { victim = 0; copied = 1; copybacks = 1; erases = 1; retired = true }) }
    ensures none_made { (g : Geometry)
        → collection_between g (stock_with []) (stock_with []) ≡ None }
    ensures made { (g : Geometry) → HasThreeBlocks g 1 5
        → collection_between g half_live half_moved ≡ Some (record { victim = 0; copied = 1; copybacks = 1; erases = 1; retired = false }) }
{}

/// When no page is left and none can be gained, when a block is retired, and what a call erases.
pub fn pages_left_in_a_stock()
    ensures no_page { HasNoPage
        (stock_with (block_with role.Closed [] ∷ block_with role.Retired [] ∷ [])) }
    ensures an_open { ¬ HasNoPage
        (stock_with (block_with role.Closed [] ∷ block_with role.Open [] ∷ [])) }
    ensures a_free { ¬ HasNoPage
        (stock_with (block_with role.Closed [] ∷ block_with role.Free [] ∷ [])) }
    ensures a_spare { ¬ HasNoPage
        (stock_with (block_with role.Closed [] ∷ block_with role.Spare [] ∷ [])) }
    ensures retired { HasRetired
        (stock_with (block_with role.Closed [] ∷ block_with role.Retired [] ∷ [])) }
    ensures none_retired { ¬ HasRetired (stock_with (block_with role.Closed [] ∷ [])) }
    ensures nothing { (s : Stock) → ErasesNothing s s × CollectsAtMostOne s s }
    ensures erased { (s t : Stock) → t.erases ≡ s.erases + 1 → ¬ ErasesNothing s t }
    ensures copied { (s t : Stock) → t.copies ≡ s.copies + 1 → ¬ ErasesNothing s t }
    ensures block_erased { (s t : Stock) (b : ℕ)
        → (block_at t b).erases ≡ (block_at s b).erases + 1 → ¬ ErasesNothing s t }
    ensures two_erases { (s t : Stock) → t.erases ≡ s.erases + 2 → ¬ CollectsAtMostOne s t }
    ensures two_blocks { (s t : Stock) → (block_at t 0).erases ≡ (block_at s 0).erases + 1
        → (block_at t 1).erases ≡ (block_at s 1).erases + 1
        → ¬ CollectsAtMostOne s t }
    ensures collected { (s t : Stock) (b : ℕ) → Collects s t b
        → ((block_at s b).role ≡ role.Closed) × ((block_at t b).erases ≡ (block_at s b).erases + 1)
        × (t.erases ≡ s.erases + 1) × (t.copies ≡ s.copies + live_of (block_at s b)) }
    ensures fewest { (s t : Stock) (b k : ℕ) → Collects s t b
        → (block_at s k).role ≡ role.Closed → live_of (block_at s b) ≤ live_of (block_at s k) }
    ensures lost_copies { (s t : Stock) → t.copies < s.copies → ¬ CollectsAtMostOne s t }
{}

/// What is counted of blocks, and which of them is the one with the fewest live pages.
#[tactic(auto, unfolding(ftl_one::specs::Entries::named_by))]
pub fn counts_of_a_stock()
    ensures live { (live_count (live 0 ∷ dead 0 ∷ live 1 ∷ []) ≡ 2)
        × (live_of (block_with role.Closed (dead 0 ∷ live 1 ∷ [])) ≡ 1) }
    ensures weight { weight 4 (record { role = role.Open; erases = 2; entries = live 0 ∷ [] })
        ≡ 11 }
    ensures roles { (role_in (role.Open ∷ []) 0 ≡ role.Open)
        × (role_in (role.Open ∷ []) 1 ≡ role.Retired) }
    ensures blocks { (block_at (stock_with (block_with role.Open [] ∷ [])) 0
        ≡ block_with role.Open [])
        × (block_at (stock_with []) 0 ≡ block_with role.Retired []) }
    ensures kinds { (is_free role.Free ≡ true) × (is_free role.Spare ≡ false)
        × (is_retired role.Retired ≡ true) × (is_retired role.Spare ≡ false) }
    ensures recounts { Recounts (1 ∷ 1 ∷ []) (0 ∷ 2 ∷ []) (Some (at 0 3)) (Some (at 1 3)) }
    ensures unchanged { ¬ Recounts (1 ∷ []) (1 ∷ []) (Some (at 0 3)) None }
    ensures longer { ¬ Recounts (1 ∷ []) (1 ∷ 0 ∷ []) None None }
    ensures fewest { IsFewest (1 ∷ 0 ∷ []) 0 1 }
    ensures left_out { ¬ IsFewest (0 ∷ []) 0 0 }
    ensures not_least { ¬ IsFewest (1 ∷ 0 ∷ []) 5 0 }
    ensures not_lowest { ¬ IsFewest (0 ∷ 0 ∷ []) 5 1 }
    ensures past { ¬ IsFewest (1 ∷ []) 5 1 }
    ensures no_page { (named_by 4294967295 ≡ None) × (bits_of None ≡ 4294967295) }
    ensures page { (named_by 16386 ≡ Some (at 1 2)) × (bits_of (Some (at 1 2)) ≡ 16386) }
    ensures found { (was_found {X = ℕ} (Ok 0) ≡ was.Empty)
        × (was_found {X = ℕ} (Err one_fault.WornOut) ≡ was.Empty)
        × (was_found {X = ℕ} (Err one_fault.Written) ≡ was.Written) }
{}

/// What a call does to a stock of one or two blocks.
#[tactic(auto, unfolding(geometry::specs::Greedy::greedy_of))]
pub fn calls_of_a_stock()
    ensures opening { opening_of 2
        ≡ stock_with (block_with role.Free [] ∷ block_with role.Spare [] ∷ []) }
    ensures opens { (x : List ℕ)
        → next_of 2 5 (opening_of 2) (Write 0 7 x)
        ≡ Some (record (stock_with (block_with role.Open (live 7 ∷ []) ∷ block_with role.Spare [] ∷ [])) { programs = 1 }) }
    ensures closes { (x : List ℕ)
        → next_of 1 5 (opening_of 2) (Write 0 7 x)
        ≡ Some (record (stock_with (block_with role.Closed (live 7 ∷ []) ∷ block_with role.Spare [] ∷ [])) { programs = 1 }) }
    ensures forgets { (x : List ℕ)
        → next_of 3 5 (stock_with (block_with role.Open (live 7 ∷ []) ∷ [])) (Write 0 7 x)
        ≡ Some (record (stock_with (block_with role.Open (dead 7 ∷ live 7 ∷ []) ∷ [])) { programs = 1 }) }
    ensures keeps_new { (x : List ℕ)
        → next_of 3 5 (stock_with (block_with role.Open (live 7 ∷ []) ∷ [])) (WriteNew 0 7 x)
        ≡ Some (stock_with (block_with role.Open (live 7 ∷ []) ∷ [])) }
    ensures writes_new { (x : List ℕ)
        → next_of 3 5 (stock_with (block_with role.Open (live 7 ∷ []) ∷ [])) (WriteNew 0 8 x)
        ≡ Some (record (stock_with (block_with role.Open (live 7 ∷ live 8 ∷ []) ∷ [])) { programs = 1 }) }
    ensures trims { next_of 3 5
        (stock_with (block_with role.Open (live 7 ∷ live 8 ∷ []) ∷ [])) (Trim 0 7)
        ≡ Some (stock_with (block_with role.Open (dead 7 ∷ live 8 ∷ []) ∷ [])) }
    ensures collects { (x : List ℕ)
        → next_of 2 5 before_write (Write 0 9 x) ≡ Some (written_after role.Spare) }
    ensures worn { (x : List ℕ)
        → next_of 2 5 (stock_with (block_with role.Closed [] ∷ block_with role.Retired [] ∷ []))
        (Write 0 9 x) ≡ None }
    ensures retires { (x : List ℕ)
        → next_of 2 1 before_write (Write 0 9 x) ≡ Some (written_after role.Retired) }
{}

/// What a layer keeps true of its blocks by their roles.
pub fn roles_of_blocks()
    ensures lawful { IsLawful 1 2 (λ b. 0)
        (λ b. is_retired (role_in (role.Free ∷ []) b)) (role_in (role.Free ∷ [])) None }
    ensures not_remembered { ¬ IsLawful 1 2 (λ b. 0)
        (λ b. is_retired (role_in (role.Open ∷ []) b)) (role_in (role.Open ∷ [])) None }
    ensures not_open { ¬ IsLawful 1 2 (λ b. 0)
        (λ b. is_retired (role_in (role.Free ∷ []) b)) (role_in (role.Free ∷ [])) (Some 0) }
    ensures full { ¬ IsLawful 1 2 (λ b. 2)
        (λ b. is_retired (role_in (role.Open ∷ []) b)) (role_in (role.Open ∷ [])) (Some 0) }
    ensures not_full { ¬ IsLawful 1 2 (λ b. 1)
        (λ b. is_retired (role_in (role.Closed ∷ []) b)) (role_in (role.Closed ∷ [])) None }
    ensures not_empty { ¬ IsLawful 1 2 (λ b. 1)
        (λ b. is_retired (role_in (role.Spare ∷ []) b)) (role_in (role.Spare ∷ [])) None }
    ensures in_use { ¬ IsLawful 1 2 (λ b. 0) (λ b. false) (role_in (role.Retired ∷ [])) None }
    ensures two_spares { ¬ IsLawful 2 2 (λ b. 0)
        (λ b. is_retired (role_in (role.Spare ∷ role.Spare ∷ []) b))
        (role_in (role.Spare ∷ role.Spare ∷ [])) None }
    ensures spare_and_retired { ¬ IsLawful 2 2 (λ b. 0)
        (λ b. is_retired (role_in (role.Spare ∷ []) b)) (role_in (role.Spare ∷ [])) None }
    ensures not_outside { ¬ IsLawful 1 2 (λ b. 0) (λ b. false) (λ b. role.Free) None }
    ensures knows { KnowsSpare (λ b. role.Free) None }
    ensures unknown { (¬ KnowsSpare (λ b. role.Spare) None)
        × (¬ KnowsSpare (λ b. role.Free) (Some 0)) }
{}
