//! Laws of what the commands on a store leave of its blocks, and of the counts of the layer above it.
ghost use Rattle.std.specs.Prelude.{◌≡◌, ◌+◌, [], ◌∷◌, None, true, false, length, replicate, Some};
ghost use Rattle.die.specs.Die as die;
ghost use Rattle.die.specs.{declared.die.Die.Die, Pages.new_block};
ghost use Rattle.ftl_one.specs.{Collections.copybacks_after, Entries.IsMapped, Stock.Entry, declared.store.Store.Store};
ghost use Rattle.ftl_one.specs.Store.{Clears, ErasesBlock, Forgets, HasRoom, HasRoomFor, KeepsBlocks, Puts, array_of, entries_of, erases_of, retired_of};
ghost use Rattle.ftl_one.specs.Store as store;
ghost use Rattle.ftl_one.specs.OneFtl as layer;
ghost use Rattle.ftl_one.specs.declared.one_ftl.OneFtl.{OneFtl};
ghost use Rattle.geometry.specs.Geometry.{blocks_of, endurance_of, luns_of, page_bytes_of, pages_of, sectors_of};
ghost use Rattle.geometry.specs.declared.geometry.Geometry.{Geometry};
ghost use Rattle.laws.specs.Blocks.{at, dead, live};

/// When a block of a store has room.
pub fn rooms_of_a_store()
    ensures room { (s : Store) → blocks_of (store.geometry_of s) ≡ 3
        → pages_of (store.geometry_of s) ≡ 2 → retired_of s 2 ≡ false
        → length (entries_of s 2) ≡ 1 → HasRoom s 2 × HasRoomFor s 2 1 }
    ensures full { (s : Store) → pages_of (store.geometry_of s) ≡ 2
        → length (entries_of s 1) ≡ 2 → (¬ HasRoom s 1) × (¬ HasRoomFor s 1 1) }
    ensures outside { (s : Store) → blocks_of (store.geometry_of s) ≡ 3
        → (¬ HasRoom s 3) × (¬ HasRoomFor s 3 0) }
    ensures retired { (s : Store) → retired_of s 1 ≡ true → (¬ HasRoom s 1) × (¬ HasRoomFor s 1 0) }
    ensures keeps { (s : Store) → KeepsBlocks s s }
    ensures erased { (s t : Store) → blocks_of (store.geometry_of s) ≡ 3
        → erases_of t 2 ≡ erases_of s 2 + 1 → ¬ KeepsBlocks s t }
    ensures now_retired { (s t : Store) → blocks_of (store.geometry_of s) ≡ 3
        → retired_of s 2 ≡ false → retired_of t 2 ≡ true → ¬ KeepsBlocks s t }
    ensures other_device { (s t : Store) → blocks_of (store.geometry_of s) ≡ 3
        → blocks_of (store.geometry_of t) ≡ 4 → (¬ KeepsBlocks s t) × (¬ ErasesBlock s t 0) }
    ensures new { (s : Store) (g : Geometry) → blocks_of g ≡ 3 → store.IsNew s g
        → (entries_of s 2 ≡ []) × (erases_of s 2 ≡ 0) × (retired_of s 2 ≡ false)
        × (array_of s ≡ replicate (sectors_of g) None) }
    ensures new_elsewhere { (s : Store) (g : Geometry)
        → blocks_of g ≡ 3 → blocks_of (store.geometry_of s) ≡ 4 → ¬ store.IsNew s g }
    ensures used { (s : Store) (g : Geometry) (e : Entry)
        → blocks_of g ≡ 3 → entries_of s 2 ≡ e ∷ [] → ¬ store.IsNew s g }
{}

/// What a program, a copy and an erase leave of the entries of a store's blocks.
pub fn commands_on_a_store()
    ensures forgets { (s t : Store) → entries_of s 0 ≡ live 7 ∷ live 8 ∷ []
        → Forgets s t 7 0 → entries_of t 0 ≡ dead 7 ∷ live 8 ∷ [] }
    ensures puts { (s t : Store) → entries_of s 0 ≡ live 7 ∷ live 8 ∷ []
        → Puts s t 0 7 → entries_of t 0 ≡ dead 7 ∷ live 8 ∷ live 7 ∷ [] }
    ensures puts_elsewhere { (s t : Store) → blocks_of (store.geometry_of s) ≡ 3
        → entries_of s 2 ≡ live 7 ∷ [] → Puts s t 0 7
        → (entries_of t 2 ≡ dead 7 ∷ []) × (erases_of t 2 ≡ erases_of s 2) }
    ensures clears { (s t : Store) → entries_of s 0 ≡ dead 7 ∷ live 8 ∷ []
        → entries_of s 1 ≡ [] → Clears s t 0 1 → entries_of t 1 ≡ live 8 ∷ [] }
    ensures cleared { (s t : Store) → entries_of t 0 ≡ live 8 ∷ [] → ¬ Clears s t 0 1 }
    ensures clears_no_other { (s t : Store) → blocks_of (store.geometry_of s) ≡ 3
        → Clears s t 0 1 → (entries_of t 2 ≡ entries_of s 2)
        × (array_of t ≡ array_of s) }
    ensures clears_and_erases { (s t : Store) → blocks_of (store.geometry_of s) ≡ 3
        → erases_of t 2 ≡ erases_of s 2 + 1 → ¬ Clears s t 0 1 }
    ensures erases { (s t : Store) → erases_of s 0 ≡ 4
        → endurance_of (store.geometry_of s) ≡ 5 → ErasesBlock s t 0 → (entries_of t 0 ≡ [])
        × (erases_of t 0 ≡ 5) × (retired_of t 0 ≡ true) }
    ensures erases_again { (s t : Store) → erases_of s 0 ≡ 3
        → endurance_of (store.geometry_of s) ≡ 5 → ErasesBlock s t 0 → retired_of t 0 ≡ false }
    ensures erases_no_other { (s t : Store) → blocks_of (store.geometry_of s) ≡ 3
        → ErasesBlock s t 0 → (entries_of t 2 ≡ entries_of s 2)
        × (erases_of t 2 ≡ erases_of s 2)
        × (retired_of t 2 ≡ retired_of s 2) × (array_of t ≡ array_of s) }
    ensures copybacks { (d : Die) → die.blocks d ≡ 8
        → luns_of (die.geometry_of d) ≡ 2 → die.copybacks_of d ≡ 6
        → (copybacks_after d (at 2 0) (at 3 0) ≡ 7) × (copybacks_after d (at 3 0) (at 4 0) ≡ 6) }
{}

/// The counts of a layer are those of its geometry.
pub fn counts_of_a_layer()
    ensures sectors { (l : OneFtl) (g : Geometry) → layer.geometry_of l ≡ g
        → (layer.sectors l ≡ sectors_of g) × (layer.page_bytes l ≡ page_bytes_of g) }
    ensures blocks { (l : OneFtl) (g : Geometry) → layer.geometry_of l ≡ g
        → (layer.blocks l ≡ blocks_of g) × (layer.pages l ≡ pages_of g)
        × (layer.endurance l ≡ endurance_of g) }
{}

/// What a store keeps true of its map.
pub fn maps_of_a_store()
    ensures empty { IsMapped 1 1 1 (λ b. new_block) (None ∷ []) (0 ∷ []) }
    ensures other_size { (¬ IsMapped 1 1 2 (λ b. new_block) (None ∷ []) (0 ∷ []))
        × (¬ IsMapped 1 2 1 (λ b. new_block) (None ∷ []) (0 ∷ [])) }
    ensures no_page { ¬ IsMapped 1 1 1 (λ b. new_block) (Some (at 0 0) ∷ []) (1 ∷ []) }
    ensures miscounted { ¬ IsMapped 1 1 1 (λ b. new_block) (None ∷ []) (1 ∷ []) }
{}
