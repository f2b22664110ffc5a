//! Laws of a die and of its pages.
ghost use Rattle.std.specs.Prelude.{◌≡◌, ◌+◌, ◌-◌, ◌^◌, [], ◌∷◌, length, true, false};
ghost use Rattle.die.specs.Die as die;
ghost use Rattle.die.specs.Die.{ChangesBlock, IsNext, IsProgrammed, IsUsable, block_of, copybacks_of, geometry_of, one_more};
ghost use Rattle.die.specs.Die.{blocks, endurance, page_bytes, pages};
ghost use Rattle.die.specs.{Pages.Block, Pages.Page, Pages.erased, Pages.new_block, Pages.page_at, Pages.programmed, Storage.PutsSlot, Storage.slot};
ghost use Rattle.die.specs.{Storage.IsSound, Storage.unused, declared.die.Die.Die};
ghost use Rattle.geometry.specs.Geometry.{blocks_of, endurance_of, page_bytes_of, pages_of};
ghost use Rattle.geometry.specs.declared.geometry.Geometry.{Geometry};
ghost use Rattle.laws.specs.Blocks.{at, in_state};

/// What a program and an erase make of a block, and what a read of it returns.
pub fn pages_of_a_block()
    ensures unprogrammed { page_at 2 new_block 0
        ≡ record { value = 255 ∷ 255 ∷ []; stamp = 18446744073709551615 } }
    ensures programs { (p : Page)
        → programmed new_block p ≡ record { pages = p ∷ []; erases = 0; retired = false } }
    ensures in_order { (p q : Page) → (page_at 2 (programmed (programmed new_block p) q) 0 ≡ p)
        × (page_at 2 (programmed (programmed new_block p) q) 1 ≡ q) }
    ensures erases { (p : Page)
        → erased 2 (programmed new_block p) ≡ record { pages = []; erases = 1; retired = false } }
    ensures last { erased 1 new_block ≡ record { pages = []; erases = 1; retired = true } }
    ensures more { (one_more 4 ≡ 5) × (one_more (2 ^ 64 - 1) ≡ 0)
        × (one_more (2 ^ 63) ≡ 2 ^ 63 + 1) }
{}

/// What a change of one block leaves of a die, and which pages a command may name.
pub fn a_die_after_a_command()
    ensures stays { (x : Die) → ChangesBlock x x 1 (block_of x 1) }
    ensures changed { (x y : Die) (k : Block) → ChangesBlock x y 1 k → block_of y 1 ≡ k }
    ensures first { (x y : Die) (k : Block) → blocks x ≡ 3
        → ChangesBlock x y 1 k → block_of y 0 ≡ block_of x 0 }
    ensures last { (x y : Die) (k : Block) → blocks x ≡ 3
        → ChangesBlock x y 1 k → block_of y 2 ≡ block_of x 2 }
    ensures numbers { (x y : Die) (k : Block)
        → ChangesBlock x y 1 k → geometry_of y ≡ geometry_of x }
    ensures usable { (x : Die) → blocks x ≡ 3
        → (block_of x 2).retired ≡ false → IsUsable x 2 }
    ensures no_block { (x : Die) → blocks x ≡ 3 → ¬ IsUsable x 3 }
    ensures retired { (x : Die) → (block_of x 2).retired ≡ true → ¬ IsUsable x 2 }
    ensures next { (x : Die) → IsUsable x 2 → pages x ≡ 2
        → length (block_of x 2).pages ≡ 1 → IsNext x (at 2 1) }
    ensures not_next { (x : Die) → length (block_of x 2).pages ≡ 1 → ¬ IsNext x (at 2 0) }
    ensures full { (x : Die) → pages x ≡ 1 → ¬ IsNext x (at 2 1) }
    ensures next_usable { (x : Die) → (block_of x 2).retired ≡ true
        → (¬ IsNext x (at 2 0)) × (¬ IsProgrammed x (at 2 0)) }
    ensures is_programmed { (x : Die) → IsUsable x 2
        → length (block_of x 2).pages ≡ 1 → IsProgrammed x (at 2 0) }
    ensures unprogrammed { (x : Die) → length (block_of x 2).pages ≡ 1 → ¬ IsProgrammed x (at 2 1) }
    ensures new { (x : Die) (g : Geometry) → blocks_of g ≡ 3 → die.IsNew x g
        → (block_of x 2 ≡ new_block) × (copybacks_of x ≡ 0) × (geometry_of x ≡ g) }
    ensures used { (x : Die) (g : Geometry) → blocks_of g ≡ 3
        → (block_of x 2).erases ≡ 1 → ¬ die.IsNew x g }
    ensures counts { (x : Die) (g : Geometry) → geometry_of x ≡ g
        → (blocks x ≡ blocks_of g) × (pages x ≡ pages_of g)
        × (page_bytes x ≡ page_bytes_of g) × (endurance x ≡ endurance_of g) }
{}

/// Where a page's bytes are among those of all pages, and what a die keeps true of a block.
pub fn bytes_of_a_die()
    ensures slots { (slot 2 (1 ∷ 2 ∷ 3 ∷ 4 ∷ []) 0 ≡ 1 ∷ 2 ∷ [])
        × (slot 2 (1 ∷ 2 ∷ 3 ∷ 4 ∷ []) 1 ≡ 3 ∷ 4 ∷ []) }
    ensures puts { PutsSlot 1 (1 ∷ 2 ∷ []) (1 ∷ 3 ∷ []) 1 (3 ∷ []) }
    ensures elsewhere { ¬ PutsSlot 1 (1 ∷ 2 ∷ []) (4 ∷ 3 ∷ []) 1 (3 ∷ []) }
    ensures not_there { ¬ PutsSlot 1 (1 ∷ 2 ∷ []) (1 ∷ 4 ∷ []) 1 (3 ∷ []) }
    ensures longer { ¬ PutsSlot 1 (1 ∷ 2 ∷ []) (1 ∷ 3 ∷ 5 ∷ []) 1 (3 ∷ []) }
    ensures unused { unused ≡ in_state 0 0 false }
    ensures sound { IsSound 2 3 (in_state 2 2 false) × IsSound 2 3 (in_state 2 3 true) }
    ensures overfull { ¬ IsSound 2 3 (in_state 3 0 false) }
    ensures erased { ¬ IsSound 2 3 (in_state 0 4 true) }
    ensures worn { ¬ IsSound 2 3 (in_state 0 3 false) }
{}
