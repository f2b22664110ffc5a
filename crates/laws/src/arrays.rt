ghost use Rattle.std.specs.Prelude.{◌≡◌, ℕ, List, [], ◌∷◌, None, Some};
ghost use Rattle.geometry.specs.History.{Write, WriteNew, Trim, held};

pub(crate) mod histories;
pub(crate) mod steps;

/// What an array of two sectors holds: the last write replaces, a write of an empty sector replaces nothing, a trim empties, and a call changes no
/// sector but its own.
pub fn an_array_after_calls()
    ensures new { held 2 [] 0 ≡ None }
    ensures replaced { (t u : ℕ) (x y : List ℕ)
        → held 2 (Write t 0 x ∷ Write u 0 y ∷ []) 0 ≡ Some y }
    ensures put { (t : ℕ) (x : List ℕ) → held 2 (WriteNew t 1 x ∷ []) 1 ≡ Some x }
    ensures kept { (t u : ℕ) (x y : List ℕ)
        → held 2 (Write t 0 x ∷ WriteNew u 0 y ∷ []) 0 ≡ Some x }
    ensures emptied { (t u : ℕ) (x : List ℕ) → held 2 (Write t 0 x ∷ Trim u 0 ∷ []) 0 ≡ None }
    ensures other { (t u : ℕ) (x : List ℕ) → held 2 (Write t 1 x ∷ Trim u 0 ∷ []) 1 ≡ Some x }
    ensures outside { (t : ℕ) (x : List ℕ) → held 2 (Write t 2 x ∷ []) 2 ≡ None }
{}
