ghost use Rattle.std.specs.Prelude.{◌≡◌, ◌+◌, ◌-◌, ◌^◌, ℕ, [], ◌∷◌, length};
ghost use Rattle.erase_queue.specs.declared.{pass.QueuePass.QueuePass, sight.Sight.Sight};
ghost use Rattle.erase_queue.specs.Moves.{AreBelow, DidPut, DidTake, Stand, StoodSome};
ghost use Rattle.erase_queue.specs.Queue.{WasEmpty, WasFull, WasPut, WasTaken, empties_of, fulls_of, sight_of};
ghost use Rattle.laws.specs.Steps.{sees, sees_own};

/// A number is put behind all others and taken from the front, each at a place of its own.
pub fn numbers_put_and_taken()
    ensures put { DidPut (sees 9 (5 ∷ []) 0) 7 (sees_own 9 (5 ∷ 6 ∷ 7 ∷ []) 0 (2 ∷ []) []) }
    ensures in_front { (v w : Sight) → w.puts ≡ 7 ∷ 5 ∷ [] → ¬ DidPut v 7 w }
    ensures unseen { (v w : Sight) → v.puts ≡ 5 ∷ [] → w.puts ≡ 6 ∷ 7 ∷ [] → ¬ DidPut v 7 w }
    ensures elsewhere { (v w : Sight) → v.own_puts ≡ []
        → w.puts ≡ 5 ∷ 7 ∷ [] → w.own_puts ≡ 0 ∷ [] → ¬ DidPut v 7 w }
    ensures took { DidTake (sees 9 (5 ∷ []) 1) 6 (sees_own 9 (5 ∷ 6 ∷ []) 2 [] (1 ∷ [])) }
    ensures again { (v w : Sight) → v.takes ≡ 1 → w.puts ≡ 5 ∷ 6 ∷ [] → ¬ DidTake v 5 w }
    ensures took_unseen { (v w : Sight) → v.puts ≡ 4 ∷ []
        → w.puts ≡ 5 ∷ 6 ∷ [] → ¬ DidTake v 6 w }
    ensures uncounted { (v w : Sight) → v.takes ≡ 1
        → w.takes ≡ 1 → w.puts ≡ 5 ∷ 6 ∷ [] → ¬ DidTake v 6 w }
    ensures too_large { (v w : Sight) → v.limit ≡ 6 → ¬ DidTake v 6 w }
    ensures puts_counted { (p q : QueuePass) → WasPut p 7 q
        → length (sight_of q).own_puts ≡ length (sight_of p).own_puts + 1 }
    ensures put_uncounted { (p q : QueuePass) → WasPut p 7 q
        → (fulls_of q ≡ fulls_of p) × (empties_of q ≡ empties_of p) }
    ensures take_uncounted { (p q : QueuePass) → WasTaken p 7 q
        → (fulls_of q ≡ fulls_of p) × (empties_of q ≡ empties_of p) }
    ensures takes_counted { (p q : QueuePass) → WasTaken p 7 q
        → length (sight_of q).own_takes ≡ length (sight_of p).own_takes + 1 }
{}

/// What was in a queue at one moment.
pub fn numbers_in_a_queue()
    ensures below { AreBelow 6 (5 ∷ []) }
    ensures at_limit { ¬ AreBelow 6 (5 ∷ 6 ∷ []) }
    ensures stood { Stand (sees 9 (5 ∷ 6 ∷ []) 1) (6 ∷ []) }
    ensures none_put { (v : Sight) → v.limit ≡ 0 → v.puts ≡ 5 ∷ [] → ¬ StoodSome v 0 }
    ensures none_taken { (v : Sight) → v.limit ≡ 0 → v.takes ≡ 1 → ¬ StoodSome v 0 }
    ensures never_full { (v : Sight) → v.limit ≡ 0 → ¬ StoodSome v 1 }
    ensures full_counted { (limit : ℕ) (p q : QueuePass) → WasFull limit p q
        → fulls_of p ≡ 4 → (fulls_of q ≡ 5) × (empties_of q ≡ empties_of p) }
    ensures wraps { (p q : QueuePass) → WasEmpty p q → empties_of p ≡ 2 ^ 64 - 1
        → (empties_of q ≡ 0) × (fulls_of q ≡ fulls_of p) }
    ensures counts_on { (p q : QueuePass) → WasEmpty p q
        → empties_of p ≡ 2 ^ 63 - 1 → empties_of q ≡ 2 ^ 63 }
    ensures did_nothing { (limit : ℕ) (p q : QueuePass)
        → WasFull limit p q → sight_of q ≡ sight_of p }
    ensures took_nothing { (p q : QueuePass) → WasEmpty p q → sight_of q ≡ sight_of p }
    ensures full_stood { (limit : ℕ) (p q : QueuePass)
        → WasFull limit p q → StoodSome (sight_of p) limit }
    ensures empty_stood { (p q : QueuePass) → WasEmpty p q → StoodSome (sight_of p) 0 }
{}
