//! Laws of what a handle keeps, and of the calls on it. The functions have no code: their clauses say where a definition holds and where it doesn't.
ghost use Rattle.std.specs.Prelude.{◌≡◌, ℕ, Some, None};
ghost use Rattle.std_heap.specs.declared.Global.{Global};
ghost use Rattle.handles.specs.Kept.{boxed, heap, SaysWhetherOpen};
ghost use Rattle.handles.specs.Calls.{value_of, ReturnsAtBoth};
ghost use Rattle.handles.specs.declared.handle.Handle.{Handle};
ghost use Rattle.std.specs.Borrow.{MutBor};
ghost use Rattle.std_alloc.specs.declared.boxed.Box.{Box};

/// There is one heap, and a handle's second word says whether it has a value.
pub fn handles()
    ensures one_heap { (h : Global) → h ≡ heap }
    ensures open { (x : ℕ) → SaysWhetherOpen 1 (Some x) × (¬ SaysWhetherOpen 0 (Some x)) }
    ensures closed { SaysWhetherOpen {T = ℕ} 0 None × (¬ SaysWhetherOpen {T = ℕ} 1 None) }
    ensures value { (h : Handle ℕ) → value_of h ≡ h.slot.value }
    ensures boxed_value { (b : Box ℕ Global) → boxed b ≡ b.value }
{}

/// A call with a report was made at a `&mut` to its value and one to the report, and returned what it left there.
pub fn calls_with_reports<F: FnOnce(&mut u8, &mut u8) -> u32>(call: &F)
    ensures made { (a b c d : MutBor ℕ) (r : ℕ) → F.FnOnce.post call.now (a, (b, tt)) (r, (c, (d, tt)))
        → ReturnsAtBoth F.FnOnce call.now a.now b.now r c.now d.now }
    ensures says { (x o r y p : ℕ) → ReturnsAtBoth F.FnOnce call.now x o r y p
        → (a b c d : MutBor ℕ) × (a.now ≡ x) × (b.now ≡ o) × (c.now ≡ y) × (d.now ≡ p)
        × F.FnOnce.post call.now (a, (b, tt)) (r, (c, (d, tt))) }
{}
