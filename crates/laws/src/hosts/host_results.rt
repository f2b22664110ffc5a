//! Laws that say what is enough for the results of a host's call, and for a close of the device.
ghost use Rattle.std.specs.{Prelude.◌≡◌, Prelude.◌+◌, Prelude.◌++◌, Prelude.ℕ, Prelude.List, Prelude.[], Prelude.◌∷◌, Prelude.Some, List.range_with_len};
ghost use Rattle.broom.specs.Meeting.{BroomsMet, StoodTold};
ghost use Rattle.flash_rule.specs.{Plays.Disjoint, Plays.GoesOnFrom, Plays.Once, Seats.carried, declared.carried.Carried.Carried, declared.view.View.View};
ghost use Rattle.flash_table.specs.{Flash.view_of, declared.flash.Flash.Flash};
ghost use Rattle.geometry.specs.{History.held, History.was as was_at, History.Begins, History.Write, declared.answer.Was.Was};
ghost use Rattle.geometry.specs.declared.words.MapWord.{MapWord};
ghost use Rattle.geometry.specs.declared.words.Phase.TheVariants as phase;
ghost use Rattle.host.specs.{Holding.pass_of, Told.MetHolding, Told.MetTold, Told.Wrote, declared.holding.Held.Held};
ghost use Rattle.volume.specs.Undisturbed.{Undisturbed};
ghost use Rattle.laws.specs.{Brooms.a_page, Steps.an_owned};

/// What a write leaves of the block that it fills, at which history it is answered, and what two players that met have heard of each other.
pub fn records_of_hosts()
    ensures full { (v w : View) (t s : ℕ) (x : List ℕ) (a : Was) → Wrote v t s x a w
        → v.numbers.pages ≡ 2 → v.owns ≡ an_owned 3 phase.Open 1 1 ∷ []
        → (w.programs ≡ v.programs ++ a_page 1 3 1 ∷ []) × (w.taken ≡ v.taken) × (w.owns ≡ [])
        × (w.ceded ≡ v.ceded ++ an_owned 3 phase.Closed 1 2 ∷ []) }
    ensures begun { (v w : View) (t s : ℕ) (x : List ℕ) (a : Was)
        → (h : Wrote v t s x a w) → v.numbers.pages ≡ 2 → v.owns ≡ []
        → (h.page.page ≡ 0) × (w.taken ≡ v.taken + 1)
        × (w.denied ≡ v.denied ++ range_with_len 0 h.page.block) × (w.ceded ≡ v.ceded)
        × (w.owns ≡ an_owned h.page.block phase.Open h.page.generation 1 ∷ []) }
    ensures answered { (v w : View) (t s : ℕ) (x : List ℕ) (a : Was)
        → (h : Wrote v t s x a w) → (a ≡ was_at v.numbers.sectors h.before s)
        × Begins v.seen h.before × (w.seen ≡ h.before ++ Write t s x ∷ []) }
    ensures met { (v w x y : View) → MetTold v w x y → (x.copy ≡ Some (carried w))
        × (y.copy ≡ Some (carried x)) × GoesOnFrom v w × GoesOnFrom w v }
    ensures met_once { (v w x y : View) → MetTold v w x y → Once x.programs
        × Once y.programs × (x.mine ≡ v.mine) × (y.mine ≡ w.mine) }
    ensures held { (v w x y : View) (m : MapWord) → MetHolding v w m x y
        → (x.copy ≡ Some (carried w)) × (y.copy ≡ Some (carried v)) × GoesOnFrom v w
        × GoesOnFrom w v × (x.seen ≡ v.seen) }
    ensures held_once { (v w x y : View) (m : MapWord) → MetHolding v w m x y
        → (¬ (v.role ≡ w.role)) × Once v.programs × Once w.programs
        × Disjoint v.programs w.programs }
    ensures stood { (v w x y : View) (m : MapWord) → StoodTold v w m x y
        → (x.copy ≡ Some (carried w)) × (y.copy ≡ Some (carried v)) × GoesOnFrom v w
        × GoesOnFrom w v × Begins w.named y.named }
    ensures stood_once { (v w x y : View) (m : MapWord) → StoodTold v w m x y
        → Once v.programs × Once w.programs × Disjoint v.programs w.programs }
    ensures brooms { (v w x y : View) → BroomsMet v w x y → (x.copy ≡ Some (carried w))
        × (y.copy ≡ Some (carried x)) × GoesOnFrom v w × GoesOnFrom w v }
    ensures brooms_once { (v w x y : View) → BroomsMet v w x y → (¬ (v.role ≡ w.role))
        × Once x.programs × Once y.programs × Once x.erases × Once y.erases }
    ensures undisturbed { (f : Flash) (x : List ℕ) (h k : Held) (d : Carried)
        → Undisturbed f x h (Some d) k → Once (view_of (pass_of k)).programs
        × Once d.programs }
{}
