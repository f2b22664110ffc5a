ghost use Rattle.std.specs.Prelude.{◌≡◌, ◌-◌, ◌^◌, ℕ, [], ◌∷◌, true, false};
ghost use Rattle.flash_rule.specs.declared.view.View.{View};
ghost use Rattle.broom.specs.declared.answer.Drain.TheVariants as drain;
ghost use Rattle.workers.specs.{Tallies.GrowsBy, Tallies.HasGrown, Served.HasDone, Tallies.IsCounted, Tallies.nothing_done, Tallies.total_of};
ghost use Rattle.workers.specs.declared.collector.broom_answer.BroomAnswer.TheVariants as by;
ghost use Rattle.laws.specs.Brooms.{some_calls, some_counts};

/// What calls of a broom add to its counts.
pub fn counts_of_calls()
    ensures total { total_of some_calls ≡ some_counts }
    ensures wraps { IsCounted (record nothing_done { drained = 2 ^ 64 - 1 })
        (by.Drain (drain.Drained 3 0) 0 ∷ []) nothing_done }
    ensures uncounted { ¬ IsCounted nothing_done (by.Drain drain.Lost 0 ∷ []) nothing_done }
    ensures restock { IsCounted nothing_done
        (by.Restock true ∷ by.Restock false ∷ []) nothing_done }
{}

/// How what a broom knows to have done grows by its counts.
pub fn what_a_broom_has_done()
    ensures behind { (x y : ℕ) → GrowsBy 1 (x ∷ []) (x ∷ y ∷ []) }
    ensures fewer { (x y : ℕ) → ¬ GrowsBy 2 (x ∷ []) (x ∷ y ∷ []) }
    ensures in_front { (x y : ℕ) → ¬ (x ≡ y) → ¬ GrowsBy 1 (x ∷ []) (y ∷ x ∷ []) }
    ensures drained { (v w : View) → v.drains ≡ w.drains
        → ¬ HasGrown v (record nothing_done { drained = 1 }) w }
    ensures moved { (v w : View) → v.moves ≡ w.moves
        → ¬ HasGrown v (record nothing_done { moved = 1 }) w }
    ensures programmed { (v w : View) → v.programs ≡ w.programs
        → ¬ HasGrown v (record nothing_done { programmed = 1 }) w }
    ensures erased { (v w : View) → v.erases ≡ w.erases
        → ¬ HasGrown v (record nothing_done { erased = 1 }) w }
    ensures lost { (v w : View) → v.lost ≡ w.lost
        → ¬ HasGrown v (record nothing_done { lost = 1 }) w }
    ensures at_rest { (v : View) → HasGrown v nothing_done v }
    ensures done_drained { (k : ℕ) (v : View) → v.drains ≡ []
        → ¬ HasDone k (record nothing_done { drained = 1 }) v }
    ensures done_moved { (k : ℕ) (v : View) → v.moves ≡ 2
        → ¬ HasDone k (record nothing_done { moved = 1 }) v }
    ensures done_programmed { (k : ℕ) (v : View) → v.programs ≡ []
        → ¬ HasDone k (record nothing_done { programmed = 1 }) v }
    ensures done_erased { (k : ℕ) (v : View) → v.erases ≡ []
        → ¬ HasDone k (record nothing_done { erased = 1 }) v }
    ensures done_lost { (k : ℕ) (v : View) → v.lost ≡ []
        → ¬ HasDone k (record nothing_done { lost = 1 }) v }
    ensures other_broom { (v : View) → HasDone 0 nothing_done v → ¬ HasDone 1 nothing_done v }
{}
