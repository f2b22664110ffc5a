//! Laws of the order of a broom's calls in a round: which lists of answers are turns, and what is enough for what a broom has done.
ghost use Rattle.std.specs.Prelude.{◌≡◌, ◌+◌, ◌-◌, ◌%◌, ◌^◌, ℕ, [], ◌∷◌, false, length};
ghost use Rattle.std.specs.Arc.{arc_value};
ghost use Rattle.broom.specs.{Ready.folded_place, Ready.folded_view, Ready.view_of_broom, Told.RestockTold, Told.KeepsSurvey, declared.answer.Erase.Erase};
ghost use Rattle.broom.specs.Handing.{DrainDeadOneTold, DrainNextOneTold, DrainOneTold, EraseOneTold, HandsNothing, LeftAt};
ghost use Rattle.broom.specs.declared.broom.Broom.{Broom};
ghost use Rattle.broom.specs.declared.answer.Drain.TheVariants as drain;
ghost use Rattle.broom.specs.declared.answer.Erase.TheVariants as erase;
ghost use Rattle.flash_rule.specs.declared.facts.Name.TheVariants as name;
ghost use Rattle.flash_rule.specs.declared.facts.Role.TheVariants as seat;
ghost use Rattle.flash_table.specs.Flash.{geometry_of};
ghost use Rattle.geometry.specs.{Geometry.brooms_of, declared.geometry.Geometry.Geometry};
ghost use Rattle.volume.specs.{Volume.flash_of, declared.volume.Volume.Volume};
ghost use Rattle.workers.specs.Collecting.{HasCollected, HasCollectedBy, HasMadeCalls, limit_at};
ghost use Rattle.workers.specs.{Served.HasFolded, Served.HaveFolded, Tallies.GrowsBy, Tallies.busy_in, Tallies.stale_in, Turns.AreTurns, Turns.IsTurn};
ghost use Rattle.workers.specs.Served.{AllHaveServed, HasServed, IsAtRunStart, listed_in};
ghost use Rattle.workers.specs.{Tallies.nothing_done, declared.collector.Collector.Collector};
ghost use Rattle.workers.specs.declared.collector.collector_end.CollectorEnd.{CollectorEnd};
ghost use Rattle.workers.specs.declared.collector.broom_answer.BroomAnswer.TheVariants as by;
ghost use Rattle.laws.specs.Brooms.{two_drains};

/// Which answers of calls are those of one turn: at most so many drains, the first one by a new survey, and none behind the last one by it.
pub fn turns_of_a_broom()
    ensures one_drain { (e : Erase) → IsTurn 1 (by.Drain drain.NothingToGain 0 ∷ by.Erase e ∷ []) }
    ensures no_limit { (e : Erase) → IsTurn 0 (by.Drain drain.NothingToGain 0 ∷ by.Erase e ∷ []) }
    ensures two { IsTurn 2 (two_drains (drain.Drained 3 1) drain.Lost) }
    ensures too_many { ¬ IsTurn 1 (two_drains (drain.Drained 3 1) drain.Lost) }
    ensures behind_last { ¬ IsTurn 2 (two_drains drain.NothingToGain drain.Lost) }
    ensures behind_full { IsTurn 2 (two_drains drain.QueueFull drain.NothingToGain) }
    ensures no_survey { (e : Erase) → ¬ IsTurn 2 (by.DrainNext drain.Lost 0 ∷ by.Erase e ∷ []) }
    ensures no_call { (n : ℕ) → ¬ IsTurn n [] }
    ensures no_turn { AreTurns 1 [] }
    ensures no_drain { (n : ℕ) (e : Erase) → ¬ AreTurns n (by.Erase e ∷ []) }
    ensures each { (e : Erase)
        → AreTurns 1
        (by.Drain drain.Lost 0 ∷ by.Erase e ∷ by.Drain drain.Lost 0 ∷ by.Erase e ∷ []) }
{}

/// What the calls of a broom say of it, and what is known of each broom at the end of a run.
pub fn brooms_of_a_run()
    ensures same { (s t : Collector) → HasCollected s t
        → (arc_value t.volume ≡ arc_value s.volume) × (t.drains ≡ s.drains) }
    ensures no_call { (n : ℕ) (x y : Broom) → HasMadeCalls n x [] y → y ≡ x }
    ensures one_call { (n : ℕ) (x y : Broom) → HasMadeCalls n x (by.Restock false ∷ []) y
        → RestockTold x false y × HandsNothing x y × KeepsSurvey x y }
    ensures drained { (n k : ℕ) (x y : Broom)
        → HasMadeCalls n x (by.Drain drain.NoSpare k ∷ []) y → DrainOneTold n x drain.NoSpare y
        × GrowsBy k (view_of_broom x).programs (view_of_broom y).programs }
    ensures drained_next { (n k : ℕ) (x y : Broom)
        → HasMadeCalls n x (by.DrainNext drain.Lost k ∷ []) y → DrainNextOneTold n x drain.Lost y
        × GrowsBy k (view_of_broom x).programs (view_of_broom y).programs }
    ensures drained_dead { (n : ℕ) (x y : Broom)
        → HasMadeCalls n x (by.DrainDead drain.Lost ∷ []) y → DrainDeadOneTold n x drain.Lost y }
    ensures erased { (n : ℕ) (x y : Broom) → HasMadeCalls n x (by.Erase erase.Pinned ∷ []) y
        → EraseOneTold n x erase.Pinned y }
    ensures counted { (s t : Collector)
        → HasCollectedBy s (by.Erase erase.Stale ∷ []) t → s.tally ≡ nothing_done
        → t.tally ≡ record nothing_done { stale = 1 } }
    ensures listed { (s t : Collector) → HasCollectedBy s (by.Erase erase.Stale ∷ []) t
        → 1 ≡ length (view_of_broom t.broom).stale - length (view_of_broom s.broom).stale + 0 }
    ensures listed_pinned { (s t : Collector) → HasCollectedBy s (by.Erase erase.Pinned ∷ []) t
        → 1 ≡ length (view_of_broom t.broom).busy - length (view_of_broom s.broom).busy + 0 }
    ensures turns { (s t : Collector) → (h : HasCollected s t) → AreTurns s.drains h.answers }
    ensures at_start { (v : Volume) (s : Collector) → IsAtRunStart v 4 2 s
        → (arc_value s.volume ≡ v) × (s.drains ≡ 4) × (s.tally ≡ nothing_done)
        × ((view_of_broom s.broom).role ≡ seat.Player (name.Broom 2)) }
    ensures begun { (g : Geometry) (e : CollectorEnd) → (h : HasServed g 4 3 e)
        → (geometry_of (flash_of h.volume) ≡ g) × IsAtRunStart h.volume 4 3 h.first
        × HasFolded h.last e × (e.tally ≡ h.last.tally) }
    ensures counts { (g : Geometry) (e : CollectorEnd) → (h : HasServed g 4 3 e)
        → (e.tally.erased ≡ length (folded_view e.folded).erases % 2 ^ 64)
        × (e.tally.pinned ≡ listed_in busy_in h.first h.last h.collected % 2 ^ 64)
        × (e.tally.stale ≡ listed_in stale_in h.first h.last h.collected % 2 ^ 64) }
    ensures served { (g : Geometry) (e : CollectorEnd)
        → AllHaveServed g 4 (e ∷ []) → HasServed g 4 0 e × (brooms_of g ≡ 1) }
    ensures second { (g : Geometry) (e f : CollectorEnd)
        → AllHaveServed g 4 (e ∷ f ∷ []) → HasServed g 4 1 f }
    ensures missing { (g : Geometry) → brooms_of g ≡ 1 → ¬ AllHaveServed g 4 [] }
    ensures number { (g : Geometry) (e : CollectorEnd) → HasServed g 4 3 e
        → (folded_view e.folded).role ≡ seat.Player (name.Broom 3) }
    ensures left { (s : Collector) (e : CollectorEnd) → HaveFolded (s ∷ []) (e ∷ [])
        → LeftAt (limit_at s) s.broom (folded_place e.folded) }
{}
