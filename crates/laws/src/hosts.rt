ghost use Rattle.std.specs.Prelude.{◌≡◌, ◌+◌, ◌*◌, ◌<◌, ◌≤◌, ℕ, List, [], ◌∷◌, ◌++◌, None, Some};
ghost use Rattle.std.specs.List.{range_with_len};
ghost use Rattle.geometry.specs.{History.Begins, History.Write, History.held, declared.answer.Was.Was, declared.words.MapWord.MapWord};
ghost use Rattle.flash_rule.specs.{Plays.Disjoint, Views.sum_of, World.sector_word, declared.facts.Owned.Owned, declared.view.View.View};
ghost use Rattle.broom.specs.Meeting.{BroomsMet, HasHeard, StoodTold};
ghost use Rattle.host.specs.Told.{MetHolding, MetTold, Refused, Searched, Wrote};
ghost use Rattle.uses.specs.Sharing.{HasNoErase};
ghost use Rattle.laws.specs.Steps.{FilledOne, TookNothing};

pub(crate) mod host_results;

/// What a write and a search for a page record.
pub fn writes_of_hosts()
    // A write that found no block has found each block taken once, in order, and has made no call.
    ensures refused { (v w : View) → Refused v w
        → (w.denied ≡ v.denied ++ range_with_len 0 v.numbers.blocks) × TookNothing v w }
    ensures had_none { (v w : View) (o : Owned) → v.owns ≡ o ∷ [] → ¬ Refused v w }

    // A write that is done has programmed one page and made one call, whose value the sector holds.
    ensures filled { (v w : View) (t s : ℕ) (x : List ℕ) (a : Was)
        → Wrote v t s x a w → FilledOne v w }
    ensures mine { (v w : View) (t s : ℕ) (x : List ℕ) (a : Was)
        → Wrote v t s x a w → w.mine ≡ v.mine ++ Write t s x ∷ [] }
    ensures holds { (v w : View) (t s : ℕ) (x : List ℕ) (a : Was) → Wrote v t s x a w
        → s < v.numbers.sectors → held v.numbers.sectors w.seen s ≡ Some x }

    // The number of looks of a search is bounded.
    ensures looked { (v w : View) → ¬ Searched v 0 w }
    ensures bounded { (v w : View)
        → ¬ Searched v (v.numbers.blocks * (2 * v.numbers.endurance) + 2) w }
    ensures paid { (v w : View) (tries : ℕ) → Searched v tries w
        → (tries + sum_of v.known ≤ sum_of w.known + 1)
        × (sum_of w.known ≤ v.numbers.blocks * (2 * v.numbers.endurance))
        × Begins v.seen w.seen × (w.looks ≡ v.looks + tries) }
{}

/// What two players know of each other after they met.
pub fn meetings_of_players()
    ensures seen { (v w x y : View) → MetTold v w x y
        → Begins w.seen x.seen × Begins v.seen y.seen }
    ensures programs { (v w x y : View) (m : MapWord) → MetTold v w x y
        → x.programs ≡ m ∷ [] → ¬ (y.programs ≡ m ∷ []) }
    ensures one_player { (v x y : View) → ¬ MetTold v v x y }
    ensures held { (v w x y : View) (m : MapWord) → MetHolding v w m x y
        → HasNoErase w.erases m × Begins v.seen y.seen × Begins w.seen y.seen }
    ensures stood { (v w x y : View) (m : MapWord) → StoodTold v w m x y
        → HasNoErase w.erases m × Begins v.seen y.seen × Begins w.seen y.seen }
    ensures erases { (v w x y : View) → BroomsMet v w x y
        → Disjoint x.erases y.erases × Disjoint x.programs y.programs }
    ensures heard { (v w : View) → (h : HasHeard v w)
        → (w.named ≡ v.named ++ (0, sector_word h.found) ∷ []) × (w.older ≡ v.copy)
        × (h.found ≡ None → held v.numbers.sectors w.seen 0 ≡ None) }
    ensures mapped { (v w : View) (m : MapWord) → (h : HasHeard v w) → h.found ≡ Some m
        → (x : List ℕ) × (held v.numbers.sectors w.seen 0 ≡ Some x) }
    ensures brooms_seen { (v w x y : View) → BroomsMet v w x y
        → Begins v.seen x.seen × Begins w.seen x.seen × Begins x.seen y.seen }
    ensures brooms_heard { (v w x y : View)
        → BroomsMet v w x y → HasHeard v x × HasHeard w y }
{}
