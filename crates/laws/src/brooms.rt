ghost use Rattle.std.specs.Prelude.{◌≡◌, ℕ, [], ◌∷◌, None, Some, true, false};
ghost use Rattle.geometry.specs.Greedy.{IsClosed, greedy_of};
ghost use Rattle.broom.specs.{Ready.marks_of, Ready.view_of_broom, Told.DrainTold, Told.KeepsSurvey, Told.NextTold, Told.SurveyLeft, Told.Unmarks};
ghost use Rattle.broom.specs.{Told.RestockTold, Survey.GainsNothing, Survey.IsVictim, Survey.closed_of, Survey.counts_of, declared.broom.Broom.Broom};
ghost use Rattle.broom.specs.declared.answer.Drain.TheVariants as drain;
ghost use Rattle.laws.specs.Brooms.{DidNothing, HadFewest, HasDrained, HasLost, HasNone, HasSpare, a_survey, an_all_live_survey};

pub(crate) mod broom_results;
pub(crate) mod broom_turns;

/// What a survey counts, and which block is its victim.
#[tactic(auto, unfolding(geometry::specs::Greedy::greedy_of))]
pub fn a_survey_and_its_victim()
    ensures counts { counts_of a_survey ≡ 1 ∷ 2 ∷ 0 ∷ [] }
    ensures closed { closed_of a_survey.states ≡ true ∷ true ∷ false ∷ [] }
    ensures victim { IsVictim a_survey 2 0 }
    ensures fuller { ¬ IsVictim a_survey 2 1 }
    ensures open { ¬ IsVictim a_survey 2 2 }
    ensures gain { ¬ GainsNothing a_survey 2 }
    ensures all_live { GainsNothing an_all_live_survey 2 × (¬ IsVictim an_all_live_survey 2 0) }
    ensures not_full { IsVictim an_all_live_survey 3 0 }
    ensures lowest { greedy_of (2 ∷ 1 ∷ 1 ∷ []) (true ∷ true ∷ true ∷ []) ≡ Some 1 }
    ensures none { greedy_of (0 ∷ 0 ∷ []) (false ∷ false ∷ []) ≡ None }
{}

/// What stays marked of a survey: a block that was drained by it is not drained by it again.
pub fn marks_of_a_survey()
    ensures unmarked { (b : ℕ) (x y : Broom) → Unmarks x b y → ¬ IsClosed (marks_of y) b }
    ensures others { (b k : ℕ) (x y : Broom) → Unmarks x b y → ¬ (k ≡ b)
        → IsClosed (marks_of x) k → IsClosed (marks_of y) k }
    ensures left { (b c : ℕ) (x y : Broom)
        → SurveyLeft x (drain.Drained b c) y → ¬ IsClosed (marks_of y) b }
    ensures next { (b c k d : ℕ) (x y z : Broom) → SurveyLeft x (drain.Drained b c) y
        → NextTold y (drain.Drained k d) z → ¬ (k ≡ b) }
    ensures kept { (x y : Broom) → NextTold x drain.NothingToGain y → KeepsSurvey x y }
    ensures no_queue { (x y : Broom) → ¬ NextTold x drain.QueueFull y }
{}

/// What a drain and a restock mean by their results.
pub fn a_drain_and_its_survey()
    ensures listed { (b c : ℕ) (x y : Broom)
        → DrainTold x (drain.Drained b c) y → HasDrained b x y }
    ensures fewest { (b c : ℕ) (x y : Broom) → DrainTold x (drain.Drained b c) y
        → HadFewest (view_of_broom x) b (view_of_broom y) }
    ensures nothing { (x y : Broom) → DrainTold x drain.NothingToGain y → DidNothing x y }
    ensures no_spare { (x y : Broom) → DrainTold x drain.NoSpare y
        → HasNone x × (view_of_broom y ≡ view_of_broom x) }
    ensures lost { (x y : Broom) → DrainTold x drain.Lost y → DidNothing x y × HasLost x y }
    ensures no_queue { (x y : Broom) → ¬ DrainTold x drain.QueueFull y }
    ensures restocked { (x y : Broom) → RestockTold x true y → HasSpare y }
    ensures found_none { (x y : Broom) → RestockTold x false y → HasNone y }
{}
