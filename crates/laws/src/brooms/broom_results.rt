//! Laws of what each result of a broom's call says.
ghost use Rattle.std.specs.Prelude.{◌≡◌, ◌⊎◌, ◌+◌, ◌<◌, ◌≤◌, ◌++◌, ℕ, Bool, List, [], ◌∷◌, None, Some, true, false, length, slice_index, slice_set};
ghost use Rattle.broom.specs.Dead.{DeadBySurvey, DeadTold, DidDrainDead, FoundInUse, FoundOther, InspectedTold, LiveBySurvey, LostInspected};
ghost use Rattle.broom.specs.{Surveying.Chosen, Erasing.DidErase, Erasing.EraseTold, Erasing.renewed, Handing.Relieved, Handing.aside_of, Handing.place_of};
ghost use Rattle.broom.specs.Emptying.{Emptied, Programmed, given_up, live_from, looks_in, pages_left, pages_to_fill};
ghost use Rattle.broom.specs.Handing.{DrainDeadOneTold, DrainNextOneTold, DrainOneTold, EraseOneTold, Fetched, HandedOn, HandsNothing, IsElse, LeftAt};
ghost use Rattle.broom.specs.{Ready.blocks_of_broom, Ready.marks_of, Ready.view_of_broom, Told.RestockTold, Told.states_kept, Told.victim_in};
ghost use Rattle.broom.specs.Survey.{GainsNothing, IsSurvey, IsVictim, Survey, closed_of, counts_of, generation_in, loads_of, looks_of, written_in};
ghost use Rattle.broom.specs.Told.{DrainTold, GainsNothingNext, KeepsSurvey, NextTold, SurveyLeft, Surveyed, Unmarks, block_in, counts_kept, next_of};
ghost use Rattle.broom.specs.declared.broom.Broom.{Broom};
ghost use Rattle.broom.specs.declared.answer.Drain.TheVariants as drain;
ghost use Rattle.broom.specs.declared.answer.Erase.TheVariants as erase;
ghost use Rattle.erase_queue.specs.{Queue.WasEmpty, Queue.WasFull, Queue.WasPut, Queue.WasTaken, declared.pass.QueuePass.QueuePass};
ghost use Rattle.flash_rule.specs.{BroomPlays.inspected_in, BroomPlays.owned_as, Ceded.freed_as, declared.facts.Owned.Owned, declared.facts.Work.Work};
ghost use Rattle.flash_rule.specs.declared.view.View.{View};
ghost use Rattle.flash_table.specs.{Erasing.words_in_block, Owning.owned_of};
ghost use Rattle.flash_table.specs.declared.{broom_seat.BroomBlocks.BroomBlocks, broom_seat.ReclaimedBlock.ReclaimedBlock, pass.OpenBlock.OpenBlock};
ghost use Rattle.geometry.specs.{History.Begins, Words.map_word, Words.FitsPin, Words.pin_word, declared.words.MapWord.MapWord};
ghost use Rattle.geometry.specs.declared.words.PinWord.{PinWord};
ghost use Rattle.geometry.specs.declared.words.Phase.TheVariants as phase;
ghost use Rattle.laws.specs.Brooms.{HasNone, HasSpare};

/// What an erase of a block records, by its result: the block, its state as loaded, what was listed and given up, and what the broom has then.
pub fn results_of_an_erase()
    ensures kept { (b c : ℕ) (x y : Broom) → (h : EraseTold x b (erase.Erased c true) y) → (c ≡ b)
        × DidErase (view_of_broom x) b h.1.state
        (owned_of (renewed b h.1.state) ∷ (view_of_broom x).owns)
        (view_of_broom x).ceded (view_of_broom y)
        × (h.1.state.generation + 1 < (view_of_broom x).numbers.endurance) × HasNone x
        × (blocks_of_broom y ≡ record (blocks_of_broom x) { spare = Some (renewed b h.1.state) }) }
    ensures freed { (b c : ℕ) (x y : Broom) → (h : EraseTold x b (erase.Erased c false) y) → (c ≡ b)
        × DidErase (view_of_broom x) b h.1.state (view_of_broom x).owns
        ((view_of_broom x).ceded ++ freed_as (owned_as b h.1.state phase.Erasing) ∷ [])
        (view_of_broom y)
        × (h.1.state.generation + 1 < (view_of_broom x).numbers.endurance)
        × HasSpare x × (blocks_of_broom y ≡ blocks_of_broom x) }
    ensures retired { (b c : ℕ) (x y : Broom) → (h : EraseTold x b (erase.Retired c) y) → (c ≡ b)
        × DidErase (view_of_broom x) b h.1.state (view_of_broom x).owns
        ((view_of_broom x).ceded ++ owned_as b h.1.state phase.Retired ∷ [])
        (view_of_broom y)
        × (h.1.state.generation + 1 ≡ (view_of_broom x).numbers.endurance)
        × (blocks_of_broom y ≡ blocks_of_broom x) }
    ensures erased { (v w : View) (b : ℕ) (p : PinWord) (owns ceded : List Owned) → DidErase v b p owns ceded w → FitsPin p
        × (p.phase ≡ phase.Drained) × (p.readers ≡ 0) × (w ≡ record v {
          loaded = v.loaded ++ (b, pin_word p) ∷ [];
          erases = v.erases ++ record { block = b; generation = p.generation } ∷ [];
          wiped = words_in_block v.numbers;
          owns = owns;
          ceded = ceded;
        }) }
    ensures pinned { (b : ℕ) (x y : Broom) → EraseTold x b erase.Pinned y → (p : PinWord) × FitsPin p × (p.phase ≡ phase.Drained)
        × (view_of_broom y ≡ record (view_of_broom x) {
          loaded = (view_of_broom x).loaded ++ (b, pin_word p) ∷ [];
          busy = (view_of_broom x).busy ++ b ∷ [];
        }) × (blocks_of_broom y ≡ blocks_of_broom x) }
    ensures stale { (b : ℕ) (x y : Broom) → EraseTold x b erase.Stale y → (p : PinWord) × FitsPin p × (¬ (p.phase ≡ phase.Drained))
        × (view_of_broom y ≡ record (view_of_broom x) {
          loaded = (view_of_broom x).loaded ++ (b, pin_word p) ∷ [];
          stale = (view_of_broom x).stale ++ b ∷ [];
        }) × (blocks_of_broom y ≡ blocks_of_broom x) }
    ensures no_queue { (b : ℕ) (x y : Broom) → ¬ EraseTold x b erase.QueueEmpty y }
{}

/// What a drain records by its result, how its victim was emptied, and what a restock took.
pub fn results_of_a_drain()
    ensures drained { (b n : ℕ) (x y : Broom) → (h : DrainTold x (drain.Drained b n) y)
        → Surveyed (view_of_broom x) h.survey (view_of_broom y)
        × IsVictim h.survey (view_of_broom x).numbers.pages b
        × ((blocks_of_broom y).reclaiming ≡ (blocks_of_broom x).reclaiming)
        × Emptied (view_of_broom x).numbers.pages (victim_in h.survey b)
        (record (view_of_broom x) { named = (view_of_broom x).named ++ looks_of h.survey.pages }) (blocks_of_broom x) n (view_of_broom y)
        (blocks_of_broom y) }
    ensures recorded { (b n : ℕ) (x y : Broom) → (h : DrainTold x (drain.Drained b n) y) → let v = view_of_broom x in let w = view_of_broom y in
        w ≡ record v {
          seen = w.seen;
          loaded = w.loaded;
          named = w.named;
          busy = w.busy;
          stale = w.stale;
          owns = w.owns;
          work = w.work;
          programs = w.programs;
          cleared = written_in h.survey.states b;
          moves = v.moves + n;
          drains = v.drains ++ record { block = b; generation = generation_in h.survey.states b } ∷ [];
          ceded = v.ceded ++ given_up v.numbers.pages h.emptied.copies (victim_in h.survey b);
        } }
    ensures room { (b n : ℕ) (x y : Broom) (o : OpenBlock)
        → DrainTold x (drain.Drained b n) y → (blocks_of_broom y).destination ≡ Some o
        → o.written < (view_of_broom x).numbers.pages }
    ensures surveyed { (v w : View) (s : Survey) → Surveyed v s w
        → IsSurvey v.numbers s × (w.loaded ≡ v.loaded ++ loads_of s.states)
        × Begins (v.named ++ looks_of s.pages) w.named × Begins v.seen w.seen }
    ensures emptied { (pages n : ℕ) (r : ReclaimedBlock) (v w : View) (x y : BroomBlocks)
        → (h : Emptied pages r v x n w y)
        → (length h.finds ≡ r.written) × (w.named ≡ v.named ++ looks_in h.finds)
        × (length h.copies ≡ live_from r 0 h.finds)
        × (n ≤ length h.copies) × Programmed pages v x h.copies w y }
    ensures programmed { (pages n : ℕ) (r : ReclaimedBlock) (v w : View) (x y : BroomBlocks)
        → (h : Emptied pages r v x n w y)
        → (w.programs ≡ v.programs ++ h.copies)
        × (pages_to_fill pages x ≡ h.copies ++ pages_to_fill pages y)
        × (length h.copies ≤ length (pages_left pages x.destination) → y.spare ≡ x.spare)
        × (length (pages_left pages x.destination) < length h.copies → y.spare ≡ None)
        × (h.copies ≡ [] → (w.work ≡ v.work) × (y.destination ≡ x.destination)) }
    ensures filled { (pages n : ℕ) (r : ReclaimedBlock) (v w : View) (x y : BroomBlocks) (k : Work)
        → (h : Emptied pages r v x n w y) → ¬ (h.copies ≡ [])
        → w.work ≡ Some k → (before : List MapWord) × (h.copies ≡ before ++ k.page ∷ []) }
    ensures filling { (pages n : ℕ) (r : ReclaimedBlock) (v w : View) (x y : BroomBlocks) (o : OpenBlock) → (h : Emptied pages r v x n w y)
        → ¬ (h.copies ≡ []) → y.destination ≡ Some o → (k : Work) × (w.work ≡ Some k) }
    ensures nothing { (x y : Broom) → DrainTold x drain.NothingToGain y
        → (s : Survey) × Surveyed (view_of_broom x) s (view_of_broom y)
        × GainsNothing s (view_of_broom x).numbers.pages × (blocks_of_broom y ≡ blocks_of_broom x) }
    ensures took { (x y : Broom) → HasNone x → RestockTold x true y
        → (view_of_broom y).taken ≡ (view_of_broom x).taken + 1 }
    ensures took_none { (x y : Broom) (o : OpenBlock)
        → (blocks_of_broom x).spare ≡ Some o → ¬ RestockTold x false y }
{}

/// What a drain by the last survey records, by its result, and what a drain by a new one leaves.
pub fn drains_by_a_survey()
    ensures drained { (b n : ℕ) (x y : Broom)
        → NextTold x (drain.Drained b n) y → (next_of x ≡ Some b)
        × (¬ (slice_index (counts_kept x) b ≡ (view_of_broom x).numbers.pages))
        × Begins (view_of_broom x).seen (view_of_broom y).seen
        × Emptied (view_of_broom x).numbers.pages (block_in (states_kept x) b)
        (view_of_broom x) (blocks_of_broom x) n (view_of_broom y)
        (blocks_of_broom y)
        × ((blocks_of_broom y).reclaiming ≡ (blocks_of_broom x).reclaiming) × Unmarks x b y }
    ensures recorded { (b n : ℕ) (x y : Broom) → (h : NextTold x (drain.Drained b n) y) → let v = view_of_broom x in let w = view_of_broom y in
        w ≡ record v {
          seen = w.seen;
          named = w.named;
          owns = w.owns;
          work = w.work;
          programs = w.programs;
          cleared = written_in (states_kept x) b;
          moves = v.moves + n;
          drains = v.drains ++ record { block = b; generation = generation_in (states_kept x) b } ∷ [];
          ceded = v.ceded ++ given_up v.numbers.pages h.1.emptied.copies (block_in (states_kept x) b);
        } }
    ensures room { (b n : ℕ) (x y : Broom) (o : OpenBlock)
        → NextTold x (drain.Drained b n) y → (blocks_of_broom y).destination ≡ Some o
        → o.written < (view_of_broom x).numbers.pages }
    ensures nothing { (x y : Broom) → NextTold x drain.NothingToGain y
        → GainsNothingNext x × (view_of_broom y ≡ view_of_broom x)
        × (blocks_of_broom y ≡ blocks_of_broom x) × KeepsSurvey x y }
    ensures all_live { (x : Broom) (b : ℕ) → next_of x ≡ Some b → GainsNothingNext x
        → slice_index (counts_kept x) b ≡ (view_of_broom x).numbers.pages }
    ensures no_spare { (x y : Broom) → NextTold x drain.NoSpare y
        → HasNone x × (view_of_broom y ≡ view_of_broom x)
        × (blocks_of_broom y ≡ blocks_of_broom x) × KeepsSurvey x y }
    ensures lost { (x y : Broom) → NextTold x drain.Lost y → (b : ℕ) × (next_of x ≡ Some b)
        × (view_of_broom y ≡ record (view_of_broom x) { lost = (view_of_broom x).lost ++ b ∷ [] }) × (blocks_of_broom y ≡ blocks_of_broom x)
        × Unmarks x b y }
    ensures unmarks { (b : ℕ) (x y : Broom) → Unmarks x b y
        → (states_kept y ≡ states_kept x) × (counts_kept y ≡ counts_kept x)
        × (marks_of y ≡ slice_set (marks_of x) b false) }
    ensures keeps { (x y : Broom) → KeepsSurvey x y → (states_kept y ≡ states_kept x)
        × (counts_kept y ≡ counts_kept x) × (marks_of y ≡ marks_of x) }
    ensures left { (b n : ℕ) (x y : Broom) → SurveyLeft x (drain.Drained b n) y
        → (s : Survey) × Surveyed (view_of_broom x) s (view_of_broom y)
        × (states_kept y ≡ s.states) × (counts_kept y ≡ counts_of s)
        × (marks_of y ≡ slice_set (closed_of s.states) b false) }
    ensures left_all { (x y : Broom) → SurveyLeft x drain.NothingToGain y
        → (s : Survey) × Surveyed (view_of_broom x) s (view_of_broom y)
        × (marks_of y ≡ closed_of s.states) }
    ensures left_lost { (x y : Broom) → SurveyLeft x drain.Lost y
        → (s : Survey) × (b : ℕ) × IsVictim s (view_of_broom x).numbers.pages b
        × (marks_of y ≡ slice_set (closed_of s.states) b false) }
{}

/// What a drain of a block without live pages records, by its result.
pub fn drains_of_dead_blocks()
    ensures drained { (b n : ℕ) (x y : Broom) → DeadTold x (drain.Drained b n) y
        → (r : Broom) × Chosen (view_of_broom x) b r
        × (slice_index (counts_kept r) b ≡ 0) × (n ≡ 0)
        × DidDrainDead (view_of_broom r) b (view_of_broom y)
        × (blocks_of_broom y ≡ blocks_of_broom x) × Unmarks r b y }
    ensures dead { (v w : View) → (h : DidDrainDead v 3 w) → (h.state.phase ≡ phase.Closed) × FitsPin h.state
        × (v.numbers.sectors ≤ inspected_in w.inspection 3 h.state.generation) × (w ≡ record v {
          loaded = v.loaded ++ (3, pin_word h.state) ∷ [];
          stale = v.stale ++ 3 ∷ [];
          inspection = w.inspection;
          owns = w.owns;
          cleared = 0;
          drains = v.drains ++ record { block = 3; generation = h.state.generation } ∷ [];
          ceded = v.ceded ++ owned_as 3 h.state phase.Drained ∷ [];
        }) }
    ensures none { (x y : Broom) → DeadTold x drain.NothingToGain y
        → (blocks_of_broom y ≡ blocks_of_broom x) × (s : Survey)
        × GainsNothing s (view_of_broom x).numbers.pages }
    ensures none_marked { (x y : Broom) → DeadTold x drain.NothingToGain y
        → (s : Survey) × Surveyed (view_of_broom x) s (view_of_broom y)
        × (marks_of y ≡ closed_of s.states) }
    ensures live { (x y : Broom) → LiveBySurvey x y → (b : ℕ)
        × Chosen (view_of_broom x) b y × (¬ (slice_index (counts_kept y) b ≡ 0)) }
    ensures no_spare { (x y : Broom) → DeadTold x drain.NoSpare y
        → LiveBySurvey x y ⊎ DeadBySurvey x drain.NoSpare y }
    ensures no_spare_by { (x y : Broom) → InspectedTold x 3 drain.NoSpare y
        → (FoundOther (view_of_broom x) 3 (view_of_broom y)
        ⊎ FoundInUse (view_of_broom x) 3 (view_of_broom y))
        × (blocks_of_broom y ≡ blocks_of_broom x) }
    ensures in_use { (v w : View) → (h : FoundInUse v 3 w)
        → (h.stopped.page.block ≡ 3) × (h.stopped.page.generation ≡ h.state.generation)
        × (h.stopped.sector < v.numbers.sectors) × (h.state.phase ≡ phase.Closed) }
    ensures listed { (v w : View) → (h : FoundInUse v 3 w)
        → w.named ≡ v.named ++ (h.stopped.sector, map_word h.stopped.page) ∷ [] }
    ensures lost { (x y : Broom) → DeadTold x drain.Lost y → DeadBySurvey x drain.Lost y }
    ensures lost_by { (x y : Broom) → InspectedTold x 3 drain.Lost y
        → LostInspected (view_of_broom x) 3 (view_of_broom y)
        × (blocks_of_broom y ≡ blocks_of_broom x) }
    ensures unmarked { (x y : Broom) → DeadBySurvey x drain.Lost y → (b : ℕ)
        × (r : Broom) × Chosen (view_of_broom x) b r × Unmarks r b y }
    ensures other { (v w : View) → (h : FoundOther v 3 w)
        → (¬ (h.state.phase ≡ phase.Closed)) × FitsPin h.state
        × (w.loaded ≡ v.loaded ++ (3, pin_word h.state) ∷ [])
        × (w.lost ≡ v.lost) × (w.named ≡ v.named) }
    ensures claim { (v w : View) → (h : LostInspected v 3 w)
        → (h.state.phase ≡ phase.Closed) × FitsPin h.state × (w.lost ≡ v.lost ++ 3 ∷ [])
        × (v.numbers.sectors ≤ inspected_in w.inspection 3 h.state.generation)
        × (w.drains ≡ v.drains) }
    ensures queue { (x y : Broom) → ¬ DeadTold x drain.QueueFull y }
{}

/// What a turn with a queue of nine numbers says: what is set aside is put first, and a drained block is put, or set aside at a full queue.
pub fn turns_with_a_queue()
    ensures drained { (b n : ℕ) (x y : Broom) → DrainOneTold 9 x (drain.Drained b n) y
        → (r : Broom) × (d : Broom) × Relieved x r
        × DrainTold r (drain.Drained b n) d × SurveyLeft r (drain.Drained b n) d
        × HandsNothing r d × HandedOn 9 d b y }
    ensures lost { (x y : Broom) → DrainOneTold 9 x drain.Lost y
        → (r : Broom) × Relieved x r × DrainTold r drain.Lost y
        × SurveyLeft r drain.Lost y × HandsNothing r y }
    ensures next { (x y : Broom) → DrainNextOneTold 9 x drain.NoSpare y → (r : Broom)
        × Relieved x r × NextTold r drain.NoSpare y × HandsNothing r y }
    ensures dead { (x y : Broom) → DrainDeadOneTold 9 x drain.Lost y → (r : Broom)
        × Relieved x r × DeadTold r drain.Lost y × HandsNothing r y }
    ensures full { (x y : Broom) → DrainOneTold 9 x drain.QueueFull y
        → (b : ℕ) × (aside_of x ≡ Some b) × (aside_of y ≡ Some b) × IsElse x y
        × WasFull 9 (place_of x) (place_of y) }
    ensures put_first { (b : ℕ) (x y : Broom) → aside_of x ≡ Some b
        → Relieved x y → (aside_of y ≡ None) × IsElse x y
        × WasPut (place_of x) b (place_of y) }
    ensures none_to_put { (x y : Broom) → aside_of x ≡ None
        → Relieved x y → (aside_of y ≡ None) × (place_of y ≡ place_of x) }
    ensures put { (b : ℕ) (x y : Broom) → aside_of y ≡ None
        → HandedOn 9 x b y → IsElse x y × WasPut (place_of x) b (place_of y) }
    ensures set_aside { (b c : ℕ) (x y : Broom) → aside_of y ≡ Some c
        → HandedOn 9 x b y → (c ≡ b) × WasFull 9 (place_of x) (place_of y) }
    ensures erased { (b : ℕ) (k : Bool) (x y : Broom)
        → EraseOneTold 9 x (erase.Erased b k) y → (n : ℕ) × (f : Broom) × Fetched x n f
        × EraseTold f n (erase.Erased b k) y × Unmarks f n y × HandsNothing f y }
    ensures pinned { (x y : Broom) → EraseOneTold 9 x erase.Pinned y
        → (n : ℕ) × (f : Broom) × (p : Broom) × Fetched x n f
        × EraseTold f n erase.Pinned p × Unmarks f n p × HandsNothing f p × HandedOn 9 p n y }
    ensures empty { (x y : Broom) → EraseOneTold 9 x erase.QueueEmpty y
        → (aside_of x ≡ None) × (aside_of y ≡ None) × IsElse x y
        × WasEmpty (place_of x) (place_of y) }
    ensures taken { (b : ℕ) (x y : Broom) → aside_of x ≡ None → Fetched x b y
        → (aside_of y ≡ None) × IsElse x y × WasTaken (place_of x) b (place_of y) }
    ensures fetched { (b c : ℕ) (x y : Broom) → aside_of x ≡ Some c → Fetched x b y
        → (b ≡ c) × (aside_of y ≡ None) × (place_of y ≡ place_of x) }
    ensures left { (x : Broom) (p : QueuePass) → aside_of x ≡ None → LeftAt 9 x p → p ≡ place_of x }
    ensures left_aside { (b : ℕ) (x : Broom) (p : QueuePass) → aside_of x ≡ Some b
        → LeftAt 9 x p → WasPut (place_of x) b p ⊎ WasFull 9 (place_of x) p }
{}
