//! Laws of what each kind of step on the table records.
ghost use Rattle.std.specs.Prelude.{◌≡◌, ◌+◌, ◌*◌, ◌<◌, ◌≤◌, ℕ, List, [], ◌∷◌, ◌++◌, Some, None, length};
ghost use Rattle.atomic_table.specs.Table.{State, Step};
ghost use Rattle.flash_rule.specs.BroomPlays.{CanInspect, Inspected, inspect_told, inspected_in, CanClaim, CanCondemn, CanDrain, CanGetStamp, CanMove};
ghost use Rattle.flash_rule.specs.BroomPlays.{CanRenew, CanRetire, CanWipe, Loaded, Named, cycle_of, broom_look_told, claim_told, condemn_told, drain_told};
ghost use Rattle.flash_rule.specs.BroomPlays.{freed_told, kept_told, move_told, owned_as, retired_told, source_told, stamp_told, state_told, wipe_told};
ghost use Rattle.flash_rule.specs.Plays.{CanClose, CanCount, CanPlace, CanPut, Looked, Met, Sitter, close_told, count_told, get_told, look_told, new_told};
ghost use Rattle.flash_rule.specs.Plays.{next_page, Tested, pin_told, put_told, take_told, test_told, trim_told, unpin_told, words_in, write_told};
ghost use Rattle.flash_rule.specs.{Seats.Ruled, Views.without, World.blank_word, World.data_word, declared.facts.Owned.Owned, declared.facts.Source.Source};
ghost use Rattle.flash_rule.specs.Views.{AreOfHosts, calls_of, sum_of};
ghost use Rattle.flash_rule.specs.declared.{carried.Carried.Carried, facts.Work.Work, view.View.View};
ghost use Rattle.flash_rule.specs.declared.facts.Name.TheVariants as name;
ghost use Rattle.flash_rule.specs.declared.facts.Pin.TheVariants as pin;
ghost use Rattle.flash_rule.specs.declared.facts.Role.TheVariants as seat;
ghost use Rattle.geometry.specs.History.{Begins, Trim, Write, WriteNew, held};
ghost use Rattle.geometry.specs.{Limits.numbers, Words.FitsMap, Words.map_word};
ghost use Rattle.geometry.specs.{Words.FitsPin, Words.pin_word, Words.page_index, Words.pin_index, declared.words.MapWord.MapWord};
ghost use Rattle.geometry.specs.declared.words.{TheConstants.UNMAPPED, PinWord.PinWord};
ghost use Rattle.geometry.specs.declared.words.Phase.TheVariants as phase;
ghost use Rattle.laws.specs.{Steps.an_inspection, Steps.an_owned, Brooms.a_page};

pub(crate) mod played_rounds;
pub(crate) mod players;
pub(crate) mod tallies;
pub(crate) mod turns;

/// What each step of a pass records.
pub fn steps_of_passes()
    ensures look { (st : Step (Unit {0})) (me after : Sitter)
        → look_told st me 0 after → (after.1 ≡ me.1)
        × (held me.0.numbers.sectors after.0.seen st.word ≡ None)
        × (after.0.looks ≡ me.0.looks + 1) }
    ensures looked { (v w : View) → Looked v 3 0 w → (w.pin ≡ pin.Clear)
        × (w.mine ≡ v.mine) × (w.programs ≡ v.programs) }
    ensures looked_page { (v w : View) (n : ℕ) → Looked v 3 n w → ¬ (n ≡ 0)
        → (m : MapWord) × (x : List ℕ) × (n ≡ map_word m) × FitsMap m
        × (held v.numbers.sectors w.seen 3 ≡ Some x) × (w.pin ≡ pin.Candidate m x) }
    ensures looked_later { (v w : View) (n : ℕ) → Looked v 3 n w
        → Begins v.seen w.seen × AreOfHosts v.numbers w.seen
        × (sum_of v.known ≤ sum_of w.known)
        × (sum_of w.known ≤ v.numbers.blocks * (2 * v.numbers.endurance)) }
    ensures looked_met { (v w : View) (n : ℕ) (c : Carried)
        → Looked v 3 n w → v.copy ≡ Some c → Met w c }
    ensures looked_own { (v w : View) (n : ℕ) → Looked v 3 n w
        → v.role ≡ seat.Player (name.Pass 2) → calls_of 2 w.seen ≡ w.mine }
    ensures write { (st : Step (Unit {0})) (me after : Sitter) (n : ℕ) (m : MapWord) (x : List ℕ)
        → write_told st me n after
        → me.0.role ≡ seat.Player (name.Pass 2) → st.first ≡ map_word m
        → FitsMap m → CanPlace me.0 st.word m x → (after.1 ≡ me.1)
        × (after.0.mine ≡ me.0.mine ++ Write 2 st.word x ∷ []) }
    ensures new { (st : Step (Unit {0})) (me after : Sitter) (n : ℕ) (m : MapWord) (x : List ℕ)
        → new_told st me n after
        → me.0.role ≡ seat.Player (name.Pass 2) → st.first ≡ UNMAPPED
        → st.second ≡ map_word m → FitsMap m → CanPlace me.0 st.word m x → (after.1 ≡ me.1)
        × (after.0.mine ≡ me.0.mine ++ WriteNew 2 st.word x ∷ []) }
    ensures trim { (st : Step (Unit {0})) (me after : Sitter) (n : ℕ)
        → trim_told st me n after → me.0.role ≡ seat.Player (name.Pass 2) → (after.1 ≡ me.1)
        × (after.0.mine ≡ me.0.mine ++ Trim 2 st.word ∷ []) }
    ensures test { (st : Step (Unit {0})) (me after : Sitter) (n : ℕ)
        → test_told st me n after → 3 < me.0.numbers.blocks
        → st.word ≡ pin_index me.0.numbers 3 → (after.1 ≡ me.1) × Tested me.0 3 n after.0 }
    ensures tested_free { (v w : View) (n : ℕ) → (h : Tested v 3 n w)
        → h.state.phase ≡ phase.Free → (w ≡ v) × FitsPin h.state × (n ≡ pin_word h.state) }
    ensures tested_taken { (v w : View) (n : ℕ) → (h : Tested v 3 n w)
        → h.state.phase ≡ phase.Open → (w.denied ≡ v.denied ++ 3 ∷ []) × (w.taken ≡ v.taken)
        × (w.owns ≡ v.owns) }
    ensures take { (st : Step (Unit {0})) (me after : Sitter) → take_told st me 0 after
        → 3 < me.0.numbers.blocks → st.word ≡ pin_index me.0.numbers 3
        → (after.1 ≡ me.1) × (0 < me.0.numbers.endurance) }
    ensures put { (st : Step (Unit {0})) (me after : Sitter) (n : ℕ) (o : Owned)
        → put_told st me n after → CanPut me.0 o
        → st.word ≡ page_index me.0.numbers o.block o.written + length (words_in me.0.work o)
        → (after.1 ≡ me.1)
        × (after.0.work ≡ Some (record { page = next_page o; words = words_in me.0.work o ++ st.first ∷ [] })) }
    ensures get { (st : Step (Unit {0})) (me after : Sitter) (n : ℕ) (m : MapWord) (x : List ℕ)
        → get_told st me n after → me.0.pin ≡ pin.Accepted m x
        → 1 < me.0.numbers.words → st.word ≡ page_index me.0.numbers m.block m.page + 1
        → (after ≡ me) × (n ≡ data_word x 1) }
    ensures get_stays { (st : Step (Unit {0})) (me after : Sitter) (n : ℕ)
        → get_told st me n after → after ≡ me }
    ensures get_spared { (st : Step (Unit {0})) (me after : Sitter) (n : ℕ) (m : MapWord)
        (x : List ℕ) (c : Carried) → get_told st me n after → me.0.pin ≡ pin.Accepted m x
        → me.0.copy ≡ Some c → ¬ (me.0.role ≡ seat.Player c.of) }
    ensures count { (st : Step (Unit {0})) (me after : Sitter) (n : ℕ) (o : Owned) (k : Work)
        → count_told st me n after → CanCount me.0 o k
        → st.word ≡ pin_index me.0.numbers o.block → (after.1 ≡ me.1)
        × (after.0.programs ≡ me.0.programs ++ k.page ∷ [])
        × (after.0.owns ≡ record o { written = o.written + 1 } ∷ without o.block me.0.owns) }
    ensures close { (st : Step (Unit {0})) (me after : Sitter) (n : ℕ) (o : Owned)
        → close_told st me n after → CanClose me.0 o
        → st.word ≡ pin_index me.0.numbers o.block → (after.1 ≡ me.1) × (after.0.ceded ≡ me.0.ceded ++ record o { phase = phase.Closed } ∷ [])
        × (after.0.work ≡ None) × (after.0.owns ≡ without o.block me.0.owns) }
    ensures pin { (st : Step (Unit {0})) (me after : Sitter) (n : ℕ) (m : MapWord) (x : List ℕ)
        → pin_told st me n after → me.0.pin ≡ pin.Candidate m x
        → st.word ≡ pin_index me.0.numbers m.block → (after.1 ≡ me.1)
        × (after.0.owns ≡ me.0.owns) × (after.0.seen ≡ me.0.seen) }
    ensures unpin { (st : Step (Unit {0})) (me after : Sitter) (n : ℕ)
        → unpin_told st me n after → me.0.pin ≡ pin.Stray 3
        → st.word ≡ pin_index me.0.numbers 3 → (after.1 ≡ me.1) × (after.0.pin ≡ pin.Clear) }
    ensures limits { (s : State (Unit {0}) View) → ¬ Ruled (numbers 0 3 1 1 1 1 0 0) s }
    ensures words { (s : State (Unit {0}) View)
        → Ruled (numbers 1 3 2 1 3 1 0 0) s → length s.words ≡ 18 }
{}

/// What a broom's steps on a page of its victim record: the stamp, the source, and the move to a copy.
pub fn moves_of_brooms()
    ensures look { (st : Step (Unit {0})) (me after : Sitter)
        → broom_look_told st me 0 after → (after.1 ≡ me.1)
        × (after.0.named ≡ me.0.named ++ (st.word, 0) ∷ [])
        × (held me.0.numbers.sectors after.0.seen st.word ≡ None) }
    ensures named { (v w : View) (x : Source) → v.source ≡ Some x → x.stamp ≡ 3
        → Named v 3 0 w → ¬ (0 ≡ map_word x.page) → (w.source ≡ None)
        × (w.cleared ≡ v.cleared + 1) × (w.mine ≡ v.mine) }
    ensures named_page { (v w : View) (n : ℕ) → Named v 3 n w → ¬ (n ≡ 0)
        → (m : MapWord) × (x : List ℕ) × (n ≡ map_word m) × FitsMap m
        × (held v.numbers.sectors w.seen 3 ≡ Some x) }
    ensures named_later { (v w : View) (n : ℕ)
        → Named v 3 n w → Begins v.seen w.seen × AreOfHosts v.numbers w.seen }
    ensures named_live { (v w : View) (x : Source) (y : List ℕ)
        → v.source ≡ Some x → x.stamp ≡ 3
        → Named v 3 (map_word x.page) w → held v.numbers.sectors w.seen 3 ≡ Some y
        → (w.source ≡ Some (record x { value = Some y })) × (w.cleared ≡ v.cleared) }
    ensures named_other { (v w : View) (x : Source) (n : ℕ)
        → v.source ≡ None → Named v 3 n w → (w.source ≡ None) × (w.cleared ≡ v.cleared) }
    ensures named_met { (v w : View) (n : ℕ) (c : Carried)
        → Named v 3 n w → v.copy ≡ Some c → Met w c }
    ensures stamp { (st : Step (Unit {0})) (me after : Sitter) (o : Owned)
        → me.0.numbers.sectors ≡ 6 → stamp_told st me 6 after → CanGetStamp me.0 o
        → st.word ≡ page_index me.0.numbers o.block me.0.cleared + me.0.numbers.words
        → (after.1 ≡ me.1) × (after.0.source ≡ None)
        × (after.0.cleared ≡ me.0.cleared + 1) }
    ensures source { (st : Step (Unit {0})) (me after : Sitter) (n : ℕ) (x : Source) (v : List ℕ)
        → source_told st me n after → me.0.source ≡ Some x
        → x.value ≡ Some v → 1 < me.0.numbers.words
        → st.word ≡ page_index me.0.numbers x.page.block x.page.page + 1
        → (after ≡ me) × (n ≡ data_word v 1) }
    ensures inspect { (st : Step (Unit {0})) (me after : Sitter) (n : ℕ) (p : PinWord)
        → inspect_told st me n after → CanInspect me.0 3 p st.word
        → (after.1 ≡ me.1) × Inspected me.0 3 p.generation st.word n after.0 }
    ensures inspected { (v w : View) → (h : Inspected v 3 1 4 0 w) → h.found ≡ None
        → w ≡ record v { inspection = Some (an_inspection 3 1 5) } }
    ensures inspected_live { (v w : View) (n : ℕ) → (h : Inspected v 3 1 4 n w)
        → h.found ≡ Some (a_page 1 3 2) → (w.named ≡ v.named ++ (4, n) ∷ [])
        × (w.inspection ≡ v.inspection) × (n ≡ map_word (a_page 1 3 2)) }
    ensures inspected_other { (v w : View) (n : ℕ) → (h : Inspected v 3 1 4 n w)
        → h.found ≡ Some (a_page 2 3 2) → (w.named ≡ v.named)
        × (w.inspection ≡ Some (an_inspection 3 1 5)) }
    ensures can_inspect { (v : View) (p : PinWord) (s : ℕ) → CanInspect v 3 p s
        → (p.phase ≡ phase.Closed) × FitsPin p × (3 < v.numbers.blocks)
        × (s ≤ inspected_in v.inspection 3 p.generation) }
    ensures not_from_the_middle { (v : View) (p : PinWord)
        → v.inspection ≡ None → ¬ CanInspect v 3 p 1 }
    ensures of_another_block { (v : View) (p : PinWord)
        → v.inspection ≡ Some (an_inspection 2 p.generation 5) → ¬ CanInspect v 3 p 1 }
    ensures loaded_last { (v : View) (p : PinWord) → v.loaded ≡ [] → ¬ CanInspect v 3 p 0 }
    ensures cannot_move { (v : View) (x : Source) (m : MapWord)
        → (v.source ≡ None → ¬ CanMove v x m) × (x.value ≡ None → ¬ CanMove v x m) }
    ensures moves { (st : Step (Unit {0})) (me after : Sitter) (x : Source) (m : MapWord)
        → move_told st me (map_word x.page) after → CanMove me.0 x m
        → FitsMap x.page → FitsMap m → st.word ≡ x.stamp
        → st.first ≡ map_word x.page → st.second ≡ map_word m → (after.1 ≡ me.1)
        × (after.0.moves ≡ me.0.moves + 1) × (after.0.cleared ≡ me.0.cleared + 1) }
{}

/// What a broom's steps on the word of a block record.
pub fn steps_of_brooms()
    ensures state { (st : Step (Unit {0})) (me after : Sitter) (n : ℕ)
        → state_told st me n after → 3 < me.0.numbers.blocks
        → st.word ≡ pin_index me.0.numbers 3 → (after.1 ≡ me.1) × Loaded me.0 3 n after.0 }
    ensures loaded_state { (v w : View) (n : ℕ) → (h : Loaded v 3 n w)
        → FitsPin h.state × (h.state.generation < v.numbers.endurance)
        × (h.state.written ≤ v.numbers.pages) × (n ≡ pin_word h.state) }
    ensures loaded { (v w : View) (n : ℕ) → (h : Loaded v 3 n w)
        → h.state.phase ≡ phase.Drained → h.state.readers ≡ 1 → (w.busy ≡ v.busy ++ 3 ∷ [])
        × (w.stale ≡ v.stale) × (w.loaded ≡ v.loaded ++ (3, n) ∷ []) }
    ensures loaded_unread { (v w : View) (n : ℕ) → (h : Loaded v 3 n w)
        → h.state.phase ≡ phase.Drained → h.state.readers ≡ 0 → (w.busy ≡ v.busy)
        × (w.stale ≡ v.stale) }
    ensures loaded_stale { (v w : View) (n : ℕ) → (h : Loaded v 3 n w)
        → h.state.phase ≡ phase.Closed → (w.busy ≡ v.busy) × (w.stale ≡ v.stale ++ 3 ∷ []) }
    ensures claim { (st : Step (Unit {0})) (me after : Sitter) (p : PinWord)
        → claim_told st me (pin_word p) after → CanClaim me.0 3 p
        → st.word ≡ pin_index me.0.numbers 3 → st.first ≡ pin_word p
        → (after.1 ≡ me.1) × (after.0.cleared ≡ 0)
        × (after.0.owns ≡ owned_as 3 p phase.Victim ∷ without 3 me.0.owns) }
    ensures lost { (st : Step (Unit {0})) (me after : Sitter) (p : PinWord) (n : ℕ)
        → claim_told st me n after → ¬ (n ≡ pin_word p) → CanClaim me.0 3 p
        → st.word ≡ pin_index me.0.numbers 3 → st.first ≡ pin_word p
        → (after.0.lost ≡ me.0.lost ++ 3 ∷ []) × (after.0.owns ≡ me.0.owns) }
    ensures condemn { (st : Step (Unit {0})) (me after : Sitter) (p : PinWord)
        → condemn_told st me (pin_word p) after → CanCondemn me.0 3 p
        → st.word ≡ pin_index me.0.numbers 3 → st.first ≡ pin_word p
        → (after.1 ≡ me.1) × (after.0.wiped ≡ 0)
        × (after.0.erases ≡ me.0.erases ++ record { block = 3; generation = p.generation } ∷ []) }
    ensures drain { (st : Step (Unit {0})) (me after : Sitter) (n : ℕ) (o : Owned)
        → drain_told st me n after → CanDrain me.0 o
        → st.word ≡ pin_index me.0.numbers o.block → (after.1 ≡ me.1)
        × (after.0.drains ≡ me.0.drains ++ cycle_of o ∷ [])
        × (after.0.ceded ≡ me.0.ceded ++ record o { phase = phase.Drained } ∷ []) × (after.0.owns ≡ without o.block me.0.owns) }
    ensures wipe { (st : Step (Unit {0})) (me after : Sitter) (n : ℕ) (o : Owned)
        → wipe_told st me n after → CanWipe me.0 o
        → st.word ≡ page_index me.0.numbers o.block 0 + me.0.wiped
        → st.first ≡ blank_word → (after.1 ≡ me.1) × (after.0.wiped ≡ me.0.wiped + 1)
        × (after.0.owns ≡ me.0.owns) }
    ensures freed { (st : Step (Unit {0})) (me after : Sitter) (n : ℕ) (o : Owned)
        → freed_told st me n after → CanRenew me.0 o
        → st.word ≡ pin_index me.0.numbers o.block → (after.1 ≡ me.1)
        × (after.0.ceded ≡ me.0.ceded ++ record { block = o.block; phase = phase.Free; generation = o.generation + 1; written = 0 } ∷ [])
        × (after.0.owns ≡ without o.block me.0.owns) }
    ensures kept { (st : Step (Unit {0})) (me after : Sitter) (n : ℕ) (o : Owned)
        → kept_told st me n after → CanRenew me.0 o
        → st.word ≡ pin_index me.0.numbers o.block → (after.1 ≡ me.1)
        × (after.0.owns
        ≡ an_owned o.block phase.Open (o.generation + 1) 0 ∷ without o.block me.0.owns)
        × (after.0.ceded ≡ me.0.ceded) }
    ensures retired { (st : Step (Unit {0})) (me after : Sitter) (n : ℕ) (o : Owned)
        → retired_told st me n after → CanRetire me.0 o
        → st.word ≡ pin_index me.0.numbers o.block → (after.1 ≡ me.1) × (after.0.ceded ≡ me.0.ceded ++ record o { phase = phase.Retired } ∷ [])
        × (after.0.owns ≡ without o.block me.0.owns) }
{}
