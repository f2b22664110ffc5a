//! Laws of the steps of a seat at the table, in terms of its own blocks.
ghost use Rattle.std.specs.Prelude.{◌≡◌, ◌+◌, ◌<◌, ◌≤◌, ℕ, List, [], ◌∷◌, ◌++◌, Some, None, true, false};
ghost use Rattle.flash_rule.specs.{BroomPlays.IsLastLoaded, Plays.CanPlace, Plays.IsSettled, Views.sum_of, Views.without, declared.carried.Carried.Carried};
ghost use Rattle.flash_rule.specs.declared.{facts.Owned.Owned, facts.Source.Source, view.View.View};
ghost use Rattle.flash_rule.specs.declared.facts.Name.TheVariants as name;
ghost use Rattle.flash_rule.specs.declared.facts.Pin.TheVariants as pin;
ghost use Rattle.flash_rule.specs.declared.facts.Role.TheVariants as seat;
ghost use Rattle.flash_table.specs.Erasing.{CanLiveOn, CondemnTold, IsErasing, IsLastErase, IsUnread, words_in_block};
ghost use Rattle.flash_table.specs.Flash.{IsBroomOf, IsNoteOf, IsPassOf, broom_view, device, first_blocks, note_view, opened_of, own_blocks, view_of};
ghost use Rattle.flash_table.specs.GivingUp.{closed_broom, closed_pass, left_closed, left_drained, left_free, left_retired};
ghost use Rattle.flash_table.specs.{Steps.InspectTold, Owning.OwnsJust, Owning.blocks_list, Owning.owned_list, Taking.SpareTold};
ghost use Rattle.flash_table.specs.Steps.{CanGiveUp, HasInspected, HasNumber, HasOneMore, HasPut, IsBack, IsClaimed, IsCleared, IsFilled, IsNewBroom};
ghost use Rattle.flash_table.specs.Steps.{IsNewPass, IsNextWord, IsOfVictim, IsSpared, MoveTold, NowDrains, PinTold, PlaceTold, StampTold, TakeTold};
ghost use Rattle.flash_table.specs.declared.{broom_seat.BroomBlocks.BroomBlocks, broom_seat.BroomSeat.BroomSeat, flash.Flash.Flash, pass.Note.Note};
ghost use Rattle.flash_table.specs.declared.pass.{OpenBlock.OpenBlock, Pass.Pass};
ghost use Rattle.flash_table.specs.declared.broom_seat.Reclaiming.TheVariants as reclaiming;
ghost use Rattle.geometry.specs.{Geometry.blocks_of, Geometry.pages_of, History.Trim, Limits.numbers, Words.FitsMap, Words.map_word, Words.pin_word};
ghost use Rattle.geometry.specs.declared.{answer.Was.Was, geometry.Geometry.Geometry, words.MapWord.MapWord, words.PinWord.PinWord};
ghost use Rattle.geometry.specs.declared.words.Phase.TheVariants as phase;
ghost use Rattle.uses.specs.Sharing.{HasNoErase};
ghost use Rattle.laws.specs.{Brooms.a_page, Blocks.a_state};
ghost use Rattle.laws.specs.Steps.{a_cycle, a_reclaimed, an_inspection, an_open, an_owned, some_blocks};

pub(crate) mod queues;
pub(crate) mod rules;
pub(crate) mod volumes;

/// How a seat's blocks are listed, and what its view becomes when it gives them up.
pub fn blocks_of_a_seat()
    ensures none { owned_list None ≡ [] }
    ensures one { owned_list (Some (an_open 3 1 2)) ≡ an_owned 3 phase.Open 1 2 ∷ [] }
    ensures order { blocks_list some_blocks
        ≡ an_owned 3 phase.Open 1 2 ∷ an_owned 4 phase.Open 0 0 ∷ an_owned 5 phase.Victim 2 4 ∷ [] }
    ensures erasing { blocks_list
        (record { destination = None; spare = None; reclaiming = reclaiming.Erasing (a_reclaimed 5 2 4) })
        ≡ an_owned 5 phase.Erasing 2 4 ∷ [] }
    ensures just { OwnsJust (an_owned 3 phase.Open 1 2 ∷ []) (an_owned 3 phase.Open 1 2 ∷ []) }
    ensures twice { (o : Owned) (owns : List Owned)
        → ¬ OwnsJust (an_owned 3 phase.Open 1 2 ∷ an_owned 3 phase.Open 1 2 ∷ []) owns }
    ensures others { ¬ OwnsJust [] (an_owned 3 phase.Open 1 2 ∷ []) }
    ensures closed { (v : View)
        → ((left_closed v (an_open 3 1 2)).ceded ≡ v.ceded ++ an_owned 3 phase.Closed 1 2 ∷ [])
        × ((left_closed v (an_open 3 1 2)).work ≡ None)
        × ((left_closed v (an_open 3 1 2)).owns ≡ without 3 v.owns) }
    ensures drained { (v : View)
        → ((left_drained v (a_reclaimed 3 1 2)).ceded
        ≡ v.ceded ++ an_owned 3 phase.Drained 1 2 ∷ [])
        × ((left_drained v (a_reclaimed 3 1 2)).drains ≡ v.drains ++ a_cycle 3 1 ∷ [])
        × ((left_drained v (a_reclaimed 3 1 2)).owns ≡ without 3 v.owns) }
    ensures freed { (v : View)
        → ((left_free v (a_reclaimed 3 1 2)).ceded ≡ v.ceded ++ an_owned 3 phase.Free 2 0 ∷ [])
        × ((left_free v (a_reclaimed 3 1 2)).owns ≡ without 3 v.owns) }
    ensures retired { (v : View)
        → ((left_retired v (a_reclaimed 3 1 2)).ceded
        ≡ v.ceded ++ an_owned 3 phase.Retired 1 2 ∷ [])
        × ((left_retired v (a_reclaimed 3 1 2)).owns ≡ without 3 v.owns) }
    ensures kept { (v : View) → ((left_free v (a_reclaimed 3 1 2)).seen ≡ v.seen)
        × ((left_retired v (a_reclaimed 3 1 2)).erases ≡ v.erases)
        × ((left_closed v (an_open 3 1 2)).drains ≡ v.drains) }
    ensures pass { (v : View)
        → ((closed_pass v (Some (an_open 3 1 2))).ceded
        ≡ v.ceded ++ an_owned 3 phase.Closed 1 2 ∷ [])
        × ((closed_pass v (Some (an_open 3 1 2))).owns ≡ [])
        × ((closed_pass v None).ceded ≡ v.ceded ++ []) × ((closed_pass v None).work ≡ None) }
    ensures broom { (v : View)
        → (closed_broom v (record { destination = Some (an_open 3 1 2); spare = Some (an_open 4 0 0); reclaiming = reclaiming.Nothing })).ceded
        ≡ (v.ceded ++ an_owned 3 phase.Closed 1 2 ∷ []) ++ an_owned 4 phase.Closed 0 0 ∷ [] }
    ensures first { first_blocks (numbers 1 9 1 1 1 1 1 3) 1
        ≡ record { destination = None; spare = Some (an_open 7 0 0); reclaiming = reclaiming.Nothing } }
    ensures words { words_in_block (numbers 1 3 4 2 5 1 0 0) ≡ 12 }
{}

/// What an erase needs, and what its first step records.
pub fn erases_of_a_seat()
    ensures unread { (v : View) → v.loaded ≡ (3, pin_word (a_state 0 phase.Drained 2 1)) ∷ []
        → IsUnread v 3 (a_state 0 phase.Drained 2 1) }
    ensures read { (v : View) → (¬ IsUnread v 3 (a_state 1 phase.Drained 2 1))
        × (¬ IsUnread v 3 (a_state 0 phase.Closed 2 1)) }
    ensures unloaded { (v : View) (p : PinWord) → v.loaded ≡ [] → ¬ IsUnread v 3 p }
    ensures loaded_again { (v : View) → v.loaded ≡ (3, 7) ∷ (3, 8) ∷ [] → ¬ IsLastLoaded v 3 7 }
    ensures condemned { (s t : BroomSeat) → CondemnTold s 3 (a_state 0 phase.Drained 2 1) true t
        → ((broom_view t).erases ≡ (broom_view s).erases ++ a_cycle 3 1 ∷ [])
        × ((own_blocks t).reclaiming ≡ reclaiming.Erasing (a_reclaimed 3 1 2))
        × ((broom_view t).wiped ≡ 0)
        × ((broom_view t).owns ≡ an_owned 3 phase.Erasing 1 2 ∷ without 3 (broom_view s).owns) }
    ensures busy { (s t : BroomSeat) (p : PinWord) → CondemnTold s 3 p false t
        → ((broom_view t).busy ≡ (broom_view s).busy ++ 3 ∷ [])
        × ((broom_view t).erases ≡ (broom_view s).erases) × (own_blocks t ≡ own_blocks s) }
    ensures erasing { (f : Flash) (s : BroomSeat)
        → (own_blocks s).reclaiming ≡ reclaiming.Erasing (a_reclaimed 2 0 4) → (device f).blocks ≡ 3
        → (device f).pages ≡ 4 → IsErasing f s (a_reclaimed 2 0 4) }
    ensures no_block { (f : Flash) (s : BroomSeat)
        → (device f).blocks ≡ 3 → ¬ IsErasing f s (a_reclaimed 3 0 0) }
    ensures too_many { (f : Flash) (s : BroomSeat)
        → (device f).pages ≡ 4 → ¬ IsErasing f s (a_reclaimed 0 0 5) }
    ensures draining { (f : Flash) (s : BroomSeat)
        → (own_blocks s).reclaiming ≡ reclaiming.Nothing → ¬ IsErasing f s (a_reclaimed 0 0 0) }
    ensures lives_on { (f : Flash) (s : BroomSeat) → CanLiveOn f s (a_reclaimed 2 0 4)
        → words_in_block (device f) ≤ (broom_view s).wiped }
    ensures last_life { (f : Flash) (s : BroomSeat)
        → (device f).endurance ≡ 2 → ¬ CanLiveOn f s (a_reclaimed 2 1 4) }
    ensures not_its { (f : Flash) (s : BroomSeat)
        → (own_blocks s).reclaiming ≡ reclaiming.Nothing → (¬ CanLiveOn f s (a_reclaimed 0 0 0))
        × (¬ IsLastErase f s (a_reclaimed 0 0 0)) }
    ensures last { (f : Flash) (s : BroomSeat) → IsErasing f s (a_reclaimed 2 1 4)
        → (device f).endurance ≡ 2 → IsLastErase f s (a_reclaimed 2 1 4) }
    ensures not_last { (f : Flash) (s : BroomSeat)
        → (device f).endurance ≡ 2 → ¬ IsLastErase f s (a_reclaimed 2 0 4) }
{}

/// Which seats are those of a device, and what a new one has.
pub fn seats_of_a_device()
    ensures pass { (f : Flash) (p : Pass) → IsPassOf f p → (view_of p).numbers ≡ device f }
    ensures no_pass { (f : Flash) (p : Pass)
        → (view_of p).role ≡ seat.Player (name.Broom 0) → ¬ IsPassOf f p }
    ensures broom { (f : Flash) (s : BroomSeat)
        → IsBroomOf f s → (broom_view s).numbers ≡ device f }
    ensures no_broom { (f : Flash) (s : BroomSeat)
        → (broom_view s).role ≡ seat.Player (name.Pass 0) → ¬ IsBroomOf f s }
    ensures no_note { (f : Flash) (n : Note) → (note_view n).role ≡ seat.Gone → ¬ IsNoteOf f n }
    ensures new_pass { (f : Flash) (p : Pass) → IsNewPass f 2 p
        → ((view_of p).role ≡ seat.Player (name.Pass 2)) × ((view_of p).seen ≡ [])
        × ((view_of p).programs ≡ []) }
    ensures one_table { (f : Flash) (p : Pass) (s : BroomSeat) (n : Note)
        → (IsPassOf f p → p.seat.table_id ≡ f.table.shared.table_id)
        × (IsBroomOf f s → s.seat.table_id ≡ f.table.shared.table_id)
        × (IsNoteOf f n → n.seat.table_id ≡ f.table.shared.table_id) }
    ensures new_here { (f : Flash) (p : Pass) (s : BroomSeat)
        → (IsNewPass f 2 p → IsPassOf f p) × (IsNewBroom f 2 s → IsBroomOf f s) }
    ensures opened_pass { (f : Flash) (p : Pass) (o : OpenBlock)
        → opened_of p ≡ Some o → ¬ IsNewPass f 2 p }
    ensures new_broom { (f : Flash) (s : BroomSeat) → IsNewBroom f 2 s
        → ((broom_view s).role ≡ seat.Player (name.Broom 2))
        × ((own_blocks s).destination ≡ None)
        × ((own_blocks s).reclaiming ≡ reclaiming.Nothing) × ((broom_view s).drains ≡ []) }
    ensures no_spare { (f : Flash) (s : BroomSeat)
        → (own_blocks s).spare ≡ None → ¬ IsNewBroom f 2 s }
    ensures back { (v note : View) (c : Carried) → v.role ≡ seat.Player (name.Pass 0)
        → note.guest ≡ Some (name.Pass 0) → note.copy ≡ Some c
        → c.of ≡ name.Pass 1 → IsBack v note }
    ensures not_sent { (v note : View) → (note.copy ≡ None → ¬ IsBack v note)
        × (note.guest ≡ None → ¬ IsBack v note) }
    ensures own { (v note : View) (c : Carried) → v.role ≡ seat.Player c.of
        → note.copy ≡ Some c → ¬ IsBack v note }
    ensures other_guest { (v note : View) → v.role ≡ seat.Player (name.Pass 0)
        → note.guest ≡ Some (name.Pass 1) → ¬ IsBack v note }
{}

/// What a seat needs to fill a page of its open block, and what it records.
pub fn words_of_an_open_block()
    ensures took { (v w : View) (o : OpenBlock) → TakeTold v 3 true w (Some o)
        → (o.block ≡ 3) × (o.written ≡ 0) × (o.generation < v.numbers.endurance)
        × (w.taken ≡ v.taken + 1) × (w.denied ≡ v.denied) }
    ensures took_none { (v w : View) → ¬ TakeTold v 3 true w None }
    ensures denied { (v w : View) → TakeTold v 3 false w None
        → (w.denied ≡ v.denied ++ 3 ∷ []) × (w.taken ≡ v.taken) × (w.owns ≡ v.owns) }
    ensures denied_one { (v w : View) (o : OpenBlock) → ¬ TakeTold v 3 false w (Some o) }
    ensures spare { (v w : View) (x y : BroomBlocks) → (h : SpareTold v x 3 true w y)
        → (y.spare ≡ Some (an_open 3 h.generation 0))
        × (y.destination ≡ x.destination) × (h.generation < v.numbers.endurance)
        × (w.owns ≡ an_owned 3 phase.Open h.generation 0 ∷ v.owns) }
    ensures no_spare { (v w : View) (x y : BroomBlocks) → SpareTold v x 3 false w y
        → (y ≡ x) × (w.denied ≡ v.denied ++ 3 ∷ []) × (w.owns ≡ v.owns) }
    ensures placed { (p q : Pass) (m : MapWord) (x : List ℕ) (a : Was)
        → PlaceTold (λ t x. Trim t 5) p 5 m a q → HasNumber 2 p → CanPlace (view_of p) 5 m x
        → (view_of q).mine ≡ (view_of p).mine ++ Trim 2 5 ∷ [] }
    ensures next_word { (g : Geometry) (v : View) → v.work ≡ None
        → ¬ IsNextWord g v (Some (an_open 0 0 0)) 1 }
    ensures next_none { (g : Geometry) (v : View) → ¬ IsNextWord g v None 0 }
    ensures next_full { (g : Geometry) (v : View) → v.numbers.pages ≡ 2
        → ¬ IsNextWord g v (Some (an_open 0 0 2)) 0 }
    ensures next_outside { (g : Geometry) (v : View) → blocks_of g ≡ 3
        → ¬ IsNextWord g v (Some (an_open 3 0 0)) 0 }
    ensures put { (v w : View) → v.work ≡ None → HasPut v (Some (an_open 3 1 2)) 7 w
        → w ≡ record v { work = Some (record { page = a_page 1 3 2; words = 7 ∷ [] }) } }
    ensures put_none { (v w : View) → HasPut v None 7 w }
    ensures filled { (g : Geometry) (v : View) → (¬ IsFilled g v None)
        × (v.work ≡ None → ¬ IsFilled g v (Some (an_open 0 0 0))) }
    ensures filled_full { (g : Geometry) (v : View)
        → pages_of g ≡ 2 → ¬ IsFilled g v (Some (an_open 0 0 2)) }
    ensures filled_outside { (g : Geometry) (v : View)
        → blocks_of g ≡ 3 → ¬ IsFilled g v (Some (an_open 3 0 0)) }
    ensures one_more { (x y : BroomBlocks) → x.destination ≡ Some (an_open 3 1 2)
        → HasOneMore x y → (y.destination ≡ Some (an_open 3 1 3))
        × (y.spare ≡ x.spare) }
    ensures given_up { (g : Geometry) (v : View) (o : OpenBlock)
        → CanGiveUp g v (Some o) → IsSettled v }
    ensures not_given_up { (g : Geometry) (v : View) → (¬ CanGiveUp g v None)
        × (blocks_of g ≡ 3 → ¬ CanGiveUp g v (Some (an_open 3 0 0))) }
{}

/// What a pin, a claim and the steps on a victim record.
pub fn pins_and_victims_of_a_seat()
    ensures pinned { (v w : View) (x : List ℕ)
        → v.pin ≡ pin.Candidate (a_page 1 3 2) x → PinTold v (a_page 1 3 2) true w
        → (w.pin ≡ pin.Accepted (a_page 1 3 2) x) × (w.known ≡ v.known) }
    ensures strayed { (v w : View) (x : List ℕ) → v.pin ≡ pin.Candidate (a_page 1 3 2) x
        → PinTold v (a_page 1 3 2) false w → (w.pin ≡ pin.Stray 3)
        × (sum_of v.known < sum_of w.known) }
    ensures spared { (v : View) (x : List ℕ) (c : Carried) (m : MapWord)
        → v.pin ≡ pin.Accepted m x → v.copy ≡ Some c → IsSpared v m → HasNoErase c.erases m }
    ensures claimed { (v w : View) → IsClaimed v 3 (a_state 0 phase.Closed 2 1) w
        → (w.owns ≡ an_owned 3 phase.Victim 1 2 ∷ without 3 v.owns)
        × (w.cleared ≡ 0) × (w.lost ≡ v.lost) }
    ensures drains { (x y : BroomBlocks) → NowDrains x 3 (a_state 0 phase.Closed 2 1) y
        → (y.reclaiming ≡ reclaiming.Draining (a_reclaimed 3 1 2))
        × (y.spare ≡ x.spare) × (y.destination ≡ x.destination) }
    ensures cleared { (g : Geometry) (v : View) (x : BroomBlocks)
        → x.reclaiming ≡ reclaiming.Draining (a_reclaimed 2 0 4) → blocks_of g ≡ 3
        → v.cleared ≡ 4 → IsCleared g v x }
    ensures not_cleared { (g : Geometry) (v : View) (x : BroomBlocks)
        → x.reclaiming ≡ reclaiming.Draining (a_reclaimed 2 0 4) → v.cleared ≡ 3
        → ¬ IsCleared g v x }
    ensures inspected { (g : Geometry) (v : View) (x : BroomBlocks)
        → x.reclaiming ≡ reclaiming.Draining (a_reclaimed 2 1 4) → blocks_of g ≡ 3
        → v.source ≡ None → v.numbers.sectors ≡ 6
        → v.inspection ≡ Some (an_inspection 2 1 6) → HasInspected g v x }
    ensures inspected_before { (g : Geometry) (v : View) (x : BroomBlocks)
        → x.reclaiming ≡ reclaiming.Draining (a_reclaimed 2 1 4) → v.numbers.sectors ≡ 6
        → (v.inspection ≡ Some (an_inspection 2 0 6) → ¬ HasInspected g v x)
        × (v.inspection ≡ Some (an_inspection 2 1 5) → ¬ HasInspected g v x)
        × (v.inspection ≡ None → ¬ HasInspected g v x) }
    ensures inspected_of { (g : Geometry) (v : View) (x : BroomBlocks)
        → (x.reclaiming ≡ reclaiming.Erasing (a_reclaimed 2 1 4) → ¬ HasInspected g v x)
        × (x.reclaiming ≡ reclaiming.Draining (a_reclaimed 3 1 4)
        → blocks_of g ≡ 3 → ¬ HasInspected g v x) }
    ensures inspects { (v w : View) → InspectTold v 3 1 4 false w
        → (w.inspection ≡ Some (an_inspection 3 1 5)) × (w.named ≡ v.named) }
    ensures stops { (v w : View) → (h : InspectTold v 3 1 4 true w)
        → (h.page.block ≡ 3) × (h.page.generation ≡ 1) × FitsMap h.page
        × (w.named ≡ v.named ++ (4, map_word h.page) ∷ []) × (w.inspection ≡ v.inspection) }
    ensures erased { (g : Geometry) (v : View) (x : BroomBlocks)
        → x.reclaiming ≡ reclaiming.Erasing (a_reclaimed 2 0 0) → (¬ IsCleared g v x)
        × (¬ IsOfVictim g x 0) }
    ensures of_victim { (g : Geometry) (x : BroomBlocks)
        → x.reclaiming ≡ reclaiming.Draining (a_reclaimed 2 0 4)
        → blocks_of g ≡ 3 → IsOfVictim g x 3 }
    ensures unwritten { (g : Geometry) (x : BroomBlocks)
        → x.reclaiming ≡ reclaiming.Draining (a_reclaimed 2 0 4) → ¬ IsOfVictim g x 4 }
    ensures stamp { (v w : View) (x : BroomBlocks)
        → x.reclaiming ≡ reclaiming.Draining (a_reclaimed 2 1 4)
        → v.numbers.sectors ≡ 6 → v.cleared ≡ 3
        → StampTold v x 5 w → w.source ≡ Some (record { page = a_page 1 2 3; stamp = 5; value = None }) }
    ensures no_sector { (v w : View) (x : BroomBlocks)
        → x.reclaiming ≡ reclaiming.Draining (a_reclaimed 2 1 4)
        → v.numbers.sectors ≡ 6 → StampTold v x 6 w
        → (w.source ≡ None) × (w.cleared ≡ v.cleared + 1) }
    ensures moved { (v w : View) (x : Source) → v.source ≡ Some x
        → MoveTold v true w → (w.moves ≡ v.moves + 1) × (w.source ≡ None)
        × (w.cleared ≡ v.cleared + 1) }
    ensures not_moved { (v w : View) (x : Source) → v.source ≡ Some x
        → MoveTold v false w → (w.moves ≡ v.moves) × (w.cleared ≡ v.cleared + 1) }
{}
