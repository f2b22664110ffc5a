//! Laws of what the calls of passes and brooms record at a volume.
ghost use Rattle.std.specs.Prelude.{◌≡◌, ◌<◌, ℕ, Bool, is_some, List, [], ◌∷◌, ◌++◌, Some, None, Ok, Err, false, true, length, slice_index_or};
ghost use Rattle.broom.specs.{Handing.HandsNothing, Handing.IsBelow, Handing.IsQueued, Handing.aside_of, Handing.place_of, declared.broom.Broom.Broom};
ghost use Rattle.broom.specs.Ready.{AreMarked, HasNoMarks, IsReady, IsRested, IsSameSeat, blocks_of_broom, marks_of, view_of_broom};
ghost use Rattle.broom.specs.Meeting as broom;
ghost use Rattle.broom.specs.Survey.{Ranks};
ghost use Rattle.broom.specs.declared.answer.Drain.TheVariants as drain;
ghost use Rattle.erase_queue.specs.Queue as queue;
ghost use Rattle.erase_queue.specs.{Queue.IsNewPass, Queue.limit_of, declared.queue.EraseQueue.EraseQueue};
ghost use Rattle.flash_rule.specs.{Views.AreOfHosts, Views.calls_of, declared.carried.Carried.Carried, declared.view.View.View};
ghost use Rattle.flash_rule.specs.declared.facts.Name.TheVariants as name;
ghost use Rattle.flash_rule.specs.declared.facts.Pin.TheVariants as pin;
ghost use Rattle.flash_rule.specs.declared.facts.Role.TheVariants as seat;
ghost use Rattle.flash_table.specs.Flash.{IsPassOf, broom_view, device, first_blocks, first_broom, own_blocks, view_of, geometry_of};
ghost use Rattle.flash_table.specs.{Steps.HasNumber, declared.broom_seat.BroomSeat.BroomSeat, declared.flash.Flash.Flash, declared.pass.Pass.Pass};
ghost use Rattle.geometry.specs.{Geometry.blocks_of, Geometry.pages_of, Geometry.sectors_of, Limits.Numbers, Sectors.Sector, declared.answer.Was.Was};
ghost use Rattle.geometry.specs.{History.Call, History.Begins, History.WriteNew, History.after, History.held, declared.words.MapWord.MapWord};
ghost use Rattle.geometry.specs.declared.answer.Was.TheVariants as was;
ghost use Rattle.host.specs.Holding.{Found, Holds, IsSpared, addr_of, page_in, page_of, pass_of};
ghost use Rattle.host.specs.{Told.WroteNew, Told.was_found, declared.holding.Held.Held};
ghost use Rattle.host.specs.declared.holding.Holding.TheVariants as holding;
ghost use Rattle.host.specs.declared.writing_new.NewFault.TheVariants as new_fault;
ghost use Rattle.uses.specs.Sharing.{HasNoErase};
ghost use Rattle.volume.specs.Volume as volume_brooms;
ghost use Rattle.volume.specs.Closing.{AreAll, AreFinal, AreRead, HasLeft, HaveLooked, IsFinal, last_view, sectors_left};
ghost use Rattle.volume.specs.{Correct.Does, Correct.IsWritten, Correct.Look, Correct.Read, Correct.Replaced, Correct.Trim, Undisturbed.IsUndisturbed};
ghost use Rattle.volume.specs.{declared.closing.Closed.Closed, Volume.flash_of, Volume.queue_of, declared.volume.Volume.Volume};
ghost use Rattle.laws.specs.{Blocks.at, Brooms.a_page, Steps.FilledOne};
ghost use Rattle.geometry.specs.History as call;

/// What a hold of a page says.
pub fn holds_of_pages()
    ensures address { addr_of (a_page 1 2 3) ≡ at 2 3 }
    ensures pages { (page_in (at 2 3) 1 ≡ a_page 1 2 3)
        × (broom.page_in (at 2 3) 1 ≡ a_page 1 2 3) }
    ensures spared { (h : Held) (c : Carried) → IsSpared h
        → (view_of (pass_of h)).copy ≡ Some c → HasNoErase c.erases (page_of h) }
    ensures found_held { (f : Flash) (v : View) (h : Held)
        → Found f v 3 (holding.Held h) → (x : List ℕ) × Holds f h x
        × (held (sectors_of (geometry_of f)) (view_of (pass_of h)).seen 3 ≡ Some x) }
    ensures found_none { (f : Flash) (v : View) (p : Pass) (x : List ℕ)
        → held (sectors_of (geometry_of f)) (view_of p).seen 3 ≡ Some x
        → ¬ Found f v 3 (holding.Empty p) }
    ensures undisturbed { (f : Flash) (h k : Held) (x : List ℕ)
        → IsUndisturbed f h None k → Holds f h x → (page_of k ≡ page_of h) × Holds f k x }
    ensures no_erase { (f : Flash) (h k : Held) (c : Carried) (x : List ℕ)
        → IsUndisturbed f h (Some c) k → Holds f h x → HasNoErase c.erases (page_of k) }
    ensures new_found { (was_found {X = ℕ} (Ok 0) ≡ Some was.Empty)
        × (was_found {X = ℕ} (Err new_fault.Written) ≡ Some was.Written)
        × (was_found {X = ℕ} (Err new_fault.NoBlock) ≡ None) }
    ensures new_mine { (v w : View) (t s : ℕ) (x : List ℕ) (a : Was)
        → WroteNew v t s x a w → (w.mine ≡ v.mine ++ WriteNew t s x ∷ []) × FilledOne v w }
    ensures pinned { (f : Flash) (p : Pass) (m : MapWord) (x : List ℕ)
        → broom.IsPinned f p m x → ((view_of p).pin ≡ pin.Accepted m x)
        × (m.block < blocks_of (geometry_of f)) × (m.page < pages_of (geometry_of f)) }
    ensures pinned_here { (f : Flash) (p : Pass) (m : MapWord) (x : List ℕ)
        → broom.IsPinned f p m x → IsPassOf f p }
    ensures lent { (f : Flash) (p : Pass) (m : MapWord) (x : List ℕ)
        → (view_of p).whole ≡ false → ¬ broom.IsPinned f p m x }
    ensures visited { (f : Flash) (p : Pass) (m : MapWord) (x : List ℕ)
        → (view_of p).guest ≡ Some (name.Pass 1) → ¬ broom.IsPinned f p m x }
    ensures unpinned { (f : Flash) (p : Pass) (m : MapWord) (x : List ℕ)
        → (view_of p).pin ≡ pin.Clear → ¬ broom.IsPinned f p m x }
{}

/// What a broom between two calls is, and what a turn leaves.
pub fn brooms_between_calls()
    ensures marks { (b : Broom) → (marks_of b ≡ [] → HasNoMarks b)
        × (marks_of b ≡ true ∷ [] → ¬ HasNoMarks b) }
    ensures same_seat { (s t : BroomSeat) → IsSameSeat s t
        → (broom_view t ≡ broom_view s) × (own_blocks t ≡ own_blocks s) }
    ensures seat_itself { (s : BroomSeat) → IsSameSeat s s }
    ensures seat_rests { (f : Flash) (s t : BroomSeat)
        → IsSameSeat s t → IsRested f s → IsRested f t }
    ensures below { IsBelow 3 (drain.Drained 2 9)
        × IsBelow 3 drain.Lost × (¬ IsBelow 3 (drain.Drained 3 0)) }
    ensures surveys { (f : Flash) (b : Broom) → IsReady f b
        → (length b.states.items ≡ blocks_of (geometry_of f))
        × (length b.counts.items ≡ blocks_of (geometry_of f))
        × (length b.closed.items ≡ blocks_of (geometry_of f)) }
    ensures marked { (f : Flash) (b : Broom) → IsReady f b
        → AreMarked (device f) (view_of_broom b) b.states.items b.closed.items
        × Ranks b.counts.items b.closed.items b.ranking }
    ensures queued { (q : EraseQueue) (b : Broom)
        → aside_of b ≡ Some (limit_of q) → ¬ IsQueued q b }
    ensures queued_here { (q : EraseQueue) (b : Broom)
        → IsQueued q b → queue.IsPassOf q (place_of b) }
    ensures hands_nothing { (b d : Broom) → HandsNothing b d
        → (place_of d ≡ place_of b) × (aside_of d ≡ aside_of b) }
    ensures new_broom { (f : Flash) (q : EraseQueue) (b : Broom) → volume_brooms.IsFresh f q b
        → IsReady f b × IsNewPass q (place_of b) × (aside_of b ≡ None)
        × HasNoMarks b }
    ensures unused { (f : Flash) (b : Broom) → volume_brooms.IsUnused f 2 b
        → (view_of_broom b ≡ first_broom (device f) 2)
        × (blocks_of_broom b ≡ first_blocks (device f) 2) }
    ensures ready { (v : Volume) (b : Broom) → volume_brooms.IsBroomReady v b
        → IsReady (flash_of v) b × IsQueued (queue_of v) b }
{}

/// What the sectors are with which a device is closed, and what its passes have done then.
pub fn closes_of_a_volume()
    ensures all { (p : Pass) → (view_of p).role ≡ seat.Player (name.Pass 0) → AreAll 1 (p ∷ []) }
    ensures missing { ¬ AreAll 1 [] }
    ensures last { (z : Numbers) (p : Pass) (last : List Call) (s : List Sector)
        → (h : AreFinal z (p ∷ []) last s) → (s ≡ after z.sectors h.history)
        × Begins h.history last × Begins (view_of p).seen h.history }
    ensures last_own { (z : Numbers) (p : Pass) (last : List Call) (s : List Sector)
        → (view_of p).role ≡ seat.Player (name.Pass 2)
        → (h : AreFinal z (p ∷ []) last s) → calls_of 2 h.history ≡ (view_of p).mine }
    ensures is_last { (f : Flash) (p : Pass) (d : Closed) → (h : IsFinal f (p ∷ []) d)
        → (sectors_left d ≡ after (device f).sectors h.history)
        × Begins h.history (last_view d).seen }
    ensures read { (z : Numbers) (p : Pass) (last : List Call) (s : List Sector)
        → z.sectors ≡ 2 → (h : AreRead z (p ∷ []) last s) → (length s ≡ 2)
        × Begins (view_of p).seen (h.history 1) × Begins (h.history 0) (h.history 1) }
    ensures read_each { (z : Numbers) (p : Pass) (last : List Call) (s : List Sector)
        → z.sectors ≡ 2 → (h : AreRead z (p ∷ []) last s)
        → (slice_index_or s 1 None ≡ held z.sectors (h.history 1) 1) × Begins (h.history 1) last }
    ensures closed_callers { (z : Numbers) (p : Pass) (last : List Call) (s : List Sector)
        → (h : AreFinal z (p ∷ []) last s) → AreOfHosts z h.history }
    ensures read_callers { (z : Numbers) (p : Pass) (last : List Call) (s : List Sector)
        → (view_of p).role ≡ seat.Player (name.Pass 2)
        → (h : AreRead z (p ∷ []) last s) → AreOfHosts z (h.history 1)
        × (calls_of 2 (h.history 1) ≡ (view_of p).mine) }
    ensures left { (v w : View) → v.owns ≡ [] → HasLeft v w → (w.owns ≡ [])
        × (w.work ≡ None) × (w.ceded ≡ v.ceded ++ []) × Begins v.seen w.seen }
    ensures left_mine { (v w : View) → HasLeft v w → (w.mine ≡ v.mine)
        × (w.programs ≡ v.programs) × (w.taken ≡ v.taken) }
    ensures looked { (p q : Pass) → HaveLooked (p ∷ []) (q ∷ [])
        → ((view_of q).mine ≡ (view_of p).mine) × ((view_of q).owns ≡ (view_of p).owns)
        × Begins (view_of p).seen (view_of q).seen }
    ensures lost_one { (p : Pass) → ¬ HaveLooked (p ∷ []) [] }
    ensures does { (x : Volume) (p q : Pass) → HasNumber 2 p
        → Does x p (Trim 3) (Replaced was.Empty) q
        → ((view_of q).mine ≡ (view_of p).mine ++ call.Trim 2 3 ∷ [])
        × (calls_of 2 (view_of q).seen ≡ (view_of q).mine) }
    ensures does_at { (x : Volume) (p q : Pass) (b : Bool)
        → HasNumber 2 p → Does x p (Look 3) (IsWritten b) q
        → (b ≡ is_some (held (sectors_of (geometry_of (flash_of x))) (view_of q).seen 3))
        × Begins (view_of p).seen (view_of q).seen }
    ensures does_other { (x : Volume) (p q : Pass) → HasNumber 2 p
        → ¬ Does x p (Read 3) (Replaced was.Empty) q }
{}
