//! Laws of what C sees of a device. Each function has no code: its clauses say where a definition holds and where it doesn't, and what a code or a
//! report is on small values.
ghost use Rattle.std.specs.Prelude.{◌≡◌, ◌<◌, ℕ, List, [], ◌∷◌, ◌++◌, Option, Some, None, true, false, length, slice_get};
ghost use Rattle.ftl_one.specs.declared.one_ftl.OneFtl.{OneFtl};
ghost use Rattle.ftl_one.specs.Stock.{opening, next};
ghost use Rattle.ftl_one.specs.Laws.{block_at};
ghost use Rattle.ftl_one.specs.declared.role.Role.TheVariants as role;
ghost use Rattle.geometry.specs.declared.answer.Got.TheVariants as got;
ghost use Rattle.geometry.specs.declared.answer.Was.TheVariants as was;
ghost use Rattle.geometry.specs.declared.answer.Was.{Was};
ghost use Rattle.flash_table.specs.Steps.{HasCalled, HasNumber};
ghost use Rattle.host.specs.Told.{Refused, Wrote, WroteNew};
ghost use Rattle.volume.specs.Correct.{Answer, Asked, Does, Replaced};
ghost use Rattle.geometry.specs.declared.limits.GeometryFault.TheVariants as fault;
ghost use Rattle.geometry.specs.declared.geometry.Geometry.{Geometry};
ghost use Rattle.geometry.specs.Geometry.{luns_of, blocks_of, pages_of, words_of, sectors_of, endurance_of, hosts_of, brooms_of, numbers_of as numbers_in};
ghost use Rattle.geometry.specs.History.{Write, WriteNew, Trim};
ghost use Rattle.geometry.specs.Limits.{Numbers, first_fault};
ghost use Rattle.geometry.specs.Sectors.{sector_at};
ghost use Rattle.flash_rule.specs.World.{data_word};
ghost use Rattle.flash_rule.specs.declared.facts.Pin.TheVariants.{Clear};
ghost use Rattle.flash_table.specs.Flash.{device, first_blocks, first_broom, first_view, opened_of, view_of};
ghost use Rattle.flash_table.specs.declared.pass.Pass.{Pass};
ghost use Rattle.host.specs.Holding.{Found, page_of, pass_of};
ghost use Rattle.host.specs.declared.holding.Held.{Held};
ghost use Rattle.host.specs.declared.holding.Holding.TheVariants as holding;
ghost use Rattle.broom.specs.Ready.{IsInRange, blocks_of_broom, marks_of, view_of_broom};
ghost use Rattle.broom.specs.declared.broom.Broom.{Broom};
ghost use Rattle.broom.specs.Loading.{AllLoaded, HasState, StateLoaded, counts_in};
ghost use Rattle.broom.specs.Survey.{loads_of};
ghost use Rattle.broom.specs.Handing.{place_of};
ghost use Rattle.broom.specs.Told.{KeepsSurvey, NextTold, counts_kept, states_kept};
ghost use Rattle.broom.specs.declared.block_counts.BlockCounts.{BlockCounts};
ghost use Rattle.flash_rule.specs.BroomPlays.{Loaded};
ghost use Rattle.geometry.specs.Greedy.{IsClosed};
ghost use Rattle.geometry.specs.Words.{pin_word};
ghost use Rattle.geometry.specs.declared.words.Phase.TheVariants as phase;
ghost use Rattle.geometry.specs.declared.words.PinWord.{PinWord};
ghost use Rattle.exports.specs.Blocks.{BlockReported, block_code, counts_code, counts_report, phase_number, state_report};
ghost use Rattle.exports.specs.declared.reports.StateReport.{StateReport};
ghost use Rattle.volume.specs.Volume.{IsFresh, flash_of, queue_of};
ghost use Rattle.volume.specs.declared.volume.Volume.{Volume};
ghost use Rattle.broom.specs.declared.answer.Drain.{Drain};
ghost use Rattle.broom.specs.declared.answer.Drain.TheVariants as drain;
ghost use Rattle.broom.specs.declared.turns.Choice.TheVariants as choice;
ghost use Rattle.broom.specs.declared.answer.Erase.TheVariants as erase;
ghost use Rattle.exports.specs.declared.handle.Handle.{Handle};
ghost use Rattle.exports.specs.declared.reports.BlockReport.{BlockReport};
ghost use Rattle.exports.specs.declared.reports.NumbersReport.{NumbersReport};
ghost use Rattle.exports.specs.declared.handle.seat.Holder.{Holder};
ghost use Rattle.exports.specs.declared.handle.seat.Host.{Host};
ghost use Rattle.exports.specs.declared.handle.seat.Seat.{Seat};
ghost use Rattle.exports.specs.declared.handle.seat.Seat.TheVariants as seat;
ghost use Rattle.exports.specs.declared.handle.seat.Sweeper.{Sweeper};
ghost use Rattle.exports.specs.Codes.{was_code, fault_code, drain_code, erase_code, restock_code, got_by, written_by, was_by, drain_by, erase_by, stocked_by};
ghost use Rattle.exports.specs.Handles.{seat_of};
ghost use Rattle.handles.specs.Calls.{Calls, CallsWith};
ghost use Rattle.exports.specs.Holding.{HoldCalled, HolderCalled, ReleaseCalled, by_holder, holder_code, hold_code, copy_code, copied, word_code, word_read};
ghost use Rattle.exports.specs.Holding.{page_report};
ghost use Rattle.exports.specs.Holds.{held_value};
ghost use Rattle.exports.specs.One.{Closed, Open, Other, Machine, machine_of, state_by, on_state, code_on, filled_on, refused, taken, was_at};
ghost use Rattle.exports.specs.One.{write_on, write_new_on, trim_on, read_on, buffer_on, totals_on, reported, block_on, report_on, open_code, IsFreshIn};
ghost use Rattle.exports.specs.Opening.{AreFresh, HasNoSeat, capped, shared_open_code};
ghost use Rattle.exports.specs.Shared.{BroomCalled, HostCalled, numbers_of, host_volume, sweeper_volume, holder_volume, seen_of, by_host, by_sweeper};
ghost use Rattle.exports.specs.Shared.{host_code, sweeper_code, read_code, read_buffer, look_code, write_code, trim_code, erased_code};
ghost use Rattle.exports.specs.Shared.{Drains, numbers_code, numbers_report, IsStep, HasWritten, HasWrittenNew, HasTrimmed, WriteEnds};
ghost use Rattle.exports.specs.Small.{IsSmall, worn_block, worn, zeros};
ghost use Rattle.exports.specs.Tallies.{empty_tally, erased_by, in_a_word, moved_by, tally_of, with_drain, with_erase};
ghost use Rattle.flash_rule.specs.declared.facts.Cycle.{Cycle};
ghost use Rattle.geometry.specs.declared.words.MapWord.{MapWord};
ghost use Rattle.exports.specs.declared.codes.TheConstants.{DONE, CLOSED, WRONG_KIND};

/// What a call leaves of a handle: a closed one is closed, and an open one is open, with a seat of which the call says something.
pub fn calls_of_handles()
    ensures closed { Calls {T = Seat} None CLOSED None (λ x c y. ⊥) }
    ensures closed_code { ¬ Calls {T = Seat} None WRONG_KIND None (λ x c y. x ≡ x) }
    ensures stays_closed { (y : Seat) → ¬ Calls None CLOSED (Some y) (λ x c y. x ≡ x) }
    ensures stays_open { (x : Seat) → ¬ Calls (Some x) DONE None (λ x c y. x ≡ x) }
    ensures says { (l : OneFtl)
        → Calls (Some (seat.One l)) 7 (Some seat.Away)
        (λ x c y. (x ≡ seat.One l) × (c ≡ 7) × (y ≡ seat.Away)) }
    ensures says_not { (x y : Seat) → ¬ Calls (Some x) DONE (Some y) (λ x c y. ⊥) }
    ensures closed_with { CallsWith {T = Seat} {O = ℕ} None 4 CLOSED None 4 (λ x o c y p. ⊥) }
    ensures closed_fills { ¬ CallsWith {T = Seat} {O = ℕ} None 4 CLOSED None 5 (λ x o c y p. x ≡ x) }
    ensures says_with { CallsWith {O = ℕ} (Some seat.Away) 4 7 (Some seat.Away) 5
        (λ x o c y p. (o ≡ 4) × (c ≡ 7) × (p ≡ 5)) }
    ensures is_closed { (h : Handle) → seat_of h ≡ None → HasNoSeat h }
    ensures is_open { (h : Handle) (x : Seat) → seat_of h ≡ Some x → ¬ HasNoSeat h }
    ensures seen_none { (seen_of None ≡ []) × (seen_of (Some seat.Away) ≡ []) }
    ensures seen { (h : Host) (k : Holder)
        → (seen_of (Some (seat.Host h)) ≡ (view_of h.pass).seen)
        × (seen_of (Some (seat.Holder k)) ≡ (view_of (pass_of k.held)).seen) }
{}

/// What a call of a host leaves of a handle: a host is one at its device, of which the call says something, and any other handle is as it was.
pub fn calls_of_hosts()
    ensures others { (l : OneFtl) (s : Sweeper) (k : Holder) (y : Option Seat)
        → (HostCalled None y (λ v p q. ⊥) → y ≡ None)
        × (HostCalled (Some (seat.One l)) y (λ v p q. ⊥) → y ≡ Some (seat.One l))
        × (HostCalled (Some (seat.Sweeper s)) y (λ v p q. ⊥) → y ≡ Some (seat.Sweeper s))
        × (HostCalled (Some (seat.Holder k)) y (λ v p q. ⊥) → y ≡ Some (seat.Holder k))
        × (HostCalled (Some seat.Away) y (λ v p q. ⊥) → y ≡ Some seat.Away) }
    ensures host { (h : Host) (x : Volume) (a b : Pass) (y : Option Seat)
        → HostCalled (Some (seat.Host h)) y (λ v p q. (v ≡ x) × (p ≡ a) × (q ≡ b))
        → (g : Host) × (y ≡ Some (seat.Host g)) × (g.volume ≡ h.volume)
        × (host_volume h ≡ x) × (h.pass ≡ a) × (g.pass ≡ b) }
    ensures codes { (h : Host) → (host_code None (λ h. 7) ≡ 2)
        × (host_code (Some seat.Away) (λ h. 7) ≡ 9)
        × (host_code (Some (seat.Host h)) (λ h. 7) ≡ 7) }
    ensures values { (h : Host) → (by_host {X = ℕ} None 4 5 (λ h. 7) ≡ 4)
        × (by_host {X = ℕ} (Some seat.Away) 4 5 (λ h. 7) ≡ 5)
        × (by_host {X = ℕ} (Some (seat.Host h)) 4 5 (λ h. 7) ≡ 7) }
{}

/// What a call of a host has done is what the calls of a volume say.
#[tactic(auto, unfolding(crate::specs::Shared::IsStep, crate::specs::Shared::HasTrimmed))]
pub fn steps_of_hosts()
    ensures step { (v : Volume) (p q : Pass) (asked : Asked) (answer : Answer)
        → IsStep v p asked answer q → Does v p asked answer q }
    ensures trimmed { (p q : Pass) (s t : ℕ) (was : Was) → HasTrimmed p s was q
        → HasNumber t p → HasCalled p (Trim t s) s was q }
{}

/// What a write of a host has done is what the writes of a volume say.
#[tactic(auto, unfolding(crate::specs::Shared::HasWritten, crate::specs::Shared::HasWrittenNew))]
pub fn writes_of_hosts()
    ensures written { (p q : Pass) (s t : ℕ) (bytes : List ℕ) (was : Was)
        → HasWritten p s bytes was q → HasNumber t p
        → Wrote (view_of p) t s bytes was (view_of q) }
    ensures written_new { (p q : Pass) (s t : ℕ) (bytes : List ℕ) (was : Was)
        → HasWrittenNew p s bytes was q → HasNumber t p
        → WroteNew (view_of p) t s bytes was (view_of q) }
{}

/// How a write of a host has ended, by its code.
pub fn ends_of_writes()
    ensures correct { (v : Volume) (p q : Pass) (asked : Asked)
        → WriteEnds v p asked (λ w r. p ≡ p) 0 q → IsStep v p asked (Replaced was.Empty) q }
    ensures wrote { (v : Volume) (p q : Pass) (asked : Asked)
        → WriteEnds v p asked (λ w r. (w ≡ was.Written) × (r ≡ p)) 1 q → q ≡ p }
    ensures refused { (v : Volume) (p q : Pass) (asked : Asked)
        → WriteEnds v p asked (λ w r. p ≡ p) 7 q → Refused (view_of p) (view_of q) }
    ensures sector { (v : Volume) (p q : Pass) (asked : Asked)
        → WriteEnds v p asked (λ w r. p ≡ p) 3 q → q ≡ p }
    ensures page { (v : Volume) (p q : Pass) (asked : Asked)
        → WriteEnds v p asked (λ w r. p ≡ p) 4 q → q ≡ p }
{}

/// What a call of a broom leaves of a handle: a broom is one at its device, of which the call says something, and any other handle is as it was.
pub fn calls_of_brooms()
    ensures others { (l : OneFtl) (h : Host) (k : Holder) (y : Option Seat)
        → (BroomCalled None y (λ v b c. ⊥) → y ≡ None)
        × (BroomCalled (Some (seat.One l)) y (λ v b c. ⊥) → y ≡ Some (seat.One l))
        × (BroomCalled (Some (seat.Host h)) y (λ v b c. ⊥) → y ≡ Some (seat.Host h))
        × (BroomCalled (Some (seat.Holder k)) y (λ v b c. ⊥) → y ≡ Some (seat.Holder k))
        × (BroomCalled (Some seat.Away) y (λ v b c. ⊥) → y ≡ Some seat.Away) }
    ensures broom { (s : Sweeper) (x : Volume) (a c : Broom) (y : Option Seat)
        → BroomCalled (Some (seat.Sweeper s)) y (λ v p q. (v ≡ x) × (p ≡ a) × (q ≡ c))
        → (t : Sweeper) × (y ≡ Some (seat.Sweeper t)) × (t.volume ≡ s.volume)
        × (sweeper_volume s ≡ x) × (s.broom ≡ a) × (t.broom ≡ c) }
    ensures codes { (s : Sweeper) → (sweeper_code None (λ s. 7) ≡ 2)
        × (sweeper_code (Some seat.Away) (λ s. 7) ≡ 9)
        × (sweeper_code (Some (seat.Sweeper s)) (λ s. 7) ≡ 7) }
    ensures values { (s : Sweeper) → (by_sweeper {X = ℕ} None 4 5 (λ s. 7) ≡ 4)
        × (by_sweeper {X = ℕ} (Some seat.Away) 4 5 (λ s. 7) ≡ 5)
        × (by_sweeper {X = ℕ} (Some (seat.Sweeper s)) 4 5 (λ s. 7) ≡ 7) }
{}

/// What a broom's drain has done: what a drain by this choice does, nothing at the queue, and of a block of the device alone.
pub fn drains_of_brooms()
    ensures by_choice { (v : Volume) (b c : Broom) (a : Drain)
        → Drains choice.Next v b a c → NextTold b a c }
    ensures queue { (v : Volume) (b c : Broom) (a : Drain)
        → Drains choice.Next v b a c → place_of c ≡ place_of b }
    ensures below { (v : Volume) (b c : Broom)
        → Drains choice.Next v b (drain.Drained 7 3) c → 7 < blocks_of (numbers_of v) }
{}

/// What a hold, a call on a held page and a release leave of a handle.
pub fn calls_of_holders()
    ensures hold_others { (l : OneFtl) (s : Sweeper) (k : Holder) (y : Option Seat)
        → (HoldCalled 1 9 None y → y ≡ None)
        × (HoldCalled 1 9 (Some (seat.One l)) y → y ≡ Some (seat.One l))
        × (HoldCalled 1 9 (Some (seat.Sweeper s)) y → y ≡ Some (seat.Sweeper s))
        × (HoldCalled 1 9 (Some (seat.Holder k)) y → y ≡ Some (seat.Holder k))
        × (HoldCalled 1 9 (Some seat.Away) y → y ≡ Some seat.Away) }
    ensures hold { (h : Host) (s : ℕ) (y : Option Seat) → HoldCalled s 1 (Some (seat.Host h)) y
        → (k : Holder) × (y ≡ Some (seat.Holder k)) × (k.volume ≡ h.volume)
        × Found (flash_of (host_volume h)) (view_of h.pass) s (holding.Held k.held) }
    ensures hold_empty { (h : Host) (s : ℕ) (y : Option Seat)
        → HoldCalled s 0 (Some (seat.Host h)) y
        → (g : Host) × (y ≡ Some (seat.Host g)) × (g.volume ≡ h.volume)
        × Found (flash_of (host_volume h)) (view_of h.pass) s (holding.Empty g.pass) }
    ensures hold_refused { (h : Host) (s : ℕ) (y : Option Seat)
        → HoldCalled s 3 (Some (seat.Host h)) y
        → (g : Host) × (y ≡ Some (seat.Host g)) × (g.volume ≡ h.volume) × (g.pass ≡ h.pass) }
    ensures held_others { (l : OneFtl) (h : Host) (s : Sweeper) (y : Option Seat)
        → (HolderCalled None y (λ v a b. ⊥) → y ≡ None)
        × (HolderCalled (Some (seat.One l)) y (λ v a b. ⊥) → y ≡ Some (seat.One l))
        × (HolderCalled (Some (seat.Host h)) y (λ v a b. ⊥) → y ≡ Some (seat.Host h))
        × (HolderCalled (Some (seat.Sweeper s)) y (λ v a b. ⊥) → y ≡ Some (seat.Sweeper s))
        × (HolderCalled (Some seat.Away) y (λ v a b. ⊥) → y ≡ Some seat.Away) }
    ensures held { (k : Holder) (x : Volume) (a b : Held) (y : Option Seat)
        → HolderCalled (Some (seat.Holder k)) y (λ v p q. (v ≡ x) × (p ≡ a) × (q ≡ b))
        → (j : Holder) × (y ≡ Some (seat.Holder j)) × (j.volume ≡ k.volume)
        × (holder_volume k ≡ x) × (k.held ≡ a) × (j.held ≡ b) }
    ensures release_others { (l : OneFtl) (h : Host) (s : Sweeper) (y : Option Seat)
        → (ReleaseCalled None y → y ≡ None)
        × (ReleaseCalled (Some (seat.One l)) y → y ≡ Some (seat.One l))
        × (ReleaseCalled (Some (seat.Host h)) y → y ≡ Some (seat.Host h))
        × (ReleaseCalled (Some (seat.Sweeper s)) y → y ≡ Some (seat.Sweeper s))
        × (ReleaseCalled (Some seat.Away) y → y ≡ Some seat.Away) }
    ensures release { (k : Holder) (y : Option Seat) → ReleaseCalled (Some (seat.Holder k)) y
        → (h : Host) × (y ≡ Some (seat.Host h)) × (h.volume ≡ k.volume)
        × (view_of h.pass ≡ record (view_of (pass_of k.held)) { pin = Clear }) × (opened_of h.pass ≡ opened_of (pass_of k.held)) }
    ensures codes { (k : Holder) → (holder_code None (λ k. 7) ≡ 2)
        × (holder_code (Some seat.Away) (λ k. 7) ≡ 9)
        × (holder_code (Some (seat.Holder k)) (λ k. 7) ≡ 7) }
    ensures values { (k : Holder) → (by_holder {X = ℕ} None 4 5 (λ k. 7) ≡ 4)
        × (by_holder {X = ℕ} (Some seat.Away) 4 5 (λ k. 7) ≡ 5)
        × (by_holder {X = ℕ} (Some (seat.Holder k)) 4 5 (λ k. 7) ≡ 7) }
{}

/// The codes and the buffer of a host's calls, on a small device.
pub fn codes_of_hosts()
    ensures read_outside { (h : Host)
        → IsSmall (numbers_of (host_volume h)) → read_code 2 8 [] h ≡ 3 }
    ensures read_short { (h : Host)
        → IsSmall (numbers_of (host_volume h)) → read_code 1 7 [] h ≡ 4 }
    ensures read_empty { (h : Host)
        → IsSmall (numbers_of (host_volume h)) → read_code 1 8 [] h ≡ 0 }
    ensures read { (h : Host) → IsSmall (numbers_of (host_volume h))
        → read_code 1 8 (Write 0 1 zeros ∷ []) h ≡ 1 }
    ensures unread { (h : Host) → IsSmall (numbers_of (host_volume h))
        → read_buffer 1 (7 ∷ []) (Write 0 1 zeros ∷ []) h ≡ 7 ∷ [] }
    ensures buffer { (h : Host) (x : List ℕ) → IsSmall (numbers_of (host_volume h))
        → read_buffer 1 zeros (Write 0 1 x ∷ []) h ≡ x }
    ensures look_outside { (h : Host)
        → IsSmall (numbers_of (host_volume h)) → look_code 2 [] h ≡ 3 }
    ensures look_empty { (h : Host) → IsSmall (numbers_of (host_volume h)) → look_code 1 [] h ≡ 0 }
    ensures look { (h : Host) → IsSmall (numbers_of (host_volume h))
        → look_code 1 (Write 0 1 zeros ∷ []) h ≡ 1 }
    ensures write_outside { (h : Host)
        → IsSmall (numbers_of (host_volume h)) → write_code 2 8 0 h ≡ 3 }
    ensures write_short { (h : Host)
        → IsSmall (numbers_of (host_volume h)) → write_code 1 7 0 h ≡ 4 }
    ensures write { (h : Host) → IsSmall (numbers_of (host_volume h)) → write_code 1 8 1 h ≡ 1 }
    ensures no_block { (h : Host) → IsSmall (numbers_of (host_volume h)) → write_code 1 8 2 h ≡ 7 }
    ensures trim_outside { (h : Host) → IsSmall (numbers_of (host_volume h)) → trim_code 2 0 h ≡ 3 }
    ensures trim { (h : Host) → IsSmall (numbers_of (host_volume h)) → trim_code 1 1 h ≡ 1 }
    ensures hold_outside { (h : Host)
        → IsSmall (numbers_of (host_volume h)) → hold_code 2 [] h ≡ 3 }
    ensures hold_empty { (h : Host) → IsSmall (numbers_of (host_volume h)) → hold_code 1 [] h ≡ 0 }
    ensures hold { (h : Host) → IsSmall (numbers_of (host_volume h))
        → hold_code 1 (Write 0 1 zeros ∷ []) h ≡ 1 }
{}

/// The codes of a broom's calls, and of calls on a held page with what they write, on a small device.
pub fn codes_of_brooms_and_holders()
    ensures erase_outside { (s : Sweeper)
        → IsSmall (numbers_of (sweeper_volume s)) → erased_code 3 0 s ≡ 10 }
    ensures erase { (s : Sweeper)
        → IsSmall (numbers_of (sweeper_volume s)) → erased_code 2 0 s ≡ 0 }
    ensures erase_kept { (s : Sweeper)
        → IsSmall (numbers_of (sweeper_volume s)) → erased_code 2 26 s ≡ 26 }
    ensures erase_retired { (s : Sweeper)
        → IsSmall (numbers_of (sweeper_volume s)) → erased_code 2 23 s ≡ 23 }
    ensures erase_pinned { (s : Sweeper)
        → IsSmall (numbers_of (sweeper_volume s)) → erased_code 2 24 s ≡ 24 }
    ensures erase_stale { (s : Sweeper)
        → IsSmall (numbers_of (sweeper_volume s)) → erased_code 2 5 s ≡ 25 }
    ensures copy { (k : Holder) → IsSmall (numbers_of (holder_volume k)) → (copy_code 8 k ≡ 1)
        × (copied zeros k ≡ held_value k.held) }
    ensures copy_short { (k : Holder) → IsSmall (numbers_of (holder_volume k)) → (copy_code 7 k ≡ 4)
        × (copied (7 ∷ []) k ≡ 7 ∷ []) }
    ensures word { (k : Holder) → IsSmall (numbers_of (holder_volume k))
        → (word_code 0 k ≡ 0) × (word_read 0 7 k ≡ data_word (held_value k.held) 0) }
    ensures word_outside { (k : Holder) → IsSmall (numbers_of (holder_volume k))
        → (word_code 1 k ≡ 10) × (word_read 1 7 k ≡ 7) }
    ensures page { (k : Holder) → ((page_report k).block ≡ (page_of k.held).block)
        × ((page_report k).generation ≡ (page_of k.held).generation) }
{}

/// What the code of a call says of its result.
pub fn results_by_codes()
    ensures got { (got_by 0 ≡ got.Empty) × (got_by 1 ≡ got.Data) }
    ensures written { (written_by 0 ≡ false) × (written_by 1 ≡ true) }
    ensures was { (was_by 0 ≡ was.Empty) × (was_by 1 ≡ was.Written) }
    ensures drained { drain_by 0 3 2 ≡ drain.Drained 3 2 }
    ensures not_drained { (drain_by 20 3 2 ≡ drain.NothingToGain)
        × (drain_by 21 3 2 ≡ drain.NoSpare) × (drain_by 22 3 2 ≡ drain.Lost) }
    ensures erased { (erase_by 0 3 ≡ erase.Erased 3 false)
        × (erase_by 26 3 ≡ erase.Erased 3 true) × (erase_by 23 3 ≡ erase.Retired 3) }
    ensures not_erased { (erase_by 24 3 ≡ erase.Pinned) × (erase_by 25 3 ≡ erase.Stale) }
    ensures stocked { (stocked_by 0 ≡ true) × (stocked_by 21 ≡ false) }
    ensures drain_codes { (drain_code (drain.Drained 3 2) ≡ 0)
        × (drain_code drain.NothingToGain ≡ 20) × (drain_code drain.NoSpare ≡ 21)
        × (drain_code drain.Lost ≡ 22) × (drain_code drain.QueueFull ≡ 22) }
    ensures erase_codes { (erase_code (erase.Erased 3 false) ≡ 0)
        × (erase_code (erase.Erased 3 true) ≡ 26) × (erase_code (erase.Retired 3) ≡ 23)
        × (erase_code erase.Pinned ≡ 24) × (erase_code erase.Stale ≡ 25)
        × (erase_code erase.QueueEmpty ≡ 25) }
    ensures restock_codes { (restock_code true ≡ 0) × (restock_code false ≡ 21) }
    ensures faults { (fault_code fault.Luns ≡ 101) × (fault_code fault.Blocks ≡ 102)
        × (fault_code fault.Pages ≡ 103) × (fault_code fault.Words ≡ 104)
        × (fault_code fault.Sectors ≡ 105) }
    ensures more_faults { (fault_code fault.Endurance ≡ 106)
        × (fault_code fault.Passes ≡ 107) × (fault_code fault.TooManyWords ≡ 108)
        × (fault_code fault.TooFewBlocks ≡ 109) }
    ensures numbers_none { (r : NumbersReport)
        → (numbers_code None ≡ 2) × (numbers_report r None ≡ r) }
    ensures numbers_away { (r : NumbersReport) → (numbers_code (Some seat.Away) ≡ 9)
        × (numbers_report r (Some seat.Away) ≡ r) }
    ensures numbers_one { (l : OneFtl) (r : NumbersReport)
        → (numbers_code (Some (seat.One l)) ≡ 9) × (numbers_report r (Some (seat.One l)) ≡ r) }
    ensures numbers_host { (h : Host) (r : NumbersReport)
        → (numbers_code (Some (seat.Host h)) ≡ 0)
        × (numbers_report r (Some (seat.Host h)) ≡ reported (numbers_of (host_volume h))) }
    ensures numbers_broom { (s : Sweeper) (r : NumbersReport)
        → (numbers_code (Some (seat.Sweeper s)) ≡ 0)
        × (numbers_report r (Some (seat.Sweeper s)) ≡ reported (numbers_of (sweeper_volume s))) }
    ensures numbers_holder { (k : Holder) (r : NumbersReport)
        → (numbers_code (Some (seat.Holder k)) ≡ 0)
        × (numbers_report r (Some (seat.Holder k)) ≡ reported (numbers_of (holder_volume k))) }
{}

/// What a call returns on a device for one thread, and leaves of it, if the device is small.
pub fn calls_of_machines()
    ensures write_outside { (m : Machine) → IsSmall m.numbers → write_on 2 zeros m ≡ refused 3 m }
    ensures write_short { (m : Machine) → IsSmall m.numbers → write_on 1 (7 ∷ []) m ≡ refused 4 m }
    ensures write { (m : Machine) → IsSmall m.numbers
        → write_on 1 zeros m
        ≡ taken m (Write 0 1 zeros) (was_code (was_at m 1))
        (next m.numbers m.stock (Write 0 1 zeros)) }
    ensures worn { (m : Machine) → taken m (Trim 0 1) 0 None ≡ refused 5 m }
    ensures new_outside { (m : Machine) → IsSmall m.numbers → write_new_on 2 zeros m ≡ refused 3 m }
    ensures new_short { (m : Machine) → IsSmall m.numbers
        → write_new_on 1 (7 ∷ []) m ≡ refused 4 m }
    ensures new_written { (m : Machine) (x : List ℕ) → IsSmall m.numbers
        → sector_at m.array 1 ≡ Some x → write_new_on 1 zeros m ≡ refused 1 m }
    ensures new { (m : Machine) → IsSmall m.numbers → sector_at m.array 1 ≡ None
        → write_new_on 1 zeros m
        ≡ taken m (WriteNew 0 1 zeros) 0 (next m.numbers m.stock (WriteNew 0 1 zeros)) }
    ensures trim_outside { (m : Machine) → IsSmall m.numbers → trim_on 2 m ≡ refused 3 m }
    ensures trim { (m : Machine) → IsSmall m.numbers
        → trim_on 1 m
        ≡ taken m (Trim 0 1) (was_code (was_at m 1)) (next m.numbers m.stock (Trim 0 1)) }
    ensures read_outside { (m : Machine) → IsSmall m.numbers
        → (read_on 2 8 m ≡ 3) × (buffer_on 2 zeros m ≡ zeros) }
    ensures read_short { (m : Machine) → IsSmall m.numbers
        → (read_on 1 7 m ≡ 4) × (buffer_on 1 (7 ∷ []) m ≡ 7 ∷ []) }
    ensures read_empty { (m : Machine) → IsSmall m.numbers → sector_at m.array 1 ≡ None
        → (read_on 1 8 m ≡ 0) × (buffer_on 1 zeros m ≡ zeros) }
    ensures read { (m : Machine) (x : List ℕ) → IsSmall m.numbers
        → sector_at m.array 1 ≡ Some x → (read_on 1 8 m ≡ 1) × (buffer_on 1 zeros m ≡ x) }
    ensures block_outside { (m : Machine) (r : BlockReport)
        → IsSmall m.numbers → (block_on 3 m ≡ 10) × (report_on 3 r m ≡ r) }
    ensures block { (m : Machine) (r : BlockReport) → IsSmall m.numbers
        → block_at m.stock 2 ≡ record { role = role.Retired; erases = 4; entries = [] }
        → (block_on 2 m ≡ 0) × (report_on 2 r m ≡ record { erases = 4; live = 0; retired = 1 }) }
    ensures totals { (m : Machine) → ((totals_on m).programs ≡ m.stock.programs)
        × ((totals_on m).copies ≡ m.stock.copies)
        × ((totals_on m).erases ≡ m.stock.erases) }
    ensures sizes { (g : Geometry) → ((reported g).luns ≡ luns_of g)
        × ((reported g).blocks ≡ blocks_of g) × ((reported g).pages ≡ pages_of g)
        × ((reported g).words ≡ words_of g) }
    ensures counts { (g : Geometry) → ((reported g).sectors ≡ sectors_of g)
        × ((reported g).endurance ≡ endurance_of g)
        × ((reported g).hosts ≡ hosts_of g) × ((reported g).brooms ≡ brooms_of g) }
{}

/// What a call does on a handle that is closed, has a device for one thread, or has another seat.
pub fn states_of_handles()
    ensures states { (l : OneFtl) → (state_by None ≡ Closed)
        × (state_by (Some seat.Away) ≡ Other seat.Away)
        × (state_by (Some (seat.One l)) ≡ Open (machine_of l)) }
    ensures closed { (on_state Closed (refused 7)).code ≡ 2 }
    ensures other { (x : Seat) → ((on_state (Other x) (refused 7)).code ≡ 9)
        × ((on_state (Other x) (refused 7)).state ≡ Other x) }
    ensures open { (m : Machine) → on_state (Open m) (refused 7) ≡ refused 7 m }
    ensures code { (m : Machine) (x : Seat) → (code_on Closed (λ m. 7) ≡ 2)
        × (code_on (Other x) (λ m. 7) ≡ 9) × (code_on (Open m) (λ m. 7) ≡ 7) }
    ensures filled { (m : Machine) (x : Seat) → (filled_on {X = ℕ} Closed 4 (λ m. 7) ≡ 4)
        × (filled_on {X = ℕ} (Other x) 4 (λ m. 7) ≡ 4)
        × (filled_on {X = ℕ} (Open m) 4 (λ m. 7) ≡ 7) }
    ensures opened { (n : Numbers) → first_fault n ≡ None
        → (open_code None n true ≡ 0) × (open_code None n false ≡ 6) }
    ensures faulty { (n : Numbers) → first_fault n ≡ Some fault.Words
        → open_code None n false ≡ 104 }
    ensures in_use { (n : Numbers) → open_code (Some seat.Away) n true ≡ 8 }
    ensures not_fresh { (n : Numbers) (x : Seat)
        → (¬ IsFreshIn n Closed) × (¬ IsFreshIn n (Other x)) }
    ensures fresh { (n : Numbers) (m : Machine) → IsFreshIn n (Open m)
        → (numbers_in m.numbers ≡ n) × (m.stock ≡ opening m.numbers) }
    ensures fresh_sectors { (n : Numbers) (m : Machine) → n.sectors ≡ 2
        → IsFreshIn n (Open m) → m.array ≡ None ∷ None ∷ [] }
{}

/// The code of an open of a shared device, and what its handles have then.
pub fn opens_of_shared_devices()
    ensures capped { (capped 107 106 ≡ 106) × (capped 107 108 ≡ 107) }
    ensures in_use { (n : Numbers) → shared_open_code false n true ≡ 8 }
    ensures opened { (n : Numbers) → n.hosts ≡ 1 → first_fault n ≡ None
        → (shared_open_code true n true ≡ 0) × (shared_open_code true n false ≡ 6) }
    ensures no_host { (n : Numbers) → n.hosts ≡ 0
        → first_fault n ≡ None → shared_open_code true n false ≡ 107 }
    ensures faulty { (n : Numbers) → n.hosts ≡ 1
        → first_fault n ≡ Some fault.TooFewBlocks → shared_open_code true n true ≡ 109 }
    ensures faulty_no_host { (n : Numbers) → n.hosts ≡ 0
        → first_fault n ≡ Some fault.TooFewBlocks → shared_open_code true n true ≡ 107 }
    ensures earlier_fault { (n : Numbers) → n.hosts ≡ 0
        → first_fault n ≡ Some fault.Luns → shared_open_code true n true ≡ 101 }
    ensures hosts { (n : Numbers) (h g : Handle) → (a : AreFresh n (h ∷ g ∷ []) [])
        → (p : Host) × (seat_of g ≡ Some (seat.Host p))
        × (host_volume p ≡ a.volume)
        × (view_of p.pass ≡ first_view (device (flash_of a.volume)) 1) }
    ensures brooms { (n : Numbers) (h g : Handle) → (a : AreFresh n [] (h ∷ g ∷ []))
        → (s : Sweeper) × (seat_of g ≡ Some (seat.Sweeper s))
        × (sweeper_volume s ≡ a.volume)
        × (view_of_broom s.broom ≡ first_broom (device (flash_of a.volume)) 1)
        × (blocks_of_broom s.broom ≡ first_blocks (device (flash_of a.volume)) 1)
        × IsFresh (flash_of a.volume) (queue_of a.volume) s.broom }
    ensures numbers { (n : Numbers) → (a : AreFresh n [] [])
        → numbers_in (numbers_of a.volume) ≡ n }
{}

/// What a broom reports of blocks, and when no block can become free.
pub fn reports_of_blocks()
    ensures drained { state_report (worn_block phase.Drained)
        ≡ record { phase = 4; readers = 2; written = 3; erases = 4 } }
    ensures retired { state_report (worn_block phase.Retired)
        ≡ record { phase = 6; readers = 2; written = 3; erases = 5 } }
    ensures phases { (phase_number phase.Free ≡ 0) × (phase_number phase.Open ≡ 1)
        × (phase_number phase.Closed ≡ 2) × (phase_number phase.Victim ≡ 3) }
    ensures erasing { phase_number phase.Erasing ≡ 5 }
    ensures code { (g : Geometry) → blocks_of g ≡ 4 → (block_code g 3 ≡ 0) × (block_code g 4 ≡ 10) }
    ensures count_free { counts_in (worn_block phase.Free ∷ [])
        ≡ record { erases = 4; free = 1; «open» = 0; closed = 0; victims = 0; drained = 0; erasing = 0; retired = 0 } }
    ensures count_open { counts_in (worn_block phase.Open ∷ [])
        ≡ record { erases = 4; free = 0; «open» = 1; closed = 0; victims = 0; drained = 0; erasing = 0; retired = 0 } }
    ensures count_closed { counts_in (worn_block phase.Closed ∷ [])
        ≡ record { erases = 4; free = 0; «open» = 0; closed = 1; victims = 0; drained = 0; erasing = 0; retired = 0 } }
    ensures count_victim { counts_in (worn_block phase.Victim ∷ [])
        ≡ record { erases = 4; free = 0; «open» = 0; closed = 0; victims = 1; drained = 0; erasing = 0; retired = 0 } }
    ensures count_drained { counts_in (worn_block phase.Drained ∷ [])
        ≡ record { erases = 4; free = 0; «open» = 0; closed = 0; victims = 0; drained = 1; erasing = 0; retired = 0 } }
    ensures count_erasing { counts_in (worn_block phase.Erasing ∷ [])
        ≡ record { erases = 4; free = 0; «open» = 0; closed = 0; victims = 0; drained = 0; erasing = 1; retired = 0 } }
    ensures count_retired { counts_in (worn_block phase.Retired ∷ [])
        ≡ record { erases = 5; free = 0; «open» = 0; closed = 0; victims = 0; drained = 0; erasing = 0; retired = 1 } }
    ensures count_two { counts_in (worn_block phase.Drained ∷ worn_block phase.Drained ∷ [])
        ≡ record { erases = 8; free = 0; «open» = 0; closed = 0; victims = 0; drained = 2; erasing = 0; retired = 0 } }
    ensures report { (c : BlockCounts) → ((counts_report c 1).erases ≡ c.erases)
        × ((counts_report c 1).free ≡ c.free)
        × ((counts_report c 1).«open» ≡ c.«open») × ((counts_report c 1).closed ≡ c.closed)
        × ((counts_report c 1).victims ≡ c.victims) }
    ensures more { (c : BlockCounts) → ((counts_report c 1).drained ≡ c.drained)
        × ((counts_report c 1).erasing ≡ c.erasing)
        × ((counts_report c 1).retired ≡ c.retired) × ((counts_report c 1).spares ≡ 1) }
    ensures exhausted { (g : Geometry) → brooms_of g ≡ 1 → counts_code g (worn 0 0 0 0 0) ≡ 27 }
    ensures not_alone { (g : Geometry) → brooms_of g ≡ 2 → counts_code g (worn 0 0 0 0 0) ≡ 0 }
    ensures not_yet { (g : Geometry) → brooms_of g ≡ 1
        → (counts_code g (worn 1 0 0 0 0) ≡ 0) × (counts_code g (worn 0 1 0 0 0) ≡ 0)
        × (counts_code g (worn 0 0 1 0 0) ≡ 0) × (counts_code g (worn 0 0 0 1 0) ≡ 0)
        × (counts_code g (worn 0 0 0 0 1) ≡ 0) }
{}

/// What loads of blocks' states leave of a broom.
pub fn loads_of_blocks()
    ensures reported { (b c : Broom) (r : StateReport) → BlockReported b 3 r c
        → (p : PinWord) × StateLoaded b 3 p c × (r ≡ state_report p) }
    ensures loaded { (b c : Broom) (p : PinWord) → StateLoaded b 3 p c
        → Loaded (view_of_broom b) 3 (pin_word p) (view_of_broom c) }
    ensures blocks { (b c : Broom) (p : PinWord) → StateLoaded b 3 p c
        → blocks_of_broom c ≡ blocks_of_broom b }
    ensures same { (b c : Broom) (p : PinWord)
        → StateLoaded b 3 p c → HasState b 3 p → KeepsSurvey b c }
    ensures each { (z : Numbers) (b c : Broom) (states : List PinWord) → AllLoaded z b states c
        → (length states ≡ z.blocks)
        × ((view_of_broom c).loaded ≡ (view_of_broom b).loaded ++ loads_of states) }
    ensures ranges { (z : Numbers) (b c : Broom) (p : PinWord)
        → AllLoaded z b (p ∷ []) c → IsInRange z p }
    ensures others { (z : Numbers) (b c : Broom) (states : List PinWord) → AllLoaded z b states c
        → (view_of_broom c).seen ≡ (view_of_broom b).seen }
    ensures survey { (z : Numbers) (b c : Broom) (states : List PinWord) → AllLoaded z b states c
        → (states_kept c ≡ states_kept b) × (counts_kept c ≡ counts_kept b)
        × (blocks_of_broom c ≡ blocks_of_broom b) }
    ensures kept { (z : Numbers) (b c : Broom) (states : List PinWord)
        → AllLoaded z b states c → (k : ℕ) (p : PinWord)
        → slice_get states k ≡ Some p → HasState b k p
        → IsClosed (marks_of b) k → IsClosed (marks_of c) k }
    ensures no_more { (z : Numbers) (b c : Broom) (states : List PinWord)
        → AllLoaded z b states c → (k : ℕ) → IsClosed (marks_of c) k
        → IsClosed (marks_of b) k }
{}

/// What a broom has done since it was made.
pub fn tallies_of_brooms()
    ensures new { (b : Broom) (z : Numbers) (i : ℕ) → view_of_broom b ≡ first_broom z i
        → tally_of b ≡ record { programs = 0; moved = 0; erases = 0 } }
    ensures programs { (b : Broom) (x y : MapWord)
        → (view_of_broom b).programs ≡ x ∷ y ∷ [] → (tally_of b).programs ≡ 2 }
    ensures moved { (b : Broom) → (view_of_broom b).moves ≡ 3 → (tally_of b).moved ≡ 3 }
    ensures erases { (b : Broom) (c : Cycle)
        → (view_of_broom b).erases ≡ c ∷ [] → (tally_of b).erases ≡ 1 }
    ensures wrapped { (in_a_word 18446744073709551615 ≡ 18446744073709551615)
        × (in_a_word 18446744073709551617 ≡ 1) }
    ensures drains { with_drain empty_tally 4 (drain.Drained 9 3)
        ≡ record { programs = 4; moved = 3; erases = 0 } }
    ensures no_drains { (moved_by drain.NothingToGain ≡ 0) × (moved_by drain.NoSpare ≡ 0)
        × (moved_by drain.Lost ≡ 0) × (moved_by drain.QueueFull ≡ 0) }
    ensures an_erase { with_erase (with_drain empty_tally 4 (drain.Drained 9 3)) (erase.Retired 9)
        ≡ record { programs = 4; moved = 3; erases = 1 } }
    ensures no_erases { (erased_by (erase.Erased 9 true) ≡ 1) × (erased_by erase.Pinned ≡ 0)
        × (erased_by erase.Stale ≡ 0) × (erased_by erase.QueueEmpty ≡ 0) }
{}
