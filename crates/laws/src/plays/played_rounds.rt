//! Laws that say what is enough for lines, rounds and runs to be played: a value of which each relation holds, or its parts.
ghost use Rattle.std.specs.{Prelude.◌≡◌, Prelude.ℕ, Prelude.List, Prelude.[], Prelude.◌∷◌, Prelude.length, Arc.arc_value};
ghost use Rattle.flash_rule.specs.{Views.calls_of, declared.view.View.View};
ghost use Rattle.flash_table.specs.{Flash.geometry_of, Flash.view_of, declared.pass.Pass.Pass};
ghost use Rattle.geometry.specs.{Geometry.page_bytes_of, Geometry.sectors_of, History.Call, declared.geometry.Geometry.Geometry};
ghost use Rattle.geometry.specs.declared.words.MapWord.{MapWord};
ghost use Rattle.rounds.specs.{Answers.page_size_of, Answers.said_in, Lines.Said, Merging.IsDisjointTrace, Merging.lines_for, Merging.merge, Plans.ends_of};
ghost use Rattle.rounds.specs.{Playing.Plays, Playing.calls_done, Playing.writes_done, Merging.AreAtOneHistory, Told.IsTextOfSome, Told.lines_text};
ghost use Rattle.rounds.specs.declared.answer_list.Answers.{Answers};
ghost use Rattle.rounds.specs.declared.answer.Kind.TheVariants as kind;
ghost use Rattle.trace.specs.declared.commands.Command.{Command};
ghost use Rattle.volume.specs.{Volume.flash_of, declared.volume.Volume.Volume};
ghost use Rattle.workers.specs.{Able.IsAble, Runs.ArePlayed, Meetings.PassesMet, declared.worker.Worker.Worker};
ghost use Rattle.workers.specs.Runs.{HasBegun, HasEnded, HasRun, HasOwnLines, denied_by, rows_of};
ghost use Rattle.laws.specs.Rounds.{meeting, read, write_by};

/// What a run that has begun and one that has ended say of each worker.
pub fn runs_of_workers()
    ensures may_begin { (v : Volume) (p : Worker) → arc_value p.commands ≡ []
        → p.places.items ≡ [] → said_in p.answers ≡ [] → (view_of p.pass).seen ≡ []
        → (view_of p.pass).mine ≡ [] → (view_of p.pass).programs ≡ []
        → HasBegun v [] (0 ∷ []) (p ∷ []) }
    ensures begun { (v : Volume) (trace : List Command) (ends : List ℕ) (ps : List Worker)
        → HasBegun v trace ends ps → ends ≡ ends_of trace }
    ensures unknown { (v : Volume) (p : Worker) (ends : List ℕ)
        → ¬ HasBegun v (read 1 ∷ []) ends (p ∷ []) }
    ensures beyond { (v : Volume) (p : Worker) (ends : List ℕ)
        → sectors_of (geometry_of (flash_of v)) ≡ 5 → ¬ HasBegun v (read 0 ∷ []) ends (p ∷ []) }
    ensures other_lines { (v : Volume) (p : Worker) (ends : List ℕ)
        → p.places.items ≡ [] → ¬ HasBegun v (read 0 ∷ []) ends (p ∷ []) }
    ensures played_before { (v : Volume) (p : Worker) (s : Said) (ends : List ℕ)
        → said_in p.answers ≡ s ∷ [] → ¬ HasBegun v [] ends (p ∷ []) }
    ensures called_before { (v : Volume) (p : Worker) (x : Call) (ends : List ℕ)
        → (view_of p.pass).mine ≡ x ∷ [] → ¬ HasBegun v [] ends (p ∷ []) }
    ensures seen_before { (v : Volume) (p : Worker) (x : Call) (ends : List ℕ)
        → (view_of p.pass).seen ≡ x ∷ [] → ¬ HasBegun v [] ends (p ∷ []) }
    ensures filled_before { (v : Volume) (p : Worker) (m : MapWord) (ends : List ℕ)
        → (view_of p.pass).programs ≡ m ∷ [] → ¬ HasBegun v [] ends (p ∷ []) }
    ensures each { (v : Volume) (trace : List Command) (ps : List Worker) (q : Worker)
        → HasEnded v 9 trace ps (q ∷ []) → HasOwnLines trace 0 q
        × HasRun 0 9 (denied_by v ps 0) (lines_for 0 trace) (said_in q.answers) (view_of q.pass) }
    ensures text { (v : Volume) (trace : List Command) (ps qs : List Worker)
        → HasEnded v 9 trace ps qs → IsDisjointTrace trace
        → IsTextOfSome (sectors_of (geometry_of (flash_of v))) trace
        (lines_text 0 (merge trace (rows_of qs))) }
    ensures has_run { (lines : List Command) (answers : List Said) (v : View)
        → HasRun 2 9 [] lines answers v → (v.mine ≡ calls_done 2 lines answers)
        × (length v.programs ≡ writes_done lines answers)
        × Plays v.numbers.sectors 2 [] lines answers v.seen }
    ensures denied { (x : List ℕ) (a : Said) (v : View) → a.kind ≡ kind.Full
        → v.numbers.blocks ≡ 3 → HasRun 2 1 (7 ∷ []) (write_by 2 0 x ∷ []) (a ∷ []) v
        → v.denied ≡ 7 ∷ 0 ∷ 1 ∷ 2 ∷ [] }
    ensures played { (g : Geometry) (trace : List Command) (rows : ℕ → List Said)
        → ArePlayed g trace rows → IsDisjointTrace trace
        → IsTextOfSome (sectors_of g) trace (lines_text 0 (merge trace rows)) }
    ensures calls { (n : ℕ) (trace : List Command) (rows : ℕ → List Said)
        → (h : AreAtOneHistory n 1 trace rows)
        → (calls_of 0 h.history ≡ calls_done 0 (lines_for 0 trace) (rows 0))
        × Plays n 0 [] (lines_for 0 trace) (rows 0) h.history }
    ensures no_meeting { (v : Volume) (p : Pass) (a : Answers) (b : List ℕ)
        → ¬ IsAble v (meeting ∷ []) p (0 ∷ []) a b }
    ensures pages { (v : Volume) (ls : List Command) (p : Pass) (a : Answers) (b : List ℕ)
        → IsAble v ls p [] a b
        → page_size_of a ≡ page_bytes_of (geometry_of (flash_of v)) }
    ensures looked { (v : Volume) (p q : Pass) → PassesMet v (p ∷ []) (q ∷ [])
        → ((view_of q).programs ≡ (view_of p).programs)
        × ((view_of q).denied ≡ (view_of p).denied) }
{}
