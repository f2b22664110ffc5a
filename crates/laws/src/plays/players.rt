//! Laws of workers, of their answers and of the rounds that they play.
ghost use Rattle.std.specs.{Prelude.◌≡◌, Prelude.◌+◌, Prelude.◌++◌, Prelude.ℕ, Prelude.List, Prelude.[], Prelude.◌∷◌, Prelude.length, Arc.arc_value};
ghost use Rattle.flash_rule.specs.declared.facts.Name.TheVariants as name;
ghost use Rattle.flash_rule.specs.declared.facts.Role.TheVariants as seat;
ghost use Rattle.flash_table.specs.{Flash.geometry_of, Flash.view_of, GivingUp.closed_broom, Steps.HasNumber, declared.pass.Pass.Pass};
ghost use Rattle.geometry.specs.{Geometry.hosts_of, Geometry.sectors_of, Geometry.words_of, History.Begins, declared.geometry.Geometry.Geometry};
ghost use Rattle.geometry.specs.declared.answer.Was.TheVariants as was;
ghost use Rattle.broom.specs.{Ready.folded_view, Ready.blocks_of_broom, Ready.view_of_broom, declared.broom.Broom.Broom};
ghost use Rattle.host.specs.Ready.{IsReady};
ghost use Rattle.rounds.specs.Answers.{HasSpaceFor, IsCursorOf, first_place, answer_index, said_in};
ghost use Rattle.rounds.specs.Lines.{Said, kind_of, said};
ghost use Rattle.rounds.specs.{Merging.HaveAnswers, Pages.bytes_in, Pages.bytes_of, Plans.ends_of, Plans.places_for, Merging.AreAtOneHistory};
ghost use Rattle.rounds.specs.Merging.{answers_by};
ghost use Rattle.rounds.specs.declared.{answer.Answer.Answer, answer_list.Answers.Answers};
ghost use Rattle.rounds.specs.declared.answer.Kind.TheVariants as kind;
ghost use Rattle.trace.specs.declared.commands.Command.{Command};
ghost use Rattle.trace.specs.declared.commands.Op.TheVariants as op;
ghost use Rattle.volume.specs.{Volume.IsBroomReady, Volume.flash_of, declared.volume.Volume.Volume};
ghost use Rattle.workers.specs.{Able.IsAble, Runs.ArePlayed, Dealing.AreReady, Served.HaveFolded, Tasks.HavePlayed, declared.worker.Worker.Worker};
ghost use Rattle.workers.specs.Meetings.{AreSeated, IsAt, PassesMet, passes_of, rest_of};
ghost use Rattle.workers.specs.Playable.{HasAnswered, HasPage, HasPlayedLines, IsLine, added, lines_at, no_line};
ghost use Rattle.workers.specs.{Runs.AreManned, Runs.EndsRun, Runs.HasBegun, Runs.RoundPlayed, Runs.rows_of, Workers.HasPlayed, Workers.round_lines};
ghost use Rattle.workers.specs.declared.collector.{Collector.Collector, collector_end.CollectorEnd.CollectorEnd};
ghost use Rattle.workers.specs.declared.worker.round_limits.RoundLimits.{RoundLimits};
ghost use Rattle.laws.specs.Rounds.{meeting, plain_line, read, rows_with};

/// Which lines a worker can do, where they are in the trace, and which answers it gave.
pub fn lines_and_answers_of_workers()
    ensures line { (g : Geometry) → sectors_of g ≡ 6 → IsLine g (plain_line 1 op.Read 5) }
    ensures no_sector { (g : Geometry) → sectors_of g ≡ 6 → ¬ IsLine g (plain_line 1 op.Read 6) }
    ensures no_page { (g : Geometry) → words_of g ≡ 1
        → (¬ IsLine g (plain_line 0 op.Write 0)) × (¬ IsLine g (plain_line 0 op.New 0)) }
    ensures meet { (g : Geometry) → ¬ IsLine g meeting }
    ensures page { (g : Geometry) (a : Answer) → words_of g ≡ 1
        → (length a.page.items ≡ 8 → HasPage g a) × (length a.page.items ≡ 7 → ¬ HasPage g a) }
    ensures lines { (d e : Command)
        → lines_at (d ∷ e ∷ []) (1 ∷ 0 ∷ 5 ∷ []) ≡ e ∷ d ∷ no_line ∷ [] }
    ensures places { (places_for 1 (read 1 ∷ read 0 ∷ meeting ∷ read 1 ∷ []) ≡ 0 ∷ 3 ∷ [])
        × (places_for 0 (read 1 ∷ meeting ∷ []) ≡ []) }
    ensures ends { ends_of (read 1 ∷ read 0 ∷ meeting ∷ read 1 ∷ []) ≡ 2 ∷ 4 ∷ [] }
    ensures said { (a : Answer) → ((said a).kind ≡ a.kind) × ((said a).page ≡ a.page.items) }
    ensures kinds { (kind_of was.Empty ≡ kind.Empty) × (kind_of was.Written ≡ kind.Written) }
    ensures bytes { (bytes_of 8 kind.Page ≡ 8) × (bytes_of 8 kind.Empty ≡ 0)
        × (bytes_of 8 kind.Written ≡ 0) × (bytes_of 8 kind.Met ≡ 0)
        × (bytes_of 8 kind.Full ≡ 0) }
    ensures all_bytes { bytes_in 8 (kind.Page ∷ kind.Empty ∷ kind.Page ∷ []) ≡ 16 }
    ensures rows { (a b : Answers) → (answers_by (a ∷ b ∷ []) 1 ≡ said_in b)
        × (answers_by (a ∷ b ∷ []) 2 ≡ []) }
    ensures first { (a : Answers) → IsCursorOf a first_place × (answer_index first_place ≡ 0) }
    ensures answered { (s : Said)
        → HaveAnswers (rows_with (s ∷ []) []) (plain_line 0 op.Read 5 ∷ []) }
    ensures not_answered { (s : Said)
        → ¬ HaveAnswers (rows_with (s ∷ []) []) (plain_line 1 op.Read 5 ∷ []) }
    ensures added { (a b : Answers) (s t : Said) → said_in a ≡ s ∷ []
        → said_in b ≡ s ∷ t ∷ [] → added a b ≡ t ∷ [] }
    ensures has_answered { (a b : Answers) (d : Command)
        → HasAnswered (d ∷ []) a b → (length (said_in b) ≡ length (said_in a) + 1)
        × (said_in b ≡ said_in a ++ added a b) }
    ensures none_added { (a b : Answers) (d : Command)
        → said_in b ≡ said_in a → ¬ HasAnswered (d ∷ []) a b }
{}

/// What a worker can do in a round, what it has done, and what the workers of a round are.
pub fn workers_of_a_round()
    ensures able { (v : Volume) (p : Pass) (a : Answers) (b : List ℕ)
        → ¬ IsAble v [] p (0 ∷ []) a b }
    ensures within { (v : Volume) (ls : List Command) (p : Pass) (a : Answers) (b : List ℕ) (s : Said) → said_in a ≡ s ∷ [] → ¬ IsAble v ls p [] a b }
    ensures paged { (v : Volume) (ls : List Command) (p : Pass) (a : Answers)
        → words_of (geometry_of (flash_of v)) ≡ 1 → ¬ IsAble v ls p [] a (7 ∷ []) }
    ensures space { (v : Volume) (ls : List Command) (p : Pass) (ps : List ℕ) (a : Answers)
        (b : List ℕ) → IsAble v ls p ps a b → said_in a ≡ []
        → HasSpaceFor a (lines_at ls ps) }
    ensures is_ready { (v : Volume) (ls : List Command) (p : Pass) (a : Answers) (b : List ℕ)
        → IsAble v ls p [] a b → IsReady (flash_of v) p }
    ensures played_none { (p q : Pass) → HasNumber 2 p
        → HasPlayedLines 9 p [] [] q → ((view_of q).mine ≡ (view_of p).mine ++ [])
        × ((view_of q).erases ≡ (view_of p).erases) }
    ensures played_no_line { (p q : Pass) (d : Command)
        → HasNumber 2 p → ¬ HasPlayedLines 9 p (d ∷ []) [] q }
    ensures at { (v w : Volume) (p : Worker) → IsAt v p → IsAt w p → v ≡ w }
    ensures passes { (p q : Worker) → passes_of (p ∷ q ∷ []) ≡ p.pass ∷ q.pass ∷ [] }
    ensures rest { (p : Worker) → ((rest_of p).0 ≡ arc_value p.volume)
        × ((rest_of p).1 ≡ arc_value p.commands) × ((rest_of p).2 ≡ p.places.items)
        × ((rest_of p).3 ≡ p.answers) × ((rest_of p).4 ≡ p.buffer.items) }
    ensures seated { (p q : Pass) → AreSeated (p ∷ q ∷ [])
        → (view_of q).role ≡ seat.Player (name.Pass 1) }
    ensures misplaced { (p : Pass)
        → (view_of p).role ≡ seat.Player (name.Pass 1) → ¬ AreSeated (p ∷ []) }
    ensures met { (v : Volume) (p q : Pass) → PassesMet v (p ∷ []) (q ∷ [])
        → Begins (view_of p).seen (view_of q).seen
        × ((view_of q).mine ≡ (view_of p).mine) }
    ensures met_none { (v : Volume) (p : Pass) → ¬ PassesMet v (p ∷ []) [] }
    ensures has_played { (n : RoundLimits) (p q : Worker) → HasPlayed n p q
        → (arc_value q.volume ≡ arc_value p.volume) × (q.places.items ≡ p.places.items)
        × HasAnswered (round_lines n.end p) p.answers q.answers }
    ensures has_called { (n : RoundLimits) (p q : Worker)
        → (view_of p.pass).role ≡ seat.Player (name.Pass 2) → HasPlayed n p q
        → (view_of q.pass).erases ≡ (view_of p.pass).erases }
    ensures other_trace { (n : RoundLimits) (p q : Worker)
        → ¬ (arc_value q.commands ≡ arc_value p.commands) → ¬ HasPlayed n p q }
    ensures have_played { (n : RoundLimits) (p q : Worker)
        → HavePlayed n (p ∷ []) (q ∷ []) → HasPlayed n p q }
    ensures not_all { (n : RoundLimits) (p : Worker) → (¬ HavePlayed n (p ∷ []) [])
        × (¬ HavePlayed n [] (p ∷ [])) × HavePlayed n [] [] }
    ensures manned { (v : Volume) (p : Worker) → AreManned v (p ∷ [])
        → (arc_value p.volume ≡ v) × ((view_of p.pass).role ≡ seat.Player (name.Pass 0)) }
    ensures unmanned { (v : Volume) (p : Worker) → (¬ AreManned v [])
        × (hosts_of (geometry_of (flash_of v)) ≡ 2 → ¬ AreManned v (p ∷ [])) }
    ensures round { (v : Volume) (p q : Worker) → RoundPlayed v 9 5 (p ∷ []) (q ∷ [])
        → (r : Worker) × HasPlayed (record { end = 5; patience = 9 }) p r
        × (rest_of q ≡ rest_of r) }
    ensures round_met { (v : Volume) (ps qs : List Worker) → (h : RoundPlayed v 9 5 ps qs)
        → PassesMet v (passes_of h.between) (passes_of qs) }
    ensures no_round { (v : Volume) (p : Worker) → ¬ RoundPlayed v 9 5 (p ∷ []) [] }
    ensures ended { (v : Volume) (trace : List Command) (ps qs : List Worker)
        → HasBegun v trace (ends_of trace) ps → EndsRun v 9 (ends_of trace) ps qs
        → HaveAnswers (rows_of qs) trace
        × AreAtOneHistory (sectors_of (geometry_of (flash_of v))) (length qs) trace (rows_of qs) }
    ensures are_played { (g : Geometry) (rows : ℕ → List Said) (trace : List Command)
        → ArePlayed g trace rows
        → AreAtOneHistory (sectors_of g) (hosts_of g) trace rows }
    ensures ready { (v : Volume) (p : Pass) (b : Broom)
        → AreReady v (p ∷ []) (b ∷ []) → IsReady (flash_of v) p × IsBroomReady v b }
    ensures folded { (s : Collector) (e : CollectorEnd)
        → HaveFolded (s ∷ []) (e ∷ []) → (e.tally ≡ s.tally)
        × (folded_view e.folded ≡ closed_broom (view_of_broom s.broom) (blocks_of_broom s.broom)) }
    ensures not_folded { (s : Collector) (e : CollectorEnd)
        → (¬ HaveFolded (s ∷ []) []) × (¬ HaveFolded [] (e ∷ [])) × HaveFolded [] [] }
{}
