//! Laws of what brooms do in a round, and of what a run by workers returns and writes.
ghost use Rattle.std.specs.Prelude.{◌≡◌, ◌≤◌, ℕ, Bool, IfSome, List, [], ◌∷◌, Ok, true, false, length};
ghost use Rattle.answers.specs.{Answers.end_text, Streams.Passage, Streams.Stream};
ghost use Rattle.answers.specs.Streams.{Whole, Writes, WritesIf};
ghost use Rattle.broom.specs.declared.answer.{Drain.Drain, Erase.Erase};
ghost use Rattle.broom.specs.declared.answer.Drain.TheVariants as drain;
ghost use Rattle.geometry.specs.{Geometry.hosts_of, declared.geometry.Geometry.Geometry};
ghost use Rattle.rounds.specs.{Lines.Said, Merging.HaveAnswers};
ghost use Rattle.runs.specs.{Logs.brooms_text, ByWorkers.WasPlayed, ByWorkers.answers_played, ByWorkers.commands_played, Texts.text_of};
ghost use Rattle.runs.specs.{Outputs.written_by_workers, declared.files.RunOptions.RunOptions, declared.played_by_workers.PlayedByWorkers.PlayedByWorkers};
ghost use Rattle.trace.specs.{Trace.commands_of, declared.commands.Command.Command};
ghost use Rattle.workers.specs.{Collecting.HasCollected, Collecting.HaveCollected, Runs.ArePlayed, Served.AllHaveServed, Turns.Follows};
ghost use Rattle.workers.specs.declared.collector.Collector.{Collector};
ghost use Rattle.workers.specs.declared.collector.broom_answer.BroomAnswer.TheVariants as by;

/// What the brooms of a round have done: each its own calls, and none is lost or made up.
pub fn brooms_of_a_round()
    ensures none { HaveCollected [] [] }
    ensures each { (s t : Collector) → HaveCollected (s ∷ []) (t ∷ []) → HasCollected s t }
    ensures lost { (s : Collector) → ¬ HaveCollected (s ∷ []) [] }
    ensures made_up { (s : Collector) → ¬ HaveCollected [] (s ∷ []) }
{}

/// What follows a drain: an erase; a restock exactly if the drain found no spare; and a drain of a block without live pages exactly if that
/// found none either.
pub fn calls_behind_a_drain()
    ensures erased { (e : Erase) → Follows drain.NothingToGain (by.Erase e ∷ []) }
    ensures restocked { (e : Erase) → Follows drain.NoSpare (by.Erase e ∷ by.Restock true ∷ []) }
    ensures drained { (e : Erase) (d : Drain)
        → Follows drain.NoSpare (by.Erase e ∷ by.Restock false ∷ by.DrainDead d ∷ []) }
    ensures not_restocked { (e : Erase) → ¬ Follows drain.NoSpare (by.Erase e ∷ []) }
    ensures not_drained { (e : Erase)
        → ¬ Follows drain.NoSpare (by.Erase e ∷ by.Restock false ∷ []) }
    ensures needless_drain { (e : Erase) (d : Drain)
        → ¬ Follows drain.NoSpare (by.Erase e ∷ by.Restock true ∷ by.DrainDead d ∷ []) }
    ensures needless { (e : Erase) (found : Bool)
        → ¬ Follows drain.NothingToGain (by.Erase e ∷ by.Restock found ∷ []) }
{}

/// What a run by workers writes of its answers: all of them, or only the last line.
pub fn outputs_by_workers()
    ensures whole { (commands : List Command) (rows : ℕ → List Said)
        → written_by_workers true commands rows ≡ text_of commands rows }
    ensures quiet { (commands : List Command) (rows : ℕ → List Said)
        → written_by_workers false commands rows ≡ end_text }
{}

/// What a run by workers returns and writes: the commands that its input means, answers for each worker at one history, what is wanted of the
/// output, and the ends of all its brooms with the log of these.
pub fn a_run_by_workers()
    ensures commands { (geo : Geometry) (w : RunOptions) (i : Stream) (o f : Passage) (run : PlayedByWorkers)
        → WasPlayed geo w i o f run
        → IfSome i.bytes (λ bytes. commands_of bytes geo ≡ Ok (commands_played run)) }
    ensures played { (geo : Geometry) (w : RunOptions) (i : Stream) (o f : Passage) (run : PlayedByWorkers)
        → WasPlayed geo w i o f run → (length run.end.rows.items ≡ hosts_of geo)
        × ArePlayed geo (commands_played run) (answers_played run) }
    ensures written { (geo : Geometry) (w : RunOptions) (i : Stream) (o f : Passage) (run : PlayedByWorkers)
        → WasPlayed geo w i o f run
        → Writes Whole (written_by_workers w.answers (commands_played run) (answers_played run)) o }
    ensures served { (geo : Geometry) (w : RunOptions) (i : Stream) (o f : Passage) (run : PlayedByWorkers)
        → WasPlayed geo w i o f run → AllHaveServed geo w.drains run.end.brooms.items
        × WritesIf w.log (brooms_text run.end.brooms.items) f run.log }
    ensures answered { (geo : Geometry) (w : RunOptions) (i : Stream) (o f : Passage) (run : PlayedByWorkers) → WasPlayed geo w i o f run
        → (length run.end.rows.items ≤ 500)
        × HaveAnswers (answers_played run) (commands_played run) }
{}
