//! Laws of what a run reads and writes.
ghost use Rattle.std.specs.Prelude.{length, ◌≡◌, ℕ, List, [], ◌∷◌, Some, None, Ok, Err, true, false, codes};
ghost use Rattle.answers.specs.Answers.{broom_line, calls_of, collection_line, line_text, wear_line, wear_names};
ghost use Rattle.answers.specs.{Delivery.IsUnderWay, Outcome.run_text, Answers.IsPlayable, Answers.reply_of, Answers.reply_text};
ghost use Rattle.text.specs.Putting.{PutsText};
ghost use Rattle.answers.specs.Streams.{Moves, Passage, Stream, Tells, WritesOut, Part, Whole, Writes, WritesIf, TellsIf};
ghost use Rattle.answers.specs.declared.delivery.OutputFailed.{OutputFailed};
ghost use Rattle.answers.specs.declared.fault.RunFault.TheVariants as run;
ghost use Rattle.answers.specs.declared.reply.Reply.TheVariants as reply;
ghost use Rattle.geometry.specs.{Geometry.hosts_of, Geometry.sectors_of, Geometry.words_of, History.Trim, History.Write, declared.geometry.Geometry.Geometry};
ghost use Rattle.geometry.specs.Sectors.{sector_at};
ghost use Rattle.geometry.specs.declared.answer.Was.TheVariants as was;
ghost use Rattle.runs.specs.Logs.{log_part, IsLogged, IsOpen, due_before, is_wanted, portion_left, IsLogOf};
ghost use Rattle.runs.specs.Playing.{answer_by, line_by};
ghost use Rattle.runs.specs.declared.log.Log.TheVariants as log;
ghost use Rattle.ftl_one.specs.{Collections.collection_due, Stock.Stock, declared.one_ftl.OneFtl.OneFtl, OneFtl.array_of};
ghost use Rattle.hex.specs.Hex.{decode_of};
ghost use Rattle.trace.specs.{Page.IsData, Faults.fault_text, Loading.ExplainsLoad, Loading.most_bytes, Page.page_with};
ghost use Rattle.text.specs.Digits.{bytes_of};
ghost use Rattle.trace.specs.Trace.{AreCommands, IsFirstFault, is_of_record, op_name, whole_fault, workers_of};
ghost use Rattle.streams.specs.Watched.{after_call, after_write};
ghost use Rattle.trace.specs.declared.{commands.Command.Command, fault.TraceFault.TraceFault};
ghost use Rattle.trace.specs.declared.commands.Op.TheVariants as op;
ghost use Rattle.trace.specs.declared.fault.TraceFaultKind.TheVariants as fault;
ghost use Rattle.clap.specs.Words.{Text};
ghost use Rattle.player.specs.CommandLine.{AreWordsOf, WhyUnread};
ghost use Rattle.player.specs.declared.stop.Stop.TheVariants as stop;
ghost use Rattle.laws.specs.{Rounds.plain_line, Rounds.read, Rounds.write_by, Sessions.Same, Sessions.fails, Sessions.passes, Sessions.some_line};

/// When a writer has received a text, a beginning of it, or a text that is right for what was read.
pub fn texts_sent_to_a_writer()
    ensures sends { Writes Whole (2 ∷ []) (passes (1 ∷ []) (1 ∷ 2 ∷ [])) }
    ensures too_much { ¬ Writes Whole (2 ∷ []) (passes (1 ∷ []) (1 ∷ 2 ∷ 3 ∷ [])) }
    ensures nothing { ¬ Writes Whole (2 ∷ []) (passes (1 ∷ []) (1 ∷ [])) }
    ensures replaced { ¬ Writes Whole (2 ∷ []) (passes (1 ∷ []) (2 ∷ [])) }
    ensures beginning { Writes Part (2 ∷ 3 ∷ []) (passes (1 ∷ []) (1 ∷ 2 ∷ [])) }
    ensures no_beginning { ¬ Writes Part (2 ∷ 3 ∷ []) (passes [] (3 ∷ [])) }
    ensures tells { Tells Whole Same (record { failures = 0; bytes = Some (7 ∷ []) })
        (passes (1 ∷ []) (1 ∷ 7 ∷ [])) }
    ensures untrue { ¬ Tells Whole Same
        (record { failures = 0; bytes = Some (7 ∷ []) }) (passes [] (8 ∷ [])) }
    ensures moves { Moves (passes (1 ∷ []) (1 ∷ 2 ∷ [])) (3 ∷ []) (2 ∷ 3 ∷ []) }
    ensures not_waiting { ¬ Moves (passes [] (2 ∷ [])) [] (2 ∷ 3 ∷ []) }
    ensures under_way { IsUnderWay (Some []) (Some (2 ∷ [])) (3 ∷ []) (2 ∷ 3 ∷ []) }
    ensures order { ¬ IsUnderWay (Some []) (Some (2 ∷ [])) (3 ∷ []) (3 ∷ 2 ∷ []) }
    ensures written_out { WritesOut (2 ∷ []) (passes [] (2 ∷ [])) (Ok tt) }
    ensures cut_off { (f : OutputFailed) → WritesOut (2 ∷ 3 ∷ []) (fails [] (2 ∷ [])) (Err f) }
    ensures not_whole { ¬ WritesOut (2 ∷ 3 ∷ []) (passes [] (2 ∷ [])) (Ok tt) }
    ensures failure_untold { ¬ WritesOut (2 ∷ []) (fails [] (2 ∷ [])) (Ok tt) }
    ensures no_failure { (f : OutputFailed) → ¬ WritesOut (2 ∷ []) (passes [] (2 ∷ [])) (Err f) }
{}

/// How the file of a text ends, and what a log has of it.
pub fn ends_of_a_file()
    ensures whole { WritesIf true (2 ∷ []) (passes [] (2 ∷ [])) (Ok tt) }
    ensures failed { (f : OutputFailed) → WritesIf true (2 ∷ 3 ∷ []) (fails [] (2 ∷ [])) (Err f) }
    ensures unwanted { (p : Passage) → p.after ≡ p.before → WritesIf false (2 ∷ []) p (Ok tt) }
    ensures not_whole { ¬ WritesIf true (2 ∷ 3 ∷ []) (passes [] (2 ∷ [])) (Ok tt) }
    ensures failure_untold { ¬ WritesIf true (2 ∷ []) (fails [] (2 ∷ [])) (Ok tt) }
    ensures no_failure { (f : OutputFailed)
        → ¬ WritesIf true (2 ∷ []) (passes [] (2 ∷ [])) (Err f) }
    ensures written_unwanted { ¬ WritesIf false (2 ∷ []) (passes [] (2 ∷ [])) (Ok tt) }
    ensures unwanted_fails { (f : OutputFailed) (p : Passage)
        → ¬ WritesIf false (2 ∷ []) p (Err f) }
    ensures file { TellsIf true Same (record { failures = 0; bytes = Some (2 ∷ []) })
        (passes [] (2 ∷ [])) (Ok tt) }
    ensures file_failed { (f : OutputFailed) (i : Stream)
        → ¬ TellsIf true Same i (passes [] []) (Err f) }
    ensures file_untold { (i : Stream) → ¬ TellsIf true Same i (fails [] []) (Ok tt) }
    ensures file_unwanted { (i : Stream) → ¬ TellsIf false Same i (passes [] (2 ∷ [])) (Ok tt) }
    ensures file_never_fails { (f : OutputFailed) (i : Stream) (p : Passage)
        → ¬ TellsIf false Same i p (Err f) }
    ensures wanted { (is_wanted log.Unwanted ≡ false) × (is_wanted log.Failed ≡ true) }
    ensures open { (¬ IsOpen log.Unwanted) × (¬ IsOpen log.Failed) }
    ensures no_log { (p : Passage) → IsLogged log.Unwanted p (2 ∷ []) → p.after ≡ p.before }
    ensures failed_log { ¬ IsLogged log.Failed (passes [] []) (2 ∷ []) }
    ensures log_of_failed { IsLogged log.Failed (fails [] (2 ∷ [])) (2 ∷ 3 ∷ []) }
    ensures left { (t : TraceFault) (g : Geometry) (i : Stream)
        → ¬ Tells (portion_left (run.Trace t) true) (IsLogOf g) i (passes [] (2 ∷ [])) }
    ensures left_unwanted { (g : Geometry) (i : Stream)
        → ¬ Tells (portion_left run.Output false) (IsLogOf g) i (passes [] (2 ∷ [])) }
    ensures left_none { (g : Geometry) (i : Stream)
        → (¬ Tells (portion_left run.Memory true) (IsLogOf g) i (passes [] (2 ∷ [])))
        × (¬ Tells (portion_left run.Threads true) (IsLogOf g) i (passes [] (2 ∷ []))) }
    ensures due { (g : Geometry) (s : Stock) → (due_before op.Write g s ≡ collection_due g s)
        × (due_before op.New g s ≡ collection_due g s) }
    ensures none_due { (g : Geometry) (s : Stock) → (due_before op.Read g s ≡ None)
        × (due_before op.Trim g s ≡ None) × (due_before op.Meet g s ≡ None) }
{}

/// The lines and the words that are printed.
pub fn lines_of_reports()
    ensures line { line_text 2 op.Write 5 (codes "empty") ≡ codes "2,write,5,empty\n" }
    ensures names { (op_name op.Read ≡ codes "read") × (op_name op.New ≡ codes "new")
        × (op_name op.Trim ≡ codes "trim") × (op_name op.Meet ≡ codes "meet") }
    ensures wear { (wear_line 1 2 3 true ≡ codes "1,2,3,1\n")
        × (wear_line 1 2 3 false ≡ codes "1,2,3,0\n") }
    ensures wear_head { wear_names ≡ codes "block,erases,live,retired\n" }
    ensures collection { (collection_line 1 2 3 4 5 true ≡ codes "1,2,3,4,5,retired\n")
        × (collection_line 1 2 3 4 5 false ≡ codes "1,2,3,4,5,freed\n") }
    ensures logged { log_part 1
        (Some (record { victim = 2; copied = 3; copybacks = 4; erases = 5; retired = true }))
        ≡ codes "1,2,3,4,5,retired\n" }
    ensures not_logged { log_part 1 None ≡ [] }
    ensures broom { broom_line some_line ≡ codes "1,2,3,4,5,6,7,8,9,10,11\n" }
    ensures fault { fault_text (record { line = 7; kind = fault.Hex }) ≡ codes "line 7: Hex" }
    ensures run { (run_text run.Memory ≡ codes "memory: refused")
        × (run_text run.Threads ≡ codes "threads: refused")
        × (run_text run.Output ≡ codes "output: failed") }
    ensures replies { (reply_text reply.Empty [] ≡ codes "empty")
        × (reply_text reply.Written [] ≡ codes "written")
        × (reply_text reply.Worn [] ≡ codes "worn") }
    ensures more_replies { (reply_text reply.Full [] ≡ codes "full")
        × (reply_text reply.Met [] ≡ codes "met") × (reply_text reply.Page (7 ∷ []) ≡ 7 ∷ []) }
    ensures reply_was { (reply_of was.Empty ≡ reply.Empty)
        × (reply_of was.Written ≡ reply.Written) }
    ensures refused { calls_of true (write_by 0 5 []) ≡ [] }
    ensures calls { (x : List ℕ) → (calls_of false (write_by 3 5 x) ≡ Write 0 5 x ∷ [])
        × (calls_of false (plain_line 3 op.Trim 5) ≡ Trim 0 5 ∷ [])
        × (calls_of false (plain_line 3 op.Read 5) ≡ []) }
    ensures placed { PutsText (1 ∷ 2 ∷ 3 ∷ []) (1 ∷ 7 ∷ 9 ∷ []) 1 (7 ∷ []) 2 }
    ensures misplaced { (¬ PutsText (1 ∷ 2 ∷ []) (7 ∷ 2 ∷ []) 1 (7 ∷ []) 2)
        × (¬ PutsText (1 ∷ []) (1 ∷ 7 ∷ []) 1 (7 ∷ []) 2)
        × (¬ PutsText (1 ∷ 2 ∷ []) (1 ∷ 7 ∷ []) 1 (7 ∷ []) 3) }
{}

/// What the records of a trace are, why a trace is not played, and which commands a device can play.
pub fn commands_and_faults_of_a_trace()
    ensures commands { (d : Command) → AreCommands (Ok d ∷ []) (d ∷ [])
        × (¬ AreCommands (Ok d ∷ []) []) }
    ensures first { (d : Command)
        → IsFirstFault (Ok d ∷ Err fault.Hex ∷ Err fault.Op ∷ [])
        (record { line = 2; kind = fault.Hex }) }
    ensures line { (k : TraceFault) → k.line ≡ 0 → ¬ IsFirstFault (Err fault.Hex ∷ []) k }
    ensures whole { whole_fault fault.Memory ≡ record { line = 0; kind = fault.Memory } }
    ensures of_record { (is_of_record fault.Fields ≡ true)
        × (is_of_record fault.Unused ≡ true) × (is_of_record fault.Read ≡ false)
        × (is_of_record fault.Big ≡ false) }
    ensures read_failed { ExplainsLoad fault.Read 0 1 (Some []) (Some [])
        × (¬ ExplainsLoad fault.Read 0 0 (Some []) (Some [])) }
    ensures memory { ExplainsLoad fault.Memory 0 0 (Some []) (Some [])
        × (¬ ExplainsLoad fault.Memory 0 1 (Some []) (Some [])) }
    ensures not_big { (¬ ExplainsLoad fault.Big 0 0 (Some []) (Some []))
        × (¬ ExplainsLoad fault.Hex 0 0 (Some []) (Some [])) }
    ensures most { most_bytes ≡ 268435456 }
    ensures page { page_with 3 (7 ∷ []) ≡ 7 ∷ 0 ∷ 0 ∷ [] }
    ensures workers { (g : Geometry) → (hosts_of g ≡ 0 → workers_of g ≡ 500)
        × (hosts_of g ≡ 2 → workers_of g ≡ 2) }
    ensures count_call { (after_call {T = ℕ} {E = ℕ} 3 (Ok 0) ≡ 3)
        × (after_call {T = ℕ} {E = ℕ} 3 (Err 0) ≡ 4) }
    ensures count_write { (after_write {E = ℕ} 3 (7 ∷ []) (Ok 1) ≡ 3)
        × (after_write {E = ℕ} 3 (7 ∷ []) (Ok 0) ≡ 4) × (after_write {E = ℕ} 3 [] (Ok 0) ≡ 3)
        × (after_write {E = ℕ} 3 [] (Err 0) ≡ 4) }
    ensures playable { (g : Geometry) → hosts_of g ≡ 2
        → sectors_of g ≡ 6 → IsPlayable g (plain_line 1 op.Read 5) }
    ensures no_worker { (g : Geometry) → hosts_of g ≡ 2 → ¬ IsPlayable g (plain_line 2 op.Read 5) }
    ensures no_sector { (g : Geometry) → sectors_of g ≡ 6
        → ¬ IsPlayable g (plain_line 0 op.Read 6) }
    ensures no_page { (g : Geometry) → words_of g ≡ 1
        → (¬ IsPlayable g (plain_line 0 op.Write 0)) × (¬ IsPlayable g (plain_line 0 op.New 0)) }
{}

/// What the words of a command line are, and why they could not be read; and the answers of a layer.
pub fn words_of_a_command_line()
    ensures words { AreWordsOf (codes "flashplay" ∷ codes "-h" ∷ []) (codes "-h" ∷ []) }
    ensures no_program { ¬ AreWordsOf (codes "-h" ∷ []) (codes "-h" ∷ []) }
    ensures unread { (w : List Text) → WhyUnread (Some w) stop.Memory
        × (¬ WhyUnread (Some w) stop.Help) × (¬ WhyUnread (Some w) (stop.Encoding 0)) }
    ensures encoded { ¬ WhyUnread (Some []) (stop.Encoding 1) }
    ensures answer { (l : OneFtl) → sector_at (array_of l) 5 ≡ None
        → answer_by l (read 0) ≡ codes "empty" }
    ensures answer_line { (l : OneFtl) → sector_at (array_of l) 5 ≡ None
        → line_by l 3 (read 0) ≡ codes "3,read,5,empty\n" }
    ensures met { (l : OneFtl) → line_by l 3 (plain_line 0 op.Meet 5) ≡ codes "3,meet,5,met\n" }
    ensures digits { (text : List ℕ) → decode_of text ≡ Ok (10 ∷ []) → bytes_of text ≡ 10 ∷ [] }
    ensures data { (text : List ℕ) → decode_of text ≡ Ok (10 ∷ [])
        → length text ≡ 2 → IsData 1 text × (¬ IsData 0 text) }
{}
