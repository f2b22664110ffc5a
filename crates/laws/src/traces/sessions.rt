ghost use Rattle.std.specs.Prelude.{◌≡◌, ◌+◌, ℕ, IfSome, List, Option, [], ◌∷◌, Err, None, Ok, Result, Some, codes, false, is_some, not, true};
ghost use Rattle.answers.specs.{Answers.end_text, Outcome.ExplainsRun, declared.fault.RunFault.RunFault};
ghost use Rattle.answers.specs.Streams.{Passage, Stream, stream_of, Part, Whole, Writes, Tells};
ghost use Rattle.answers.specs.declared.delivery.OutputFailed.{OutputFailed};
ghost use Rattle.clap.specs.{Words.IsAmong, Words.Text, Words.first_of, Words.kind_of, Words.one_of, declared.error.Error.Error};
ghost use Rattle.geometry.specs.{Geometry.hosts_of, Geometry.numbers_of, declared.limits.GeometryFault.GeometryFault, declared.geometry.Geometry.Geometry};
ghost use Rattle.geometry.specs.Limits.{first_fault, numbers};
ghost use Rattle.player.specs.CommandLine.{AreOptionsOf, IsNumberIn, faults_given, numbers_given, rows_given, rows_named};
ghost use Rattle.player.specs.Session.{AsksClap, HasFailedToOpen, MovesNothing, IsLogBy, IsOpenedAs, IsRefused, IsRefusedAs, IsTextFor, portion_left_by};
ghost use Rattle.player.specs.Session.{EndsOn, ExplainsFile, ExplainsStop, FailsToOpen, Helped, OpensFiles, WritesFile, WritesSome, stop_of_open};
ghost use Rattle.player.specs.{Session.filing, Session.name_given, Telling.TellsStop};
ghost use Rattle.player.specs.declared.command_line.Options.{Options};
ghost use Rattle.player.specs.declared.{run_files.FileStop.FileStop, run_files.RunFile.RunFile};
ghost use Rattle.player.specs.declared.run_files.FileStop.TheVariants as file_stop;
ghost use Rattle.player.specs.declared.run_files.RunFile.TheVariants as run_file;
ghost use Rattle.player.specs.Session.{Finishes, IsLogFor, counted_refusals, outcome_of, refusal_by};
ghost use Rattle.player.specs.declared.stop.Stop.{Stop};
ghost use Rattle.player.specs.declared.stop.Stop.TheVariants as stop;
ghost use Rattle.runs.specs.Logs.{IsWearOf, IsLogOf};
ghost use Rattle.runs.specs.{Logs.IsBroomLogOf, Outputs.IsLastLineOf, Outputs.IsOutputByWorkers, Outputs.IsOutputOf};
ghost use Rattle.streams.specs.{Watched.failures_of, Watched.inner_of, declared.named_file.OpenFault.OpenFault, declared.watched.Watched.Watched};
ghost use Rattle.streams.specs.declared.named_file.OpenFault.TheVariants as open_fault;
ghost use Rattle.laws.specs.Sessions.{EndsBy, EndsWith, Gives, PlaysAll, Reports, in_use, named_b, system_refused, unknown_files, untold, untold_bytes};
ghost use Rattle.laws.specs.Sessions.{IsEarly, NeitherFails, untold_name, Same, passes};
ghost use Rattle.runs.specs.declared.files.RunFiles.{RunFiles};

/// What the status of a session says of what was read and written.
pub fn ends_of_a_session()
    ensures quiet { (w : List Text) (i o e : Passage) → EndsWith 0 w i o e → e.after ≡ e.before }
    ensures well { (w : List Text) (i o e : Passage)
        → EndsWith 0 w i o e → o.after.failures ≡ o.before.failures }
    ensures words { (w : List Text) (i o e : Passage) → EndsWith 2 w i o e
        → (i.after ≡ i.before) × (o.after ≡ o.before) }
    ensures trace { (w : List Text) (i o e : Passage) → EndsWith 3 w i o e → o.after ≡ o.before }
    ensures memory { (e : Passage) → TellsStop stop.Memory e
        → e.after.failures ≡ e.before.failures → Writes Whole (codes "memory: refused\n") e }
    ensures played { (w : List Text) (i o e : Passage)
        → EndsWith 0 w i o e → faults_given w ≡ [] → PlaysAll w i o }
    ensures which { (f : GeometryFault) (w : List Text) (i o e : Passage)
        → EndsBy (Err (stop.Geometry f)) w i o e → (given : Options)
        × AreOptionsOf w given × (first_fault (numbers_given given) ≡ Some f)
        × (faults_given w ≡ []) × MovesNothing i o
        × TellsStop (stop.Geometry f) e }
    ensures stopped { (f : RunFault) (w : List Text) (i o e : Passage)
        → EndsBy (Err (stop.Run f)) w i o e → (given : Options) × (g : Geometry)
        × AreOptionsOf w given × (numbers_of g ≡ numbers_given given)
        × (faults_given w ≡ []) × ExplainsRun (IsTextFor given) g i o f
        × TellsStop (stop.Run f) e }
    ensures helped { (w : List Text) (i o e : Passage)
        → EndsWith 0 w i o e → ¬ (faults_given w ≡ []) → (k : Error)
        × IsAmong (kind_of k) (faults_given w) × AsksClap (kind_of k)
        × (i.after ≡ i.before) × (t : List ℕ) × Writes Whole t o }
    ensures help_failed { (w : List Text) (i o e : Passage) → EndsBy (Err stop.Help) w i o e
        → (k : Error) × IsAmong (kind_of k) (faults_given w)
        × AsksClap (kind_of k) × (i.after ≡ i.before)
        × (f : OutputFailed) × WritesSome (Err f) o }
    ensures refused { (w : List Text) → IsRefused w → (k : Error)
        × IsAmong (kind_of k) (faults_given w) × (¬ AsksClap (kind_of k)) }
    ensures memory_part { (e : Passage) → TellsStop stop.Memory e
        → Writes Part (codes "memory: refused\n") e }
    ensures unwritten { (w : List Text) (i o e : Passage)
        → EndsWith 5 w i o e → o.after.failures ≡ o.before.failures }
    ensures other { (s : ℕ) (w : List Text) (i o e : Passage) → EndsWith (6 + s) w i o e → ⊥ }
{}

/// What is known of why a file could not be opened decides how a session reports it.
pub fn refusals_of_files()
    ensures in_use { (¬ Reports run_file.Wear file_stop.NotOpened in_use)
        × (¬ Reports run_file.Collections file_stop.NotOpened in_use) }
    ensures refused { (¬ Reports run_file.Wear file_stop.NotItsOwn system_refused)
        × (¬ Reports run_file.Collections file_stop.NotItsOwn system_refused) }
    ensures known { (a : Watched ℕ) → (¬ IsRefusedAs in_use a open_fault.Refused)
        × IsRefusedAs in_use a open_fault.InUse }
    ensures unknown { (a : Watched ℕ) (fault : OpenFault) → IsRefusedAs untold a fault }
    ensures fails { (a : Watched ℕ) (fault : OpenFault)
        → ¬ HasFailedToOpen fault (filing untold_name untold untold_bytes a a) }
{}

/// What a session writes to the files that the options name, and to those that they don't.
pub fn files_of_a_session()
    ensures unnamed { (i : Stream) (a b : Watched ℕ)
        → WritesFile None Same i (filing untold_name untold untold_bytes a b) (Ok tt)
        → failures_of b ≡ failures_of a }
    ensures none_lost { (f : OutputFailed) (i : Stream) (a b : Watched ℕ)
        → ¬ WritesFile None Same i (filing untold_name untold untold_bytes a b) (Err f) }
    ensures named { (i : Stream) (a b : Watched ℕ)
        → WritesFile (Some (codes "a")) Same i (filing untold_name untold untold_bytes a b) (Ok tt)
        → failures_of b ≡ failures_of a }
    ensures lost { (f : OutputFailed) (i : Stream) (a : Watched ℕ)
        → ¬ WritesFile (Some (codes "a")) Same i
        (filing untold_name untold untold_bytes a a) (Err f) }
    ensures other_name { (r : Result (Unit {0}) OutputFailed) (i : Stream) (a b : Watched ℕ)
        → ¬ WritesFile (Some (codes "a")) Same i (filing named_b untold untold_bytes a b) r }
    ensures ending { (r : Result (Unit {0}) Stop) (g : Geometry) (given : Options) (i o : Passage)
        (a b : RunFiles ℕ) → (h : Finishes r g given i o (unknown_files a b))
        → r ≡ outcome_of h.log h.wear (refusal_by (hosts_of g))
        (counted_refusals given h.plays.refused) }
    ensures log { (r : Result (Unit {0}) Stop) (g : Geometry) (given : Options) (i o : Passage)
        (a b : RunFiles ℕ) → (h : Finishes r g given i o (unknown_files a b))
        → WritesFile (name_given run_file.Collections given) (IsLogFor given g)
        i.before (unknown_files a b).collections h.log }
    ensures wear { (r : Result (Unit {0}) Stop) (g : Geometry) (given : Options) (i o : Passage)
        (a b : RunFiles ℕ) → (h : Finishes r g given i o (unknown_files a b))
        → WritesFile (name_given run_file.Wear given) (IsWearOf g)
        i.before (unknown_files a b).wear h.wear }
    ensures opened { (n : ℕ → Option Text) (b : ℕ → Option (List ℕ)) (a : Watched ℕ) (t : Text)
        → (h : IsOpenedAs n b a t)
        → (stream_of b h.opened ≡ stream_of b a)
        × IfSome (n (inner_of h.opened)) (λ known. known ≡ t) }
    ensures limit { (g : Geometry) (bytes text : List ℕ)
        → IsLogBy 1 7 g bytes text → IsBroomLogOf 7 g bytes text }
{}

/// The files of a run that a session leaves as they were, and the one that could not be opened, by how the session ended.
pub fn files_left_by_a_session()
    ensures early { (s : Stop) (w : List Text) (i o : Passage) (a b : RunFiles ℕ) → IsEarly s
        → ExplainsStop s w i o (unknown_files a b) → MovesNothing i o × NeitherFails a b }
    ensures help { (r : Result (Unit {0}) OutputFailed) (w : List Text) (i o : Passage)
        (a b : RunFiles ℕ) → Helped r w i o (unknown_files a b) → NeitherFails a b }
    ensures with_workers { (f : RunFile) (g : Geometry) (given : Options) (i o : Passage)
        (a b : RunFiles ℕ)
        → ExplainsFile f file_stop.NotWithWorkers g given i o (unknown_files a b)
        → (¬ (hosts_of g ≡ 0)) × (f ≡ run_file.Wear)
        × (is_some (name_given f given) ≡ true) × MovesNothing i o × NeitherFails a b }
    ensures not_opened { (f : RunFile) (g : Geometry) (given : Options) (i o : Passage)
        (a b : RunFiles ℕ)
        → ExplainsFile f file_stop.NotOpened g given i o (unknown_files a b)
        → (is_some (name_given f given) ≡ true) × MovesNothing i o
        × FailsToOpen f open_fault.Refused given (unknown_files a b) }
    ensures in_use { (f : RunFile) (g : Geometry) (given : Options) (i o : Passage)
        (a b : RunFiles ℕ)
        → ExplainsFile f file_stop.NotItsOwn g given i o (unknown_files a b)
        → (is_some (name_given f given) ≡ true) × MovesNothing i o
        × FailsToOpen f open_fault.InUse given (unknown_files a b) }
    ensures wear { (c : OpenFault) (given : Options) (a b : RunFiles ℕ)
        → FailsToOpen run_file.Wear c given (unknown_files a b)
        → (¬ (failures_of b.wear ≡ failures_of a.wear))
        × (failures_of b.collections ≡ failures_of a.collections) }
    ensures log { (c : OpenFault) (given : Options) (a b : RunFiles ℕ)
        → FailsToOpen run_file.Collections c given (unknown_files a b)
        → (failures_of b.wear ≡ failures_of a.wear)
        × (¬ (failures_of b.collections ≡ failures_of a.collections)) }
    ensures stopped { (f : RunFault) (g : Geometry) (given : Options) (i o : Passage)
        (a b : RunFiles ℕ) → EndsOn (Err (stop.Run f)) g given i o (unknown_files a b)
        → (failures_of b.wear ≡ failures_of a.wear)
        × Tells (portion_left_by (hosts_of g) f (is_some given.collections)) (IsLogOf g)
        i.before (unknown_files a b).collections.stream }
    ensures portion { (f : RunFault) (g : Geometry) (i : Stream)
        → ¬ Tells (portion_left_by 1 f true) (IsLogOf g) i (passes [] (2 ∷ [])) }
    ensures opened { (given : Options) (a b : RunFiles ℕ)
        → OpensFiles (Ok tt) given (unknown_files a b) → NeitherFails a b }
    ensures why { (f : RunFile) (c : FileStop) (given : Options) (a b : RunFiles ℕ)
        → OpensFiles (Err (stop.File f c)) given (unknown_files a b)
        → (o : OpenFault) × (c ≡ stop_of_open o) × (is_some (name_given f given) ≡ true)
        × FailsToOpen f o given (unknown_files a b) }
{}

/// What the words of a command line give for each option: the number that they write for it or its default, the names of the files, and whether
/// the answers are left out; which device these describe, and what is then written to the output.
pub fn options_of_a_session()
    ensures defaults { (w : List Text) (given : Options) → rows_named w ≡ [] → AreOptionsOf w given
        → (numbers_given given ≡ numbers 1 64 64 64 3072 1000 0 0)
        × (given.patience ≡ 1000000) × (given.drains ≡ 1) }
    ensures device { (w : List Text) (given : Options) (t : Text) → AreOptionsOf w given
        → (Gives w (codes "luns") t → IsNumberIn 0 4294967295 t (numbers_given given).luns)
        × (Gives w (codes "blocks") t → IsNumberIn 0 4294967295 t (numbers_given given).blocks)
        × (Gives w (codes "pages") t → IsNumberIn 0 4294967295 t (numbers_given given).pages)
        × (Gives w (codes "words") t → IsNumberIn 0 4294967295 t (numbers_given given).words)
        × (Gives w (codes "sectors") t → IsNumberIn 0 4294967295 t (numbers_given given).sectors)
        × (Gives w (codes "endurance") t
        → IsNumberIn 0 4294967295 t (numbers_given given).endurance) }
    ensures threads { (w : List Text) (given : Options) (t : Text) → AreOptionsOf w given
        → (Gives w (codes "workers") t → IsNumberIn 0 4294967295 t (numbers_given given).hosts)
        × (Gives w (codes "brooms") t → IsNumberIn 0 4294967295 t (numbers_given given).brooms)
        × (Gives w (codes "patience") t → IsNumberIn 1 1000000000 t given.patience)
        × (Gives w (codes "drains") t → IsNumberIn 1 4096 t given.drains) }
    ensures files { (w : List Text) (given : Options) → AreOptionsOf w given
        → (name_given run_file.Wear given ≡ first_of (codes "wear") (rows_given w))
        × (name_given run_file.Collections given ≡ first_of (codes "collections") (rows_given w)) }
    ensures quiet { (w : List Text) (given : Options) → AreOptionsOf w given
        → (one_of (codes "quiet") (rows_given w) ≡ None → given.quiet ≡ false)
        × (one_of (codes "quiet") (rows_given w) ≡ Some (codes "true") → given.quiet ≡ true)
        × (one_of (codes "quiet") (rows_given w) ≡ Some (codes "false") → given.quiet ≡ false) }
    ensures all_written { (w : List Text) (given : Options) → AreOptionsOf w given
        → (one_of (codes "all-written") (rows_given w) ≡ None → given.all_written ≡ false)
        × (one_of (codes "all-written") (rows_given w) ≡ Some (codes "true")
        → given.all_written ≡ true)
        × (one_of (codes "all-written") (rows_given w) ≡ Some (codes "false")
        → given.all_written ≡ false) }
    ensures one_thread { (given : Options) (g : Geometry) (b t : List ℕ)
        → hosts_of g ≡ 0 → IsTextFor given g b t → IsOutputOf (not given.quiet) g b t }
    ensures by_workers { (given : Options) (g : Geometry) (b t : List ℕ)
        → hosts_of g ≡ 2 → IsTextFor given g b t
        → IsOutputByWorkers (not given.quiet) g b t }
    ensures quiet_text { (g : Geometry) (b t : List ℕ)
        → IsOutputOf false g b t → IsLastLineOf g b t }
    ensures quiet_workers { (g : Geometry) (b t : List ℕ)
        → IsOutputByWorkers false g b t → t ≡ end_text }
{}
