//! Laws of the words and lines that are printed, and of why a run stops.
ghost use Rattle.std.specs.Prelude.{◌≡◌, ◌+◌, ℕ, List, [], ◌∷◌, ◌++◌, Option, Some, None, true, false, codes};
ghost use Rattle.answers.specs.{Answers.wear_names, Delivery.AppendsBeginning, Outcome.ExplainsRun, Outcome.ExplainsTrace, Streams.Passage, Streams.over};
ghost use Rattle.answers.specs.declared.fault.RunFault.TheVariants as run;
ghost use Rattle.broom.specs.{Emptying.pages_to_fill, declared.broom.Broom.Broom};
ghost use Rattle.broom.specs.Ready as ready;
ghost use Rattle.erase_queue.specs.Queue as queue;
ghost use Rattle.erase_queue.specs.declared.{pass.QueuePass.QueuePass, queue.EraseQueue.EraseQueue};
ghost use Rattle.erase_queue.specs.declared.sight.Role.TheVariants as queue_role;
ghost use Rattle.flash_rule.specs.declared.facts.Source.{Source};
ghost use Rattle.flash_rule.specs.Views.{AreOfHosts};
ghost use Rattle.flash_rule.specs.declared.facts.Name.TheVariants as name;
ghost use Rattle.flash_table.specs.{Flash.IsBroomOf, Flash.geometry_of, declared.pass.OpenBlock.OpenBlock};
ghost use Rattle.flash_table.specs.{Flash.broom_view, Flash.own_blocks, Owning.owned_of, declared.broom_seat.BroomSeat.BroomSeat, declared.flash.Flash.Flash};
ghost use Rattle.flash_table.specs.declared.broom_seat.Reclaiming.TheVariants as reclaiming;
ghost use Rattle.ftl_one.specs.{Lawful.blocks_in, Stock.Stock, Stock.next, Store.entries_of, Store.erases_of, declared.store.Store.Store};
ghost use Rattle.ftl_one.specs.declared.role.Role.TheVariants as role;
ghost use Rattle.geometry.specs.Geometry.{blocks_of, hosts_of, pages_of};
ghost use Rattle.geometry.specs.{Limits.fault_name, History.Trim, Words.phase_bits, Sectors.was_of};
ghost use Rattle.geometry.specs.declared.geometry.Geometry.{Geometry};
ghost use Rattle.geometry.specs.declared.answer.Was.TheVariants as was;
ghost use Rattle.geometry.specs.declared.limits.GeometryFault.TheVariants as geometry_fault;
ghost use Rattle.geometry.specs.declared.words.Phase.TheVariants as phase;
ghost use Rattle.player.specs.{Session.status_of, Telling.file_name, Telling.file_text};
ghost use Rattle.player.specs.declared.run_files.FileStop.TheVariants as file_stop;
ghost use Rattle.player.specs.declared.run_files.RunFile.TheVariants as run_file;
ghost use Rattle.player.specs.declared.stop.Stop.TheVariants as stop;
ghost use Rattle.rounds.specs.{Answers.HasSpace, Answers.HasSpaceFor, Answers.page_size_of, Lines.Said, declared.answer_list.Answers.Answers};
ghost use Rattle.runs.specs.{Texts.text_of, Playing.end_text, Playing.is_refused, Playing.stock_after, Logs.block_line, Logs.wear_text};
ghost use Rattle.trace.specs.{Faults.kind_name, Trace.checked, Trace.command_of, Trace.records_of};
ghost use Rattle.streams.specs.Watched.{failures_of, inner_of};
ghost use Rattle.trace.specs.declared.fault.TraceFault.{TraceFault};
ghost use Rattle.streams.specs.declared.watched.Watched.{Watched};
ghost use Rattle.trace.specs.declared.commands.Op.TheVariants as op;
ghost use Rattle.trace.specs.declared.fault.TraceFaultKind.TheVariants as fault;
ghost use Rattle.laws.specs.{Blocks.block_with, Blocks.live, Blocks.stock_with, Brooms.a_page, Rounds.plain_line, Rounds.read, Rounds.write_by};
ghost use Rattle.laws.specs.{Sessions.Same, Sessions.fails, Sessions.passes, Steps.a_reclaimed, Steps.an_open, Steps.an_owned};

/// The names of faults and files, and the status of a session that stopped.
pub fn names_of_faults()
    ensures numbers { (fault_name geometry_fault.Luns ≡ codes "Luns")
        × (fault_name geometry_fault.Blocks ≡ codes "Blocks")
        × (fault_name geometry_fault.Pages ≡ codes "Pages")
        × (fault_name geometry_fault.Words ≡ codes "Words")
        × (fault_name geometry_fault.Sectors ≡ codes "Sectors") }
    ensures more_numbers { (fault_name geometry_fault.Endurance ≡ codes "Endurance")
        × (fault_name geometry_fault.Passes ≡ codes "Passes")
        × (fault_name geometry_fault.TooManyWords ≡ codes "TooManyWords")
        × (fault_name geometry_fault.TooFewBlocks ≡ codes "TooFewBlocks") }
    ensures records { (kind_name fault.Fields ≡ codes "Fields")
        × (kind_name fault.Worker ≡ codes "Worker") × (kind_name fault.Op ≡ codes "Op")
        × (kind_name fault.Sector ≡ codes "Sector") × (kind_name fault.Hex ≡ codes "Hex") }
    ensures more_records { (kind_name fault.TooLong ≡ codes "TooLong")
        × (kind_name fault.Unused ≡ codes "Unused") × (kind_name fault.Read ≡ codes "Read")
        × (kind_name fault.Memory ≡ codes "Memory") × (kind_name fault.Big ≡ codes "Big") }
    ensures files { (file_name run_file.Wear ≡ codes "wear")
        × (file_name run_file.Collections ≡ codes "collections") }
    ensures file_stops { (file_text file_stop.NotWithWorkers ≡ codes ": not with workers")
        × (file_text file_stop.NotOpened ≡ codes ": not opened")
        × (file_text file_stop.NotItsOwn ≡ codes ": not a file of its own")
        × (file_text file_stop.Failed ≡ codes ": failed") }
    ensures statuses { (status_of (stop.Encoding 1) ≡ 2)
        × (status_of stop.Help ≡ 1) × (status_of stop.Memory ≡ 4)
        × (status_of (stop.Geometry geometry_fault.Luns) ≡ 2) }
    ensures run_statuses { (status_of (stop.Run run.Memory) ≡ 4)
        × (status_of (stop.Run run.Threads) ≡ 4) × (status_of (stop.Run run.Output) ≡ 1)
        × (status_of (stop.Run (run.Trace (record { line = 1; kind = fault.Hex }))) ≡ 3) }
    ensures phases { (phase_bits phase.Free ≡ 0) × (phase_bits phase.Open ≡ 4096)
        × (phase_bits phase.Closed ≡ 12288) × (phase_bits phase.Retired ≡ 45056) }
    ensures sectors { (x : List ℕ) → (was_of None ≡ was.Empty) × (was_of (Some x) ≡ was.Written) }
{}

/// The lines that a run writes of its stock, and the stock after a command.
#[tactic(auto, unfolding(ftl_one::specs::Lawful::blocks_in))]
pub fn texts_of_a_stock()
    ensures totals { end_text (record { blocks = []; programs = 1; copies = 2; erases = 3 })
        ≡ codes "end,1,2,3\n" }
    ensures block { block_line (stock_with (block_with role.Retired (live 0 ∷ []) ∷ [])) 0
        ≡ codes "0,0,1,1\n" }
    ensures wear { (g : Geometry) → blocks_of g ≡ 3
        → wear_text g (stock_with
        (block_with role.Open [] ∷ block_with role.Free [] ∷ block_with role.Spare [] ∷ []))
        ≡ wear_names ++ codes "0,0,0,0\n1,0,0,0\n2,0,0,0\n" }
    ensures step { (g : Geometry) (s t : Stock) → next g s (Trim 0 5) ≡ Some t
        → (stock_after g s (plain_line 1 op.Trim 5) ≡ t)
        × (is_refused g s (plain_line 1 op.Trim 5) ≡ false) }
    ensures refused { (g : Geometry) (s : Stock) → next g s (Trim 0 5) ≡ None
        → (stock_after g s (plain_line 1 op.Trim 5) ≡ s)
        × (is_refused g s (plain_line 1 op.Trim 5) ≡ true) }
    ensures read { (g : Geometry) (s : Stock)
        → (stock_after g s (read 1) ≡ s) × (is_refused g s (read 1) ≡ false) }
    ensures no_command { (rows : ℕ → List Said) → text_of [] rows ≡ codes "end\n" }
    ensures blocks { (s : Store)
        → blocks_in s (role.Open ∷ [])
        ≡ record { role = role.Open; erases = erases_of s 0; entries = entries_of s 0 } ∷ [] }
    ensures records { (g : Geometry) (text : List ℕ) (r : List (List ℕ))
        → records_of text ≡ r ∷ [] → checked g text ≡ command_of g r ∷ [] }
    ensures room { (a : Answers) → HasSpaceFor a (read 1 ∷ []) → HasSpace a 1 (page_size_of a + 0) }
    ensures no_room { (a : Answers) (x : List ℕ)
        → HasSpaceFor a (write_by 1 5 x ∷ []) → HasSpace a 1 0 }
    ensures owned { owned_of (an_open 3 1 2) ≡ an_owned 3 phase.Open 1 2 }
    ensures to_fill { pages_to_fill 3
        (record { destination = Some (an_open 3 1 1); spare = Some (an_open 4 0 2); reclaiming = reclaiming.Nothing })
        ≡ a_page 1 3 1 ∷ a_page 1 3 2 ∷ a_page 0 4 2 ∷ [] }
{}

/// Why a run stopped, and which brooms and passes are at rest.
pub fn stops_of_a_run()
    ensures memory { (g : Geometry) (i o : Passage)
        → ExplainsRun (λ x. Same) g i o run.Memory → (o.after ≡ o.before)
        × (i.after.failures ≡ i.before.failures) }
    ensures threads { (g : Geometry) (i o : Passage) → hosts_of g ≡ 0
        → ¬ ExplainsRun (λ x. Same) g i o run.Threads }
    ensures output { (g : Geometry) (i : Passage)
        → ¬ ExplainsRun (λ x. Same) g i (passes [] []) run.Output }
    ensures written { (g : Geometry) (i : Passage) (t : TraceFault)
        → (¬ ExplainsRun (λ x. Same) g i (fails [] []) (run.Trace t))
        × (¬ ExplainsRun (λ x. Same) g i (fails [] []) run.Memory) }
    ensures unread { (g : Geometry) (t : TraceFault)
        → t.kind ≡ fault.Read → ¬ ExplainsTrace t g (passes [] []) }
    ensures line { (g : Geometry) (i : Passage)
        → ¬ ExplainsTrace (record { line = 1; kind = fault.Memory }) g i }
    ensures failed { (g : Geometry)
        → ¬ ExplainsTrace (record { line = 1; kind = fault.Hex }) g (fails [] []) }
    ensures appends { AppendsBeginning (Some (1 ∷ [])) (Some (1 ∷ 2 ∷ [])) (2 ∷ 3 ∷ []) }
    ensures appends_other { ¬ AppendsBeginning (Some (1 ∷ [])) (Some (1 ∷ 3 ∷ [])) (2 ∷ 3 ∷ []) }
    ensures overwrites { ¬ AppendsBeginning (Some (1 ∷ [])) (Some (2 ∷ [])) (2 ∷ 3 ∷ []) }
    ensures streams { (known : ℕ → Option (List ℕ)) (v w : Watched ℕ)
        → ((over known v w).before.failures ≡ failures_of v)
        × ((over known v w).after.bytes ≡ known (inner_of w)) }
    ensures rested { (f : Flash) (s : BroomSeat) (x : Source)
        → ((broom_view s).source ≡ Some x → ¬ ready.IsRested f s)
        × ((own_blocks s).reclaiming ≡ reclaiming.Draining (a_reclaimed 2 0 0)
        → ¬ ready.IsRested f s) }
    ensures lent { (f : Flash) (s : BroomSeat)
        → (broom_view s).whole ≡ false → ¬ ready.IsRested f s }
    ensures visited { (f : Flash) (s : BroomSeat)
        → (broom_view s).guest ≡ Some (name.Pass 1) → ¬ ready.IsRested f s }
    ensures full { (f : Flash) (s : BroomSeat) (o : OpenBlock)
        → o.written ≡ pages_of (geometry_of f) → (own_blocks s).destination ≡ Some o
        → ¬ ready.IsRested f s }
    ensures used { (f : Flash) (s : BroomSeat) (o : OpenBlock)
        → o.written ≡ 1 → (own_blocks s).spare ≡ Some o → ¬ ready.IsRested f s }
    ensures of_device { (f : Flash) (s : BroomSeat) → ready.IsRested f s → IsBroomOf f s
        × ready.IsFiled (broom_view s) (own_blocks s)
        × AreOfHosts (broom_view s).numbers (broom_view s).seen }
    ensures ready { (f : Flash) (b : Broom) → ready.IsReady f b
        → ready.IsRested f (ready.seat_of b) }
    ensures place { (q : EraseQueue) (p : QueuePass) → queue.IsPassOf q p
        → ((queue.sight_of p).limit ≡ queue.limit_of q)
        × ((queue.sight_of p).role ≡ queue_role.User) }
    ensures no_place { (q : EraseQueue) (p : QueuePass)
        → (queue.sight_of p).role ≡ queue_role.Gone → ¬ queue.IsPassOf q p }
{}
