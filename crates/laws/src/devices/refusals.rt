//! Laws of the writes that a run refuses.
ghost use Rattle.std.specs.Prelude.{◌≡◌, ℕ, List, [], ◌∷◌, ◌++◌, None, Some, Ok, Err, codes, decimal, false, true};
ghost use Rattle.answers.specs.{Answers.is_worn_reply, Streams.Passage};
ghost use Rattle.answers.specs.declared.reply.Reply.TheVariants as reply;
ghost use Rattle.geometry.specs.declared.geometry.Geometry.{Geometry};
ghost use Rattle.player.specs.Session.{IsOneRun, counted_refusals, refusal_by, run_options_of, status_of};
ghost use Rattle.player.specs.{Telling.refusal_text, Telling.text_of, declared.command_line.Options.Options};
ghost use Rattle.player.specs.declared.refusal.Refusal.TheVariants as refusal;
ghost use Rattle.player.specs.declared.stop.Stop.TheVariants as stop;
ghost use Rattle.rounds.specs.declared.answer.Kind.TheVariants as kind;
ghost use Rattle.runs.specs.Playing.{refused_at, IsRefusedCount, refused_before, refused_by_workers};
ghost use Rattle.trace.specs.{Trace.commands_of, declared.commands.Command.Command, declared.fault.TraceFault.TraceFault};
ghost use Rattle.trace.specs.declared.commands.Op.TheVariants as op;
ghost use Rattle.laws.specs.Rounds.{meeting, plain_line, rows_with, says};

/// How many writes were refused, and when they are counted.
pub fn refused_writes()
    ensures worn { is_worn_reply reply.Worn ≡ true }
    ensures not_worn { (is_worn_reply reply.Empty ≡ false)
        × (is_worn_reply reply.Written ≡ false) × (is_worn_reply reply.Full ≡ false)
        × (is_worn_reply reply.Met ≡ false) × (is_worn_reply reply.Page ≡ false) }
    ensures first { (g : Geometry) (cs : List Command) → refused_at g cs 0 ≡ true
        → (refused_before g cs 0 ≡ 0) × (refused_before g cs 1 ≡ 1) }
    ensures second { (g : Geometry) (cs : List Command) → refused_at g cs 0 ≡ false
        → refused_at g cs 1 ≡ true → refused_before g cs 2 ≡ 1 }
    ensures by_workers { refused_by_workers
        (plain_line 0 op.Write 5 ∷ meeting ∷ plain_line 1 op.New 5 ∷ plain_line 0 op.Read 5 ∷ [])
        (rows_with (says kind.Full ∷ says kind.Empty ∷ []) (says kind.Full ∷ [])) ≡ 2 }
    ensures none_by_workers { refused_by_workers
        (plain_line 0 op.Write 5 ∷ plain_line 1 op.New 5 ∷ [])
        (rows_with (says kind.Written ∷ []) (says kind.Empty ∷ [])) ≡ 0 }
    ensures names { (refusal_text refusal.Worn ≡ codes "worn")
        × (refusal_text refusal.Full ≡ codes "full") }
    ensures status { (n : ℕ) → status_of (stop.Refused refusal.Worn n) ≡ 5 }
    ensures text { (n : ℕ)
        → text_of (stop.Refused refusal.Full n)
        ≡ codes "writes refused: " ++ decimal n ++ codes " " ++ codes "full" ++ codes "\n" }
    ensures reasons { (refusal_by 0 ≡ refusal.Worn) × (refusal_by 1 ≡ refusal.Full) }
    ensures one_thread { (g : Geometry) (given : Options) (bytes : List ℕ) (o l : Passage) (n : ℕ)
        → IsOneRun 0 g given (record { failures = 0; bytes = Some bytes }) o l n → IsRefusedCount g bytes n }
    ensures unread { (g : Geometry) (bytes : List ℕ) (t : TraceFault) (n : ℕ)
        → commands_of bytes g ≡ Err t → ¬ IsRefusedCount g bytes n }
    ensures none { (g : Geometry) (bytes : List ℕ) (n : ℕ)
        → commands_of bytes g ≡ Ok [] → IsRefusedCount g bytes n → n ≡ 0 }
    ensures wanted { (given : Options) → given.all_written ≡ true → counted_refusals given 7 ≡ 7 }
    ensures unwanted { (given : Options)
        → given.all_written ≡ false → counted_refusals given 7 ≡ 0 }
    ensures patience { (given : Options) → ((run_options_of given).patience ≡ given.patience)
        × ((run_options_of given).drains ≡ given.drains) }
    ensures answers { (given : Options) → given.quiet ≡ true
        → (run_options_of given).answers ≡ false }
    ensures log { (given : Options) → given.collections ≡ None
        → (run_options_of given).log ≡ false }
{}
