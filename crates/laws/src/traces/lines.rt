ghost use Rattle.std.specs.Prelude.{◌≡◌, ◌⊎◌, ℕ, List, [], ◌∷◌, None, Some, true, false};
ghost use Rattle.geometry.specs.Sectors.{Sector};
ghost use Rattle.rounds.specs.{Lines.Said, Lines.IsRight, Playing.IsTried, Playing.LineFound, Playing.WriteFound, Merging.AreAtOneHistory, Told.IsTextOfSome};
ghost use Rattle.rounds.specs.Merging.{AreDisjointCommands, IsDisjointTrace, merge, rounds_of};
ghost use Rattle.rounds.specs.declared.answer.Kind.TheVariants as kind;
ghost use Rattle.trace.specs.declared.commands.{Command.Command, Op.Op};
ghost use Rattle.trace.specs.declared.commands.Op.TheVariants as op;
ghost use Rattle.laws.specs.Rounds.{all_done, meeting, nothing_read, plain_line, rows_with, says, says_page, three_answers, three_lines, three_reads};
ghost use Rattle.laws.specs.Rounds.{write_and_reads, write_turned_away};

/// Where the rounds of a trace end, whose answer each line gets, and which sectors the lines of a round may share.
pub fn rounds_of_a_trace()
    ensures cut { (c d : Command) → c.op ≡ op.Trim → d.op ≡ op.Read
        → rounds_of (c ∷ meeting ∷ d ∷ []) ≡ (c ∷ []) ∷ (d ∷ []) ∷ [] }
    ensures last { rounds_of (meeting ∷ []) ≡ [] ∷ [] ∷ [] }
    ensures own_answers { (a b c : Said)
        → merge three_reads (rows_with (a ∷ []) (b ∷ c ∷ [])) ≡ three_answers b a c }
    ensures changed { (o : Op) → ¬ (o ≡ op.Read) → ¬ (o ≡ op.Meet)
        → ¬ AreDisjointCommands (plain_line 0 op.Read 5 ∷ plain_line 1 o 5 ∷ []) }
    ensures one_worker { (o : Op)
        → AreDisjointCommands (plain_line 1 op.Trim 5 ∷ plain_line 1 o 5 ∷ []) }
    ensures apart { (o p : Op) → AreDisjointCommands (plain_line 0 o 5 ∷ plain_line 1 p 6 ∷ []) }
    ensures next_round { (o p : Op) → ¬ (o ≡ op.Meet) → ¬ (p ≡ op.Meet)
        → IsDisjointTrace (plain_line 0 o 5 ∷ meeting ∷ plain_line 1 p 5 ∷ []) }
{}

/// Which answer of a line is right for what its sector holds.
pub fn answers_of_sectors()
    ensures read { (x : List ℕ) → IsRight op.Read (Some x) kind.Page x }
    ensures read_other { (x y : List ℕ) → ¬ (x ≡ y) → ¬ IsRight op.Read (Some x) kind.Page y }
    ensures read_empty { (x y : List ℕ) → ¬ IsRight op.Read (Some x) kind.Empty y }
    ensures read_full { (s : Sector) (y : List ℕ) → ¬ IsRight op.Read s kind.Full y }
    ensures write_full { (s : Sector) (y : List ℕ)
        → IsRight op.Write s kind.Full y × IsRight op.New s kind.Full y }
    ensures write_new { (x y : List ℕ) → ¬ IsRight op.New (Some x) kind.Empty y }
    ensures write_empty { (y : List ℕ) → IsRight op.Write None kind.Empty y
        × (¬ IsRight op.Write None kind.Written y) }
    ensures trim_full { (s : Sector) (y : List ℕ) → ¬ IsRight op.Trim s kind.Full y }
    ensures meet { (s : Sector) (y : List ℕ) → IsRight op.Meet s kind.Met y
        × (¬ IsRight op.Meet s kind.Empty y) }
{}

/// How often a write is tried, and which blocks it finds taken.
pub fn tries_of_a_write()
    ensures turned_away { (found : List ℕ) → WriteFound 2 3 true found
        → found ≡ 0 ∷ 1 ∷ 2 ∷ 0 ∷ 1 ∷ 2 ∷ [] }
    ensures at_last { WriteFound 2 3 false (0 ∷ 1 ∷ 2 ∷ 0 ∷ 1 ∷ []) }
    ensures too_often { (below : ℕ) → ¬ IsTried 2 3 false 2 below }
    ensures too_seldom { (below : ℕ) → ¬ IsTried 2 3 true 1 below }
    ensures no_block { (refused : ℕ) → ¬ IsTried 2 3 false refused 3 }
    ensures read { (found : List ℕ) → LineFound 2 3 op.Read false found → found ≡ [] }
    ensures new { (found : List ℕ) → LineFound 1 1 op.New true found → found ≡ 0 ∷ [] }
{}

/// What workers may answer to the lines of rounds, and the text of their answers.
pub fn answers_of_rounds()
    // A read in a round behind one in which its sector was written finds the value, although that round was not disjoint.
    ensures behind { (x : List ℕ) → ¬ AreAtOneHistory 1 2 (write_and_reads x) nothing_read }

    // A new device is empty.
    ensures new { (x : List ℕ)
        → ¬ AreAtOneHistory 1 1 (plain_line 0 op.Read 0 ∷ []) (rows_with (says_page x ∷ []) []) }
    ensures empty { AreAtOneHistory 1 1 (plain_line 0 op.Read 0 ∷ [])
        (rows_with (says kind.Empty ∷ []) []) }

    // Only a write can be turned away.
    ensures text { (x text : List ℕ) → IsTextOfSome 1 (three_lines x) text
        → (text ≡ all_done x) ⊎ (text ≡ write_turned_away x) }
{}
