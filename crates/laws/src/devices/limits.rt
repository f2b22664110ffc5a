//! Laws of a device's numbers and of the words of its table.
ghost use Rattle.std.specs.Prelude.{◌≡◌, ◌+◌, [], ◌∷◌, ◌++◌, Some, None, true, false, replicate};
ghost use Rattle.geometry.specs.{Geometry.blocks_of, Geometry.luns_of, Geometry.lun_of, Geometry.numbers_in, Greedy.IsGreedy};
ghost use Rattle.geometry.specs.{History.Trim, History.Write, History.WriteNew, History.step, Words.FitsMap, Words.IsPageOf, Words.map_word};
ghost use Rattle.geometry.specs.{Limits.IsWithinLimits, Limits.numbers, Limits.first_fault, Limits.table_words_of, Words.word_of, Words.with_word};
ghost use Rattle.geometry.specs.Words.{FitsPin, IsStateOf, freed_added, kept_added, pin_word};
ghost use Rattle.geometry.specs.{Words.page_index, Words.pin_index, declared.geometry.Geometry.Geometry};
ghost use Rattle.geometry.specs.declared.limits.GeometryFault.TheVariants as fault;
ghost use Rattle.geometry.specs.declared.words.Phase.TheVariants as phase;
ghost use Rattle.laws.specs.{Brooms.a_page, Blocks.a_state, Blocks.two_words};

/// Which fault the numbers of a device have: each bound is one that a number may reach, and none that it may pass.
pub fn faults_of_numbers()
    ensures none { first_fault (numbers 1 3 1 1 1 1 0 0) ≡ None }
    ensures luns { (first_fault (numbers 0 3 1 1 1 1 0 0) ≡ Some fault.Luns)
        × (first_fault (numbers 9 9 1 1 1 1 0 0) ≡ Some fault.Luns) }
    ensures most_luns { first_fault (numbers 8 8 1 1 1 1 0 0) ≡ None }
    ensures blocks { (first_fault (numbers 1 2 1 1 1 1 0 0) ≡ Some fault.Blocks)
        × (first_fault (numbers 1 4097 1 1 1 1 0 0) ≡ Some fault.Blocks) }
    ensures most_blocks { (first_fault (numbers 1 4096 1 1 1 1 0 0) ≡ None)
        × (first_fault (numbers 2 3 1 1 1 1 0 0) ≡ Some fault.Blocks) }
    ensures pages { (first_fault (numbers 1 3 0 1 1 1 0 0) ≡ Some fault.Pages)
        × (first_fault (numbers 1 3 16385 1 1 1 0 0) ≡ Some fault.Pages) }
    ensures most_pages { first_fault (numbers 1 3 16384 1 1 1 0 0) ≡ None }
    ensures words { (first_fault (numbers 1 3 1 0 1 1 0 0) ≡ Some fault.Words)
        × (first_fault (numbers 1 3 1 513 1 1 0 0) ≡ Some fault.Words) }
    ensures most_words { first_fault (numbers 1 3 1 512 1 1 0 0) ≡ None }
    ensures sectors { (first_fault (numbers 1 3 1 1 0 1 0 0) ≡ Some fault.Sectors)
        × (first_fault (numbers 1 3 1 1 1048577 1 0 0) ≡ Some fault.Sectors) }
    ensures most_sectors { first_fault (numbers 1 4096 257 1 1048576 1 0 0) ≡ None }
    ensures endurance { (first_fault (numbers 1 3 1 1 1 0 0 0) ≡ Some fault.Endurance)
        × (first_fault (numbers 1 3 1 1 1 1000001 0 0) ≡ Some fault.Endurance) }
    ensures most_endurance { first_fault (numbers 1 3 1 1 1 1000000 0 0) ≡ None }
    ensures passes { (first_fault (numbers 1 999 1 1 1 1 501 0) ≡ Some fault.Passes)
        × (first_fault (numbers 1 999 1 1 1 1 1 33) ≡ Some fault.Passes) }
    ensures most_passes { (first_fault (numbers 1 565 1 1 1 1 500 32) ≡ None)
        × (first_fault (numbers 1 3 1 1 1 1 0 1) ≡ Some fault.Passes) }
    ensures most_table_words { (table_words_of 4096 2047 1 4096 ≡ 16777216)
        × (first_fault (numbers 1 4096 2047 1 4096 1 0 0) ≡ None) }
    ensures table_words { first_fault (numbers 1 4096 2047 1 4097 1 0 0) ≡ Some fault.TooManyWords }
    ensures room { (first_fault (numbers 1 3 1 1 2 1 0 0) ≡ Some fault.TooFewBlocks)
        × (first_fault (numbers 1 3 1 1 1 1 1 1) ≡ Some fault.TooFewBlocks) }
    ensures shared_room { (first_fault (numbers 1 4 1 1 1 1 1 1) ≡ None)
        × (first_fault (numbers 1 4 1 1 2 1 1 1) ≡ Some fault.TooFewBlocks) }
{}

/// Which numbers break no limit.
pub fn numbers_within_limits()
    ensures least { IsWithinLimits (numbers 1 3 1 1 1 1 0 0) }
    ensures most { IsWithinLimits (numbers 8 4096 297 1 1048576 1000000 500 32) }
    ensures luns { (¬ IsWithinLimits (numbers 0 3 1 1 1 1 0 0))
        × (¬ IsWithinLimits (numbers 9 9 1 1 1 1 0 0)) }
    ensures blocks { (¬ IsWithinLimits (numbers 1 2 2 1 1 1 0 0))
        × (¬ IsWithinLimits (numbers 1 4097 1 1 1 1 0 0)) }
    ensures whole { ¬ IsWithinLimits (numbers 2 3 1 1 1 1 0 0) }
    ensures pages { (¬ IsWithinLimits (numbers 1 3 0 1 1 1 0 0))
        × (¬ IsWithinLimits (numbers 1 3 16385 1 1 1 0 0)) }
    ensures words { (¬ IsWithinLimits (numbers 1 3 1 0 1 1 0 0))
        × (¬ IsWithinLimits (numbers 1 3 1 513 1 1 0 0)) }
    ensures sectors { (¬ IsWithinLimits (numbers 1 3 1 1 0 1 0 0))
        × (¬ IsWithinLimits (numbers 1 4096 300 1 1048577 1 0 0)) }
    ensures endurance { (¬ IsWithinLimits (numbers 1 3 1 1 1 0 0 0))
        × (¬ IsWithinLimits (numbers 1 3 1 1 1 1000001 0 0)) }
    ensures passes { (¬ IsWithinLimits (numbers 1 999 1 1 1 1 501 0))
        × (¬ IsWithinLimits (numbers 1 999 1 1 1 1 1 33)) }
    ensures lone { ¬ IsWithinLimits (numbers 1 3 1 1 1 1 0 1) }
    ensures table { ¬ IsWithinLimits (numbers 1 4096 2047 1 4097 1 0 0) }
    ensures room { ¬ IsWithinLimits (numbers 1 3 1 1 2 1 0 0) }
    ensures shared_blocks { ¬ IsWithinLimits (numbers 1 3 1 1 1 1 1 1) }
    ensures shared_room { ¬ IsWithinLimits (numbers 1 4 1 1 2 1 1 1) }
{}

/// What the words of a table and the bytes of a page are, and where each word is.
pub fn words_of_tables()
    ensures map { map_word (a_page 1 2 3) ≡ 9223372041149874179 }
    ensures fits { FitsMap (a_page 2147483647 65535 65535) }
    ensures too_large { (¬ FitsMap (a_page 2147483648 0 0))
        × (¬ FitsMap (a_page 0 65536 0)) × (¬ FitsMap (a_page 0 0 65536)) }
    ensures pin { pin_word (a_state 1 phase.Open 2 3) ≡ 12885037057 }
    ensures order { (pin_word (a_state 0 phase.Free 0 0) ≡ 0)
        × (pin_word (a_state 0 phase.Retired 0 0) ≡ 45056) }
    ensures next_phase { (pin_word (a_state 0 phase.Closed 0 0) ≡ 12288)
        × (pin_word (a_state 0 phase.Victim 0 0) ≡ 20480)
        × (pin_word (a_state 0 phase.Drained 0 0) ≡ 28672)
        × (pin_word (a_state 0 phase.Erasing 0 0) ≡ 36864) }
    ensures pin_fits { FitsPin (a_state 4095 phase.Open 65535 4294967295) }
    ensures pin_too_large { (¬ FitsPin (a_state 4096 phase.Open 0 0))
        × (¬ FitsPin (a_state 0 phase.Open 65536 0))
        × (¬ FitsPin (a_state 0 phase.Open 0 4294967296)) }
    ensures pin_free { ¬ FitsPin (a_state 0 phase.Free 1 0) }
    ensures freed { pin_word (a_state 1 phase.Erasing 2 5) + freed_added 2
        ≡ pin_word (a_state 1 phase.Free 0 6) }
    ensures kept { pin_word (a_state 1 phase.Erasing 2 5) + kept_added 2
        ≡ pin_word (a_state 1 phase.Open 0 6) }
    ensures indexes { (pin_index (numbers 1 3 4 2 5 1 0 0) 1 ≡ 6)
        × (page_index (numbers 1 3 4 2 5 1 0 0) 1 2 ≡ 26) }
    ensures word { (word_of two_words 0 ≡ 1) × (word_of two_words 1 ≡ 512) }
    ensures other_word { with_word two_words 1 7 ≡ (1 ∷ replicate 7 0) ++ 7 ∷ replicate 7 0 }
    ensures first_word { with_word two_words 0 0 ≡ replicate 8 0 ++ 0 ∷ 2 ∷ replicate 6 0 }
    ensures lun { (g : Geometry) → blocks_of g ≡ 8
        → luns_of g ≡ 2 → (lun_of g 3 ≡ 0) × (lun_of g 4 ≡ 1) }
{}

/// Which pages and states a device has, and which block is the one to collect.
pub fn pages_and_states_of_devices()
    ensures page { IsPageOf (numbers 1 3 4 1 1 2 0 0) (a_page 1 2 3) }
    ensures no_page { (¬ IsPageOf (numbers 1 3 4 1 1 2 0 0) (a_page 2 2 3))
        × (¬ IsPageOf (numbers 1 3 4 1 1 2 0 0) (a_page 1 3 3))
        × (¬ IsPageOf (numbers 1 3 4 1 1 2 0 0) (a_page 1 2 4)) }
    ensures state { IsStateOf (numbers 1 3 4 1 1 2 2 0) (a_state 2 phase.Closed 4 1) }
    ensures no_state { (¬ IsStateOf (numbers 1 3 4 1 1 2 2 0) (a_state 3 phase.Closed 4 1))
        × (¬ IsStateOf (numbers 1 3 4 1 1 2 2 0) (a_state 2 phase.Closed 5 1))
        × (¬ IsStateOf (numbers 1 3 4 1 1 2 2 0) (a_state 2 phase.Closed 4 2)) }
    ensures free_state { ¬ IsStateOf (numbers 1 3 4 1 1 2 2 0) (a_state 0 phase.Free 1 0) }
    ensures greedy { IsGreedy (1 ∷ []) (true ∷ []) 0 }
    ensures not_least { ¬ IsGreedy (2 ∷ 1 ∷ []) (true ∷ true ∷ []) 0 }
    ensures not_lowest { ¬ IsGreedy (1 ∷ 1 ∷ []) (true ∷ true ∷ []) 1 }
    ensures not_closed { ¬ IsGreedy (1 ∷ []) (false ∷ []) 0 }
    ensures in_order { numbers_in
        (record { luns = 1; blocks = 2; pages = 3; words = 4; sectors = 5; endurance = 6; hosts = 7; brooms = 8 })
        ≡ numbers 1 2 3 4 5 6 7 8 }
    ensures put { step (None ∷ None ∷ []) (Write 3 1 (7 ∷ [])) ≡ None ∷ Some (7 ∷ []) ∷ [] }
    ensures put_new { (step (None ∷ []) (WriteNew 3 0 (7 ∷ [])) ≡ Some (7 ∷ []) ∷ [])
        × (step (Some [] ∷ []) (WriteNew 3 0 (7 ∷ [])) ≡ Some [] ∷ []) }
    ensures trimmed { step (Some [] ∷ Some [] ∷ []) (Trim 3 1) ≡ Some [] ∷ None ∷ [] }
{}
