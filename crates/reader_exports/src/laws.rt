//! Laws of what C sees of a map and a reader. Each function has no code: its clauses say where a definition holds and where not.
ghost use Rattle.std.specs.Prelude.{◌≡◌, ◌≢◌, ◌<◌, ◌+◌, ℕ, List, [], ◌∷◌, Some, None, true, false};
ghost use Rattle.std.specs.Arc.{arc_value};
ghost use Rattle.version_map.specs.Map.{map_sectors, map_pages, numbers_below, history_seen, history_published, looks_made};
ghost use Rattle.version_map.specs.History.{version_after, Continues};
ghost use Rattle.version_map.specs.declared.calls.Place.{Place as Where};
ghost use Rattle.version_map.specs.declared.map.VersionMap.{VersionMap as Map};
ghost use Rattle.version_map.specs.declared.reader.Reader.{Reader as Looker};
ghost use Rattle.shared_nand.specs.Shown.{sector_shown};
ghost use Rattle.shared_nand.specs.declared.search.Search.{Search as Seek};
ghost use Rattle.reader_exports.specs.Handles.{seat_of};
ghost use Rattle.reader_exports.specs.Searches.{IsSoughtIn};
ghost use Rattle.reader_exports.specs.declared.handle.Handle.{Handle};
ghost use Rattle.reader_exports.specs.declared.keeper.Keeper.{Keeper as MapKeeper};
ghost use Rattle.reader_exports.specs.declared.seeker.Seeker.{Seeker as MapSeeker};
ghost use Rattle.reader_exports.specs.declared.seat.Seat.{Seat};
ghost use Rattle.reader_exports.specs.declared.seat.Seat.TheVariants as seat;
ghost use Rattle.reader_exports.specs.Maps.{HasKeeper, HasSeeker, IsDealtReader, IsNewMap, IsNewReader, KeeperCalled, code_of_keeper, map_kept, memory_code};
ghost use Rattle.reader_exports.specs.Maps.{map_code, deal_code, publish_code, publishes, clear_code, clears, follow_code};
ghost use Rattle.reader_exports.specs.Seekers.{AnswersValue, LooksOnce, ReportsPage, SeekerCalled, answer_code, code_of_seeker, fits_number};
ghost use Rattle.reader_exports.specs.Seekers.{step_code, page_found, search_code};

/// The code of a call, by what the handle has.
pub fn codes()
    ensures no_map { code_of_keeper None (λ _. 0) ≡ 2 }
    ensures map { (k : MapKeeper) → code_of_keeper (Some (seat.Keeper k)) (λ _. 7) ≡ 7 }
    ensures not_a_map { (s : MapSeeker) → code_of_keeper (Some (seat.Seeker s)) (λ _. 0) ≡ 9 }
    ensures no_reader { code_of_seeker None (λ _. 0) ≡ 2 }
    ensures reader { (s : MapSeeker) → code_of_seeker (Some (seat.Seeker s)) (λ _. 7) ≡ 7 }
    ensures not_a_reader { (k : MapKeeper) → code_of_seeker (Some (seat.Keeper k)) (λ _. 0) ≡ 9 }
    ensures open_already { (x : Seat) → map_code (Some x) 5 7 false ≡ 8 }
    ensures no_sectors { map_code None 0 0 false ≡ 105 }
    ensures no_pages { map_code None 5 0 true ≡ 103 }
    ensures no_memory { map_code None 5 7 true ≡ 6 }
    ensures opened { map_code None 5 7 false ≡ 0 }
    ensures memory { (memory_code 6 ≡ 6) × (memory_code 0 ≡ 0) × (memory_code 5 ≡ 0) }
    ensures dealt_open { (x : Seat) → deal_code (Some x) 0 ≡ 8 }
    ensures dealt_closed { (deal_code None 0 ≡ 0) × (deal_code None 6 ≡ 6) }
    ensures looks { (step_code 37 ≡ 37) × (step_code 33 ≡ 33) × (step_code 36 ≡ 36) × (step_code 5 ≡ 0) }
    ensures order { answer_code true 8 0 None ≡ 32 }
    ensures fits { (place : Where) → place.number ≡ 9 → answer_code true 8 0 (Some place) ≡ 1 }
    ensures other { (place : Where) → place.number ≡ 9 → answer_code true 9 37 (Some place) ≡ 37 }
    ensures no_version { (place : Where) → place.number ≡ 9 → answer_code false 8 37 (Some place) ≡ 37 }
    ensures fitting { (place : Where) → place.number ≡ 9 → fits_number true 8 (Some place) ≡ true }
    ensures not_fitting { (place : Where) → place.number ≡ 9 → fits_number true 9 (Some place) ≡ false }
{}

/// What a call on a map of 5 sectors, 7 pages and numbers below 100 returns.
pub fn numbers()
    ensures no_sector { (k : MapKeeper) → map_sectors (map_kept k) ≡ 5 → publish_code 5 9 9 k ≡ 3 }
    ensures no_page { (k : MapKeeper) → map_sectors (map_kept k) ≡ 5 → map_pages (map_kept k) ≡ 7
        → publish_code 4 200 7 k ≡ 10 }
    ensures hundred { (k : MapKeeper) → map_pages (map_kept k) ≡ 184467440737095516
        → numbers_below (map_kept k) ≡ 100 }
    ensures no_number { (k : MapKeeper) → map_sectors (map_kept k) ≡ 5
        → map_pages (map_kept k) ≡ 184467440737095516 → publish_code 4 99 6 k ≡ 31 }
    ensures published { (k : MapKeeper) → map_sectors (map_kept k) ≡ 5
        → map_pages (map_kept k) ≡ 184467440737095516 → publish_code 4 98 6 k ≡ 0 }
    ensures history { (k : MapKeeper) → history_published k.publisher ≡ []
        → (publishes 0 4 8 k ≡ (4, 9) ∷ []) × (publishes 31 4 8 k ≡ []) }
    ensures cleared { (k : MapKeeper) → map_sectors (map_kept k) ≡ 5
        → (clear_code 3 2 k ≡ 0) × (clear_code 3 3 k ≡ 3) × (clear_code 5 0 k ≡ 0) }
    ensures emptied { (k : MapKeeper) → history_published k.publisher ≡ []
        → (clears 0 4 1 k ≡ (4, 0) ∷ []) × (clears 3 4 1 k ≡ []) }
    ensures followed { (k : MapKeeper) → map_sectors (map_kept k) ≡ 5
        → map_pages (map_kept k) ≡ 184467440737095516 → history_published k.publisher ≡ (4, 9) ∷ []
        → (follow_code 4 8 6 k ≡ 1) × (follow_code 4 7 6 k ≡ 0) × (follow_code 3 8 6 k ≡ 0) }
    ensures not_followed { (k : MapKeeper) → map_sectors (map_kept k) ≡ 5
        → map_pages (map_kept k) ≡ 184467440737095516 → (follow_code 5 8 6 k ≡ 3)
        × (follow_code 4 8 184467440737095516 k ≡ 10) × (follow_code 4 99 6 k ≡ 31) }
{}

/// What is said of a map or a reader, by what the handle has.
pub fn handles()
    ensures kept { (k : MapKeeper) → map_kept k ≡ arc_value k.map }
    ensures seat { (h : Handle) (x y : Seat) → seat_of h ≡ Some x → seat_of h ≡ Some y → x ≡ y }
    ensures map_says_so { (k : MapKeeper) → ¬ HasKeeper (Some (seat.Keeper k)) (λ j. ⊥) }
    ensures has_map { (k : MapKeeper) → HasKeeper (Some (seat.Keeper k)) (λ j. j ≡ k) }
    ensures no_map { (s : MapSeeker) → (¬ HasKeeper None (λ k. k ≡ k))
        × (¬ HasKeeper (Some (seat.Seeker s)) (λ k. k ≡ k)) }
    ensures has_reader { (s : MapSeeker) → HasSeeker (Some (seat.Seeker s)) (λ t. t ≡ s) }
    ensures no_reader { (k : MapKeeper) → (¬ HasSeeker None (λ s. s ≡ s))
        × (¬ HasSeeker (Some (seat.Keeper k)) (λ s. s ≡ s)) }
    ensures map_called { (k j : MapKeeper) → KeeperCalled (Some (seat.Keeper k)) (Some (seat.Keeper j)) (λ a b. b ≡ b)
        → j.map ≡ k.map }
    ensures map_says { (k j : MapKeeper) → ¬ KeeperCalled (Some (seat.Keeper k)) (Some (seat.Keeper j)) (λ a b. ⊥) }
    ensures map_gone { (k : MapKeeper) → ¬ KeeperCalled (Some (seat.Keeper k)) None (λ a b. b ≡ b) }
    ensures closed { (x : Seat) → ¬ KeeperCalled None (Some x) (λ a b. b ≡ b) }
    ensures reader_called { (s t : MapSeeker) → SeekerCalled (Some (seat.Seeker s)) (Some (seat.Seeker t)) (λ a b. b ≡ b)
        → t.map ≡ s.map }
    ensures reader_says { (s t : MapSeeker) → ¬ SeekerCalled (Some (seat.Seeker s)) (Some (seat.Seeker t)) (λ a b. ⊥) }
    ensures reader_gone { (s : MapSeeker) → ¬ SeekerCalled (Some (seat.Seeker s)) None (λ a b. b ≡ b) }
    ensures new_map { (k : MapKeeper) → IsNewMap 5 7 k
        → (map_sectors (map_kept k) ≡ 5) × (map_pages (map_kept k) ≡ 7) × (history_published k.publisher ≡ []) }
    ensures new_reader { (m : Map) (s : MapSeeker) → IsNewReader m ((4, 9) ∷ []) s
        → (arc_value s.map ≡ m) × (history_seen s.reader ≡ (4, 9) ∷ []) × (s.search.found ≡ None) }
    ensures dealt { (k : MapKeeper) (s : MapSeeker) → history_published k.publisher ≡ (4, 9) ∷ []
        → IsDealtReader (Some (seat.Keeper k)) (Some (seat.Seeker s)) → history_seen s.reader ≡ (4, 9) ∷ [] }
    ensures not_dealt { (k : MapKeeper) → (¬ IsDealtReader (Some (seat.Keeper k)) None) × (¬ IsDealtReader None None) }
    ensures dealt_of_a_reader { (s : MapSeeker) → ¬ IsDealtReader (Some (seat.Seeker s)) (Some (seat.Seeker s)) }
{}

/// What a search leaves, and what it answers.
pub fn searches()
    ensures sought { (m : Map) (r : Looker) (search : Seek) (place : Where) → search.found ≡ Some place
        → search.sector ≡ 4 → IsSoughtIn m r search
        → (4 < map_sectors m) × (version_after (history_seen r) 4 ≡ place.number) }
    ensures nothing_sought { (m : Map) (r : Looker) (search : Seek) → search.found ≡ None → IsSoughtIn m r search }
    ensures reported { (s : MapSeeker) (place : Where) → s.search.found ≡ Some place → ReportsPage 37 3 s 8
        → place.page ≡ 8 }
    ensures unreported { (s : MapSeeker) → ReportsPage 0 3 s 3 × (¬ ReportsPage 0 3 s 8) }
    ensures found { (place : Where) → place.page ≡ 8 → page_found (Some place) ≡ Some 8 }
    ensures not_found { page_found None ≡ None }
    ensures value { (s : MapSeeker) → AnswersValue 1 8 s
        → sector_shown (λ n. n ∷ []) (history_seen s.reader) s.search.sector ≡ Some (9 ∷ []) }
    ensures empty { (s : MapSeeker) → AnswersValue 0 8 s
        → sector_shown (λ n. n ∷ []) (history_seen s.reader) s.search.sector ≡ None }
    ensures later { (c : ℕ) (s t : MapSeeker) → LooksOnce c 4 3 s t
        → Continues (history_seen t.reader) (history_seen s.reader) }
    ensures sector { (c : ℕ) (s t : MapSeeker) → LooksOnce c 4 3 s t → t.search.sector ≡ 4 }
    ensures is_empty { (s t : MapSeeker) → LooksOnce 0 4 3 s t → version_after (history_seen t.reader) 4 ≡ 0 }
    ensures is_lost { (s t : MapSeeker) → LooksOnce 33 4 3 s t → version_after (history_seen t.reader) 4 ≢ 0 }
    ensures reads { (s t : MapSeeker) → LooksOnce 37 4 3 s t → t.search.looks ≡ 2 }
    ensures ended { (s t : MapSeeker) → LooksOnce 0 4 3 s t → t.search.found ≡ None }
    ensures unsettled { (s t : MapSeeker) → ¬ LooksOnce 36 4 3 s t }
    ensures looks { (s t : MapSeeker) → LooksOnce 0 4 3 s t
        → looks_made t.reader + t.search.looks ≡ looks_made s.reader + 3 }
    ensures no_look { (s t : MapSeeker) → LooksOnce 36 4 0 s t → looks_made t.reader ≡ looks_made s.reader }
    ensures sectors { (s : MapSeeker) → map_sectors (arc_value s.map) ≡ 5
        → (search_code 5 0 s ≡ 3) × (search_code 4 37 s ≡ 37) }
{}
