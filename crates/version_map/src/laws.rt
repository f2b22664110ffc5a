//! Laws of the map. Each function has no code: its clauses say where a definition holds and where not.
ghost use Rattle.std.specs.Prelude.{◌≡◌, [], ◌∷◌, true, ℕ};
ghost use mathlib.Core.Option.{none};
ghost use Rattle.atomic_table.specs.Table.{Me, step};
ghost use Rattle.version_map.specs.declared.map.VersionMap.{VersionMap as Map};
ghost use Rattle.version_map.specs.declared.reader.Publisher.{Publisher as Changer};
ghost use Rattle.version_map.specs.declared.reader.Reader.{Reader as Looker};
ghost use Rattle.version_map.specs.declared.shape.MapShape.{MapShape};
ghost use Rattle.version_map.specs.declared.sighting.Sighting.{Sighting};
ghost use Rattle.version_map.specs.History.{version_in, version_after, cleared_after, Continues};
ghost use Rattle.version_map.specs.Map.{map_sectors, map_pages, numbers_below, history_seen, looks_made, history_published, IsReaderOf, IsPublisherOf};
ghost use Rattle.version_map.specs.Rule.{LawfulMap, FollowsHistory, SawVersion, saw_version, published_change, moved_page, new_reader, informed, spent_reader};
ghost use Rattle.version_map.specs.Examples.{publisher, onlooker};

/// With ten pages to a number, the word 37 names version 3. A history has its newest change first.
pub fn histories()
    ensures word { version_in 10 37 ≡ 3 }
    ensures no_version { version_in 10 7 ≡ 0 }
    ensures none { version_after [] 2 ≡ 0 }
    ensures newest { version_after ((2, 9) ∷ (1, 8) ∷ (2, 7) ∷ []) 2 ≡ 9 }
    ensures other { version_after ((2, 9) ∷ (1, 8) ∷ (2, 7) ∷ []) 1 ≡ 8 }
    ensures emptied { version_after ((2, 0) ∷ (2, 7) ∷ []) 2 ≡ 0 }
    ensures cleared { cleared_after ((5, 9) ∷ []) 4 2 ≡ (5, 0) ∷ (4, 0) ∷ (5, 9) ∷ [] }
    ensures none_cleared { cleared_after ((5, 9) ∷ []) 4 0 ≡ (5, 9) ∷ [] }
    ensures longer { Continues ((2, 9) ∷ (1, 8) ∷ []) ((1, 8) ∷ []) }
    ensures itself { Continues ((1, 8) ∷ []) ((1, 8) ∷ []) }
    ensures not_shorter { ¬ (Continues [] ((1, 8) ∷ [])) }
{}

/// What is told of a map, a reader and a publisher is what is in them.
pub fn maps()
    ensures sectors { (m : Map) → m.shape.sectors ≡ 5 → map_sectors m ≡ 5 }
    ensures pages { (m : Map) → m.shape.pages ≡ 7 → map_pages m ≡ 7 }
    ensures numbers { (m : Map) → m.shape.pages ≡ 16777216 → numbers_below m ≡ 1099511627775 }
    ensures seen { (r : Looker) → r.seat.me.0.seen ≡ (1, 8) ∷ [] → history_seen r ≡ (1, 8) ∷ [] }
    ensures looks { (r : Looker) → r.seat.me.0.looks ≡ 3 → looks_made r ≡ 3 }
    ensures published { (p : Changer) → p.seat.me.0.seen ≡ (1, 8) ∷ []
        → history_published p ≡ (1, 8) ∷ [] }
    ensures readers { (m : Map) (r : Looker) → IsReaderOf m r
        → (r.seat.table_id ≡ m.table.shared.table_id) × (r.seat.me.0.pages ≡ m.shape.pages) }
    ensures publishers { (m : Map) (p : Changer) → IsPublisherOf m p
        → (p.seat.table_id ≡ m.table.shared.table_id) × (p.seat.me.0.pages ≡ m.shape.pages) }
{}

/// A map of two sectors, with ten pages to a number. Sector 0 has version 3.
pub fn lawful_maps()
    ensures kept { FollowsHistory (record { sectors = 2; pages = 10 })
        (record { words = 37 ∷ 0 ∷ []; homes = []; views = publisher ((0, 3) ∷ []) ∷ onlooker [] ∷ [] }) }
    ensures size { ¬ (FollowsHistory (record { sectors = 2; pages = 10 })
        (record { words = 37 ∷ []; homes = []; views = publisher ((0, 3) ∷ []) ∷ [] })) }
    ensures versions { ¬ (FollowsHistory (record { sectors = 2; pages = 10 })
        (record { words = 47 ∷ 0 ∷ []; homes = []; views = publisher ((0, 3) ∷ []) ∷ [] })) }
    ensures all { ¬ (FollowsHistory (record { sectors = 2; pages = 10 })
        (record { words = 37 ∷ 0 ∷ []; homes = []; views = publisher [] ∷ [] })) }
    ensures seen { ¬ (FollowsHistory (record { sectors = 2; pages = 10 })
        (record { words = 7 ∷ 0 ∷ []; homes = []; views = publisher [] ∷ onlooker ((0, 3) ∷ []) ∷ [] })) }
    ensures told { ¬ (FollowsHistory (record { sectors = 2; pages = 10 })
        (record { words = 7 ∷ 0 ∷ []; homes = []; views = publisher [] ∷ informed (onlooker []) (onlooker ((0, 3) ∷ [])) ∷ [] })) }
    ensures one { ¬ (FollowsHistory (record { sectors = 2; pages = 10 })
        (record { words = 7 ∷ 0 ∷ []; homes = []; views = publisher [] ∷ publisher [] ∷ [] })) }
{}

/// What each step tells the seat that makes it.
pub fn steps()
    ensures look { saw_version (step 0 0 0 0 none) (onlooker [], []) 37
        (record (onlooker []) { seen = (0, 3) ∷ []; looks = 1 }, []) }
    ensures slots { (a b : Me (Unit {0}) Sighting) → saw_version (step 0 0 0 0 none) a 37 b
        → b.1 ≡ a.1 }
    ensures later { (v w : Sighting) → SawVersion v 0 37 w → Continues w.seen v.seen }
    ensures heard { (v w : Sighting) → SawVersion v 0 37 w → Continues w.seen v.told }
    ensures version { (v w : Sighting) → v.pages ≡ 10 → SawVersion v 0 37 w
        → version_after w.seen 0 ≡ 3 }
    ensures counted { (v w : Sighting) → v.looks ≡ 4 → SawVersion v 0 37 w → w.looks ≡ 5 }
    ensures same { (v w : Sighting) → SawVersion v 0 37 w
        → (w.publishes ≡ v.publishes) × (w.pages ≡ v.pages) }
    ensures all { (v w : Sighting) → v.publishes ≡ true → SawVersion v 0 37 w → w.seen ≡ v.seen }
    ensures change { published_change (step 0 1 0 0 none) (publisher [], []) 37
        (publisher ((1, 3) ∷ []), []) }
    ensures changes_nothing { ¬ (published_change (step 0 1 0 0 none) (publisher [], []) 37
        (publisher [], [])) }
    ensures change_slots { (a b : Me (Unit {0}) Sighting)
        → published_change (step 0 1 0 0 none) a 37 b → b.1 ≡ a.1 }
    ensures move_to { (a b : Me (Unit {0}) Sighting) → moved_page (step 0 1 0 0 none) a 37 b
        → (b.0 ≡ a.0) × (b.1 ≡ a.1) }
    ensures moved { moved_page (step 0 1 0 0 none) (publisher [], []) 37 (publisher [], []) }
    ensures reader { new_reader (publisher ((1, 3) ∷ []))
        ≡ record (onlooker ((1, 3) ∷ [])) { told = (1, 3) ∷ [] } }
    ensures informed { informed (onlooker []) (onlooker ((1, 3) ∷ []))
        ≡ record (onlooker []) { told = (1, 3) ∷ [] } }
    ensures spent { spent_reader ≡ record (onlooker []) { pages = 0 } }
{}
