//! Laws of the views that a queue and a table begin with.
ghost use Rattle.std.specs.Prelude.{◌≡◌, ◌+◌, ℕ, List, [], ◌∷◌, ◌++◌, Some, None, true, false};
ghost use Rattle.erase_queue.specs.Queue.{IsNewPass, IsPassOf, empties_of, fulls_of, limit_of, sight_of};
ghost use Rattle.erase_queue.specs.declared.pass.QueuePass.{QueuePass};
ghost use Rattle.erase_queue.specs.declared.queue.EraseQueue.{EraseQueue};
ghost use Rattle.erase_queue.specs.Rule as queue;
ghost use Rattle.erase_queue.specs.declared.sight.Role.TheVariants as queue_role;
ghost use Rattle.flash_rule.specs.{Plays.IsOn, Plays.Called, Plays.is_unpinned, Seats.new_pass, Views.with_owned, World.sector_word, declared.view.View.View};
ghost use Rattle.flash_rule.specs.Seats.{carried, dealer, dealt_broom, dealt_pass, given_note, giver, gone, home, host_of, lender, lent_note, new_broom};
ghost use Rattle.flash_rule.specs.declared.facts.Name.TheVariants as name;
ghost use Rattle.flash_rule.specs.declared.facts.Pin.TheVariants as pin;
ghost use Rattle.flash_rule.specs.declared.facts.Role.TheVariants as seat;
ghost use Rattle.geometry.specs.{History.Begins, History.Trim, Limits.numbers};
ghost use Rattle.geometry.specs.declared.answer.Was.TheVariants as was;
ghost use Rattle.geometry.specs.declared.words.Phase.TheVariants as phase;
ghost use Rattle.laws.specs.{Brooms.a_page, Steps.sees, Steps.an_owned};

/// What the passes of a queue know at first.
pub fn sights_of_a_queue()
    ensures counter { (queue.counter 5).limit ≡ 5 }
    ensures counted { queue.counted (queue.counter 5) ≡ queue.counter 6 }
    ensures dealer { ((queue.dealer (queue.counter 5)).role ≡ queue_role.Dealer)
        × ((queue.dealer (queue.counter 5)).limit ≡ 5) }
    ensures user { queue.user_of (queue.dealer (queue.counter 5)) ≡ sees 5 [] 0 }
    ensures gone { (queue.gone.role ≡ queue_role.Gone)
        × (queue.gone.limit ≡ 0) × (queue.gone.puts ≡ []) }
    ensures new { (q : EraseQueue) (p : QueuePass) → IsNewPass q p
        → (sight_of p ≡ sees (limit_of q) [] 0) × (fulls_of p ≡ 0) × (empties_of p ≡ 0) }
    ensures new_here { (q : EraseQueue) (p : QueuePass) → IsNewPass q p → IsPassOf q p }
    ensures one_queue { (q : EraseQueue) (p : QueuePass) → IsPassOf q p
        → (p.port.table_id ≡ q.numbers.table.shared.table_id) × (p.port.me.1 ≡ []) }
    ensures used { (q : EraseQueue) (p : QueuePass) → empties_of p ≡ 1 → ¬ IsNewPass q p }
    ensures nothing { queue.Ruled [] [] }
    ensures nobody_put { ¬ queue.Ruled (5 ∷ []) [] }
{}

/// What the seats of a table know at first, and what changes when a badge or a note goes from one to another.
pub fn views_of_a_table()
    ensures dealer { (dealer (numbers 1 9 1 1 1 1 2 3)).owns
        ≡ an_owned 6 phase.Open 0 0 ∷ an_owned 7 phase.Open 0 0 ∷ an_owned 8 phase.Open 0 0 ∷ [] }
    ensures dealer_role { ((dealer (numbers 1 9 1 1 1 1 2 3)).role ≡ seat.Dealer)
        × ((dealer (numbers 1 9 1 1 1 1 2 3)).passes ≡ 0) }
    ensures new_pass { ((new_pass (dealer (numbers 1 3 1 1 1 1 2 0))).role
        ≡ seat.Player (name.Pass 0))
        × ((new_pass (dealer (numbers 1 3 1 1 1 1 2 0))).known ≡ 0 ∷ 0 ∷ 0 ∷ [])
        × ((new_pass (dealer (numbers 1 3 1 1 1 1 2 0))).whole ≡ true) }
    ensures dealt_pass { (v : View) → ((dealt_pass v).passes ≡ v.passes + 1)
        × ((dealt_pass v).brooms ≡ v.brooms) × ((dealt_pass v).owns ≡ v.owns) }
    ensures next_pass { (v : View)
        → (new_pass (dealt_pass v)).role ≡ seat.Player (name.Pass (v.passes + 1)) }
    ensures new_broom { ((new_broom (dealer (numbers 1 9 1 1 1 1 2 3))).role
        ≡ seat.Player (name.Broom 0))
        × ((new_broom (dealer (numbers 1 9 1 1 1 1 2 3))).owns ≡ an_owned 6 phase.Open 0 0 ∷ [])
        × ((new_broom (dealer (numbers 1 9 1 1 1 1 2 3))).whole ≡ true) }
    ensures dealt_broom { ((dealt_broom (dealer (numbers 1 9 1 1 1 1 2 3))).brooms ≡ 1)
        × ((dealt_broom (dealer (numbers 1 9 1 1 1 1 2 3))).owns
        ≡ an_owned 7 phase.Open 0 0 ∷ an_owned 8 phase.Open 0 0 ∷ []) }
    ensures lent { (v : View) → ((lender v).whole ≡ false)
        × ((lent_note v).copy ≡ Some (carried v)) × ((lent_note v).role ≡ seat.Note)
        × ((lender v).copy ≡ v.copy) }
    ensures guest { (v : View) → v.role ≡ seat.Player (name.Pass 2)
        → (lent_note v).guest ≡ Some (name.Pass 2) }
    ensures hosted { (v n : View) → ((host_of v n).guest ≡ n.guest)
        × ((host_of v n).copy ≡ n.copy) × ((host_of v n).older ≡ v.copy)
        × ((host_of v n).whole ≡ v.whole) }
    ensures given { (v : View) → ((giver v).guest ≡ None)
        × ((given_note v).guest ≡ v.guest) × ((given_note v).copy ≡ Some (carried v))
        × ((giver v).copy ≡ v.copy) }
    ensures home { (v n : View) → ((home v n).whole ≡ true) × ((home v n).copy ≡ n.copy)
        × ((home v n).older ≡ v.copy) × ((home v n).guest ≡ v.guest) }
    ensures carries { (v : View) → ((carried v).programs ≡ v.programs)
        × ((carried v).erases ≡ v.erases) × ((carried v).seen ≡ v.seen) }
    ensures gone { (gone.role ≡ seat.Gone) × (gone.owns ≡ []) × (gone.whole ≡ false) }
    ensures owned { with_owned (an_owned 3 phase.Open 1 2)
        (an_owned 4 phase.Open 0 0 ∷ an_owned 3 phase.Open 0 0 ∷ [])
        ≡ an_owned 3 phase.Open 1 2 ∷ an_owned 4 phase.Open 0 0 ∷ [] }
    ensures word { (sector_word None ≡ 0)
        × (sector_word (Some (a_page 0 0 1)) ≡ 9223372036854775809) }
    ensures on { (x : List ℕ) → IsOn (pin.Accepted (a_page 1 3 2) x) 3
        × (¬ IsOn (pin.Candidate (a_page 1 3 2) x) 3)
        × (¬ IsOn (pin.Accepted (a_page 1 3 2) x) 2) }
    ensures stray { IsOn (pin.Stray 3) 3 × (¬ IsOn (pin.Stray 3) 2) × (¬ IsOn pin.Clear 0) }
    ensures unpinned { (x : List ℕ) → (is_unpinned pin.Clear ≡ true)
        × (is_unpinned (pin.Candidate (a_page 1 3 2) x) ≡ true)
        × (is_unpinned (pin.Accepted (a_page 1 3 2) x) ≡ false)
        × (is_unpinned (pin.Stray 3) ≡ false) }
    ensures called { (v w : View) → Called v (Trim 2 5) 5 was.Empty w
        → (w.mine ≡ v.mine ++ Trim 2 5 ∷ []) × Begins v.seen w.seen
        × (w.programs ≡ v.programs) }
{}
