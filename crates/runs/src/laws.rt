//! Laws of the room for a delivery. Each function has no code: its clauses say what a definition is on small values.
ghost use Rattle.std.specs.Prelude.{◌≡◌, ℕ, [], ◌∷◌};
ghost use Rattle.answers.specs.Delivery.{page_digits_of};
ghost use Rattle.rounds.specs.declared.answer_list.Cursor.{Cursor};
ghost use Rattle.runs.specs.{Texts.digits_in, Texts.workers_in, declared.delivery.Delivery.Delivery};

/// For how many workers, and for how many digits of a page, a delivery has room.
pub fn room_for_a_delivery()
    ensures none { (d : Delivery) → d.next.items ≡ [] → workers_in d ≡ 0 }
    ensures workers { (d : Delivery) (a b : Cursor) → d.next.items ≡ a ∷ b ∷ [] → workers_in d ≡ 2 }
    ensures digits { (d : Delivery) (n : ℕ) → page_digits_of d.lines ≡ n → digits_in d ≡ n }
{}
