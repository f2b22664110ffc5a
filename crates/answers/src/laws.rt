//! Laws of what waits to be written. Each function has no code: its clauses say what a definition is on small values.
ghost use Rattle.std.specs.Prelude.{◌≡◌, ℕ, List, [], ◌∷◌};
ghost use Rattle.answers.specs.{Delivery.page_digits_of, Delivery.waiting_of, declared.lines.Lines.Lines};

/// The bytes of a buffer that wait to be written, and the digits of a page.
pub fn texts_of_a_buffer()
    ensures waiting { (l : Lines) (rest : List ℕ) → l.buffer.items ≡ 7 ∷ 8 ∷ rest
        → l.used ≡ 2 → waiting_of l ≡ 7 ∷ 8 ∷ [] }
    ensures one_waiting { (l : Lines) (rest : List ℕ)
        → l.buffer.items ≡ 7 ∷ 8 ∷ rest → l.used ≡ 1 → waiting_of l ≡ 7 ∷ [] }
    ensures none_waiting { (l : Lines) → l.used ≡ 0 → waiting_of l ≡ [] }
    ensures digits { (l : Lines) → l.digits ≡ 16 → l.used ≡ 4 → page_digits_of l ≡ 16 }
{}
