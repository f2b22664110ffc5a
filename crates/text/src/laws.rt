//! Laws of where digits and fields end, and of a short text. Each function has no code: its clauses say where a definition holds and where it doesn't.
ghost use Rattle.std.specs.Prelude.{◌≡◌, ℕ, List, [], codes};
ghost use Rattle.text.specs.{Digits.EndsDigits, Lanes.IsRun, Putting.short_of};

/// Where the digits end that begin at a place: at the first byte that is none, or with the text.
pub fn ends_of_digits()
    ensures empty { EndsDigits [] 0 0 }
    ensures none { EndsDigits (codes "g") 0 0 }
    ensures one { EndsDigits (codes "a") 0 1 }
    ensures early { ¬ EndsDigits (codes "a") 0 0 }
    ensures late { ¬ EndsDigits (codes "g") 0 1 }
    ensures before { (text : List ℕ) → ¬ EndsDigits text 1 0 }
    ensures beyond { ¬ EndsDigits [] 1 1 }
{}

/// How many of the next sixteen bytes come before the end of a field.
pub fn runs_of_a_field()
    ensures comma { IsRun (codes ",") 0 0 }
    ensures line_feed { IsRun (codes "\n") 0 0 }
    ensures carriage_return { IsRun (codes "\r") 0 0 }
    ensures one { IsRun (codes "a,") 0 1 }
    ensures early { ¬ IsRun (codes "a") 0 0 }
    ensures late { ¬ IsRun (codes ",,") 0 1 }
    ensures beyond { (text : List ℕ) → ¬ IsRun text 0 17 }
{}

/// The text of which the first bytes count, and the others are ignored.
pub fn short_texts()
    ensures part { short_of (record { bytes = codes "met\n,,"; len = 4 }) ≡ codes "met\n" }
    ensures whole { short_of (record { bytes = codes "met\n"; len = 4 }) ≡ codes "met\n" }
    ensures none { short_of (record { bytes = codes "met\n"; len = 0 }) ≡ [] }
{}
