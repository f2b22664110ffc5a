ghost use Rattle.std.specs.Prelude.{◌≡◌, ℕ, List, [], Ok, Err};
ghost use Rattle.answers.specs.Answers.{broom_names, collection_names, end_text, totals_text};
ghost use Rattle.geometry.specs.{Geometry.brooms_of, declared.geometry.Geometry.Geometry};
ghost use Rattle.runs.specs.{Logs.IsBroomLogOf, Logs.brooms_text, Logs.IsLogOf, Playing.IsTextOf, Texts.IsTextOf as IsSharedTextOf, Logs.IsWearOf};
ghost use Rattle.trace.specs.{Trace.commands_of, declared.fault.TraceFault.TraceFault};
ghost use Rattle.workers.specs.Served.{AllHaveServed};

/// A trace has one text by one thread, and that of a trace without commands is known.
pub fn texts_of_a_trace()
    ensures one { (geo : Geometry) (bytes text other : List ℕ)
        → IsTextOf geo bytes text → IsTextOf geo bytes other → text ≡ other }
    ensures empty { (geo : Geometry) (bytes text : List ℕ) → commands_of bytes geo ≡ Ok []
        → IsTextOf geo bytes text → text ≡ totals_text 0 0 0 }
    ensures shared { (geo : Geometry) (bytes text : List ℕ)
        → commands_of bytes geo ≡ Ok [] → IsSharedTextOf geo bytes text → text ≡ end_text }
{}

/// A trace has one log of collections and one wear, and the logs of a run without commands or brooms have only their names. The brooms of a log
/// have kept within its limit of drains by one survey.
pub fn logs_of_a_trace()
    ensures log { (geo : Geometry) (bytes text other : List ℕ)
        → IsLogOf geo bytes text → IsLogOf geo bytes other → text ≡ other }
    ensures wear { (geo : Geometry) (bytes text other : List ℕ)
        → IsWearOf geo bytes text → IsWearOf geo bytes other → text ≡ other }
    ensures no_line { (geo : Geometry) (bytes text : List ℕ)
        → commands_of bytes geo ≡ Ok [] → IsLogOf geo bytes text → text ≡ collection_names }
    ensures no_broom { (geo : Geometry) (drains : ℕ) (bytes text : List ℕ)
        → brooms_of geo ≡ 0 → IsBroomLogOf drains geo bytes text
        → text ≡ broom_names }
    ensures unread_log { (geo : Geometry) (drains : ℕ) (bytes text : List ℕ) (t : TraceFault)
        → commands_of bytes geo ≡ Err t → ¬ IsBroomLogOf drains geo bytes text }
    ensures limit { (geo : Geometry) (drains : ℕ) (bytes text : List ℕ) (log : IsBroomLogOf drains geo bytes text) → AllHaveServed geo drains log.ends
        × (text ≡ brooms_text log.ends) }
{}
