ghost use Rattle.rounds.specs.{Told.RoundsAreInOrder, Told.OrderIsText, Runs.RunBegins, Runs.RunGoesOn, Runs.MeetingGoesOn, Runs.RoundsGoOn, Runs.RunIsText};

/// Lines that workers play concurrently, at disjoint sectors, are answered as if played one after another.
pub fn rounds_are_answered_in_order()
    ensures round { RoundsAreInOrder }
    ensures text { OrderIsText }
{}

/// A run of rounds with meetings between them has the text of its trace's answers.
pub fn runs_are_answered_in_order()
    ensures begins { RunBegins }
    ensures round { RunGoesOn }
    ensures meeting { MeetingGoesOn }
    ensures disjoint { RoundsGoOn }
    ensures text { RunIsText }
{}
