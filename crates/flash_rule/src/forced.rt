//! What each step on a pin word has to make of it.
ghost use Rattle.flash_rule.specs.Forced.{TestLeaves, TakeSets, PinAdds, UnpinTakesOff, CountAdds, CloseAdds, ClaimExchanges, DrainAdds};
ghost use Rattle.flash_rule.specs.Forced.{CondemnExchanges, FreeAdds, KeepAdds, RetireAdds, AdditionsDiffer};

/// The laws of the steps on pin words: whatever operation a step makes, and however it is proved, if the rule allows it and its seat learns what
/// its play says, these laws determine the word after it.
pub fn pin_words_are_forced()
    ensures tests { TestLeaves }
    ensures takes { TakeSets }
    ensures pins { PinAdds }
    ensures unpins { UnpinTakesOff }
    ensures counts { CountAdds }
    ensures closes { CloseAdds }
    ensures claims { ClaimExchanges }
    ensures drains { DrainAdds }
    ensures condemns { CondemnExchanges }
    ensures frees { FreeAdds }
    ensures keeps { KeepAdds }
    ensures retires { RetireAdds }
    ensures additions { AdditionsDiffer }
{}
