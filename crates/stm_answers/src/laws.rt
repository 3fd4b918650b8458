//! A law of the definitions, as the contract of a function.
ghost use Rattle.stm_answers.specs.Limits.{LimitsAre};

/// A slot of the ring has sixteen words.
pub fn limits_are()
    ensures { LimitsAre }
{}
