//! Laws of the definitions, as the contract of a function.
ghost use Rattle.data_effects.specs.Statements.{AddsToSet, RemovesFromSet, EqualSetsAreEqualLists};

/// A structure's keys are a list in ascending order, each key once. Such lists are sets: an added key is
/// there and nothing else changes, a removed one isn't, and lists with the same keys are equal.
pub fn keys_are_sets()
    ensures adds { AddsToSet }
    ensures removes { RemovesFromSet }
    ensures equal { EqualSetsAreEqualLists }
{}
