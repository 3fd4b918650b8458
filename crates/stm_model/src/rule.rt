//! What a user keeps true of memory between transactions.

/// A rule on memories. `good` takes the rule's value and a memory.
///
/// A memory is opened only on a good one, and each transaction that commits must lead from every good
/// memory that explains its reads to a good one. In return every attempt knows that a good memory
/// explains what it has read.
pub trait MemRule {
    ghost use Rattle.std.specs.Prelude.{ℕ, List};

    ghost good: { Self → List ℕ → Type 0 };
}

/// The rule that holds of every memory.
#[derive(Clone, Copy, Drop, Debug, PartialEq, Eq)]
pub struct AnyMem;

impl MemRule for AnyMem {
    ghost good = { λ rule memory. Unit {0} };
}
