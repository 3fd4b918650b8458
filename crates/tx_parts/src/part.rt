//! A part of a transaction, as a value.
ghost use Rattle.std.specs.Prelude.{◌≡◌, ◌≤◌, ◌+◌, None, Some, IfOk, OnOk, IfErr, IfSome};
ghost use Rattle.stm_model.specs.Logs.{SameMemories, IsExplained};
ghost use Rattle.data_effects.specs.Effects.{Under};
ghost use Rattle.stm_model.specs.declared.config.TheConstants.{MOST_MARKS};

use crate::nesting::Nesting;
use stm_model::rule::MemRule;
use stm_model::stop::Stop;

/// What one part of a transaction does, from whatever was done before, which keeps the rule. None where it gives way:
/// on this memory it can't be done. Where it is done, it leaves the rule kept: so it may call structures, and others
/// may after it.
pub trait Part<K: MemRule> {
    ghost use Rattle.std.specs.Prelude.{ℕ, Option};
    ghost use Rattle.stm_model.specs.Logs.{Log};

    type Output: Drop;

    // what it needs of the rule and of the number of words
    ghost precondition: { Self → K → ℕ → Type 0 };

    // how deep the parts in it stand in one another: 0 for none
    ghost depth: { Self → ℕ };

    // what is so of its answer, and of what had been read and written before it and after it
    ghost postcondition: { Self → K → ℕ → Option Self.Output → Log → Log → Type 0 };

    /// Does it.
    ///
    /// # Errors
    /// The Stop of the access.
    fn run<N: Nesting>(&self, rule: &K, memory: &mut N) -> Result<Option<Self::Output>, Stop>
        requires going { N.stopped memory.old ≡ None }
        requires good { SameMemories (N.good memory.old) (K.good rule.now) }
        requires explained { IsExplained (N.good memory.old) (N.words memory.old)
            (N.log memory.old) }
        requires sound { Under (K.good rule.now) (N.words memory.old) (N.log memory.old)
            (K.good rule.now) }
        requires precondition { precondition self.now rule.now (N.words memory.old) }
        requires shallow { N.depth memory.old + depth self.now ≤ MOST_MARKS }
        ensures kept { IfOk result (λ o.
            IfSome o (λ r.
            Under (K.good rule.now) (N.words memory.old) (N.log memory.new) (K.good rule.now))) }
        ensures postcondition { IfOk result (λ o.
            postcondition self.now rule.now (N.words memory.old) o (N.log memory.old)
            (N.log memory.new)) }
        ensures explained { OnOk result
            (IsExplained (N.good memory.new) (N.words memory.new) (N.log memory.new)) }
        ensures goes { OnOk result (N.stopped memory.new ≡ None) }
        ensures stops { IfErr result (λ s. N.stopped memory.new ≡ Some s) }
        ensures keeps { N.keeps memory.old memory.new };
}
