//! A transaction as a value.
ghost use Rattle.std.specs.Prelude.{◌≡◌, None, Some, IfOk, OnOk, IfErr};
ghost use Rattle.stm_model.specs.Logs.{Keeps, SameMemories};
ghost use Rattle.data_effects.specs.FreshLaws.{nothing};

use stm_model::access::Access;
use stm_model::rule::MemRule;
use stm_model::stop::Stop;

/// What one transaction does to a memory under a rule.
///
/// Its attempts see one memory each, however they end. So what it says of its answer holds of attempts too that are
/// refused after it, and it needs no test for what the rule excludes.
pub trait Transaction<K: MemRule> {
    ghost use Rattle.std.specs.Prelude.{ℕ, ◌<◌};
    ghost use Rattle.stm_model.specs.Logs.{Log};

    type Output: Drop;

    // what it needs of the rule and of the number of words; one that says nothing is of word 0 alone.
    ghost precondition: { Self → K → ℕ → Type 0 } = { λ it rule words. 0 < words };

    // what is so of its answer, and of what an attempt that answers so has read and written; nothing, if it doesn't
    // say.
    ghost postcondition: { Self → K → ℕ → Self.Output → Log → Type 0 } = { λ it rule words came log. Unit {0} };

    /// Does it in one attempt, which has done nothing before.
    ///
    /// # Errors
    /// The Stop of the access.
    fn run<A: Access>(&self, rule: &K, memory: &mut A) -> Result<Self::Output, Stop>
        requires going { A.stopped memory.old ≡ None }
        requires fresh { A.log memory.old ≡ nothing }
        requires good { SameMemories (A.good memory.old) (K.good rule.now) }
        requires precondition { precondition self.now rule.now (A.words memory.old) }
        ensures kept { OnOk result
            (Keeps (K.good rule.now) (A.words memory.old) (A.log memory.new)) }
        ensures postcondition { IfOk result (λ r.
            postcondition self.now rule.now (A.words memory.old) r (A.log memory.new)) }
        ensures goes { OnOk result (A.stopped memory.new ≡ None) }
        ensures stops { IfErr result (λ s. A.stopped memory.new ≡ Some s) }
        ensures keeps { A.keeps memory.old memory.new };
}
