//! What deeds come to in a closed memory, as the contract of a function.
ghost use Rattle.std.specs.Prelude.{ℕ, ◌+◌, ◌≡◌, List, length, sum_by};
ghost use Rattle.stm_model.specs.declared.alg.Alg.{Alg};
ghost use Rattle.stm_model.specs.declared.config.Config.{Config};
ghost use Rattle.stm_model.specs.Histories.{Entry, IsLegal, made_by, memory_after};
ghost use Rattle.tx_jobs.specs.Deeds.{IsDeed, AreDeeds, HasDone, Leads, InOrder, InOneOrder};
ghost use Rattle.tx_jobs.specs.Known.{Known};
ghost use Rattle.tx_jobs.specs.Moments.{zeros};
ghost use Rattle.tx_jobs.specs.Stories.{Past, Came};

use stm_model::rule::MemRule;

/// What a transaction of a caller did, as a value.
pub trait Deed<K: MemRule> {
    ghost use Rattle.std.specs.Prelude.{ℕ, List};

    // by the rule, the memory before it and the memory after it
    ghost moves: { Self → K → List ℕ → List ℕ → Type 0 };
}

/// In any legal history, where each caller's entries are deeds of its own, the deeds of all stand in one order, each
/// caller's in its own, and lead from the memory at first to that at the end; so it is in a closed memory where what
/// each caller answered tells its deeds (`own`). Whatever each deed moves from what it brings to what it takes is
/// nowhere lost.
pub fn deeds_stand_in_one_order<K: MemRule, D: Deed<K>, V>()
    ensures order { (rule : K) (opening : List ℕ) (floor : ℕ) (history : List Entry)
        (own : ℕ → List D) → IsLegal (K.good rule) opening floor history
        → ((n : ℕ) → AreDeeds (IsDeed (K.good rule) (length opening) (λ m. m) (λ d. D.moves d rule))
        (made_by n history) (own n))
        → InOrder (IsDeed (K.good rule) (length opening) (λ m. m) (λ d. D.moves d rule))
        (λ d. D.moves d rule) own history opening (memory_after history opening) }
    ensures closed { (rule : K) (own : ℕ → V → List D) (config : Config) (alg : Alg)
        (words : List ℕ) (answers : List V) (past : Past)
        → Came (K.good rule) config alg (λ n v before after.
        HasDone (IsDeed (K.good rule) config.words (λ m. m) (λ d. D.moves d rule)) (own n v)
        before.made after.made) words answers past
        → InOneOrder (IsDeed (K.good rule) config.words (λ m. m) (λ d. D.moves d rule)) (λ d. D.moves d rule)
        own config.callers answers past.history (zeros config.words) words }
    ensures kept { (rule : K) (weight : List ℕ → ℕ) (brings takes : D → ℕ)
        → ((d : D) (m n : List ℕ) → D.moves d rule m n
        → weight m + brings d ≡ takes d + weight n)
        → (deeds : List D) (m n : List ℕ) → Leads (λ d. D.moves d rule) deeds m n
        → weight m + sum_by brings deeds ≡ sum_by takes deeds + weight n }
{}
