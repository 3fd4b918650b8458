//! The law of a promoted attempt's steps, as a contract. A function here does nothing: its contract is the law.
ghost use Rattle.std.specs.Prelude.{ℕ};
ghost use Rattle.stm_model.specs.declared.alg.Alg.{Alg};
ghost use Rattle.stm_model.specs.declared.alg.Alg.TheVariants.{OrecEager};
ghost use Rattle.stm_model.specs.declared.config.Config.{Config};
ghost use Rattle.rule_base.specs.Bridge.{of_words};
ghost use Rattle.rule_promoted.specs.PromotedRuns.{DirectKeepsAlong};
ghost use Rattle.rule_base.specs.StepKinds.{StepLaw, Nothing};
ghost use Rattle.rule_promoted.specs.PromotedRule.{DirectWorld};
ghost use Rattle.rule_promoted.specs.RaisingSteps.{direct_raise_clock, CanDirectRaiseClock, direct_up, CanDirectUp};
ghost use Rattle.std.specs.Prelude.{◌<◌};

use stm_model::alg::Alg;
use stm_model::config::Config;
use stm_model::rule::MemRule;

/// Whatever loads, stores, entries and releases of records a promoted attempt takes, under each algorithm,
/// each allowed where it comes, its clauses hold after each.
pub fn direct_keeps_along<K: MemRule>()
    ensures { (rule : K) (c : Config) (alg : Alg) (caller : ℕ)
        → DirectKeepsAlong (of_words (K.good rule) c.words) c alg caller }
{}

/// So they do where it raises the clock without an entry, and gives back records of words that it took back.
pub fn direct_raises_along<K: MemRule>()
    ensures raises_clock { (rule : K) (c : Config) (caller least : ℕ) → caller < c.callers
        → StepLaw (DirectWorld (of_words (K.good rule) c.words) c OrecEager caller)
        (direct_raise_clock least) Nothing caller (CanDirectRaiseClock least) }
    ensures ups { (rule : K) (c : Config) (caller r version : ℕ)
        → StepLaw (DirectWorld (of_words (K.good rule) c.words) c OrecEager caller)
        (direct_up r version) Nothing caller (CanDirectUp r version) }
{}
