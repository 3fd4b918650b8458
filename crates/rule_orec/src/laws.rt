//! The law of the steps of OrecLazy and OrecEager, as contracts. A function here does nothing: its contract is the law.
ghost use Rattle.stm_model.specs.declared.config.Config.{Config};
ghost use Rattle.rule_base.specs.Bridge.{of_words};
ghost use Rattle.rule_orec.specs.OrecRuns.{OrecKeepsAlong, StampsGrow};
ghost use Rattle.rule_orec.specs.EagerRuns.{EagerRollsBack};

use stm_model::config::Config;
use stm_model::rule::MemRule;

/// Whatever steps of the record algorithms any callers take, each allowed where it comes, the rule holds
/// after each, and no stamp of a record falls.
pub fn orec_keeps_along<K: MemRule>()
    ensures kept { (rule : K) (c : Config) → OrecKeepsAlong (of_words (K.good rule) c.words) c }
    ensures stamps { (rule : K) (c : Config) → StampsGrow (of_words (K.good rule) c.words) c }
{}

/// A roll back to a mark under OrecEager is such a list of steps.
pub fn eager_rolls_back<K: MemRule>()
    ensures { (rule : K) (c : Config) → EagerRollsBack (of_words (K.good rule) c.words) c }
{}
