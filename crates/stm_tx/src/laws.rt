//! Laws of the definitions that the calls cite, each as the contract of a function with nothing to do.
ghost use Rattle.std.specs.Prelude.{ℕ};
ghost use Rattle.stm_model.specs.declared.config.Config.{Config};
ghost use Rattle.stm_rule.specs.Kept.{good_of};
ghost use Rattle.stm_tx.specs.Costs.{AreBounded};
ghost use Rattle.stm_tx.specs.Resting.{GrantedIsRest, InstalledIsLevel, OneIsFixed, QuietIsRest};

use stm_model::config::Config;
use stm_model::rule::MemRule;

/// The law of the costs: the table's bounds lie within those that hold under each algorithm.
pub fn costs_are_bounded()
    ensures { AreBounded }
{}

/// Who was answered Quiet, or Granted under an algorithm that closes the gate for it, is alone with the memory: what
/// these answers tell is enough, in every world that meets the rule. Who installed, and holds the gate since, finds
/// BASE and DONE at the clock.
pub fn rest_is_answered<K: MemRule>()
    ensures quiet { (rule : K) (c : Config) → QuietIsRest (K.good rule) (good_of K.good c rule) c }
    ensures granted { (rule : K) (c : Config)
        → GrantedIsRest (K.good rule) (good_of K.good c rule) c }
    ensures installed { (rule : K) (c : Config)
        → InstalledIsLevel (K.good rule) (good_of K.good c rule) c }
{}

/// At most one attempt is irrevocable at a time: two callers whose attempts run and are irrevocable, by what the
/// answers told of each, are one, in every world that meets the rule. An attempt that was not granted with the gate
/// closed has the lock, or is TML's writer: its begin or its first write told so.
pub fn one_is_irrevocable<K: MemRule>()
    ensures { (rule : K) (c : Config) → OneIsFixed (K.good rule) (good_of K.good c rule) c }
{}
