//! The law of RingSW's steps, as a contract. A function here does nothing: its contract is the law.
ghost use Rattle.stm_model.specs.declared.config.Config.{Config};
ghost use Rattle.rule_base.specs.Bridge.{of_words};
ghost use Rattle.rule_ring.specs.RingRuns.{RingKeepsAlong};
ghost use Rattle.rule_ring.specs.SlotFilter.{slot_filter};

use stm_model::config::Config;
use stm_model::rule::MemRule;

/// Whatever steps of RingSW any callers take, each allowed where it comes, the rule holds after each.
pub fn ring_keeps_along<K: MemRule>()
    ensures { (rule : K) (c : Config)
        → RingKeepsAlong slot_filter (of_words (K.good rule) c.words) c }
{}
