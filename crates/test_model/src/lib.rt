//! Tests of the crates that say what a memory is, of the logs, and of the one rule: stm_model, stm_logs, stm_rule.
#![tactic(auto)]

#[cfg(test)]
mod stm_logs_tests;
#[cfg(test)]
mod stm_model_tests;
#[cfg(test)]
mod stm_rule_tests;
