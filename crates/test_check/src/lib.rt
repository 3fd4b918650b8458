//! Tests of work_check: workloads and the reports after them, right, wrong and damaged.
#![tactic(auto)]

#[cfg(test)]
mod damage_tests;
#[cfg(test)]
mod fault_tests;
#[cfg(test)]
mod plain_replay;
#[cfg(test)]
mod verdict_tests;
