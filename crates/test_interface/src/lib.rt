//! Tests of the one interface, stm_tx, a file a subject: what the scripts of test_caller_scripts, whose callers make
//! whole calls alone, can't show.
#![tactic(auto)]

#[cfg(test)]
mod calls_tests;
#[cfg(test)]
mod dropped_tests;
#[cfg(test)]
mod eager_tests;
#[cfg(test)]
mod gate_tests;
#[cfg(test)]
mod library_tests;
#[cfg(test)]
mod part_tests;
#[cfg(test)]
mod ring_tests;
