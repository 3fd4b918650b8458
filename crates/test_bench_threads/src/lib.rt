//! Tests of `bench`: several callers, each on a thread, with switches and policies, and generated workloads.
#![tactic(auto)]

#[cfg(test)]
mod gen_tests;
#[cfg(test)]
mod history_tests;
#[cfg(test)]
mod policy_tests;
#[cfg(test)]
mod thread_tests;
#[cfg(test)]
mod turnstile_tests;
