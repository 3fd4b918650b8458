//! Workloads made from a seed, whose summary is the same for every order in which the callers come.
#![tactic(auto)]

pub mod draws;
pub mod generate;
pub mod laws;
pub mod summary;
pub mod summary_text;
