//! Regions: words of a memory that structures have for themselves, and the rule that each of them is well
//! formed.
#![tactic(auto)]

pub mod laws;
pub mod region;
