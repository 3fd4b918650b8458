//! The answers of the calls on a transactional memory, and what a caller is told by each.
#![tactic(auto)]

pub mod answers;
pub mod laws;
