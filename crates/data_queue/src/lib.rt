//! A queue of values in a ring of cells, over any access.
#![tactic(auto)]

pub mod laws;
pub mod queue;
