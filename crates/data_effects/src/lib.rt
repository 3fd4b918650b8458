//! What a call over an access does to the memory that it sees, and the sets of keys that structures hold.
#![tactic(auto)]

pub mod cells;
pub mod insert;
pub mod laws;
pub mod position;
