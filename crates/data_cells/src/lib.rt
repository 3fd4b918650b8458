//! Structures of words over any access: a counter in stripes, and keys in chains of cells: a sorted list
//! and a hash set.
#![tactic(auto)]

pub mod chains;
pub mod counter;
pub mod hash;
pub mod laws;
pub mod list;
