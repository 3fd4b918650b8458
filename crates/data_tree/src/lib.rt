//! A set of keys in a plain binary search tree of words, over any access.
#![tactic(auto)]

pub mod laws;
pub mod pool;
pub mod tree;
