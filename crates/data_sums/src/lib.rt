//! A map from keys to values with the sums of ranges of keys, over any access.
#![tactic(auto)]

pub mod laws;
pub mod sum_map;
