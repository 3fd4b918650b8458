//! Where the values of a memory lie: places, rows of them, records, and the words of structures, handed out one after
//! another, so that nobody counts words by hand.
#![tactic(auto)]

pub mod laws;
pub mod layout;
pub mod records;
