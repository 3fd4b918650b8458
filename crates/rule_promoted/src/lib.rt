//! The clauses of a promoted attempt, which is alone and works in place, with the laws of its steps; and what each
//! algorithm needs to go on after it.
#![tactic(auto)]

pub mod laws;
