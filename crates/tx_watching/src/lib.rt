//! A transaction that says of which words it read: so who waits for one of these to change knows that it announces
//! each.
#![tactic(auto)]

pub mod watched;
pub mod watching;
