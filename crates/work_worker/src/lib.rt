//! One caller of a workload: its transactions and switches in order, and the turn, in which it makes one call on the
//! memory and says what that answered. Its contract ties each answer to the table of turns, and each row to its script.
#![tactic(auto)]

pub mod laws;
pub mod leaving;
mod room;
pub mod turnstile;
pub mod worker;
