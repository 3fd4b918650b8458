//! Where a program begins: a memory is opened, its callers do jobs on threads, by the calls that tx_jobs has, it is
//! closed, and what came of it is answered. The program has no descriptor in its hands.
#![tactic(auto)]

pub mod caller;
pub mod memory;
pub mod times;
pub mod update;
mod working;
