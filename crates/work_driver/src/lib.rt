//! From a workload to what its run came to: opening, the turns of all callers, closing and the report.
#![tactic(auto)]

pub mod closing;
pub mod finishing;
pub mod gathering;
pub mod laws;
pub mod opening;
pub mod order;
pub mod outcome;
pub mod parting;
pub mod preparing;
pub mod run;
pub mod schedule;
pub mod step;
pub mod threads;
pub mod workers;
