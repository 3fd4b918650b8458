//! Producers give numbered jobs, and workers take them, on threads of their own: each job is taken once. It stands on
//! no engine: `example_queue` runs it.
#![tactic(auto)]

pub mod day;
pub mod hands;
pub mod jobs;
pub mod plan;
