//! Workloads: operations and what they mean, scripts over any access, and reports of what they did.
#![tactic(auto)]

pub mod interpret;
pub mod laws;
pub mod lists;
pub mod op;
pub mod operation;
pub mod pairs;
pub mod replies;
pub mod report;
pub mod structures;
pub mod workload;
