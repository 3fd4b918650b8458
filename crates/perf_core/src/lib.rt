//! Transactions by the hundred thousand, to be timed from outside: six workloads over one memory, on threads under one
//! algorithm, and a check of the memory that they leave.
#![tactic(auto)]

pub mod caller;
pub mod checks;
pub mod conflicts;
pub mod drawing;
pub mod ending;
pub mod filling;
pub mod help;
pub mod jobs;
pub mod looks;
pub mod opening;
pub mod plan;
pub mod program;
pub mod report;
pub mod rows;
pub mod run;
pub mod work_counts;
pub mod work_region;
pub mod wrong;
