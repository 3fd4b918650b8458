//! The text forms of workloads and reports: the grammar, a parser that finds a workload or the first fault of its text,
//! and the text of a report.
#![tactic(auto)]

pub mod code;
mod draft;
pub mod laws;
pub mod lines;
pub mod parse;
pub mod parting;
pub mod report;
mod table;
