//! Traces: what a caller's turn says under `step`, its line of text, and which lists of lines are the trace of a
//! workload (the table of turns).
#![tactic(auto)]

pub mod laws;
pub mod line;
pub mod said;
pub mod text;
