//! What a fault of a text is, in a sentence: where it is, what stands there and what may stand there.
#![tactic(auto)]

mod at;
mod cause;
pub mod fault;
pub mod laws;
pub mod line;
mod offer;
pub mod place;
pub mod report;
mod sentence;
pub mod trace;
pub mod workload;
pub mod wrong;
