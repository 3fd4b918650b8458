//! What a program of jobs is proved over: what a caller can do, what a job is, and what comes of a memory. It stands on
//! no engine; tx_start has the caller of this one, and opens memories.
#![tactic(auto)]

pub mod calls;
pub mod closed;
pub mod gather;
pub mod job;
pub mod laws;
pub mod repeats;
pub mod rounds;
pub mod sizes;
pub mod times;
