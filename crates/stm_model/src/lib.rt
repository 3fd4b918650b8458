//! What a transactional memory is: memories, histories of committed transactions, attempts and their
//! logs, the access to a memory from within an attempt, and what a user keeps true of memory.
#![tactic(auto)]

pub mod access;
pub mod alg;
pub mod config;
pub mod laws;
pub mod memory;
pub mod plain;
pub mod rule;
pub mod stop;
