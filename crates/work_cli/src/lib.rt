//! The command line of `stm_bench`, read by clap: which words ask for a command, and for which. Words ask for one
//! command at most.
#![tactic(auto)]

pub mod command;
mod grammar;
pub mod help;
pub mod laws;
pub mod reading;
pub mod wrong;
