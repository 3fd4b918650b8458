//! Reports, read from their text and judged: does one thread that runs their rows get what they say?
#![tactic(auto)]

pub mod apart;
pub mod checking;
pub mod laws;
mod ledger;
pub mod reading;
pub mod replay;
mod rows;
mod running;
pub mod scripts;
mod table;
pub mod verdict;
pub mod wanted;
pub mod words;
