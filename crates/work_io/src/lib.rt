//! Where a program's bytes come from and where they go: sources and sinks that count their faults.
#![tactic(auto)]

pub mod adapters;
pub mod arguments;
pub mod ends;
pub mod memory;
pub mod whole;
