//! RingSW, the single-writer ring of Spear, Michael and von Praun ("RingSTM: Scalable Transactions with a Single Atomic
//! Instruction", 2008). The ring has the write filters of the last commits: an attempt that reads checks those since
//! its start against the filter of what it read, and one commit at a time stores its filter, its entry and its words.
//!
//! In the files whose names end in `_steps` each function is one atomic step on the table: it takes no memory, and says
//! what it showed to its caller.
#![tactic(auto)]

pub mod check;
mod committing_steps;
mod nesting;
mod promoting_steps;
mod reading_steps;
pub mod ring;
