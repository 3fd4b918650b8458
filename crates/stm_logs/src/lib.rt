//! What an attempt keeps of its own: logs with one item an address, found by a hashed index, and filters of
//! addresses. A log and a filter are one caller's own data, so no call takes an atomic step. Only the calls
//! that take `alloc` take memory.
#![tactic(auto)]

pub mod filter;
pub mod index;
pub mod indexed_log;
pub mod laws;
pub mod marks;
pub mod probes;
pub mod push;
pub mod read_log;
pub mod short_log;
pub mod undo_log;
pub mod write_log;
