//! What `stm_bench` does: the commands, from the words of the command line and the bytes read to the
//! bytes written and the exit status.
#![tactic(auto)]

pub mod bench;
mod checks;
mod commands;
mod input;
pub mod laws;
mod messages;
mod parts;
pub mod program;
pub mod status;
pub mod telling;
pub mod why;

pub use work_faults::fault::Fault;
pub use work_io::ends::{Sink, Source};
pub use work_io::memory::{MemSink, MemSource};
pub use work_worker::turnstile::{Open, Turnstile};
