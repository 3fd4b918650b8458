//! Traces: the text that `stm_bench step` writes, read back, walked along its workload, and handed on to be drawn.
#![tactic(auto)]

pub mod asking;
pub mod chosen;
pub mod cursor;
pub mod draw;
mod input;
pub mod laws;
pub mod misfit;
pub mod phase;
pub mod program;
pub mod reading;
mod said;
pub mod status;
pub mod telling;
pub mod turn;
pub mod walk;
pub mod whole;
