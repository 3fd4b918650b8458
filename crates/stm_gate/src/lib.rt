//! The gate: a caller closes it, waits until all others are idle, installs another algorithm, and reopens; an
//! attempt closes it to be alone. And the end of an attempt, which is the same under every algorithm.
#![tactic(auto)]

pub mod direct;
pub mod fence;
pub mod gate;
pub mod leave;
pub mod looking;
pub mod promote;
