//! A transaction's loop, for users whose own code isn't proved: `enter` says whether a body may run, and `leave` what
//! becomes of what it did. Where the body didn't end well, nothing that it wrote stands: an attempt that can't be taken
//! back has its writes in a buffer until `leave`. No call has a precondition.
#![tactic(auto)]

pub mod access;
pub mod attempts;
mod ends;
pub mod entering;
pub mod leaving;
pub mod looping_caller;
pub mod marks;
pub mod opening;
pub mod passing;
pub mod plan;
pub mod stage;
mod storing;
pub mod turn;
pub mod waiting;
pub mod watch;
