//! A caller with its memory, for users whose own code isn't proved. No call of it has a precondition: each looks where
//! the caller stands, and answers a `Misuse` where the call doesn't fit. Then nothing has changed.
#![tactic(auto)]

pub mod access;
mod alone;
mod alone_for_range;
pub mod asking;
pub mod calls;
pub mod checked_caller;
pub mod closing;
pub mod counts;
pub mod errand;
pub mod laws;
pub mod learning;
pub mod marks;
pub mod misuse;
pub mod note_exchange;
pub mod opening;
pub mod peeking;
pub mod phase;
pub mod ranges;
pub mod refusal;
pub mod standing;
