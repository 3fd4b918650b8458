//! The memory for C: callers as handles, answers as numbers. No export has a precondition; each returns.
#![tactic(auto)]

mod asking;
mod counting;
mod exports;
mod handle;
mod learning;
mod loops;
mod marks;
mod opening;
mod pause;
mod peeking;
mod ranges;
mod raw_box;
mod reading;
mod status;
mod words;
mod writing;
