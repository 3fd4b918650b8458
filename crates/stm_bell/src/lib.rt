//! A bell: who waits until words have changed sleeps by it, and who has changed words rings it.
#![tactic(auto)]

pub mod bell;
pub mod stripes;
