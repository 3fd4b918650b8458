//! Typed places over the words of a memory, over any access.
#![tactic(auto)]

pub mod place;
pub mod places;
pub mod word;
