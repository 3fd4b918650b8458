//! The shared table, under the invariant of all rule crates together (`specs/Product.antt`): opening and closing a
//! memory, descriptors, notes, and a function for each kind of step at the gate, the lock and the clock, of promotions
//! and of fences. The step law stands in `laws`: each kind of step keeps the invariant, in every list of steps.
#![tactic(auto)]

pub mod closing;
pub mod desc;
pub mod ending;
mod fence_kinds;
mod gate_kinds;
mod install_kinds;
pub mod laws;
pub mod local;
mod lock_kinds;
pub mod note;
mod note_kinds;
pub mod opening;
mod promotion_kinds;
pub mod refusal;
pub mod rung;
mod splits;
pub mod stm;
mod tml_kinds;
