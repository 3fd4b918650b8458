//! The algorithms of one lock or one clock word: CGL, a lock from begin to commit; Serial, the same with an undo log;
//! TML, a sequence lock. Each is a type whose calls (`Algorithm` of alg_calls) stand in one order: begin, read, write,
//! commit, cancel, try_irrevocable, roll_to.
#![tactic(auto)]

pub mod cgl;
mod nesting;
pub mod serial;
pub mod tml;
