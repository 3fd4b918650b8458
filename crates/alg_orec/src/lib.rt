//! The algorithms of versioned ownership records, after Dice, Shalev and Shavit ("Transactional Locking II", 2006):
//! OrecLazy buffers its writes and takes the records at the commit, OrecEager takes them where it writes in place. Each
//! is a type whose calls (`Algorithm` of alg_calls) stand in the order of all algorithms.
//!
//! In the files whose names end in `_steps` each function is one atomic step on the table: it takes no memory, and says
//! what it showed to its caller.
#![tactic(auto)]

mod eager_committing;
mod eager_ending;
mod eager_granting;
mod eager_nesting;
pub mod eager_reading;
mod eager_steps;
mod eager_taking;
mod granting;
mod lazy_committing;
mod lazy_ending;
mod lazy_granting;
mod lazy_steps;
mod locking;
pub mod orec_eager;
pub mod orec_lazy;
mod promoting_steps;
mod reading_steps;
mod records;
mod sampling;
mod validate;
