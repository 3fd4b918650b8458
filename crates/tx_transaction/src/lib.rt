//! A transaction as a value, and the laws for who writes one. It stands on no engine: so a crate of transactions is
//! proved without one.
#![tactic(auto)]

pub mod transaction;
pub mod words;

pub use stm_model::access::Access;
pub use stm_model::rule::{AnyMem, MemRule};
pub use stm_model::stop::Stop;
