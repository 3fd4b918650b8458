//! A transaction as a value, and its run until it commits. A user names this crate and stm_tx.
#![tactic(auto)]

pub use tx_transaction::transaction;

pub mod atomically;
pub mod attempts;
pub mod growth;
pub mod laws;
mod napping;
pub mod observer;
pub mod pace;
pub mod switching;
pub mod tally;
pub mod waiting;
mod waking;
