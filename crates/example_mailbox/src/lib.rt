//! A mailbox of urgent messages and others: its rule, and the parts of its transactions.
//! It is proved without an engine.
#![tactic(auto)]

pub mod laws;
pub mod mail;
