//! All that a program needs of this library, under one name, so that its line in crates.txt lists this crate alone. It
//! has no code of its own. Definitions and laws for contracts and proofs are named in `specs/`.
#![tactic(auto)]

pub mod cells;
pub mod queue;
pub mod regions;
pub mod sums;
pub mod tree;

pub use data_layout::laws::layouts_hand_out_apart;
pub use data_layout::layout::Layout;
pub use data_layout::records::Records;
pub use data_places::place::Place;
pub use data_places::places::Places;
pub use data_places::word::{Short, Word};
pub use stm_logs::write_log::WriteLog;
pub use stm_model::config::MOST_MARKS;
pub use stm_model::plain::Plain;
pub use stm_tx as calls;
pub use stm_tx::{
    ALGORITHMS, Access, Alg, AnyMem, Cause, Closed, Config, Desc, MemRule, NewError, Note, Stm,
    Stop, close,
};
pub use tx_atomic::atomically::atomically;
pub use tx_atomic::growth::Growth;
pub use tx_atomic::laws::transactions_have_moments;
pub use tx_atomic::observer::Observer;
pub use tx_atomic::pace::{Pace, Pacing};
pub use tx_atomic::switching::{Hindrance, close_alone, switch_at_one_look, switch_to};
pub use tx_atomic::tally::{Ended, Tally};
pub use tx_atomic::transaction::Transaction;
pub use tx_atomic::waiting::until_some;
pub use tx_backoff::Backoff;
pub use tx_jobs::calls::Calls;
pub use tx_jobs::closed::ClosedMemory;
pub use tx_jobs::job::Job;
pub use tx_jobs::repeats::{repeat, times};
pub use tx_jobs::rounds::{Round, rounds};
pub use tx_jobs::sizes::sizes;
pub use tx_jobs::times::{Rounds, Times};
pub use tx_parts as parts;
pub use tx_start::caller::Caller;
pub use tx_start::memory::{Evidence, with_memory};
pub use tx_start::times::with_transaction;
pub use tx_start::update::Update;
pub use tx_transaction::words;
