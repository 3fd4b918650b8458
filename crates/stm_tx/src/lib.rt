//! The one interface to the algorithms: the calls of an attempt and of the gate on a descriptor, and the
//! access over an attempt. What a user of the library needs beside them is named here too, so that one
//! `use stm_tx::..` serves.
#![tactic(auto)]

pub mod calls;
pub mod fencing;
pub mod finish;
pub mod laws;
pub mod live;
pub mod nesting;
pub mod serving;
pub mod stripes;
mod under;

pub use alg_calls::algorithm::Algorithm;
pub use alg_orec::orec_eager::OrecEager;
pub use alg_orec::orec_lazy::OrecLazy;
pub use alg_ring::ring::RingSw;
pub use alg_seq::cgl::Cgl;
pub use alg_seq::serial::Serial;
pub use alg_seq::tml::Tml;
pub use stm_answers::answers::{
    Begin, Cancel, Check, CloseGate, Commit, Fence, Give, Irrev, Look, Read, Roll, TxState, Write,
};
pub use stm_gate::gate;
pub use stm_model::access::Access;
pub use stm_model::alg::{ALGORITHMS, Alg};
pub use stm_model::config::Config;
pub use stm_model::memory::Memory;
pub use stm_model::rule::{AnyMem, MemRule};
pub use stm_model::stop::{Cause, Stop};
pub use stm_rule::closing::close;
pub use stm_rule::desc::Desc;
pub use stm_rule::ending::Closed;
pub use stm_rule::note::Note;
pub use stm_rule::refusal::NewError;
pub use stm_rule::stm::Stm;
