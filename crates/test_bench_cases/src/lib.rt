//! What the tests of `bench` share: cases in short, and plain sets of keys to compare structures with.
#![tactic(auto)]

pub mod cases;
pub mod plain_sets;

pub use work_bench::Fault;
pub use work_bench::status::Status;
