//! What an algorithm is: the calls of an attempt that each has, with one contract for all, and the table of their
//! steps.
#![tactic(auto)]

pub mod algorithm;
