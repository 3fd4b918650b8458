//! Tests of work_text: which texts are workloads of version 1 and of version 2, where the first fault of the others is,
//! how a text is parted at `done`, and how reports are written.
#![tactic(auto)]

#[cfg(test)]
mod version_one_tests;
#[cfg(test)]
mod version_two_tests;
