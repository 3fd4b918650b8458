//! Tests of `bench`: traces of `step`, in the turns of a schedule, and the reports after them.
#![tactic(auto)]

#[cfg(test)]
mod eager_tests;
#[cfg(test)]
mod orec_tests;
#[cfg(test)]
mod replies_tests;
#[cfg(test)]
mod ring_tests;
#[cfg(test)]
mod step_tests;
