//! Tests of `bench`: reports of one caller under `run`, every end without a report, and reports that `check` judges.
#![tactic(auto)]

#[cfg(test)]
mod check_tests;
#[cfg(test)]
mod random_tests;
#[cfg(test)]
mod report_tests;
#[cfg(test)]
mod structure_tests;
#[cfg(test)]
mod telling_tests;
#[cfg(test)]
mod version_two_tests;
