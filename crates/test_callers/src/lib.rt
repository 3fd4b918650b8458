//! Tests of what calls the one interface: tx_atomic, tx_backoff, tx_parts, tx_jobs, tx_start, work_worker, perf_core.
#![tactic(auto)]

#[cfg(test)]
mod growth_tests;
#[cfg(test)]
mod observer_tests;
#[cfg(test)]
mod perf_core_tests;
#[cfg(test)]
mod sleeping_tests;
#[cfg(test)]
mod tx_atomic_tests;
#[cfg(test)]
mod tx_backoff_tests;
#[cfg(test)]
mod tx_parts_tests;
#[cfg(test)]
mod tx_start_tests;
#[cfg(test)]
mod waiting_tests;
#[cfg(test)]
mod work_worker_tests;
