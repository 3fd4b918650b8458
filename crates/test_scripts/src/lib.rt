//! Tests of what stands apart from the shared memory: work_script, work_gen, work_trace, work_profile, work_cli,
//! work_io.
#![tactic(auto)]

#[cfg(test)]
mod work_cli_tests;
#[cfg(test)]
mod work_gen_tests;
#[cfg(test)]
mod work_io_tests;
#[cfg(test)]
mod work_profile_tests;
#[cfg(test)]
mod work_script_tests;
#[cfg(test)]
mod work_trace_tests;
