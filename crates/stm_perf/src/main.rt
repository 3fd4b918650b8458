//! `stm_perf WORKLOAD ALGORITHM THREADS COUNT SEED [READS] [words N] [switches N] [conflicts] [--time]`: so many
//! transactions. All that it does is perf_core's `program`.
#![tactic(auto)]

use perf_core::program::program;
use std::process::ExitCode;

fn main(rt: HostRuntime) -> ExitCode {
    program(&rt)
}
