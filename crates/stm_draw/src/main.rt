//! `stm_draw` draws the trace of a schedule as a picture. All that it does is draw_core's `program`: here it gets the
//! real standard input and output, and the exit status.
#![tactic(auto)]

use draw_core::program::program;
use std::process::ExitCode;

fn main(rt: HostRuntime) -> ExitCode {
    program(&rt)
}
