//! A program for tools/count-steps: it brings each call to where it takes the most atomic steps, and prints what it
//! came to.
#![tactic(auto)]

mod caller;
mod cases;
mod counting;
mod opening;
mod others;

use crate::cases::CASES;
use std::process::ExitCode;

fn main(rt: HostRuntime) -> ExitCode {
    for case in CASES.iter() {
        let Some(answer) = cases::run(rt.alloc(), case) else {
            return ExitCode::from(5);
        };
        if println!(rt; "{}: {answer:?}", case.0).is_err() {
            return ExitCode::from(4);
        }
    }
    if !others::run(rt.alloc()) {
        return ExitCode::from(1);
    }
    for name in others::NAMES {
        if println!(rt; "{name}").is_err() {
            return ExitCode::from(4);
        }
    }
    ExitCode::from(0)
}
