//! A program for tools/refused-growth: it prints the same whichever of its allocations is refused, or ends with status
//! 5 where no memory could be opened.
#![tactic(auto)]

mod retry;

use crate::retry::{Failure, run};
use std::process::ExitCode;

fn main(rt: HostRuntime) -> ExitCode {
    let words = match run(rt.alloc()) {
        Ok(words) => words,
        Err(Failure::Memory) => return ExitCode::from(5),
        Err(Failure::Changed) => return ExitCode::from(1),
    };
    let mut sum = 0u64;
    for word in words.as_slice() {
        sum = sum.wrapping_mul(10).wrapping_add(*word);
    }
    match println!(rt; "words {sum}") {
        Ok(()) => ExitCode::from(0),
        Err(_) => ExitCode::from(4),
    }
}
