//! A worker fills a buffer twice outside of the transactions, and a reader sees one filling whole each time.
#![tactic(auto)]

mod buffer;
mod day;
mod filling;

use crate::buffer::Sight;
use crate::day::run;
use std::process::ExitCode;

fn first(sight: Option<Sight>) -> u64 {
    match sight {
        Some(sight) => sight.first,
        None => 0,
    }
}

fn main(rt: HostRuntime) -> ExitCode {
    let Some(day) = run(&rt, rt.alloc()) else {
        return ExitCode::from(4);
    };
    let one = first(day.one);
    let two = first(day.two);
    let left = day.words.as_slice().first().copied().unwrap_or(0);
    match println!(rt; "the reader saw filling {one} and then {two}, and {left} is left") {
        Ok(()) => ExitCode::from(0),
        Err(_) => ExitCode::from(6),
    }
}
