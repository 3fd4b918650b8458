//! Ten seats, each of which one caller takes. The set of the seats that are taken is a tree in the memory.
#![tactic(auto)]

mod hall;
mod sale;

use crate::sale::sell;
use nekchhaul::tree::Insert;
use std::process::ExitCode;

fn told(came: Option<Insert>) -> &'static str {
    match came {
        Some(Insert::Added) => "got it",
        Some(Insert::Present) => "is too late",
        Some(Insert::NoRoom) => "finds the hall full",
        None => "finds the clock at its limit",
    }
}

fn main(rt: HostRuntime) -> ExitCode {
    let Ok(sale) = sell(&rt, rt.alloc()) else {
        return ExitCode::from(4);
    };
    let one = told(sale.one);
    let two = told(sale.two);
    let three = told(sale.three);
    match println!(rt;
        "who wants seat 7 {one}, who wants it then {two}, who wants seat 3 {three}"
    ) {
        Ok(()) => ExitCode::from(0),
        Err(_) => ExitCode::from(6),
    }
}
