//! Pieces go from a pile to three shelves: each goes on the first that has room for it. The same comes of it under each
//! algorithm, also where an attempt can't be rolled back.
#![tactic(auto)]

mod shelves;

use crate::shelves::{Fill, Store};
use nekchhaul::{ALGORITHMS, AnyMem, Calls, Job, repeat, sizes, with_memory};
use std::alloc::Global;
use std::process::ExitCode;
use std::sync::Wait;

/// Piles five pieces up, and then stores a piece six times.
#[derive(Drop)]
struct Work {
    alloc: Global,
}

impl<R: Wait> Job<R, AnyMem> for Work {
    ghost use Rattle.std.specs.Prelude.{◌<◌};

    type Output = usize;

    ghost precondition = { λ job rule words. 3 < words };

    fn work<C: Calls<R, AnyMem>>(&self, caller: &mut C) -> usize {
        caller.run(&Fill);
        repeat(caller, 6, &|_| Store { alloc: self.alloc })
    }
}

fn main(rt: HostRuntime) -> ExitCode {
    let work = Work { alloc: rt.alloc() };
    for alg in ALGORITHMS {
        let Ok(came) = with_memory(&rt, rt.alloc(), sizes(4, 1), alg, AnyMem, &work) else {
            return ExitCode::from(4);
        };
        let name = alg.name();
        let pile = came.words[0];
        let shelves = &came.words[1..4];
        if println!(rt; "{name}: {pile} on the pile, {shelves:?} on the shelves").is_err() {
            return ExitCode::from(6);
        }
    }
    ExitCode::from(0)
}
