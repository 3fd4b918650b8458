//! A heap of a runtime's size: 64 callers over 2^24 words, each of which marks words of its own 262,144th part and
//! counts in one that all share.
#![tactic(auto)]

use nekchhaul::{
    Access, Alg, AnyMem, Calls, Job, Layout, Place, Places, Stop, Transaction, repeat, sizes,
    with_memory,
};
use std::sync::Wait;

const CALLERS: usize = 64;

const WORDS: usize = 16_777_216;

#[derive(Clone, Copy, Drop)]
struct Heap {
    cells: Places<u64>,
    marked: Place<u64>,
}

/// A transaction: marks a cell with a number, and counts it. Answers how many were marked before.
#[derive(Drop)]
struct Mark {
    heap: Heap,
    cell: usize,
    number: u64,
}

impl Transaction<AnyMem> for Mark {
    ghost use Rattle.std.specs.Prelude.{◌<◌};
    ghost use Rattle.nekchhaul.specs.Fits.{PlaceFits, PlacesFit};

    type Output = u64;

    ghost precondition = { λ it rule words. PlacesFit it.heap.cells words × PlaceFits it.heap.marked words × (it.cell < it.heap.cells.count) };

    fn run<A: Access>(&self, _: &AnyMem, memory: &mut A) -> Result<u64, Stop> {
        self.heap.cells.at(self.cell).set(memory, self.number)?;
        let before = self.heap.marked.get(memory)?;
        self.heap.marked.set(memory, before.wrapping_add(1))?;
        Ok(before)
    }
}

/// What each caller does on its thread: it marks a hundred cells, one in 2,621 of its part. Answers how many it marked.
#[derive(Drop)]
struct Spread {
    heap: Heap,
}

impl<R: Wait> Job<R, AnyMem> for Spread {
    ghost use Rattle.std.specs.Prelude.{◌≡◌};
    ghost use Rattle.nekchhaul.specs.Fits.{PlaceFits, PlacesFit};

    type Output = usize;

    ghost precondition = { λ job rule words. PlacesFit job.heap.cells words × PlaceFits job.heap.marked words × (job.heap.cells.count ≡ 16777215) };

    fn work<C: Calls<R, AnyMem>>(&self, caller: &mut C) -> usize {
        let number = caller.number();
        let mark = |round: usize| Mark {
            heap: self.heap,
            cell: number % CALLERS * (WORDS / CALLERS) + round % 100 * 2_621,
            number: 1 + number as u64,
        };
        repeat(caller, 100, &mark)
    }
}

fn main(rt: HostRuntime) -> anyhow::Result<()> {
    let mut layout = Layout::new();
    let cells = layout.places(WORDS - 1);
    let marked = layout.place();
    let spread = Spread {
        heap: Heap { cells, marked },
    };
    let sizes = sizes(layout.words(), CALLERS);
    let came = with_memory(&rt, rt.alloc(), sizes, Alg::OrecLazy, AnyMem, &spread)?;
    println!(rt; "{} words", came.words.len())?;
    println!(rt; "marked: {}", marked.value_in(&came.words))?;
    println!(rt;
        "by the last: {}",
        cells
            .at((CALLERS - 1) * (WORDS / CALLERS) + 99 * 2_621)
            .value_in(&came.words)
    )?;
    Ok(())
}
