//! A sale: the memory is opened, two callers take seats, and it is closed.
ghost use Rattle.std.specs.Prelude.{IfOk};
ghost use Rattle.example_seats.specs.Sales.{IsSale};

use crate::hall::{Seats, Take};
use nekchhaul::tree::{Insert, Tree, trees_are_apart};
use nekchhaul::{Config, NewError, Pace, Stm, atomically, close};
use std::alloc::Global;
use std::sync::Wait;

/// The hall: a tree of n cells takes 1 + 3n words.
const HALL: Tree = Tree { at: 0, cells: 10 };

const CONFIG: Config = Config {
    words: 31,
    records: 8,
    ring: 2,
    callers: 2,
    reads: 64,
    writes: 8,
    clock: 0,
    fence: false,
    marks: 0,
};

/// What came of each wish for a seat, and the words of the closed memory.
#[derive(Drop)]
pub struct Sale {
    pub one: Option<Insert>,
    pub two: Option<Insert>,
    pub three: Option<Insert>,
    pub words: Vec<u64>,
}

/// Ten seats, of which two callers want three: first the one and then the other wants seat 7, and then the other seat
/// 3. The words have the set of those that were taken. Each wish is answered as by an insertion into the set at one
/// moment of the memory's one history, in which nothing else is, or by None where it found the clock at its limit.
///
/// # Errors
/// Memory, where it is refused.
pub fn sell<R: Wait>(rt: &R, alloc: Global) -> Result<Sale, NewError>
    ensures { IfOk result IsSale }
{
    // a memory of zeros has an empty tree
    trees_are_apart();
    let (stm, mut descs) = Stm::new(alloc, CONFIG, Seats { taken: HALL })?;
    let Some(mut second) = descs.pop() else {
        unreachable!()
    };
    let Some(mut first) = descs.pop() else {
        unreachable!()
    };
    let mut pace = Pace::new();
    let one = atomically(rt, &mut first, &stm, &mut pace, &Take { seat: 7 });
    let two = atomically(rt, &mut second, &stm, &mut pace, &Take { seat: 7 });
    let three = atomically(rt, &mut second, &stm, &mut pace, &Take { seat: 3 });
    descs.push_reserved(first);
    descs.push_reserved(second);
    match close(alloc, stm, descs) {
        Ok((words, _closed)) => Ok(Sale {
            one,
            two,
            three,
            words,
        }),
        Err((_stm, _descs, _memory)) => Err(NewError::Memory),
    }
}
