//! A day of the buffer: the memory is opened, one caller fills the buffer while another looks at it, and it is closed.
ghost use Rattle.std.specs.Prelude.{IfSome};
ghost use Rattle.example_buffer.specs.Fillings.{IsDay};

use crate::buffer::{Buffer, Look, Sight};
use crate::filling::refill;
use nekchhaul::{Config, Pace, Stm, atomically, close};
use std::alloc::Global;
use std::sync::Wait;

const CONFIG: Config = Config {
    words: 4,
    records: 4,
    ring: 2,
    callers: 2,
    reads: 4,
    writes: 4,
    clock: 0,
    fence: true,
    marks: 0,
};

/// What the reader saw, and the words of the closed memory.
#[derive(Drop)]
pub struct Day {
    pub one: Option<Sight>,
    pub two: Option<Sight>,
    pub words: Vec<u64>,
}

/// The buffer is filled twice, and looked at before and in between. At each moment of the memory's one history it is
/// one filling whole, whatever was written into it by and by; each look is at one such moment, and the words are the
/// last. None where memory is refused, or the clock was found at its limit.
pub fn run<R: Wait>(rt: &R, alloc: Global) -> Option<Day>
    ensures { IfSome result IsDay }
{
    let Ok((stm, mut descs)) = Stm::new(alloc, CONFIG, Buffer) else {
        return None;
    };
    let Some(mut reader) = descs.pop() else {
        unreachable!()
    };
    let Some(mut worker) = descs.pop() else {
        unreachable!()
    };
    let mut pace = Pace::new();
    let one = atomically(rt, &mut reader, &stm, &mut pace, &Look);
    if !refill(rt, &mut worker, &stm, 1) {
        return None;
    }
    let two = atomically(rt, &mut reader, &stm, &mut pace, &Look);
    if !refill(rt, &mut worker, &stm, 2) {
        return None;
    }
    descs.push_reserved(worker);
    descs.push_reserved(reader);
    match close(alloc, stm, descs) {
        Ok((words, _closed)) => Some(Day { one, two, words }),
        Err((_stm, _descs, _memory)) => None,
    }
}
