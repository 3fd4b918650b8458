//! A buffer: its rule, and the transaction that looks at it.

use nekchhaul::{Access, MemRule, Stop, Transaction};

/// A memory of four words that is one buffer.
#[derive(Clone, Copy, Drop, Debug, PartialEq, Eq)]
pub struct Buffer;

/// The buffer is always one filling whole.
impl MemRule for Buffer {
    ghost use Rattle.example_buffer.specs.Fillings.{IsFilling};

    ghost good = { λ buffer memory. IsFilling memory };
}

/// The first and the last word of the buffer.
#[derive(Clone, Copy, Drop, Debug, PartialEq, Eq)]
pub struct Sight {
    pub first: u64,
    pub last: u64,
}

/// Looks at both ends of the buffer. They are of one filling, also where the attempt is refused after it.
#[derive(Clone, Copy, Drop, Debug, PartialEq, Eq)]
pub struct Look;

impl Transaction<Buffer> for Look {
    ghost use Rattle.std.specs.Prelude.{◌≡◌};
    ghost use Rattle.example_buffer.specs.Fillings.{Saw};

    type Output = Sight;

    ghost precondition = { λ it buffer words. words ≡ 4 };

    ghost postcondition = { λ it buffer words sight log. Saw sight log };

    fn run<A: Access>(&self, _: &Buffer, memory: &mut A) -> Result<Sight, Stop> {
        let first = memory.read(0)?;
        let last = memory.read(3)?;
        Ok(Sight { first, last })
    }
}
