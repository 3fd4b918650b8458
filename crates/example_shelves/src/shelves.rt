//! The pile is word 0, and the shelves are the words 1 to 3.
use nekchhaul::parts::nesting::Nesting;
use nekchhaul::parts::or_else::OrElse;
use nekchhaul::parts::part::Part;
use nekchhaul::parts::wholly::{PartOutcome, wholly};
use nekchhaul::{Access, AnyMem, MOST_MARKS, Stop, Transaction, WriteLog};
use std::alloc::Global;

/// A transaction: five pieces are on the pile.
#[derive(Drop)]
pub struct Fill;

impl Transaction<AnyMem> for Fill {
    ghost use Rattle.std.specs.Prelude.{◌<◌};

    type Output = ();

    ghost precondition = { λ it rule words. 0 < words };

    ghost postcondition = { λ it rule words came log. Unit {0} };

    fn run<A: Access>(&self, _: &AnyMem, memory: &mut A) -> Result<(), Stop> {
        memory.write(0, 5)?;
        Ok(())
    }
}

/// A part: a piece goes from the pile to a shelf with room for so many. It gives way where the shelf is full.
#[derive(Clone, Copy, Drop, Debug, PartialEq, Eq)]
pub struct OnShelf {
    pub shelf: usize,
    pub room: u64,
}

impl Part<AnyMem> for OnShelf {
    ghost use Rattle.std.specs.Prelude.{◌<◌};
    ghost use Rattle.example_shelves.specs.Shelves.{Told, Lands};

    type Output = usize;

    ghost precondition = { λ it rule words. (0 < words) × (it.shelf < words) };

    ghost depth = { λ it. 0 };

    ghost postcondition = { λ it rule words shelf before after. Told words (Lands it.shelf it.room shelf) before after };

    fn run<N: Nesting>(&self, _: &AnyMem, memory: &mut N) -> Result<Option<usize>, Stop> {
        let pile = memory.read(0)?;
        memory.write(0, pile.saturating_sub(1))?;
        let count = memory.read(self.shelf)?;
        if count >= self.room {
            return Ok(None);
        }
        memory.write(self.shelf, count + 1)?;
        Ok(Some(self.shelf))
    }
}

/// What came of a piece.
#[derive(Clone, Copy, Drop, Debug, PartialEq, Eq)]
pub enum Stored {
    /// It is on this shelf.
    On(usize),
    /// There was none on the pile.
    NoPiece,
    /// Each shelf was full.
    Nowhere,
    /// There was no memory for it.
    Refused,
}

/// A transaction: a piece goes from the pile to the first shelf that has room.
#[derive(Drop)]
pub struct Store {
    pub alloc: Global,
}

impl Transaction<AnyMem> for Store {
    ghost use Rattle.std.specs.Prelude.{◌<◌};
    ghost use Rattle.nekchhaul.specs.CallerState.{no_log};
    ghost use Rattle.example_shelves.specs.Shelves.{Told, IsStored};

    type Output = Stored;

    ghost precondition = { λ it rule words. 3 < words };

    ghost postcondition = { λ it rule words came log. Told words (IsStored came) no_log log };

    fn run<A: Access>(&self, rule: &AnyMem, memory: &mut A) -> Result<Stored, Stop> {
        if memory.read(0)? == 0 {
            return Ok(Stored::NoPiece);
        }
        let Ok(mut room) = WriteLog::new(self.alloc, 2, MOST_MARKS) else {
            return Ok(Stored::Refused);
        };
        let shelves = OrElse {
            first: OrElse {
                first: OnShelf { shelf: 1, room: 2 },
                second: OnShelf { shelf: 2, room: 1 },
            },
            second: OnShelf { shelf: 3, room: 1 },
        };
        match wholly(&shelves, rule, memory, &mut room)? {
            PartOutcome::Done(shelf) => Ok(Stored::On(shelf)),
            PartOutcome::GaveWay => Ok(Stored::Nowhere),
            PartOutcome::NoRoom { .. } | PartOutcome::NoMemory => Ok(Stored::Refused),
        }
    }
}
