//! A hall: its rule, and its one transaction.

use nekchhaul::tree::{Insert, Tree};
use nekchhaul::{Access, MemRule, Stop, Transaction};

/// The rule: the set of the seats that are taken is well formed.
#[derive(Clone, Copy, Drop, Debug, PartialEq, Eq)]
pub struct Seats {
    pub taken: Tree,
}

impl MemRule for Seats {
    ghost use Rattle.nekchhaul.specs.Trees.{IsTree};

    ghost good = { λ seats memory. IsTree seats.taken memory };
}

/// Takes a seat, if it is free: `Added` then.
#[derive(Clone, Copy, Drop, Debug, PartialEq, Eq)]
pub struct Take {
    pub seat: u32,
}

impl Transaction<Seats> for Take {
    ghost use Rattle.nekchhaul.specs.CallerState.{no_log};
    ghost use Rattle.nekchhaul.specs.Effects.{DoesOver};
    ghost use Rattle.nekchhaul.specs.Trees.{IsTree, TreeFits, inserted_in};

    type Output = Insert;

    ghost precondition = { λ it seats words. TreeFits seats.taken words };

    // the seat joined the set, and the answer says whether it was free
    ghost postcondition = { λ it seats words came log. DoesOver (IsTree seats.taken) words (inserted_in seats.taken it.seat) no_log came log };

    fn run<A: Access>(&self, seats: &Seats, memory: &mut A) -> Result<Insert, Stop> {
        seats.taken.insert(memory, self.seat)
    }
}
