//! One caller supplies items, and three reserve, release and sell them, each on a thread of its own. It stands on no
//! engine: `example_stock` runs it.
#![tactic(auto)]

ghost use Rattle.std.specs.Prelude.{◌<◌};

pub mod stock;

use crate::stock::{Fill, Inventory, Order, Supply};
use std::sync::Wait;
use tx_jobs::calls::Calls;
use tx_jobs::job::Job;
use tx_jobs::repeats::repeat;

const ROUNDS: usize = 800;

/// What each caller does on its thread: the first supplies items, and the others order them.
pub struct Trade;

impl<R: Wait> Job<R, Inventory> for Trade {
    ghost use Rattle.std.specs.Prelude.{◌≡◌};

    type Output = usize;

    ghost precondition = { λ job inventory words. words ≡ 64 };

    fn work<C: Calls<R, Inventory>>(&self, caller: &mut C) -> usize {
        if caller.number() == 0 {
            repeat(caller, ROUNDS, &|round| supply(round))
        } else {
            repeat(caller, ROUNDS, &|round| order(round))
        }
    }
}

/// What is supplied in this round.
fn supply(round: usize) -> Supply
    ensures { result.item < 16 }
{
    Supply {
        item: round % 16,
        amount: 3,
    }
}

/// What is ordered in this round.
fn order(round: usize) -> Fill
    ensures { result.item < 16 }
{
    let order = match round % 4 {
        0 | 1 => Order::Reserve,
        2 => Order::Sell,
        _ => Order::Release,
    };
    Fill {
        order,
        item: round / 4 % 16,
        amount: (round % 3) as u64,
    }
}
