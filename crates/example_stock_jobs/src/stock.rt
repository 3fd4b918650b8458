//! An inventory: its rule, and its transactions.
ghost use Rattle.std.specs.Prelude.{◌≡◌, ◌≤◌, length};
ghost use Rattle.example_stock_jobs.specs.Stocks.{IsStocked, filled};

use tx_transaction::transaction::Transaction;
use tx_transaction::words::{read_words, write_words};
use tx_transaction::{Access, MemRule, Stop};

/// Sixteen items. Word `n` of their memory has how many of item `n` were supplied, word `16 + n` how many are in stock,
/// word `32 + n` how many of these are reserved, and word `48 + n` how many were sold.
#[derive(Drop)]
pub struct Inventory;

/// What is in stock and what was sold add up to what was supplied, and no more is reserved than is in stock.
impl MemRule for Inventory {
    ghost use Rattle.example_stock_jobs.specs.Stocks.{IsStocked};

    ghost good = { λ inventory memory. IsStocked memory };
}

/// Supplies so many of an item, where the count has room for them: all or none. Answers how many.
#[derive(Drop)]
pub struct Supply {
    pub item: usize,
    pub amount: u64,
}

impl Transaction<Inventory> for Supply {
    ghost use Rattle.std.specs.Prelude.{◌<◌, ◌≡◌};
    ghost use Rattle.data_effects.specs.Effects.{DoesOver};
    ghost use Rattle.data_effects.specs.FreshLaws.{nothing};
    ghost use Rattle.example_stock_jobs.specs.Stocks.{IsStocked, supplied_in};

    type Output = u64;

    ghost precondition = { λ it inventory words. (words ≡ 64) × (it.item < 16) };

    ghost postcondition = { λ it inventory words amount log. DoesOver IsStocked words (supplied_in it) nothing amount log };

    fn run<A: Access>(&self, _: &Inventory, memory: &mut A) -> Result<u64, Stop> {
        let [supplied, stock] = read_words(memory, [self.item, 16 + self.item])?;
        let amount = self.amount.min(u64::MAX - supplied);
        // this can't wrap: what is in stock is a part of what was supplied
        write_words(
            memory,
            [
                (self.item, supplied + amount),
                (16 + self.item, stock + amount),
            ],
        )?;
        Ok(amount)
    }
}

/// What is done with items that are in stock.
#[derive(Clone, Copy, Drop)]
pub enum Order {
    Reserve,
    /// What was reserved is so no longer.
    Release,
    /// What was reserved is sold.
    Sell,
}

/// An order of so many of an item: all or none.
#[derive(Drop)]
pub struct Fill {
    pub order: Order,
    pub item: usize,
    pub amount: u64,
}

impl Fill {
    /// The stock after it, and how many of it are reserved: as before, where there are too few for it.
    fn filled(&self, stock: u64, reserved: u64) -> (u64, u64)
        requires { reserved ≤ stock }
        ensures is { result ≡ filled self.now.order self.now.amount stock reserved }
        ensures within { (result.1 ≤ result.0) × (result.0 ≤ stock) }
    {
        let amount = self.amount;
        match self.order {
            Order::Reserve if amount <= stock - reserved => (stock, reserved + amount),
            Order::Release if amount <= reserved => (stock, reserved - amount),
            Order::Sell if amount <= reserved => (stock - amount, reserved - amount),
            _ => (stock, reserved),
        }
    }
}

impl Transaction<Inventory> for Fill {
    ghost use Rattle.std.specs.Prelude.{◌<◌, ◌≡◌};
    ghost use Rattle.data_effects.specs.Effects.{DoesOver};
    ghost use Rattle.data_effects.specs.FreshLaws.{nothing};
    ghost use Rattle.example_stock_jobs.specs.Stocks.{IsStocked, filled_in};

    /// The stock after it, and how many of it are reserved.
    type Output = (u64, u64);

    ghost precondition = { λ it inventory words. (words ≡ 64) × (it.item < 16) };

    ghost postcondition = { λ it inventory words left log. DoesOver IsStocked words (filled_in it) nothing left log };

    fn run<A: Access>(&self, _: &Inventory, memory: &mut A) -> Result<(u64, u64), Stop> {
        let item = self.item;
        let [supplied, stock, reserved] = read_words(memory, [item, 16 + item, 32 + item])?;
        let left = self.filled(stock, reserved);
        // what was supplied and isn't in stock was sold
        write_words(
            memory,
            [
                (16 + item, left.0),
                (32 + item, left.1),
                (48 + item, supplied - left.0),
            ],
        )?;
        Ok(left)
    }
}

/// How many items were supplied, and how many are in stock or were sold: all of them.
pub fn totals(words: &[u64]) -> (u64, u64)
    requires stocked { IsStocked words.now }
    requires count { length words.now ≡ 64 }
    ensures { result.0 ≡ result.1 }
{
    let mut supplied: u64 = 0;
    let mut there: u64 = 0;
    for item in 0..16 {
        supplied = supplied.wrapping_add(words[item]);
        there = there.wrapping_add(words[16 + item] + words[48 + item]);
    }
    (supplied, there)
}
