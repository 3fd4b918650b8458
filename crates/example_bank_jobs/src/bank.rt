//! A bank: its rule, and its three transactions.

use tx_transaction::transaction::Transaction;
use tx_transaction::words::{read_sum, read_words, write_words};
use tx_transaction::{Access, MemRule, Stop};

/// A bank with eight accounts. The first words of its memory are their balances, and word 8 is what was paid in.
#[derive(Drop)]
pub struct Bank;

/// No money is made or lost: between transactions the balances' sum is what was paid in, nothing at first and then the
/// capital of 8,000.
impl MemRule for Bank {
    ghost use Rattle.example_bank_jobs.specs.Banks.{IsBalanced};

    ghost good = { λ bank memory. IsBalanced memory };
}

/// Pays the capital in to account 0. Answers false where it was paid in before, and then does nothing.
#[derive(Drop)]
pub struct Open;

impl Transaction<Bank> for Open {
    ghost use Rattle.std.specs.Prelude.{◌≡◌};
    ghost use Rattle.data_effects.specs.Effects.{DoesOver};
    ghost use Rattle.data_effects.specs.FreshLaws.{nothing};
    ghost use Rattle.example_bank_jobs.specs.Banks.{IsBalanced, opened_in};

    type Output = bool;

    ghost precondition = { λ it bank words. words ≡ 9 };

    ghost postcondition = { λ it bank words opened log. DoesOver IsBalanced words opened_in nothing opened log };

    fn run<A: Access>(&self, _: &Bank, memory: &mut A) -> Result<bool, Stop> {
        let [paid] = read_words(memory, [8])?;
        if paid != 0 {
            return Ok(false);
        }
        write_words(memory, [(8, 8_000), (0, 8_000)])?;
        Ok(true)
    }
}

/// Moves `amount` from one account to another. Answers false where the first has less, and then does nothing.
#[derive(Drop)]
pub struct Transfer {
    pub from: usize,
    pub to: usize,
    pub amount: u64,
}

impl Transaction<Bank> for Transfer {
    ghost use Rattle.std.specs.Prelude.{◌≡◌, ◌<◌, ◌≢◌};
    ghost use Rattle.data_effects.specs.Effects.{DoesOver};
    ghost use Rattle.data_effects.specs.FreshLaws.{nothing};
    ghost use Rattle.example_bank_jobs.specs.Banks.{IsBalanced, moved_in};

    type Output = bool;

    ghost precondition = { λ it bank words. (words ≡ 9) × (it.from < 8) × (it.to < 8) × (it.from ≢ it.to) };

    ghost postcondition = { λ it bank words moved log. DoesOver IsBalanced words (moved_in it) nothing moved log };

    fn run<A: Access>(&self, _: &Bank, memory: &mut A) -> Result<bool, Stop> {
        let [payer, payee] = read_words(memory, [self.from, self.to])?;
        if payer < self.amount {
            return Ok(false);
        }
        // this can't wrap: both balances are parts of one capital
        write_words(
            memory,
            [
                (self.from, payer - self.amount),
                (self.to, payee + self.amount),
            ],
        )?;
        Ok(true)
    }
}

/// Adds all balances up: nothing before the bank opens, and its capital from then on. It finds so whatever others do
/// meanwhile, and also where the attempt is refused after it.
#[derive(Drop)]
pub struct Audit;

impl Transaction<Bank> for Audit {
    ghost use Rattle.std.specs.Prelude.{◌≡◌};
    ghost use Rattle.data_effects.specs.Effects.{DoesOver, unchanged};
    ghost use Rattle.data_effects.specs.FreshLaws.{nothing};
    ghost use Rattle.tx_transaction.specs.Words.{sum_in};
    ghost use Rattle.example_bank_jobs.specs.Banks.{IsBalanced, IsPaid};

    type Output = u64;

    ghost precondition = { λ it bank words. words ≡ 9 };

    ghost postcondition = { λ it bank words sum log. DoesOver IsBalanced words (λ m. unchanged (sum_in 0 8 m) m) nothing sum log × IsPaid sum };

    fn run<A: Access>(&self, _: &Bank, memory: &mut A) -> Result<u64, Stop> {
        let sum = read_sum(memory, 0..8)?;
        Ok(sum)
    }
}
