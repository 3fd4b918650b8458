//! Callers move money between the accounts of a bank, on threads of their own, while an auditor adds all balances up in
//! one transaction. It stands on no engine: `example_bank` runs it.
#![tactic(auto)]

ghost use Rattle.std.specs.Prelude.{◌≡◌, ◌<◌, ◌≢◌, length, slice_index};
ghost use Rattle.example_bank_jobs.specs.Banks.{IsBalanced};

pub mod bank;

use crate::bank::{Audit, Bank, Open, Transfer};
use std::sync::Wait;
use tx_jobs::calls::Calls;
use tx_jobs::job::Job;
use tx_jobs::repeats::{repeat, times};
use tx_transaction::words::sum_of;

/// How often each caller moves money, and how often the auditor adds it up.
const TRANSFERS: usize = 1_000;

const AUDITS: usize = 100;

/// What each caller does on its thread: the first opens the bank, and adds the balances up again and again; the others
/// move money, also before it opens. Answers what the auditor found last.
pub struct Day;

impl<R: Wait> Job<R, Bank> for Day {
    ghost use Rattle.std.specs.Prelude.{◌≡◌};
    ghost use Rattle.example_bank_jobs.specs.Banks.{IsPaid};

    type Output = u64;

    ghost precondition = { λ day bank words. words ≡ 9 };

    ghost postcondition = { λ day bank words caller found before after. IsPaid found };

    fn work<C: Calls<R, Bank>>(&self, caller: &mut C) -> u64 {
        if caller.number() != 0 {
            repeat(caller, TRANSFERS, &|round| transfer(round));
            return 0;
        }
        caller.run(&Open);
        times(caller, AUDITS, &Audit);
        caller.run(&Audit).unwrap_or(0)
    }
}

/// The transfer of this round.
fn transfer(round: usize) -> Transfer
    ensures { (result.from < 8) × (result.to < 8) × (result.from ≢ result.to) }
{
    let from = round % 8;
    Transfer {
        from,
        to: (from + 1 + round / 8 % 7) % 8,
        amount: (round % 100) as u64,
    }
}

/// The sum of the balances in these words.
pub fn total_of(words: &[u64]) -> u64
    requires balanced { IsBalanced words.now }
    requires count { length words.now ≡ 9 }
    ensures { result ≡ slice_index words.now 8 }
{
    sum_of(&words[..8])
}
