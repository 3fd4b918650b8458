//! Token buckets: their rule, and what a wish for tokens does to them.
ghost use Rattle.std.specs.Prelude.{◌≡◌, ◌≤◌, ◌+◌};
ghost use Rattle.example_bucket_jobs.specs.Buckets.{granted};

use stm_model::access::Access;
use stm_model::rule::MemRule;
use stm_model::stop::Stop;
use tx_transaction::transaction::Transaction;
use tx_transaction::words::{read_words, write_words};

/// Buckets of this capacity, one for each of 16 clients. Word `n` of their memory has what client `n` was handed, word
/// `16 + n` its tokens, and word 32 what all were handed.
#[derive(Drop)]
pub struct Limiter {
    pub capacity: u64,
}

/// No bucket is over its capacity, and what was handed out is what was counted.
impl MemRule for Limiter {
    ghost use Rattle.example_bucket_jobs.specs.Buckets.{IsFair};

    ghost good = { IsFair };
}

/// Adds `more` tokens to a client's bucket, as far as there is room, and hands out `amount` of them: all or none.
/// Answers how many it handed out.
#[derive(Drop)]
pub struct Wish {
    pub client: usize,
    pub more: u64,
    pub amount: u64,
}

impl Wish {
    /// The amount, where the bucket has as much and the counter room for it; else 0.
    fn granted(&self, tokens: u64, counted: u64) -> u64
        ensures is { result ≡ granted self.now.amount tokens counted }
        ensures within { (result ≤ tokens) × (counted + result ≤ 18446744073709551615) }
    {
        if self.amount <= tokens && self.amount <= u64::MAX - counted {
            self.amount
        } else {
            0
        }
    }
}

impl Transaction<Limiter> for Wish {
    ghost use Rattle.std.specs.Prelude.{◌<◌, ◌≡◌};
    ghost use Rattle.data_effects.specs.Effects.{DoesOver};
    ghost use Rattle.data_effects.specs.FreshLaws.{nothing};
    ghost use Rattle.example_bucket_jobs.specs.Buckets.{IsFair, wished_in};

    type Output = u64;

    ghost precondition = { λ it limiter words. (words ≡ 33) × (it.client < 16) };

    ghost postcondition = { λ it limiter words given log. DoesOver (IsFair limiter) words (wished_in limiter it) nothing given log };

    fn run<A: Access>(&self, limiter: &Limiter, memory: &mut A) -> Result<u64, Stop> {
        let [found, handed, counted] = read_words(memory, [16 + self.client, self.client, 32])?;
        // this can't wrap: no bucket is over its capacity
        let tokens = found + self.more.min(limiter.capacity - found);
        let given = self.granted(tokens, counted);
        // nor can this: what one client was handed is a part of what was counted
        write_words(
            memory,
            [
                (16 + self.client, tokens - given),
                (self.client, handed + given),
                (32, counted + given),
            ],
        )?;
        Ok(given)
    }
}
