//! Four callers hand out the tokens of sixteen clients, while the algorithm beneath them is changed. It stands on no
//! engine: `example_bucket` runs it.
#![tactic(auto)]

ghost use Rattle.std.specs.Prelude.{◌≡◌, ◌<◌, length, slice_index};
ghost use Rattle.example_bucket_jobs.specs.declared.TheConstants.{LIMITER};
ghost use Rattle.example_bucket_jobs.specs.Buckets.{IsFair};

pub mod bucket;

use crate::bucket::{Limiter, Wish};
use std::sync::Wait;
use stm_model::alg::Alg;
use tx_jobs::calls::Calls;
use tx_jobs::job::Job;
use tx_jobs::repeats::repeat;
use tx_transaction::words::sum_of;

pub const LIMITER: Limiter = Limiter { capacity: 100 };

/// What each caller does on its thread: it serves one client after the other. The first installs TML before, while the
/// others are at work.
pub struct Serve;

impl<R: Wait> Job<R, Limiter> for Serve {
    ghost use Rattle.std.specs.Prelude.{◌≡◌, ◌++◌, [], ◌∷◌};
    ghost use Rattle.stm_model.specs.declared.alg.Alg.TheVariants.{Tml};

    type Output = usize;

    ghost precondition = { λ job limiter words. words ≡ 33 };

    ghost postcondition = { λ job limiter words caller served before after. caller ≡ 0 → after.installs ≡ before.installs ++ Tml ∷ [] };

    fn work<C: Calls<R, Limiter>>(&self, caller: &mut C) -> usize {
        if caller.number() != 0 {
            return repeat(caller, 1_000, &|round| wish(round));
        }
        caller.switch_to(Alg::Tml);
        repeat(caller, 1_000, &|round| wish(round))
    }
}

/// A wish of this round: up to three tokens, and now and then more than any bucket has.
fn wish(round: usize) -> Wish
    ensures { result.client < 16 }
{
    let amount = if round % 8 == 7 {
        101
    } else {
        (round % 4) as u64
    };
    Wish {
        client: round % 16,
        more: 3,
        amount,
    }
}

/// What the clients were handed, added up.
pub fn handed_out(words: &[u64]) -> u64
    requires fair { IsFair LIMITER words.now }
    requires count { length words.now ≡ 33 }
    ensures { result ≡ slice_index words.now 32 }
{
    sum_of(&words[..16])
}
