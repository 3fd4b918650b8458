//! What a day of work came to, from its closed memory.
ghost use Rattle.std.specs.Prelude.{◌≡◌, ◌*◌, ◌^◌, ◌%◌, true, sum, List};
ghost use Rattle.std.specs.List.{range_with_len};
ghost use Rattle.stm_model.specs.Histories.{Entry};
ghost use Rattle.example_queue_jobs.specs.Days.{IsPlan, IsDay, EachTakenOnce, IsWhole, sum_taken};

use crate::hands::Hand;
use crate::plan::Plan;
use tx_jobs::closed::ClosedMemory;

/// Whether all jobs were given, and none waits any more: then each was taken once.
pub fn is_done<P>(plan: &Plan, day: &ClosedMemory<Hand, P>) -> bool
    requires plan { IsPlan plan.now }
    requires whole { IsWhole plan.now day.now }
    requires day { (history : List Entry) × IsDay plan.now day.now history }
    ensures once { result ≡ true → EachTakenOnce plan.now day.now }
    ensures sum { result ≡ true
        → sum_taken day.now.answers.items
        ≡ sum (range_with_len 1 (plan.now.producers * plan.now.each)) }
{
    let mut done = day.words[1] == 0;
    for i in 0..plan.producers {
        done = done && day.answers[i].gave == plan.each;
    }
    done
}

/// The sum of the numbers of the jobs that were taken, modulo 2^64.
pub fn sum_of(hands: &[Hand]) -> u64
    ensures { result ≡ sum_taken hands.now % 2 ^ 64 }
{
    let mut total: u64 = 0;
    for hand in hands {
        total = total.wrapping_add(sum_in(&hand.took));
    }
    total
}

/// The sum of these numbers, modulo 2^64.
fn sum_in(jobs: &[u32]) -> u64
    ensures { result ≡ sum jobs.now % 2 ^ 64 }
{
    let mut total: u64 = 0;
    for job in jobs {
        total = total.wrapping_add(u64::from(*job));
    }
    total
}
