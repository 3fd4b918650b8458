//! The queue of jobs: its rule, and its two transactions.

use data_queue::queue::{Put, Queue};
use tx_transaction::transaction::Transaction;
use tx_transaction::{Access, MemRule, Stop};

/// The rule: the queue of the jobs that wait is well formed.
#[derive(Drop)]
pub struct Jobs {
    pub waiting: Queue,
}

impl MemRule for Jobs {
    ghost use Rattle.data_queue.specs.Queues.{IsQueue};

    ghost good = { λ jobs memory. IsQueue jobs.waiting memory };
}

/// Puts a job after the last one, if there is room: `Added` then.
#[derive(Drop)]
pub struct Give {
    pub job: u32,
}

impl Transaction<Jobs> for Give {
    ghost use Rattle.data_effects.specs.FreshLaws.{nothing};
    ghost use Rattle.data_effects.specs.Effects.{DoesOver};
    ghost use Rattle.data_queue.specs.Queues.{IsQueue, QueueFits, put_in};

    type Output = Put;

    ghost precondition = { λ it jobs words. QueueFits jobs.waiting words };

    // the job joined the queue, and the answer says whether there was room
    ghost postcondition = { λ it jobs words came log. DoesOver (IsQueue jobs.waiting) words (put_in jobs.waiting it.job) nothing came log };

    fn run<A: Access>(&self, jobs: &Jobs, memory: &mut A) -> Result<Put, Stop> {
        jobs.waiting.put(memory, self.job)
    }
}

/// Takes the first job out, if there is one.
#[derive(Drop)]
pub struct Take;

impl Transaction<Jobs> for Take {
    ghost use Rattle.data_effects.specs.FreshLaws.{nothing};
    ghost use Rattle.data_effects.specs.Effects.{DoesOver};
    ghost use Rattle.data_queue.specs.Queues.{IsQueue, QueueFits, got_in};

    type Output = Option<u32>;

    ghost precondition = { λ it jobs words. QueueFits jobs.waiting words };

    // the job left the queue, and the answer is this job
    ghost postcondition = { λ it jobs words came log. DoesOver (IsQueue jobs.waiting) words (got_in jobs.waiting) nothing came log };

    fn run<A: Access>(&self, jobs: &Jobs, memory: &mut A) -> Result<Option<u32>, Stop> {
        jobs.waiting.get(memory)
    }
}
