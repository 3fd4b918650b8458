//! What a caller does: it gives the jobs that are its own, or takes its share of them.
ghost use Rattle.std.specs.Prelude.{◌≡◌, ◌≤◌, ◌<◌, ◌+◌, ◌^◌, [], ◌∷◌, if◌then◌else◌, map};
ghost use Rattle.std.specs.List.{range_with_len};
ghost use Rattle.tx_jobs.specs.Deeds.{HasDone};
ghost use Rattle.data_queue.specs.Queues.{QueueFits};
ghost use Rattle.example_queue_jobs.specs.Days.{Did, Given};

use crate::jobs::{Give, Jobs, Take};
use crate::plan::Plan;
use data_queue::queue::Put;
use std::alloc::Global;
use std::sync::Wait;
use tx_backoff::Backoff;
use tx_jobs::calls::Calls;
use tx_jobs::gather::{Errand, gather};
use tx_jobs::job::Job;

/// So often a caller comes again where the queue has no room, or no job.
const PATIENCE: u32 = 1_000_000;

/// What a caller gave and took: so many of its jobs, from its first on, and these, in its order.
#[derive(Drop)]
pub struct Hand {
    pub gave: u32,
    pub took: Vec<u32>,
}

/// A shift of work: the first callers are the producers, and the others the workers.
#[derive(Drop)]
pub struct Shift {
    pub plan: Plan,
    pub alloc: Global,
}

impl<R: Wait> Job<R, Jobs> for Shift {
    ghost use Rattle.std.specs.Prelude.{◌≡◌, ◌≤◌};
    ghost use Rattle.data_queue.specs.Queues.{QueueFits};
    ghost use Rattle.example_queue_jobs.specs.Days.{IsPlan, TellsIn};

    type Output = Hand;

    ghost precondition = { λ shift jobs words. QueueFits jobs.waiting words × IsPlan shift.plan };

    // it gave the first of its jobs, no more than there are, and took the jobs that it lists
    ghost postcondition = { λ shift jobs words caller hand before after. TellsIn jobs.waiting words shift.plan caller hand before after };

    fn work<C: Calls<R, Jobs>>(&self, caller: &mut C) -> Hand {
        let number = caller.number();
        if number < self.plan.producers {
            let first = number as u32 * self.plan.each + 1;
            let gave = give_all(caller, first, self.plan.each);
            let took = Vec::new(self.alloc);
            return Hand { gave, took };
        }
        let share = self.plan.share(number - self.plan.producers);
        match gather(caller, self.alloc, share, &AnyJob) {
            Ok(took) => Hand { gave: 0, took },
            // then not all jobs are taken, and producers may lose their patience
            Err(_) => Hand {
                gave: 0,
                took: Vec::new(self.alloc),
            },
        }
    }
}

/// Gives so many jobs from `first` on. Answers how many it gave.
fn give_all<R: Wait, C: Calls<R, Jobs>>(caller: &mut C, first: u32, count: u32) -> u32
    requires precondition { QueueFits (C.seat caller.old).rule.waiting (C.seat caller.old).words }
    requires numbers { first + count < 2 ^ 32 }
    ensures keeps { C.keeps caller.old caller.new }
    ensures count { result ≤ count }
    ensures gave { HasDone (Did (C.seat caller.old).rule.waiting (C.seat caller.old).words)
        (map Given (range_with_len first result)) (C.known caller.old).made
        (C.known caller.new).made }
{
    for i in 0..count {
        if !give(caller, first + i) {
            return i;
        }
    }
    count
}

/// Gives a job, as soon as there is room. Answers whether it did.
fn give<R: Wait, C: Calls<R, Jobs>>(caller: &mut C, job: u32) -> bool
    requires precondition { QueueFits (C.seat caller.old).rule.waiting (C.seat caller.old).words }
    ensures keeps { C.keeps caller.old caller.new }
    ensures same { C.seat caller.new ≡ C.seat caller.old }
    ensures gave { HasDone (Did (C.seat caller.old).rule.waiting (C.seat caller.old).words)
        (if result then Given job ∷ [] else []) (C.known caller.old).made
        (C.known caller.new).made }
{
    let mut backoff = Backoff::new();
    for _ in 0..PATIENCE {
        match caller.run(&Give { job }) {
            Some(Put::Added) => return true,
            Some(Put::NoRoom) => backoff.wait(),
            None => return false,
        }
    }
    false
}

/// Takes a job, whichever comes, as soon as there is one.
#[derive(Drop)]
struct AnyJob;

impl<R: Wait> Errand<R, Jobs> for AnyJob {
    ghost use Rattle.std.specs.Prelude.{map};
    ghost use Rattle.tx_jobs.specs.Deeds.{HasDone};
    ghost use Rattle.tx_jobs.specs.Gathered.{listed};
    ghost use Rattle.data_queue.specs.Queues.{QueueFits};
    ghost use Rattle.example_queue_jobs.specs.Days.{Did, Taken};

    type Item = u32;

    ghost precondition = { λ it jobs words round. QueueFits jobs.waiting words };

    // it took the job that it answers
    ghost postcondition = { λ it jobs words caller round answer before after. HasDone (Did jobs.waiting words) (map Taken (listed answer)) before.made after.made };

    fn round<C: Calls<R, Jobs>>(&self, caller: &mut C, _round: usize) -> Option<u32> {
        let mut backoff = Backoff::new();
        for _ in 0..PATIENCE {
            match caller.run(&Take) {
                Some(Some(job)) => return Some(job),
                Some(None) => backoff.wait(),
                None => return None,
            }
        }
        None
    }
}
