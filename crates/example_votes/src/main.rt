//! A transaction of one's own over places: four callers count votes by candidate.
#![tactic(auto)]

use nekchhaul::{
    Access, Alg, AnyMem, Calls, Job, Layout, Place, Places, Stop, Transaction, repeat, sizes,
    with_memory,
};
use std::sync::Wait;

/// Where the votes lie: those of each of five candidates, and all.
#[derive(Clone, Copy, Drop)]
struct Poll {
    votes: Places<u64>,
    all: Place<u64>,
}

/// A transaction: one more vote for this candidate, and one more of all. Answers how many there were.
#[derive(Drop)]
struct Vote {
    poll: Poll,
    candidate: usize,
}

impl Transaction<AnyMem> for Vote {
    ghost use Rattle.std.specs.Prelude.{◌<◌};
    ghost use Rattle.nekchhaul.specs.Fits.{PlaceFits, PlacesFit};

    type Output = u64;

    ghost precondition = { λ it rule words. PlacesFit it.poll.votes words × PlaceFits it.poll.all words × (it.candidate < it.poll.votes.count) };

    fn run<A: Access>(&self, _: &AnyMem, memory: &mut A) -> Result<u64, Stop> {
        let all = self.poll.all.get(memory)?;
        self.poll.all.set(memory, all.wrapping_add(1))?;
        let votes = self.poll.votes.at(self.candidate);
        votes.update(memory, |n: u64| n.wrapping_add(1))?;
        Ok(all)
    }
}

/// What each caller does on its thread: it counts a thousand votes, from another candidate on than the others. Answers
/// how many it counted.
#[derive(Drop)]
struct Count {
    poll: Poll,
}

impl<R: Wait> Job<R, AnyMem> for Count {
    ghost use Rattle.std.specs.Prelude.{◌≡◌};
    ghost use Rattle.nekchhaul.specs.Fits.{PlaceFits, PlacesFit};

    type Output = usize;

    ghost precondition = { λ job rule words. PlacesFit job.poll.votes words × PlaceFits job.poll.all words × (job.poll.votes.count ≡ 5) };

    fn work<C: Calls<R, AnyMem>>(&self, caller: &mut C) -> usize {
        let number = caller.number();
        let vote = |round: usize| Vote {
            poll: self.poll,
            candidate: (number + round) % 7 % 5,
        };
        repeat(caller, 1_000, &vote)
    }
}

fn main(rt: HostRuntime) -> anyhow::Result<()> {
    let mut layout = Layout::new();
    let votes = layout.places(5);
    let all = layout.place();
    let count = Count {
        poll: Poll { votes, all },
    };
    let sizes = sizes(layout.words(), 4);
    let came = with_memory(&rt, rt.alloc(), sizes, Alg::OrecLazy, AnyMem, &count)?;
    for candidate in 0..5 {
        println!(rt;
            "{candidate}: {}",
            votes.at(candidate).value_in(&came.words)
        )?;
    }
    println!(rt; "of {}", all.value_in(&came.words))?;
    Ok(())
}
