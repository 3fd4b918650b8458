//! What no clause says: that parts have room and come to their end, on threads and where attempts are refused; and what
//! random parts in one another leave, beside plain words.
ghost use Rattle.std.specs.Prelude.{◌≡◌, ◌<◌};

use std::alloc::Global;
use std::sync::Wait;
use std::test::Fail;
use stm_tx::{ALGORITHMS, AnyMem, Config, Stop};
use tx_jobs::calls::Calls;
use tx_jobs::job::Job;
use tx_jobs::repeats::repeat;
use tx_jobs::sizes::sizes;
use tx_parts::nesting::Nesting;
use tx_parts::or_else::OrElse;
use tx_parts::part::Part;
use tx_parts::then::Then;
use tx_parts::whole::{Awaited, Whole};
use tx_start::memory::with_memory;

/// The words of a memory: four for each of four callers.
const WORDS: usize = 16;

/// How many random parts each caller does.
const ROUNDS: usize = 200;

/// A word becomes three times what it was and some more, and then, it may be, the part gives way.
#[derive(Clone, Copy, Drop, Debug)]
struct Mix {
    at: usize,
    more: u64,
    gives_way: bool,
}

impl Part<AnyMem> for Mix {
    ghost use Rattle.std.specs.Prelude.{◌<◌};

    type Output = ();

    ghost precondition = { λ it rule words. 15 < words };

    ghost depth = { λ it. 0 };

    ghost postcondition = { λ it rule words came before after. Unit {0} };

    fn run<N: Nesting>(&self, _: &AnyMem, memory: &mut N) -> Result<Option<()>, Stop> {
        let at = self.at % WORDS;
        let found = memory.read(at)?;
        memory.write(at, found.wrapping_mul(3).wrapping_add(self.more))?;
        if self.gives_way {
            return Ok(None);
        }
        Ok(Some(()))
    }
}

type Pair = Then<Mix, Mix>;

type Fork = OrElse<Pair, Pair>;

type Walk = Then<Pair, Fork>;
/// Parts in one another, as deep as they may be.
type Nest = Then<Fork, OrElse<Seven, Walk>>;

type Seven = OrElse<
    OrElse<OrElse<OrElse<OrElse<OrElse<Walk, Walk>, Walk>, Walk>, Walk>, Walk>,
    Walk,
>;

/// What a number becomes, so that it looks like another.
fn stir(seed: u64, branch: u64) -> u64 {
    let mixed = (seed ^ branch).wrapping_mul(0x9E37_79B9_7F4A_7C15);
    mixed ^ (mixed >> 29)
}

/// A part that was drawn at random for one caller.
trait Drawn {
    fn drawn(caller: usize, seed: u64) -> Self;

    /// What it leaves of these words, or None where it gives way: on plain words, of which each alternative has a copy.
    fn leaves(&self, words: [u64; WORDS]) -> Option<[u64; WORDS]>;
}

impl Drawn for Mix {
    fn drawn(caller: usize, seed: u64) -> Mix {
        Mix {
            at: (4 * (caller % 4) + (seed % 4) as usize) % WORDS,
            more: stir(seed, 1) % 100,
            gives_way: stir(seed, 2) % 4 == 0,
        }
    }

    fn leaves(&self, mut words: [u64; WORDS]) -> Option<[u64; WORDS]> {
        let at = self.at % WORDS;
        words[at] = words[at].wrapping_mul(3).wrapping_add(self.more);
        if self.gives_way { None } else { Some(words) }
    }
}

impl<P: Drawn, Q: Drawn> Drawn for Then<P, Q> {
    fn drawn(caller: usize, seed: u64) -> Then<P, Q> {
        Then {
            first: P::drawn(caller, stir(seed, 3)),
            second: Q::drawn(caller, stir(seed, 4)),
        }
    }

    fn leaves(&self, words: [u64; WORDS]) -> Option<[u64; WORDS]> {
        self.second.leaves(self.first.leaves(words)?)
    }
}

impl<P: Drawn, Q: Drawn> Drawn for OrElse<P, Q> {
    fn drawn(caller: usize, seed: u64) -> OrElse<P, Q> {
        OrElse {
            first: P::drawn(caller, stir(seed, 5)),
            second: Q::drawn(caller, stir(seed, 6)),
        }
    }

    fn leaves(&self, words: [u64; WORDS]) -> Option<[u64; WORDS]> {
        match self.first.leaves(words) {
            Some(left) => Some(left),
            None => self.second.leaves(words),
        }
    }
}

/// The random part of a caller's round.
fn nest(alloc: Global, caller: usize, round: usize) -> Whole<Nest>
    ensures { (result.first < 16) × (result.room ≡ 4) }
{
    Whole {
        part: Nest::drawn(caller, stir(round as u64, caller as u64)),
        first: 4 * (caller % 4),
        room: 4,
        alloc,
    }
}

/// Each caller does its random parts.
#[derive(Drop)]
struct Nests {
    alloc: Global,
}

impl<R: Wait> Job<R, AnyMem> for Nests {
    ghost use Rattle.std.specs.Prelude.{◌<◌};

    type Output = usize;

    ghost precondition = { λ job rule words. 15 < words };

    ghost postcondition = { λ job rule words caller answer before after. Unit {0} };

    fn work<C: Calls<R, AnyMem>>(&self, caller: &mut C) -> usize {
        let number = caller.number();
        repeat(caller, ROUNDS, &|round| nest(self.alloc, number, round))
    }
}

/// What the random parts of so many callers leave of plain words.
fn expected(alloc: Global, callers: usize) -> [u64; WORDS] {
    let mut words = [0; WORDS];
    for caller in 0..callers {
        for round in 0..ROUNDS {
            if let Some(left) = nest(alloc, caller, round).part.leaves(words) {
                words = left;
            }
        }
    }
    words
}

#[test]
fn parts_in_one_another_leave_what_plain_words_do(rt: HostRuntime) -> Result<(), Fail> {
    let job = Nests { alloc: rt.alloc() };
    for callers in [1, 4] {
        let wanted = expected(rt.alloc(), callers);
        for alg in ALGORITHMS {
            // one record for all words: so that callers are in each other's way
            let config = Config {
                records: 1,
                ..sizes(WORDS, callers)
            };
            let came = with_memory(&rt, rt.alloc(), config, alg, AnyMem, &job)?;
            for answer in came.answers.iter() {
                assert_eq!(rt; *answer, ROUNDS);
            }
            for at in 0..WORDS {
                assert_eq!(rt; came.words.get(at).copied(), Some(wanted[at]));
            }
        }
    }
    Ok(())
}

/// Puts an amount into a word.
#[derive(Clone, Copy, Drop, Debug)]
struct Put {
    at: usize,
    amount: u64,
}

impl Part<AnyMem> for Put {
    ghost use Rattle.std.specs.Prelude.{◌<◌};

    type Output = ();

    ghost precondition = { λ it rule words. it.at < words };

    ghost depth = { λ it. 0 };

    ghost postcondition = { λ it rule words came before after. Unit {0} };

    fn run<N: Nesting>(&self, _: &AnyMem, memory: &mut N) -> Result<Option<()>, Stop> {
        let found = memory.read(self.at)?;
        memory.write(self.at, found.wrapping_add(self.amount))?;
        Ok(Some(()))
    }
}

/// Takes an amount from a word. It gives way where there is less, once it has written.
#[derive(Clone, Copy, Drop, Debug)]
struct Draw {
    at: usize,
    amount: u64,
}

impl Part<AnyMem> for Draw {
    ghost use Rattle.std.specs.Prelude.{◌<◌};

    type Output = ();

    ghost precondition = { λ it rule words. it.at < words };

    ghost depth = { λ it. 0 };

    ghost postcondition = { λ it rule words came before after. Unit {0} };

    fn run<N: Nesting>(&self, _: &AnyMem, memory: &mut N) -> Result<Option<()>, Stop> {
        let found = memory.read(self.at)?;
        memory.write(self.at, found.wrapping_sub(self.amount))?;
        if found < self.amount {
            return Ok(None);
        }
        Ok(Some(()))
    }
}

/// An amount goes from one word to another.
type Move = Then<Put, Draw>;

fn move_amount(from: usize, to: usize, amount: u64) -> Move
    ensures { (result.first.at ≡ to) × (result.second.at ≡ from) }
{
    Then {
        first: Put { at: to, amount },
        second: Draw { at: from, amount },
    }
}

/// From one of two words to a third, in a round of a caller.
fn transfer(alloc: Global, caller: usize, round: usize) -> Whole<OrElse<Move, Move>>
    ensures first { (result.part.first.first.at < 4) × (result.part.first.second.at < 4) }
    ensures second { (result.part.second.first.at < 4) × (result.part.second.second.at < 4) }
    ensures room { (result.first < 4) × (result.room ≡ 2) }
{
    let seed = stir(round as u64, caller as u64);
    let to = (seed % 4) as usize;
    let from = (stir(seed, 1) % 4) as usize;
    let other = (stir(seed, 2) % 4) as usize;
    let amount = stir(seed, 3) % 150;
    Whole {
        part: OrElse {
            first: move_amount(from, to, amount),
            second: move_amount(other, to, amount / 2),
        },
        first: from,
        room: 2,
        alloc,
    }
}

/// Each caller puts an amount into its word, and then does transfers.
#[derive(Drop)]
struct Transfers {
    alloc: Global,
}

impl<R: Wait> Job<R, AnyMem> for Transfers {
    ghost use Rattle.std.specs.Prelude.{◌<◌};

    type Output = usize;

    ghost precondition = { λ job rule words. 3 < words };

    ghost postcondition = { λ job rule words caller answer before after. Unit {0} };

    fn work<C: Calls<R, AnyMem>>(&self, caller: &mut C) -> usize {
        let number = caller.number();
        let put = Whole {
            part: Put {
                at: number % 4,
                amount: 100,
            },
            first: 0,
            room: 1,
            alloc: self.alloc,
        };
        caller.run(&put);
        repeat(caller, ROUNDS, &|round| transfer(self.alloc, number, round))
    }
}

#[test]
fn transfers_that_may_give_way_lose_nothing(rt: HostRuntime) -> Result<(), Fail> {
    let job = Transfers { alloc: rt.alloc() };
    for alg in ALGORITHMS {
        let came = with_memory(&rt, rt.alloc(), sizes(4, 4), alg, AnyMem, &job)?;
        let mut sum: u64 = 0;
        for word in came.words.iter() {
            assert!(rt; *word <= 400);
            sum = sum.wrapping_add(*word);
        }
        assert_eq!(rt; sum, 400);
    }
    Ok(())
}

/// Takes what a word holds, and gives way where that is nothing.
#[derive(Clone, Copy, Drop, Debug)]
struct Take {
    at: usize,
}

impl Part<AnyMem> for Take {
    ghost use Rattle.std.specs.Prelude.{◌<◌};

    type Output = u64;

    ghost precondition = { λ it rule words. it.at < words };

    ghost depth = { λ it. 0 };

    ghost postcondition = { λ it rule words came before after. Unit {0} };

    fn run<N: Nesting>(&self, _: &AnyMem, memory: &mut N) -> Result<Option<u64>, Stop> {
        let found = memory.read(self.at)?;
        memory.write(self.at, 0)?;
        if found == 0 {
            return Ok(None);
        }
        Ok(Some(found))
    }
}

/// Caller 0 waits for something in word 0 or else in word 1, and the other puts it there.
#[derive(Drop)]
struct Await {
    alloc: Global,
}

impl<R: Wait> Job<R, AnyMem> for Await {
    ghost use Rattle.std.specs.Prelude.{◌<◌};

    type Output = bool;

    ghost precondition = { λ job rule words. 1 < words };

    ghost postcondition = { λ job rule words caller answer before after. Unit {0} };

    fn work<C: Calls<R, AnyMem>>(&self, caller: &mut C) -> bool {
        let alloc = self.alloc;
        if caller.number() == 0 {
            let part = OrElse {
                first: Take { at: 0 },
                second: Take { at: 1 },
            };
            // what the first took is given back, so there is room for the second
            let whole = Whole {
                part,
                first: 0,
                room: 1,
                alloc,
            };
            return caller.until_some(&Awaited { whole }) == Some(Ok(7));
        }
        let put = Whole {
            part: Put { at: 1, amount: 7 },
            first: 1,
            room: 1,
            alloc,
        };
        caller.run(&put).is_some()
    }
}

#[test]
fn a_part_is_awaited(rt: HostRuntime) -> Result<(), Fail> {
    let job = Await { alloc: rt.alloc() };
    for alg in ALGORITHMS {
        let came = with_memory(&rt, rt.alloc(), sizes(2, 2), alg, AnyMem, &job)?;
        assert_eq!(rt; came.words.get(1).copied(), Some(0));
        for answer in came.answers.iter() {
            assert!(rt; *answer);
        }
    }
    Ok(())
}
