//! What no clause says: that callers come to their end, and that no increment is lost.
use std::sync::Wait;
use std::test::Fail;
use stm_tx::{ALGORITHMS, Access, Alg, AnyMem, Stop};
use tx_atomic::transaction::Transaction;
use tx_jobs::calls::Calls;
use tx_jobs::job::Job;
use tx_jobs::repeats::repeat;
use tx_jobs::sizes::sizes;
use tx_start::memory::with_memory;

/// One more in word 0.
#[derive(Drop)]
struct Add;

impl Transaction<AnyMem> for Add {
    ghost use Rattle.std.specs.Prelude.{◌<◌};

    type Output = u64;

    ghost precondition = { λ it rule words. 0 < words };

    ghost postcondition = { λ it rule words came log. Unit {0} };

    fn run<A: Access>(&self, _: &AnyMem, memory: &mut A) -> Result<u64, Stop> {
        let count = memory.read(0)?;
        memory.write(0, count.wrapping_add(1))?;
        Ok(count)
    }
}

/// Adds one so many times.
#[derive(Drop)]
struct Count {
    rounds: usize,
}

impl<R: Wait> Job<R, AnyMem> for Count {
    ghost use Rattle.std.specs.Prelude.{◌<◌};

    type Output = usize;

    ghost precondition = { λ job rule words. 0 < words };

    ghost postcondition = { λ job rule words caller answer before after. Unit {0} };

    fn work<C: Calls<R, AnyMem>>(&self, caller: &mut C) -> usize {
        repeat(caller, self.rounds, &|_| Add)
    }
}

#[test]
fn no_increment_is_lost(rt: HostRuntime) -> Result<(), Fail> {
    let count = Count { rounds: 500 };
    for alg in ALGORITHMS {
        let came = with_memory(&rt, rt.alloc(), sizes(1, 4), alg, AnyMem, &count)?;
        assert_eq!(rt; came.words.first().copied(), Some(2_000));
        assert_eq!(rt; came.answers.len(), 4);
        for answer in came.answers.iter() {
            assert_eq!(rt; *answer, 500);
        }
        for tally in came.past.tallies.iter() {
            assert_eq!(rt; tally.commits, 500);
        }
    }
    Ok(())
}

#[test]
fn the_most_callers_count(rt: HostRuntime) -> Result<(), Fail> {
    let count = Count { rounds: 20 };
    for alg in [Alg::Cgl, Alg::OrecLazy, Alg::RingSw] {
        let came = with_memory(&rt, rt.alloc(), sizes(1, 254), alg, AnyMem, &count)?;
        assert_eq!(rt; came.words.first().copied(), Some(5_080));
        assert_eq!(rt; came.answers.len(), 254);
    }
    Ok(())
}

/// Writes 7 into the first word, and 8 into the last of 2^24.
#[derive(Drop)]
struct Ends;

impl Transaction<AnyMem> for Ends {
    ghost use Rattle.std.specs.Prelude.{◌≡◌};

    type Output = ();

    ghost precondition = { λ it rule words. words ≡ 16777216 };

    ghost postcondition = { λ it rule words came log. Unit {0} };

    fn run<A: Access>(&self, _: &AnyMem, memory: &mut A) -> Result<(), Stop> {
        memory.write(0, 7)?;
        memory.write(16_777_215, 8)
    }
}

struct WriteEnds;

impl<R: Wait> Job<R, AnyMem> for WriteEnds {
    ghost use Rattle.std.specs.Prelude.{◌≡◌};

    type Output = usize;

    ghost precondition = { λ job rule words. words ≡ 16777216 };

    ghost postcondition = { λ job rule words caller answer before after. Unit {0} };

    fn work<C: Calls<R, AnyMem>>(&self, caller: &mut C) -> usize {
        repeat(caller, 1, &|_| Ends)
    }
}

#[test]
fn a_large_memory_holds_what_is_written_at_its_ends(rt: HostRuntime) -> Result<(), Fail> {
    let sizes = sizes(16_777_216, 1);
    let came = with_memory(&rt, rt.alloc(), sizes, Alg::OrecEager, AnyMem, &WriteEnds)?;
    assert_eq!(rt; came.words.len(), 16_777_216);
    assert_eq!(rt; came.words.first().copied(), Some(7));
    assert_eq!(rt; came.words.last().copied(), Some(8));
    Ok(())
}
