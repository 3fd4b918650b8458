//! What no clause says: that callers that wait for each other come to their end, under each algorithm.
ghost use Rattle.std.specs.Prelude.{◌≡◌, ◌<◌};

use std::sync::Wait;
use std::test::Fail;
use stm_tx::{ALGORITHMS, Access, Alg, AnyMem, Stop};
use tx_atomic::transaction::Transaction;
use tx_jobs::calls::Calls;
use tx_jobs::job::Job;
use tx_jobs::sizes::sizes;
use tx_start::memory::with_memory;

/// How many values go from the one caller to the other.
const VALUES: u64 = 300;

/// Puts a value into a word, once that is empty: 0.
#[derive(Drop)]
pub(crate) struct Put {
    pub(crate) at: usize,
    pub(crate) value: u64,
}

impl Transaction<AnyMem> for Put {
    ghost use Rattle.std.specs.Prelude.{◌≡◌, ◌<◌, [], IfNone};

    type Output = Option<()>;

    ghost precondition = { λ it rule words. it.at < words };

    ghost postcondition = { λ it rule words came log. IfNone came (log.writes ≡ []) };

    fn run<A: Access>(&self, _: &AnyMem, memory: &mut A) -> Result<Option<()>, Stop> {
        if memory.read(self.at)? != 0 {
            return Ok(None);
        }
        memory.write(self.at, self.value)?;
        Ok(Some(()))
    }
}

/// Takes what a word holds, once it is something.
#[derive(Drop)]
struct Take {
    at: usize,
}

impl Transaction<AnyMem> for Take {
    ghost use Rattle.std.specs.Prelude.{◌≡◌, ◌<◌, [], IfNone};

    type Output = Option<u64>;

    ghost precondition = { λ it rule words. it.at < words };

    ghost postcondition = { λ it rule words came log. IfNone came (log.writes ≡ []) };

    fn run<A: Access>(&self, _: &AnyMem, memory: &mut A) -> Result<Option<u64>, Stop> {
        let value = memory.read(self.at)?;
        if value == 0 {
            return Ok(None);
        }
        memory.write(self.at, 0)?;
        Ok(Some(value))
    }
}

/// Caller 0 puts the values from 1 on into word 0, caller 1 takes them and answers whether they came in order, and each
/// other caller installs one algorithm after the other meanwhile.
struct Hand;

impl<R: Wait> Job<R, AnyMem> for Hand {
    ghost use Rattle.std.specs.Prelude.{◌<◌};

    type Output = bool;

    ghost precondition = { λ job rule words. 0 < words };

    ghost postcondition = { λ job rule words caller answer before after. Unit {0} };

    fn work<C: Calls<R, AnyMem>>(&self, caller: &mut C) -> bool {
        for i in 0..VALUES {
            if !hand_over(caller, i + 1) {
                return false;
            }
        }
        true
    }
}

fn hand_over<R: Wait, C: Calls<R, AnyMem>>(caller: &mut C, value: u64) -> bool
    requires words { 0 < (C.seat caller.old).words }
    ensures keeps { C.keeps caller.old caller.new }
    ensures same { C.seat caller.new ≡ C.seat caller.old }
{
    match caller.number() {
        0 => caller.until_some(&Put { at: 0, value }).is_some(),
        1 => caller.until_some(&Take { at: 0 }) == Some(value),
        _ => {
            let next = (value % 6) as usize;
            caller.switch_to(ALGORITHMS[next]);
            true
        }
    }
}

#[test]
fn each_value_is_handed_over(rt: HostRuntime) -> Result<(), Fail> {
    for alg in ALGORITHMS {
        let came = with_memory(&rt, rt.alloc(), sizes(1, 2), alg, AnyMem, &Hand)?;
        assert_eq!(rt; came.words.first().copied(), Some(0));
        for answer in came.answers.iter() {
            assert!(rt; *answer);
        }
    }
    Ok(())
}

#[test]
fn each_value_is_handed_over_across_switches(rt: HostRuntime) -> Result<(), Fail> {
    let came = with_memory(&rt, rt.alloc(), sizes(1, 3), Alg::OrecLazy, AnyMem, &Hand)?;
    assert_eq!(rt; came.words.first().copied(), Some(0));
    for answer in came.answers.iter() {
        assert!(rt; *answer);
    }
    Ok(())
}
