//! What no clause says: that memory is there, and a log that was too short becomes as long as a transaction needs it.
ghost use Rattle.std.specs.Prelude.{◌≡◌, ◌≤◌, None, Some, OnOk, IfErr};
ghost use Rattle.stm_model.specs.Logs.{SameMemories};

use std::alloc::Global;
use std::sync::Wait;
use std::test::Fail;
use stm_model::access::Access;
use stm_model::alg::Alg;
use stm_model::config::Config;
use stm_model::rule::AnyMem;
use stm_model::stop::Stop;
use stm_rule::refusal::NewError;
use stm_rule::stm::Stm;
use tx_atomic::atomically::atomically;
use tx_atomic::growth::Growth;
use tx_atomic::pace::Pace;
use tx_atomic::switching::switch_to;
use tx_atomic::tally::Tally;
use tx_atomic::transaction::Transaction;
use tx_start::times::with_transaction;

/// Reads the words 0 to 39, and writes 7 to each of the words 40 to 59. Answers the sum of what it read.
#[derive(Drop)]
struct Wide;

impl Transaction<AnyMem> for Wide {
    ghost use Rattle.std.specs.Prelude.{◌≤◌};

    type Output = u64;

    ghost precondition = { λ it rule words. 60 ≤ words };

    ghost postcondition = { λ it rule words sum log. Unit {0} };

    fn run<A: Access>(&self, _: &AnyMem, memory: &mut A) -> Result<u64, Stop> {
        let sum = read_all(memory)?;
        write_all(memory)?;
        Ok(sum)
    }
}

fn read_all<A: Access>(memory: &mut A) -> Result<u64, Stop>
    requires going { A.stopped memory.old ≡ None }
    requires within { 60 ≤ A.words memory.old }
    ensures goes { OnOk result (A.stopped memory.new ≡ None) }
    ensures stops { IfErr result (λ s. A.stopped memory.new ≡ Some s) }
    ensures good { SameMemories (A.good memory.old) (A.good memory.new) }
    ensures words { A.words memory.new ≡ A.words memory.old }
    ensures keeps { A.keeps memory.old memory.new }
{
    let mut sum: u64 = 0;
    for at in 0..40_usize {
        let found = memory.read(at)?;
        sum = sum.wrapping_add(found);
    }
    Ok(sum)
}

fn write_all<A: Access>(memory: &mut A) -> Result<(), Stop>
    requires going { A.stopped memory.old ≡ None }
    requires within { 60 ≤ A.words memory.old }
    ensures goes { OnOk result (A.stopped memory.new ≡ None) }
    ensures stops { IfErr result (λ s. A.stopped memory.new ≡ Some s) }
    ensures good { SameMemories (A.good memory.old) (A.good memory.new) }
    ensures words { A.words memory.new ≡ A.words memory.old }
    ensures keeps { A.keeps memory.old memory.new }
{
    for at in 40..60_usize {
        memory.write(at, 7)?;
    }
    Ok(())
}

const SHORT: Config = Config {
    words: 60,
    records: 60,
    ring: 4,
    callers: 1,
    reads: 4,
    writes: 4,
    clock: 0,
    fence: false,
    marks: 0,
};

/// What the transaction answers a caller that is alone and whose logs have 4 items, and what came of its attempts.
fn run_wide<R: Wait>(
    rt: &R,
    alloc: Global,
    alg: Alg,
    growth: Growth,
) -> Result<(Option<u64>, Tally), NewError> {
    let (stm, mut descs) = Stm::new(alloc, SHORT, AnyMem)?;
    let Some(mut desc) = descs.pop() else {
        unreachable!()
    };
    switch_to(rt, &mut desc, &stm, alg);
    let mut pace = Pace::new();
    pace.growth = growth;
    let sum = atomically(rt, &mut desc, &stm, &mut pace, &Wide);
    Ok((sum, pace.tally))
}

/// The read log becomes 8, 16, 32 and 64 items long, and a log of what is written 8, 16 and 32.
#[test]
fn a_log_becomes_as_long_as_it_has_to(rt: HostRuntime) -> Result<(), Fail> {
    let growth = Growth::up_to(rt.alloc(), 64);
    for (alg, full) in [
        (Alg::Cgl, 0),
        (Alg::Tml, 0),
        (Alg::OrecLazy, 7),
        (Alg::OrecEager, 7),
        (Alg::RingSw, 3),
        (Alg::Serial, 3),
    ] {
        let (sum, tally) = run_wide(&rt, rt.alloc(), alg, growth)?;
        assert_eq!(rt; sum, Some(0));
        assert_eq!(rt;
            tally,
            Tally {
                commits: 1,
                full,
                ..Tally::new()
            }
        );
    }
    Ok(())
}

#[test]
fn where_no_log_may_become_longer_it_is_promoted(rt: HostRuntime) -> Result<(), Fail> {
    for (most, full) in [(0, 1), (4, 1), (8, 2), (32, 4)] {
        let growth = Growth::up_to(rt.alloc(), most);
        let (sum, tally) = run_wide(&rt, rt.alloc(), Alg::OrecLazy, growth)?;
        assert_eq!(rt; sum, Some(0));
        assert_eq!(rt;
            tally,
            Tally {
                commits: 1,
                full,
                promotions: 1,
                ..Tally::new()
            }
        );
    }
    let (sum, tally) = run_wide(&rt, rt.alloc(), Alg::OrecLazy, Growth::none())?;
    assert_eq!(rt; sum, Some(0));
    assert_eq!(rt;
        tally,
        Tally {
            commits: 1,
            full: 1,
            promotions: 1,
            ..Tally::new()
        }
    );
    Ok(())
}

#[test]
fn a_program_without_descriptors_has_growth(rt: HostRuntime) -> Result<(), Fail> {
    let closed = with_transaction(&rt, rt.alloc(), SHORT, Alg::OrecEager, 2, Wide)?;
    assert_eq!(rt; closed.answers.first().copied(), Some(2));
    assert_eq!(rt;
        closed.past.tallies.first().copied(),
        Some(Tally {
            commits: 2,
            full: 7,
            ..Tally::new()
        })
    );
    Ok(())
}
