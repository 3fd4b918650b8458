//! `gen`: the summary of a generated workload, and who passes the turnstile in it.
use std::sync::atomic::{AtomicUsize, Ordering};
use std::test::Fail;
use test_bench_cases::cases::{command_line, lines, outcome, outcome_through};
use work_bench::Turnstile;
use work_bench::status::Status;

/// The words after the program's name, and the summary that is written.
const SUMMARIES: &[(&str, &str)] = &[
    (
        "gen 8 2 1",
        "summary 1 / commits 9 / accounts 64000 / counter 2 / list 2 / end",
    ),
    (
        "gen 100 4 7",
        "summary 1 / commits 101 / accounts 64000 / counter 25 / list 24 / end",
    ),
    (
        "gen 1 32 18446744073709551615",
        "summary 1 / commits 2 / accounts 64000 / counter 0 / list 0 / end",
    ),
    // of the most transactions and callers
    (
        "gen 50000 32 7",
        "summary 1 / commits 50001 / accounts 64000 / counter 12500 / list 24 / end",
    ),
];

/// The source would fail at its first take: none is made.
#[test]
fn summaries_are_written(rt: HostRuntime) -> Result<(), Fail> {
    for (line, said) in SUMMARIES {
        let words = command_line(rt.alloc(), line)?;
        let (status, held) = outcome(&rt, rt.alloc(), words.as_slice(), "", &[0], 4096)?;
        assert_eq!(rt; (line, held), (line, lines(rt.alloc(), said)?));
        assert_eq!(rt; (line, status), (line, Status::Ok));
    }
    Ok(())
}

/// A bit for each transaction of two callers that passed: those of caller 0 from bit 0 on, those of caller 1 from
/// bit 8 on, and bit 16 for any other.
#[derive(Drop)]
struct Passed {
    bits: AtomicUsize,
}

impl Turnstile for Passed {
    fn pass(&self, caller: usize, seq: usize) {
        let bit = if caller < 2 && seq < 8 {
            8 * caller + seq
        } else {
            16
        };
        self.bits.fetch_or(1 << bit, Ordering::SeqCst);
    }
}

/// After the opening one, caller 0 has four transactions and caller 1 four.
#[test]
fn each_transaction_passes(rt: HostRuntime) -> Result<(), Fail> {
    let passed = Passed {
        bits: AtomicUsize::new(0),
    };
    let words = command_line(rt.alloc(), "gen 8 2 1")?;
    let (status, _) = outcome_through(&rt, rt.alloc(), words.as_slice(), "", &[], 4096, &passed)?;
    assert_eq!(rt; status, Status::Ok);
    assert_eq!(rt; passed.bits.load(Ordering::SeqCst), 0b1111_0001_1111);
    Ok(())
}
