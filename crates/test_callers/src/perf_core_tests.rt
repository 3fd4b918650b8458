//! Small runs of each workload under each algorithm, and the command line.

use perf_core::checks::is_right;
use perf_core::conflicts::Conflicts;
use perf_core::ending::Ending;
use perf_core::help::{Topic, help_of};
use perf_core::plan::{Plan, WORKLOADS, Workload, plan_of};
use perf_core::program::said_of;
use perf_core::run::run;
use perf_core::work_counts::WorkCounts;
use perf_core::wrong::wrong_word;
use std::test::Fail;
use stm_model::alg::{ALGORITHMS, Alg};
use stm_model::stop::Cause;
use tx_atomic::observer::Observer;
use tx_atomic::tally::Ended;

#[test]
fn each_memory_is_right(rt: HostRuntime) -> Result<(), Fail> {
    for alg in ALGORITHMS {
        for workload in WORKLOADS {
            let plan = Plan {
                workload,
                alg,
                threads: 3,
                count: 100,
                seed: 5,
                words: 1_040,
                reads: 2_048,
                switches: 4,
                conflicts: true,
            };
            let report = run(&rt, rt.alloc(), &plan)?;
            assert!(rt; report.right);
            assert_eq!(rt; report.tally.commits, 100);
            assert_eq!(rt; report.looks.switches, 4);
            assert!(rt; report.looks.all >= 4);
        }
    }
    Ok(())
}

/// With a log of 256 reads the sum of all accounts is refused once, and then granted to be irrevocable.
#[test]
fn a_sum_past_the_log_is_promoted(rt: HostRuntime) -> Result<(), Fail> {
    let plan = Plan {
        workload: Workload::Bank,
        alg: Alg::OrecEager,
        threads: 1,
        count: 2_000,
        seed: 5,
        words: 1_040,
        reads: 256,
        switches: 0,
        conflicts: false,
    };
    let report = run(&rt, rt.alloc(), &plan)?;
    assert!(rt; report.right);
    assert!(rt; report.tally.promotions > 0);
    assert_eq!(rt; report.tally.promotions, report.tally.full);
    Ok(())
}

/// As many callers as there may be, one transaction each.
#[test]
fn as_many_callers_as_may_be(rt: HostRuntime) -> Result<(), Fail> {
    for alg in ALGORITHMS {
        let plan = Plan {
            workload: Workload::Scan,
            alg,
            threads: 254,
            count: 254,
            switches: 1,
            ..PLAN
        };
        let report = run(&rt, rt.alloc(), &plan)?;
        assert!(rt; report.right);
        assert_eq!(rt; report.tally.commits, 254);
        assert_eq!(rt; report.looks.switches, 1);
    }
    Ok(())
}

/// Two rows of 100,000 words, each read whole by the scans of it: none is promoted by a log that has room for a row,
/// and each is by one that has room for a word less. What stands after the rows stays.
#[test]
fn scans_of_rows(rt: HostRuntime) -> Result<(), Fail> {
    for (reads, promotions) in [(100_000, 0), (99_999, 20)] {
        let plan = Plan {
            workload: Workload::Scan,
            alg: Alg::OrecLazy,
            threads: 1,
            count: 20,
            seed: 5,
            words: 250_000,
            reads,
            switches: 0,
            conflicts: false,
        };
        let report = run(&rt, rt.alloc(), &plan)?;
        assert!(rt; report.right);
        assert_eq!(rt; report.tally.promotions, promotions);
        assert_eq!(rt; report.tally.full, promotions);
        let words = report.words.as_slice();
        assert_eq!(rt; words.len(), 250_000);
        assert!(rt; was_scanned(words, 0, 100_000));
        assert!(rt; was_scanned(words, 100_000, 200_000));
        assert!(rt; !was_scanned(words, 200_000, 250_000));
    }
    Ok(())
}

/// Whether any word from the one on and below the other isn't 0.
fn was_scanned(words: &[u64], from: usize, to: usize) -> bool {
    for (a, word) in words.iter().enumerate() {
        if from <= a && a < to && *word > 0 {
            return true;
        }
    }
    false
}

/// What stands at the first words of the two rows and after them, what the scans saw,
/// and whether that is so of five scans.
const LEFT: [([u64; 3], u64, bool); 7] = [
    ([5, 0, 0], 10, true),
    ([2, 3, 0], 4, true),
    ([2, 3, 0], 3, false),
    ([2, 3, 0], 5, false),
    ([2, 2, 0], 4, false),
    ([2, 2, 1], 4, false),
    ([4_294_967_296, 3, 0], 4, false),
];

/// The word at an address of a memory that has this left.
fn word_left(left: [u64; 3], a: usize) -> u64 {
    match a {
        0 => left[0],
        100_000 => left[1],
        200_000 => left[2],
        _ => 0,
    }
}

#[test]
fn what_scans_leave(rt: HostRuntime) -> Result<(), Fail> {
    let plan = Plan {
        workload: Workload::Scan,
        count: 5,
        ..PLAN
    };
    for (left, seen, is) in LEFT {
        let mut words = Vec::with_capacity(rt.alloc(), 250_000)?;
        for a in 0..250_000 {
            words.push(word_left(left, a))?;
        }
        let mut counts = WorkCounts::new();
        counts.see(seen);
        assert_eq!(rt;
            (left, seen, is_right(words.as_slice(), &plan, 5, &counts)),
            (left, seen, is)
        );
        assert!(rt; !is_right(words.as_slice(), &plan, 4, &counts));
    }
    Ok(())
}

const PLAN: Plan = Plan {
    workload: Workload::Bank,
    alg: Alg::Tml,
    threads: 4,
    count: 1_000,
    seed: 7,
    words: 1_040,
    reads: 2_048,
    switches: 0,
    conflicts: false,
};

/// The words of a command line, and the plan that they say.
const LINES: &[(&[&str], Option<Plan>)] = &[
    (&["stm_perf", "bank", "TML", "4", "1000", "7"], Some(PLAN)),
    (
        &["stm_perf", "bank", "TML", "4", "1000", "7", "256"],
        Some(Plan { reads: 256, ..PLAN }),
    ),
    (
        &["stm_perf", "bank", "TML", "4", "1000", "7", "conflicts"],
        Some(Plan {
            conflicts: true,
            ..PLAN
        }),
    ),
    (
        &[
            "stm_perf",
            "bank",
            "TML",
            "4",
            "1000",
            "7",
            "256",
            "conflicts",
        ],
        Some(Plan {
            reads: 256,
            conflicts: true,
            ..PLAN
        }),
    ),
    (
        &["stm_perf", "bank", "TML", "4", "1000", "7", "switches", "9"],
        Some(Plan {
            switches: 9,
            ..PLAN
        }),
    ),
    (
        &["stm_perf", "bank", "TML", "4", "1000", "7", "switches"],
        None,
    ),
    (
        &["stm_perf", "bank", "TML", "254", "1000", "7"],
        Some(Plan {
            threads: 254,
            ..PLAN
        }),
    ),
    (&["stm_perf", "bank", "TML", "255", "1000", "7"], None),
    (
        &["stm_perf", "bank", "TML", "4", "1000", "7", "1048576"],
        Some(Plan {
            reads: 1_048_576,
            ..PLAN
        }),
    ),
    (
        &["stm_perf", "bank", "TML", "4", "1000", "7", "1048577"],
        None,
    ),
    (
        &["stm_perf", "bank", "TML", "4", "1000", "7", "words", "1040"],
        Some(PLAN),
    ),
    (
        &["stm_perf", "bank", "TML", "4", "1000", "7", "words", "1039"],
        None,
    ),
    (
        &[
            "stm_perf",
            "bank",
            "TML",
            "4",
            "1000",
            "7",
            "words",
            "4294967296",
        ],
        Some(Plan {
            words: 4_294_967_296,
            ..PLAN
        }),
    ),
    (
        &[
            "stm_perf",
            "bank",
            "TML",
            "4",
            "1000",
            "7",
            "words",
            "4294967297",
        ],
        None,
    ),
    (
        &[
            "stm_perf",
            "bank",
            "TML",
            "4",
            "1000",
            "7",
            "256",
            "words",
            "5000",
            "switches",
            "9",
            "conflicts",
        ],
        Some(Plan {
            words: 5_000,
            reads: 256,
            switches: 9,
            conflicts: true,
            ..PLAN
        }),
    ),
    (
        &[
            "stm_perf", "bank", "TML", "4", "1000", "7", "switches", "9", "words", "5000",
        ],
        None,
    ),
    (
        &["stm_perf", "scan", "TML", "4", "1000", "7"],
        Some(Plan {
            workload: Workload::Scan,
            words: 1_000_000,
            reads: 100_000,
            ..PLAN
        }),
    ),
    (
        &["stm_perf", "scan", "TML", "4", "1000", "7", "words", "5000"],
        Some(Plan {
            workload: Workload::Scan,
            words: 5_000,
            reads: 5_000,
            ..PLAN
        }),
    ),
    (&["stm_perf", "bank", "TML", "4", "0", "7"], None),
    (&["stm_perf", "skew", "TML", "4", "1000", "7"], None),
    (&["stm_perf", "bank", "TML", "4", "1000"], None),
];

#[test]
fn words_are_read(rt: HostRuntime) -> Result<(), Fail> {
    for &(words, plan) in LINES {
        assert_eq!(rt; (words, plan_of(words)), (words, plan));
    }
    Ok(())
}

/// The conflicts that are met at some words, in the order in which they are met.
const MET: [Option<usize>; 8] = [
    Some(7),
    Some(1_039),
    Some(3),
    None,
    Some(1_039),
    Some(3),
    Some(1_040),
    Some(3),
];

/// Most first, and of as many the lower address; what has no address, or is no conflict, is counted nowhere.
#[test]
fn the_words_that_conflict_most_are_named(rt: HostRuntime) -> Result<(), Fail> {
    let cause = Cause::Clock { had: 0, now: 2 };
    let mut conflicts = Conflicts::new(rt.alloc(), 1_040)?;
    for at in MET {
        conflicts.refused(Ended::Conflict(cause), at);
        conflicts.refused(Ended::Full, at);
    }
    let mut all = Conflicts::new(rt.alloc(), 1_040)?;
    all.refused(Ended::Conflict(cause), Some(0));
    all.gain(&conflicts);
    let named = format!(in rt.alloc(); "{all}")?;
    assert_eq!(rt;
        named.as_str(),
        "\nword 3 conflicts 3\nword 1039 conflicts 2\nword 0 conflicts 1\nword 7 conflicts 1"
    );
    Ok(())
}

/// Where they aren't counted none is named.
#[test]
fn no_word_is_named_unasked(rt: HostRuntime) -> Result<(), Fail> {
    let mut conflicts = Conflicts::new(rt.alloc(), 0)?;
    conflicts.refused(Ended::Conflict(Cause::Clock { had: 0, now: 2 }), Some(3));
    let named = format!(in rt.alloc(); "{conflicts}")?;
    assert_eq!(rt; named.as_str(), "");
    Ok(())
}

/// What is told of each ending, and of words that ask for nothing.
#[test]
fn each_ending_is_told(rt: HostRuntime) -> Result<(), Fail> {
    let table = [
        (Ending::Right, 0, None),
        (Ending::Help, 0, None),
        (
            Ending::WriteFault,
            4,
            Some("standard output could not be written to the end"),
        ),
        (Ending::Memory, 5, Some("memory was refused")),
        (
            Ending::Wrong,
            7,
            Some("the memory isn't what the transactions leave"),
        ),
    ];
    for (ending, status, wanted) in table {
        let said = said_of(rt.alloc(), ending, &[])?;
        assert_eq!(rt; said.as_deref(), wanted);
        assert_eq!(rt; ending.exit_code(), status);
    }
    let words = [
        ("", "WORKLOAD is missing; here stands one of `"),
        ("bnk", "`bnk` is no WORKLOAD; here stands `bank`, "),
        (
            "bank oreclazy",
            "`oreclazy` is no ALGORITHM; here stands `OrecLazy`, ",
        ),
        (
            "bank TML 255",
            "`255` is out of its range; here stands THREADS from 1 to 254",
        ),
        (
            "bank TML 3 09",
            "`09` is no number (digits alone, no 0 in front, below 2^64); here stands COUNT ",
        ),
        (
            "bank TML 3 9",
            "SEED is missing; here stands SEED from 0 to 18446744073709551615",
        ),
        (
            "bank TML 3 9 1 1048577",
            "`1048577` is out of its range; here stands READS from 1 to 1048576",
        ),
        (
            "bank TML 3 9 1 words 1039",
            "`1039` is out of its range; here stands N from 1040 to 4294967296",
        ),
        (
            "bank TML 3 9 1 256 words 4294967297",
            "`4294967297` is out of its range; here stands N from 1040 to 4294967296",
        ),
        (
            "bank TML 3 9 1 words",
            "N is missing; here stands N from 1040 to 4294967296",
        ),
        (
            "bank TML 3 9 1 switches",
            "N is missing; here stands N from 1 to 4294967295",
        ),
        (
            "bank TML 3 9 1 switchs 4",
            "`switchs` isn't used so; here stands `SEED [READS] [words N] [switches N] [conflicts] [--time]`",
        ),
    ];
    for (text, wanted) in &words {
        let mut line = Vec::new(rt.alloc());
        line.push("stm_perf")?;
        for word in text.split(' ') {
            if !word.is_empty() {
                line.push(word)?;
            }
        }
        assert_eq!(rt; plan_of(line.as_slice()), None);
        let said = wrong_word(rt.alloc(), line.as_slice())?;
        assert!(rt; said.starts_with(wanted), "{said}");
    }
    assert_eq!(rt; help_of(&["stm_perf", "--help"]), Some(Topic::All));
    assert_eq!(rt; help_of(&["stm_perf", "-V"]), Some(Topic::Version));
    assert_eq!(rt; help_of(&["stm_perf", "bank", "--help"]), None);
    assert!(rt; Topic::All.text().starts_with("usage: stm_perf WORKLOAD"));
    Ok(())
}
