//! Clocks that come to their limit: the call that finds it, and what others left open then.
use crate::cases::{LIMIT, NAMES, ROOM};
use std::alloc::Global;
use std::process::Abort;
use std::sync::Wait;
use std::test::Fail;
use std::thread::Threads;
use test_bench_cases::cases::{lines, outcome, workload};
use work_bench::status::Status;

const FULL: Status = Status::ClockFull { clock: LIMIT };

/// At a clock one below the limit: the algorithm, the transaction after one that wrote, and its last lines.
const SECONDS: [(&str, &str, &str); 12] = [
    ("OrecLazy", "write 0 2", "0 write 2 / 0 commit clockfull"),
    ("RingSW", "write 0 2", "0 write 2 / 0 commit clockfull"),
    ("OrecEager", "write 0 2", "0 write clockfull"),
    ("Serial", "write 0 2", "0 write clockfull"),
    ("OrecLazy", "irrev; write 0 2", "0 irrev clockfull"),
    ("OrecEager", "irrev; write 0 2", "0 irrev clockfull"),
    ("RingSW", "irrev; write 0 2", "0 irrev clockfull"),
    ("Serial", "irrev; write 0 2", "0 irrev clockfull"),
    (
        "OrecLazy",
        "read 0; add 0 1",
        "0 read 1 / 0 add 2 / 0 commit clockfull",
    ),
    (
        "RingSW",
        "read 0; add 0 1",
        "0 read 1 / 0 add 2 / 0 commit clockfull",
    ),
    ("OrecEager", "read 0; add 0 1", "0 read 1 / 0 add clockfull"),
    ("Serial", "read 0; add 0 1", "0 read 1 / 0 add clockfull"),
];

#[test]
fn a_second_write_finds_the_clock_full(rt: HostRuntime) -> Result<(), Fail> {
    let alloc = rt.alloc();
    for (name, second, last) in SECONDS {
        let changes = format!(in alloc; "alg {name} / clock 4611686018427387903")?;
        let body = format!(in alloc; "tx 0 {{write 0 1}} / tx 0 {{{second}}}")?;
        let said = format!(in alloc;
            "finish / 0 begin {name} / 0 write 1 / 0 commit committed {LIMIT} / 0 begin {name} / {last} {LIMIT} / clock full {LIMIT}"
        )?;
        let text = workload(alloc, changes.as_str(), body.as_str())?;
        let (status, held) = outcome(&rt, alloc, &["stm_bench", "step"], text.as_str(), &[], ROOM)?;
        assert_eq!(rt; (name, held), (name, lines(alloc, said.as_str())?));
        assert_eq!(rt; (name, status), (name, FULL));
    }
    Ok(())
}

/// What caller 0 does: more commits than there is room for, from three below the limit.
const WRITES: &str = "tx 0 {write 0 1} / tx 0 {write 0 2} / tx 0 {write 0 3} / tx 0 {write 0 4}";

/// The number of callers, what caller 1 has to do, and the turns in which it leaves that open: an attempt that has
/// read, has written, is promoted, or a closing; it does so before caller 0 begins, and between its transactions.
const OPENINGS: [(u32, &str, &str); 8] = [
    (1, "", " / schedule / go 0 2"),
    (2, "", " / schedule / go 0 2"),
    (
        2,
        " / tx 1 {read 0; write 1 7}",
        " / schedule / go 1 2 / go 0 20",
    ),
    (
        2,
        " / tx 1 {write 1 7; read 0}",
        " / schedule / go 1 2 / go 0 20",
    ),
    (
        2,
        " / tx 1 {read 1; irrev; write 1 7}",
        " / schedule / go 1 3 / go 0 20",
    ),
    (2, " / switch 1 ALG", " / schedule / go 1 1 / go 0 20"),
    (
        2,
        " / tx 1 {write 1 7; read 0}",
        " / schedule / go 0 3 / go 1 2 / go 0 20",
    ),
    (
        2,
        " / switch 1 ALG",
        " / schedule / go 0 1 / go 1 2 / go 0 20",
    ),
];

/// How many commits that write there is room for. An install of TML makes the clock even, and each raises it by two.
fn room(name: &str, clock: u64) -> usize {
    let left = LIMIT.saturating_sub(clock) as usize;
    if name == "TML" { left / 2 } else { left }
}

/// Checks a trace that a full clock ends: it has so many commits, each later than the one before and none after
/// the limit, and one line that found the clock full, the last one.
fn check_trace(rt: &impl Abort, held: &str, room: usize) -> Result<(), Fail> {
    let mut commits = 0usize;
    let mut latest = 0u64;
    let mut full = 0usize;
    for line in held.lines() {
        assert_eq!(rt; (held, full > 0), (held, line.starts_with("clock full")));
        if let Some((_, time)) = line.split_once(" commit committed ") {
            let time = time.parse::<u64>()?;
            assert!(rt; latest < time && time <= LIMIT, "{held}");
            latest = time;
            commits = commits.saturating_add(1);
        }
        if line.contains(" clockfull ") {
            full = full.saturating_add(1);
        }
    }
    assert_eq!(rt; (held, (commits, full)), (held, (room, 1)));
    assert!(rt;
        held.ends_with("\nclock full 4611686018427387904\n"),
        "{held}"
    );
    Ok(())
}

/// Under this algorithm, with the clock so far below the limit.
fn check_openings(
    rt: &(impl Threads + Wait + Abort + Sync),
    alloc: Global,
    name: &str,
    below: u64,
) -> Result<(), Fail> {
    let clock = LIMIT.saturating_sub(below);
    for (callers, other, schedule) in OPENINGS {
        let changes = format!(in alloc; "callers {callers} / alg {name} / clock {clock}")?;
        let other = other.replace(alloc, "ALG", name)?;
        let items = format!(in alloc; "{WRITES}{other}")?;
        let body = format!(in alloc; "{items}{schedule}")?;
        let text = workload(alloc, changes.as_str(), body.as_str())?;
        let (status, held) = outcome(rt, alloc, &["stm_bench", "step"], text.as_str(), &[], ROOM)?;
        check_trace(rt, held.as_str(), room(name, clock))?;
        assert_eq!(rt; (name, clock, status), (name, clock, FULL));

        let text = workload(alloc, changes.as_str(), items.as_str())?;
        let (status, held) = outcome(rt, alloc, &["stm_bench", "run"], text.as_str(), &[], ROOM)?;
        assert_eq!(rt; held.as_str(), "clock full 4611686018427387904\n");
        assert_eq!(rt; (name, clock, status), (name, clock, FULL));
    }
    Ok(())
}

#[test]
fn commits_fill_the_clock_whatever_is_open(rt: HostRuntime) -> Result<(), Fail> {
    for name in NAMES {
        for below in 0..4 {
            check_openings(&rt, rt.alloc(), name, below)?;
        }
    }
    Ok(())
}
