//! `run` with several callers, each on a thread.
use std::alloc::Global;
use std::test::Fail;
use test_bench_cases::cases::{header, lines, outcome, workload};
use work_bench::status::Status;

const RUN: &[&str] = &["stm_bench", "run"];

/// The text of a workload of so many callers, each of which has so many transactions of 20 additions of 1 to
/// word 3.
fn adds(alloc: Global, callers: usize, clock: u64, times: usize) -> Result<String, Fail> {
    let additions = "add 3 1\n".repeat(alloc, 20)?;
    let changes = format!(in alloc; "callers {callers} / clock {clock}")?;
    let mut text = header(alloc, changes.as_str())?;
    for _ in 0..times {
        for caller in 0..callers {
            let item = format!(in alloc; "tx {caller}\n{additions}end\n")?;
            text.push_str(item.as_str())?;
        }
    }
    text.push_str("done\n")?;
    Ok(text)
}

#[test]
fn sums_the_adds_of_32_callers(rt: HostRuntime) -> Result<(), Fail> {
    let text = adds(rt.alloc(), 32, 0, 50)?;
    for _ in 0..3 {
        let (status, held) = outcome(&rt, rt.alloc(), RUN, text.as_str(), &[], 2000000)?;
        assert_eq!(rt; status, Status::Ok);
        assert!(rt; held.starts_with("report 1\nW 1 "));
        assert!(rt; held.ends_with("\nmem 3 32000\nend\n"));
    }
    Ok(())
}

/// The algorithms that callers 2 and 3 install, one after the other.
const TARGETS: &[(&str, &str)] = &[
    ("TML", "Serial"),
    ("OrecLazy", "CGL"),
    ("RingSW", "OrecEager"),
    ("CGL", "OrecLazy"),
    ("OrecEager", "RingSW"),
];

/// The text of a workload in which callers 0 and 1 add 1 to words 3 and 4, 2,000 times in all and irrevocably
/// every other time, while callers 2 and 3 make 1,000 switches.
fn adds_under_switches(alloc: Global) -> Result<String, Fail> {
    let mut text = header(alloc, "callers 4 / alg Serial")?;
    for _ in 0..100 {
        for (second, third) in TARGETS {
            let round = format!(in alloc;
                "tx 0 {{add 3 1; add 4 1}} / tx 0 {{irrev; add 3 1; add 4 1; emit 3}} / tx 1 {{read 3; irrev; add 3 1; add 4 1}} / tx 1 {{read 3; add 3 1; add 4 1}} / switch 2 {second} / switch 3 {third}"
            )?;
            text.push_str(lines(alloc, round.as_str())?.as_str())?;
        }
    }
    text.push_str("done\n")?;
    Ok(text)
}

#[test]
fn sums_the_adds_under_switches(rt: HostRuntime) -> Result<(), Fail> {
    let text = adds_under_switches(rt.alloc())?;
    let (status, held) = outcome(&rt, rt.alloc(), RUN, text.as_str(), &[], 2000000)?;
    assert_eq!(rt; status, Status::Ok);
    assert!(rt; held.starts_with("report 1\nW "));
    assert!(rt; held.ends_with("\nmem 3 2000\nmem 4 2000\nend\n"));
    Ok(())
}

/// The text of a workload in which 8 callers move amounts between 64 accounts 20,000 times; caller 0 first puts 1,000
/// on each.
fn moves(alloc: Global, alg: &str) -> Result<String, Fail> {
    let changes = format!(in alloc; "callers 8 / words 64 / records 16 / alg {alg}")?;
    let mut text = header(alloc, changes.as_str())?;
    text.push_str("tx 0\n")?;
    for account in 0..64u64 {
        let write = format!(in alloc; "write {account} 1000\n")?;
        text.push_str(write.as_str())?;
    }
    text.push_str("end\n")?;
    for i in 0..20000u64 {
        let (caller, from, to, amount) = (i % 8, i / 3 % 64, i / 5 % 64, i % 100);
        let item = format!(in alloc; "tx {caller}\nmove {from} {to} {amount}\nend\n")?;
        text.push_str(item.as_str())?;
    }
    text.push_str("done\n")?;
    Ok(text)
}

/// The sum of a report's words.
fn sum_of(report: &str) -> u64 {
    let mut sum: u64 = 0;
    for line in report.lines() {
        let Some(cell) = line.strip_prefix("mem ") else {
            continue;
        };
        if let Some((_, word)) = cell.split_once(' ') {
            sum = sum.wrapping_add(word.parse::<u64>().unwrap_or(0));
        }
    }
    sum
}

#[test]
fn keeps_the_sum_of_64_accounts(rt: HostRuntime) -> Result<(), Fail> {
    for alg in ["OrecLazy", "OrecEager", "RingSW"] {
        let text = moves(rt.alloc(), alg)?;
        let (status, held) = outcome(&rt, rt.alloc(), RUN, text.as_str(), &[], 2000000)?;
        assert_eq!(rt; status, Status::Ok);
        assert_eq!(rt; (alg, sum_of(held.as_str())), (alg, 64000));
    }
    Ok(())
}

#[test]
fn finds_the_clock_full_with_several_callers(rt: HostRuntime) -> Result<(), Fail> {
    let limit = 4611686018427387904;
    let full = Status::ClockFull { clock: limit };
    let table = [
        (limit, 1, full, "clock full 4611686018427387904\n"),
        (limit - 2, 1, full, "clock full 4611686018427387904\n"),
        (limit, 0, Status::Ok, "report 1\nend\n"),
    ];
    for (clock, times, status, said) in table {
        let text = adds(rt.alloc(), 3, clock, times)?;
        let (ended, held) = outcome(&rt, rt.alloc(), RUN, text.as_str(), &[], 4096)?;
        assert_eq!(rt; ended, status);
        assert_eq!(rt; held.as_str(), said);
    }
    Ok(())
}

#[test]
fn leaves_an_idle_caller_alone(rt: HostRuntime) -> Result<(), Fail> {
    let text = workload(rt.alloc(), "callers 3", "tx 2 {add 3 5} / tx 2 {read 3}")?;
    let (status, held) = outcome(&rt, rt.alloc(), RUN, text.as_str(), &[], 4096)?;
    assert_eq!(rt; status, Status::Ok);
    assert_eq!(rt;
        held.as_str(),
        "report 1\nW 1 2 0 : 5\nR 1 2 1 : 5\nmem 3 5\nend\n"
    );
    Ok(())
}
