//! `run --policy`: caller 0 switches by what its attempts came to.
use std::alloc::Global;
use std::test::Fail;
use test_bench_cases::cases::{header, lines, outcome, workload};
use work_bench::status::Status;

/// A policy, and the report of a workload of CGL under it.
const REPORTS: &[(&str, &str)] = &[
    // the second transaction is TML's, whose install evens the clock to 2, and the third is OrecLazy's
    (
        "round:1",
        "report 1 / W 1 0 0 : 1 / W 4 0 1 : 2 / R 4 0 2 : 2 / mem 3 2 / end",
    ),
    (
        "fixed",
        "report 1 / W 1 0 0 : 1 / W 2 0 1 : 2 / R 2 0 2 : 2 / mem 3 2 / end",
    ),
];

#[test]
fn places_tell_the_switches(rt: HostRuntime) -> Result<(), Fail> {
    let text = workload(
        rt.alloc(),
        "",
        "tx 0 {add 3 1} / tx 0 {add 3 1} / tx 0 {read 3}",
    )?;
    for (policy, said) in REPORTS {
        let words = ["stm_bench", "run", "--policy", *policy];
        let (status, held) = outcome(&rt, rt.alloc(), &words, text.as_str(), &[], 4096)?;
        assert_eq!(rt; (policy, held), (policy, lines(rt.alloc(), said)?));
        assert_eq!(rt; (policy, status), (policy, Status::Ok));
    }
    Ok(())
}

/// The text of a workload in which 4 callers add 1 to words 3 and 4, 200 times each.
fn contended(alloc: Global) -> Result<String, Fail> {
    let round = lines(
        alloc,
        "tx 0 {add 3 1; add 4 1} / tx 1 {read 4; add 3 1; add 4 1} / tx 2 {add 4 1; add 3 1} / tx 3 {read 3; add 4 1; add 3 1}",
    )?;
    let mut text = header(alloc, "callers 4 / alg OrecLazy")?;
    text.push_str(round.repeat(alloc, 200)?.as_str())?;
    text.push_str("done\n")?;
    Ok(text)
}

#[test]
fn sums_the_adds_under_each_policy(rt: HostRuntime) -> Result<(), Fail> {
    let text = contended(rt.alloc())?;
    for policy in [
        "fixed", "round:1", "round:20", "expert", "state:1", "state:16",
    ] {
        let words = ["stm_bench", "run", "--policy", policy];
        let (status, held) = outcome(&rt, rt.alloc(), &words, text.as_str(), &[], 200000)?;
        assert_eq!(rt; (policy, status), (policy, Status::Ok));
        assert!(rt; held.starts_with("report 1\nW "), "{policy}");
        assert!(rt; held.ends_with("\nmem 3 800\nmem 4 800\nend\n"), "{policy}");
    }
    Ok(())
}
