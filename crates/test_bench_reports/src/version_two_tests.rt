//! Workloads of version 2: reports, refusals, the text's policy, and longer logs.
use std::test::Fail;
use test_bench_cases::Status;
use test_bench_cases::cases::{lines, outcome, workload_two};

/// The lines of a header between `words` and `regions`.
const SIZES: &str =
    "callers 1 / records 4 / ring 4 / reads 256 / writes 256 / clock 0 / alg OrecLazy";

/// Regions and policy, a body, and the report.
const REPORTS: &[(&str, &str, &str)] = &[
    (
        "regions 2 / region list 100 4 / region list 200 4 / policy fixed",
        "tx 0 {ladd 0 5; ladd 1 7; lhas 1 5; llen 0} / reserve 0 512 512 / tx 0 {write 1048575 3}",
        "report 1 / W 1 0 0 : 1 1 0 1 / W 2 0 1 : 3 / mem 100 1 / mem 101 6 / mem 200 1 / mem 201 8 / mem 1048575 3 / end",
    ),
    (
        "regions 2 / region queue 100 2 / region summap 200 8 / policy fixed",
        "tx 0 {qput 0 5; qput 0 6; qput 0 7; qget 0; qput 0 7} / \
         tx 0 {mput 1 10 3; mput 1 4 2; mput 1 20 5; msum 1 5 20; mdel 1 10; msum 1 0 4294967295}",
        "report 1 / W 1 0 0 : 1 1 2 6 1 / W 2 0 1 : 1 1 1 8 1 7 / mem 100 1 / mem 101 2 / mem 102 7 / mem 103 6 / \
         mem 200 1 / mem 201 21 / mem 202 2 / mem 204 5 / mem 205 7 / mem 206 5 / mem 209 2 / mem 210 2 / end",
    ),
    (
        "regions 2 / region queue 100 2 / region summap 200 8 / policy fixed",
        "tx 0 {qget 0; qget 0}",
        "report 1 / R 0 0 0 : 0 0 / end",
    ),
    // a value replaced, one that is absent, bounds that cross, and what is full
    (
        "regions 2 / region summap 0 1 / region queue 6 1 / policy fixed",
        "tx 0 {mput 0 7 3; mput 0 7 18446744073709551615; mput 0 8 1; mget 0 7; mget 0 8; mdel 0 8; msum 0 7 7; \
         msum 0 8 7; qput 1 4294967295; qput 1 0; qget 1; qget 1}",
        "report 1 / W 1 0 0 : 1 0 2 18446744073709551615 0 0 18446744073709551615 0 1 2 4294967296 0 / mem 0 1 / \
         mem 1 8 / mem 4 18446744073709551615 / mem 5 18446744073709551615 / end",
    ),
    // the list between the last of a counter's stripes and the heap's end
    (
        "regions 2 / region counter 0 64 / region list 1048567 4 / policy fixed",
        "tx 0 {count 0 63 9; total 0; ladd 1 3; ladd 1 2; ladd 1 1; ladd 1 0; ladd 1 9}",
        "report 1 / W 1 0 0 : 9 9 1 1 1 1 2 / mem 63 9 / mem 1048567 4 / mem 1048568 4 / mem 1048570 3 / \
         mem 1048571 1 / mem 1048572 2 / mem 1048573 2 / mem 1048574 1 / mem 1048575 3 / end",
    ),
    // the text's policy: caller 0 goes round
    (
        "regions 0 / policy round:1",
        "tx 0 {add 3 1} / tx 0 {add 3 1} / tx 0 {read 3}",
        "report 1 / W 1 0 0 : 1 / W 2 0 1 : 2 / R 2 0 2 : 2 / mem 3 2 / end",
    ),
];

#[test]
fn writes_reports(rt: HostRuntime) -> Result<(), Fail> {
    let alloc = rt.alloc();
    for (regions, body, said) in REPORTS {
        let rest = format!(in alloc; "{SIZES} / {regions}")?;
        let text = workload_two(alloc, 1_048_576, rest.as_str(), body)?;
        let (status, held) = outcome(&rt, alloc, &["stm_bench", "run"], text.as_str(), &[], 4096)?;
        assert_eq!(rt; (body, held), (body, lines(alloc, said)?));
        assert_eq!(rt; (body, status), (body, Status::Ok));
    }
    Ok(())
}

/// Regions and policy, a body, and where they are refused.
const REFUSALS: &[(&str, &str, &str)] = &[
    (
        "regions 2 / region list 100 4 / region list 104 4 / policy fixed",
        "",
        "refused 12 8 region",
    ),
    ("regions 17", "", "refused 10 6 range"),
    (
        "regions 2 / region list 100 4 / region list 200 4 / policy fixed",
        "tx 0 {write 101 1}",
        "refused 15 8 region",
    ),
    ("regions 0 / policy round:0", "", "refused 11 6 range"),
];

#[test]
fn refuses_texts(rt: HostRuntime) -> Result<(), Fail> {
    let alloc = rt.alloc();
    for (regions, body, said) in REFUSALS {
        let rest = format!(in alloc; "{SIZES} / {regions}")?;
        let text = workload_two(alloc, 1_048_576, rest.as_str(), body)?;
        let (_, held) = outcome(&rt, alloc, &["stm_bench", "run"], text.as_str(), &[], 4096)?;
        assert_eq!(rt; (regions, body, held), (regions, body, lines(alloc, said)?));
    }
    Ok(())
}

/// With logs of one place: a transaction that takes two is full, and one after longer logs isn't.
#[test]
fn lengthens_logs(rt: HostRuntime) -> Result<(), Fail> {
    let alloc = rt.alloc();
    let rest =
        "callers 1 / records 4 / ring 4 / reads 1 / writes 1 / clock 0 / alg OrecLazy / regions 0 / policy fixed";
    let text = workload_two(
        alloc,
        8,
        rest,
        "tx 0 {write 0 1; write 1 2} / reserve 0 1 2 / tx 0 {write 0 3; write 1 4} / reserve 0 1 1 / tx 0 {write 2 5; write 3 6}",
    )?;
    let (_, held) = outcome(&rt, alloc, &["stm_bench", "step"], text.as_str(), &[], 4096)?;
    let said =
        "finish / 0 begin OrecLazy / 0 write 1 / 0 write full 1 / 0 begin OrecLazy / 0 irrev granted / 0 write 1 / \
         0 write 2 / 0 commit committed 1 / 0 reserve 1 2 / 0 begin OrecLazy / 0 write 3 / 0 write 4 / \
         0 commit committed 2 / 0 reserve 1 1 / 0 begin OrecLazy / 0 write 5 / 0 write 6 / 0 commit committed 3 / \
         report 1 / W 1 0 0 : 1 2 / W 2 0 1 : 3 4 / W 3 0 2 : 5 6 / mem 0 3 / mem 1 4 / mem 2 5 / mem 3 6 / end";
    assert_eq!(rt; held, lines(alloc, said)?);
    Ok(())
}

/// Under `step` the text's policy has caller 0 take a switch after a transaction.
#[test]
fn switches_by_the_texts_policy(rt: HostRuntime) -> Result<(), Fail> {
    let alloc = rt.alloc();
    let rest =
        "callers 1 / records 4 / ring 4 / reads 256 / writes 256 / clock 0 / alg CGL / regions 0 / policy round:1";
    let text = workload_two(alloc, 8, rest, "tx 0 {add 3 1} / tx 0 {add 3 1}")?;
    let (_, held) = outcome(&rt, alloc, &["stm_bench", "step"], text.as_str(), &[], 4096)?;
    let said =
        "finish / 0 begin CGL / 0 add 1 / 0 commit committed 1 / 0 close closed / 0 look quiet / 0 install TML / \
         0 begin TML / 0 add 2 / 0 commit committed 4 / 0 close closed / 0 look quiet / 0 install OrecLazy / \
         report 1 / W 1 0 0 : 1 / W 4 0 1 : 2 / mem 3 2 / end";
    assert_eq!(rt; held, lines(alloc, said)?);
    Ok(())
}
