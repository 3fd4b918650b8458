//! Attempts that run beside each other over the ring of write filters.
use std::test::Fail;
use test_bench_cases::Status;
use test_bench_cases::cases::{Case, check, lines, outcome, workload};

/// Traces of RingSW, each with its report.
const RING_TRACES: &[Case] = &[
    // addresses whose filters share bits in three parts of four
    (
        "alg RingSW / callers 2 / words 128",
        "tx 0 {read 1; read 2} / tx 1 {write 65 9} / schedule / go 0 2 / go 1 3 / go 0 2",
        "0 begin RingSW / 0 read 0 / 1 begin RingSW / 1 write 9 / 1 commit committed 1 / 0 read 0 / \
         0 commit readonly 1 / finish / report 1 / W 1 1 0 : 9 / R 1 0 0 : 0 0 / mem 65 9 / end",
    ),
    // a word that was read before is written
    (
        "alg RingSW / callers 2 / words 128",
        "tx 0 {read 1; read 2} / tx 1 {write 1 9} / schedule / go 0 2 / go 1 3 / go 0 2",
        "0 begin RingSW / 0 read 0 / 1 begin RingSW / 1 write 9 / 1 commit committed 1 / \
         0 read conflict filter 1 2 / 0 begin RingSW / finish / 0 drop / 0 begin RingSW / 0 read 9 / 0 read 0 / \
         0 commit readonly 1 / report 1 / W 1 1 0 : 9 / R 1 0 0 : 9 0 / mem 1 9 / end",
    ),
    // the lowest word of the filters that has a common bit isn't the first
    (
        "alg RingSW / callers 2 / words 256",
        "tx 0 {read 200; read 2} / tx 1 {write 200 9} / schedule / go 0 2 / go 1 3 / go 0 2",
        "0 begin RingSW / 0 read 0 / 1 begin RingSW / 1 write 9 / 1 commit committed 1 / \
         0 read conflict filter 1 256 / 0 begin RingSW / finish / 0 drop / 0 begin RingSW / 0 read 9 / 0 read 0 / \
         0 commit readonly 1 / report 1 / W 1 1 0 : 9 / R 1 0 0 : 9 0 / mem 200 9 / end",
    ),
    // the word that is asked for counts as read: the filters don't say that it was written before it was loaded
    (
        "alg RingSW / callers 2",
        "tx 0 {read 0; read 1} / tx 1 {write 1 9} / schedule / go 0 2 / go 1 3 / go 0 1",
        "0 begin RingSW / 0 read 0 / 1 begin RingSW / 1 write 9 / 1 commit committed 1 / \
         0 read conflict filter 1 2 / finish / 0 begin RingSW / 0 read 0 / 0 read 9 / 0 commit readonly 1 / \
         report 1 / W 1 1 0 : 9 / R 1 0 0 : 0 9 / mem 1 9 / end",
    ),
    // a commit finds that what it read was written
    (
        "alg RingSW / callers 2",
        "tx 0 {read 1; write 0 5} / tx 1 {write 1 6} / schedule / go 0 3 / go 1 3 / go 0 1",
        "0 begin RingSW / 0 read 0 / 0 write 5 / 1 begin RingSW / 1 write 6 / 1 commit committed 1 / \
         0 commit conflict filter 1 2 / finish / 0 begin RingSW / 0 read 6 / 0 write 5 / 0 commit committed 2 / \
         report 1 / W 1 1 0 : 6 / W 2 0 0 : 6 5 / mem 0 5 / mem 1 6 / end",
    ),
    // promotion: it waits for the other, and what it wrote is stored at the grant
    (
        "alg RingSW / callers 2",
        "tx 0 {read 0; write 1 5; irrev; write 2 6; emit 1} / tx 1 {write 3 4} / schedule / go 0 3 / go 1 2 / go 0 1 / go 1 1 / go 0 4",
        "0 begin RingSW / 0 read 0 / 0 write 5 / 1 begin RingSW / 1 write 4 / 0 irrev busy 1 1 / \
         1 commit committed 1 / 0 irrev granted / 0 write 6 / 0 emit 5 / 0 commit committed 2 / finish / report 1 / \
         W 1 1 0 : 4 / W 2 0 0 : 0 5 1 6 5 ! 5 / mem 1 5 / mem 2 6 / mem 3 4 / end",
    ),
    // what it read is written when it asks
    (
        "alg RingSW / callers 2",
        "tx 0 {read 1; irrev; emit 1} / tx 1 {write 1 6} / schedule / go 0 2 / go 1 3 / go 0 1",
        "0 begin RingSW / 0 read 0 / 1 begin RingSW / 1 write 6 / 1 commit committed 1 / \
         0 irrev conflict filter 1 2 / finish / 0 begin RingSW / 0 read 6 / 0 irrev granted / 0 emit 6 / \
         0 commit readonly 1 / report 1 / W 1 1 0 : 6 / R 1 0 0 : 6 1 6 ! 6 / mem 1 6 / end",
    ),
    // a full write log
    (
        "alg RingSW / writes 2",
        "tx 0 {write 0 1; write 1 2; write 0 4; write 2 3}",
        "finish / 0 begin RingSW / 0 write 1 / 0 write 2 / 0 write 4 / 0 write full 2 / 0 begin RingSW / \
         0 irrev granted / 0 write 1 / 0 write 2 / 0 write 4 / 0 write 3 / 0 commit committed 1 / report 1 / \
         W 1 0 0 : 1 2 4 3 / mem 0 4 / mem 1 2 / mem 2 3 / end",
    ),
    // a cancelled attempt leaves nothing
    (
        "alg RingSW",
        "tx 0 {write 0 5; read 0; cancel} / tx 0 {read 0}",
        "finish / 0 begin RingSW / 0 write 5 / 0 read 5 / 0 cancel cancelled 0 / 0 begin RingSW / 0 read 0 / \
         0 commit readonly 0 / report 1 / C 0 0 0 : 5 5 1 / R 0 0 1 : 0 / end",
    ),
];

#[test]
fn runs_ring_attempts_beside_each_other(rt: HostRuntime) -> Result<(), Fail> {
    check(&rt, rt.alloc(), "step", Status::Ok, RING_TRACES)
}

/// Traces of RingSW that end at a full clock.
const CUT_RING_TRACES: &[Case] = &[
    (
        "alg RingSW / clock 4611686018427387903",
        "tx 0 {write 0 1} / tx 0 {write 0 2}",
        "finish / 0 begin RingSW / 0 write 1 / 0 commit committed 4611686018427387904 / 0 begin RingSW / \
         0 write 2 / 0 commit clockfull 4611686018427387904 / clock full 4611686018427387904",
    ),
    (
        "alg RingSW / clock 4611686018427387904",
        "tx 0 {read 0; irrev}",
        "finish / 0 begin RingSW / 0 read 0 / 0 irrev clockfull 4611686018427387904 / clock full 4611686018427387904",
    ),
];

#[test]
fn ends_a_ring_trace_at_a_full_clock(rt: HostRuntime) -> Result<(), Fail> {
    let clock = 4611686018427387904;
    check(
        &rt,
        rt.alloc(),
        "step",
        Status::ClockFull { clock },
        CUT_RING_TRACES,
    )
}

/// Over a ring of four slots: how many transactions write beside an attempt that has read, and how that goes on.
const OVERRUNS: &[(u64, &str)] = &[
    (2, "0 read 0 / 0 commit readonly 2"),
    (3, "0 read 0 / 0 commit readonly 3"),
    (4, "0 read conflict overrun 0 4 / 0 begin RingSW"),
    (5, "0 read conflict overrun 0 5 / 0 begin RingSW"),
    (6, "0 read conflict overrun 0 6 / 0 begin RingSW"),
];

#[test]
fn is_overrun_by_a_ring_of_writes(rt: HostRuntime) -> Result<(), Fail> {
    for (count, said) in OVERRUNS {
        let alloc = rt.alloc();
        let writes = " / tx 1 {write 2 7}".repeat(alloc, *count as usize)?;
        let turns = 3 * *count;
        let body = format!(in alloc;
            "tx 0 {{read 1; read 3}}{writes} / schedule / go 0 2 / go 1 {turns} / go 0 2"
        )?;
        let text = workload(alloc, "alg RingSW / callers 2", body.as_str())?;
        let (status, held) = outcome(&rt, alloc, &["stm_bench", "step"], text.as_str(), &[], 4096)?;
        let last = format!(in alloc; "{said} / finish")?;
        assert_eq!(rt; status, Status::Ok);
        assert!(rt;
            held.contains(lines(alloc, last.as_str())?.as_str()),
            "{held}"
        );
    }
    Ok(())
}
