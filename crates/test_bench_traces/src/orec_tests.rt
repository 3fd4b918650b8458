//! Attempts that run beside each other over versioned records.
use std::test::Fail;
use test_bench_cases::Status;
use test_bench_cases::cases::{Case, check, outcome, workload};

/// Traces of OrecLazy, each with its report.
const LAZY_TRACES: &[Case] = &[
    // a start moves to a later clock where all reads are still valid there
    (
        "alg OrecLazy / callers 2",
        "tx 0 {read 0; read 1} / tx 1 {write 1 9} / schedule / go 0 2 / go 1 3 / go 0 2",
        "0 begin OrecLazy / 0 read 0 / 1 begin OrecLazy / 1 write 9 / 1 commit committed 1 / 0 read 9 / \
         0 commit readonly 1 / finish / report 1 / W 1 1 0 : 9 / R 1 0 0 : 0 9 / mem 1 9 / end",
    ),
    // a word that was read before has changed
    (
        "alg OrecLazy / callers 2",
        "tx 0 {read 0; read 1} / tx 1 {write 0 9; write 1 9} / schedule / go 0 2 / go 1 4 / go 0 1",
        "0 begin OrecLazy / 0 read 0 / 1 begin OrecLazy / 1 write 9 / 1 write 9 / 1 commit committed 1 / \
         0 read conflict record 0 2 0 / finish / 0 begin OrecLazy / 0 read 9 / 0 read 9 / 0 commit readonly 1 / \
         report 1 / W 1 1 0 : 9 9 / R 1 0 0 : 9 9 / mem 0 9 / mem 1 9 / end",
    ),
    // a commit that finds the clock moved is tried again with its records in hand
    (
        "alg OrecLazy / callers 2",
        "tx 0 {write 0 5} / tx 1 {write 1 6} / schedule / go 0 2 / go 1 3 / go 0 2",
        "0 begin OrecLazy / 0 write 5 / 1 begin OrecLazy / 1 write 6 / 1 commit committed 1 / \
         0 commit again 0 0 1 / 0 commit committed 2 / finish / report 1 / W 1 1 0 : 6 / W 2 0 0 : 5 / mem 0 5 / \
         mem 1 6 / end",
    ),
    // what it read has changed when it is tried again
    (
        "alg OrecLazy / callers 3",
        "tx 0 {read 1; write 0 5} / tx 1 {write 2 6} / tx 2 {write 1 7} / schedule / go 0 3 / go 1 3 / go 0 1 / go 2 3 / go 0 1",
        "0 begin OrecLazy / 0 read 0 / 0 write 5 / 1 begin OrecLazy / 1 write 6 / 1 commit committed 1 / \
         0 commit again 0 0 1 / 2 begin OrecLazy / 2 write 7 / 2 commit committed 2 / \
         0 commit conflict record 1 4 0 / finish / 0 begin OrecLazy / 0 read 7 / 0 write 5 / 0 commit committed 3 / \
         report 1 / W 1 1 0 : 6 / W 2 2 0 : 7 / W 3 0 0 : 7 5 / mem 0 5 / mem 1 7 / mem 2 6 / end",
    ),
    // a commit under way is cancelled after the schedule, and gives its record back
    (
        "alg OrecLazy / callers 2",
        "tx 0 {write 0 5} / tx 1 {write 1 6} / schedule / go 0 2 / go 1 3 / go 0 1",
        "0 begin OrecLazy / 0 write 5 / 1 begin OrecLazy / 1 write 6 / 1 commit committed 1 / \
         0 commit again 0 0 1 / finish / 0 drop / 0 begin OrecLazy / 0 write 5 / 0 commit committed 2 / report 1 / \
         W 1 1 0 : 6 / W 2 0 0 : 5 / mem 0 5 / mem 1 6 / end",
    ),
    // while a commit is under way its record is another's conflict
    (
        "alg OrecLazy / callers 3",
        "tx 0 {write 0 5} / tx 1 {write 1 6} / tx 2 {read 4} / schedule / go 0 2 / go 1 3 / go 0 1 / go 2 2 / go 0 1",
        "0 begin OrecLazy / 0 write 5 / 1 begin OrecLazy / 1 write 6 / 1 commit committed 1 / \
         0 commit again 0 0 1 / 2 begin OrecLazy / 2 read conflict record 0 1 1 / 0 commit committed 2 / finish / \
         2 begin OrecLazy / 2 read 0 / 2 commit readonly 2 / report 1 / W 1 1 0 : 6 / W 2 0 0 : 5 / R 2 2 0 : 0 / \
         mem 0 5 / mem 1 6 / end",
    ),
    // two addresses share a record
    (
        "alg OrecLazy / callers 2",
        "tx 0 {read 3; read 7} / tx 1 {write 7 9} / schedule / go 0 2 / go 1 3 / go 0 1",
        "0 begin OrecLazy / 0 read 0 / 1 begin OrecLazy / 1 write 9 / 1 commit committed 1 / \
         0 read conflict record 3 2 0 / finish / 0 begin OrecLazy / 0 read 0 / 0 read 9 / 0 commit readonly 1 / \
         report 1 / W 1 1 0 : 9 / R 1 0 0 : 0 9 / mem 7 9 / end",
    ),
    // an install finds records of older times
    (
        "alg CGL",
        "tx 0 {write 0 5} / switch 0 OrecLazy / tx 0 {read 0}",
        "finish / 0 begin CGL / 0 write 5 / 0 commit committed 1 / 0 close closed / 0 look quiet / \
         0 install OrecLazy / 0 begin OrecLazy / 0 read 5 / 0 commit readonly 1 / report 1 / W 1 0 0 : 5 / \
         R 1 0 1 : 5 / mem 0 5 / end",
    ),
    (
        "alg OrecLazy",
        "tx 0 {write 0 5} / switch 0 CGL / tx 0 {write 1 6} / switch 0 OrecLazy / tx 0 {add 0 1; add 1 1; add 4 1}",
        "finish / 0 begin OrecLazy / 0 write 5 / 0 commit committed 1 / 0 close closed / 0 look quiet / \
         0 install CGL / 0 begin CGL / 0 write 6 / 0 commit committed 2 / 0 close closed / 0 look quiet / \
         0 install OrecLazy / 0 begin OrecLazy / 0 add 6 / 0 add 7 / 0 add 1 / 0 commit committed 3 / report 1 / \
         W 1 0 0 : 5 / W 2 0 1 : 6 / W 3 0 2 : 6 7 1 / mem 0 6 / mem 1 7 / mem 4 1 / end",
    ),
    // a switch waits for a commit under way
    (
        "alg OrecLazy / callers 3",
        "tx 0 {write 0 5} / tx 1 {write 1 6} / switch 1 TML / tx 2 {read 0} / schedule / go 0 2 / go 1 3 / go 0 1 / \
         go 1 2 / go 2 1 / go 0 1 / go 1 2",
        "0 begin OrecLazy / 0 write 5 / 1 begin OrecLazy / 1 write 6 / 1 commit committed 1 / \
         0 commit again 0 0 1 / 1 close closed / 1 look busy 0 1 / 2 begin closed 514 / 0 commit committed 2 / \
         1 look quiet / 1 install TML / finish / 2 begin TML / 2 read 5 / 2 commit readonly 2 / report 1 / \
         W 1 1 0 : 6 / W 2 0 0 : 5 / R 2 2 0 : 5 / mem 0 5 / mem 1 6 / end",
    ),
    // a full write log: the attempt after it is irrevocable and needs none
    (
        "alg OrecLazy / writes 2",
        "tx 0 {write 0 1; write 1 2; write 2 3; irrev; emit 2}",
        "finish / 0 begin OrecLazy / 0 write 1 / 0 write 2 / 0 write full 2 / 0 begin OrecLazy / 0 irrev granted / \
         0 write 1 / 0 write 2 / 0 write 3 / 0 irrev granted / 0 emit 3 / 0 commit committed 1 / report 1 / \
         W 1 0 0 : 1 2 3 1 3 ! 3 / mem 0 1 / mem 1 2 / mem 2 3 / end",
    ),
    // and a full read log
    (
        "alg OrecLazy / reads 1",
        "tx 0 {read 0; read 0; write 1 7; read 1; read 2}",
        "finish / 0 begin OrecLazy / 0 read 0 / 0 read 0 / 0 write 7 / 0 read 7 / 0 read full 1 / \
         0 begin OrecLazy / 0 irrev granted / 0 read 0 / 0 read 0 / 0 write 7 / 0 read 7 / 0 read 0 / \
         0 commit committed 1 / report 1 / W 1 0 0 : 0 0 7 7 0 / mem 1 7 / end",
    ),
    // two want to be irrevocable: one waits for the other, which makes way; what it wrote is stored at the grant
    (
        "alg OrecLazy / callers 2",
        "tx 0 {write 0 5; write 0 7; irrev; write 1 6; emit 0} / tx 1 {read 2; irrev; write 0 3} / schedule / \
         go 0 3 / go 1 2 / go 0 1 / go 1 1 / go 0 4",
        "0 begin OrecLazy / 0 write 5 / 0 write 7 / 1 begin OrecLazy / 1 read 0 / 0 irrev busy 1 1 / \
         1 irrev taken 258 / 0 irrev granted / 0 write 6 / 0 emit 7 / 0 commit committed 1 / finish / \
         1 begin OrecLazy / 1 read 0 / 1 irrev granted / 1 write 3 / 1 commit committed 2 / report 1 / \
         W 1 0 0 : 5 7 1 6 7 ! 7 / W 2 1 0 : 0 1 3 / mem 0 3 / mem 1 6 / end",
    ),
    // what it read has changed when it asks
    (
        "alg OrecLazy / callers 2",
        "tx 0 {read 1; irrev; emit 1} / tx 1 {write 1 6} / schedule / go 0 2 / go 1 3 / go 0 2",
        "0 begin OrecLazy / 0 read 0 / 1 begin OrecLazy / 1 write 6 / 1 commit committed 1 / \
         0 irrev conflict record 1 2 0 / 0 begin OrecLazy / finish / 0 drop / 0 begin OrecLazy / 0 read 6 / \
         0 irrev granted / 0 emit 6 / 0 commit readonly 1 / report 1 / W 1 1 0 : 6 / R 1 0 0 : 6 1 6 ! 6 / \
         mem 1 6 / end",
    ),
    // a cancelled attempt leaves nothing
    (
        "alg OrecLazy",
        "tx 0 {write 0 5; read 0; cancel} / tx 0 {read 0}",
        "finish / 0 begin OrecLazy / 0 write 5 / 0 read 5 / 0 cancel cancelled 0 / 0 begin OrecLazy / 0 read 0 / \
         0 commit readonly 0 / report 1 / C 0 0 0 : 5 5 1 / R 0 0 1 : 0 / end",
    ),
];

#[test]
fn runs_lazy_attempts_beside_each_other(rt: HostRuntime) -> Result<(), Fail> {
    check(&rt, rt.alloc(), "step", Status::Ok, LAZY_TRACES)
}

/// Traces of OrecLazy that end at a full clock.
const CUT_LAZY_TRACES: &[Case] = &[
    (
        "alg OrecLazy / clock 4611686018427387903",
        "tx 0 {write 0 1} / tx 0 {write 0 2}",
        "finish / 0 begin OrecLazy / 0 write 1 / 0 commit committed 4611686018427387904 / 0 begin OrecLazy / \
         0 write 2 / 0 commit clockfull 4611686018427387904 / clock full 4611686018427387904",
    ),
    (
        "alg OrecLazy / clock 4611686018427387903",
        "tx 0 {write 0 1} / tx 0 {irrev; write 0 2}",
        "finish / 0 begin OrecLazy / 0 write 1 / 0 commit committed 4611686018427387904 / 0 begin OrecLazy / \
         0 irrev clockfull 4611686018427387904 / clock full 4611686018427387904",
    ),
];

#[test]
fn ends_a_lazy_trace_at_a_full_clock(rt: HostRuntime) -> Result<(), Fail> {
    let clock = 4611686018427387904;
    check(
        &rt,
        rt.alloc(),
        "step",
        Status::ClockFull { clock },
        CUT_LAZY_TRACES,
    )
}

/// A write log of 256 items takes 256 addresses, and no more.
#[test]
fn fills_a_write_log(rt: HostRuntime) -> Result<(), Fail> {
    let alloc = rt.alloc();
    let mut script = String::new(alloc);
    let mut trace = String::new(alloc);
    trace.push_str("finish\n0 begin OrecLazy\n")?;
    for a in 0..256u64 {
        let write = format!(in alloc; "write {a} 1; ")?;
        script.push_str(write.as_str())?;
        trace.push_str("0 write 1\n")?;
    }
    trace.push_str("0 write full 256\n0 begin OrecLazy\n0 irrev granted\n0 write 1\n")?;
    let body = format!(in alloc; "tx 0 {{{script}write 256 1}}")?;
    let text = workload(alloc, "alg OrecLazy / words 512", body.as_str())?;
    let (status, held) = outcome(
        &rt,
        alloc,
        &["stm_bench", "step"],
        text.as_str(),
        &[],
        65536,
    )?;
    assert_eq!(rt; status, Status::Ok);
    assert!(rt; held.contains(trace.as_str()));
    assert!(rt; held.ends_with("\nmem 255 1\nmem 256 1\nend\n"));
    Ok(())
}

/// The turns of two schedules, a switch away from OrecLazy and a promotion, one after the other.
const TURNS: &[(&str, &str, &[u64])] = &[
    (
        "alg OrecLazy / callers 3",
        "tx 0 {write 0 5} / tx 1 {write 1 6} / switch 1 TML / tx 2 {read 0}",
        &[0, 0, 1, 1, 1, 0, 1, 1, 2, 0, 1, 1],
    ),
    (
        "alg OrecLazy / callers 2",
        "tx 0 {write 0 5; write 1 6; irrev; emit 0} / tx 1 {read 2; irrev}",
        &[0, 0, 0, 1, 1, 0, 1, 0, 0, 0],
    ),
    (
        "alg OrecEager / callers 2",
        "tx 0 {write 0 5; write 1 6; irrev; emit 0} / tx 1 {read 2; irrev}",
        &[0, 0, 0, 1, 1, 0, 1, 0, 0, 0],
    ),
];

/// Wherever a schedule is cut, what it left open is ended, and all is done after it.
#[test]
fn ends_what_a_cut_schedule_left(rt: HostRuntime) -> Result<(), Fail> {
    for (changes, items, turns) in TURNS {
        for length in 0..turns.len() + 1 {
            let mut body = format!(in rt.alloc(); "{items} / schedule")?;
            for caller in &turns[..length] {
                let turn = format!(in rt.alloc(); " / go {caller} 1")?;
                body.push_str(turn.as_str())?;
            }
            let text = workload(rt.alloc(), changes, body.as_str())?;
            let step = &["stm_bench", "step"];
            let (status, held) = outcome(&rt, rt.alloc(), step, text.as_str(), &[], 4096)?;
            let body = body.as_str();
            let is_whole = held.ends_with("\nmem 0 5\nmem 1 6\nend\n");
            assert_eq!(rt; (body, status, is_whole), (body, Status::Ok, true));
        }
    }
    Ok(())
}
