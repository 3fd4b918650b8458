//! `step` over a text: the trace, and what stands after it.
use std::alloc::Global;
use std::process::Abort;
use std::sync::Wait;
use std::test::Fail;
use std::thread::Threads;
use test_bench_cases::Status;
use test_bench_cases::cases::{Case, check};

/// Traces, each with its report.
const TRACES: &[Case] = &[
    // one caller, no schedule
    (
        "alg CGL",
        "tx 0 {add 3 1} / tx 0 {add 3 1} / tx 0 {read 3}",
        "finish / 0 begin CGL / 0 add 1 / 0 commit committed 1 / 0 begin CGL / 0 add 2 / 0 commit committed 2 / \
         0 begin CGL / 0 read 2 / 0 commit readonly 2 / report 1 / W 1 0 0 : 1 / W 2 0 1 : 2 / R 2 0 2 : 2 / \
         mem 3 2 / end",
    ),
    (
        "alg CGL",
        "tx 0 {write 2 7; read 2; write 2 8} / tx 0 {read 2; read 3}",
        "finish / 0 begin CGL / 0 write 7 / 0 read 7 / 0 write 8 / 0 commit committed 1 / 0 begin CGL / 0 read 8 / \
         0 read 0 / 0 commit readonly 1 / report 1 / W 1 0 0 : 7 7 8 / R 1 0 1 : 8 0 / mem 2 8 / end",
    ),
    (
        "alg CGL / clock 100",
        "tx 0 {write 0 1000; write 1 1000} / tx 0 {move 0 1 250; move 0 1 751} / tx 0 {read 0; read 1}",
        "finish / 0 begin CGL / 0 write 1000 / 0 write 1000 / 0 commit committed 101 / 0 begin CGL / 0 move 1 / \
         0 move 0 / 0 commit committed 102 / 0 begin CGL / 0 read 750 / 0 read 1250 / 0 commit readonly 102 / \
         report 1 / W 101 0 0 : 1000 1000 / W 102 0 1 : 1 0 / R 102 0 2 : 750 1250 / mem 0 750 / mem 1 1250 / end",
    ),
    ("alg CGL", "", "finish / report 1 / end"),
    // nothing is left
    (
        "alg CGL",
        "tx 0 / end / schedule / go 0 3",
        "0 begin CGL / 0 commit readonly 0 / 0 idle / finish / report 1 / R 0 0 0 : / end",
    ),
    // a switch waits for the others, is given up after the schedule, and done again
    (
        "alg CGL / callers 2",
        "tx 0 {write 0 5; cancel} / switch 1 CGL / tx 1 {read 0} / schedule / go 0 2 / go 1 2 / go 0 2 / go 1 1",
        "0 begin CGL / 0 write 5 / 1 close closed / 1 look busy 0 1 / 0 cancel irrevocable / 0 commit committed 1 / \
         1 look quiet / finish / 1 reopen / 1 close closed / 1 look quiet / 1 install CGL / 1 begin CGL / \
         1 read 5 / 1 commit readonly 1 / report 1 / W 1 0 0 : 5 0 / R 1 1 0 : 5 / mem 0 5 / end",
    ),
    // an open attempt goes on to its end after the schedule
    (
        "alg CGL / callers 2",
        "tx 0 {read 0} / tx 1 {read 0} / schedule / go 0 1 / go 1 1",
        "0 begin CGL / 1 begin held 1 / finish / 0 read 0 / 0 commit readonly 0 / 1 begin CGL / 1 read 0 / \
         1 commit readonly 0 / report 1 / R 0 0 0 : 0 / R 0 1 0 : 0 / end",
    ),
    // an attempt that can't be cancelled goes on to its end before any other begins
    (
        "alg CGL / callers 2",
        "tx 0 {read 0} / tx 1 {write 0 7; cancel} / schedule / go 1 2 / go 0 1",
        "1 begin CGL / 1 write 7 / 0 begin held 2 / finish / 1 cancel irrevocable / 1 commit committed 1 / \
         0 begin CGL / 0 read 7 / 0 commit readonly 1 / report 1 / W 1 1 0 : 7 0 / R 1 0 0 : 7 / mem 0 7 / end",
    ),
    // under TML a reader meets a writer's odd clock, and begins anew
    (
        "alg TML / callers 2",
        "tx 0 {read 1; read 2} / tx 1 {write 1 5} / schedule / go 0 2 / go 1 2 / go 0 1",
        "0 begin TML / 0 read 0 / 1 begin TML / 1 write 5 / 0 read conflict clock 0 1 / finish / \
         1 commit committed 2 / 0 begin TML / 0 read 5 / 0 read 0 / 0 commit readonly 2 / report 1 / W 2 1 0 : 5 / \
         R 2 0 0 : 5 0 / mem 1 5 / end",
    ),
    // under TML a writer can't be cancelled, and nobody begins beside it
    (
        "alg TML / callers 2",
        "tx 0 {write 0 1; cancel} / tx 1 {read 0} / schedule / go 0 2 / go 1 1 / go 0 2",
        "0 begin TML / 0 write 1 / 1 begin held 1 / 0 cancel irrevocable / 0 commit committed 2 / finish / \
         1 begin TML / 1 read 1 / 1 commit readonly 2 / report 1 / W 2 0 0 : 1 0 / R 2 1 0 : 1 / mem 0 1 / end",
    ),
    // two readers want to be irrevocable: one waits for the other, which makes way
    (
        "alg TML / callers 2",
        "tx 0 {read 0; irrev; write 1 5; emit 1} / tx 1 {read 2; irrev; write 2 3} / schedule / go 0 2 / go 1 2 / go 0 1 / go 1 1 / go 0 4",
        "0 begin TML / 0 read 0 / 1 begin TML / 1 read 0 / 0 irrev busy 1 1 / 1 irrev taken 257 / 0 irrev granted / \
         0 write 5 / 0 emit 5 / 0 commit committed 2 / finish / 1 begin TML / 1 read 0 / 1 irrev granted / \
         1 write 3 / 1 commit committed 4 / report 1 / W 2 0 0 : 0 1 5 5 ! 5 / W 4 1 0 : 0 1 3 / mem 1 5 / \
         mem 2 3 / end",
    ),
    // an undo log of one item: the attempt after it asks to be irrevocable, and its reply is no operation's
    (
        "alg Serial / writes 1",
        "tx 0 {write 0 1; write 1 2}",
        "finish / 0 begin Serial / 0 write 1 / 0 write full 1 / 0 begin Serial / 0 irrev granted / 0 write 1 / \
         0 write 2 / 0 commit committed 1 / report 1 / W 1 0 0 : 1 2 / mem 0 1 / mem 1 2 / end",
    ),
];

#[test]
fn takes_the_turns_of_a_schedule(rt: HostRuntime) -> Result<(), Fail> {
    check(&rt, rt.alloc(), "step", Status::Ok, TRACES)
}

/// Traces that end at a full clock.
const CUT_TRACES: &[Case] = &[
    (
        "alg CGL / clock 4611686018427387904",
        "tx 0 {write 0 1}",
        "finish / 0 begin clockfull 4611686018427387904 / clock full 4611686018427387904",
    ),
    (
        "alg CGL / clock 4611686018427387903",
        "tx 0 {write 0 1} / tx 0 {read 0} / schedule / go 0 4",
        "0 begin CGL / 0 write 1 / 0 commit committed 4611686018427387904 / 0 begin clockfull 4611686018427387904 / \
         clock full 4611686018427387904",
    ),
    // what another caller had to do is left
    (
        "alg CGL / callers 2 / clock 4611686018427387904",
        "tx 0 {read 0} / switch 1 CGL / schedule / go 0 1",
        "0 begin clockfull 4611686018427387904 / clock full 4611686018427387904",
    ),
    (
        "alg TML / clock 4611686018427387902",
        "tx 0 {write 0 1} / tx 0 {write 0 2}",
        "finish / 0 begin TML / 0 write 1 / 0 commit committed 4611686018427387904 / 0 begin TML / \
         0 write clockfull 4611686018427387904 / clock full 4611686018427387904",
    ),
    // the install makes the clock even
    (
        "alg TML / clock 4611686018427387903",
        "tx 0 {write 0 1} / tx 0 {write 0 2}",
        "finish / 0 begin TML / 0 write clockfull 4611686018427387904 / clock full 4611686018427387904",
    ),
    (
        "alg Serial / clock 4611686018427387903",
        "tx 0 {write 0 1} / tx 0 {write 0 2}",
        "finish / 0 begin Serial / 0 write 1 / 0 commit committed 4611686018427387904 / 0 begin Serial / \
         0 write clockfull 4611686018427387904 / clock full 4611686018427387904",
    ),
];

#[test]
fn ends_a_trace_at_a_full_clock(rt: HostRuntime) -> Result<(), Fail> {
    let clock = 4611686018427387904;
    check(
        &rt,
        rt.alloc(),
        "step",
        Status::ClockFull { clock },
        CUT_TRACES,
    )
}

/// Each algorithm, the time of a first commit under it, and that of a commit after its install at the clock 1, and
/// at 2.
const ALGS: &[(&str, u64, u64, u64)] = &[
    ("CGL", 1, 2, 3),
    // the install makes the clock even, and a writer raises it by two
    ("TML", 2, 4, 4),
    ("OrecLazy", 1, 2, 3),
    ("OrecEager", 1, 2, 3),
    ("RingSW", 1, 2, 3),
    ("Serial", 1, 2, 3),
];

/// Caller 0 commits, installs each algorithm after caller 1's attempt, and commits again; caller 1 reads before
/// and after.
fn installs_each(
    rt: &(impl Threads + Wait + Abort + Sync),
    alloc: Global,
    from: &str,
    first: u64,
) -> Result<(), Fail> {
    for (to, _, after_one, after_two) in ALGS {
        let second = if first == 1 { *after_one } else { *after_two };
        let changes = format!(in alloc; "alg {from} / callers 2")?;
        let body = format!(in alloc;
            "tx 0 {{add 3 1}} / switch 0 {to} / tx 0 {{add 3 1}} / tx 1 {{read 3}} / tx 1 {{read 3}} / schedule / \
             go 0 3 / go 1 2 / go 0 2 / go 1 1 / go 0 5"
        )?;
        let said = format!(in alloc;
            "0 begin {from} / 0 add 1 / 0 commit committed {first} / 1 begin {from} / 1 read 1 / 0 close closed / \
             0 look busy 1 1 / 1 commit readonly {first} / 0 look quiet / 0 install {to} / 0 begin {to} / 0 add 2 / \
             0 commit committed {second} / finish / 1 begin {to} / 1 read 2 / 1 commit readonly {second} / \
             report 1 / W {first} 0 0 : 1 / R {first} 1 0 : 1 / W {second} 0 1 : 2 / R {second} 1 1 : 2 / mem 3 2 / \
             end"
        )?;
        let case = (changes.as_str(), body.as_str(), said.as_str());
        check(rt, alloc, "step", Status::Ok, &[case])?;
    }
    Ok(())
}

#[test]
fn installs_each_after_each(rt: HostRuntime) -> Result<(), Fail> {
    for (from, first, _, _) in ALGS {
        installs_each(&rt, rt.alloc(), from, *first)?;
    }
    Ok(())
}

/// Caller 1 commits in the middle of each of caller 0's first 16 attempts, so that the next one asks to be
/// irrevocable before it reads.
#[test]
fn asks_to_be_irrevocable_after_16_conflicts(rt: HostRuntime) -> Result<(), Fail> {
    let alloc = rt.alloc();
    let items = " / tx 1 {write 1 0}".repeat(alloc, 16)?;
    let turns = " / go 0 2 / go 1 3 / go 0 1".repeat(alloc, 16)?;
    let body = format!(in alloc; "tx 0 {{read 1; read 2}}{items} / schedule{turns} / go 0 5")?;
    let mut said = String::new(alloc);
    let mut rows = String::new(alloc);
    for seq in 0..16u64 {
        let start = 2 * seq;
        let time = start + 2;
        let lines = format!(in alloc;
            "0 begin TML / 0 read 0 / 1 begin TML / 1 write 0 / 1 commit committed {time} / 0 read conflict clock {start} {time} / "
        )?;
        said.push_str(lines.as_str())?;
        let row = format!(in alloc; "W {time} 1 {seq} : 0 / ")?;
        rows.push_str(row.as_str())?;
    }
    let last = format!(in alloc;
        "0 begin TML / 0 irrev granted / 0 read 0 / 0 read 0 / 0 commit readonly 32 / finish / report 1 / {rows}R 32 0 0 : 0 0 / end"
    )?;
    said.push_str(last.as_str())?;
    check(
        &rt,
        alloc,
        "step",
        Status::Ok,
        &[("alg TML / callers 2", body.as_str(), said.as_str())],
    )
}
