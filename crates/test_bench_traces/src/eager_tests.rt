//! Attempts that write in place under versioned records.
use std::test::Fail;
use test_bench_cases::Status;
use test_bench_cases::cases::{Case, check};

/// Traces of OrecEager, each with its report.
const EAGER_TRACES: &[Case] = &[
    // a record that is owned is another's conflict
    (
        "alg OrecEager / callers 2",
        "tx 0 {write 0 5} / tx 1 {read 0} / schedule / go 0 2 / go 1 2 / go 0 1",
        "0 begin OrecEager / 0 write 5 / 1 begin OrecEager / 1 read conflict record 0 1 0 / 0 commit committed 1 / \
         finish / 1 begin OrecEager / 1 read 5 / 1 commit readonly 1 / report 1 / W 1 0 0 : 5 / R 1 1 0 : 5 / \
         mem 0 5 / end",
    ),
    // a start moves to a later clock where all reads are still valid there
    (
        "alg OrecEager / callers 2",
        "tx 0 {read 0; read 1} / tx 1 {write 1 9} / schedule / go 0 2 / go 1 3 / go 0 2",
        "0 begin OrecEager / 0 read 0 / 1 begin OrecEager / 1 write 9 / 1 commit committed 1 / 0 read 9 / \
         0 commit readonly 1 / finish / report 1 / W 1 1 0 : 9 / R 1 0 0 : 0 9 / mem 1 9 / end",
    ),
    // and before a write
    (
        "alg OrecEager / callers 2",
        "tx 0 {read 0; write 1 7} / tx 1 {write 1 9} / schedule / go 0 2 / go 1 3 / go 0 2",
        "0 begin OrecEager / 0 read 0 / 1 begin OrecEager / 1 write 9 / 1 commit committed 1 / 0 write 7 / \
         0 commit committed 2 / finish / report 1 / W 1 1 0 : 9 / W 2 0 0 : 0 7 / mem 1 7 / end",
    ),
    // a word that was read before has changed
    (
        "alg OrecEager / callers 2",
        "tx 0 {read 0; write 1 7} / tx 1 {write 0 9; write 1 9} / schedule / go 0 2 / go 1 4 / go 0 1",
        "0 begin OrecEager / 0 read 0 / 1 begin OrecEager / 1 write 9 / 1 write 9 / 1 commit committed 1 / \
         0 write conflict record 0 2 0 / finish / 0 begin OrecEager / 0 read 9 / 0 write 7 / 0 commit committed 2 / \
         report 1 / W 1 1 0 : 9 9 / W 2 0 0 : 9 7 / mem 0 9 / mem 1 7 / end",
    ),
    // a commit that finds the clock moved is tried again
    (
        "alg OrecEager / callers 2",
        "tx 0 {write 0 5} / tx 1 {write 1 6} / schedule / go 0 2 / go 1 3 / go 0 2",
        "0 begin OrecEager / 0 write 5 / 1 begin OrecEager / 1 write 6 / 1 commit committed 1 / \
         0 commit again 0 0 1 / 0 commit committed 2 / finish / report 1 / W 1 1 0 : 6 / W 2 0 0 : 5 / mem 0 5 / \
         mem 1 6 / end",
    ),
    // two addresses of one record: the second write finds its own
    (
        "alg OrecEager",
        "tx 0 {write 3 1; write 7 2; read 3; read 7}",
        "finish / 0 begin OrecEager / 0 write 1 / 0 write 2 / 0 read 1 / 0 read 2 / 0 commit committed 1 / \
         report 1 / W 1 0 0 : 1 2 1 2 / mem 3 1 / mem 7 2 / end",
    ),
    // what a cancelled attempt wrote is gone, and the clock has gone on by one
    (
        "alg OrecEager",
        "tx 0 {write 0 5; read 0; cancel} / tx 0 {read 0} / tx 0 {write 0 6}",
        "finish / 0 begin OrecEager / 0 write 5 / 0 read 5 / 0 cancel cancelled 0 / 0 begin OrecEager / 0 read 0 / \
         0 commit readonly 1 / 0 begin OrecEager / 0 write 6 / 0 commit committed 2 / report 1 / C 0 0 0 : 5 5 1 / \
         R 1 0 1 : 0 / W 2 0 2 : 6 / mem 0 6 / end",
    ),
    // so it is of one that was refused: here by its undo log
    (
        "alg OrecEager / writes 2",
        "tx 0 {write 0 1; write 1 2; write 2 3}",
        "finish / 0 begin OrecEager / 0 write 1 / 0 write 2 / 0 write full 2 / 0 begin OrecEager / \
         0 irrev granted / 0 write 1 / 0 write 2 / 0 write 3 / 0 commit committed 2 / report 1 / W 2 0 0 : 1 2 3 / \
         mem 0 1 / mem 1 2 / mem 2 3 / end",
    ),
    // a full read log
    (
        "alg OrecEager / reads 1",
        "tx 0 {read 0; read 1; write 0 5}",
        "finish / 0 begin OrecEager / 0 read 0 / 0 read full 1 / 0 begin OrecEager / 0 irrev granted / 0 read 0 / \
         0 read 0 / 0 write 5 / 0 commit committed 1 / report 1 / W 1 0 0 : 0 0 5 / mem 0 5 / end",
    ),
    // two want to be irrevocable: one waits for the other, which makes way
    (
        "alg OrecEager / callers 2",
        "tx 0 {write 0 5; write 1 6; irrev; emit 0} / tx 1 {read 2; irrev} / schedule / go 0 3 / go 1 2 / go 0 1 / go 1 1 / go 0 3",
        "0 begin OrecEager / 0 write 5 / 0 write 6 / 1 begin OrecEager / 1 read 0 / 0 irrev busy 1 1 / \
         1 irrev taken 259 / 0 irrev granted / 0 emit 5 / 0 commit committed 1 / finish / 1 begin OrecEager / \
         1 read 0 / 1 irrev granted / 1 commit readonly 1 / report 1 / W 1 0 0 : 5 6 1 5 ! 5 / R 1 1 0 : 0 1 / \
         mem 0 5 / mem 1 6 / end",
    ),
];

#[test]
fn runs_eager_attempts_beside_each_other(rt: HostRuntime) -> Result<(), Fail> {
    check(&rt, rt.alloc(), "step", Status::Ok, EAGER_TRACES)
}

/// Traces of OrecEager that end at a full clock.
const CUT_EAGER_TRACES: &[Case] = &[
    (
        "alg OrecEager / clock 4611686018427387903",
        "tx 0 {write 0 1} / tx 0 {write 0 2}",
        "finish / 0 begin OrecEager / 0 write 1 / 0 commit committed 4611686018427387904 / 0 begin OrecEager / \
         0 write clockfull 4611686018427387904 / clock full 4611686018427387904",
    ),
    // the raise of a cancelled attempt comes to the limit
    (
        "alg OrecEager / clock 4611686018427387902",
        "tx 0 {write 0 1} / tx 0 {write 0 2; cancel} / tx 0 {irrev; write 0 3}",
        "finish / 0 begin OrecEager / 0 write 1 / 0 commit committed 4611686018427387903 / 0 begin OrecEager / \
         0 write 2 / 0 cancel cancelled 4611686018427387903 / 0 begin OrecEager / \
         0 irrev clockfull 4611686018427387904 / clock full 4611686018427387904",
    ),
];

#[test]
fn ends_an_eager_trace_at_a_full_clock(rt: HostRuntime) -> Result<(), Fail> {
    let clock = 4611686018427387904;
    check(
        &rt,
        rt.alloc(),
        "step",
        Status::ClockFull { clock },
        CUT_EAGER_TRACES,
    )
}
