//! Schedules that are cut off after each number of turns.
use crate::cases::{NAMES, ROOM};
use std::alloc::Global;
use std::test::Fail;
use test_bench_cases::cases::{outcome, workload};
use work_bench::status::Status;

/// What is to be done, and the turns of a schedule: a caller and how many.
type Plan = (&'static str, &'static [(u32, u32)]);

/// A switch is waited for while a commit is to be tried again; two callers ask to be irrevocable.
const PLANS: [Plan; 2] = [
    (
        "tx 0 {write 0 5} / tx 1 {write 1 6} / switch 1 TML / tx 2 {read 0}",
        &[(0, 2), (1, 3), (0, 1), (1, 2), (2, 1), (0, 1), (1, 2)],
    ),
    (
        "tx 0 {write 0 5; write 1 6; irrev; emit 0} / tx 1 {read 2; irrev}",
        &[(0, 3), (1, 2), (0, 1), (1, 1), (0, 3)],
    ),
];

/// The lines of the first so many turns of a schedule.
fn first_turns(alloc: Global, turns: &[(u32, u32)], count: u32) -> Result<String, Fail> {
    let mut lines = String::new(alloc);
    let mut left = count;
    for (caller, number) in turns {
        let taken = left.min(*number);
        if taken > 0 {
            let line = format!(in alloc; " / go {caller} {taken}")?;
            lines.push_str(line.as_str())?;
        }
        left = left.saturating_sub(taken);
    }
    Ok(lines)
}

#[test]
fn a_cut_schedule_leaves_the_same_memory(rt: HostRuntime) -> Result<(), Fail> {
    let alloc = rt.alloc();
    for (items, turns) in PLANS {
        let mut whole = 0u32;
        for (_, number) in turns {
            whole = whole.saturating_add(*number);
        }
        for name in NAMES {
            let changes = format!(in alloc; "callers 3 / alg {name}")?;
            for count in 0..whole.saturating_add(1) {
                let schedule = first_turns(alloc, turns, count)?;
                let body = format!(in alloc; "{items} / schedule{schedule}")?;
                let text = workload(alloc, changes.as_str(), body.as_str())?;
                let words = ["stm_bench", "step"];
                let (status, held) = outcome(&rt, alloc, &words, text.as_str(), &[], ROOM)?;
                assert_eq!(rt; (name, count, status), (name, count, Status::Ok));
                let is_whole = held.ends_with("\nmem 0 5\nmem 1 6\nend\n");
                assert!(rt; is_whole, "{name} cut after {count}: {held}");
            }
        }
    }
    Ok(())
}
