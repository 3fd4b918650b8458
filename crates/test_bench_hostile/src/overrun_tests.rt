//! Attempts that a ring of writes overruns.
use crate::cases::ROOM;
use std::test::Fail;
use test_bench_cases::cases::{lines, outcome, workload};
use work_bench::status::Status;

/// The slots of the ring, how many transactions write beside an attempt that has read, and how that goes on.
const OVERRUNS: [(u64, u64, &str); 14] = [
    (2, 0, "0 read 0 / 0 commit readonly 0"),
    (2, 1, "0 read 0 / 0 commit readonly 1"),
    (2, 2, "0 read conflict overrun 0 2 / 0 begin RingSW"),
    (2, 3, "0 read conflict overrun 0 3 / 0 begin RingSW"),
    (3, 2, "0 read 0 / 0 commit readonly 2"),
    (3, 3, "0 read conflict overrun 0 3 / 0 begin RingSW"),
    (4, 2, "0 read 0 / 0 commit readonly 2"),
    (4, 3, "0 read 0 / 0 commit readonly 3"),
    (4, 4, "0 read conflict overrun 0 4 / 0 begin RingSW"),
    (4, 5, "0 read conflict overrun 0 5 / 0 begin RingSW"),
    (4, 6, "0 read conflict overrun 0 6 / 0 begin RingSW"),
    (64, 63, "0 read 0 / 0 commit readonly 63"),
    (64, 64, "0 read conflict overrun 0 64 / 0 begin RingSW"),
    (64, 65, "0 read conflict overrun 0 65 / 0 begin RingSW"),
];

#[test]
fn is_overrun_by_a_ring_of_writes(rt: HostRuntime) -> Result<(), Fail> {
    let alloc = rt.alloc();
    for (slots, count, said) in OVERRUNS {
        let writes = " / tx 1 {write 2 7}".repeat(alloc, count as usize)?;
        let turns = " / go 1 3".repeat(alloc, count as usize)?;
        let changes = format!(in alloc; "alg RingSW / callers 2 / ring {slots}")?;
        let body = format!(in alloc;
            "tx 0 {{read 1; read 3}}{writes} / schedule / go 0 2{turns} / go 0 2"
        )?;
        let text = workload(alloc, changes.as_str(), body.as_str())?;
        let (status, held) = outcome(&rt, alloc, &["stm_bench", "step"], text.as_str(), &[], ROOM)?;
        let last = format!(in alloc; "{said} / finish")?;
        assert_eq!(rt; status, Status::Ok);
        assert!(rt;
            held.contains(lines(alloc, last.as_str())?.as_str()),
            "{held}"
        );
    }
    Ok(())
}
