//! Ends that fail, or move one byte a call: each take and each put in turn.
use crate::cases::{LIMIT, nothing, status_over};
use crate::ends::{Dribble, Trickle};
use std::alloc::Global;
use std::process::Abort;
use std::sync::Wait;
use std::test::Fail;
use std::thread::Threads;
use test_bench_cases::cases::{lines, workload};
use work_bench::status::Status;
use work_bench::{Fault, MemSink, MemSource};
use work_io::adapters::{ReadSource, WriteSink};

/// A command, the text that it reads, its status, and what it writes, where no end fails.
#[derive(Clone, Copy, Drop)]
struct Talk<'a> {
    words: &'a [&'a str],
    text: &'a str,
    status: Status,
    said: &'a str,
}

/// A number of a call that is never made.
const NEVER: usize = 1000000;

const ADDS: &str = "tx 0 {add 3 1} / tx 0 {add 3 1} / tx 0 {read 3}";

const ADDS_REPORT: &str = "report 1 / W 1 0 0 : 1 / W 2 0 1 : 2 / R 2 0 2 : 2 / mem 3 2 / end";

const HELD: &str = "tx 0 {write 0 1; cancel} / tx 1 {read 0} / schedule / go 0 2 / go 1 1 / go 0 2";

const HELD_TRACE: &str =
    "0 begin TML / 0 write 1 / 1 begin held 1 / 0 cancel irrevocable / 0 commit committed 2 / finish / 1 begin TML / 1 read 1 / 1 commit readonly 2 / report 1 / W 2 0 0 : 1 0 / R 2 1 0 : 1 / mem 0 1 / end";

const SUMMARY: &str = "summary 1 / commits 9 / accounts 64000 / counter 2 / list 2 / end";

const FULL_TRACE: &str =
    "finish / 0 begin CGL / 0 add 1 / 0 commit committed 4611686018427387904 / 0 begin clockfull 4611686018427387904 / clock full 4611686018427387904";

const USAGE: &str = "usage: stm_bench run [--policy P] - step - gen N T SEED - check";

const RUN: &[&str] = &["stm_bench", "run"];

const STEP: &[&str] = &["stm_bench", "step"];

const CHECK: &[&str] = &["stm_bench", "check"];

const GEN: &[&str] = &["stm_bench", "gen", "8", "2", "1"];

const NONE: &[&str] = &["stm_bench"];

/// A command, the header's changes and body of the text that it reads, its status, and the lines that it writes. Under
/// `check` the report stands after the body.
const TALKS: [(&[&str], &str, &str, Status, &str); 7] = [
    (RUN, "", ADDS, Status::Ok, ADDS_REPORT),
    (STEP, "alg TML / callers 2", HELD, Status::Ok, HELD_TRACE),
    (GEN, "", "", Status::Ok, SUMMARY),
    (CHECK, "", ADDS, Status::Ok, "yes"),
    (
        STEP,
        "clock 4611686018427387903",
        ADDS,
        Status::ClockFull { clock: LIMIT },
        FULL_TRACE,
    ),
    (
        RUN,
        "words 0",
        ADDS,
        Status::Refused {
            line: 2,
            fault: Fault::Range,
        },
        "refused 2 6 range",
    ),
    (NONE, "", ADDS, Status::Usage, USAGE),
];

/// Whether a call with these words and this status leaves a closed memory.
fn closes(words: &[&str], status: Status) -> bool {
    words != CHECK && matches!(status, Status::Ok | Status::ClockFull { .. })
}

/// Tries the talk with the reader's call of this number failing.
fn try_taking(
    rt: &(impl Threads + Wait + Abort + Sync),
    alloc: Global,
    talk: &Talk,
    failing: usize,
) -> Result<(), Fail> {
    let bytes = talk.text.as_bytes().to_vec(alloc)?;
    let takes = bytes.len().saturating_add(1);
    let reads = talk.words == RUN || talk.words == STEP || talk.words == CHECK;
    let reader = Dribble {
        bytes,
        calls: 0,
        failing,
    };
    let mut source = ReadSource::new(reader);
    let mut report = ReadSource::new(Dribble {
        bytes: Vec::new(alloc),
        calls: 0,
        failing: NEVER,
    });
    let mut sink = MemSink::new(alloc, 4096, Vec::new(alloc))?;
    let (status, closed) = status_over(rt, alloc, talk.words, &mut source, &mut report, &mut sink);
    let (wanted, said, calls) = match (reads, failing < takes) {
        (false, _) => (talk.status, talk.said, 0),
        (true, false) => (talk.status, talk.said, takes),
        (true, true) => (Status::ReadFault, "read fault\n", failing.saturating_add(1)),
    };
    assert_eq!(rt; (failing, status), (failing, wanted));
    assert_eq!(rt; (failing, sink.held()), (failing, said.as_bytes()));
    assert_eq!(rt; (failing, closed), (failing, closes(talk.words, wanted)));
    assert_eq!(rt; (failing, source.into_inner().calls), (failing, calls));
    assert_eq!(rt; (failing, report.into_inner().calls), (failing, 0));
    Ok(())
}

/// What a talk comes to where no put is made after so many bytes.
fn cut<'a>(talk: &Talk<'a>, room: usize) -> (Status, &'a [u8]) {
    match talk.said.as_bytes().get(..room) {
        Some(said) if room < talk.said.len() => (Status::WriteFault, said),
        _ => (talk.status, talk.said.as_bytes()),
    }
}

/// Tries the talk with the put after so many bytes failing: by a writer of one byte a call, by one that then takes
/// nothing, and by a sink that has no more room.
fn try_putting(
    rt: &(impl Threads + Wait + Abort + Sync),
    alloc: Global,
    talk: &Talk,
    failing: usize,
) -> Result<(), Fail> {
    let (wanted, said) = cut(talk, failing);
    let text = talk.text.as_bytes();
    for is_mute in [false, true] {
        let mut source = MemSource::new(text.to_vec(alloc)?, Vec::new(alloc));
        let mut sink = WriteSink::new(Trickle {
            held: Vec::new(alloc),
            failing,
            is_mute,
        });
        let mut report = nothing(alloc);
        let (status, closed) = status_over(
            rt,
            alloc,
            talk.words,
            &mut source,
            &mut report,
            &mut sink,
        );
        assert_eq!(rt; (failing, status), (failing, wanted));
        assert_eq!(rt; (failing, closed), (failing, closes(talk.words, wanted)));
        assert_eq!(rt;
            (failing, sink.into_inner().held.as_slice()),
            (failing, said)
        );
    }
    let mut source = MemSource::new(text.to_vec(alloc)?, Vec::new(alloc));
    let mut sink = MemSink::new(alloc, failing, Vec::new(alloc))?;
    let mut report = nothing(alloc);
    let (status, closed) = status_over(rt, alloc, talk.words, &mut source, &mut report, &mut sink);
    assert_eq!(rt; (failing, status), (failing, wanted));
    assert_eq!(rt; (failing, closed), (failing, closes(talk.words, wanted)));
    assert_eq!(rt; (failing, sink.held()), (failing, said));
    Ok(())
}

#[test]
fn each_take_and_each_put_fails_in_turn(rt: HostRuntime) -> Result<(), Fail> {
    let alloc = rt.alloc();
    for (words, changes, body, status, said) in TALKS {
        let mut text = workload(alloc, changes, body)?;
        if words == CHECK {
            text.push_str(lines(alloc, ADDS_REPORT)?.as_str())?;
        }
        let said = lines(alloc, said)?.replace(alloc, " - ", " / ")?;
        let talk = Talk {
            words,
            text: text.as_str(),
            status,
            said: said.as_str(),
        };
        for failing in 0..text.len().saturating_add(2) {
            try_taking(&rt, alloc, &talk, failing)?;
        }
        for failing in 0..said.len().saturating_add(1) {
            try_putting(&rt, alloc, &talk, failing)?;
        }
    }
    Ok(())
}

/// The takes and the puts that fail, by their numbers, and what that comes to.
const LISTED: [(&[u64], &[u64], Status, &str); 6] = [
    (&[], &[1], Status::Ok, ADDS_REPORT),
    (&[2], &[], Status::Ok, ADDS_REPORT),
    (&[0], &[], Status::ReadFault, "read fault"),
    (&[1], &[], Status::ReadFault, "read fault"),
    (&[], &[0], Status::WriteFault, ""),
    (&[0], &[0], Status::WriteFault, ""),
];

#[test]
fn whole_calls_fail(rt: HostRuntime) -> Result<(), Fail> {
    let alloc = rt.alloc();
    let text = workload(alloc, "", ADDS)?;
    for (takes, puts, wanted, said) in LISTED {
        let mut source = MemSource::new(text.as_bytes().to_vec(alloc)?, takes.to_vec(alloc)?);
        let mut sink = MemSink::new(alloc, 4096, puts.to_vec(alloc)?)?;
        let mut report = nothing(alloc);
        let (status, closed) = status_over(&rt, alloc, RUN, &mut source, &mut report, &mut sink);
        assert_eq!(rt; status, wanted);
        assert_eq!(rt; closed, closes(RUN, wanted));
        if said.is_empty() {
            assert_eq!(rt; sink.held(), b"".as_slice());
        } else {
            assert_eq!(rt; sink.held(), lines(alloc, said)?.as_bytes());
        }
    }
    Ok(())
}
