//! `check` over a workload and a report.
use crate::{report_tests, structure_tests};
use std::alloc::Global;
use std::process::Abort;
use std::sync::Wait;
use std::test::Fail;
use std::thread::Threads;
use test_bench_cases::cases::{check, header, lines, outcome, outcome_apart, workload};
use test_bench_cases::{Fault, Status};

/// Two transactions that add and one that reads: a workload of 20 lines.
const THREE: &str = "tx 0 {add 3 1} / tx 0 {add 3 1} / tx 0 {read 3}";

/// Reports of that workload, and how `check` ends over them.
const JUDGED: &[(&str, Status, &str)] = &[
    (
        "report 1 / W 1 0 0 : 1 / W 2 0 1 : 2 / R 2 0 2 : 2 / mem 3 2 / end",
        Status::Ok,
        "yes\n",
    ),
    (
        "report 1 / W 4 0 0 : 1 / W 9 0 1 : 2 / R 9 0 2 : 2 / mem 3 2 / end",
        Status::Ok,
        "yes\n",
    ),
    (
        "report 1 / W 1 0 0 : 1 / W 2 0 1 : 2 / R 2 0 2 : 1 / mem 3 2 / end",
        Status::No { line: 24 },
        "no 24\n",
    ),
    (
        "report 1 / W 1 0 0 : 1 / W 2 0 1 : 2 / R 2 0 2 : 2 / end",
        Status::No { line: 25 },
        "no 25\n",
    ),
    (
        "report 1 / W 2 0 1 : 2 / W 1 0 0 : 1 / R 2 0 2 : 2 / mem 3 2 / end",
        Status::No { line: 22 },
        "no 22\n",
    ),
    (
        "report 1 / W 01 0 0 : 1 / W 2 0 1 : 2 / R 2 0 2 : 2 / mem 3 2 / end",
        Status::Refused {
            line: 22,
            fault: Fault::Report,
        },
        "refused 22 12 report\n",
    ),
    (
        "report 1 / W 1 0 0 : 1 / W 2 0 1 : 2 / R 2 0 2 : 2 / mem 3 2",
        Status::Refused {
            line: 26,
            fault: Fault::Unended,
        },
        "refused 26 3 unended\n",
    ),
];

/// A workload's text, and a report's lines after it.
fn both(alloc: Global, changes: &str, body: &str, report: &str) -> Result<String, Fail> {
    let mut text = workload(alloc, changes, body)?;
    text.push_str(lines(alloc, report)?.as_str())?;
    Ok(text)
}

#[test]
fn judges_reports(rt: HostRuntime) -> Result<(), Fail> {
    for (report, status, said) in JUDGED {
        let text = both(rt.alloc(), "", THREE, report)?;
        let words = ["stm_bench", "check"];
        let (ended, held) = outcome(&rt, rt.alloc(), &words, text.as_str(), &[], 64)?;
        assert_eq!(rt; (report, ended), (report, *status));
        assert_eq!(rt; (report, held.as_str()), (report, *said));
    }
    Ok(())
}

/// A workload of 32 callers, each with three transactions and a switch.
fn crowd(alloc: Global, alg: &str) -> Result<String, Fail> {
    let changes = format!(in alloc; "words 1024 / callers 32 / alg {alg} / structs on")?;
    let mut text = header(alloc, changes.as_str())?;
    for caller in 0..32 {
        let items = format!(in alloc;
            "tx {caller} {{ladd {caller}; count 1 6; add 0 1; irrev; emit 0}} / tx {caller} {{hadd {caller}; write 0 5; cancel}} / switch {caller} {alg} / tx {caller} {{llen; total; tadd {caller}; read 0}}"
        )?;
        text.push_str(lines(alloc, items.as_str())?.as_str())?;
    }
    text.push_str("done\n")?;
    Ok(text)
}

/// Whether `run` writes a report of this workload, which `check` confirms then. Its clock may be too near to its limit.
fn is_confirmed(
    rt: &(impl Threads + Wait + Abort + Sync),
    alloc: Global,
    mut text: String,
) -> Result<bool, Fail> {
    let words = ["stm_bench", "run"];
    let (ended, report) = outcome(rt, alloc, &words, text.as_str(), &[], 16384)?;
    if let Status::ClockFull { .. } = ended {
        return Ok(false);
    }
    assert_eq!(rt; (text.as_str(), ended), (text.as_str(), Status::Ok));
    text.push_str(report.as_str())?;
    let words = ["stm_bench", "check"];
    let (ended, held) = outcome(rt, alloc, &words, text.as_str(), &[], 64)?;
    let text = text.as_str();
    assert_eq!(rt; (text, ended, held.as_str()), (text, Status::Ok, "yes\n"));
    Ok(true)
}

const NAMES: [&str; 6] = ["CGL", "Serial", "TML", "OrecLazy", "OrecEager", "RingSW"];

#[test]
fn confirms_what_many_callers_did(rt: HostRuntime) -> Result<(), Fail> {
    for alg in NAMES {
        assert!(rt;
            is_confirmed(&rt, rt.alloc(), crowd(rt.alloc(), alg)?)?,
            "{alg}"
        );
    }
    Ok(())
}

/// The workload of each stored report, under each algorithm.
#[test]
fn confirms_each_stored_report(rt: HostRuntime) -> Result<(), Fail> {
    for table in [report_tests::REPORTS, structure_tests::REPORTS] {
        for (changes, body, _) in table {
            for alg in NAMES {
                let begin = format!(in rt.alloc(); "alg {alg} / {changes}")?;
                let text = workload(rt.alloc(), begin.as_str(), body)?;
                let is_told = is_confirmed(&rt, rt.alloc(), text)?;
                // only a clock that begins near its limit comes to it
                assert!(rt; is_told || changes.contains("clock "), "{begin}");
            }
        }
    }
    Ok(())
}

/// A fault of the workload comes before one of the report, one of the source before both, and one of the sink in
/// place of each.
#[test]
fn ends_in_the_order_of_the_statuses(rt: HostRuntime) -> Result<(), Fail> {
    check(
        &rt,
        rt.alloc(),
        "check",
        Status::Refused {
            line: 2,
            fault: Fault::Range,
        },
        &[("words 0", "", "refused 2 6 range")],
    )?;
    let wrong = both(rt.alloc(), "", THREE, "report 1 / end")?;
    let words = ["stm_bench", "check"];
    let table = [
        (
            words.as_slice(),
            [0].as_slice(),
            64,
            Status::ReadFault,
            "read fault\n",
        ),
        (
            words.as_slice(),
            [].as_slice(),
            64,
            Status::No { line: 22 },
            "no 22\n",
        ),
        (
            words.as_slice(),
            [].as_slice(),
            3,
            Status::WriteFault,
            "no ",
        ),
        (
            ["stm_bench", "check", "x", "y", "z"].as_slice(),
            [0].as_slice(),
            128,
            Status::Usage,
            "usage: stm_bench run [--policy P] / step / gen N T SEED / check\n",
        ),
    ];
    for (words, takes, room, status, said) in table {
        let (ended, held) = outcome(&rt, rt.alloc(), words, wrong.as_str(), takes, room)?;
        assert_eq!(rt; ended, status);
        assert_eq!(rt; held.as_str(), said);
    }
    assert_eq!(rt; Status::No { line: 22 }.exit_code(), 7);
    Ok(())
}

/// Of the reports above the one that replays, below a trace, and wrong ones: lines count in the report's own text.
const APART: [(&str, Status, &str); 5] = [
    (
        "report 1 / W 1 0 0 : 1 / W 2 0 1 : 2 / R 2 0 2 : 2 / mem 3 2 / end",
        Status::Ok,
        "yes\n",
    ),
    (
        "0 begin CGL / finish / report 1 / W 1 0 0 : 1 / W 2 0 1 : 2 / R 2 0 2 : 2 / mem 3 2 / end",
        Status::Ok,
        "yes\n",
    ),
    (
        "report 1 / W 1 0 0 : 1 / W 2 0 1 : 2 / R 2 0 2 : 1 / mem 3 2 / end",
        Status::No { line: 4 },
        "no 4\n",
    ),
    (
        "0 begin CGL / finish / report 1 / W 1 0 0 : 1 / W 2 0 1 : 3 / R 2 0 2 : 2 / mem 3 2 / end",
        Status::No { line: 5 },
        "no 5\n",
    ),
    (
        "0 begin CGL / finish / report 1 / W 1 0 0 1 / end",
        Status::Refused {
            line: 4,
            fault: Fault::Report,
        },
        "refused 4 12 report\n",
    ),
];

/// A report in a text of its own, which the trace of `step` may stand above.
#[test]
fn two_texts_are_checked(rt: HostRuntime) -> Result<(), Fail> {
    let alloc = rt.alloc();
    let words = ["stm_bench", "check", "w", "r"];
    let text = workload(alloc, "", THREE)?;
    for (report, status, said) in APART {
        let told = lines(alloc, report)?;
        let (ended, held) = outcome_apart(&rt, alloc, &words, text.as_str(), told.as_str())?;
        assert_eq!(rt; (report, (ended, held.as_str())), (report, (status, said)));
    }
    let wrong = workload(alloc, "", "tx 1 {add 3 1}")?;
    let (ended, _) = outcome_apart(&rt, alloc, &words, wrong.as_str(), "")?;
    assert_eq!(rt;
        ended,
        Status::Refused {
            line: 11,
            fault: Fault::Range
        }
    );
    Ok(())
}

/// A workload alone, and help.
#[test]
fn a_workload_alone_is_checked(rt: HostRuntime) -> Result<(), Fail> {
    let alloc = rt.alloc();
    let words = ["stm_bench", "check", "w"];
    let text = workload(alloc, "", THREE)?;
    let (ended, held) = outcome(&rt, alloc, &words, text.as_str(), &[], 4096)?;
    assert_eq!(rt; (ended, held.as_str()), (Status::Ok, "yes\n"));
    let text = workload(alloc, "", "tx 0 {add 3}")?;
    let (ended, held) = outcome(&rt, alloc, &words, text.as_str(), &[], 4096)?;
    assert_eq!(rt;
        (ended, held.as_str()),
        (
            Status::Refused {
                line: 12,
                fault: Fault::Word
            },
            "refused 12 4 word\n"
        )
    );
    let words = ["stm_bench", "--version"];
    let (ended, held) = outcome(&rt, alloc, &words, "", &[], 4096)?;
    assert_eq!(rt; (ended, held.as_str()), (Status::Help, "stm_bench 1.0.0\n"));
    let words = ["stm_bench", "run", "--help"];
    let (ended, held) = outcome(&rt, alloc, &words, "", &[], 4096)?;
    assert_eq!(rt; ended, Status::Help);
    assert!(rt; held.starts_with("usage: stm_bench run [--policy P] [FILE]\n"));
    Ok(())
}
