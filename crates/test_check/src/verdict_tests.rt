//! The verdict on a workload of three transactions and the reports that may stand after it.
use std::alloc::{AllocError, Global};
use std::test::Fail;
use stm_model::memory::Memory;
use work_check::checking::{Finding, MOST_CHECKED, check};
use work_check::reading::read_report;
use work_check::replay::replay;
use work_check::verdict::Verdict;
use work_text::laws::parsed_workloads_fit;
use work_text::parse::{Mode, ParseError, parse};

/// Two transactions that add and one that reads: 20 lines.
const WORKLOAD: &str =
    "stm 1\nwords 8\ncallers 1\nrecords 4\nring 4\nreads 256\nwrites 256\nclock 0\nalg CGL\nstructs off\ntx 0\nadd 3 1\nend\ntx 0\nadd 3 1\nend\ntx 0\nread 3\nend\ndone\n";

/// Reports of that workload, and what is found; ` / ` parts two lines.
const FINDINGS: &[(&str, Finding)] = &[
    (
        "report 1 / W 1 0 0 : 1 / W 2 0 1 : 2 / R 2 0 2 : 2 / mem 3 2 / end",
        Finding::Yes,
    ),
    // other places in the same order
    (
        "report 1 / W 4 0 0 : 1 / W 9 0 1 : 2 / R 9 0 2 : 2 / mem 3 2 / end",
        Finding::Yes,
    ),
    // another reply, another kind, another caller
    (
        "report 1 / W 1 0 0 : 1 / W 2 0 1 : 2 / R 2 0 2 : 1 / mem 3 2 / end",
        Finding::No { line: 24 },
    ),
    (
        "report 1 / W 1 0 0 : 1 / W 2 0 1 : 2 / C 2 0 2 : 2 / mem 3 2 / end",
        Finding::No { line: 24 },
    ),
    (
        "report 1 / W 1 0 0 : 1 / W 2 0 1 : 2 / R 2 1 2 : 2 / mem 3 2 / end",
        Finding::No { line: 24 },
    ),
    // the memory: a word left out, another value, a word too many
    (
        "report 1 / W 1 0 0 : 1 / W 2 0 1 : 2 / R 2 0 2 : 2 / end",
        Finding::No { line: 25 },
    ),
    (
        "report 1 / W 1 0 0 : 1 / W 2 0 1 : 2 / R 2 0 2 : 2 / mem 3 3 / end",
        Finding::No { line: 25 },
    ),
    (
        "report 1 / W 1 0 0 : 1 / W 2 0 1 : 2 / R 2 0 2 : 2 / mem 3 2 / mem 4 1 / end",
        Finding::No { line: 26 },
    ),
    // rows out of their order, two W rows at one place, a row left out, a row too many
    (
        "report 1 / W 2 0 1 : 2 / W 1 0 0 : 1 / R 2 0 2 : 2 / mem 3 2 / end",
        Finding::No { line: 22 },
    ),
    (
        "report 1 / W 1 0 0 : 1 / W 1 0 1 : 2 / R 1 0 2 : 2 / mem 3 2 / end",
        Finding::No { line: 23 },
    ),
    (
        "report 1 / W 1 0 0 : 1 / W 2 0 1 : 2 / mem 3 2 / end",
        Finding::No { line: 24 },
    ),
    (
        "report 1 / W 1 0 0 : 1 / W 2 0 1 : 2 / R 2 0 2 : 2 / R 2 0 3 : 2 / mem 3 2 / end",
        Finding::No { line: 25 },
    ),
    // not in the form of a report
    (
        "report 1 / W 01 0 0 : 1 / W 2 0 1 : 2 / R 2 0 2 : 2 / mem 3 2 / end",
        Finding::Faulty { line: 22, code: 12 },
    ),
    (
        "report 1 / W 1 0 0 : 1 ! / end",
        Finding::Faulty { line: 22, code: 12 },
    ),
    (
        "report 1 / W 1 0 0 :  1 / end",
        Finding::Faulty { line: 22, code: 12 },
    ),
    (
        "report 1 / W 1 0 0\t: 1 / end",
        Finding::Faulty { line: 22, code: 12 },
    ),
    (
        "report 1 / mem 3 0 / end",
        Finding::Faulty { line: 22, code: 12 },
    ),
    (
        "report 1 / mem 3 1 / mem 3 1 / end",
        Finding::Faulty { line: 23, code: 12 },
    ),
    (
        "report 1 / mem 3 1 / W 1 0 0 : 1 / end",
        Finding::Faulty { line: 23, code: 12 },
    ),
    ("report 2 / end", Finding::Faulty { line: 21, code: 12 }),
    (
        "report 1 / end / end",
        Finding::Faulty { line: 23, code: 12 },
    ),
    (
        "report 1 / W 1 0 0 : 1 / W 2 0 1 : 2 / R 2 0 2 : 2 / mem 3 2",
        Finding::Faulty { line: 26, code: 3 },
    ),
];

/// The workload, and the lines that stand in one after it.
fn with_report(alloc: Global, line: &str) -> Result<String, AllocError> {
    let mut text = String::new(alloc);
    text.push_str(WORKLOAD)?;
    text.push_str(line.replace(alloc, " / ", "\n")?.as_str())?;
    text.push_str("\n")?;
    Ok(text)
}

/// What a text that is short enough comes to.
fn check_short(alloc: Global, text: &[u8]) -> Result<Finding, Memory> {
    if text.len() > MOST_CHECKED {
        return Err(Memory);
    }
    Ok(check(alloc, text)?.finding)
}

/// What a report of this workload comes to.
fn verdict(alloc: Global, workload: &str, report: &[u8]) -> Result<Verdict, ParseError> {
    parsed_workloads_fit();
    let workload = parse(alloc, workload.as_bytes(), Mode::Run)?;
    let report = read_report(alloc, report)?;
    match replay(alloc, &workload, &report) {
        Ok(judged) => Ok(judged.verdict),
        Err(Memory) => Err(ParseError::Memory),
    }
}

#[test]
fn finds_the_first_fault(rt: HostRuntime) -> Result<(), Fail> {
    for (report, finding) in FINDINGS {
        let text = with_report(rt.alloc(), report)?;
        assert_eq!(rt;
            (report, check_short(rt.alloc(), text.as_bytes())?),
            (report, *finding)
        );
    }
    Ok(())
}

/// A fault of the workload comes first, and a report may lack a line's end or be absent.
#[test]
fn finds_what_stands_in_no_line_of_a_report(rt: HostRuntime) -> Result<(), Fail> {
    let table = [
        ("", Finding::Faulty { line: 1, code: 3 }),
        (
            "stm 3\ndone\nreport\n",
            Finding::Faulty { line: 1, code: 4 },
        ),
        (
            "stm 1\nreport 1\nend\n",
            Finding::Faulty { line: 2, code: 4 },
        ),
    ];
    for (text, finding) in table {
        assert_eq!(rt;
            (text, check(rt.alloc(), text.as_bytes())?.finding),
            (text, finding)
        );
    }
    let alone = Finding::Faulty { line: 21, code: 3 };
    assert_eq!(rt; check(rt.alloc(), WORKLOAD.as_bytes())?.finding, alone);
    Ok(())
}

/// What a report of a workload of 20 lines comes to that has a byte outside 32 to 126: its line isn't in the form;
/// where no LF ends it, that is its fault.
#[test]
fn takes_no_wrong_byte(rt: HostRuntime) -> Result<(), Fail> {
    let table: [(&[u8], usize, u32); 10] = [
        (
            b"report 1\r\nW 1 0 0 : 1\r\nW 2 0 1 : 2\r\nR 2 0 2 : 2\r\nmem 3 2\r\nend\r\n",
            21,
            12,
        ),
        (b"report 1\nW 1 0 0 : 1\r\nend\n", 22, 12),
        (b"report 1\nW 1 0 0 : \0\nend\n", 22, 12),
        (b"report 1\nW 1 0 0 :\t1\nend\n", 22, 12),
        (b"report 1\nmem 3\t2\nend\n", 22, 12),
        (b"report 1\nend\n\xff\n", 23, 12),
        (b"report 1\nend\n\xff", 23, 3),
        (b"report 1\nend\n\0", 23, 3),
        (b"report 1\nen\x7f", 22, 3),
        (b"\x1f\nend", 21, 12),
    ];
    for (report, line, code) in table {
        let mut text = WORKLOAD.as_bytes().to_vec(rt.alloc())?;
        text.extend_from_slice(report)?;
        let finding = check_short(rt.alloc(), text.as_slice())?;
        assert_eq!(rt; (report, finding), (report, Finding::Faulty { line, code }));
    }
    Ok(())
}

/// The workload, and a report of so many bytes: a row of numbers of twenty digits, and a shorter one at its end.
fn with_long_report(alloc: Global, length: usize) -> Result<Vec<u8>, AllocError> {
    let room = WORKLOAD.len().saturating_add(length);
    let mut text = Vec::with_capacity(alloc, room)?;
    text.extend_from_slice(WORKLOAD.as_bytes())?;
    text.extend_from_slice(b"report 1\nR 0 0 0 :")?;
    // what is left for numbers but for the last one's first digit, and for the line `end`
    let digits = length.saturating_sub(25);
    for _ in 0..digits / 21 {
        text.extend_from_slice(b" 18446744073709551615")?;
    }
    text.extend_from_slice(b" 1")?;
    for _ in 0..digits % 21 {
        text.push(b'0')?;
    }
    text.extend_from_slice(b"\nend\n")?;
    Ok(text)
}

#[test]
fn takes_no_report_of_a_byte_too_many(rt: HostRuntime) -> Result<(), Fail> {
    let table = [
        (134_217_728, Finding::No { line: 22 }),
        (134_217_729, Finding::Faulty { line: 0, code: 13 }),
    ];
    for (length, finding) in table {
        let text = with_long_report(rt.alloc(), length)?;
        assert_eq!(rt; text.len(), WORKLOAD.len().saturating_add(length));
        assert_eq!(rt; check_short(rt.alloc(), text.as_slice())?, finding);
    }
    Ok(())
}

/// A report by itself: its lines count from 1.
#[test]
fn judges_a_report(rt: HostRuntime) -> Result<(), Fail> {
    let table = [
        (
            "report 1\nW 1 0 0 : 1\nW 2 0 1 : 2\nR 2 0 2 : 2\nmem 3 2\nend\n",
            Verdict::Yes,
        ),
        ("report 1\nW 1 0 0 : 1\nend\n", Verdict::No { line: 3 }),
    ];
    for (text, expected) in table {
        let verdict = verdict(rt.alloc(), WORKLOAD, text.as_bytes())?;
        assert_eq!(rt; (text, verdict), (text, expected));
    }
    let fault = match read_report(rt.alloc(), b"report 1\n") {
        Err(ParseError::Fault { line, code }) => Some((line, code)),
        _ => None,
    };
    assert_eq!(rt; fault, Some((2, 3)));
    Ok(())
}

/// Emits, a cancelled transaction, two callers and a structure.
#[test]
fn runs_every_kind_of_row(rt: HostRuntime) -> Result<(), Fail> {
    let workload =
        "stm 1\nwords 1024\ncallers 2\nrecords 4\nring 4\nreads 256\nwrites 256\nclock 0\nalg TML\nstructs on\ntx 1\nwrite 0 5\ncancel\nend\ntx 0\nirrev\nwrite 0 7\nemit 0\nend\nswitch 0 CGL\ntx 1\nladd 4\nllen\nend\nschedule\ngo 0 1\ndone\n";
    let table = [
        (
            "report 1\nC 0 1 0 : 5 1\nW 2 0 0 : 1 7 7 ! 7\nW 3 1 1 : 1 1\nmem 0 7\nmem 128 1\nmem 129 5\nend\n",
            Finding::Yes,
        ),
        (
            "report 1\nC 0 1 0 : 5 1\nW 2 0 0 : 1 7 7 ! 8\nend\n",
            Finding::No { line: 30 },
        ),
        ("report 1\nR 0 1 0 : 5 0\nend\n", Finding::No { line: 29 }),
        (
            "report 1\nW 2 1 0 : 5 0\nW 3 0 0 : 1 7 7 ! 7\nW 4 1 1 : 0 1\nend\n",
            Finding::No { line: 31 },
        ),
    ];
    for (report, finding) in table {
        let mut text = String::new(rt.alloc());
        text.push_str(workload)?;
        text.push_str(report)?;
        assert_eq!(rt;
            (report, check(rt.alloc(), text.as_bytes())?.finding),
            (report, finding)
        );
    }
    Ok(())
}
