//! Reports with a wrong, a lost or a doubled character: `check` says what a plain slow replay says.
use crate::plain_replay::{Script, judge, scripts};
use std::alloc::Global;
use std::process::Abort;
use std::test::Fail;
use work_check::checking::{Finding, MOST_CHECKED, check};

/// The characters that take another's place, or come before it.
const WRONG: &[u8; 26] = b"\0\t\n !:-0123456789WRCmenx\x7f\xff";

/// The header of the workloads, for 32 callers.
const HEADER: &str =
    "stm 1 / words 8 / callers 32 / records 4 / ring 4 / reads 256 / writes 256 / clock 0 / alg CGL / structs off";

/// The lines after the header of a workload, a report that replays it, and how many of the reports that differ from it
/// by one character are found right, found wrong, and not in the form of a report.
const REPORTS: [(&str, &str, [usize; 3]); 3] = [
    (
        "tx 0 / add 3 1 / end / tx 0 / add 3 1 / end / tx 0 / read 3 / end / done",
        "report 1 / W 1 0 0 : 1 / W 2 0 1 : 2 / R 2 0 2 : 2 / mem 3 2 / end",
        [78, 330, 2613],
    ),
    (
        "tx 0 / write 0 5 / irrev / emit 0 / add 1 7 / end / tx 1 / move 0 2 3 / cancel / end / switch 1 TML / tx 1 / read 2 / move 0 1 1 / end / tx 0 / cancel / write 0 1 / end / done",
        "report 1 / W 1 0 0 : 5 1 5 7 ! 5 / C 1 1 0 : 1 1 / W 2 1 1 : 0 1 / C 2 0 1 : 1 / mem 0 4 / mem 1 8 / end",
        [112, 684, 4027],
    ),
    (
        "tx 31 / end / tx 0 / write 7 18446744073709551615 / add 7 2 / irrev / emit 7 / emit 0 / end / tx 31 / irrev / cancel / move 7 7 1 / move 6 7 1 / end / done",
        "report 1 / R 0 31 0 : / W 3 0 0 : 18446744073709551615 1 1 1 0 ! 1 0 / W 18446744073709551615 31 1 : 1 0 1 0 / mem 7 1 / end",
        [244, 714, 5137],
    ),
];

/// The lines that stand in one, each ended by LF.
fn lines(alloc: Global, line: &str) -> Result<String, Fail> {
    let mut text = line.replace(alloc, " / ", "\n")?;
    text.push_str("\n")?;
    Ok(text)
}

/// What a plain replay finds of a report after this text, with the text's lines counted.
fn judged(alloc: Global, text: &str, scripts: &[Script], report: &[u8]) -> Result<Finding, Fail> {
    let above = text.lines().count();
    Ok(match judge(alloc, scripts, report)? {
        Finding::Yes => Finding::Yes,
        Finding::No { line } => Finding::No {
            line: line.saturating_add(above),
        },
        Finding::Faulty { line, code } => Finding::Faulty {
            line: line.saturating_add(above),
            code,
        },
    })
}

/// Compares what `check` finds of a report with that. Answers 0 where it is found right, 1 where it is found wrong, and
/// 2 where it isn't in the form of a report.
fn compare(
    rt: &impl Abort,
    alloc: Global,
    text: &str,
    scripts: &[Script],
    report: &[u8],
) -> Result<usize, Fail> {
    let finding = judged(alloc, text, scripts, report)?;
    let mut whole = text.as_bytes().to_vec(alloc)?;
    whole.extend_from_slice(report)?;
    if whole.len() > MOST_CHECKED {
        return Err(Fail::new("a text that is too long"));
    }
    assert_eq!(rt;
        (report, check(alloc, whole.as_slice())?.finding),
        (report, finding)
    );
    Ok(match finding {
        Finding::Yes => 0,
        Finding::No { .. } => 1,
        Finding::Faulty { .. } => 2,
    })
}

/// The bytes with so many of them from here on replaced by these.
fn replaced(
    alloc: Global,
    bytes: &[u8],
    at: usize,
    count: usize,
    by: &[u8],
) -> Result<Vec<u8>, Fail> {
    let mut damaged = bytes.get(..at).unwrap_or(&[]).to_vec(alloc)?;
    damaged.extend_from_slice(by)?;
    damaged.extend_from_slice(bytes.get(at.saturating_add(count)..).unwrap_or(&[]))?;
    Ok(damaged)
}

/// How many of the reports that differ from this one by one character are found right, found wrong, and not in the form
/// of a report.
fn count_findings(
    rt: &impl Abort,
    alloc: Global,
    text: &str,
    scripts: &[Script],
    report: &[u8],
) -> Result<[usize; 3], Fail> {
    let mut counts = [0usize; 3];
    for at in 0..report.len() {
        // each wrong one in this one's place, and before it; and none in its place
        for damage in 0..53usize {
            let wrong = WRONG.get(damage / 2..damage / 2 + 1).unwrap_or(&[]);
            let damaged = replaced(alloc, report, at, (damage + 1) % 2, wrong)?;
            let found = compare(rt, alloc, text, scripts, damaged.as_slice())?;
            if let Some(count) = counts.get_mut(found) {
                *count = count.saturating_add(1);
            }
        }
    }
    Ok(counts)
}

#[test]
fn a_damaged_report_is_judged_as_by_a_plain_replay(rt: HostRuntime) -> Result<(), Fail> {
    let alloc = rt.alloc();
    for (body, report, found) in REPORTS {
        let mut text = lines(alloc, HEADER)?;
        text.push_str(lines(alloc, body)?.as_str())?;
        let report = lines(alloc, report)?;
        let scripts = scripts(alloc, text.as_str())?;
        let report = report.as_str();
        let right = compare(&rt, alloc, &text, &scripts, report.as_bytes())?;
        assert_eq!(rt; (report, right), (report, 0));
        let counts = count_findings(&rt, alloc, &text, &scripts, report.as_bytes())?;
        assert_eq!(rt; (report, counts), (report, found));
    }
    Ok(())
}
