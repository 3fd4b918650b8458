//! The sentences of faults: where they are, what stands there and what may stand there.
use std::alloc::Global;
use std::process::Abort;
use std::test::Fail;
use work_check::checking::{Finding, MOST_CHECKED, Part, check};
use work_faults::fault::Fault;
use work_faults::report::checked_fault;
use work_faults::trace::trace_fault;
use work_faults::workload::workload_fault;
use work_faults::wrong::wrong_line;
use work_text::parse::{Mode, ParseError, parse};

/// A workload of version 1; ` / ` parts two lines.
const ONE: &str =
    "stm 1 / words 8 / callers 1 / records 4 / ring 4 / reads 256 / writes 256 / clock 0 / alg CGL / structs off / \
     tx 0 / add 3 1 / end / done";

/// One of version 2.
const TWO: &str =
    "stm 2 / words 100 / callers 2 / records 4 / ring 4 / reads 8 / writes 8 / clock 0 / alg TML / regions 2 / \
     region counter 0 4 / region queue 10 3 / policy fixed / tx 1 / count 0 1 2 / qput 1 5 / end / done";

/// A report of the first one.
const REPORT: &str = "report 1 / W 1 0 0 : 1 / mem 3 1 / end";

/// A line of [`ONE`], what stands there in its place, and what is said of it.
const FAULTS_ONE: [(usize, &str, &str); 23] = [
    (
        1,
        "stm 3",
        "line 1, `stm 3`: `3` can't stand there; here stands `stm 1`, `stm 2`",
    ),
    (
        2,
        "words 0",
        "line 2, `words 0`: `0` is out of its range; here stands `words N`, N from 1 to 65536",
    ),
    (
        3,
        "caller 1",
        "line 3, `caller 1`: no line here begins with `caller`; here stands `callers N`, N from 1 to 32",
    ),
    (
        5,
        "ring 65",
        "line 5, `ring 65`: `65` is out of its range; here stands `ring N`, N from 2 to 64",
    ),
    (
        8,
        "clock 01",
        "line 8, `clock 01`: `01` is no number below 2^64 without a leading 0; here stands `clock N`, N from 0 to 4611686018427387904",
    ),
    (
        9,
        "alg cgl",
        "line 9, `alg cgl`: `cgl` is no algorithm; here stands `alg CGL`, `alg TML`, `alg OrecLazy`, `alg OrecEager`, `alg RingSW`, `alg Serial`",
    ),
    (
        10,
        "structs on",
        "line 10, `structs on`: structures take 1024 words, and line 2 has 8; here stands `structs off`",
    ),
    (
        11,
        "tx 1",
        "line 11, `tx 1`: `1` is out of its range; here stands `tx C`, C 0",
    ),
    (
        11,
        "add 3 1",
        "line 11, `add 3 1`: no line here begins with `add`; here stands `tx C`, `done`, `switch C ALG`, `schedule`",
    ),
    (
        12,
        "ad 3 1",
        "line 12, `ad 3 1`: no line here begins with `ad`; here stands `add A V`, `read A`, `end`, `move A B V`, `write A V`, `irrev`, `cancel`",
    ),
    (
        12,
        "add 3",
        "line 12, `add 3`: it has too few words; here stands `add A V`, A from 0 to 7, V below 2^64",
    ),
    (
        12,
        "add  3 1",
        "line 12, `add  3 1`: one space stands between two words, and none at an end; here stands `add A V`, A from 0 to 7, V below 2^64",
    ),
    (
        12,
        "move 1 8 18446744073709551616",
        "line 12, `move 1 8 18446744073709551616`: `18446744073709551616` is no number below 2^64 without a leading 0; here stands `move A B V`, A and B from 0 to 7, V below 2^64",
    ),
    (
        12,
        "",
        "line 12, ``: the line is empty; here stands `read A`, `write A V`, `add A V`, `move A B V`, `irrev`, `cancel`, `end`",
    ),
    (
        12,
        "emit 3",
        "line 12, `emit 3`: an `emit` comes only after an `irrev` of its transaction; here stands `write A V`, `end`, `read A`, `add A V`, `move A B V`, `irrev`, `cancel`",
    ),
    (
        12,
        "ladd 3",
        "line 12, `ladd 3`: structures are off (line 10); here stands `add A V`, `read A`, `end`, `move A B V`, `write A V`, `irrev`, `cancel`",
    ),
    (
        12,
        "add 3 1\r",
        "line 12, `add 3 1<13>`: its byte 8 is 13, a carriage return, none from 32 to 126; here stands `add A V`, A from 0 to 7, V below 2^64",
    ),
    (
        12,
        "0123456789012345678901234567890123456789012345678901234567890",
        "line 12, `01234567890123456789012345678901234567890123456 ..`: no line here begins with `01234567890123456 ..`; here stands `read A`, `write A V`, `add A V`, `move A B V`, `irrev`, `cancel`, `end`",
    ),
    (
        13,
        "done",
        "line 13, `done`: no line here begins with `done`; here stands `move A B V`, `end`, `read A`, `write A V`, `add A V`, `irrev`, `cancel`",
    ),
    (
        14,
        "schedule / go 1 1 / done",
        "line 15, `go 1 1`: `1` is out of its range; here stands `go C N`, C 0, N from 1 to 1000000",
    ),
    (
        14,
        "schedule / go 0 1000000 / go 0 1 / done",
        "line 16, `go 0 1`: a schedule has at most 1000000 turns in all; here stands `done`",
    ),
    (
        14,
        "done / done",
        "line 15, `done`: nothing follows the line `done`; here stands the end of the text",
    ),
    (
        14,
        "tx 0 / end",
        "line 16: the text ends before its line `done`; here stands `tx C`, `switch C ALG`, `schedule`, `done`",
    ),
];

/// The same of [`TWO`].
const FAULTS_TWO: [(usize, &str, &str); 7] = [
    (
        10,
        "regions 17",
        "line 10, `regions 17`: `17` is out of its range; here stands `regions N`, N from 0 to 16",
    ),
    (
        11,
        "region stack 0 4",
        "line 11, `region stack 0 4`: `stack` can't stand there; here stands `region counter 0 1`, `region list 0 1`, `region hash 0 1`, `region tree 0 1`, `region queue 0 1` ..",
    ),
    (
        12,
        "region queue 3 3",
        "line 12, `region queue 3 3`: it begins at 3, and the first free word is 4; here stands `region queue 4 SIZE`, SIZE from 1 to 94",
    ),
    (
        13,
        "policy round:0",
        "line 13, `policy round:0`: `round:0` is out of its range; here stands `policy round:N`, N from 1 to 65536",
    ),
    (
        14,
        "reserve 0 1",
        "line 14, `reserve 0 1`: it has too few words; here stands `reserve C X Y`, C from 0 to 1, X and Y from 1 to 4096",
    ),
    (
        15,
        "count 1 1 2",
        "line 15, `count 1 1 2`: region `1` is a queue (line 12); here stands `count R S V`, R 0, S from 0 to 3, V below 2^64",
    ),
    (
        15,
        "read 10",
        "line 15, `read 10`: `10` is a structure's word; here stands `read A`, A from 4 to 9 or from 15 to 99",
    ),
];

/// What stands in the place of a line of [`REPORT`], after [`ONE`], and what is said of it.
const FAULTS_REPORT: [(usize, &str, &str); 6] = [
    (
        1,
        "report 2",
        "line 15 (1 of the report), `report 2`: `2` can't stand there; here stands `report 1`",
    ),
    (
        2,
        "W 1 0 0 : 1\r",
        "line 16 (2 of the report), `W 1 0 0 : 1<13>`: its byte 12 is 13, a carriage return, none from 32 to 126; here stands `W PLACE CALLER SEQ : REPLIES`, with emits ` ! EMITS` too",
    ),
    (
        2,
        "W 1 0 : 1",
        "line 16 (2 of the report), `W 1 0 : 1`: `:` is no number below 2^64 without a leading 0; here stands `W PLACE CALLER SEQ : REPLIES`, with emits ` ! EMITS` too",
    ),
    (
        3,
        "mem 3 1 / mem 3 1",
        "line 18 (4 of the report), `mem 3 1`: address `3` isn't above that of the line before, 3; here stands `mem A V`, A from 4 on, V from 1 on, both below 2^64",
    ),
    (
        4,
        "end / end",
        "line 19 (5 of the report), `end`: nothing follows the line `end`; here stands the end of the text",
    ),
    (
        4,
        "mem 4 1",
        "line 19 (5 of the report): the text ends before its line `end`; here stands `mem 5 1`, `end`",
    ),
];

/// A workload of three transactions, of which the second may be cancelled.
const THREE: &str =
    "stm 1 / words 8 / callers 2 / records 4 / ring 4 / reads 256 / writes 256 / clock 0 / alg CGL / structs off / \
     tx 0 / add 3 1 / end / tx 0 / read 3 / cancel / end / tx 1 / add 3 1 / irrev / emit 3 / end / done";

/// A report that doesn't replay [`THREE`], and what is said of it. The report `report 1 / W 1 0 0 : 1 / C 1 0 1 : 1 1 /
/// W 2 1 0 : 2 1 2 ! 2 / mem 3 2 / end` does.
const WRONG_REPORTS: [(&str, &str); 12] = [
    (
        "report 1 / W 1 0 0 : 2 / end",
        "line 25 (2 of the report), `W 1 0 0 : 2`: reply 1 (`add 3 1`, line 12 of the workload): stands `2`, wanted `1`; here stands `W 1 0 0 : 1`",
    ),
    (
        "report 1 / R 1 0 0 : 1 / end",
        "line 25 (2 of the report), `R 1 0 0 : 1`: its kind: stands `R`, wanted `W`; here stands `W 1 0 0 : 1`",
    ),
    (
        "report 1 / C 1 0 0 : 1 / end",
        "line 25 (2 of the report), `C 1 0 0 : 1`: its kind: stands `C`, wanted `W`; here stands `W 1 0 0 : 1`",
    ),
    (
        "report 1 / W 1 0 0 : 1 / C 1 0 1 : 1 / end",
        "line 26 (3 of the report), `C 1 0 1 : 1`: reply 2 (`cancel`, line 16 of the workload): stands none, wanted `1`; here stands `C 1 0 1 : 1 1`",
    ),
    (
        "report 1 / W 1 0 0 : 1 / C 1 0 1 : 1 1 / W 2 1 0 : 2 1 2 / end",
        "line 27 (4 of the report), `W 2 1 0 : 2 1 2`: emit 1 (`emit 3`, line 21 of the workload): stands none, wanted `2`; here stands `W 2 1 0 : 2 1 2 ! 2`",
    ),
    (
        "report 1 / W 1 0 0 : 1 / W 0 1 0 : 2 1 2 ! 2 / end",
        "line 26 (3 of the report), `W 0 1 0 : 2 1 2 ! 2`: it doesn't come after the row above it; here stands a row that does: by place, then W before R and C, then by caller, then by number",
    ),
    (
        "report 1 / W 1 0 0 : 1 / W 1 1 0 : 2 1 2 ! 2 / end",
        "line 26 (3 of the report), `W 1 1 0 : 2 1 2 ! 2`: the W row above it has the place 1 too; here stands a place above 1",
    ),
    (
        "report 1 / W 1 0 0 : 1 / C 1 0 2 : 1 1 / end",
        "line 26 (3 of the report), `C 1 0 2 : 1 1`: transaction 1 of caller 0 is next, and this is 2; here stands the number 1",
    ),
    (
        "report 1 / W 1 0 0 : 1 / W 2 1 0 : 2 1 2 ! 2 / mem 3 2 / end",
        "line 27 (4 of the report), `mem 3 2`: transaction 1 of caller 0 (line 14 of the workload) has no row; here stands `K PLACE 0 1 : REPLIES`, K one of W, R, C",
    ),
    (
        "report 1 / W 1 0 0 : 1 / C 1 0 1 : 1 1 / W 2 1 0 : 2 1 2 ! 2 / mem 3 1 / end",
        "line 28 (5 of the report), `mem 3 1`: the rows leave 2 in the word 3, which is next; here stands `mem 3 2`",
    ),
    (
        "report 1 / W 1 0 0 : 1 / C 1 0 1 : 1 1 / W 2 1 0 : 2 1 2 ! 2 / end",
        "line 28 (5 of the report), `end`: the rows leave 2 in the word 3, which is next; here stands `mem 3 2`",
    ),
    (
        "report 1 / W 1 0 0 : 1 / C 1 0 1 : 1 1 / W 2 1 0 : 2 1 2 ! 2 / mem 3 2 / mem 4 1 / end",
        "line 29 (6 of the report), `mem 4 1`: no further word isn't 0; here stands `end`",
    ),
];

/// A text that isn't one that `step` writes, its first line at fault, and what is said of it.
const FAULTS_TRACE: [(&str, usize, &str); 3] = [
    (
        "0 begin CGL / 0 red 3",
        2,
        "line 2, `0 red 3`: `step` writes no such line; here stands a turn, as `0 begin CGL` or `1 read 5`, or `finish`, or then `report 1` or `clock full C`",
    ),
    (
        "finish / report 1 / end / end",
        4,
        "line 4 (3 of the report), `end`: nothing follows the line `end`; here stands the end of the text",
    ),
    (
        "finish / clock full 4611686018427387904 / finish",
        3,
        "line 3, `finish`: nothing follows the line `clock full C`; here stands the end of the text",
    ),
];

/// These lines, each ended by LF, with others in the place of one of them.
fn changed(alloc: Global, base: &str, line: usize, by: &str) -> Result<String, Fail> {
    let mut text = String::new(alloc);
    let mut number = 0usize;
    for own in base.split(" / ") {
        number = number.saturating_add(1);
        for part in (if number == line { by } else { own }).split(" / ") {
            text.push_str(part)?;
            text.push_str("\n")?;
        }
    }
    Ok(text)
}

/// What is said of the text of a workload for `step`.
fn said_of(alloc: Global, text: &str) -> Result<String, Fail> {
    let Err(ParseError::Fault { line, code }) = parse(alloc, text.as_bytes(), Mode::Step) else {
        return Err(Fail::new("a text without a fault"));
    };
    Ok(workload_fault(alloc, Mode::Step, text.as_bytes(), line, Fault::of(code))?)
}

/// What is said of a workload and a report.
fn said_of_check(alloc: Global, text: &str) -> Result<String, Fail> {
    if MOST_CHECKED < text.len() {
        return Err(Fail::new("a text that is too long"));
    }
    let checked = check(alloc, text.as_bytes())?;
    let Finding::Faulty { line, code } = checked.finding else {
        return Err(Fail::new("a text without a fault"));
    };
    Ok(checked_fault(alloc, text.as_bytes(), checked.part, line, Fault::of(code))?)
}

/// What is said of a workload and a report that doesn't replay it.
fn said_of_no(alloc: Global, text: &str) -> Result<String, Fail> {
    if MOST_CHECKED < text.len() {
        return Err(Fail::new("a text that is too long"));
    }
    let checked = check(alloc, text.as_bytes())?;
    let (Finding::No { line }, Some(wanted)) = (checked.finding, checked.wanted) else {
        return Err(Fail::new("a report that replays its workload"));
    };
    Ok(wrong_line(alloc, text.as_bytes(), line, wanted)?)
}

fn compare(
    rt: &impl Abort,
    alloc: Global,
    base: &str,
    faults: &[(usize, &str, &str)],
) -> Result<(), Fail> {
    for (line, by, said) in faults {
        let text = changed(alloc, base, *line, by)?;
        assert_eq!(rt; said_of(alloc, text.as_str())?.as_str(), *said);
    }
    Ok(())
}

#[test]
fn a_fault_of_a_workload_is_told(rt: HostRuntime) -> Result<(), Fail> {
    compare(&rt, rt.alloc(), ONE, &FAULTS_ONE)?;
    compare(&rt, rt.alloc(), TWO, &FAULTS_TWO)
}

#[test]
fn a_fault_of_a_report_is_told(rt: HostRuntime) -> Result<(), Fail> {
    let alloc = rt.alloc();
    for (line, by, said) in FAULTS_REPORT {
        let mut text = changed(alloc, ONE, 0, "")?;
        text.push_str(changed(alloc, REPORT, line, by)?.as_str())?;
        assert_eq!(rt; said_of_check(alloc, text.as_str())?.as_str(), said);
    }
    Ok(())
}

#[test]
fn a_fault_of_a_trace_is_told(rt: HostRuntime) -> Result<(), Fail> {
    let alloc = rt.alloc();
    for (lines, line, said) in FAULTS_TRACE {
        let text = changed(alloc, lines, 0, "")?;
        assert_eq!(rt;
            trace_fault(alloc, text.as_bytes(), line, 134_217_728)?.as_str(),
            said
        );
    }
    Ok(())
}

/// A schedule under `run`, a last line without its LF, and texts that are too long have sentences of their own.
#[test]
fn the_other_faults_are_told(rt: HostRuntime) -> Result<(), Fail> {
    let alloc = rt.alloc();
    let text = changed(alloc, ONE, 14, "schedule / done")?;
    assert_eq!(rt;
        workload_fault(alloc, Mode::Run, text.as_bytes(), 14, Fault::Word)?.as_str(),
        "line 14, `schedule`: `run` takes no schedule, `step` does; here stands `done`, `switch C ALG`, `tx C`"
    );
    assert_eq!(rt;
        workload_fault(alloc, Mode::Step, b"stm 1\nwords 8", 2, Fault::Unended)?.as_str(),
        "line 2, `words 8`: the line has no LF at its end; here stands `words N`, N from 1 to 65536"
    );
    assert_eq!(rt;
        workload_fault(alloc, Mode::Step, b"", 0, Fault::Long)?.as_str(),
        "the text has more than 16777216 bytes; here stands a workload of at most so many"
    );
    assert_eq!(rt;
        checked_fault(alloc, b"", Part::Report, 0, Fault::LongReport)?.as_str(),
        "the report has more than 134217728 bytes; here stands one of at most so many"
    );
    let text = changed(alloc, ONE, 0, "")?;
    assert_eq!(rt;
        said_of_check(alloc, text.as_str())?.as_str(),
        "line 15 (1 of the report): the text ends before its line `end`; here stands `report 1`"
    );
    let text = changed(alloc, ONE, 14, "tx 0 / end")?;
    assert_eq!(rt;
        said_of_check(alloc, text.as_str())?.as_str(),
        "line 16: the text ends before its line `done`; here stands `tx C`, `switch C ALG`, `schedule`, `done`"
    );
    Ok(())
}

/// What the replay wants in the place of a fault.
#[test]
fn a_report_that_does_not_replay_is_told(rt: HostRuntime) -> Result<(), Fail> {
    let alloc = rt.alloc();
    for (report, said) in WRONG_REPORTS {
        let mut text = changed(alloc, THREE, 0, "")?;
        text.push_str(changed(alloc, report, 0, "")?.as_str())?;
        assert_eq!(rt; said_of_no(alloc, text.as_str())?.as_str(), said);
    }
    Ok(())
}
