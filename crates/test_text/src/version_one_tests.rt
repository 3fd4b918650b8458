use smallvec::SmallVec;
use std::alloc::{AllocError, Global};
use std::process::Abort;
use std::test::Fail;
use stm_model::alg::{ALGORITHMS, Alg};
use work_profile::policy::Policy;
use work_script::lists::Words;
use work_script::op::Op;
use work_script::report::{Kind, Pairs, Report, Row, Rows};
use work_script::workload::{Go, Item, Version, Workload};
use work_text::parse::{Mode, ParseError, parse};
use work_text::parting::{count_lines, part_at_done};
use work_text::report::{report_text, report_text_by};

/// Two transactions that add and one that reads.
const LINES: [&str; 20] = [
    "stm 1",
    "words 8",
    "callers 1",
    "records 4",
    "ring 4",
    "reads 256",
    "writes 256",
    "clock 0",
    "alg CGL",
    "structs off",
    "tx 0",
    "add 3 1",
    "end",
    "tx 0",
    "add 3 1",
    "end",
    "tx 0",
    "read 3",
    "end",
    "done",
];

/// Those lines with another in one's place, counted from 1.
fn with_line(alloc: Global, number: usize, other: &str) -> Result<String, AllocError> {
    let mut text = String::new(alloc);
    for (i, line) in LINES.iter().enumerate() {
        text.push_str(if i + 1 == number { other } else { *line })?;
        text.push_str("\n")?;
    }
    Ok(text)
}

/// The header of those lines, and what follows it.
fn with_body(alloc: Global, body: &str) -> Result<String, AllocError> {
    let mut text = String::new(alloc);
    for (i, line) in LINES.iter().enumerate() {
        if i < 10 {
            text.push_str(line)?;
            text.push_str("\n")?;
        }
    }
    text.push_str(body)?;
    Ok(text)
}

/// The first fault of a text, its line and its code; line 0 and code 0 where memory is refused.
fn fault(alloc: Global, text: &[u8], mode: Mode) -> Option<(usize, u32)> {
    match parse(alloc, text, mode) {
        Ok(_) => None,
        Err(ParseError::Fault { line, code }) => Some((line, code)),
        Err(ParseError::Memory) => Some((0, 0)),
    }
}

const LINES_REFUSED: &[(usize, &str, u32)] = &[
    (1, "stm 3", 4),
    (1, "stm", 4),
    (1, "stm 1 ", 4),
    (1, " stm 1", 4),
    (1, "stm  1", 4),
    (1, "", 4),
    (1, "stm\t1", 2),
    (2, "words 0", 6),
    (2, "words 65537", 6),
    (2, "words 08", 5),
    (2, "words +8", 5),
    (2, "words ", 4),
    (2, "words 18446744073709551616", 5),
    (2, "words 18446744073709551615", 6),
    (2, "words", 4),
    (2, "words 8 8", 4),
    (2, "records 4", 4),
    (3, "callers 0", 6),
    (3, "callers 33", 6),
    (4, "records 4097", 6),
    (5, "ring 1", 6),
    (5, "ring 65", 6),
    (6, "reads 0", 6),
    (7, "writes 4097", 6),
    (8, "clock 4611686018427387905", 6),
    (8, "clock -1", 5),
    (9, "alg none", 7),
    (9, "algorithm CGL", 4),
    (10, "structs on", 8),
    (10, "structs On", 4),
    (10, "structs", 4),
    (11, "tx 1", 6),
    (11, "tx x", 5),
    (11, "tx", 4),
    (11, "tx ", 4),
    (11, "switch 0", 4),
    (11, "switch 0 CGL 1", 4),
    (11, "switch x none", 5),
    (11, "switch 1 none", 6),
    (11, "switch 0 none", 7),
    (11, "go 0 1", 4),
    (11, "schedule", 4),
    (11, "read 0", 4),
    (12, "add 8 1", 6),
    (12, "add 9 01", 5),
    (12, "add 03 1", 5),
    (12, "add 3 18446744073709551616", 5),
    (12, "add 3", 4),
    (12, "add 3 1 1", 4),
    (12, "add  3", 4),
    (12, "add x ", 4),
    (12, "emit 3", 9),
    (12, "emit 8", 6),
    (12, "emit 03", 5),
    (12, "emit", 4),
    (12, "emit 3 3", 4),
    (12, "irrev 1", 4),
    (12, "irrev ", 4),
    (12, "cancel ", 4),
    (12, "cancel 1", 4),
    (12, "llen", 8),
    (12, "llen 1", 4),
    (12, "ladd 5", 8),
    (12, "ladd", 4),
    (12, "ladd 05", 5),
    (12, "ladd 4294967296", 6),
    (12, "count 3 1", 8),
    (12, "count 4 1", 6),
    (12, "count 4 x", 5),
    (12, "count 3", 4),
    (12, "move 8 1", 4),
    (12, "move 8  1", 4),
    (12, "move 8 9 1 1", 4),
    (12, "move 8 01 1", 5),
    (12, "move 8 9 x", 5),
    (12, "move 8 0 1", 6),
    (12, "move 0 8 1", 6),
    (12, "switch 0 CGL", 4),
    (12, "done", 4),
    (12, "read 8", 6),
    (12, "write 8 0", 6),
    (12, "write 0 \x7f", 2),
    (13, "end ", 4),
    (20, "done ", 4),
];

#[test]
fn refuses_lines(rt: HostRuntime) -> Result<(), Fail> {
    for (line, other, code) in LINES_REFUSED {
        let text = with_line(rt.alloc(), *line, other)?;
        assert_eq!(rt;
            (other, fault(rt.alloc(), text.as_bytes(), Mode::Run)),
            (other, Some((*line, *code)))
        );
    }
    Ok(())
}

/// A header with 1,024 words and structures on, and a transaction with these operations.
fn with_structures(alloc: Global, operations: &str) -> Result<String, AllocError> {
    let mut text = String::new(alloc);
    for (i, line) in LINES.iter().enumerate() {
        if i < 10 {
            text.push_str(match i {
                1 => "words 1024",
                9 => "structs on",
                _ => *line,
            })?;
            text.push_str("\n")?;
        }
    }
    text.push_str("tx 0\n")?;
    text.push_str(operations)?;
    text.push_str("end\ndone\n")?;
    Ok(text)
}

const ADDRESSES: &[(&str, Option<(usize, u32)>)] = &[
    ("read 63\n", None),
    ("read 64\n", Some((12, 8))),
    ("write 1023 1\n", Some((12, 8))),
    ("write 1024 1\n", Some((12, 6))),
    ("add 64 01\n", Some((12, 5))),
    ("move 64 1024 1\n", Some((12, 6))),
    ("move 63 64 1\n", Some((12, 8))),
    ("emit 64\n", Some((12, 8))),
    ("emit 63\n", Some((12, 9))),
    ("ladd 4294967296\n", Some((12, 6))),
    ("count 4 1\n", Some((12, 6))),
];

#[test]
fn keeps_plain_addresses_out_of_structures(rt: HostRuntime) -> Result<(), Fail> {
    for (operations, found) in ADDRESSES {
        let text = with_structures(rt.alloc(), operations)?;
        assert_eq!(rt;
            (operations, fault(rt.alloc(), text.as_bytes(), Mode::Run)),
            (operations, *found)
        );
    }
    Ok(())
}

/// A line for each operation on a structure.
const ON_STRUCTURES: &str =
    "count 3 9\ntotal\nladd 1\nldel 2\nlhas 3\nllen\nhadd 4\nhdel 5\nhhas 6\ntadd 7\ntdel 8\nthas 4294967295\ntmin\n";

/// Those operations, in one script.
const STRUCTURE_SCRIPTS: &[&[Op]] = &[&[
    Op::Count(0, 3, 9),
    Op::Total(0),
    Op::ListInsert(1, 1),
    Op::ListRemove(1, 2),
    Op::ListContains(1, 3),
    Op::ListLength(1),
    Op::HashInsert(2, 4),
    Op::HashRemove(2, 5),
    Op::HashContains(2, 6),
    Op::TreeInsert(3, 7),
    Op::TreeRemove(3, 8),
    Op::TreeContains(3, 4294967295),
    Op::TreeLeast(3),
]];

#[test]
fn reads_operations_on_structures(rt: HostRuntime) -> Result<(), Fail> {
    let text = with_structures(rt.alloc(), ON_STRUCTURES)?;
    let read = parse(rt.alloc(), text.as_bytes(), Mode::Run)?;
    assert_eq!(rt; read.header.regions.as_slice().len(), 4);
    assert_scripts(&rt, &read, STRUCTURE_SCRIPTS);
    Ok(())
}

/// A text under the algorithm of this name.
fn under(alloc: Global, name: &str) -> Result<String, AllocError> {
    let line = format!(in alloc; "alg {name}")?;
    with_line(alloc, 9, line.as_str())
}

/// The algorithm that a text names.
fn header_algorithm(alloc: Global, text: &[u8]) -> Result<Alg, ParseError> {
    match parse(alloc, text, Mode::Run) {
        Ok(read) => Ok(read.header.alg),
        Err(error) => Err(error),
    }
}

#[test]
fn takes_each_algorithm(rt: HostRuntime) -> Result<(), Fail> {
    for alg in ALGORITHMS {
        let text = under(rt.alloc(), alg.name())?;
        assert_eq!(rt;
            (alg, header_algorithm(rt.alloc(), text.as_bytes())),
            (alg, Ok(alg))
        );
    }
    Ok(())
}

const EMITS: &[(&str, usize, u32)] = &[
    ("tx 0\nread 0\nemit 0\nirrev\n", 13, 9),
    ("tx 0\nirrev\nend\ntx 0\nemit 3\n", 15, 9),
    ("tx 0\ncancel\nemit 3\n", 13, 9),
    ("tx 0\nirrev\nemit 3\nemit 8\n", 14, 6),
    ("tx 0\nirrev\nirrev\nemit 3\nend\nirrev\n", 16, 4),
];

#[test]
fn refuses_emits_that_come_too_early(rt: HostRuntime) -> Result<(), Fail> {
    for (body, line, code) in EMITS {
        let text = with_body(rt.alloc(), body)?;
        assert_eq!(rt;
            (body, fault(rt.alloc(), text.as_bytes(), Mode::Run)),
            (body, Some((*line, *code)))
        );
    }
    Ok(())
}

const ENDS: &[(&str, usize, u32)] = &[
    ("", 11, 3),
    ("done", 11, 3),
    ("don\te", 11, 2),
    ("tx 0\n", 12, 3),
    ("done\n\n", 12, 11),
    ("done\n\tx", 12, 11),
];

#[test]
fn refuses_ends(rt: HostRuntime) -> Result<(), Fail> {
    for (body, line, code) in ENDS {
        let text = with_body(rt.alloc(), body)?;
        assert_eq!(rt;
            (body, fault(rt.alloc(), text.as_bytes(), Mode::Run)),
            (body, Some((*line, *code)))
        );
    }
    assert_eq!(rt; fault(rt.alloc(), b"", Mode::Run), Some((1, 3)));
    Ok(())
}

const SCHEDULES: &[(&str, usize, u32)] = &[
    ("schedule\ngo 0 0\n", 12, 6),
    ("schedule\ngo 0 1000001\n", 12, 6),
    ("schedule\ngo 1 1\n", 12, 6),
    ("schedule\ngo 1 x\n", 12, 5),
    ("schedule\ngo 0\n", 12, 4),
    ("schedule\ngo 0 1 1\n", 12, 4),
    ("schedule\nschedule\n", 12, 4),
    ("schedule\ntx 0\n", 12, 4),
    ("schedule\nswitch 0 CGL\n", 12, 4),
    ("schedule \n", 11, 4),
    ("schedule\ngo 0 600000\ngo 0 400001\n", 13, 10),
    ("schedule\ngo 0 1000000\ngo 0 1\n", 13, 10),
    ("schedule\ngo 0 1000000\ngo 1 1\n", 13, 6),
    ("schedule\ngo 0 600000\ngo 0 400000\n", 14, 3),
    ("schedule\ndone\n\n", 13, 11),
];

#[test]
fn refuses_schedules(rt: HostRuntime) -> Result<(), Fail> {
    for (body, line, code) in SCHEDULES {
        let text = with_body(rt.alloc(), body)?;
        assert_eq!(rt;
            (body, fault(rt.alloc(), text.as_bytes(), Mode::Step)),
            (body, Some((*line, *code)))
        );
        assert_eq!(rt;
            (body, fault(rt.alloc(), text.as_bytes(), Mode::Run)),
            (body, Some((11, 4)))
        );
    }
    Ok(())
}

/// How many callers there may be under `step`.
const CALLERS: &[(&str, Option<(usize, u32)>)] = &[
    ("callers 32", None),
    ("callers 33", Some((3, 6))),
];

#[test]
fn counts_callers_by_mode(rt: HostRuntime) -> Result<(), Fail> {
    for (line, found) in CALLERS {
        let text = with_line(rt.alloc(), 3, line)?;
        assert_eq!(rt;
            (line, fault(rt.alloc(), text.as_bytes(), Mode::Step)),
            (line, *found)
        );
    }
    Ok(())
}

/// The least and the greatest that a line may ask for.
const LINES_TAKEN: &[(usize, &str)] = &[
    (2, "words 65536"),
    (3, "callers 32"),
    (4, "records 1"),
    (4, "records 4096"),
    (5, "ring 2"),
    (5, "ring 64"),
    (6, "reads 1"),
    (6, "reads 4096"),
    (7, "writes 1"),
    (7, "writes 4096"),
    (8, "clock 4611686018427387904"),
    (12, "add 7 18446744073709551615"),
];

#[test]
fn takes_the_least_and_the_greatest(rt: HostRuntime) -> Result<(), Fail> {
    for (line, other) in LINES_TAKEN {
        let text = with_line(rt.alloc(), *line, other)?;
        assert_eq!(rt;
            (other, fault(rt.alloc(), text.as_bytes(), Mode::Run)),
            (other, None)
        );
    }
    Ok(())
}

/// The header, and a line so many times.
fn repeated(
    alloc: Global,
    first: &str,
    line: &str,
    times: usize,
    last: &str,
) -> Result<String, AllocError> {
    let mut text = with_body(alloc, first)?;
    for _ in 0..times {
        text.push_str(line)?;
    }
    text.push_str(last)?;
    Ok(text)
}

/// How a body begins, a line that follows so many times, how it ends, and its first fault.
type Repeated = (
    &'static str,
    &'static str,
    usize,
    &'static str,
    Option<(usize, u32)>,
);

const MANY: &[Repeated] = &[
    ("", "tx 0\nend\n", 65536, "done\n", None),
    ("", "tx 0\nend\n", 65536, "tx 0\n", Some((131083, 10))),
    (
        "",
        "switch 0 CGL\n",
        65536,
        "switch 0 CGL\n",
        Some((65547, 10)),
    ),
    ("tx 0\n", "read 0\n", 4096, "end\ndone\n", None),
    ("tx 0\n", "read 0\n", 4096, "read 0\n", Some((4108, 10))),
    ("tx 0\n", "read 0\n", 4096, "read 8\n", Some((4108, 6))),
    // an `emit` that comes too early is one operation too many only after an `irrev`
    (
        "tx 0\nread 0\n",
        "read 0\n",
        4095,
        "emit 0\n",
        Some((4108, 9)),
    ),
    (
        "tx 0\nirrev\n",
        "read 0\n",
        4095,
        "emit 0\n",
        Some((4108, 10)),
    ),
];

#[test]
fn refuses_too_many(rt: HostRuntime) -> Result<(), Fail> {
    for (first, line, times, last, found) in MANY {
        let text = repeated(rt.alloc(), first, line, *times, last)?;
        assert_eq!(rt;
            (
                first,
                line,
                last,
                fault(rt.alloc(), text.as_bytes(), Mode::Run)
            ),
            (first, line, last, *found)
        );
    }
    Ok(())
}

#[test]
fn refuses_a_text_that_is_too_long(rt: HostRuntime) -> Result<(), Fail> {
    for (length, line, code) in [(16777216, 1, 4), (16777217, 0, 1)] {
        let long = vec![in rt.alloc(); b'\n'; length]?;
        assert_eq!(rt;
            fault(rt.alloc(), long.as_slice(), Mode::Run),
            Some((line, code))
        );
    }
    Ok(())
}

fn assert_scripts(rt: &impl Abort, read: &Workload, scripts: &[&[Op]]) {
    let items = read.items.as_slice();
    assert_eq!(rt; items.len(), scripts.len());
    for (item, ops) in items.iter().zip(scripts) {
        match item {
            Item::Tx { caller, script } => {
                assert_eq!(rt; *caller, 0);
                assert_eq!(rt; script.as_slice(), *ops);
            }
            Item::Switch { caller: _, alg: _ } => panic!(rt; "a switch"),
            Item::Reserve { .. } => panic!(rt; "a reserve"),
        }
    }
}

/// Bodies, and the scripts of their transactions.
const BODIES: &[(&str, &[&[Op]])] = &[
    (
        "tx 0\nirrev\nemit 2\ncancel\nemit 3\nend\ndone\n",
        &[&[Op::Irrev, Op::Emit(2), Op::Cancel, Op::Emit(3)]],
    ),
    (
        "tx 0\nadd 3 1\nend\ntx 0\nadd 3 1\nend\ntx 0\nread 3\nend\ndone\n",
        &[&[Op::Add(3, 1)], &[Op::Add(3, 1)], &[Op::Read(3)]],
    ),
    ("done\n", &[]),
    (
        "tx 0\nread 5\nend\ntx 0\nwrite 5 9\nend\ndone\n",
        &[&[Op::Read(5)], &[Op::Write(5, 9)]],
    ),
    (
        "tx 0\nwrite 2 7\nread 2\nwrite 2 8\nend\ndone\n",
        &[&[Op::Write(2, 7), Op::Read(2), Op::Write(2, 8)]],
    ),
];

/// The header is that of [`LINES`], and there is no schedule.
fn assert_header(rt: &impl Abort, read: &Workload) {
    let header = &read.header;
    let sizes = (header.words, header.records, header.ring, header.callers);
    assert_eq!(rt; sizes, (8, 4, 4, 1));
    assert_eq!(rt; (header.reads, header.writes, header.clock), (256, 256, 0));
    assert_eq!(rt; header.alg, Alg::Cgl);
    assert_eq!(rt; header.version, Version::One);
    assert_eq!(rt; header.policy, Policy::Fixed);
    assert!(rt; header.regions.as_slice().is_empty());
    assert!(rt; read.schedule.as_slice().is_empty());
}

#[test]
fn reads_workloads(rt: HostRuntime) -> Result<(), Fail> {
    for (body, scripts) in BODIES {
        let text = with_body(rt.alloc(), body)?;
        let read = parse(rt.alloc(), text.as_bytes(), Mode::Run)?;
        assert_header(&rt, &read);
        assert_scripts(&rt, &read, scripts);
    }
    Ok(())
}

/// Two callers, a switch and a schedule.
const STEPPED: &str =
    "stm 1\nwords 8\ncallers 2\nrecords 4\nring 4\nreads 256\nwrites 256\nclock 0\nalg CGL\nstructs off\ntx 1\nmove 2 3 4\ncancel\nend\nswitch 1 CGL\ntx 0\nend\nschedule\ngo 1 2\ngo 0 999998\ndone\n";

const MOVES: &[Op] = &[Op::Move(2, 3, 4), Op::Cancel];

const TURNS: &[Go] = &[
    Go {
        caller: 1,
        turns: 2,
    },
    Go {
        caller: 0,
        turns: 999998,
    },
];

/// Whether these are the items of [`STEPPED`].
fn are_stepped(items: &[Item]) -> bool {
    match items {
        [
            Item::Tx { caller: 1, script },
            Item::Switch {
                caller: 1,
                alg: Alg::Cgl,
            },
            Item::Tx {
                caller: 0,
                script: empty,
            },
        ] => script.as_slice() == MOVES && empty.as_slice().is_empty(),
        _ => false,
    }
}

#[test]
fn reads_step_workloads(rt: HostRuntime) -> Result<(), Fail> {
    let read = parse(rt.alloc(), STEPPED.as_bytes(), Mode::Step)?;
    assert!(rt; are_stepped(read.items.as_slice()), "{read:?}");
    assert_eq!(rt; read.schedule.as_slice(), TURNS);
    Ok(())
}

/// A row's kind, place, caller and number, its replies and its emits.
type RowCase = (Kind, u64, usize, usize, &'static [u64], &'static [u64]);

fn row(alloc: Global, case: &RowCase) -> Result<Row, AllocError> {
    let (kind, place, caller, seq, replies, emits) = *case;
    let replies = words(alloc, replies)?;
    Ok(Row {
        kind,
        place,
        caller,
        seq,
        replies,
        emits: words(alloc, emits)?,
    })
}

fn words(alloc: Global, values: &[u64]) -> Result<Words, AllocError> {
    Ok(Words::new(SmallVec::from_slice(alloc, values)?))
}

/// A report of these rows, and of these words as address and value.
fn report(alloc: Global, cases: &[RowCase], memory: &[(usize, u64)]) -> Result<Report, AllocError> {
    let mut rows = Vec::new(alloc);
    for case in cases {
        rows.push(row(alloc, case)?)?;
    }
    let rows = Rows::new(rows);
    Ok(Report {
        rows,
        memory: Pairs::new(memory.to_vec(alloc)?),
    })
}

/// Rows, words, and the text of their report.
const REPORTS: &[(&[RowCase], &[(usize, u64)], &str)] = &[
    (
        &[
            (Kind::C, 0, 0, 0, &[5, 5, 1], &[]),
            (Kind::W, 1, 0, 1, &[5, 6, 1, 5], &[5]),
            (Kind::R, 1, 31, 10, &[], &[]),
            (
                Kind::W,
                4611686018427387904,
                1,
                0,
                &[18446744073709551615],
                &[7, 0],
            ),
        ],
        &[(0, 5), (65535, 18446744073709551615)],
        "report 1\nC 0 0 0 : 5 5 1\nW 1 0 1 : 5 6 1 5 ! 5\nR 1 31 10 :\nW 4611686018427387904 1 0 : 18446744073709551615 ! 7 0\nmem 0 5\nmem 65535 18446744073709551615\nend\n",
    ),
    (&[], &[], "report 1\nend\n"),
];

#[test]
fn writes_reports(rt: HostRuntime) -> Result<(), Fail> {
    for (rows, memory, wanted) in REPORTS {
        let report = report(rt.alloc(), rows, memory)?;
        let text = report_text(rt.alloc(), &report)?;
        assert_eq!(rt; text.as_slice(), wanted.as_bytes());
    }
    Ok(())
}

/// A report of so many rows.
fn long_report(alloc: Global, count: u64) -> Result<Report, AllocError> {
    let mut rows = Vec::new(alloc);
    for place in 0..count {
        rows.push(row(alloc, &(Kind::W, place, 0, 0, &[7], &[]))?)?;
    }
    let rows = Rows::new(rows);
    Ok(Report {
        rows,
        memory: Pairs::new(vec![in alloc; (3, 7)]?),
    })
}

/// More rows than one thread is given.
#[test]
fn writes_long_reports_by_threads(rt: HostRuntime) -> Result<(), Fail> {
    let report = long_report(rt.alloc(), 2500)?;
    let text = report_text_by(&rt, rt.alloc(), &report, 3)?;
    assert_eq!(rt; text, report_text(rt.alloc(), &report)?);
    Ok(())
}

const PARTED: &[(&str, &str, usize, usize)] = &[
    ("stm 1\ndone\nreport 1\ndone\nend", "stm 1\ndone\n", 2, 3),
    ("stm 1\ndone \nreport 1\n", "stm 1\ndone \nreport 1\n", 3, 0),
    ("stm 1\ndone", "stm 1\ndone", 2, 0),
    ("", "", 0, 0),
];

/// A text is parted after its first line `done`, and its lines are counted, the last one also without an LF.
#[test]
fn parts_a_text(rt: HostRuntime) {
    for (text, wanted, above, below) in PARTED {
        let (head, rest) = part_at_done(text.as_bytes());
        assert_eq!(rt; (text, head), (text, wanted.as_bytes()));
        assert_eq!(rt; (text, count_lines(head)), (text, *above));
        assert_eq!(rt; (text, count_lines(rest)), (text, *below));
        assert_eq!(rt; (text, head.len() + rest.len()), (text, text.len()));
    }
}
