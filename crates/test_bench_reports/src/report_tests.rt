//! `run` over a text, and every end without a report.
use std::test::Fail;
use test_bench_cases::cases::{Case, check, command_line, header, outcome, workload};
use test_bench_cases::{Fault, Status};

/// What was run, and its report.
pub(crate) const REPORTS: &[Case] = &[
    // CGL
    (
        "alg CGL",
        "tx 0 {add 3 1} / tx 0 {add 3 1} / tx 0 {read 3}",
        "report 1 / W 1 0 0 : 1 / W 2 0 1 : 2 / R 2 0 2 : 2 / mem 3 2 / end",
    ),
    ("alg CGL", "", "report 1 / end"),
    (
        "alg CGL",
        "tx 0 {read 5} / tx 0 {write 5 9}",
        "report 1 / R 0 0 0 : 0 / W 1 0 1 : 9 / mem 5 9 / end",
    ),
    (
        "alg CGL",
        "tx 0 {write 2 7; read 2; write 2 8}",
        "report 1 / W 1 0 0 : 7 7 8 / mem 2 8 / end",
    ),
    (
        "alg CGL",
        "tx 0 {write 3 9; cancel; move 3 4 2} / switch 0 CGL / tx 0 {move 3 4 8; read 4}",
        "report 1 / W 1 0 0 : 9 0 1 / R 1 0 1 : 0 2 / mem 3 7 / mem 4 2 / end",
    ),
    (
        "alg CGL",
        "tx 0 / end / tx 0 {write 1 0}",
        "report 1 / R 0 0 0 : / W 1 0 1 : 0 / end",
    ),
    (
        "alg CGL",
        "tx 0 {write 7 18446744073709551615; add 7 2}",
        "report 1 / W 1 0 0 : 18446744073709551615 1 / mem 7 1 / end",
    ),
    // Serial: a cancel takes back, a move that has too little writes nothing, and an undo log of one item is
    // too short for two addresses
    (
        "alg Serial",
        "tx 0 {write 0 5; read 0; cancel} / tx 0 {read 0}",
        "report 1 / C 0 0 0 : 5 5 1 / R 0 0 1 : 0 / end",
    ),
    (
        "alg Serial",
        "tx 0 {write 0 10; move 0 1 7; move 0 1 7}",
        "report 1 / W 1 0 0 : 10 1 0 / mem 0 3 / mem 1 7 / end",
    ),
    (
        "alg Serial / writes 1",
        "tx 0 {write 0 1; write 1 2}",
        "report 1 / W 1 0 0 : 1 2 / mem 0 1 / mem 1 2 / end",
    ),
    // TML: a writer's commit raises the clock by two, and a reader can be cancelled
    (
        "alg TML",
        "tx 0 {write 0 5; cancel} / tx 0 {read 0; cancel} / tx 0 {read 0}",
        "report 1 / W 2 0 0 : 5 0 / C 2 0 1 : 5 1 / R 2 0 2 : 5 / mem 0 5 / end",
    ),
    // OrecLazy and RingSW: the last write of an address counts, and a cancelled attempt leaves nothing
    (
        "alg OrecLazy",
        "tx 0 {write 2 7; read 2; write 2 8} / tx 0 {write 2 9; cancel} / tx 0 {read 2}",
        "report 1 / W 1 0 0 : 7 7 8 / C 1 0 1 : 9 1 / R 1 0 2 : 8 / mem 2 8 / end",
    ),
    (
        "alg OrecLazy / writes 1",
        "tx 0 {write 0 1; write 1 2} / tx 0 {move 1 0 2; move 1 0 2}",
        "report 1 / W 1 0 0 : 1 2 / W 2 0 1 : 1 0 / mem 0 3 / end",
    ),
    (
        "alg RingSW",
        "tx 0 {write 2 7; read 2; write 2 8} / tx 0 {write 2 9; cancel} / tx 0 {read 2}",
        "report 1 / W 1 0 0 : 7 7 8 / C 1 0 1 : 9 1 / R 1 0 2 : 8 / mem 2 8 / end",
    ),
    (
        "alg RingSW / writes 1",
        "tx 0 {write 0 1; write 1 2} / tx 0 {move 1 0 2; move 1 0 2}",
        "report 1 / W 1 0 0 : 1 2 / W 2 0 1 : 1 0 / mem 0 3 / end",
    ),
    // a script is cancelled only where no `irrev` comes before its first cancel
    (
        "alg Serial",
        "tx 0 {write 0 5; cancel; irrev; emit 0}",
        "report 1 / C 0 0 0 : 5 1 / end",
    ),
    (
        "alg Serial",
        "tx 0 {write 0 5; irrev; cancel; emit 0}",
        "report 1 / W 1 0 0 : 5 1 0 5 ! 5 / mem 0 5 / end",
    ),
    (
        "alg TML",
        "tx 0 {irrev; cancel; emit 0; emit 1}",
        "report 1 / R 0 0 0 : 1 0 0 0 ! 0 0 / end",
    ),
    (
        "alg CGL",
        "tx 0 {cancel; irrev; write 1 7; emit 1}",
        "report 1 / W 1 0 0 : 0 1 7 7 ! 7 / mem 1 7 / end",
    ),
    // up to the clock's limit
    ("clock 4611686018427387904", "", "report 1 / end"),
    (
        "clock 4611686018427387903",
        "tx 0 {read 3}",
        "report 1 / R 4611686018427387903 0 0 : 0 / end",
    ),
    (
        "clock 4611686018427387903",
        "tx 0 {add 3 1}",
        "report 1 / W 4611686018427387904 0 0 : 1 / mem 3 1 / end",
    ),
    (
        "alg Serial / clock 4611686018427387904",
        "tx 0 {read 3}",
        "report 1 / R 4611686018427387904 0 0 : 0 / end",
    ),
    (
        "alg TML / clock 4611686018427387902",
        "tx 0 {add 3 1} / tx 0 {read 3}",
        "report 1 / W 4611686018427387904 0 0 : 1 / R 4611686018427387904 0 1 : 1 / mem 3 1 / end",
    ),
];

#[test]
fn reports_what_was_run(rt: HostRuntime) -> Result<(), Fail> {
    check(&rt, rt.alloc(), "run", Status::Ok, REPORTS)
}

#[test]
fn says_why_there_is_no_report(rt: HostRuntime) -> Result<(), Fail> {
    let usage = "usage: stm_bench run [--policy P] / step / gen N T SEED / check\n";
    let three = "tx 0 {add 3 1} / tx 0 {add 3 1} / tx 0 {read 3}";
    let text = workload(rt.alloc(), "", three)?;
    let full = workload(rt.alloc(), "clock 4611686018427387903", three)?;
    let limit = 4611686018427387904;
    let run: &[&str] = &["stm_bench", "run"];
    let table: &[(&[&str], &str, &[u64], usize, Status, &str)] = &[
        (&["stm_bench"], &text, &[], 4096, Status::Usage, usage),
        (&[], &text, &[], 4096, Status::Usage, usage),
        (
            &["stm_bench", "run", "run", "run"],
            &text,
            &[],
            4096,
            Status::Usage,
            usage,
        ),
        (
            &["stm_bench", "gen"],
            &text,
            &[],
            4096,
            Status::Usage,
            usage,
        ),
        (
            run,
            &full,
            &[],
            4096,
            Status::ClockFull { clock: limit },
            "clock full 4611686018427387904\n",
        ),
        (
            run,
            "",
            &[],
            4096,
            Status::Refused {
                line: 1,
                fault: Fault::Unended,
            },
            "refused 1 3 unended\n",
        ),
        (run, &text, &[0], 4096, Status::ReadFault, "read fault\n"),
        (run, &text, &[], 6, Status::WriteFault, "report"),
        (&["stm_bench"], &text, &[], 0, Status::WriteFault, ""),
    ];
    for (words, text, takes, room, status, said) in table {
        let (ended, held) = outcome(&rt, rt.alloc(), words, text, takes, *room)?;
        assert_eq!(rt; ended, *status);
        assert_eq!(rt; held.as_str(), *said);
    }
    Ok(())
}

/// The command, the lines of the header that differ, the text after it, and its first fault.
type FaultyText = (
    &'static str,
    &'static str,
    &'static str,
    usize,
    u32,
    &'static str,
);

const FAULTS: &[FaultyText] = &[
    ("run", "words 0", "done\n", 2, 6, "range"),
    ("run", "alg NOrec", "done\n", 9, 7, "alg"),
    ("run", "", "", 11, 3, "unended"),
    ("run", "", "\u{e9}\n", 11, 2, "bytes"),
    ("run", "", "tx 0\nread 1", 12, 3, "unended"),
    ("run", "", "tx 0\nread 1\nend\n", 14, 3, "unended"),
    ("run", "", "tx 0\nread 1\nend\ndone", 14, 3, "unended"),
    ("run", "", "schedule\ndone\n", 11, 4, "word"),
    ("run", "", "tx 00\nend\ndone\n", 11, 5, "number"),
    ("run", "", "tx 1\nend\ndone\n", 11, 6, "range"),
    ("run", "", "switch 0 Ring\ndone\n", 11, 7, "alg"),
    ("run", "", "done\n\n", 12, 11, "extra"),
    // `irrev` and `emit`
    ("run", "", "tx 0\nirrev 0\nend\ndone\n", 12, 4, "word"),
    ("run", "", "tx 0\nemit 8\nend\ndone\n", 12, 6, "range"),
    ("run", "", "tx 0\nemit 0\nend\ndone\n", 12, 9, "order"),
    (
        "run",
        "",
        "tx 0\nemit 0\nirrev\nend\ndone\n",
        12,
        9,
        "order",
    ),
    (
        "step",
        "",
        "tx 0\nirrev\nemit 0\nend\ntx 0\nemit 0\nend\ndone\n",
        16,
        9,
        "order",
    ),
    // schedules
    (
        "step",
        "callers 2",
        "schedule\ngo 0 0\ndone\n",
        12,
        6,
        "range",
    ),
    (
        "step",
        "callers 2",
        "schedule\ngo 2 1\ndone\n",
        12,
        6,
        "range",
    ),
    (
        "step",
        "callers 2",
        "schedule\ngo 0 1000000\ngo 1 1\ndone\n",
        13,
        10,
        "many",
    ),
];

#[test]
fn names_every_fault_of_the_text(rt: HostRuntime) -> Result<(), Fail> {
    for (command, changes, body, line, code, name) in FAULTS {
        let mut text = header(rt.alloc(), changes)?;
        text.push_str(body)?;
        let (status, held) = outcome(
            &rt,
            rt.alloc(),
            &["stm_bench", command],
            text.as_str(),
            &[],
            4096,
        )?;
        let said = format!(in rt.alloc(); "refused {line} {code} {name}\n")?;
        assert_eq!(rt; held, said);
        assert_eq!(rt;
            status,
            Status::Refused {
                line: *line,
                fault: Fault::of(*code)
            }
        );
    }
    Ok(())
}

#[test]
fn other_words_are_misused(rt: HostRuntime) -> Result<(), Fail> {
    let lines = [
        "gen",
        "gen 1 1",
        "gen 0 1 1",
        "gen 50001 1 1",
        "gen 1 33 1",
        "gen 1 1 18446744073709551616",
        "gen 08 2 1",
        "gen 1 1 1 1",
        "gen 1 1 1 --policy fixed",
        "run x y",
        "run --policy round:0",
        "run --policy round:65537",
        "run --policy state:0",
        "run --policy state:17",
        "run --policy state:03",
        "run --policy expert:1",
        "step --policy fixed",
        "step 1 2",
        "stpe --help",
    ];
    for line in lines {
        let words = command_line(rt.alloc(), line)?;
        let (status, held) = outcome(&rt, rt.alloc(), words.as_slice(), "", &[0], 4096)?;
        assert_eq!(rt; (line, status), (line, Status::Usage));
        assert_eq!(rt;
            held.as_str(),
            "usage: stm_bench run [--policy P] / step / gen N T SEED / check\n"
        );
    }
    Ok(())
}

#[test]
fn ends_with_a_number_for_each_status(rt: HostRuntime) {
    let table = [
        Status::Ok,
        Status::Usage,
        Status::Refused {
            line: 1,
            fault: Fault::Bytes,
        },
        Status::ReadFault,
        Status::WriteFault,
        Status::Memory,
        Status::ClockFull { clock: 0 },
    ];
    for (number, status) in table.iter().enumerate() {
        assert_eq!(rt; status.exit_code() as usize, number);
    }
}
