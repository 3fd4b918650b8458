//! What is told on standard error, status by status.
use std::test::Fail;
use test_bench_cases::cases::{NO_FILES, told_of, workload};
use work_bench::status::Status;
use work_bench::telling::told;
use work_bench::why::Why;
use work_check::checking::Part;
use work_cli::reading::Files;

/// The words, the header's changes, the body of the workload, what stands after it, the takes that fail, the sink's
/// room, and what is told.
type Told<'a> = (
    &'a [&'a str],
    &'a str,
    &'a str,
    &'a str,
    &'a [u64],
    usize,
    Option<&'a str>,
);

const TABLE: [Told<'static>; 8] = [
    (
        &["stm_bench", "run"],
        "",
        "tx 0 {add 3 1}",
        "",
        &[],
        4096,
        None,
    ),
    (
        &["stm_bench", "run"],
        "",
        "tx 0 {ad 3 1}",
        "",
        &[],
        4096,
        Some(
            "line 12, `ad 3 1`: no line here begins with `ad`; here stands `add A V`, `read A`, `end`, `move A B V`, `write A V`, `irrev`, `cancel`",
        ),
    ),
    (
        &["stm_bench", "run"],
        "",
        "schedule",
        "",
        &[],
        4096,
        Some(
            "line 11, `schedule`: `run` takes no schedule, `step` does; here stands `done`, `switch C ALG`, `tx C`",
        ),
    ),
    (
        &["stm_bench", "run"],
        "",
        "",
        "",
        &[0],
        4096,
        Some("standard input: it could not be read; here stands a text"),
    ),
    (
        &["stm_bench", "run"],
        "",
        "tx 0 {add 3 1}",
        "",
        &[],
        4,
        Some("standard output could not be written to the end"),
    ),
    (
        &["stm_bench", "step"],
        "clock 4611686018427387904",
        "tx 0 {add 3 1}",
        "",
        &[],
        4096,
        Some(
            "a call found the clock at its limit, 4611686018427387904; here stands a lesser `clock C` on line 8",
        ),
    ),
    (
        &["stm_bench", "check"],
        "",
        "tx 0 {add 3 1}",
        "report 1\nW 1 0 0 1\nend\n",
        &[],
        4096,
        Some(
            "line 16 (2 of the report), `W 1 0 0 1`: `1` can't stand there; here stands `W PLACE CALLER SEQ : REPLIES`, with emits ` ! EMITS` too",
        ),
    ),
    (
        &["stm_bench", "check"],
        "",
        "tx 0 {add 3 1}",
        "report 1\nW 1 0 0 : 2\nend\n",
        &[],
        4096,
        Some(
            "line 16 (2 of the report), `W 1 0 0 : 2`: reply 1 (`add 3 1`, line 12 of the workload): stands `2`, wanted `1`; here stands `W 1 0 0 : 1`",
        ),
    ),
];

#[test]
fn each_end_is_told(rt: HostRuntime) -> Result<(), Fail> {
    let alloc = rt.alloc();
    for (words, changes, body, report, takes, room, why) in TABLE {
        let mut text = workload(alloc, changes, body)?;
        text.push_str(report)?;
        let said = told_of(&rt, alloc, words, text.as_str(), takes, room)?;
        assert_eq!(rt;
            (body, said.as_ref().map(|said| said.as_str())),
            (body, why)
        );
    }
    let memory = told(alloc, Status::Memory, None, &NO_FILES)?;
    assert_eq!(rt;
        memory.as_ref().map(|said| said.as_str()),
        Some("memory was refused, and nothing was written")
    );
    Ok(())
}

/// Words that are no command, and what is told of them.
const WRONG_WORDS: [(&[&str], &str); 9] = [
    (
        &[],
        "no command is named; here stands one of `run`, `gen`, `step`, `check`, `--help`, `--version`",
    ),
    (
        &["stpe"],
        "`stpe` is no command; here stands `step`, `run`, `gen`, `check`, `--help`, `--version`",
    ),
    (
        &["run", "--polcy", "fixed"],
        "`--polcy` is no option of `run`; here stands `--policy P` or a file's name",
    ),
    (
        &["run", "--policy", "foo"],
        "`foo` is no policy; here stands `fixed`, `expert`, `round:N`, N from 1 to 65536, or `state:N`, N from 1 to 16",
    ),
    (
        &["run", "--policy"],
        "no policy follows `--policy`; here stands `fixed`, `expert`, `round:N`, N from 1 to 65536, or `state:N`, N from 1 to 16",
    ),
    (
        &["gen", "50001", "1", "1"],
        "`50001` is out of its range; here stands N from 1 to 50000",
    ),
    (
        &["gen", "9", "2"],
        "SEED is missing; here stands `gen N T SEED`, SEED from 0 to 18446744073709551615",
    ),
    (
        &["step", "a", "b"],
        "`b` is a word too many; here stands one file's name at most",
    ),
    (
        &["check", "a", "b", "c"],
        "`c` is a word too many; here stands two files' names at most",
    ),
];

/// Which word of a command line is wrong.
#[test]
fn a_wrong_word_is_told(rt: HostRuntime) -> Result<(), Fail> {
    let alloc = rt.alloc();
    for (others, why) in WRONG_WORDS {
        let mut words = Vec::new(alloc);
        words.push("stm_bench")?;
        words.extend_from_slice(others)?;
        let said = told_of(&rt, alloc, words.as_slice(), "", &[], 128)?;
        assert_eq!(rt; said.as_ref().map(|said| said.as_str()), Some(why));
    }
    Ok(())
}

/// The name of a file stands before a sentence on it.
#[test]
fn a_file_is_named(rt: HostRuntime) -> Result<(), Fail> {
    let alloc = rt.alloc();
    let names = Files {
        first: Some("a.stm"),
        report: Some("a/folder/of/many/reports/of/b.report"),
    };
    for (part, wanted) in [
        (Part::Workload, "a.stm: line 1"),
        (Part::Report, "..many/reports/of/b.report: line 1"),
    ] {
        let why = Why {
            part,
            sentence: "line 1".to_string(alloc)?,
        };
        let said = told(alloc, Status::No { line: 1 }, Some(why), &names)?;
        assert_eq!(rt; said.as_ref().map(|said| said.as_str()), Some(wanted));
    }
    Ok(())
}
