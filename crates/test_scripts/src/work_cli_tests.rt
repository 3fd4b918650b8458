//! Command lines, taken and refused.
use std::alloc::{AllocError, Global};
use std::test::Fail;
use work_cli::command::Command;
use work_cli::help::{Topic, help_of};
use work_cli::reading::{read_files, read_words};
use work_profile::policy::Policy;

/// Lines after the program's name, and what they ask for.
const COMMANDS: &[(&str, Command)] = &[
    (
        "run",
        Command::Run {
            policy: Policy::Fixed,
        },
    ),
    (
        "run --policy fixed",
        Command::Run {
            policy: Policy::Fixed,
        },
    ),
    (
        "run --policy round:1",
        Command::Run {
            policy: Policy::Round(1),
        },
    ),
    (
        "run --policy=expert",
        Command::Run {
            policy: Policy::Expert,
        },
    ),
    (
        "run --policy state:16",
        Command::Run {
            policy: Policy::State(16),
        },
    ),
    (
        "run x --policy fixed",
        Command::Run {
            policy: Policy::Fixed,
        },
    ),
    ("step", Command::Step),
    ("step x", Command::Step),
    ("check", Command::Check),
    ("check x", Command::CheckWorkload),
    ("check x y", Command::CheckApart),
    (
        "gen 8 2 1",
        Command::Gen {
            transactions: 8,
            callers: 2,
            seed: 1,
        },
    ),
    (
        "gen 50000 32 18446744073709551615",
        Command::Gen {
            transactions: 50_000,
            callers: 32,
            seed: u64::MAX,
        },
    ),
    (
        "gen 1 1 0",
        Command::Gen {
            transactions: 1,
            callers: 1,
            seed: 0,
        },
    ),
];

/// Lines that ask for nothing.
const REFUSED: &[&str] = &[
    "",
    "help",
    "--help",
    "-h",
    "run x y",
    "run --help",
    "run --policy",
    "run --policy round:0",
    "run --policy round:65537",
    "run --policy state:0",
    "run --policy state:17",
    "run --policy state:03",
    "run --policy expert:1",
    "run --policy fixed --policy fixed",
    "run --policies fixed",
    "step --policy fixed",
    "step x y",
    "check x y z",
    "check --policy fixed",
    "gen",
    "gen 0 1 1",
    "gen 1 33 1",
    "gen 1 0 1",
    "gen 50001 1 1",
    "gen 08 2 1",
    "gen 8 +2 1",
    "gen 1 1",
    "gen 1 1 1 1",
    "gen 1 1 18446744073709551616",
    "gen 1 1 01",
    "gen -1 1 1",
    "bench",
];

/// The words of a command line: the program's name, and those of this line after it.
fn words<'a>(alloc: Global, line: &'a str) -> Result<Vec<&'a str>, AllocError> {
    let mut words = Vec::new(alloc);
    words.push("stm_bench")?;
    for word in line.split_ascii_whitespace() {
        words.push(word)?;
    }
    Ok(words)
}

#[test]
fn commands_are_read(rt: HostRuntime) -> Result<(), Fail> {
    for (line, wanted) in COMMANDS {
        let words = words(rt.alloc(), line)?;
        assert_eq!(rt;
            (line, read_words(rt.alloc(), words.as_slice())?),
            (line, Some(*wanted))
        );
    }
    Ok(())
}

#[test]
fn other_lines_are_refused(rt: HostRuntime) -> Result<(), Fail> {
    for line in REFUSED {
        let words = words(rt.alloc(), line)?;
        assert_eq!(rt;
            (line, read_words(rt.alloc(), words.as_slice())?),
            (line, None)
        );
    }
    assert_eq!(rt; read_words(rt.alloc(), &[])?, None);
    Ok(())
}

/// Lines, and the files that they name.
const FILES: [(&str, Option<&str>, Option<&str>); 5] = [
    ("run", None, None),
    ("run --policy fixed x", Some("x"), None),
    ("step x", Some("x"), None),
    ("check x y", Some("x"), Some("y")),
    ("run x y", None, None),
];

#[test]
fn files_are_read(rt: HostRuntime) -> Result<(), Fail> {
    for (line, first, report) in FILES {
        let words = words(rt.alloc(), line)?;
        let files = read_files(rt.alloc(), words.as_slice())?;
        assert_eq!(rt;
            (line, (files.first, files.report)),
            (line, (first, report))
        );
    }
    Ok(())
}

/// Lines, and the help that they ask for.
const HELPED: [(&str, Option<Topic>); 8] = [
    ("", None),
    ("--help", Some(Topic::All)),
    ("help", Some(Topic::All)),
    ("-V", Some(Topic::Version)),
    ("gen --help", Some(Topic::Gen)),
    ("help check", Some(Topic::Check)),
    ("stpe --help", None),
    ("run --policy fixed --help", None),
];

#[test]
fn help_is_asked_for(rt: HostRuntime) -> Result<(), Fail> {
    for (line, topic) in HELPED {
        let words = words(rt.alloc(), line)?;
        assert_eq!(rt; (line, help_of(words.as_slice())), (line, topic));
    }
    Ok(())
}
