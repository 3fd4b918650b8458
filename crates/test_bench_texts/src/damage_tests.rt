//! Texts that are cut off or have a wrong byte: `bench` says what a slow reading of the grammar says.
use crate::plain_grammar::first_fault;
use std::alloc::Global;
use std::process::Abort;
use std::str;
use std::sync::Wait;
use std::test::Fail;
use std::thread::Threads;
use test_bench_cases::cases::{Asked, ask, lines};
use work_bench::status::Status;
use work_bench::{Fault, Open};

/// Two transactions that add, and one that reads.
const ADDS: &str =
    "stm 1 / words 8 / callers 1 / records 4 / ring 4 / reads 256 / writes 256 / clock 0 / alg CGL / structs off / \
     tx 0 {add 3 1} / tx 0 {add 3 1} / tx 0 {read 3} / done";

/// Every kind of line.
const EVERY: &str =
    "stm 1 / words 1030 / callers 2 / records 4 / ring 4 / reads 16 / writes 16 / clock 5 / alg TML / structs on / \
     tx 0 {read 1; write 1028 7; add 2 3; move 1 2 3; irrev; emit 63; cancel} / switch 1 RingSW / \
     tx 1 {count 3 10; total; ladd 9; ldel 8; lhas 7; llen; hadd 20; hdel 4; hhas 20; tadd 6; tdel 6; thas 6; tmin} / \
     schedule / go 0 2 / go 1 10 / done";

/// Every kind of line of version 2.
const EVERY_TWO: &str =
    "stm 2 / words 1030 / callers 2 / records 4 / ring 4 / reads 16 / writes 16 / clock 5 / alg TML / regions 6 / \
     region counter 8 2 / region list 10 4 / region hash 20 4 / region tree 50 4 / region queue 70 2 / \
     region summap 80 4 / policy state:3 / \
     tx 0 {read 1; write 1028 7; add 2 3; move 1 2 3; irrev; emit 7; cancel} / switch 1 RingSW / reserve 1 20 30 / \
     tx 1 {count 0 1 10; total 0; ladd 1 9; ldel 1 8; lhas 1 7; llen 1; hadd 2 20; hdel 2 4; hhas 2 20; tadd 3 6; tdel 3 6; thas 3 6; tmin 3; qput 4 5; qget 4; mput 5 6 7; mdel 5 6; mget 5 6; msum 5 0 9} / \
     schedule / go 0 2 / go 1 10 / done";

/// The bytes that take another's place.
const WRONG: [u8; 8] = [0, 9, 10, 32, 127, 255, b'0', b'x'];

const NAMES: [&str; 12] = [
    "", "long", "bytes", "unended", "word", "number", "range", "alg", "region", "order", "many",
    "extra",
];

/// The report of a text of one caller that has no operations but `read` and `add`.
fn plain_report(alloc: Global, text: &str) -> Result<String, Fail> {
    let mut memory = [0u64; 8];
    let mut report = String::new(alloc);
    report.push_str("report 1\n")?;
    let (mut clock, mut seq) = (0u64, 0u64);
    for line in text.lines() {
        let (name, operands) = line.split_once(' ').unwrap_or(("", ""));
        let (address, value) = operands.split_once(' ').unwrap_or((operands, "0"));
        if name != "read" && name != "add" {
            continue;
        }
        if let Some(word) = memory.get_mut(address.parse::<usize>()?) {
            *word = word.wrapping_add(value.parse::<u64>()?);
            clock = clock.saturating_add(u64::from(name == "add"));
            let kind = if name == "add" { 'W' } else { 'R' };
            let row = format!(in alloc; "{kind} {clock} 0 {seq} : {word}\n")?;
            report.push_str(row.as_str())?;
            seq = seq.saturating_add(1);
        }
    }
    for (address, word) in memory.iter().enumerate() {
        if *word != 0 {
            let line = format!(in alloc; "mem {address} {word}\n")?;
            report.push_str(line.as_str())?;
        }
    }
    report.push_str("end\n")?;
    Ok(report)
}

/// What `bench` answers and writes over this text, which may be no UTF-8.
fn outcome(
    rt: &(impl Threads + Wait + Sync),
    alloc: Global,
    command: &str,
    text: &[u8],
) -> Result<(Status, String), Fail> {
    let asked = Asked {
        words: &["stm_bench", command],
        text,
        report: &[],
        takes: &[],
        room: 8192,
    };
    ask(rt, alloc, asked, &Open, &mut None)
}

/// Compares what `bench` says of a text with its first fault, by the slow reading. Answers whether it has one.
fn compare(
    rt: &(impl Threads + Wait + Abort + Sync),
    alloc: Global,
    command: &str,
    text: &[u8],
) -> Result<bool, Fail> {
    let (status, held) = outcome(rt, alloc, command, text)?;
    let Some((line, code)) = first_fault(alloc, text, command == "step")? else {
        assert_eq!(rt; status, Status::Ok);
        if command == "run" {
            let report = plain_report(alloc, str::from_utf8(text)?)?;
            assert_eq!(rt; held, report);
        }
        assert!(rt;
            held.contains("report 1\n") && held.ends_with("\nend\n"),
            "{held}"
        );
        return Ok(false);
    };
    let name = NAMES.get(code as usize).copied().unwrap_or("");
    let said = format!(in alloc; "refused {line} {code} {name}\n")?;
    assert_eq!(rt;
        status,
        Status::Refused {
            line,
            fault: Fault::of(code)
        }
    );
    assert_eq!(rt; held, said);
    Ok(true)
}

/// The line on which a text that is cut off here isn't ended.
fn next_line(text: &[u8]) -> usize {
    text.iter()
        .filter(|byte| **byte == b'\n')
        .count()
        .saturating_add(1)
}

#[test]
fn a_prefix_is_unended(rt: HostRuntime) -> Result<(), Fail> {
    let alloc = rt.alloc();
    for (command, text) in [
        ("run", ADDS),
        ("step", ADDS),
        ("step", EVERY),
        ("step", EVERY_TWO),
    ] {
        let whole = lines(alloc, text)?;
        for count in 0..whole.len() {
            let prefix = whole.as_bytes().get(..count).unwrap_or(&[]);
            let line = next_line(prefix);
            let said = format!(in alloc; "refused {line} 3 unended\n")?;
            let (status, held) = outcome(&rt, alloc, command, prefix)?;
            assert_eq!(rt;
                status,
                Status::Refused {
                    line,
                    fault: Fault::Unended
                }
            );
            assert_eq!(rt; held, said);
        }
    }
    Ok(())
}

/// The command, the text, how many texts differ from it by one byte of [`WRONG`], and how many of these have a fault.
const DAMAGES: [(&str, &str, usize, usize); 3] = [
    ("run", ADDS, 1160, 1106),
    ("step", EVERY, 2440, 2330),
    ("run", EVERY, 2440, 2440),
];

#[test]
fn a_wrong_byte_is_found(rt: HostRuntime) -> Result<(), Fail> {
    let alloc = rt.alloc();
    for (command, text, tried, refused) in DAMAGES {
        let whole = lines(alloc, text)?.into_bytes();
        let mut counts = (0usize, 0usize);
        for at in 0..whole.len() {
            for wrong in WRONG {
                let mut damaged = whole.clone()?;
                if let Some(byte) = damaged.get_mut(at) {
                    *byte = wrong;
                }
                let is_refused = compare(&rt, alloc, command, damaged.as_slice())?;
                counts.0 = counts.0.saturating_add(1);
                counts.1 = counts.1.saturating_add(usize::from(is_refused));
            }
        }
        assert_eq!(rt; (command, counts), (command, (tried, refused)));
    }
    Ok(())
}

/// Every line of version 2, with a digit or a letter too many or in another's place.
#[test]
fn a_wrong_byte_of_version_two_is_found(rt: HostRuntime) -> Result<(), Fail> {
    let alloc = rt.alloc();
    let whole = lines(alloc, EVERY_TWO)?.into_bytes();
    for at in 0..whole.len() {
        for wrong in [b'0', b'9'] {
            let mut damaged = whole.clone()?;
            if let Some(byte) = damaged.get_mut(at) {
                *byte = wrong;
            }
            compare(&rt, alloc, "step", damaged.as_slice())?;
        }
    }
    Ok(())
}
