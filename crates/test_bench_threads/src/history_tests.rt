//! Structures that 8 callers share: the report's rows, one after the other, beside plain sets of keys.
use rand_core::SeedableRng;
use rand_pcg::Pcg32;
use std::alloc::Global;
use std::process::Abort;
use std::test::Fail;
use stm_model::alg::{ALGORITHMS, Alg};
use test_bench_cases::cases::{header, outcome};
use test_bench_cases::plain_sets::{Operation, Sets, draw, holds, words_of};
use work_bench::status::Status;

/// What a caller's transaction of this number does.
fn script(caller: u32, seq: u32) -> [Operation; 3] {
    let seed = u64::from(caller) * 1_000 + u64::from(seq);
    let mut draws = Pcg32::seed_from_u64(seed);
    [draw(&mut draws), draw(&mut draws), draw(&mut draws)]
}

/// The lines of that transaction.
fn transaction(alloc: Global, caller: u32, seq: u32) -> Result<String, Fail> {
    let mut text = format!(in alloc; "tx {caller}\n")?;
    for operation in script(caller, seq) {
        text.push_str(operation.line(alloc)?.as_str())?;
    }
    text.push_str("end\n")?;
    Ok(text)
}

/// The text of a workload of 8 callers with 200 transactions each.
fn workload(alloc: Global, alg: Alg) -> Result<String, Fail> {
    let name = alg.name();
    let changes = format!(in alloc;
        "words 1024 / callers 8 / records 64 / ring 16 / alg {name} / structs on"
    )?;
    let mut text = header(alloc, changes.as_str())?;
    for seq in 0..200 {
        for caller in 0..8 {
            text.push_str(transaction(alloc, caller, seq)?.as_str())?;
        }
    }
    text.push_str("done\n")?;
    Ok(text)
}

/// What the transaction of a row does; the row begins with its kind, place, caller and number.
fn script_of(row: &str) -> Result<[Operation; 3], Fail> {
    let mut words = row.split(' ');
    let caller = words.nth(2).unwrap_or("").parse::<u32>()?;
    let seq = words.next().unwrap_or("").parse::<u32>()?;
    Ok(script(caller, seq))
}

/// Compares each row's replies with those of plain sets that all rows before it, and no other, have changed.
/// Answers the number of rows.
fn replay(rt: &impl Abort, alloc: Global, report: &str, sets: &mut Sets) -> Result<u64, Fail> {
    let mut rows: u64 = 0;
    for line in report.lines() {
        let Some((row, replies)) = line.split_once(" :") else {
            continue;
        };
        let mut said = String::new(alloc);
        for operation in script_of(row)? {
            let reply = operation.reply(sets);
            let told = format!(in alloc; " {reply}")?;
            said.push_str(told.as_str())?;
        }
        assert_eq!(rt; (row, replies), (row, said.as_str()));
        rows = rows.wrapping_add(1);
    }
    Ok(rows)
}

#[test]
fn rows_are_one_history_of_plain_sets(rt: HostRuntime) -> Result<(), Fail> {
    for alg in ALGORITHMS {
        let text = workload(rt.alloc(), alg)?;
        let words = ["stm_bench", "run"];
        let (status, held) = outcome(&rt, rt.alloc(), &words, text.as_str(), &[], 2000000)?;
        assert_eq!(rt; status, Status::Ok);
        let mut sets = [[false; 64]; 3];
        let rows = replay(&rt, rt.alloc(), held.as_str(), &mut sets)?;
        assert_eq!(rt; rows, 1600);
        let words = words_of(rt.alloc(), held.as_str())?;
        for (set, keys) in sets.iter().enumerate() {
            assert!(rt; holds(&words, set, keys));
        }
    }
    Ok(())
}
