//! Random operations on structures, beside plain sets of keys.
use rand_core::SeedableRng;
use rand_pcg::Pcg32;
use std::alloc::Global;
use std::test::Fail;
use stm_model::alg::{ALGORITHMS, Alg};
use test_bench_cases::Status;
use test_bench_cases::cases::{header, outcome};
use test_bench_cases::plain_sets::{Sets, draw, holds, words_of};

/// A transaction that counts, and then does 24 operations; and what it is to reply.
fn transaction(
    alloc: Global,
    draws: &mut Pcg32,
    sets: &mut Sets,
    number: usize,
    text: &mut String,
    said: &mut String,
) -> Result<(), Fail> {
    text.push_str("tx 0\ncount 0 1\n")?;
    let first = format!(in alloc; "{number}")?;
    said.push_str(first.as_str())?;
    for _ in 0..24 {
        let operation = draw(draws);
        text.push_str(operation.line(alloc)?.as_str())?;
        let reply = operation.reply(sets);
        let told = format!(in alloc; " {reply}")?;
        said.push_str(told.as_str())?;
    }
    text.push_str("end\n")?;
    said.push_str("\n")?;
    Ok(())
}

/// The replies of each row, a line each.
fn replies(alloc: Global, report: &str) -> Result<String, Fail> {
    let mut told = String::new(alloc);
    for line in report.lines() {
        if let Some((_, replies)) = line.split_once(" : ") {
            told.push_str(replies)?;
            told.push_str("\n")?;
        }
    }
    Ok(told)
}

/// 40 transactions under this algorithm, what they are to reply, and the keys at the end.
fn workload(alloc: Global, alg: Alg, seed: u64) -> Result<(String, String, Sets), Fail> {
    let name = alg.name();
    let changes = format!(in alloc; "words 1024 / alg {name} / structs on")?;
    let mut text = header(alloc, changes.as_str())?;
    let mut said = String::new(alloc);
    let mut draws = Pcg32::seed_from_u64(seed);
    let mut sets = [[false; 64]; 3];
    for number in 1..41 {
        transaction(alloc, &mut draws, &mut sets, number, &mut text, &mut said)?;
    }
    text.push_str("done\n")?;
    Ok((text, said, sets))
}

#[test]
fn structures_reply_as_plain_sets(rt: HostRuntime) -> Result<(), Fail> {
    for alg in ALGORITHMS {
        for seed in 1..4 {
            let (text, said, sets) = workload(rt.alloc(), alg, seed)?;
            let words = ["stm_bench", "run"];
            let (status, held) = outcome(&rt, rt.alloc(), &words, text.as_str(), &[], 100000)?;
            assert_eq!(rt; status, Status::Ok);
            assert_eq!(rt; replies(rt.alloc(), held.as_str())?, said);
            let words = words_of(rt.alloc(), held.as_str())?;
            for (set, keys) in sets.iter().enumerate() {
                assert!(rt; holds(&words, set, keys));
            }
        }
    }
    Ok(())
}
