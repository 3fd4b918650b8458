//! Random transactions in random turns: each attempt, and one that ends without a row too, replies what its script
//! replies over the memory of one moment.
use rand_core::SeedableRng;
use rand_core::utils::NextWord;
use rand_pcg::Pcg32;
use std::alloc::Global;
use std::test::Fail;
use stm_model::alg::{ALGORITHMS, Alg};
use test_bench_cases::Status;
use test_bench_cases::cases::{header, outcome};

/// A read of the word `at`, or a write of `value` there.
#[derive(Clone, Copy, Drop)]
struct Op {
    writes: bool,
    at: u8,
    value: u64,
}

/// What each transaction does; caller i mod 3 has transaction i.
type Plan = [[Op; 4]; 24];

/// What a caller has done: its rows, and the replies of its attempt.
#[derive(Clone, Copy, Drop)]
struct Stage {
    rows: usize,
    said: [u64; 4],
    count: usize,
}

/// The memory after each row that wrote, the first that of the opening.
#[derive(Drop)]
struct Moments {
    words: [[u64; 4]; 32],
    last: usize,
}

fn drawn(draws: &mut Pcg32) -> Op {
    let word = draws.next_word();
    Op {
        writes: word % 2 == 0,
        at: (word / 2 % 4) as u8,
        value: u64::from(word / 8),
    }
}

fn plan(draws: &mut Pcg32) -> Plan {
    let none = Op {
        writes: false,
        at: 0,
        value: 0,
    };
    let mut plan = [[none; 4]; 24];
    for script in plan.iter_mut() {
        for op in script.iter_mut() {
            *op = drawn(draws);
        }
    }
    plan
}

/// The workload, with a schedule of 90 random stretches of turns.
fn text(alloc: Global, alg: Alg, plan: &Plan, draws: &mut Pcg32) -> Result<String, Fail> {
    let name = alg.name();
    let changes = format!(in alloc; "words 4 / callers 3 / alg {name}")?;
    let mut text = header(alloc, changes.as_str())?;
    for (i, script) in plan.iter().enumerate() {
        let caller = i % 3;
        write!(&mut text, "tx {caller}\n")?;
        for op in script.iter() {
            let at = op.at;
            let value = op.value;
            if op.writes {
                write!(&mut text, "write {at} {value}\n")?;
            } else {
                write!(&mut text, "read {at}\n")?;
            }
        }
        text.push_str("end\n")?;
    }
    text.push_str("schedule\n")?;
    for _ in 0..90 {
        let word = draws.next_word();
        let caller = word % 3;
        let turns = 1 + word / 4 % 3;
        write!(&mut text, "go {caller} {turns}\n")?;
    }
    text.push_str("done\n")?;
    Ok(text)
}

/// What the first operations of a script reply over these words, and leave there. Whether they reply as was said.
fn replies(script: &[Op], words: &mut [u64; 4], said: &[u64]) -> bool {
    for (op, reply) in script.iter().zip(said.iter()) {
        let word = &mut words[usize::from(op.at % 4)];
        if op.writes {
            *word = op.value;
        }
        if *word != *reply {
            return false;
        }
    }
    true
}

/// Whether there is a moment over whose memory the script's first operations reply so.
fn has_moment(script: &[Op; 4], moments: &Moments, said: &[u64]) -> bool {
    for words in moments.words.iter().take(moments.last.saturating_add(1)) {
        let mut words = *words;
        if replies(script.as_slice(), &mut words, said) {
            return true;
        }
    }
    false
}

/// What came of a trace: whether each reply has its moment, and how many attempts ended without a row after a reply.
#[derive(Drop)]
struct Finding {
    right: bool,
    failed: usize,
}

/// The words of a line: the caller, the call, and what it answered.
fn parts(line: &str) -> Option<(usize, &str, &str)> {
    let (caller, rest) = line.split_once(' ')?;
    let (call, answer) = rest.split_once(' ')?;
    let caller = caller.parse::<usize>().ok()?;
    Some((caller, call, answer))
}

/// Takes in one line of the trace.
fn take_in(
    plan: &Plan,
    stages: &mut [Stage; 3],
    moments: &mut Moments,
    finding: &mut Finding,
    line: &str,
) {
    let Some((caller, call, answer)) = parts(line) else {
        return;
    };
    let caller = caller % 3;
    let stage = &mut stages[caller];
    let script = &plan[(caller + 3 * (stage.rows % 8)) % 24];
    match (call, answer.parse::<u64>()) {
        ("begin", _) => {
            if stage.count > 0 {
                finding.failed = finding.failed.saturating_add(1);
            }
            stage.count = 0;
        }
        ("read" | "write", Ok(reply)) => {
            if stage.count < 4 {
                stage.said[stage.count] = reply;
                stage.count += 1;
                let said = &stage.said[..stage.count];
                finding.right = finding.right && has_moment(script, moments, said);
            }
        }
        ("commit", _) => {
            if answer.starts_with("committed") {
                settle(script, moments);
            }
            if answer.starts_with("committed") || answer.starts_with("readonly") {
                stage.rows = stage.rows.saturating_add(1);
                stage.count = 0;
            }
        }
        _ => {}
    }
}

/// The memory after a row that wrote is the next moment's.
fn settle(script: &[Op; 4], moments: &mut Moments) {
    let mut words = moments.words[moments.last % 32];
    for op in script.iter() {
        if op.writes {
            words[usize::from(op.at % 4)] = op.value;
        }
    }
    moments.last = moments.last.saturating_add(1) % 32;
    moments.words[moments.last] = words;
}

/// What comes of a whole trace.
fn find(plan: &Plan, trace: &str) -> Finding {
    let stage = Stage {
        rows: 0,
        said: [0; 4],
        count: 0,
    };
    let mut stages = [stage; 3];
    let mut moments = Moments {
        words: [[0; 4]; 32],
        last: 0,
    };
    let mut finding = Finding {
        right: true,
        failed: 0,
    };
    for line in trace.lines() {
        if line.starts_with("report") {
            break;
        }
        take_in(plan, &mut stages, &mut moments, &mut finding, line);
    }
    finding
}

#[test]
fn each_attempt_replies_as_at_one_moment(rt: HostRuntime) -> Result<(), Fail> {
    for alg in ALGORITHMS {
        let mut failed: usize = 0;
        for seed in 1..9 {
            let mut draws = Pcg32::seed_from_u64(seed);
            let plan = plan(&mut draws);
            let text = text(rt.alloc(), alg, &plan, &mut draws)?;
            let words = ["stm_bench", "step"];
            let (status, trace) = outcome(&rt, rt.alloc(), &words, text.as_str(), &[], 100000)?;
            assert_eq!(rt; status, Status::Ok);
            let finding = find(&plan, trace.as_str());
            assert!(rt; finding.right);
            failed = failed.saturating_add(finding.failed);
        }
        // under a lock that is held to the end nobody fails
        assert!(rt; failed > 0 || matches!(alg, Alg::Cgl | Alg::Serial));
    }
    Ok(())
}
