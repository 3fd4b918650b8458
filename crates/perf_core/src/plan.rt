//! What the words of the command line ask for.
ghost use Rattle.std.specs.Prelude.{◌≤◌, IfSome};
ghost use Rattle.perf_core.specs.Plans.{IsPlan};

use crate::rows::row_length;
use stm_model::alg::{ALGORITHMS, Alg};
use stm_model::config::{MOST_CALLERS, MOST_LOG, MOST_RECORDS, MOST_WORDS};
use work_profile::numbers::{number, number_up_to};

/// The length of the read log where the words name none, but for scans: the sum of all accounts has room in it, and a
/// search through every cell of a structure.
const READS: usize = 2_048;

/// The words of a memory where the command line names none, but for scans; and the fewest. A hash set of 512 cells
/// takes the most.
pub const WORDS: usize = 1_040;

/// The words that are scanned where the command line names none: ten rows.
const SCAN_WORDS: usize = 1_000_000;

/// The accounts of the bank, and what each has at the start.
pub const ACCOUNTS: usize = 1_024;

pub const BALANCE: u64 = 1_000;

/// A set's keys are below this.
pub const KEYS: u32 = 512;

/// The cells of a set: enough for every key.
pub const CELLS: usize = 512;

/// What the transactions do.
#[derive(Clone, Copy, Drop, Debug, PartialEq, Eq)]
pub enum Workload {
    /// 1,024 accounts: moves between two of them, and once in 256 the sum of all.
    Bank,
    /// A hash set of 512 cells: 90 % lookups, 5 % insertions, 5 % removals.
    Hash,
    /// A sorted list of 512 cells: 80 % lookups, 10 % insertions, 10 % removals.
    List,
    /// Each adds 1 to one word.
    Count,
    /// Each is the sum of all 1,024 accounts.
    Sum,
    /// Each reads a row of 100,000 words, and adds 1 to one of them.
    Scan,
}

/// All of them, as the command line names them.
pub const WORKLOADS: [Workload; 6] = [
    Workload::Bank,
    Workload::Hash,
    Workload::List,
    Workload::Count,
    Workload::Sum,
    Workload::Scan,
];

impl Workload {
    /// The word of the command line.
    pub fn name(self) -> &'static str {
        match self {
            Workload::Bank => "bank",
            Workload::Hash => "hash",
            Workload::List => "list",
            Workload::Count => "count",
            Workload::Sum => "sum",
            Workload::Scan => "scan",
        }
    }

    /// The words of a memory where none are named.
    fn words(self) -> usize
        ensures { (1040 ≤ result) × (result ≤ 4294967296) }
    {
        match self {
            Workload::Scan => SCAN_WORDS,
            _ => WORDS,
        }
    }

    /// The length of a read log where none is named.
    fn reads(self, words: usize) -> usize
        requires { 1 ≤ words }
        ensures { (1 ≤ result) × (result ≤ 1048576) }
    {
        match self {
            Workload::Scan => row_length(words),
            _ => READS,
        }
    }

    /// The ownership records: what isn't scanned stands in the first 1,040 words.
    pub fn records(self, words: usize) -> usize
        requires { 1 ≤ words }
        ensures { (1 ≤ result) × (result ≤ 16777216) }
    {
        match self {
            Workload::Scan => words.min(MOST_RECORDS),
            _ => 1_024,
        }
    }
}

/// A run.
#[derive(Clone, Copy, Drop, Debug, PartialEq, Eq)]
pub struct Plan {
    pub workload: Workload,
    pub alg: Alg,
    /// 1 to 254.
    pub threads: u32,
    /// The transactions of all threads together, 1 to 2^32 - 1.
    pub count: u32,
    pub seed: u64,
    /// The memory's words, 1,040 to 2^32.
    pub words: usize,
    /// The length of the read log, 1 to 1,048,576.
    pub reads: usize,
    /// How often the first caller installs the algorithm anew before its transactions, while the others do theirs.
    pub switches: u32,
    /// Whether the words that conflict most are named.
    pub conflicts: bool,
}

fn workload_of(word: &str) -> Option<Workload> {
    for workload in WORKLOADS {
        if workload.name() == word {
            return Some(workload);
        }
    }
    None
}

fn algorithm_of(word: &str) -> Option<Alg> {
    for alg in ALGORITHMS {
        if alg.name() == word {
            return Some(alg);
        }
    }
    None
}

/// The run that the words ask for, the first of them the program's name: `WORKLOAD ALGORITHM THREADS COUNT SEED`, a
/// read log's length where it is to be another, `words N` where the memory is to have so many, `switches N` where the
/// first caller is to switch so often, and `conflicts` where the words that conflict most are to be named. Numbers are
/// decimal, without sign and leading zeros.
pub fn plan_of(words: &[&str]) -> Option<Plan>
    ensures { IfSome result IsPlan }
{
    match words {
        [words @ .., "conflicts"] => {
            let plan = switching_of(words)?;
            Some(Plan {
                conflicts: true,
                ..plan
            })
        }
        _ => switching_of(words),
    }
}

/// The run that is asked for without that word.
fn switching_of(words: &[&str]) -> Option<Plan>
    ensures { IfSome result IsPlan }
{
    match words {
        [words @ .., "switches", often] => {
            let switches = number_up_to(u32::MAX, often)?;
            let plan = sized_of(words)?;
            Some(Plan { switches, ..plan })
        }
        _ => sized_of(words),
    }
}

/// The run that is asked for without switches.
fn sized_of(words: &[&str]) -> Option<Plan>
    ensures { IfSome result IsPlan }
{
    match words {
        [words @ .., "words", size] => run_of(words, Some(words_of(size)?)),
        _ => run_of(words, None),
    }
}

/// The words of a memory that a word names.
fn words_of(word: &str) -> Option<usize>
    ensures { IfSome result (λ n. (1040 ≤ n) × (n ≤ 4294967296)) }
{
    let n = number(word)?;
    if n < (WORDS as u64) || n > MOST_WORDS as u64 {
        return None;
    }
    Some(n as usize)
}

/// The run that is asked for by the other words, in a memory of this size where one is named.
fn run_of(words: &[&str], size: Option<usize>) -> Option<Plan>
    requires { IfSome size (λ n. (1040 ≤ n) × (n ≤ 4294967296)) }
    ensures { IfSome result IsPlan }
{
    match words {
        [_, kind, alg, threads, count, seed] => of(kind, alg, threads, count, seed, size),
        [_, kind, alg, threads, count, seed, reads] => {
            let reads = number_up_to(MOST_LOG as u32, reads)?;
            let plan = of(kind, alg, threads, count, seed, size)?;
            Some(Plan {
                reads: reads as usize,
                ..plan
            })
        }
        _ => None,
    }
}

fn of(
    kind: &str,
    alg: &str,
    threads: &str,
    count: &str,
    seed: &str,
    size: Option<usize>,
) -> Option<Plan>
    requires { IfSome size (λ n. (1040 ≤ n) × (n ≤ 4294967296)) }
    ensures { IfSome result IsPlan }
{
    let workload = workload_of(kind)?;
    let words = size.unwrap_or(workload.words());
    Some(Plan {
        workload,
        alg: algorithm_of(alg)?,
        threads: number_up_to(MOST_CALLERS as u32, threads)?,
        count: number_up_to(u32::MAX, count)?,
        seed: number(seed)?,
        words,
        reads: workload.reads(words),
        switches: 0,
        conflicts: false,
    })
}
