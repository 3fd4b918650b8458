//! Summaries of reports.
ghost use Rattle.std.specs.Prelude.{◌≡◌, ◌+◌, ◌%◌, ◌^◌, ◌<◌};
ghost use Rattle.data_effects.specs.Keys.{how_many};
ghost use Rattle.work_gen.specs.Summaries.{committed, is_used, sum_in, word_in};

use work_script::report::{Kind, Report, Row};

/// What a report of a generated workload comes to.
#[derive(Clone, Copy, Drop, Debug, PartialEq, Eq)]
pub struct Summary {
    /// Transactions that committed.
    pub commits: u64,
    /// The sum of the accounts, modulo 2^64.
    pub accounts: u64,
    /// The sum of the counter's stripes, modulo 2^64.
    pub counter: u64,
    /// The number of keys in the list.
    pub list: u64,
}

impl Summary {
    ghost use Rattle.work_gen.specs.Summaries.{summary_of};

    /// The summary of a report.
    pub fn of(report: &Report) -> Summary
        ensures { result ≡ summary_of report.now }
    {
        let memory = report.memory.as_slice();
        Summary {
            commits: committed(report.rows.as_slice()),
            accounts: sum(memory, 0, 64),
            counter: sum(memory, 64, 4),
            list: used_cells(memory, 32),
        }
    }
}

/// How many rows are of transactions that committed.
fn committed(rows: &[Row]) -> u64
    ensures { result ≡ committed rows.now }
{
    let mut count = 0;
    for row in rows {
        match row.kind {
            Kind::W | Kind::R => count += 1,
            Kind::C => {}
        }
    }
    count
}

/// The word at an address.
fn word(memory: &[(usize, u64)], address: usize) -> u64
    ensures { result ≡ word_in memory.now address }
{
    for pair in memory {
        if pair.0 == address {
            return pair.1;
        }
    }
    0
}

/// The sum of so many words from an address on, modulo 2^64.
fn sum(memory: &[(usize, u64)], address: usize, words: usize) -> u64
    requires { address + words < 2 ^ 64 }
    ensures { result ≡ sum_in memory.now address words % 2 ^ 64 }
{
    let mut sum = 0u64;
    for i in 0..words {
        sum = sum.wrapping_add(word(memory, address + i));
    }
    sum
}

/// How many of the first cells of the list have a key.
fn used_cells(memory: &[(usize, u64)], cells: usize) -> u64
    requires { cells < 2 ^ 32 }
    ensures { result ≡ how_many (is_used memory.now) cells }
{
    let mut used = 0;
    for i in 0..cells {
        if word(memory, 129 + 2 * i) != 0 {
            used += 1;
        }
    }
    used
}
