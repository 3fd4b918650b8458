//! Reports: what each transaction did, and the memory at the end.
ghost use Rattle.std.specs.Prelude.{◌≡◌};

use crate::lists::Words;
use std::marker::Model;

/// How a transaction ended.
#[derive(Clone, Copy, Drop, Debug, PartialEq, Eq)]
pub enum Kind {
    /// Committed, with writes.
    W,
    /// Committed, without writes.
    R,
    /// Cancelled.
    C,
}

/// What a transaction did.
#[derive(Drop, Debug)]
pub struct Row {
    pub kind: Kind,
    /// The commit's time (W), or the start (R, C).
    pub place: u64,
    pub caller: usize,
    /// How many transactions of its caller stand before it in the workload.
    pub seq: usize,
    /// One for each operation.
    pub replies: Words,
    pub emits: Words,
}

/// Rows, in the report's order: by place, W before R and C, then caller, then seq.
#[derive(Drop)]
pub struct Rows {
    items: Vec<Row>,
}

impl Model for Rows {
    ghost use Rattle.std.specs.Prelude.{List};
    ghost use Rattle.work_script.specs.declared.report.Row.{Row};

    ghost Value = { List Row };

    ghost view = { λ r. r.items.items };
}

impl Rows {
    pub fn new(items: Vec<Row>) -> Rows
        ensures { result ≡ items.items }
    {
        Rows { items }
    }

    pub fn as_slice(&self) -> &[Row]
        ensures { result.now ≡ self.now }
    {
        self.items.as_slice()
    }
}

/// Address and value of the words that aren't 0, by ascending address.
#[derive(Drop)]
pub struct Pairs {
    items: Vec<(usize, u64)>,
}

impl Model for Pairs {
    ghost use Rattle.std.specs.Prelude.{ℕ, List};

    ghost Value = { List (ℕ × ℕ) };

    ghost view = { λ p. p.items.items };
}

impl Pairs {
    pub fn new(items: Vec<(usize, u64)>) -> Pairs
        ensures { result ≡ items.items }
    {
        Pairs { items }
    }

    pub fn as_slice(&self) -> &[(usize, u64)]
        ensures { result.now ≡ self.now }
    {
        self.items.as_slice()
    }
}

/// What a run did: its transactions and the memory that they left.
#[derive(Drop)]
pub struct Report {
    pub rows: Rows,
    pub memory: Pairs,
}
