//! What a run came to, as two lines of text, one where there were switches, and one for each word that is named.

use crate::conflicts::Conflicts;
use crate::looks::Looks;
use crate::plan::Plan;
use crate::work_counts::WorkCounts;
use std::fmt::{self, Display, Formatter, Write};
use tx_atomic::tally::Tally;

/// What a run came to.
#[derive(Drop)]
pub struct Report {
    pub plan: Plan,
    pub tally: Tally,
    /// Whether the memory was what the transactions leave.
    pub right: bool,
    /// The memory's words, and what the transactions that left them counted.
    pub words: Vec<u64>,
    pub work_counts: WorkCounts,
    /// How many nanoseconds the transactions took; None where the clock couldn't be read.
    pub took: Option<u64>,
    /// What the switches took that the plan asks for.
    pub looks: Looks,
    /// What the callers met, word by word; nothing where the plan doesn't ask for it.
    pub conflicts: Conflicts,
}

impl Display for Report {
    fn fmt<W: Write>(&self, f: &mut Formatter<W>) -> fmt::Result {
        self.fmt_run(f)?;
        self.fmt_tally(f)?;
        write!(f, "{}{}", self.looks, self.conflicts)
    }
}

impl Report {
    /// The run, and whether its memory was right.
    fn fmt_run<W: Write>(&self, f: &mut Formatter<W>) -> fmt::Result {
        let Plan {
            workload,
            alg,
            threads,
            count,
            ..
        } = self.plan;
        let (workload, alg) = (workload.name(), alg.name());
        let memory = if self.right { "right" } else { "WRONG" };
        writeln!(
            f,
            "{workload} {alg} threads {threads} transactions {count} memory {memory}"
        )
    }

    /// How its attempts ended.
    fn fmt_tally<W: Write>(&self, f: &mut Formatter<W>) -> fmt::Result {
        let Tally {
            commits,
            closed,
            held,
            fenced: _,
            conflicts,
            full,
            busy,
            taken,
            again,
            promotions,
        } = self.tally;
        write!(
            f,
            "commits {commits} promotions {promotions} failed closed {closed} held {held} conflict {conflicts} "
        )?;
        write!(
            f,
            "full {full} taken {taken} waited busy {busy} again {again}"
        )
    }
}

/// How long a run's transactions took, and how many of them a second that makes.
#[derive(Clone, Copy, Drop)]
pub struct Rate<'a>(pub &'a Report);

impl Display for Rate<'_> {
    fn fmt<W: Write>(&self, f: &mut Formatter<W>) -> fmt::Result {
        let Some(took) = self.0.took else {
            return f.write_str("microseconds unknown");
        };
        let commits = u128::from(self.0.tally.commits);
        let rate = commits * 1_000_000_000 / u128::from(took.max(1));
        let micros = took / 1_000;
        write!(f, "microseconds {micros} transactions a second {rate}")
    }
}
