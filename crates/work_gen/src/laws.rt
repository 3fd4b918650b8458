//! Laws of the definitions, each the contract of a function.
ghost use Rattle.work_gen.specs.Limits.{LimitsAre};
ghost use Rattle.work_gen.specs.Summaries.{SummaryIsCounted, SummaryTellsMemory};

use data_cells::laws::{chains_are_apart, contents_change};

/// The numbers of generated workloads are these.
pub fn limits_are()
    ensures { LimitsAre }
{}

/// Every report that replays a generated workload has the same summary, whatever the order in which its
/// callers came: it is known by counting the transactions.
pub fn summary_is_counted()
    ensures { SummaryIsCounted }
{
    contents_change();
    chains_are_apart();
}

/// A summary is that of the memory that the report tells: the sum of its accounts, the total of its counter and
/// the length of its list.
pub fn summary_tells_memory()
    ensures { SummaryTellsMemory }
{}
