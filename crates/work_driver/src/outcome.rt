//! What a run came to.

use stm_rule::ending::Closed;
use work_script::report::Report;

/// What a run came to, with the closed memory.
#[derive(Drop)]
pub enum RunOutcome {
    /// All transactions have ended.
    ToEnd { report: Report, closed: Closed },
    /// A call found the clock at its limit; what was open then ended without a row.
    ToLimit { clock: u64, closed: Closed },
    /// Memory was refused between two turns, or for the report: what was open then ended without a row.
    OutOfMemory { closed: Closed },
}
