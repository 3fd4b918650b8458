//! What the replay wants in the place of a fault.
use work_script::report::Row;

/// What the replay wants on a report's first line at fault.
#[derive(Drop, Debug)]
pub enum Wanted {
    /// A row that comes after the one above it: by place, W before R and C, by caller, by number.
    Later,
    /// A W row at another place than that of the W row above it.
    Apart,
    /// The row of its caller's next transaction, which has this number.
    Next { seq: usize },
    /// No row of its caller, which has no more transactions than these.
    Over { count: usize },
    /// This row, which tells what the transaction's script does on the memory so far.
    Row(Row),
    /// The row of this transaction, which has none.
    Missing { caller: usize, seq: usize },
    /// This word of the memory that the rows leave.
    Word { address: usize, value: u64 },
    /// `end`: no further word isn't 0.
    End,
}
