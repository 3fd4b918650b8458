//! What a caller was refused last.
use stm_model::stop::Cause;

/// What came in the way of a call that fitted.
#[derive(Clone, Copy, Drop, Debug, PartialEq, Eq)]
pub enum Refusal {
    /// Another transaction came in between.
    Conflict(Cause),
    /// Another caller has closed the gate: this is its word.
    GateClosed { gate: u64 },
    /// Another attempt is in the way: this is the lock word, or the odd clock.
    Held { word: u64 },
    /// This caller was in an attempt: its status word.
    Busy { caller: usize, status: u64 },
    /// Another commit was faster: word 0 is the clock, 1 the lock.
    Again { word: u64, had: u64, now: u64 },
    /// The read log has as many items as it may.
    ReadsFull { limit: usize },
    /// The logs of what is written have as many items as they may.
    WritesFull { limit: usize },
    /// The clock is at its limit, 2^62.
    ClockFull { clock: u64 },
    /// The attempt can only be committed.
    Irrevocable,
    /// As many marks stand as may.
    Deep { limit: usize },
    /// A range of words is out of the transactions already: this is the word of the open gate that names it.
    RangeTaken { gate: u64 },
}
