//! Why an attempt has to end.

/// What an attempt met that it cannot go on from. Clocks, starts, versions, words and filter bits are
/// `u64`; an index is that of an ownership record.
#[derive(Clone, Copy, Drop, Debug, PartialEq, Eq)]
pub enum Cause {
    /// The clock was `now`, where the attempt had begun at `had`.
    Clock {
        had: u64,
        now: u64,
    },
    /// The record's `word` was locked by another, or newer than the `start` compared with.
    Record {
        index: usize,
        word: u64,
        start: u64,
    },
    /// The record was `before`, and then `after`.
    Moved {
        index: usize,
        before: u64,
        after: u64,
    },
    /// The ring's entry of this `time` met the attempt's read filter in these `bits`.
    Filter {
        time: u64,
        bits: u64,
    },
    /// The ring no longer reaches back from `clock` to `start`.
    Overrun {
        start: u64,
        clock: u64,
    },
}

/// Why an attempt has ended without a commit.
#[derive(Clone, Copy, Drop, Debug, PartialEq, Eq)]
pub enum Stop {
    /// Another transaction came in between.
    Conflict(Cause),
    /// The log has its length, `limit`, and one more item is needed.
    Full { limit: usize },
    /// The clock was loaded at its limit, 2^62, or above.
    ClockFull { clock: u64 },
}
