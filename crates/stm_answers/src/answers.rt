//! The answers of the calls of an attempt and of the gate. Clocks, times, starts and words of the memory's table are
//! `u64`.
use stm_model::alg::Alg;
use stm_model::stop::Cause;

/// What a try to begin an attempt comes to.
#[derive(Clone, Copy, Drop, Debug, PartialEq, Eq)]
pub enum Begin {
    /// An attempt of this algorithm is under way.
    Begun(Alg),
    /// The gate is closed by another caller: this is its word.
    Closed { gate: u64 },
    /// Another caller's attempt is in the way: this is the lock word, or the odd clock.
    Held { word: u64 },
    /// The clock is at its limit, 2^62.
    ClockFull { clock: u64 },
}

/// What a read in an attempt comes to. All answers but a value end the attempt.
#[derive(Clone, Copy, Drop, Debug, PartialEq, Eq)]
pub enum Read {
    Value(u64),
    /// Another transaction came in between.
    Conflict(Cause),
    /// The read log has its length.
    Full { limit: usize },
}

/// What a write in an attempt comes to. All answers but `Done` end the attempt.
#[derive(Clone, Copy, Drop, Debug, PartialEq, Eq)]
pub enum Write {
    Done,
    /// Another transaction came in between.
    Conflict(Cause),
    /// The write or undo log has its length.
    Full { limit: usize },
    /// The clock is at its limit, 2^62.
    ClockFull { clock: u64 },
}

/// What a try to commit comes to. All answers but `Again` end the attempt.
#[derive(Clone, Copy, Drop, Debug, PartialEq, Eq)]
pub enum Commit {
    /// What it wrote stands from this time on.
    Committed { time: u64 },
    /// It wrote nothing. What it read is the memory at this time, its start.
    ReadOnly { time: u64 },
    /// Another transaction came in between.
    Conflict(Cause),
    /// Another commit was faster: word 0 is the clock, 1 the lock. It may be tried again.
    Again { word: u64, had: u64, now: u64 },
    /// The clock is at its limit, 2^62.
    ClockFull { clock: u64 },
}

/// What a try to cancel comes to.
#[derive(Clone, Copy, Drop, Debug, PartialEq, Eq)]
pub enum Cancel {
    /// It left no trace. What it read is the memory at this time, its start.
    Cancelled { time: u64 },
    /// It can only be committed: nothing has changed.
    Irrevocable,
}

/// What a try to become irrevocable comes to. `Conflict` and `ClockFull` end the attempt; all others leave it running.
#[derive(Clone, Copy, Drop, Debug, PartialEq, Eq)]
pub enum Irrev {
    /// From now on the attempt can only be committed, and no call of it is refused.
    Granted,
    /// The attempt holds the gate, and this caller was not idle: its status word. It may be tried again.
    Busy { caller: usize, status: u64 },
    /// Another caller holds the gate: this is its word.
    Taken { gate: u64 },
    /// Another transaction came in between.
    Conflict(Cause),
    /// The clock is at its limit, 2^62.
    ClockFull { clock: u64 },
}

/// What a call for a mark comes to. Both leave the attempt running.
#[derive(Clone, Copy, Drop, Debug, PartialEq, Eq)]
pub enum Check {
    /// This mark stands, at what the attempt has written; the first is 1.
    Marked { depth: usize },
    /// As many marks stand as may: nothing has changed.
    Deep { limit: usize },
}

/// What a call to roll an attempt back to a mark comes to. Both leave it running.
#[derive(Clone, Copy, Drop, Debug, PartialEq, Eq)]
pub enum Roll {
    /// What the attempt wrote since is as if it had not been written.
    Rolled,
    /// The attempt can only be committed: nothing has changed.
    Irrevocable,
}

/// What a try to close the gate comes to.
#[derive(Clone, Copy, Drop, Debug, PartialEq, Eq)]
pub enum CloseGate {
    /// The caller holds the gate: no attempt begins until it reopens it.
    Closed,
    /// Another caller holds it: this is the gate's word.
    Taken { gate: u64 },
}

/// What a look at the other callers comes to, by a caller that holds the gate.
#[derive(Clone, Copy, Drop, Debug, PartialEq, Eq)]
pub enum Look {
    /// Each other caller was seen idle since the gate was closed: no other attempt is open.
    Quiet,
    /// This caller was not idle: its status word.
    Busy { caller: usize, status: u64 },
}

/// What a call to take a range of words out of the transactions comes to. Both leave the caller holding the gate.
#[derive(Clone, Copy, Drop, Debug, PartialEq, Eq)]
pub enum Fence {
    /// The range is the caller's: no attempt loads or stores a word of it until it is given back.
    Fenced,
    /// A range is out already: this is the gate's word.
    Taken { gate: u64 },
}

/// What a call to give a range back comes to. All leave the caller holding the gate.
#[derive(Clone, Copy, Drop, Debug, PartialEq, Eq)]
pub enum Give {
    /// What was written there stands from this time on.
    Committed { time: u64 },
    /// Nothing was written there since the range was taken.
    Unchanged,
    /// The clock is at its limit, 2^62: the range is still out.
    ClockFull { clock: u64 },
}

/// Where a descriptor stands between two calls.
#[derive(Clone, Copy, Drop, Debug, PartialEq, Eq)]
pub enum TxState {
    Idle,
    /// In an attempt.
    Running(Alg),
    /// In an attempt, in the middle of its commit.
    Committing(Alg),
    /// It closed the gate.
    Closing(Alg),
}
