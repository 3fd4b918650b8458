//! What came of a caller's attempts.
ghost use Rattle.std.specs.Prelude.{◌≡◌};

use stm_model::stop::{Cause, Stop};

/// Why an attempt ended without a commit, or what a call of it was refused by.
#[derive(Clone, Copy, Drop, Debug, PartialEq, Eq)]
pub enum Ended {
    /// The gate was closed.
    Closed,
    /// Another had the lock or the clock.
    Held,
    /// A range of words was out of the transactions.
    Fenced,
    Conflict(Cause),
    /// A log had its length.
    Full,
    /// Another was in an attempt where this one asked to be irrevocable; it goes on.
    Busy,
    /// Another held the gate where this one asked to be irrevocable.
    Taken,
    /// Another was faster at the commit; it goes on.
    Again,
    /// The clock was at its limit, 2^62.
    ClockFull,
}

impl Ended {
    ghost use Rattle.tx_atomic.specs.Attempts.{ended_by};

    /// How an attempt ended that was stopped so.
    pub fn by(stop: Stop) -> Ended
        ensures { result ≡ ended_by stop }
    {
        match stop {
            Stop::Conflict(cause) => Ended::Conflict(cause),
            Stop::Full { .. } => Ended::Full,
            Stop::ClockFull { .. } => Ended::ClockFull,
        }
    }
}

/// How often each came. A count stands still at 2^64 - 1.
#[derive(Clone, Copy, Drop, Debug, PartialEq, Eq)]
pub struct Tally {
    pub commits: u64,
    pub closed: u64,
    pub held: u64,
    pub fenced: u64,
    pub conflicts: u64,
    pub full: u64,
    pub busy: u64,
    pub taken: u64,
    pub again: u64,
    /// Attempts that were made irrevocable.
    pub promotions: u64,
}

impl Tally {
    ghost use Rattle.tx_atomic.specs.Tallies.{CommitsStay, none, with_commit, with_promotion, noted, both};

    pub fn new() -> Tally
        ensures { result ≡ none }
    {
        Tally {
            commits: 0,
            closed: 0,
            held: 0,
            fenced: 0,
            conflicts: 0,
            full: 0,
            busy: 0,
            taken: 0,
            again: 0,
            promotions: 0,
        }
    }

    /// Counts a commit.
    pub fn commit(&mut self)
        ensures { self.new ≡ with_commit self.old }
    {
        self.commits = self.commits.saturating_add(1);
    }

    /// Counts an attempt that was made irrevocable.
    pub fn promote(&mut self)
        ensures { self.new ≡ with_promotion self.old }
    {
        self.promotions = self.promotions.saturating_add(1);
    }

    /// Counts an attempt that ended so, or such a refusal. A clock at its limit isn't counted.
    pub fn note(&mut self, ended: Ended)
        ensures noted { self.new ≡ noted ended self.old }
        ensures commits { CommitsStay self.old self.new }
    {
        match ended {
            Ended::Closed => self.closed = self.closed.saturating_add(1),
            Ended::Held => self.held = self.held.saturating_add(1),
            Ended::Fenced => self.fenced = self.fenced.saturating_add(1),
            Ended::Conflict(_) => self.conflicts = self.conflicts.saturating_add(1),
            Ended::Full => self.full = self.full.saturating_add(1),
            Ended::Busy => self.busy = self.busy.saturating_add(1),
            Ended::Taken => self.taken = self.taken.saturating_add(1),
            Ended::Again => self.again = self.again.saturating_add(1),
            Ended::ClockFull => {}
        }
    }

    /// The counts of both.
    pub fn with(&self, other: &Tally) -> Tally
        ensures { result ≡ both self.now other.now }
    {
        Tally {
            commits: self.commits.saturating_add(other.commits),
            closed: self.closed.saturating_add(other.closed),
            held: self.held.saturating_add(other.held),
            fenced: self.fenced.saturating_add(other.fenced),
            conflicts: self.conflicts.saturating_add(other.conflicts),
            full: self.full.saturating_add(other.full),
            busy: self.busy.saturating_add(other.busy),
            taken: self.taken.saturating_add(other.taken),
            again: self.again.saturating_add(other.again),
            promotions: self.promotions.saturating_add(other.promotions),
        }
    }
}
