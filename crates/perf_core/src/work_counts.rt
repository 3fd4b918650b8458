//! What the transactions that committed came to.

/// What a transaction came to.
#[derive(Clone, Copy, Drop, Debug, PartialEq, Eq)]
pub enum Came {
    Done,
    Inserted,
    Removed,
    /// The accounts had together something else than they began with.
    Wrong,
}

/// What transactions came to. A count stands still at 2^64 - 1.
#[derive(Clone, Copy, Drop, Debug, PartialEq, Eq)]
pub struct WorkCounts {
    /// Keys put into a set, and taken out of it.
    pub inserted: u64,
    pub removed: u64,
    /// Sums of all accounts that were not what the accounts began with.
    pub wrong: u64,
    /// The sums that scans saw, together.
    pub seen: u64,
}

impl WorkCounts {
    pub fn new() -> WorkCounts {
        WorkCounts {
            inserted: 0,
            removed: 0,
            wrong: 0,
            seen: 0,
        }
    }

    /// Counts a transaction that committed. Most come to nothing that is counted.
    #[inline]
    pub fn note(&mut self, came: Came) {
        if came != Came::Done {
            self.count(came);
        }
    }

    #[cold]
    #[inline(never)]
    fn count(&mut self, came: Came) {
        match came {
            Came::Done => {}
            Came::Inserted => self.inserted = self.inserted.saturating_add(1),
            Came::Removed => self.removed = self.removed.saturating_add(1),
            Came::Wrong => self.wrong = self.wrong.saturating_add(1),
        }
    }

    /// Counts what a scan saw.
    pub fn see(&mut self, sum: u64) {
        self.seen = self.seen.saturating_add(sum);
    }

    /// The counts of both.
    pub fn with(&self, other: &WorkCounts) -> WorkCounts {
        WorkCounts {
            inserted: self.inserted.saturating_add(other.inserted),
            removed: self.removed.saturating_add(other.removed),
            wrong: self.wrong.saturating_add(other.wrong),
            seen: self.seen.saturating_add(other.seen),
        }
    }
}
