//! What the callers find, counted.
use std::sync::atomic::{AtomicUsize, Ordering};

/// What a caller found in the words that it might read.
#[derive(Clone, Copy, Drop, Debug, PartialEq, Eq)]
pub struct Sight {
    /// Whether the range was out.
    pub out: bool,
    /// The sum of the words.
    pub sum: u64,
    /// The sum of the words of the range, the first of them once, the second twice, and so on.
    pub weight: u64,
}

impl Sight {
    /// Words 0 to 7 hold 800 in all. Where the range is back, it holds the numbers 1 to 8 in order, one way or the
    /// other: of all their orders these two have the greatest weight and the least.
    pub fn is_right(self) -> bool {
        if self.out {
            self.sum == 800 && self.weight == 0
        } else {
            self.sum == 836 && (self.weight == 204 || self.weight == 120)
        }
    }
}

/// What came of all that the callers did.
#[derive(Drop)]
pub struct Counts {
    /// How often the range was given back by an entry.
    pub entries: AtomicUsize,
    /// Attempts of the others that committed and had found all right, while the range was out and while it wasn't.
    pub out: AtomicUsize,
    pub back: AtomicUsize,
    /// Those that committed and had found something wrong.
    pub wrong: AtomicUsize,
    /// 1 once the caller that takes the range is through.
    pub through: AtomicUsize,
}

impl Counts {
    pub fn new() -> Counts {
        Counts {
            entries: AtomicUsize::new(0),
            out: AtomicUsize::new(0),
            back: AtomicUsize::new(0),
            wrong: AtomicUsize::new(0),
            through: AtomicUsize::new(0),
        }
    }

    pub fn note(&self, sight: Sight) {
        let count = if !sight.is_right() {
            &self.wrong
        } else if sight.out {
            &self.out
        } else {
            &self.back
        };
        count.fetch_add(1, Ordering::SeqCst);
    }

    pub fn is_through(&self) -> bool {
        self.through.load(Ordering::SeqCst) > 0
    }

    pub fn was_seen_out(&self) -> bool {
        self.out.load(Ordering::SeqCst) > 0
    }
}
