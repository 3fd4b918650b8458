//! Backoff: how long a caller pauses while another is in its way, before it tries again. A pause takes no step on the
//! memory, and no promise rests on its length.
#![tactic(auto)]

ghost use Rattle.std.specs.Prelude.{◌≤◌};
ghost use Rattle.tx_backoff.specs.Pauses.{IsRested};

use std::time::Duration;
use std::{hint, thread};

/// The shortest and the longest pause of a caller that another was faster than, as powers of two of the processor's
/// own short pause, of some 10 to 60 nanoseconds. Each try of a caller that waits takes the words that it waits for
/// from the cache of the caller that works, so the longest lets that one make some hundred calls.
const SHORTEST: u16 = 5;

const LONGEST: u16 = 10;

/// The same of a caller that found a lock held. Each change of hands moves the lines of lock, clock and words from one
/// cache to another, which costs more than a short transaction: so the holder has the time for some hundred of them.
const SHORTEST_AT_LOCK: u16 = 10;

const LONGEST_AT_LOCK: u16 = 14;

/// The shortest pause of a caller that another was faster than at a commit. That one is done, and the caller holds what
/// it has taken while it waits.
const SHORTEST_AT_COMMIT: u16 = 0;

/// After so many of the longest pauses, about a millisecond,
/// who waits for what nobody tells it sleeps between its looks.
const PAUSES_BEFORE_NAPS: u32 = 32;

/// After the shorter pauses and so many yields who will be woken sleeps.
const YIELDS_BEFORE_SLEEP: u32 = 4;

/// The shortest and the longest sleep, as powers of two of a microsecond: no longer than it has waited already.
const SHORTEST_NAP: u32 = 6;

const LONGEST_NAP: u32 = 10;

/// How long a caller that will be woken spins before it sleeps: a sleep and a wake cost some 20 microseconds, so
/// spinning serves where what is waited for comes sooner as a rule. It is learned from the waits before.
#[derive(Clone, Copy, Drop, Debug, PartialEq, Eq)]
pub struct Patience {
    /// The longest pause before the sleep, as a power of two.
    longest: u16,
}

impl Patience {
    /// Some 20 to 60 microseconds, the most that there is.
    pub fn new() -> Patience {
        Patience { longest: LONGEST }
    }

    /// None: the caller sleeps at once. For memories with more callers than there are processors.
    pub fn none() -> Patience {
        Patience { longest: SHORTEST }
    }

    /// A wait is over. Where it ended in a sleep the next one spins half as long; where it ended before, twice as long.
    pub fn learn(&mut self, waited: &Backoff) {
        if waited.is_to_sleep() {
            self.longest = SHORTEST.max(self.longest.saturating_sub(1));
        } else if waited.next > SHORTEST {
            self.longest = LONGEST.min(self.longest.saturating_add(1));
        }
    }
}

/// Pauses, each twice as long as the one before up to the longest. A wait takes no step on the memory. All fields
/// together are one word, since each commit stores them anew.
#[derive(Clone, Copy, Drop, Debug, PartialEq, Eq)]
pub struct Backoff {
    /// The next pause, as a power of two.
    next: u16,
    /// The next one at a commit.
    at_commit: u16,
    /// How many of the longest there were, or yields in their place, and sleeps after them.
    long: u32,
}

impl Backoff {
    pub fn new() -> Backoff
        ensures { IsRested result }
    {
        Backoff {
            next: SHORTEST,
            at_commit: SHORTEST_AT_COMMIT,
            long: 0,
        }
    }

    /// Another caller was faster, or has closed the gate: pauses 32, 64 and at last 1,024 times, and from then on lets
    /// another thread run after each pause.
    pub fn wait(&mut self) {
        self.next = pause(self.next, LONGEST);
    }

    /// Another caller may be long in the way: pauses as [`Backoff::wait`] does, and after about a millisecond answers
    /// how long the caller may sleep before it looks again, 64 microseconds at first and at last 1,024.
    pub fn wait_or_nap(&mut self) -> Option<Duration> {
        if self.next < LONGEST {
            self.wait();
            return None;
        }
        self.long = (PAUSES_BEFORE_NAPS + LONGEST_NAP).min(self.long.saturating_add(1));
        if self.long <= PAUSES_BEFORE_NAPS {
            self.wait();
            return None;
        }
        let length = (SHORTEST_NAP + (self.long - PAUSES_BEFORE_NAPS - 1)).min(LONGEST_NAP);
        Some(Duration::from_micros(1u64 << length))
    }

    /// Another caller's attempt has the lock, or has made the clock odd: pauses 1,024, 2,048 and at last 16,384 times,
    /// and lets another thread run after each pause.
    pub fn wait_for_lock(&mut self) {
        self.next = pause(self.next.max(SHORTEST_AT_LOCK), LONGEST_AT_LOCK);
    }

    /// Another caller was faster at the commit, which may be tried again: pauses once, 2 times and at last 1,024 times,
    /// and from then on lets another thread run after each pause.
    pub fn wait_at_commit(&mut self) {
        self.at_commit = pause(self.at_commit, LONGEST);
    }

    /// Somebody will wake the caller, who may sleep: pauses as [`Backoff::wait`] does as long as its patience lasts,
    /// and then lets other threads run, which get on where there are more of them than processors.
    pub fn wait_to_sleep(&mut self, patience: &Patience) {
        if self.next < patience.longest {
            self.wait();
        } else {
            self.long = self.long.saturating_add(1);
            thread::yield_now();
        }
    }

    /// Whether it has waited so for long enough.
    pub fn is_to_sleep(&self) -> bool {
        self.long >= YIELDS_BEFORE_SLEEP
    }

    /// The caller got on: the next pause is the shortest.
    pub fn reset(&mut self)
        ensures { IsRested self.new }
    {
        self.next = SHORTEST;
        self.at_commit = SHORTEST_AT_COMMIT;
        self.long = 0;
    }
}

/// Pauses, and answers the pause after this one.
fn pause(next: u16, longest: u16) -> u16
    requires { longest ≤ LONGEST_AT_LOCK }
{
    let now = next.min(longest);
    for _ in 0..1u32 << u32::from(now) {
        hint::spin_loop();
    }
    if now >= LONGEST {
        thread::yield_now();
    }
    longest.min(now + 1)
}
